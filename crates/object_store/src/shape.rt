//! Shapes: lists of tokens in preorder, with spare room.
ghost use Rattle.std.specs.Prelude.{◌≡◌, ◌+◌, ◌<◌, ◌≤◌, [], ◌∷◌, ◌++◌, ◌↔◌, length, IsTrue, IsOk};
ghost use Rattle.std.specs.Prelude.{IfOk, OnOk, OnErr};
ghost use Rattle.bz_model.specs.Object.{none, more};
ghost use Rattle.object_store.specs.Tokens.{size_of, IsOf, AreOf};
ghost use Rattle.object_store.specs.Waiting.{AreWaiting};

use crate::token::Token;
use crate::walk::{Next, Walk};
use class_system::ids::ClassId;
use class_system::system::System;
use std::alloc::{AllocError, Global};
use std::marker::Model;

/// A list of tokens, seen as its items and how many more may be pushed without a refusal.
#[derive(Drop)]
pub struct Shape {
    content: Vec<Token>,
    dots: u64,
}

impl Model for Shape {
    ghost use Rattle.std.specs.Prelude.{◌≡◌, ◌-◌, vec_len, vec_capacity};
    ghost use Rattle.bz_model.specs.Roomy.{Roomy};
    ghost use Rattle.object_store.specs.declared.token.Token.{Token};
    ghost use Rattle.object_store.specs.Tokens.{size_of};

    ghost Value = { Roomy Token };

    ghost view = { λ s. record {
      items = s.content.items;
      spare =
          vec_capacity s.content - vec_len s.content;
    } };

    ghost invariant = { λ s. s.dots ≡ size_of s.content.items };
}

impl Shape {
    /// The empty list.
    pub fn new(alloc: Global) -> Shape
        ensures { result.items ≡ [] }
    {
        Shape {
            content: Vec::new(alloc),
            dots: 0,
        }
    }

    /// Forgets all tokens. Gives no memory back.
    #[inline(always)]
    pub fn clear(&mut self)
        ensures items { self.new.items ≡ [] }
        ensures spare { self.old.spare ≤ self.new.spare }
    {
        self.content.clear();
        self.dots = 0;
    }

    /// Takes memory for at least `more` further tokens. The list stays as it was in any case.
    #[inline(always)]
    pub fn reserve(&mut self, more: usize) -> Result<(), AllocError>
        ensures items { self.new.items ≡ self.old.items }
        ensures spare { OnOk result (more ≤ self.new.spare) }
    {
        self.content.reserve(more)
    }

    /// Appends a token. A refusal leaves the list as it was, and none comes where there is spare
    /// room.
    #[inline(always)]
    pub fn push(&mut self, t: Token) -> Result<(), AllocError>
        ensures ok { OnOk result (self.new.items ≡ self.old.items ++ t ∷ []) }
        ensures err { OnErr result (self.new.items ≡ self.old.items) }
        ensures room { 0 < self.old.spare → IsOk result }
        ensures spare { self.old.spare ≤ self.new.spare + 1 }
    {
        self.content.push(t)?;
        self.dots += t.atoms();
        Ok(())
    }

    /// The number of atoms, which is the number of dots. Takes no memory and no walk.
    #[inline(always)]
    pub fn size(&self) -> u64
        ensures { result ≡ size_of self.now.items }
    {
        self.dots
    }

    /// The tokens in order. Takes no memory.
    pub fn tokens(&self) -> &[Token]
        ensures { result.now ≡ self.now.items }
    {
        self.content.as_slice()
    }

    /// The walk over the tokens, as those of an object of a class: the class's body waits, and all
    /// tokens are left.
    pub fn walk<'a>(&'a self, system: &'a System, c: ClassId) -> Result<Walk<'a>, AllocError>
        requires in_range { c.0 < length system.now.names }
        ensures system { IfOk result (λ w. w.system ≡ system.now) }
        ensures left { IfOk result (λ w. w.left ≡ self.now.items) }
        ensures asked { IfOk result (λ w. AreOf system.now w.waiting w.left
            ↔ IsOf system.now c.0 self.now.items) }
        ensures waits { IfOk result (λ w. (of : IsOf system.now c.0 self.now.items)
            → (w.waiting ≡ of.body ∷ [])
            × AreWaiting system.now w.waiting (more of.object none) w.left) }
    {
        system.known();
        Walk::new(
            *self.content.allocator(),
            system,
            system.body(c),
            self.tokens(),
        )
    }

    /// Whether the tokens are those of one object of a class.
    ///
    /// It walks over the tokens with a stack of nodes of its own, and fails only where memory runs
    /// out.
    pub fn is_of(&self, system: &System, c: ClassId) -> Result<bool, AllocError>
        requires in_range { c.0 < length system.now.names }
        ensures is_of { IfOk result (λ b. IsTrue b ↔ IsOf system.now c.0 self.now.items) }
    {
        let mut walk = self.walk(system, c)?;
        'visits: loop {
            match walk.next()? {
                Next::Node(..) => {}
                Next::End => return Ok(true),
                Next::NoObject => return Ok(false),
            }
        }
    }
}

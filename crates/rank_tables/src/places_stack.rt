//! Sizes and places of objects whose parts were all taken.
ghost use Rattle.std.specs.Prelude.{◌≡◌, [], ◌∷◌, ◌++◌, length, option_to_list, IfOk, OnOk, IfNone};

use std::alloc::{AllocError, Global};
use std::marker::Model;

/// The size of an object, and its place, where that is below `2^128`.
#[derive(Clone, Copy, Debug)]
pub struct Placed {
    pub size: usize,
    pub place: Option<u128>,
}

/// Objects, the last one taken first.
#[derive(Drop)]
pub struct PlacesStack {
    content: Vec<Placed>,
}

impl Model for PlacesStack {
    ghost use Rattle.std.specs.Prelude.{List, reverse};
    ghost use Rattle.rank_tables.specs.declared.places_stack.Placed.{Placed};

    ghost Value = { List Placed };

    ghost view = { λ t. reverse t.content.items };
}

impl PlacesStack {
    /// No object.
    pub fn new(alloc: Global) -> PlacesStack
        ensures { result ≡ [] }
    {
        PlacesStack {
            content: Vec::new(alloc),
        }
    }

    /// Puts an object in front. After a refusal nothing is said of the objects.
    pub fn push(&mut self, object: Placed) -> Result<(), AllocError>
        ensures ok { OnOk result (self.new ≡ object ∷ self.old) }
    {
        self.content.push(object)?;
        Ok(())
    }

    /// Takes the first object; None exactly where there is none. Takes no memory.
    pub fn pop(&mut self) -> Option<Placed>
        ensures items { self.old ≡ option_to_list result ++ self.new }
        ensures none { IfNone result (self.old ≡ []) }
    {
        self.content.pop()
    }

    /// Takes the first `count` objects. After a refusal nothing is said of the objects.
    pub fn take(&mut self, alloc: Global, count: usize) -> Result<Vec<Placed>, AllocError>
        ensures items { IfOk result (λ taken. self.old ≡ taken.items ++ self.new) }
        ensures count { IfOk result (λ taken. length taken.items ≡ count) }
    {
        let mut taken = Vec::new(alloc);
        for i in 0..count {
            let Some(object) = self.pop() else {
                return Err(AllocError);
            };
            taken.push(object)?;
        }
        Ok(taken)
    }
}

//! An object with an atom marked, visit by visit.
//!
//! Off the way to the atom all tokens stay. On it a pick tells the choice among the parts that have
//! an atom, a tuple is picked likewise, and a sequence comes apart into what stands before the
//! marked part, that part, and what stands after it.
ghost use Rattle.std.specs.Prelude.{◌≡◌, ℕ, ◌-◌, ◌<◌, ◌++◌, [], ◌∷◌, List, length, option_to_list};
ghost use Rattle.std.specs.Prelude.{IfOk, OnOk, IfNone};
ghost use Rattle.bz_model.specs.Spec.{Spec, node_at};
ghost use Rattle.bz_model.specs.Object.{none};
ghost use Rattle.object_store.specs.Seen.{nodes_below, parts_at};
ghost use Rattle.object_store.specs.Tokens.{IsOf};
ghost use Rattle.object_store.specs.declared.token.Token as model;
ghost use Rattle.object_store.specs.declared.visit.Visit.TheVariants.{Product, Seq};
ghost use Rattle.pointing.specs.Atoms.{atomic_nodes, is_atomic_node};
ghost use Rattle.pointing.specs.Calls.{AreMarkedAt};
ghost use Rattle.pointing.specs.Marking.{choices, choice_at};
ghost use Rattle.pointing.specs.Ways.{way};
ghost use Rattle.pointing.specs.Writing.{token_at, pick_of, WritesOn, IsDue, SameWriting};
ghost use Rattle.pointing.specs.Writing.{HasWritten, with_first};
ghost use Rattle.pointing.specs.declared.pieces.Piece.TheVariants.{Copied, Marked};

use crate::atoms::count_marked;
use crate::pieces::{Piece, Pieces};
use crate::ways::parts_of;
use class_system::ids::{ClassId, ExprId};
use class_system::system::System;
use object_store::shape::Shape;
use object_store::token::Token;
use object_store::visit::Visit;
use object_store::walk::Next;
use std::alloc::{AllocError, Global};
use std::marker::Model;

/// The object of class 0 with the tokens, with the atom marked to which the places lead.
///
/// `atomic` tells which nodes have an object with an atom.
pub(crate) fn with_mark(
    alloc: Global,
    system: &System,
    atomic: &[bool],
    shape: &Shape,
    places: &[u32],
) -> Result<Shape, AllocError>
    requires atomic { atomic.now ≡ atomic_nodes system.now }
    requires is_of { IsOf system.now 0 shape.now.items }
    ensures marked { IfOk result (λ m. (tokens : List model.Token) (atom : ℕ)
        → (are : AreMarkedAt system.now shape.now.items atom tokens)
        → places.now ≡ way are.from.object atom → m.items ≡ tokens) }
{
    system.known();
    let mut walk = shape.walk(system, ClassId(0))?;
    let mut writing = Writing::new(alloc, places)?;
    'visits: loop {
        match walk.next()? {
            Next::Node(e, visit) => writing.visit(system, atomic, e, visit)?,
            Next::End => {
                writing.finish()?;
                return Ok(writing.written);
            }
            Next::NoObject => unreachable!(),
        }
    }
}

/// What is written, what is still to be written, and the places on the way to the atom.
#[derive(Drop)]
struct Writing<'a> {
    pieces: Pieces,
    places: &'a [u32],
    written: Shape,
}

impl<'a> Model for Writing<'a> {
    ghost use Rattle.pointing.specs.Writing.{Writing};

    ghost Value = { Writing };

    ghost view = { λ w. record {
      pieces = w.pieces;
      places = w.places.now;
      written = w.written.items;
    } };
}

impl<'a> Writing<'a> {
    /// One object is to be written, with the atom marked to which the places lead.
    fn new(alloc: Global, places: &'a [u32]) -> Result<Writing<'a>, AllocError>
        ensures pieces { IfOk result (λ w. w.pieces ≡ Marked ∷ []) }
        ensures places { IfOk result (λ w. w.places ≡ places.now) }
        ensures written { IfOk result (λ w. w.written ≡ []) }
    {
        let mut pieces = Pieces::new(alloc);
        pieces.push(Piece::Marked)?;
        Ok(Writing {
            pieces,
            places,
            written: Shape::new(alloc),
        })
    }

    /// Writes what comes after the last object.
    fn finish(&mut self) -> Result<(), AllocError>
        ensures whole { OnOk result ((s : Spec) (whole : List model.Token)
            → WritesOn s whole self.old [] none → self.new.written ≡ whole) }
    {
        let _none = self.next_piece()?;
        Ok(())
    }

    /// Writes what comes before the next object, and takes the piece that is due for it.
    fn next_piece(&mut self) -> Result<Option<Piece>, AllocError>
        ensures same { IfOk result (λ piece. SameWriting self.old
            (with_first (option_to_list piece) self.new)) }
        ensures due { IfOk result IsDue }
        ensures none { IfOk result (λ piece. IfNone piece (self.new.pieces ≡ [])) }
    {
        'pieces: loop {
            match self.pieces.pop() {
                Some(Piece::Copied(0)) => {}
                Some(Piece::Count(parts)) => self.written.push(Token::Count(parts))?,
                due => return Ok(due),
            }
        }
    }

    /// Writes what a visit shows of the next object.
    fn visit(
        &mut self,
        system: &System,
        atomic: &[bool],
        e: ExprId,
        visit: Visit,
    ) -> Result<(), AllocError>
        requires in_range { e.0 < length system.now.nodes }
        requires atomic { atomic.now ≡ atomic_nodes system.now }
        ensures written { OnOk result (HasWritten system.now e.0 visit self.old self.new) }
    {
        match self.next_piece()? {
            Some(Piece::Copied(objects)) => self.copy(system, objects, e, visit),
            Some(Piece::Marked) => self.mark(system, atomic, e, visit),
            Some(Piece::Count(_)) | None => Ok(()),
        }
    }

    /// Writes what a visit shows of the first of some objects that stay as they are.
    fn copy(
        &mut self,
        system: &System,
        objects: usize,
        e: ExprId,
        visit: Visit,
    ) -> Result<(), AllocError>
        requires in_range { e.0 < length system.now.nodes }
        requires some { 0 < objects }
        ensures written { OnOk result (HasWritten system.now e.0 visit
            (with_first (Copied objects ∷ []) self.old) self.new) }
    {
        self.write_token(visit)?;
        self.pieces.push_copied(objects - 1)?;
        self.pieces.push_copied(parts_below(system, e, visit))?;
        Ok(())
    }

    /// Writes the token that a visit shows, if there is one.
    fn write_token(&mut self, visit: Visit) -> Result<(), AllocError>
        ensures written { OnOk result (self.new.written ≡ self.old.written ++ token_at visit) }
        ensures pieces { OnOk result (self.new.pieces ≡ self.old.pieces) }
        ensures places { OnOk result (self.new.places ≡ self.old.places) }
    {
        if let Some(token) = token_of(visit) {
            self.written.push(token)?;
        }
        Ok(())
    }

    /// Writes what a visit shows of the object whose atom is marked.
    fn mark(
        &mut self,
        system: &System,
        atomic: &[bool],
        e: ExprId,
        visit: Visit,
    ) -> Result<(), AllocError>
        requires in_range { e.0 < length system.now.nodes }
        requires atomic { atomic.now ≡ atomic_nodes system.now }
        ensures written { OnOk result (HasWritten system.now e.0 visit
            (with_first (Marked ∷ []) self.old) self.new) }
    {
        match visit {
            Visit::Class(_) => self.pieces.push(Piece::Marked)?,
            Visit::Atom => self.written.push(Token::Dot)?,
            Visit::Union(option, _) => {
                self.choose(system, atomic, e, option)?;
                self.pieces.push(Piece::Marked)?;
            }
            Visit::Product => self.mark_part(system, atomic, e)?,
            Visit::Seq(parts, _) => self.split(parts)?,
            Visit::Empty | Visit::Set(..) | Visit::Cyc(..) => {}
        }
        Ok(())
    }

    /// Marks the part at the next place of a product.
    fn mark_part(&mut self, system: &System, atomic: &[bool], e: ExprId) -> Result<(), AllocError>
        requires in_range { e.0 < length system.now.nodes }
        requires atomic { atomic.now ≡ atomic_nodes system.now }
        ensures written { OnOk result (HasWritten system.now e.0 Product
            (with_first (Marked ∷ []) self.old) self.new) }
    {
        let place = self.next_place();
        let later = parts_of(system, e).saturating_sub(place).saturating_sub(1);
        self.choose(system, atomic, e, place)?;
        self.pieces.push_copied(later as usize)?;
        self.pieces.push(Piece::Marked)?;
        self.pieces.push_copied(place as usize)?;
        Ok(())
    }

    /// Marks the part at the next place of a sequence with so many parts, which comes apart there.
    fn split(&mut self, parts: u32) -> Result<(), AllocError>
        ensures written { OnOk result ((s : Spec) (e : ℕ) (part : ExprId)
            → HasWritten s e (Seq parts part) (with_first (Marked ∷ []) self.old) self.new) }
    {
        let place = self.next_place();
        let later = parts.saturating_sub(place).saturating_sub(1);
        self.written.push(Token::Count(place))?;
        self.pieces.push_copied(later as usize)?;
        self.pieces.push(Piece::Count(later))?;
        self.pieces.push(Piece::Marked)?;
        self.pieces.push_copied(place as usize)?;
        Ok(())
    }

    /// Takes the next place on the way; 0 where there is none.
    fn next_place(&mut self) -> u32
        ensures place { (i : ℕ) (later : List ℕ) → self.old.places ≡ i ∷ later → result ≡ i }
        ensures places { (i : ℕ) (later : List ℕ) → self.old.places ≡ i ∷ later
            → self.new.places ≡ later }
        ensures pieces { self.new.pieces ≡ self.old.pieces }
        ensures written { self.new.written ≡ self.old.written }
    {
        let Some((first, later)) = self.places.split_first() else {
            return 0;
        };
        self.places = later;
        *first
    }

    /// Writes the choice of the part at a place among those with an atom, where there are others.
    fn choose(
        &mut self,
        system: &System,
        atomic: &[bool],
        e: ExprId,
        place: u32,
    ) -> Result<(), AllocError>
        requires in_range { e.0 < length system.now.nodes }
        requires atomic { atomic.now ≡ atomic_nodes system.now }
        ensures written { OnOk result (self.new.written ≡ self.old.written
            ++ pick_of (choices (is_atomic_node system.now) (parts_at (node_at system.now e.0)))
            (choice_at (is_atomic_node system.now) (parts_at (node_at system.now e.0)) place)) }
        ensures pieces { OnOk result (self.new.pieces ≡ self.old.pieces) }
        ensures places { OnOk result (self.new.places ≡ self.old.places) }
    {
        system.known();
        let parts = system.node(e).parts();
        if count_marked(atomic, parts) != 1 {
            let before = &parts[..parts.len().min(place as usize)];
            self.written
                .push(Token::Pick(count_marked(atomic, before) as u32))?;
        }
        Ok(())
    }
}

/// The token of an object that a visit shows; none of a reference and a tuple.
pub(crate) fn token_of(visit: Visit) -> Option<Token>
    ensures token { option_to_list result ≡ token_at visit }
{
    match visit {
        Visit::Class(_) | Visit::Product => None,
        Visit::Empty => Some(Token::Unit),
        Visit::Atom => Some(Token::Dot),
        Visit::Union(option, _) => Some(Token::Pick(option)),
        Visit::Seq(parts, _) | Visit::Set(parts, _) | Visit::Cyc(parts, _) => {
            Some(Token::Count(parts))
        }
    }
}

/// How many objects stand right below the one that a visit shows.
pub(crate) fn parts_below(system: &System, e: ExprId, visit: Visit) -> usize
    requires in_range { e.0 < length system.now.nodes }
    ensures exact { result ≡ length (nodes_below system.now e.0 visit) }
{
    match visit {
        Visit::Class(_) | Visit::Union(..) => 1,
        Visit::Empty | Visit::Atom => 0,
        Visit::Product => parts_of(system, e) as usize,
        Visit::Seq(parts, _) | Visit::Set(parts, _) | Visit::Cyc(parts, _) => parts as usize,
    }
}

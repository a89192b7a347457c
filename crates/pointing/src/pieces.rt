//! What is still to be written of the objects that wait.
ghost use Rattle.std.specs.Prelude.{◌≡◌, [], ◌∷◌, ◌++◌, option_to_list, OnOk, IfNone};
ghost use Rattle.pointing.specs.Writing.{copied};

use std::alloc::{AllocError, Global};
use std::marker::Model;

/// What is written of some objects that wait.
#[derive(Clone, Copy, Debug)]
pub(crate) enum Piece {
    /// So many objects, as they are.
    Copied(usize),
    /// One object, with an atom marked.
    Marked,
    /// The number of parts of a list, before any object.
    Count(u32),
}

/// The pieces that are still to be written, the next one first.
#[derive(Drop)]
pub(crate) struct Pieces {
    content: Vec<Piece>,
}

impl Model for Pieces {
    ghost use Rattle.std.specs.Prelude.{List, reverse};
    ghost use Rattle.pointing.specs.declared.pieces.Piece.{Piece};

    ghost Value = { List Piece };

    ghost view = { λ p. reverse p.content.items };
}

impl Pieces {
    /// Nothing is to be written.
    pub(crate) fn new(alloc: Global) -> Pieces
        ensures { result ≡ [] }
    {
        Pieces {
            content: Vec::new(alloc),
        }
    }

    /// Takes the next piece; None exactly where there is none. Takes no memory.
    pub(crate) fn pop(&mut self) -> Option<Piece>
        ensures items { self.old ≡ option_to_list result ++ self.new }
        ensures none { IfNone result (self.old ≡ []) }
    {
        self.content.pop()
    }

    /// Puts a piece in front. After a refusal nothing is said of the pieces.
    pub(crate) fn push(&mut self, piece: Piece) -> Result<(), AllocError>
        ensures ok { OnOk result (self.new ≡ piece ∷ self.old) }
    {
        self.content.push(piece)?;
        Ok(())
    }

    /// Puts so many objects in front, as they are. After a refusal nothing is said of the pieces.
    pub(crate) fn push_copied(&mut self, objects: usize) -> Result<(), AllocError>
        ensures ok { OnOk result (self.new ≡ copied objects ++ self.old) }
    {
        if objects > 0 {
            self.push(Piece::Copied(objects))?;
        }
        Ok(())
    }
}

//! Lists of cells, with spare room.
ghost use Rattle.std.specs.Prelude.{◌≡◌, ◌+◌, ◌<◌, ◌≤◌, [], ◌∷◌, ◌++◌, length, IsOk, OnOk, OnErr};
ghost use Rattle.bz_model.specs.Cell.{IsCell, AreCells};

use crate::cell::Cell;
use std::alloc::{AllocError, Global};
use std::marker::Model;

/// A list of cells, seen as its items and how many more may be pushed without a refusal.
///
/// Each item is a cell: it has from 1 to 60 bits, and its `k` is below `2^b`.
#[derive(Drop)]
pub struct Cells {
    content: Vec<Cell>,
}

impl Model for Cells {
    ghost use Rattle.std.specs.Prelude.{◌-◌, vec_len, vec_capacity};
    ghost use Rattle.bz_model.specs.Roomy.{Roomy};
    ghost use Rattle.bz_model.specs.Cell.{AreCells};
    ghost use Rattle.bz_model.specs.declared.cell.Cell.{Cell};

    ghost Value = { Roomy Cell };

    ghost view = { λ c. record {
      items = c.content.items;
      spare =
          vec_capacity c.content - vec_len c.content;
    } };

    ghost invariant = { λ c. AreCells c.content.items };
}

impl Cells {
    /// The empty list.
    pub fn new(alloc: Global) -> Cells
        ensures { result.items ≡ [] }
    {
        Cells {
            content: Vec::new(alloc),
        }
    }

    /// Forgets all cells. Gives no memory back.
    pub fn clear(&mut self)
        ensures items { self.new.items ≡ [] }
        ensures spare { self.old.spare ≤ self.new.spare }
    {
        self.content.clear();
    }

    /// Takes memory for at least `more` further cells. The list stays as it was in any case.
    pub fn reserve(&mut self, more: usize) -> Result<(), AllocError>
        ensures items { self.new.items ≡ self.old.items }
        ensures spare { OnOk result (more ≤ self.new.spare) }
    {
        self.content.reserve(more)
    }

    /// Appends a cell. A refusal leaves the list as it was, and none comes where there is spare
    /// room.
    #[tactic(auto, using(crate::proofs::CellLists::cells_more))]
    pub fn push(&mut self, item: Cell) -> Result<(), AllocError>
        requires cell { IsCell item.k item.b }
        ensures ok { OnOk result (self.new.items ≡ self.old.items ++ item ∷ []) }
        ensures err { OnErr result (self.new.items ≡ self.old.items) }
        ensures room { 0 < self.old.spare → IsOk result }
        ensures spare { self.old.spare ≤ self.new.spare + 1 }
    {
        self.content.push(item)?;
        Ok(())
    }

    /// Appends a cell where there is spare room. Takes no memory.
    pub fn put(&mut self, item: Cell)
        requires room { 0 < self.old.spare }
        requires cell { IsCell item.k item.b }
        ensures items { self.new.items ≡ self.old.items ++ item ∷ [] }
        ensures spare { self.old.spare ≤ self.new.spare + 1 }
    {
        match self.push(item) {
            Ok(()) => {}
            Err(_) => unreachable!(),
        }
    }

    /// Appends all cells of another list where there is spare room for them. Takes no memory.
    #[tactic(auto, using(crate::proofs::CellLists::cells_append))]
    pub fn append(&mut self, more: &Cells)
        requires room { length more.now.items ≤ self.old.spare }
        ensures { self.new.items ≡ self.old.items ++ more.now.items }
    {
        self.content
            .extend_from_slice(more.content.as_slice())
            .unwrap();
    }

    /// The cells in order. Takes no memory.
    pub fn items(&self) -> &[Cell]
        ensures items { result.now ≡ self.now.items }
        ensures cells { AreCells self.now.items }
    {
        self.content.as_slice()
    }
}

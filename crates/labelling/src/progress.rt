//! Labellings under way.
ghost use Rattle.std.specs.Prelude.{◌≡◌, ◌+◌, ◌<◌, ◌≤◌, [], ◌∷◌, ◌++◌, length, vec_len};
ghost use Rattle.std.specs.Prelude.{vec_capacity, IfOk};
ghost use Rattle.bz_model.specs.Cell.{IsCell};
ghost use Rattle.bz_model.specs.Labels.{numbers_from};
ghost use Rattle.labelling.specs.Progress.{one_given};

use crate::labels::Labels;
use crate::remaining::Remaining;
use bz_model::cell::Cell;
use bz_model::cells::Cells;
use std::alloc::{AllocError, Global};
use std::marker::Model;

/// Which labels remain, which were given, and the cells of the numbers drawn for them.
///
/// There is spare room for the labels that remain, and for a cell for each of them.
#[derive(Drop)]
pub(crate) struct Progress {
    remaining: Remaining,
    given: Vec<u64>,
    cells: Cells,
}

impl Model for Progress {
    ghost use Rattle.std.specs.Prelude.{◌+◌, ◌≤◌, length, vec_len, vec_capacity};
    ghost use Rattle.labelling.specs.Progress.{ProgressState};

    ghost Value = { ProgressState };

    ghost view = { λ p. record {
      remaining = p.remaining;
      given = p.given.items;
      cells = p.cells.items;
    } };

    ghost invariant = { λ p. (vec_len p.given + length p.remaining ≤ vec_capacity p.given)
        × (length p.remaining ≤ p.cells.spare) };
}

impl Progress {
    /// The labelling of `n` atoms before its first number. Takes all its memory.
    pub(crate) fn begin(alloc: Global, n: u64) -> Result<Progress, AllocError>
        requires within_limit { n ≤ 1000000 }
        ensures begun { IfOk result (λ progress. progress
            ≡ record { remaining = numbers_from 1 n; given = []; cells = [] }) }
    {
        let remaining = Remaining::make(alloc, n)?;
        let given = Vec::with_capacity(alloc, n as usize)?;
        let mut cells = Cells::new(alloc);
        cells.reserve(n as usize)?;
        Ok(Progress {
            remaining,
            given,
            cells,
        })
    }

    /// Gives the next atom the label with `i` remaining labels below it, `cell` being that of the
    /// number drawn for it. Takes no memory.
    pub(crate) fn give(&mut self, i: u64, cell: Cell)
        requires remains { i < length self.old.remaining }
        requires cell { IsCell cell.k cell.b }
        ensures { self.new ≡ one_given self.old i cell }
    {
        let label = self.remaining.take(i);
        put_label(&mut self.given, label);
        self.cells.put(cell);
    }

    /// Gives the last atom the label left, if there is one, and hands out labels and cells. Takes
    /// no memory.
    pub(crate) fn finish(self) -> (Labels, Cells)
        requires last { length self.remaining ≤ 1 }
        ensures labels { result.0 ≡ self.given ++ self.remaining }
        ensures cells { result.1.items ≡ self.cells }
    {
        let Progress {
            mut remaining,
            mut given,
            cells,
        } = self;
        if !remaining.is_empty() {
            let label = remaining.take(0);
            put_label(&mut given, label);
        }
        (Labels::of(given), cells)
    }
}

/// Appends a label.
fn put_label(given: &mut Vec<u64>, label: u64)
    requires { vec_len given.old < vec_capacity given.old }
    ensures label { given.new.items ≡ given.old.items ++ label ∷ [] }
    ensures spare { vec_capacity given.old ≤ vec_capacity given.new }
{
    match given.push(label) {
        Ok(()) => {}
        Err(_) => unreachable!(),
    }
}

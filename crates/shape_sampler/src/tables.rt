//! What draws keep for later ones, whatever the attempt.
ghost use Rattle.std.specs.Prelude.{ℕ};
ghost use Rattle.choice_draw.specs.Marks.{IsMarked};

use choice_draw::kept::KeptUnions;
use choice_draw::marks::Marks;
use class_system::system::System;
use count_draw::cache::KeptTables;
use std::alloc::{AllocError, Global};

/// The choices that are kept for unions, and the numbers of parts for sequences, sets and cycles.
#[derive(Drop)]
pub(crate) struct DrawTables {
    pub(crate) unions: KeptUnions,
    pub(crate) counts: KeptTables,
}

impl DrawTables {
    /// Tables for a system, that keep nothing yet. Further memory is never taken.
    pub(crate) fn make(alloc: Global, system: &System) -> Result<DrawTables, AllocError> {
        Ok(DrawTables {
            unions: KeptUnions::make(alloc, system)?,
            counts: KeptTables::make(alloc, system)?,
        })
    }

    /// Tables for no system. Takes no memory.
    pub(crate) fn none(alloc: Global) -> DrawTables {
        DrawTables {
            unions: KeptUnions::none(alloc),
            counts: KeptTables::none(alloc),
        }
    }
}

/// The nodes whose kept bounds were compared with an oracle's.
#[derive(Drop)]
pub(crate) struct DrawMarks {
    pub(crate) unions: Marks,
    pub(crate) counts: Marks,
}

impl DrawMarks {
    /// No node was compared.
    #[inline(always)]
    pub(crate) fn none() -> DrawMarks
        ensures unions { (node : ℕ) → ¬ IsMarked result.unions node }
        ensures counts { (node : ℕ) → ¬ IsMarked result.counts node }
    {
        DrawMarks {
            unions: Marks::none(),
            counts: Marks::none(),
        }
    }
}

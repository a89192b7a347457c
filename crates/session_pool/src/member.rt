//! One drawing of a pool, with its tape and what it kept.
ghost use Rattle.std.specs.Prelude.{◌≡◌, ◌≢◌, ◌≤◌, max, IfOk, IsSome};
ghost use Rattle.bz_model.specs.Fraction.{Fraction, IsFractionBits};
ghost use Rattle.bz_model.specs.Oracle.{LeavesOracle};
ghost use Rattle.bit_tape.specs.Tape.{BelongsToShelf, LeavesTape};
ghost use Rattle.choice_draw.specs.Decision.{level_for};
ghost use Rattle.size_window.specs.Drawing.{limits_of, AreLimits, DrawingBelongs};
ghost use Rattle.session_pool.specs.Member.{IsNewMember, counts_of, bits_to_nodes, read_failed};
ghost use Rattle.session_pool.specs.Turn.{IsMemberTurn};

use crate::pooled::Pooled;
use bit_tape::tape::Tape;
use bz_model::oracle::Oracle;
use bz_model::steps::Steps;
use bz_outside::shelf::Shelf;
use size_window::drawing::Drawing;
use size_window::ending::Ending;
use size_window::limits::{Counts, Limits};
use size_window::turned::{Entry, Turned};
use std::alloc::{AllocError, Global};
use std::marker::Model;
use std::sync::ledger::Ledger;
use well_founded::examination::Founded;

/// A drawing, the tape that it draws from, and the objects that it kept, in order.
#[derive(Drop)]
pub(crate) struct Member {
    drawing: Drawing,
    tape: Tape,
    entries: Vec<Entry>,
}

impl Model for Member {
    ghost use Rattle.session_pool.specs.Member.{MemberState};

    ghost Value = { MemberState };

    ghost view = { λ m. record { drawing = m.drawing; tape = m.tape; entries = m.entries.items } };
}

impl Member {
    /// A drawing before its first turn, over this tape.
    pub(crate) fn new(
        alloc: Global,
        founded: &Founded,
        limits: Limits,
        tape: Tape,
    ) -> Result<Member, AllocError>
        requires limits { AreLimits (limits_of limits) }
        ensures new { IfOk result (IsNewMember (limits_of limits) tape) }
        ensures belongs { IfOk result
            (λ m. (x : Fraction) → DrawingBelongs founded.now x m.drawing) }
    {
        let drawing = Drawing::new(alloc, founded, limits)?;
        Ok(Member {
            drawing,
            tape,
            entries: Vec::new(alloc),
        })
    }

    /// Makes one turn of the drawing, where it hasn't ended, and keeps the object that it told.
    ///
    /// The room for that object is taken before the turn.
    pub(crate) fn turn<const F: u32, O: Oracle<F>, S: Shelf, L: Ledger>(
        &mut self,
        founded: &Founded,
        oracle: &mut O,
        shelf: &mut S,
        steps: &mut Steps<L>,
    ) -> Pooled
        requires fraction_bits { IsFractionBits F }
        requires spec { O.spec oracle.old ≡ founded.now }
        requires drawing { DrawingBelongs founded.now (O.x oracle.old) self.old.drawing }
        requires tape { BelongsToShelf (S.content shelf.old) self.old.tape }

        ensures no_memory { result ≡ Pooled.OutOfMemory
            → (self.new ≡ self.old) × (oracle.new ≡ oracle.old) × (shelf.new ≡ shelf.old) }
        ensures ended { IsSome self.old.drawing.ending
            → (result ≡ Pooled.Finished) × (self.new ≡ self.old)
            × (oracle.new ≡ oracle.old) × (shelf.new ≡ shelf.old) }
        ensures turned { result ≢ Pooled.OutOfMemory
            → IsMemberTurn founded.now (O.x oracle.old) F (O.table oracle.old) (S.content shelf.old)
            (S.faults shelf.old) (S.faults shelf.new) self.old result self.new }
        ensures drawing { DrawingBelongs founded.now (O.x oracle.old) self.new.drawing }
        ensures raised { O.raised oracle.new
            ≡ max (O.raised oracle.old) (level_for (bits_to_nodes self.old self.new)) }
        ensures node_bits { bits_to_nodes self.old self.new ≤ 60 }
        ensures oracle { LeavesOracle O.spec O.x O.table O.cost O.raised
            oracle.old oracle.new steps.old steps.new }
        ensures tape { LeavesTape S.content S.faults
            (read_failed self.old.drawing.ending self.new.drawing.ending)
            shelf.old shelf.new self.old.tape self.new.tape }
    {
        if self.drawing.ending().is_some() {
            return Pooled::Finished;
        }
        if self.entries.reserve(1).is_err() {
            return Pooled::OutOfMemory;
        }
        match self
            .drawing
            .turn(founded, oracle, &mut self.tape, shelf, steps)
        {
            Turned::Going => Pooled::Going,
            Turned::Kept(entry) => {
                let _ = self.entries.push(entry);
                Pooled::Going
            }
            Turned::Finished(_) => Pooled::Finished,
            Turned::OutOfMemory => Pooled::OutOfMemory,
        }
    }

    /// The objects that it kept, in order.
    pub(crate) fn entries(&self) -> &[Entry]
        ensures { result.now ≡ self.now.entries }
    {
        self.entries.as_slice()
    }

    /// What it counted so far.
    pub(crate) fn counts(&self) -> Counts
        ensures { result ≡ counts_of self.now.drawing }
    {
        self.drawing.counts()
    }

    /// How many bits of its tape it used.
    pub(crate) fn used(&self) -> u64
        ensures { result ≡ self.now.tape.used }
    {
        self.tape.used()
    }

    /// Why it ended, if it ended.
    pub(crate) fn ending(&self) -> Option<Ending>
        ensures { result ≡ self.now.drawing.ending }
    {
        self.drawing.ending()
    }
}

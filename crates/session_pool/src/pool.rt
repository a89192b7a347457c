//! A pool of drawings.
ghost use Rattle.std.specs.Prelude.{◌≡◌, ◌≢◌, ℕ, ◌<◌, ◌≤◌, max, [], ◌∷◌, ◌++◌, List, length, map};
ghost use Rattle.std.specs.Prelude.{slice_get, IfOk, IfSome, IsSome};
ghost use Rattle.std.specs.List.{All};
ghost use Rattle.bz_model.specs.Fraction.{Fraction, IsFractionBits};
ghost use Rattle.bz_model.specs.Oracle.{LeavesOracle};
ghost use Rattle.choice_draw.specs.Decision.{level_for};
ghost use Rattle.size_window.specs.RunByBits as run;
ghost use Rattle.size_window.specs.Drawing.{limits_of, AreLimits};
ghost use Rattle.bit_tape.specs.Tape.{TapeSource};
ghost use Rattle.session_pool.specs.Member.{counts_of};
ghost use Rattle.session_pool.specs.Pool.{IsNewPool, PoolBelongs, TapesBelong, LeavesTapeOf};
ghost use Rattle.session_pool.specs.Pool.{tapes_of, sources_of, bits_to_nodes_at, ending_at};
ghost use Rattle.session_pool.specs.Turn.{IsPoolTurn, pool_answer};
ghost use Rattle.session_pool.specs.Interleaving.{Shared, shared_setting, IsPoolAfter};

use crate::member::Member;
use crate::pooled::{Pooled, Pooling};
use bit_tape::tape::Tape;
use bz_model::oracle::Oracle;
use bz_model::steps::Steps;
use bz_outside::shelf::Shelf;
use size_window::ending::Ending;
use size_window::laws::{a_trace_starts_with_its_drawing, a_turn_continues_a_trace};
use size_window::limits::Limits;
use std::alloc::{AllocError, Global};
use std::marker::Model;
use std::sync::ledger::Ledger;
use well_founded::examination::Founded;

/// Several drawings with the same limits, each over a tape of its own, that take turns.
///
/// Contracts see the list of its members: drawing, tape and kept objects of each.
#[derive(Drop)]
pub struct Pool {
    members: Vec<Member>,
}

impl Model for Pool {
    ghost use Rattle.std.specs.Prelude.{List};
    ghost use Rattle.session_pool.specs.Member.{MemberState};

    ghost Value = { List MemberState };

    ghost view = { λ p. p.members.items };
}

impl Pool {
    /// A pool of one drawing per tape, in order, before the first turn.
    ///
    /// There are 1 to 64 tapes, and no bit of them was taken. The only refusal is want of memory.
    pub fn make(
        alloc: Global,
        founded: &Founded,
        limits: Limits,
        tapes: Vec<Tape>,
    ) -> Result<Pool, AllocError>
        requires limits { AreLimits (limits_of limits) }
        requires number { (1 ≤ length tapes.items) × (length tapes.items ≤ 64) }
        requires unused { All (λ tape. tape.used ≡ 0) tapes.items }
        ensures new { IfOk result (IsNewPool (limits_of limits) tapes.items) }
        ensures belongs { IfOk result (λ p. (x : Fraction) → PoolBelongs founded.now x p) }
        ensures alone { IfOk result (λ p. (w : Shared) (counts : List ℕ → ℕ)
            → IsPoolAfter w (limits_of limits) (map (λ tape. tape.source) tapes.items)
            counts counts [] p) }
    {
        a_trace_starts_with_its_drawing();
        let mut members = Vec::with_capacity(alloc, tapes.len())?;
        for tape in tapes {
            let member = Member::new(alloc, founded, limits, tape)?;
            members.push(member)?;
        }
        Ok(Pool { members })
    }

    /// Makes one turn of the drawing of a number, from 0.
    ///
    /// It answers `Going` exactly where that drawing goes on afterwards, and `Finished` exactly
    /// where it has ended. A drawing that had ended isn't touched. The object that a turn keeps is
    /// appended to the drawing's entries. Every other drawing stays as it was, with its tape and
    /// its entries. An ending becomes `ReadFault` exactly where the count of faults of that tape's
    /// name rose, by one. All memory is taken before the first bit; `OutOfMemory` leaves pool,
    /// oracle and shelf as they were.
    pub fn turn<const F: u32, O: Oracle<F>, S: Shelf, L: Ledger>(
        &mut self,
        number: usize,
        founded: &Founded,
        oracle: &mut O,
        shelf: &mut S,
        steps: &mut Steps<L>,
    ) -> Pooled
        requires fraction_bits { IsFractionBits F }
        requires number { number < length self.old }
        requires spec { O.spec oracle.old ≡ founded.now }
        requires drawings { PoolBelongs founded.now (O.x oracle.old) self.old }
        requires tapes { TapesBelong (S.content shelf.old) (tapes_of self.old) }

        ensures no_memory { result ≡ Pooled.OutOfMemory
            → (self.new ≡ self.old) × (oracle.new ≡ oracle.old) × (shelf.new ≡ shelf.old) }
        ensures ended { IsSome (ending_at self.old number)
            → (result ≡ Pooled.Finished) × (self.new ≡ self.old)
            × (oracle.new ≡ oracle.old) × (shelf.new ≡ shelf.old) }
        ensures answers { result ≢ Pooled.OutOfMemory
            → result ≡ pool_answer (ending_at self.new number) }
        ensures turned { result ≢ Pooled.OutOfMemory
            → IsPoolTurn founded.now (O.x oracle.old) F (O.table oracle.old) (S.content shelf.old)
            (S.faults shelf.old) (S.faults shelf.new) self.old number result self.new }
        ensures alone { result ≢ Pooled.OutOfMemory → (limits : run.Limits)
            (sources : List TapeSource) (begun : List ℕ → ℕ) (turns : List ℕ)
            → IsPoolAfter (shared_setting founded.now (O.x oracle.old) F (O.table oracle.old)
            (S.content shelf.old)) limits sources begun (S.faults shelf.old) turns self.old
            → IsPoolAfter (shared_setting founded.now (O.x oracle.old) F (O.table oracle.old)
            (S.content shelf.old)) limits sources begun (S.faults shelf.new)
            (turns ++ number ∷ []) self.new }
        ensures number { length self.new ≡ length self.old }
        ensures sources { sources_of self.new ≡ sources_of self.old }
        ensures drawings { PoolBelongs founded.now (O.x oracle.old) self.new }
        ensures tapes { TapesBelong (S.content shelf.new) (tapes_of self.new) }

        ensures raised { O.raised oracle.new ≡ max (O.raised oracle.old)
            (level_for (bits_to_nodes_at number self.old self.new)) }
        ensures node_bits { bits_to_nodes_at number self.old self.new ≤ 60 }
        ensures oracle { LeavesOracle O.spec O.x O.table O.cost O.raised
            oracle.old oracle.new steps.old steps.new }
        ensures tape { LeavesTapeOf S.content S.faults shelf.old shelf.new
            (slice_get self.old number) (slice_get self.new number) }
    {
        founded.system().known();
        a_turn_continues_a_trace();
        let member = &mut self.members[number];
        member.turn(founded, oracle, shelf, steps)
    }

    /// Lends what the drawing of a number, from 0, kept and counted. Takes no memory.
    ///
    /// Its ending is `None` exactly while the drawing goes on.
    pub fn result(&self, number: usize) -> Pooling<'_>
        requires { number < length self.now }
        ensures entries { IfSome (slice_get self.now number) (λ m. result.entries.now ≡ m.entries) }
        ensures counts { IfSome (slice_get self.now number)
            (λ m. result.counts ≡ counts_of m.drawing) }
        ensures used { IfSome (slice_get self.now number) (λ m. result.used ≡ m.tape.used) }
        ensures ending { IfSome (slice_get self.now number)
            (λ m. result.ending ≡ m.drawing.ending) }
    {
        let member = &self.members[number];
        Pooling {
            entries: member.entries(),
            counts: member.counts(),
            used: member.used(),
            ending: member.ending(),
        }
    }
}

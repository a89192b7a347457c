//! A pool over a base: its memo, its tapes, its turns and its text.
ghost use Rattle.std.specs.Prelude.{◌≡◌, ℕ, ◌≤◌, List, [], length, map, IfOk, OnErr};
ghost use Rattle.bz_model.specs.Fraction.{IsFractionBits};
ghost use Rattle.rounded_map.specs.RoundedMap.{setting, IsPostFixed};
ghost use Rattle.size_window.specs.Drawing.{AreLimits, limits_of};
ghost use Rattle.call_stages.specs.Ends.{EndsBy, output};
ghost use Rattle.call_stages.specs.Outcomes.{IsWithin};
ghost use Rattle.call_stages.specs.Stages.{files};
ghost use Rattle.call_stages.specs.declared.status.Status as said;
ghost use Rattle.pool_command.specs.PoolCommand.{pool_of, PoolDrawn};
ghost use Rattle.pool_command.specs.UnderWay.{tape_over};

use crate::pages::{first_status, page};
use crate::running::take_turns;
use bit_tape::tape::Tape;
use bz_model::fraction::Fraction;
use bz_model::oracle::Oracle;
use bz_model::steps::Steps;
use bz_outside::shelf::Shelf;
use bz_outside::sink::Sink;
use bz_outside::word::Word;
use call_stages::report::{Report, written};
use call_stages::status::Status;
use newton_upper::Base;
use oracle_memo::Memo;
use sample_command::entries::header;
use session_pool::pool::Pool;
use size_window::laws::{
    a_course_uses_few_bits, a_table_has_its_chooser, a_trace_starts_with_its_drawing,
    the_tape_ends_where_its_bits_are_used,
};
use size_window::limits::Limits;
use std::alloc::{AllocError, Global};
use std::sync::ledger::Ledger;
use well_founded::examination::Founded;

/// Draws over the levels of the base, a drawing over each tape, by the schedule, and writes the
/// text.
///
/// In `ends` the counts of failed reads before the call may be those of an earlier time.
pub(crate) fn drawn<const F: u32, S: Shelf, K: Sink, L: Ledger>(
    alloc: Global,
    founded: &Founded,
    x: Fraction,
    base: Base<F>,
    limits: Limits,
    names: &[Word],
    schedule: &[u8],
    shelf: &mut S,
    out: &mut K,
    steps: &mut Steps<L>,
) -> Status
    requires fraction_bits { IsFractionBits F }
    requires post_fixed { IsPostFixed (setting founded.now x.num x.den F) base }
    requires limits { AreLimits (limits_of limits) }
    requires number { (1 ≤ length names.now) × (length names.now ≤ 64) }
    ensures ends { (before : List ℕ → ℕ)
        → ((other : List ℕ) → before other ≤ S.faults shelf.old other)
        → EndsBy (PoolDrawn (pool_of (setting founded.now x.num x.den F) base.entry
        (limits_of limits))
        (files (S.content shelf.old) before (S.faults shelf.new)) names.now schedule.now)
        (output (K.written out.old) (K.written out.new) (K.faults out.old) (K.faults out.new)
        steps.old steps.new) result }
    ensures content { S.content shelf.new ≡ S.content shelf.old }
    ensures counts { (other : List ℕ) → S.faults shelf.old other ≤ S.faults shelf.new other }
    ensures writes { K.faults out.old ≤ K.faults out.new }
{
    match reported::<F, S, L>(
        alloc, founded, x, base, limits, names, schedule, shelf, steps,
    ) {
        Ok(report) => written(out, report.status, report.text.as_slice()),
        Err(_) => Status::OutOfMemory,
    }
}

/// Draws over the levels of the base, a drawing over each tape, by the schedule.
fn reported<const F: u32, S: Shelf, L: Ledger>(
    alloc: Global,
    founded: &Founded,
    x: Fraction,
    base: Base<F>,
    limits: Limits,
    names: &[Word],
    schedule: &[u8],
    shelf: &mut S,
    steps: &mut Steps<L>,
) -> Result<Report, AllocError>
    requires fraction_bits { IsFractionBits F }
    requires post_fixed { IsPostFixed (setting founded.now x.num x.den F) base }
    requires limits { AreLimits (limits_of limits) }
    requires number { (1 ≤ length names.now) × (length names.now ≤ 64) }
    ensures ok { IfOk result (λ r. (before : List ℕ → ℕ)
        → ((other : List ℕ) → before other ≤ S.faults shelf.old other)
        → IsWithin (PoolDrawn (pool_of (setting founded.now x.num x.den F) base.entry
        (limits_of limits))
        (files (S.content shelf.old) before (S.faults shelf.new)) names.now schedule.now)
        r.status r.text.items steps.old steps.new) }
    ensures err { OnErr result ((before : List ℕ → ℕ)
        → ((other : List ℕ) → before other ≤ S.faults shelf.old other)
        → IsWithin (PoolDrawn (pool_of (setting founded.now x.num x.den F) base.entry
        (limits_of limits))
        (files (S.content shelf.old) before (S.faults shelf.new)) names.now schedule.now)
        said.Status.OutOfMemory [] steps.old steps.new) }
    ensures content { S.content shelf.new ≡ S.content shelf.old }
    ensures counts { (other : List ℕ) → S.faults shelf.old other ≤ S.faults shelf.new other }
{
    let system = founded.system();
    system.known();
    a_table_has_its_chooser();
    a_trace_starts_with_its_drawing();
    a_course_uses_few_bits();
    the_tape_ends_where_its_bits_are_used();
    let header = header::<F>(alloc, system, x, limits, base.values())?;
    let mut memo = Memo::make(alloc, founded, x, base)?;
    let tapes = tapes_over(alloc, names)?;
    let mut pool = Pool::make(alloc, founded, limits, tapes)?;
    memo.known();
    let count = names.len();
    let order = take_turns::<F, _, S, L>(
        alloc, founded, &mut memo, &mut pool, count, schedule, shelf, steps,
    )?;
    let text = page(alloc, founded, &pool, count, order.as_slice(), header)?;
    Ok(Report {
        status: first_status(&pool, count),
        text,
    })
}

/// The tapes over files, of which no bit is used.
fn tapes_over(alloc: Global, names: &[Word]) -> Result<Vec<Tape>, AllocError>
    ensures { IfOk result (λ tapes. tapes.items ≡ map tape_over names.now) }
{
    let mut tapes = Vec::with_capacity(alloc, names.len())?;
    for name in names {
        let name = Word::from_bytes(alloc, name.bytes())?;
        tapes.push(Tape::over(name))?;
    }
    Ok(tapes)
}

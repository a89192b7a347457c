//! Runs whose objects are counted and let go.
ghost use Rattle.std.specs.Prelude.{◌≡◌, ℕ, ◌≤◌, ◌++◌, IfOk, string_bytes};
ghost use Rattle.bz_model.specs.Fraction.{IsFractionBits};
ghost use Rattle.bit_tape.specs.Tape.{CountsFault};
ghost use Rattle.bz_model.specs.Oracle.{AreCosts, LeavesOracle};
ghost use Rattle.rounded_map.specs.RoundedMap.{setting, IsPostFixed};
ghost use Rattle.size_window.specs.Drawing.{ending_of};
ghost use Rattle.sample_command.specs.Drawn.{ending_word, ending_status};
ghost use Rattle.sample_command.specs.UnderWay.{CanTurn, DrawingGoesOn, IsAtEnd, has_failed};
ghost use Rattle.call_stages.specs.Ends.{EndsBy, output};
ghost use Rattle.call_stages.specs.Outcomes.{MaySay};
ghost use Rattle.bulk_command.specs.BulkCommand.{run_counts, bulk_line, BulkDrawn};
ghost use Rattle.bulk_command.specs.BulkText.{classes_of};
ghost use Rattle.bulk_command.specs.NoFiles.{empty_files, no_faults};
ghost use Rattle.bulk_command.specs.Running.{IsRunning};

use crate::no_files::NoFiles;
use crate::spec_text::class_count;
use bit_tape::tape::Tape;
use bz_model::fraction::Fraction;
use bz_model::oracle::Oracle;
use bz_model::steps::Steps;
use bz_outside::sink::Sink;
use call_stages::report::written;
use call_stages::status::Status;
use newton_upper::Base;
use oracle_memo::Memo;
use sample_command::entries::{status_of, word_of};
use size_window::drawing::Drawing;
use size_window::ending::Ending;
use size_window::laws::{
    a_course_uses_few_bits, a_table_has_its_chooser, a_trace_starts_with_its_drawing,
    a_turn_continues_a_trace, the_tape_ends_where_its_bits_are_used,
};
use size_window::limits::{Counts, Limits};
use size_window::turned::Turned;
use std::alloc::{AllocError, Global};
use std::sync::ledger::Ledger;
use well_founded::examination::Founded;

/// The greatest size that is kept.
const MOST_ATOMS: u64 = 200;

/// How many objects are kept for each one of `n`.
const OBJECTS: u64 = 100;

/// How many turns may be made.
const TURNS: u64 = 50_000_000;

/// Draws `100 * n` objects over the levels of the base, with the bits of the seed `n`, and writes a
/// line.
pub(crate) fn drawn<const F: u32, K: Sink, L: Ledger>(
    alloc: Global,
    founded: &Founded,
    n: u64,
    x: Fraction,
    base: Base<F>,
    out: &mut K,
    steps: &mut Steps<L>,
) -> Status
    requires fraction_bits { IsFractionBits F }
    requires least { 1 ≤ n }
    requires greatest { n ≤ 1000 }
    requires post_fixed { IsPostFixed (setting founded.now x.num x.den F) base }
    ensures ends { EndsBy (BulkDrawn n (setting founded.now x.num x.den F) base.entry)
        (output (K.written out.old) (K.written out.new) (K.faults out.old) (K.faults out.new)
        steps.old steps.new) result }
    ensures writes { K.faults out.old ≤ K.faults out.new }
{
    let limits = Limits {
        min: 0,
        max: MOST_ATOMS,
        count: OBJECTS * n,
        turns: TURNS,
    };
    founded.system().known();
    let Ok(mut memo) = Memo::make(alloc, founded, x, base) else {
        return Status::OutOfMemory;
    };
    let Ok(mut drawing) = Drawing::new(alloc, founded, limits) else {
        return Status::OutOfMemory;
    };
    memo.known();
    a_table_has_its_chooser();
    a_trace_starts_with_its_drawing();
    a_course_uses_few_bits();
    the_tape_ends_where_its_bits_are_used();
    let mut tape = Tape::seeded(n);
    match draw_to_the_end::<F, _, L>(founded, &mut memo, &mut tape, &mut drawing, steps) {
        Ok(ending) => finished(alloc, n, ending, drawing.counts(), tape.used(), out),
        Err(_) => Status::OutOfMemory,
    }
}

/// Writes the line of a run that has come to its end.
fn finished<K: Sink>(
    alloc: Global,
    n: u64,
    ending: Ending,
    counts: Counts,
    bits: u64,
    out: &mut K,
) -> Status
    ensures ends { EndsBy (MaySay (ending_status (ending_of ending))
        (bulk_line n (classes_of n) (ending_word (ending_of ending)) counts.kept counts.thrown
        counts.atoms bits counts.turns) 0)
        (output (K.written out.old) (K.written out.new) (K.faults out.old) (K.faults out.new) 0 0)
        result }
    ensures writes { K.faults out.old ≤ K.faults out.new }
{
    match line(alloc, n, class_count(n), word_of(ending), counts, bits) {
        Ok(line) => written(out, status_of(ending), line.as_bytes()),
        Err(_) => Status::OutOfMemory,
    }
}

/// The line of a run over so many classes that ended with this word.
fn line(
    alloc: Global,
    n: u64,
    classes: u64,
    word: &str,
    counts: Counts,
    bits: u64,
) -> Result<String, AllocError>
    ensures { IfOk result (λ line. string_bytes line ≡ bulk_line n classes word.now counts.kept
        counts.thrown counts.atoms bits counts.turns) }
{
    let numbers = counted(alloc, counts, bits)?;
    let mut line = format!(in alloc; "bulk {n} classes {classes} end {word}")?;
    line.push_str(&numbers)?;
    Ok(line)
}

/// What the line of a run counts.
fn counted(alloc: Global, counts: Counts, bits: u64) -> Result<String, AllocError>
    ensures { IfOk result (λ text. string_bytes text ≡ run_counts counts.kept counts.thrown
        counts.atoms bits counts.turns) }
{
    let (kept, thrown) = (counts.kept, counts.thrown);
    let (atoms, turns) = (counts.atoms, counts.turns);
    format!(in alloc; " kept {kept} thrown {thrown} atoms {atoms} bits {bits} turns {turns}\n")
}

/// Makes turns until the run ends.
fn draw_to_the_end<const F: u32, O: Oracle<F>, L: Ledger>(
    founded: &Founded,
    oracle: &mut O,
    tape: &mut Tape,
    drawing: &mut Drawing,
    steps: &mut Steps<L>,
) -> Result<Ending, AllocError>
    requires fraction_bits { IsFractionBits F }
    requires spec { O.spec oracle.old ≡ founded.now }
    requires costs { AreCosts (O.cost oracle.old) }
    requires levels { O.raised oracle.old ≤ 6 }
    requires can_turn { CanTurn founded.now (O.x oracle.old) empty_files drawing.old.limits
        drawing.old tape.old }
    ensures under_way { IsRunning founded.now (O.x oracle.old) F (O.table oracle.old)
        drawing.old.limits tape.old.source drawing.old tape.old.used (O.raised oracle.old)
        → IsRunning founded.now (O.x oracle.old) F (O.table oracle.old)
        drawing.old.limits tape.old.source drawing.new tape.new.used (O.raised oracle.new) }
    ensures ended { IfOk result (IsAtEnd (O.table oracle.old) drawing.old.limits drawing.new) }
    ensures oracle { LeavesOracle O.spec O.x O.table O.cost O.raised
        oracle.old oracle.new steps.old steps.new }
    ensures levels { O.raised oracle.new ≤ 6 }
    ensures reads { CountsFault (has_failed drawing.new.ending) tape.old.source no_faults
        no_faults }
{
    'turns: loop {
        let Ok(turned) = make_turns(founded, oracle, tape, drawing, steps) else {
            return Err(AllocError);
        };
        if let Some(ending) = turned {
            return Ok(ending);
        }
    }
}

/// Makes turns ahead, and then one turn more, and lets go what that one kept.
fn make_turns<const F: u32, O: Oracle<F>, L: Ledger>(
    founded: &Founded,
    oracle: &mut O,
    tape: &mut Tape,
    drawing: &mut Drawing,
    steps: &mut Steps<L>,
) -> Result<Option<Ending>, AllocError>
    requires fraction_bits { IsFractionBits F }
    requires spec { O.spec oracle.old ≡ founded.now }
    requires can_turn { CanTurn founded.now (O.x oracle.old) empty_files drawing.old.limits
        drawing.old tape.old }
    ensures under_way { IsRunning founded.now (O.x oracle.old) F (O.table oracle.old)
        drawing.old.limits tape.old.source drawing.old tape.old.used (O.raised oracle.old)
        → IsRunning founded.now (O.x oracle.old) F (O.table oracle.old)
        drawing.old.limits tape.old.source drawing.new tape.new.used (O.raised oracle.new) }
    ensures goes_on { IfOk result (DrawingGoesOn founded.now (O.x oracle.old) (O.table oracle.old)
        empty_files drawing.old.limits drawing.old drawing.new tape.new) }
    ensures oracle { LeavesOracle O.spec O.x O.table O.cost O.raised
        oracle.old oracle.new steps.old steps.new }
    ensures levels { O.raised oracle.old ≤ 6 → O.raised oracle.new ≤ 6 }
    ensures source { tape.new.source ≡ tape.old.source }
    ensures reads { CountsFault (has_failed drawing.new.ending) tape.old.source no_faults
        no_faults }
{
    go_ahead(founded, oracle, tape, drawing);
    turn_once(founded, oracle, tape, drawing, steps)
}

/// Makes the turns that the bits read ahead decide by the levels raised so far. They keep nothing.
fn go_ahead<const F: u32, O: Oracle<F>>(
    founded: &Founded,
    oracle: &O,
    tape: &mut Tape,
    drawing: &mut Drawing,
)
    requires fraction_bits { IsFractionBits F }
    requires spec { O.spec oracle.now ≡ founded.now }
    requires can_turn { CanTurn founded.now (O.x oracle.now) empty_files drawing.old.limits
        drawing.old tape.old }
    ensures can_turn { CanTurn founded.now (O.x oracle.now) empty_files drawing.old.limits
        drawing.new tape.new }
    ensures under_way { IsRunning founded.now (O.x oracle.now) F (O.table oracle.now)
        drawing.old.limits tape.old.source drawing.old tape.old.used (O.raised oracle.now)
        → IsRunning founded.now (O.x oracle.now) F (O.table oracle.now)
        drawing.old.limits tape.old.source drawing.new tape.new.used (O.raised oracle.now) }
    ensures turns { drawing.old.turns ≤ drawing.new.turns }
    ensures source { tape.new.source ≡ tape.old.source }
{
    a_turn_continues_a_trace();
    drawing.turn_ahead(founded, oracle, tape);
}

/// Makes one turn, and lets go what it kept.
fn turn_once<const F: u32, O: Oracle<F>, L: Ledger>(
    founded: &Founded,
    oracle: &mut O,
    tape: &mut Tape,
    drawing: &mut Drawing,
    steps: &mut Steps<L>,
) -> Result<Option<Ending>, AllocError>
    requires fraction_bits { IsFractionBits F }
    requires spec { O.spec oracle.old ≡ founded.now }
    requires can_turn { CanTurn founded.now (O.x oracle.old) empty_files drawing.old.limits
        drawing.old tape.old }
    ensures under_way { IsRunning founded.now (O.x oracle.old) F (O.table oracle.old)
        drawing.old.limits tape.old.source drawing.old tape.old.used (O.raised oracle.old)
        → IsRunning founded.now (O.x oracle.old) F (O.table oracle.old)
        drawing.old.limits tape.old.source drawing.new tape.new.used (O.raised oracle.new) }
    ensures goes_on { IfOk result (DrawingGoesOn founded.now (O.x oracle.old) (O.table oracle.old)
        empty_files drawing.old.limits drawing.old drawing.new tape.new) }
    ensures oracle { LeavesOracle O.spec O.x O.table O.cost O.raised
        oracle.old oracle.new steps.old steps.new }
    ensures levels { O.raised oracle.old ≤ 6 → O.raised oracle.new ≤ 6 }
    ensures source { tape.new.source ≡ tape.old.source }
    ensures reads { CountsFault (has_failed drawing.new.ending) tape.old.source no_faults
        no_faults }
{
    a_turn_continues_a_trace();
    let mut files = NoFiles;
    match drawing.turn(founded, oracle, tape, &mut files, steps) {
        Turned::Going => Ok(None),
        Turned::Kept(entry) => {
            drawing.take_back(entry);
            Ok(None)
        }
        Turned::Finished(ending) => Ok(Some(ending)),
        Turned::OutOfMemory => Err(AllocError),
    }
}

//! Drawings, whose lines are written while they go on.
ghost use Rattle.std.specs.Prelude.{◌≡◌, ◌≢◌, ◌+◌, ℕ, ◌≤◌, [], ◌++◌, List, length, max, Option};
ghost use Rattle.std.specs.Prelude.{None, Some, IfOk, IfErr, OnErr, IfSome, IfNone};
ghost use Rattle.bz_model.specs.Fraction.{IsFractionBits};
ghost use Rattle.bz_model.specs.Oracle.{AreCosts, LeavesOracle};
ghost use Rattle.bz_outside.specs.Outside.{Rose};
ghost use Rattle.bit_tape.specs.Tape.{BelongsToShelf, LeavesTape, bits_of_source};
ghost use Rattle.certificate.specs.Certificates.{closing_lines};
ghost use Rattle.certificate.specs.Lines.{text_of};
ghost use Rattle.oracle_memo.specs.Levels.{cost_at, costs};
ghost use Rattle.size_window.specs.Drawing.{AreLimits, DrawingBelongs, ending_of, limits_of};
ghost use Rattle.sample_command.specs.Drawn.{Drawn, ending_status};
ghost use Rattle.call_stages.specs.Ends.{EndsBy, output};
ghost use Rattle.call_stages.specs.Outcomes.{MaySay};
ghost use Rattle.sample_command.specs.UnderWay.{met, has_failed, CanTurn, IsAtEnd, IsUnderWay};
ghost use Rattle.sample_command.specs.UnderWay.{IsBroken, DrawingGoesOn, told_closing};
ghost use Rattle.call_stages.specs.declared.report.Stop.TheVariants as stop;

use crate::entries::{append_entry, closing_of, status_of};
use bit_tape::tape::Tape;
use bz_model::oracle::Oracle;
use bz_model::steps::Steps;
use bz_outside::shelf::Shelf;
use bz_outside::sink::Sink;
use call_stages::page::send_enough;
use call_stages::report::{Stop, written};
use call_stages::status::Status;
use certificate::write::append_closing;
use size_window::drawing::Drawing;
use size_window::ending::Ending;
use size_window::laws::{
    a_course_uses_few_bits, a_table_has_its_chooser, a_trace_starts_with_its_drawing,
    a_turn_continues_a_trace, the_tape_ends_where_its_bits_are_used,
};
use size_window::limits::{Counts, Limits};
use size_window::turned::Turned;
use std::alloc::{AllocError, Global};
use std::sync::ledger::Ledger;
use well_founded::examination::Founded;

/// Draws objects by the bounds of an oracle, after the lines of a header, and writes the lines of
/// each when there are enough.
///
/// No level is raised and no bit of the tape is used before. A level is raised where a number needs
/// it.
pub fn drawn<const F: u32, O: Oracle<F>, S: Shelf, K: Sink, L: Ledger>(
    alloc: Global,
    founded: &Founded,
    oracle: &mut O,
    limits: Limits,
    mut tape: Tape,
    mut header: Vec<u8>,
    shelf: &mut S,
    out: &mut K,
    steps: &mut Steps<L>,
) -> Status
    requires fraction_bits { IsFractionBits F }
    requires spec { O.spec oracle.old ≡ founded.now }
    requires costs { O.cost oracle.old ≡ costs }
    requires none_raised { O.raised oracle.old ≡ 0 }
    requires limits { AreLimits (limits_of limits) }
    requires unused { tape.used ≡ 0 }
    requires ahead { BelongsToShelf (S.content shelf.old) tape }
    ensures ends { EndsBy (Drawn cost_at header.items founded.now (O.x oracle.old) F
        (O.table oracle.old) (limits_of limits)
        (met tape.source (S.content shelf.old) (S.faults shelf.old) (S.faults shelf.new)))
        (output (K.written out.old) (K.written out.new) (K.faults out.old) (K.faults out.new)
        steps.old steps.new) result }
    ensures content { S.content shelf.new ≡ S.content shelf.old }
    ensures counts { (name : List ℕ) → S.faults shelf.old name ≤ S.faults shelf.new name }
    ensures writes { K.faults out.old ≤ K.faults out.new }
{
    founded.system().known();
    oracle.known();
    a_table_has_its_chooser();
    a_trace_starts_with_its_drawing();
    a_course_uses_few_bits();
    the_tape_ends_where_its_bits_are_used();
    let Ok(mut drawing) = Drawing::new(alloc, founded, limits) else {
        return Status::OutOfMemory;
    };
    match draw_to_the_end::<F, O, S, K, L>(
        alloc,
        founded,
        oracle,
        &mut tape,
        &mut drawing,
        shelf,
        out,
        steps,
        &mut header,
    ) {
        Ok(ending) => finished(alloc, ending, drawing.counts(), tape.used(), header, out),
        Err(stop) => stop.status(),
    }
}

/// Writes what is held back of a drawing that has come to its end, and its closing lines.
fn finished<K: Sink>(
    alloc: Global,
    ending: Ending,
    counts: Counts,
    bits: u64,
    mut page: Vec<u8>,
    out: &mut K,
) -> Status
    ensures ends { EndsBy (MaySay (ending_status (ending_of ending))
        (page.items ++ text_of (closing_lines
        (told_closing ending counts.kept counts.thrown bits counts.turns))) 0)
        (output (K.written out.old) (K.written out.new) (K.faults out.old) (K.faults out.new) 0 0)
        result }
    ensures writes { K.faults out.old ≤ K.faults out.new }
{
    match append_closing(alloc, &mut page, &closing_of(ending, counts, bits)) {
        Ok(()) => written(out, status_of(ending), page.as_slice()),
        Err(_) => Status::OutOfMemory,
    }
}

/// Makes turns until the drawing ends, and writes the lines of the kept objects when there are
/// enough.
fn draw_to_the_end<const F: u32, O: Oracle<F>, S: Shelf, K: Sink, L: Ledger>(
    alloc: Global,
    founded: &Founded,
    oracle: &mut O,
    tape: &mut Tape,
    drawing: &mut Drawing,
    shelf: &mut S,
    out: &mut K,
    steps: &mut Steps<L>,
    page: &mut Vec<u8>,
) -> Result<Ending, Stop>
    requires fraction_bits { IsFractionBits F }
    requires spec { O.spec oracle.old ≡ founded.now }
    requires costs { AreCosts (O.cost oracle.old) }
    requires levels { O.raised oracle.old ≤ 6 }
    requires can_turn { CanTurn founded.now (O.x oracle.old) (S.content shelf.old)
        drawing.old.limits drawing.old tape.old }
    ensures under_way { IfOk result (λ _. (header : List ℕ) (start : Option (List ℕ))
        → IsUnderWay founded.now (O.x oracle.old) F (O.table oracle.old) drawing.old.limits
        (bits_of_source tape.old.source (S.content shelf.old)) drawing.old tape.old.used
        (O.raised oracle.old) header start (K.written out.old) page.old.items
        → IsUnderWay founded.now (O.x oracle.old) F (O.table oracle.old) drawing.old.limits
        (bits_of_source tape.old.source (S.content shelf.old)) drawing.new tape.new.used
        (O.raised oracle.new) header start (K.written out.new) page.new.items) }
    ensures ended { IfOk result (IsAtEnd (O.table oracle.old) drawing.old.limits drawing.new) }
    ensures broken { IfErr result (λ _. (header : List ℕ) (start : Option (List ℕ))
        → IsUnderWay founded.now (O.x oracle.old) F (O.table oracle.old) drawing.old.limits
        (bits_of_source tape.old.source (S.content shelf.old)) drawing.old tape.old.used
        (O.raised oracle.old) header start (K.written out.old) page.old.items
        → IsBroken founded.now (O.x oracle.old) F (O.table oracle.old) drawing.old.limits
        (bits_of_source tape.old.source (S.content shelf.old)) drawing.new tape.new.used
        (O.raised oracle.new) header start (K.written out.new)) }
    ensures cause { IfErr result (λ broken. broken ≡ stop.WriteFault
        → Rose (K.faults out.old) (K.faults out.new)) }
    ensures oracle { LeavesOracle O.spec O.x O.table O.cost O.raised
        oracle.old oracle.new steps.old steps.new }
    ensures levels { O.raised oracle.new ≤ 6 }
    ensures tape { LeavesTape S.content S.faults (has_failed drawing.new.ending)
        shelf.old shelf.new tape.old tape.new }
    ensures writes { K.faults out.old ≤ K.faults out.new }
{
    'turns: loop {
        let Ok(turned) = make_turns(alloc, founded, oracle, tape, drawing, shelf, steps, page)
        else {
            return Err(Stop::OutOfMemory);
        };
        if let Some(ending) = turned {
            return Ok(ending);
        }
        let Ok(()) = send_enough(out, page) else {
            return Err(Stop::WriteFault);
        };
    }
}

/// Makes turns ahead, and then one turn more, and appends the lines of what that one kept.
fn make_turns<const F: u32, O: Oracle<F>, S: Shelf, L: Ledger>(
    alloc: Global,
    founded: &Founded,
    oracle: &mut O,
    tape: &mut Tape,
    drawing: &mut Drawing,
    shelf: &mut S,
    steps: &mut Steps<L>,
    page: &mut Vec<u8>,
) -> Result<Option<Ending>, AllocError>
    requires fraction_bits { IsFractionBits F }
    requires spec { O.spec oracle.old ≡ founded.now }
    requires can_turn { CanTurn founded.now (O.x oracle.old) (S.content shelf.old)
        drawing.old.limits drawing.old tape.old }
    ensures under_way { IfOk result (λ _. (header : List ℕ) (start now : Option (List ℕ))
        → IsUnderWay founded.now (O.x oracle.old) F (O.table oracle.old) drawing.old.limits
        (bits_of_source tape.old.source (S.content shelf.old)) drawing.old tape.old.used
        (O.raised oracle.old) header start now page.old.items
        → IsUnderWay founded.now (O.x oracle.old) F (O.table oracle.old) drawing.old.limits
        (bits_of_source tape.old.source (S.content shelf.old)) drawing.new tape.new.used
        (O.raised oracle.new) header start now page.new.items) }
    ensures broken { OnErr result ((header : List ℕ) (start now : Option (List ℕ))
        → IsUnderWay founded.now (O.x oracle.old) F (O.table oracle.old) drawing.old.limits
        (bits_of_source tape.old.source (S.content shelf.old)) drawing.old tape.old.used
        (O.raised oracle.old) header start now page.old.items
        → IsBroken founded.now (O.x oracle.old) F (O.table oracle.old) drawing.old.limits
        (bits_of_source tape.old.source (S.content shelf.old)) drawing.new tape.new.used
        (O.raised oracle.new) header start now) }
    ensures goes_on { IfOk result (DrawingGoesOn founded.now (O.x oracle.old) (O.table oracle.old)
        (S.content shelf.old) drawing.old.limits drawing.old drawing.new tape.new) }
    ensures oracle { LeavesOracle O.spec O.x O.table O.cost O.raised
        oracle.old oracle.new steps.old steps.new }
    ensures levels { O.raised oracle.old ≤ 6 → O.raised oracle.new ≤ 6 }
    ensures tape { LeavesTape S.content S.faults (has_failed drawing.new.ending)
        shelf.old shelf.new tape.old tape.new }
{
    go_ahead(founded, oracle, tape, drawing);
    turn_once(alloc, founded, oracle, tape, drawing, shelf, steps, page)
}

/// Makes the turns that the bits read ahead decide by the levels raised so far.
///
/// They keep nothing, and ask no shelf.
fn go_ahead<const F: u32, O: Oracle<F>>(
    founded: &Founded,
    oracle: &O,
    tape: &mut Tape,
    drawing: &mut Drawing,
)
    requires fraction_bits { IsFractionBits F }
    requires spec { O.spec oracle.now ≡ founded.now }
    requires drawing { DrawingBelongs founded.now (O.x oracle.now) drawing.old }
    ensures can_turn { (contents : List ℕ → Option (List ℕ))
        → CanTurn founded.now (O.x oracle.now) contents drawing.old.limits drawing.old tape.old
        → CanTurn founded.now (O.x oracle.now) contents drawing.old.limits drawing.new tape.new }
    ensures under_way { (contents : List ℕ → Option (List ℕ))
        → CanTurn founded.now (O.x oracle.now) contents drawing.old.limits drawing.old tape.old
        → (header : List ℕ) (start now : Option (List ℕ)) (page : List ℕ)
        → IsUnderWay founded.now (O.x oracle.now) F (O.table oracle.now) drawing.old.limits
        (bits_of_source tape.old.source contents) drawing.old tape.old.used
        (O.raised oracle.now) header start now page
        → IsUnderWay founded.now (O.x oracle.now) F (O.table oracle.now) drawing.old.limits
        (bits_of_source tape.old.source contents) drawing.new tape.new.used
        (O.raised oracle.now) header start now page }
    ensures turns { drawing.old.turns ≤ drawing.new.turns }
    ensures source { tape.new.source ≡ tape.old.source }
{
    a_turn_continues_a_trace();
    drawing.turn_ahead(founded, oracle, tape);
}

/// Makes one turn, and appends the lines of what it kept.
fn turn_once<const F: u32, O: Oracle<F>, S: Shelf, L: Ledger>(
    alloc: Global,
    founded: &Founded,
    oracle: &mut O,
    tape: &mut Tape,
    drawing: &mut Drawing,
    shelf: &mut S,
    steps: &mut Steps<L>,
    page: &mut Vec<u8>,
) -> Result<Option<Ending>, AllocError>
    requires fraction_bits { IsFractionBits F }
    requires spec { O.spec oracle.old ≡ founded.now }
    requires can_turn { CanTurn founded.now (O.x oracle.old) (S.content shelf.old)
        drawing.old.limits drawing.old tape.old }
    ensures under_way { IfOk result (λ _. (header : List ℕ) (start now : Option (List ℕ))
        → IsUnderWay founded.now (O.x oracle.old) F (O.table oracle.old) drawing.old.limits
        (bits_of_source tape.old.source (S.content shelf.old)) drawing.old tape.old.used
        (O.raised oracle.old) header start now page.old.items
        → IsUnderWay founded.now (O.x oracle.old) F (O.table oracle.old) drawing.old.limits
        (bits_of_source tape.old.source (S.content shelf.old)) drawing.new tape.new.used
        (O.raised oracle.new) header start now page.new.items) }
    ensures broken { OnErr result ((header : List ℕ) (start now : Option (List ℕ))
        → IsUnderWay founded.now (O.x oracle.old) F (O.table oracle.old) drawing.old.limits
        (bits_of_source tape.old.source (S.content shelf.old)) drawing.old tape.old.used
        (O.raised oracle.old) header start now page.old.items
        → IsBroken founded.now (O.x oracle.old) F (O.table oracle.old) drawing.old.limits
        (bits_of_source tape.old.source (S.content shelf.old)) drawing.new tape.new.used
        (O.raised oracle.new) header start now) }
    ensures goes_on { IfOk result (DrawingGoesOn founded.now (O.x oracle.old) (O.table oracle.old)
        (S.content shelf.old) drawing.old.limits drawing.old drawing.new tape.new) }
    ensures oracle { LeavesOracle O.spec O.x O.table O.cost O.raised
        oracle.old oracle.new steps.old steps.new }
    ensures levels { O.raised oracle.old ≤ 6 → O.raised oracle.new ≤ 6 }
    ensures tape { LeavesTape S.content S.faults (has_failed drawing.new.ending)
        shelf.old shelf.new tape.old tape.new }
{
    a_turn_continues_a_trace();
    match drawing.turn(founded, oracle, tape, shelf, steps) {
        Turned::Going => Ok(None),
        Turned::Kept(entry) => match append_entry(alloc, founded, &entry, page) {
            Ok(()) => {
                drawing.take_back(entry);
                Ok(None)
            }
            Err(error) => Err(error),
        },
        Turned::Finished(ending) => Ok(Some(ending)),
        Turned::OutOfMemory => Err(AllocError),
    }
}

//! Testing the entries of a certificate, each made again from its own cells.
ghost use Rattle.std.specs.Prelude.{◌≡◌, ◌≢◌, true, false, ◌+◌, ◌*◌, ◌^◌, ◌<◌, ◌≤◌, ◌↔◌, suc};
ghost use Rattle.std.specs.Prelude.{length, IsTrue, Some, IfOk};
ghost use Rattle.std.specs.List.{AllByRecursion};
ghost use Rattle.bz_model.specs.Fraction.{IsFractionBits};
ghost use Rattle.bz_model.specs.Cell.{AreCells};
ghost use Rattle.bz_model.specs.Oracle.{LeavesOracle};
ghost use Rattle.labelling.specs.LabelsByBits.{bits_in};
ghost use Rattle.object_store.specs.Tokens.{IsOf};
ghost use Rattle.object_text.specs.Labels.{HasOneForEach};
ghost use Rattle.shape_sampler.specs.State.{SessionBelongs};
ghost use Rattle.certificate.specs.Checks.{entry_checks, entries_checks, made_checks};
ghost use Rattle.certificate.specs.Checks.{IsNumberedNext};
ghost use Rattle.certificate.specs.Checks.{IsSizedEntry};
ghost use Rattle.certificate.specs.Soundness.{IsSoundEntry};
ghost use Rattle.certificate.specs.Verdicts.{FirstFails};
ghost use Rattle.certificate.specs.declared.reason.Verdict.TheVariants as verdict;

use crate::certificate::CertEntry;
use crate::reason::{Reason, Verdict};
use bz_model::cell::Cell;
use bz_model::oracle::Oracle;
use bz_model::steps::Steps;
use class_system::ids::ClassId;
use entry_replay::replay::{Redrawn, replay};
use object_text::print::print_labelled;
use shape_sampler::session::Session;
use std::alloc::{AllocError, Global};
use std::sync::ledger::Ledger;
use well_founded::examination::Founded;

/// The least and the greatest size of an entry.
#[derive(Clone, Copy)]
pub(crate) struct Window {
    pub(crate) least: u64,
    pub(crate) greatest: u64,
}

/// What an entry follows: how many entries, the place where their bits end, and its first line.
#[derive(Clone, Copy)]
struct Before {
    number: u64,
    place: u128,
    line: u64,
}

/// Tests the entries in order, the first of which is on this line.
///
/// The session's room is the greatest size of the window.
pub(crate) fn test_entries<const F: u32, O: Oracle<F>, L: Ledger>(
    alloc: Global,
    founded: &Founded,
    oracle: &mut O,
    session: &mut Session,
    window: Window,
    entries: &[CertEntry],
    line: u64,
    steps: &mut Steps<L>,
) -> Result<Verdict, AllocError>
    requires fraction_bits { IsFractionBits F }
    requires spec { O.spec oracle.old ≡ founded.now }
    requires session { SessionBelongs founded.now (O.x oracle.old) session.old }
    requires room { session.old.whole ≡ window.greatest }
    requires within { window.greatest ≤ 1000000 }
    requires few { length entries.now ≤ 2 ^ 60 }
    requires small { line ≤ 71 }
    ensures verdict { IfOk result (FirstFails (entries_checks founded.now F
        (O.table oracle.old) window.least
        window.greatest 0 0 line entries.now)) }
    ensures sound { IfOk result (λ told. told ≡ verdict.Valid
        → AllByRecursion (IsSoundEntry founded.now (O.x oracle.old) window.least window.greatest)
        entries.now) }
    ensures oracle { LeavesOracle O.spec O.x O.table O.cost O.raised
        oracle.old oracle.new steps.old steps.new }
{
    oracle.known();
    let mut before = Before {
        number: 0,
        place: 0,
        line,
    };
    'tests: for entry in entries {
        let answer = test_entry(
            alloc, founded, oracle, session, window, entry, before, steps,
        );
        oracle.known();
        let tested = answer?;
        let Verdict::Valid = tested else {
            return Ok(tested);
        };
        before = after(before, entry);
    }
    Ok(Verdict::Valid)
}

/// What the next entry follows.
fn after(before: Before, entry: &CertEntry) -> Before
    requires number { before.number < 2 ^ 60 }
    requires line { before.line < 2 ^ 63 }
    ensures number { result.number ≡ before.number + 1 }
    ensures place { result.place ≡ entry.now.place + bits_in entry.now.cells.items }
    ensures line { result.line ≡ before.line + 3 }
{
    Before {
        number: before.number + 1,
        place: place_after(entry.place, entry.cells.items()),
        line: before.line + 3,
    }
}

/// The place where the bits of cells end.
fn place_after(place: u64, cells: &[Cell]) -> u128
    requires { AreCells cells.now }
    ensures { result ≡ place + bits_in cells.now }
{
    let mut end = u128::from(place);
    for cell in cells {
        end += u128::from(cell.b);
    }
    end
}

/// Tests one entry: its number and place, its cells, its size, and its text.
fn test_entry<const F: u32, O: Oracle<F>, L: Ledger>(
    alloc: Global,
    founded: &Founded,
    oracle: &mut O,
    session: &mut Session,
    window: Window,
    entry: &CertEntry,
    before: Before,
    steps: &mut Steps<L>,
) -> Result<Verdict, AllocError>
    requires fraction_bits { IsFractionBits F }
    requires spec { O.spec oracle.old ≡ founded.now }
    requires session { SessionBelongs founded.now (O.x oracle.old) session.old }
    requires room { session.old.whole ≡ window.greatest }
    requires within { window.greatest ≤ 1000000 }
    requires number { before.number < 2 ^ 60 }
    requires line { before.line < 2 ^ 63 }
    ensures verdict { IfOk result (FirstFails (entry_checks founded.now F
        (O.table oracle.old) window.least
        window.greatest before.number before.place before.line entry.now)) }
    ensures sound { IfOk result (λ told. told ≡ verdict.Valid
        → IsSoundEntry founded.now (O.x oracle.old) window.least window.greatest entry.now) }
    ensures session { SessionBelongs founded.now (O.x oracle.old) session.new }
    ensures whole { session.new.whole ≡ session.old.whole }
    ensures oracle { LeavesOracle O.spec O.x O.table O.cost O.raised
        oracle.old oracle.new steps.old steps.new }
{
    let system = founded.system();
    system.known();
    if !is_next(entry, before) {
        return Ok(Verdict::Invalid {
            line: before.line,
            reason: Reason::Object,
        });
    }
    let cells = entry.cells.items();
    let answer = replay(alloc, founded, oracle, session, cells, steps)?;
    let Some(made) = answer else {
        return Ok(Verdict::Invalid {
            line: before.line + 2,
            reason: Reason::Cells,
        });
    };
    test_made(alloc, founded, &made, window, entry, before.line)
}

/// Tests that what was made of an entry's cells has the entry's size, within the window, and its
/// text.
fn test_made(
    alloc: Global,
    founded: &Founded,
    made: &Redrawn,
    window: Window,
    entry: &CertEntry,
    line: u64,
) -> Result<Verdict, AllocError>
    requires line { line < 2 ^ 63 }
    requires is_of { IsOf founded.now 0 made.now.shape.items }
    requires labels { HasOneForEach founded.now.mode made.now.shape.items made.now.labels }
    ensures { IfOk result (FirstFails (made_checks founded.now window.least window.greatest line
        made.now.shape.items made.now.labels entry.now)) }
{
    if !is_sized(window, made.shape.size(), entry) {
        return Ok(Verdict::Invalid {
            line,
            reason: Reason::Object,
        });
    }
    let system = founded.system();
    system.known();
    let text = print_labelled(alloc, system, ClassId(0), &made.shape, made.labels.items())?;
    if !is_same(text.as_slice(), entry.text.bytes()) {
        return Ok(Verdict::Invalid {
            line: line + 1,
            reason: Reason::Text,
        });
    }
    Ok(Verdict::Valid)
}

/// Whether a size is an entry's, within the window.
fn is_sized(window: Window, size: u64, entry: &CertEntry) -> bool
    ensures { IsTrue result ↔ IsSizedEntry window.least window.greatest size entry.now }
{
    size == entry.size && window.least <= entry.size && entry.size <= window.greatest
}

/// Whether bytes are the same.
pub(crate) fn is_same(these: &[u8], those: &[u8]) -> bool
    ensures same { result ≡ true → these.now ≡ those.now }
    ensures other { result ≡ false → these.now ≢ those.now }
{
    these == those
}

/// Whether an entry has the next number, and a place that isn't before the end of the bits before.
fn is_next(entry: &CertEntry, before: Before) -> bool
    requires number { before.number < 2 ^ 60 }
    ensures { IsTrue result ↔ IsNumberedNext before.number before.place entry.now }
{
    entry.number == before.number + 1 && before.place <= u128::from(entry.place)
}

//! Replays: an attempt and a labelling over the bits that cells spell.
ghost use Rattle.std.specs.Prelude.{◌≡◌, ◌≢◌, ℕ, ◌+◌, ◌<◌, ◌≤◌, ◌↔◌, ◌∷◌, ◌++◌, [], List, Bool};
ghost use Rattle.std.specs.Prelude.{true, false, IsTrue, IfOk, IfSome, IfNone, OnOk, Some, None};
ghost use Rattle.bz_model.specs.Fraction.{IsFractionBits};
ghost use Rattle.bz_model.specs.Cell.{AreCells};
ghost use Rattle.bz_model.specs.Oracle.{LeavesOracle};
ghost use Rattle.bz_model.specs.declared.cell.Cell.{Cell};
ghost use Rattle.bit_tape.specs.Bits.{file_bit};
ghost use Rattle.bit_tape.specs.Tape.{BelongsToShelf, bits_of_source};
ghost use Rattle.class_system.specs.Views.{spec_mode};
ghost use Rattle.object_store.specs.Tokens.{size_of};
ghost use Rattle.object_store.specs.declared.token.Token.{Token};
ghost use Rattle.shape_sampler.specs.Belonging.{IsIdealShape};
ghost use Rattle.shape_sampler.specs.State.{SessionBelongs, attempt_of};
ghost use Rattle.size_window.specs.Follows.{IsMadeOfItsCells};
ghost use Rattle.entry_replay.specs.Replay.{entry_with, AreMadeOf, IsMadeByTable, IsNeverMade};
ghost use Rattle.entry_replay.specs.Replay.{GetLabels, AreIdeally, IsLabelledBy, IsNotLabelled};

use crate::packing::packed;
use bit_tape::tape::Tape;
use bz_model::cell::Cell;
use bz_model::cells::Cells;
use bz_model::oracle::Oracle;
use bz_model::steps::Steps;
use bz_outside::steady::SteadyShelf;
use bz_outside::word::Word;
use class_system::draft::Mode;
use labelling::label::label;
use labelling::labelled::Labelled;
use labelling::labels::Labels;
use object_store::shape::Shape;
use shape_sampler::session::Session;
use shape_sampler::stepped::Stepped;
use std::alloc::{AllocError, Global};
use std::sync::ledger::Ledger;
use well_founded::examination::Founded;

/// An object that was made again: its shape and, in token order, the labels of its atoms, of which
/// there are none in unlabelled mode.
#[derive(Drop)]
pub struct Redrawn {
    pub shape: Shape,
    pub labels: Labels,
}

/// Makes an object and its labels from exactly the bits that the cells spell.
///
/// `None` exactly where these bits don't make an object with exactly these cells: where a number
/// that is drawn has another cell, a bit is left or one more wanted, 60 bits decide nothing, or the
/// attempt is over the session's room. The session may have any attempt before. Takes memory for
/// the bits, the shape, the labels and their cells. After 2^64 - 1 visits it answers as out of
/// memory.
pub fn replay<const F: u32, O: Oracle<F>, L: Ledger>(
    alloc: Global,
    founded: &Founded,
    oracle: &mut O,
    session: &mut Session,
    cells: &[Cell],
    steps: &mut Steps<L>,
) -> Result<Option<Redrawn>, AllocError>
    requires fraction_bits { IsFractionBits F }
    requires spec { O.spec oracle.old ≡ founded.now }
    requires session { SessionBelongs founded.now (O.x oracle.old) session.old }
    requires room { session.old.whole ≤ 1000000 }
    requires cells { AreCells cells.now }

    ensures made { IfOk result (λ answer. IfSome answer (λ made.
        AreMadeOf founded.now F (O.table oracle.old) session.old.whole cells.now
        made.shape.items made.labels)) }
    ensures none { IfOk result (λ answer. IfNone answer ((tokens : List Token) (labels : List ℕ)
        → ¬ (AreMadeOf founded.now F (O.table oracle.old) session.old.whole cells.now
        tokens labels))) }
    ensures ideal { IfOk result (λ answer. IfSome answer (λ made.
        IsMadeOfItsCells founded.now (O.x oracle.old) session.old.whole
        (entry_with made.shape.items made.labels cells.now))) }

    ensures session { SessionBelongs founded.now (O.x oracle.old) session.new }
    ensures whole { session.new.whole ≡ session.old.whole }
    ensures oracle { LeavesOracle O.spec O.x O.table O.cost O.raised
        oracle.old oracle.new steps.old steps.new }
{
    let system = founded.system();
    system.known();
    let bytes = packed(alloc, cells)?;
    let mut shelf = SteadyShelf::new(bytes);
    let mut tape = Tape::over(Word::from_bytes(alloc, b"")?);
    let done = attempt(founded, oracle, session, &mut tape, &mut shelf, steps)?;
    if !done {
        return Ok(None);
    }
    let (shape, own) = session.take_made();
    label_again(
        alloc,
        system.mode(),
        shape,
        &own,
        cells,
        &mut tape,
        &mut shelf,
    )
}

/// Labels a shape that was made with its own cells, where the cells are these followed by those of
/// its labels.
fn label_again(
    alloc: Global,
    mode: Mode,
    shape: Shape,
    own: &Cells,
    cells: &[Cell],
    tape: &mut Tape,
    shelf: &mut SteadyShelf,
) -> Result<Option<Redrawn>, AllocError>
    requires within_limit { size_of shape.items ≤ 1000000 }
    requires belongs { BelongsToShelf (λ name. Some shelf.old) tape.old }
    requires told { bits_of_source tape.old.source (λ name. Some shelf.old)
        ≡ Some (file_bit shelf.old) }

    ensures some { IfOk result (λ answer. IfSome answer (λ made.
        (made.shape.items ≡ shape.items) × IsLabelledBy (spec_mode mode) (file_bit shelf.old)
        (size_of shape.items) tape.old.used own.now.items cells.now made.labels)) }
    ensures none { IfOk result (λ answer. IfNone answer (IsNotLabelled (spec_mode mode)
        (file_bit shelf.old) (size_of shape.items) tape.old.used own.now.items cells.now)) }
{
    let Some(given) = labels_of(alloc, mode, shape.size(), tape, shelf)? else {
        return Ok(None);
    };
    if !are_joined(own.items(), given.cells.items(), cells) {
        return Ok(None);
    }
    Ok(Some(Redrawn {
        shape,
        labels: given.labels,
    }))
}

/// The labels of a shape, with the cells of the numbers drawn for them.
#[derive(Drop)]
struct Given {
    labels: Labels,
    cells: Cells,
}

/// Makes an attempt from its beginning to its end; false where it isn't made.
fn attempt<const F: u32, O: Oracle<F>, L: Ledger>(
    founded: &Founded,
    oracle: &mut O,
    session: &mut Session,
    tape: &mut Tape,
    shelf: &mut SteadyShelf,
    steps: &mut Steps<L>,
) -> Result<bool, AllocError>
    requires fraction_bits { IsFractionBits F }
    requires spec { O.spec oracle.old ≡ founded.now }
    requires session { SessionBelongs founded.now (O.x oracle.old) session.old }
    requires belongs { BelongsToShelf (λ name. Some shelf.old) tape.old }
    requires told { bits_of_source tape.old.source (λ name. Some shelf.old)
        ≡ Some (file_bit shelf.old) }

    ensures made { IfOk result (λ done. done ≡ true → IsMadeByTable founded.now F
        (O.table oracle.old) session.old.whole (file_bit shelf.old) tape.old.used
        (attempt_of session.new tape.new.used)) }
    ensures rests { IfOk result (λ done. done ≡ true → session.new.pending ≡ []) }
    ensures ideal { IfOk result (λ done. done ≡ true → IsIdealShape founded.now (O.x oracle.old)
        session.old.whole session.new.tokens session.new.cells) }
    ensures never { IfOk result (λ done. done ≡ false → IsNeverMade founded.now F
        (O.table oracle.old) session.old.whole (file_bit shelf.old) tape.old.used) }

    ensures session { SessionBelongs founded.now (O.x oracle.old) session.new }
    ensures whole { session.new.whole ≡ session.old.whole }
    ensures oracle { LeavesOracle O.spec O.x O.table O.cost O.raised
        oracle.old oracle.new steps.old steps.new }
    ensures belongs { BelongsToShelf (λ name. Some shelf.new) tape.new }
    ensures source { tape.new.source ≡ tape.old.source }
    ensures shelf { shelf.new ≡ shelf.old }
{
    oracle.known();
    session.begin()?;
    'visits: for visit in 0..u64::MAX {
        let answer = session.step(founded, oracle, tape, shelf, steps);
        oracle.known();
        match answer {
            Stepped::Moved => {}
            Stepped::Made => return Ok(true),
            Stepped::OutOfMemory => return Err(AllocError),
            // Over the room, or cut short: no read of the shelf fails.
            _ => return Ok(false),
        }
    }
    Err(AllocError)
}

/// The labels of `n` atoms with the cells of the numbers drawn for them; `None` where they aren't
/// drawn.
fn labels_of(
    alloc: Global,
    mode: Mode,
    n: u64,
    tape: &mut Tape,
    shelf: &mut SteadyShelf,
) -> Result<Option<Given>, AllocError>
    requires within_limit { n ≤ 1000000 }
    requires belongs { BelongsToShelf (λ name. Some shelf.old) tape.old }
    requires told { bits_of_source tape.old.source (λ name. Some shelf.old)
        ≡ Some (file_bit shelf.old) }

    ensures some { IfOk result (λ answer. IfSome answer (λ given.
        GetLabels (spec_mode mode) (file_bit shelf.old) n tape.old.used given.labels
        given.cells.items tape.new.used)) }
    ensures ideal { IfOk result (λ answer. IfSome answer (λ given.
        AreIdeally (spec_mode mode) n given.labels given.cells.items)) }
    ensures none { IfOk result (λ answer. IfNone answer ((labels : List ℕ) (cells : List Cell)
        (end : ℕ)
        → ¬ (GetLabels (spec_mode mode) (file_bit shelf.old) n tape.old.used labels cells end))) }
{
    match mode {
        Mode::Unlabelled => Ok(Some(Given {
            labels: Labels::new(alloc),
            cells: Cells::new(alloc),
        })),
        Mode::Labelled => match label(alloc, n, tape, shelf) {
            Labelled::Labels { labels, cells } => Ok(Some(Given { labels, cells })),
            Labelled::OutOfMemory => Err(AllocError),
            Labelled::Straddles { .. } | Labelled::Ended | Labelled::ReadFault => Ok(None),
        },
    }
}

/// Whether cells are these followed by those.
fn are_joined(own: &[Cell], more: &[Cell], cells: &[Cell]) -> bool
    ensures joined { result ≡ true → cells.now ≡ own.now ++ more.now }
    ensures other { result ≡ false → cells.now ≢ own.now ++ more.now }
{
    let Some(rest) = behind(own, cells) else {
        return false;
    };
    let Some(left) = behind(more, rest) else {
        return false;
    };
    left.is_empty()
}

/// The cells behind these at the front of others.
fn behind<'a>(front: &[Cell], cells: &'a [Cell]) -> Option<&'a [Cell]>
    ensures found { IfSome result (λ rest. cells.now ≡ front.now ++ rest.now) }
    ensures none { IfNone result ((rest : List Cell) → cells.now ≢ front.now ++ rest) }
{
    let mut rest = cells;
    for cell in front {
        let Some(next) = behind_one(*cell, rest) else {
            return None;
        };
        rest = next;
    }
    Some(rest)
}

/// The cells behind this one at the front of others.
fn behind_one(cell: Cell, cells: &[Cell]) -> Option<&[Cell]>
    ensures found { IfSome result (λ rest. cells.now ≡ cell ∷ rest.now) }
    ensures none { IfNone result ((rest : List Cell) → cells.now ≢ cell ∷ rest) }
{
    match cells {
        [first, rest @ ..] => {
            if is_same(*first, cell) {
                Some(rest)
            } else {
                None
            }
        }
        [] => None,
    }
}

/// Whether cells are the same.
fn is_same(this: Cell, that: Cell) -> bool
    ensures same { result ≡ true → this ≡ that }
    ensures other { result ≡ false → this ≢ that }
{
    this.k == that.k && this.b == that.b
}

//! Labellings.
ghost use Rattle.std.specs.Prelude.{◌≡◌, ◌≢◌, ◌+◌, ◌*◌, ◌≤◌, []};
ghost use Rattle.bz_model.specs.Labels.{numbers_from};
ghost use Rattle.bit_tape.specs.Tape.{BelongsToShelf, LeavesTape, bits_of_source};
ghost use Rattle.labelling.specs.Answer.{IsLabelling, OnLabels, AreIdealLabels, AreCellsOf};
ghost use Rattle.labelling.specs.Answer.{StraddlesAt, is_label_fault};

use crate::labelled::Labelled;
use crate::progress::Progress;
use bit_tape::tape::Tape;
use bz_outside::shelf::Shelf;
use choice_draw::drawn::Drawn;
use choice_draw::whole::draw_whole;
use std::alloc::Global;

/// Labels `n` atoms: a permutation of 1 to `n`, in token order.
///
/// For m from `n` down to 2 a whole number below m is drawn, and the next atom gets the remaining
/// label that has so many remaining labels below it. The last atom gets the label left, and no
/// number is drawn for it, so that no bit is taken where `n` is 0 or 1. The answer is fixed by the
/// bits that were given, whether the shelf tells its content or not. `ReadFault` comes exactly
/// where the count of faults of the tape's name rose, by one. All memory is taken before the first
/// bit: for the labels that remain, those given and the cells. `OutOfMemory` leaves tape and shelf
/// as they were.
pub fn label<S: Shelf>(alloc: Global, n: u64, tape: &mut Tape, shelf: &mut S) -> Labelled
    requires within_limit { n ≤ 1000000 }
    requires belongs { BelongsToShelf (S.content shelf.old) tape.old }

    ensures no_memory { result ≡ Labelled.OutOfMemory
        → (tape.new ≡ tape.old) × (shelf.new ≡ shelf.old) }
    ensures labelled { IsLabelling (bits_of_source tape.old.source (S.content shelf.old)) n
        tape.old.used result tape.new.used }
    ensures ideal { OnLabels result (λ labels cells. AreIdealLabels n labels cells) }
    ensures cells { OnLabels result (λ labels cells. AreCellsOf n cells) }
    ensures straddles { StraddlesAt n result }

    ensures used { (tape.old.used ≤ tape.new.used) × (tape.new.used ≤ tape.old.used + 60 * n) }
    ensures tape { LeavesTape S.content S.faults (is_label_fault result)
        shelf.old shelf.new tape.old tape.new }
{
    match Progress::begin(alloc, n) {
        Ok(progress) => give_all(progress, n, tape, shelf),
        Err(_) => Labelled::OutOfMemory,
    }
}

/// Gives the labels of `n` atoms, of which none was given before.
fn give_all<S: Shelf>(mut progress: Progress, n: u64, tape: &mut Tape, shelf: &mut S) -> Labelled
    requires within_limit { n ≤ 1000000 }
    requires begun { progress ≡ record { remaining = numbers_from 1 n; given = []; cells = [] } }
    requires belongs { BelongsToShelf (S.content shelf.old) tape.old }

    ensures labelled { IsLabelling (bits_of_source tape.old.source (S.content shelf.old)) n
        tape.old.used result tape.new.used }
    ensures some_memory { result ≢ Labelled.OutOfMemory }
    ensures ideal { OnLabels result (λ labels cells. AreIdealLabels n labels cells) }
    ensures cells { OnLabels result (λ labels cells. AreCellsOf n cells) }
    ensures straddles { StraddlesAt n result }

    ensures used { (tape.old.used ≤ tape.new.used) × (tape.new.used ≤ tape.old.used + 60 * n) }
    ensures tape { LeavesTape S.content S.faults (is_label_fault result)
        shelf.old shelf.new tape.old tape.new }
{
    let mut m = n;
    'atoms: while m >= 2 {
        match draw_whole(m, tape, shelf) {
            Drawn::Value { value, cell } => progress.give(value, cell),
            Drawn::Straddles { cell } => return Labelled::Straddles { m, cell },
            Drawn::Ended => return Labelled::Ended,
            Drawn::ReadFault => return Labelled::ReadFault,
        }
        m -= 1;
    }
    let (labels, cells) = progress.finish();
    Labelled::Labels { labels, cells }
}

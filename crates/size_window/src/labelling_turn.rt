//! The turns in which a made shape gets its labels.
ghost use Rattle.std.specs.Prelude.{◌≡◌, ◌+◌, ◌*◌, ◌<◌, ◌≤◌, length, None};
ghost use Rattle.bit_tape.specs.Tape.{BelongsToShelf, LeavesTape, bits_of_source};
ghost use Rattle.labelling.specs.Answer.{OnLabels};
ghost use Rattle.object_store.specs.Tokens.{size_of};
ghost use Rattle.size_window.specs.Drawing.{shape_of, counted, waiting_with, ended_by};
ghost use Rattle.size_window.specs.Turn.{is_turn_fault};
ghost use Rattle.size_window.specs.LabelTurn.{IsLabelTurn, SettlesLabels};

use crate::drawing::Drawing;
use crate::ending::{Ending, Straddle};
use crate::finished_shape::Made;
use crate::turned::Turned;
use bit_tape::tape::Tape;
use bz_outside::shelf::Shelf;
use labelling::label::label;
use labelling::labelled::Labelled;

impl Drawing {
    /// Labels a shape that waited and keeps it. Where its labelling is cut short it waits on.
    #[tactic(auto, using(crate::proofs::LabelTurns::nothing_labelled))]
    #[inline(never)]
    pub(crate) fn label<S: Shelf>(
        &mut self,
        mut made: Made,
        tape: &mut Tape,
        shelf: &mut S,
    ) -> Turned
        requires none_waits { self.old.waiting ≡ None }
        requires size { size_of made.shape.items ≤ 1000000 }
        requires kept { self.old.kept < 100000 }
        requires turns { self.old.turns < 50000000 }
        requires atoms { self.old.atoms ≤ self.old.kept * 1000000 }
        requires tape { BelongsToShelf (S.content shelf.old) tape.old }

        ensures no_memory { result ≡ Turned.OutOfMemory
            → (tape.new ≡ tape.old) × (shelf.new ≡ shelf.old) }
        ensures labelled { IsLabelTurn (bits_of_source tape.old.source (S.content shelf.old))
            (shape_of made) self.old tape.old.used result self.new tape.new.used }

        ensures used { (tape.old.used ≤ tape.new.used)
            × (tape.new.used ≤ tape.old.used + 60 * size_of made.shape.items) }
        ensures tape { LeavesTape S.content S.faults (is_turn_fault result None)
            shelf.old shelf.new tape.old tape.new }
    {
        let atoms = made.shape.size();
        let answer = match made.cells.reserve(atoms as usize) {
            Ok(()) => label(self.alloc, atoms, tape, shelf),
            Err(_) => Labelled::OutOfMemory,
        };
        self.settle_labels(made, answer, tape.used())
    }

    /// Does what a labelling left to do, so many tape bits being used.
    fn settle_labels(&mut self, mut made: Made, answer: Labelled, used: u64) -> Turned
        requires none_waits { self.old.waiting ≡ None }
        requires size { size_of made.shape.items ≤ 1000000 }
        requires kept { self.old.kept < 100000 }
        requires turns { self.old.turns < 50000000 }
        requires atoms { self.old.atoms ≤ self.old.kept * 1000000 }
        requires room { OnLabels answer (λ labels cells. length cells ≤ made.cells.spare) }
        ensures { SettlesLabels answer (shape_of made) used self.old result self.new }
    {
        match answer {
            Labelled::Labels { labels, cells } => {
                made.cells.append(&cells);
                self.counts.turns += 1;
                Turned::Kept(self.keep(made, Some(labels), used))
            }
            Labelled::Straddles { m, cell } => {
                self.cut_short(made, Ending::Undecided(Straddle::Label { m, cell }))
            }
            Labelled::Ended => self.cut_short(made, Ending::TapeEnded),
            Labelled::ReadFault => self.cut_short(made, Ending::ReadFault),
            Labelled::OutOfMemory => {
                self.waiting = Some(made);
                Turned::OutOfMemory
            }
        }
    }

    /// Ends the drawing while a shape waits for its labels, in a turn that is counted.
    fn cut_short(&mut self, made: Made, ending: Ending) -> Turned
        requires turns { self.old.turns < 50000000 }
        ensures ended { self.new ≡ ended_by (counted (waiting_with self.old
            (shape_of made))) ending }
        ensures told { result ≡ Turned.Finished ending }
    {
        self.waiting = Some(made);
        self.go_on();
        self.end(ending)
    }
}

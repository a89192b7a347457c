//! Many turns in a row, as long as each only visits a node by bits that the tape has read ahead.
ghost use Rattle.std.specs.Prelude.{◌≡◌, ◌+◌, ◌≤◌, ℕ, List, Option};
ghost use Rattle.bz_model.specs.Fraction.{IsFractionBits};
ghost use Rattle.bit_tape.specs.Tape.{BelongsToShelf, bits_of_source};
ghost use Rattle.size_window.specs.Ahead.{Goes, MayGoAhead, gone_on};
ghost use Rattle.size_window.specs.Drawing.{DrawingBelongs};

use crate::drawing::Drawing;
use bit_tape::tape::Tape;
use bz_model::oracle::Oracle;
use well_founded::examination::Founded;

impl Drawing {
    /// Makes turns as `turn` does, as long as each visits a node and goes on, its bits are read
    /// ahead, and their level is raised. Answers how many.
    ///
    /// Each is counted, and no more are made than the limit of turns leaves. None keeps an object,
    /// throws an attempt away or begins one, and none ends the drawing: what is left is for `turn`,
    /// also where memory is wanting. The shelf is never asked, and no level is raised. A drawing
    /// that ended, that kept as many objects as wanted, or whose shape waits for its labels answers
    /// 0.
    pub fn turn_ahead<const F: u32, O: Oracle<F>>(
        &mut self,
        founded: &Founded,
        oracle: &O,
        tape: &mut Tape,
    ) -> u64
        requires fraction_bits { IsFractionBits F }
        requires spec { O.spec oracle.now ≡ founded.now }
        requires drawing { DrawingBelongs founded.now (O.x oracle.now) self.old }
        ensures goes { (contents : List ℕ → Option (List ℕ)) → BelongsToShelf contents tape.old
            → Goes founded.now (O.x oracle.now) F (O.table oracle.now)
            (bits_of_source tape.old.source contents) (O.raised oracle.now)
            result self.old tape.old.used self.new tape.new.used }
        ensures drawing { DrawingBelongs founded.now (O.x oracle.now) self.new }
        ensures turns { self.new.turns ≡ self.old.turns + result }
        ensures rest { self.new ≡ gone_on self.old self.new.session result }
        ensures source { tape.new.source ≡ tape.old.source }
        ensures used { tape.old.used ≤ tape.new.used }
        ensures belongs { (contents : List ℕ → Option (List ℕ)) → BelongsToShelf contents tape.old
            → BelongsToShelf contents tape.new }
    {
        let most = self.most_ahead();
        let made = self.session.visit_ahead(founded, oracle, tape, most);
        self.counts.turns += made;
        made
    }

    /// The most turns that may be made ahead: as many as the limit leaves where the drawing goes on
    /// and no shape waits for its labels, and else none.
    #[inline(always)]
    fn most_ahead(&self) -> u64
        requires { self.now.turns ≤ self.now.limits.turns }
        ensures { MayGoAhead self.now result }
    {
        if self.ending.is_some() {
            return 0;
        }
        if self.waiting.is_some() {
            return 0;
        }
        if self.counts.kept == self.limits.count {
            return 0;
        }
        self.limits.turns - self.counts.turns
    }
}

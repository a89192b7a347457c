//! Drawings: objects within a window of sizes, one turn at a time.
ghost use Rattle.std.specs.Prelude.{◌≡◌, ◌≢◌, ◌+◌, ◌-◌, ◌*◌, ◌<◌, ◌≤◌, ◌↔◌, ◌∷◌, ◌++◌, max, []};
ghost use Rattle.std.specs.Prelude.{length, Option, Some, None, IfSome, IfNone, IsSome, IfOk, OnOk};
ghost use Rattle.std.specs.Prelude.{OnErr};
ghost use Rattle.bz_model.specs.Fraction.{Fraction, IsFractionBits};
ghost use Rattle.bz_model.specs.Oracle.{LeavesOracle};
ghost use Rattle.bit_tape.specs.Tape.{BelongsToShelf, LeavesTape, bits_of_source};
ghost use Rattle.class_system.specs.Views.{spec_mode};
ghost use Rattle.choice_draw.specs.Decision.{level_for};
ghost use Rattle.labelling.specs.LabelsByBits.{bits_in};
ghost use Rattle.object_store.specs.Tokens.{size_of};
ghost use Rattle.size_window.specs.RunByBits.{start};
ghost use Rattle.size_window.specs.Drawing.{limits_of, state_of, shape_of, AreLimits};
ghost use Rattle.size_window.specs.Drawing.{DrawingBelongs, counted, thrown_one, none_waiting};
ghost use Rattle.size_window.specs.Drawing.{waiting_with, kept_one_more, ended_by, begun_one};
ghost use Rattle.size_window.specs.Turn.{IsTurn, is_turn_fault, turns_by, IsCountedTurn, IfKept};
ghost use Rattle.size_window.specs.Turn.{IsNextKept};
ghost use Rattle.size_window.specs.Turn.{EntryHasLabels, node_bits, most_bits, TellsOpen};
ghost use Rattle.size_window.specs.Turn.{outcome_of};
ghost use Rattle.size_window.specs.Turn.{IsIdleTurn, IfStraddles, Settles, KeepsOrWaits, MaySettle};

use crate::ending::{Ending, Straddle};
use crate::finished_shape::{Made, place_before};
use crate::limits::{Counts, Limits};
use crate::turned::{Entry, Outcome, Turned};
use bit_tape::tape::Tape;
use bz_model::cell::Bounds;
use bz_model::oracle::Oracle;
use bz_model::steps::Steps;
use bz_outside::shelf::Shelf;
use class_system::draft::Mode;
use labelling::labels::Labels;
use shape_sampler::session::Session;
use shape_sampler::stepped::Stepped;
use std::alloc::{AllocError, Global};
use std::marker::Model;
use std::mem::replace;
use std::sync::ledger::Ledger;
use well_founded::examination::Founded;

/// Attempts within a window, what became of them, and why they ended.
#[derive(Drop)]
pub struct Drawing {
    pub(crate) alloc: Global,
    pub(crate) session: Session,
    pub(crate) waiting: Option<Made>,
    pub(crate) limits: Limits,
    pub(crate) counts: Counts,
    pub(crate) ending: Option<Ending>,
}

impl Model for Drawing {
    ghost use Rattle.std.specs.Prelude.{option_map};
    ghost use Rattle.size_window.specs.Drawing.{DrawingState, limits_of, shape_of};

    ghost Value = { DrawingState };

    ghost view = { λ d. record {
      session = d.session;
      waiting = option_map shape_of d.waiting;
      limits = limits_of d.limits;
      kept = d.counts.kept;
      thrown = d.counts.thrown;
      turns = d.counts.turns;
      atoms = d.counts.atoms;
      ending = d.ending;
    } };
}

impl Drawing {
    /// A drawing before its first turn.
    pub fn new(alloc: Global, founded: &Founded, limits: Limits) -> Result<Drawing, AllocError>
        requires limits { AreLimits (limits_of limits) }
        ensures start { IfOk result (λ d. state_of d 0 ≡ start) }
        ensures limits { IfOk result (λ d. d.limits ≡ limits_of limits) }
        ensures atoms { IfOk result (λ d. d.atoms ≡ 0) }
        ensures belongs { IfOk result (λ d. (x : Fraction) → DrawingBelongs founded.now x d) }
    {
        let session = Session::new(alloc, founded, limits.max)?;
        let counts = Counts {
            kept: 0,
            thrown: 0,
            turns: 0,
            atoms: 0,
        };
        Ok(Drawing {
            alloc,
            session,
            waiting: None,
            limits,
            counts,
            ending: None,
        })
    }

    /// What was counted so far. Takes no memory.
    pub fn counts(&self) -> Counts
        ensures kept { result.kept ≡ self.now.kept }
        ensures thrown { result.thrown ≡ self.now.thrown }
        ensures turns { result.turns ≡ self.now.turns }
        ensures atoms { result.atoms ≡ self.now.atoms }
    {
        self.counts
    }

    /// Why the drawing ended; `None` while it goes on. Takes no memory.
    pub fn ending(&self) -> Option<Ending>
        ensures { result ≡ self.now.ending }
    {
        self.ending
    }

    /// Makes one turn.
    ///
    /// A drawing that ended answers its ending again, and nothing changes. Else it ends with `Done`
    /// exactly where as many objects as wanted are kept, and else with `TurnLimit` exactly where as
    /// many turns as the limit were counted; both cost no turn. Else a turn is counted: a made
    /// shape that waits gets its labels and is kept; else an attempt begins, or one node of the
    /// attempt under way is visited. A made shape of at least the least size is kept in unlabelled
    /// mode and waits for its labels in labelled mode; a smaller one, and an attempt over the
    /// greatest size, is thrown away. The bits of thrown attempts stay used. A cell that straddles,
    /// the tape's end and a failed read end the drawing. The answer is fixed by the bits that were
    /// given and the oracle's table, whether the shelf tells its content or not. A failed read is
    /// answered exactly where the count of faults of the tape's name rose, by one. The memory of a
    /// turn is taken before its first bit; `OutOfMemory` leaves drawing, tape, oracle and shelf as
    /// they were, and counts no turn.
    pub fn turn<const F: u32, O: Oracle<F>, S: Shelf, L: Ledger>(
        &mut self,
        founded: &Founded,
        oracle: &mut O,
        tape: &mut Tape,
        shelf: &mut S,
        steps: &mut Steps<L>,
    ) -> Turned
        requires fraction_bits { IsFractionBits F }
        requires spec { O.spec oracle.old ≡ founded.now }
        requires drawing { DrawingBelongs founded.now (O.x oracle.old) self.old }
        requires tape { BelongsToShelf (S.content shelf.old) tape.old }

        ensures no_memory { result ≡ Turned.OutOfMemory → (self.new ≡ self.old)
            × (tape.new ≡ tape.old) × (oracle.new ≡ oracle.old) × (shelf.new ≡ shelf.old) }
        ensures again { IfSome self.old.ending
            (λ ending. (result ≡ Turned.Finished ending) × (self.new ≡ self.old)) }
        ensures ended { IsSome self.old.ending
            → (tape.new ≡ tape.old) × (oracle.new ≡ oracle.old) × (shelf.new ≡ shelf.old) }
        ensures uncounted { turns_by self.old.ending result ≡ 0
            → (tape.new ≡ tape.old) × (oracle.new ≡ oracle.old) × (shelf.new ≡ shelf.old) }
        ensures turned { result ≢ Turned.OutOfMemory
            → IsTurn founded.now (O.x oracle.old) F (O.table oracle.old)
            (bits_of_source tape.old.source (S.content shelf.old))
            self.old tape.old.used result self.new tape.new.used }
        ensures counted { IsCountedTurn self.old result self.new }
        ensures done { self.old.ending ≡ None → ((result ≡ Turned.Finished Ending.Done)
            ↔ (self.old.kept ≡ self.old.limits.count)) }
        ensures turn_limit { self.old.ending ≡ None → ((result ≡ Turned.Finished Ending.TurnLimit)
            ↔ ((self.old.kept ≢ self.old.limits.count)
            × (self.old.turns ≡ self.old.limits.turns))) }
        ensures kept { IfKept result (IsNextKept self.old.limits self.old.kept tape.new.used) }
        ensures labels { IfKept result (EntryHasLabels founded.now.mode) }
        ensures undecided { self.old.ending ≡ None → TellsOpen (O.table oracle.old) result }
        ensures drawing { DrawingBelongs founded.now (O.x oracle.old) self.new }

        ensures raised { O.raised oracle.new ≡ max (O.raised oracle.old)
            (level_for (node_bits self.old.waiting (tape.new.used - tape.old.used))) }
        ensures node_bits { node_bits self.old.waiting (tape.new.used - tape.old.used) ≤ 60 }
        ensures used { (tape.old.used ≤ tape.new.used)
            × (tape.new.used ≤ tape.old.used + most_bits self.old.waiting) }
        ensures oracle { LeavesOracle O.spec O.x O.table O.cost O.raised
            oracle.old oracle.new steps.old steps.new }
        ensures tape { LeavesTape S.content S.faults (is_turn_fault result self.old.ending)
            shelf.old shelf.new tape.old tape.new }
    {
        if let Some(turned) = self.idle_turn() {
            return turned;
        }
        if let Some(made) = self.take_waiting() {
            return self.label(made, tape, shelf);
        }
        let answer = self.session.step(founded, oracle, tape, shelf, steps);
        if let Stepped::Moved = answer {
            return self.go_on();
        }
        let outcome = outcome_by(answer, oracle);
        self.settle(founded.system().mode(), outcome, tape.used())
    }

    /// Takes back a kept object, so that later attempts need no new memory for their tokens and
    /// cells. Takes no memory.
    pub fn take_back(&mut self, entry: Entry)
        ensures { self.new ≡ self.old }
    {
        let Entry { shape, cells, .. } = entry;
        self.session.take_back(shape, cells);
    }

    /// A turn that needs no bit; `None` where a shape is to be labelled or a node to be visited.
    #[inline(always)]
    fn idle_turn(&mut self) -> Option<Turned>
        requires { self.old.turns ≤ 50000000 }
        ensures { IsIdleTurn self.old result self.new }
    {
        if let Some(ending) = self.ending {
            return Some(Turned::Finished(ending));
        }
        if self.counts.kept == self.limits.count {
            return Some(self.end(Ending::Done));
        }
        if self.counts.turns == self.limits.turns {
            return Some(self.end(Ending::TurnLimit));
        }
        if self.waiting.is_some() {
            return None;
        }
        if self.session.pending() {
            return None;
        }
        match self.begin() {
            Ok(()) => Some(Turned::Going),
            Err(_) => Some(Turned::OutOfMemory),
        }
    }

    /// Ends the drawing.
    #[inline(always)]
    pub(crate) fn end(&mut self, ending: Ending) -> Turned
        ensures ended { self.new ≡ ended_by self.old ending }
        ensures told { result ≡ Turned.Finished ending }
    {
        self.ending = Some(ending);
        Turned::Finished(ending)
    }

    /// Begins an attempt, in a turn that is counted.
    #[inline(always)]
    fn begin(&mut self) -> Result<(), AllocError>
        requires { self.old.turns ≤ 50000000 }
        ensures ok { OnOk result (self.new ≡ begun_one self.old) }
        ensures err { OnErr result (self.new ≡ self.old) }
    {
        self.session.begin()?;
        self.counts.turns += 1;
        Ok(())
    }

    /// Takes out the shape that waits for its labels, if one does.
    #[inline(always)]
    fn take_waiting(&mut self) -> Option<Made>
        ensures taken { IfSome result (λ made. (self.old.waiting ≡ Some (shape_of made))
            × (self.new ≡ none_waiting self.old)) }
        ensures nothing { IfNone result ((self.old.waiting ≡ None) × (self.new ≡ self.old)) }
    {
        match &self.waiting {
            Some(_) => replace(&mut self.waiting, None),
            None => None,
        }
    }

    /// Does what a visit left to do, so many tape bits being used.
    #[inline(always)]
    fn settle(&mut self, mode: Mode, outcome: Outcome, used: u64) -> Turned
        requires { MaySettle outcome self.old }
        ensures { Settles (spec_mode mode) outcome used self.old result self.new }
    {
        match outcome {
            Outcome::Moved => self.go_on(),
            Outcome::Made => self.make(mode, used),
            Outcome::Over => self.throw_away(),
            Outcome::Stopped(ending) => {
                self.go_on();
                self.end(ending)
            }
            Outcome::OutOfMemory => Turned::OutOfMemory,
        }
    }

    /// Counts a turn.
    #[inline(always)]
    pub(crate) fn go_on(&mut self) -> Turned
        requires { self.old.turns < 50000000 }
        ensures turns { self.new ≡ counted self.old }
        ensures told { result ≡ Turned.Going }
    {
        self.counts.turns += 1;
        Turned::Going
    }

    /// Throws the attempt away, in a turn that is counted.
    #[inline(always)]
    fn throw_away(&mut self) -> Turned
        requires turns { self.old.turns < 50000000 }
        requires thrown { self.old.thrown < 50000000 }
        ensures thrown { self.new ≡ thrown_one (counted self.old) }
        ensures told { result ≡ Turned.Going }
    {
        self.counts.turns += 1;
        self.counts.thrown += 1;
        Turned::Going
    }

    /// Throws a made shape away where it is below the least size. Else it is kept in unlabelled
    /// mode, and waits for its labels in labelled mode.
    #[inline(always)]
    fn make(&mut self, mode: Mode, used: u64) -> Turned
        requires { MaySettle Outcome.Made self.old }
        ensures { Settles (spec_mode mode) Outcome.Made used self.old result self.new }
    {
        if self.session.shape().size() < self.limits.min {
            return self.throw_away();
        }
        let (shape, cells) = self.session.take_made();
        self.keep_or_wait(mode, Made { shape, cells }, used)
    }

    /// Keeps a made shape in unlabelled mode; in labelled mode it waits for its labels.
    #[inline(always)]
    fn keep_or_wait(&mut self, mode: Mode, made: Made, used: u64) -> Turned
        requires none_waits { self.old.waiting ≡ None }
        requires size { size_of made.shape.items ≤ 1000000 }
        requires kept { self.old.kept < 100000 }
        requires turns { self.old.turns < 50000000 }
        requires atoms { self.old.atoms ≤ self.old.kept * 1000000 }
        ensures { KeepsOrWaits (spec_mode mode) (shape_of made) used (counted self.old) result
            self.new }
    {
        self.go_on();
        match mode {
            Mode::Unlabelled => Turned::Kept(self.keep(made, None, used)),
            Mode::Labelled => self.wait(made),
        }
    }

    /// Lets a made shape wait for its labels.
    #[inline(always)]
    fn wait(&mut self, made: Made) -> Turned
        ensures waits { self.new ≡ waiting_with self.old (shape_of made) }
        ensures told { result ≡ Turned.Going }
    {
        self.waiting = Some(made);
        Turned::Going
    }

    /// Keeps a made shape with these labels, so many tape bits being used.
    #[inline(always)]
    pub(crate) fn keep(&mut self, made: Made, labels: Option<Labels>, used: u64) -> Entry
        requires size { size_of made.shape.items ≤ 1000000 }
        requires kept { self.old.kept < 100000 }
        requires atoms { self.old.atoms ≤ self.old.kept * 1000000 }
        ensures number { result.number ≡ self.old.kept + 1 }
        ensures place { result.place ≡ used - bits_in made.cells.items }
        ensures shape { result.shape.items ≡ made.shape.items }
        ensures labels { result.labels ≡ labels }
        ensures cells { result.cells.items ≡ made.cells.items }
        ensures kept { self.new ≡ kept_one_more self.old (size_of made.shape.items) }
    {
        let Made { shape, cells } = made;
        self.counts.kept += 1;
        self.counts.atoms += shape.size();
        Entry {
            number: self.counts.kept,
            place: place_before(used, cells.items()),
            shape,
            labels,
            cells,
        }
    }
}

/// What a visit's answer leaves to do. Of a cell that straddles it tells the bounds of level 6.
#[inline(always)]
fn outcome_by<const F: u32, O: Oracle<F>>(answer: Stepped, oracle: &O) -> Outcome
    requires raised { IfStraddles answer
        (λ node. (6 ≤ O.raised oracle.now) × (node.0 < length (O.spec oracle.now).nodes)) }
    ensures { result ≡ outcome_of (O.table oracle.now) answer }
{
    match answer {
        Stepped::Moved => Outcome::Moved,
        Stepped::Made => Outcome::Made,
        Stepped::Overshot => Outcome::Over,
        Stepped::Straddles { node, cell } => {
            let Some(Bounds { lo, hi }) = oracle.bounds(node.0, 6) else {
                unreachable!()
            };
            Outcome::Stopped(Ending::Undecided(Straddle::Node { node, cell, lo, hi }))
        }
        Stepped::Ended => Outcome::Stopped(Ending::TapeEnded),
        Stepped::ReadFault => Outcome::Stopped(Ending::ReadFault),
        Stepped::OutOfMemory => Outcome::OutOfMemory,
    }
}

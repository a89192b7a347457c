//! Sessions: attempts, made one visit at a time.
ghost use Rattle.std.specs.Prelude.{◌≡◌, ◌≢◌, ◌+◌, ◌-◌, ◌<◌, ◌≤◌, ◌↔◌, max, [], ◌∷◌, map, length};
ghost use Rattle.std.specs.Prelude.{slice_get, Some, None, IfSome, IsSome, IfOk, OnOk, OnErr};
ghost use Rattle.std.specs.Prelude.{IsTrue};
ghost use Rattle.bz_model.specs.Fraction.{Fraction, IsFractionBits};
ghost use Rattle.bz_model.specs.Spec.{Spec, Node, node_at, body_of};
ghost use Rattle.bz_model.specs.Oracle.{LeavesOracle};
ghost use Rattle.class_system.specs.Views.{number};
ghost use Rattle.bit_tape.specs.Tape.{BelongsToShelf, LeavesTape, bits_of_source};
ghost use Rattle.choice_draw.specs.Decision.{IsUnion, level_for};
ghost use Rattle.count_draw.specs.Kinds.{IsCountedNode};
ghost use Rattle.shape_sampler.specs.State.{SessionState, SessionBelongs, HasCountedPart};
ghost use Rattle.shape_sampler.specs.State.{begun_state, emptied, Leaves};
ghost use Rattle.shape_sampler.specs.Answer.{IsVisitByBits, IsIdealAnswer, Draws, is_visit_fault};

use crate::counted::{answer_to_count, counted_part, put_counted, room_for};
use crate::placing::{answer_to, put_drawn, reserve_drawn, stop_of};
use crate::stepped::Stepped;
use crate::tables::DrawTables;
use bit_tape::tape::Tape;
use bz_model::cell::Cell;
use bz_model::cells::Cells;
use bz_model::oracle::Oracle;
use bz_model::steps::Steps;
use bz_outside::shelf::Shelf;
use choice_draw::drawn::Drawn;
use choice_draw::kept::draw_union_kept;
use class_system::expr::Expr;
use class_system::ids::{ClassId, ExprId};
use class_system::system::System;
use count_draw::count::draw_count_kept;
use object_store::pending::Pending;
use object_store::shape::Shape;
use std::alloc::{AllocError, Global};
use std::marker::Model;
use std::mem::replace;
use std::sync::ledger::Ledger;
use well_founded::examination::Founded;

/// An attempt at an object of class 0 within a room, and what stopped it.
#[derive(Drop)]
pub struct Session {
    pub(crate) alloc: Global,
    root: ExprId,
    whole: u64,
    pub(crate) pending: Pending,
    pub(crate) shape: Shape,
    pub(crate) cells: Cells,
    pub(crate) room: u64,
    pub(crate) stopped: Option<Stepped>,
    pub(crate) tables: DrawTables,
}

impl Model for Session {
    ghost use Rattle.std.specs.Prelude.{◌≤◌};
    ghost use Rattle.shape_sampler.specs.State.{SessionState, StopsSession};

    ghost Value = { SessionState };

    ghost view = { λ s. record {
      root = s.root.0;
      whole = s.whole;
      pending = s.pending.items;
      tokens =
          s.shape.items;
      cells = s.cells.items;
      room = s.room;
      stopped = s.stopped;
    } };

    ghost invariant = { λ s. StopsSession s.stopped × (s.whole ≤ 1000000) × (s.room ≤ 1000000) };
}

impl Session {
    /// A session before its first attempt. Takes the memory of the values that its draws keep, and
    /// no other yet.
    pub fn new(alloc: Global, founded: &Founded, room: u64) -> Result<Session, AllocError>
        requires room { room ≤ 1000000 }
        ensures root { IfOk result (λ s. body_of founded.now 0 ≡ Some s.root) }
        ensures whole { IfOk result (λ s. s.whole ≡ room) }
        ensures idle { IfOk result (λ s. (s.pending ≡ []) × (s.tokens ≡ []) × (s.cells ≡ [])
            × (s.stopped ≡ None)) }
        ensures belongs { IfOk result (λ s. (x : Fraction) → SessionBelongs founded.now x s) }
    {
        let system = founded.system();
        system.known();
        Ok(Session {
            alloc,
            root: system.body(ClassId(0)),
            whole: room,
            pending: Pending::new(alloc),
            shape: Shape::new(alloc),
            cells: Cells::new(alloc),
            room,
            stopped: None,
            tables: DrawTables::make(alloc, system)?,
        })
    }

    /// Starts an attempt: the body of class 0 is pending, tokens and cells are empty, the room is
    /// whole, and nothing stopped it. A refusal leaves the session as it was.
    #[inline(always)]
    pub fn begin(&mut self) -> Result<(), AllocError>
        ensures ok { OnOk result (self.new ≡ begun_state self.old) }
        ensures err { OnErr result (self.new ≡ self.old) }
        ensures belongs { (s : Spec) (x : Fraction) → SessionBelongs s x self.old
            → SessionBelongs s x self.new }
    {
        self.pending.reserve(1)?;
        self.pending.clear();
        self.pending.push(self.root, 1)?;
        self.shape.clear();
        self.cells.clear();
        self.room = self.whole;
        self.stopped = None;
        Ok(())
    }

    /// The tokens so far. Takes no memory.
    #[inline(always)]
    pub fn shape(&self) -> &Shape
        ensures { result.now.items ≡ self.now.tokens }
    {
        &self.shape
    }

    /// The cells so far, in the order drawn. Takes no memory.
    pub fn cells(&self) -> &[Cell]
        ensures { result.now ≡ self.now.cells }
    {
        self.cells.items()
    }

    /// Whether nodes are pending. Takes no memory.
    #[inline(always)]
    pub fn pending(&self) -> bool
        ensures { IsTrue result ↔ (self.now.pending ≢ []) }
    {
        !self.pending.is_empty()
    }

    /// Moves the tokens and the cells out, where nothing is pending, and leaves both empty. Takes
    /// no memory.
    #[inline(always)]
    pub fn take_made(&mut self) -> (Shape, Cells)
        requires made { self.old.pending ≡ [] }
        ensures shape { result.0.items ≡ self.old.tokens }
        ensures cells { result.1.items ≡ self.old.cells }
        ensures left { self.new ≡ emptied self.old }
        ensures belongs { (s : Spec) (x : Fraction) → SessionBelongs s x self.old
            → SessionBelongs s x self.new }
    {
        let shape = replace(&mut self.shape, Shape::new(self.alloc));
        let cells = replace(&mut self.cells, Cells::new(self.alloc));
        (shape, cells)
    }

    /// Takes back lists that were moved out, so that later attempts need no new memory for theirs.
    /// Takes no memory.
    ///
    /// Their items are forgotten. Each takes the place of the session's own list exactly where that
    /// is empty.
    pub fn take_back(&mut self, mut shape: Shape, mut cells: Cells)
        ensures { self.new ≡ self.old }
    {
        if self.shape.tokens().is_empty() {
            shape.clear();
            self.shape = shape;
        }
        if self.cells.items().is_empty() {
            cells.clear();
            self.cells = cells;
        }
    }

    /// Visits the first pending node, by its kind.
    ///
    /// A neutral leaf adds `Unit`; an atom adds `Dot` and lowers the room, and is `Overshot` at
    /// room 0; a class puts its body in its place and a product its parts; a union draws its
    /// option, adds `Pick` and puts that part in its place. A sequence, set or cycle draws its
    /// number of parts, up to the room left, or to 64 where its part has an object of size 0, adds
    /// `Count` and puts its part in its place so often; it is `Overshot` where every number up to
    /// the room is passed over. The answer is fixed by the bits that were given and the oracle's
    /// table, whether the shelf tells its content or not. `ReadFault` comes exactly where the count
    /// of faults of the tape's name rose, by one. The memory of a visit is taken before its first
    /// bit. After `Straddles`, `Ended` or `ReadFault` the session answers the same until `begin`,
    /// and touches nothing.
    pub fn step<const F: u32, O: Oracle<F>, S: Shelf, L: Ledger>(
        &mut self,
        founded: &Founded,
        oracle: &mut O,
        tape: &mut Tape,
        shelf: &mut S,
        steps: &mut Steps<L>,
    ) -> Stepped
        requires fraction_bits { IsFractionBits F }
        requires spec { O.spec oracle.old ≡ founded.now }
        requires session { SessionBelongs founded.now (O.x oracle.old) self.old }
        requires pending { self.old.pending ≢ [] }
        requires tape { BelongsToShelf (S.content shelf.old) tape.old }

        ensures again { IfSome self.old.stopped (λ stop. (result ≡ stop) × (self.new ≡ self.old)) }
        ensures stopped { IsSome self.old.stopped
            → (tape.new ≡ tape.old) × (oracle.new ≡ oracle.old) × (shelf.new ≡ shelf.old) }
        ensures no_memory { result ≡ Stepped.OutOfMemory → (self.new ≡ self.old)
            × (tape.new ≡ tape.old) × (oracle.new ≡ oracle.old) × (shelf.new ≡ shelf.old) }
        ensures leaves { self.old.stopped ≡ None → Leaves result self.old self.new }
        ensures draws { self.old.stopped ≡ None
            → Draws result self.old self.new tape.old.used tape.new.used }
        ensures exact { self.old.stopped ≡ None
            → IsVisitByBits founded.now F (O.table oracle.old)
            (bits_of_source tape.old.source (S.content shelf.old))
            self.old tape.old.used result self.new tape.new.used }
        ensures ideal { IsIdealAnswer founded.now (O.x oracle.old) result self.new }
        ensures session { SessionBelongs founded.now (O.x oracle.old) self.new }

        ensures raised { O.raised oracle.new
            ≡ max (O.raised oracle.old) (level_for (tape.new.used - tape.old.used)) }
        ensures used { (tape.old.used ≤ tape.new.used) × (tape.new.used ≤ tape.old.used + 60) }
        ensures oracle { LeavesOracle O.spec O.x O.table O.cost O.raised
            oracle.old oracle.new steps.old steps.new }
        ensures tape { LeavesTape S.content S.faults (is_visit_fault result self.old.stopped)
            shelf.old shelf.new tape.old tape.new }
    {
        if let Some(stop) = self.stopped {
            return stop;
        }
        let system = founded.system();
        system.known();
        let Some(e) = self.pending.first() else {
            unreachable!()
        };
        if let Some(part) = counted_part(system, e) {
            return self.visit_counted(founded, e, part, oracle, tape, shelf, steps);
        }
        if let Expr::Union(parts) = system.node(e) {
            return self.visit_union(system, e, parts.items(), oracle, tape, shelf, steps);
        }
        self.visit_plain(system, e)
    }

    /// A union draws its option and puts that part in its place.
    fn visit_union<const F: u32, O: Oracle<F>, S: Shelf, L: Ledger>(
        &mut self,
        system: &System,
        node: ExprId,
        parts: &[ExprId],
        oracle: &mut O,
        tape: &mut Tape,
        shelf: &mut S,
        steps: &mut Steps<L>,
    ) -> Stepped
        requires fraction_bits { IsFractionBits F }
        requires spec { O.spec oracle.old ≡ system.now }
        requires union { node_at system.now node.0 ≡ Some (Node.Union (map number parts.now)) }
        requires few { length parts.now ≤ 64 }
        requires running { self.old.stopped ≡ None }
        requires first { slice_get self.old.pending 0 ≡ Some node.0 }
        requires tape { BelongsToShelf (S.content shelf.old) tape.old }

        ensures no_memory { result ≡ Stepped.OutOfMemory → (self.new ≡ self.old)
            × (tape.new ≡ tape.old) × (oracle.new ≡ oracle.old) × (shelf.new ≡ shelf.old) }
        ensures leaves { Leaves result self.old self.new }
        ensures draws { Draws result self.old self.new tape.old.used tape.new.used }
        ensures exact { IsVisitByBits system.now F (O.table oracle.old)
            (bits_of_source tape.old.source (S.content shelf.old))
            self.old tape.old.used result self.new tape.new.used }
        ensures session { SessionBelongs system.now (O.x oracle.old) self.old
            → SessionBelongs system.now (O.x oracle.old) self.new
            × IsIdealAnswer system.now (O.x oracle.old) result self.new }

        ensures raised { O.raised oracle.new
            ≡ max (O.raised oracle.old) (level_for (tape.new.used - tape.old.used)) }
        ensures used { (tape.old.used ≤ tape.new.used) × (tape.new.used ≤ tape.old.used + 60) }
        ensures oracle { LeavesOracle O.spec O.x O.table O.cost O.raised
            oracle.old oracle.new steps.old steps.new }
        ensures tape { LeavesTape S.content S.faults (is_visit_fault result self.old.stopped)
            shelf.old shelf.new tape.old tape.new }
    {
        if reserve_drawn(&mut self.pending, &mut self.shape, &mut self.cells).is_err() {
            return Stepped::OutOfMemory;
        }
        system.known();
        let unions = &mut self.tables.unions;
        let drawn = draw_union_kept(system, node, unions, oracle, tape, shelf, steps);
        put_drawn(
            &mut self.pending,
            &mut self.shape,
            &mut self.cells,
            parts,
            drawn,
        );
        let answer = answer_to(node, drawn);
        self.stopped = stop_of(answer);
        answer
    }

    /// A sequence, set or cycle draws its number of parts and puts its part in its place so often.
    #[inline(never)]
    fn visit_counted<const F: u32, O: Oracle<F>, S: Shelf, L: Ledger>(
        &mut self,
        founded: &Founded,
        node: ExprId,
        part: ExprId,
        oracle: &mut O,
        tape: &mut Tape,
        shelf: &mut S,
        steps: &mut Steps<L>,
    ) -> Stepped
        requires fraction_bits { IsFractionBits F }
        requires spec { O.spec oracle.old ≡ founded.now }
        requires counted { HasCountedPart founded.now node.0 part.0 }
        requires running { self.old.stopped ≡ None }
        requires first { slice_get self.old.pending 0 ≡ Some node.0 }
        requires tape { BelongsToShelf (S.content shelf.old) tape.old }

        ensures no_memory { result ≡ Stepped.OutOfMemory → (self.new ≡ self.old)
            × (tape.new ≡ tape.old) × (oracle.new ≡ oracle.old) × (shelf.new ≡ shelf.old) }
        ensures leaves { Leaves result self.old self.new }
        ensures draws { Draws result self.old self.new tape.old.used tape.new.used }
        ensures exact { IsVisitByBits founded.now F (O.table oracle.old)
            (bits_of_source tape.old.source (S.content shelf.old))
            self.old tape.old.used result self.new tape.new.used }
        ensures session { SessionBelongs founded.now (O.x oracle.old) self.old
            → SessionBelongs founded.now (O.x oracle.old) self.new
            × IsIdealAnswer founded.now (O.x oracle.old) result self.new }

        ensures raised { O.raised oracle.new
            ≡ max (O.raised oracle.old) (level_for (tape.new.used - tape.old.used)) }
        ensures used { (tape.old.used ≤ tape.new.used) × (tape.new.used ≤ tape.old.used + 60) }
        ensures oracle { LeavesOracle O.spec O.x O.table O.cost O.raised
            oracle.old oracle.new steps.old steps.new }
        ensures tape { LeavesTape S.content S.faults (is_visit_fault result self.old.stopped)
            shelf.old shelf.new tape.old tape.new }
    {
        founded.known();
        if reserve_drawn(&mut self.pending, &mut self.shape, &mut self.cells).is_err() {
            return Stepped::OutOfMemory;
        }
        let system = founded.system();
        system.known();
        let room = room_for(founded, part, self.room);
        let drawn = draw_count_kept(
            system,
            node,
            room,
            &mut self.tables.counts,
            oracle,
            tape,
            shelf,
            steps,
        );
        put_counted(
            &mut self.pending,
            &mut self.shape,
            &mut self.cells,
            part,
            drawn,
        );
        let told = answer_to_count(node, drawn, &self.pending);
        self.stopped = stop_of(told);
        told
    }
}

//! Many visits in a row, as long as each moves on by bits that the tape has read ahead.
ghost use Rattle.std.specs.Prelude.{◌≡◌, ◌≢◌, ◌<◌, ◌≤◌, [], ◌∷◌, map, length, ℕ, List, Option, None, Some};
ghost use Rattle.std.specs.Prelude.{IsTrue, IsFalse, slice_get};
ghost use Rattle.bz_model.specs.Fraction.{IsFractionBits};
ghost use Rattle.bz_model.specs.Spec.{Node, node_at};
ghost use Rattle.bit_tape.specs.Tape.{BelongsToShelf, bits_of_source};
ghost use Rattle.class_system.specs.Views.{number};
ghost use Rattle.shape_sampler.specs.State.{HasCountedPart, SessionBelongs};
ghost use Rattle.shape_sampler.specs.Visit.{leaf_visited};
ghost use Rattle.shape_sampler.specs.Answer.{IsPlainVisit, replaced_by};
ghost use Rattle.shape_sampler.specs.Compared.{AreTablesCompared};
ghost use Rattle.shape_sampler.specs.Ahead.{AreMoves, MovesOn, TakesAtoms};

use crate::counted::{put_counted, room_for};
use crate::placing::{
    drop_first, put_dots, put_drawn, put_first, put_token, replace_first, reserve_drawn,
};
use crate::session::Session;
use crate::stepped::Stepped;
use crate::tables::{DrawMarks, DrawTables};
use bit_tape::tape::Tape;
use bz_model::oracle::Oracle;
use choice_draw::drawn::Drawn;
use choice_draw::kept::draw_ahead;
use class_system::expr::Expr;
use class_system::ids::ExprId;
use class_system::system::System;
use count_draw::count::draw_count_ahead;
use count_draw::drawn_count::CountDrawn;
use object_store::token::Token;
use std::mem::replace;
use well_founded::examination::Founded;

/// The most atoms that are moved in one go: so many tokens need room before.
const RUN: u64 = 64;

impl Session {
    /// Visits first pending nodes as `step` does, as long as each visit moves on, its bits are read
    /// ahead, and their level is raised; at most `most` visits. Answers how many.
    ///
    /// Never asks the shelf, never raises a level, and never stops the session: what is left is for
    /// `step`. A stopped session answers 0.
    pub fn visit_ahead<const F: u32, O: Oracle<F>>(
        &mut self,
        founded: &Founded,
        oracle: &O,
        tape: &mut Tape,
        most: u64,
    ) -> u64
        requires fraction_bits { IsFractionBits F }
        requires spec { O.spec oracle.now ≡ founded.now }
        requires session { SessionBelongs founded.now (O.x oracle.now) self.old }
        ensures most { result ≤ most }
        ensures moves { (contents : List ℕ → Option (List ℕ)) → BelongsToShelf contents tape.old
            → AreMoves founded.now (O.x oracle.now) F (O.table oracle.now)
            (bits_of_source tape.old.source contents) (O.raised oracle.now)
            result self.old tape.old.used self.new tape.new.used }
        ensures session { SessionBelongs founded.now (O.x oracle.now) self.new }
        ensures same { (self.new.whole ≡ self.old.whole) × (self.new.root ≡ self.old.root) }
        ensures source { tape.new.source ≡ tape.old.source }
        ensures used { tape.old.used ≤ tape.new.used }
        ensures belongs { (contents : List ℕ → Option (List ℕ)) → BelongsToShelf contents tape.old
            → BelongsToShelf contents tape.new }
    {
        if self.stopped.is_some() {
            return 0;
        }
        let tables = replace(&mut self.tables, DrawTables::none(self.alloc));
        let made = self.move_on(founded, &tables, oracle, tape, most);
        self.tables = tables;
        made
    }

    /// Visits first pending nodes one after the other, while each moves on, by these tables.
    fn move_on<const F: u32, O: Oracle<F>>(
        &mut self,
        founded: &Founded,
        tables: &DrawTables,
        oracle: &O,
        tape: &mut Tape,
        most: u64,
    ) -> u64
        requires fraction_bits { IsFractionBits F }
        requires spec { O.spec oracle.now ≡ founded.now }
        requires running { self.old.stopped ≡ None }
        requires session { SessionBelongs founded.now (O.x oracle.now) self.old }
        ensures most { result ≤ most }
        ensures moved { MovesOn founded.now (O.x oracle.now) F (O.table oracle.now)
            (O.raised oracle.now) result self.old tape.old self.new tape.new }
    {
        let system = founded.system();
        let mut marks = DrawMarks::none();
        let mut made = 0;
        'moves: while made < most {
            let left = most - made;
            let moved = self.move_first(founded, system, tables, &mut marks, oracle, tape, left);
            if moved == 0 {
                break;
            }
            made += moved;
        }
        made
    }

    /// Visits the first pending node where that moves on by bits that are read ahead, and an atom
    /// with the equal ones after it, at most `most`; else leaves all as it was. Answers how many
    /// nodes.
    #[inline(always)]
    fn move_first<const F: u32, O: Oracle<F>>(
        &mut self,
        founded: &Founded,
        system: &System,
        tables: &DrawTables,
        marks: &mut DrawMarks,
        oracle: &O,
        tape: &mut Tape,
        most: u64,
    ) -> u64
        requires fraction_bits { IsFractionBits F }
        requires spec { O.spec oracle.now ≡ system.now }
        requires compared { AreTablesCompared system.now F (O.table oracle.now)
            (O.raised oracle.now) tables.now marks.old }
        requires founded { founded.now ≡ system.now }
        requires running { self.old.stopped ≡ None }
        requires session { SessionBelongs system.now (O.x oracle.now) self.old }
        requires some { 0 < most }
        ensures most { result ≤ most }
        ensures moved { MovesOn system.now (O.x oracle.now) F (O.table oracle.now)
            (O.raised oracle.now) result self.old tape.old self.new tape.new }
        ensures compared { AreTablesCompared system.now F (O.table oracle.now)
            (O.raised oracle.now) tables.now marks.new }
    {
        system.known();
        let Some(node) = self.pending.first() else {
            return 0;
        };
        match system.node(node) {
            Expr::Empty(_) => moves_of(self.move_leaf()),
            Expr::Atom(_) => self.move_atoms(most),
            Expr::Class(c) => moves_of(self.move_class(system.body(*c))),
            Expr::Product(parts) => moves_of(self.move_product(parts.items())),
            Expr::Union(parts) => {
                let parts = parts.items();
                moves_of(self.move_union(system, node, parts, tables, marks, oracle, tape))
            }
            Expr::Seq(part) | Expr::Set(part) | Expr::Cyc(part) => {
                let part = *part;
                moves_of(self.move_counted(founded, node, part, tables, marks, oracle, tape))
            }
        }
    }

    /// A neutral leaf adds its token, where more nodes are pending.
    #[inline(always)]
    fn move_leaf(&mut self) -> bool
        requires running { self.old.stopped ≡ None }
        ensures moved { IsTrue result
            → IsPlainVisit leaf_visited self.old Stepped.Moved self.new }
        ensures left { IsFalse result → self.new ≡ self.old }
    {
        if !self.pending.has_more() || self.shape.reserve(1).is_err() {
            return false;
        }
        put_token(&mut self.shape, Token::Unit);
        drop_first(&mut self.pending);
        true
    }

    /// An atom, and equal ones after it, add their tokens and lower the room, as long as there is
    /// room and more nodes are pending; at most `most`. Answers how many.
    #[inline(always)]
    fn move_atoms(&mut self, most: u64) -> u64
        ensures most { result ≤ most }
        ensures moved { (e : ℕ) → slice_get self.old.pending 0 ≡ Some e
            → TakesAtoms e result self.old self.new }
    {
        let many = most.min(self.room).min(RUN) as u32;
        if self.shape.reserve(many as usize).is_err() {
            return 0;
        }
        let taken = self.pending.pop_equal(many);
        put_dots(&mut self.shape, taken);
        self.room -= u64::from(taken);
        u64::from(taken)
    }

    /// A class puts its body in its place.
    #[inline(always)]
    fn move_class(&mut self, body: ExprId) -> bool
        requires running { self.old.stopped ≡ None }
        requires pending { self.old.pending ≢ [] }
        ensures moved { IsTrue result
            → IsPlainVisit (replaced_by (body.0 ∷ [])) self.old Stepped.Moved self.new }
        ensures left { IsFalse result → self.new ≡ self.old }
    {
        if self.pending.reserve(1).is_err() {
            return false;
        }
        put_first(&mut self.pending, body);
        true
    }

    /// A product puts its parts in its place, in order, where it has some.
    #[inline(always)]
    fn move_product(&mut self, parts: &[ExprId]) -> bool
        requires running { self.old.stopped ≡ None }
        requires pending { self.old.pending ≢ [] }
        ensures moved { IsTrue result
            → IsPlainVisit (replaced_by (map number parts.now)) self.old Stepped.Moved self.new }
        ensures left { IsFalse result → self.new ≡ self.old }
    {
        if parts.is_empty() || self.pending.reserve(parts.len()).is_err() {
            return false;
        }
        replace_first(&mut self.pending, parts);
        true
    }

    /// A union whose option is decided by bits that are read ahead adds it, and puts that part in
    /// its place.
    #[inline(always)]
    fn move_union<const F: u32, O: Oracle<F>>(
        &mut self,
        system: &System,
        node: ExprId,
        parts: &[ExprId],
        tables: &DrawTables,
        marks: &mut DrawMarks,
        oracle: &O,
        tape: &mut Tape,
    ) -> bool
        requires fraction_bits { IsFractionBits F }
        requires spec { O.spec oracle.now ≡ system.now }
        requires compared { AreTablesCompared system.now F (O.table oracle.now)
            (O.raised oracle.now) tables.now marks.old }
        requires union { node_at system.now node.0 ≡ Some (Node.Union (map number parts.now)) }
        requires few { length parts.now ≤ 64 }
        requires running { self.old.stopped ≡ None }
        requires first { slice_get self.old.pending 0 ≡ Some node.0 }
        requires session { SessionBelongs system.now (O.x oracle.now) self.old }
        ensures moved { IsTrue result → MovesOn system.now (O.x oracle.now) F (O.table oracle.now)
            (O.raised oracle.now) 1 self.old tape.old self.new tape.new }
        ensures left { IsFalse result → (self.new ≡ self.old) × (tape.new ≡ tape.old) }
        ensures compared { AreTablesCompared system.now F (O.table oracle.now)
            (O.raised oracle.now) tables.now marks.new }
    {
        if reserve_drawn(&mut self.pending, &mut self.shape, &mut self.cells).is_err() {
            return false;
        }
        system.known();
        let unions = &tables.unions;
        let marks = &mut marks.unions;
        let Some(taken) = draw_ahead(system, node, parts, unions, marks, oracle, tape) else {
            return false;
        };
        let drawn = Drawn::Value {
            value: taken.option,
            cell: taken.cell,
        };
        put_drawn(
            &mut self.pending,
            &mut self.shape,
            &mut self.cells,
            parts,
            drawn,
        );
        true
    }

    /// A sequence, set or cycle whose number of parts is decided by bits that are read ahead adds
    /// it, and puts the part in its place so often, where more nodes are pending.
    #[inline]
    fn move_counted<const F: u32, O: Oracle<F>>(
        &mut self,
        founded: &Founded,
        node: ExprId,
        part: ExprId,
        tables: &DrawTables,
        marks: &mut DrawMarks,
        oracle: &O,
        tape: &mut Tape,
    ) -> bool
        requires fraction_bits { IsFractionBits F }
        requires spec { O.spec oracle.now ≡ founded.now }
        requires compared { AreTablesCompared founded.now F (O.table oracle.now)
            (O.raised oracle.now) tables.now marks.old }
        requires counted { HasCountedPart founded.now node.0 part.0 }
        requires running { self.old.stopped ≡ None }
        requires first { slice_get self.old.pending 0 ≡ Some node.0 }
        requires session { SessionBelongs founded.now (O.x oracle.now) self.old }
        ensures moved { IsTrue result → MovesOn founded.now (O.x oracle.now) F (O.table oracle.now)
            (O.raised oracle.now) 1 self.old tape.old self.new tape.new }
        ensures left { IsFalse result → (self.new ≡ self.old) × (tape.new ≡ tape.old) }
        ensures compared { AreTablesCompared founded.now F (O.table oracle.now)
            (O.raised oracle.now) tables.now marks.new }
    {
        if !self.pending.has_more() {
            return false;
        }
        if reserve_drawn(&mut self.pending, &mut self.shape, &mut self.cells).is_err() {
            return false;
        }
        founded.known();
        let system = founded.system();
        system.known();
        let room = room_for(founded, part, self.room);
        let counts = &tables.counts;
        let marks = &mut marks.counts;
        let taken = draw_count_ahead(system, node, room, counts, marks, oracle, tape);
        let Some(taken) = taken else {
            return false;
        };
        let drawn = CountDrawn::Count {
            value: taken.count,
            cell: taken.cell,
        };
        put_counted(
            &mut self.pending,
            &mut self.shape,
            &mut self.cells,
            part,
            drawn,
        );
        true
    }
}

/// One move, or none.
#[inline(always)]
fn moves_of(moved: bool) -> u64
    ensures one { IsTrue moved → result ≡ 1 }
    ensures none { IsFalse moved → result ≡ 0 }
    ensures few { result ≤ 1 }
{
    if moved { 1 } else { 0 }
}

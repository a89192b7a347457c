//! Visits of nodes that take no number: leaves, atoms, classes and products.
ghost use Rattle.std.specs.Prelude.{◌≡◌, ◌≢◌, ◌<◌, [], ◌∷◌, map, length, slice_get, Some, None};
ghost use Rattle.bz_model.specs.Fraction.{Fraction};
ghost use Rattle.class_system.specs.Views.{number};
ghost use Rattle.choice_draw.specs.Decision.{IsUnion};
ghost use Rattle.count_draw.specs.Kinds.{IsCountedNode};
ghost use Rattle.shape_sampler.specs.Visit.{leaf_visited};
ghost use Rattle.shape_sampler.specs.State.{SessionBelongs, Leaves};
ghost use Rattle.shape_sampler.specs.Answer.{IsPlainAnswer, IsPlainVisit, IsVisitOfAll};
ghost use Rattle.shape_sampler.specs.Answer.{IsIdealAnswer, room_atom_visited, replaced_by};

use crate::placing::{answer, put_token, replace_first};
use crate::session::Session;
use crate::stepped::Stepped;
use class_system::expr::Expr;
use class_system::ids::ExprId;
use class_system::system::System;
use object_store::token::Token;

impl Session {
    /// Visits a node that takes no number.
    #[inline(always)]
    pub(crate) fn visit_plain(&mut self, system: &System, node: ExprId) -> Stepped
        requires in_range { node.0 < length system.now.nodes }
        requires no_union { ¬ IsUnion system.now node.0 }
        requires uncounted { ¬ IsCountedNode system.now node.0 }
        requires running { self.old.stopped ≡ None }
        requires first { slice_get self.old.pending 0 ≡ Some node.0 }
        ensures plain { IsPlainAnswer result }
        ensures leaves { Leaves result self.old self.new }
        ensures cells { self.new.cells ≡ self.old.cells }
        ensures exact { result ≢ Stepped.OutOfMemory
            → IsVisitOfAll system.now self.old result self.new }
        ensures session { (x : Fraction) → SessionBelongs system.now x self.old
            → SessionBelongs system.now x self.new × IsIdealAnswer system.now x result self.new }
    {
        system.known();
        match system.node(node) {
            Expr::Empty(_) => self.visit_leaf(),
            Expr::Atom(_) => self.visit_atom(),
            Expr::Class(c) => self.visit_class(system.body(*c)),
            Expr::Product(parts) => self.visit_product(parts.items()),
            Expr::Union(_) => unreachable!(),
            Expr::Seq(_) | Expr::Set(_) | Expr::Cyc(_) => unreachable!(),
        }
    }

    /// A neutral leaf adds its token.
    #[inline(always)]
    fn visit_leaf(&mut self) -> Stepped
        requires running { self.old.stopped ≡ None }
        requires pending { self.old.pending ≢ [] }
        ensures { IsPlainVisit leaf_visited self.old result self.new }
    {
        if self.shape.reserve(1).is_err() {
            return Stepped::OutOfMemory;
        }
        put_token(&mut self.shape, Token::Unit);
        replace_first(&mut self.pending, &[]);
        answer(&self.pending)
    }

    /// An atom adds its token and lowers the room, and is over at room 0.
    #[inline(always)]
    fn visit_atom(&mut self) -> Stepped
        requires running { self.old.stopped ≡ None }
        requires pending { self.old.pending ≢ [] }
        ensures { IsPlainVisit room_atom_visited self.old result self.new }
    {
        if self.room == 0 {
            self.pending.clear();
            return Stepped::Overshot;
        }
        if self.shape.reserve(1).is_err() {
            return Stepped::OutOfMemory;
        }
        put_token(&mut self.shape, Token::Dot);
        replace_first(&mut self.pending, &[]);
        self.room -= 1;
        answer(&self.pending)
    }

    /// A class puts its body in its place.
    #[inline(always)]
    fn visit_class(&mut self, body: ExprId) -> Stepped
        requires running { self.old.stopped ≡ None }
        requires pending { self.old.pending ≢ [] }
        ensures { IsPlainVisit (replaced_by (body.0 ∷ [])) self.old result self.new }
    {
        if self.pending.reserve(1).is_err() {
            return Stepped::OutOfMemory;
        }
        replace_first(&mut self.pending, &[body]);
        answer(&self.pending)
    }

    /// A product puts its parts in its place, in order.
    #[inline(always)]
    fn visit_product(&mut self, parts: &[ExprId]) -> Stepped
        requires running { self.old.stopped ≡ None }
        requires pending { self.old.pending ≢ [] }
        ensures { IsPlainVisit (replaced_by (map number parts.now)) self.old result self.new }
    {
        if self.pending.reserve(parts.len()).is_err() {
            return Stepped::OutOfMemory;
        }
        replace_first(&mut self.pending, parts);
        answer(&self.pending)
    }
}

//! Counted constructions, and what is decided of a number of parts.
ghost use Rattle.std.specs.Prelude.{◌≡◌, ◌<◌, length, Some};
ghost use Rattle.bz_model.specs.Spec.{node_at, range_at};
ghost use Rattle.class_system.specs.Views.{spec_range};
ghost use Rattle.count_draw.specs.Kinds.{series_of_kind, counted_node, IsCountedNode, SuitsRange};

use class_system::expr::Expr;
use class_system::ids::ExprId;
use class_system::ranges::Range;
use class_system::system::System;

/// The three constructions that take a number of parts.
#[derive(Clone, Copy, Debug, PartialEq, Eq)]
pub enum CountKind {
    Seq,
    Set,
    Cyc,
}

/// A sequence, set or cycle: its construction, its part and its range.
#[derive(Clone, Copy, Debug, PartialEq, Eq)]
pub(crate) struct Counted {
    pub(crate) kind: CountKind,
    pub(crate) part: ExprId,
    pub(crate) range: Range,
}

/// What a cell decides of a number of parts.
#[derive(Clone, Copy, Debug, PartialEq, Eq)]
pub enum CountChoice {
    /// This number of parts is taken.
    Take(u64),
    /// Every number of parts up to the room is passed over.
    Over,
}

/// The sequence, set or cycle at a node.
pub(crate) fn counted_at(system: &System, node: ExprId) -> Counted
    requires counted { IsCountedNode system.now node.0 }
    ensures node { node_at system.now node.0
        ≡ Some (counted_node (series_of_kind result.kind) result.part.0) }
    ensures range { range_at system.now node.0 ≡ Some (spec_range result.range) }
    ensures suits { SuitsRange (series_of_kind result.kind) (spec_range result.range) }
    ensures part { result.part.0 < length system.now.nodes }
    ensures in_range { node.0 < length system.now.nodes }
{
    system.known();
    let range = system.range(node);
    let (kind, part) = match system.node(node) {
        Expr::Seq(part) => (CountKind::Seq, *part),
        Expr::Set(part) => (CountKind::Set, *part),
        Expr::Cyc(part) => (CountKind::Cyc, *part),
        _ => unreachable!(),
    };
    Counted { kind, part, range }
}

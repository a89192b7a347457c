//! Bounds of a union and of its parts at one level, kept from draw to draw.
ghost use Rattle.std.specs.Prelude.{◌<◌, ◌≤◌, ◌≡◌, length, map, IsTrue};
ghost use Rattle.class_system.specs.Views.{number};
ghost use Rattle.class_system.specs.Each.{Each};
ghost use Rattle.choice_draw.specs.KeptChoices.{AreBoundsOf};

use bz_model::cell::Bounds;
use bz_model::oracle::Oracle;
use class_system::ids::ExprId;
use std::alloc::{AllocError, Global};
use std::marker::Model;

/// No bounds: they are kept until a level's are found.
const NO_BOUNDS: Bounds = Bounds { lo: 0, hi: 0 };

/// The bounds of a union and of its parts at one level.
#[derive(Drop)]
pub(crate) struct LevelBounds {
    whole: Bounds,
    parts: Vec<Bounds>,
}

impl Model for LevelBounds {
    ghost use Rattle.choice_draw.specs.KeptChoices.{UnionBounds};

    ghost Value = { UnionBounds };

    ghost view = { λ b. record { whole = b.whole; parts = b.parts.items } };
}

impl LevelBounds {
    /// No bounds of a union of n parts yet.
    pub(crate) fn empty(alloc: Global, n: usize) -> Result<LevelBounds, AllocError> {
        let parts = vec![in alloc; NO_BOUNDS; n]?;
        Ok(LevelBounds {
            whole: NO_BOUNDS,
            parts,
        })
    }

    /// Whether these are the oracle's bounds at a level, which is raised.
    #[inline]
    pub(crate) fn is_for<const F: u32, O: Oracle<F>>(
        &self,
        parts: &[ExprId],
        node: ExprId,
        level: u8,
        oracle: &O,
    ) -> bool
        requires node { node.0 < length (O.spec oracle.now).nodes }
        requires parts { Each (λ p. p.0 < length (O.spec oracle.now).nodes) parts.now }
        ensures bounds { IsTrue result
            → AreBoundsOf (O.table oracle.now level) node.0 (map number parts.now) self.now }
        ensures raised { IsTrue result → level ≤ O.raised oracle.now }
    {
        if self.parts.len() != parts.len() || !is_at_level(self.whole, node, level, oracle) {
            return false;
        }
        for (i, part) in parts.iter().enumerate() {
            if !is_at_level(self.parts[i], *part, level, oracle) {
                return false;
            }
        }
        true
    }

    /// Takes the oracle's bounds at a level, where it is raised.
    pub(crate) fn begin<const F: u32, O: Oracle<F>>(
        &mut self,
        parts: &[ExprId],
        node: ExprId,
        level: u8,
        oracle: &O,
    )
        requires node { node.0 < length (O.spec oracle.now).nodes }
        requires parts { Each (λ p. p.0 < length (O.spec oracle.now).nodes) parts.now }
    {
        self.whole = bounds_at(node, level, oracle);
        find_bounds(&mut self.parts, parts, level, oracle);
    }
}

/// Whether bounds are those of a node at a level, which is raised.
#[inline]
fn is_at_level<const F: u32, O: Oracle<F>>(
    bounds: Bounds,
    node: ExprId,
    level: u8,
    oracle: &O,
) -> bool
    requires node { node.0 < length (O.spec oracle.now).nodes }
    ensures bounds { IsTrue result → bounds ≡ O.table oracle.now level node.0 }
    ensures raised { IsTrue result → level ≤ O.raised oracle.now }
{
    match oracle.bounds(node.0, level) {
        Some(there) => bounds == there,
        None => false,
    }
}

/// The bounds of a node at a level, where it is raised.
fn bounds_at<const F: u32, O: Oracle<F>>(node: ExprId, level: u8, oracle: &O) -> Bounds
    requires node { node.0 < length (O.spec oracle.now).nodes }
{
    oracle.bounds(node.0, level).unwrap_or(NO_BOUNDS)
}

/// Finds the bounds of nodes at a level, where it is raised.
fn find_bounds<const F: u32, O: Oracle<F>>(
    found: &mut [Bounds],
    nodes: &[ExprId],
    level: u8,
    oracle: &O,
)
    requires nodes { Each (λ p. p.0 < length (O.spec oracle.now).nodes) nodes.now }
{
    for i in 0..found.len().min(nodes.len()) {
        found[i] = bounds_at(nodes[i], level, oracle);
    }
}

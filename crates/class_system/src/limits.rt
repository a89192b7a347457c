//! The limits of a specification.
ghost use Rattle.std.specs.Prelude.{◌≡◌, suc, ◌<◌, ◌-◌, ◌^◌, map, length, slice_index, OnOk, IfErr};
ghost use Rattle.std.specs.Prelude.{IfOk, IfSome, IfNone};
ghost use Rattle.class_system.specs.Each.{Each};
ghost use Rattle.class_system.specs.Views.{spec_node, number};
ghost use Rattle.class_system.specs.Sound.{IsSound};
ghost use Rattle.class_system.specs.Limits.{IsWithinLimits, TellsLimit, IsFirstExcess, HasFewParts};
ghost use Rattle.class_system.specs.Limits.{depth_of, greatest_of};

use crate::draft::Draft;
use crate::expr::Expr;
use crate::ids::ExprId;
use std::alloc::{AllocError, Global};

/// The most classes of a specification.
const MOST_CLASSES: usize = 64;
/// The most parts of a node.
const MOST_PARTS: usize = 64;
/// The greatest depth of a node.
const MOST_DEPTH: u64 = 64;
/// The most nodes of a specification.
const MOST_NODES: usize = 512;

/// Which limit of a specification is broken.
///
/// The variants stand in the order in which the limits are tested. Want of memory may come before
/// any of them.
#[derive(Clone, Copy, Debug, PartialEq, Eq)]
pub enum BuildFault {
    /// There are more than 64 classes.
    TooManyClasses { count: u64 },
    /// A union or product has more than 64 parts; the count is that of the first such node.
    TooManyParts { count: u64 },
    /// The greatest depth of a node is above 64. A leaf and a reference have depth 1.
    TooDeep { depth: u64 },
    /// There are more than 512 nodes.
    TooManyNodes { count: u64 },
    /// Memory ran out.
    OutOfMemory,
}

/// Tests the limits in their order.
pub(crate) fn test_limits(alloc: Global, draft: &Draft) -> Result<(), BuildFault>
    requires sound { IsSound draft.now }
    ensures ok { OnOk result (IsWithinLimits draft.now) }
    ensures fault { IfErr result (TellsLimit draft.now) }
{
    let classes = draft.names().len();
    if classes > MOST_CLASSES {
        return Err(BuildFault::TooManyClasses {
            count: classes as u64,
        });
    }
    if let Some(count) = first_excess(draft.nodes()) {
        return Err(BuildFault::TooManyParts { count });
    }
    let Ok(depth) = greatest_depth(alloc, draft) else {
        return Err(BuildFault::OutOfMemory);
    };
    if depth > MOST_DEPTH {
        return Err(BuildFault::TooDeep { depth });
    }
    let nodes = draft.nodes().len();
    if nodes > MOST_NODES {
        return Err(BuildFault::TooManyNodes {
            count: nodes as u64,
        });
    }
    Ok(())
}

/// The number of parts of the first node that has more than 64.
fn first_excess(nodes: &[Expr]) -> Option<u64>
    ensures found { IfSome result (IsFirstExcess (map spec_node nodes.now)) }
    ensures none { IfNone result (Each HasFewParts (map spec_node nodes.now)) }
{
    for item in nodes {
        let count = item.parts().len();
        if count > MOST_PARTS {
            return Some(count as u64);
        }
    }
    None
}

/// The greatest depth of a node.
fn greatest_depth(alloc: Global, draft: &Draft) -> Result<u64, AllocError>
    requires sound { IsSound draft.now }
    ensures depth { IfOk result (λ depth. depth ≡ depth_of draft.now) }
{
    let mut depths: Vec<u64> = Vec::new(alloc);
    let mut most: u64 = 0;
    for item in draft.nodes() {
        let depth = depth_above(&depths, item.parts());
        depths.push(depth)?;
        most = most.max(depth);
    }
    Ok(most)
}

/// One more than the greatest depth of some parts, from the depths of all nodes before.
fn depth_above(depths: &[u64], parts: &[ExprId]) -> u64
    requires in_range { Each (λ part. part < length depths.now) (map number parts.now) }
    requires small { greatest_of depths.now < 2 ^ 64 - 1 }
    ensures exact { result
        ≡ suc (greatest_of (map (slice_index depths.now) (map number parts.now))) }
{
    let mut most: u64 = 0;
    for part in parts {
        most = most.max(depths[part.0 as usize]);
    }
    most + 1
}

//! What is expected behind an object.
ghost use Rattle.std.specs.Prelude.{◌≡◌, ◌≤◌, ◌+◌, ◌<◌, ◌∷◌, [], ◌++◌, option_to_list, Some};
ghost use Rattle.std.specs.Prelude.{IsTrue, ◌↔◌, IfNone, OnOk};
ghost use Rattle.bz_model.specs.Spec.{IsInRange, IsWithinHigh};
ghost use Rattle.class_system.specs.Views.{spec_range};
ghost use Rattle.object_text.specs.Expected.{expected_parts};

use crate::parsed::Kind;
use class_system::ids::ExprId;
use class_system::ranges::Range;
use std::alloc::{AllocError, Global};
use std::marker::Model;

/// A list of which a part is read.
#[derive(Clone, Copy)]
pub(crate) struct Counted {
    pub kind: Kind,
    pub part: ExprId,
    pub range: Range,
    /// The number of whole parts before the one that is read.
    pub parts: u32,
}

/// What is expected behind an object.
#[derive(Clone, Copy)]
pub(crate) enum Expected {
    /// A closing parenthesis.
    Close,
    /// A space and an object of the node.
    Part(ExprId),
    /// Further parts of a list, and its closing byte.
    Further(Counted),
}

/// What is expected, the next one first.
#[derive(Drop)]
pub(crate) struct Stack {
    entries: Vec<Expected>,
}

impl Model for Stack {
    ghost use Rattle.std.specs.Prelude.{List, reverse};
    ghost use Rattle.object_text.specs.declared.parse_stack.Expected.{Expected};

    ghost Value = { List Expected };

    ghost view = { λ s. reverse s.entries.items };
}

impl Stack {
    /// Nothing.
    pub(crate) fn new(alloc: Global) -> Stack
        ensures { result ≡ [] }
    {
        Stack {
            entries: Vec::new(alloc),
        }
    }

    /// Takes what comes next; None exactly where nothing is expected.
    pub(crate) fn pop(&mut self) -> Option<Expected>
        ensures items { self.old ≡ option_to_list result ++ self.new }
        ensures none { IfNone result (self.old ≡ []) }
    {
        self.entries.pop()
    }

    /// Puts something in front.
    pub(crate) fn push(&mut self, expected: Expected) -> Result<(), AllocError>
        ensures { OnOk result (self.new ≡ expected ∷ self.old) }
    {
        self.entries.push(expected)?;
        Ok(())
    }

    /// Puts objects of some nodes in front, in their order.
    pub(crate) fn push_parts(&mut self, nodes: &[ExprId]) -> Result<(), AllocError>
        ensures { OnOk result (self.new ≡ expected_parts nodes.now ++ self.old) }
    {
        for i in (0..nodes.len()).rev() {
            self.push(Expected::Part(nodes[i]))?;
        }
        Ok(())
    }
}

/// Whether a list may have so many parts.
pub(crate) fn is_within(parts: u32, range: Range) -> bool
    ensures { IsTrue result ↔ IsInRange parts (Some (spec_range range)) }
{
    range.low <= parts && range.high.is_none_or(|high| parts <= high)
}

/// Whether a list may have more than so many parts.
pub(crate) fn may_grow(parts: u32, range: Range) -> bool
    ensures { IsTrue result ↔ IsWithinHigh (parts + 1) range.high }
{
    range.high.is_none_or(|high| parts < high)
}

//! Ranges of numbers of parts.
ghost use Rattle.std.specs.Prelude.{◌≡◌, [], ◌∷◌, ◌++◌, ◌-◌, take, length, OnOk, OnErr};
ghost use Rattle.bz_model.specs.Spec.{plain_range};
ghost use Rattle.class_system.specs.Views.{spec_node, spec_range};

use crate::expr::Expr;
use std::alloc::{AllocError, Global};
use std::marker::Model;

/// The numbers of parts from `low` to `high`, or from `low` on where there is no high.
#[derive(Clone, Copy, Debug, PartialEq, Eq)]
pub struct Range {
    pub low: u32,
    pub high: Option<u32>,
}

/// The plain range of a node: from 0 on, and from 1 on for a cycle.
pub fn plain(of: &Expr) -> Range
    ensures plain { spec_range result ≡ plain_range (spec_node of.now) }
{
    let low = match of {
        Expr::Cyc(_) => 1,
        _ => 0,
    };
    Range { low, high: None }
}

/// A list of ranges, one for each node.
#[derive(Debug, Drop)]
pub struct Ranges {
    content: Vec<Range>,
}

impl Model for Ranges {
    ghost use Rattle.std.specs.Prelude.{List};
    ghost use Rattle.class_system.specs.declared.ranges.Range.{Range};

    ghost Value = { List Range };

    ghost view = { λ r. r.content.items };
}

impl Ranges {
    /// The empty list. Takes no memory.
    pub fn new(alloc: Global) -> Ranges
        ensures empty { result ≡ [] }
    {
        Ranges {
            content: Vec::new(alloc),
        }
    }

    /// Appends a range. A refusal, which comes for want of memory alone, leaves the list unchanged.
    pub fn push(&mut self, item: Range) -> Result<(), AllocError>
        ensures ok { OnOk result (self.new ≡ self.old ++ item ∷ []) }
        ensures err { OnErr result (self.new ≡ self.old) }
    {
        self.content.push(item)?;
        Ok(())
    }

    /// The ranges in order. Takes no memory.
    pub fn items(&self) -> &[Range]
        ensures items { result.now ≡ self.now }
    {
        self.content.as_slice()
    }

    /// Takes the last range off, if there is one.
    pub(crate) fn take_last(&mut self)
        ensures rest { self.new ≡ take (length self.old - 1) self.old }
    {
        let _last = self.content.pop();
    }
}

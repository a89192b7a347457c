//! Marks at the first nodes of a system.
ghost use Rattle.std.specs.Prelude.{◌≡◌, ℕ, ◌⊎◌, IsTrue};
ghost use Rattle.choice_draw.specs.Marks.{IsMarked};

use class_system::ids::ExprId;
use std::marker::Model;

/// How many nodes may be marked: the first ones.
const MOST: usize = 64;

/// Which of the first 64 nodes of a system are marked. No other node ever is.
#[derive(Drop)]
pub struct Marks {
    marks: [bool; MOST],
}

impl Model for Marks {
    ghost use Rattle.std.specs.Prelude.{List, Bool};

    ghost Value = { List Bool };

    ghost view = { λ m. m.marks };
}

impl Marks {
    /// No node is marked. Takes no memory.
    #[inline(always)]
    pub fn none() -> Marks
        ensures { (node : ℕ) → ¬ IsMarked result node }
    {
        Marks {
            marks: [false; MOST],
        }
    }

    /// Whether a node is marked. Takes no memory.
    #[inline(always)]
    pub fn has(&self, node: ExprId) -> bool
        ensures { IsTrue result → IsMarked self.now node.0 }
    {
        let place = node.0 as usize;
        place < MOST && self.marks[place]
    }

    /// Marks a node, if it is one of the first. Takes no memory.
    #[inline(always)]
    pub fn put(&mut self, node: ExprId)
        ensures { (other : ℕ) → IsMarked self.new other
            → (other ≡ node.0) ⊎ IsMarked self.old other }
    {
        let place = node.0 as usize;
        if place < MOST {
            self.marks[place] = true;
        }
    }
}

//! What is still to be read of the objects that wait.
ghost use Rattle.std.specs.Prelude.{◌≡◌, [], ◌∷◌, ◌++◌, option_to_list, OnOk, IfNone};
ghost use Rattle.pointing.specs.Unmarking.{due_copies};

use class_system::ids::ExprId;
use std::alloc::{AllocError, Global};
use std::marker::Model;

/// What is read of some objects that wait.
#[derive(Clone, Copy, Debug)]
pub(crate) enum Due {
    /// So many objects, as they are.
    Copied(usize),
    /// An object of a node with an atom marked.
    Marked(ExprId),
    /// A tuple of a product with an atom of its part at a place marked.
    Tuple(ExprId, usize),
    /// Of a sequence of this part what stands before the marked object, that object, and what
    /// stands after it.
    Split(ExprId),
    /// What stands after the marked object of a sequence: the place where its number of parts is
    /// written, and how many of them stand before that object.
    Last(usize, u32),
}

/// What is still to be read, the next one first.
#[derive(Drop)]
pub(crate) struct Dues {
    content: Vec<Due>,
}

impl Model for Dues {
    ghost use Rattle.std.specs.Prelude.{List, reverse};
    ghost use Rattle.pointing.specs.declared.dues.Due.{Due};

    ghost Value = { List Due };

    ghost view = { λ d. reverse d.content.items };
}

impl Dues {
    /// Nothing is to be read.
    pub(crate) fn new(alloc: Global) -> Dues
        ensures { result ≡ [] }
    {
        Dues {
            content: Vec::new(alloc),
        }
    }

    /// Takes the next one; None exactly where there is none. Takes no memory.
    pub(crate) fn pop(&mut self) -> Option<Due>
        ensures items { self.old ≡ option_to_list result ++ self.new }
        ensures none { IfNone result (self.old ≡ []) }
    {
        self.content.pop()
    }

    /// Puts one in front. After a refusal nothing is said of the others.
    pub(crate) fn push(&mut self, due: Due) -> Result<(), AllocError>
        ensures ok { OnOk result (self.new ≡ due ∷ self.old) }
    {
        self.content.push(due)?;
        Ok(())
    }

    /// Puts so many objects in front, as they are. After a refusal nothing is said of the others.
    pub(crate) fn push_copied(&mut self, objects: usize) -> Result<(), AllocError>
        ensures ok { OnOk result (self.new ≡ due_copies objects ++ self.old) }
    {
        if objects > 0 {
            self.push(Due::Copied(objects))?;
        }
        Ok(())
    }
}

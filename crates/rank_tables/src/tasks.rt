//! Objects that are still to be made, each of a node and a size and with its number.
ghost use Rattle.std.specs.Prelude.{◌≡◌, [], ◌∷◌, ◌++◌, option_to_list, OnOk, IfNone};

use class_system::ids::ExprId;
use std::alloc::{AllocError, Global};
use std::marker::Model;

/// An object of a node and a size, by its number among them.
#[derive(Clone, Copy, Debug)]
pub struct Task {
    pub node: ExprId,
    pub size: usize,
    pub number: u128,
}

/// The objects that are still to be made, the next one first.
#[derive(Drop)]
pub struct Tasks {
    content: Vec<Task>,
}

impl Model for Tasks {
    ghost use Rattle.std.specs.Prelude.{List, reverse};
    ghost use Rattle.rank_tables.specs.declared.tasks.Task.{Task};

    ghost Value = { List Task };

    ghost view = { λ t. reverse t.content.items };
}

impl Tasks {
    /// Nothing is to be made.
    pub fn new(alloc: Global) -> Tasks
        ensures { result ≡ [] }
    {
        Tasks {
            content: Vec::new(alloc),
        }
    }

    /// Takes the next task; None exactly where there is none. Takes no memory.
    pub fn pop(&mut self) -> Option<Task>
        ensures items { self.old ≡ option_to_list result ++ self.new }
        ensures none { IfNone result (self.old ≡ []) }
    {
        self.content.pop()
    }

    /// Puts a task in front. After a refusal nothing is said of the tasks.
    pub fn push(&mut self, task: Task) -> Result<(), AllocError>
        ensures ok { OnOk result (self.new ≡ task ∷ self.old) }
    {
        self.content.push(task)?;
        Ok(())
    }

    /// Puts tasks in front, in their order. After a refusal nothing is said of the tasks.
    pub fn push_all(&mut self, tasks: &[Task]) -> Result<(), AllocError>
        ensures ok { OnOk result (self.new ≡ tasks.now ++ self.old) }
    {
        for i in (0..tasks.len()).rev() {
            self.push(tasks[i])?;
        }
        Ok(())
    }
}

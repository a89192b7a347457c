//! Forms that are still to be laid out.
ghost use Rattle.std.specs.Prelude.{◌≡◌, [], ◌∷◌, ◌++◌, map, option_to_list, OnOk, OnErr, IfNone};
ghost use Rattle.pointing.specs.declared.tasks.Task.TheVariants.{Copy, Point};

use class_system::ids::ExprId;
use std::alloc::{AllocError, Global};
use std::marker::Model;

/// What is done to the list of the forms that are laid out.
#[derive(Clone, Copy, Debug)]
pub(crate) enum Task {
    /// The copy of a node's form is laid out.
    Copy(ExprId),
    /// The pointed form of a node's form is laid out, if it has one.
    Point(ExprId),
    /// The last n forms become their union.
    Union(usize),
    /// The last n forms become their product.
    Product(usize),
    /// The last form becomes the sequence of it.
    Seq,
    /// The last n forms become their union, where there are two or more.
    Choice(usize),
}

/// The tasks that are still to be done, the next one first.
#[derive(Drop)]
pub(crate) struct Tasks {
    content: Vec<Task>,
}

impl Model for Tasks {
    ghost use Rattle.std.specs.Prelude.{List, reverse};
    ghost use Rattle.pointing.specs.declared.tasks.Task.{Task};

    ghost Value = { List Task };

    ghost view = { λ t. reverse t.content.items };
}

impl Tasks {
    /// Nothing is to be done.
    pub(crate) fn new(alloc: Global) -> Tasks
        ensures { result ≡ [] }
    {
        Tasks {
            content: Vec::new(alloc),
        }
    }

    /// Takes the next task; None exactly where there is none. Takes no memory.
    pub(crate) fn pop(&mut self) -> Option<Task>
        ensures items { self.old ≡ option_to_list result ++ self.new }
        ensures none { IfNone result (self.old ≡ []) }
    {
        self.content.pop()
    }

    /// Puts a task in front. After a refusal nothing is said of the tasks.
    fn push(&mut self, task: Task) -> Result<(), AllocError>
        ensures ok { OnOk result (self.new ≡ task ∷ self.old) }
    {
        self.content.push(task)?;
        Ok(())
    }

    /// Puts tasks in front, in their order. After a refusal nothing is said of the tasks.
    pub(crate) fn push_all(&mut self, tasks: &[Task]) -> Result<(), AllocError>
        ensures ok { OnOk result (self.new ≡ tasks.now ++ self.old) }
    {
        for i in (0..tasks.len()).rev() {
            self.push(tasks[i])?;
        }
        Ok(())
    }
}

/// Appends the copies of some nodes.
pub(crate) fn push_copies(tasks: &mut Vec<Task>, nodes: &[ExprId]) -> Result<(), AllocError>
    ensures ok { OnOk result (tasks.new.items ≡ tasks.old.items ++ map Copy nodes.now) }
{
    for node in nodes {
        tasks.push(Task::Copy(*node))?;
    }
    Ok(())
}

/// Appends the pointed forms of some nodes.
pub(crate) fn push_points(tasks: &mut Vec<Task>, nodes: &[ExprId]) -> Result<(), AllocError>
    ensures ok { OnOk result (tasks.new.items ≡ tasks.old.items ++ map Point nodes.now) }
{
    for node in nodes {
        tasks.push(Task::Point(*node))?;
    }
    Ok(())
}

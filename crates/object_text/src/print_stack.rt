//! What is still to be done.
ghost use Rattle.std.specs.Prelude.{◌≡◌, [], ◌∷◌, ◌++◌, replicate, option_to_list, IfNone, OnOk};
ghost use Rattle.object_text.specs.Todos.{joined_objects, entry_items, IsSomething};

use crate::output::Form;
use class_system::ids::ExprId;
use std::alloc::{AllocError, Global};
use std::marker::Model;

/// A thing to do.
#[derive(Clone, Copy)]
pub(crate) enum Todo {
    /// Print a byte.
    Byte(u8),
    /// Print an object of a node.
    Node(ExprId),
    /// Print an object of a node as a part of a set or a cycle.
    Part(ExprId),
    /// End a part of a set or a cycle.
    EndPart,
    /// End a set or a cycle.
    Close(Form),
}

/// Things to do that stand together.
#[derive(Clone, Copy)]
enum Entry {
    /// One thing.
    One(Todo),
    /// An object of a node, and so many more with a space before each.
    Objects(ExprId, u32),
    /// So many objects of a node, one or more, with a space before each.
    Spaced(ExprId, u32),
    /// So many objects of a node, one or more, as parts of a set or a cycle.
    Parts(ExprId, u32),
}

/// The things that are still to be done, the next one first.
///
/// A node that is to be printed a million times takes the memory of one.
#[derive(Drop)]
pub(crate) struct Todos {
    entries: Vec<Entry>,
}

impl Model for Todos {
    ghost use Rattle.std.specs.Prelude.{List};
    ghost use Rattle.object_text.specs.declared.print_stack.Todo.{Todo};
    ghost use Rattle.object_text.specs.Todos.{todos_in_order, AreSome};

    ghost Value = { List Todo };

    ghost view = { λ t. todos_in_order t.entries.items };

    ghost invariant = { λ t. AreSome t.entries.items };
}

impl Todos {
    /// Nothing.
    pub(crate) fn new(alloc: Global) -> Todos
        ensures { result ≡ [] }
    {
        Todos {
            entries: Vec::new(alloc),
        }
    }

    /// Takes the next thing; None exactly where there is none.
    pub(crate) fn pop(&mut self) -> Option<Todo>
        ensures items { self.old ≡ option_to_list result ++ self.new }
        ensures none { IfNone result (self.old ≡ []) }
    {
        match self.entries.pop()? {
            Entry::One(todo) => Some(todo),
            Entry::Objects(node, more) => {
                if more > 0 {
                    self.entries.push_reserved(Entry::Spaced(node, more));
                }
                Some(Todo::Node(node))
            }
            Entry::Spaced(node, times) => {
                self.entries.push_reserved(Entry::Objects(node, times - 1));
                Some(Todo::Byte(b' '))
            }
            Entry::Parts(node, times) => {
                if times > 1 {
                    self.entries.push_reserved(Entry::Parts(node, times - 1));
                }
                Some(Todo::Part(node))
            }
        }
    }

    /// Puts an entry in front.
    #[inline(always)]
    fn push(&mut self, entry: Entry) -> Result<(), AllocError>
        requires { IsSomething entry }
        ensures { OnOk result (self.new ≡ entry_items entry ++ self.old) }
    {
        if self.entries.len() < self.entries.capacity() {
            self.entries.push_reserved(entry);
            return Ok(());
        }
        self.entries.push(entry)?;
        Ok(())
    }

    /// Puts a thing in front.
    pub(crate) fn push_one(&mut self, todo: Todo) -> Result<(), AllocError>
        ensures { OnOk result (self.new ≡ todo ∷ self.old) }
    {
        self.push(Entry::One(todo))
    }

    /// Puts so many objects of a node in front, with a space between each two of them.
    pub(crate) fn push_objects(&mut self, node: ExprId, times: u32) -> Result<(), AllocError>
        ensures { OnOk result (self.new ≡ joined_objects (replicate times node) ++ self.old) }
    {
        if times > 0 {
            self.push(Entry::Objects(node, times - 1))?;
        }
        Ok(())
    }

    /// Puts so many objects of a node in front, as parts of a set or a cycle.
    pub(crate) fn push_parts(&mut self, node: ExprId, times: u32) -> Result<(), AllocError>
        ensures { OnOk result (self.new ≡ replicate times (Todo.Part node) ++ self.old) }
    {
        if times > 0 {
            self.push(Entry::Parts(node, times))?;
        }
        Ok(())
    }

    /// Puts an object of each node in front, with a space between each two of them.
    pub(crate) fn push_each(&mut self, nodes: &[ExprId]) -> Result<(), AllocError>
        ensures { OnOk result (self.new ≡ joined_objects nodes.now ++ self.old) }
    {
        let Some((first, later)) = nodes.split_first() else {
            return Ok(());
        };
        for i in (0..later.len()).rev() {
            self.push(Entry::Spaced(later[i], 1))?;
        }
        self.push_one(Todo::Node(*first))
    }
}

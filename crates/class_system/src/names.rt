//! Names of classes, in order and without repeats.
ghost use Rattle.std.specs.Prelude.{◌≡◌, ◌<◌, [], ◌∷◌, ◌++◌, length, slice_get, nat_eq, OnOk};
ghost use Rattle.std.specs.Prelude.{OnErr, IfSome, IfNone};
ghost use Rattle.std.specs.Cmp.Lexicographic.{pointwise};
ghost use Rattle.class_system.specs.Distinct.{AreDistinct, IsMissing};

use bz_outside::word::Word;
use indexmap::IndexSet;
use std::alloc::{AllocError, Global};
use std::marker::Model;

/// Names in the order in which they were added, none of them twice.
#[derive(Drop)]
pub struct Names {
    set: IndexSet<Word>,
}

impl Model for Names {
    ghost use Rattle.std.specs.Prelude.{List, ℕ};

    ghost Value = { List (List ℕ) };

    ghost view = { λ n. n.set.keys };
}

impl Names {
    /// The empty list. Takes no memory.
    pub fn new(alloc: Global) -> Names
        ensures empty { result ≡ [] }
    {
        Names {
            set: IndexSet::new(alloc),
        }
    }

    /// How many names there are. Takes no memory.
    pub fn len(&self) -> usize
        ensures len { result ≡ length self.now }
    {
        self.set.len()
    }

    /// Appends a name that isn't there. A refusal, which comes for want of memory alone, leaves the
    /// list unchanged.
    pub fn push(&mut self, name: Word) -> Result<(), AllocError>
        requires missing { IsMissing name self.old }
        ensures ok { OnOk result (self.new ≡ self.old ++ name ∷ []) }
        ensures err { OnErr result (self.new ≡ self.old) }
    {
        self.set.insert(name)?;
        Ok(())
    }

    /// The name at a place. Takes no memory.
    pub fn name(&self, i: usize) -> &Word
        requires in_range { i < length self.now }
        ensures name { slice_get self.now i ≡ Some result.now }
    {
        &self.set.as_slice()[i]
    }

    /// The place of a name; None exactly where it isn't there. Takes no memory.
    pub fn place(&self, name: &Word) -> Option<usize>
        ensures found { IfSome result (λ i. slice_get self.now i ≡ Some name.now) }
        ensures missing { IfNone result (IsMissing name.now self.now) }
    {
        self.set.get_index_of(name)
    }

    /// Does nothing: its clause says that no name is there twice.
    pub fn known(&self)
        ensures distinct { AreDistinct self.now }
    {
        let _names = self.set.as_slice();
    }
}

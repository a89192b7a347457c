//! Proposals that failed.
ghost use Rattle.std.specs.Prelude.{◌≡◌, [], ◌∷◌, ◌++◌, OnOk, OnErr};

use crate::values::Values;
use class_system::ids::ClassId;
use std::alloc::{AllocError, Global};
use std::marker::Model;

/// A proposal that isn't post-fixed.
#[derive(Debug, Drop)]
pub struct Trial {
    /// The proposal.
    pub values: Values,
    /// The least class whose body has no upper value, or one above the class's entry.
    pub class_id: ClassId,
    /// That value.
    pub got: Option<u64>,
}

/// A list of trials, in the order in which they were made.
#[derive(Debug, Drop)]
pub struct Trials {
    content: Vec<Trial>,
}

impl Model for Trials {
    ghost use Rattle.std.specs.Prelude.{List};
    ghost use Rattle.newton_upper.specs.declared.trials.Trial.{Trial};

    ghost Value = { List Trial };

    ghost view = { λ t. t.content.items };
}

impl Trials {
    /// The empty list. Takes no memory.
    pub fn new(alloc: Global) -> Trials
        ensures empty { result ≡ [] }
    {
        Trials {
            content: Vec::new(alloc),
        }
    }

    /// Appends a trial. A refusal, which comes for want of memory alone, leaves the list unchanged.
    pub fn push(&mut self, item: Trial) -> Result<(), AllocError>
        ensures ok { OnOk result (self.new ≡ self.old ++ item ∷ []) }
        ensures err { OnErr result (self.new ≡ self.old) }
    {
        self.content.push(item)?;
        Ok(())
    }

    /// The trials in order. Takes no memory.
    pub fn items(&self) -> &[Trial]
        ensures items { result.now ≡ self.now }
    {
        self.content.as_slice()
    }
}

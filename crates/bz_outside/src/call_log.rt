//! Which calls of a shelf or a sink over memory fail.
ghost use Rattle.std.specs.Prelude.{◌≡◌, ◌<◌, ◌≤◌, [], ◌∷◌, ◌++◌, All, OnOk, OnErr, true, false};
ghost use Rattle.bz_outside.specs.Outside.{next_count};
ghost use Rattle.bz_outside.specs.Memory.{after_call, fails_next};

use crate::shelf::Failed;
use std::alloc::{AllocError, Global};
use std::marker::Model;

/// How many calls were made, the numbers of those that are to fail, and how many failed.
#[derive(Debug, Drop)]
pub struct CallLog {
    made: u64,
    failing: Vec<u64>,
    failed: u64,
}

impl Model for CallLog {
    ghost use Rattle.bz_outside.specs.Memory.{Calls};

    ghost Value = { Calls };

    ghost view = { λ c. record { made = c.made; failing = c.failing.items; failed = c.failed } };
}

impl CallLog {
    /// No call was made, and none is to fail.
    pub fn new(alloc: Global) -> CallLog
        ensures { result ≡ record { made = 0; failing = []; failed = 0 } }
    {
        CallLog {
            made: 0,
            failing: Vec::new(alloc),
            failed: 0,
        }
    }

    /// Lets the call with this number fail, too. The numbers are given in rising order, from 1.
    pub fn fail_at(&mut self, call: u64) -> Result<(), AllocError>
        requires { All (λ number. number < call) self.old.failing }
        ensures ok { OnOk result
            (self.new ≡ record self.old { failing = self.old.failing ++ call ∷ [] }) }
        ensures err { OnErr result (self.new ≡ self.old) }
    {
        self.failing.push(call)?;
        Ok(())
    }

    /// Whether the next call is one of those that are to fail.
    pub fn fails_next(&self) -> bool
        ensures { result ≡ fails_next self.now }
    {
        self.failing
            .as_slice()
            .contains(&self.made.saturating_add(1))
    }

    /// One more call was made, and failed.
    pub fn failure(&mut self) -> Failed
        ensures after { self.new ≡ after_call true self.old }
        ensures counts { self.old.failed ≤ self.new.failed }
    {
        self.made = self.made.saturating_add(1);
        self.failed = self.failed.saturating_add(1);
        Failed
    }

    /// One more call was made, and didn't fail.
    pub fn success(&mut self)
        ensures { self.new ≡ after_call false self.old }
    {
        self.made = self.made.saturating_add(1);
    }
}

//! A vector that was found to be post-fixed.
ghost use Rattle.std.specs.Prelude.{◌≡◌, ◌+◌, ◌≤◌, length, IfOk, IfErr, OnOk};
ghost use Rattle.bz_model.specs.Fraction.{ratio, IsFractionBits};
ghost use Rattle.rounded_map.specs.RoundedMap.{setting, IsPostFixed};
ghost use Rattle.rounded_map.specs.Bounding.{AreAbove};
ghost use Rattle.newton_upper.specs.Checked.{IsFaultOf};

use bz_model::fraction::Fraction;
use bz_model::steps::Steps;
use rounded_map::{PostFault, is_post_fixed};
use std::alloc::{AllocError, Global};
use std::marker::Model;
use std::sync::ledger::Ledger;
use well_founded::examination::Founded;

/// An upper value for each class, in units of `2^-F`, seen as the list of them.
///
/// It is post-fixed for the specification and x that it was made of.
#[derive(Debug, Drop)]
pub struct Base<const F: u32> {
    entries: Vec<u64>,
}

impl<const F: u32> Model for Base<F> {
    ghost use Rattle.std.specs.Prelude.{ℕ, List};

    ghost Value = { List ℕ };

    ghost view = { λ b. b.entries.items };
}

/// Why a vector makes no base.
#[derive(Clone, Copy, Debug, PartialEq, Eq)]
pub enum BaseFault {
    /// The vector isn't post-fixed: the least class that fails, and its body's upper value.
    NotPostFixed(PostFault),
    /// Memory ran out. This may come in place of any answer.
    OutOfMemory,
}

impl From<AllocError> for BaseFault {
    ghost use Rattle.std.specs.Prelude.{◌≡◌};
    ghost use Rattle.newton_upper.specs.declared.base.BaseFault.TheVariants.{OutOfMemory};

    ghost from_gives = { λ _ fault. fault ≡ OutOfMemory };

    fn from(_error: AllocError) -> BaseFault {
        BaseFault::OutOfMemory
    }
}

impl<const F: u32> Base<F> {
    /// Makes a base of a vector that is post-fixed, which it tests.
    ///
    /// `values` has one entry per class, in units of `2^-F`. `NotPostFixed` comes exactly where
    /// some class's body has no upper value or one above the class's entry. One tick at most. Takes
    /// memory for the node values.
    pub fn check<L: Ledger>(
        alloc: Global,
        founded: &Founded,
        x: Fraction,
        values: Vec<u64>,
        steps: &mut Steps<L>,
    ) -> Result<Base<F>, BaseFault>
        requires fraction_bits { IsFractionBits F }
        requires one_per_class { length values.items ≡ length founded.now.bodies }
        ensures same { IfOk result (λ base. base ≡ values.items) }
        ensures post_fixed { OnOk result
            (IsPostFixed (setting founded.now x.num x.den F) values.items) }
        ensures bounds { OnOk result (AreAbove founded.now (ratio x.num x.den) F values.items) }
        ensures fault { IfErr result (IsFaultOf (setting founded.now x.num x.den F) values.items) }
        ensures ticks { steps.new ≤ steps.old + 1 }
    {
        let system = founded.system();
        let mut nodes = vec![in alloc; 0; system.nodes().len()]?;
        match is_post_fixed::<F, L>(system, x, &values, &mut nodes, steps) {
            Ok(()) => Ok(Base { entries: values }),
            Err(fault) => Err(BaseFault::NotPostFixed(fault)),
        }
    }

    /// A base of a vector that was found to be post-fixed.
    pub(crate) fn of(entries: Vec<u64>) -> Base<F>
        ensures same { result ≡ entries.items }
    {
        Base { entries }
    }

    /// The entries, one for each class. Takes no memory.
    pub fn values(&self) -> &[u64]
        ensures entries { result.now ≡ self.now }
    {
        self.entries.as_slice()
    }
}

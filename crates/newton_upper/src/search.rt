//! The search for a base.
ghost use Rattle.std.specs.Prelude.{◌≡◌, ℕ, ◌+◌, ◌*◌, ◌^◌, ◌≤◌, length, Some, None, IfOk, IfErr};
ghost use Rattle.bz_model.specs.Fraction.{ratio, IsFractionBits};
ghost use Rattle.rounded_map.specs.RoundedMap.{setting, IsPostFixed};
ghost use Rattle.rounded_map.specs.Bounding.{AreAbove};
ghost use Rattle.newton_upper.specs.BaseRule.{base_of, most_ticks, TellsNoUpper};
ghost use Rattle.newton_upper.specs.Candidates.{swept_down, candidate_base};

use crate::base::Base;
use crate::candidates::search_candidates;
use crate::newton::newton_step;
use crate::trials::{Trial, Trials};
use crate::values::Values;
use bz_model::fraction::Fraction;
use bz_model::steps::Steps;
use class_system::system::System;
use rounded_map::is_post_fixed;
use std::alloc::{AllocError, Global};
use std::sync::ledger::Ledger;
use well_founded::examination::Founded;

/// How many Newton steps are made at most.
const MOST_STEPS: u64 = 16;

/// Why there is no base.
#[derive(Debug, Drop)]
pub enum UpperFault {
    /// No candidate and no proposal is post-fixed.
    NoUpper {
        /// The proposals in order, each with the least class that fails and its body's value.
        proposals: Trials,
    },
    /// Memory ran out. This may come in place of any answer.
    OutOfMemory,
}

impl From<AllocError> for UpperFault {
    ghost use Rattle.std.specs.Prelude.{◌≡◌};
    ghost use Rattle.newton_upper.specs.declared.search.UpperFault.TheVariants.{OutOfMemory};

    ghost from_gives = { λ _ fault. fault ≡ OutOfMemory };

    fn from(_error: AllocError) -> UpperFault {
        UpperFault::OutOfMemory
    }
}

/// The base for a specification and x: the first candidate that is post-fixed or, where none is,
/// the first such proposal.
///
/// The candidates of six rounds widen a vector of lower values, which ever more lower sweeps
/// make, by ever greater multiples of a vector along which the map may grow; the proposals are
/// made by up to 16 Newton steps from the last round's vector. Each entry of a base bounds what
/// the objects of its class total, of whatever height. `NoUpper` comes exactly where no candidate
/// and no proposal is post-fixed. Where a candidate of round r is taken, there are at most three
/// ticks for each sweep of that round and one for each candidate up to it; each Newton step adds
/// three more than there are classes. Takes memory for some vectors and matrices.
pub fn propose<const F: u32, L: Ledger>(
    alloc: Global,
    founded: &Founded,
    x: Fraction,
    steps: &mut Steps<L>,
) -> Result<Base<F>, UpperFault>
    requires fraction_bits { IsFractionBits F }
    ensures base { IfOk result (λ base. base_of (setting founded.now x.num x.den F) ≡ Some base) }
    ensures post_fixed { IfOk result (λ base.
        IsPostFixed (setting founded.now x.num x.den F) base) }
    ensures bounds { IfOk result (λ base. AreAbove founded.now (ratio x.num x.den) F base) }
    ensures fault { IfErr result (TellsNoUpper (setting founded.now x.num x.den F)) }
    ensures ticks { steps.new ≤ steps.old + most_ticks (setting founded.now x.num x.den F) }
{
    let system = founded.system();
    let mut lower = vec![in alloc; 0; system.bodies().len()]?;
    match search_candidates::<F, L>(alloc, system, x, &mut lower, steps)? {
        Some(candidate) => Ok(Base::of(candidate.into_content())),
        None => search_proposals::<F, L>(alloc, system, x, Values::of(lower), steps),
    }
}

/// The first post-fixed proposal, from the lower vector of the last round.
fn search_proposals<const F: u32, L: Ledger>(
    alloc: Global,
    system: &System,
    x: Fraction,
    lower: Values,
    steps: &mut Steps<L>,
) -> Result<Base<F>, UpperFault>
    requires fraction_bits { IsFractionBits F }
    requires lower { lower ≡ swept_down (setting system.now x.num x.den F) (4 ^ 6) }
    requires none { candidate_base (setting system.now x.num x.den F) ≡ None }
    ensures base { IfOk result (λ base. base_of (setting system.now x.num x.den F) ≡ Some base) }
    ensures post_fixed { IfOk result (λ base. IsPostFixed (setting system.now x.num x.den F) base) }
    ensures bounds { IfOk result (λ base. AreAbove system.now (ratio x.num x.den) F base) }
    ensures fault { IfErr result (TellsNoUpper (setting system.now x.num x.den F)) }
    ensures ticks { steps.new ≤ steps.old + 16 * (length system.now.bodies + 3) }
{
    let mut trials = Trials::new(alloc);
    let mut nodes = vec![in alloc; 0; system.nodes().len()]?;
    let mut y = lower;
    for _i in 0..MOST_STEPS {
        let Some(step) = newton_step::<F, L>(alloc, system, x, y.items(), steps)? else {
            return Err(UpperFault::NoUpper { proposals: trials });
        };
        match is_post_fixed::<F, L>(system, x, step.proposal.items(), &mut nodes, steps) {
            Ok(()) => return Ok(Base::of(step.proposal.into_content())),
            Err(fault) => trials.push(Trial {
                values: step.proposal,
                class_id: fault.class_id,
                got: fault.got,
            })?,
        }
        y = step.next;
    }
    Err(UpperFault::NoUpper { proposals: trials })
}

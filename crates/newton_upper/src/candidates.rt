//! The search among the candidates of six rounds.
ghost use Rattle.std.specs.Prelude.{◌≡◌, ℕ, ◌+◌, ◌*◌, ◌^◌, ◌≤◌, length, replicate, Some, None};
ghost use Rattle.std.specs.Prelude.{IfOk, IfSome};
ghost use Rattle.bz_model.specs.Fraction.{ratio, IsFractionBits};
ghost use Rattle.rounded_map.specs.RoundedMap.{setting, IsPostFixed};
ghost use Rattle.rounded_map.specs.Bounding.{AreAbove};
ghost use Rattle.newton_upper.specs.BaseRule.{round_ticks, last_round};
ghost use Rattle.newton_upper.specs.Candidates as rule;

use crate::sweeps::{dual_vector, sweep_on, widened};
use crate::values::Values;
use bz_model::fraction::Fraction;
use bz_model::steps::Steps;
use class_system::system::System;
use rounded_map::is_post_fixed;
use std::alloc::{AllocError, Global};
use std::sync::ledger::Ledger;

/// How many rounds there are.
const ROUNDS: u8 = 6;

/// The most dual sweeps of a round.
const MOST_DUAL_SWEEPS: u64 = 256;

/// The first post-fixed candidate of the six rounds, where there is one.
///
/// `lower` is zero for each class; where no candidate is post-fixed it is afterwards the vector of
/// the last round.
pub(crate) fn search_candidates<const F: u32, L: Ledger>(
    alloc: Global,
    system: &System,
    x: Fraction,
    lower: &mut [u64],
    steps: &mut Steps<L>,
) -> Result<Option<Values>, AllocError>
    requires fraction_bits { IsFractionBits F }
    requires zero { lower.old ≡ replicate (length system.now.bodies) 0 }
    ensures exact { IfOk result (λ o. o ≡ rule.candidate_base (setting system.now x.num x.den F)) }
    ensures post_fixed { IfOk result (λ o.
        IfSome o (IsPostFixed (setting system.now x.num x.den F))) }
    ensures bounds { IfOk result (λ o. IfSome o (AreAbove system.now (ratio x.num x.den) F)) }
    ensures lower { IfOk result (λ o. o ≡ None
        → lower.new ≡ rule.swept_down (setting system.now x.num x.den F) (4 ^ 6)) }
    ensures ticks { steps.new ≤ steps.old
        + round_ticks F (last_round (setting system.now x.num x.den F)) }
{
    let mut nodes = vec![in alloc; 0; system.nodes().len()]?;
    for rounds in 0..ROUNDS {
        let sweeps = sweeps_after(rounds + 1);
        let further = sweeps - sweeps_after(rounds);
        sweep_on::<F, L>(system, x, further, lower, &mut nodes, steps);
        if let Some(found) = round_base::<F, L>(alloc, system, x, lower, sweeps, steps)? {
            return Ok(Some(found));
        }
    }
    Ok(None)
}

/// How many lower sweeps are done after so many rounds: `4^rounds`, and none before the first.
fn sweeps_after(rounds: u8) -> u64
    requires rounds { rounds ≤ 6 }
    ensures sweeps { result ≡ rule.sweeps_after rounds }
{
    match rounds {
        0 => 0,
        1 => 4,
        2 => 16,
        3 => 64,
        4 => 256,
        5 => 1024,
        _ => 4096,
    }
}

/// The first post-fixed candidate of the round whose lower vector is `y`, after so many sweeps.
fn round_base<const F: u32, L: Ledger>(
    alloc: Global,
    system: &System,
    x: Fraction,
    y: &[u64],
    sweeps: u64,
    steps: &mut Steps<L>,
) -> Result<Option<Values>, AllocError>
    requires fraction_bits { IsFractionBits F }
    requires one_per_class { length y.now ≡ length system.now.bodies }
    ensures exact { IfOk result (λ o.
        o ≡ rule.round_from (setting system.now x.num x.den F) y.now sweeps) }
    ensures post_fixed { IfOk result (λ o.
        IfSome o (IsPostFixed (setting system.now x.num x.den F))) }
    ensures bounds { IfOk result (λ o. IfSome o (AreAbove system.now (ratio x.num x.den) F)) }
    ensures ticks { steps.new ≤ steps.old + (sweeps + 1 + rule.candidate_count F) }
{
    let dual_sweeps = sweeps.min(MOST_DUAL_SWEEPS);
    let Some(dual) = dual_vector::<F, L>(alloc, system, x, y, dual_sweeps, steps)? else {
        return Ok(None);
    };
    first_candidate::<F, L>(alloc, system, x, y, dual.items(), steps)
}

/// The first of the candidates `y + dual * 4^j` that is post-fixed.
fn first_candidate<const F: u32, L: Ledger>(
    alloc: Global,
    system: &System,
    x: Fraction,
    y: &[u64],
    dual: &[u64],
    steps: &mut Steps<L>,
) -> Result<Option<Values>, AllocError>
    requires fraction_bits { IsFractionBits F }
    requires one_per_class { length y.now ≡ length system.now.bodies }
    requires one_dual_per_class { length dual.now ≡ length system.now.bodies }
    ensures exact { IfOk result (λ o.
        o ≡ rule.first_candidate (setting system.now x.num x.den F) y.now
        dual.now) }
    ensures post_fixed { IfOk result (λ o.
        IfSome o (IsPostFixed (setting system.now x.num x.den F))) }
    ensures bounds { IfOk result (λ o. IfSome o (AreAbove system.now (ratio x.num x.den) F)) }
    ensures ticks { steps.new ≤ steps.old + rule.candidate_count F }
{
    let mut factor = 1;
    for _j in 0..(F - 8) / 2 + 1 {
        if let Some(found) = try_candidate::<F, L>(alloc, system, x, y, dual, factor, steps)? {
            return Ok(Some(found));
        }
        factor *= 4;
    }
    Ok(None)
}

/// The candidate `y + dual * factor`, where it is post-fixed. At most one tick.
fn try_candidate<const F: u32, L: Ledger>(
    alloc: Global,
    system: &System,
    x: Fraction,
    y: &[u64],
    dual: &[u64],
    factor: u64,
    steps: &mut Steps<L>,
) -> Result<Option<Values>, AllocError>
    requires fraction_bits { IsFractionBits F }
    requires one_per_class { length y.now ≡ length system.now.bodies }
    requires one_dual_per_class { length dual.now ≡ length system.now.bodies }
    requires few { factor ≤ 281474976710656 }
    ensures exact { IfOk result (λ o. o ≡ rule.if_post_fixed (setting system.now x.num x.den F)
        (rule.widened y.now dual.now factor)) }
    ensures post_fixed { IfOk result (λ o.
        IfSome o (IsPostFixed (setting system.now x.num x.den F))) }
    ensures bounds { IfOk result (λ o. IfSome o (AreAbove system.now (ratio x.num x.den) F)) }
    ensures ticks { steps.new ≤ steps.old + 1 }
{
    let Some(vector) = widened(alloc, y, dual, factor)? else {
        return Ok(None);
    };
    if_post_fixed::<F, L>(alloc, system, x, vector, steps)
}

/// The vector, where it is post-fixed. At most one tick.
fn if_post_fixed<const F: u32, L: Ledger>(
    alloc: Global,
    system: &System,
    x: Fraction,
    vector: Values,
    steps: &mut Steps<L>,
) -> Result<Option<Values>, AllocError>
    requires fraction_bits { IsFractionBits F }
    requires one_per_class { length vector ≡ length system.now.bodies }
    ensures exact { IfOk result (λ o.
        o ≡ rule.if_post_fixed (setting system.now x.num x.den F) (Some vector)) }
    ensures post_fixed { IfOk result (λ o.
        IfSome o (IsPostFixed (setting system.now x.num x.den F))) }
    ensures bounds { IfOk result (λ o. IfSome o (AreAbove system.now (ratio x.num x.den) F)) }
    ensures ticks { steps.new ≤ steps.old + 1 }
{
    let mut nodes = vec![in alloc; 0; system.nodes().len()]?;
    match is_post_fixed::<F, L>(system, x, vector.items(), &mut nodes, steps) {
        Ok(()) => Ok(Some(vector)),
        Err(_) => Ok(None),
    }
}

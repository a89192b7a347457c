//! The search for a fast vector below the base's upper sweeps.
ghost use Rattle.std.specs.Prelude.{◌≡◌, ◌≢◌, ◌-◌, ◌+◌, ◌*◌, ◌^◌, ◌<◌, ◌≤◌, length, None, IfOk};
ghost use Rattle.std.specs.Prelude.{IfSome, option_map};
ghost use Rattle.bz_model.specs.Fraction.{ratio, IsFractionBits};
ghost use Rattle.rounded_map.specs.RoundedMap.{setting, IsPostFixed};
ghost use Rattle.rounded_map.specs.Bounding.{AreBelow};
ghost use Rattle.fast_lower.specs.Contraction.{one_unit_off};
ghost use Rattle.fast_lower.specs.FastVector as rule;
ghost use Rattle.fast_lower.specs.declared.fast.FastFault.{FastFault};

use crate::fast::{Fast, FastFault};
use bz_model::fraction::Fraction;
use bz_model::steps::Steps;
use class_system::system::System;
use fixed_enclosure::narrow::power_of_two;
use newton_upper::{Base, BaseFault, dual_vector};
use rounded_map::sweep_hi;
use std::alloc::{AllocError, Global};
use std::sync::ledger::Ledger;
use well_founded::examination::Founded;

/// How many upper sweeps, and then how many dual sweeps, are made.
const SWEEPS: u64 = 4096;

impl<const F: u32> Fast<F> {
    /// The fast vector of the base, by the rule of `specs/FastVector.antt`.
    ///
    /// None comes exactly where no candidate passes. At most `8194 + 3 * F` ticks. Takes memory for
    /// some class vectors and for node values.
    pub fn propose<L: Ledger>(
        alloc: Global,
        founded: &Founded,
        x: Fraction,
        base: &Base<F>,
        steps: &mut Steps<L>,
    ) -> Result<Option<Fast<F>>, AllocError>
        requires fraction_bits { IsFractionBits F }
        requires belongs { IsPostFixed (setting founded.now x.num x.den F) base.now }
        ensures exact { IfOk result
            (λ fast. fast ≡ rule.fast_vector (setting founded.now x.num x.den F) base.now) }
        ensures below { IfOk result
            (λ fast. IfSome fast (AreBelow founded.now (ratio x.num x.den) F)) }
        ensures length { IfOk result
            (λ fast. IfSome fast (λ v. length v ≡ length founded.now.bodies)) }
        ensures ticks { steps.new ≤ steps.old + (8194 + 3 * F) }
    {
        let upper = upper_vector::<F, L>(alloc, founded, x, base, steps)?;
        let system = founded.system();
        let Some(weights) = dual_vector::<F, L>(alloc, system, x, upper.values(), SWEEPS, steps)?
        else {
            return Ok(None);
        };
        first_passing::<F, L>(alloc, founded, x, &upper, weights.items(), steps)
    }
}

/// The base swept up 4096 times, which is a base. At most 4097 ticks.
fn upper_vector<const F: u32, L: Ledger>(
    alloc: Global,
    founded: &Founded,
    x: Fraction,
    base: &Base<F>,
    steps: &mut Steps<L>,
) -> Result<Base<F>, AllocError>
    requires fraction_bits { IsFractionBits F }
    requires belongs { IsPostFixed (setting founded.now x.num x.den F) base.now }
    ensures exact { IfOk result
        (λ upper. upper ≡ rule.upper_vector (setting founded.now x.num x.den F) base.now) }
    ensures post_fixed { IfOk result (IsPostFixed (setting founded.now x.num x.den F)) }
    ensures length { IfOk result (λ upper. length upper ≡ length founded.now.bodies) }
    ensures ticks { steps.new ≤ steps.old + 4097 }
{
    let system = founded.system();
    system.known();
    let mut classes = base.values().to_vec(alloc)?;
    let mut nodes = vec![in alloc; 0; system.nodes().len()]?;
    sweep_up_on::<F, L>(system, x, SWEEPS, &mut classes, &mut nodes, steps);
    match Base::<F>::check::<L>(alloc, founded, x, classes, steps) {
        Ok(upper) => Ok(upper),
        Err(BaseFault::OutOfMemory) => Err(AllocError),
        Err(BaseFault::NotPostFixed(_)) => unreachable!(),
    }
}

/// So many upper sweeps. One tick for each.
fn sweep_up_on<const F: u32, L: Ledger>(
    system: &System,
    x: Fraction,
    sweeps: u64,
    classes: &mut [u64],
    nodes: &mut [u64],
    steps: &mut Steps<L>,
)
    requires fraction_bits { IsFractionBits F }
    requires one_per_class { length classes.old ≡ length system.now.bodies }
    requires one_per_node { length nodes.old ≡ length system.now.nodes }
    ensures swept { classes.new
        ≡ rule.swept_up (setting system.now x.num x.den F) classes.old sweeps }
    ensures ticks { steps.new ≡ steps.old + sweeps }
{
    for _sweep in 0..sweeps {
        sweep_hi::<F, L>(system, x, classes, nodes, steps);
    }
}

/// The first candidate that passes, with one unit off. At most three ticks a candidate.
fn first_passing<const F: u32, L: Ledger>(
    alloc: Global,
    founded: &Founded,
    x: Fraction,
    upper: &Base<F>,
    weights: &[u64],
    steps: &mut Steps<L>,
) -> Result<Option<Fast<F>>, AllocError>
    requires fraction_bits { IsFractionBits F }
    requires belongs { IsPostFixed (setting founded.now x.num x.den F) upper.now }
    requires one_per_class { length upper.now ≡ length founded.now.bodies }
    requires one_weight_per_class { length weights.now ≡ length founded.now.bodies }
    ensures exact { IfOk result (λ fast. fast ≡ option_map one_unit_off
        (rule.first_passing (setting founded.now x.num x.den F) upper.now weights.now)) }
    ensures below { IfOk result (λ fast. IfSome fast (AreBelow founded.now (ratio x.num x.den) F)) }
    ensures length { IfOk result (λ fast. IfSome fast (λ v. length v ≡ length founded.now.bodies)) }
    ensures ticks { steps.new ≤ steps.old + 3 * F }
{
    for k in 0..F {
        if let Some(found) = try_candidate::<F, L>(alloc, founded, x, upper, weights, k, steps)? {
            return Ok(Some(found));
        }
    }
    Ok(None)
}

/// Candidate k with one unit off, where it passes. At most three ticks.
fn try_candidate<const F: u32, L: Ledger>(
    alloc: Global,
    founded: &Founded,
    x: Fraction,
    upper: &Base<F>,
    weights: &[u64],
    k: u32,
    steps: &mut Steps<L>,
) -> Result<Option<Fast<F>>, AllocError>
    requires fraction_bits { IsFractionBits F }
    requires belongs { IsPostFixed (setting founded.now x.num x.den F) upper.now }
    requires one_per_class { length upper.now ≡ length founded.now.bodies }
    requires one_weight_per_class { length weights.now ≡ length founded.now.bodies }
    requires few { k < F }
    ensures exact { IfOk result (λ fast. fast ≡ option_map one_unit_off
        (rule.passing_candidate (setting founded.now x.num x.den F) upper.now weights.now k)) }
    ensures below { IfOk result (λ fast. IfSome fast (AreBelow founded.now (ratio x.num x.den) F)) }
    ensures length { IfOk result (λ fast. IfSome fast (λ v. length v ≡ length founded.now.bodies)) }
    ensures ticks { steps.new ≤ steps.old + 3 }
{
    let low = lowered(alloc, upper.values(), weights, power_of_two(k))?;
    let weights = weights.to_vec(alloc)?;
    match Fast::<F>::check::<L>(alloc, founded, x, upper, low, weights, steps) {
        Ok(fast) => Ok(Some(fast)),
        Err(fault) => without(fault),
    }
}

/// No fast vector, unless memory ran out.
fn without<const F: u32>(fault: FastFault) -> Result<Option<Fast<F>>, AllocError>
    ensures none { IfOk result (λ fast. (fast ≡ None) × (fault ≢ FastFault.OutOfMemory)) }
{
    match fault {
        FastFault::OutOfMemory => Err(AllocError),
        _ => Ok(None),
    }
}

/// The upper vector less a multiple of the weights, entry by entry, 0 where that is negative.
fn lowered(
    alloc: Global,
    upper: &[u64],
    weights: &[u64],
    factor: u128,
) -> Result<Vec<u64>, AllocError>
    requires lengths { length weights.now ≡ length upper.now }
    requires few { factor ≤ 2 ^ 56 }
    ensures exact { IfOk result (λ low. low.items ≡ rule.lowered upper.now weights.now factor) }
{
    let mut low = Vec::new(alloc);
    for c in 0..upper.len() {
        low.push(lowered_entry(upper[c], weights[c], factor))?;
    }
    Ok(low)
}

/// An entry less a multiple of a weight, 0 where that is negative.
fn lowered_entry(entry: u64, weight: u64, factor: u128) -> u64
    requires few { factor ≤ 2 ^ 56 }
    ensures { result ≡ entry - factor * weight }
{
    let less = factor * u128::from(weight);
    u128::from(entry).saturating_sub(less) as u64
}

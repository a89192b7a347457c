//! Vectors that are made entry by entry or sweep by sweep, where each number has a value.
ghost use Rattle.std.specs.Prelude.{◌≡◌, ℕ, ◌+◌, ◌*◌, ◌≤◌, map, length, Some, None};
ghost use Rattle.std.specs.Prelude.{option_and_then, IfOk, IfSome, IsTrue, IsFalse};
ghost use Rattle.bz_model.specs.Fraction.{IsFractionBits};
ghost use Rattle.fixed_enclosure.specs.Rounded.{if_fits, add_up};
ghost use Rattle.rounded_map.specs.RoundedMap.{setting, repeated, sweep_down};
ghost use Rattle.rounded_map.specs.Derivative as derivative;
ghost use Rattle.newton_upper.specs.Candidates as rule;
ghost use Rattle.newton_upper.specs.Newton as newton;

use crate::values::Values;
use bz_model::fraction::Fraction;
use bz_model::steps::Steps;
use class_system::system::System;
use fixed_enclosure::narrow::fit;
use rounded_map::{eval_hi, sweep_dual, sweep_lo};
use std::alloc::{AllocError, Global};
use std::sync::ledger::Ledger;

/// So many lower sweeps. One tick for each. Takes no memory.
pub(crate) fn sweep_on<const F: u32, L: Ledger>(
    system: &System,
    x: Fraction,
    sweeps: u64,
    classes: &mut [u64],
    nodes: &mut [u64],
    steps: &mut Steps<L>,
)
    requires fraction_bits { IsFractionBits F }
    requires one_per_class { length classes.old ≡ length system.now.bodies }
    requires one_per_node { length nodes.old ≡ length system.now.nodes }
    ensures swept { classes.new ≡ repeated (sweep_down (setting system.now x.num x.den F)) sweeps
        classes.old }
    ensures ticks { steps.new ≡ steps.old + sweeps }
{
    for _sweep in 0..sweeps {
        sweep_lo::<F, L>(system, x, classes, nodes, steps);
    }
}

/// The upper value of each node at the class vector, where each node has one. At most one tick.
pub(crate) fn upper_values<const F: u32, L: Ledger>(
    alloc: Global,
    system: &System,
    x: Fraction,
    classes: &[u64],
    steps: &mut Steps<L>,
) -> Result<Option<Values>, AllocError>
    requires fraction_bits { IsFractionBits F }
    requires one_per_class { length classes.now ≡ length system.now.bodies }
    ensures exact { IfOk result (λ o.
        o ≡ rule.upper_values (setting system.now x.num x.den F) classes.now) }
    ensures length { IfOk result (λ o. IfSome o (λ v. length v ≡ length system.now.nodes)) }
    ensures ticks { steps.new ≤ steps.old + 1 }
{
    let mut values = vec![in alloc; 0; system.nodes().len()]?;
    match eval_hi::<F, L>(system, x, classes, &mut values, steps) {
        Ok(()) => Ok(Some(Values::of(values))),
        Err(_) => Ok(None),
    }
}

/// The vector after so many dual sweeps from zero at the upper values of a class vector.
///
/// None exactly where a node has no upper value or a sweep has no result. At most one tick more
/// than there are sweeps.
pub fn dual_vector<const F: u32, L: Ledger>(
    alloc: Global,
    system: &System,
    x: Fraction,
    y: &[u64],
    sweeps: u64,
    steps: &mut Steps<L>,
) -> Result<Option<Values>, AllocError>
    requires fraction_bits { IsFractionBits F }
    requires one_per_class { length y.now ≡ length system.now.bodies }
    ensures exact { IfOk result (λ o.
        o ≡ rule.dual_vector (setting system.now x.num x.den F) y.now sweeps) }
    ensures length { IfOk result (λ o. IfSome o (λ v. length v ≡ length system.now.bodies)) }
    ensures ticks { steps.new ≤ steps.old + (sweeps + 1) }
{
    let Some(values) = upper_values::<F, L>(alloc, system, x, y, steps)? else {
        return Ok(None);
    };
    swept_dual::<F, L>(alloc, system, x, values.items(), sweeps, steps)
}

/// The vector after so many dual sweeps from zero at the node values, where each has a result.
fn swept_dual<const F: u32, L: Ledger>(
    alloc: Global,
    system: &System,
    x: Fraction,
    values: &[u64],
    sweeps: u64,
    steps: &mut Steps<L>,
) -> Result<Option<Values>, AllocError>
    requires fraction_bits { IsFractionBits F }
    requires one_per_node { length values.now ≡ length system.now.nodes }
    ensures exact { IfOk result (λ o.
        o ≡ rule.swept_dual (setting system.now x.num x.den F) values.now
        sweeps) }
    ensures length { IfOk result (λ o. IfSome o (λ v. length v ≡ length system.now.bodies)) }
    ensures ticks { steps.new ≤ steps.old + sweeps }
{
    let mut dual = vec![in alloc; 0; system.bodies().len()]?;
    let mut nodes = vec![in alloc; 0; system.nodes().len()]?;
    if sweep_dual_on::<F, L>(system, x, values, sweeps, &mut dual, &mut nodes, steps) {
        Ok(Some(Values::of(dual)))
    } else {
        Ok(None)
    }
}

/// So many dual sweeps; false exactly where one has no result.
fn sweep_dual_on<const F: u32, L: Ledger>(
    system: &System,
    x: Fraction,
    values: &[u64],
    sweeps: u64,
    dual: &mut [u64],
    nodes: &mut [u64],
    steps: &mut Steps<L>,
) -> bool
    requires fraction_bits { IsFractionBits F }
    requires one_per_class { length dual.old ≡ length system.now.bodies }
    requires one_value_per_node { length values.now ≡ length system.now.nodes }
    requires one_per_node { length nodes.old ≡ length system.now.nodes }
    ensures swept { IsTrue result
        → repeated
        (option_and_then (derivative.sweep_dual (setting system.now x.num x.den F)
        (map Some values.now))) sweeps (Some dual.old) ≡ Some dual.new }
    ensures missing { IsFalse result
        → repeated
        (option_and_then (derivative.sweep_dual (setting system.now x.num x.den F)
        (map Some values.now))) sweeps (Some dual.old) ≡ None }
    ensures ticks { steps.new ≤ steps.old + sweeps }
{
    for _sweep in 0..sweeps {
        if !sweep_dual::<F, L>(system, x, values, dual, nodes, steps) {
            return false;
        }
    }
    true
}

/// `y + dual * factor`, entry by entry; None exactly where an entry passes 64 bits.
pub(crate) fn widened(
    alloc: Global,
    y: &[u64],
    dual: &[u64],
    factor: u64,
) -> Result<Option<Values>, AllocError>
    requires lengths { length dual.now ≡ length y.now }
    requires few { factor ≤ 281474976710656 }
    ensures exact { IfOk result (λ o. o ≡ rule.widened y.now dual.now factor) }
    ensures length { IfOk result (λ o. IfSome o (λ v. length v ≡ length y.now)) }
{
    let mut vector = Values::new(alloc);
    for c in 0..y.len() {
        let Some(entry) = widened_entry(y[c], dual[c], factor) else {
            return Ok(None);
        };
        vector.push(entry)?;
    }
    Ok(Some(vector))
}

/// An entry and the factor's multiple of another, added.
fn widened_entry(entry: u64, dual: u64, factor: u64) -> Option<u64>
    requires { factor ≤ 281474976710656 }
    ensures { result ≡ if_fits (entry + dual * factor) }
{
    fit(u128::from(entry) + u128::from(dual) * u128::from(factor))
}

/// The sum of two vectors; None exactly where an entry passes 64 bits.
pub(crate) fn sum_of_vectors(
    alloc: Global,
    left: &[u64],
    right: &[u64],
) -> Result<Option<Values>, AllocError>
    requires lengths { length right.now ≡ length left.now }
    ensures exact { IfOk result (λ o. o ≡ newton.sum_of_vectors left.now right.now) }
    ensures length { IfOk result (λ o. IfSome o (λ v. length v ≡ length left.now)) }
{
    let mut vector = Values::new(alloc);
    for c in 0..left.len() {
        let Some(entry) = fit(u128::from(left[c]) + u128::from(right[c])) else {
            return Ok(None);
        };
        vector.push(entry)?;
    }
    Ok(Some(vector))
}

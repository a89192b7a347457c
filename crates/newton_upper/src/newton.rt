//! Newton steps.
ghost use Rattle.std.specs.Prelude.{◌≡◌, ℕ, ◌+◌, ◌-◌, ◌<◌, ◌≤◌, map, length, IfOk, IfSome};
ghost use Rattle.bz_model.specs.Fraction.{IsFractionBits};
ghost use Rattle.rounded_map.specs.RoundedMap.{setting, at_each};
ghost use Rattle.newton_upper.specs.Newton as rule;
ghost use Rattle.newton_upper.specs.Newton.{IsSquare};
ghost use Rattle.newton_upper.specs.Fitting.{AreSums, AreSteps};

use crate::matrix::Matrix;
use crate::neumann_series::{Sums, newton_sums};
use crate::sweeps::{sum_of_vectors, upper_values};
use crate::values::Values;
use bz_model::fraction::Fraction;
use bz_model::steps::Steps;
use class_system::system::System;
use fixed_enclosure::narrow::power_of_two;
use rounded_map::{sweep_dual, sweep_lo};
use std::alloc::{AllocError, Global};
use std::sync::ledger::Ledger;

/// What a dual sweep gives each class beside its body's derivative.
const UNITS: u64 = 256;

/// What a step gives: the vector of the next step, and a proposal.
#[derive(Drop)]
pub(crate) struct Newton {
    pub(crate) next: Values,
    pub(crate) proposal: Values,
}

/// The step from the vector; None exactly where a number of it has no value. At most two ticks more
/// than there are classes.
pub(crate) fn newton_step<const F: u32, L: Ledger>(
    alloc: Global,
    system: &System,
    x: Fraction,
    y: &[u64],
    steps: &mut Steps<L>,
) -> Result<Option<Newton>, AllocError>
    requires fraction_bits { IsFractionBits F }
    requires one_per_class { length y.now ≡ length system.now.bodies }
    ensures exact { IfOk result (λ o.
        o ≡ rule.newton_step (setting system.now x.num x.den F) y.now) }
    ensures fitting { IfOk result (λ o. IfSome o (AreSteps (length system.now.bodies))) }
    ensures ticks { steps.new ≤ steps.old + (length system.now.bodies + 2) }
{
    let Some(values) = upper_values::<F, L>(alloc, system, x, y, steps)? else {
        return Ok(None);
    };
    let Some(sums) = step_sums::<F, L>(alloc, system, x, y, values.items(), steps)? else {
        return Ok(None);
    };
    newton_from(alloc, y, &sums)
}

/// The next vector and the proposal, from the sums of a step.
fn newton_from(alloc: Global, y: &[u64], sums: &Sums) -> Result<Option<Newton>, AllocError>
    requires fitting { AreSums (length y.now) sums.now }
    ensures exact { IfOk result (λ o. o ≡ rule.newton_from y.now sums.now) }
    ensures fitting { IfOk result (λ o. IfSome o (AreSteps (length y.now))) }
{
    let Some(next) = sum_of_vectors(alloc, y, sums.gap.items())? else {
        return Ok(None);
    };
    let Some(proposal) = sum_of_vectors(alloc, next.items(), sums.margin.items())? else {
        return Ok(None);
    };
    Ok(Some(Newton { next, proposal }))
}

/// The sums of the step from the vector, at the node values.
fn step_sums<const F: u32, L: Ledger>(
    alloc: Global,
    system: &System,
    x: Fraction,
    y: &[u64],
    values: &[u64],
    steps: &mut Steps<L>,
) -> Result<Option<Sums>, AllocError>
    requires fraction_bits { IsFractionBits F }
    requires one_per_class { length y.now ≡ length system.now.bodies }
    requires one_per_node { length values.now ≡ length system.now.nodes }
    ensures exact { IfOk result (λ o.
        o ≡ rule.step_sums (setting system.now x.num x.den F) y.now values.now) }
    ensures fitting { IfOk result (λ o. IfSome o (AreSums (length system.now.bodies))) }
    ensures ticks { steps.new ≤ steps.old + (length system.now.bodies + 1) }
{
    let Some(matrix) = newton_matrix::<F, L>(alloc, system, x, values, steps)? else {
        return Ok(None);
    };
    let gap = lower_gap::<F, L>(alloc, system, x, y, steps)?;
    let margin = vec![in alloc; UNITS; y.len()]?;
    newton_sums::<F>(alloc, matrix, gap.items(), &margin)
}

/// The matrix of derivatives at the node values.
fn newton_matrix<const F: u32, L: Ledger>(
    alloc: Global,
    system: &System,
    x: Fraction,
    values: &[u64],
    steps: &mut Steps<L>,
) -> Result<Option<Matrix>, AllocError>
    requires fraction_bits { IsFractionBits F }
    requires one_per_node { length values.now ≡ length system.now.nodes }
    ensures exact { IfOk result (λ o.
        o ≡ rule.newton_matrix (setting system.now x.num x.den F) values.now) }
    ensures square { IfOk result (λ o. IfSome o (λ m. IsSquare (length system.now.bodies) m)) }
    ensures ticks { steps.new ≤ steps.old + length system.now.bodies }
{
    let mut matrix = Matrix::new(alloc);
    for c in 0..system.bodies().len() {
        let Some(column) = newton_column::<F, L>(alloc, system, x, values, c, steps)? else {
            return Ok(None);
        };
        matrix.push(column)?;
    }
    Ok(Some(matrix))
}

/// A column of the matrix of derivatives: a dual sweep of the unit vector, less 256 units in each
/// entry. One tick at most.
fn newton_column<const F: u32, L: Ledger>(
    alloc: Global,
    system: &System,
    x: Fraction,
    values: &[u64],
    class: usize,
    steps: &mut Steps<L>,
) -> Result<Option<Values>, AllocError>
    requires fraction_bits { IsFractionBits F }
    requires one_per_node { length values.now ≡ length system.now.nodes }
    requires in_range { class < length system.now.bodies }
    ensures exact { IfOk result (λ o.
        o ≡ rule.newton_column (setting system.now x.num x.den F) values.now
        class) }
    ensures length { IfOk result (λ o. IfSome o (λ v. length v ≡ length system.now.bodies)) }
    ensures ticks { steps.new ≤ steps.old + 1 }
{
    let mut dual = vec![in alloc; 0; system.bodies().len()]?;
    let mut nodes = vec![in alloc; 0; system.nodes().len()]?;
    dual[class] = power_of_two(F) as u64;
    if !sweep_dual::<F, L>(system, x, values, &mut dual, &mut nodes, steps) {
        return Ok(None);
    }
    take_units_off(&mut dual);
    Ok(Some(Values::of(dual)))
}

/// Takes 256 units off each entry, or what there is.
fn take_units_off(entries: &mut [u64])
    ensures { entries.new ≡ map (λ v. v - 256) entries.old }
{
    for c in 0..entries.len() {
        entries[c] = entries[c].saturating_sub(UNITS);
    }
}

/// How far a lower sweep raises each entry. One tick at most.
fn lower_gap<const F: u32, L: Ledger>(
    alloc: Global,
    system: &System,
    x: Fraction,
    y: &[u64],
    steps: &mut Steps<L>,
) -> Result<Values, AllocError>
    requires fraction_bits { IsFractionBits F }
    requires one_per_class { length y.now ≡ length system.now.bodies }
    ensures exact { IfOk result (λ gap.
        gap ≡ rule.lower_gap (setting system.now x.num x.den F) y.now) }
    ensures length { IfOk result (λ gap. length gap ≡ length system.now.bodies) }
    ensures ticks { steps.new ≤ steps.old + 1 }
{
    let mut swept = y.to_vec(alloc)?;
    let mut nodes = vec![in alloc; 0; system.nodes().len()]?;
    sweep_lo::<F, L>(system, x, &mut swept, &mut nodes, steps);
    take_entries_off(&mut swept, y);
    Ok(Values::of(swept))
}

/// Takes each entry of another vector off the one at its place, or what there is.
fn take_entries_off(entries: &mut [u64], others: &[u64])
    requires lengths { length others.now ≡ length entries.old }
    ensures { entries.new ≡ at_each (λ a b. a - b) entries.old others.now }
{
    for c in 0..entries.len() {
        entries[c] = entries[c].saturating_sub(others[c]);
    }
}

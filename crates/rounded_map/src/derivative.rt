//! The derivative of the rounded map along a vector, and dual sweeps.
ghost use Rattle.std.specs.Prelude.{◌≡◌, ℕ, ◌+◌, ◌<◌, ◌≤◌, map, length, set, slice_index, [], Some};
ghost use Rattle.std.specs.Prelude.{None, IsTrue, IsFalse, if◌then◌else◌};
ghost use Rattle.bz_model.specs.Fraction.{IsFractionBits};
ghost use Rattle.bz_model.specs.Spec.{Spec};
ghost use Rattle.class_system.specs.Each.{Each};
ghost use Rattle.class_system.specs.Sound.{RefersBelow, HasTextRange};
ghost use Rattle.class_system.specs.Views.{spec_node, spec_range, number};
ghost use Rattle.class_system.specs.NodeOrder.{parts_of};
ghost use Rattle.series_bounds.specs.Lists.{total_up, product_up};
ghost use Rattle.rounded_map.specs.RoundedMap.{setting, value_at, all_values, amount};
ghost use Rattle.rounded_map.specs.Derivative as derivative;
ghost use Rattle.rounded_map.specs.Derivative.{replaced_products, derivative_up, derivatives_up};
ghost use Rattle.rounded_map.specs.Derivative.{dual_at};

use crate::counted_derivative::{cycle_slope, sequence_slope, set_slope};
use crate::upper::{MOST_NODES, add_hi, copy_values, mul_hi, union_hi};
use bz_model::fraction::Fraction;
use bz_model::steps::Steps;
use class_system::expr::Expr;
use class_system::ids::ExprId;
use class_system::ranges::Range;
use class_system::system::System;
use std::sync::ledger::Ledger;

/// What each class gets in a dual sweep, beside its body's derivative.
const UNITS: u64 = 256;

/// One dual sweep: each class gets 256 units and the derivative of its body along the old vector.
///
/// `dual` has one entry per class, `values` and `nodes` one per node, all in units of `2^-F`;
/// `values` are the upper values at which the derivative is taken. `nodes` is overwritten. False
/// comes exactly where a number of the new vector has no upper value, and leaves `dual` as it was.
/// One tick. Takes no memory.
pub fn sweep_dual<const F: u32, L: Ledger>(
    system: &System,
    _x: Fraction,
    values: &[u64],
    dual: &mut [u64],
    nodes: &mut [u64],
    steps: &mut Steps<L>,
) -> bool
    requires fraction_bits { IsFractionBits F }
    requires one_per_class { length dual.old ≡ length system.now.bodies }
    requires one_value_per_node { length values.now ≡ length system.now.nodes }
    requires one_per_node { length nodes.old ≡ length system.now.nodes }
    ensures swept { IsTrue result
        → derivative.sweep_dual (setting system.now _x.num _x.den F) (map Some values.now) dual.old
        ≡ Some dual.new }
    ensures missing { IsFalse result
        → derivative.sweep_dual (setting system.now _x.num _x.den F) (map Some values.now) dual.old
        ≡ None }
    ensures unchanged { IsFalse result → dual.new ≡ dual.old }
    ensures length { length nodes.new ≡ length nodes.old }
    ensures ticks { steps.new ≡ steps.old + 1 }
{
    steps.tick();
    system.known();
    let mut room = [None; MOST_NODES];
    let derivatives = &mut room[..nodes.len()];
    fill_derivatives::<F>(system, values, dual, derivatives);
    let _ = copy_values(derivatives, nodes);
    let bodies = system.bodies();
    if !are_there(bodies, derivatives) {
        return false;
    }
    write_duals(bodies, derivatives, dual);
    true
}

/// Whether each class has a new number.
fn are_there(bodies: &[ExprId], derivatives: &[Option<u64>]) -> bool
    requires bodies { Each (λ body. body < length derivatives.now) (map number bodies.now) }
    ensures there { IsTrue result
        → all_values (map (dual_at derivatives.now) (map number bodies.now))
        ≡ Some (map amount (map (dual_at derivatives.now) (map number bodies.now))) }
    ensures missing { IsFalse result
        → all_values (map (dual_at derivatives.now) (map number bodies.now)) ≡ None }
{
    for c in 0..bodies.len() {
        if add_hi(Some(UNITS), derivatives[bodies[c].0 as usize]).is_none() {
            return false;
        }
    }
    true
}

/// Each entry becomes its class's new number.
fn write_duals(bodies: &[ExprId], derivatives: &[Option<u64>], dual: &mut [u64])
    requires lengths { length dual.old ≡ length bodies.now }
    requires bodies { Each (λ body. body < length derivatives.now) (map number bodies.now) }
    ensures written { dual.new ≡ map amount (map (dual_at derivatives.now)
        (map number bodies.now)) }
{
    for c in 0..dual.len() {
        dual[c] = number_of(add_hi(Some(UNITS), derivatives[bodies[c].0 as usize]));
    }
}

/// The number of a value, 0 where there is none.
fn number_of(value: Option<u64>) -> u64
    ensures { result ≡ amount value }
{
    match value {
        Some(value) => value,
        None => 0,
    }
}

/// The derivatives of all nodes, each where it has one.
pub(crate) fn fill_derivatives<const F: u32>(
    system: &System,
    values: &[u64],
    dual: &[u64],
    derivatives: &mut [Option<u64>],
)
    requires fraction_bits { IsFractionBits F }
    requires one_per_class { length dual.now ≡ length system.now.bodies }
    requires one_value_per_node { length values.now ≡ length system.now.nodes }
    requires one_per_node { length derivatives.old ≡ length system.now.nodes }
    ensures derivatives { (num den : ℕ)
        → derivatives.new ≡ derivatives_up (setting system.now num den F) (map Some values.now)
        dual.now }
{
    system.known();
    let expressions = system.nodes();
    let ranges = system.ranges();
    for e in 0..derivatives.len() {
        derivatives[e] = derivative_of::<F>(
            &expressions[e],
            ranges[e],
            values,
            dual,
            &derivatives[..e],
        );
    }
}

/// The derivative of a node, from the derivatives of the nodes before it.
fn derivative_of<const F: u32>(
    node: &Expr,
    range: Range,
    values: &[u64],
    dual: &[u64],
    before: &[Option<u64>],
) -> Option<u64>
    requires fraction_bits { IsFractionBits F }
    requires parts { Each (λ p. p < length before.now) (parts_of (spec_node node.now)) }
    requires values { length before.now ≤ length values.now }
    requires class { RefersBelow (length dual.now) (spec_node node.now) }
    requires range { HasTextRange (spec_node node.now) (spec_range range) }
    ensures derivative { (s : Spec) (num den : ℕ)
        → result ≡ derivative_up (setting s num den F) (map Some values.now) dual.now before.now
        (spec_node node.now) (spec_range range) }
{
    match node {
        Expr::Empty(_) | Expr::Atom(_) => Some(0),
        Expr::Class(c) => Some(dual[c.0 as usize]),
        Expr::Union(parts) => union_hi(parts.items(), before),
        Expr::Product(parts) => product_slope::<F>(parts.items(), values, before),
        Expr::Seq(part) => {
            let slope = sequence_slope::<F>(values[part.0 as usize], range);
            mul_hi::<F>(slope, before[part.0 as usize])
        }
        Expr::Set(part) => {
            let slope = set_slope::<F>(values[part.0 as usize], range);
            mul_hi::<F>(slope, before[part.0 as usize])
        }
        Expr::Cyc(part) => {
            let slope = cycle_slope::<F>(values[part.0 as usize], range);
            mul_hi::<F>(slope, before[part.0 as usize])
        }
    }
}

/// The derivative of a product: over its parts, the sum of the products with this one part's value
/// replaced by its derivative.
fn product_slope<const F: u32>(
    parts: &[ExprId],
    values: &[u64],
    before: &[Option<u64>],
) -> Option<u64>
    requires fraction_bits { IsFractionBits F }
    requires parts { Each (λ p. p < length before.now) (map number parts.now) }
    requires values { length before.now ≤ length values.now }
    ensures sum { result
        ≡ total_up
        (replaced_products F [] (map (value_at (map Some values.now)) (map number parts.now))
        (map (value_at before.now) (map number parts.now))) }
{
    let count = parts.len();
    if count == 0 {
        return Some(0);
    }
    let mut sum = replaced_product::<F>(parts, 0, values, before);
    for place in 1..count {
        sum = add_hi(sum, replaced_product::<F>(parts, place, values, before));
    }
    sum
}

/// The product with the value at one place replaced by its derivative.
fn replaced_product<const F: u32>(
    parts: &[ExprId],
    place: usize,
    values: &[u64],
    before: &[Option<u64>],
) -> Option<u64>
    requires fraction_bits { IsFractionBits F }
    requires place { place < length parts.now }
    requires parts { Each (λ p. p < length before.now) (map number parts.now) }
    requires values { length before.now ≤ length values.now }
    ensures product { result
        ≡ product_up F (set (map (value_at (map Some values.now)) (map number parts.now)) place
        (value_at (map (value_at before.now) (map number parts.now)) place)) }
{
    let mut product = factor(parts[0], place == 0, values, before);
    for other in 1..parts.len() {
        product = mul_hi::<F>(
            product,
            factor(parts[other], other == place, values, before),
        );
    }
    product
}

/// The value of a part, or its derivative where the part is the one that is replaced.
fn factor(part: ExprId, is_replaced: bool, values: &[u64], before: &[Option<u64>]) -> Option<u64>
    requires in_range { part.0 < length before.now }
    requires values { length before.now ≤ length values.now }
    ensures factor { result
        ≡ (if is_replaced then value_at before.now part.0 else Some
        (slice_index values.now part.0)) }
{
    if is_replaced {
        before[part.0 as usize]
    } else {
        Some(values[part.0 as usize])
    }
}

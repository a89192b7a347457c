//! Lower values of the nodes, and lower sweeps.
ghost use Rattle.std.specs.Prelude.{◌≡◌, ℕ, ◌+◌, ◌<◌, ◌≤◌, max, map, length, slice_index};
ghost use Rattle.bz_model.specs.Fraction.{ratio, IsFractionBits};
ghost use Rattle.bz_model.specs.Spec.{Spec};
ghost use Rattle.class_system.specs.Each.{Each};
ghost use Rattle.class_system.specs.Sound.{RefersBelow, HasTextRange, IsTextRange};
ghost use Rattle.class_system.specs.Views.{spec_node, spec_range, number};
ghost use Rattle.class_system.specs.NodeOrder.{parts_of};
ghost use Rattle.fixed_enclosure.specs.Rounded.{atom_down};
ghost use Rattle.series_bounds.specs.Series.{Kind, counted_down};
ghost use Rattle.series_bounds.specs.Lists.{total_down, product_down};
ghost use Rattle.rounded_map.specs.RoundedMap.{setting, at_each, node_value_down, values_down};
ghost use Rattle.rounded_map.specs.RoundedMap.{sweep_down};
ghost use Rattle.rounded_map.specs.Bounding.{AreBelow, ValuesBelow};

use bz_model::fraction::Fraction;
use bz_model::steps::Steps;
use class_system::expr::Expr;
use class_system::ids::ExprId;
use class_system::ranges::Range;
use class_system::system::System;
use fixed_enclosure::Lo;
use fixed_enclosure::narrow::power_of_two;
use series_bounds::{cyc_from_lo, cyc_part_lo, seq_from_lo, seq_part_lo, set_from_lo, set_part_lo};
use std::sync::ledger::Ledger;

/// The lower value of each node at the class vector.
///
/// `classes` has one entry per class and `nodes` one per node, both in units of `2^-F`. `nodes` is
/// overwritten. Where the entries are reached by the classes, the values are reached by the nodes.
/// One tick. Takes no memory.
pub fn eval_lo<const F: u32, L: Ledger>(
    system: &System,
    x: Fraction,
    classes: &[u64],
    nodes: &mut [u64],
    steps: &mut Steps<L>,
)
    requires fraction_bits { IsFractionBits F }
    requires one_per_class { length classes.now ≡ length system.now.bodies }
    requires one_per_node { length nodes.old ≡ length system.now.nodes }
    ensures values { nodes.new ≡ values_down (setting system.now x.num x.den F) classes.now }
    ensures reached { AreBelow system.now (ratio x.num x.den) F classes.now
        → ValuesBelow system.now (ratio x.num x.den) F nodes.new }
    ensures ticks { steps.new ≡ steps.old + 1 }
{
    steps.tick();
    system.known();
    let atom = Lo::<F>::atom(x.num, x.den);
    let expressions = system.nodes();
    let ranges = system.ranges();
    for e in 0..nodes.len() {
        let value = node_lo(&expressions[e], ranges[e], atom, classes, &nodes[..e]);
        nodes[e] = value.0;
    }
}

/// One lower sweep: each class gets the greater of its entry and its body's lower value.
///
/// `classes` has one entry per class and `nodes` one per node, both in units of `2^-F`. `nodes` is
/// overwritten. Where the old entries are reached by the classes, the new ones are. One tick. Takes
/// no memory. A step of Kleene iteration (Pivoteau, Salvy and Soria 2012).
pub fn sweep_lo<const F: u32, L: Ledger>(
    system: &System,
    x: Fraction,
    classes: &mut [u64],
    nodes: &mut [u64],
    steps: &mut Steps<L>,
)
    requires fraction_bits { IsFractionBits F }
    requires one_per_class { length classes.old ≡ length system.now.bodies }
    requires one_per_node { length nodes.old ≡ length system.now.nodes }
    ensures swept { classes.new ≡ sweep_down (setting system.now x.num x.den F) classes.old }
    ensures values { nodes.new ≡ values_down (setting system.now x.num x.den F) classes.old }
    ensures reached { AreBelow system.now (ratio x.num x.den) F classes.old
        → AreBelow system.now (ratio x.num x.den) F classes.new }
    ensures ticks { steps.new ≡ steps.old + 1 }
{
    eval_lo::<F, L>(system, x, classes, nodes, steps);
    system.known();
    raise_entries(system.bodies(), nodes, classes);
}

/// Each entry becomes the greater of itself and its body's value.
fn raise_entries(bodies: &[ExprId], values: &[u64], classes: &mut [u64])
    requires lengths { length classes.old ≡ length bodies.now }
    requires bodies { Each (λ body. body < length values.now) (map number bodies.now) }
    ensures raised { classes.new
        ≡ at_each max classes.old (map (slice_index values.now) (map number bodies.now)) }
{
    for c in 0..classes.len() {
        let value = values[bodies[c].0 as usize];
        classes[c] = classes[c].max(value);
    }
}

/// The lower value of a node, from the class vector and the values of the nodes before it.
fn node_lo<const F: u32>(
    node: &Expr,
    range: Range,
    atom: Lo<F>,
    classes: &[u64],
    before: &[u64],
) -> Lo<F>
    requires fraction_bits { IsFractionBits F }
    requires parts { Each (λ p. p < length before.now) (parts_of (spec_node node.now)) }
    requires class { RefersBelow (length classes.now) (spec_node node.now) }
    requires range { HasTextRange (spec_node node.now) (spec_range range) }
    ensures value { (s : Spec) (num den : ℕ) → atom.entry.0 ≡ atom_down F num den
        → result.0 ≡ node_value_down (setting s num den F) classes.now before.now
        (spec_node node.now)
        (spec_range range) }
{
    match node {
        Expr::Empty(_) => Lo(power_of_two(F) as u64),
        Expr::Atom(_) => atom,
        Expr::Class(c) => Lo(classes[c.0 as usize]),
        Expr::Union(parts) => union_lo(parts.items(), before),
        Expr::Product(parts) => product_lo(parts.items(), before),
        Expr::Seq(part) => sequence_lo(Lo(before[part.0 as usize]), range),
        Expr::Set(part) => set_lo(Lo(before[part.0 as usize]), range),
        Expr::Cyc(part) => cycle_lo(Lo(before[part.0 as usize]), range),
    }
}

/// The lower sum of the values of parts, added from left to right.
fn union_lo<const F: u32>(parts: &[ExprId], before: &[u64]) -> Lo<F>
    requires { Each (λ p. p < length before.now) (map number parts.now) }
    ensures { result.0 ≡ total_down (map (slice_index before.now) (map number parts.now)) }
{
    let [first, rest @ ..] = parts else {
        return Lo(0);
    };
    let mut sum = Lo(before[first.0 as usize]);
    for part in rest {
        sum = sum.add(Lo(before[part.0 as usize]));
    }
    sum
}

/// The lower product of the values of parts, multiplied from left to right.
fn product_lo<const F: u32>(parts: &[ExprId], before: &[u64]) -> Lo<F>
    requires fraction_bits { IsFractionBits F }
    requires parts { Each (λ p. p < length before.now) (map number parts.now) }
    ensures { result.0 ≡ product_down F (map (slice_index before.now) (map number parts.now)) }
{
    let [first, rest @ ..] = parts else {
        return Lo(power_of_two(F) as u64);
    };
    let mut product = Lo(before[first.0 as usize]);
    for part in rest {
        product = product.mul(Lo(before[part.0 as usize]));
    }
    product
}

/// The lower value of sequences whose parts have the value.
fn sequence_lo<const F: u32>(part: Lo<F>, range: Range) -> Lo<F>
    requires fraction_bits { IsFractionBits F }
    requires range { IsTextRange 0 (spec_range range) }
    ensures { result.0 ≡ counted_down Kind.Seq F (spec_range range) part.entry.0 }
{
    let low = u64::from(range.low);
    match range.high {
        Some(high) => seq_part_lo(part, low, u64::from(high)),
        None => seq_from_lo(part, low),
    }
}

/// The lower value of sets whose parts have the value.
fn set_lo<const F: u32>(part: Lo<F>, range: Range) -> Lo<F>
    requires fraction_bits { IsFractionBits F }
    requires range { IsTextRange 0 (spec_range range) }
    ensures { result.0 ≡ counted_down Kind.Set F (spec_range range) part.entry.0 }
{
    let low = u64::from(range.low);
    match range.high {
        Some(high) => set_part_lo(part, low, u64::from(high)),
        None => set_from_lo(part, low),
    }
}

/// The lower value of cycles whose parts have the value.
fn cycle_lo<const F: u32>(part: Lo<F>, range: Range) -> Lo<F>
    requires fraction_bits { IsFractionBits F }
    requires range { IsTextRange 1 (spec_range range) }
    ensures { result.0 ≡ counted_down Kind.Cyc F (spec_range range) part.entry.0 }
{
    let low = u64::from(range.low);
    match range.high {
        Some(high) => cyc_part_lo(part, low, u64::from(high)),
        None => cyc_from_lo(part, low),
    }
}

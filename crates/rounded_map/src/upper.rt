//! Upper values of the nodes, upper sweeps, and the test that a vector is post-fixed.
ghost use Rattle.std.specs.Prelude.{◌≡◌, ℕ, ◌+◌, ◌<◌, ◌≤◌, map, length, Some, option_and_then};
ghost use Rattle.std.specs.Prelude.{OnOk, IfErr, IsTrue, ◌↔◌};
ghost use Rattle.fixed_enclosure.specs.UpperValues.{IsNoGreater, AreNoGreater};
ghost use Rattle.bz_model.specs.Fraction.{ratio, IsFractionBits};
ghost use Rattle.bz_model.specs.Spec.{Spec};
ghost use Rattle.class_system.specs.Each.{Each};
ghost use Rattle.class_system.specs.Sound.{RefersBelow, HasTextRange, IsTextRange};
ghost use Rattle.class_system.specs.Views.{spec_node, spec_range, number};
ghost use Rattle.class_system.specs.NodeOrder.{parts_of};
ghost use Rattle.fixed_enclosure.specs.Rounded.{atom_up, add_up, mul_up, of_both};
ghost use Rattle.series_bounds.specs.Series.{Kind, counted_up};
ghost use Rattle.series_bounds.specs.Lists.{total_up, product_up};
ghost use Rattle.rounded_map.specs.RoundedMap.{setting, at_each, lesser, value_at, node_value_up};
ghost use Rattle.rounded_map.specs.RoundedMap.{values_up, bodies_up, sweep_up, IsPostFixed};
ghost use Rattle.rounded_map.specs.RoundedMap.{IsFirstAbove, IsFirstMissing};
ghost use Rattle.rounded_map.specs.Bounding.{AreAbove, ValuesAbove};

use bz_model::fraction::Fraction;
use bz_model::steps::Steps;
use class_system::expr::Expr;
use class_system::ids::{ClassId, ExprId};
use class_system::ranges::Range;
use class_system::system::System;
use fixed_enclosure::Hi;
use fixed_enclosure::narrow::power_of_two;
use series_bounds::{
    cyc_from_hi, cyc_range_hi, seq_from_hi, seq_range_hi, set_from_hi, set_range_hi,
};
use std::sync::ledger::Ledger;

/// The most nodes of a system.
pub(crate) const MOST_NODES: usize = 512;

/// A node has no upper value.
#[derive(Clone, Copy, Debug, PartialEq, Eq)]
pub struct NoValue {
    /// The least such node.
    pub node: ExprId,
}

/// A vector isn't post-fixed.
#[derive(Clone, Copy, Debug, PartialEq, Eq)]
pub struct PostFault {
    /// The least class whose body has no upper value, or one above the class's entry.
    pub class_id: ClassId,
    /// That value.
    pub got: Option<u64>,
}

/// The upper value of each node at the class vector.
///
/// `classes` has one entry per class and `nodes` one per node, both in units of `2^-F`. `nodes` is
/// overwritten. `NoValue` comes exactly where a node has no upper value, with the least such node.
/// Where the entries bound the classes, the values bound the nodes. One tick. Takes no memory.
pub fn eval_hi<const F: u32, L: Ledger>(
    system: &System,
    x: Fraction,
    classes: &[u64],
    nodes: &mut [u64],
    steps: &mut Steps<L>,
) -> Result<(), NoValue>
    requires fraction_bits { IsFractionBits F }
    requires one_per_class { length classes.now ≡ length system.now.bodies }
    requires one_per_node { length nodes.old ≡ length system.now.nodes }
    ensures values { OnOk result (map Some nodes.new ≡ values_up (setting system.now x.num x.den F)
        classes.now) }
    ensures bounds { OnOk result (AreAbove system.now (ratio x.num x.den) F classes.now
        → ValuesAbove system.now (ratio x.num x.den) F (map Some nodes.new)) }
    ensures fault { IfErr result
        (λ fault. IsFirstMissing (values_up (setting system.now x.num x.den F) classes.now)
        fault.node.0) }
    ensures ticks { steps.new ≡ steps.old + 1 }
{
    steps.tick();
    system.known();
    let mut room = [None; MOST_NODES];
    let values = &mut room[..nodes.len()];
    fill_values::<F>(system, x, classes, values);
    copy_values(values, nodes)
}

/// Copies the values, up to the first that is missing.
pub(crate) fn copy_values(values: &[Option<u64>], nodes: &mut [u64]) -> Result<(), NoValue>
    requires lengths { length nodes.old ≡ length values.now }
    requires few { length values.now ≤ 512 }
    ensures length { length nodes.new ≡ length values.now }
    ensures values { OnOk result (map Some nodes.new ≡ values.now) }
    ensures fault { IfErr result (λ fault. IsFirstMissing values.now fault.node.0) }
{
    for e in 0..nodes.len() {
        match values[e] {
            Some(value) => nodes[e] = value,
            None => return Err(NoValue {
                node: ExprId(e as u32),
            }),
        }
    }
    Ok(())
}

/// The upper values of all nodes, each where it has one.
fn fill_values<const F: u32>(
    system: &System,
    x: Fraction,
    classes: &[u64],
    values: &mut [Option<u64>],
)
    requires fraction_bits { IsFractionBits F }
    requires one_per_class { length classes.now ≡ length system.now.bodies }
    requires one_per_node { length values.old ≡ length system.now.nodes }
    ensures values { values.new ≡ values_up (setting system.now x.num x.den F) classes.now }
{
    system.known();
    let atom = atom_hi::<F>(x);
    let expressions = system.nodes();
    let ranges = system.ranges();
    for e in 0..values.len() {
        values[e] = node_hi::<F>(&expressions[e], ranges[e], atom, classes, &values[..e]);
    }
}

/// The upper value of an atom.
fn atom_hi<const F: u32>(x: Fraction) -> Option<u64>
    requires fraction_bits { IsFractionBits F }
    ensures { result ≡ atom_up F x.num x.den }
{
    let atom = Hi::<F>::atom(x.num, x.den)?;
    Some(atom.0)
}

/// The upper value of a node, from the class vector and the values of the nodes before it.
fn node_hi<const F: u32>(
    node: &Expr,
    range: Range,
    atom: Option<u64>,
    classes: &[u64],
    before: &[Option<u64>],
) -> Option<u64>
    requires fraction_bits { IsFractionBits F }
    requires parts { Each (λ p. p < length before.now) (parts_of (spec_node node.now)) }
    requires class { RefersBelow (length classes.now) (spec_node node.now) }
    requires range { HasTextRange (spec_node node.now) (spec_range range) }
    ensures value { (s : Spec) (num den : ℕ) → atom ≡ atom_up F num den
        → result ≡ node_value_up (setting s num den F) classes.now before.now (spec_node node.now)
        (spec_range range) }
{
    match node {
        Expr::Empty(_) => Some(power_of_two(F) as u64),
        Expr::Atom(_) => atom,
        Expr::Class(c) => Some(classes[c.0 as usize]),
        Expr::Union(parts) => union_hi(parts.items(), before),
        Expr::Product(parts) => product_hi::<F>(parts.items(), before),
        Expr::Seq(part) => sequence_hi::<F>(before[part.0 as usize], range),
        Expr::Set(part) => set_hi::<F>(before[part.0 as usize], range),
        Expr::Cyc(part) => cycle_hi::<F>(before[part.0 as usize], range),
    }
}

/// The upper sum of the values of parts, added from left to right.
pub(crate) fn union_hi(parts: &[ExprId], before: &[Option<u64>]) -> Option<u64>
    requires parts { Each (λ p. p < length before.now) (map number parts.now) }
    ensures sum { result ≡ total_up (map (value_at before.now) (map number parts.now)) }
{
    let [first, rest @ ..] = parts else {
        return Some(0);
    };
    let mut sum = before[first.0 as usize];
    for part in rest {
        sum = add_hi(sum, before[part.0 as usize]);
    }
    sum
}

/// The upper sum of two values, where both are there.
pub(crate) fn add_hi(a: Option<u64>, b: Option<u64>) -> Option<u64>
    ensures { result ≡ of_both add_up a b }
{
    let sum = Hi::<0>(a?).add(Hi(b?))?;
    Some(sum.0)
}

/// The upper product of the values of parts, multiplied from left to right.
fn product_hi<const F: u32>(parts: &[ExprId], before: &[Option<u64>]) -> Option<u64>
    requires fraction_bits { IsFractionBits F }
    requires parts { Each (λ p. p < length before.now) (map number parts.now) }
    ensures product { result ≡ product_up F (map (value_at before.now) (map number parts.now)) }
{
    let [first, rest @ ..] = parts else {
        return Some(power_of_two(F) as u64);
    };
    let mut product = before[first.0 as usize];
    for part in rest {
        product = mul_hi::<F>(product, before[part.0 as usize]);
    }
    product
}

/// The upper product of two values, where both are there.
pub(crate) fn mul_hi<const F: u32>(a: Option<u64>, b: Option<u64>) -> Option<u64>
    requires fraction_bits { IsFractionBits F }
    ensures { result ≡ of_both (mul_up F) a b }
{
    let product = Hi::<F>(a?).mul(Hi(b?))?;
    Some(product.0)
}

/// The upper value of sequences whose parts have the value.
fn sequence_hi<const F: u32>(part: Option<u64>, range: Range) -> Option<u64>
    requires fraction_bits { IsFractionBits F }
    requires range { IsTextRange 0 (spec_range range) }
    ensures { result ≡ option_and_then (counted_up Kind.Seq F (spec_range range)) part }
{
    let part = Hi::<F>(part?);
    let low = u64::from(range.low);
    let value = match range.high {
        Some(high) => seq_range_hi(part, low, u64::from(high))?,
        None => seq_from_hi(part, low)?,
    };
    Some(value.0)
}

/// The upper value of sets whose parts have the value.
fn set_hi<const F: u32>(part: Option<u64>, range: Range) -> Option<u64>
    requires fraction_bits { IsFractionBits F }
    requires range { IsTextRange 0 (spec_range range) }
    ensures { result ≡ option_and_then (counted_up Kind.Set F (spec_range range)) part }
{
    let part = Hi::<F>(part?);
    let low = u64::from(range.low);
    let value = match range.high {
        Some(high) => set_range_hi(part, low, u64::from(high))?,
        None => set_from_hi(part, low)?,
    };
    Some(value.0)
}

/// The upper value of cycles whose parts have the value.
fn cycle_hi<const F: u32>(part: Option<u64>, range: Range) -> Option<u64>
    requires fraction_bits { IsFractionBits F }
    requires range { IsTextRange 1 (spec_range range) }
    ensures { result ≡ option_and_then (counted_up Kind.Cyc F (spec_range range)) part }
{
    let part = Hi::<F>(part?);
    let low = u64::from(range.low);
    let value = match range.high {
        Some(high) => cyc_range_hi(part, low, u64::from(high))?,
        None => cyc_from_hi(part, low)?,
    };
    Some(value.0)
}

/// One upper sweep: each class gets the lesser of its entry and its body's upper value, and keeps
/// its entry where there is none.
///
/// `classes` has one entry per class and `nodes` one per node, both in units of `2^-F`. `nodes` is
/// overwritten. Where the old entries bound the classes, the new ones do. One tick. Takes no
/// memory.
pub fn sweep_hi<const F: u32, L: Ledger>(
    system: &System,
    x: Fraction,
    classes: &mut [u64],
    nodes: &mut [u64],
    steps: &mut Steps<L>,
)
    requires fraction_bits { IsFractionBits F }
    requires one_per_class { length classes.old ≡ length system.now.bodies }
    requires one_per_node { length nodes.old ≡ length system.now.nodes }
    ensures swept { classes.new ≡ sweep_up (setting system.now x.num x.den F) classes.old }
    ensures bounds { AreAbove system.now (ratio x.num x.den) F classes.old
        → AreAbove system.now (ratio x.num x.den) F classes.new }
    ensures length { length nodes.new ≡ length nodes.old }
    ensures ticks { steps.new ≡ steps.old + 1 }
{
    steps.tick();
    system.known();
    let mut room = [None; MOST_NODES];
    let values = &mut room[..nodes.len()];
    fill_values::<F>(system, x, classes, values);
    let _ = copy_values(values, nodes);
    lower_entries(system.bodies(), values, classes);
}

/// Each entry becomes the lesser of itself and its body's value, where there is one.
fn lower_entries(bodies: &[ExprId], values: &[Option<u64>], classes: &mut [u64])
    requires lengths { length classes.old ≡ length bodies.now }
    requires bodies { Each (λ body. body < length values.now) (map number bodies.now) }
    ensures lowered { classes.new
        ≡ at_each lesser classes.old (map (value_at values.now) (map number bodies.now)) }
{
    for c in 0..classes.len() {
        classes[c] = lesser_of(classes[c], values[bodies[c].0 as usize]);
    }
}

/// The lesser of an entry and a value, and the entry where there is no value.
fn lesser_of(entry: u64, value: Option<u64>) -> u64
    ensures { result ≡ lesser entry value }
{
    match value {
        Some(value) => entry.min(value),
        None => entry,
    }
}

/// Tests that each class's body has an upper value that is at most the class's entry.
///
/// `classes` has one entry per class and `nodes` one per node, both in units of `2^-F`. `nodes` is
/// overwritten. `PostFault` comes exactly where some body has no value or one above its class's
/// entry, with the least such class and that value. Where it answers Ok, each entry bounds what the
/// objects of its class total, of whatever height. One tick. Takes no memory. Post-fixed is called
/// pre-fixed in some books.
pub fn is_post_fixed<const F: u32, L: Ledger>(
    system: &System,
    x: Fraction,
    classes: &[u64],
    nodes: &mut [u64],
    steps: &mut Steps<L>,
) -> Result<(), PostFault>
    requires fraction_bits { IsFractionBits F }
    requires one_per_class { length classes.now ≡ length system.now.bodies }
    requires one_per_node { length nodes.old ≡ length system.now.nodes }
    ensures post_fixed { OnOk result (IsPostFixed (setting system.now x.num x.den F) classes.now) }
    ensures bounds { OnOk result (AreAbove system.now (ratio x.num x.den) F classes.now) }
    ensures fault { IfErr result
        (λ fault. IsFirstAbove
        (bodies_up (setting system.now x.num x.den F)
        (values_up (setting system.now x.num x.den F) classes.now)) classes.now fault.class_id.0
        fault.got) }
    ensures length { length nodes.new ≡ length nodes.old }
    ensures ticks { steps.new ≡ steps.old + 1 }
{
    steps.tick();
    system.known();
    let mut room = [None; MOST_NODES];
    let values = &mut room[..nodes.len()];
    fill_values::<F>(system, x, classes, values);
    let _ = copy_values(values, nodes);
    test_entries(system.bodies(), values, classes)
}

/// Tests that each class's body has a value that is at most the class's entry.
fn test_entries(bodies: &[ExprId], values: &[Option<u64>], classes: &[u64]) -> Result<(), PostFault>
    requires lengths { length classes.now ≡ length bodies.now }
    requires few { length classes.now ≤ 64 }
    requires bodies { Each (λ body. body < length values.now) (map number bodies.now) }
    ensures ok { OnOk result (AreNoGreater (map (value_at values.now) (map number bodies.now))
        (map Some classes.now)) }
    ensures fault { IfErr result (λ fault.
        IsFirstAbove (map (value_at values.now) (map number bodies.now))
        classes.now fault.class_id.0 fault.got) }
{
    for c in 0..classes.len() {
        let got = values[bodies[c].0 as usize];
        if !is_at_most(got, classes[c]) {
            return Err(PostFault {
                class_id: ClassId(c as u32),
                got,
            });
        }
    }
    Ok(())
}

/// There is a value, and it is at most the entry.
fn is_at_most(value: Option<u64>, entry: u64) -> bool
    ensures { IsTrue result ↔ IsNoGreater value (Some entry) }
{
    match value {
        Some(value) => value <= entry,
        None => false,
    }
}

//! A lower vector found by contraction.
ghost use Rattle.std.specs.Prelude.{◌≡◌, ℕ, ◌-◌, ◌+◌, ◌<◌, ◌≤◌, ◌≢◌, map, length, slice_index};
ghost use Rattle.std.specs.Prelude.{IfOk, IfErr, OnOk, IfSome, IfNone};
ghost use Rattle.bz_model.specs.Fraction.{ratio, IsFractionBits};
ghost use Rattle.class_system.specs.Each.{Each};
ghost use Rattle.class_system.specs.Views.{number};
ghost use Rattle.fixed_enclosure.specs.UpperValues.{AreAtMost};
ghost use Rattle.rounded_map.specs.RoundedMap.{setting, IsPostFixed};
ghost use Rattle.rounded_map.specs.Bounding.{AreBelow};
ghost use Rattle.fast_lower.specs.Contraction.{one_unit_off};
ghost use Rattle.fast_lower.specs.FastChecks.{IsFirst, IsZeroAt, IsAboveAt, ArePositive};
ghost use Rattle.fast_lower.specs.FastChecks.{TellsFastFault, PassesAll};

use bz_model::fraction::Fraction;
use bz_model::steps::Steps;
use class_system::ids::{ClassId, ExprId};
use newton_upper::Base;
use oracle_memo::eval_there;
use rounded_map::laws::bodies_are_nodes;
use rounded_map::{eval_lo, is_contracting};
use std::alloc::{AllocError, Global};
use std::marker::Model;
use std::sync::ledger::Ledger;
use well_founded::examination::Founded;

/// A lower value for each class, in units of `2^-F`, seen as the list of them.
///
/// Each is Below for its class, for the specification and x that it was made of.
#[derive(Debug, Drop)]
pub struct Fast<const F: u32> {
    entries: Vec<u64>,
}

impl<const F: u32> Model for Fast<F> {
    ghost use Rattle.std.specs.Prelude.{ℕ, List};

    ghost Value = { List ℕ };

    ghost view = { λ f. f.entries.items };
}

/// Why a vector with weights makes no fast vector.
#[derive(Clone, Copy, Debug, PartialEq, Eq)]
pub enum FastFault {
    /// A weight is 0: the least such class.
    ZeroWeight(ClassId),
    /// An entry is above the base's: the least such class.
    NotBelowBase(ClassId),
    /// An entry is above its body's lower value: the least such class.
    NotPreFixed(ClassId),
    /// The derivative along the weights at the base isn't less than the weight, or has no value:
    /// the least such class.
    NotContracting(ClassId),
    /// Memory ran out. This may come in place of any answer.
    OutOfMemory,
}

impl From<AllocError> for FastFault {
    ghost use Rattle.std.specs.Prelude.{◌≡◌};
    ghost use Rattle.fast_lower.specs.declared.fast.FastFault.TheVariants.{OutOfMemory};

    ghost from_gives = { λ _ fault. fault ≡ OutOfMemory };

    fn from(_error: AllocError) -> FastFault {
        FastFault::OutOfMemory
    }
}

impl<const F: u32> Fast<F> {
    /// Tests that a vector is nowhere above the base nor above its own image, and that the rounded
    /// map contracts along the weights at the base; then takes one unit off each entry above 0.
    ///
    /// `low` and `weights` have one entry per class, in units of `2^-F`. The tests are made in the
    /// order of `FastFault`; a refusal comes exactly where those before are passed and some class
    /// fails this one, with the least such class. Whoever chose `low` and `weights`, each entry of
    /// what passes is Below for its class. At most three ticks. Takes memory for the node values.
    pub fn check<L: Ledger>(
        alloc: Global,
        founded: &Founded,
        x: Fraction,
        upper: &Base<F>,
        low: Vec<u64>,
        weights: Vec<u64>,
        steps: &mut Steps<L>,
    ) -> Result<Fast<F>, FastFault>
        requires fraction_bits { IsFractionBits F }
        requires belongs { IsPostFixed (setting founded.now x.num x.den F) upper.now }
        requires one_per_class { length low.items ≡ length founded.now.bodies }
        requires one_weight_per_class { length weights.items ≡ length founded.now.bodies }
        ensures same { IfOk result (λ fast. fast ≡ one_unit_off low.items) }
        ensures passes { OnOk result (PassesAll (setting founded.now x.num x.den F) upper.now
            low.items weights.items) }
        ensures length { IfOk result (λ fast. length fast ≡ length founded.now.bodies) }
        ensures below { IfOk result (AreBelow founded.now (ratio x.num x.den) F) }
        ensures fault { IfErr result (TellsFastFault (setting founded.now x.num x.den F) upper.now
            low.items weights.items) }
        ensures ticks { steps.new ≤ steps.old + 3 }
    {
        let system = founded.system();
        system.known();
        bodies_are_nodes();
        if let Some(class) = first_zero(&weights) {
            return Err(FastFault::ZeroWeight(class));
        }
        if let Some(class) = first_above(&low, upper.values()) {
            return Err(FastFault::NotBelowBase(class));
        }
        let mut nodes = vec![in alloc; 0; system.nodes().len()]?;
        eval_lo::<F, L>(system, x, &low, &mut nodes, steps);
        if let Some(class) = first_above_body(&low, system.bodies(), &nodes) {
            return Err(FastFault::NotPreFixed(class));
        }
        eval_there::<F, L>(system, x, upper.values(), &mut nodes, steps);
        match is_contracting::<F, L>(system, x, &nodes, &weights, steps) {
            Ok(()) => Ok(Fast {
                entries: with_one_unit_off(low),
            }),
            Err(class) => Err(FastFault::NotContracting(class)),
        }
    }

    /// The entries, one for each class. Takes no memory.
    pub fn values(&self) -> &[u64]
        ensures entries { result.now ≡ self.now }
    {
        self.entries.as_slice()
    }

    /// The entries, taken over.
    pub(crate) fn into_entries(self) -> Vec<u64>
        ensures same { result.items ≡ self.entry }
    {
        self.entries
    }
}

/// The first class whose weight is 0.
fn first_zero(weights: &[u64]) -> Option<ClassId>
    requires few { length weights.now ≤ 64 }
    ensures some { IfSome result
        (λ class. IsFirst (IsZeroAt weights.now) (length weights.now) class.0) }
    ensures none { IfNone result (ArePositive weights.now) }
{
    for c in 0..weights.len() {
        if weights[c] == 0 {
            return Some(ClassId(c as u32));
        }
    }
    None
}

/// The first class whose entry is above the other vector's.
fn first_above(low: &[u64], other: &[u64]) -> Option<ClassId>
    requires lengths { length other.now ≡ length low.now }
    requires few { length low.now ≤ 64 }
    ensures some { IfSome result
        (λ class. IsFirst (IsAboveAt low.now other.now) (length low.now) class.0) }
    ensures none { IfNone result (AreAtMost low.now other.now) }
{
    for c in 0..low.len() {
        if other[c] < low[c] {
            return Some(ClassId(c as u32));
        }
    }
    None
}

/// The first class whose entry is above its body's value.
fn first_above_body(low: &[u64], bodies: &[ExprId], values: &[u64]) -> Option<ClassId>
    requires lengths { length low.now ≡ length bodies.now }
    requires few { length low.now ≤ 64 }
    requires bodies { Each (λ body. body < length values.now) (map number bodies.now) }
    ensures some { IfSome result (λ class. IsFirst (IsAboveAt low.now
        (map (slice_index values.now) (map number bodies.now))) (length low.now) class.0) }
    ensures none { IfNone result
        (AreAtMost low.now (map (slice_index values.now) (map number bodies.now))) }
{
    for c in 0..low.len() {
        if values[bodies[c].0 as usize] < low[c] {
            return Some(ClassId(c as u32));
        }
    }
    None
}

/// The entries with one unit taken off each above 0.
fn with_one_unit_off(low: Vec<u64>) -> Vec<u64>
    ensures { result.items ≡ one_unit_off low.items }
{
    let mut entries = low;
    take_one_off(&mut entries);
    entries
}

/// Takes one unit off each entry above 0.
fn take_one_off(entries: &mut [u64])
    ensures { entries.new ≡ one_unit_off entries.old }
{
    for c in 0..entries.len() {
        entries[c] = entries[c].saturating_sub(1);
    }
}

//! Whether the rounded map contracts along some weights: whether each body's derivative along them
//! is less than the class's weight.
ghost use Rattle.std.specs.Prelude.{◌≡◌, ℕ, ◌+◌, ◌<◌, ◌≤◌, map, length, Some, OnOk, IfErr, IsTrue};
ghost use Rattle.std.specs.Prelude.{◌↔◌};
ghost use Rattle.std.specs.List.{AllZip};
ghost use Rattle.bz_model.specs.Fraction.{IsFractionBits};
ghost use Rattle.class_system.specs.Each.{Each};
ghost use Rattle.class_system.specs.Views.{number};
ghost use Rattle.rounded_map.specs.RoundedMap.{setting, value_at};
ghost use Rattle.rounded_map.specs.Contracting.{IsLess, body_slopes, AreContracting};
ghost use Rattle.rounded_map.specs.Contracting.{IsFirstNotLess};

use crate::derivative::fill_derivatives;
use crate::upper::MOST_NODES;
use bz_model::fraction::Fraction;
use bz_model::steps::Steps;
use class_system::ids::{ClassId, ExprId};
use class_system::system::System;
use std::sync::ledger::Ledger;

/// Tests that the derivative of each body along the weights is less than the class's weight.
///
/// `weights` has one entry per class and `values` one per node, both in units of `2^-F`; `values`
/// are the upper values at which the derivative is taken. A refusal comes exactly where some body's
/// derivative isn't less than the class's weight, or has no value, with the least such class. One
/// tick. Takes no memory.
pub fn is_contracting<const F: u32, L: Ledger>(
    system: &System,
    _x: Fraction,
    values: &[u64],
    weights: &[u64],
    steps: &mut Steps<L>,
) -> Result<(), ClassId>
    requires fraction_bits { IsFractionBits F }
    requires one_per_class { length weights.now ≡ length system.now.bodies }
    requires one_value_per_node { length values.now ≡ length system.now.nodes }
    ensures ok { OnOk result (AreContracting (setting system.now _x.num _x.den F)
        (map Some values.now) weights.now) }
    ensures fault { IfErr result (λ class. IsFirstNotLess
        (body_slopes (setting system.now _x.num _x.den F) (map Some values.now) weights.now)
        weights.now class.0) }
    ensures ticks { steps.new ≡ steps.old + 1 }
{
    steps.tick();
    system.known();
    let mut room = [None; MOST_NODES];
    let derivatives = &mut room[..values.len()];
    fill_derivatives::<F>(system, values, weights, derivatives);
    test_slopes(system.bodies(), derivatives, weights)
}

/// Tests that each class's body has a derivative that is less than the class's weight.
fn test_slopes(
    bodies: &[ExprId],
    derivatives: &[Option<u64>],
    weights: &[u64],
) -> Result<(), ClassId>
    requires lengths { length weights.now ≡ length bodies.now }
    requires few { length weights.now ≤ 64 }
    requires bodies { Each (λ body. body < length derivatives.now) (map number bodies.now) }
    ensures ok { OnOk result (AllZip IsLess
        (map (value_at derivatives.now) (map number bodies.now)) weights.now) }
    ensures fault { IfErr result (λ class. IsFirstNotLess
        (map (value_at derivatives.now) (map number bodies.now)) weights.now class.0) }
{
    for c in 0..weights.len() {
        let slope = derivatives[bodies[c].0 as usize];
        if !is_less(slope, weights[c]) {
            return Err(ClassId(c as u32));
        }
    }
    Ok(())
}

/// There is a derivative, and it is less than the weight.
fn is_less(slope: Option<u64>, weight: u64) -> bool
    ensures { IsTrue result ↔ IsLess slope weight }
{
    match slope {
        Some(slope) => slope < weight,
        None => false,
    }
}

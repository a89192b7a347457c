//! How many sweeps the levels have, and upper sweeps in a row.
ghost use Rattle.std.specs.Prelude.{◌≡◌, ℕ, ◌+◌, ◌≤◌, length};
ghost use Rattle.bz_model.specs.Fraction.{IsFractionBits};
ghost use Rattle.rounded_map.specs.RoundedMap.{setting, repeated, sweep_up};
ghost use Rattle.oracle_memo.specs.Levels as levels;

use bz_model::fraction::Fraction;
use bz_model::steps::Steps;
use class_system::system::System;
use rounded_map::sweep_hi;
use std::sync::ledger::Ledger;

/// How many sweeps lead to a level from the start: `4^level`, and none to level 0.
pub(crate) fn sweeps_to(level: u8) -> u64
    requires level { level ≤ 6 }
    ensures sweeps { result ≡ levels.sweeps_at level }
{
    match level {
        0 => 0,
        1 => 4,
        2 => 16,
        3 => 64,
        4 => 256,
        5 => 1024,
        _ => 4096,
    }
}

/// So many upper sweeps. One tick for each. Takes no memory.
pub(crate) fn sweep_on<const F: u32, L: Ledger>(
    system: &System,
    x: Fraction,
    sweeps: u64,
    classes: &mut [u64],
    nodes: &mut [u64],
    steps: &mut Steps<L>,
)
    requires fraction_bits { IsFractionBits F }
    requires one_per_class { length classes.old ≡ length system.now.bodies }
    requires one_per_node { length nodes.old ≡ length system.now.nodes }
    ensures swept { classes.new ≡ repeated (sweep_up (setting system.now x.num x.den F)) sweeps
        classes.old }
    ensures ticks { steps.new ≡ steps.old + sweeps }
{
    for _sweep in 0..sweeps {
        sweep_hi::<F, L>(system, x, classes, nodes, steps);
    }
}

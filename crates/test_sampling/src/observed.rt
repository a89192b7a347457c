//! What the crates below make of a specification, at 48 fraction bits.
ghost use Rattle.std.specs.Prelude.{◌≡◌, ◌<◌, length};

use bz_model::fraction::Fraction;
use bz_model::steps::Steps;
use class_system::system::System;
use kleene_lower::Lower;
use newton_upper::propose;
use rounded_map::{eval_hi, eval_lo, is_post_fixed, sweep_dual, sweep_hi};
use std::alloc::Global;
use std::sync::ledger::{Blank, Ledger};
use std::test::Fail;
use well_founded::examination::Founded;

/// Tells the class vector after four lower sweeps and what is found at it, and an upper sweep from
/// a vector, which must be post-fixed.
pub fn observe<L: Ledger>(
    alloc: Global,
    system: &System,
    x: Fraction,
    post_fixed: &[u64],
    blank: Blank,
) -> Result<String, Fail>
    requires name { blank.name ≡ L.name }
    requires parts { blank.parts ≡ L.parts }
    requires some { 0 < L.parts }
{
    let mut steps = Steps::<L>::open(blank);
    let classes = four_sweeps(alloc, system, x, &mut steps)?;
    observe_at(alloc, system, x, &classes, post_fixed, &mut steps)
}

fn four_sweeps<L: Ledger>(
    alloc: Global,
    system: &System,
    x: Fraction,
    steps: &mut Steps<L>,
) -> Result<Vec<u64>, Fail> {
    let mut lower = Lower::<48>::new(alloc, system)?;
    lower.advance_to(system, x, 4, steps);
    Ok(Vec::from_slice(alloc, lower.values())?)
}

fn observe_at<L: Ledger>(
    alloc: Global,
    system: &System,
    x: Fraction,
    classes: &[u64],
    post_fixed: &[u64],
    steps: &mut Steps<L>,
) -> Result<String, Fail> {
    if classes.len() != system.bodies().len() || post_fixed.len() != system.bodies().len() {
        return Err(Fail::from("not one entry for each class"));
    }
    let mut text = format!(in alloc; "classes {classes:?}")?;
    tell_lower(alloc, system, x, classes, &mut text, steps)?;
    tell_upper(alloc, system, x, classes, &mut text, steps)?;
    tell_swept(alloc, system, x, post_fixed, &mut text, steps)?;
    Ok(text)
}

/// Tells the lower values of the nodes.
fn tell_lower<L: Ledger>(
    alloc: Global,
    system: &System,
    x: Fraction,
    classes: &[u64],
    text: &mut String,
    steps: &mut Steps<L>,
) -> Result<(), Fail>
    requires one_per_class { length classes.now ≡ length system.now.bodies }
{
    let mut lower = vec![in alloc; 0; system.nodes().len()]?;
    eval_lo::<48, L>(system, x, classes, &mut lower, steps);
    write!(text, " / lower {lower:?}")?;
    Ok(())
}

/// Tells the upper values of the nodes, the value of the first body that is above its entry, and
/// four dual vectors at the upper values.
fn tell_upper<L: Ledger>(
    alloc: Global,
    system: &System,
    x: Fraction,
    classes: &[u64],
    text: &mut String,
    steps: &mut Steps<L>,
) -> Result<(), Fail>
    requires one_per_class { length classes.now ≡ length system.now.bodies }
{
    let mut upper = vec![in alloc; 0; system.nodes().len()]?;
    if eval_hi::<48, L>(system, x, classes, &mut upper, steps).is_err() {
        return Err(Fail::from("an upper value is missing"));
    }
    write!(text, " / upper {upper:?}")?;
    tell_above(alloc, system, x, classes, text, steps)?;
    tell_duals(alloc, system, x, &upper, text, steps)
}

fn tell_above<L: Ledger>(
    alloc: Global,
    system: &System,
    x: Fraction,
    classes: &[u64],
    text: &mut String,
    steps: &mut Steps<L>,
) -> Result<(), Fail>
    requires one_per_class { length classes.now ≡ length system.now.bodies }
{
    let mut nodes = vec![in alloc; 0; system.nodes().len()]?;
    match is_post_fixed::<48, L>(system, x, classes, &mut nodes, steps) {
        Ok(()) => write!(text, " / post-fixed")?,
        Err(fault) => write!(text, " / above {:?}", fault.got)?,
    }
    Ok(())
}

fn tell_duals<L: Ledger>(
    alloc: Global,
    system: &System,
    x: Fraction,
    upper: &[u64],
    text: &mut String,
    steps: &mut Steps<L>,
) -> Result<(), Fail>
    requires one_per_node { length upper.now ≡ length system.now.nodes }
{
    let mut dual = vec![in alloc; 0; system.bodies().len()]?;
    let mut nodes = vec![in alloc; 0; system.nodes().len()]?;
    for _sweep in 0..4 {
        let there = sweep_dual::<48, L>(system, x, upper, &mut dual, &mut nodes, steps);
        write!(text, " / dual {there} {dual:?}")?;
    }
    Ok(())
}

/// Tells whether a vector is post-fixed, and the vector after an upper sweep from it.
fn tell_swept<L: Ledger>(
    alloc: Global,
    system: &System,
    x: Fraction,
    post_fixed: &[u64],
    text: &mut String,
    steps: &mut Steps<L>,
) -> Result<(), Fail>
    requires one_per_class { length post_fixed.now ≡ length system.now.bodies }
{
    tell_above(alloc, system, x, post_fixed, text, steps)?;
    let mut classes = Vec::from_slice(alloc, post_fixed)?;
    let mut nodes = vec![in alloc; 0; system.nodes().len()]?;
    sweep_hi::<48, L>(system, x, &mut classes, &mut nodes, steps);
    write!(text, " / swept {classes:?}")?;
    Ok(())
}

/// The entry of class 0 in the base at 52 fraction bits; `None` where there is no base.
pub fn first_entry<L: Ledger>(
    alloc: Global,
    founded: &Founded,
    x: Fraction,
    blank: Blank,
) -> Option<u64>
    requires name { blank.name ≡ L.name }
    requires parts { blank.parts ≡ L.parts }
    requires some { 0 < L.parts }
{
    let mut steps = Steps::<L>::open(blank);
    match propose::<52, L>(alloc, founded, x, &mut steps) {
        Ok(base) => base.values().first().copied(),
        Err(_) => None,
    }
}

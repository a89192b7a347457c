//! The filling of a table: passes from zero at each size.
//!
//! At one size the classes begin with no object. A pass computes the numbers of all nodes from
//! those of the classes, and the numbers of the classes' bodies are the next ones of the classes. A
//! pass that changes nothing ends the size. This is Kleene iteration for counts.
ghost use Rattle.std.specs.Prelude.{◌≡◌, ◌≢◌, ℕ, ◌+◌, ◌^◌, ◌<◌, ◌≤◌, ◌⊎◌, length, replicate};
ghost use Rattle.std.specs.Prelude.{slice_get, Some, IfSome, IfNone, IfOk, IfErr, OnOk};
ghost use Rattle.std.specs.Bool.{OnFalse};
ghost use Rattle.bz_laws.specs.Lists.{IsOneOf};
ghost use Rattle.bz_model.specs.Spec.{Node, node_at, body_of};
ghost use Rattle.bz_model.specs.Spec as model;
ghost use Rattle.rank_tables.specs.Capped.{Tells, IsSettled};
ghost use Rattle.rank_tables.specs.Filling.{IsGridOf, count_of_class, HasTails, IsPass};
ghost use Rattle.rank_tables.specs.Filling.{ChangesSize};
ghost use Rattle.rank_tables.specs.Filling.{IsFilledBelow};
ghost use Rattle.rank_tables.specs.Grids.{cell, number_at, AreSuffixes};
ghost use Rattle.rank_tables.specs.TableRule.{rule, IsRankable};
ghost use Rattle.rank_tables.specs.Visits.{product_parts};

use crate::capped::is_same;
use crate::grid::Grid;
use class_system::expr::Expr;
use class_system::ids::{ClassId, ExprId};
use class_system::system::System;
use std::alloc::{AllocError, Global};

/// The number of a node at a size, from those of its parts and those of the classes. A product's
/// tails are set on the way.
fn number_of_node(
    system: &System,
    rows: &Grid,
    tails: &mut Grid,
    classes: &[Option<u128>],
    e: ExprId,
    n: usize,
) -> Option<u128>
    requires node { e.0 < length system.now.nodes }
    requires unlabelled { system.now.mode ≡ model.Mode.Unlabelled }
    requires rows { IsGridOf system.now n rows.now }
    requires tails { IsGridOf system.now n tails.old }
    requires same_sizes { tails.old.sizes ≡ rows.now.sizes }
    requires classes { length classes.now ≡ length system.now.names }
    requires lesser { (m : ℕ) → m < n → AreSuffixes (number_at rows.now) tails.old (product_parts
        (node_at system.now e.0)) m }
    ensures number { (node : Node) → node_at system.now e.0 ≡ Some node → Tells result (rule
        (λ c m. count_of_class classes.now c) (number_at rows.now) e.0 node n) }
    ensures tails { AreSuffixes (number_at rows.now) tails.new (product_parts (node_at system.now
        e.0)) n }
    ensures nodes { tails.new.nodes ≡ tails.old.nodes }
    ensures sizes { tails.new.sizes ≡ tails.old.sizes }
    ensures others { (d m : ℕ) → m < tails.old.sizes → (¬ IsOneOf (product_parts (node_at
        system.now e.0)) d) ⊎ (m ≢ n) → cell tails.new d m ≡ cell tails.old d m }
{
    system.known();
    match system.node(e) {
        Expr::Empty(_) => Some(if n == 0 { 1 } else { 0 }),
        Expr::Atom(_) => Some(if n == 1 { 1 } else { 0 }),
        Expr::Class(c) => classes[c.0 as usize],
        Expr::Union(parts) => rows.sum_of_parts(parts.items(), n),
        Expr::Product(parts) => {
            let items = parts.items();
            tails.set_suffixes(rows, items, n);
            tails.at(items[0], n)
        }
        Expr::Seq(part) => rows.sequence(e, *part, n),
        Expr::Set(_) | Expr::Cyc(_) => unreachable!(),
    }
}

/// One pass at a size: the numbers of all nodes from those of the classes.
fn pass(system: &System, rows: &mut Grid, tails: &mut Grid, classes: &[Option<u128>], n: usize)
    requires unlabelled { system.now.mode ≡ model.Mode.Unlabelled }
    requires rows { IsGridOf system.now n rows.old }
    requires tails { IsGridOf system.now n tails.old }
    requires same_sizes { tails.old.sizes ≡ rows.old.sizes }
    requires classes { length classes.now ≡ length system.now.names }
    requires lesser { (m : ℕ) → m < n → HasTails system.now rows.old tails.old m }
    ensures passed { IsPass system.now classes.now rows.new tails.new n }
    ensures rows { ChangesSize n rows.old rows.new }
    ensures tails { ChangesSize n tails.old tails.new }
{
    system.known();
    for e in 0..system.node_count() {
        let number = number_of_node(system, rows, tails, classes, ExprId(e), n);
        rows.put(ExprId(e), n, number);
    }
}

/// Gives each class the number of its body at a size. False where each had it before.
fn take_bodies(system: &System, rows: &Grid, classes: &mut [Option<u128>], n: usize) -> bool
    requires rows { IsGridOf system.now n rows.now }
    requires classes { length classes.old ≡ length system.now.names }
    ensures taken { (c body : ℕ) → body_of system.now c ≡ Some body → slice_get classes.new c
        ≡ Some (cell rows.now body n) }
    ensures same { OnFalse result (classes.new ≡ classes.old) }
{
    system.known();
    let mut changed = false;
    for c in 0..system.class_count() {
        let number = rows.at(system.body(ClassId(c)), n);
        if !is_same(classes[c as usize], number) {
            classes[c as usize] = number;
            changed = true;
        }
    }
    changed
}

/// The first node whose number at a size passes `2^128 - 1`.
pub(crate) fn first_passing(rows: &Grid, nodes: u32, n: usize) -> Option<ExprId>
    requires nodes { nodes ≡ rows.now.nodes }
    requires size { n < rows.now.sizes }
    ensures found { IfSome result (λ e. (e.0 < nodes) × (2 ^ 128 ≤ number_at rows.now e.0 n)) }
    ensures first { IfSome result (λ e. (d : ℕ) → d < e.0 → number_at rows.now d n < 2 ^ 128) }
    ensures none { IfNone result ((d : ℕ) → d < nodes → number_at rows.now d n < 2 ^ 128) }
{
    for e in 0..nodes {
        if rows.at(ExprId(e), n).is_none() {
            return Some(ExprId(e));
        }
    }
    None
}

/// The number 0 for each class.
fn no_objects(alloc: Global, classes: u32) -> Result<Vec<Option<u128>>, AllocError>
    ensures { IfOk result (λ numbers. numbers.items ≡ replicate classes (Some 0)) }
{
    let mut numbers = Vec::new(alloc);
    for _c in 0..classes {
        numbers.push(Some(0))?;
    }
    Ok(numbers)
}

/// Settles a size: passes from no object on, until one changes nothing.
pub(crate) fn settle(
    alloc: Global,
    system: &System,
    rows: &mut Grid,
    tails: &mut Grid,
    n: usize,
) -> Result<(), AllocError>
    requires unlabelled { system.now.mode ≡ model.Mode.Unlabelled }
    requires rankable { IsRankable system.now }
    requires rows { IsGridOf system.now n rows.old }
    requires tails { IsGridOf system.now n tails.old }
    requires same_sizes { tails.old.sizes ≡ rows.old.sizes }
    requires filled { IsFilledBelow system.now rows.old tails.old n }
    ensures settled { OnOk result (IsSettled system.now (2 ^ 128) n (number_at rows.new)) }
    ensures tails { OnOk result (HasTails system.now rows.new tails.new n) }
    ensures other_rows { ChangesSize n rows.old rows.new }
    ensures other_tails { ChangesSize n tails.old tails.new }
{
    system.known();
    let mut classes = no_objects(alloc, system.class_count())?;
    'passes: for _ in 0..u64::MAX {
        pass(system, rows, tails, &classes, n);
        if !take_bodies(system, rows, &mut classes, n) {
            return Ok(());
        }
    }
    Err(AllocError)
}

//! The rank of an object, from the steps of a walk over its tokens, taken from the last to the
//! first.
//!
//! The calls give up where a stack is too short or a size too great, which the walk rules out.
ghost use Rattle.std.specs.Prelude.{◌≡◌, ℕ, ◌+◌, ◌-◌, ◌*◌, ◌<◌, ◌≤◌, List, map, length};
ghost use Rattle.std.specs.Prelude.{option_to_list, IfOk, OnOk};
ghost use Rattle.std.specs.List.{AllByRecursion};
ghost use Rattle.bz_model.specs.Spec as model;
ghost use Rattle.class_system.specs.Views.{number};
ghost use Rattle.object_store.specs.Tokens.{IsOf};
ghost use Rattle.rank_tables.specs.Capped.{Tells};
ghost use Rattle.rank_tables.specs.Grids.{number_at, TellRow, AreSuffixes};
ghost use Rattle.rank_tables.specs.RankSteps.{visit_of, step_at, AreStepsOf, IsTold, TellStack};
ghost use Rattle.rank_tables.specs.RankSteps.{IsFirstTold, IsJoined};
ghost use Rattle.rank_tables.specs.TableRule.{sum_below};
ghost use Rattle.rank_tables.specs.Unranking.{AreCountedGrids};
ghost use Rattle.rank_tables.specs.Visits.{Visit as model_visit};
ghost use Rattle.rank_tables.specs.Visits.{Told, whole_size, tuple_place, list_place, with_visit};
ghost use Rattle.rank_tables.specs.Visits.{all_visited};

use crate::capped::{plus, times};
use crate::grid::Grid;
use crate::places_stack::{Placed, PlacesStack};
use class_system::expr::Expr;
use class_system::ids::{ClassId, ExprId};
use class_system::system::System;
use object_store::shape::Shape;
use object_store::visit::Visit;
use object_store::walk::Next;
use std::alloc::{AllocError, Global};

/// A visit of an object's part. References make none.
#[derive(Clone, Copy, Debug)]
pub enum Step {
    /// A leaf, with its number of atoms.
    Leaf(usize),
    /// A union's node, with the option.
    Picked(ExprId, u32),
    /// A product's node.
    Tupled(ExprId),
    /// A sequence's node, with the number of parts.
    Listed(ExprId, u32),
}

/// The steps of an object of class 0, in preorder.
pub fn steps_of(alloc: Global, system: &System, shape: &Shape) -> Result<Vec<Step>, AllocError>
    requires unlabelled { system.now.mode ≡ model.Mode.Unlabelled }
    requires object { IsOf system.now 0 shape.now.items }
    ensures steps { IfOk result (λ steps. AreStepsOf system.now 0 shape.now.items steps.items) }
{
    system.known();
    let mut steps = Vec::new(alloc);
    let mut walk = shape.walk(system, ClassId(0))?;
    'nodes: loop {
        match walk.next()? {
            Next::Node(e, visit) => {
                if let Some(step) = step_of(e, visit) {
                    steps.push(step)?;
                }
            }
            Next::End => return Ok(steps),
            Next::NoObject => return Err(AllocError),
        }
    }
}

fn step_of(e: ExprId, visit: Visit) -> Option<Step>
    ensures { option_to_list result ≡ step_at e visit }
{
    match visit {
        Visit::Product => Some(Step::Tupled(e)),
        Visit::Empty => Some(Step::Leaf(0)),
        Visit::Atom => Some(Step::Leaf(1)),
        Visit::Union(option, _) => Some(Step::Picked(e, option)),
        Visit::Seq(parts, _) => Some(Step::Listed(e, parts)),
        Visit::Class(_) | Visit::Set(_, _) | Visit::Cyc(_, _) => None,
    }
}

/// The size and the place of the first object of some steps.
pub fn first_placed(
    alloc: Global,
    system: &System,
    counts: &Grid,
    tails: &Grid,
    steps: &[Step],
) -> Result<Placed, AllocError>
    requires counted { AreCountedGrids system.now counts.now tails.now }
    ensures first { IfOk result (λ p. IsFirstTold p (all_visited system.now (number_at counts.now)
        (map visit_of steps.now))) }
{
    let mut stack = PlacesStack::new(alloc);
    for i in (0..steps.len()).rev() {
        take_step(alloc, system, counts, tails, steps[i], &mut stack)?;
    }
    match stack.pop() {
        Some(first) => Ok(first),
        None => Err(AllocError),
    }
}

/// Takes one step after those behind it.
fn take_step(
    alloc: Global,
    system: &System,
    counts: &Grid,
    tails: &Grid,
    step: Step,
    stack: &mut PlacesStack,
) -> Result<(), AllocError>
    requires counted { AreCountedGrids system.now counts.now tails.now }
    ensures taken { OnOk result ((told : List Told) → TellStack stack.old told → TellStack stack.new
        (with_visit system.now (number_at counts.now) (visit_of step) told)) }
{
    match step {
        Step::Leaf(atoms) => {
            stack.push(Placed {
                size: atoms,
                place: Some(0),
            })?;
            Ok(())
        }
        Step::Picked(e, option) => take_pick(system, counts, e, option as usize, stack),
        Step::Tupled(e) => take_tuple(alloc, system, counts, tails, e, stack),
        Step::Listed(e, parts) => take_list(alloc, system, counts, e, parts as usize, stack),
    }
}

/// Makes the first object that of a union's option.
fn take_pick(
    system: &System,
    counts: &Grid,
    e: ExprId,
    option: usize,
    stack: &mut PlacesStack,
) -> Result<(), AllocError>
    requires nodes { counts.now.nodes ≡ length system.now.nodes }
    ensures taken { OnOk result ((told : List Told) → TellStack stack.old told
        → TellStack stack.new (with_visit system.now (number_at counts.now) (model_visit.Picked e.0
        option) told)) }
{
    system.known();
    let Some(part) = stack.pop() else {
        return Err(AllocError);
    };
    if e.0 >= system.node_count() {
        return Err(AllocError);
    }
    let Expr::Union(parts) = system.node(e) else {
        return Err(AllocError);
    };
    let options = parts.items();
    if option > options.len() || part.size >= counts.sizes() {
        return Err(AllocError);
    }
    let before = counts.sum_of_parts(&options[..option], part.size);
    stack.push(Placed {
        size: part.size,
        place: plus(before, part.place),
    })?;
    Ok(())
}

/// Makes the first objects the tuple of a product.
fn take_tuple(
    alloc: Global,
    system: &System,
    counts: &Grid,
    tails: &Grid,
    e: ExprId,
    stack: &mut PlacesStack,
) -> Result<(), AllocError>
    requires counted { AreCountedGrids system.now counts.now tails.now }
    ensures taken { OnOk result ((told : List Told) → TellStack stack.old told → TellStack stack.new
        (with_visit system.now (number_at counts.now) (model_visit.Tupled e.0) told)) }
{
    system.known();
    if e.0 >= system.node_count() {
        return Err(AllocError);
    }
    let Expr::Product(parts) = system.node(e) else {
        return Err(AllocError);
    };
    let items = parts.items();
    let objects = stack.take(alloc, items.len())?;
    let tuple = tuple_of(counts, tails, items, &objects)?;
    stack.push(tuple)?;
    Ok(())
}

/// Makes the first objects the list of a sequence.
fn take_list(
    alloc: Global,
    system: &System,
    counts: &Grid,
    e: ExprId,
    parts: usize,
    stack: &mut PlacesStack,
) -> Result<(), AllocError>
    requires nodes { counts.now.nodes ≡ length system.now.nodes }
    requires few { counts.now.sizes ≤ 501 }
    ensures taken { OnOk result ((told : List Told) → TellStack stack.old told → TellStack stack.new
        (with_visit system.now (number_at counts.now) (model_visit.Listed e.0 parts) told)) }
{
    system.known();
    if e.0 >= system.node_count() {
        return Err(AllocError);
    }
    let Expr::Seq(part) = system.node(e) else {
        return Err(AllocError);
    };
    let objects = stack.take(alloc, parts)?;
    let list = list_of(counts, e, *part, &objects)?;
    stack.push(list)?;
    Ok(())
}

/// The tuple of some objects, from the last one on.
fn tuple_of(
    counts: &Grid,
    tails: &Grid,
    parts: &[ExprId],
    objects: &[Placed],
) -> Result<Placed, AllocError>
    requires some { 0 < length parts.now }
    requires one_for_each { length objects.now ≡ length parts.now }
    requires nodes { AllByRecursion (λ p. p < counts.now.nodes) (map number parts.now) }
    requires tail_nodes { tails.now.nodes ≡ counts.now.nodes }
    requires tail_sizes { tails.now.sizes ≡ counts.now.sizes }
    requires few { counts.now.sizes ≤ 501 }
    requires tails { (m : ℕ) → m < counts.now.sizes → AreSuffixes (number_at counts.now) tails.now
        (map number parts.now) m }
    ensures whole { IfOk result (λ whole. (told : List Told) → TellStack objects.now told → IsTold
        whole (record {
          size = whole_size told;
          place = tuple_place (number_at counts.now) (map
              number parts.now) told;
        })) }
{
    let mut whole = objects[objects.len() - 1];
    for i in (0..parts.len() - 1).rev() {
        whole = joined(counts, parts[i], tails, parts[i + 1], objects[i], whole)?;
    }
    Ok(whole)
}

/// The list of some objects of a sequence's part, from the last one on.
fn list_of(counts: &Grid, e: ExprId, part: ExprId, objects: &[Placed]) -> Result<Placed, AllocError>
    requires node { e.0 < counts.now.nodes }
    requires part { part.0 < counts.now.nodes }
    requires few { counts.now.sizes ≤ 501 }
    ensures whole { IfOk result (λ whole. (told : List Told) → TellStack objects.now told → IsTold
        whole (record {
          size = whole_size told;
          place = list_place (number_at counts.now) e.0 part.0
              told;
        })) }
{
    let mut whole = Placed {
        size: 0,
        place: Some(0),
    };
    for i in (0..objects.len()).rev() {
        whole = joined(counts, part, counts, e, objects[i], whole)?;
    }
    Ok(whole)
}

/// A first object before others: those with a lesser first size, those with a first object of the
/// same size and a lesser place, and the place of the others.
fn joined(
    left: &Grid,
    e: ExprId,
    right: &Grid,
    d: ExprId,
    first: Placed,
    rest: Placed,
) -> Result<Placed, AllocError>
    requires node { e.0 < left.now.nodes }
    requires other_node { d.0 < right.now.nodes }
    requires same_sizes { right.now.sizes ≡ left.now.sizes }
    requires few { left.now.sizes ≤ 501 }
    ensures joined { IfOk result (λ whole. IsJoined left.now e.0 right.now d.0 first rest whole) }
{
    if first.size >= left.sizes() || rest.size >= left.sizes() - first.size {
        return Err(AllocError);
    }
    let size = first.size + rest.size;
    let before = left.sum_before(e, right, d, size, first.size);
    let lesser = times(first.place, right.at(d, rest.size));
    Ok(Placed {
        size,
        place: plus(plus(before, lesser), rest.place),
    })
}

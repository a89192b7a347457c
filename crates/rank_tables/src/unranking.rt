//! An object from its number, task by task.
//!
//! A task is an object of a node and a size, by its number. A union's task becomes that of a part,
//! a product's or a sequence's those of its parts, from left to right.
ghost use Rattle.std.specs.Prelude.{◌≡◌, ℕ, suc, ◌+◌, ◌-◌, ◌*◌, ◌<◌, ◌≤◌, map, length, IfOk, OnOk};
ghost use Rattle.std.specs.Prelude.{Some};
ghost use Rattle.std.specs.List.{AllByRecursion};
ghost use Rattle.bz_model.specs.Spec.{Spec};
ghost use Rattle.bz_model.specs.Spec as model;
ghost use Rattle.class_system.specs.Views.{number};
ghost use Rattle.rank_tables.specs.Grids.{number_at, AreSuffixes};
ghost use Rattle.rank_tables.specs.TableRule.{one_at, sum_below, tuples};
ghost use Rattle.rank_tables.specs.Unranking.{AreTupleTasks, AreListTasks, Fulfils, IsTask};
ghost use Rattle.rank_tables.specs.Unranking.{IsReplaced, AreCountedGrids};

use crate::grid::Grid;
use crate::splits::{find_part, split_number};
use crate::tasks::{Task, Tasks};
use class_system::expr::Expr;
use class_system::ids::ExprId;
use class_system::system::System;
use object_store::shape::Shape;
use object_store::token::Token;
use std::alloc::{AllocError, Global};

/// The object that a task tells.
pub fn made(
    alloc: Global,
    system: &System,
    counts: &Grid,
    tails: &Grid,
    task: Task,
) -> Result<Shape, AllocError>
    requires unlabelled { system.now.mode ≡ model.Mode.Unlabelled }
    requires counted { AreCountedGrids system.now counts.now tails.now }
    requires task { IsTask (length system.now.nodes) counts.now.sizes (number_at counts.now) task }
    ensures fulfils { IfOk result (λ shape. Fulfils system.now (number_at counts.now) task
        shape.items) }
{
    let mut tasks = Tasks::new(alloc);
    let mut shape = Shape::new(alloc);
    tasks.push(task)?;
    'steps: for _ in 0..u64::MAX {
        let Some(next) = tasks.pop() else {
            return Ok(shape);
        };
        replace(alloc, system, counts, tails, next, &mut tasks, &mut shape)?;
    }
    Err(AllocError)
}

/// Puts the tasks of an object's parts in the place of its own, after the token that comes before
/// them.
fn replace(
    alloc: Global,
    system: &System,
    counts: &Grid,
    tails: &Grid,
    task: Task,
    tasks: &mut Tasks,
    shape: &mut Shape,
) -> Result<(), AllocError>
    requires unlabelled { system.now.mode ≡ model.Mode.Unlabelled }
    requires counted { AreCountedGrids system.now counts.now tails.now }
    requires task { IsTask (length system.now.nodes) counts.now.sizes (number_at counts.now) task }
    ensures replaced { OnOk result (IsReplaced system.now counts.now.sizes (number_at counts.now)
        task tasks.old tasks.new shape.old.items shape.new.items) }
{
    system.known();
    match system.node(task.node) {
        Expr::Empty(_) => {
            shape.push(Token::Unit)?;
            Ok(())
        }
        Expr::Atom(_) => {
            shape.push(Token::Dot)?;
            Ok(())
        }
        Expr::Class(c) => {
            tasks.push(Task {
                node: system.body(*c),
                size: task.size,
                number: task.number,
            })?;
            Ok(())
        }
        Expr::Union(parts) => {
            let options = parts.items();
            let found = find_part(counts, options, task.size, task.number);
            shape.push(Token::Pick(found.option as u32))?;
            tasks.push(Task {
                node: options[found.option],
                size: task.size,
                number: found.number,
            })?;
            Ok(())
        }
        Expr::Product(parts) => {
            let objects = tuple_tasks(alloc, counts, tails, parts.items(), task.size, task.number)?;
            tasks.push_all(&objects)?;
            Ok(())
        }
        Expr::Seq(part) => {
            let objects = list_tasks(alloc, counts, task.node, *part, task.size, task.number)?;
            shape.push(Token::Count(objects.len() as u32))?;
            tasks.push_all(&objects)?;
            Ok(())
        }
        Expr::Set(_) | Expr::Cyc(_) => unreachable!(),
    }
}

/// The tasks of a tuple's objects, by its number at a size.
fn tuple_tasks(
    alloc: Global,
    counts: &Grid,
    tails: &Grid,
    parts: &[ExprId],
    n: usize,
    place: u128,
) -> Result<Vec<Task>, AllocError>
    requires some { 0 < length parts.now }
    requires size { n < counts.now.sizes }
    requires few { n ≤ 500 }
    requires nodes { AllByRecursion (λ p. p < counts.now.nodes) (map number parts.now) }
    requires tail_nodes { tails.now.nodes ≡ counts.now.nodes }
    requires tail_sizes { tails.now.sizes ≡ counts.now.sizes }
    requires tails { (m : ℕ) → m ≤ n → AreSuffixes (number_at counts.now) tails.now (map number
        parts.now) m }
    requires small { place < tuples (number_at counts.now) (map number parts.now) n }
    ensures tasks { (s : Spec) → IfOk result (λ tasks. AreTupleTasks s (number_at counts.now) (map
        number parts.now) n place tasks.items) }
{
    let mut tasks = Vec::new(alloc);
    let mut left = n;
    let mut rest = place;
    for i in 0..parts.len() - 1 {
        let split = split_number(counts, parts[i], tails, parts[i + 1], left, rest);
        tasks.push(Task {
            node: parts[i],
            size: split.first,
            number: split.place,
        })?;
        left -= split.first;
        rest = split.rest;
    }
    tasks.push(Task {
        node: parts[parts.len() - 1],
        size: left,
        number: rest,
    })?;
    Ok(tasks)
}

/// The tasks of a list's objects, by its number at a size in a sequence.
fn list_tasks(
    alloc: Global,
    counts: &Grid,
    e: ExprId,
    part: ExprId,
    n: usize,
    place: u128,
) -> Result<Vec<Task>, AllocError>
    requires node { e.0 < counts.now.nodes }
    requires part { part.0 < counts.now.nodes }
    requires size { n < counts.now.sizes }
    requires few { n ≤ 500 }
    requires none_there { number_at counts.now part.0 0 ≡ 0 }
    requires row { (m : ℕ) → m ≤ n → number_at counts.now e.0 m ≡ one_at 0 m + sum_below m
        (λ j. number_at counts.now part.0 (suc j) * number_at counts.now e.0 (m - suc j)) }
    requires small { place < number_at counts.now e.0 n }
    ensures tasks { (s : Spec) → IfOk result (λ tasks. AreListTasks s (number_at counts.now) e.0
        part.0 n place tasks.items) }
    ensures few { IfOk result (λ tasks. length tasks.items ≤ n) }
{
    let mut tasks = Vec::new(alloc);
    let mut left = n;
    let mut rest = place;
    'objects: while left > 0 {
        let split = split_number(counts, part, counts, e, left, rest);
        tasks.push(Task {
            node: part,
            size: split.first,
            number: split.place,
        })?;
        left -= split.first;
        rest = split.rest;
    }
    Ok(tasks)
}

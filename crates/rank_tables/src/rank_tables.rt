//! Counting tables, and ranks by them.
ghost use Rattle.std.specs.Prelude.{◌≡◌, ℕ, ◌^◌, ◌<◌, ◌≤◌, IfOk, IfErr, IfSome, IfNone, OnOk};
ghost use Rattle.std.specs.Prelude.{length};
ghost use Rattle.bz_model.specs.Spec.{Spec};
ghost use Rattle.bz_model.specs.Spec as model;
ghost use Rattle.bz_model.specs.WellFounded.{IsWellFounded};
ghost use Rattle.object_store.specs.Tokens.{size_of, IsOf};
ghost use Rattle.rank_tables.specs.RankOrder.{IsCount};
ghost use Rattle.rank_tables.specs.Refusals.{IsFirstNotPlain, HasPlainRanges, HasSmallCounts};
ghost use Rattle.rank_tables.specs.Shapes.{IsRankOf};
ghost use Rattle.rank_tables.specs.Tables.{AreCounts, TellsRankFault, IsNumberOf, count_told};

use crate::filling::{first_passing, settle};
use crate::grid::Grid;
use crate::rank_steps::{first_placed, steps_of};
use crate::tasks::Task;
use crate::unranking::made;
use class_system::draft::Mode;
use class_system::ids::{ClassId, ExprId};
use class_system::ranges::plain;
use class_system::system::System;
use object_store::shape::Shape;
use std::alloc::{AllocError, Global};
use std::marker::Model;
use well_founded::examination::Founded;

/// Why no table is made.
#[derive(Clone, Copy, Debug, Drop)]
pub enum RankFault {
    /// The specification is labelled.
    Labelled,
    /// The range of this node isn't plain, and that of each node before it is.
    Ranged(ExprId),
    /// The node has more than `2^128 - 1` objects of the size: the least size, then the least node.
    TooMany { node: ExprId, size: u64 },
    /// Memory ran out. This may come in place of any answer.
    OutOfMemory,
}

impl From<AllocError> for RankFault {
    ghost use Rattle.std.specs.Prelude.{◌≡◌};
    ghost use Rattle.rank_tables.specs.declared.rank_tables.RankFault.TheVariants.{OutOfMemory};

    ghost from_gives = { λ _ fault. fault ≡ OutOfMemory };

    fn from(_error: AllocError) -> RankFault {
        RankFault::OutOfMemory
    }
}

/// The counts of all nodes for the sizes up to a greatest one.
#[derive(Drop)]
pub struct RankTables {
    counts: Grid,
    tails: Grid,
}

impl Model for RankTables {
    ghost use Rattle.std.specs.Prelude.{◌≡◌};
    ghost use Rattle.rank_tables.specs.Tables.{Table, AreKnown};

    ghost Value = { Table };

    ghost view = { λ t. record { counts = t.counts; tails = t.tails } };

    ghost invariant = { λ t. AreKnown t.counts × (t.tails.nodes ≡ t.counts.nodes) × (t.tails.sizes
        ≡ t.counts.sizes) };
}

impl RankTables {
    /// Counts the objects of all nodes for the sizes up to `most`.
    ///
    /// Refused are labels, then ranges, then counts above `2^128 - 1`, of whichever node. Takes 34
    /// bytes for each node and size.
    pub fn make(alloc: Global, founded: &Founded, most: u64) -> Result<RankTables, RankFault>
        requires small { most ≤ 500 }
        ensures counts { IfOk result (AreCounts founded.now most) }
        ensures unlabelled { OnOk result (founded.now.mode ≡ model.Mode.Unlabelled) }
        ensures plain { OnOk result (HasPlainRanges founded.now) }
        ensures fits { OnOk result (HasSmallCounts founded.now most) }
        ensures fault { IfErr result (TellsRankFault founded.now most) }
    {
        let system = founded.system();
        if let Mode::Labelled = system.mode() {
            return Err(RankFault::Labelled);
        }
        if let Some(e) = first_ranged(system) {
            return Err(RankFault::Ranged(e));
        }
        founded.known();
        fill(alloc, system, most)
    }

    /// How many objects of the size the node has. Takes no memory.
    pub fn count(&self, e: ExprId, size: u64) -> u128
        requires node { e.0 < self.now.counts.nodes }
        requires size { size < self.now.counts.sizes }
        ensures told { result ≡ count_told self.now e.0 size }
        ensures count { (s : Spec) (most : ℕ) → AreCounts s most self.now → IsCount s e.0 size
            result }
    {
        let Some(number) = self.counts.at(e, size as usize) else {
            unreachable!()
        };
        number
    }

    /// How many objects of class 0 and of the shape's size come before the shape.
    pub fn rank(&self, founded: &Founded, shape: &Shape) -> Result<u128, AllocError>
        requires tables { (most : ℕ) × AreCounts founded.now most self.now × (size_of
            shape.now.items ≤ most) }
        requires object { IsOf founded.now 0 shape.now.items }
        ensures rank { IfOk result (IsRankOf founded.now 0 shape.now.items) }
    {
        founded.known();
        let system = founded.system();
        system.known();
        let alloc = self.counts.allocator();
        let steps = steps_of(alloc, system, shape)?;
        let first = first_placed(alloc, system, &self.counts, &self.tails, &steps)?;
        match first.place {
            Some(rank) => Ok(rank),
            None => Err(AllocError),
        }
    }

    /// The object of class 0 and this size before which so many come.
    ///
    /// No room is needed for the object's height: it is made task by task.
    pub fn unrank(&self, founded: &Founded, size: u64, number: u128) -> Result<Shape, AllocError>
        requires tables { (most : ℕ) × AreCounts founded.now most self.now × (size ≤ most) }
        requires below { IsNumberOf founded.now 0 size number }
        ensures size { IfOk result (λ shape. size_of shape.items ≡ size) }
        ensures rank { IfOk result (λ shape. IsRankOf founded.now 0 shape.items number) }
    {
        founded.known();
        let system = founded.system();
        system.known();
        let task = Task {
            node: system.body(ClassId(0)),
            size: size as usize,
            number,
        };
        made(
            self.counts.allocator(),
            system,
            &self.counts,
            &self.tails,
            task,
        )
    }
}

/// The first node whose range isn't the plain one.
fn first_ranged(system: &System) -> Option<ExprId>
    ensures found { IfSome result (λ e. IsFirstNotPlain system.now e.0) }
    ensures none { IfNone result (HasPlainRanges system.now) }
{
    system.known();
    for e in 0..system.node_count() {
        if system.range(ExprId(e)) != plain(system.node(ExprId(e))) {
            return Some(ExprId(e));
        }
    }
    None
}

/// Counts the objects of all nodes, size after size.
fn fill(alloc: Global, system: &System, most: u64) -> Result<RankTables, RankFault>
    requires small { most ≤ 500 }
    requires well_founded { IsWellFounded system.now }
    requires unlabelled { system.now.mode ≡ model.Mode.Unlabelled }
    requires plain { HasPlainRanges system.now }
    ensures counts { IfOk result (AreCounts system.now most) }
    ensures fits { OnOk result (HasSmallCounts system.now most) }
    ensures fault { IfErr result (TellsRankFault system.now most) }
{
    system.known();
    let nodes = system.node_count();
    let sizes = most as usize + 1;
    let mut counts = Grid::new(alloc, nodes as usize, sizes)?;
    let mut tails = Grid::new(alloc, nodes as usize, sizes)?;
    for n in 0..sizes {
        settle(alloc, system, &mut counts, &mut tails, n)?;
        if let Some(node) = first_passing(&counts, nodes, n) {
            return Err(RankFault::TooMany {
                node,
                size: n as u64,
            });
        }
    }
    Ok(RankTables { counts, tails })
}

//! Trees of counts: which labels remain.
ghost use Rattle.std.specs.Prelude.{◌≡◌, ℕ, ◌+◌, ◌^◌, ◌<◌, ◌≤◌, length, remove, slice_index};
ghost use Rattle.std.specs.Prelude.{count_by, nat_lt, IfOk};
ghost use Rattle.bz_model.specs.Labels.{numbers_from};
ghost use Rattle.labelling.specs.Tree.{nodes_in, count_of, labels_of, IsCountTree};

use std::alloc::{AllocError, Global};
use std::marker::Model;

/// The labels that remain, seen as their list, least first.
///
/// The leaves of a complete binary tree stand for the labels, and each node counts those that
/// remain below it. A tree for n labels takes fewer than 16 bytes for each, and 4 at least.
#[derive(Drop)]
pub struct LabelTree {
    counts: Vec<u32>,
    height: u32,
}

impl Model for LabelTree {
    ghost use Rattle.std.specs.Prelude.{ℕ, ◌≤◌, List};
    ghost use Rattle.labelling.specs.Tree.{labels_of, IsCountTree};

    ghost Value = { List ℕ };

    ghost view = { λ t. labels_of t.height t.counts.items 1 };

    ghost invariant = { λ t. (t.height ≤ 20) × IsCountTree t.height t.counts.items };
}

impl LabelTree {
    /// The tree in which the labels 1 to `n` remain.
    pub fn make(alloc: Global, n: u64) -> Result<LabelTree, AllocError>
        requires within_limit { n ≤ 1000000 }
        ensures all { IfOk result (λ tree. tree ≡ numbers_from 1 n) }
    {
        let height = height_for(n);
        let mut counts = vec![in alloc; 0u32; nodes_in(height)]?;
        fill(counts.as_mut_slice(), height, n);
        Ok(LabelTree { counts, height })
    }

    /// How many labels remain. Takes no memory.
    pub fn left(&self) -> u64
        ensures count { result ≡ length self.now }
    {
        u64::from(self.counts[0])
    }

    /// Removes and answers the label that has exactly `i` remaining labels below it. Takes no
    /// memory.
    pub fn take(&mut self, i: u64) -> u64
        requires in_range { i < length self.old }
        ensures label { result ≡ slice_index self.old i }
        ensures below { count_by (λ label. nat_lt label result) self.old ≡ i }
        ensures removed { self.new ≡ remove self.old i }
    {
        1 + take_from(self.counts.as_mut_slice(), self.height, i)
    }
}

/// The least height at which a tree has a leaf for each of `n` labels.
fn height_for(n: u64) -> u32
    requires { n ≤ 1000000 }
    ensures few { result ≤ 20 }
    ensures enough { n ≤ 2 ^ result }
    ensures least { (height : ℕ) → n ≤ 2 ^ height → result ≤ height }
{
    let mut height = 0;
    'heights: while leaves_in(height) < n {
        height += 1;
    }
    height
}

/// How many leaves a tree of this height has.
#[inline]
fn leaves_in(height: u32) -> u64
    requires { height ≤ 20 }
    ensures { result ≡ 2 ^ height }
{
    1 << height
}

/// How many nodes a tree of this height has.
#[inline]
fn nodes_in(height: u32) -> usize
    requires { height ≤ 20 }
    ensures { result ≡ nodes_in height }
{
    (2 * leaves_in(height) - 1) as usize
}

/// Makes a tree in which the labels of the first `n` leaves remain.
fn fill(counts: &mut [u32], height: u32, n: u64)
    requires height { height ≤ 20 }
    requires nodes { length counts.old ≡ nodes_in height }
    requires enough { n ≤ 2 ^ height }
    ensures tree { IsCountTree height counts.new }
    ensures count { count_of counts.new ≡ n }
    ensures labels { (first : ℕ) → labels_of height counts.new first ≡ numbers_from first n }
{
    let (root, halves) = counts.split_at_mut(1);
    root[0] = n as u32;
    if height > 0 {
        let in_left = n.min(leaves_in(height - 1));
        let (left, right) = halves.split_at_mut(nodes_in(height - 1));
        fill(left, height - 1, in_left);
        fill(right, height - 1, n - in_left);
    }
}

/// Removes the remaining label at place `i`, and answers how many leaves stand before it.
fn take_from(counts: &mut [u32], height: u32, i: u64) -> u64
    requires height { height ≤ 20 }
    requires tree { IsCountTree height counts.old }
    requires in_range { i < count_of counts.old }
    ensures tree { IsCountTree height counts.new }
    ensures count { count_of counts.new + 1 ≡ count_of counts.old }
    ensures within { result < 2 ^ height }
    ensures label { (first : ℕ)
        → first + result ≡ slice_index (labels_of height counts.old first) i }
    ensures removed { (first : ℕ) → labels_of height counts.new first
        ≡ remove (labels_of height counts.old first) i }
{
    let (root, halves) = counts.split_at_mut(1);
    root[0] -= 1;
    if height == 0 {
        return 0;
    }
    let (left, right) = halves.split_at_mut(nodes_in(height - 1));
    let in_left = u64::from(left[0]);
    if i < in_left {
        take_from(left, height - 1, i)
    } else {
        leaves_in(height - 1) + take_from(right, height - 1, i - in_left)
    }
}

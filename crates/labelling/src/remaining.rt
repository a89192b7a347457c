//! Which labels remain.
ghost use Rattle.std.specs.Prelude.{◌≡◌, ◌<◌, ◌≤◌, ◌⊎◌, ◌↔◌, length, remove, slice_index, IfOk};
ghost use Rattle.std.specs.Prelude.{IsTrue};
ghost use Rattle.bz_model.specs.Labels.{numbers_from};

use crate::tree::LabelTree;
use std::alloc::{AllocError, Global};
use std::marker::Model;

/// The most labels that are kept in a list.
const LISTED: u64 = 1024;

/// The labels that remain, seen as their list, least first.
///
/// Up to 1024 labels stand in a list, out of which one is taken by a short move of those after it.
/// More of them stand in a tree of counts. One of the two is empty.
#[derive(Drop)]
pub(crate) struct Remaining {
    list: Vec<u32>,
    tree: LabelTree,
}

impl Model for Remaining {
    ghost use Rattle.std.specs.Prelude.{ℕ, ◌++◌, List};

    ghost Value = { List ℕ };

    ghost view = { λ r. r.list.items ++ r.tree };
}

impl Remaining {
    /// The labels 1 to `n`. Takes all its memory.
    pub(crate) fn make(alloc: Global, n: u64) -> Result<Remaining, AllocError>
        requires within_limit { n ≤ 1000000 }
        ensures all { IfOk result (λ remaining. remaining ≡ numbers_from 1 n) }
    {
        let listed = listed_of(n);
        let list = first_numbers(alloc, listed)?;
        let tree = LabelTree::make(alloc, n - listed)?;
        Ok(Remaining { list, tree })
    }

    /// Whether no label remains. Takes no memory.
    pub(crate) fn is_empty(&self) -> bool
        ensures { IsTrue result ↔ (length self.now ≡ 0) }
    {
        self.list.len() == 0 && self.tree.left() == 0
    }

    /// Removes and answers the label that has exactly `i` remaining labels below it. Takes no
    /// memory.
    #[inline]
    pub(crate) fn take(&mut self, i: u64) -> u64
        requires in_range { i < length self.old }
        ensures label { result ≡ slice_index self.old i }
        ensures removed { self.new ≡ remove self.old i }
    {
        let listed = self.list.len() as u64;
        if i < listed {
            u64::from(self.list.remove(i as usize))
        } else {
            self.tree.take(i - listed)
        }
    }
}

/// How many of `n` labels stand in a list: all, where they are few, and else none.
fn listed_of(n: u64) -> u64
    ensures all_or_none { (result ≡ n) ⊎ (result ≡ 0) }
    ensures few { result ≤ 1024 }
    ensures most { result ≤ n }
{
    if n <= LISTED { n } else { 0 }
}

/// The numbers 1 to `n`.
fn first_numbers(alloc: Global, n: u64) -> Result<Vec<u32>, AllocError>
    requires few { n ≤ 1024 }
    ensures numbers { IfOk result (λ list. list.items ≡ numbers_from 1 n) }
{
    let mut list = Vec::with_capacity(alloc, n as usize)?;
    for before in 0..n {
        list.push_reserved(before as u32 + 1);
    }
    Ok(list)
}

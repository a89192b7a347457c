//! Nodes that wait to be visited, with spare room.
ghost use Rattle.std.specs.Prelude.{◌≡◌, ◌≢◌, ◌+◌, ◌-◌, ◌<◌, ◌≤◌, [], ◌∷◌, ◌++◌, map, length, replicate};
ghost use Rattle.std.specs.Prelude.{option_map, option_to_list, IsOk, OnOk, OnErr, IfNone, IsTrue};
ghost use Rattle.std.specs.Prelude.{◌↔◌, IsFalse, Some, slice_get, ℕ, List};
ghost use Rattle.class_system.specs.Views.{number};

use class_system::ids::ExprId;
use std::alloc::{AllocError, Global};
use std::marker::Model;

/// A node so many times in a row.
#[derive(Clone, Copy, Debug)]
pub struct Run {
    pub node: ExprId,
    pub times: u32,
}

/// The numbers of the nodes that wait, the next one first, and how many more runs of equal nodes
/// may be put in front without a refusal.
///
/// A node that waits a million times takes the memory of one.
#[derive(Drop)]
pub struct Pending {
    runs: Vec<Run>,
}

impl Model for Pending {
    ghost use Rattle.std.specs.Prelude.{ℕ, ◌-◌, vec_len, vec_capacity};
    ghost use Rattle.bz_model.specs.Roomy.{Roomy};
    ghost use Rattle.object_store.specs.Runs.{unrolled, HaveSome};

    ghost Value = { Roomy ℕ };

    ghost view = { λ p. record {
      items = unrolled p.runs.items;
      spare =
          vec_capacity p.runs - vec_len p.runs;
    } };

    ghost invariant = { λ p. HaveSome p.runs.items };
}

impl Pending {
    /// Nothing waits.
    pub fn new(alloc: Global) -> Pending
        ensures { result.items ≡ [] }
    {
        Pending {
            runs: Vec::new(alloc),
        }
    }

    /// Takes memory for at least `more` further runs. What waits stays as it was in any case.
    #[inline(always)]
    pub fn reserve(&mut self, more: usize) -> Result<(), AllocError>
        ensures items { self.new.items ≡ self.old.items }
        ensures spare { OnOk result (more ≤ self.new.spare) }
    {
        self.runs.reserve(more)
    }

    /// Forgets all that waits. Gives no memory back.
    #[inline(always)]
    pub fn clear(&mut self)
        ensures items { self.new.items ≡ [] }
        ensures spare { self.old.spare ≤ self.new.spare }
    {
        self.runs.clear();
    }

    /// Whether nothing waits. Takes no memory.
    #[inline(always)]
    pub fn is_empty(&self) -> bool
        ensures { IsTrue result ↔ (self.now.items ≡ []) }
    {
        self.first().is_none()
    }

    /// Whether nodes wait after the next one. Takes no memory.
    #[inline(always)]
    pub fn has_more(&self) -> bool
        ensures { IsTrue result ↔ (1 < length self.now.items) }
    {
        match self.runs.last() {
            Some(run) => run.times > 1 || self.runs.len() > 1,
            None => false,
        }
    }

    /// The next node; None exactly where nothing waits. Takes no memory.
    #[inline(always)]
    pub fn first(&self) -> Option<ExprId>
        ensures { option_map number result ≡ slice_get self.now.items 0 }
    {
        let run = self.runs.last()?;
        Some(run.node)
    }

    /// Takes the next node; None exactly where nothing waits. Takes no memory.
    #[inline(always)]
    pub fn pop(&mut self) -> Option<ExprId>
        ensures items { self.old.items ≡ option_to_list (option_map number result)
            ++ self.new.items }
        ensures none { IfNone result (self.old.items ≡ []) }
        ensures spare { self.old.spare ≤ self.new.spare }
    {
        let Run { node, times } = self.runs.pop()?;
        if times > 1 {
            self.runs.push_reserved(Run {
                node,
                times: times - 1,
            });
        }
        Some(node)
    }

    /// Takes away next nodes that are equal, at most `most` of them, and leaves at least one node
    /// waiting. Answers how many: none only where no other node waits after the next one, or `most`
    /// is 0. Takes no memory.
    #[inline(always)]
    pub fn pop_equal(&mut self, most: u32) -> u32
        ensures most { result ≤ most }
        ensures some { 1 < length self.old.items → 0 < most → 0 < result }
        ensures items { (first : ℕ) → slice_get self.old.items 0 ≡ Some first
            → self.old.items ≡ replicate result first ++ self.new.items }
        ensures waits { 0 < result → self.new.items ≢ [] }
        ensures nothing { self.old.items ≡ [] → (result ≡ 0) × (self.new.items ≡ []) }
    {
        let Some(Run { node, times }) = self.runs.pop() else {
            return 0;
        };
        let taken = free_of(times, self.runs.as_slice().is_empty()).min(most);
        if taken < times {
            self.runs.push_reserved(Run {
                node,
                times: times - taken,
            });
        }
        taken
    }

    /// Puts a node in front, so many times.
    ///
    /// A refusal leaves what waits as it was, and none comes where there is spare room.
    #[inline(always)]
    pub fn push(&mut self, node: ExprId, times: u32) -> Result<(), AllocError>
        ensures ok { OnOk result (self.new.items ≡ replicate times node.0 ++ self.old.items) }
        ensures err { OnErr result (self.new.items ≡ self.old.items) }
        ensures room { 0 < self.old.spare → IsOk result }
        ensures spare { self.old.spare ≤ self.new.spare + 1 }
    {
        if times > 0 {
            self.runs.push(Run { node, times })?;
        }
        Ok(())
    }

    /// Puts nodes in front, in their order.
    ///
    /// A refusal may leave some of them there, and none comes where there is spare room for each.
    #[inline(always)]
    pub fn push_all(&mut self, nodes: &[ExprId]) -> Result<(), AllocError>
        ensures ok { OnOk result (self.new.items ≡ map number nodes.now ++ self.old.items) }
        ensures room { length nodes.now ≤ self.old.spare → IsOk result }
    {
        for i in (0..nodes.len()).rev() {
            self.push(nodes[i], 1)?;
        }
        Ok(())
    }

    /// Puts nodes in the place of the first, in their order. A refusal leaves what waits as it was.
    pub fn replace_first(&mut self, nodes: &[ExprId]) -> Result<(), AllocError>
        ensures ok { OnOk result ((first : ℕ) (rest : List ℕ) → self.old.items ≡ first ∷ rest
            → self.new.items ≡ map number nodes.now ++ rest) }
        ensures err { OnErr result (self.new.items ≡ self.old.items) }
    {
        self.reserve(nodes.len())?;
        let _first = self.pop();
        match self.push_all(nodes) {
            Ok(()) => Ok(()),
            Err(_) => unreachable!(),
        }
    }

    /// Puts a node so many times in the place of the first. A refusal leaves what waits as it was.
    pub fn repeat_first(&mut self, node: ExprId, times: u32) -> Result<(), AllocError>
        ensures ok { OnOk result ((first : ℕ) (rest : List ℕ) → self.old.items ≡ first ∷ rest
            → self.new.items ≡ replicate times node.0 ++ rest) }
        ensures err { OnErr result (self.new.items ≡ self.old.items) }
    {
        self.reserve(1)?;
        let _first = self.pop();
        match self.push(node, times) {
            Ok(()) => Ok(()),
            Err(_) => unreachable!(),
        }
    }
}

/// How many nodes of a run may be taken: all but one where it is the only run.
#[inline(always)]
fn free_of(times: u32, alone: bool) -> u32
    requires some { 0 < times }
    ensures alone { IsTrue alone → result ≡ times - 1 }
    ensures among { IsFalse alone → result ≡ times }
    ensures few { result ≤ times }
{
    if alone { times - 1 } else { times }
}

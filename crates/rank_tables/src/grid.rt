//! Numbers of nodes and sizes in the making, each of which may pass `2^128 - 1`.
ghost use Rattle.std.specs.Prelude.{◌≡◌, ◌≢◌, ℕ, suc, ◌+◌, ◌-◌, ◌*◌, ◌^◌, ◌<◌, ◌≤◌, ◌⊎◌, IfOk, map};
ghost use Rattle.std.specs.Prelude.{sum_by};
ghost use Rattle.std.specs.List.{AllByRecursion};
ghost use Rattle.bz_model.specs.Totals.{IsDistinct};
ghost use Rattle.bz_laws.specs.Lists.{IsOneOf};
ghost use Rattle.class_system.specs.Views.{number};
ghost use Rattle.rank_tables.specs.Capped.{Tells};
ghost use Rattle.rank_tables.specs.Grids.{known_number, cell, number_of, number_at, TellRow};
ghost use Rattle.rank_tables.specs.Grids.{AreSuffixes};
ghost use Rattle.rank_tables.specs.TableRule.{one_at, sum_below};

use crate::capped::{plus, times};
use class_system::ids::ExprId;
use std::alloc::{AllocError, Global};
use std::marker::Model;

/// For each node one number for each size from 0 on.
///
/// The numbers and whether each is known stand apart, so that a number takes 17 bytes.
#[derive(Drop)]
pub struct Grid {
    known: Vec<bool>,
    numbers: Vec<u128>,
    nodes: usize,
    sizes: usize,
}

impl Model for Grid {
    ghost use Rattle.std.specs.Prelude.{◌≡◌, ◌*◌, length};
    ghost use Rattle.rank_tables.specs.Grids.{Cells, known_numbers};

    ghost Value = { Cells };

    ghost view = { λ g. record {
      cells = known_numbers g.known.items g.numbers.items;
      nodes = g.nodes;
      sizes = g.sizes;
    } };

    ghost invariant = { λ g. (length g.known.items ≡ g.nodes * g.sizes)
        × (length g.numbers.items ≡ g.nodes * g.sizes) };
}

/// A number from whether it is known and what it is then.
fn number_of_parts(known: bool, plain: u128) -> Option<u128>
    ensures exact { result ≡ known_number known plain }
    ensures small { number_of result ≤ 2 ^ 128 }
{
    if known { Some(plain) } else { None }
}

/// Whether a number is known, and what it is then.
fn parts_of_number(number: Option<u128>) -> (bool, u128)
    ensures { known_number result.0 result.1 ≡ number }
{
    match number {
        Some(plain) => (true, plain),
        None => (false, 0),
    }
}

impl Grid {
    /// So many nodes and sizes, each number 0.
    pub fn new(alloc: Global, nodes: usize, sizes: usize) -> Result<Grid, AllocError>
        requires nodes { nodes ≤ 512 }
        requires sizes { sizes ≤ 501 }
        ensures nodes { IfOk result (λ grid. grid.nodes ≡ nodes) }
        ensures sizes { IfOk result (λ grid. grid.sizes ≡ sizes) }
    {
        let known = vec![in alloc; true; nodes * sizes]?;
        let numbers = vec![in alloc; 0; nodes * sizes]?;
        Ok(Grid {
            known,
            numbers,
            nodes,
            sizes,
        })
    }

    /// Where the grid takes its memory from.
    pub fn allocator(&self) -> Global {
        *self.numbers.allocator()
    }

    /// The number of a node at a size. Takes no memory.
    pub fn at(&self, e: ExprId, n: usize) -> Option<u128>
        requires node { e.0 < self.now.nodes }
        requires size { n < self.now.sizes }
        ensures exact { result ≡ cell self.now e.0 n }
        ensures small { number_of result ≤ 2 ^ 128 }
    {
        let place = e.0 as usize * self.sizes + n;
        number_of_parts(self.known[place], self.numbers[place])
    }

    /// Changes the number of a node at a size, and no other. Takes no memory.
    pub fn put(&mut self, e: ExprId, n: usize, number: Option<u128>)
        requires node { e.0 < self.old.nodes }
        requires size { n < self.old.sizes }
        ensures nodes { self.new.nodes ≡ self.old.nodes }
        ensures sizes { self.new.sizes ≡ self.old.sizes }
        ensures here { cell self.new e.0 n ≡ number }
        ensures others { (d m : ℕ) → m < self.old.sizes → (d ≢ e.0) ⊎ (m ≢ n) → cell self.new d m
            ≡ cell self.old d m }
    {
        let place = e.0 as usize * self.sizes + n;
        let (known, plain) = parts_of_number(number);
        self.known[place] = known;
        self.numbers[place] = plain;
    }

    /// How many sizes there are. Takes no memory.
    pub fn sizes(&self) -> usize
        ensures { result ≡ self.now.sizes }
    {
        self.sizes
    }

    /// The sum over the first so many j of the number of a node at j times that of another grid's
    /// node at n - j. Takes no memory.
    pub fn sum_before(
        &self,
        e: ExprId,
        other: &Grid,
        d: ExprId,
        n: usize,
        terms: usize,
    ) -> Option<u128>
        requires node { e.0 < self.now.nodes }
        requires size { n < self.now.sizes }
        requires other_node { d.0 < other.now.nodes }
        requires other_size { n < other.now.sizes }
        requires within { terms ≤ n + 1 }
        ensures { (f g : ℕ → ℕ) → TellRow self.now e.0 n f → TellRow other.now d.0 n g
            → Tells result (sum_below terms (λ j. f j * g (n - j))) }
    {
        let mut sum = Some(0);
        for j in 0..terms {
            sum = plus(sum, times(self.at(e, j), other.at(d, n - j)));
        }
        sum
    }

    /// The sum over j from 0 to n of the number of a node at j times that of another grid's node at
    /// n - j. Takes no memory.
    pub fn sum_of_products(&self, e: ExprId, other: &Grid, d: ExprId, n: usize) -> Option<u128>
        requires node { e.0 < self.now.nodes }
        requires size { n < self.now.sizes }
        requires other_node { d.0 < other.now.nodes }
        requires other_size { n < other.now.sizes }
        requires few { n ≤ 500 }
        ensures { (f g : ℕ → ℕ) → TellRow self.now e.0 n f → TellRow other.now d.0 n g
            → Tells result (sum_below (suc n) (λ j. f j * g (n - j))) }
    {
        self.sum_before(e, other, d, n, n + 1)
    }

    /// The sum of the numbers of some nodes at a size. Takes no memory.
    pub fn sum_of_parts(&self, parts: &[ExprId], n: usize) -> Option<u128>
        requires size { n < self.now.sizes }
        requires nodes { AllByRecursion (λ p. p < self.now.nodes) (map number parts.now) }
        ensures { Tells result (sum_by (λ p. number_at self.now p n) (map number parts.now)) }
    {
        let mut sum = Some(0);
        for part in parts {
            sum = plus(sum, self.at(*part, n));
        }
        sum
    }

    /// The number of a sequence of a part at a size, from its own at lesser sizes. Takes no memory.
    pub fn sequence(&self, e: ExprId, part: ExprId, n: usize) -> Option<u128>
        requires node { e.0 < self.now.nodes }
        requires part { part.0 < self.now.nodes }
        requires size { n < self.now.sizes }
        requires few { n ≤ 500 }
        ensures { Tells result (one_at 0 n + sum_below n (λ j. number_at self.now part.0 (suc j)
            * number_at self.now e.0 (n - suc j))) }
    {
        let mut sum = if n == 0 { Some(1) } else { Some(0) };
        for j in 0..n {
            sum = plus(sum, times(self.at(part, j + 1), self.at(e, n - (j + 1))));
        }
        sum
    }

    /// Sets, for each part of a product, the number at size n of the lists of one object of this
    /// part and of each part behind it, from the last part on. Takes no memory.
    pub fn set_suffixes(&mut self, rows: &Grid, parts: &[ExprId], n: usize)
        requires nodes { self.old.nodes ≡ rows.now.nodes }
        requires size { n < rows.now.sizes }
        requires own_size { n < self.old.sizes }
        requires few { n ≤ 500 }
        requires parts { AllByRecursion (λ p. p < rows.now.nodes) (map number parts.now) }
        requires apart { IsDistinct (map number parts.now) }
        requires lesser { (m : ℕ) → m < n → AreSuffixes (number_at rows.now) self.old (map number
            parts.now) m }
        ensures nodes { self.new.nodes ≡ self.old.nodes }
        ensures sizes { self.new.sizes ≡ self.old.sizes }
        ensures suffixes { AreSuffixes (number_at rows.now) self.new (map number parts.now) n }
        ensures others { (d m : ℕ) → m < self.old.sizes → (¬ IsOneOf (map number parts.now) d) ⊎ (m
            ≢ n) → cell self.new d m ≡ cell self.old d m }
    {
        let mut i = parts.len();
        while i > 0 {
            i -= 1;
            let number = if i + 1 < parts.len() {
                rows.sum_of_products(parts[i], self, parts[i + 1], n)
            } else {
                rows.at(parts[i], n)
            };
            self.put(parts[i], n, number);
        }
    }
}

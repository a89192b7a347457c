//! How a number comes apart: into a size and two lesser numbers, or into an option and a lesser
//! one.
ghost use Rattle.std.specs.Prelude.{◌≡◌, ℕ, suc, ◌+◌, ◌-◌, ◌*◌, ◌<◌, ◌≤◌, map, length, sum_by};
ghost use Rattle.std.specs.List.{AllByRecursion};
ghost use Rattle.class_system.specs.Views.{number};
ghost use Rattle.rank_tables.specs.Capped.{Tells};
ghost use Rattle.rank_tables.specs.Grids.{number_at, TellRow};
ghost use Rattle.rank_tables.specs.TableRule.{sum_below};
ghost use Rattle.rank_tables.specs.Unranking.{IsSplit, IsFound};

use crate::capped::times;
use crate::grid::Grid;
use class_system::ids::ExprId;

/// The size of a first object, its number, and that of the rest.
#[derive(Clone, Copy, Debug)]
pub struct Split {
    pub first: usize,
    pub place: u128,
    pub rest: u128,
}

/// The option of a union, and the number in its part.
#[derive(Clone, Copy, Debug)]
pub struct Found {
    pub option: usize,
    pub number: u128,
}

/// The first size whose term reaches a number, in the sum over j from 0 to n of the number of a
/// node at j times that of another grid's node at n - j. Takes no memory.
///
/// Where the number isn't below the sum nothing is said.
pub fn split_number(
    left: &Grid,
    e: ExprId,
    right: &Grid,
    d: ExprId,
    n: usize,
    number: u128,
) -> Split
    requires node { e.0 < left.now.nodes }
    requires size { n < left.now.sizes }
    requires other_node { d.0 < right.now.nodes }
    requires other_size { n < right.now.sizes }
    requires few { n ≤ 500 }
    ensures { (f g : ℕ → ℕ) → TellRow left.now e.0 n f → TellRow right.now d.0 n g → number
        < sum_below (suc n) (λ j. f j * g (n - j)) → IsSplit f g n number result }
{
    let mut more = number;
    for j in 0..n + 1 {
        let rests = right.at(d, n - j);
        match times(left.at(e, j), rests) {
            Some(term) if term <= more => more -= term,
            _ => return divide(j, more, rests),
        }
    }
    Split {
        first: 0,
        place: 0,
        rest: 0,
    }
}

/// The number of a first object of a size, and that of the rest, where each first object has so
/// many rests. A number of rests that passes is above every number.
fn divide(first: usize, number: u128, rests: Option<u128>) -> Split
    ensures first { result.first ≡ first }
    ensures divided { (a b : ℕ) → Tells rests b → number < a * b → (result.place < a)
        × (result.rest < b) × (number ≡ result.place * b + result.rest) }
{
    match rests {
        Some(count) if count > 0 => Split {
            first,
            place: number / count,
            rest: number % count,
        },
        _ => Split {
            first,
            place: 0,
            rest: number,
        },
    }
}

/// The option, and the number in its part.
fn found_at(option: usize, number: u128) -> Found
    ensures { result ≡ record { option = option; number = number } }
{
    Found { option, number }
}

/// The part of a union in which a number lies, at a size. Takes no memory.
///
/// Where the number isn't below the sum of the parts' numbers nothing is said.
pub fn find_part(counts: &Grid, parts: &[ExprId], n: usize, place: u128) -> Found
    requires size { n < counts.now.sizes }
    requires nodes { AllByRecursion (λ p. p < counts.now.nodes) (map number parts.now) }
    ensures { place < sum_by (λ p. number_at counts.now p n) (map number parts.now) → IsFound
        (λ p. number_at counts.now p n) (map number parts.now) place result }
{
    let mut more = place;
    for option in 0..parts.len() {
        match counts.at(parts[option], n) {
            Some(count) if count <= more => more -= count,
            _ => return found_at(option, more),
        }
    }
    Found {
        option: 0,
        number: 0,
    }
}

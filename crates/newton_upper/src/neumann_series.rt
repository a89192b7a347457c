//! Two vectors that are raised by a matrix and its powers.
ghost use Rattle.std.specs.Prelude.{◌≡◌, ℕ, ◌≤◌, length, IfOk, IfSome};
ghost use Rattle.bz_model.specs.Fraction.{IsFractionBits};
ghost use Rattle.newton_upper.specs.Newton as newton;
ghost use Rattle.newton_upper.specs.Newton.{IsSquare};
ghost use Rattle.newton_upper.specs.Fitting.{AreSums};

use crate::matrix::Matrix;
use crate::sweeps::sum_of_vectors;
use crate::values::Values;
use std::alloc::{AllocError, Global};

/// How often the matrix is squared.
const SQUARINGS: u32 = 23;

/// A matrix, and the two vectors that it and those before it have raised.
#[derive(Drop)]
pub(crate) struct Sums {
    pub(crate) matrix: Matrix,
    pub(crate) gap: Values,
    pub(crate) margin: Values,
}

/// The vectors raised by the matrix, its square, the square's square and so on, 24 in all.
///
/// None exactly where a number has no value.
pub(crate) fn newton_sums<const F: u32>(
    alloc: Global,
    matrix: Matrix,
    gap: &[u64],
    margin: &[u64],
) -> Result<Option<Sums>, AllocError>
    requires fraction_bits { IsFractionBits F }
    requires square { IsSquare (length gap.now) matrix }
    requires lengths { length margin.now ≡ length gap.now }
    ensures exact { IfOk result (λ o. o ≡ newton.newton_sums F matrix gap.now margin.now) }
    ensures fitting { IfOk result (λ o. IfSome o (AreSums (length gap.now))) }
{
    let Some(mut sums) = raised_by::<F>(alloc, matrix, gap, margin)? else {
        return Ok(None);
    };
    for _k in 0..SQUARINGS {
        let Some(next) = next_sums::<F>(alloc, &sums)? else {
            return Ok(None);
        };
        sums = next;
    }
    Ok(Some(sums))
}

/// The vectors raised by the square of the matrix.
fn next_sums<const F: u32>(alloc: Global, sums: &Sums) -> Result<Option<Sums>, AllocError>
    requires fraction_bits { IsFractionBits F }
    requires fitting { AreSums (length sums.now.gap) sums.now }
    ensures exact { IfOk result (λ o. o ≡ newton.next_sums F sums.now) }
    ensures fitting { IfOk result (λ o. IfSome o (AreSums (length sums.now.gap))) }
{
    let Some(matrix) = sums.matrix.squared::<F>(alloc)? else {
        return Ok(None);
    };
    raised_by::<F>(alloc, matrix, sums.gap.items(), sums.margin.items())
}

/// The vectors raised by the matrix.
fn raised_by<const F: u32>(
    alloc: Global,
    matrix: Matrix,
    gap: &[u64],
    margin: &[u64],
) -> Result<Option<Sums>, AllocError>
    requires fraction_bits { IsFractionBits F }
    requires square { IsSquare (length gap.now) matrix }
    requires lengths { length margin.now ≡ length gap.now }
    ensures exact { IfOk result (λ o. o ≡ newton.raised_by F matrix gap.now margin.now) }
    ensures fitting { IfOk result (λ o. IfSome o (AreSums (length gap.now))) }
{
    let Some(gap) = plus_times::<F>(alloc, &matrix, gap)? else {
        return Ok(None);
    };
    let Some(margin) = plus_times::<F>(alloc, &matrix, margin)? else {
        return Ok(None);
    };
    Ok(Some(Sums {
        matrix,
        gap,
        margin,
    }))
}

/// The vector and the matrix times it, added.
fn plus_times<const F: u32>(
    alloc: Global,
    matrix: &Matrix,
    vector: &[u64],
) -> Result<Option<Values>, AllocError>
    requires fraction_bits { IsFractionBits F }
    requires square { IsSquare (length vector.now) matrix.now }
    ensures exact { IfOk result (λ o. o ≡ newton.plus_times F matrix.now vector.now) }
    ensures length { IfOk result (λ o. IfSome o (λ v. length v ≡ length vector.now)) }
{
    let Some(product) = matrix.times::<F>(alloc, vector)? else {
        return Ok(None);
    };
    sum_of_vectors(alloc, vector, product.items())
}

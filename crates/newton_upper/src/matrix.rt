//! Square matrices of upper values, kept by columns.
ghost use Rattle.std.specs.Prelude.{◌≡◌, ℕ, ◌<◌, ◌≤◌, [], ◌∷◌, ◌++◌, length, IfOk, IfSome, OnOk};
ghost use Rattle.bz_model.specs.Fraction.{IsFractionBits};
ghost use Rattle.fixed_enclosure.specs.Rounded.{of_both, add_up, mul_up};
ghost use Rattle.newton_upper.specs.Newton as newton;
ghost use Rattle.newton_upper.specs.Newton.{IsSquare};

use crate::values::Values;
use fixed_enclosure::Hi;
use std::alloc::{AllocError, Global};
use std::marker::Model;

/// A matrix, seen as the list of its columns.
#[derive(Drop)]
pub(crate) struct Matrix {
    columns: Vec<Values>,
}

impl Model for Matrix {
    ghost use Rattle.std.specs.Prelude.{ℕ, List};

    ghost Value = { List (List ℕ) };

    ghost view = { λ m. m.columns.items };
}

impl Matrix {
    /// The matrix without columns.
    pub(crate) fn new(alloc: Global) -> Matrix
        ensures empty { result ≡ [] }
    {
        Matrix {
            columns: Vec::new(alloc),
        }
    }

    /// Appends a column.
    pub(crate) fn push(&mut self, column: Values) -> Result<(), AllocError>
        ensures ok { OnOk result (self.new ≡ self.old ++ column ∷ []) }
    {
        self.columns.push(column)?;
        Ok(())
    }

    /// The matrix times a vector; None exactly where an entry has no value.
    pub(crate) fn times<const F: u32>(
        &self,
        alloc: Global,
        vector: &[u64],
    ) -> Result<Option<Values>, AllocError>
        requires fraction_bits { IsFractionBits F }
        requires square { IsSquare (length vector.now) self.now }
        ensures exact { IfOk result (λ o. o ≡ newton.matrix_times F self.now vector.now) }
        ensures length { IfOk result (λ o. IfSome o (λ v. length v ≡ length vector.now)) }
    {
        let mut product = Values::new(alloc);
        for i in 0..vector.len() {
            let Some(entry) = self.row_times::<F>(vector, i) else {
                return Ok(None);
            };
            product.push(entry)?;
        }
        Ok(Some(product))
    }

    /// A row of the matrix times a vector.
    fn row_times<const F: u32>(&self, vector: &[u64], row: usize) -> Option<u64>
        requires fraction_bits { IsFractionBits F }
        requires square { IsSquare (length vector.now) self.now }
        requires row { row < length vector.now }
        ensures exact { result ≡ newton.row_times F self.now vector.now row }
    {
        let mut sum = Some(0);
        for c in 0..vector.len() {
            let column = self.columns[c].items();
            sum = add_hi(sum, mul_hi::<F>(column[row], vector[c]));
        }
        sum
    }

    /// The matrix times itself; None exactly where an entry has no value.
    pub(crate) fn squared<const F: u32>(&self, alloc: Global) -> Result<Option<Matrix>, AllocError>
        requires fraction_bits { IsFractionBits F }
        requires square { IsSquare (length self.now) self.now }
        ensures exact { IfOk result (λ o. o ≡ newton.squared F self.now) }
        ensures square { IfOk result (λ o. IfSome o (λ m. IsSquare (length self.now) m)) }
    {
        let mut square = Matrix::new(alloc);
        for c in 0..self.columns.len() {
            let column = self.columns[c].items();
            let Some(product) = self.times::<F>(alloc, column)? else {
                return Ok(None);
            };
            square.push(product)?;
        }
        Ok(Some(square))
    }
}

/// The upper sum of two values, where both are there.
fn add_hi(a: Option<u64>, b: Option<u64>) -> Option<u64>
    ensures { result ≡ of_both add_up a b }
{
    let sum = Hi::<0>(a?).add(Hi(b?))?;
    Some(sum.0)
}

/// The upper product of two numbers.
fn mul_hi<const F: u32>(a: u64, b: u64) -> Option<u64>
    requires fraction_bits { IsFractionBits F }
    ensures { result ≡ mul_up F a b }
{
    let product = Hi::<F>(a).mul(Hi(b))?;
    Some(product.0)
}

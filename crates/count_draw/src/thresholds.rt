//! The values at a cell's begin and end.
ghost use Rattle.std.specs.Prelude.{◌≡◌};
ghost use Rattle.bz_model.specs.Cell.{IsCell};
ghost use Rattle.count_draw.specs.Table.{begin_value, end_value};

use bz_model::cell::Cell;
use fixed_enclosure::narrow::power_of_two;

/// The least lower value of an option that ends at or after every number of the cell, `hi` being an
/// upper bound of the node.
#[inline]
pub(crate) fn end_of(cell: Cell, hi: u64) -> u64
    requires { IsCell cell.k cell.b }
    ensures exact { result ≡ end_value cell hi }
{
    let above = (u128::from(cell.k) + 1) * u128::from(hi);
    ((above + (power_of_two(cell.b) - 1)) >> cell.b) as u64
}

/// The greatest upper value of an option that ends at or before every number of the cell, `lo`
/// being a lower bound of the node.
#[inline]
pub(crate) fn begin_of(cell: Cell, lo: u64) -> u64
    requires { IsCell cell.k cell.b }
    ensures exact { result ≡ begin_value cell lo }
{
    ((u128::from(cell.k) * u128::from(lo)) >> cell.b) as u64
}

//! Made shapes, and their cells.
ghost use Rattle.std.specs.Prelude.{◌≡◌, ◌+◌, ◌-◌, ◌<◌, ◌≤◌, [], ◌∷◌, ◌++◌, length};
ghost use Rattle.labelling.specs.LabelsByBits.{bits_in};

use bz_model::cell::Cell;
use bz_model::cells::Cells;
use object_store::shape::Shape;

/// A made shape, with the cells of its numbers in the order drawn.
#[derive(Drop)]
pub(crate) struct Made {
    pub(crate) shape: Shape,
    pub(crate) cells: Cells,
}

/// The place before the bits that cells spell, so many being used after them.
#[inline(always)]
pub(crate) fn place_before(used: u64, cells: &[Cell]) -> u64
    ensures { result ≡ used - bits_in cells.now }
{
    let mut place = used;
    for cell in cells {
        place = place.saturating_sub(u64::from(cell.b));
    }
    place
}

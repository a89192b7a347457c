//! Which classes each class leads to, from its steps.
ghost use Rattle.std.specs.Prelude.{◌≡◌, ℕ, ◌<◌, ◌≤◌, ◌↔◌, ◌⊎◌, IsTrue, length};
ghost use Rattle.well_founded.specs.Ways.{IsIn, Points, Chain};

use crate::class_set::ClassSet;

/// Gives each class all classes that its row leads to, in one row or more.
///
/// One pass for each class, each over all rows (Warshall 1962).
pub fn close(rows: &mut [ClassSet])
    requires { length rows.old ≤ 64 }
    ensures { (c d : ℕ) → Points rows.new c d ↔ Chain rows.old c d }
{
    for pivot in 0..rows.len() {
        pass(rows, pivot);
    }
}

/// Gives each class that has the pivot all classes that the pivot has.
fn pass(rows: &mut [ClassSet], pivot: usize)
    requires in_range { pivot < length rows.old }
    requires few { length rows.old ≤ 64 }
    ensures { (c d : ℕ) → Points rows.new c d
        ↔ (Points rows.old c d ⊎ (Points rows.old c pivot × Points rows.old pivot d)) }
{
    let through = rows[pivot];
    for row in rows.iter_mut() {
        *row = widened(*row, pivot as u32, through);
    }
}

/// The row itself, and the other set too where the row has the pivot.
fn widened(row: ClassSet, pivot: u32, through: ClassSet) -> ClassSet
    requires { pivot < 64 }
    ensures { (d : ℕ) → IsIn result d ↔ (IsIn row d ⊎ (IsIn row pivot × IsIn through d)) }
{
    if row.contains(pivot) {
        row.union(through)
    } else {
        row
    }
}

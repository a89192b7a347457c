//! The rows of the table.
ghost use Rattle.std.specs.Prelude.{◌≡◌, ℕ, ◌+◌, ◌<◌, ◌≤◌, ◌⊎◌, length, slice_index};
ghost use Rattle.fixed_enclosure.specs.Rounded.{greatest};
ghost use Rattle.oracle_memo.specs.Memos as memos;

use bz_model::cell::Bounds;

/// No bounds: from 0 to the greatest number.
pub(crate) const WHOLE: Bounds = Bounds {
    lo: 0,
    hi: u64::MAX,
};

/// Writes the row that begins at `start`: each node's bounds, from its lower and its upper value
/// and its bounds in the row before, if there is one. Takes no memory.
pub(crate) fn write_row(table: &mut [Bounds], start: usize, low: &[u64], high: &[u64])
    requires lengths { length high.now ≡ length low.now }
    requires before { (start ≡ 0) ⊎ (length low.now ≤ start) }
    requires room { start + length low.now ≤ length table.old }
    requires few { length table.old ≤ 4096 }
    ensures written { (e : ℕ) → e < length low.now
        → memos.bounds_at table.new (start + e)
        ≡ memos.drawn_in (memos.bounds_before table.old (length low.now) start e)
        (slice_index low.now e) (slice_index high.now e) }
    ensures others { (i : ℕ) → i < start
        → memos.bounds_at table.new i ≡ memos.bounds_at table.old i }
    ensures fits { (e : ℕ) → slice_index high.now e ≤ greatest }
{
    for e in 0..low.len() {
        let before = bounds_before(table, low.len(), start, e);
        table[start + e] = drawn_in(before, low[e], high[e]);
    }
}

/// The bounds of a node in the row of `count` before the one that begins at `start`.
fn bounds_before(table: &[Bounds], count: usize, start: usize, node: usize) -> Bounds
    requires before { (start ≡ 0) ⊎ (count ≤ start) }
    requires room { start + count ≤ length table.now }
    requires in_range { node < count }
    requires few { length table.now ≤ 4096 }
    ensures bounds { result ≡ memos.bounds_before table.now count start node }
{
    if start == 0 {
        WHOLE
    } else {
        table[start - count + node]
    }
}

/// Bounds that are drawn in to a lower and an upper value.
fn drawn_in(outer: Bounds, lo: u64, hi: u64) -> Bounds
    ensures { result ≡ memos.drawn_in outer lo hi }
{
    Bounds {
        lo: outer.lo.max(lo),
        hi: outer.hi.min(hi),
    }
}

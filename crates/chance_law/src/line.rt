//! The line that gives the bounds of a chance.
ghost use Rattle.std.specs.Prelude.{◌≡◌, IfOk, string_bytes};
ghost use Rattle.chance_law.specs.Line.{chance_line};

use crate::scaled::ChanceBounds;
use std::alloc::{AllocError, Global};

/// The line `chance lo M E hi M E`, with a line feed: each bound as its digits and its exponent.
pub fn chance_line(alloc: Global, bounds: ChanceBounds) -> Result<String, AllocError>
    ensures line { IfOk result (λ text. string_bytes text ≡ chance_line bounds) }
{
    let (lo, lo_exponent) = (bounds.lo.m, bounds.lo.e);
    let (hi, hi_exponent) = (bounds.hi.m, bounds.hi.e);
    format!(in alloc; "chance lo {lo} {lo_exponent} hi {hi} {hi_exponent}\n")
}

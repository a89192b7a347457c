//! Numbers of 128 bits brought back to 64 bits.

ghost use Rattle.std.specs.Prelude.{◌≡◌, ◌^◌, ◌≤◌};
ghost use Rattle.fixed_enclosure.specs.Rounded.{saturated, if_fits};

/// `u64::MAX`, as a number of 128 bits.
pub const GREATEST: u128 = 0xffff_ffff_ffff_ffff;

/// The number, or `u64::MAX` where it is above that. Takes no memory.
#[inline]
pub fn saturate(n: u128) -> u64
    ensures exact { result ≡ saturated n }
{
    if n <= GREATEST { n as u64 } else { u64::MAX }
}

/// The number, or `None` exactly where it is above `u64::MAX`. Takes no memory.
#[inline]
pub fn fit(n: u128) -> Option<u64>
    ensures exact { result ≡ if_fits n }
{
    if n <= GREATEST { Some(n as u64) } else { None }
}

/// `2^n`. Takes no memory.
#[inline]
pub fn power_of_two(n: u32) -> u128
    requires within_bits { n ≤ 112 }
    ensures exact { result ≡ 2 ^ n }
    ensures within { result ≤ 2 ^ 112 }
{
    1_u128 << n
}

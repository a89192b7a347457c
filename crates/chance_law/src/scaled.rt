//! Scaled numbers: 64 binary digits and an exponent, with products and quotients rounded outward.
ghost use Rattle.std.specs.Prelude.{◌≡◌, suc, ◌+◌, ◌*◌, ◌^◌, ◌<◌, ◌≤◌, ◌+ℤ◌, pos, true, false};
ghost use Rattle.chance_law.specs.Scaled.{IsNearZero, IsScaled, rise, fall};

/// The number `m * 2^e`, `m` having 64 binary digits.
#[derive(Clone, Copy, Debug, PartialEq, Eq)]
pub struct Scaled {
    pub m: u64,
    pub e: i64,
}

/// A lower and an upper bound of a chance.
#[derive(Clone, Copy, Debug, PartialEq, Eq)]
pub struct ChanceBounds {
    pub lo: Scaled,
    pub hi: Scaled,
}

/// Sixty-four further binary digits: a quotient by a number below 2^64 keeps 64 digits or more.
const MORE_DIGITS: u128 = 0x1_0000_0000_0000_0000;

/// The 64 highest binary digits of a whole number that has 64 or more, how many are left out, and
/// whether one of these isn't 0.
#[derive(Clone, Copy)]
pub(crate) struct Digits {
    pub(crate) m: u64,
    pub(crate) left_out: u32,
    pub(crate) is_cut: bool,
}

/// The highest 64 digits of a whole number.
pub(crate) fn digits_of(n: u128) -> Digits
    requires { 2 ^ 63 ≤ n }
    ensures digits { (2 ^ 63 ≤ result.m) × (result.m < 2 ^ 64) }
    ensures least { result.m * 2 ^ result.left_out ≤ n }
    ensures below { n < (result.m + 1) * 2 ^ result.left_out }
    ensures cut { result.is_cut ≡ true → result.m * 2 ^ result.left_out < n }
    ensures whole { result.is_cut ≡ false → result.m * 2 ^ result.left_out ≡ n }
    ensures few { result.left_out ≤ 64 }
{
    let left_out = 64 - n.leading_zeros().min(64);
    let unit = power_of_two(left_out);
    Digits {
        m: (n / unit) as u64,
        left_out,
        is_cut: n % unit > 0,
    }
}

fn power_of_two(b: u32) -> u128
    requires { b ≤ 64 }
    ensures exact { result ≡ 2 ^ b }
{
    1_u128 << b
}

/// One unit more than `m * 2^e`, which is `2^63` of twice the unit where `m` is the greatest.
fn next(m: u64, e: i64) -> Scaled
    requires digits { 2 ^ 63 ≤ m }
    requires near { IsNearZero (2 ^ 62 + 128) e }
    ensures scaled { IsScaled result }
    ensures same { (result.m * 2 ^ rise result.e) * 2 ^ fall e
        ≡ (suc m * 2 ^ rise e) * 2 ^ fall result.e }
    ensures above { rise result.e ≤ rise e + 1 }
    ensures below { fall result.e ≤ fall e }
{
    if m == u64::MAX {
        Scaled {
            m: 1 << 63,
            e: e + 1,
        }
    } else {
        Scaled { m: m + 1, e }
    }
}

impl Scaled {
    ghost use Rattle.bz_model.specs.Fraction.{times, ratio, whole};
    ghost use Rattle.bz_laws.specs.Terms.{AreEqual};
    ghost use Rattle.chance_law.specs.Scaled.{value, one, IsRoundedDown, IsRoundedUp};

    /// The number 1.
    pub const ONE: Scaled = Scaled {
        m: 0x8000_0000_0000_0000,
        e: -63,
    };

    /// A whole number from 1 on. Nothing is rounded.
    pub fn whole(number: u64) -> Scaled
        requires some { 1 ≤ number }
        ensures scaled { IsScaled result }
        ensures exact { AreEqual (value result) (whole number) }
        ensures above { rise result.e ≤ 0 }
        ensures below { fall result.e ≤ 63 }
    {
        let zeros = number.leading_zeros();
        let digits = u128::from(number) * power_of_two(zeros);
        Scaled {
            m: digits as u64,
            e: sum(0, -64, 64 - zeros),
        }
    }

    /// The product with a power of two. Nothing is rounded.
    pub fn times_power(self, k: u32) -> Scaled
        requires scaled { IsScaled self }
        requires near { IsNearZero (2 ^ 61) self.e }
        requires few { k ≤ 64 }
        ensures scaled { IsScaled result }
        ensures exact { AreEqual (value result) (times (value self) (whole (2 ^ k))) }
        ensures above { rise result.e ≤ rise self.e + 64 }
        ensures below { fall result.e ≤ fall self.e }
    {
        Scaled {
            m: self.m,
            e: sum(self.e, 0, k),
        }
    }

    /// The product, rounded down.
    pub fn times_down(self, other: Scaled) -> Scaled
        requires scaled { IsScaled self }
        requires other_scaled { IsScaled other }
        requires near { IsNearZero (2 ^ 61) self.e }
        requires other_near { IsNearZero (2 ^ 61) other.e }
        ensures rounded { IsRoundedDown (times (value self) (value other)) result }
        ensures above { rise result.e ≤ rise self.e + rise other.e + 64 }
        ensures below { fall result.e ≤ fall self.e + fall other.e }
    {
        let digits = digits_of(u128::from(self.m) * u128::from(other.m));
        Scaled {
            m: digits.m,
            e: sum(self.e, other.e, digits.left_out),
        }
    }

    /// The product, rounded up.
    pub fn times_up(self, other: Scaled) -> Scaled
        requires scaled { IsScaled self }
        requires other_scaled { IsScaled other }
        requires near { IsNearZero (2 ^ 61) self.e }
        requires other_near { IsNearZero (2 ^ 61) other.e }
        ensures rounded { IsRoundedUp (times (value self) (value other)) result }
        ensures above { rise result.e ≤ rise self.e + rise other.e + 65 }
        ensures below { fall result.e ≤ fall self.e + fall other.e }
    {
        let digits = digits_of(u128::from(self.m) * u128::from(other.m));
        let e = sum(self.e, other.e, digits.left_out);
        if digits.is_cut {
            next(digits.m, e)
        } else {
            Scaled { m: digits.m, e }
        }
    }

    /// One part in a whole number of it, rounded down.
    pub fn over_down(self, number: u64) -> Scaled
        requires scaled { IsScaled self }
        requires near { IsNearZero (2 ^ 61) self.e }
        requires some { 1 ≤ number }
        ensures rounded { IsRoundedDown (times (value self) (ratio 1 number)) result }
        ensures above { rise result.e ≤ rise self.e }
        ensures below { fall result.e ≤ fall self.e + 64 }
    {
        let digits = digits_of(u128::from(self.m) * MORE_DIGITS / u128::from(number));
        Scaled {
            m: digits.m,
            e: sum(self.e, -64, digits.left_out),
        }
    }

    /// One part in a whole number of it, rounded up.
    pub fn over_up(self, number: u64) -> Scaled
        requires scaled { IsScaled self }
        requires near { IsNearZero (2 ^ 61) self.e }
        requires some { 1 ≤ number }
        ensures rounded { IsRoundedUp (times (value self) (ratio 1 number)) result }
        ensures above { rise result.e ≤ rise self.e + 1 }
        ensures below { fall result.e ≤ fall self.e + 64 }
    {
        let whole = u128::from(self.m) * MORE_DIGITS;
        let parts = u128::from(number);
        let digits = digits_of(whole / parts);
        let e = sum(self.e, -64, digits.left_out);
        if digits.is_cut {
            next(digits.m, e)
        } else if whole % parts > 0 {
            next(digits.m, e)
        } else {
            Scaled { m: digits.m, e }
        }
    }
}

/// The sum of two exponents and a number of digits left out.
fn sum(a: i64, b: i64, left_out: u32) -> i64
    requires near { IsNearZero (2 ^ 61) a }
    requires other_near { IsNearZero (2 ^ 61) b }
    requires few { left_out ≤ 64 }
    ensures exact { result ≡ (a +ℤ b) +ℤ pos left_out }
{
    a + b + i64::from(left_out)
}

//! Numbers that may pass `2^128 - 1`: None stands for one that does.
ghost use Rattle.std.specs.Prelude.{◌≡◌, ◌↔◌, IsTrue, ℕ, ◌+◌, ◌*◌};
ghost use Rattle.rank_tables.specs.Capped.{Tells};

/// The sum of two numbers.
pub fn plus(a: Option<u128>, b: Option<u128>) -> Option<u128>
    ensures { (x y : ℕ) → Tells a x → Tells b y → Tells result (x + y) }
{
    match (a, b) {
        (Some(left), Some(right)) => left.checked_add(right),
        _ => None,
    }
}

/// The product of two numbers. Nothing times a number that passes is nothing.
pub fn times(a: Option<u128>, b: Option<u128>) -> Option<u128>
    ensures { (x y : ℕ) → Tells a x → Tells b y → Tells result (x * y) }
{
    match a {
        Some(left) => match b {
            Some(right) => left.checked_mul(right),
            None if left == 0 => Some(0),
            None => None,
        },
        None => match b {
            Some(right) if right == 0 => Some(0),
            _ => None,
        },
    }
}

/// Whether two numbers are the same, or both pass.
pub fn is_same(a: Option<u128>, b: Option<u128>) -> bool
    ensures { IsTrue result ↔ (a ≡ b) }
{
    a == b
}

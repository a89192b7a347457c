//! One call for each number of fraction bits that a command may ask for.

/// Calls a function at the number of fraction bits.
#[macro_export]
macro_rules! at_fraction {
    ($bits:expr, $call:ident [$($types:ty),*] ($($args:tt)*)) => {
        match $bits {
            FractionBits::F40 => $call::<40 $(, $types)*>($($args)*),
            FractionBits::F48 => $call::<48 $(, $types)*>($($args)*),
            FractionBits::F52 => $call::<52 $(, $types)*>($($args)*),
        }
    };
}

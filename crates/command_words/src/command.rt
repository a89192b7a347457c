//! Commands.
ghost use Rattle.std.specs.Prelude.{◌≡◌, ◌⊎◌};
ghost use Rattle.command_words.specs.Fractions.{fraction_bits};

use crate::word_list::WordList;
use bz_model::fraction::Fraction;
use bz_outside::word::Word;
use size_window::limits::Limits;

/// Where the bits of a sample come from.
#[derive(Debug, Drop)]
pub enum TapeWord {
    /// The file of this name.
    File(Word),
    /// The generator that this number seeds.
    Seed(u64),
}

/// How many bits stand behind the point in rounded numbers: 40, 48 or 52.
#[derive(Clone, Copy, Debug, PartialEq, Eq)]
pub enum FractionBits {
    F40,
    F48,
    F52,
}

impl FractionBits {
    /// This many bits. Takes no memory.
    pub fn of(number: u64) -> FractionBits
        requires { (number ≡ 40) ⊎ (number ≡ 48) ⊎ (number ≡ 52) }
        ensures { fraction_bits result ≡ number }
    {
        match number {
            40 => FractionBits::F40,
            48 => FractionBits::F48,
            _ => FractionBits::F52,
        }
    }

    /// How many bits these are. Takes no memory.
    pub fn number(self) -> u32
        ensures { result ≡ fraction_bits self }
    {
        match self {
            FractionBits::F40 => 40,
            FractionBits::F48 => 48,
            FractionBits::F52 => 52,
        }
    }
}

/// What the program is asked for.
#[derive(Debug, Drop)]
pub enum Command {
    /// Prints a specification in its canonical form.
    Spec {
        file: Word,
    },
    /// Bounds the classes of a specification at `x`.
    Oracle {
        file: Word,
        x: Fraction,
        fraction: FractionBits,
    },
    /// Draws from a specification at `x`.
    Sample {
        file: Word,
        x: Fraction,
        tape: TapeWord,
        limits: Limits,
        fraction: FractionBits,
        /// Whether the lower values start near the class values instead of from 0.
        fast: bool,
    },
    /// Draws from a specification at `x`, one drawing over each tape, in the order of a schedule.
    Pool {
        file: Word,
        x: Fraction,
        schedule: Word,
        tapes: WordList,
        limits: Limits,
        fraction: FractionBits,
    },
    /// Checks a certificate of a specification.
    Verify {
        file: Word,
        cert: Word,
    },
    /// Checks a certificate of a specification and writes it in the newest version.
    Migrate {
        file: Word,
        cert: Word,
    },
    /// Draws from a specification that the number makes.
    Bulk {
        n: u64,
        fraction: FractionBits,
    },
    /// Prints the specification whose objects are those of a specification with an atom marked.
    Point {
        file: Word,
    },
    /// Bounds the chance with which a specification at `x` gives an object.
    Chance {
        file: Word,
        x: Fraction,
        object: Word,
        fraction: FractionBits,
    },
    /// Counts the objects of each size up to `n`.
    Count {
        file: Word,
        n: u64,
    },
    /// Makes the object of size `n` with this number.
    Unrank {
        file: Word,
        n: u64,
        number: u128,
    },
    /// Tells the number of an object among those of its size.
    Rank {
        file: Word,
        object: Word,
    },
}

//! Why words stand for no command.
use std::alloc::AllocError;
use thiserror::Error;

/// A value that words give. The order of the variants is the one in which values are tested.
#[derive(Clone, Copy, Debug, PartialEq, Eq)]
pub enum ValueName {
    /// The point at which class values are taken.
    X,
    /// The seed of a sample's bits.
    Seed,
    /// The least size that is kept.
    Min,
    /// The greatest size that is kept.
    Max,
    /// How many objects are wanted.
    Count,
    /// How many turns may be made.
    Turns,
    /// How many bits stand behind the point in rounded numbers.
    Fraction,
    /// The number of a `bulk` run, or the greatest size whose objects are counted.
    N,
    /// The number of an object among those of its size.
    Rank,
}

/// Why words stand for no command.
#[derive(Clone, Copy, Debug, PartialEq, Eq, Error)]
pub enum WordsFault {
    /// The words haven't the form of a command. They don't begin with a command's name; or there
    /// are too few or too many positional words; or an option stands there that the command doesn't
    /// take, or twice, or without a value; or `--fast` stands twice, or with a command that isn't
    /// `sample`; or a `sample` has a tape and a seed, or neither; or a positional word or a value
    /// is empty or begins with `-`; or a byte is outside 20 to 7E, hexadecimal.
    #[error("not a command")]
    NotACommand,
    /// The words have the form of a command, and this is its first value, in the order of
    /// `ValueName`, that isn't accepted; or all are accepted and the least size, which is named, is
    /// above the greatest.
    #[error("a value isn't accepted")]
    BadValue { name: ValueName },
    /// Memory was wanting.
    #[error("out of memory")]
    OutOfMemory,
}

impl From<AllocError> for WordsFault {
    ghost use Rattle.std.specs.Prelude.{◌≡◌};
    ghost use Rattle.command_words.specs.declared.fault.WordsFault.TheVariants.{OutOfMemory};

    ghost from_gives = { λ _ fault. fault ≡ OutOfMemory };

    fn from(_: AllocError) -> WordsFault {
        WordsFault::OutOfMemory
    }
}

//! Why a text isn't read.
use std::alloc::AllocError;

/// Why a text isn't read as an object of a class.
#[derive(Clone, Copy, Debug, PartialEq, Eq)]
pub enum TextFault {
    /// The text isn't that of an object of the class, whatever the order of the parts of sets and
    /// cycles and whatever the labels from 1 to 1_000_000. The byte at this offset is the first
    /// that can't stand there, or this is the length where bytes are missing.
    NotObject { place: u64 },
    /// The text is that of an object, and its labels aren't 1 to the size, each once, or a set or a
    /// cycle isn't in canonical order.
    NotCanonical,
    /// Memory ran out. This may come in place of any answer.
    OutOfMemory,
}

impl From<AllocError> for TextFault {
    ghost use Rattle.std.specs.Prelude.{◌≡◌};
    ghost use Rattle.object_text.specs.declared.fault.TextFault.TheVariants.{OutOfMemory};

    ghost from_gives = { λ _ fault. fault ≡ OutOfMemory };

    fn from(_error: AllocError) -> TextFault {
        TextFault::OutOfMemory
    }
}

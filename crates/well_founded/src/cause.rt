//! Why a specification isn't well founded.
use class_system::ids::{ClassId, ExprId};
use std::alloc::AllocError;

/// Why a specification isn't well founded: the first cause in this order, at the least number.
///
/// Class c steps to class d where the body of c has a reference to d beside which there may be
/// objects of size 0 alone: all other parts of each product above it have one, and so has the part
/// of each counted node above it with a low of 2 or more.
#[derive(Clone, Copy, Debug, PartialEq, Eq)]
pub enum UnfoundedCause {
    /// The class has no object.
    NoObject(ClassId),
    /// The node is counted and has no high, and its part has an object of size 0.
    ZeroPart(ExprId),
    /// One or more steps lead from the class to itself.
    ZeroLoop(ClassId),
    /// Memory ran out. This may come in place of any answer.
    OutOfMemory,
}

impl From<AllocError> for UnfoundedCause {
    ghost use Rattle.std.specs.Prelude.{◌≡◌};
    ghost use Rattle.well_founded.specs.declared.cause.UnfoundedCause.TheVariants.{OutOfMemory};

    ghost from_gives = { λ _ cause. cause ≡ OutOfMemory };

    fn from(_error: AllocError) -> UnfoundedCause {
        UnfoundedCause::OutOfMemory
    }
}

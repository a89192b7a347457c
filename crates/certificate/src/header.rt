//! The header of what is printed from a specification.
ghost use Rattle.std.specs.Prelude.{◌≡◌, length, IfOk};
ghost use Rattle.certificate.specs.Certificates.{FitsHeader};
ghost use Rattle.certificate.specs.Headers.{header_of};

use crate::certificate::Header;
use crate::digest::digest_of;
use bz_model::fraction::Fraction;
use bz_outside::word::Word;
use class_system::ids::ClassId;
use class_system::names::Names;
use class_system::system::System;
use newton_upper::Values;
use std::alloc::{AllocError, Global};

/// The header of version 2 of a drawing from a specification at `x`, with these fraction bits, this
/// window of sizes, and this base, which has a value for each class in units of `2^-fraction`.
pub fn header_of(
    alloc: Global,
    system: &System,
    x: Fraction,
    fraction: u32,
    min: u64,
    max: u64,
    base: &[u64],
) -> Result<Header, AllocError>
    requires one_each { length base.now ≡ length system.now.names }
    ensures same { IfOk result (λ h. h ≡ header_of system.now x fraction min max base.now) }
    ensures fits { IfOk result FitsHeader }
{
    let digest = digest_of(system)?;
    let names = names_of(alloc, system)?;
    let base = values_of(alloc, base)?;
    Ok(Header {
        version: 2,
        mode: system.mode(),
        digest: Some(digest),
        x,
        fraction,
        min,
        max,
        names,
        base,
    })
}

/// The names of a specification's classes, in order.
#[tactic(auto, using(crate::proofs::Distinct::missing_next))]
fn names_of(alloc: Global, system: &System) -> Result<Names, AllocError>
    ensures { IfOk result (λ names. names ≡ system.now.names) }
{
    system.known();
    let mut names = Names::new(alloc);
    for class in 0..system.class_count() {
        let name = system.name(ClassId(class));
        names.push(Word::from_bytes(alloc, name.bytes())?)?;
    }
    Ok(names)
}

/// These numbers as a list of values.
fn values_of(alloc: Global, base: &[u64]) -> Result<Values, AllocError>
    ensures { IfOk result (λ values. values ≡ base.now) }
{
    let mut values = Values::new(alloc);
    for value in base {
        values.push(*value)?;
    }
    Ok(values)
}

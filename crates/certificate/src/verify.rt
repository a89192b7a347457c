//! Testing a certificate against a specification.
ghost use Rattle.std.specs.Prelude.{◌≡◌, ◌≢◌, ◌↔◌, IsTrue, true, false, slice_get, ◌^◌, ◌+◌, ◌*◌};
ghost use Rattle.std.specs.Prelude.{◌<◌, ◌≤◌, ◌∷◌, [], map, length, Option, Some, IfOk, IfErr};
ghost use Rattle.std.specs.Prelude.{unwrap_or};
ghost use Rattle.std.specs.List.{AllByRecursion};
ghost use Rattle.bz_model.specs.Fraction.{ratio, IsFractionBits};
ghost use Rattle.class_system.specs.Views.{spec_mode};
ghost use Rattle.oracle_memo.specs.Levels.{cost_at};
ghost use Rattle.rounded_map.specs.Bounding.{AreAbove};
ghost use Rattle.rounded_map.specs.RoundedMap.{IsPostFixed, values_up, bodies_up};
ghost use Rattle.certificate.specs.Certificates.{FitsHeader, open_lines};
ghost use Rattle.certificate.specs.Checks.{checks, rest_checks, header_checks, digest_checks};
ghost use Rattle.certificate.specs.Checks.{digest_count, name_checks, value_checks};
ghost use Rattle.certificate.specs.Checks.{first_base_line, first_entry_line, setting_of};
ghost use Rattle.certificate.specs.Checks.{last_line, HasFraction, HasWindow, check};
ghost use Rattle.certificate.specs.Soundness.{IsSoundEntry, IsSoundCertificate};
ghost use Rattle.certificate.specs.Verdicts.{FirstFails};
ghost use Rattle.certificate.specs.declared.reason.Reason.TheVariants as reason;
ghost use Rattle.certificate.specs.declared.reason.Verdict.TheVariants as verdict;

use crate::certificate::{Certificate, Header};
use crate::closing::Closing;
use crate::digest::SpecDigest;
use crate::entry_tests::{Window, is_same, test_entries};
use crate::reason::{Reason, Verdict};
use bz_model::oracle::Oracle;
use bz_model::steps::Steps;
use class_system::draft::Mode;
use class_system::ids::ClassId;
use class_system::names::Names;
use class_system::system::System;
use newton_upper::{Base, BaseFault};
use oracle_memo::Memo;
use sha2::{Digest, Sha256};
use shape_sampler::session::Session;
use std::alloc::{AllocError, Global};
use std::sync::ledger::Ledger;
use well_founded::examination::Founded;

/// Tests a certificate against a specification, with `F` fraction bits.
///
/// The verdict is that of the tests in order (`specs/Checks.antt`): `Invalid` tells the first that
/// fails, with the line where its field is and the reason. Where it is `Valid`, the base is above
/// the classes' totals, and each entry's object and labels are those that ideal making makes of
/// every list of numbers in the entry's cells, whoever made the certificate. One tick for the base,
/// and those of the levels raised. Takes memory for the canonical text, the base's levels, and for
/// each entry its bits, object and text.
pub fn verify<const F: u32, L: Ledger>(
    alloc: Global,
    founded: &Founded,
    cert: &Certificate,
    steps: &mut Steps<L>,
) -> Result<Verdict, AllocError>
    requires fraction_bits { IsFractionBits F }
    requires header { FitsHeader cert.now.header }
    ensures verdict { IfOk result (FirstFails (checks founded.now F cert.now)) }
    ensures sound { IfOk result (λ told. told ≡ verdict.Valid
        → IsSoundCertificate founded.now F cert.now) }
    ensures ticks { steps.new ≤ steps.old + 1 + cost_at 6 }
{
    let system = founded.system();
    system.known();
    let header = &cert.header;
    let of_header = test_header::<F>(system, header)?;
    let Verdict::Valid = of_header else {
        return Ok(of_header);
    };
    let line = first_base_line(&header.digest);
    let of_names = test_names(system, &header.names, line);
    let Verdict::Valid = of_names else {
        return Ok(of_names);
    };
    let values = header.base.items().to_vec(alloc)?;
    match Base::<F>::check(alloc, founded, header.x, values, steps) {
        Ok(base) => {
            let first = line + u64::from(system.class_count());
            test_from_base(alloc, founded, cert, base, first, steps)
        }
        Err(BaseFault::NotPostFixed(fault)) => Ok(Verdict::Invalid {
            line: line + u64::from(fault.class_id.0),
            reason: Reason::Base,
        }),
        Err(BaseFault::OutOfMemory) => Err(AllocError),
    }
}

/// Tests the entries, the first of which is on this line, and the closing, over the levels of a
/// base.
fn test_from_base<const F: u32, L: Ledger>(
    alloc: Global,
    founded: &Founded,
    cert: &Certificate,
    base: Base<F>,
    first: u64,
    steps: &mut Steps<L>,
) -> Result<Verdict, AllocError>
    requires fraction_bits { IsFractionBits F }
    requires window { cert.now.header.max ≤ 1000000 }
    requires small { first ≤ 71 }
    requires base { base ≡ cert.now.header.base }
    requires post_fixed { IsPostFixed (setting_of founded.now F cert.now.header)
        cert.now.header.base }
    ensures verdict { IfOk result (FirstFails (rest_checks founded.now F first cert.now)) }
    ensures sound { IfOk result (λ told. told ≡ verdict.Valid
        → AllByRecursion
        (IsSoundEntry founded.now (ratio cert.now.header.x.num cert.now.header.x.den)
        cert.now.header.min cert.now.header.max) cert.now.entries) }
    ensures ticks { steps.new ≤ steps.old + cost_at 6 }
{
    let header = &cert.header;
    let mut memo = Memo::make(alloc, founded, header.x, base)?;
    memo.known();
    let mut session = Session::new(alloc, founded, header.max)?;
    let window = Window {
        least: header.min,
        greatest: header.max,
    };
    let entries = cert.entries.items();
    let of_entries = test_entries::<F, _, L>(
        alloc,
        founded,
        &mut memo,
        &mut session,
        window,
        entries,
        first,
        steps,
    )?;
    let Verdict::Valid = of_entries else {
        return Ok(of_entries);
    };
    Ok(test_closing(&cert.closing, entries.len() as u64, first))
}

/// Tests the lines before the base.
fn test_header<const F: u32>(system: &System, header: &Header) -> Result<Verdict, AllocError>
    ensures { IfOk result (FirstFails (header_checks system.now F header.now)) }
{
    if !are_same(header.mode, system.mode()) {
        return Ok(Verdict::Invalid {
            line: 2,
            reason: Reason::Mode,
        });
    }
    let has_digest = is_digest_of(&header.digest, system)?;
    if !has_digest {
        return Ok(Verdict::Invalid {
            line: 3,
            reason: Reason::Spec,
        });
    }
    Ok(test_limits::<F>(header))
}

/// Whether two modes are the same.
fn are_same(this: Mode, that: Mode) -> bool
    ensures same { result ≡ true → spec_mode this ≡ spec_mode that }
    ensures other { result ≡ false → spec_mode this ≢ spec_mode that }
{
    match this {
        Mode::Unlabelled => match that {
            Mode::Unlabelled => true,
            Mode::Labelled => false,
        },
        Mode::Labelled => match that {
            Mode::Unlabelled => false,
            Mode::Labelled => true,
        },
    }
}

/// Whether a digest, where there is one, is that of the specification's canonical text.
fn is_digest_of(digest: &Option<SpecDigest>, system: &System) -> Result<bool, AllocError>
    ensures same { IfOk result (λ same. same ≡ true
        → FirstFails (digest_checks system.now digest.now) verdict.Valid) }
    ensures other { IfOk result (λ same. same ≡ false
        → FirstFails (digest_checks system.now digest.now) (verdict.Invalid 3 reason.Spec)) }
{
    let Some(digest) = digest else {
        return Ok(true);
    };
    let canonical = system.to_text()?;
    let own = Sha256::digest(canonical.as_slice());
    Ok(is_same(digest.bytes(), own.as_slice()))
}

/// Tests the fraction bits and the window.
fn test_limits<const F: u32>(header: &Header) -> Verdict
    ensures { FirstFails (check (HasFraction F header.now) (4 + digest_count header.now.digest)
        reason.Fraction
        ∷ check (HasWindow header.now) (5 + digest_count header.now.digest) reason.Window
        ∷ []) result }
{
    let line = first_base_line(&header.digest);
    if !has_fraction::<F>(header) {
        return Verdict::Invalid {
            line: line - 2,
            reason: Reason::Fraction,
        };
    }
    if !has_window(header) {
        return Verdict::Invalid {
            line: line - 1,
            reason: Reason::Window,
        };
    }
    Verdict::Valid
}

/// Whether the fraction bits are those of the call, and 48 in version 1.
fn has_fraction<const F: u32>(header: &Header) -> bool
    ensures { IsTrue result ↔ HasFraction F header.now }
{
    header.fraction == F && (header.version != 1 || F == 48)
}

/// Whether the window is one of sizes up to 1000000.
fn has_window(header: &Header) -> bool
    ensures { IsTrue result ↔ HasWindow header.now }
{
    header.min <= header.max && header.max <= 1_000_000
}

/// The first line of the base, with a line for the digest where there is one.
fn first_base_line(digest: &Option<SpecDigest>) -> u64
    ensures line { result ≡ 6 + digest_count digest.now }
    ensures small { result ≤ 7 }
{
    match digest {
        Some(_) => 7,
        None => 6,
    }
}

/// Tests that names are those of the classes in order, all of them and no other, each on a line.
fn test_names(system: &System, names: &Names, line: u64) -> Verdict
    requires small { line ≤ 7 }
    ensures { FirstFails (name_checks line names.now system.now.names) result }
{
    let count = (system.class_count() as usize).min(names.len());
    for class in 0..count {
        if !is_name_of(system, names, class) {
            return Verdict::Invalid {
                line: line + class as u64,
                reason: Reason::Base,
            };
        }
    }
    if names.len() != system.class_count() as usize {
        return Verdict::Invalid {
            line: line + count as u64,
            reason: Reason::Base,
        };
    }
    Verdict::Valid
}

/// Whether the name at a place is that of the class there.
fn is_name_of(system: &System, names: &Names, class: usize) -> bool
    requires in_names { class < length names.now }
    requires in_classes { class < length system.now.names }
    ensures same { result ≡ true → slice_get names.now class ≡ slice_get system.now.names class }
    ensures other { result ≡ false → slice_get names.now class ≢ slice_get system.now.names class }
{
    system.known();
    let name = names.name(class);
    let own = system.name(ClassId(class as u32));
    is_same(name.bytes(), own.bytes())
}

/// Tests that the number of kept objects is that of the entries, whose first line is this.
fn test_closing(closing: &Closing, count: u64, line: u64) -> Verdict
    requires small { line ≤ 71 }
    requires few { count ≤ 2 ^ 60 }
    ensures { FirstFails (check (closing.now.kept ≡ count)
        (line + (3 * count + length (open_lines closing.now.straddle))) reason.Closing
        ∷ []) result }
{
    if closing.kept == count {
        return Verdict::Valid;
    }
    let open = match closing.straddle {
        Some(_) => 1,
        None => 0,
    };
    Verdict::Invalid {
        line: line + 3 * count + open,
        reason: Reason::Closing,
    }
}

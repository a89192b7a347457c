//! Certificates read from their texts.
ghost use Rattle.std.specs.Prelude.{◌≡◌, ◌<◌, ◌≤◌, ◌-◌, ◌++◌, [], ℕ, suc, take, length, flat_map};
ghost use Rattle.std.specs.Prelude.{nat_eq, count_by, IfOk, IfErr, IfSome, IfNone};
ghost use Rattle.certificate.specs.Certificates.{IsCertificate, spec_lines, base_lines};
ghost use Rattle.certificate.specs.Certificates.{header_lines, entry_lines, closing_lines};
ghost use Rattle.certificate.specs.Certificates.{certificate_lines};
ghost use Rattle.certificate.specs.Reading.{IsTextOf, IsRefusal};
ghost use Rattle.certificate.specs.Stages.{Stage, after_mode, Passes, HasNoBase, HasNoObject};
ghost use Rattle.certificate.specs.Stops.{LinesStopAt};

use crate::certificate::{CertEntries, CertEntry, Certificate, Header};
use crate::closing::Closing;
use crate::digest::SpecDigest;
use crate::stages::{
    base_at, cells_at, digest_at, end_at, fraction_at, mode_at, object_at, open_at, text_at,
    undecided_at, version_at, window_at, x_at,
};
use bz_outside::word::Word;
use class_system::names::Names;
use newton_upper::Values;
use std::alloc::{AllocError, Global};

/// Why a text gives no certificate.
#[derive(Clone, Copy, Debug, PartialEq, Eq)]
pub enum CertFault {
    /// The text is no certificate's, and this line of it, counted from 1, is the first after which
    /// the lines so far begin none; where lines are missing, it is the one after the last.
    BadLine { line: u64 },
    /// Memory ran out.
    OutOfMemory,
}

/// Why reading stops.
#[derive(Clone, Copy)]
enum Stop {
    /// No line that may stand next is in front of this many bytes that are left.
    At(usize),
    /// Memory ran out.
    OutOfMemory,
}

impl From<AllocError> for Stop {
    ghost use Rattle.std.specs.Prelude.{◌≡◌};
    ghost use Rattle.certificate.specs.declared.read.Stop.TheVariants.{OutOfMemory};

    ghost from_gives = { λ _ stop. stop ≡ OutOfMemory };

    fn from(_error: AllocError) -> Stop {
        Stop::OutOfMemory
    }
}

/// The certificate that a text is, to the last byte.
///
/// `BadLine` comes exactly where the text is no certificate's, `OutOfMemory` for want of memory
/// alone. The specification isn't looked at.
pub fn read(alloc: Global, bytes: &[u8]) -> Result<Certificate, CertFault>
    ensures ok { IfOk result (IsTextOf bytes.now) }
    ensures err { IfErr result (IsRefusal bytes.now) }
{
    match read_certificate(alloc, bytes) {
        Ok(certificate) => Ok(certificate),
        Err(Stop::At(left)) => Err(CertFault::BadLine {
            line: line_at(bytes, left),
        }),
        Err(Stop::OutOfMemory) => Err(CertFault::OutOfMemory),
    }
}

/// The number of the line, from 1, that begins where this many bytes are left.
fn line_at(bytes: &[u8], left: usize) -> u64
    requires { left ≤ length bytes.now }
    ensures { result ≡ suc (count_by (λ b.
        nat_eq b 10) (take (length bytes.now - left) bytes.now)) }
{
    let before = &bytes[..bytes.len() - left];
    before.iter().filter(|b| **b == b'\n').count() as u64 + 1
}

/// The certificate that a text is.
fn read_certificate(alloc: Global, bytes: &[u8]) -> Result<Certificate, Stop>
    ensures ok { IfOk result (IsTextOf bytes.now) }
    ensures err { IfErr result (LinesStopAt Stage.AtVersion bytes.now) }
{
    let (header, rest) = read_header(alloc, bytes)?;
    let (entries, rest) = read_entries(alloc, rest)?;
    let (closing, rest) = read_closing(rest)?;
    if !rest.is_empty() {
        return Err(Stop::At(rest.len()));
    }
    Ok(Certificate {
        header,
        entries,
        closing,
    })
}

/// The header in front of a text, and what follows it.
fn read_header(alloc: Global, text: &[u8]) -> Result<(Header, &[u8]), Stop>
    ensures ok { IfOk result (λ p. Passes Stage.AtVersion text.now (header_lines p.0)
        (Stage.AtBase p.0.names) p.1.now) }
    ensures one_each { IfOk result (λ p. length p.0.base ≡ length p.0.names) }
    ensures last { IfOk result (λ p. HasNoBase p.0.names p.1.now) }
    ensures err { IfErr result (LinesStopAt Stage.AtVersion text.now) }
{
    let Some((version, rest)) = version_at(text) else {
        return Err(Stop::At(text.len()));
    };
    let Some((mode, rest)) = mode_at(version, rest) else {
        return Err(Stop::At(rest.len()));
    };
    let (digest, rest) = read_digest(version, rest)?;
    let Some((x, rest)) = x_at(rest) else {
        return Err(Stop::At(rest.len()));
    };
    let Some((fraction, rest)) = fraction_at(rest) else {
        return Err(Stop::At(rest.len()));
    };
    let Some(((min, max), rest)) = window_at(rest) else {
        return Err(Stop::At(rest.len()));
    };
    let (names, base, rest) = read_bases(alloc, rest)?;
    let header = Header {
        version,
        mode,
        digest,
        x,
        fraction,
        min,
        max,
        names,
        base,
    };
    Ok((header, rest))
}

/// The digest that stands behind the mode in version 2, and what follows it.
fn read_digest(version: u8, text: &[u8]) -> Result<(Option<SpecDigest>, &[u8]), Stop>
    ensures ok { IfOk result (λ p.
        Passes (after_mode version) text.now (spec_lines p.0) Stage.AtX p.1.now) }
    ensures err { IfErr result (LinesStopAt (after_mode version) text.now) }
{
    if version == 1 {
        return Ok((None, text));
    }
    match digest_at(text) {
        Some((digest, rest)) => Ok((Some(digest), rest)),
        None => Err(Stop::At(text.len())),
    }
}

/// The names and the values of the base in front of a text, and what follows its lines.
fn read_bases(alloc: Global, text: &[u8]) -> Result<(Names, Values, &[u8]), AllocError>
    ensures passes { IfOk result (λ p. Passes (Stage.AtBase []) text.now (base_lines p.0 p.1)
        (Stage.AtBase p.0) p.2.now) }
    ensures one_each { IfOk result (λ p. length p.1 ≡ length p.0) }
    ensures last { IfOk result (λ p. HasNoBase p.0 p.2.now) }
{
    let mut names = Names::new(alloc);
    let mut base = Values::new(alloc);
    let mut rest = text;
    'bases: while let Some((name, value, after)) = base_at(alloc, &names, rest)? {
        names.push(name)?;
        base.push(value)?;
        rest = after;
    }
    Ok((names, base, rest))
}

/// The entries in front of a text, and what follows them.
fn read_entries(alloc: Global, text: &[u8]) -> Result<(CertEntries, &[u8]), Stop>
    ensures ok { IfOk result (λ p.
        Passes Stage.AtObject text.now (flat_map entry_lines p.0) Stage.AtObject
        p.1.now) }
    ensures last { IfOk result (λ p. HasNoObject p.1.now) }
    ensures err { IfErr result (LinesStopAt Stage.AtObject text.now) }
{
    let mut entries = CertEntries::new(alloc);
    let mut rest = text;
    'entries: while let Some((entry, after)) = read_entry(alloc, rest)? {
        entries.push(entry)?;
        rest = after;
    }
    Ok((entries, rest))
}

/// The entry in front of a text, where its first line stands there, and what follows it.
fn read_entry(alloc: Global, text: &[u8]) -> Result<Option<(CertEntry, &[u8])>, Stop>
    ensures ok { IfOk result
        (λ o. IfSome o (λ p. Passes Stage.AtObject text.now (entry_lines p.0) Stage.AtObject
        p.1.now)) }
    ensures none { IfOk result (λ o. IfNone o (HasNoObject text.now)) }
    ensures err { IfErr result (LinesStopAt Stage.AtObject text.now) }
{
    let Some(((number, place, size), rest)) = object_at(text) else {
        return Ok(None);
    };
    let Some((printed, rest)) = text_at(rest) else {
        return Err(Stop::At(rest.len()));
    };
    let Some((cells, after)) = cells_at(alloc, rest)? else {
        return Err(Stop::At(rest.len()));
    };
    let text = Word::from_bytes(alloc, printed)?;
    let entry = CertEntry {
        number,
        place,
        size,
        text,
        cells,
    };
    Ok(Some((entry, after)))
}

/// The closing in front of a text, where no entry stands there, and what follows it.
fn read_closing(text: &[u8]) -> Result<(Closing, &[u8]), Stop>
    requires { HasNoObject text.now }
    ensures ok { IfOk result (λ p.
        Passes Stage.AtObject text.now (closing_lines p.0) Stage.Over p.1.now) }
    ensures err { IfErr result (LinesStopAt Stage.AtObject text.now) }
{
    let Some((straddle, rest)) = open_at(text) else {
        return match end_at(text) {
            Some(found) => Ok(found),
            None => Err(Stop::At(text.len())),
        };
    };
    match undecided_at(rest) {
        Some((closing, after)) => Ok((
            Closing {
                straddle: Some(straddle),
                ..closing
            },
            after,
        )),
        None => Err(Stop::At(rest.len())),
    }
}

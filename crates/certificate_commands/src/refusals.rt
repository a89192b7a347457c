//! What is reported where a certificate is refused.
ghost use Rattle.std.specs.Prelude.{◌≡◌, IfOk, string_bytes};
ghost use Rattle.call_stages.specs.Outcomes.{Says};
ghost use Rattle.call_stages.specs.declared.status.Status.{Status};
ghost use Rattle.certificate_commands.specs.CertificateStage.{long_certificate_line, bad_line};
ghost use Rattle.certificate_commands.specs.Tested.{reason_word, invalid_line};

use call_stages::report::Report;
use call_stages::status::Status;
use certificate::reason::Reason;
use std::alloc::{AllocError, Global};

/// A certificate's file has too many bytes.
pub(crate) fn too_long_refusal(alloc: Global) -> Result<Report, AllocError>
    ensures { IfOk result (λ r.
        Says Status.CertRefused long_certificate_line 0 r.status r.text.items 0) }
{
    let text = Vec::from_slice(alloc, b"refused certificate too long\n")?;
    Ok(Report {
        status: Status::CertRefused,
        text,
    })
}

/// A text is no certificate's, and this is its first bad line.
pub(crate) fn line_refusal(alloc: Global, line: u64) -> Result<Report, AllocError>
    ensures { IfOk result (λ r. Says Status.CertRefused (bad_line line) 0 r.status r.text.items 0) }
{
    let text = format!(in alloc; "refused certificate line {line}\n")?.into_bytes();
    Ok(Report {
        status: Status::CertRefused,
        text,
    })
}

/// A test of a certificate fails, whose field is on this line.
pub(crate) fn invalid_refusal(alloc: Global, line: u64, why: Reason) -> Result<Report, AllocError>
    ensures { IfOk result (λ r.
        Says Status.CertRefused (invalid_line line why) 0 r.status r.text.items 0) }
{
    let text = line_for_invalid(alloc, line, why)?.into_bytes();
    Ok(Report {
        status: Status::CertRefused,
        text,
    })
}

/// The line of a test that fails.
fn line_for_invalid(alloc: Global, line: u64, why: Reason) -> Result<String, AllocError>
    ensures { IfOk result (λ text. string_bytes text ≡ invalid_line line why) }
{
    let word = word_of(why);
    format!(in alloc; "invalid line {line} {word}\n")
}

/// The word of a test.
fn word_of(why: Reason) -> &'static str
    ensures { result.now ≡ reason_word why }
{
    match why {
        Reason::Mode => "mode",
        Reason::Spec => "spec",
        Reason::Fraction => "fraction",
        Reason::Window => "window",
        Reason::Base => "base",
        Reason::Object => "object",
        Reason::Cells => "cells",
        Reason::Text => "text",
        Reason::Closing => "closing",
    }
}

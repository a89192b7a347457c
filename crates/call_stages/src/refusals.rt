//! What is reported where a command is refused: a status, and the lines that say why.
ghost use Rattle.std.specs.Prelude.{◌≡◌, ◌≢◌, ◌≤◌, ◌++◌, codes, flat_map, IfOk, OnOk, string_bytes};
ghost use Rattle.bz_model.specs.Fraction.{IsFractionBits};
ghost use Rattle.command_words.specs.declared.fault.WordsFault.{WordsFault};
ghost use Rattle.spec_reader.specs.declared.fault.SpecFault.{SpecFault};
ghost use Rattle.well_founded.specs.declared.cause.UnfoundedCause.{UnfoundedCause};
ghost use Rattle.call_stages.specs.Lines.{feed};
ghost use Rattle.call_stages.specs.Outcomes.{Says};
ghost use Rattle.call_stages.specs.declared.status.Status.{Status};
ghost use Rattle.call_stages.specs.Refusals.{value_name, words_line, read_line, limit_line};
ghost use Rattle.call_stages.specs.Refusals.{spec_fault_line, cause_line, IsClassNamed};
ghost use Rattle.call_stages.specs.Refusals.{number_field};
ghost use Rattle.call_stages.specs.Refusals.{value_text, proposal_line, no_upper_line};
ghost use Rattle.call_stages.specs.Refusals.{no_upper_text, no_fast_line};

use crate::format::name_of;
use crate::report::{Report, reported};
use crate::status::Status;
use bz_outside::word::Word;
use class_system::limits::BuildFault;
use class_system::system::System;
use command_words::fault::{ValueName, WordsFault};
use newton_upper::Trial;
use spec_reader::fault::SpecFault;
use std::alloc::{AllocError, Global};
use std::fmt::Write;
use well_founded::cause::UnfoundedCause;

/// Words stand for no command; `Err` where that is want of memory.
pub fn words_refusal(alloc: Global, fault: WordsFault) -> Result<Report, AllocError>
    ensures says { IfOk result (λ r.
        Says Status.WordsRefused (words_line fault) 0 r.status r.text.items 0) }
    ensures memory { OnOk result (fault ≢ WordsFault.OutOfMemory) }
{
    let line = line_for_words(alloc, fault)?;
    Ok(reported(Status::WordsRefused, line))
}

/// A read of a file failed.
pub fn read_refusal(alloc: Global) -> Result<Report, AllocError>
    ensures { IfOk result (λ r. Says Status.ReadFault read_line 0 r.status r.text.items 0) }
{
    let line = format!(in alloc; "refused read\n")?;
    Ok(reported(Status::ReadFault, line))
}

/// A text is no specification, or breaks a limit; `Err` where that is want of memory.
pub fn text_refusal(alloc: Global, fault: SpecFault) -> Result<Report, AllocError>
    ensures says { IfOk result (λ r.
        Says Status.SpecRefused (spec_fault_line fault) 0 r.status r.text.items 0) }
    ensures memory { OnOk result (fault ≢ SpecFault.OutOfMemory) }
{
    let line = line_for_text(alloc, fault)?;
    Ok(reported(Status::SpecRefused, line))
}

/// A specification isn't well founded; `Err` where that is want of memory.
pub fn cause_refusal(
    alloc: Global,
    system: &System,
    cause: UnfoundedCause,
) -> Result<Report, AllocError>
    requires in_range { IsClassNamed system.now cause }
    ensures says { IfOk result (λ r.
        Says Status.SpecRefused (cause_line system.now cause) 0 r.status
        r.text.items 0) }
    ensures memory { OnOk result (cause ≢ UnfoundedCause.OutOfMemory) }
{
    let text = line_for_cause(alloc, system, cause)?;
    Ok(Report {
        status: Status::SpecRefused,
        text,
    })
}

/// No base was found, with a line for each proposal.
pub fn upper_refusal<const F: u32>(
    alloc: Global,
    system: &System,
    proposals: &[Trial],
) -> Result<Report, AllocError>
    requires fraction_bits { IsFractionBits F }
    ensures { IfOk result (λ r. Says Status.NoUpper (no_upper_text system.now F proposals.now) 0
        r.status r.text.items 0) }
{
    let text = no_upper::<F>(alloc, system, proposals)?;
    Ok(Report {
        status: Status::NoUpper,
        text,
    })
}

/// No fast vector was found among the candidates, one for each fraction bit.
pub fn fast_refusal<const F: u32>(alloc: Global) -> Result<Report, AllocError>
    ensures { IfOk result (λ r. Says Status.NoFast (no_fast_line F) 0 r.status r.text.items 0) }
{
    let line = format!(in alloc; "refused fast candidates {F}\n")?;
    Ok(reported(Status::NoFast, line))
}

/// Why words stand for no command; `Err` where that is want of memory.
fn line_for_words(alloc: Global, fault: WordsFault) -> Result<String, AllocError>
    ensures line { IfOk result (λ text. string_bytes text ≡ words_line fault) }
    ensures memory { OnOk result (fault ≢ WordsFault.OutOfMemory) }
{
    match fault {
        WordsFault::NotACommand => format!(in alloc; "refused words\n"),
        WordsFault::BadValue { name } => {
            let name = name_of_value(name);
            format!(in alloc; "refused value {name}\n")
        }
        WordsFault::OutOfMemory => Err(AllocError),
    }
}

/// A value's name.
fn name_of_value(value: ValueName) -> &'static str
    ensures { result.now ≡ value_name value }
{
    match value {
        ValueName::X => "x",
        ValueName::Seed => "seed",
        ValueName::Min => "min",
        ValueName::Max => "max",
        ValueName::Count => "count",
        ValueName::Turns => "turns",
        ValueName::Fraction => "fraction",
        ValueName::N => "n",
        ValueName::Rank => "rank",
    }
}

/// Why a text is no specification; `Err` where that is want of memory.
fn line_for_text(alloc: Global, fault: SpecFault) -> Result<String, AllocError>
    ensures line { IfOk result (λ text. string_bytes text ≡ spec_fault_line fault) }
    ensures memory { OnOk result (fault ≢ SpecFault.OutOfMemory) }
{
    match fault {
        SpecFault::TooLong { len } => format!(in alloc; "refused spec too long {len}\n"),
        SpecFault::NotText { place } => format!(in alloc; "refused spec not text at {place}\n"),
        SpecFault::Syntax { line, column } => {
            format!(in alloc; "refused spec syntax line {line} column {column}\n")
        }
        SpecFault::Undefined { line, column } => {
            format!(in alloc; "refused spec undefined line {line} column {column}\n")
        }
        SpecFault::Twice { line } => format!(in alloc; "refused spec twice line {line}\n"),
        SpecFault::NeedsLabels { line, column } => {
            format!(in alloc; "refused spec needs labels line {line} column {column}\n")
        }
        SpecFault::Limit(fault) => limit_refusal(alloc, "spec", fault),
        SpecFault::OutOfMemory => Err(AllocError),
    }
}

/// Which limit a specification of one kind breaks; `Err` also where memory ran out.
pub fn limit_refusal(alloc: Global, kind: &str, fault: BuildFault) -> Result<String, AllocError>
    ensures { IfOk result (λ text. string_bytes text ≡ limit_line kind.now fault) }
{
    match fault {
        BuildFault::TooManyClasses { count } => {
            format!(in alloc; "refused {kind} too many classes {count}\n")
        }
        BuildFault::TooManyParts { count } => {
            format!(in alloc; "refused {kind} too many parts {count}\n")
        }
        BuildFault::TooDeep { depth } => format!(in alloc; "refused {kind} too deep {depth}\n"),
        BuildFault::TooManyNodes { count } => {
            format!(in alloc; "refused {kind} too many nodes {count}\n")
        }
        BuildFault::OutOfMemory => Err(AllocError),
    }
}

/// Why a specification isn't well founded; `Err` where that is want of memory.
fn line_for_cause(
    alloc: Global,
    system: &System,
    cause: UnfoundedCause,
) -> Result<Vec<u8>, AllocError>
    requires in_range { IsClassNamed system.now cause }
    ensures line { IfOk result (λ text. text.items ≡ cause_line system.now cause) }
    ensures memory { OnOk result (cause ≢ UnfoundedCause.OutOfMemory) }
{
    match cause {
        UnfoundedCause::NoObject(class) => named(alloc, "no object", system.name(class)),
        UnfoundedCause::ZeroPart(node) => {
            let number = node.0;
            let line = format!(in alloc; "refused spec zero part node {number}\n")?;
            Ok(line.into_bytes())
        }
        UnfoundedCause::ZeroLoop(class) => named(alloc, "zero loop", system.name(class)),
        UnfoundedCause::OutOfMemory => Err(AllocError),
    }
}

/// A refusal with the name of a class.
fn named(alloc: Global, why: &str, name: &Word) -> Result<Vec<u8>, AllocError>
    ensures { IfOk result (λ text. text.items ≡ (codes "refused spec " ++ (why.now ++ codes " "))
        ++ (name.now ++ feed)) }
{
    let head = format!(in alloc; "refused spec {why} ")?;
    let mut line = Vec::new(alloc);
    line.extend_from_slice(head.as_bytes())?;
    line.extend_from_slice(name.bytes())?;
    line.extend_from_slice(b"\n")?;
    Ok(line)
}

/// That no base was found, with a line for each proposal.
fn no_upper<const F: u32>(
    alloc: Global,
    system: &System,
    proposals: &[Trial],
) -> Result<Vec<u8>, AllocError>
    requires fraction_bits { IsFractionBits F }
    ensures { IfOk result (λ text. text.items ≡ no_upper_text system.now F proposals.now) }
{
    let candidates = 6 * ((F - 8) / 2 + 1);
    let count = proposals.len();
    let mut text = no_upper_head(alloc, candidates, count)?.into_bytes();
    for proposal in proposals {
        let line = proposal_of(alloc, system, proposal)?;
        text.extend_from_slice(line.as_slice())?;
    }
    Ok(text)
}

/// How many candidates and proposals there were.
fn no_upper_head(alloc: Global, candidates: u32, proposals: usize) -> Result<String, AllocError>
    ensures { IfOk result (λ text. string_bytes text ≡ no_upper_line candidates proposals) }
{
    format!(in alloc; "refused upper candidates {candidates} proposals {proposals}\n")
}

/// The line of a proposal that isn't post-fixed.
fn proposal_of(alloc: Global, system: &System, proposal: &Trial) -> Result<Vec<u8>, AllocError>
    ensures { IfOk result (λ line. line.items ≡ proposal_line system.now proposal.now) }
{
    let values = values_of(alloc, proposal.values.items())?;
    let got = got_of(alloc, proposal.got)?;
    let mut line = Vec::new(alloc);
    line.extend_from_slice(values.as_bytes())?;
    line.extend_from_slice(name_of(system, proposal.class_id.0))?;
    line.extend_from_slice(got.as_bytes())?;
    Ok(line)
}

/// The part of a proposal's line before the class's name.
fn values_of(alloc: Global, values: &[u64]) -> Result<String, AllocError>
    ensures { IfOk result (λ text. string_bytes text ≡ (codes "proposal"
        ++ flat_map number_field values.now) ++ codes " fails ") }
{
    let mut text = format!(in alloc; "proposal")?;
    for value in values {
        let value = *value;
        write!(text, " {value}")?;
    }
    text.push_str(" fails ")?;
    Ok(text)
}

/// The part of a proposal's line after the class's name.
fn got_of(alloc: Global, got: Option<u64>) -> Result<String, AllocError>
    ensures { IfOk result (λ text. string_bytes text ≡ codes " got " ++ (value_text got ++ feed)) }
{
    match got {
        Some(value) => format!(in alloc; " got {value}\n"),
        None => format!(in alloc; " got none\n"),
    }
}

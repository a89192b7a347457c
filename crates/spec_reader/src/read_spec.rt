//! From the bytes of a text to a system.
ghost use Rattle.std.specs.Prelude.{◌≡◌, ◌^◌, ◌<◌, ◌≤◌, ◌+◌, [], take, length, IfOk, IfErr, IfSome};
ghost use Rattle.std.specs.Prelude.{IfNone, OnOk};
ghost use Rattle.class_system.specs.Views.{spec_mode};
ghost use Rattle.class_system.specs.Limits.{IsWithinLimits};
ghost use Rattle.spec_reader.specs.Machine.{Start, Moded, Lines, Failed, step, run, mode_read};
ghost use Rattle.spec_reader.specs.Reading.{plain_tokens, StandFor, TokensFault, Grammar, Refuses};
ghost use Rattle.spec_reader.specs.Reading.{limit_fault};
ghost use Rattle.spec_reader.specs.Building.{BreaksAt, EndsText, IsParsed, IsNamed, IsStop};
ghost use Rattle.spec_reader.specs.Building.{IsStopOf};

use crate::fault::SpecFault;
use crate::parser::Reader;
use crate::sums::{Expects, Frame, Sums};
use crate::tokens::{Placed, Token};
use crate::{lexer, names};
use class_system::draft::{Draft, Mode};
use class_system::limits::BuildFault;
use class_system::system::System;
use std::alloc::{AllocError, Global};

/// The most bytes of a text.
const MOST_BYTES: usize = 65_536;

/// The mode that a word names.
fn mode_named(word: &[u8]) -> Option<Mode>
    ensures named { IfSome result (λ m. mode_read word.now ≡ Moded (spec_mode m)) }
    ensures none { IfNone result (mode_read word.now ≡ Failed) }
{
    if word == b"unlabelled".as_slice() {
        Some(Mode::Unlabelled)
    } else if word == b"labelled".as_slice() {
        Some(Mode::Labelled)
    } else {
        None
    }
}

/// The mode that a token names.
fn mode_of(token: &Token) -> Option<Mode>
    ensures named { IfSome result (λ m. step Start token.now ≡ Moded (spec_mode m)) }
    ensures none { IfNone result (step Start token.now ≡ Failed) }
{
    match token {
        Token::Name(word) => mode_named(word.bytes()),
        _ => None,
    }
}

/// The mode that the first line gives, or the place of the first token that can't stand.
fn mode_line(tokens: &[Placed]) -> Result<Mode, usize>
    requires ended { EndsText tokens.now }
    ensures long { IfOk result (λ m. 2 ≤ length tokens.now) }
    ensures mode { IfOk result (λ m. run Start (plain_tokens (take 2 tokens.now))
        ≡ Lines (record { mode = spec_mode m; definitions = [] })) }
    ensures stops { IfErr result (BreaksAt Start tokens.now) }
{
    let [first, second, ..] = tokens else {
        return Err(0);
    };
    let Some(mode) = mode_of(&first.token) else {
        return Err(0);
    };
    match second.token {
        Token::LineEnd => Ok(mode),
        _ => Err(1),
    }
}

/// The fault of a token that can't stand.
fn syntax_at(tokens: &[Placed], place: usize) -> SpecFault
    requires { BreaksAt Start tokens.now place }
    ensures { TokensFault tokens.now result }
{
    let placed = &tokens[place];
    SpecFault::Syntax {
        line: placed.line,
        column: placed.column,
    }
}

/// Why lines give no tables: a token can't stand, or memory ran out.
#[derive(Drop)]
enum Stop {
    At(usize),
    OutOfMemory,
}

/// The fault of a stop in the lines, which begin behind two tokens.
fn stop_fault(tokens: &[Placed], stop: Stop) -> SpecFault
    requires few { length tokens.now < 2 ^ 24 }
    requires stops { IsStopOf tokens.now stop }
    ensures fault { TokensFault tokens.now result }
{
    match stop {
        Stop::At(place) => syntax_at(tokens, place + 2),
        Stop::OutOfMemory => SpecFault::OutOfMemory,
    }
}

/// A draft with the names that begin lines.
fn named_draft(alloc: Global, mode: Mode, lines: &[Placed]) -> Result<Draft, AllocError>
    requires few { length lines.now < 2 ^ 24 }
    ensures named { IfOk result (IsNamed (spec_mode mode) lines.now) }
{
    let mut draft = Draft::new(alloc, mode);
    names::add_names(alloc, &mut draft, lines)?;
    Ok(draft)
}

/// The tables of lines.
fn parse(alloc: Global, mode: Mode, lines: &[Placed]) -> Result<Draft, Stop>
    requires few { length lines.now < 2 ^ 24 }
    requires ended { EndsText lines.now }
    ensures ok { IfOk result (IsParsed (spec_mode mode) lines.now) }
    ensures stops { IfErr result (IsStop (spec_mode mode) lines.now) }
{
    let Ok(draft) = named_draft(alloc, mode, lines) else {
        return Err(Stop::OutOfMemory);
    };
    let frame = Frame::new(alloc);
    let outers = Vec::new(alloc);
    let sums = Sums {
        draft,
        frame,
        outers,
    };
    let expects = Expects::Line;
    let mut reader = Reader { sums, expects };
    match reader.take_all(alloc, lines) {
        Ok(None) => {
            let sums = reader.sums;
            Ok(sums.draft)
        }
        Ok(Some(place)) => Err(Stop::At(place)),
        Err(_) => Err(Stop::OutOfMemory),
    }
}

/// The tables of a text's tokens.
fn read_tokens(alloc: Global, tokens: &[Placed]) -> Result<Draft, SpecFault>
    requires few { length tokens.now < 2 ^ 24 }
    requires ended { EndsText tokens.now }
    ensures ok { IfOk result (StandFor tokens.now) }
    ensures fault { IfErr result (TokensFault tokens.now) }
{
    let mode = match mode_line(tokens) {
        Ok(mode) => mode,
        Err(place) => return Err(syntax_at(tokens, place)),
    };
    let lines = &tokens[2..];
    let draft = match parse(alloc, mode, lines) {
        Ok(draft) => draft,
        Err(stop) => return Err(stop_fault(tokens, stop)),
    };
    match names::first_fault(alloc, &draft, lines) {
        Ok(None) => Ok(draft),
        Ok(Some(fault)) => Err(fault),
        Err(_) => Err(SpecFault::OutOfMemory),
    }
}

/// The fault of a broken limit.
fn limit_fault(fault: BuildFault) -> SpecFault
    ensures exact { result ≡ limit_fault fault }
{
    match fault {
        BuildFault::OutOfMemory => SpecFault::OutOfMemory,
        BuildFault::TooManyClasses { .. }
        | BuildFault::TooManyParts { .. }
        | BuildFault::TooDeep { .. }
        | BuildFault::TooManyNodes { .. } => SpecFault::Limit(fault),
    }
}

/// Reads the text of a specification.
///
/// The refusals are tested in the order in which `SpecFault` has them, a whole text's `Syntax`
/// before its first `Undefined`, `Twice` or `NeedsLabels`. `OutOfMemory` may come at any point.
///
/// What a system's `to_text` gives is read back as the same specification
/// (`laws::what_a_system_prints_is_read_back`).
pub fn read_spec(alloc: Global, bytes: &[u8]) -> Result<System, SpecFault>
    ensures read { IfOk result (Grammar bytes.now) }
    ensures few { OnOk result (length bytes.now ≤ 65536) }
    ensures limits { IfOk result IsWithinLimits }
    ensures refused { IfErr result (Refuses bytes.now) }
{
    if bytes.len() > MOST_BYTES {
        let len = bytes.len() as u64;
        return Err(SpecFault::TooLong { len });
    }
    if let Some(place) = lexer::first_not_text(bytes) {
        let place = place as u64;
        return Err(SpecFault::NotText { place });
    }
    let Ok(tokens) = lexer::tokens(alloc, bytes) else {
        return Err(SpecFault::OutOfMemory);
    };
    let draft = match read_tokens(alloc, tokens.as_slice()) {
        Ok(draft) => draft,
        Err(fault) => return Err(fault),
    };
    match System::build(alloc, draft) {
        Ok(system) => Ok(system),
        Err(fault) => Err(limit_fault(fault)),
    }
}

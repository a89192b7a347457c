//! The names of a text: which are defined, and the first fault.
ghost use Rattle.std.specs.Prelude.{◌≡◌, ◌^◌, ◌<◌, ◌≤◌, ◌+◌, [], ◌∷◌, true, length, IfOk, OnOk};
ghost use Rattle.class_system.specs.Views.{spec_mode};
ghost use Rattle.spec_reader.specs.Reading.{plain_tokens};
ghost use Rattle.spec_reader.specs.Faults.{line_names, with_names, first_fault, defined_by};
ghost use Rattle.spec_reader.specs.Faults.{ends_line, fault_at, needs_labels};

use crate::fault::SpecFault;
use crate::tokens::{Counting, Placed, Token};
use bz_outside::word::Word;
use class_system::draft::{ClassFault, Draft, Mode};
use class_system::names::Names;
use std::alloc::{AllocError, Global};

/// Whether a token ends a line.
fn ends_line(token: &Token) -> bool
    ensures exact { result ≡ ends_line token.now }
{
    matches!(token, Token::LineEnd)
}

/// Adds a class, unless it is there.
fn add_name(draft: &mut Draft, name: Word) -> Result<(), AllocError>
    requires few { length draft.old.names < 2 ^ 32 }
    ensures names { OnOk result (draft.new.names ≡ with_names draft.old.names (name ∷ [])) }
    ensures others { OnOk result (draft.new ≡ record draft.old { names = draft.new.names }) }
    ensures few { OnOk result (length draft.new.names ≤ length draft.old.names + 1) }
{
    match draft.add_class(name) {
        Ok(_) => Ok(()),
        Err(ClassFault::Twice(_)) => Ok(()),
        Err(ClassFault::OutOfMemory) => Err(AllocError),
    }
}

/// Adds the class that a token defines, if it defines one that isn't there.
fn add_defined(
    alloc: Global,
    draft: &mut Draft,
    starts: bool,
    token: &Token,
) -> Result<(), AllocError>
    requires few { length draft.old.names < 2 ^ 32 }
    ensures names { OnOk result (draft.new.names
        ≡ with_names draft.old.names (defined_by starts token.now)) }
    ensures others { OnOk result (draft.new ≡ record draft.old { names = draft.new.names }) }
    ensures few { OnOk result (length draft.new.names ≤ length draft.old.names + 1) }
{
    match token {
        Token::Name(name) if starts => {
            let name = Word::from_bytes(alloc, name.bytes())?;
            add_name(draft, name)
        }
        _ => Ok(()),
    }
}

/// Adds the names that begin lines to a draft, each once.
pub fn add_names(alloc: Global, draft: &mut Draft, tokens: &[Placed]) -> Result<(), AllocError>
    requires few { length draft.old.names + length tokens.now < 2 ^ 32 }
    ensures names { OnOk result (draft.new.names
        ≡ with_names draft.old.names (line_names true (plain_tokens tokens.now))) }
    ensures others { OnOk result (draft.new ≡ record draft.old { names = draft.new.names }) }
    ensures few { OnOk result
        (length draft.new.names ≤ length draft.old.names + length tokens.now) }
{
    let mut starts = true;
    for placed in tokens {
        add_defined(alloc, draft, starts, &placed.token)?;
        starts = ends_line(&placed.token);
    }
    Ok(())
}

/// The fault of a set or a cycle in an unlabelled text.
fn counted_fault(mode: Mode, counting: Counting, line: u32, column: u32) -> Option<SpecFault>
    ensures exact { result ≡ needs_labels (spec_mode mode) counting line column }
{
    match (mode, counting) {
        (Mode::Labelled, _) | (Mode::Unlabelled, Counting::Seq) => None,
        (Mode::Unlabelled, Counting::Set | Counting::Cyc) => {
            Some(SpecFault::NeedsLabels { line, column })
        }
    }
}

/// The fault of a token, where the draft's names are defined, and those seen before it.
fn token_fault(draft: &Draft, seen: &Names, starts: bool, placed: &Placed) -> Option<SpecFault>
    requires few { length draft.now.names < 2 ^ 32 }
    ensures exact { result ≡ fault_at draft.now.mode draft.now.names seen.now starts
        placed.now.token placed.now.line placed.now.column }
{
    let line = placed.line;
    let column = placed.column;
    match &placed.token {
        Token::Name(name) if starts => match seen.place(name) {
            Some(_) => Some(SpecFault::Twice { line }),
            None => None,
        },
        Token::Name(name) => match draft.class_of(name) {
            Some(_) => None,
            None => Some(SpecFault::Undefined { line, column }),
        },
        Token::Counted(counting) => counted_fault(draft.mode(), *counting, line, column),
        _ => None,
    }
}

/// Adds the name that a token defines, if it defines one that isn't there.
fn see(alloc: Global, seen: &mut Names, starts: bool, token: &Token) -> Result<(), AllocError>
    ensures names { OnOk result (seen.new ≡ with_names seen.old (defined_by starts token.now)) }
{
    match token {
        Token::Name(name) if starts => match seen.place(name) {
            Some(_) => Ok(()),
            None => seen.push(Word::from_bytes(alloc, name.bytes())?),
        },
        _ => Ok(()),
    }
}

/// The first fault of tokens by place, where the draft's names are defined.
pub fn first_fault(
    alloc: Global,
    draft: &Draft,
    tokens: &[Placed],
) -> Result<Option<SpecFault>, AllocError>
    requires few { length draft.now.names < 2 ^ 32 }
    ensures exact { IfOk result (λ f.
        f ≡ first_fault draft.now.mode draft.now.names [] true tokens.now) }
{
    let mut seen = Names::new(alloc);
    fault_behind(alloc, draft, &mut seen, tokens)
}

/// The first fault of tokens that begin a line, where these names were seen before.
fn fault_behind(
    alloc: Global,
    draft: &Draft,
    seen: &mut Names,
    tokens: &[Placed],
) -> Result<Option<SpecFault>, AllocError>
    requires few { length draft.now.names < 2 ^ 32 }
    ensures exact { IfOk result (λ f.
        f ≡ first_fault draft.now.mode draft.now.names seen.old true tokens.now) }
{
    let mut starts = true;
    for placed in tokens {
        if let Some(fault) = token_fault(draft, seen, starts, placed) {
            return Ok(Some(fault));
        }
        see(alloc, seen, starts, &placed.token)?;
        starts = ends_line(&placed.token);
    }
    Ok(None)
}

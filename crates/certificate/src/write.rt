//! The texts of a certificate's header, entries and closing: as texts of their own, or appended to
//! another.
ghost use Rattle.std.specs.Prelude.{◌≡◌, ◌+◌, ◌*◌, ◌<◌, ◌≤◌, ◌∷◌, ◌++◌, [], length, codes, IfOk, OnOk, OnErr};
ghost use Rattle.std.specs.Prelude.{take};
ghost use Rattle.hex.specs.Hex.{encode_lower};
ghost use Rattle.class_system.specs.CanonicalText.{mode_word};
ghost use Rattle.class_system.specs.Views.{spec_mode};
ghost use Rattle.certificate.specs.Patterns.{filled, places};
ghost use Rattle.certificate.specs.Fields.{cell_field, cells_text};
ghost use Rattle.certificate.specs.Lines.{Line, text_of, whole_line, end_pattern, open_line};
ghost use Rattle.certificate.specs.Certificates.{spec_lines, base_lines, lines_below_version};
ghost use Rattle.certificate.specs.Certificates.{lines_above_window, lines_without_window};
ghost use Rattle.certificate.specs.Certificates.{header_lines, object_lines, entry_lines};
ghost use Rattle.certificate.specs.Certificates.{open_lines, closing_lines, FitsHeader};
ghost use Rattle.certificate.specs.Certificates.{FitsClosing};

use crate::certificate::{CertEntry, Header};
use crate::closing::{Closing, ClosingWord};
use crate::digest::SpecDigest;
use crate::pattern::push_filled;
use bz_model::cell::Cell;
use class_system::draft::Mode;
use object_text::append::{push_byte, push_number};
use size_window::ending::Straddle;
use std::alloc::{AllocError, Global};

/// The lines of a header.
pub fn write_header(alloc: Global, h: &Header) -> Result<Vec<u8>, AllocError>
    requires { FitsHeader h.now }
    ensures { IfOk result (λ text. text.items ≡ text_of (header_lines h.now)) }
{
    let mut text = Vec::new(alloc);
    push_line(&mut text, b"boltzmann #", &[u64::from(h.version)])?;
    push_below_version(alloc, &mut text, h)?;
    Ok(text)
}

/// The lines of a header without its window.
pub fn write_without_window(alloc: Global, h: &Header) -> Result<Vec<u8>, AllocError>
    requires { FitsHeader h.now }
    ensures { IfOk result (λ text. text.items ≡ text_of (lines_without_window h.now)) }
{
    let mut text = Vec::new(alloc);
    push_line(&mut text, b"boltzmann #", &[u64::from(h.version)])?;
    push_above_window(alloc, &mut text, h)?;
    push_base(&mut text, h)?;
    Ok(text)
}

/// Appends the lines of a header below its first, which names the version.
///
/// A refusal, which comes for want of memory alone, leaves the text unchanged.
pub fn append_below_version(alloc: Global, text: &mut Vec<u8>, h: &Header) -> Result<(), AllocError>
    requires { FitsHeader h.now }
    ensures ok { OnOk result (text.new.items ≡ text.old.items
        ++ text_of (lines_below_version h.now)) }
    ensures err { OnErr result (text.new.items ≡ text.old.items) }
{
    let mut lines = Vec::new(alloc);
    push_below_version(alloc, &mut lines, h)?;
    text.extend_from_slice(lines.as_slice())
}

/// The lines of an entry.
pub fn write_entry(alloc: Global, e: &CertEntry) -> Result<Vec<u8>, AllocError>
    ensures { IfOk result (λ text. text.items ≡ text_of (entry_lines e.now)) }
{
    let mut text = Vec::new(alloc);
    let object = e.text.bytes();
    let cells = e.cells.items();
    push_object(&mut text, e.number, e.place, e.size, object, cells)?;
    Ok(text)
}

/// Appends the lines of a kept object: its number, the place of its first bit and its size, its
/// text, and its cells.
///
/// A refusal, which comes for want of memory alone, leaves the text unchanged.
pub fn append_object(
    alloc: Global,
    text: &mut Vec<u8>,
    number: u64,
    place: u64,
    size: u64,
    object: &[u8],
    cells: &[Cell],
) -> Result<(), AllocError>
    ensures ok { OnOk result (text.new.items ≡ text.old.items
        ++ text_of (object_lines number place size object.now cells.now)) }
    ensures err { OnErr result (text.new.items ≡ text.old.items) }
{
    let mut lines = Vec::new(alloc);
    push_object(&mut lines, number, place, size, object, cells)?;
    text.extend_from_slice(lines.as_slice())
}

/// The lines of a closing.
pub fn write_closing(alloc: Global, c: &Closing) -> Result<Vec<u8>, AllocError>
    requires { FitsClosing c.now }
    ensures { IfOk result (λ text. text.items ≡ text_of (closing_lines c.now)) }
{
    let mut text = Vec::new(alloc);
    push_closing(&mut text, c)?;
    Ok(text)
}

/// Appends the lines of a closing.
///
/// A refusal, which comes for want of memory alone, leaves the text unchanged.
pub fn append_closing(alloc: Global, text: &mut Vec<u8>, c: &Closing) -> Result<(), AllocError>
    ensures ok { OnOk result (text.new.items ≡ text.old.items ++ text_of (closing_lines c.now)) }
    ensures err { OnErr result (text.new.items ≡ text.old.items) }
{
    let mut lines = Vec::new(alloc);
    push_closing(&mut lines, c)?;
    text.extend_from_slice(lines.as_slice())
}

/// Appends the lines of a header below its first; a refusal may leave some of them.
fn push_below_version(alloc: Global, text: &mut Vec<u8>, h: &Header) -> Result<(), AllocError>
    requires { FitsHeader h.now }
    ensures { OnOk result (text.new.items ≡ text.old.items
        ++ text_of (lines_below_version h.now)) }
{
    push_above_window(alloc, text, h)?;
    push_line(text, b"window # #", &[h.min, h.max])?;
    push_base(text, h)?;
    Ok(())
}

/// Appends the lines of a header between its first and its window; a refusal may leave some of
/// them.
fn push_above_window(alloc: Global, text: &mut Vec<u8>, h: &Header) -> Result<(), AllocError>
    ensures { OnOk result (text.new.items ≡ text.old.items
        ++ text_of (lines_above_window h.now)) }
{
    push_words(text, b"mode ", mode_of(h.mode))?;
    push_digest(alloc, text, &h.digest)?;
    push_line(text, b"x #/#", &[h.x.num, h.x.den])?;
    push_line(text, b"fraction #", &[u64::from(h.fraction)])?;
    Ok(())
}

/// Appends the lines of a kept object; a refusal may leave some of them.
fn push_object(
    text: &mut Vec<u8>,
    number: u64,
    place: u64,
    size: u64,
    object: &[u8],
    cells: &[Cell],
) -> Result<(), AllocError>
    ensures { OnOk result (text.new.items ≡ text.old.items
        ++ text_of (object_lines number place size object.now cells.now)) }
{
    text.reserve(room_for(object.len(), cells.len()))?;
    push_line(text, b"object # at # size #", &[number, place, size])?;
    push_words(text, b"text ", object)?;
    push_cells(text, cells)?;
    Ok(())
}

/// How many bytes are taken at once for the lines of an object with a text of so many bytes.
///
/// Most cells take at most eight bytes, and most first lines at most 80 with the other words. Other
/// lines take more as they grow.
fn room_for(object: usize, cells: usize) -> usize
    ensures { result ≤ 80 + object + 8 * cells }
{
    cells
        .saturating_mul(8)
        .saturating_add(object)
        .saturating_add(80)
}

/// Appends the lines of a closing; a refusal may leave some of them.
fn push_closing(text: &mut Vec<u8>, c: &Closing) -> Result<(), AllocError>
    ensures { OnOk result (text.new.items ≡ text.old.items ++ text_of (closing_lines c.now)) }
{
    push_open(text, c.straddle)?;
    push_line(
        text,
        pattern_of(c.word),
        &[c.kept, c.thrown, c.bits, c.turns],
    )?;
    Ok(())
}

/// Appends a line: a pattern filled with these numbers.
fn push_line(text: &mut Vec<u8>, pattern: &[u8], numbers: &[u64]) -> Result<(), AllocError>
    requires { places pattern.now ≤ length numbers.now }
    ensures { OnOk result (text.new.items ≡ text.old.items
        ++ (filled pattern.now numbers.now ++ 10 ∷ [])) }
{
    push_filled(text, pattern, numbers)?;
    text.push(b'\n')?;
    Ok(())
}

/// Appends a line of two words.
fn push_words(text: &mut Vec<u8>, first: &[u8], second: &[u8]) -> Result<(), AllocError>
    ensures { OnOk result (text.new.items ≡ text.old.items
        ++ ((first.now ++ second.now) ++ 10 ∷ [])) }
{
    text.extend_from_slice(first)?;
    text.extend_from_slice(second)?;
    text.push(b'\n')?;
    Ok(())
}

/// A mode's word.
fn mode_of(mode: Mode) -> &'static [u8]
    ensures { result.now ≡ mode_word (spec_mode mode) }
{
    match mode {
        Mode::Unlabelled => b"unlabelled",
        Mode::Labelled => b"labelled",
    }
}

/// Appends the line of the digest, where there is one.
fn push_digest(
    alloc: Global,
    text: &mut Vec<u8>,
    digest: &Option<SpecDigest>,
) -> Result<(), AllocError>
    ensures { OnOk result (text.new.items ≡ text.old.items ++ text_of (spec_lines digest.now)) }
{
    match digest {
        Some(digest) => {
            let hex = hex::encode(alloc, digest.bytes())?;
            push_words(text, b"spec ", hex.as_bytes())
        }
        None => Ok(()),
    }
}

/// Appends the lines of the base.
fn push_base(text: &mut Vec<u8>, h: &Header) -> Result<(), AllocError>
    requires { length h.now.base ≡ length h.now.names }
    ensures { OnOk result (text.new.items ≡ text.old.items
        ++ text_of (base_lines h.now.names h.now.base)) }
{
    let values = h.base.items();
    for class in 0..values.len() {
        let name = h.names.name(class);
        text.extend_from_slice(b"base ")?;
        text.extend_from_slice(name.bytes())?;
        push_line(text, b" #", &[values[class]])?;
    }
    Ok(())
}

/// Appends the line of cells.
fn push_cells(text: &mut Vec<u8>, cells: &[Cell]) -> Result<(), AllocError>
    ensures { OnOk result (text.new.items ≡ text.old.items ++ (cells_text cells.now ++ 10 ∷ [])) }
{
    text.extend_from_slice(b"cells")?;
    for cell in cells {
        push_cell(text, *cell)?;
    }
    text.push(b'\n')?;
    Ok(())
}

/// Appends a cell, after a space.
fn push_cell(text: &mut Vec<u8>, cell: Cell) -> Result<(), AllocError>
    ensures { OnOk result (text.new.items ≡ text.old.items ++ cell_field cell) }
{
    push_byte(text, b' ')?;
    push_number(text, cell.k)?;
    push_byte(text, b'/')?;
    push_number(text, u64::from(cell.b))?;
    Ok(())
}

/// Appends the line of a number that was left open, where there is one.
fn push_open(text: &mut Vec<u8>, straddle: Option<Straddle>) -> Result<(), AllocError>
    ensures { OnOk result (text.new.items ≡ text.old.items ++ text_of (open_lines straddle)) }
{
    match straddle {
        Some(Straddle::Node { node, cell, lo, hi }) => push_line(
            text,
            b"undecided node # cell #/# within # #",
            &[u64::from(node.0), cell.k, u64::from(cell.b), lo, hi],
        ),
        Some(Straddle::Label { m, cell }) => push_line(
            text,
            b"undecided label # cell #/#",
            &[m, cell.k, u64::from(cell.b)],
        ),
        None => Ok(()),
    }
}

/// The pattern of the last line, by why the drawing ended.
pub(crate) fn pattern_of(word: ClosingWord) -> &'static [u8]
    ensures { result.now ≡ end_pattern word }
{
    match word {
        ClosingWord::Done => b"end done kept # thrown # bits # turns #",
        ClosingWord::TapeEnded => b"end tape-ended kept # thrown # bits # turns #",
        ClosingWord::Undecided => b"end undecided kept # thrown # bits # turns #",
        ClosingWord::TurnLimit => b"end turn-limit kept # thrown # bits # turns #",
        ClosingWord::ReadFault => b"end read-fault kept # thrown # bits # turns #",
    }
}

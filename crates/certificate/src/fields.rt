//! The fields of a certificate's lines, read exactly.
ghost use Rattle.std.specs.Prelude.{◌≡◌, ◌≢◌, ◌∷◌, ◌++◌, [], ℕ, List, true, false, ◌^◌, ◌<◌, ◌≤◌};
ghost use Rattle.std.specs.Prelude.{◌↔◌, length, codes, slice_index, IsTrue, IfSome, IfNone, IfOk};
ghost use Rattle.std.specs.Char.{is_ascii_alphabetic};
ghost use Rattle.std.specs.List.{AllPass, AllByRecursion};
ghost use Rattle.bz_model.specs.declared.cell.Cell.{Cell};
ghost use Rattle.bz_model.specs.Cell.{IsCell, AreCells};
ghost use Rattle.class_system.specs.Words.{IsName, is_run_byte, kept_words};
ghost use Rattle.certificate.specs.Patterns.{filled, HasNoDigit};
ghost use Rattle.certificate.specs.Fields.{IsPrinted, IsDigest, cell_field, cells_text};
ghost use Rattle.certificate.specs.Fields.{base_line};

use crate::pattern::{read_front, read_whole};
use bz_model::cell::Cell;
use bz_model::cells::Cells;
use std::alloc::{AllocError, Global};

/// What follows a word at the front of a text.
pub(crate) fn behind_word<'a>(word: &[u8], text: &'a [u8]) -> Option<&'a [u8]>
    ensures found { IfSome result (λ rest. text.now ≡ word.now ++ rest.now) }
    ensures none { IfNone result ((rest : List ℕ) → text.now ≢ word.now ++ rest) }
{
    text.strip_prefix(word)
}

/// Whether a text is printed: one or more bytes from space to `~`.
pub(crate) fn is_printed(text: &[u8]) -> bool
    ensures { IsTrue result ↔ IsPrinted text.now }
{
    !text.is_empty() && text.iter().all(|b| b' ' <= *b && *b <= b'~')
}

/// Whether the numbers are those of a cell: from 1 to 60 bits, and below 1.
pub(crate) fn is_cell(k: u64, b: u64) -> bool
    ensures { IsTrue result ↔ IsCell k b }
{
    1 <= b && b <= 60 && k < 1_u64 << b
}

/// The cell at the front of a text, after a space, and what follows it.
fn cell_at(text: &[u8]) -> Option<(Cell, &[u8])>
    ensures found { IfSome result (λ found. IsCell found.0.k found.0.b
        × (text.now ≡ cell_field found.0 ++ found.1.now) × HasNoDigit found.1.now) }
    ensures none { IfNone result ((cell : Cell) (rest : List ℕ) → IsCell cell.k cell.b
        → HasNoDigit rest → text.now ≢ cell_field cell ++ rest) }
{
    let mut numbers = [0; 2];
    let rest = read_front(b" #/#", text, &mut numbers)?;
    let k = numbers[0];
    let b = numbers[1];
    if !is_cell(k, b) {
        return None;
    }
    Some((Cell { k, b: b as u32 }, rest))
}

/// The cells of a line; `None` where it is no line of cells.
pub(crate) fn cells_of(alloc: Global, line: &[u8]) -> Result<Option<Cells>, AllocError>
    ensures found { IfOk result (λ found. IfSome found (λ cells. AreCells cells.items
        × (line.now ≡ cells_text cells.items))) }
    ensures none { IfOk result (λ found. IfNone found ((cells : List Cell) → AreCells cells
        → line.now ≢ cells_text cells)) }
{
    let mut cells = Cells::new(alloc);
    let Some(mut rest) = behind_word(b"cells", line) else {
        return Ok(None);
    };
    'cells: while !rest.is_empty() {
        let Some((cell, after)) = cell_at(rest) else {
            return Ok(None);
        };
        cells.push(cell)?;
        rest = after;
    }
    Ok(Some(cells))
}

/// Whether a text is a class's name.
pub(crate) fn is_name(text: &[u8]) -> bool
    ensures { IsTrue result ↔ IsName text.now }
{
    begins_with_letter(text) && text.len() <= 32 && is_run(text) && !is_kept(text)
}

/// Whether a text begins with a letter.
fn begins_with_letter(text: &[u8]) -> bool
    ensures { result ≡ is_ascii_alphabetic (slice_index text.now 0) }
{
    match text {
        [first, ..] => first.is_ascii_alphabetic(),
        [] => false,
    }
}

/// Whether each byte is one of a run.
fn is_run(text: &[u8]) -> bool
    ensures { IsTrue result ↔ AllPass is_run_byte text.now }
{
    text.iter().all(|b| b.is_ascii_alphanumeric() || *b == b'_')
}

/// Whether a text is a word with a meaning of its own in a specification.
fn is_kept(text: &[u8]) -> bool
    ensures kept { result ≡ true → ¬ (AllByRecursion (λ kept. text.now ≢ kept) kept_words) }
    ensures free { result ≡ false → AllByRecursion (λ kept. text.now ≢ kept) kept_words }
{
    match text {
        b"E" | b"Z" | b"Seq" | b"Set" | b"Cyc" => true,
        _ => false,
    }
}

/// How many bytes a text has before its first space; all where it has none.
fn before_space(text: &[u8]) -> usize
    ensures within { result ≤ length text.now }
    ensures before { (k : ℕ) → k < result → slice_index text.now k ≢ 32 }
    ensures here { result < length text.now → slice_index text.now result ≡ 32 }
{
    for (i, byte) in text.iter().enumerate() {
        if *byte == b' ' {
            return i;
        }
    }
    text.len()
}

/// The name and the value of a line of the base; `None` where it is no such line.
pub(crate) fn base_of(line: &[u8]) -> Option<(&[u8], u64)>
    ensures found { IfSome result (λ found. IsName found.0.now × (found.1 < 2 ^ 64)
        × (line.now ≡ base_line found.0.now found.1)) }
    ensures none { IfNone result ((name : List ℕ) (value : ℕ) → IsName name → value < 2 ^ 64
        → line.now ≢ base_line name value) }
{
    let rest = behind_word(b"base ", line)?;
    let end = before_space(rest);
    let name = &rest[..end];
    let field = &rest[end..];
    if !is_name(name) {
        return None;
    }
    let mut numbers = [0];
    if !read_whole(b" #", field, &mut numbers) {
        return None;
    }
    Some((name, numbers[0]))
}

//! The lines of a certificate, read exactly.
ghost use Rattle.std.specs.Prelude.{◌≡◌, ◌≢◌, ◌⊎◌, ◌^◌, ◌<◌, ◌≤◌, ◌↔◌, ℕ, List, None, IsTrue};
ghost use Rattle.std.specs.Prelude.{IfSome, IfNone};
ghost use Rattle.hex.specs.Hex.{encode_lower};
ghost use Rattle.bz_model.specs.declared.cell.Cell.{Cell};
ghost use Rattle.bz_model.specs.Cell.{IsCell};
ghost use Rattle.bz_model.specs.Number.{IsPart};
ghost use Rattle.class_system.specs.declared.draft.Mode.{Mode};
ghost use Rattle.class_system.specs.declared.ids.ExprId.{ExprId};
ghost use Rattle.size_window.specs.declared.ending.Straddle.{Straddle};
ghost use Rattle.size_window.specs.declared.ending.Straddle.TheVariants as straddle;
ghost use Rattle.certificate.specs.declared.closing.ClosingWord.{ClosingWord};
ghost use Rattle.certificate.specs.Certificates.{IsOpen};
ghost use Rattle.certificate.specs.Fields.{IsPrinted, IsDigest, spec_line};
ghost use Rattle.certificate.specs.Lines.{version_line, mode_line, x_line, fraction_line};
ghost use Rattle.certificate.specs.Lines.{window_line, object_line, text_line, open_line, end_line};
ghost use Rattle.certificate.specs.Ranges.{IsSmall, OpenInRange, ClosingInRange};

use crate::closing::{Closing, ClosingWord};
use crate::digest::SpecDigest;
use crate::fields::{behind_word, is_cell, is_printed};
use crate::pattern::read_whole;
use crate::write::pattern_of;
use bz_model::cell::Cell;
use bz_model::fraction::Fraction;
use class_system::draft::Mode;
use class_system::ids::ExprId;
use hex::FromHex;
use size_window::ending::Straddle;

/// The version that the first line names; `None` where it names none.
pub(crate) fn version_of(line: &[u8]) -> Option<u8>
    ensures found { IfSome result (λ v. ((v ≡ 1) ⊎ (v ≡ 2)) × (line.now ≡ version_line v)) }
    ensures none { IfNone result ((v : ℕ) → (v ≡ 1) ⊎ (v ≡ 2) → line.now ≢ version_line v) }
{
    let mut numbers = [0];
    if !read_whole(b"boltzmann #", line, &mut numbers) {
        return None;
    }
    let version = numbers[0];
    if version == 1 {
        return Some(1);
    }
    if version == 2 {
        return Some(2);
    }
    None
}

/// The mode of the mode's line; `None` where it is no such line.
pub(crate) fn mode_of(line: &[u8]) -> Option<Mode>
    ensures found { IfSome result (λ mode. line.now ≡ mode_line mode) }
    ensures none { IfNone result ((mode : Mode) → line.now ≢ mode_line mode) }
{
    if read_whole(b"mode unlabelled", line, &mut []) {
        return Some(Mode::Unlabelled);
    }
    if read_whole(b"mode labelled", line, &mut []) {
        return Some(Mode::Labelled);
    }
    None
}

/// The digest of the digest's line; `None` where it is no such line.
pub(crate) fn digest_of(line: &[u8]) -> Option<SpecDigest>
    ensures found { IfSome result (λ digest. IsDigest digest × (line.now ≡ spec_line digest)) }
    ensures none { IfNone result ((digest : List ℕ) → IsDigest digest
        → line.now ≢ spec_line digest) }
{
    let text = behind_word(b"spec ", line)?;
    match <[u8; 32] as FromHex>::from_hex(text) {
        Ok(bytes) if is_hex_of(&bytes, text) => Some(SpecDigest::new(bytes)),
        _ => None,
    }
}

/// Whether a text is that of these bytes in hex digits, with lower case letters.
fn is_hex_of(bytes: &[u8; 32], text: &[u8]) -> bool
    ensures { IsTrue result ↔ (text.now ≡ encode_lower bytes.now) }
{
    let mut again = [0; 64];
    hex::encode_to_slice(&bytes[..], &mut again).is_ok() && again.as_slice() == text
}

/// The fraction of x's line; `None` where it is no such line.
pub(crate) fn x_of(line: &[u8]) -> Option<Fraction>
    ensures found { IfSome result (λ x. line.now ≡ x_line x.num x.den) }
    ensures none { IfNone result ((num den : ℕ) → IsPart num → IsPart den
        → line.now ≢ x_line num den) }
{
    let mut numbers = [0; 2];
    if !read_whole(b"x #/#", line, &mut numbers) {
        return None;
    }
    let num = numbers[0];
    let den = numbers[1];
    if !is_part(num) || !is_part(den) {
        return None;
    }
    Some(Fraction { num, den })
}

/// Whether a number may be a part of x.
fn is_part(n: u64) -> bool
    ensures { IsTrue result ↔ IsPart n }
{
    1 <= n && n <= 1_000_000
}

/// The fraction bits of their line; `None` where it is no such line.
pub(crate) fn fraction_of(line: &[u8]) -> Option<u32>
    ensures found { IfSome result (λ bits. (bits < 2 ^ 32) × (line.now ≡ fraction_line bits)) }
    ensures none { IfNone result ((bits : ℕ) → bits < 2 ^ 32 → line.now ≢ fraction_line bits) }
{
    let mut numbers = [0];
    if !read_whole(b"fraction #", line, &mut numbers) {
        return None;
    }
    let bits = numbers[0];
    if bits > u64::from(u32::MAX) {
        return None;
    }
    Some(bits as u32)
}

/// The least and the greatest size of the window's line; `None` where it is no such line.
pub(crate) fn window_of(line: &[u8]) -> Option<(u64, u64)>
    ensures found { IfSome result (λ w. IsSmall w.0 × IsSmall w.1
        × (line.now ≡ window_line w.0 w.1)) }
    ensures none { IfNone result ((min max : ℕ) → IsSmall min → IsSmall max
        → line.now ≢ window_line min max) }
{
    let mut numbers = [0; 2];
    if !read_whole(b"window # #", line, &mut numbers) {
        return None;
    }
    Some((numbers[0], numbers[1]))
}

/// The number, the place and the size of an object's first line; `None` where it is no such line.
pub(crate) fn object_of(line: &[u8]) -> Option<(u64, u64, u64)>
    ensures found { IfSome result (λ o. IsSmall o.0 × IsSmall o.1 × IsSmall o.2
        × (line.now ≡ object_line o.0 o.1 o.2)) }
    ensures none { IfNone result ((number place size : ℕ) → IsSmall number → IsSmall place
        → IsSmall size → line.now ≢ object_line number place size) }
{
    let mut numbers = [0; 3];
    if !read_whole(b"object # at # size #", line, &mut numbers) {
        return None;
    }
    Some((numbers[0], numbers[1], numbers[2]))
}

/// The text of an object's text line; `None` where it is no such line.
pub(crate) fn printed_of(line: &[u8]) -> Option<&[u8]>
    ensures found { IfSome result (λ text. IsPrinted text.now × (line.now ≡ text_line text.now)) }
    ensures none { IfNone result ((text : List ℕ) → IsPrinted text → line.now ≢ text_line text) }
{
    let text = behind_word(b"text ", line)?;
    if !is_printed(text) {
        return None;
    }
    Some(text)
}

/// Whether the numbers are those of a cell of 60 bits.
fn is_full_cell(k: u64, b: u64) -> bool
    ensures { IsTrue result ↔ (IsCell k b × (b ≡ 60)) }
{
    b == 60 && is_cell(k, b)
}

/// The number left open at a node of such a line; `None` where it is no such line.
fn node_of(line: &[u8]) -> Option<Straddle>
    ensures found { IfSome result (λ s. IsOpen s × OpenInRange s × (line.now ≡ open_line s)) }
    ensures none { IfNone result ((node : ExprId) (cell : Cell) (lo hi : ℕ)
        → IsOpen (straddle.Node node cell lo hi) → OpenInRange (straddle.Node node cell lo hi)
        → line.now ≢ open_line (straddle.Node node cell lo hi)) }
{
    let mut numbers = [0; 5];
    if !read_whole(b"undecided node # cell #/# within # #", line, &mut numbers) {
        return None;
    }
    let node = numbers[0];
    let k = numbers[1];
    let b = numbers[2];
    if node > u64::from(u32::MAX) || !is_full_cell(k, b) {
        return None;
    }
    Some(Straddle::Node {
        node: ExprId(node as u32),
        cell: Cell { k, b: b as u32 },
        lo: numbers[3],
        hi: numbers[4],
    })
}

/// The number left open for a label of such a line; `None` where it is no such line.
fn label_of(line: &[u8]) -> Option<Straddle>
    ensures found { IfSome result (λ s. IsOpen s × OpenInRange s × (line.now ≡ open_line s)) }
    ensures none { IfNone result ((m : ℕ) (cell : Cell) → IsOpen (straddle.Label m cell)
        → OpenInRange (straddle.Label m cell) → line.now ≢ open_line (straddle.Label m cell)) }
{
    let mut numbers = [0; 3];
    if !read_whole(b"undecided label # cell #/#", line, &mut numbers) {
        return None;
    }
    let k = numbers[1];
    let b = numbers[2];
    if !is_full_cell(k, b) {
        return None;
    }
    Some(Straddle::Label {
        m: numbers[0],
        cell: Cell { k, b: b as u32 },
    })
}

/// The number left open of such a line; `None` where it is no such line.
pub(crate) fn open_of(line: &[u8]) -> Option<Straddle>
    ensures found { IfSome result (λ s. IsOpen s × OpenInRange s × (line.now ≡ open_line s)) }
    ensures none { IfNone result ((s : Straddle) → IsOpen s → OpenInRange s
        → line.now ≢ open_line s) }
{
    match node_of(line) {
        Some(straddle) => Some(straddle),
        None => label_of(line),
    }
}

/// The closing of a last line with this word, without a number left open; `None` where it is no
/// such line.
fn closing_of(word: ClosingWord, line: &[u8]) -> Option<Closing>
    ensures word { IfSome result (λ c. (c.word ≡ word) × (c.straddle ≡ None)) }
    ensures found { IfSome result (λ c. ClosingInRange c
        × (line.now ≡ end_line c.word c.kept c.thrown c.bits c.turns)) }
    ensures none { IfNone result ((kept thrown bits turns : ℕ) → IsSmall kept → IsSmall thrown
        → IsSmall bits → IsSmall turns → line.now ≢ end_line word kept thrown bits turns) }
{
    let mut numbers = [0; 4];
    if !read_whole(pattern_of(word), line, &mut numbers) {
        return None;
    }
    Some(Closing {
        word,
        straddle: None,
        kept: numbers[0],
        thrown: numbers[1],
        bits: numbers[2],
        turns: numbers[3],
    })
}

/// The closing of the last line, without a number left open; `None` where it is no such line.
pub(crate) fn end_of(line: &[u8]) -> Option<Closing>
    ensures open { IfSome result (λ c. c.straddle ≡ None) }
    ensures found { IfSome result (λ c. ClosingInRange c
        × (line.now ≡ end_line c.word c.kept c.thrown c.bits c.turns)) }
    ensures none { IfNone result ((word : ClosingWord) (kept thrown bits turns : ℕ) → IsSmall kept
        → IsSmall thrown → IsSmall bits → IsSmall turns
        → line.now ≢ end_line word kept thrown bits turns) }
{
    if let Some(closing) = closing_of(ClosingWord::Done, line) {
        return Some(closing);
    }
    if let Some(closing) = closing_of(ClosingWord::TapeEnded, line) {
        return Some(closing);
    }
    if let Some(closing) = closing_of(ClosingWord::Undecided, line) {
        return Some(closing);
    }
    if let Some(closing) = closing_of(ClosingWord::TurnLimit, line) {
        return Some(closing);
    }
    closing_of(ClosingWord::ReadFault, line)
}

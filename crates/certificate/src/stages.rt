//! The line in front of a text, where it may stand next in a certificate.
ghost use Rattle.std.specs.Prelude.{◌≡◌, ◌≢◌, ◌+◌, ◌<◌, ◌≤◌, ◌∷◌, ◌++◌, [], ℕ, List, None, Some};
ghost use Rattle.std.specs.Prelude.{length, slice_index, IfSome, IfNone, IfOk};
ghost use Rattle.class_system.specs.Distinct.{IsMissing};
ghost use Rattle.certificate.specs.Certificates.{closing_lines};
ghost use Rattle.certificate.specs.Lines.{Line};
ghost use Rattle.certificate.specs.Reading.{HasNoFeed};
ghost use Rattle.certificate.specs.Stages.{Stage, after_mode, Passes, IsStuck, HasNoBase};
ghost use Rattle.certificate.specs.Stages.{HasNoObject, HasNoOpen};

use crate::closing::{Closing, ClosingWord};
use crate::digest::SpecDigest;
use crate::fields::{base_of, cells_of};
use crate::lines::{
    digest_of, end_of, fraction_of, mode_of, object_of, open_of, printed_of, version_of, window_of,
    x_of,
};
use bz_model::cells::Cells;
use bz_model::fraction::Fraction;
use bz_outside::word::Word;
use class_system::draft::Mode;
use class_system::names::Names;
use size_window::ending::Straddle;
use std::alloc::{AllocError, Global};

/// The first line of a text, without its line feed, and what follows it; `None` where the text has
/// no line feed.
fn next_line(text: &[u8]) -> Option<(&[u8], &[u8])>
    ensures found { IfSome result (λ p. HasNoFeed p.0.now × (text.now ≡ p.0.now ++ 10 ∷ p.1.now)) }
    ensures none { IfNone result ((line rest : List ℕ) → text.now ≢ line ++ 10 ∷ rest) }
{
    let end = line_end(text);
    if end == text.len() {
        return None;
    }
    Some((&text[..end], &text[end + 1..]))
}

/// How many bytes a text has before its first line feed; all where it has none.
fn line_end(text: &[u8]) -> usize
    ensures within { result ≤ length text.now }
    ensures before { (k : ℕ) → k < result → slice_index text.now k ≢ 10 }
    ensures here { result < length text.now → slice_index text.now result ≡ 10 }
{
    for (i, byte) in text.iter().enumerate() {
        if *byte == b'\n' {
            return i;
        }
    }
    text.len()
}

/// The version of the first line in front, and what follows the line.
pub(crate) fn version_at(text: &[u8]) -> Option<(u8, &[u8])>
    ensures found { IfSome result (λ p. Passes Stage.AtVersion text.now (Line.Version p.0
        ∷ []) (Stage.AtMode p.0) p.1.now) }
    ensures none { IfNone result (IsStuck Stage.AtVersion text.now) }
{
    let (line, rest) = next_line(text)?;
    let version = version_of(line)?;
    Some((version, rest))
}

/// The mode of the line in front, and what follows the line.
pub(crate) fn mode_at(version: u8, text: &[u8]) -> Option<(Mode, &[u8])>
    ensures found { IfSome result (λ p. Passes (Stage.AtMode version) text.now (Line.InMode p.0
        ∷ []) (after_mode version) p.1.now) }
    ensures none { IfNone result (IsStuck (Stage.AtMode version) text.now) }
{
    let (line, rest) = next_line(text)?;
    let mode = mode_of(line)?;
    Some((mode, rest))
}

/// The digest of the line in front, and what follows the line.
pub(crate) fn digest_at(text: &[u8]) -> Option<(SpecDigest, &[u8])>
    ensures found { IfSome result (λ p.
        Passes Stage.AtDigest text.now (Line.Spec p.0 ∷ []) Stage.AtX p.1.now) }
    ensures none { IfNone result (IsStuck Stage.AtDigest text.now) }
{
    let (line, rest) = next_line(text)?;
    let digest = digest_of(line)?;
    Some((digest, rest))
}

/// The fraction of x's line in front, and what follows the line.
pub(crate) fn x_at(text: &[u8]) -> Option<(Fraction, &[u8])>
    ensures found { IfSome result (λ p. Passes Stage.AtX text.now (Line.X p.0.num p.0.den
        ∷ []) Stage.AtFraction p.1.now) }
    ensures none { IfNone result (IsStuck Stage.AtX text.now) }
{
    let (line, rest) = next_line(text)?;
    let x = x_of(line)?;
    Some((x, rest))
}

/// The fraction bits of the line in front, and what follows the line.
pub(crate) fn fraction_at(text: &[u8]) -> Option<(u32, &[u8])>
    ensures found { IfSome result (λ p. Passes Stage.AtFraction text.now (Line.Fraction p.0
        ∷ []) Stage.AtWindow p.1.now) }
    ensures none { IfNone result (IsStuck Stage.AtFraction text.now) }
{
    let (line, rest) = next_line(text)?;
    let bits = fraction_of(line)?;
    Some((bits, rest))
}

/// The least and the greatest size of the window's line in front, and what follows the line.
pub(crate) fn window_at(text: &[u8]) -> Option<((u64, u64), &[u8])>
    ensures found { IfSome result (λ p. Passes Stage.AtWindow text.now (Line.Window p.0.0 p.0.1
        ∷ []) (Stage.AtBase []) p.1.now) }
    ensures none { IfNone result (IsStuck Stage.AtWindow text.now) }
{
    let (line, rest) = next_line(text)?;
    let window = window_of(line)?;
    Some((window, rest))
}

/// The number, the place and the size of an object's first line in front, and what follows the
/// line.
pub(crate) fn object_at(text: &[u8]) -> Option<((u64, u64, u64), &[u8])>
    ensures found { IfSome result (λ p.
        Passes Stage.AtObject text.now (Line.Object p.0.0 p.0.1 p.0.2
        ∷ []) Stage.AtText p.1.now) }
    ensures none { IfNone result (HasNoObject text.now) }
{
    let (line, rest) = next_line(text)?;
    let object = object_of(line)?;
    Some((object, rest))
}

/// The text of an object's text line in front, and what follows the line.
pub(crate) fn text_at(text: &[u8]) -> Option<(&[u8], &[u8])>
    ensures found { IfSome result (λ p.
        Passes Stage.AtText text.now (Line.Text p.0.now ∷ []) Stage.AtCells
        p.1.now) }
    ensures none { IfNone result (IsStuck Stage.AtText text.now) }
{
    let (line, rest) = next_line(text)?;
    let printed = printed_of(line)?;
    Some((printed, rest))
}

/// The number left open of the line in front, and what follows the line.
pub(crate) fn open_at(text: &[u8]) -> Option<(Straddle, &[u8])>
    ensures found { IfSome result (λ p.
        Passes Stage.AtObject text.now (Line.Open p.0 ∷ []) Stage.AtEnd
        p.1.now) }
    ensures none { IfNone result (HasNoOpen text.now) }
{
    let (line, rest) = next_line(text)?;
    let straddle = open_of(line)?;
    Some((straddle, rest))
}

/// The name and the value of the line of the base in front, where the name is new, and what follows
/// the line.
pub(crate) fn base_at<'a>(
    alloc: Global,
    names: &Names,
    text: &'a [u8],
) -> Result<Option<(Word, u64, &'a [u8])>, AllocError>
    ensures found { IfOk result (λ o. IfSome o (λ p. IsMissing p.0 names.now
        × Passes (Stage.AtBase names.now) text.now (Line.Base p.0 p.1
        ∷ []) (Stage.AtBase (names.now ++ p.0 ∷ [])) p.2.now)) }
    ensures none { IfOk result (λ o. IfNone o (HasNoBase names.now text.now)) }
{
    let Some((line, rest)) = next_line(text) else {
        return Ok(None);
    };
    let Some((name, value)) = base_of(line) else {
        return Ok(None);
    };
    let name = Word::from_bytes(alloc, name)?;
    match names.place(&name) {
        Some(_) => Ok(None),
        None => Ok(Some((name, value, rest))),
    }
}

/// The cells of the line in front, and what follows the line.
pub(crate) fn cells_at(alloc: Global, text: &[u8]) -> Result<Option<(Cells, &[u8])>, AllocError>
    ensures found { IfOk result
        (λ o. IfSome o (λ p. Passes Stage.AtCells text.now (Line.Cells p.0.items
        ∷ []) Stage.AtObject p.1.now)) }
    ensures none { IfOk result (λ o. IfNone o (IsStuck Stage.AtCells text.now)) }
{
    let Some((line, rest)) = next_line(text) else {
        return Ok(None);
    };
    let Some(cells) = cells_of(alloc, line)? else {
        return Ok(None);
    };
    Ok(Some((cells, rest)))
}

/// The closing of a last line in front whose word is not that of an open number, and what follows
/// the line.
pub(crate) fn end_at(text: &[u8]) -> Option<(Closing, &[u8])>
    ensures found { IfSome result (λ p.
        Passes Stage.AtObject text.now (closing_lines p.0) Stage.Over p.1.now) }
    ensures none { IfNone result (HasNoObject text.now → HasNoOpen text.now
        → IsStuck Stage.AtObject text.now) }
{
    let (line, rest) = next_line(text)?;
    let closing = end_of(line)?;
    match closing.word {
        ClosingWord::Undecided => None,
        _ => Some((closing, rest)),
    }
}

/// The closing of a last line in front whose word is that of an open number, and what follows the
/// line.
pub(crate) fn undecided_at(text: &[u8]) -> Option<(Closing, &[u8])>
    ensures found { IfSome result
        (λ p. Passes Stage.AtEnd text.now (Line.End p.0.word p.0.kept p.0.thrown p.0.bits p.0.turns
        ∷ []) Stage.Over p.1.now) }
    ensures none { IfNone result (IsStuck Stage.AtEnd text.now) }
{
    let (line, rest) = next_line(text)?;
    let closing = end_of(line)?;
    match closing.word {
        ClosingWord::Undecided => Some((closing, rest)),
        _ => None,
    }
}

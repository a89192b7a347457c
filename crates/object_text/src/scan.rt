//! Words and numbers at the front of a text.
ghost use Rattle.std.specs.Prelude.{◌≡◌, ◌++◌, ◌∷◌, [], ◌+◌, ◌*◌, ◌-◌, ◌≤◌, ◌<◌, ◌↔◌, length, drop};
ghost use Rattle.std.specs.Prelude.{decimal, IsTrue, IfOk, IfErr, IfSome, IfNone};
ghost use Rattle.bz_model.specs.ObjectText.{leaf_text};
ghost use Rattle.object_text.specs.Scanning.{IsOther, IsDigit, DiffersFrom, BeginsWithByte};
ghost use Rattle.object_text.specs.Scanning.{EndsNumber, FurtherDigit, BeginsWithNumber};
ghost use Rattle.object_text.specs.Scanning.{HasNoNumber, IsLabel, HasNoLabel, StopsAt};

use std::alloc::AllocError;

/// The greatest label.
const MOST_LABEL: u64 = 1_000_000;

/// Why reading stops.
#[derive(Clone, Copy)]
pub(crate) enum Stop {
    /// A byte can't stand where this many bytes are left, it among them; or bytes are missing.
    At(usize),
    /// Memory ran out.
    OutOfMemory,
}

impl From<AllocError> for Stop {
    ghost use Rattle.std.specs.Prelude.{◌≡◌};
    ghost use Rattle.object_text.specs.declared.scan.Stop.TheVariants.{OutOfMemory};

    ghost from_gives = { λ _ stop. stop ≡ OutOfMemory };

    fn from(_error: AllocError) -> Stop {
        Stop::OutOfMemory
    }
}

/// What a leaf prints: its word, or its plain letter where it has none.
pub(crate) fn leaf_word<'a>(letter: &'a [u8], word: &'a [u8]) -> &'a [u8]
    ensures { result.now ≡ leaf_text letter.now word.now }
{
    if word.is_empty() { letter } else { word }
}

/// Whether the text begins with a byte.
pub(crate) fn begins_with(byte: u8, text: &[u8]) -> bool
    ensures { IsTrue result ↔ BeginsWithByte byte text.now }
{
    match text {
        [first, ..] => *first == byte,
        [] => false,
    }
}

/// The text behind its first byte.
pub(crate) fn behind_first(text: &[u8]) -> &[u8]
    ensures { result.now ≡ drop 1 text.now }
{
    match text {
        [_, rest @ ..] => rest,
        [] => text,
    }
}

/// What follows a byte at the front of the text.
pub(crate) fn read_byte(byte: u8, text: &[u8]) -> Result<&[u8], Stop>
    ensures ok { IfOk result (λ rest. text.now ≡ byte ∷ rest.now) }
    ensures stop { IfErr result (StopsAt (λ left.
        (left ≡ length text.now) × IsOther byte text.now)) }
{
    if begins_with(byte, text) {
        Ok(behind_first(text))
    } else {
        Err(Stop::At(text.len()))
    }
}

/// What follows a word at the front of the text.
pub(crate) fn read_word<'a>(word: &[u8], text: &'a [u8]) -> Result<&'a [u8], Stop>
    ensures ok { IfOk result (λ rest. text.now ≡ word.now ++ rest.now) }
    ensures stop { IfErr result (StopsAt (DiffersFrom word.now text.now)) }
{
    let mut rest = text;
    for byte in word {
        rest = read_byte(*byte, rest)?;
    }
    Ok(rest)
}

/// The digit at the front of the text.
fn digit_at(text: &[u8]) -> Option<u64>
    ensures some { IfSome result (λ d. (d ≤ 9) × BeginsWithByte (48 + d) text.now) }
    ensures none { IfNone result (HasNoNumber 0 9 text.now) }
{
    match text {
        [first, ..] if *first >= b'0' && *first <= b'9' => Some(u64::from(*first - b'0')),
        _ => None,
    }
}

/// The number of at most `most` that has the digits of `n` and one more, the one at the front of
/// the text.
fn longer(n: u64, most: u64, text: &[u8]) -> Option<u64>
    requires within { n ≤ most }
    requires small { most ≤ 1000000 }
    ensures some { IfSome result (FurtherDigit most n text.now) }
    ensures none { IfNone result (EndsNumber most n text.now) }
{
    let d = digit_at(text)?;
    let more = 10 * n + d;
    if n > 0 && more <= most {
        Some(more)
    } else {
        None
    }
}

/// The number from `low` to `most` at the front of the text, without leading zeros, and what
/// follows it. It takes as many digits as such a number has there.
pub(crate) fn read_number(low: u64, most: u64, text: &[u8]) -> Result<(u64, &[u8]), Stop>
    requires small { most ≤ 1000000 }
    ensures ok { IfOk result (λ read. BeginsWithNumber low most text.now read.0 read.1.now) }
    ensures stop { IfErr result (StopsAt (λ left.
        (left ≡ length text.now) × HasNoNumber low most text.now)) }
{
    let Some(first) = digit_at(text) else {
        return Err(Stop::At(text.len()));
    };
    if first < low || first > most {
        return Err(Stop::At(text.len()));
    }
    let mut n = first;
    let mut rest = behind_first(text);
    while let Some(more) = longer(n, most, rest) {
        n = more;
        rest = behind_first(rest);
    }
    Ok((n, rest))
}

/// The label at the front of the text, behind its number sign, and what follows it.
pub(crate) fn read_label(text: &[u8]) -> Result<(u64, &[u8]), Stop>
    ensures ok { IfOk result (λ read. IsLabel text.now read.0 read.1.now) }
    ensures stop { IfErr result (StopsAt (HasNoLabel text.now)) }
{
    let digits = read_byte(b'#', text)?;
    read_number(1, MOST_LABEL, digits)
}

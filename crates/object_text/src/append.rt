//! Bytes and numbers appended to a text.
ghost use Rattle.std.specs.Prelude.{◌≡◌, ◌+◌, ◌<◌, ◌≤◌, ◌∷◌, ◌++◌, [], OnOk, OnErr, decimal};
ghost use Rattle.std.specs.Prelude.{vec_len, vec_capacity};

use itoa::Buffer;
use std::alloc::AllocError;

/// Appends a byte. Takes memory only where no room is left.
///
/// A refusal, which comes for want of memory alone, leaves the text unchanged.
#[inline(always)]
pub fn push_byte(text: &mut Vec<u8>, byte: u8) -> Result<(), AllocError>
    ensures ok { OnOk result (text.new.items ≡ text.old.items ++ byte ∷ []) }
    ensures err { OnErr result (text.new.items ≡ text.old.items) }
{
    if text.len() < text.capacity() {
        text.push_reserved(byte);
        return Ok(());
    }
    text.push(byte)?;
    Ok(())
}

/// Appends a word. Most words have one byte.
#[inline(always)]
pub(crate) fn push_word(text: &mut Vec<u8>, word: &[u8]) -> Result<(), AllocError>
    ensures { OnOk result (text.new.items ≡ text.old.items ++ word.now) }
{
    match word {
        [byte] => push_byte(text, *byte),
        _ => text.extend_from_slice(word),
    }
}

/// Appends a number in decimal digits, without leading zeros. Most numbers are below 1000.
///
/// A refusal, which comes for want of memory alone, leaves the text unchanged.
pub fn push_number(text: &mut Vec<u8>, n: u64) -> Result<(), AllocError>
    ensures ok { OnOk result (text.new.items ≡ text.old.items ++ decimal n) }
    ensures err { OnErr result (text.new.items ≡ text.old.items) }
{
    if n < 1000 {
        text.reserve(3)?;
        put_short(text, n);
        return Ok(());
    }
    let mut buffer = Buffer::new();
    text.extend_from_slice(buffer.format(n).as_bytes())
}

/// Appends a number below 1000 where there is room for its digits. Takes no memory.
#[inline(always)]
fn put_short(text: &mut Vec<u8>, n: u64)
    requires short { n < 1000 }
    requires room { vec_len text.old + 3 ≤ vec_capacity text.old }
    ensures { text.new.items ≡ text.old.items ++ decimal n }
{
    if n < 10 {
        text.push_reserved(digit(n));
    } else if n < 100 {
        text.push_reserved(digit(n / 10));
        text.push_reserved(digit(n % 10));
    } else {
        text.push_reserved(digit(n / 100));
        text.push_reserved(digit(n / 10 % 10));
        text.push_reserved(digit(n % 10));
    }
}

/// The byte of a digit.
#[inline(always)]
fn digit(n: u64) -> u8
    requires { n < 10 }
    ensures { result ≡ 48 + n }
{
    b'0' + n as u8
}

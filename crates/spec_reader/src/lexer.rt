//! From bytes to tokens.
ghost use Rattle.std.specs.Prelude.{◌≡◌, ◌==◌, ℕ, ◌+◌, ◌≤◌, ◌<◌, ◌∷◌, ◌++◌, ◌^◌, [], true, IfOk};
ghost use Rattle.std.specs.Prelude.{IfNone, not, length, position, take, drop, slice_index, OnOk};
ghost use Rattle.std.specs.Prelude.{IsTrue};
ghost use Rattle.std.specs.List.{list_all, prefix_len, take_while, AllPass};
ghost use Rattle.spec_reader.specs.Bytes as byte;
ghost use Rattle.spec_reader.specs.Tokens as text;

use crate::tokens::{Counting, Front, Placed, Spot, Token};
use bz_outside::word::Word;
use std::alloc::{AllocError, Global};

/// The offset of the first byte that isn't text. Takes no memory.
pub fn first_not_text(bytes: &[u8]) -> Option<usize>
    ensures exact { result ≡ position (λ b. not (byte.is_text b)) bytes.now }
    ensures none { IfNone result (AllPass byte.is_text bytes.now) }
{
    bytes.iter().position(|b| !is_text(*b))
}

fn is_text(b: u8) -> bool
    ensures exact { result ≡ byte.is_text b }
{
    b == b'\t' || b == b'\n' || b == b'\r' || 32 <= b && b <= 126
}

fn is_blank(b: u8) -> bool
    ensures exact { result ≡ byte.is_blank b }
{
    b == b'\t' || b == b'\r' || b == b' '
}

fn is_digit(b: u8) -> bool
    ensures exact { result ≡ byte.is_digit b }
{
    b.is_ascii_digit()
}

fn are_digits(bytes: &[u8]) -> bool
    ensures exact { result ≡ list_all byte.is_digit bytes.now }
{
    bytes.iter().all(|b| is_digit(*b))
}

fn is_letter(b: u8) -> bool
    ensures exact { result ≡ byte.is_letter b }
{
    b.is_ascii_alphabetic()
}

fn is_run_byte(b: u8) -> bool
    ensures exact { result ≡ byte.may_be_in_run b }
{
    b.is_ascii_alphanumeric() || b == b'_'
}

/// How many bytes of a run stand in front.
fn run_length(bytes: &[u8]) -> usize
    ensures exact { result ≡ prefix_len byte.may_be_in_run bytes.now }
    ensures within { result ≤ length bytes.now }
{
    bytes.iter().take_while(|b| is_run_byte(**b)).count()
}

/// How many bytes stand in front of the next line feed.
fn comment_length(bytes: &[u8]) -> usize
    ensures exact { result ≡ prefix_len text.goes_on bytes.now }
    ensures within { result ≤ length bytes.now }
{
    bytes.iter().take_while(|b| **b != b'\n').count()
}

/// The number that digits spell, where it may stand in a text: from 1 to 64, without a leading
/// zero.
fn number_of(digits: &[u8]) -> Option<u32>
    requires { list_all byte.is_digit digits.now ≡ true }
    ensures exact { result ≡ text.number_spelled digits.now }
{
    match digits {
        [a] if *a >= b'1' => Some(u32::from(*a - b'0')),
        [a, b] if *a >= b'1' => {
            let number = u32::from(*a - b'0') * 10 + u32::from(*b - b'0');
            if number <= 64 { Some(number) } else { None }
        }
        _ => None,
    }
}

fn number_token(digits: &[u8]) -> Token
    requires { list_all byte.is_digit digits.now ≡ true }
    ensures exact { result ≡ text.number_token (text.number_spelled digits.now) }
{
    match number_of(digits) {
        Some(number) => Token::Number(number),
        None => Token::Bad,
    }
}

fn word_token(alloc: Global, run: &[u8]) -> Result<Token, AllocError>
    ensures exact { IfOk result (λ t. t ≡ text.word_token run.now) }
{
    let begins_with_letter = match run {
        [first, ..] => is_letter(*first),
        [] => false,
    };
    if begins_with_letter && run.len() <= 32 {
        Ok(Token::Name(Word::from_bytes(alloc, run)?))
    } else {
        Ok(Token::Bad)
    }
}

/// The token of a run that stands alone.
fn run_token(alloc: Global, run: &[u8]) -> Result<Token, AllocError>
    ensures exact { IfOk result (λ t. t ≡ text.run_token run.now) }
{
    if are_digits(run) {
        Ok(number_token(run))
    } else if run == b"E".as_slice() {
        Ok(Token::Empty(Word::from_bytes(alloc, b"")?))
    } else if run == b"Z".as_slice() {
        Ok(Token::Atom(Word::from_bytes(alloc, b"")?))
    } else if run == b"Seq".as_slice() {
        Ok(Token::Counted(Counting::Seq))
    } else if run == b"Set".as_slice() {
        Ok(Token::Counted(Counting::Set))
    } else if run == b"Cyc".as_slice() {
        Ok(Token::Counted(Counting::Cyc))
    } else {
        word_token(alloc, run)
    }
}

/// The token of a leaf with a word.
fn leaf_token(alloc: Global, letter: &[u8], word: &[u8]) -> Result<Token, AllocError>
    ensures exact { IfOk result (λ t. t ≡ text.leaf_token letter.now word.now) }
{
    if word.len() > 32 {
        Ok(Token::Bad)
    } else if letter == b"E".as_slice() {
        Ok(Token::Empty(Word::from_bytes(alloc, word)?))
    } else {
        Ok(Token::Atom(Word::from_bytes(alloc, word)?))
    }
}

/// The run behind a colon, where the bytes begin so; else nothing.
fn word_after(bytes: &[u8]) -> &[u8]
    ensures exact { result.now ≡ text.word_after bytes.now }
    ensures within { length result.now ≤ length bytes.now }
{
    match bytes {
        [b':', rest @ ..] => &rest[..run_length(rest)],
        _ => &bytes[..0],
    }
}

/// What a run begins, which has `more` bytes after the first, by the bytes behind it.
fn run_front(alloc: Global, run: &[u8], more: usize, after: &[u8]) -> Result<Front, AllocError>
    requires { more + 1 ≡ length run.now }
    ensures exact { IfOk result (λ f. f ≡ text.run_front run.now more after.now) }
    ensures within { IfOk result (λ f. text.further f < length run.now + length after.now) }
{
    let word = word_after(after);
    let is_leaf = run == b"E".as_slice() || run == b"Z".as_slice();
    if is_leaf && word.len() != 0 {
        let token = leaf_token(alloc, run, word)?;
        Ok(Front::Begins(token, word.len() + 1))
    } else {
        let token = run_token(alloc, run)?;
        Ok(Front::Begins(token, more))
    }
}

/// What a byte of no run begins, by the bytes behind it.
fn sign_front(b: u8, after: &[u8]) -> Front
    ensures exact { result ≡ text.sign_front b after.now }
    ensures within { text.further result ≤ length after.now }
{
    let equals = match after {
        [next, ..] => *next == b'=',
        [] => false,
    };
    match b {
        b'=' => Front::Begins(Token::Exactly, 0),
        b'+' => Front::Begins(Token::Plus, 0),
        b'*' => Front::Begins(Token::Star, 0),
        b'(' => Front::Begins(Token::Open, 0),
        b')' => Front::Begins(Token::Close, 0),
        b'>' if equals => Front::Begins(Token::AtLeast, 1),
        b'<' if equals => Front::Begins(Token::AtMost, 1),
        _ => Front::Begins(Token::Bad, 0),
    }
}

/// What a byte begins, by the bytes from it on.
fn front_of(alloc: Global, bytes: &[u8]) -> Result<Front, AllocError>
    requires { 0 < length bytes.now }
    ensures exact { IfOk result (λ f. f ≡ text.front (slice_index bytes.now 0) (drop 1 bytes.now)) }
    ensures within { IfOk result (λ f. text.further f < length bytes.now) }
{
    let b = bytes[0];
    let rest = &bytes[1..];
    if b == b'\n' {
        Ok(Front::LineFeed)
    } else if is_blank(b) {
        Ok(Front::Blank)
    } else if b == b'#' {
        Ok(Front::Comment(comment_length(rest)))
    } else if is_run_byte(b) {
        let more = run_length(rest);
        run_front(alloc, &bytes[..more + 1], more, &rest[more..])
    } else {
        Ok(sign_front(b, rest))
    }
}

/// How many bytes after the first belong to what begins.
fn further(front: &Front) -> usize
    ensures exact { result ≡ text.further front.now }
{
    match front {
        Front::LineFeed | Front::Blank => 0,
        Front::Comment(more) | Front::Begins(_, more) => *more,
    }
}

/// Ends the line, where it has a token.
fn end_line(tokens: &mut Vec<Placed>, spot: Spot) -> Result<(), AllocError>
    ensures made { OnOk result (tokens.new.items ≡ tokens.old.items ++ text.line_end spot) }
{
    if spot.some {
        tokens.push(Placed {
            token: Token::LineEnd,
            line: spot.line,
            column: spot.column,
        })?;
    }
    Ok(())
}

/// Takes what begins at a spot, and answers the spot behind it.
fn take_front(tokens: &mut Vec<Placed>, spot: Spot, front: Front) -> Result<Spot, AllocError>
    requires line_fits { spot.line + 1 < 2 ^ 32 }
    requires column_fits { spot.column + 1 + text.further front < 2 ^ 32 }
    ensures made { OnOk result (tokens.new.items ≡ tokens.old.items ++ text.made spot front) }
    ensures behind { IfOk result (λ s.
        s ≡ text.along (text.further front) (text.moved spot front)) }
{
    match front {
        Front::LineFeed => {
            end_line(tokens, spot)?;
            Ok(Spot {
                some: false,
                line: spot.line + 1,
                column: 1,
            })
        }
        Front::Blank => Ok(Spot {
            some: spot.some,
            line: spot.line,
            column: spot.column + 1,
        }),
        Front::Comment(more) => Ok(Spot {
            some: spot.some,
            line: spot.line,
            column: spot.column + 1 + more as u32,
        }),
        Front::Begins(token, more) => {
            tokens.push(Placed {
                token,
                line: spot.line,
                column: spot.column,
            })?;
            Ok(Spot {
                some: true,
                line: spot.line,
                column: spot.column + 1 + more as u32,
            })
        }
    }
}

/// The tokens of a text, with their lines and columns.
pub fn tokens(alloc: Global, bytes: &[u8]) -> Result<Vec<Placed>, AllocError>
    requires { length bytes.now ≤ 65536 }
    ensures exact { IfOk result (λ v. v.items ≡ text.tokens_of bytes.now) }
{
    let mut tokens = Vec::new(alloc);
    let mut spot = Spot {
        some: false,
        line: 1,
        column: 1,
    };
    let mut i = 0;
    'fronts: while i < bytes.len() {
        let front = front_of(alloc, &bytes[i..])?;
        i += 1 + further(&front);
        spot = take_front(&mut tokens, spot, front)?;
    }
    end_line(&mut tokens, spot)?;
    tokens.push(Placed {
        token: Token::TextEnd,
        line: spot.line,
        column: spot.column,
    })?;
    Ok(tokens)
}

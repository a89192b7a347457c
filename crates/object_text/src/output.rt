//! What is printed so far.
//!
//! The text of a part of a set or a cycle is kept by itself until all parts are there: their order
//! is known only then.
ghost use Rattle.std.specs.Prelude.{◌≡◌, ◌≤◌, ◌++◌, ◌∷◌, [], IfOk, OnOk, decimal, length};
ghost use Rattle.std.specs.Prelude.{take, drop};
ghost use Rattle.bz_model.specs.ObjectText.{lesser_label, least_of, spaced, rotated_to};
ghost use Rattle.object_text.specs.Output.{blank, grown, form_opened, part_printed, form_closed};
ghost use Rattle.object_text.specs.Output.{arranged, opening_byte};
ghost use Rattle.object_text.specs.Output.{closing_byte};

use crate::append::{push_byte, push_number, push_word};
use smallvec::SmallVec;
use std::alloc::{AllocError, Global};
use std::default::MadeWith;
use std::marker::Model;
use std::mem;

/// Up to this many parts of a set or a cycle are kept in the value itself: most have few.
const SHORT: usize = 4;

/// Up to this many bytes of a part's text are kept in the part itself: a leaf with its label has
/// fewer.
const INLINE: usize = 24;

/// What is arranged: the parts of a set, or those of a cycle.
#[derive(Clone, Copy)]
pub(crate) enum Form {
    Set,
    Cycle,
}

/// A finished part: its text, with its least label, or 0 where it has none.
#[derive(Drop)]
pub(crate) struct Part {
    least: u64,
    text: SmallVec<u8, INLINE>,
}

impl Model for Part {
    ghost use Rattle.bz_model.specs.ObjectText.{PartText};

    ghost Value = { PartText };

    ghost view = { λ p. record { least = p.least; text = p.text.items } };
}

impl MadeWith<Global> for Part {
    fn made_with(alloc: Global) -> Part {
        Part {
            least: 0,
            text: SmallVec::new(alloc),
        }
    }
}

/// A set or cycle that is being printed: the text before it, and its finished parts.
#[derive(Drop)]
struct Frame {
    least: u64,
    text: Vec<u8>,
    parts: SmallVec<Part, SHORT>,
}

impl Model for Frame {
    ghost use Rattle.object_text.specs.Output.{OpenParts};

    ghost Value = { OpenParts };

    ghost view = { λ f. record { least = f.least; text = f.text.items; parts = f.parts.items } };
}

/// The open text, and the sets and cycles that are being printed.
#[derive(Drop)]
pub(crate) struct Output {
    least: u64,
    text: Vec<u8>,
    frames: Vec<Frame>,
}

impl Model for Output {
    ghost use Rattle.std.specs.Prelude.{reverse};
    ghost use Rattle.object_text.specs.Output.{Printed};

    ghost Value = { Printed };

    ghost view = { λ o. record {
      least = o.least;
      text = o.text.items;
      frames = reverse o.frames.items;
    } };
}

impl Output {
    /// Nothing, with room for so many bytes of the open text.
    pub(crate) fn with_room(alloc: Global, bytes: usize) -> Result<Output, AllocError>
        ensures { IfOk result (λ output. output ≡ blank) }
    {
        Ok(Output {
            least: 0,
            text: Vec::with_capacity(alloc, bytes)?,
            frames: Vec::new(alloc),
        })
    }

    /// The open text.
    pub(crate) fn into_text(self) -> Vec<u8>
        ensures { result.items ≡ self.text }
    {
        let Output {
            least: _,
            text,
            frames: _,
        } = self;
        text
    }

    /// Appends a byte to the open text.
    #[inline(always)]
    pub(crate) fn write_byte(&mut self, byte: u8) -> Result<(), AllocError>
        ensures { OnOk result (self.new ≡ grown self.old 0 (byte ∷ [])) }
    {
        push_byte(&mut self.text, byte)
    }

    /// Appends a word without a label to the open text.
    #[inline(always)]
    pub(crate) fn write_word(&mut self, word: &[u8]) -> Result<(), AllocError>
        ensures { OnOk result (self.new ≡ grown self.old 0 word.now) }
    {
        push_word(&mut self.text, word)
    }

    /// Appends a number to the open text.
    pub(crate) fn write_number(&mut self, n: u64) -> Result<(), AllocError>
        ensures { OnOk result (self.new ≡ grown self.old 0 (decimal n)) }
    {
        push_number(&mut self.text, n)
    }

    /// Appends the number sign and a label to the open text.
    pub(crate) fn write_label(&mut self, label: u64) -> Result<(), AllocError>
        ensures { OnOk result (self.new ≡ grown self.old label (35 ∷ decimal label)) }
    {
        push_byte(&mut self.text, b'#')?;
        push_number(&mut self.text, label)?;
        self.least = lesser(self.least, label);
        Ok(())
    }

    /// Begins a set or a cycle.
    pub(crate) fn open(&mut self) -> Result<(), AllocError>
        ensures { OnOk result (self.new ≡ form_opened self.old) }
    {
        let alloc = *self.text.allocator();
        let frame = Frame {
            least: self.least,
            text: mem::replace(&mut self.text, Vec::new(alloc)),
            parts: SmallVec::new(alloc),
        };
        self.least = 0;
        self.frames.push(frame)?;
        Ok(())
    }

    /// Makes the open text a finished part of the innermost set or cycle, and begins the next.
    pub(crate) fn end_part(&mut self) -> Result<(), AllocError>
        ensures { OnOk result (self.new ≡ part_printed self.old) }
    {
        let part = Part {
            least: self.least,
            text: take_text(&mut self.text)?,
        };
        self.least = 0;
        let Some(frame) = self.frames.last_mut() else {
            return Ok(());
        };
        frame.parts.push(part)?;
        Ok(())
    }

    /// Ends the innermost set or cycle: its text follows the text before it.
    pub(crate) fn close(&mut self, form: Form) -> Result<(), AllocError>
        ensures { OnOk result (self.new ≡ form_closed form self.old) }
    {
        let Some(frame) = self.frames.pop() else {
            return Ok(());
        };
        let Frame {
            least,
            mut text,
            parts,
        } = frame;
        self.least = lesser(least, least_label(&parts));
        write_parts(&mut text, form, parts)?;
        self.text = text;
        Ok(())
    }
}

/// Takes the bytes of a text, and leaves it empty.
///
/// A short text is copied, which takes no memory, and keeps its room. A longer one gives up its
/// own.
fn take_text(text: &mut Vec<u8>) -> Result<SmallVec<u8, INLINE>, AllocError>
    ensures { IfOk result (λ taken. (taken.items ≡ text.old.items) × (text.new.items ≡ [])) }
{
    let alloc = *text.allocator();
    if text.len() <= INLINE {
        let short = SmallVec::from_slice(alloc, text)?;
        text.clear();
        return Ok(short);
    }
    Ok(SmallVec::from_vec(mem::replace(text, Vec::new(alloc))))
}

/// Appends the parts of a set or a cycle in canonical order, between its brackets.
fn write_parts(
    text: &mut Vec<u8>,
    form: Form,
    mut parts: SmallVec<Part, SHORT>,
) -> Result<(), AllocError>
    ensures { OnOk result (text.new.items
        ≡ text.old.items ++ (opening_byte form ∷ spaced (arranged form parts.items)
        ++ closing_byte form
        ∷ [])) }
{
    match form {
        Form::Set => {
            sort(&mut parts)?;
            push_byte(text, b'{')?;
            write_spaced(text, &parts)?;
            push_byte(text, b'}')?;
        }
        Form::Cycle => {
            rotate(&mut parts);
            push_byte(text, b'<')?;
            write_spaced(text, &parts)?;
            push_byte(text, b'>')?;
        }
    }
    Ok(())
}

/// Puts parts in the order of their least labels.
fn sort(parts: &mut SmallVec<Part, SHORT>) -> Result<(), AllocError>
    ensures { OnOk result (parts.new.items ≡ arranged Form.Set parts.old.items) }
{
    let alloc = *parts.allocator();
    parts.sort_by_key(alloc, |part| part.least)
}

/// Turns parts so that the one with the least label comes first.
fn rotate(parts: &mut SmallVec<Part, SHORT>)
    ensures { parts.new.items ≡ arranged Form.Cycle parts.old.items }
{
    let least = least_label(parts);
    let first = first_with(parts, least);
    parts.rotate_left(first);
}

/// The place of the first part with this least label, or how many parts there are.
fn first_with(parts: &[Part], label: u64) -> usize
    ensures within { result ≤ length parts.now }
    ensures first { drop result parts.now ++ take result parts.now ≡ rotated_to label [] parts.now }
{
    for (i, part) in parts.iter().enumerate() {
        if part.least == label {
            return i;
        }
    }
    parts.len()
}

/// Appends parts with a space between each two.
fn write_spaced(text: &mut Vec<u8>, parts: &[Part]) -> Result<(), AllocError>
    ensures { OnOk result (text.new.items ≡ text.old.items ++ spaced parts.now) }
{
    let Some((first, later)) = parts.split_first() else {
        return Ok(());
    };
    push_word(text, &first.text)?;
    for part in later {
        push_byte(text, b' ')?;
        push_word(text, &part.text)?;
    }
    Ok(())
}

/// The least label of parts, or 0 where none has one.
fn least_label(parts: &[Part]) -> u64
    ensures { result ≡ least_of parts.now }
{
    let mut least = 0;
    for part in parts {
        least = lesser(least, part.least);
    }
    least
}

/// The lesser of two labels, where 0 stands for none.
pub(crate) fn lesser(a: u64, b: u64) -> u64
    ensures { result ≡ lesser_label a b }
{
    if a == 0 {
        b
    } else if b == 0 {
        a
    } else {
        a.min(b)
    }
}

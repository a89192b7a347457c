//! The canonical text of a specification.
ghost use Rattle.std.specs.Prelude.{◌≡◌, ◌<◌, ◌++◌, ◌∷◌, [], map, length, decimal, OnOk, IfOk};
ghost use Rattle.class_system.specs.Each.{Each};
ghost use Rattle.class_system.specs.Views.{spec_node, spec_range, spec_mode, number};
ghost use Rattle.class_system.specs.NodeOrder.{parts_of};
ghost use Rattle.class_system.specs.Sound.{IsSound, RefersBelow};
ghost use Rattle.class_system.specs.CanonicalText.{single, is_bracketed, part_text, joined_text};
ghost use Rattle.class_system.specs.CanonicalText.{written_leaf, bound_text, counted_text};
ghost use Rattle.class_system.specs.CanonicalText.{bracketed};
ghost use Rattle.class_system.specs.CanonicalText.{node_shown, all_shown, mode_word};
ghost use Rattle.class_system.specs.CanonicalText.{canonical_class_line};
ghost use Rattle.class_system.specs.CanonicalText.{canonical_text};

use crate::draft::{Draft, Mode};
use crate::expr::Expr;
use crate::ids::ExprId;
use crate::names::Names;
use crate::ranges::Range;
use itoa::Buffer;
use std::alloc::{AllocError, Global};
use std::marker::Model;

/// What a node's text is: that of a union, of a product, or of anything else.
#[derive(Clone, Copy, Debug, PartialEq, Eq)]
pub enum Form {
    Single,
    Summed,
    Multiplied,
}

/// A node's text, without parentheses round it.
#[derive(Drop)]
struct NodeText {
    form: Form,
    bytes: Vec<u8>,
}

impl Model for NodeText {
    ghost use Rattle.class_system.specs.CanonicalText.{Shown};

    ghost Value = { Shown };

    ghost view = { λ t. record { form = t.form; text = t.bytes.items } };
}

/// The canonical text of a sound draft.
pub(crate) fn print(alloc: Global, draft: &Draft) -> Result<Vec<u8>, AllocError>
    requires sound { IsSound draft.now }
    ensures text { IfOk result (λ text. text.items ≡ canonical_text draft.now) }
{
    let shown = show_nodes(alloc, draft)?;
    let names = draft.names();
    let bodies = draft.bodies();
    let mut text = mode_line(alloc, draft.mode())?;
    for c in 0..names.len() {
        let body = &shown[bodies[c].0 as usize];
        push_class(&mut text, names.name(c).bytes(), body)?;
    }
    Ok(text)
}

fn mode_line(alloc: Global, mode: Mode) -> Result<Vec<u8>, AllocError>
    ensures line { IfOk result (λ text. text.items ≡ mode_word (spec_mode mode) ++ 10 ∷ []) }
{
    match mode {
        Mode::Unlabelled => Vec::from_slice(alloc, b"unlabelled\n"),
        Mode::Labelled => Vec::from_slice(alloc, b"labelled\n"),
    }
}

/// Appends the line of a class.
fn push_class(text: &mut Vec<u8>, name: &[u8], body: &NodeText) -> Result<(), AllocError>
    ensures line { OnOk result
        (text.new.items ≡ text.old.items ++ canonical_class_line name.now body.now) }
{
    text.extend_from_slice(name)?;
    text.extend_from_slice(b" = ")?;
    text.extend_from_slice(&body.bytes)?;
    text.extend_from_slice(b"\n")
}

/// The texts of all nodes, each from those of the nodes before it.
fn show_nodes(alloc: Global, draft: &Draft) -> Result<Vec<NodeText>, AllocError>
    requires sound { IsSound draft.now }
    ensures shown { IfOk result (λ shown. shown.items ≡ all_shown draft.now) }
{
    let nodes = draft.nodes();
    let ranges = draft.ranges();
    let mut shown: Vec<NodeText> = Vec::new(alloc);
    for e in 0..nodes.len() {
        let text = show_node(alloc, draft.names(), &shown, &nodes[e], ranges[e])?;
        shown.push(text)?;
    }
    Ok(shown)
}

/// The text of a node, from those of the nodes before it.
fn show_node(
    alloc: Global,
    names: &Names,
    before: &[NodeText],
    item: &Expr,
    bounds: Range,
) -> Result<NodeText, AllocError>
    requires parts { Each (λ part. part < length before.now) (parts_of (spec_node item.now)) }
    requires reference { RefersBelow (length names.now) (spec_node item.now) }
    ensures shown { IfOk result (λ text.
        text ≡ node_shown names.now before.now (spec_node item.now) (spec_range bounds)) }
{
    match item {
        Expr::Empty(word) => leaf(alloc, b"E", word.bytes()),
        Expr::Atom(word) => leaf(alloc, b"Z", word.bytes()),
        Expr::Class(c) => reference(alloc, names.name(c.0 as usize).bytes()),
        Expr::Union(parts) => joined(alloc, Form::Summed, b" + ", before, parts.items()),
        Expr::Product(parts) => joined(alloc, Form::Multiplied, b"*", before, parts.items()),
        Expr::Seq(part) => counted(alloc, b"Seq", 0, bounds, &before[part.0 as usize]),
        Expr::Set(part) => counted(alloc, b"Set", 0, bounds, &before[part.0 as usize]),
        Expr::Cyc(part) => counted(alloc, b"Cyc", 1, bounds, &before[part.0 as usize]),
    }
}

/// A leaf: its letter, and its word where it has one.
fn leaf(alloc: Global, letter: &[u8], word: &[u8]) -> Result<NodeText, AllocError>
    ensures text { IfOk result (λ text. text ≡ single (written_leaf letter.now word.now)) }
{
    let mut bytes = Vec::from_slice(alloc, letter)?;
    if !word.is_empty() {
        bytes.extend_from_slice(b":")?;
        bytes.extend_from_slice(word)?;
    }
    Ok(NodeText {
        form: Form::Single,
        bytes,
    })
}

/// A reference: the name of its class.
fn reference(alloc: Global, name: &[u8]) -> Result<NodeText, AllocError>
    ensures text { IfOk result (λ text. text ≡ single name.now) }
{
    Ok(NodeText {
        form: Form::Single,
        bytes: Vec::from_slice(alloc, name)?,
    })
}

/// The parts of a union or a product, with a separator between each two of them.
fn joined(
    alloc: Global,
    form: Form,
    separator: &[u8],
    before: &[NodeText],
    parts: &[ExprId],
) -> Result<NodeText, AllocError>
    requires parts { Each (λ part. part < length before.now) (map number parts.now) }
    ensures text { IfOk result (λ text.
        text ≡ joined_text form separator.now before.now (map number parts.now)) }
{
    let mut bytes: Vec<u8> = Vec::new(alloc);
    for (i, part) in parts.iter().enumerate() {
        if i > 0 {
            bytes.extend_from_slice(separator)?;
        }
        push_part(&mut bytes, form, &before[part.0 as usize])?;
    }
    Ok(NodeText { form, bytes })
}

/// Appends a part of a union or a product, in parentheses where it needs them.
fn push_part(text: &mut Vec<u8>, within: Form, part: &NodeText) -> Result<(), AllocError>
    ensures part { OnOk result (text.new.items ≡ text.old.items ++ part_text within part.now) }
{
    if needs_brackets(within, part.form) {
        push_bracketed(text, &part.bytes)
    } else {
        text.extend_from_slice(&part.bytes)
    }
}

/// Whether a part stands in parentheses: a union always, and a product in a product.
fn needs_brackets(within: Form, part: Form) -> bool
    ensures exact { result ≡ is_bracketed within part }
{
    match part {
        Form::Single => false,
        Form::Summed => true,
        Form::Multiplied => match within {
            Form::Single | Form::Summed => false,
            Form::Multiplied => true,
        },
    }
}

/// Appends a text in parentheses.
fn push_bracketed(text: &mut Vec<u8>, inner: &[u8]) -> Result<(), AllocError>
    ensures bracketed { OnOk result (text.new.items ≡ text.old.items ++ bracketed inner.now) }
{
    text.extend_from_slice(b"(")?;
    text.extend_from_slice(inner)?;
    text.extend_from_slice(b")")
}

/// A counted node: its operator, its bound, and its part in parentheses.
fn counted(
    alloc: Global,
    operator: &[u8],
    plain_low: u32,
    bounds: Range,
    part: &NodeText,
) -> Result<NodeText, AllocError>
    ensures text { IfOk result (λ text.
        text ≡ single (counted_text operator.now plain_low (spec_range bounds) part.now)) }
{
    let mut bytes = Vec::from_slice(alloc, operator)?;
    push_bound(&mut bytes, plain_low, bounds)?;
    push_bracketed(&mut bytes, &part.bytes)?;
    Ok(NodeText {
        form: Form::Single,
        bytes,
    })
}

/// Appends the bound of a counted node: nothing for a plain range, else `=k` where low and high are
/// equal, else `>=low` where there is no high, else `<=high`.
fn push_bound(text: &mut Vec<u8>, plain_low: u32, bounds: Range) -> Result<(), AllocError>
    ensures bound { OnOk result (
        text.new.items ≡ text.old.items ++ bound_text plain_low bounds.low bounds.high) }
{
    match bounds.high {
        None if bounds.low == plain_low => Ok(()),
        None => push_number(text, b">=", bounds.low),
        Some(high) if bounds.low == high => push_number(text, b"=", high),
        Some(high) => push_number(text, b"<=", high),
    }
}

/// Appends a sign and a number.
fn push_number(text: &mut Vec<u8>, sign: &[u8], n: u32) -> Result<(), AllocError>
    ensures number { OnOk result (text.new.items ≡ text.old.items ++ (sign.now ++ decimal n)) }
{
    let mut buffer = Buffer::new();
    text.extend_from_slice(sign)?;
    text.extend_from_slice(buffer.format(n).as_bytes())
}

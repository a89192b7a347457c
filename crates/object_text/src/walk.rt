//! The walk that prints an object: down its nodes, token by token, with a list of what is to be
//! done after each.
ghost use Rattle.std.specs.Prelude.{◌≡◌, ◌++◌, ◌∷◌, [], ℕ, List, IfOk, OnOk, None, option_to_list};
ghost use Rattle.std.specs.Prelude.{replicate};
ghost use Rattle.bz_model.specs.Spec.{Mode};
ghost use Rattle.bz_model.specs.ObjectText.{leaf_text};
ghost use Rattle.object_store.specs.Walk.{HasToken};
ghost use Rattle.object_text.specs.Output.{grown, form_opened, labelled_leaf};
ghost use Rattle.object_text.specs.Printing.{Prints, ArePrinted, AreWholly, IsNextNode};
ghost use Rattle.object_text.specs.Printing.{IsDoneOrAtNode};
ghost use Rattle.object_text.specs.Printing.{ExpandsIf, IsFront, IsToPrint, TakesToken};

use crate::output::{Form, Output};
use crate::print_stack::{Todo, Todos};
use class_system::expr::Expr;
use class_system::ids::ExprId;
use class_system::system::System;
use object_store::token::Token;
use std::alloc::AllocError;

/// Prints all that is to be printed, of objects with these tokens and labels.
pub(crate) fn print_all(
    system: &System,
    todos: &mut Todos,
    tokens: &[Token],
    labels: &[u64],
    output: &mut Output,
) -> Result<(), AllocError>
    requires unlabelled { system.now.mode ≡ Mode.Unlabelled → labels.now ≡ [] }
    requires printed { AreWholly system.now todos.old tokens.now labels.now output.old }
    ensures { OnOk result ((whole : List ℕ)
        → Prints system.now whole todos.old tokens.now labels.now output.old
        → output.new.text ≡ whole) }
{
    let mut place = 0;
    let mut used = 0;
    while let Some(e) = descend(system, todos, output)? {
        let token = tokens[place];
        let label = labels.get(used).copied();
        print_token(system, e, token, label, todos, output)?;
        place += 1;
        used += token.atoms() as usize;
    }
    Ok(())
}

/// Does what needs no token, and goes down through classes and products, to the next node with a
/// token. None where all is done.
fn descend(
    system: &System,
    todos: &mut Todos,
    output: &mut Output,
) -> Result<Option<ExprId>, AllocError>
    requires printed { ArePrinted system.now todos.old output.old }
    ensures front { IfOk result (IsFront system.now todos.old output.old todos.new output.new) }
{
    system.known();
    let mut left = system.node_count();
    while let Some(e) = next_node(todos, output)? {
        if !expand(system, e, todos, output)? {
            return Ok(Some(e));
        }
        left -= 1;
    }
    Ok(None)
}

/// Does what needs no token, up to the next node. None where no node is left.
fn next_node(todos: &mut Todos, output: &mut Output) -> Result<Option<ExprId>, AllocError>
    ensures next { IfOk result (IsNextNode todos.old output.old todos.new output.new) }
{
    while let Some(todo) = todos.pop() {
        if let Some(e) = begin(todo, todos, output)? {
            return Ok(Some(e));
        }
    }
    Ok(None)
}

/// Does a thing, or tells the node of which an object is to be printed now.
fn begin(todo: Todo, todos: &mut Todos, output: &mut Output) -> Result<Option<ExprId>, AllocError>
    ensures begun { IfOk result (IsDoneOrAtNode todo todos.old output.old todos.new output.new) }
{
    match todo {
        Todo::Byte(byte) => output.write_byte(byte)?,
        Todo::EndPart => output.end_part()?,
        Todo::Close(form) => output.close(form)?,
        Todo::Node(e) => return Ok(Some(e)),
        Todo::Part(e) => {
            todos.push_one(Todo::EndPart)?;
            return Ok(Some(e));
        }
    }
    Ok(None)
}

/// Puts a class's body, or a product's parts, in its place. False for any other node.
fn expand(
    system: &System,
    e: ExprId,
    todos: &mut Todos,
    output: &mut Output,
) -> Result<bool, AllocError>
    requires printed { ArePrinted system.now (Todo.Node e ∷ todos.old) output.old }
    ensures expands { IfOk result (
        ExpandsIf system.now e todos.old output.old todos.new output.new) }
{
    system.known();
    match system.node(e) {
        Expr::Class(c) => todos.push_one(Todo::Node(system.body(*c)))?,
        Expr::Product(parts) => {
            output.write_byte(b'(')?;
            todos.push_one(Todo::Byte(b')'))?;
            todos.push_each(parts.items())?;
        }
        _ => return Ok(false),
    }
    Ok(true)
}

/// Prints what a node prints of its token, and puts what follows in front.
fn print_token(
    system: &System,
    e: ExprId,
    token: Token,
    label: Option<u64>,
    todos: &mut Todos,
    output: &mut Output,
) -> Result<(), AllocError>
    requires unlabelled { system.now.mode ≡ Mode.Unlabelled → label ≡ None }
    requires has_token { HasToken system.now e.0 }
    requires next { IsToPrint system.now e token label todos.old output.old }
    ensures takes { OnOk result (
        TakesToken system.now e token label todos.old output.old todos.new output.new) }
{
    system.known();
    match system.node(e) {
        Expr::Empty(word) => print_leaf(output, b"E", word.bytes(), None),
        Expr::Atom(word) => print_leaf(output, b"Z", word.bytes(), label),
        Expr::Union(parts) => {
            let Token::Pick(i) = token else {
                unreachable!()
            };
            output.write_number(u64::from(i))?;
            output.write_byte(b'.')?;
            todos.push_one(Todo::Node(parts.items()[i as usize]))
        }
        Expr::Seq(part) => {
            let Token::Count(k) = token else {
                unreachable!()
            };
            output.write_byte(b'[')?;
            todos.push_one(Todo::Byte(b']'))?;
            todos.push_objects(*part, k)
        }
        Expr::Set(part) => {
            let Token::Count(k) = token else {
                unreachable!()
            };
            begin_parts(Form::Set, *part, k, todos, output)
        }
        Expr::Cyc(part) => {
            let Token::Count(k) = token else {
                unreachable!()
            };
            begin_parts(Form::Cycle, *part, k, todos, output)
        }
        Expr::Class(_) | Expr::Product(_) => unreachable!(),
    }
}

/// Begins a set or a cycle of so many parts.
fn begin_parts(
    form: Form,
    part: ExprId,
    parts: u32,
    todos: &mut Todos,
    output: &mut Output,
) -> Result<(), AllocError>
    ensures { OnOk result (
        (todos.new ≡ replicate parts (Todo.Part part) ++ Todo.Close form ∷ todos.old)
        × (output.new ≡ form_opened output.old)) }
{
    output.open()?;
    todos.push_one(Todo::Close(form))?;
    todos.push_parts(part, parts)
}

/// Prints a leaf's word, or its plain letter where it has none, and its label if it has one.
fn print_leaf(
    output: &mut Output,
    letter: &[u8],
    word: &[u8],
    label: Option<u64>,
) -> Result<(), AllocError>
    ensures { OnOk result (
        output.new ≡ labelled_leaf output.old (leaf_text letter.now word.now) label) }
{
    output.write_word(if word.is_empty() { letter } else { word })?;
    match label {
        None => Ok(()),
        Some(label) => output.write_label(label),
    }
}

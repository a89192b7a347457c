//! Printing the object of a shape.
ghost use Rattle.std.specs.Prelude.{◌≡◌, ◌+◌, ◌*◌, ◌<◌, ◌≤◌, [], length, IfOk, option_map};
ghost use Rattle.bz_model.specs.Spec.{Mode};
ghost use Rattle.bz_model.specs.ObjectText.{object_text};
ghost use Rattle.object_store.specs.Tokens.{IsOf};
ghost use Rattle.object_text.specs.Labels.{HasOneForEach, AreLabelsFor, listed};

use crate::output::Output;
use crate::print_stack::{Todo, Todos};
use crate::walk::print_all;
use class_system::ids::ClassId;
use class_system::system::System;
use labelling::labels::Labels;
use object_store::shape::Shape;
use std::alloc::{AllocError, Global};
use well_founded::examination::Founded;

/// The text of a shape of a class of a well-founded specification.
///
/// There are labels exactly in labelled mode: one for each atom, in token order. The labels of a
/// drawn object are 1 to its size, and the text of any others is defined too. Parts of sets and
/// cycles are put in order as `print_labelled` says.
///
/// It takes the steps and the memory of `print_labelled`, and fails only where memory runs out.
pub fn print(
    alloc: Global,
    founded: &Founded,
    c: ClassId,
    shape: &Shape,
    labels: Option<&Labels>,
) -> Result<Vec<u8>, AllocError>
    requires in_range { c.0 < length founded.now.names }
    requires labels { AreLabelsFor founded.now.mode shape.now.items
        (option_map (λ l. l.now) labels) }
    requires is_of { IsOf founded.now c.0 shape.now.items }
    ensures text { IfOk result (λ text. (of : IsOf founded.now c.0 shape.now.items)
        → text.items ≡ object_text founded.now of.body of.object of.belongs
        (listed (option_map (λ l. l.now) labels.entry))) }
{
    print_labelled(alloc, founded.system(), c, shape, listed(labels))
}

/// The labels, of which there are none where the list is missing.
fn listed<'a>(labels: Option<&'a Labels>) -> &'a [u64]
    ensures { result.now ≡ listed (option_map (λ l. l.now) labels.entry) }
{
    match labels {
        Some(labels) => labels.items(),
        None => &[],
    }
}

/// The text of a shape of a class in an unlabelled specification.
///
/// It takes one step for each token and for each class and product above it. It takes memory for
/// the text and for one entry for each node on the way down. A refusal comes for want of memory
/// alone.
pub fn print_in(
    alloc: Global,
    system: &System,
    c: ClassId,
    shape: &Shape,
) -> Result<Vec<u8>, AllocError>
    requires in_range { c.0 < length system.now.names }
    requires unlabelled { system.now.mode ≡ Mode.Unlabelled }
    requires is_of { IsOf system.now c.0 shape.now.items }
    ensures text { IfOk result (λ text. (of : IsOf system.now c.0 shape.now.items)
        → text.items ≡ object_text system.now of.body of.object of.belongs []) }
{
    print_labelled(alloc, system, c, shape, &[])
}

/// The text of a shape of a class, with its labels in token order.
///
/// In labelled mode there is one label for each atom, and in unlabelled mode there is none. The
/// parts of a set are printed in the order of their least labels, those without a label first, and
/// a cycle from the part with the least label on.
///
/// It takes one step for each token and for each class and product above it, sorts the parts of
/// each set, and moves a part's text once for each set or cycle round it. It takes memory for the
/// text, at once for four bytes for each token and each label, for the parts of the sets and cycles
/// that are being printed, and for one entry for each node on the way down. A refusal comes for
/// want of memory alone.
pub fn print_labelled(
    alloc: Global,
    system: &System,
    c: ClassId,
    shape: &Shape,
    labels: &[u64],
) -> Result<Vec<u8>, AllocError>
    requires in_range { c.0 < length system.now.names }
    requires labels { HasOneForEach system.now.mode shape.now.items labels.now }
    requires is_of { IsOf system.now c.0 shape.now.items }
    ensures text { IfOk result (λ text. (of : IsOf system.now c.0 shape.now.items)
        → text.items ≡ object_text system.now of.body of.object of.belongs labels.now) }
{
    let tokens = shape.tokens();
    let mut todos = Todos::new(alloc);
    let mut output = Output::with_room(alloc, room_for(tokens.len(), labels.len()))?;
    todos.push_one(Todo::Node(system.body(c)))?;
    print_all(system, &mut todos, tokens, labels, &mut output)?;
    Ok(output.into_text())
}

/// How many bytes are taken at once for the text of so many tokens and labels.
///
/// Most texts have at most four for each token and each label. Others take more as they grow.
fn room_for(tokens: usize, labels: usize) -> usize
    ensures { result ≤ 4 * (tokens + labels) }
{
    tokens.saturating_add(labels).saturating_mul(4)
}

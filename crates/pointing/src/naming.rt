//! Names of the classes of a pointed specification.
ghost use Rattle.std.specs.Prelude.{◌≡◌, ◌++◌, ◌<◌, ◌≤◌, ◌^◌, map, length, string_bytes, codes};
ghost use Rattle.std.specs.Prelude.{IfOk, OnOk};
ghost use Rattle.bz_model.specs.Spec as model;
ghost use Rattle.class_system.specs.Drafting.{empty_draft, with_name};
ghost use Rattle.pointing.specs.PointedSpec.{marked_from, all_from, named, pointed_names};

use bz_outside::word::Word;
use class_system::draft::{Draft, Mode};
use std::alloc::{AllocError, Global};

/// An unlabelled draft of the classes alone: `Pi` for each marked class i, by number, then `Ki` for
/// all classes.
pub(crate) fn named_draft(alloc: Global, classes: &[bool]) -> Result<Draft, AllocError>
    requires few { length classes.now ≤ 64 }
    ensures { IfOk result (λ d. d ≡ record (empty_draft model.Mode.Unlabelled) {
      names = pointed_names classes.now;
    }) }
{
    let mut draft = Draft::new(alloc, Mode::Unlabelled);
    name_pointed(alloc, &mut draft, classes)?;
    name_copies(alloc, &mut draft, classes)?;
    Ok(draft)
}

/// Adds the class `Pi` for each marked class i.
fn name_pointed(alloc: Global, draft: &mut Draft, classes: &[bool]) -> Result<(), AllocError>
    requires few { length classes.now ≤ 64 }
    requires room { length draft.old.names ≤ 64 }
    ensures ok { OnOk result (draft.new ≡ record (draft.old) {
      names = draft.old.names
          ++ map (named (codes "P")) (marked_from 0 classes.now);
    }) }
{
    for class in 0..classes.len() {
        if classes[class] {
            add_class(alloc, draft, format!(in alloc; "P{class}")?)?;
        }
    }
    Ok(())
}

/// Adds the class `Ki` for each class i.
fn name_copies(alloc: Global, draft: &mut Draft, classes: &[bool]) -> Result<(), AllocError>
    requires few { length classes.now ≤ 64 }
    requires room { length draft.old.names ≤ 64 }
    ensures ok { OnOk result (draft.new ≡ record (draft.old) {
      names = draft.old.names
          ++ map (named (codes "K")) (all_from 0 classes.now);
    }) }
{
    for class in 0..classes.len() {
        add_class(alloc, draft, format!(in alloc; "K{class}")?)?;
    }
    Ok(())
}

/// Adds a class. The names of a pointed specification are different, so that only memory can be
/// wanting.
fn add_class(alloc: Global, draft: &mut Draft, name: String) -> Result<(), AllocError>
    requires few { length draft.old.names < 2 ^ 32 }
    ensures ok { OnOk result (draft.new ≡ with_name draft.old (string_bytes name)) }
{
    let word = Word::from_bytes(alloc, name.as_bytes())?;
    match draft.add_class(word) {
        Ok(_) => Ok(()),
        Err(_) => Err(AllocError),
    }
}

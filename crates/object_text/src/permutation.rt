//! Whether labels are 1 to their number, each once.
ghost use Rattle.std.specs.Prelude.{◌↔◌, length, IsTrue, IfOk};
ghost use Rattle.bz_model.specs.Labels.{AreOneTo};
ghost use Rattle.object_text.specs.Marks.{MarksIf};

use std::alloc::{AllocError, Global};

/// Whether labels are 1 to their number, each once. Takes memory for one mark for each label.
pub(crate) fn are_one_to(alloc: Global, labels: &[u64]) -> Result<bool, AllocError>
    ensures { IfOk result (λ b. IsTrue b ↔ AreOneTo (length labels.now) labels.now) }
{
    let mut seen = vec![in alloc; false; labels.len()]?;
    for label in labels {
        if !mark(&mut seen, *label) {
            return Ok(false);
        }
    }
    Ok(true)
}

/// Marks a label, the first place being that of label 1. False where it has no place or was marked.
fn mark(seen: &mut Vec<bool>, label: u64) -> bool
    ensures { MarksIf seen.old.items label seen.new.items result }
{
    if label == 0 || label > seen.len() as u64 {
        return false;
    }
    let place = (label - 1) as usize;
    if seen[place] {
        return false;
    }
    seen[place] = true;
    true
}

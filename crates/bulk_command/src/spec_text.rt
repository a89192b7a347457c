//! The specification that is made from a number.
ghost use Rattle.std.specs.Prelude.{◌≡◌, ◌<◌, IfOk, string_bytes};
ghost use Rattle.bulk_command.specs.BulkText.{classes_of, next_class, rule_line, bulk_text};

use std::alloc::{AllocError, Global};

/// How many classes the specification of `n` has: from 2 to 41.
pub fn class_count(n: u64) -> u64
    ensures { result ≡ classes_of n }
{
    2 + n % 40
}

/// The text of the specification of `n`.
#[tactic(auto, using(crate::proofs::Blocks::text_start))]
pub fn bulk_spec(alloc: Global, n: u64) -> Result<Vec<u8>, AllocError>
    ensures { IfOk result (λ text. text.items ≡ bulk_text n) }
{
    let classes = class_count(n);
    let mut text = Vec::new(alloc);
    text.extend_from_slice(b"unlabelled\n")?;
    for class in 0..classes {
        let line = class_line(alloc, classes, class)?;
        text.extend_from_slice(line.as_bytes())?;
    }
    Ok(text)
}

/// The line of a class, of which there are so many.
fn class_line(alloc: Global, classes: u64, class: u64) -> Result<String, AllocError>
    requires { class < classes }
    ensures { IfOk result (λ line. string_bytes line ≡ rule_line classes class) }
{
    let next = (class + 1) % classes;
    format!(in alloc; "A{class} = E + Z*A{class}*A{next}\n")
}

//! Lines of answers that are no certificate's, nor a refusal's.
ghost use Rattle.std.specs.Prelude.{◌≡◌, IfOk, string_bytes};
ghost use Rattle.call_stages.specs.Lines.{spec_end_line, class_name, level_line};

use bz_model::cell::Bounds;
use class_system::ids::ClassId;
use class_system::system::System;
use std::alloc::{AllocError, Global};

/// The last line after a specification's canonical text.
pub fn spec_end(alloc: Global, classes: u32, nodes: u32) -> Result<String, AllocError>
    ensures { IfOk result (λ text. string_bytes text ≡ spec_end_line classes nodes) }
{
    format!(in alloc; "end done classes {classes} nodes {nodes}\n")
}

/// The line of a class's bounds at a level.
pub fn level_of_class(
    alloc: Global,
    system: &System,
    level: u8,
    class: u32,
    bounds: Bounds,
) -> Result<Vec<u8>, AllocError>
    ensures { IfOk result (λ line. line.items ≡ level_line level (class_name system.now class)
        bounds.lo bounds.hi) }
{
    let lo = bounds.lo;
    let hi = bounds.hi;
    let head = format!(in alloc; "level {level} ")?;
    let tail = format!(in alloc; " {lo} {hi}\n")?;
    let mut line = Vec::new(alloc);
    line.extend_from_slice(head.as_bytes())?;
    line.extend_from_slice(name_of(system, class))?;
    line.extend_from_slice(tail.as_bytes())?;
    Ok(line)
}

/// The name of a class, and no bytes where there is no such class.
pub fn name_of(system: &System, class: u32) -> &[u8]
    ensures { result.now ≡ class_name system.now class }
{
    if class < system.class_count() {
        system.name(ClassId(class)).bytes()
    } else {
        &[]
    }
}

//! The command `point`: the pointed specification in its canonical form.
ghost use Rattle.std.specs.Prelude.{◌≡◌, ◌≢◌, ℕ, ◌≤◌, ◌⊎◌, List, [], ◌∷◌, IfOk, OnOk, IfErr};
ghost use Rattle.bz_outside.specs.Outside.{Rose, Appends};
ghost use Rattle.call_stages.specs.Ends.{EndsBy, output};
ghost use Rattle.call_stages.specs.Reports.{refusal_status, refusal_text};
ghost use Rattle.call_stages.specs.Stages.{files, AreCalm};
ghost use Rattle.call_stages.specs.declared.status.Status.{Status};
ghost use Rattle.pointing.specs.PointedSpec.{pointed_spec};
ghost use Rattle.point_command.specs.PointCommand.{form_text, CanBePointed, PointedPrinted};
ghost use Rattle.point_command.specs.PointCommand.{CarriesPoint};

use crate::refusals::point_refusal;
use bz_outside::shelf::Shelf;
use bz_outside::sink::Sink;
use bz_outside::word::Word;
use call_stages::format::spec_end;
use call_stages::report::{Refusal, refused, written};
use call_stages::stages::specified;
use call_stages::status::Status;
use class_system::system::System;
use pointing::laws::the_classes_with_an_atom_are_found;
use pointing::pointed::point as pointed_of;
use std::alloc::{AllocError, Global};
use well_founded::examination::Founded;

/// Reads a specification, judges it, points it, and prints the pointed one in its canonical form.
pub fn point<S: Shelf, K: Sink>(alloc: Global, file: &Word, shelf: &mut S, out: &mut K) -> Status
    ensures ends { (ticks : ℕ) → EndsBy (CarriesPoint (files (S.content shelf.old)
        (S.faults shelf.old) (S.faults shelf.new)) file.now)
        (output (K.written out.old) (K.written out.new) (K.faults out.old) (K.faults out.new)
        ticks ticks) result }
    ensures exact { (status : Status) (text : List ℕ) (ticks : ℕ)
        → AreCalm (files (S.content shelf.old) (S.faults shelf.old) (S.faults shelf.new))
        (file.now ∷ [])
        → CarriesPoint (files (S.content shelf.old) (S.faults shelf.old) (S.faults shelf.new))
        file.now status text ticks
        → status ≢ Status.OutOfMemory → ¬ (Rose (K.faults out.old) (K.faults out.new))
        → (result ≡ Status.OutOfMemory)
        ⊎ ((result ≡ status) × Appends (K.written out.old) (K.written out.new) text) }
    ensures content { S.content shelf.new ≡ S.content shelf.old }
    ensures counts { (name : List ℕ) → S.faults shelf.old name ≤ S.faults shelf.new name }
    ensures writes { K.faults out.old ≤ K.faults out.new }
{
    match specified(alloc, file, shelf) {
        Ok(founded) => printed(alloc, &founded, out),
        Err(refusal) => refused(out, &refusal),
    }
}

/// Points a specification, and prints the pointed one.
fn printed<K: Sink>(alloc: Global, founded: &Founded, out: &mut K) -> Status
    ensures ends { (ticks : ℕ) → EndsBy (PointedPrinted founded.now)
        (output (K.written out.old) (K.written out.new) (K.faults out.old) (K.faults out.new)
        ticks ticks) result }
    ensures writes { K.faults out.old ≤ K.faults out.new }
{
    match pointed_lines(alloc, founded) {
        Ok(text) => written(out, Status::Done, text.as_slice()),
        Err(refusal) => refused(out, &refusal),
    }
}

/// The pointed specification as it is printed, or why there is none.
#[tactic(auto, using(crate::proofs::Printing::point_refused, crate::proofs::Printing::pointing_lacks_memory))]
fn pointed_lines(alloc: Global, founded: &Founded) -> Result<Vec<u8>, Refusal>
    ensures text { IfOk result (λ text. text.items ≡ form_text (pointed_spec founded.now)) }
    ensures can { OnOk result (CanBePointed founded.now) }
    ensures err { IfErr result (λ e.
        PointedPrinted founded.now (refusal_status e) (refusal_text e) 0) }
{
    match pointed_of(alloc, founded) {
        Ok(pointed) => {
            founded.known();
            founded.system().known();
            the_classes_with_an_atom_are_found();
            Ok(form_lines(alloc, pointed.system())?)
        }
        Err(fault) => Err(Refusal::Reported(point_refusal(alloc, fault)?)),
    }
}

/// A specification in its canonical form, and the last line.
fn form_lines(alloc: Global, system: &System) -> Result<Vec<u8>, AllocError>
    ensures { IfOk result (λ text. text.items ≡ form_text system.now) }
{
    let mut text = system.to_text()?;
    let end = spec_end(alloc, system.class_count(), system.node_count())?;
    text.extend_from_slice(end.as_bytes())?;
    Ok(text)
}

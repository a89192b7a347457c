//! Laws of the command's outcomes. Each function's contract is a law, and its body calls only laws.
ghost use Rattle.std.specs.Prelude.{◌≡◌, ◌≢◌, ℕ, List, [], ◌∷◌, ◌++◌, codes};
ghost use Rattle.bz_model.specs.Spec.{Spec};
ghost use Rattle.pointing.specs.Calls.{TellsPointFault};
ghost use Rattle.pointing.specs.PointedSpec.{pointed_spec};
ghost use Rattle.pointing.specs.Rows.{binary, row};
ghost use Rattle.pointing.specs.declared.fault.PointFault.{PointFault};
ghost use Rattle.call_stages.specs.Outcomes.{IsOne};
ghost use Rattle.call_stages.specs.Stages.{Files, AreCalm, HasSpecification};
ghost use Rattle.call_stages.specs.declared.status.Status.{Status};
ghost use Rattle.point_command.specs.Completeness.{PrintsPointed};
ghost use Rattle.point_command.specs.PointCommand.{form_text, point_line, CanBePointed};
ghost use Rattle.point_command.specs.PointCommand.{CarriesPoint};

use pointing::laws::{
    a_pointed_specification_is_sound_and_founded, pointing_marks_one_atom,
    the_classes_with_an_atom_are_found, worked_specifications_are_pointed,
};
use spec_reader::laws::{a_canonical_text_is_short, a_canonical_text_stands_for_its_specification};

/// But for want of memory the command has one status with one text, where its file is known and no
/// read of it failed.
pub fn the_command_has_one_outcome()
    ensures one { (f : Files) (file : List ℕ) → AreCalm f (file ∷ [])
        → IsOne (CarriesPoint f file) }
{}

/// What can be pointed has no other answer than the text of the pointed specification, and what
/// can't no other than the line of its fault.
pub fn what_can_be_pointed_is_printed()
    ensures printed { (f : Files) (file : List ℕ) (s : Spec) (status : Status) (text : List ℕ)
        (ticks : ℕ)
        → HasSpecification f file s → CanBePointed s → status ≢ Status.OutOfMemory
        → CarriesPoint f file status text ticks
        → (status ≡ Status.Done) × (text ≡ form_text (pointed_spec s)) }
    ensures refused { (f : Files) (file : List ℕ) (s : Spec) (fault : PointFault) (status : Status)
        (text : List ℕ) (ticks : ℕ) → HasSpecification f file s → fault ≢ PointFault.OutOfMemory
        → TellsPointFault s fault → status ≢ Status.OutOfMemory
        → CarriesPoint f file status text ticks
        → (status ≡ Status.PointRefused) × (text ≡ point_line fault) }
{}

/// What is printed, read as a file, stands for the pointed specification of the one in the file,
/// which is well founded; and the objects of its first class are those of the file's first class
/// with one atom marked.
pub fn what_is_printed_is_the_pointed_specification()
    ensures prints { (f : Files) (file : List ℕ) (status : Status) (text : List ℕ) (ticks : ℕ)
        → status ≡ Status.Done → CarriesPoint f file status text ticks
        → PrintsPointed f file text }
{
    the_classes_with_an_atom_are_found();
    a_pointed_specification_is_sound_and_founded();
    pointing_marks_one_atom();
    a_canonical_text_stands_for_its_specification();
    a_canonical_text_is_short();
}

/// What is printed of binary trees and of sequences of atoms.
pub fn worked_specifications_are_printed()
    ensures binary { form_text (pointed_spec binary) ≡ codes "unlabelled" ++ 10 ∷ []
        ++ codes "P0 = Z:mark*K0*K0 + Z*P0*K0 + Z*K0*P0" ++ 10 ∷ [] ++ codes "K0 = E + Z*K0*K0"
        ++ 10 ∷ [] ++ codes "end done classes 2 nodes 19" ++ 10 ∷ [] }
    ensures row { form_text (pointed_spec row) ≡ codes "unlabelled" ++ 10 ∷ []
        ++ codes "P0 = Seq(Z)*Z:mark*Seq(Z)" ++ 10 ∷ [] ++ codes "K0 = Seq(Z)" ++ 10 ∷ []
        ++ codes "end done classes 2 nodes 8" ++ 10 ∷ [] }
{
    worked_specifications_are_pointed();
}

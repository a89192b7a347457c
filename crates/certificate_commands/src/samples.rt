//! Laws of what `sample` wrote. Each function's contract is the law; its body calls only laws.
ghost use Rattle.std.specs.Prelude.{◌≡◌, ◌≢◌, ℕ, List, true, false};
ghost use Rattle.bz_model.specs.Spec.{Spec};
ghost use Rattle.bz_model.specs.declared.fraction.Fraction.{Fraction};
ghost use Rattle.size_window.specs.Drawing.{AreLimits, limits_of};
ghost use Rattle.size_window.specs.declared.limits.Limits.{Limits};
ghost use Rattle.certificate.specs.Reading.{IsFirstBad};
ghost use Rattle.command_words.specs.Fractions.{fraction_bits};
ghost use Rattle.command_words.specs.declared.command.FractionBits.{FractionBits};
ghost use Rattle.command_words.specs.declared.command.TapeWord.{TapeWord};
ghost use Rattle.call_stages.specs.Stages.{Files, HasSpecification};
ghost use Rattle.call_stages.specs.declared.status.Status.{Status};
ghost use Rattle.sample_command.specs.SampleCommand.{CarriesSample};
ghost use Rattle.certificate_commands.specs.CertificateStage.{bad_line};
ghost use Rattle.certificate_commands.specs.Completeness.{HoldsText};
ghost use Rattle.certificate_commands.specs.MigrateCommand.{CarriesMigrate};
ghost use Rattle.certificate_commands.specs.SampleText.{IsCertified};
ghost use Rattle.certificate_commands.specs.VerifyCommand.{valid_line, CarriesVerify};

use crate::laws::{what_is_no_certificate_is_refused, what_is_valid_is_found_valid};
use certificate::laws::{a_digest_is_32_bytes, what_a_drawing_prints_is_valid};
use labelling::laws::a_labelling_spells_its_bits;
use size_window::laws::{
    a_course_uses_few_bits, each_entry_is_redrawn_from_its_cells,
    the_entries_of_a_course_are_in_order,
};

/// What `sample` without `--fast` wrote with Done is the text of a certificate of version 2, and
/// all its tests pass for the specification that was read. It has the fraction bits of the
/// command's words, and as many entries as were wanted.
///
/// With `--fast` what is written is no certificate (`what_a_fast_sample_wrote_is_refused`).
pub fn what_sample_wrote_is_valid()
    ensures { (f : Files) (file : List ℕ) (x : Fraction) (tape : TapeWord) (limits : Limits)
        (bits : FractionBits) (status : Status) (text : List ℕ) (ticks : ℕ)
        → AreLimits (limits_of limits) → status ≡ Status.Done
        → CarriesSample f file x tape limits (fraction_bits bits) false status text ticks
        → IsCertified f.content file (fraction_bits bits) limits.count text }
{
    a_digest_is_32_bytes();
    what_a_drawing_prints_is_valid();
    the_entries_of_a_course_are_in_order();
    a_course_uses_few_bits();
    each_entry_is_redrawn_from_its_cells();
    a_labelling_spells_its_bits();
}

/// Where a file holds what `sample` without `--fast` wrote with Done, and another file the
/// specification, `verify` has no other answer than that it is valid, with as many entries as were
/// wanted, and `migrate` writes it as it is.
pub fn what_sample_wrote_is_found_valid()
    ensures verify { (f g : Files) (file again wrote : List ℕ) (s : Spec) (x : Fraction)
        (tape : TapeWord) (limits : Limits) (bits : FractionBits) (status other : Status)
        (text others : List ℕ) (ticks more : ℕ) → AreLimits (limits_of limits)
        → HasSpecification f file s → status ≡ Status.Done
        → CarriesSample f file x tape limits (fraction_bits bits) false status text ticks
        → HasSpecification g again s → HoldsText g wrote text
        → other ≢ Status.OutOfMemory → CarriesVerify g again wrote other others more
        → (other ≡ Status.Done) × (others ≡ valid_line limits.count) }
    ensures migrate { (f g : Files) (file again wrote : List ℕ) (s : Spec) (x : Fraction)
        (tape : TapeWord) (limits : Limits) (bits : FractionBits) (status other : Status)
        (text others : List ℕ) (ticks more : ℕ) → AreLimits (limits_of limits)
        → HasSpecification f file s → status ≡ Status.Done
        → CarriesSample f file x tape limits (fraction_bits bits) false status text ticks
        → HasSpecification g again s → HoldsText g wrote text
        → other ≢ Status.OutOfMemory → CarriesMigrate g again wrote other others more
        → (other ≡ Status.Done) × (others ≡ text) }
{
    a_digest_is_32_bytes();
    what_a_drawing_prints_is_valid();
    the_entries_of_a_course_are_in_order();
    a_course_uses_few_bits();
    each_entry_is_redrawn_from_its_cells();
    a_labelling_spells_its_bits();
    what_is_valid_is_found_valid();
}

/// What `sample` with `--fast` wrote with Done is no certificate: its first line is another. Where
/// a file holds it, `verify` has no other answer than that line 1 is bad.
pub fn what_a_fast_sample_wrote_is_refused()
    ensures bad { (f : Files) (file : List ℕ) (x : Fraction) (tape : TapeWord) (limits : Limits)
        (bits : FractionBits) (status : Status) (text : List ℕ) (ticks : ℕ)
        → status ≡ Status.Done
        → CarriesSample f file x tape limits (fraction_bits bits) true status text ticks
        → IsFirstBad text 1 }
    ensures verify { (f g : Files) (file again wrote : List ℕ) (s : Spec) (x : Fraction)
        (tape : TapeWord) (limits : Limits) (bits : FractionBits) (status other : Status)
        (text others : List ℕ) (ticks more : ℕ) → status ≡ Status.Done
        → CarriesSample f file x tape limits (fraction_bits bits) true status text ticks
        → HasSpecification g again s → HoldsText g wrote text
        → other ≢ Status.OutOfMemory → CarriesVerify g again wrote other others more
        → (other ≡ Status.CertRefused) × (others ≡ bad_line 1) }
{
    what_is_no_certificate_is_refused();
}

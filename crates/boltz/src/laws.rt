//! Laws of answers. Each function's contract is the law, and its body calls only laws.
//!
//! `run` ends with an outcome that its words and files have (`ends`). The laws say which outcome
//! that is.
ghost use Rattle.std.specs.Prelude.{◌≡◌, ◌≢◌, ◌⊎◌, ℕ, Bool, false, List, length, ◌++◌, Option};
ghost use Rattle.bz_model.specs.Spec.{Spec};
ghost use Rattle.bz_model.specs.declared.fraction.Fraction.{Fraction};
ghost use Rattle.bz_outside.specs.Outside.{Rose};
ghost use Rattle.command_words.specs.Commands.{IsCommand, RefusesWords};
ghost use Rattle.command_words.specs.Fractions.{fraction_bits};
ghost use Rattle.certificate.specs.declared.certificate.Certificate.{Certificate};
ghost use Rattle.certificate_commands.specs.Completeness.{HasCertificate, HoldsText, IsVerifiedAs};
ghost use Rattle.certificate_commands.specs.VerifyCommand.{valid_line};
ghost use Rattle.command_words.specs.declared.command.Command.{Command};
ghost use Rattle.command_words.specs.declared.command.Command.TheVariants as command;
ghost use Rattle.command_words.specs.declared.command.TapeWord.{TapeWord};
ghost use Rattle.command_words.specs.declared.command.FractionBits.{FractionBits};
ghost use Rattle.command_words.specs.declared.fault.WordsFault.{WordsFault};
ghost use Rattle.newton_upper.specs.BaseRule.{HasNoUpper};
ghost use Rattle.newton_upper.specs.declared.trials.Trial.{Trial};
ghost use Rattle.oracle_memo.specs.Levels.{level_bounds_from};
ghost use Rattle.rounded_map.specs.RoundedMap.{setting};
ghost use Rattle.size_window.specs.Drawing.{limits_of};
ghost use Rattle.size_window.specs.RunByBits.{Ending};
ghost use Rattle.size_window.specs.declared.limits.Limits.{Limits};
ghost use Rattle.boltz.specs.Answers.{World, Answers, Carries, files_of, IsUndisturbed};
ghost use Rattle.boltz.specs.Commands.{IsStoodFor, AreRefused};
ghost use Rattle.boltz.specs.Complete.{AsksToPrint, IsUnfit, IsDrawable, IsBoundable, IsBaseless};
ghost use Rattle.boltz.specs.Complete.{IsWithoutFast, IsCountable, undisturbed};
ghost use Rattle.bulk_command.specs.BulkCommand.{bulk_course, course_line};
ghost use Rattle.bulk_command.specs.BulkTables.{bulk_tables};
ghost use Rattle.sample_command.specs.Starts.{format_of};
ghost use Rattle.sample_command.specs.Drawn.{Lists, drawn_header, closing_text, ending_status};
ghost use Rattle.call_stages.specs.Ends.{Output, EndsBy, IsWritten};
ghost use Rattle.boltz.specs.OracleCommand.{bounded_text};
ghost use Rattle.call_stages.specs.Outcomes.{IsOne};
ghost use Rattle.call_stages.specs.Refusals.{words_line, no_upper_text, no_fast_line};
ghost use Rattle.boltz.specs.SpecCommand.{spec_text};
ghost use Rattle.call_stages.specs.Stages.{Files, AreCalm, HasSpecification};
ghost use Rattle.call_stages.specs.declared.status.Status.{Status};

use bulk_command::laws::a_run_that_ends_is_told;
use certificate_commands::laws::{what_is_found_valid_is_sound, what_migrate_wrote_is_valid};
use certificate_commands::samples::what_sample_wrote_is_found_valid;

/// A call in which no write fails writes the whole text of an answer, or memory runs out.
pub fn without_a_failed_write_the_answer_is_whole()
    ensures whole { (w : World) (o : Output) (result : Status) → EndsBy (Answers w) o result
        → ¬ (Rose o.faults_before o.faults_after)
        → (result ≡ Status.OutOfMemory)
        ⊎ ((result ≢ Status.OutOfMemory) × IsWritten (Answers w) o result) }
{}

/// Where its files are calm a command has one outcome.
pub fn each_command_has_one_outcome()
    ensures one { (f : Files) (asked : Command) → IsStoodFor asked
        → AreCalm f (files_of asked) → IsOne (Carries f asked) }
{
    pool_command::laws::the_command_has_one_outcome();
    certificate_commands::laws::the_command_has_one_outcome();
    bulk_command::laws::the_command_has_one_outcome();
    point_command::laws::the_command_has_one_outcome();
    chance_command::laws::the_command_has_one_outcome();
    rank_commands::laws::each_command_has_one_outcome();
}

/// An undisturbed call has one status with one text, but for want of memory.
pub fn an_undisturbed_call_has_one_answer()
    ensures one { (w : World) → IsUndisturbed w → IsOne (Answers w) }
{
    each_command_has_one_outcome();
}

/// But for want of memory, what comes of words that stand for a command is what comes of the
/// command. So the laws of the crate of a command hold of the call.
pub fn a_call_has_the_outcome_of_its_command()
    ensures outcome { (w : World) (c : Command) (status : Status) (text : List ℕ) (ticks : ℕ)
        → IsCommand w.words c
        → status ≢ Status.OutOfMemory → Answers w status text ticks
        → Carries w.files c status text ticks }
{}

/// Words that stand for no command have no other answer than the line that says why. Other words
/// aren't refused.
pub fn words_are_refused_by_their_line()
    ensures no_command { (w : World) (fault : WordsFault) (status : Status) (text : List ℕ)
        (ticks : ℕ) → RefusesWords w.words fault
        → fault ≢ WordsFault.OutOfMemory → status ≢ Status.OutOfMemory → Answers w status text ticks
        → (status ≡ Status.WordsRefused) × (text ≡ words_line fault) }
    ensures only { (w : World) (status : Status) (text : List ℕ) (ticks : ℕ)
        → Answers w status text ticks → status ≡ Status.WordsRefused
        → AreRefused w.words }
{}

/// What can be printed has no other answer than to be printed.
pub fn what_can_be_printed_is_printed()
    ensures printed { (w : World) (s : Spec) (status : Status) (text : List ℕ) (ticks : ℕ)
        → AsksToPrint w s
        → status ≢ Status.OutOfMemory → Answers w status text ticks → (status ≡ Status.Done)
        × (text ≡ spec_text s) }
{}

/// What has a base has no other answer than the text of the base and the levels, and what has none,
/// to be bounded or to be drawn, no other than the text of the proposals.
pub fn what_can_be_bounded_is_bounded()
    ensures bounded { (w : World) (s : Spec) (x : Fraction) (F : FractionBits) (base : List ℕ)
        (status : Status) (text : List ℕ) (ticks : ℕ)
        → IsBoundable w s x F base → status ≢ Status.OutOfMemory → Answers w status text ticks
        → (status ≡ Status.Done)
        × (text ≡ bounded_text (setting s x.num x.den (fraction_bits F)) base) }
    ensures baseless { (w : World) (s : Spec) (x : Fraction) (F : FractionBits) (status : Status)
        (text : List ℕ) (ticks : ℕ)
        → IsBaseless w s x F → status ≢ Status.OutOfMemory → Answers w status text ticks
        → (trials : List Trial) × HasNoUpper (setting s x.num x.den (fraction_bits F)) trials
        × (status ≡ Status.NoUpper) × (text ≡ no_upper_text s (fraction_bits F) trials) }
{}

/// Where the base has no fast vector, drawing by it has no other answer than the line that says so.
pub fn what_has_no_fast_vector_is_refused()
    ensures refused { (w : World) (s : Spec) (x : Fraction) (F : FractionBits) (base : List ℕ)
        (status : Status) (text : List ℕ) (ticks : ℕ)
        → IsWithoutFast w s x F base → status ≢ Status.OutOfMemory → Answers w status text ticks
        → (status ≡ Status.NoFast) × (text ≡ no_fast_line (fraction_bits F)) }
{}

/// What can be drawn has no other answer than the text of the drawing over the base's levels and
/// the tape's bits, with the status of its end. The lower sweeps of the levels start from zero, or
/// with `--fast` from the base's fast vector.
pub fn what_can_be_drawn_is_drawn()
    ensures drawn { (w : World) (s : Spec) (x : Fraction) (F : FractionBits) (fast : Bool)
        (turns : ℕ) (limits : Limits) (base start : List ℕ) (bits : ℕ
        → Option Bool) (ending : Ending) (status : Status) (text : List ℕ) (ticks : ℕ)
        → IsDrawable w s x F fast limits base start bits turns ending → status ≢ Status.OutOfMemory
        → Answers w status text ticks
        → (status ≡ ending_status ending)
        × ((lines : List ℕ)
        × Lists s (undisturbed (setting s x.num x.den (fraction_bits F)) base start
        (limits_of limits) bits turns).entries lines
        × (text ≡ drawn_header (format_of fast) (setting s x.num x.den (fraction_bits F)) base
        (limits_of limits)
        ++ (lines
        ++ closing_text (level_bounds_from (setting s x.num x.den (fraction_bits F)) start
        base) (undisturbed (setting s x.num x.den (fraction_bits F)) base start
        (limits_of limits) bits turns) ending))) }
{}

/// What can be counted has no other answer than the line of the run over the base's levels and the
/// bits of the number's seed, with the status of its end.
pub fn what_a_number_draws_is_told()
    ensures told { (w : World) (n : ℕ) (F : FractionBits) (base : List ℕ) (turns : ℕ)
        (ending : Ending) (status : Status) (text : List ℕ) (ticks : ℕ)
        → IsCountable w n F base turns ending → status ≢ Status.OutOfMemory
        → Answers w status text ticks
        → (status ≡ ending_status ending)
        × (text
        ≡ course_line n (bulk_course n (setting (bulk_tables n) 3 16 (fraction_bits F)) base
        turns) ending) }
{
    a_run_that_ends_is_told();
}

/// What is read of an unfit specification is refused.
pub fn what_is_unfit_is_refused()
    ensures refused { (w : World) (status : Status) (text : List ℕ) (ticks : ℕ) → IsUnfit w
        → status ≢ Status.OutOfMemory
        → Answers w status text ticks → status ≡ Status.SpecRefused }
{}

/// Where a call of `verify` is done, its first file has a specification, and the second is the text
/// of a certificate that is valid for it and sound, whoever made it; what is printed counts its
/// entries.
pub fn what_a_call_finds_valid_is_sound()
    ensures sound { (w : World) (file cert : List ℕ) (status : Status) (text : List ℕ) (ticks : ℕ)
        → IsCommand w.words (command.Verify file cert) → status ≡ Status.Done
        → Answers w status text ticks
        → IsVerifiedAs w.files file cert (λ s c. valid_line (length c.entries)) text }
{
    what_is_found_valid_is_sound();
}

/// What a call of `sample` without `--fast`, or of `migrate`, wrote with Done is found valid by
/// each call of `verify` whose files hold the same specification and what was written, unless
/// memory runs out.
pub fn what_a_call_wrote_is_found_valid()
    ensures sample { (w v : World) (file again wrote : List ℕ) (s : Spec) (x : Fraction)
        (tape : TapeWord) (limits : Limits) (F : FractionBits) (status other : Status)
        (text others : List ℕ) (ticks more : ℕ)
        → IsCommand w.words (command.Sample file x tape limits F false)
        → HasSpecification w.files file s
        → status ≡ Status.Done → Answers w status text ticks
        → IsCommand v.words (command.Verify again wrote) → HasSpecification v.files again s
        → HoldsText v.files wrote text → other ≢ Status.OutOfMemory → Answers v other others more
        → (other ≡ Status.Done) × (others ≡ valid_line limits.count) }
    ensures migrate { (w v : World) (file cert again wrote : List ℕ) (s : Spec) (c : Certificate)
        (status other : Status) (text others : List ℕ) (ticks more : ℕ)
        → IsCommand w.words (command.Migrate file cert) → HasSpecification w.files file s
        → HasCertificate w.files cert c → status ≡ Status.Done → Answers w status text ticks
        → IsCommand v.words (command.Verify again wrote) → HasSpecification v.files again s
        → HoldsText v.files wrote text → other ≢ Status.OutOfMemory → Answers v other others more
        → (other ≡ Status.Done) × (others ≡ valid_line (length c.entries)) }
{
    what_sample_wrote_is_found_valid();
    what_migrate_wrote_is_valid();
}

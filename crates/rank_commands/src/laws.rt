//! Laws of what comes of the commands. Each function's contract is a law, and its body calls only
//! laws.
ghost use Rattle.std.specs.Prelude.{◌≡◌, ◌≢◌, ℕ, ◌<◌, ◌≤◌, List, Option, Some};
ghost use Rattle.bz_model.specs.Spec.{Spec, Mode, body_of};
ghost use Rattle.bz_model.specs.Object.{Object, Belongs};
ghost use Rattle.bz_model.specs.Measures.{size};
ghost use Rattle.object_store.specs.Tokens.{size_of};
ghost use Rattle.object_store.specs.declared.token.Token.{Token};
ghost use Rattle.rank_tables.specs.RankOrder.{IsCount, IsRank, IsRanked};
ghost use Rattle.rank_tables.specs.Refusals.{IsFirstNotPlain, HasPlainRanges, IsTooMany};
ghost use Rattle.call_stages.specs.Outcomes.{IsOne};
ghost use Rattle.call_stages.specs.Stages.{Files, IsCalm, HasSpecification};
ghost use Rattle.call_stages.specs.declared.status.Status.{Status};
ghost use Rattle.rank_commands.specs.RankStages.{labelled_line, range_line, too_many_line};
ghost use Rattle.rank_commands.specs.RankStages.{too_large_line};
ghost use Rattle.rank_commands.specs.CountCommand.{counts_text, AreCountsTo, CountedTo};
ghost use Rattle.rank_commands.specs.CountCommand.{CarriesCount};
ghost use Rattle.rank_commands.specs.UnrankCommand.{number_line, object_page, Unranked};
ghost use Rattle.rank_commands.specs.UnrankCommand.{CarriesUnrank};
ghost use Rattle.rank_commands.specs.RankCommand.{rank_text, ObjectRanked, RankedIn, CarriesRank};
ghost use Rattle.rank_commands.specs.Fit.{CanBeCounted, IsTextIn, ComesOf};

use object_text::laws::what_was_printed_is_read;

/// Where its files are known and no read of them failed, a command has one status with one text,
/// but for out of memory.
pub fn each_command_has_one_outcome()
    ensures count { (f : Files) (file : List ℕ) (n : ℕ) → IsCalm f file
        → IsOne (CarriesCount f file n) }
    ensures unrank { (f : Files) (file : List ℕ) (n r : ℕ) → IsCalm f file
        → IsOne (CarriesUnrank f file n r) }
    ensures rank { (f : Files) (file object : List ℕ) → IsCalm f file → IsCalm f object
        → IsOne (CarriesRank f file object) }
{}

/// A specification in the file goes on to the command's own stages, but for out of memory.
pub fn a_fit_specification_goes_on()
    ensures count { (f : Files) (file : List ℕ) (s : Spec) (most : ℕ) (status : Status)
        (text : List ℕ)
        (ticks : ℕ) → HasSpecification f file s → status ≢ Status.OutOfMemory
        → CarriesCount f file most status text ticks → CountedTo most s status text ticks }
    ensures unrank { (f : Files) (file : List ℕ) (s : Spec) (n r : ℕ) (status : Status)
        (text : List ℕ)
        (ticks : ℕ) → HasSpecification f file s → status ≢ Status.OutOfMemory
        → CarriesUnrank f file n r status text ticks → Unranked n r s status text ticks }
    ensures rank { (f : Files) (file object : List ℕ) (s : Spec) (status : Status) (text : List ℕ)
        (ticks : ℕ) → HasSpecification f file s → status ≢ Status.OutOfMemory
        → CarriesRank f file object status text ticks → RankedIn f object s status text ticks }
{}

/// Labels, or else a range that isn't plain, are refused by their lines, before anything else is.
pub fn what_cannot_be_ranked_is_refused()
    ensures labelled { (f : Files) (s : Spec) (status : Status) (text : List ℕ) (ticks : ℕ)
        → s.mode ≡ Mode.Labelled → status ≢ Status.OutOfMemory → ComesOf f s status text ticks
        → (status ≡ Status.RankRefused) × (text ≡ labelled_line) }
    ensures ranged { (f : Files) (s : Spec) (e : ℕ) (status : Status) (text : List ℕ) (ticks : ℕ)
        → s.mode ≡ Mode.Unlabelled → IsFirstNotPlain s e → status ≢ Status.OutOfMemory
        → ComesOf f s status text ticks → (status ≡ Status.RankRefused) × (text ≡ range_line e) }
{}

/// Where a count passes `2^128 - 1`, the first such one is refused by its line.
pub fn what_cannot_be_counted_is_refused()
    ensures count { (s : Spec) (most e n : ℕ) (status : Status) (text : List ℕ) (ticks : ℕ)
        → s.mode ≡ Mode.Unlabelled → HasPlainRanges s → IsTooMany s most e n
        → status ≢ Status.OutOfMemory → CountedTo most s status text ticks
        → (status ≡ Status.RankRefused) × (text ≡ too_many_line e n) }
    ensures unrank { (s : Spec) (n r e m : ℕ) (status : Status) (text : List ℕ) (ticks : ℕ)
        → s.mode ≡ Mode.Unlabelled → HasPlainRanges s → IsTooMany s n e m
        → status ≢ Status.OutOfMemory → Unranked n r s status text ticks
        → (status ≡ Status.RankRefused) × (text ≡ too_many_line e m) }
    ensures rank { (s : Spec) (tokens : List Token) (labels : Option (List ℕ)) (e n : ℕ)
        (status : Status)
        (text : List ℕ) (ticks : ℕ) → size_of tokens ≤ 500 → IsTooMany s (size_of tokens) e n
        → status ≢ Status.OutOfMemory → ObjectRanked s tokens labels status text ticks
        → (status ≡ Status.RankRefused) × (text ≡ too_many_line e n) }
{}

/// What can be counted has no other answer of `count` than the lines of its counts.
pub fn what_can_be_counted_is_counted()
    ensures counted { (f : Files) (file : List ℕ) (s : Spec) (most : ℕ) (count : ℕ
        → ℕ) (status : Status)
        (text : List ℕ) (ticks : ℕ) → HasSpecification f file s → CanBeCounted s most
        → AreCountsTo s most count
        → status ≢ Status.OutOfMemory → CarriesCount f file most status text ticks
        → (status ≡ Status.Done) × (text ≡ counts_text count most) }
{}

/// Where the objects of the size can be counted, `unrank` has no other answer than the text of the
/// object of the rank, or that there is none.
pub fn what_has_a_rank_is_printed()
    ensures printed { (f : Files) (file : List ℕ) (s : Spec) (n r body : ℕ) (o : Object)
        (belongs : Belongs s body o) (status : Status) (text : List ℕ) (ticks : ℕ)
        → HasSpecification f file s
        → CanBeCounted s n → body_of s 0 ≡ Some body → IsRanked s body n r o
        → status ≢ Status.OutOfMemory → CarriesUnrank f file n r status text ticks
        → (status ≡ Status.Done) × (text ≡ object_page s body o belongs) }
    ensures beyond { (f : Files) (file : List ℕ) (s : Spec) (n r body count : ℕ) (status : Status)
        (text : List ℕ) (ticks : ℕ) → HasSpecification f file s → CanBeCounted s n
        → body_of s 0 ≡ Some body
        → IsCount s body n count → count ≤ r → status ≢ Status.OutOfMemory
        → CarriesUnrank f file n r status text ticks
        → (status ≡ Status.RankRefused) × (text ≡ number_line) }
{}

/// Where the objects of its size can be counted, `rank` has no other answer to the text of an
/// object of the first class than its rank and the count; and where it is too large, than that it
/// is.
pub fn what_is_read_is_ranked()
    ensures ranked { (f : Files) (file object : List ℕ) (s : Spec) (body count r : ℕ) (o : Object)
        (belongs : Belongs s body o) (status : Status) (text : List ℕ) (ticks : ℕ)
        → HasSpecification f file s
        → CanBeCounted s (size o) → body_of s 0 ≡ Some body → IsTextIn f object s body o belongs
        → size o ≤ 500 → IsCount s body (size o) count → IsRank s body o r
        → status ≢ Status.OutOfMemory → CarriesRank f file object status text ticks
        → (status ≡ Status.Done) × (text ≡ rank_text r count) }
    ensures too_large { (f : Files) (file object : List ℕ) (s : Spec) (body : ℕ) (o : Object)
        (belongs : Belongs s body o) (status : Status) (text : List ℕ) (ticks : ℕ)
        → HasSpecification f file s
        → s.mode ≡ Mode.Unlabelled → HasPlainRanges s → body_of s 0 ≡ Some body
        → IsTextIn f object s body o belongs → 500 < size o → status ≢ Status.OutOfMemory
        → CarriesRank f file object status text ticks
        → (status ≡ Status.ObjectRefused) × (text ≡ too_large_line (size o)) }
{
    what_was_printed_is_read();
}

//! Laws of the command's outcomes. Each function's contract is the law; none does anything.
ghost use Rattle.std.specs.Prelude.{◌≡◌, ◌≢◌, ℕ, ◌<◌, List, [], ◌∷◌, ◌++◌, length, codes, Option};
ghost use Rattle.std.specs.Prelude.{Some, None};
ghost use Rattle.bz_model.specs.Spec.{Spec};
ghost use Rattle.bz_model.specs.declared.fraction.Fraction.{Fraction};
ghost use Rattle.newton_upper.specs.BaseRule.{base_of, HasNoUpper};
ghost use Rattle.newton_upper.specs.declared.trials.Trial.{Trial};
ghost use Rattle.object_store.specs.declared.token.Token.{Token};
ghost use Rattle.object_text.specs.declared.fault.TextFault.{TextFault};
ghost use Rattle.rounded_map.specs.RoundedMap.{setting};
ghost use Rattle.chance_law.specs.declared.scaled.ChanceBounds.{ChanceBounds};
ghost use Rattle.chance_law.specs.WorkedChances.{one_half, certain};
ghost use Rattle.call_stages.specs.Outcomes.{IsOne};
ghost use Rattle.call_stages.specs.Refusals.{no_upper_text};
ghost use Rattle.call_stages.specs.Stages.{Files, IsCalm, AreCalm, HasSpecification};
ghost use Rattle.call_stages.specs.declared.status.Status.{Status};
ghost use Rattle.object_stage.specs.ObjectStage.{too_long_line, object_fault_line};
ghost use Rattle.chance_command.specs.ChanceCommand.{chance_text, AreBoundsOver, CarriesChance};
ghost use Rattle.chance_command.specs.Completeness.{HasObjectText, LacksObjectText, EnclosesChance};

/// But for want of memory the command has one status with one text, where its files are known and
/// no read of them failed.
pub fn the_command_has_one_outcome()
    ensures one { (f : Files) (file : List ℕ) (x : Fraction) (object : List ℕ) (F : ℕ)
        → AreCalm f (file ∷ object ∷ []) → IsOne (CarriesChance f file x object F) }
{}

/// The printed numbers enclose the chance of the object in the file: the lower one times the total
/// of any list of distinct objects of the class is at most the object's weight; and the upper one
/// is 1, or times the total of some such list at least the weight.
pub fn printed_numbers_enclose_the_chance()
    ensures enclose { (f : Files) (file : List ℕ) (x : Fraction) (object : List ℕ) (F : ℕ)
        (status : Status) (text : List ℕ) (ticks : ℕ) → status ≡ Status.Done
        → CarriesChance f file x object F status text ticks
        → EnclosesChance f file x object text }
{}

/// What has a base has no other answer than the lines of the bounds over it, and what has none no
/// other than the text of the proposals.
pub fn what_can_be_weighed_is_weighed()
    ensures weighed { (f : Files) (file : List ℕ) (x : Fraction) (object : List ℕ) (F : ℕ)
        (s : Spec) (tokens : List Token) (labels : Option (List ℕ)) (base : List ℕ)
        (status : Status) (text : List ℕ) (ticks : ℕ)
        → HasSpecification f file s → HasObjectText f object s tokens labels
        → base_of (setting s x.num x.den F) ≡ Some base → status ≢ Status.OutOfMemory
        → CarriesChance f file x object F status text ticks
        → (b : ChanceBounds) × AreBoundsOver (setting s x.num x.den F) base tokens b
        × (status ≡ Status.Done) × (text ≡ chance_text b) }
    ensures baseless { (f : Files) (file : List ℕ) (x : Fraction) (object : List ℕ) (F : ℕ)
        (s : Spec) (tokens : List Token) (labels : Option (List ℕ))
        (status : Status) (text : List ℕ) (ticks : ℕ)
        → HasSpecification f file s → HasObjectText f object s tokens labels
        → base_of (setting s x.num x.den F) ≡ None → status ≢ Status.OutOfMemory
        → CarriesChance f file x object F status text ticks
        → (trials : List Trial) × HasNoUpper (setting s x.num x.den F) trials
        × (status ≡ Status.NoUpper) × (text ≡ no_upper_text s F trials) }
{}

/// A file with more than 16,777,216 bytes has no other answer than the line that says so, and a
/// text that is no canonical text of an object of the first class no other than the line of its
/// fault.
pub fn what_is_no_object_is_refused()
    ensures too_long { (f : Files) (file : List ℕ) (x : Fraction) (object : List ℕ) (F : ℕ)
        (s : Spec) (calm : IsCalm f object) (status : Status) (text : List ℕ) (ticks : ℕ)
        → HasSpecification f file s → 16777216 < length calm.bytes → status ≢ Status.OutOfMemory
        → CarriesChance f file x object F status text ticks
        → (status ≡ Status.ObjectRefused) × (text ≡ too_long_line) }
    ensures refused { (f : Files) (file : List ℕ) (x : Fraction) (object : List ℕ) (F : ℕ)
        (s : Spec) (fault : TextFault) (status : Status) (text : List ℕ) (ticks : ℕ)
        → HasSpecification f file s → LacksObjectText f object s fault
        → fault ≢ TextFault.OutOfMemory → status ≢ Status.OutOfMemory
        → CarriesChance f file x object F status text ticks
        → (status ≡ Status.ObjectRefused) × (text ≡ object_fault_line fault) }
{}

/// What is printed of the worked chances: 1/2 for `1.Z` of `C = Z + Z` at 1/2, and 1 for the cycle
/// of two atoms of `C = Cyc=2(Z)`.
pub fn worked_chances_are_printed()
    ensures second { chance_text one_half
        ≡ codes "chance lo 9223372036854775808 -64 hi 9223372036854775808 -64" ++ 10 ∷ []
        ++ codes "end done" ++ 10 ∷ [] }
    ensures pair { chance_text certain
        ≡ codes "chance lo 9223372036854775808 -63 hi 9223372036854775808 -63" ++ 10 ∷ []
        ++ codes "end done" ++ 10 ∷ [] }
{}

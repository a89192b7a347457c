//! Laws of texts. Each function's contract is a law, and its body does nothing.
ghost use Rattle.std.specs.Prelude.{◌≡◌, ◌≢◌, ℕ, ◌≤◌, List, length};
ghost use Rattle.bz_model.specs.Spec.{Spec, Mode};
ghost use Rattle.class_system.specs.Distinct.{AreDistinct};
ghost use Rattle.class_system.specs.Sound.{IsSound};
ghost use Rattle.class_system.specs.Limits.{IsWithinLimits};
ghost use Rattle.class_system.specs.CanonicalText.{canonical_text};
ghost use Rattle.spec_reader.specs.declared.fault.SpecFault.{SpecFault};
ghost use Rattle.spec_reader.specs.declared.tokens.Token.{Token};
ghost use Rattle.spec_reader.specs.Grammar.{Definition, IsText};
ghost use Rattle.spec_reader.specs.LanguageOne.{IsTextOne, IsPlainlyRanged};
ghost use Rattle.spec_reader.specs.Reading.{Grammar, Refuses};
ghost use Rattle.spec_reader.specs.TextOne.{GrammarOne};
ghost use Rattle.spec_reader.specs.Tables.{tables};

use class_system::system::System;

/// A text stands for at most one specification.
pub fn a_text_stands_for_one_specification()
    ensures one { (bytes : List ℕ) (s t : Spec) → Grammar bytes s → Grammar bytes t → s ≡ t }
{}

/// A text that stands for a specification within the limits is refused for want of memory alone.
pub fn what_stands_is_not_refused()
    ensures accepted { (bytes : List ℕ) (s : Spec) (f : SpecFault) → length bytes ≤ 65536
        → Grammar bytes s
        → IsWithinLimits s → Refuses bytes f → f ≡ SpecFault.OutOfMemory }
{}

/// A text is refused for one reason, want of memory aside.
pub fn a_text_has_one_refusal()
    ensures one { (bytes : List ℕ) (f g : SpecFault) → f ≢ SpecFault.OutOfMemory
        → g ≢ SpecFault.OutOfMemory
        → Refuses bytes f → Refuses bytes g → f ≡ g }
{}

/// Each text of language 1, which has no bounds, is a text with the same definitions, whose tables
/// have plain ranges.
pub fn language_1_is_read_the_same()
    ensures text { (ts : List Token) (m : Mode) (ds : List Definition) → IsTextOne ts m ds
        → IsText ts m ds }
    ensures ranges { (ts : List Token) (m : Mode) (ds : List Definition) → IsTextOne ts m ds
        → IsPlainlyRanged (tables m ds) }
{}

/// So a text of language 1 stands for the same specification, whose ranges are plain: its bytes
/// have the same tokens here as there.
pub fn a_text_of_language_1_stands_for_the_same()
    ensures stands { (bytes : List ℕ) (s : Spec) → GrammarOne bytes s → Grammar bytes s }
    ensures ranges { (bytes : List ℕ) (s : Spec) → GrammarOne bytes s → IsPlainlyRanged s }
{}

/// The canonical text of a sound specification stands for it, where no class is named twice.
pub fn a_canonical_text_stands_for_its_specification()
    ensures stands { (s : Spec) → IsSound s → AreDistinct s.names → Grammar (canonical_text s) s }
{}

/// The canonical text of a sound specification within the limits has at most 65536 bytes.
pub fn a_canonical_text_is_short()
    ensures few { (s : Spec) → IsSound s → IsWithinLimits s → length (canonical_text s) ≤ 65536 }
{}

/// What a system prints is read back: its text stands for its specification and for no other, is
/// short enough to be read, and is refused for want of memory alone.
pub fn what_a_system_prints_is_read_back(system: &System)
    ensures stands { Grammar (canonical_text system.now) system.now }
    ensures one { (s : Spec) → Grammar (canonical_text system.now) s → s ≡ system.now }
    ensures few { length (canonical_text system.now) ≤ 65536 }
    ensures accepted { (f : SpecFault) → Refuses (canonical_text system.now) f
        → f ≡ SpecFault.OutOfMemory }
{
    system.known();
}

//! Laws of reading and printing: empty functions whose contracts are theorems over the definitions
//! of `specs/Reading.antt`, which the contracts of `read` and `print_labelled` cite.
ghost use Rattle.std.specs.Prelude.{◌≡◌, ◌≢◌, ℕ, List, [], Option, None};
ghost use Rattle.bz_model.specs.Spec.{Spec, Mode};
ghost use Rattle.bz_model.specs.ObjectText.{HasLabels, AreLabelsOf, object_text};
ghost use Rattle.class_system.specs.Sound.{IsSound};
ghost use Rattle.class_system.specs.Limits.{IsWithinLimits};
ghost use Rattle.object_store.specs.declared.token.Token.{Token};
ghost use Rattle.object_text.specs.declared.fault.TextFault.{TextFault};
ghost use Rattle.object_store.specs.Tokens.{IsOf, tokens_of};
ghost use Rattle.object_text.specs.Arranged.{arranged};
ghost use Rattle.object_text.specs.BothWays.{IsReprinted};
ghost use Rattle.object_text.specs.Reading.{IsRead, TellsFault, told};

/// A text is read as one object with its labels, has one fault but for want of memory, and never
/// both.
pub fn a_text_has_one_answer()
    ensures one_object { (s : Spec) → IsSound s → IsWithinLimits s
        → (c : ℕ) (text : List ℕ) (tokens others : List Token) (labels told : Option (List ℕ))
        → IsRead s c text tokens labels → IsRead s c text others told
        → (tokens ≡ others) × (labels ≡ told) }
    ensures no_fault { (s : Spec) → IsSound s → IsWithinLimits s
        → (c : ℕ) (text : List ℕ) (tokens : List Token) (labels : Option (List ℕ))
        (fault : TextFault)
        → IsRead s c text tokens labels → TellsFault s c text fault
        → fault ≡ TextFault.OutOfMemory }
    ensures one_fault { (s : Spec) → IsSound s → IsWithinLimits s
        → (c : ℕ) (text : List ℕ) (fault other : TextFault)
        → TellsFault s c text fault → TellsFault s c text other
        → fault ≢ TextFault.OutOfMemory → other ≢ TextFault.OutOfMemory → fault ≡ other }
{}

/// What was read is of the class and has its labels, and printing it gives the text back.
pub fn what_was_read_is_printed()
    ensures { (s : Spec) → IsSound s → IsWithinLimits s
        → (c : ℕ) (text : List ℕ) (tokens : List Token) (labels : Option (List ℕ))
        → IsRead s c text tokens labels → IsReprinted s c text tokens labels }
{}

/// The text that an object's tokens and labels are printed as is read as the object in canonical
/// order: the parts of each set in the order of their least labels, each cycle from the part with
/// the least label on, each label with its atom. In unlabelled mode this is the object itself.
pub fn what_was_printed_is_read()
    ensures read { (s : Spec) (c : ℕ) (tokens : List Token) (of : IsOf s c tokens) (labels : List ℕ)
        → HasLabels s.mode of.object labels → AreLabelsOf s.mode of.object labels
        → (text : List ℕ) → text ≡ object_text s of.body of.object of.belongs labels
        → IsRead s c text (tokens_of (arranged of.object labels).object)
        (told s.mode (arranged of.object labels).labels) }
    ensures unlabelled { (s : Spec) (c : ℕ) (tokens : List Token) (of : IsOf s c tokens)
        → s.mode ≡ Mode.Unlabelled
        → (text : List ℕ) → text ≡ object_text s of.body of.object of.belongs []
        → IsRead s c text tokens None }
{}

//! Laws on object text.
ghost use Rattle.std.specs.Prelude.{◌≡◌, ℕ, List};
ghost use Rattle.bz_model.specs.Spec.{Spec};
ghost use Rattle.bz_model.specs.Object.{Object, Belongs};
ghost use Rattle.bz_model.specs.ObjectText.{object_text, IsObjectText, IsCanonicalText};
ghost use Rattle.bz_laws.specs.InOrder.{StandsInOrder};
ghost use Rattle.bz_laws.specs.Spelled.{IsPlain};

/// An object has one text with given labels.
pub fn an_object_has_one_text()
    ensures { (s : Spec) (e : ℕ) (o : Object) (labels : List ℕ) (b c : Belongs s e o)
        → object_text s e o b labels ≡ object_text s e o c labels }
{}

/// A text is that of at most one object and labels, where each leaf's word has letters, digits and
/// low lines alone.
pub fn a_text_is_that_of_one_object()
    ensures read { (s : Spec) (e : ℕ) (text : List ℕ) (o p : Object) (labels others : List ℕ)
        → IsPlain s → IsObjectText s e text o labels → IsObjectText s e text p others
        → (o ≡ p) × (labels ≡ others) }
    ensures canonical { (s : Spec) (e : ℕ) (text : List ℕ) (o p : Object) (labels others : List ℕ)
        → IsPlain s → IsCanonicalText s e text o labels → IsObjectText s e text p others
        → (o ≡ p) × (labels ≡ others) }
{}

/// A canonical text is the text of the object that is read from it.
pub fn a_canonical_text_is_printed_again()
    ensures { (s : Spec) (e : ℕ) (text : List ℕ) (o p : Object) (labels others : List ℕ)
        (b : Belongs s e p) → IsPlain s → IsCanonicalText s e text o labels
        → IsObjectText s e text p others → text ≡ object_text s e p b others }
{}

/// Canonical texts are those of objects that stand in order: where a text is that of an object with
/// labels, it is the object's canonical text exactly where each set's parts stand in the order of
/// their least labels and each cycle begins with the part that holds its least label.
pub fn canonical_texts_stand_in_order()
    ensures in_order { (s : Spec) (e : ℕ) (text : List ℕ) (o : Object) (labels : List ℕ)
        (b : Belongs s e o) → IsPlain s → IsObjectText s e text o labels
        → text ≡ object_text s e o b labels → StandsInOrder o labels }
    ensures canonical { (s : Spec) (e : ℕ) (text : List ℕ) (o : Object) (labels : List ℕ)
        (b : Belongs s e o) → IsObjectText s e text o labels → StandsInOrder o labels
        → text ≡ object_text s e o b labels }
{}

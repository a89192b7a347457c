//! Laws of shapes: empty functions whose contracts are theorems over `specs/Tokens.antt`.
ghost use Rattle.std.specs.Prelude.{◌≡◌, ℕ, List, Some};
ghost use Rattle.bz_model.specs.Object.{Object, Belongs};
ghost use Rattle.bz_model.specs.Measures.{size};
ghost use Rattle.bz_model.specs.Spec.{Spec, body_of};
ghost use Rattle.object_store.specs.declared.token.Token.{Token};
ghost use Rattle.object_store.specs.Tokens.{tokens_of, size_of, IsOf};

/// Tokens are those of exactly one object of a class, where they are those of any: each object of
/// the class has tokens that are the class's, and no other object has the same ones. Two objects
/// of one node with the same tokens are one.
pub fn tokens_are_those_of_one_object()
    ensures there { (s : Spec) (c body : ℕ) (o : Object) → body_of s c ≡ Some body
        → Belongs s body o → (of : IsOf s c (tokens_of o)) × (of.object ≡ o) }
    ensures one { (s : Spec) (c : ℕ) (tokens : List Token) (of other : IsOf s c tokens)
        → of.object ≡ other.object }
    ensures at_node { (s : Spec) (e : ℕ) (o p : Object) → Belongs s e o → Belongs s e p
        → tokens_of o ≡ tokens_of p → o ≡ p }
{}

/// The number of dots among an object's tokens is its size.
pub fn dots_are_the_size()
    ensures object { (o : Object) → size_of (tokens_of o) ≡ size o }
    ensures of_class { (s : Spec) (c : ℕ) (tokens : List Token) (of : IsOf s c tokens)
        → size_of tokens ≡ size of.object }
{}

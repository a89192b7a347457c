//! Tokens of a shape.
ghost use Rattle.std.specs.Prelude.{◌≡◌, ◌↔◌, IsTrue};

/// A node of an object's tree. Tuples and class references have none.
#[derive(Clone, Copy, Debug, PartialEq, Eq)]
pub enum Token {
    /// The part of a union that the object is of, from 0.
    Pick(u32),
    /// The number of parts of a sequence, a set or a cycle.
    Count(u32),
    /// An atom.
    Dot,
    /// A neutral object.
    Unit,
}

impl Token {
    ghost use Rattle.object_store.specs.Tokens.{token_size};

    /// The number of atoms that the token stands for: one for a dot, none for another.
    #[inline(always)]
    pub fn atoms(self) -> u64
        ensures { result ≡ token_size self }
    {
        match self {
            Token::Dot => 1,
            Token::Pick(_) | Token::Count(_) | Token::Unit => 0,
        }
    }
}

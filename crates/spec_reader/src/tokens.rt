//! The tokens of a specification's text.

use bz_outside::word::Word;

/// What a counted node stands for: sequences, sets or cycles of its part.
#[derive(Clone, Copy, PartialEq, Eq)]
pub enum Counting {
    Seq,
    Set,
    Cyc,
}

/// The sign of a bound on the number of parts: `>=`, `<=` or `=`.
#[derive(Clone, Copy, PartialEq, Eq)]
pub enum Sign {
    Least,
    Most,
    Exact,
}

/// A token. `Empty` and `Atom` are the leaves, whose word is empty where the leaf is plain.
///
/// `Bad` stands for a run, a leaf, a number or a byte that breaks a rule of the text: it stands
/// nowhere.
#[derive(Drop)]
pub enum Token {
    Name(Word),
    Empty(Word),
    Atom(Word),
    Counted(Counting),
    Number(u32),
    AtLeast,
    AtMost,
    Exactly,
    Plus,
    Star,
    Open,
    Close,
    LineEnd,
    TextEnd,
    Bad,
}

/// A token with the line and the column of its first byte, which count from 1.
#[derive(Drop)]
pub struct Placed {
    pub token: Token,
    pub line: u32,
    pub column: u32,
}

/// What begins at a byte, with how many bytes after this one belong to it.
#[derive(Drop)]
pub enum Front {
    LineFeed,
    Blank,
    Comment(usize),
    Begins(Token, usize),
}

/// Where the reading stands: whether the line has a token so far, the line and the column.
#[derive(Clone, Copy)]
pub struct Spot {
    pub some: bool,
    pub line: u32,
    pub column: u32,
}

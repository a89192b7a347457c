//! What a node shows of an object at the object's first token.
ghost use Rattle.std.specs.Prelude.{◌≡◌, ℕ, ◌<◌, ◌∷◌, ◌↔◌, List, Some, length, map, IfSome, IfNone};
ghost use Rattle.std.specs.Prelude.{IsTrue};
ghost use Rattle.bz_model.specs.Spec.{IsInRange};
ghost use Rattle.class_system.specs.Views.{number, spec_range};
ghost use Rattle.object_store.specs.Seen.{Seen, IsWayDown, IsPickOf, IsNoPick, IsCountIn};
ghost use Rattle.object_store.specs.Seen.{IsNoCount};
ghost use Rattle.object_store.specs.Tokens.{AreOf};

use crate::token::Token;
use class_system::expr::Expr;
use class_system::ids::ExprId;
use class_system::ranges::Range;
use class_system::system::System;

/// What a node shows of an object.
///
/// Classes and products have no token of their own. Any other node shows what the object's first
/// token says.
#[derive(Clone, Copy, Debug, PartialEq, Eq)]
pub enum Visit {
    /// A reference to a class, with the class's body.
    Class(ExprId),
    /// A product.
    Product,
    /// A neutral object.
    Empty,
    /// An atom.
    Atom,
    /// A union: the option, from 0, and the part that it picks.
    Union(u32, ExprId),
    /// A sequence: its number of parts, and the part's node.
    Seq(u32, ExprId),
    /// A set: its number of parts, and the part's node.
    Set(u32, ExprId),
    /// A cycle: its number of parts, and the part's node.
    Cyc(u32, ExprId),
}

impl Visit {
    /// What node `e` shows of an object whose tokens are the first of `tokens`.
    ///
    /// None only where no object of the node has tokens that begin so: the first token isn't of the
    /// node's kind, or isn't there. Takes no memory.
    pub fn at(system: &System, e: ExprId, tokens: &[Token]) -> Option<Visit>
        requires in_range { e.0 < length system.now.nodes }
        ensures seen { IfSome result (Seen system.now e.0 tokens.now) }
        ensures none { IfNone result ((es : List ℕ) → ¬ (AreOf system.now (e.0 ∷ es) tokens.now)) }
    {
        system.known();
        match system.node(e) {
            Expr::Class(c) => Some(Visit::Class(system.body(*c))),
            Expr::Product(_) => Some(Visit::Product),
            Expr::Empty(_) => leaf_at(Visit::Empty, Token::Unit, tokens),
            Expr::Atom(_) => leaf_at(Visit::Atom, Token::Dot, tokens),
            Expr::Union(parts) => {
                let (option, part) = pick_at(parts.items(), tokens)?;
                Some(Visit::Union(option, part))
            }
            Expr::Seq(part) => Some(Visit::Seq(count_at(system.range(e), tokens)?, *part)),
            Expr::Set(part) => Some(Visit::Set(count_at(system.range(e), tokens)?, *part)),
            Expr::Cyc(part) => Some(Visit::Cyc(count_at(system.range(e), tokens)?, *part)),
        }
    }

    /// Whether the node has no token, so that the way goes on down: it is a class or a product.
    pub fn is_way_down(self) -> bool
        ensures { IsTrue result ↔ IsWayDown self }
    {
        match self {
            Visit::Class(_) | Visit::Product => true,
            Visit::Empty | Visit::Atom | Visit::Union(..) => false,
            Visit::Seq(..) | Visit::Set(..) | Visit::Cyc(..) => false,
        }
    }
}

/// The visit of a leaf, where the first token is the leaf's.
fn leaf_at(leaf: Visit, wanted: Token, tokens: &[Token]) -> Option<Visit>
    ensures leaf { IfSome result (λ v. (v ≡ leaf)
        × ((later : List Token) × (tokens.now ≡ wanted ∷ later))) }
    ensures none { IfNone result ((later : List Token) → ¬ (tokens.now ≡ wanted ∷ later)) }
{
    let token = tokens.first()?;
    if *token == wanted { Some(leaf) } else { None }
}

/// The option that the first token picks among some parts, and the part.
fn pick_at(parts: &[ExprId], tokens: &[Token]) -> Option<(u32, ExprId)>
    ensures pick { IfSome result (λ p. IsPickOf (map number parts.now) tokens.now p.0 p.1.0) }
    ensures none { IfNone result (IsNoPick (map number parts.now) tokens.now) }
{
    let Some(Token::Pick(option)) = tokens.first() else {
        return None;
    };
    let Some(part) = parts.get(*option as usize) else {
        return None;
    };
    Some((*option, *part))
}

/// The number of parts that the first token says, where it lies in a range.
fn count_at(range: Range, tokens: &[Token]) -> Option<u32>
    ensures count { IfSome result (IsCountIn (Some (spec_range range)) tokens.now) }
    ensures none { IfNone result (IsNoCount (Some (spec_range range)) tokens.now) }
{
    let Some(Token::Count(parts)) = tokens.first() else {
        return None;
    };
    if !is_within(*parts, range) {
        return None;
    }
    Some(*parts)
}

/// Whether a number of parts lies in a range.
fn is_within(parts: u32, range: Range) -> bool
    ensures { IsTrue result ↔ IsInRange parts (Some (spec_range range)) }
{
    range.low <= parts && range.high.is_none_or(|high| parts <= high)
}

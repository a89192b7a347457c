//! What was read of a text so far.
ghost use Rattle.std.specs.Prelude.{◌≡◌, [], OnOk, IfOk};
ghost use Rattle.bz_model.specs.ObjectText.{lesser_label};
ghost use Rattle.object_text.specs.Taken.{follows_mark, next_mark, nothing, with_token, with_label};
ghost use Rattle.object_text.specs.Taken.{opened};
ghost use Rattle.object_text.specs.Taken.{parted, closed};

use crate::output::lesser;
use labelling::labels::Labels;
use object_store::shape::Shape;
use object_store::token::Token;
use std::alloc::{AllocError, Global};
use std::marker::Model;

/// The kind of a list of parts.
#[derive(Clone, Copy)]
pub(crate) enum Kind {
    Sequence,
    Set,
    Cycle,
}

/// A list that is open.
#[derive(Clone, Copy)]
struct OpenList {
    kind: Kind,
    /// The place of the token that tells its number of parts.
    slot: usize,
    /// The least label of its whole parts and of what stands before it in the part around.
    least: u64,
    /// The least label of the last part of a set, or of the first part of a cycle.
    mark: Option<u64>,
}

/// Tokens and labels that were read, and the lists that are open.
#[derive(Drop)]
pub(crate) struct Partial {
    tokens: Vec<Token>,
    labels: Labels,
    /// The least label of the part that is read, or 0.
    least: u64,
    /// Whether all sets and cycles stand in order as far as they were read.
    ordered: bool,
    lists: Vec<OpenList>,
}

impl Model for Partial {
    ghost use Rattle.std.specs.Prelude.{reverse};
    ghost use Rattle.object_text.specs.Taken.{Taken};
    ghost use Rattle.object_text.specs.Slots.{inner_tokens, open_lists, AreSlots};

    ghost Value = { Taken };

    ghost view = { λ p. record {
      tokens = inner_tokens (reverse p.lists.items) p.tokens.items;
      labels = p.labels;
      least = p.least;
      ordered = p.ordered;
      lists = open_lists (reverse p.lists.items) p.tokens.items;
    } };

    ghost invariant = { λ p. AreSlots (reverse p.lists.items) p.tokens.items };
}

impl Partial {
    /// Nothing.
    pub(crate) fn new(alloc: Global) -> Partial
        ensures { result ≡ nothing }
    {
        Partial {
            tokens: Vec::new(alloc),
            labels: Labels::new(alloc),
            least: 0,
            ordered: true,
            lists: Vec::new(alloc),
        }
    }

    /// Appends a token.
    pub(crate) fn push_token(&mut self, token: Token) -> Result<(), AllocError>
        ensures { OnOk result (self.new ≡ with_token self.old token) }
    {
        self.tokens.push(token)?;
        Ok(())
    }

    /// Appends a label.
    pub(crate) fn push_label(&mut self, label: u64) -> Result<(), AllocError>
        ensures { OnOk result (self.new ≡ with_label self.old label) }
    {
        self.labels.push(label)?;
        self.least = lesser(self.least, label);
        Ok(())
    }

    /// Begins a list.
    pub(crate) fn open(&mut self, kind: Kind) -> Result<(), AllocError>
        ensures { OnOk result (self.new ≡ opened kind self.old) }
    {
        let list = OpenList {
            kind,
            slot: self.tokens.len(),
            least: self.least,
            mark: None,
        };
        self.tokens.push(Token::Count(0))?;
        self.lists.push(list)?;
        self.least = 0;
        Ok(())
    }

    /// Ends a part of the innermost list.
    pub(crate) fn end_part(&mut self)
        ensures { self.new ≡ parted self.old }
    {
        let Some(list) = self.lists.pop() else {
            return;
        };
        let part = self.least;
        self.least = 0;
        self.ordered = self.ordered && fits(list.kind, list.mark, part);
        self.lists.push_reserved(OpenList {
            kind: list.kind,
            slot: list.slot,
            least: lesser(list.least, part),
            mark: next_mark(list.kind, list.mark, part),
        });
    }

    /// Ends the innermost list, which has so many parts.
    pub(crate) fn close(&mut self, parts: u32)
        ensures { self.new ≡ closed parts self.old }
    {
        let Some(list) = self.lists.pop() else {
            return;
        };
        self.tokens[list.slot] = Token::Count(parts);
        self.least = list.least;
    }

    /// Whether all sets and cycles stand in order.
    pub(crate) fn is_ordered(&self) -> bool
        ensures { result ≡ self.now.ordered }
    {
        self.ordered
    }

    /// The labels that were read.
    pub(crate) fn labels(&self) -> &[u64]
        ensures { result.now ≡ self.now.labels }
    {
        self.labels.items()
    }

    /// The labels that were read.
    pub(crate) fn into_labels(self) -> Labels
        ensures { result ≡ self.labels }
    {
        let Partial { labels, .. } = self;
        labels
    }

    /// The tokens as a shape, where no list is open.
    pub(crate) fn shape(&self, alloc: Global) -> Result<Shape, AllocError>
        requires whole { self.now.lists ≡ [] }
        ensures { IfOk result (λ shape. shape.items ≡ self.now.tokens) }
    {
        let mut shape = Shape::new(alloc);
        shape.reserve(self.tokens.len())?;
        for token in &self.tokens {
            shape.push(*token)?;
        }
        Ok(shape)
    }
}

/// Whether a part with this least label may come next in a list with this mark.
fn fits(kind: Kind, mark: Option<u64>, least: u64) -> bool
    ensures { result ≡ follows_mark kind mark least }
{
    match (kind, mark) {
        (Kind::Set, Some(mark)) => mark <= least,
        (Kind::Cycle, Some(mark)) => lesser(mark, least) == mark,
        _ => true,
    }
}

/// The mark of a list behind a part with this least label.
fn next_mark(kind: Kind, mark: Option<u64>, least: u64) -> Option<u64>
    ensures { result ≡ next_mark kind mark least }
{
    match (kind, mark) {
        (Kind::Cycle, Some(mark)) => Some(mark),
        _ => Some(least),
    }
}

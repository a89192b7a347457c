//! The nodes of sums, as they are read.
ghost use Rattle.std.specs.Prelude.{◌≡◌, ◌^◌, ◌<◌, ◌≤◌, ◌+◌, ℕ, List, [], length, map, OnOk, IfOk};
ghost use Rattle.bz_model.specs.Spec.{Node, plain_range};
ghost use Rattle.class_system.specs.Views.{number, spec_node, spec_range};
ghost use Rattle.class_system.specs.Drafting.{with_node, with_body};
ghost use Rattle.spec_reader.specs.Grammar.{Term};
ghost use Rattle.spec_reader.specs.Machine.{Place, parenthesis_opened, with_one_more, with_frame};
ghost use Rattle.spec_reader.specs.Machine.{next_product};
ghost use Rattle.spec_reader.specs.Machine.{parenthesis_closed, line_over};
ghost use Rattle.spec_reader.specs.Building.{joined_in_node, joined_number, wrapped_draft};
ghost use Rattle.spec_reader.specs.Building.{wrapped_number};
ghost use Rattle.spec_reader.specs.Building.{wrap_kept, kept_in_sums, Stands, IsLeaf, EndsSum};
ghost use Rattle.spec_reader.specs.Building.{LeadsOrFails};

use crate::tokens::{Counting, Sign};
use class_system::draft::Draft;
use class_system::expr::Expr;
use class_system::ids::{ExprId, Parts};
use class_system::ranges::Range;
use std::alloc::{AllocError, Global};
use std::mem;

/// What a parenthesis makes of its sum: the sum itself, or a counted node over it.
#[derive(Clone, Copy)]
pub enum Wrap {
    Bare,
    Over(Counting, Range),
}

/// What was read of a sum: the nodes of its products before, and of the factors of the product that
/// is read.
#[derive(Drop)]
pub struct Frame {
    pub products: Parts,
    pub factors: Parts,
}

/// A sum whose parenthesis is open: what was read of it before, and what the parenthesis makes.
#[derive(Drop)]
pub struct Outer {
    pub frame: Frame,
    pub wrap: Wrap,
}

/// The tables so far, the sum that is read and those around it, the outermost first.
#[derive(Drop)]
pub struct Sums {
    pub draft: Draft,
    pub frame: Frame,
    pub outers: Vec<Outer>,
}

/// What may come next: a definition or the end, an equals sign, a factor, a bound or a parenthesis,
/// a bound's number, a bound's parenthesis, what stands behind a factor, or nothing.
#[derive(Clone, Copy)]
pub enum Expects {
    Line,
    Equals,
    Factor,
    Count(Counting),
    Number(Counting, Sign),
    Open(Counting, Range),
    Joint,
    Nothing,
}

/// The node of a union of parts; one part alone is itself.
fn union_node(draft: &mut Draft, parts: Parts) -> Result<ExprId, AllocError>
    requires few { length draft.old.nodes < 2 ^ 32 }
    ensures joined { OnOk result
        (draft.new ≡ joined_in_node Node.Union draft.old (map number parts)) }
    ensures number { IfOk result (λ e. e.0 ≡ joined_number draft.old (map number parts)) }
    ensures few { OnOk result (length draft.new.nodes ≤ length draft.old.nodes + 1) }
    ensures names { OnOk result (draft.new.names ≡ draft.old.names) }
{
    if let [part] = parts.items() {
        return Ok(*part);
    }
    draft.add_node(Expr::Union(parts))
}

/// The node of a product of parts; one part alone is itself.
fn product_node(draft: &mut Draft, parts: Parts) -> Result<ExprId, AllocError>
    requires few { length draft.old.nodes < 2 ^ 32 }
    ensures joined { OnOk result
        (draft.new ≡ joined_in_node Node.Product draft.old (map number parts)) }
    ensures number { IfOk result (λ e. e.0 ≡ joined_number draft.old (map number parts)) }
    ensures few { OnOk result (length draft.new.nodes ≤ length draft.old.nodes + 1) }
    ensures names { OnOk result (draft.new.names ≡ draft.old.names) }
{
    if let [factor] = parts.items() {
        return Ok(*factor);
    }
    draft.add_node(Expr::Product(parts))
}

/// The node of a closed parenthesis with this sum.
fn wrap_node(draft: &mut Draft, wrap: Wrap, sum: ExprId) -> Result<ExprId, AllocError>
    requires few { length draft.old.nodes < 2 ^ 32 }
    ensures wrapped { OnOk result (draft.new ≡ wrapped_draft draft.old (wrap_kept wrap) sum.0) }
    ensures number { IfOk result (λ e. e.0 ≡ wrapped_number draft.old (wrap_kept wrap) sum.0) }
    ensures few { OnOk result (length draft.new.nodes ≤ length draft.old.nodes + 1) }
    ensures names { OnOk result (draft.new.names ≡ draft.old.names) }
{
    match wrap {
        Wrap::Bare => Ok(sum),
        Wrap::Over(Counting::Seq, range) => draft.add_counted(Expr::Seq(sum), range),
        Wrap::Over(Counting::Set, range) => draft.add_counted(Expr::Set(sum), range),
        Wrap::Over(Counting::Cyc, range) => draft.add_counted(Expr::Cyc(sum), range),
    }
}

impl Frame {
    /// Nothing was read yet. Takes no memory.
    pub fn new(alloc: Global) -> Frame
        ensures products { result.products ≡ [] }
        ensures factors { result.factors ≡ [] }
    {
        Frame {
            products: Parts::new(alloc),
            factors: Parts::new(alloc),
        }
    }
}

impl Sums {
    /// A leaf or a reference is read.
    pub fn leaf(&mut self, node: Expr) -> Result<(), AllocError>
        requires few { length self.old.draft.nodes < 2 ^ 32 }
        requires plain { plain_range (spec_node node) ≡ record { low = 0; high = None } }
        ensures read { OnOk result ((names : List (List ℕ)) (p : Place) (t : Term)
            → IsLeaf names t (spec_node node)
            → Stands names p (kept_in_sums self.old) → Stands names (with_one_more p t)
            (kept_in_sums self.new)) }
        ensures few { OnOk result (length self.new.draft.nodes ≤ length self.old.draft.nodes + 1) }
        ensures names { OnOk result (self.new.draft.names ≡ self.old.draft.names) }
    {
        let e = self.draft.add_node(node)?;
        self.frame.factors.push(e)?;
        Ok(())
    }

    /// A parenthesis is opened.
    pub fn open(&mut self, alloc: Global, wrap: Wrap) -> Result<(), AllocError>
        ensures read { OnOk result ((names : List (List ℕ)) (p : Place)
            → Stands names p (kept_in_sums self.old)
            → Stands names (parenthesis_opened p (wrap_kept wrap)) (kept_in_sums self.new)) }
        ensures few { self.new.draft ≡ self.old.draft }
    {
        let frame = mem::replace(&mut self.frame, Frame::new(alloc));
        self.outers.push(Outer { frame, wrap })?;
        Ok(())
    }

    /// The product that is read is over: a plus sign.
    pub fn next_product(&mut self, alloc: Global) -> Result<(), AllocError>
        requires few { length self.old.draft.nodes < 2 ^ 32 }
        ensures read { OnOk result ((names : List (List ℕ)) (p : Place)
            → Stands names p (kept_in_sums self.old)
            → Stands names (with_frame p (next_product p.frame)) (kept_in_sums self.new)) }
        ensures few { OnOk result (length self.new.draft.nodes ≤ length self.old.draft.nodes + 1) }
        ensures names { OnOk result (self.new.draft.names ≡ self.old.draft.names) }
    {
        let factors = mem::replace(&mut self.frame.factors, Parts::new(alloc));
        let e = product_node(&mut self.draft, factors)?;
        self.frame.products.push(e)?;
        Ok(())
    }

    /// The sum that is read is over; its node.
    fn end_sum(&mut self, alloc: Global) -> Result<ExprId, AllocError>
        requires few { length self.old.draft.nodes + 1 < 2 ^ 32 }
        ensures sum { IfOk result (λ e. EndsSum self.old.draft (kept_in_sums self.old).products
            (kept_in_sums self.old).factors self.new.draft e.0) }
        ensures products { OnOk result (self.new.frame.products ≡ []) }
        ensures factors { OnOk result (self.new.frame.factors ≡ []) }
        ensures outers { self.new.outers.items ≡ self.old.outers.items }
        ensures few { OnOk result (length self.new.draft.nodes ≤ length self.old.draft.nodes + 2) }
        ensures names { OnOk result (self.new.draft.names ≡ self.old.draft.names) }
    {
        let Frame {
            mut products,
            factors,
        } = mem::replace(&mut self.frame, Frame::new(alloc));
        let e = product_node(&mut self.draft, factors)?;
        products.push(e)?;
        let sum = union_node(&mut self.draft, products)?;
        Ok(sum)
    }

    /// A parenthesis is closed; false where none is open.
    pub fn close(&mut self, alloc: Global) -> Result<bool, AllocError>
        requires few { length self.old.draft.nodes + 2 < 2 ^ 32 }
        ensures read { IfOk result (λ closes. (names : List (List ℕ)) (p : Place)
            → Stands names p (kept_in_sums self.old)
            → LeadsOrFails names (parenthesis_closed p p.outers) closes Expects.Joint
            (kept_in_sums self.new)) }
        ensures few { OnOk result (length self.new.draft.nodes ≤ length self.old.draft.nodes + 3) }
        ensures names { OnOk result (self.new.draft.names ≡ self.old.draft.names) }
    {
        let Some(outer) = self.outers.pop() else {
            return Ok(false);
        };
        let sum = self.end_sum(alloc)?;
        let e = wrap_node(&mut self.draft, outer.wrap, sum)?;
        self.frame = outer.frame;
        self.frame.factors.push(e)?;
        Ok(true)
    }

    /// A definition's line ends; false within a parenthesis.
    pub fn end_line(&mut self, alloc: Global) -> Result<bool, AllocError>
        requires few { length self.old.draft.nodes + 2 < 2 ^ 32 }
        ensures read { IfOk result (λ ends. (names : List (List ℕ)) (p : Place)
            → Stands names p (kept_in_sums self.old)
            → LeadsOrFails names (line_over p p.outers) ends Expects.Line (kept_in_sums self.new)) }
        ensures few { OnOk result (length self.new.draft.nodes ≤ length self.old.draft.nodes + 2) }
        ensures names { OnOk result (self.new.draft.names ≡ self.old.draft.names) }
    {
        if !self.outers.as_slice().is_empty() {
            return Ok(false);
        }
        let sum = self.end_sum(alloc)?;
        self.draft.set_body(sum)?;
        Ok(true)
    }
}

//! Forms laid out one after the other.
ghost use Rattle.std.specs.Prelude.{◌≡◌, ◌-◌, ◌∷◌, ◌++◌, [], ℕ, List, map, take, drop, length};
ghost use Rattle.std.specs.Prelude.{option_map, option_to_list, IfNone, IfOk, OnOk};
ghost use Rattle.bz_model.specs.Spec.{plain_range};
ghost use Rattle.class_system.specs.Drafting.{with_node};
ghost use Rattle.class_system.specs.Views.{spec_node, number};
ghost use Rattle.pointing.specs.Forms.{Form, parts_from};
ghost use Rattle.pointing.specs.LaidOut.{laid, plain};
ghost use Rattle.pointing.specs.Building.{IsLayout, put_together, union_of_last};

use class_system::draft::Draft;
use class_system::expr::Expr;
use class_system::ids::{ExprId, Parts};
use std::alloc::{AllocError, Global};
use std::marker::Model;

/// A draft, and the numbers of the nodes of the forms that are laid out in it.
#[derive(Drop)]
pub(crate) struct Layout {
    alloc: Global,
    draft: Draft,
    numbers: Vec<ExprId>,
}

impl Model for Layout {
    ghost use Rattle.std.specs.Prelude.{map};
    ghost use Rattle.class_system.specs.Views.{number};
    ghost use Rattle.pointing.specs.Building.{Layout};

    ghost Value = { Layout };

    ghost view = { λ l. record { draft = l.draft; numbers = map number l.numbers.items } };
}

impl Layout {
    /// Nothing is laid out in the draft.
    pub(crate) fn new(alloc: Global, draft: Draft) -> Layout
        ensures draft { result.draft ≡ draft }
        ensures numbers { result.numbers ≡ [] }
    {
        Layout {
            alloc,
            draft,
            numbers: Vec::new(alloc),
        }
    }

    /// The draft, each form that is laid out in it being the body of a class.
    pub(crate) fn finish(self) -> Result<Draft, AllocError>
        ensures bodies { IfOk result (λ d. d ≡ record (self.draft) {
          bodies = self.draft.bodies ++ self.numbers;
        }) }
    {
        let mut draft = self.draft;
        for number in &self.numbers {
            draft.set_body(*number)?;
        }
        Ok(draft)
    }

    /// Adds a node, the last one of a form.
    ///
    /// Memory runs out before the numbers do.
    fn add(&mut self, node: Expr) -> Result<(), AllocError>
        ensures draft { OnOk result (self.new.draft
            ≡ with_node self.old.draft (spec_node node) (plain_range (spec_node node))) }
        ensures numbers { OnOk result (self.new.numbers
            ≡ self.old.numbers ++ length self.old.draft.nodes ∷ []) }
    {
        if self.draft.nodes().len() > u32::MAX as usize {
            return Err(AllocError);
        }
        let number = self.draft.add_node(node)?;
        self.numbers.push(number)?;
        Ok(())
    }

    /// Takes the numbers of the last n forms.
    fn take_last(&mut self, n: usize) -> Result<Parts, AllocError>
        ensures parts { IfOk result (λ parts. map number parts
            ≡ drop (length self.old.numbers - n) self.old.numbers) }
        ensures numbers { OnOk result (self.new.numbers
            ≡ take (length self.old.numbers - n) self.old.numbers) }
        ensures draft { OnOk result (self.new.draft ≡ self.old.draft) }
    {
        let first = self.numbers.len().saturating_sub(n);
        let mut parts = Parts::new(self.alloc);
        for number in &self.numbers[first..] {
            parts.push(*number)?;
        }
        self.numbers.truncate(first);
        Ok(parts)
    }

    /// Takes the number of the last form; None exactly where there is none. Takes no memory.
    fn pop(&mut self) -> Option<ExprId>
        ensures numbers { self.old.numbers
            ≡ self.new.numbers ++ option_to_list (option_map number result) }
        ensures none { IfNone result (self.old.numbers ≡ []) }
        ensures draft { self.new.draft ≡ self.old.draft }
    {
        self.numbers.pop()
    }

    /// Lays out a leaf or a reference.
    pub(crate) fn leaf(&mut self, leaf: Expr) -> Result<(), AllocError>
        ensures laid { OnOk result ((names : List (List ℕ)) (fs : List Form) (f : Form)
            → IsLayout names fs self.old → ((first : ℕ) → laid first f ≡ spec_node leaf ∷ [])
            → plain_range (spec_node leaf) ≡ plain → IsLayout names (fs ++ f ∷ []) self.new) }
    {
        self.add(leaf)
    }

    /// Puts the last n forms together as a union.
    pub(crate) fn union(&mut self, n: usize) -> Result<(), AllocError>
        ensures laid { OnOk result ((names : List (List ℕ)) (fs : List Form)
            → IsLayout names fs self.old
            → IsLayout names (put_together (λ gs. Form.Union (parts_from gs) ∷ []) n fs) self.new) }
    {
        let parts = self.take_last(n)?;
        self.add(Expr::Union(parts))
    }

    /// Puts the last n forms together as a product.
    pub(crate) fn product(&mut self, n: usize) -> Result<(), AllocError>
        ensures laid { OnOk result ((names : List (List ℕ)) (fs : List Form)
            → IsLayout names fs self.old
            → IsLayout names (put_together (λ gs. Form.Product (parts_from gs) ∷ []) n fs)
            self.new) }
    {
        let parts = self.take_last(n)?;
        self.add(Expr::Product(parts))
    }

    /// Makes the last form the sequence of it.
    pub(crate) fn seq(&mut self) -> Result<(), AllocError>
        ensures laid { OnOk result ((names : List (List ℕ)) (fs : List Form)
            → IsLayout names fs self.old
            → IsLayout names (put_together (map Form.Seq) 1 fs) self.new) }
    {
        match self.pop() {
            Some(part) => self.add(Expr::Seq(part)),
            None => Ok(()),
        }
    }

    /// Makes the last n forms a choice of one: their union, where there are two or more.
    pub(crate) fn choice(&mut self, n: usize) -> Result<(), AllocError>
        ensures laid { OnOk result ((names : List (List ℕ)) (fs : List Form)
            → IsLayout names fs self.old
            → IsLayout names (union_of_last n fs) self.new) }
    {
        if n < 2 { Ok(()) } else { self.union(n) }
    }
}

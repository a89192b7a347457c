//! An object without the mark of its atom, visit by visit.
//!
//! A walk passes the marked object. The calls give up where a visit isn't that of an object with an
//! atom marked, which the walk rules out.
ghost use Rattle.std.specs.Prelude.{◌≡◌, ℕ, ◌<◌, ◌++◌, [], ◌∷◌, List, length, option_to_list, IfOk};
ghost use Rattle.std.specs.Prelude.{OnOk, IfSome, IfNone};
ghost use Rattle.bz_model.specs.Spec.{Spec, node_at};
ghost use Rattle.bz_model.specs.Object.{none};
ghost use Rattle.class_system.specs.Views.{spec_node};
ghost use Rattle.object_store.specs.Tokens.{IsOf, size_of};
ghost use Rattle.object_store.specs.declared.token.Token as model;
ghost use Rattle.object_store.specs.declared.visit.Visit.TheVariants.{Atom, Union, Product};
ghost use Rattle.pointing.specs.Atoms.{atomic_nodes};
ghost use Rattle.pointing.specs.Calls.{AreMarkedAt};
ghost use Rattle.pointing.specs.Correspondence.{IsPointable};
ghost use Rattle.pointing.specs.PointedSpec.{pointed_spec};
ghost use Rattle.pointing.specs.Writing.{token_at};
ghost use Rattle.pointing.specs.Unmarking.{ReadsOn, with_dues, IsSome, SameReading, IsResolved};
ghost use Rattle.pointing.specs.Unmarking.{LeadsTo, HasRead, IsChoice};
ghost use Rattle.pointing.specs.declared.dues.Due.TheVariants.{Copied, Marked, Tuple, Split, Last};

use crate::dues::{Due, Dues};
use crate::marking::{parts_below, token_of};
use crate::resolving::{marked_part, node_of, resolve};
use crate::ways::parts_of;
use class_system::expr::Expr;
use class_system::ids::{ClassId, ExprId};
use class_system::system::System;
use object_store::shape::Shape;
use object_store::token::Token;
use object_store::visit::Visit;
use object_store::walk::Next;
use std::alloc::{AllocError, Global};
use std::marker::Model;

/// The object of class 0 that the object of the pointed class 0 came from, and the number of its
/// marked atom.
///
/// `atomic` tells which nodes have an object with an atom.
pub(crate) fn without_mark(
    alloc: Global,
    system: &System,
    pointed: &System,
    atomic: &[bool],
    shape: &Shape,
) -> Result<(Shape, u64), AllocError>
    requires pointable { IsPointable system.now }
    requires atomic { atomic.now ≡ atomic_nodes system.now }
    requires pointed { pointed.now ≡ pointed_spec system.now }
    requires is_of { IsOf pointed.now 0 shape.now.items }
    ensures unmarked { IfOk result (λ r. (plain : List model.Token) (atom : ℕ)
        → AreMarkedAt system.now plain atom shape.now.items
        → (r.0.items ≡ plain) × (r.1 ≡ atom)) }
{
    system.known();
    pointed.known();
    let mut walk = shape.walk(pointed, ClassId(0))?;
    let mut unmarking = Unmarking::new(alloc, system.body(ClassId(0)))?;
    'visits: loop {
        match walk.next()? {
            Next::Node(e, visit) => unmarking.visit(system, pointed, atomic, e, visit)?,
            Next::End => {
                unmarking.finish();
                let plain = shape_of(alloc, &unmarking.written)?;
                return Ok((plain, unmarking.told));
            }
            Next::NoObject => unreachable!(),
        }
    }
}

/// What is still to be read, what is written, and the number of the marked atom once it was passed.
#[derive(Drop)]
struct Unmarking {
    dues: Dues,
    written: Vec<Token>,
    told: u64,
}

impl Model for Unmarking {
    ghost use Rattle.pointing.specs.Unmarking.{Unmarking};

    ghost Value = { Unmarking };

    ghost view = { λ u. record { dues = u.dues; written = u.written.items; told = u.told } };
}

impl Unmarking {
    /// One object of a node is to be read, with an atom marked.
    fn new(alloc: Global, body: ExprId) -> Result<Unmarking, AllocError>
        ensures dues { IfOk result (λ u. u.dues ≡ Marked body ∷ []) }
        ensures written { IfOk result (λ u. u.written ≡ []) }
    {
        let mut dues = Dues::new(alloc);
        dues.push(Due::Marked(body))?;
        Ok(Unmarking {
            dues,
            written: Vec::new(alloc),
            told: 0,
        })
    }

    /// Nothing more is read, where no object waits.
    fn finish(&mut self)
        ensures whole { (s : Spec) (whole : List model.Token) (atom : ℕ)
            → ReadsOn s whole atom self.old none
            → (self.new.written ≡ whole) × (self.new.told ≡ atom) }
    {
        let _none = self.next_due();
    }

    /// Takes what is due for the next object.
    fn next_due(&mut self) -> Option<Due>
        ensures same { SameReading self.old (with_dues (option_to_list result) self.new) }
        ensures some { IsSome result }
        ensures none { IfNone result (self.new.dues ≡ []) }
    {
        'dues: loop {
            match self.dues.pop() {
                Some(Due::Copied(0)) => {}
                due => return due,
            }
        }
    }

    /// Reads what a visit shows of the next object.
    fn visit(
        &mut self,
        system: &System,
        pointed: &System,
        atomic: &[bool],
        e: ExprId,
        visit: Visit,
    ) -> Result<(), AllocError>
        requires pointable { IsPointable system.now }
        requires atomic { atomic.now ≡ atomic_nodes system.now }
        requires in_range { e.0 < length pointed.now.nodes }
        ensures read { OnOk result (HasRead system.now pointed.now e.0 visit self.old self.new) }
    {
        if let Visit::Class(_) = visit {
            return Ok(());
        }
        match self.next_due() {
            Some(Due::Copied(objects)) => self.copy(pointed, objects, e, visit),
            Some(Due::Marked(node)) => self.unmark(system, pointed, atomic, node, e, visit),
            Some(Due::Tuple(node, place)) => {
                let Visit::Product = visit else {
                    return Err(AllocError);
                };
                self.unmark_part(system, pointed, node, place, e)
            }
            Some(Due::Split(part)) => self.read_first(part, visit),
            Some(Due::Last(place, before)) => self.read_last(place, before, visit),
            None => Ok(()),
        }
    }

    /// Reads what a visit shows of the first of some objects that stay as they are.
    fn copy(
        &mut self,
        pointed: &System,
        objects: usize,
        e: ExprId,
        visit: Visit,
    ) -> Result<(), AllocError>
        requires in_range { e.0 < length pointed.now.nodes }
        requires some { 0 < objects }
        ensures read { OnOk result ((s : Spec) → HasRead s pointed.now e.0 visit
            (with_dues (Copied objects ∷ []) self.old) self.new) }
    {
        write_token(&mut self.written, visit)?;
        self.dues.push_copied(objects - 1)?;
        self.dues.push_copied(parts_below(pointed, e, visit))?;
        Ok(())
    }

    /// Reads what a visit shows of an object of a node with an atom marked.
    fn unmark(
        &mut self,
        system: &System,
        pointed: &System,
        atomic: &[bool],
        node: ExprId,
        e: ExprId,
        visit: Visit,
    ) -> Result<(), AllocError>
        requires pointable { IsPointable system.now }
        requires atomic { atomic.now ≡ atomic_nodes system.now }
        requires in_range { e.0 < length pointed.now.nodes }
        ensures read { OnOk result (HasRead system.now pointed.now e.0 visit
            (with_dues (Marked node ∷ []) self.old) self.new) }
    {
        let now = resolve(system, atomic, node, &mut self.written)?;
        match visit {
            Visit::Atom => self.unmark_atom(system, now)?,
            Visit::Union(choice, _) => self.unmark_pick(system, atomic, now, choice)?,
            Visit::Product => self.unmark_tuple(system, pointed, atomic, now, e)?,
            _ => return Err(AllocError),
        }
        Ok(())
    }

    /// Reads a marked atom.
    fn unmark_atom(&mut self, system: &System, node: ExprId) -> Result<(), AllocError>
        ensures read { OnOk result ((p : Spec) (f : ℕ) → HasRead system.now p f Atom
            (with_dues (Marked node ∷ []) self.old) self.new) }
    {
        let Expr::Atom(_) = node_of(system, node)? else {
            return Err(AllocError);
        };
        self.told = dots_of(&self.written);
        self.written.push(Token::Dot)?;
        Ok(())
    }

    /// Reads the pick of a choice, at a union or a product where there are others.
    fn unmark_pick(
        &mut self,
        system: &System,
        atomic: &[bool],
        node: ExprId,
        choice: u32,
    ) -> Result<(), AllocError>
        requires pointable { IsPointable system.now }
        requires atomic { atomic.now ≡ atomic_nodes system.now }
        requires resolved { IsResolved system.now node.0 }
        ensures read { OnOk result ((p : Spec) (f : ℕ) (part : ExprId)
            → HasRead system.now p f (Union choice part)
            (with_dues (Marked node ∷ []) self.old) self.new) }
    {
        system.known();
        match node_of(system, node)? {
            Expr::Union(parts) => {
                let Some((place, part)) = marked_part(atomic, parts.items(), choice) else {
                    return Err(AllocError);
                };
                self.written.push(Token::Pick(place as u32))?;
                self.dues.push(Due::Marked(part))?;
                Ok(())
            }
            Expr::Product(parts) => {
                let Some((place, _)) = marked_part(atomic, parts.items(), choice) else {
                    return Err(AllocError);
                };
                self.dues.push(Due::Tuple(node, place))?;
                Ok(())
            }
            _ => Err(AllocError),
        }
    }

    /// Reads the tuple of a product with one choice, or of a sequence.
    fn unmark_tuple(
        &mut self,
        system: &System,
        pointed: &System,
        atomic: &[bool],
        node: ExprId,
        e: ExprId,
    ) -> Result<(), AllocError>
        requires pointable { IsPointable system.now }
        requires atomic { atomic.now ≡ atomic_nodes system.now }
        requires in_range { e.0 < length pointed.now.nodes }
        ensures read { OnOk result (HasRead system.now pointed.now e.0 Product
            (with_dues (Marked node ∷ []) self.old) self.new) }
    {
        match node_of(system, node)? {
            Expr::Product(parts) => {
                let Some((place, _)) = marked_part(atomic, parts.items(), 0) else {
                    return Err(AllocError);
                };
                self.unmark_part(system, pointed, node, place, e)?;
                Ok(())
            }
            Expr::Seq(part) => {
                self.dues.push(Due::Split(*part))?;
                Ok(())
            }
            _ => Err(AllocError),
        }
    }

    /// Reads the tuple of a product with an atom of its part at a place marked.
    fn unmark_part(
        &mut self,
        system: &System,
        pointed: &System,
        node: ExprId,
        place: usize,
        e: ExprId,
    ) -> Result<(), AllocError>
        requires in_range { e.0 < length pointed.now.nodes }
        ensures read { OnOk result (HasRead system.now pointed.now e.0 Product
            (with_dues (Tuple node place ∷ []) self.old) self.new) }
    {
        let Expr::Product(parts) = node_of(system, node)? else {
            return Err(AllocError);
        };
        let Some(part) = parts.items().get(place) else {
            return Err(AllocError);
        };
        let objects = parts_of(pointed, e) as usize;
        self.dues
            .push_copied(objects.saturating_sub(place).saturating_sub(1))?;
        self.dues.push(Due::Marked(*part))?;
        self.dues.push_copied(place)?;
        Ok(())
    }

    /// Reads the number of objects before the marked one of a sequence; a place is kept for that of
    /// all.
    fn read_first(&mut self, part: ExprId, visit: Visit) -> Result<(), AllocError>
        ensures read { OnOk result ((s p : Spec) (f : ℕ) → HasRead s p f visit
            (with_dues (Split part ∷ []) self.old) self.new) }
    {
        let Visit::Seq(before, _) = visit else {
            return Err(AllocError);
        };
        let place = self.written.len();
        self.written.push(Token::Count(0))?;
        self.dues.push(Due::Last(place, before))?;
        self.dues.push(Due::Marked(part))?;
        self.dues.push_copied(before as usize)?;
        Ok(())
    }

    /// Reads the number of objects after the marked one of a sequence, and writes that of all.
    fn read_last(&mut self, place: usize, before: u32, visit: Visit) -> Result<(), AllocError>
        ensures read { OnOk result ((s p : Spec) (f : ℕ) → HasRead s p f visit
            (with_dues (Last place before ∷ []) self.old) self.new) }
    {
        let Visit::Seq(later, _) = visit else {
            return Err(AllocError);
        };
        let Some(others) = before.checked_add(later) else {
            return Err(AllocError);
        };
        let Some(all) = others.checked_add(1) else {
            return Err(AllocError);
        };
        if place >= self.written.len() {
            return Err(AllocError);
        }
        put_token(&mut self.written, place, Token::Count(all));
        self.dues.push_copied(later as usize)?;
        Ok(())
    }
}

/// Puts a token in the place of another.
fn put_token(written: &mut Vec<Token>, place: usize, token: Token)
    requires there { place < length written.now.items }
    ensures put { (front tail : List model.Token) (kept : model.Token)
        → written.old.items ≡ front ++ kept ∷ tail → length front ≡ place
        → written.new.items ≡ front ++ token ∷ tail }
{
    written[place] = token;
}

/// Writes the token that a visit shows, if there is one.
fn write_token(written: &mut Vec<Token>, visit: Visit) -> Result<(), AllocError>
    ensures written { OnOk result (written.new.items ≡ written.old.items ++ token_at visit) }
{
    if let Some(token) = token_of(visit) {
        written.push(token)?;
    }
    Ok(())
}

/// How many tokens are dots.
fn dots_of(tokens: &[Token]) -> u64
    ensures exact { result ≡ size_of tokens.now }
{
    let mut dots: u64 = 0;
    for token in tokens {
        dots += token.atoms();
    }
    dots
}

/// The shape with the tokens.
fn shape_of(alloc: Global, tokens: &[Token]) -> Result<Shape, AllocError>
    ensures items { IfOk result (λ shape. shape.items ≡ tokens.now) }
{
    let mut shape = Shape::new(alloc);
    for token in tokens {
        shape.push(*token)?;
    }
    Ok(shape)
}

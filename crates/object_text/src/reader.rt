//! The reader of an object: node after node, with a stack of what is expected behind each object.
ghost use Rattle.std.specs.Prelude.{◌≡◌, ◌≤◌, ◌<◌, ◌+◌, ◌^◌, ◌∷◌, [], length, codes, Some, None};
ghost use Rattle.std.specs.Prelude.{IfOk, IfErr, IfSome, IfNone, OnOk};
ghost use Rattle.bz_model.specs.ObjectText.{leaf_text};
ghost use Rattle.object_text.specs.Scanning.{DiffersFrom, Faults, StopsAt};
ghost use Rattle.object_text.specs.Taken.{nothing};
ghost use Rattle.object_text.specs.Expected.{opener, closer, Comes, Moves, AllCanCome, IsNodeIf};
ghost use Rattle.object_text.specs.Expected.{HasObjects, NoClass, ResolvesTo, IsOver};
ghost use Rattle.object_text.specs.Pieces.{IsNeutral, IsAtom, IsNoAtom, IsOption, IsNoOption};
ghost use Rattle.object_text.specs.Pieces.{IsProduct, IsNoByte, IsList, IsFurther, IsNoFurther};
ghost use Rattle.object_text.specs.States.{state};

use crate::parse_stack::{Counted, Expected, Stack, is_within, may_grow};
use crate::parsed::{Kind, Partial};
use crate::scan::{
    Stop, begins_with, behind_first, leaf_word, read_byte, read_label, read_number, read_word,
};
use class_system::draft::Mode;
use class_system::expr::Expr;
use class_system::ids::ExprId;
use class_system::ranges::Range;
use class_system::system::System;
use object_store::token::Token;
use std::alloc::Global;

/// What was read so far, and what is expected behind the object that is read.
#[derive(Drop)]
pub(crate) struct Reader {
    pub taken: Partial,
    pub stack: Stack,
}

impl Reader {
    /// Nothing was read, and nothing is expected.
    pub(crate) fn new(alloc: Global) -> Reader
        ensures taken { result.taken ≡ nothing }
        ensures stack { result.stack ≡ [] }
    {
        Reader {
            taken: Partial::new(alloc),
            stack: Stack::new(alloc),
        }
    }

    /// Reads the whole text as that of an object of a node.
    pub(crate) fn read_all(
        &mut self,
        system: &System,
        root: ExprId,
        text: &[u8],
    ) -> Result<(), Stop>
        requires objects { HasObjects system.now }
        requires in_range { root.0 < length system.now.nodes }
        requires small { length text.now < 2 ^ 32 }
        requires nothing { self.old.stack ≡ [] }
        ensures ok { OnOk result
            (Comes system.now (Some root) [] self.old.taken self.new.taken text.now) }
        ensures stop { IfErr result
            (StopsAt (Faults (Comes system.now (Some root) [] self.old.taken) text.now)) }
    {
        let mut rest = text;
        let mut next = Some(root);
        while let Some((node, after)) = self.read_some(system, next, rest)? {
            next = node;
            rest = after;
        }
        Ok(())
    }

    /// Reads up to the next node of which an object comes, or up to the end of an object. None
    /// where nothing is expected and the text ends.
    fn read_some<'a>(
        &mut self,
        system: &System,
        next: Option<ExprId>,
        text: &'a [u8],
    ) -> Result<Option<(Option<ExprId>, &'a [u8])>, Stop>
        requires objects { HasObjects system.now }
        requires next_below { IsNodeIf system.now next }
        requires can_come { AllCanCome system.now (length text.now) self.old.stack }
        requires small { length text.now < 2 ^ 32 }
        ensures more { IfOk result
            (λ read. IfSome read
            (λ x. Moves system.now (Comes system.now next self.old.stack self.old.taken) text.now
            x.0 self.new.stack self.new.taken x.1.now)) }
        ensures over { IfOk result
            (λ read. IfNone read (IsOver next self.old.stack text.now self.new.stack self.old.taken
            self.new.taken)) }
        ensures stop { IfErr result
            (StopsAt (Faults (Comes system.now next self.old.stack self.old.taken) text.now)) }
    {
        if let Some(e) = next {
            return Ok(Some(self.begin(system, resolved(system, e), text)?));
        }
        match self.stack.pop() {
            Some(expected) => Ok(Some(self.go_on(system, expected, text)?)),
            None if text.is_empty() => Ok(None),
            None => Err(Stop::At(text.len())),
        }
    }

    /// Reads the beginning of an object of a node that is no class.
    fn begin<'a>(
        &mut self,
        system: &System,
        e: ExprId,
        text: &'a [u8],
    ) -> Result<(Option<ExprId>, &'a [u8]), Stop>
        requires in_range { e.0 < length system.now.nodes }
        requires no_class { NoClass system.now e.0 }
        requires objects { HasObjects system.now }
        requires can_come { AllCanCome system.now (length text.now) self.old.stack }
        requires small { length text.now < 2 ^ 32 }
        ensures ok { IfOk result
            (λ x. Moves system.now (Comes system.now (Some e) self.old.stack self.old.taken)
            text.now x.0 self.new.stack self.new.taken x.1.now) }
        ensures stop { IfErr result
            (StopsAt (Faults (Comes system.now (Some e) self.old.stack self.old.taken) text.now)) }
    {
        system.known();
        match system.node(e) {
            Expr::Empty(word) => self.neutral(word.bytes(), text),
            Expr::Atom(word) => self.atom(system.mode(), word.bytes(), text),
            Expr::Union(parts) => self.option(parts.items(), text),
            Expr::Product(parts) => self.product(parts.items(), text),
            Expr::Seq(part) => self.list(Kind::Sequence, *part, system.range(e), text),
            Expr::Set(part) => self.list(Kind::Set, *part, system.range(e), text),
            Expr::Cyc(part) => self.list(Kind::Cycle, *part, system.range(e), text),
            Expr::Class(_) => unreachable!(),
        }
    }

    /// Reads a neutral object.
    fn neutral<'a>(
        &mut self,
        word: &[u8],
        text: &'a [u8],
    ) -> Result<(Option<ExprId>, &'a [u8]), Stop>
        ensures ok { IfOk result (λ x.
            IsNeutral word.now text.now (state self.old) x.0 (state self.new)
            x.1.now) }
        ensures stop { IfErr result
            (StopsAt (DiffersFrom (leaf_text (codes "E") word.now) text.now)) }
    {
        let rest = read_word(leaf_word(b"E", word), text)?;
        self.taken.push_token(Token::Unit)?;
        Ok((None, rest))
    }

    /// Reads an atom, and its label in labelled mode.
    fn atom<'a>(
        &mut self,
        mode: Mode,
        word: &[u8],
        text: &'a [u8],
    ) -> Result<(Option<ExprId>, &'a [u8]), Stop>
        ensures ok { IfOk result (λ x.
            IsAtom mode word.now text.now (state self.old) x.0 (state self.new)
            x.1.now) }
        ensures stop { IfErr result (StopsAt (IsNoAtom mode word.now text.now)) }
    {
        let behind = read_word(leaf_word(b"Z", word), text)?;
        self.taken.push_token(Token::Dot)?;
        match mode {
            Mode::Unlabelled => Ok((None, behind)),
            Mode::Labelled => {
                let (label, rest) = read_label(behind)?;
                self.taken.push_label(label)?;
                Ok((None, rest))
            }
        }
    }

    /// Reads the option of a union, and its full stop.
    fn option<'a>(
        &mut self,
        parts: &[ExprId],
        text: &'a [u8],
    ) -> Result<(Option<ExprId>, &'a [u8]), Stop>
        requires some { 1 ≤ length parts.now }
        requires few { length parts.now ≤ 64 }
        ensures ok { IfOk result (λ x.
            IsOption parts.now text.now (state self.old) x.0 (state self.new)
            x.1.now) }
        ensures stop { IfErr result (StopsAt (IsNoOption parts.now text.now)) }
    {
        let (option, dot) = read_number(0, parts.len() as u64 - 1, text)?;
        let rest = read_byte(b'.', dot)?;
        self.taken.push_token(Token::Pick(option as u32))?;
        Ok((Some(parts[option as usize]), rest))
    }

    /// Reads the beginning of a product.
    fn product<'a>(
        &mut self,
        parts: &[ExprId],
        text: &'a [u8],
    ) -> Result<(Option<ExprId>, &'a [u8]), Stop>
        requires some { 1 ≤ length parts.now }
        ensures ok { IfOk result (λ x.
            IsProduct parts.now text.now (state self.old) x.0 (state self.new)
            x.1.now) }
        ensures stop { IfErr result (StopsAt (IsNoByte 40 text.now)) }
    {
        let rest = read_byte(b'(', text)?;
        self.stack.push(Expected::Close)?;
        self.stack.push_parts(&parts[1..])?;
        Ok((Some(parts[0]), rest))
    }

    /// Reads the beginning of a list, and its end where it has no part.
    fn list<'a>(
        &mut self,
        kind: Kind,
        part: ExprId,
        range: Range,
        text: &'a [u8],
    ) -> Result<(Option<ExprId>, &'a [u8]), Stop>
        ensures ok { IfOk result (λ x. IsList kind part range text.now (state self.old) x.0
            (state self.new) x.1.now) }
        ensures stop { IfErr result (StopsAt (IsNoByte (opener kind) text.now)) }
    {
        let rest = read_byte(opener(kind), text)?;
        self.taken.open(kind)?;
        if is_within(0, range) && begins_with(closer(kind), rest) {
            self.taken.close(0);
            return Ok((None, behind_first(rest)));
        }
        let parts = 0;
        let counted = Counted {
            kind,
            part,
            range,
            parts,
        };
        self.stack.push(Expected::Further(counted))?;
        Ok((Some(part), rest))
    }

    /// Reads what is expected behind an object.
    fn go_on<'a>(
        &mut self,
        system: &System,
        expected: Expected,
        text: &'a [u8],
    ) -> Result<(Option<ExprId>, &'a [u8]), Stop>
        requires objects { HasObjects system.now }
        requires can_come { AllCanCome system.now (length text.now) (expected ∷ self.old.stack) }
        requires small { length text.now < 2 ^ 32 }
        ensures ok { IfOk result
            (λ x. Moves system.now (Comes system.now None (expected ∷ self.old.stack)
            self.old.taken) text.now x.0 self.new.stack self.new.taken x.1.now) }
        ensures stop { IfErr result
            (StopsAt (Faults (Comes system.now None (expected ∷ self.old.stack) self.old.taken)
            text.now)) }
    {
        system.known();
        match expected {
            Expected::Close => Ok((None, read_byte(b')', text)?)),
            Expected::Part(e) => Ok((Some(e), read_byte(b' ', text)?)),
            Expected::Further(counted) => self.further(counted, text),
        }
    }

    /// Reads what stands behind a part of a list: a space before another part, or the list's end.
    fn further<'a>(
        &mut self,
        counted: Counted,
        text: &'a [u8],
    ) -> Result<(Option<ExprId>, &'a [u8]), Stop>
        requires few { counted.parts + 1 < 2 ^ 32 }
        ensures ok { IfOk result (λ x.
            IsFurther counted text.now (state self.old) x.0 (state self.new)
            x.1.now) }
        ensures stop { IfErr result (StopsAt (IsNoFurther counted text.now)) }
    {
        let Counted {
            kind,
            part,
            range,
            parts,
        } = counted;
        let parts = parts + 1;
        self.taken.end_part();
        if is_within(parts, range) && begins_with(closer(kind), text) {
            self.taken.close(parts);
            return Ok((None, behind_first(text)));
        }
        if may_grow(parts, range) && begins_with(b' ', text) {
            let counted = Counted {
                kind,
                part,
                range,
                parts,
            };
            self.stack.push(Expected::Further(counted))?;
            return Ok((Some(part), behind_first(text)));
        }
        Err(Stop::At(text.len()))
    }
}

/// The first node on the way through bodies of classes that is no class.
fn resolved(system: &System, e: ExprId) -> ExprId
    requires in_range { e.0 < length system.now.nodes }
    requires objects { HasObjects system.now }
    ensures resolved { ResolvesTo system.now e.0 result.0 }
{
    system.known();
    let mut e = e;
    let mut left = system.node_count();
    while let Expr::Class(c) = system.node(e) {
        e = system.body(*c);
        left -= 1;
    }
    e
}

/// The byte before the parts of a list.
fn opener(kind: Kind) -> u8
    ensures { result ≡ opener kind }
{
    match kind {
        Kind::Sequence => b'[',
        Kind::Set => b'{',
        Kind::Cycle => b'<',
    }
}

/// The byte behind the parts of a list.
fn closer(kind: Kind) -> u8
    ensures { result ≡ closer kind }
{
    match kind {
        Kind::Sequence => b']',
        Kind::Set => b'}',
        Kind::Cycle => b'>',
    }
}

//! The reader of tokens: one token after another, with a stack of its own.
ghost use Rattle.std.specs.Prelude.{◌≡◌, ◌^◌, ◌<◌, ◌≤◌, ◌+◌, ◌*◌, ℕ, List, length, OnOk, IfOk};
ghost use Rattle.class_system.specs.Views.{spec_range};
ghost use Rattle.spec_reader.specs.Grammar.{without_bound, least_count};
ghost use Rattle.spec_reader.specs.Machine.{LinesBefore, Place, ReaderState, Lines, Named, Want};
ghost use Rattle.spec_reader.specs.Machine.{Counts};
ghost use Rattle.spec_reader.specs.Machine.{Signed, Bounded, Have, range_by, step};
ghost use Rattle.spec_reader.specs.Tables.{class_number};
ghost use Rattle.spec_reader.specs.Building.{kept_in_sums, Stands, RestsOn, Represents};
ghost use Rattle.spec_reader.specs.Building.{LeadsOrFails, MachineStopsAt};

use crate::sums::{Expects, Sums, Wrap};
use crate::tokens::{Counting, Placed, Sign, Token};
use bz_outside::word::Word;
use class_system::expr::Expr;
use class_system::ids::ClassId;
use class_system::ranges::Range;
use std::alloc::{AllocError, Global};

/// What was read so far, and what may come next.
#[derive(Drop)]
pub struct Reader {
    pub sums: Sums,
    pub expects: Expects,
}

/// The least number of parts without a bound from below.
fn least_count(counting: Counting) -> u32
    ensures exact { result ≡ least_count counting }
{
    match counting {
        Counting::Seq | Counting::Set => 0,
        Counting::Cyc => 1,
    }
}

/// The range without a bound.
fn plain_range(counting: Counting) -> Range
    ensures exact { spec_range result ≡ without_bound counting }
{
    Range {
        low: least_count(counting),
        high: None,
    }
}

/// The range that a sign and a number give.
fn bounded_range(counting: Counting, sign: Sign, number: u32) -> Range
    ensures exact { spec_range result ≡ range_by counting sign number }
{
    match sign {
        Sign::Least => Range {
            low: number,
            high: None,
        },
        Sign::Most => Range {
            low: least_count(counting),
            high: Some(number),
        },
        Sign::Exact => Range {
            low: number,
            high: Some(number),
        },
    }
}

impl Reader {
    /// The number of the class of this name; where no class has it, the number of classes.
    fn class_number(&self, name: &Word) -> ClassId
        requires few { length self.now.sums.draft.names < 2 ^ 32 }
        ensures exact { result.0 ≡ class_number self.now.sums.draft.names name.now }
    {
        self.sums.draft.known();
        match self.sums.draft.class_of(name) {
            Some(class) => class,
            None => ClassId(self.sums.draft.names().len() as u32),
        }
    }

    /// A definition or the end of the text is expected.
    fn line(&mut self, token: &Token) -> bool
        requires { self.old.expects ≡ Expects.Line }
        ensures read { (names : List (List ℕ)) (b : LinesBefore) → RestsOn names b
            (kept_in_sums self.old.sums)
            → LeadsOrFails names (step (Lines b) token.now) result self.new.expects
            (kept_in_sums self.new.sums) }
        ensures few { self.new.sums.draft ≡ self.old.sums.draft }
    {
        match token {
            Token::Name(_) => self.expects = Expects::Equals,
            Token::TextEnd if !self.sums.draft.bodies().is_empty() => self.expects =
                Expects::Nothing,
            _ => return false,
        }
        true
    }

    /// An equals sign is expected.
    fn equals(&mut self, token: &Token) -> bool
        ensures read { (names : List (List ℕ)) (b : LinesBefore) (w : List ℕ)
            → RestsOn names b (kept_in_sums self.old.sums)
            → LeadsOrFails names (step (Named b w) token.now) result self.new.expects
            (kept_in_sums self.new.sums) }
        ensures few { self.new.sums.draft ≡ self.old.sums.draft }
    {
        match token {
            Token::Exactly => self.expects = Expects::Factor,
            _ => return false,
        }
        true
    }

    /// A factor is expected.
    fn factor(&mut self, alloc: Global, token: &Token) -> Result<bool, AllocError>
        requires few_nodes { length self.old.sums.draft.nodes < 2 ^ 32 }
        requires few_names { length self.old.sums.draft.names < 2 ^ 32 }
        ensures read { IfOk result (λ stands. (names : List (List ℕ)) (p : Place)
            → Stands names p (kept_in_sums self.old.sums)
            → LeadsOrFails names (step (Want p) token.now) stands self.new.expects
            (kept_in_sums self.new.sums)) }
        ensures few { OnOk result
            (length self.new.sums.draft.nodes ≤ length self.old.sums.draft.nodes + 1) }
        ensures names { OnOk result (self.new.sums.draft.names ≡ self.old.sums.draft.names) }
    {
        match token {
            Token::Empty(word) => {
                let word = Word::from_bytes(alloc, word.bytes())?;
                self.sums.leaf(Expr::Empty(word))?;
                self.expects = Expects::Joint;
            }
            Token::Atom(word) => {
                let word = Word::from_bytes(alloc, word.bytes())?;
                self.sums.leaf(Expr::Atom(word))?;
                self.expects = Expects::Joint;
            }
            Token::Name(name) => {
                let class = self.class_number(name);
                self.sums.leaf(Expr::Class(class))?;
                self.expects = Expects::Joint;
            }
            Token::Open => {
                self.sums.open(alloc, Wrap::Bare)?;
                self.expects = Expects::Factor;
            }
            Token::Counted(counting) => self.expects = Expects::Count(*counting),
            _ => return Ok(false),
        }
        Ok(true)
    }

    /// A bound or a parenthesis is expected.
    fn count(
        &mut self,
        alloc: Global,
        counting: Counting,
        token: &Token,
    ) -> Result<bool, AllocError>
        ensures read { IfOk result (λ stands. (names : List (List ℕ)) (p : Place)
            → Stands names p (kept_in_sums self.old.sums)
            → LeadsOrFails names (step (Counts p counting) token.now) stands
            self.new.expects (kept_in_sums self.new.sums)) }
        ensures few { self.new.sums.draft ≡ self.old.sums.draft }
    {
        match token {
            Token::Open => {
                self.sums
                    .open(alloc, Wrap::Over(counting, plain_range(counting)))?;
                self.expects = Expects::Factor;
            }
            Token::AtLeast => self.expects = Expects::Number(counting, Sign::Least),
            Token::AtMost => self.expects = Expects::Number(counting, Sign::Most),
            Token::Exactly => self.expects = Expects::Number(counting, Sign::Exact),
            _ => return Ok(false),
        }
        Ok(true)
    }

    /// A bound's number is expected.
    fn number(&mut self, counting: Counting, sign: Sign, token: &Token) -> bool
        ensures read { (names : List (List ℕ)) (p : Place) → Stands names p
            (kept_in_sums self.old.sums)
            → LeadsOrFails names (step (Signed p counting sign) token.now) result self.new.expects
            (kept_in_sums self.new.sums) }
        ensures few { self.new.sums.draft ≡ self.old.sums.draft }
    {
        match token {
            Token::Number(number) => {
                self.expects = Expects::Open(counting, bounded_range(counting, sign, *number));
            }
            _ => return false,
        }
        true
    }

    /// The parenthesis behind a bound is expected.
    fn parenthesis(
        &mut self,
        alloc: Global,
        counting: Counting,
        range: Range,
        token: &Token,
    ) -> Result<bool, AllocError>
        ensures read { IfOk result (λ stands. (names : List (List ℕ)) (p : Place)
            → Stands names p (kept_in_sums self.old.sums)
            → LeadsOrFails names (step (Bounded p counting (spec_range range)) token.now) stands
            self.new.expects (kept_in_sums self.new.sums)) }
        ensures few { self.new.sums.draft ≡ self.old.sums.draft }
    {
        match token {
            Token::Open => {
                self.sums.open(alloc, Wrap::Over(counting, range))?;
                self.expects = Expects::Factor;
                Ok(true)
            }
            _ => Ok(false),
        }
    }

    /// What stands behind a factor is expected.
    fn joint(&mut self, alloc: Global, token: &Token) -> Result<bool, AllocError>
        requires expects { self.old.expects ≡ Expects.Joint }
        requires few { length self.old.sums.draft.nodes + 2 < 2 ^ 32 }
        ensures read { IfOk result (λ stands. (names : List (List ℕ)) (p : Place)
            → Stands names p (kept_in_sums self.old.sums)
            → LeadsOrFails names (step (Have p) token.now) stands self.new.expects
            (kept_in_sums self.new.sums)) }
        ensures few { OnOk result
            (length self.new.sums.draft.nodes ≤ length self.old.sums.draft.nodes + 3) }
        ensures names { OnOk result (self.new.sums.draft.names ≡ self.old.sums.draft.names) }
    {
        match token {
            Token::Star => self.expects = Expects::Factor,
            Token::Plus => {
                self.sums.next_product(alloc)?;
                self.expects = Expects::Factor;
            }
            Token::Close => return self.sums.close(alloc),
            Token::LineEnd => {
                self.expects = Expects::Line;
                return self.sums.end_line(alloc);
            }
            _ => return Ok(false),
        }
        Ok(true)
    }

    /// Takes a token; false where it can't stand here.
    pub fn take(&mut self, alloc: Global, token: &Token) -> Result<bool, AllocError>
        requires few_nodes { length self.old.sums.draft.nodes + 2 < 2 ^ 32 }
        requires few_names { length self.old.sums.draft.names < 2 ^ 32 }
        ensures read { IfOk result (λ stands. (names : List (List ℕ)) (s : ReaderState)
            → Represents names s self.old.expects (kept_in_sums self.old.sums)
            → LeadsOrFails names (step s token.now) stands self.new.expects
            (kept_in_sums self.new.sums)) }
        ensures few { OnOk result
            (length self.new.sums.draft.nodes ≤ length self.old.sums.draft.nodes + 3) }
        ensures names { OnOk result (self.new.sums.draft.names ≡ self.old.sums.draft.names) }
    {
        match self.expects {
            Expects::Line => Ok(self.line(token)),
            Expects::Equals => Ok(self.equals(token)),
            Expects::Factor => self.factor(alloc, token),
            Expects::Count(counting) => self.count(alloc, counting, token),
            Expects::Number(counting, sign) => Ok(self.number(counting, sign, token)),
            Expects::Open(counting, range) => self.parenthesis(alloc, counting, range, token),
            Expects::Joint => self.joint(alloc, token),
            Expects::Nothing => Ok(false),
        }
    }

    /// Takes tokens one after another, up to the first that can't stand, whose place is answered.
    pub fn take_all(
        &mut self,
        alloc: Global,
        tokens: &[Placed],
    ) -> Result<Option<usize>, AllocError>
        requires few_nodes { length self.old.sums.draft.nodes + 3 * length tokens.now < 2 ^ 32 }
        requires few_names { length self.old.sums.draft.names < 2 ^ 32 }
        ensures read { IfOk result (λ stop. (names : List (List ℕ)) (s : ReaderState)
            → Represents names s self.old.expects (kept_in_sums self.old.sums)
            → MachineStopsAt names s tokens.now stop self.new.expects
            (kept_in_sums self.new.sums)) }
    {
        for (i, placed) in tokens.iter().enumerate() {
            if !self.take(alloc, &placed.token)? {
                return Ok(Some(i));
            }
        }
        Ok(None)
    }
}

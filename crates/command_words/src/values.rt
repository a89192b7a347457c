//! The values that a command is given.
ghost use Rattle.std.specs.Prelude.{◌≡◌, ◌≢◌, ◌↔◌, ℕ, IsTrue, IsNone, IfSome, IfOk, IfErr};
ghost use Rattle.std.specs.Option.{option_copied, option_to_list};
ghost use Rattle.command_words.specs.declared.fault.ValueName.TheVariants as value;
ghost use Rattle.command_words.specs.declared.fault.WordsFault.TheVariants.{BadValue};
ghost use Rattle.command_words.specs.Values.{IsWithinValueLimits, StandsFor, IsRefused, IsSet};
ghost use Rattle.command_words.specs.Reading.{IsX, AreValues, IsBadOne};
ghost use Rattle.command_words.specs.Views.{given_of, texts_in};

use crate::command::FractionBits;
use crate::fault::{ValueName, WordsFault};
use crate::form::Form;
use crate::names::{CommandName, OptionName};
use crate::rank::read_rank;
use bz_model::fraction::Fraction;
use bz_model::number::read_number;
use size_window::limits::Limits;

/// The values that a command is given, or their defaults. The x is None where the command has none;
/// a seed, an n and a rank that aren't given are 0.
#[derive(Clone, Copy, Debug, PartialEq, Eq)]
pub struct Values {
    pub x: Option<Fraction>,
    pub seed: u64,
    pub limits: Limits,
    pub fraction: FractionBits,
    pub n: u64,
    pub rank: u128,
}

impl Form<'_> {
    /// The values of the command. `BadValue` comes exactly where one isn't accepted, and names the
    /// first; or where the least size is above the greatest. Takes no memory.
    pub fn values(&self) -> Result<Values, WordsFault>
        ensures ok { IfOk result (AreValues self.now.name (given_of self.now.given)) }
        ensures err { IfErr result (IsBadOne self.now.name (given_of self.now.given)) }
    {
        let x = self.x()?;
        let seed = self.number(ValueName::Seed, 0)?;
        let min = self.number(ValueName::Min, 0)?;
        let max = self.number(ValueName::Max, 1000)?;
        let count = self.number(ValueName::Count, 1)?;
        let turns = self.number(ValueName::Turns, 1_000_000)?;
        let fraction = self.number(ValueName::Fraction, 48)?;
        let n = self.number(ValueName::N, 0)?;
        let rank = self.rank()?;
        if max < min {
            return Err(WordsFault::BadValue {
                name: ValueName::Min,
            });
        }
        Ok(Values {
            x,
            seed,
            limits: Limits {
                min,
                max,
                count,
                turns,
            },
            fraction: FractionBits::of(fraction),
            n,
            rank,
        })
    }

    /// The x of the command.
    fn x(&self) -> Result<Option<Fraction>, WordsFault>
        ensures ok { IfOk result (IsX (texts_in self.now value.X)) }
        ensures cause { IfErr result (λ fault. fault ≡ BadValue value.X) }
        ensures refused { IfErr result (λ fault.
            IsRefused self.now.name value.X (texts_in self.now value.X)) }
    {
        let Some(text) = self.text(ValueName::X) else {
            return Ok(None);
        };
        match Fraction::read(text) {
            Ok(x) => Ok(Some(x)),
            Err(_) => Err(WordsFault::BadValue { name: ValueName::X }),
        }
    }

    /// The number of the command's value, which is no rank, or its default where it isn't given.
    fn number(&self, name: ValueName, default: u64) -> Result<u64, WordsFault>
        requires number { name ≢ value.X }
        requires no_rank { name ≢ value.Rank }
        ensures ok { IfOk result (IsSet self.now.name name default (texts_in self.now name)) }
        ensures cause { IfErr result (λ fault. fault ≡ BadValue name) }
        ensures refused { IfErr result (λ fault.
            IsRefused self.now.name name (texts_in self.now name)) }
    {
        let Some(text) = self.text(name) else {
            return Ok(default);
        };
        match number_of(self.name, name, text) {
            Some(number) => Ok(number),
            None => Err(WordsFault::BadValue { name }),
        }
    }

    /// The rank of the command, or 0 where it has none.
    fn rank(&self) -> Result<u128, WordsFault>
        ensures ok { IfOk result (IsSet self.now.name value.Rank 0 (texts_in self.now value.Rank)) }
        ensures cause { IfErr result (λ fault. fault ≡ BadValue value.Rank) }
        ensures refused { IfErr result (λ fault.
            IsRefused self.now.name value.Rank (texts_in self.now value.Rank)) }
    {
        let Some(text) = self.text(ValueName::Rank) else {
            return Ok(0);
        };
        match read_rank(text) {
            Some(rank) => Ok(rank),
            None => Err(WordsFault::BadValue {
                name: ValueName::Rank,
            }),
        }
    }

    /// The text that stands for a value of the command.
    fn text(&self, name: ValueName) -> Option<&[u8]>
        ensures { option_to_list (option_copied result) ≡ texts_in self.now name }
    {
        match name {
            ValueName::X => self.x_text(),
            ValueName::Seed => self.given.value(OptionName::Seed),
            ValueName::Min => self.given.value(OptionName::Min),
            ValueName::Max => self.given.value(OptionName::Max),
            ValueName::Count => self.given.value(OptionName::Count),
            ValueName::Turns => self.given.value(OptionName::Turns),
            ValueName::Fraction => self.given.value(OptionName::Fraction),
            ValueName::N => self.n_text(),
            ValueName::Rank => self.rank_text(),
        }
    }

    /// The text of the x: the second positional word, where the command has an x.
    fn x_text(&self) -> Option<&[u8]>
        ensures { option_to_list (option_copied result) ≡ texts_in self.now value.X }
    {
        match self.name {
            CommandName::Oracle | CommandName::Sample | CommandName::Pool | CommandName::Chance =>
                match self.given.places() {
                    [_, x, ..] => Some(x.bytes()),
                    _ => None,
                },
            _ => None,
        }
    }

    /// The text of the n, where the command has one: the first positional word of `bulk`, the
    /// second of `count` and `unrank`.
    fn n_text(&self) -> Option<&[u8]>
        ensures { option_to_list (option_copied result) ≡ texts_in self.now value.N }
    {
        match self.name {
            CommandName::Bulk => match self.given.places() {
                [n, ..] => Some(n.bytes()),
                _ => None,
            },
            CommandName::Count | CommandName::Unrank => match self.given.places() {
                [_, n, ..] => Some(n.bytes()),
                _ => None,
            },
            _ => None,
        }
    }

    /// The text of the rank: the third positional word, where the command has a rank.
    fn rank_text(&self) -> Option<&[u8]>
        ensures { option_to_list (option_copied result) ≡ texts_in self.now value.Rank }
    {
        match self.name {
            CommandName::Unrank => match self.given.places() {
                [_, _, rank, ..] => Some(rank.bytes()),
                _ => None,
            },
            _ => None,
        }
    }
}

/// The number that a text stands for as a value of a command that is a number and no rank.
fn number_of(command: CommandName, name: ValueName, text: &[u8]) -> Option<u64>
    requires no_rank { name ≢ value.Rank }
    ensures number { IfSome result (StandsFor command name text.now) }
    ensures none { IsNone result → (n : ℕ) → ¬ (StandsFor command name text.now n) }
{
    let number = read_number(text, u64::MAX)?;
    if is_within_limits(command, name, number) {
        Some(number)
    } else {
        None
    }
}

/// Whether a number is within the limits of a command's value.
fn is_within_limits(command: CommandName, name: ValueName, number: u64) -> bool
    ensures { IsTrue result ↔ IsWithinValueLimits command name number }
{
    match name {
        ValueName::X => false,
        ValueName::Seed | ValueName::Rank => true,
        ValueName::Min | ValueName::Max => number <= 1_000_000,
        ValueName::Count => 1 <= number && number <= 100_000,
        ValueName::Turns => 1 <= number && number <= 50_000_000,
        ValueName::Fraction => number == 40 || number == 48 || number == 52,
        ValueName::N => match command {
            CommandName::Bulk => 1 <= number && number <= 1000,
            _ => number <= 500,
        },
    }
}

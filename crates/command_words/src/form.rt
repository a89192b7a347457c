//! The form of a command's words.
ghost use Rattle.std.specs.Prelude.{◌≡◌, ◌↔◌, All, IsTrue, IfOk, IfErr};
ghost use Rattle.command_words.specs.Words.{IsPrintable, IsNoCommand};
ghost use Rattle.command_words.specs.Reading.{GivesForm, IsComplete, IfNoCommand};
ghost use Rattle.command_words.specs.Views.{given_of};

use crate::arguments::read_arguments;
use crate::fault::WordsFault;
use crate::given::Given;
use crate::names::{CommandName, OptionName};
use bz_outside::word::Word;
use std::alloc::Global;

/// The command that words name, and what its arguments give.
#[derive(Drop)]
pub struct Form<'a> {
    pub name: CommandName,
    pub given: Given<'a>,
}

/// The form of words. `NotACommand` comes exactly where they haven't that of a command.
pub fn read_form<'a>(alloc: Global, words: &'a [Word]) -> Result<Form<'a>, WordsFault>
    ensures ok { IfOk result (λ form. GivesForm words.now form.name (given_of form.given)) }
    ensures err { IfErr result (λ fault. IfNoCommand fault (IsNoCommand words.now)) }
{
    if !are_printable(words) {
        return Err(WordsFault::NotACommand);
    }
    let Some((first, others)) = words.split_first() else {
        return Err(WordsFault::NotACommand);
    };
    let Some(name) = CommandName::read(first.bytes()) else {
        return Err(WordsFault::NotACommand);
    };
    let given = read_arguments(alloc, name, others)?;
    if !is_complete(name, &given) {
        return Err(WordsFault::NotACommand);
    }
    Ok(Form { name, given })
}

/// Whether a command has neither too few nor too many positional words, and a `sample` either a
/// tape or a seed.
fn is_complete(name: CommandName, given: &Given<'_>) -> bool
    ensures { IsTrue result ↔ IsComplete name (given_of given.now) }
{
    let places = given.places().len();
    if places < name.fewest_places() {
        return false;
    }
    if name.most_places() < places {
        return false;
    }
    if !matches!(name, CommandName::Sample) {
        return true;
    }
    let has_tape = given.value(OptionName::Tape).is_some();
    let has_seed = given.value(OptionName::Seed).is_some();
    has_tape != has_seed
}

/// Whether each byte of each word is from 20 to 7E, hexadecimal.
fn are_printable(words: &[Word]) -> bool
    ensures { IsTrue result ↔ All IsPrintable words.now }
{
    for word in words {
        if !is_printable(word.bytes()) {
            return false;
        }
    }
    true
}

/// Whether each byte of a word is from 20 to 7E, hexadecimal.
fn is_printable(word: &[u8]) -> bool
    ensures { IsTrue result ↔ IsPrintable word.now }
{
    word.iter().all(|byte| 0x20 <= *byte && *byte <= 0x7e)
}

//! Arguments read from the words behind a command's name.
ghost use Rattle.std.specs.Prelude.{◌≡◌, ◌<◌, ◌↔◌, ◌∷◌, length, IsTrue, OnOk, IfOk, IfErr};
ghost use Rattle.command_words.specs.Words.{Argument, IsPlainWord, option_word, fast_word};
ghost use Rattle.command_words.specs.Words.{most_values};
ghost use Rattle.command_words.specs.Words.{most_fast};
ghost use Rattle.command_words.specs.Reading.{Adds, ReadsArgument, BeginsWithNone, GivesArguments};
ghost use Rattle.command_words.specs.Reading.{AreNoArguments, IfNoCommand};
ghost use Rattle.command_words.specs.Views.{given_of};

use crate::fault::WordsFault;
use crate::given::Given;
use crate::names::{CommandName, OptionName, is_fast};
use bz_outside::word::Word;
use std::alloc::Global;

/// What the words behind a command's name give. `NotACommand` comes exactly where they aren't the
/// words of arguments that the command takes.
pub fn read_arguments<'a>(
    alloc: Global,
    name: CommandName,
    words: &'a [Word],
) -> Result<Given<'a>, WordsFault>
    ensures ok { IfOk result (λ given. GivesArguments name words.now (given_of given)) }
    ensures err { IfErr result (λ fault. IfNoCommand fault (AreNoArguments name words.now)) }
{
    let mut given = Given::new(alloc);
    let mut rest = words;
    'arguments: while let Some((word, others)) = rest.split_first() {
        rest = read_argument(alloc, name, &mut given, word, others)?;
    }
    Ok(given)
}

/// Reads the argument in front of words, and answers the words behind it.
fn read_argument<'a>(
    alloc: Global,
    name: CommandName,
    given: &mut Given<'a>,
    word: &'a Word,
    others: &'a [Word],
) -> Result<&'a [Word], WordsFault>
    ensures ok { IfOk result (λ rest. ReadsArgument name (given_of given.old) (given_of given.new)
        (word.now ∷ others.now) rest.now) }
    ensures err { IfErr result (λ fault. IfNoCommand fault
        (BeginsWithNone name (given_of given.old) (word.now ∷ others.now))) }
{
    if is_fast(word.bytes()) {
        read_fast(name, given)?;
        return Ok(others);
    }
    match OptionName::read(word.bytes()) {
        Some(option) => read_setting(name, option, given, others),
        None => {
            read_place(alloc, given, word)?;
            Ok(others)
        }
    }
}

/// Reads `--fast`.
fn read_fast(name: CommandName, given: &mut Given<'_>) -> Result<(), WordsFault>
    ensures taken { OnOk result ((given_of given.old).fast < most_fast name) }
    ensures added { OnOk result (Adds (given_of given.old) (given_of given.new) Argument.Fast) }
    ensures err { IfErr result (λ fault. IfNoCommand fault
        (¬ ((given_of given.old).fast < most_fast name))) }
{
    if !name.takes_fast() {
        return Err(WordsFault::NotACommand);
    }
    if given.fast() {
        return Err(WordsFault::NotACommand);
    }
    given.set_fast();
    Ok(())
}

/// Reads a positional word.
fn read_place(alloc: Global, given: &mut Given<'_>, word: &Word) -> Result<(), WordsFault>
    ensures plain { OnOk result (IsPlainWord word.now) }
    ensures added { OnOk result
        (Adds (given_of given.old) (given_of given.new) (Argument.Positional word.now)) }
    ensures err { IfErr result (λ fault. IfNoCommand fault (¬ (IsPlainWord word.now))) }
{
    if !is_plain(word.bytes()) {
        return Err(WordsFault::NotACommand);
    }
    given.add_place(alloc, word.bytes())?;
    Ok(())
}

/// Reads the value of an option from the words behind it, and answers the words behind the value.
fn read_setting<'a>(
    name: CommandName,
    option: OptionName,
    given: &mut Given<'a>,
    others: &'a [Word],
) -> Result<&'a [Word], WordsFault>
    ensures ok { IfOk result (λ rest. ReadsArgument name (given_of given.old) (given_of given.new)
        (option_word option ∷ others.now) rest.now) }
    ensures err { IfErr result (λ fault. IfNoCommand fault
        (BeginsWithNone name (given_of given.old) (option_word option ∷ others.now))) }
{
    let Some((value, rest)) = others.split_first() else {
        return Err(WordsFault::NotACommand);
    };
    if !is_plain(value.bytes()) {
        return Err(WordsFault::NotACommand);
    }
    if !takes_more(name, option, given) {
        return Err(WordsFault::NotACommand);
    }
    given.set(option, value.bytes());
    Ok(rest)
}

/// Whether a command takes an option beside what is given.
fn takes_more(name: CommandName, option: OptionName, given: &Given<'_>) -> bool
    ensures { IsTrue result
        ↔ (length ((given_of given.now).values option) < most_values name option) }
{
    if !name.takes(option) {
        return false;
    }
    given.value(option).is_none()
}

/// Whether a word can be a positional word or a value: it isn't empty and doesn't begin with `-`.
fn is_plain(word: &[u8]) -> bool
    ensures { IsTrue result ↔ IsPlainWord word.now }
{
    match word {
        [] => false,
        [first, ..] => *first != b'-',
    }
}

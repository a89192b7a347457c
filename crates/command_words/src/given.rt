//! What the arguments of a command give.
ghost use Rattle.std.specs.Prelude.{◌≡◌, [], OnOk, if◌then◌else◌};
ghost use Rattle.std.specs.Option.{option_copied, option_to_list};
ghost use Rattle.command_words.specs.declared.names.OptionName.{OptionName};
ghost use Rattle.command_words.specs.Words.{Argument};
ghost use Rattle.command_words.specs.Reading.{Adds};
ghost use Rattle.command_words.specs.Views.{given_of};

use crate::names::OptionName;
use crate::settings::Settings;
use crate::word_list::WordList;
use bz_outside::word::Word;
use std::alloc::{AllocError, Global};

/// What the arguments of a command give: its positional words, the values of its options, and
/// whether `--fast` stands there.
#[derive(Drop)]
pub struct Given<'a> {
    places: WordList,
    settings: Settings<'a>,
    fast: bool,
}

impl<'a> Given<'a> {
    /// What no arguments give. Takes no memory.
    pub fn new(alloc: Global) -> Given<'a>
        ensures places { (given_of result).places ≡ [] }
        ensures values { (option : OptionName) → (given_of result).values option ≡ [] }
        ensures fast { (given_of result).fast ≡ 0 }
    {
        Given {
            places: WordList::new(alloc),
            settings: Settings::new(),
            fast: false,
        }
    }

    /// The positional words. Takes no memory.
    pub fn places(&self) -> &[Word]
        ensures { result.now ≡ (given_of self.now).places }
    {
        self.places.items()
    }

    /// The positional words, without the values. Takes no memory.
    pub fn into_places(self) -> WordList
        ensures { result ≡ (given_of self.entry).places }
    {
        let Given {
            places,
            settings: _,
            fast: _,
        } = self;
        places
    }

    /// The value of an option. Takes no memory.
    pub fn value(&self, option: OptionName) -> Option<&'a [u8]>
        ensures { option_to_list (option_copied result) ≡ (given_of self.now).values option }
    {
        self.settings.value(option)
    }

    /// Adds a positional word. A refusal comes for want of memory alone.
    pub fn add_place(&mut self, alloc: Global, word: &[u8]) -> Result<(), AllocError>
        ensures ok { OnOk result
            (Adds (given_of self.old) (given_of self.new) (Argument.Positional word.now)) }
    {
        let word = Word::from_bytes(alloc, word)?;
        self.places.push(word)
    }

    /// Gives an option its value, where it has none.
    pub fn set(&mut self, option: OptionName, value: &'a [u8])
        requires unset { (given_of self.old).values option ≡ [] }
        ensures set { Adds (given_of self.old) (given_of self.new)
            (Argument.Setting option value.now) }
    {
        self.settings.set(option, value);
    }

    /// Whether `--fast` stands there. Takes no memory.
    pub fn fast(&self) -> bool
        ensures { (given_of self.now).fast ≡ (if result then 1 else 0) }
    {
        self.fast
    }

    /// Gives `--fast`, where it doesn't stand there.
    pub fn set_fast(&mut self)
        requires unset { (given_of self.old).fast ≡ 0 }
        ensures set { Adds (given_of self.old) (given_of self.new) Argument.Fast }
    {
        self.fast = true;
    }
}

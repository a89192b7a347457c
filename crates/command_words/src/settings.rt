//! The values that options are given.
ghost use Rattle.std.specs.Prelude.{◌≡◌, length};

use crate::names::OptionName;

/// How many options there are.
const OPTIONS: usize = 7;

/// For each option, at its place, the value that it is given.
#[derive(Clone, Copy)]
pub struct Settings<'a> {
    values: [Option<&'a [u8]>; OPTIONS],
    ghost one_per_option: { length values ≡ 7 },
}

impl<'a> Settings<'a> {
    ghost use Rattle.std.specs.Prelude.{[], ◌∷◌, ◌++◌};
    ghost use Rattle.std.specs.Option.{option_copied, option_to_list};
    ghost use Rattle.command_words.specs.declared.names.OptionName.{OptionName};
    ghost use Rattle.command_words.specs.Words.{Argument, values_of};
    ghost use Rattle.command_words.specs.Views.{values_in};

    /// No option is given a value.
    pub fn new() -> Settings<'a>
        ensures empty { (option : OptionName) → values_in result option ≡ [] }
    {
        Settings {
            values: [None; OPTIONS],
        }
    }

    /// The value of an option. Takes no memory.
    pub fn value(&self, option: OptionName) -> Option<&'a [u8]>
        ensures { option_to_list (option_copied result) ≡ values_in self.now option }
    {
        self.values[option.place()]
    }

    /// Gives an option its value, where it has none.
    pub fn set(&mut self, option: OptionName, value: &'a [u8])
        requires unset { values_in self.old option ≡ [] }
        ensures set { (asked : OptionName) → values_in self.new asked
            ≡ values_in self.old asked
            ++ values_of (Argument.Setting option value.now ∷ []) asked }
    {
        self.values[option.place()] = Some(value);
    }
}

//! Which command words name, and which options it takes.
ghost use Rattle.std.specs.Prelude.{◌≡◌, ◌≢◌, ◌↔◌, IfSome, IsNone, IsTrue, if◌then◌else◌};
ghost use Rattle.command_words.specs.declared.names.CommandName.{CommandName};
ghost use Rattle.command_words.specs.declared.names.OptionName.{OptionName};
ghost use Rattle.command_words.specs.Words.{command_word, option_word, fast_word, option_number};
ghost use Rattle.command_words.specs.Words.{fewest_places, most_places, most_values, most_fast};

/// A command's name.
#[derive(Clone, Copy, Debug, PartialEq, Eq)]
pub enum CommandName {
    Spec,
    Oracle,
    Sample,
    Pool,
    Verify,
    Migrate,
    Bulk,
    Point,
    Chance,
    Count,
    Unrank,
    Rank,
}

impl CommandName {
    /// The command that a word names. Takes no memory.
    pub fn read(word: &[u8]) -> Option<CommandName>
        ensures named { IfSome result (λ name. word.now ≡ command_word name) }
        ensures none { IsNone result → (name : CommandName) → word.now ≢ command_word name }
    {
        match word {
            b"spec" => Some(CommandName::Spec),
            b"oracle" => Some(CommandName::Oracle),
            b"sample" => Some(CommandName::Sample),
            b"pool" => Some(CommandName::Pool),
            b"verify" => Some(CommandName::Verify),
            b"migrate" => Some(CommandName::Migrate),
            b"bulk" => Some(CommandName::Bulk),
            b"point" => Some(CommandName::Point),
            b"chance" => Some(CommandName::Chance),
            b"count" => Some(CommandName::Count),
            b"unrank" => Some(CommandName::Unrank),
            b"rank" => Some(CommandName::Rank),
            _ => None,
        }
    }

    /// The least number of positional words that the command takes.
    pub fn fewest_places(self) -> usize
        ensures { result ≡ fewest_places self }
    {
        match self {
            CommandName::Spec | CommandName::Bulk | CommandName::Point => 1,
            CommandName::Oracle
            | CommandName::Sample
            | CommandName::Verify
            | CommandName::Migrate
            | CommandName::Count
            | CommandName::Rank => 2,
            CommandName::Chance | CommandName::Unrank => 3,
            CommandName::Pool => 4,
        }
    }

    /// The greatest number of positional words that the command takes.
    pub fn most_places(self) -> usize
        ensures { result ≡ most_places self }
    {
        match self {
            CommandName::Pool => 67,
            name => name.fewest_places(),
        }
    }

    /// Whether the command takes an option.
    pub fn takes(self, option: OptionName) -> bool
        ensures { most_values self option ≡ (if result then 1 else 0) }
    {
        match self {
            CommandName::Sample => true,
            CommandName::Pool => !matches!(option, OptionName::Tape | OptionName::Seed),
            CommandName::Oracle | CommandName::Bulk | CommandName::Chance => {
                matches!(option, OptionName::Fraction)
            }
            CommandName::Spec
            | CommandName::Verify
            | CommandName::Migrate
            | CommandName::Point
            | CommandName::Count
            | CommandName::Unrank
            | CommandName::Rank => false,
        }
    }

    /// Whether the command takes the word `--fast`.
    pub fn takes_fast(self) -> bool
        ensures { most_fast self ≡ (if result then 1 else 0) }
    {
        matches!(self, CommandName::Sample)
    }
}

/// Whether a word is `--fast`. Takes no memory.
pub fn is_fast(word: &[u8]) -> bool
    ensures { IsTrue result ↔ (word.now ≡ fast_word) }
{
    matches!(word, b"--fast")
}

/// An option's name.
#[derive(Clone, Copy, Debug, PartialEq, Eq)]
pub enum OptionName {
    Tape,
    Seed,
    Min,
    Max,
    Count,
    Turns,
    Fraction,
}

impl OptionName {
    /// The option that a word names. Takes no memory.
    pub fn read(word: &[u8]) -> Option<OptionName>
        ensures named { IfSome result (λ option. word.now ≡ option_word option) }
        ensures none { IsNone result → (option : OptionName) → word.now ≢ option_word option }
    {
        match word {
            b"--tape" => Some(OptionName::Tape),
            b"--seed" => Some(OptionName::Seed),
            b"--min" => Some(OptionName::Min),
            b"--max" => Some(OptionName::Max),
            b"--count" => Some(OptionName::Count),
            b"--turns" => Some(OptionName::Turns),
            b"--fraction" => Some(OptionName::Fraction),
            _ => None,
        }
    }

    /// The option's place in a table of options.
    pub fn place(self) -> usize
        ensures { result ≡ option_number self }
    {
        self as usize
    }
}

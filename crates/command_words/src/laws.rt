//! Laws of words. Each function's contract is the law; none does anything.
ghost use Rattle.std.specs.Prelude.{◌≡◌, ℕ, List};
ghost use Rattle.command_words.specs.Commands.{IsCommand, IsBadValue};
ghost use Rattle.command_words.specs.Words.{IsNoCommand};
ghost use Rattle.command_words.specs.declared.command.Command.{Command};
ghost use Rattle.command_words.specs.declared.fault.ValueName.{ValueName};

/// Words stand for at most one command.
pub fn words_stand_for_one_command()
    ensures { (words : List (List ℕ)) (c d : Command) → IsCommand words c → IsCommand words d
        → c ≡ d }
{}

/// Words that stand for a command are refused in no way.
pub fn a_command_is_not_refused()
    ensures form { (words : List (List ℕ)) (c : Command) → IsCommand words c
        → ¬ (IsNoCommand words) }
    ensures value { (words : List (List ℕ)) (c : Command) (name : ValueName) → IsCommand words c
        → ¬ (IsBadValue words name) }
{}

/// Words are refused in at most one way.
pub fn words_are_refused_in_one_way()
    ensures form { (words : List (List ℕ)) (name : ValueName) → IsBadValue words name
        → ¬ (IsNoCommand words) }
    ensures value { (words : List (List ℕ)) (a b : ValueName) → IsBadValue words a
        → IsBadValue words b → a ≡ b }
{}

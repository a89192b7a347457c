//! From words to a command.
ghost use Rattle.std.specs.Prelude.{◌≡◌, ◌+◌, length, IfOk, IfErr};
ghost use Rattle.command_words.specs.declared.fault.ValueName.TheVariants as value;
ghost use Rattle.command_words.specs.declared.names.CommandName.TheVariants.{Spec, Oracle, Sample};
ghost use Rattle.command_words.specs.declared.names.CommandName.TheVariants.{Pool, Verify, Migrate};
ghost use Rattle.command_words.specs.declared.names.CommandName.TheVariants.{Point, Chance, Count};
ghost use Rattle.command_words.specs.declared.names.CommandName.TheVariants.{Unrank, Rank};
ghost use Rattle.command_words.specs.declared.names.OptionName.TheVariants as option;
ghost use Rattle.command_words.specs.Words.{Takes};
ghost use Rattle.command_words.specs.Values.{IsSet};
ghost use Rattle.command_words.specs.Commands.{IsCommand, IsTape, Makes, RefusesWords};
ghost use Rattle.command_words.specs.Reading.{AreValues};
ghost use Rattle.command_words.specs.Views.{given_of};

use crate::command::{Command, TapeWord};
use crate::fault::WordsFault;
use crate::form::{Form, read_form};
use crate::given::Given;
use crate::names::{CommandName, OptionName};
use crate::values::Values;
use bz_outside::word::Word;
use std::alloc::{AllocError, Global};

/// The command that words stand for.
///
/// `NotACommand` comes exactly where the words haven't the form of a command, and `BadValue`
/// exactly where they have and a value is bad, with that value's name. The command has copies of
/// the words that name files.
pub fn read_words(alloc: Global, words: &[Word]) -> Result<Command, WordsFault>
    ensures command { IfOk result (IsCommand words.now) }
    ensures refused { IfErr result (RefusesWords words.now) }
{
    let form = read_form(alloc, words)?;
    let values = form.values()?;
    Ok(command_of(alloc, form, values)?)
}

/// The command of a form with these values.
fn command_of(alloc: Global, form: Form<'_>, values: Values) -> Result<Command, AllocError>
    requires taken { Takes form.name (given_of form.given) }
    requires values { AreValues form.name (given_of form.given) values }
    ensures { IfOk result (Makes (given_of form.entry.given) form.entry.name) }
{
    let Form { name, given } = form;
    match name {
        CommandName::Spec => Ok(spec_of(given)),
        CommandName::Oracle => Ok(oracle_of(given, values)),
        CommandName::Sample => sample_of(alloc, given, values),
        CommandName::Pool => Ok(pool_of(given, values)),
        CommandName::Verify => Ok(verify_of(given)),
        CommandName::Migrate => Ok(migrate_of(given)),
        CommandName::Bulk => Ok(Command::Bulk {
            n: values.n,
            fraction: values.fraction,
        }),
        CommandName::Point => Ok(point_of(given)),
        CommandName::Chance => Ok(chance_of(given, values)),
        CommandName::Count => Ok(count_of(given, values)),
        CommandName::Unrank => Ok(unrank_of(given, values)),
        CommandName::Rank => Ok(rank_of(given)),
    }
}

fn spec_of(given: Given<'_>) -> Command
    requires taken { Takes Spec (given_of given) }
    ensures { Makes (given_of given.entry) Spec result }
{
    let mut places = given.into_places();
    Command::Spec {
        file: places.take_first(),
    }
}

fn oracle_of(given: Given<'_>, values: Values) -> Command
    requires taken { Takes Oracle (given_of given) }
    requires values { AreValues Oracle (given_of given) values }
    ensures { Makes (given_of given.entry) Oracle result }
{
    let mut places = given.into_places();
    Command::Oracle {
        file: places.take_first(),
        x: values.x.unwrap(),
        fraction: values.fraction,
    }
}

fn sample_of(alloc: Global, given: Given<'_>, values: Values) -> Result<Command, AllocError>
    requires taken { Takes Sample (given_of given) }
    requires values { AreValues Sample (given_of given) values }
    ensures { IfOk result (Makes (given_of given.entry) Sample) }
{
    let tape = tape_of(alloc, &given, values.seed)?;
    let fast = given.fast();
    let mut places = given.into_places();
    Ok(Command::Sample {
        file: places.take_first(),
        x: values.x.unwrap(),
        tape,
        limits: values.limits,
        fraction: values.fraction,
        fast,
    })
}

/// The tape of a sample, or else its seed.
fn tape_of(alloc: Global, given: &Given<'_>, seed: u64) -> Result<TapeWord, AllocError>
    requires either { length ((given_of given.now).values option.Tape)
        + length ((given_of given.now).values option.Seed) ≡ 1 }
    requires set { IsSet Sample value.Seed 0 ((given_of given.now).values option.Seed) seed }
    ensures { IfOk result (IsTape (given_of given.now)) }
{
    match given.value(OptionName::Tape) {
        Some(tape) => Ok(TapeWord::File(Word::from_bytes(alloc, tape)?)),
        None => Ok(TapeWord::Seed(seed)),
    }
}

fn pool_of(given: Given<'_>, values: Values) -> Command
    requires taken { Takes Pool (given_of given) }
    requires values { AreValues Pool (given_of given) values }
    ensures { Makes (given_of given.entry) Pool result }
{
    let mut places = given.into_places();
    let file = places.take_first();
    let _x = places.take_first();
    let schedule = places.take_first();
    Command::Pool {
        file,
        x: values.x.unwrap(),
        schedule,
        tapes: places,
        limits: values.limits,
        fraction: values.fraction,
    }
}

fn verify_of(given: Given<'_>) -> Command
    requires taken { Takes Verify (given_of given) }
    ensures { Makes (given_of given.entry) Verify result }
{
    let mut places = given.into_places();
    Command::Verify {
        file: places.take_first(),
        cert: places.take_first(),
    }
}

fn migrate_of(given: Given<'_>) -> Command
    requires taken { Takes Migrate (given_of given) }
    ensures { Makes (given_of given.entry) Migrate result }
{
    let mut places = given.into_places();
    Command::Migrate {
        file: places.take_first(),
        cert: places.take_first(),
    }
}

fn point_of(given: Given<'_>) -> Command
    requires taken { Takes Point (given_of given) }
    ensures { Makes (given_of given.entry) Point result }
{
    let mut places = given.into_places();
    Command::Point {
        file: places.take_first(),
    }
}

fn chance_of(given: Given<'_>, values: Values) -> Command
    requires taken { Takes Chance (given_of given) }
    requires values { AreValues Chance (given_of given) values }
    ensures { Makes (given_of given.entry) Chance result }
{
    let mut places = given.into_places();
    let file = places.take_first();
    let _x = places.take_first();
    let object = places.take_first();
    Command::Chance {
        file,
        x: values.x.unwrap(),
        object,
        fraction: values.fraction,
    }
}

fn count_of(given: Given<'_>, values: Values) -> Command
    requires taken { Takes Count (given_of given) }
    requires values { AreValues Count (given_of given) values }
    ensures { Makes (given_of given.entry) Count result }
{
    let mut places = given.into_places();
    Command::Count {
        file: places.take_first(),
        n: values.n,
    }
}

fn unrank_of(given: Given<'_>, values: Values) -> Command
    requires taken { Takes Unrank (given_of given) }
    requires values { AreValues Unrank (given_of given) values }
    ensures { Makes (given_of given.entry) Unrank result }
{
    let mut places = given.into_places();
    Command::Unrank {
        file: places.take_first(),
        n: values.n,
        number: values.rank,
    }
}

fn rank_of(given: Given<'_>) -> Command
    requires taken { Takes Rank (given_of given) }
    ensures { Makes (given_of given.entry) Rank result }
{
    let mut places = given.into_places();
    Command::Rank {
        file: places.take_first(),
        object: places.take_first(),
    }
}

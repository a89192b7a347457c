//! The top call.
ghost use Rattle.std.specs.Prelude.{◌≡◌, ◌≢◌, ℕ, ◌≤◌, ◌⊎◌, List};
ghost use Rattle.bz_outside.specs.Outside.{Rose, Appends};
ghost use Rattle.boltz.specs.Answers.{world, Answers, Carries, Unworded, IsUndisturbed};
ghost use Rattle.boltz.specs.Commands.{IsStoodFor, AreRefused};
ghost use Rattle.call_stages.specs.Ends.{EndsBy, output};
ghost use Rattle.call_stages.specs.Stages.{files};
ghost use Rattle.call_stages.specs.declared.status.Status.{Status};

use crate::laws::each_command_has_one_outcome;
use crate::oracle::oracle;
use crate::spec::spec;
use bulk_command::bulk::bulk;
use bz_model::steps::Steps;
use bz_outside::shelf::Shelf;
use bz_outside::sink::Sink;
use bz_outside::word::Word;
use call_stages::refusals::words_refusal;
use call_stages::report::written;
use call_stages::status::Status;
use certificate_commands::migrate::migrate;
use certificate_commands::verify::verify;
use chance_command::chance::chance;
use command_words::command::Command;
use command_words::fault::WordsFault;
use command_words::read::read_words;
use point_command::point::point;
use pool_command::pool::pool;
use rank_commands::count::count;
use rank_commands::rank::rank;
use rank_commands::unrank::unrank;
use sample_command::sample::sample;
use std::alloc::Global;
use std::sync::ledger::Ledger;

/// Does all that the program does: reads the words and the files that they name, and writes the
/// answer.
///
/// A drawing's lines are written while it goes on, other answers at their end. Where memory runs
/// out, or a write fails, a prefix of an answer's text was written, and nothing more is. Words that
/// stand for no command are refused, and nothing is read then.
pub fn run<S: Shelf, K: Sink, L: Ledger>(
    alloc: Global,
    words: &[Word],
    shelf: &mut S,
    out: &mut K,
    steps: &mut Steps<L>,
) -> Status
    ensures ends { EndsBy
        (Answers
        (world words.now (files (S.content shelf.old) (S.faults shelf.old) (S.faults shelf.new))))
        (output (K.written out.old) (K.written out.new) (K.faults out.old) (K.faults out.new)
        steps.old steps.new) result }
    ensures exact { (status : Status) (text : List ℕ) (ticks : ℕ)
        → IsUndisturbed
        (world words.now (files (S.content shelf.old) (S.faults shelf.old) (S.faults shelf.new)))
        → Answers
        (world words.now
        (files (S.content shelf.old) (S.faults shelf.old) (S.faults shelf.new))) status text
        ticks → status ≢ Status.OutOfMemory → ¬ (Rose (K.faults out.old) (K.faults out.new))
        → (result ≡ Status.OutOfMemory)
        ⊎ ((result ≡ status) × Appends (K.written out.old) (K.written out.new) text) }
    ensures unread { AreRefused words.now → shelf.new ≡ shelf.old }
    ensures content { S.content shelf.new ≡ S.content shelf.old }
    ensures counts { (name : List ℕ) → S.faults shelf.old name ≤ S.faults shelf.new name }
    ensures writes { K.faults out.old ≤ K.faults out.new }
{
    each_command_has_one_outcome();
    match read_words(alloc, words) {
        Ok(command) => carried_out(alloc, &command, shelf, out, steps),
        Err(fault) => without_command(alloc, fault, out),
    }
}

/// Carries out a command. A new command has a line here.
fn carried_out<S: Shelf, K: Sink, L: Ledger>(
    alloc: Global,
    command: &Command,
    shelf: &mut S,
    out: &mut K,
    steps: &mut Steps<L>,
) -> Status
    requires stood_for { IsStoodFor command.now }
    ensures ends { EndsBy (Carries (files (S.content shelf.old) (S.faults shelf.old)
        (S.faults shelf.new))
        command.now) (output (K.written out.old) (K.written out.new) (K.faults out.old)
        (K.faults out.new) steps.old steps.new) result }
    ensures content { S.content shelf.new ≡ S.content shelf.old }
    ensures counts { (name : List ℕ) → S.faults shelf.old name ≤ S.faults shelf.new name }
    ensures writes { K.faults out.old ≤ K.faults out.new }
{
    match command {
        Command::Spec { file } => spec(alloc, file, shelf, out),
        Command::Oracle { file, x, fraction } => {
            oracle(alloc, file, *x, *fraction, shelf, out, steps)
        }
        Command::Sample {
            file,
            x,
            tape,
            limits,
            fraction,
            fast,
        } => sample(
            alloc, file, *x, tape, *limits, *fraction, *fast, shelf, out, steps,
        ),
        Command::Pool {
            file,
            x,
            schedule,
            tapes,
            limits,
            fraction,
        } => {
            let tapes = tapes.items();
            pool(
                alloc, file, *x, schedule, tapes, *limits, *fraction, shelf, out, steps,
            )
        }
        Command::Verify { file, cert } => verify(alloc, file, cert, shelf, out, steps),
        Command::Migrate { file, cert } => migrate(alloc, file, cert, shelf, out, steps),
        Command::Bulk { n, fraction } => bulk(alloc, *n, *fraction, out, steps),
        Command::Point { file } => point(alloc, file, shelf, out),
        Command::Chance {
            file,
            x,
            object,
            fraction,
        } => chance(alloc, file, *x, object, *fraction, shelf, out, steps),
        Command::Count { file, n } => count(alloc, file, *n, shelf, out),
        Command::Unrank { file, n, number } => unrank(alloc, file, *n, *number, shelf, out),
        Command::Rank { file, object } => rank(alloc, file, object, shelf, out),
    }
}

/// Refuses words that stand for no command.
fn without_command<K: Sink>(alloc: Global, fault: WordsFault, out: &mut K) -> Status
    ensures ends { (ticks : ℕ)
        → EndsBy (Unworded fault) (output (K.written out.old) (K.written out.new) (K.faults out.old)
        (K.faults out.new) ticks ticks) result }
    ensures writes { K.faults out.old ≤ K.faults out.new }
{
    match words_refusal(alloc, fault) {
        Ok(report) => written(out, report.status, report.text.as_slice()),
        Err(_) => Status::OutOfMemory,
    }
}

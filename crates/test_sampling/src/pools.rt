//! Three drawings over one memo, at 48 fraction bits.
ghost use Rattle.std.specs.Prelude.{◌≡◌, ℕ, ◌<◌, ◌≤◌, [], ◌∷◌, ◌++◌, List, length, map, Option};
ghost use Rattle.std.specs.Prelude.{IfOk, OnOk, IsNone};
ghost use Rattle.bz_outside.specs.Memory.{content_of};
ghost use Rattle.bz_model.specs.Fraction.{Fraction as Ratio};
ghost use Rattle.class_system.specs.Sound.{IsSound};
ghost use Rattle.size_window.specs.Drawing.{limits_of, AreLimits};
ghost use Rattle.test_sampling.specs.Ready.{IsReady};

use bit_tape::tape::Tape;
use bz_model::cell::Cell;
use bz_model::fraction::Fraction;
use bz_model::oracle::Oracle;
use bz_model::steps::Steps;
use bz_outside::memory_shelf::MemoryShelf;
use bz_outside::shelf::Shelf;
use bz_outside::word::Word;
use newton_upper::propose;
use oracle_memo::Memo;
use session_pool::pool::Pool;
use session_pool::pooled::Pooled;
use size_window::limits::Limits;
use size_window::turned::Entry;
use std::alloc::{AllocError, Global};
use std::sync::ledger::{Blank, Ledger};
use std::test::Fail;
use well_founded::examination::Founded;

/// How many turns each drawing is asked for after the schedule.
const MOST_TURNS: u32 = 100;

/// Makes the turns of a schedule and then those of each drawing, least number first, and tells the
/// drawings in the order in which they ended, and what each kept and counted.
///
/// A tape is its bytes as numbers. The shelf gives one byte per read, and the read of the number
/// `failing` fails; none where it is 0.
pub fn run_pool<L: Ledger>(
    alloc: Global,
    founded: &Founded,
    x: Fraction,
    limits: Limits,
    tapes: [&str; 3],
    schedule: &[u64],
    failing: u64,
    blank: Blank,
) -> Result<String, Fail>
    requires limits { AreLimits (limits_of limits) }
    requires name { blank.name ≡ L.name }
    requires parts { blank.parts ≡ L.parts }
    requires some { 0 < L.parts }
{
    let mut steps = Steps::<L>::open(blank);
    let base = propose::<48, L>(alloc, founded, x, &mut steps)
        .ok()
        .ok_or("no base")?;
    let mut memo = Memo::make(alloc, founded, x, base)?;
    let mut shelf = shelf_of(alloc, tapes, failing)?;
    run_over(
        alloc, founded, limits, &mut memo, &mut shelf, &mut steps, schedule,
    )
}

/// Runs a pool over an oracle and a shelf.
fn run_over<O: Oracle<48>, S: Shelf, L: Ledger>(
    alloc: Global,
    founded: &Founded,
    limits: Limits,
    oracle: &mut O,
    shelf: &mut S,
    steps: &mut Steps<L>,
    schedule: &[u64],
) -> Result<String, Fail>
    requires limits { AreLimits (limits_of limits) }
    requires spec { O.spec oracle.old ≡ founded.now }
{
    let mut pool = pool_of(alloc, founded, limits)?;
    let order = make_turns(alloc, founded, &mut pool, oracle, shelf, steps, schedule)?;
    told(alloc, &pool, &order)
}

/// The drawings in the order in which they ended, and what each kept and counted.
fn told(alloc: Global, pool: &Pool, order: &[usize]) -> Result<String, Fail>
    requires three { length pool.now ≡ 3 }
{
    let mut text = format!(in alloc; "{order:?}")?;
    for number in 0..3 {
        tell_drawing(pool, number, &mut text)?;
    }
    Ok(text)
}

/// The bytes of a tape.
fn bytes_of(alloc: Global, text: &str) -> Result<Vec<u8>, Fail> {
    let mut bytes = Vec::new(alloc);
    for word in text.split_whitespace() {
        bytes.push(word.parse::<u8>().ok().ok_or("no byte")?)?;
    }
    Ok(bytes)
}

/// Stores a tape under a name that the shelf hasn't.
fn store(
    alloc: Global,
    shelf: &mut MemoryShelf,
    name: &[u8],
    bytes: Vec<u8>,
) -> Result<(), AllocError>
    requires new { IsNone (content_of shelf.old.files name.now) }
    ensures stored { OnOk result (shelf.new ≡ record shelf.old {
      files =
          shelf.old.files ++ record { name = name.now; bytes = bytes.items } ∷ [];
    }) }
{
    let name = Word::from_bytes(alloc, name)?;
    shelf.add(name, bytes)
}

/// A shelf with the three tapes under the names 0, 1 and 2.
fn shelf_of(alloc: Global, tapes: [&str; 3], failing: u64) -> Result<MemoryShelf, Fail> {
    let mut shelf = MemoryShelf::new(alloc, 1);
    let [first, second, third] = tapes;
    store(alloc, &mut shelf, b"0", bytes_of(alloc, first)?)?;
    store(alloc, &mut shelf, b"1", bytes_of(alloc, second)?)?;
    store(alloc, &mut shelf, b"2", bytes_of(alloc, third)?)?;
    if failing > 0 {
        shelf.fail_at(failing)?;
    }
    Ok(shelf)
}

/// A pool of three drawings over the tapes of these names.
fn pool_of(alloc: Global, founded: &Founded, limits: Limits) -> Result<Pool, AllocError>
    requires limits { AreLimits (limits_of limits) }
    ensures ready { IfOk result (λ pool. (x : Ratio) (contents : List ℕ → Option (List ℕ))
        → IsReady founded.now x contents pool) }
{
    let mut tapes = Vec::new(alloc);
    tapes.push(Tape::over(Word::from_bytes(alloc, b"0")?))?;
    tapes.push(Tape::over(Word::from_bytes(alloc, b"1")?))?;
    tapes.push(Tape::over(Word::from_bytes(alloc, b"2")?))?;
    Pool::make(alloc, founded, limits, tapes)
}

/// Makes the turns of a schedule, and those of each drawing after it, and lists the drawings in the
/// order in which they ended.
fn make_turns<O: Oracle<48>, S: Shelf, L: Ledger>(
    alloc: Global,
    founded: &Founded,
    pool: &mut Pool,
    oracle: &mut O,
    shelf: &mut S,
    steps: &mut Steps<L>,
    schedule: &[u64],
) -> Result<Vec<usize>, AllocError>
    requires spec { O.spec oracle.old ≡ founded.now }
    requires ready { IsReady founded.now (O.x oracle.old) (S.content shelf.old) pool.old }
    ensures three { length pool.new ≡ 3 }
{
    let mut order = Vec::new(alloc);
    'asked: for asked in schedule {
        make_turn(
            (*asked % 3) as usize,
            founded,
            pool,
            oracle,
            shelf,
            steps,
            &mut order,
        )?;
    }
    'rest: for number in 0..3 {
        'turns: for _turn in 0..MOST_TURNS {
            make_turn(number, founded, pool, oracle, shelf, steps, &mut order)?;
        }
    }
    Ok(order)
}

/// Makes one turn of a drawing, and notes its number where the turn ends it.
fn make_turn<O: Oracle<48>, S: Shelf, L: Ledger>(
    number: usize,
    founded: &Founded,
    pool: &mut Pool,
    oracle: &mut O,
    shelf: &mut S,
    steps: &mut Steps<L>,
    order: &mut Vec<usize>,
) -> Result<(), AllocError>
    requires number { number < 3 }
    requires spec { O.spec oracle.old ≡ founded.now }
    requires ready { IsReady founded.now (O.x oracle.old) (S.content shelf.old) pool.old }
    ensures spec { O.spec oracle.new ≡ O.spec oracle.old }
    ensures ready { IsReady founded.now (O.x oracle.new) (S.content shelf.new) pool.new }
{
    let went_on = pool.result(number).ending.is_none();
    match pool.turn::<48, O, S, L>(number, founded, oracle, shelf, steps) {
        Pooled::Going => {}
        Pooled::Finished => {
            if went_on {
                order.push(number)?;
            }
        }
        Pooled::OutOfMemory => return Err(AllocError),
    }
    Ok(())
}

/// Tells what a drawing kept and counted, and its ending.
fn tell_drawing(pool: &Pool, number: usize, text: &mut String) -> Result<(), Fail>
    requires { number < length pool.now }
{
    let drawing = pool.result(number);
    write!(text, " / {number}:")?;
    for entry in drawing.entries {
        tell_entry(entry, text)?;
    }
    let counts = drawing.counts;
    let (kept, thrown, turns) = (counts.kept, counts.thrown, counts.turns);
    let (used, ending) = (drawing.used, drawing.ending);
    write!(
        text,
        " kept {kept} thrown {thrown} bits {used} turns {turns} {ending:?}"
    )?;
    Ok(())
}

/// Tells a kept object: number, place, tokens, its labels if it has any, and cells.
fn tell_entry(entry: &Entry, text: &mut String) -> Result<(), Fail> {
    let tokens = entry.shape.tokens();
    write!(text, " {} at {} {tokens:?}", entry.number, entry.place)?;
    if let Some(labels) = &entry.labels {
        write!(text, " {:?}", labels.items())?;
    }
    for Cell { k, b } in entry.cells.items() {
        write!(text, " {k}/{b}")?;
    }
    write!(text, ";")?;
    Ok(())
}

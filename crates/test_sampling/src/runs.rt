//! Drawings, three at a time, whose runs were worked out by hand or by an independent program.
//!
//! In the table a line is a run of a pool: a specification, where `;` stands for the end of a line;
//! a fraction; the bytes of three tapes; numbers; and what is told, where `/` stands for the end of
//! a line. The numbers are the greatest size, how many objects each drawing keeps, the read of the
//! shelf that fails, 0 for none, and then the drawings whose turns are asked for first, in order.

use crate::pools::run_pool;
use bz_model::fraction::Fraction;
use class_system::system::System;
use size_window::limits::Limits;
use spec_reader::read_spec::read_spec;
use std::alloc::Global;
use std::marker::Brand;
use std::sync::ledger::Blank;
use std::test::Fail;
use well_founded::examination::{Founded, examine};

/// A specification, whether well founded or not.
fn system_of(alloc: Global, text: &str) -> Result<System, Fail> {
    let lines = text.replace(alloc, ";", "\n")?;
    Ok(
        read_spec(alloc, lines.as_bytes())
            .ok()
            .ok_or("no specification")?,
    )
}

/// The specification of a text, which must be well founded.
pub fn specification(alloc: Global, text: &str) -> Result<Founded, Fail> {
    let system = system_of(alloc, text)?;
    Ok(examine(alloc, system).ok().ok_or("not well founded")?)
}

/// The numbers of a text, with blanks between them.
pub fn numbers_of(alloc: Global, text: &str) -> Result<Vec<u64>, Fail> {
    let mut numbers = Vec::new(alloc);
    for word in text.split_whitespace() {
        numbers.push(word.parse::<u64>().ok().ok_or("no number")?)?;
    }
    Ok(numbers)
}

/// A fraction.
pub fn fraction_of(text: &str) -> Result<Fraction, Fail> {
    Ok(Fraction::read(text.as_bytes()).ok().ok_or("no fraction")?)
}

/// A text up to a mark, and what follows it.
pub fn cut(text: &str) -> Result<(&str, &str), Fail> {
    Ok(text.split_once(" @ ").ok_or("no mark")?)
}

/// Three texts up to marks, and what follows them.
fn cut_three(text: &str) -> Result<([&str; 3], &str), Fail> {
    let (first, rest) = cut(text)?;
    let (second, rest) = cut(rest)?;
    let (third, rest) = cut(rest)?;
    Ok(([first, second, third], rest))
}

/// What is told of a line of the table but for what is wanted.
fn run_line(
    alloc: Global,
    text: &str,
    x: &str,
    tapes: [&str; 3],
    numbers: &str,
) -> Result<String, Fail> {
    let x = fraction_of(x)?;
    let founded = specification(alloc, text)?;
    run_text(alloc, &founded, x, tapes, numbers)
}

/// Runs a pool with these numbers as they are written, and tells of it in one line.
fn run_text(
    alloc: Global,
    founded: &Founded,
    x: Fraction,
    tapes: [&str; 3],
    numbers: &str,
) -> Result<String, Fail> {
    let numbers = numbers_of(alloc, numbers)?;
    run(alloc, founded, x, tapes, &numbers)
}

/// Runs a pool.
fn run(
    alloc: Global,
    founded: &Founded,
    x: Fraction,
    tapes: [&str; 3],
    numbers: &[u64],
) -> Result<String, Fail> {
    let [max, count, failing, schedule @ ..] = numbers else {
        return Err(Fail::from("too few numbers"));
    };
    let (max, count) = (*max, *count);
    if max > 1000 || count == 0 || count > 1000 {
        return Err(Fail::from("no limits"));
    }
    let limits = Limits {
        min: 0,
        max,
        count,
        turns: 1000,
    };
    let blank = Blank::new(1);
    run_pool::<Brand>(alloc, founded, x, limits, tapes, schedule, *failing, blank)
}

const RUNS: &str = "\
unlabelled;B = E + Z*B*B; @ 3/16 @ 224 @  @ 192 0 0 0 0 0 0 0 @ 1000 1 0 1 1 2 0 2 @ [1, 2, 0] / 0: 1 at 0 [Pick(1), Dot, Pick(0), Unit, Pick(0), Unit] 7/3 0/1 0/1; kept 1 thrown 0 bits 5 turns 10 Some(Done) / 1: kept 0 thrown 0 bits 0 turns 2 Some(TapeEnded) / 2: kept 0 thrown 0 bits 60 turns 2 Some(Undecided(Node { node: ExprId(5), cell: Cell { k: 864691128455135232, b: 60 }, lo: 375299968947539, hi: 375299968947544 }))
unlabelled;B = E + Z*B*B; @ 3/16 @ 128 @ 192 @ 224 @ 1000 1 0 @ [0, 1, 2] / 0: 1 at 0 [Pick(0), Unit] 4/3; kept 1 thrown 0 bits 3 turns 3 Some(Done) / 1: kept 0 thrown 0 bits 8 turns 2 Some(TapeEnded) / 2: 1 at 0 [Pick(1), Dot, Pick(0), Unit, Pick(0), Unit] 7/3 0/1 0/1; kept 1 thrown 0 bits 5 turns 10 Some(Done)
unlabelled;B = E + Z*B*B; @ 3/16 @ 224 @ 128 @  @ 0 1 0 @ [0, 1, 2] / 0: 1 at 3 [Pick(0), Unit] 0/1; kept 1 thrown 1 bits 4 turns 7 Some(Done) / 1: 1 at 0 [Pick(0), Unit] 4/3; kept 1 thrown 0 bits 3 turns 3 Some(Done) / 2: kept 0 thrown 0 bits 0 turns 2 Some(TapeEnded)
unlabelled;B = E + Z*B*B; @ 3/16 @ 255 @ 224 @  @ 1 1 0 @ [0, 1, 2] / 0: kept 0 thrown 1 bits 8 turns 10 Some(TapeEnded) / 1: 1 at 0 [Pick(1), Dot, Pick(0), Unit, Pick(0), Unit] 7/3 0/1 0/1; kept 1 thrown 0 bits 5 turns 10 Some(Done) / 2: kept 0 thrown 0 bits 0 turns 2 Some(TapeEnded)
unlabelled;A = B*B;B = E + Z; @ 1/2 @ 128 @ 200 @ 240 @ 1 1 0 @ [0, 1, 2] / 0: 1 at 0 [Pick(0), Unit, Pick(0), Unit] 4/3 0/1; kept 1 thrown 0 bits 4 turns 8 Some(Done) / 1: 1 at 0 [Pick(1), Dot, Pick(0), Unit] 3/2 0/1; kept 1 thrown 0 bits 3 turns 8 Some(Done) / 2: 1 at 4 [Pick(0), Unit, Pick(0), Unit] 0/1 0/1; kept 1 thrown 1 bits 6 turns 16 Some(Done)
unlabelled;A = Z*Seq(Z); @ 1/2 @ 128 @ 224 @  @ 2 1 0 @ [0, 1, 2] / 0: kept 0 thrown 0 bits 8 turns 4 Some(TapeEnded) / 1: 1 at 3 [Dot, Count(0)] 0/1; kept 1 thrown 1 bits 4 turns 8 Some(Done) / 2: kept 0 thrown 0 bits 0 turns 4 Some(TapeEnded)
unlabelled;A = Z*Seq(Z); @ 1/2 @  @  @  @ 0 1 0 @ [] / 0: kept 0 thrown 33 bits 0 turns 100 None / 1: kept 0 thrown 33 bits 0 turns 100 None / 2: kept 0 thrown 33 bits 0 turns 100 None
unlabelled;C = Seq(Z); @ 1/2 @ 160 @ 255 @  @ 3 1 0 @ [0, 1, 2] / 0: 1 at 0 [Count(1), Dot] 5/3; kept 1 thrown 0 bits 3 turns 3 Some(Done) / 1: kept 0 thrown 1 bits 8 turns 4 Some(TapeEnded) / 2: kept 0 thrown 0 bits 0 turns 2 Some(TapeEnded)
unlabelled;C = Seq(Z); @ 1/2 @ 160 @ 255 @  @ 1000 1 0 @ [0, 1, 2] / 0: 1 at 0 [Count(1), Dot] 5/3; kept 1 thrown 0 bits 3 turns 3 Some(Done) / 1: kept 0 thrown 0 bits 8 turns 2 Some(TapeEnded) / 2: kept 0 thrown 0 bits 0 turns 2 Some(TapeEnded)
unlabelled;C = Seq(Z); @ 1/2 @ 160 @  @  @ 0 1 0 @ [0, 1, 2] / 0: 1 at 3 [Count(0)] 0/1; kept 1 thrown 1 bits 4 turns 4 Some(Done) / 1: kept 0 thrown 0 bits 0 turns 2 Some(TapeEnded) / 2: kept 0 thrown 0 bits 0 turns 2 Some(TapeEnded)
unlabelled;C = Seq=3(E); @ 1/2 @ 128 @  @ 0 @ 0 1 0 @ [0, 1, 2] / 0: 1 at 0 [Count(3), Unit, Unit, Unit] 1/1; kept 1 thrown 0 bits 1 turns 5 Some(Done) / 1: kept 0 thrown 0 bits 0 turns 2 Some(TapeEnded) / 2: 1 at 0 [Count(3), Unit, Unit, Unit] 0/1; kept 1 thrown 0 bits 1 turns 5 Some(Done)
unlabelled;C = Seq>=2(Z); @ 1/2 @ 0 @  @  @ 1000 1 0 @ [0, 1, 2] / 0: 1 at 0 [Count(2), Dot, Dot] 0/1; kept 1 thrown 0 bits 1 turns 4 Some(Done) / 1: kept 0 thrown 0 bits 0 turns 2 Some(TapeEnded) / 2: kept 0 thrown 0 bits 0 turns 2 Some(TapeEnded)
labelled;T = Z*Set(T); @ 1/4 @ 249 150 @ 249 @ 255 @ 10 1 0 @ [0, 1, 2] / 0: 1 at 0 [Dot, Count(2), Dot, Count(0), Dot, Count(1), Dot, Count(0)] [3, 4, 1, 2] 62/6 0/1 6/3 0/1 2/2 3/2 0/1; kept 1 thrown 0 bits 16 turns 17 Some(Done) / 1: kept 0 thrown 0 bits 8 turns 12 Some(TapeEnded) / 2: kept 0 thrown 0 bits 8 turns 4 Some(TapeEnded)
labelled;T = Z*Set(T); @ 1/4 @ 249 150 @ 249 @ 255 @ 2 1 0 @ [0, 1, 2] / 0: 1 at 5 [Dot, Count(0)] [1] 0/1; kept 1 thrown 1 bits 6 turns 9 Some(Done) / 1: 1 at 5 [Dot, Count(0)] [1] 0/1; kept 1 thrown 1 bits 6 turns 9 Some(Done) / 2: kept 0 thrown 1 bits 8 turns 8 Some(TapeEnded)
labelled;P = Set(Cyc(Z)); @ 1/2 @ 186 @  @ 0 @ 10 1 0 @ [0, 1, 2] / 0: 1 at 0 [Count(1), Count(2), Dot, Dot] [2, 1] 5/3 6/3 1/1; kept 1 thrown 0 bits 7 turns 6 Some(Done) / 1: kept 0 thrown 0 bits 0 turns 2 Some(TapeEnded) / 2: 1 at 0 [Count(0)] [] 0/2; kept 1 thrown 0 bits 2 turns 3 Some(Done)
labelled;C = Cyc(Z); @ 1/2 @ 128 @ 0 @ 255 @ 3 1 0 @ [0, 1, 2] / 0: 1 at 0 [Count(1), Dot] [1] 4/3; kept 1 thrown 0 bits 3 turns 4 Some(Done) / 1: 1 at 0 [Count(1), Dot] [1] 0/1; kept 1 thrown 0 bits 1 turns 4 Some(Done) / 2: kept 0 thrown 1 bits 8 turns 4 Some(TapeEnded)
labelled;C = Cyc(Z); @ 1/2 @ 0 @  @ 255 @ 0 1 0 @ [0, 1, 2] / 0: kept 0 thrown 8 bits 8 turns 18 Some(TapeEnded) / 1: kept 0 thrown 0 bits 0 turns 2 Some(TapeEnded) / 2: kept 0 thrown 8 bits 8 turns 18 Some(TapeEnded)
labelled;C = Set(Z); @ 1/1 @ 128 @  @ 0 @ 10 1 0 @ [0, 1, 2] / 0: 1 at 0 [Count(1), Dot] [1] 4/3; kept 1 thrown 0 bits 3 turns 4 Some(Done) / 1: kept 0 thrown 0 bits 0 turns 2 Some(TapeEnded) / 2: 1 at 0 [Count(0)] [] 0/2; kept 1 thrown 0 bits 2 turns 3 Some(Done)
labelled;C = Set(Z); @ 1/1 @ 128 @  @ 0 @ 0 1 0 @ [0, 1, 2] / 0: 1 at 1 [Count(0)] [] 0/2; kept 1 thrown 1 bits 3 turns 5 Some(Done) / 1: kept 0 thrown 0 bits 0 turns 2 Some(TapeEnded) / 2: 1 at 0 [Count(0)] [] 0/2; kept 1 thrown 0 bits 2 turns 3 Some(Done)
labelled;C = Z*Z*Z; @ 1/2 @ 192 @ 85 @ 0 @ 1000 1 0 0 1 0 1 0 1 0 1 0 1 2 1 @ [1, 0, 2] / 0: 1 at 0 [Dot, Dot, Dot] [3, 1, 2] 3/2 0/1; kept 1 thrown 0 bits 3 turns 6 Some(Done) / 1: kept 0 thrown 0 bits 8 turns 6 Some(TapeEnded) / 2: 1 at 0 [Dot, Dot, Dot] [1, 2, 3] 0/2 0/1; kept 1 thrown 0 bits 3 turns 6 Some(Done)
labelled;C = Z*Z*Z; @ 1/2 @ 85 85 85 85 85 85 85 85 @ 85 85 @ 192 @ 1000 1 10 @ [0, 1, 2] / 0: kept 0 thrown 0 bits 60 turns 6 Some(Undecided(Label { m: 3, cell: Cell { k: 384307168202282325, b: 60 } })) / 1: kept 0 thrown 0 bits 8 turns 6 Some(ReadFault) / 2: 1 at 0 [Dot, Dot, Dot] [3, 1, 2] 3/2 0/1; kept 1 thrown 0 bits 3 turns 6 Some(Done)
labelled;C = E + Z; @ 1/2 @ 0 @ 255 @  @ 1000 1 0 @ [0, 1, 2] / 0: 1 at 0 [Pick(0), Unit] [] 0/1; kept 1 thrown 0 bits 1 turns 4 Some(Done) / 1: 1 at 0 [Pick(1), Dot] [1] 3/2; kept 1 thrown 0 bits 2 turns 4 Some(Done) / 2: kept 0 thrown 0 bits 0 turns 2 Some(TapeEnded)
unlabelled;C = Z + Z; @ 1/2 @ 128 @ 0 @ 192 @ 1000 2 0 0 1 2 0 1 2 @ [0, 1, 2] / 0: 1 at 0 [Pick(1), Dot] 1/1; 2 at 1 [Pick(0), Dot] 0/1; kept 2 thrown 0 bits 2 turns 6 Some(Done) / 1: 1 at 0 [Pick(0), Dot] 0/1; 2 at 1 [Pick(0), Dot] 0/1; kept 2 thrown 0 bits 2 turns 6 Some(Done) / 2: 1 at 0 [Pick(1), Dot] 1/1; 2 at 1 [Pick(1), Dot] 1/1; kept 2 thrown 0 bits 2 turns 6 Some(Done)
unlabelled;C = Z + Z; @ 1/2 @ 128 @ 0 @ 192 @ 1000 2 0 2 2 2 2 2 2 2 @ [2, 0, 1] / 0: 1 at 0 [Pick(1), Dot] 1/1; 2 at 1 [Pick(0), Dot] 0/1; kept 2 thrown 0 bits 2 turns 6 Some(Done) / 1: 1 at 0 [Pick(0), Dot] 0/1; 2 at 1 [Pick(0), Dot] 0/1; kept 2 thrown 0 bits 2 turns 6 Some(Done) / 2: 1 at 0 [Pick(1), Dot] 1/1; 2 at 1 [Pick(1), Dot] 1/1; kept 2 thrown 0 bits 2 turns 6 Some(Done)
unlabelled;C = Z + Z; @ 1/2 @ 128 @ 0 @ 192 @ 1000 2 0 0 0 0 0 5 @ [0, 1, 2] / 0: 1 at 0 [Pick(1), Dot] 1/1; 2 at 1 [Pick(0), Dot] 0/1; kept 2 thrown 0 bits 2 turns 6 Some(Done) / 1: 1 at 0 [Pick(0), Dot] 0/1; 2 at 1 [Pick(0), Dot] 0/1; kept 2 thrown 0 bits 2 turns 6 Some(Done) / 2: 1 at 0 [Pick(1), Dot] 1/1; 2 at 1 [Pick(1), Dot] 1/1; kept 2 thrown 0 bits 2 turns 6 Some(Done)
unlabelled;C = Z + Z; @ 1/2 @ 128 @ 0 @ 192 @ 1000 2 1 2 2 @ [2, 0, 1] / 0: 1 at 0 [Pick(1), Dot] 1/1; 2 at 1 [Pick(0), Dot] 0/1; kept 2 thrown 0 bits 2 turns 6 Some(Done) / 1: 1 at 0 [Pick(0), Dot] 0/1; 2 at 1 [Pick(0), Dot] 0/1; kept 2 thrown 0 bits 2 turns 6 Some(Done) / 2: kept 0 thrown 0 bits 0 turns 2 Some(ReadFault)";

#[test]
fn drawings_take_turns(rt: HostRuntime) -> Result<(), Fail> {
    for line in RUNS.lines() {
        let (text, rest) = cut(line)?;
        let (x, rest) = cut(rest)?;
        let (tapes, rest) = cut_three(rest)?;
        let (numbers, want) = cut(rest)?;
        let got = run_line(rt.alloc(), text, x, tapes, numbers)?;
        assert_eq!(rt; got.as_str(), want);
    }
    Ok(())
}

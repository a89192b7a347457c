//! Pools over shelves of which a read fails.
//!
//! In the tables a line is a pool, with ` | ` between two fields: the numbers of the drawings whose
//! turns are asked for, how many times over they are asked for, the words, the read that fails, the
//! status, the bits of each of the three drawings, one for each object that it kept, and the order
//! in which the drawings ended.

use crate::whole::{fields_of, pool_shelf, status_in, status_of};
use bz_outside::memory_sink::MemorySink;
use std::alloc::{AllocError, Global};
use std::process::Abort;
use std::test::Fail;

const HEADER: &str =
    "boltzmann 2\nmode unlabelled\nspec 912b2203f35597570f0c2772d3efb0b59c614544f9d903c18ec3f84866edd780\nx 1/2\nfraction 48\nwindow 0 1000\nbase C 281474976710912\n";

/// The end of a drawing that kept no object: the first read of its tape fails.
const NONE: &str = "end read-fault kept 0 thrown 0 bits 0 turns 2\n";

/// The end of a drawing that kept two.
const TWO: &str = "end done kept 2 thrown 0 bits 2 turns 6\n";

/// The end of a drawing that kept eight: the second read of its tape fails.
const EIGHT: &str = "end read-fault kept 8 thrown 0 bits 8 turns 26\n";

/// The end of a drawing that kept nine.
const NINE: &str = "end done kept 9 thrown 0 bits 9 turns 27\n";

/// Appends the lines of a drawing that kept an object for each of these bits.
fn push_drawing(text: &mut String, number: u32, bits: &str) -> Result<(), Fail> {
    write!(text, "session {number}\n")?;
    let mut place: u64 = 0;
    for bit in bits.chars() {
        let next = place.saturating_add(1);
        write!(
            text,
            "object {next} at {place} size 1\ntext {bit}.Z\ncells {bit}/1\n"
        )?;
        place = next;
    }
    let end = match bits.len() {
        0 => NONE,
        2 => TWO,
        8 => EIGHT,
        _ => NINE,
    };
    text.push_str(end)?;
    Ok(())
}

/// The text of a pool.
fn pool_text(
    alloc: Global,
    first: &str,
    second: &str,
    third: &str,
    order: &str,
) -> Result<String, Fail> {
    let mut text = String::new(alloc);
    text.push_str(HEADER)?;
    push_drawing(&mut text, 0, first)?;
    push_drawing(&mut text, 1, second)?;
    push_drawing(&mut text, 2, third)?;
    text.push_str(order)?;
    text.push_str("\nend pool\n")?;
    Ok(text)
}

/// A schedule of these digits, so many times over.
fn schedule_of(alloc: Global, asked: &str, times: u32) -> Result<Vec<u8>, AllocError> {
    let mut schedule = Vec::new(alloc);
    for _time in 0..times {
        for digit in asked.as_bytes() {
            schedule.push(digit.wrapping_sub(b'0'))?;
        }
    }
    Ok(schedule)
}

/// Compares a pool by a schedule over a shelf that gives a byte a read and fails at one read.
fn compare_pool<R: AllocGlobal + Abort>(
    rt: &R,
    words: &str,
    schedule: &[u8],
    call: u64,
    status: u8,
    want: &str,
) -> Result<(), AllocError> {
    let mut shelf = pool_shelf(rt.alloc(), schedule)?;
    shelf.fail_at(call)?;
    let mut sink = MemorySink::new(rt.alloc(), 4096, 4096)?;
    let got = status_of(rt, words, &mut shelf, &mut sink)?;
    let written = str::from_utf8(sink.written());
    assert_eq!(rt; (got, written), (status, Ok(want)), "read {call}");
    Ok(())
}

fn compare_line<R: AllocGlobal + Abort>(rt: &R, line: &str) -> Result<(), Fail> {
    let [
        asked,
        times,
        words,
        call,
        status,
        first,
        second,
        third,
        order,
        ..
    ] = fields_of(line);
    let (times, call) = (number_in(times), number_in(call));
    let schedule = schedule_of(rt.alloc(), asked, times)?;
    let want = pool_text(rt.alloc(), first, second, third, order)?;
    compare_pool(
        rt,
        words,
        &schedule,
        u64::from(call),
        status_in(status),
        &want,
    )?;
    Ok(())
}

/// A number as it is written; a great one where none is written.
fn number_in(text: &str) -> u32 {
    text.parse::<u32>().unwrap_or(9999)
}

fn compare_lines<R: AllocGlobal + Abort>(rt: &R, table: &str) -> Result<(), Fail> {
    for line in table.lines() {
        compare_line(rt, line)?;
    }
    Ok(())
}

/// The first read of a tape fails: read 26, after 22 of the specification and 3 of the schedule. It
/// is of the tape of the drawing whose turn it is by the schedule.
const FIRST: &str = "\
00 | 1 | pool s 1/2 c t0 t1 t2 --count 2 | 26 | 8 |  | 00 | 11 | order 0 1 2
11 | 1 | pool s 1/2 c t0 t1 t2 --count 2 | 26 | 8 | 10 |  | 11 | order 1 0 2
22 | 1 | pool s 1/2 c t0 t1 t2 --count 2 | 26 | 8 | 10 | 00 |  | order 2 0 1";

#[test]
fn the_drawing_whose_turn_it_is_reads(rt: HostRuntime) -> Result<(), Fail> {
    compare_lines(&rt, FIRST)
}

/// The second read of the second drawing's tape fails, where a drawing takes its turns in one go.
const SECOND: &str = "\
2 | 28 | pool s 1/2 c t0 t1 t2 --count 9 | 57 | 8 | 100000001 | 00000000 | 110000001 | order 2 0 1
012 | 28 | pool s 1/2 c t0 t1 t2 --count 9 | 112 | 8 | 100000001 | 00000000 | 110000001 | order 1 0 2
 | 0 | pool s 1/2 c t0 t1 t2 --count 9 | 27 | 8 | 100000001 | 00000000 | 110000001 | order 0 1 2";

#[test]
fn a_failed_read_ends_its_drawing_alone(rt: HostRuntime) -> Result<(), Fail> {
    compare_lines(&rt, SECOND)
}

/// The same pools where no read fails.
const FAULTLESS: &str = "\
2 | 28 | pool s 1/2 c t0 t1 t2 --count 9 | 1000 | 0 | 100000001 | 000000000 | 110000001 | order 2 0 1
012 | 28 | pool s 1/2 c t0 t1 t2 --count 9 | 1000 | 0 | 100000001 | 000000000 | 110000001 | order 0 1 2
 | 0 | pool s 1/2 c t0 t1 t2 --count 9 | 1000 | 0 | 100000001 | 000000000 | 110000001 | order 0 1 2";

#[test]
fn pools_without_a_fault(rt: HostRuntime) -> Result<(), Fail> {
    compare_lines(&rt, FAULTLESS)
}

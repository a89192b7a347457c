//! Shelves and sinks over memory against values found by hand, both adapters over the system, and
//! fractions.
ghost use Rattle.std.specs.Prelude.{◌≤◌};

use bz_model::fraction::{Fraction, FractionFault};
use bz_outside::file_shelf::FileShelf;
use bz_outside::memory_shelf::MemoryShelf;
use bz_outside::memory_sink::MemorySink;
use bz_outside::shelf::{ReadStop, read_up_to};
use bz_outside::sink::put_all;
use bz_outside::std_sink::StdSink;
use bz_outside::word::Word;
use std::alloc::Global;
use std::fs;
use std::test::Fail;

/// A shelf with the bytes of "hello, tape" under the name `t`, `piece` bytes a read, whose read of
/// the number `fails` fails.
fn hello_shelf(alloc: Global, piece: usize, fails: u64) -> Result<MemoryShelf, Fail>
    requires { 1 ≤ piece }
{
    let mut shelf = MemoryShelf::new(alloc, piece);
    shelf.fail_at(fails)?;
    let bytes = Vec::from_slice(alloc, b"hello, tape")?;
    shelf.add(Word::from_bytes(alloc, b"t")?, bytes)?;
    Ok(shelf)
}

/// What is read, or `failed`.
fn read_all(
    alloc: Global,
    shelf: &mut MemoryShelf,
    name: &Word,
    most: u64,
) -> Result<Vec<u8>, Fail> {
    match read_up_to(alloc, shelf, name, most) {
        Ok(bytes) => Ok(bytes),
        Err(ReadStop::Failed) => Ok(Vec::from_slice(alloc, b"failed")?),
        Err(ReadStop::OutOfMemory) => Err(Fail::from("no memory")),
    }
}

/// What is read of a name from such a shelf, or `failed`.
fn read_hello(
    alloc: Global,
    name: &str,
    piece: usize,
    fails: u64,
    most: u64,
) -> Result<Vec<u8>, Fail>
    requires { 1 ≤ piece }
{
    let name = Word::from_bytes(alloc, name.as_bytes())?;
    let mut shelf = hello_shelf(alloc, piece, fails)?;
    read_all(alloc, &mut shelf, &name, most)
}

#[test]
fn a_content_is_read_whole_or_up_to_the_limit(rt: HostRuntime) -> Result<(), Fail> {
    for (name, piece, fails, most, want) in [
        ("t", 1, 99, 5, "hello"),
        ("t", 4, 99, 12, "hello, tape"),
        ("t", 9000, 99, 11, "hello, tape"),
        ("t", 9000, 99, 0, ""),
        ("t", 4, 3, 100, "failed"),
        ("t", 4, 4, 100, "failed"),
        ("u", 4, 99, 100, "failed"),
    ] {
        assert!(rt; piece >= 1);
        let got = read_hello(rt.alloc(), name, piece, fails, most)?;
        assert_eq!(rt; got.as_slice(), want.as_bytes());
    }
    Ok(())
}

/// What a sink takes of a line, at most `most` bytes a write and `room` in all, whose write of the
/// number `fails` fails; with a mark behind it where the line isn't put.
fn put_line(alloc: Global, most: usize, room: usize, fails: u64) -> Result<Vec<u8>, Fail>
    requires { 1 ≤ most }
{
    let mut sink = MemorySink::new(alloc, most, room)?;
    sink.fail_at(fails)?;
    let mark = match put_all(&mut sink, b"a line") {
        Ok(()) => b"".as_slice(),
        Err(_) => b"!".as_slice(),
    };
    let mut written = Vec::from_slice(alloc, sink.written())?;
    written.extend_from_slice(mark)?;
    Ok(written)
}

#[test]
fn a_sink_takes_pieces_until_it_is_full(rt: HostRuntime) -> Result<(), Fail> {
    for (most, room, fails, want) in [
        (1, 9, 9, "a line"),
        (4, 6, 9, "a line"),
        (4, 5, 9, "a lin!"),
        (4, 9, 2, "a li!"),
        (4, 9, 1, "!"),
    ] {
        assert!(rt; most >= 1);
        let got = put_line(rt.alloc(), most, room, fails)?;
        assert_eq!(rt; got.as_slice(), want.as_bytes());
    }
    Ok(())
}

#[test]
fn a_file_is_read_from_the_disk(rt: HostRuntime) -> Result<(), Fail> {
    let path = "/tmp/bz_outside_a_file_is_read.txt";
    fs::write(&rt, path, "twelve bytes")?;
    let name = Word::from_bytes(rt.alloc(), path.as_bytes())?;
    let mut shelf = FileShelf::new(&rt);
    let got = read_up_to(rt.alloc(), &mut shelf, &name, 100)
        .ok()
        .ok_or("no file")?;
    fs::remove_file(&rt, path)?;
    let after = read_up_to(rt.alloc(), &mut shelf, &name, 100);
    assert_eq!(rt; got.as_slice(), b"twelve bytes".as_slice());
    assert_eq!(rt; after.err(), Some(ReadStop::Failed));
    Ok(())
}

#[test]
fn a_line_goes_to_the_standard_output(rt: HostRuntime) {
    let mut sink = StdSink::new(rt.stdout());
    assert_eq!(rt; put_all(&mut sink, b"a line\n"), Ok(()));
}

#[test]
fn a_fraction_is_two_numbers_within_the_limits(rt: HostRuntime) {
    let not_a_fraction = Err(FractionFault::NotAFraction);
    let out_of_range = Err(FractionFault::OutOfRange);
    for (text, want) in [
        ("3/16", Ok((3, 16))),
        ("1000000/1", Ok((1_000_000, 1))),
        ("1000001/1", out_of_range),
        ("1/0", out_of_range),
        ("0/99999999999999999999999999", out_of_range),
        ("01/2", not_a_fraction),
        ("1/2/3", not_a_fraction),
        ("1/", not_a_fraction),
        ("+1/2", not_a_fraction),
        ("12", not_a_fraction),
        ("", not_a_fraction),
    ] {
        let got = Fraction::read(text.as_bytes()).map(|x| (x.num, x.den));
        assert_eq!(rt; got, want, "{text}");
    }
}

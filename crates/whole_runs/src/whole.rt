//! One run, from the words and files to the status and what was written.
ghost use Rattle.std.specs.Prelude.{◌≡◌, ◌<◌, ◌≤◌, [], ◌∷◌, ◌++◌, IfOk, OnOk, IsNone};
ghost use Rattle.bz_outside.specs.Memory.{content_of};

use boltz::run::run;
use bz_model::steps::Steps;
use bz_outside::memory_shelf::MemoryShelf;
use bz_outside::memory_sink::MemorySink;
use bz_outside::word::Word;
use std::alloc::{AllocError, Global};
use std::marker::Brand;
use std::process::Abort;
use std::sync::ledger::{Blank, Ledger};
use std::test::Fail;

/// The status where memory is wanting.
const NO_MEMORY: u8 = 10;

/// Room for the longest text of these tests.
const ROOM: usize = 4096;

/// Stores bytes under a new name.
fn store(
    alloc: Global,
    shelf: &mut MemoryShelf,
    name: &[u8],
    bytes: &[u8],
) -> Result<(), AllocError>
    requires new { IsNone (content_of shelf.old.files name.now) }
    ensures stored { OnOk result (shelf.new ≡ record shelf.old {
      files =
          shelf.old.files ++ record { name = name.now; bytes = bytes.now } ∷ [];
    }) }
{
    let bytes = Vec::from_slice(alloc, bytes)?;
    shelf.add(Word::from_bytes(alloc, name)?, bytes)
}

/// A shelf with a specification under the name `s` and a tape under `t`.
///
/// A read gives at most `most` bytes, and none fails so far.
pub fn shelf_of(
    alloc: Global,
    spec: &[u8],
    tape: &[u8],
    most: usize,
) -> Result<MemoryShelf, AllocError>
    requires { 1 ≤ most }
    ensures { IfOk result (λ shelf. shelf.calls.failing ≡ []) }
{
    let mut shelf = MemoryShelf::new(alloc, most);
    store(alloc, &mut shelf, b"s", spec)?;
    store(alloc, &mut shelf, b"t", tape)?;
    Ok(shelf)
}

/// A shelf with the files of a pool: a specification, a schedule and three tapes of two bytes.
///
/// A read gives a byte, and none fails so far.
pub fn pool_shelf(alloc: Global, schedule: &[u8]) -> Result<MemoryShelf, AllocError>
    ensures { IfOk result (λ shelf. shelf.calls.failing ≡ []) }
{
    let mut shelf = MemoryShelf::new(alloc, 1);
    store(alloc, &mut shelf, b"s", b"unlabelled\nC = Z + Z\n")?;
    store(alloc, &mut shelf, b"c", schedule)?;
    store(alloc, &mut shelf, b"t0", b"\x80\x80")?;
    store(alloc, &mut shelf, b"t1", b"\0\0")?;
    store(alloc, &mut shelf, b"t2", b"\xc0\xc0")?;
    Ok(shelf)
}

/// The status of a run with these words, which stand between single blanks.
///
/// Where memory is wanting in the run, nothing is to be written, and `Err` comes.
pub fn status_of<R: AllocGlobal + Abort>(
    rt: &R,
    words: &str,
    shelf: &mut MemoryShelf,
    sink: &mut MemorySink,
) -> Result<u8, AllocError> {
    let words = words_of(rt.alloc(), words)?;
    let status = counted::<Brand>(rt.alloc(), &words, shelf, sink, Blank::new(1));
    if status == NO_MEMORY {
        assert_eq!(rt; sink.written(), b"".as_slice(), "no memory, and a text");
        return Err(AllocError);
    }
    Ok(status)
}

/// The words of a text, which has none where it is empty.
fn words_of(alloc: Global, text: &str) -> Result<Vec<Word>, AllocError> {
    let mut words = Vec::new(alloc);
    if text.is_empty() {
        return Ok(words);
    }
    for word in text.split(' ') {
        words.push(Word::from_bytes(alloc, word.as_bytes())?)?;
    }
    Ok(words)
}

/// The same as `status_of`, with a counter of steps that stands at 0.
fn counted<L: Ledger>(
    alloc: Global,
    words: &[Word],
    shelf: &mut MemoryShelf,
    sink: &mut MemorySink,
    blank: Blank,
) -> u8
    requires name { blank.name ≡ L.name }
    requires parts { blank.parts ≡ L.parts }
    requires some { 0 < L.parts }
{
    let mut steps = Steps::<L>::open(blank);
    run(alloc, words, shelf, sink, &mut steps).number()
}

/// Compares what a run over a specification and a tape answers and writes with what is wanted.
pub fn compare<R: AllocGlobal + Abort>(
    rt: &R,
    words: &str,
    spec: &str,
    tape: &[u8],
    status: u8,
    want: &str,
) -> Result<(), AllocError> {
    let mut shelf = shelf_of(rt.alloc(), spec.as_bytes(), tape, 4096)?;
    let mut sink = MemorySink::new(rt.alloc(), 4096, ROOM)?;
    let got = status_of(rt, words, &mut shelf, &mut sink)?;
    let written = str::from_utf8(sink.written());
    assert_eq!(rt; (got, written), (status, Ok(want)), "{words}: {spec}");
    Ok(())
}

/// Compares each line of a table: words, a specification, the file under `t`, the status and the
/// text that is wanted, with ` | ` between them.
///
/// There `;` stands for the end of a line, and each character of the file for the byte with its
/// number.
pub fn compare_table<R: AllocGlobal + Abort>(rt: &R, table: &str) -> Result<(), Fail> {
    for line in table.lines() {
        compare_line(rt, line)?;
    }
    Ok(())
}

fn compare_line<R: AllocGlobal + Abort>(rt: &R, line: &str) -> Result<(), Fail> {
    let lines = line.replace(rt.alloc(), ";", "\n")?;
    let [words, spec, file, status, want, ..] = fields_of(&lines);
    let file = bytes_of(rt.alloc(), file)?;
    compare(rt, words, spec, &file, status_in(status), want)?;
    Ok(())
}

/// The fields of a line of a table, up to fourteen, with ` | ` between them, and empty ones behind.
pub fn fields_of(line: &str) -> [&str; 14] {
    let mut fields = [""; 14];
    let mut parts = line.split(" | ");
    for i in 0..fields.len() {
        fields[i] = parts.next().unwrap_or("");
    }
    fields
}

/// A status as it is written; one that no run has where none is written.
pub fn status_in(text: &str) -> u8 {
    text.parse::<u8>().unwrap_or(u8::MAX)
}

/// The bytes whose numbers the characters of a text have.
pub fn bytes_of(alloc: Global, text: &str) -> Result<Vec<u8>, Fail> {
    let mut bytes = Vec::new(alloc);
    for character in text.chars() {
        let byte = u8::try_from(u32::from(character)).ok();
        bytes.push(byte.ok_or("no byte")?)?;
    }
    Ok(bytes)
}

//! Stored runs of which each read and each write fails in turn.
ghost use Rattle.std.specs.Prelude.{◌≤◌};

use crate::whole::{bytes_of, fields_of, shelf_of, status_in, status_of};
use bz_outside::memory_sink::MemorySink;
use std::alloc::{AllocError, Global};
use std::process::Abort;
use std::test::Fail;

/// Runs, with ` | ` between two fields: the words, the specification under `s`, the tape under `t`,
/// the status, the text before the first object of a drawing, where one is begun, the text behind
/// it, and for each byte of the tape what stands behind the header where the read that begins at
/// this byte fails.
///
/// `;` stands for the end of a line, and each character of a tape for the byte with its number. The
/// runs are: a specification that is printed, and one that is refused; the bounds of a sequence, and
/// a sequence that has no base; a pair from a tape; nine objects from a tape, of which eight are
/// kept before its second byte is read; a binary tree from a seed; and a labelled tree from a tape,
/// whose last two bytes are read for its labels.
const RUNS: &str = "\
spec s | labelled;C = Z*Set(C); |  | 0 |  | labelled;C = Z*Set(C);end done classes 1 nodes 4;
spec s | unlabelled;C = C; |  | 3 |  | refused spec no object C;
oracle s 1/2 | unlabelled;C = Seq(Z); |  | 0 |  | boltzmann 2;mode unlabelled;\
spec cf0e7746b154aa307657d6137933fa6e6ba503ec395fe97d7ebe365ded2ffde2;x 1/2;fraction 48;\
base C 562949953421567;level 1 C 562949953421311 562949953421312;\
level 2 C 562949953421311 562949953421312;level 3 C 562949953421311 562949953421312;\
level 4 C 562949953421311 562949953421312;level 5 C 562949953421311 562949953421312;\
level 6 C 562949953421311 562949953421312;end done;
oracle s 1/1 | unlabelled;C = Seq(Z); |  | 4 |  | refused upper candidates 126 proposals 0;
sample s 1/1 --tape t | unlabelled;A = B*B;B = E + Z; | @ | 0 | boltzmann 2;mode unlabelled;\
spec 15888b34132ae6303b890110811b136b771aa38b66d784e631f98e5ed1cf75f3;x 1/1;fraction 48;\
window 0 1000;base A 1125899906843904;base B 562949953421568; | object 1 at 0 size 1;\
text (0.E 1.Z);cells 0/1 1/1;end done kept 1 thrown 0 bits 2 turns 8; | \
end read-fault kept 0 thrown 0 bits 0 turns 4;
sample s 1/2 --tape t --count 9 | unlabelled;C = Z + Z; | \u{80}\u{80} | 0 | boltzmann 2;\
mode unlabelled;spec 912b2203f35597570f0c2772d3efb0b59c614544f9d903c18ec3f84866edd780;x 1/2;\
fraction 48;window 0 1000;base C 281474976710912; | object 1 at 0 size 1;text 1.Z;cells 1/1;\
object 2 at 1 size 1;text 0.Z;cells 0/1;object 3 at 2 size 1;text 0.Z;cells 0/1;\
object 4 at 3 size 1;text 0.Z;cells 0/1;object 5 at 4 size 1;text 0.Z;cells 0/1;\
object 6 at 5 size 1;text 0.Z;cells 0/1;object 7 at 6 size 1;text 0.Z;cells 0/1;\
object 8 at 7 size 1;text 0.Z;cells 0/1;object 9 at 8 size 1;text 1.Z;cells 1/1;\
end done kept 9 thrown 0 bits 9 turns 27; | end read-fault kept 0 thrown 0 bits 0 turns 2; | \
object 1 at 0 size 1;text 1.Z;cells 1/1;object 2 at 1 size 1;text 0.Z;cells 0/1;\
object 3 at 2 size 1;text 0.Z;cells 0/1;object 4 at 3 size 1;text 0.Z;cells 0/1;\
object 5 at 4 size 1;text 0.Z;cells 0/1;object 6 at 5 size 1;text 0.Z;cells 0/1;\
object 7 at 6 size 1;text 0.Z;cells 0/1;object 8 at 7 size 1;text 0.Z;cells 0/1;\
end read-fault kept 8 thrown 0 bits 8 turns 26;
sample s 249999/1000000 --fast --seed 1 | unlabelled;B = E + Z*B*B; |  | 0 | boltzmann fast;\
mode unlabelled;spec abfb094417b1437541ff59d2464727b0f7e1f84b1ce3412ef8269aae68178dcb;\
x 249999/1000000;fraction 48;window 0 1000;base B 562309861896779; | object 1 at 0 size 0;\
text 0.E;cells 0/1;end done kept 1 thrown 0 bits 1 turns 3;
sample s 9/25 --tape t | labelled;T = Z*Set(T); | \u{c9}\u{d3}\u{e1}\u{f0}\u{aa}Z\u{17}\u{c3} | \
0 | boltzmann 2;mode labelled;\
spec 29a47b287dffb6b7af67ca04825edeb8e2af387858a1c055e9f7d2bdd9c08753;x 9/25;fraction 48;\
window 0 1000;base T 229536619891989; | object 1 at 0 size 6;\
text (Z#5 {(Z#1 {(Z#6 {(Z#2 {}) (Z#4 {(Z#3 {})})})})});\
cells 1614/11 9/4 1927/11 1557/11 2/3 2/3 52/6 2/4 3/2 3/2 1/1;\
end done kept 1 thrown 0 bits 58 turns 25; | end read-fault kept 0 thrown 0 bits 0 turns 4; | \
end read-fault kept 0 thrown 0 bits 8 turns 4; | \
end read-fault kept 0 thrown 0 bits 16 turns 12; | \
end read-fault kept 0 thrown 0 bits 24 turns 12; | \
end read-fault kept 0 thrown 0 bits 32 turns 16; | \
end read-fault kept 0 thrown 0 bits 40 turns 24; | \
end read-fault kept 0 thrown 0 bits 48 turns 25; | end read-fault kept 0 thrown 0 bits 56 turns 25;";

/// A line of the table but for its tape.
#[derive(Clone, Copy)]
struct Run<'a> {
    words: &'a str,
    spec: &'a str,
    status: u8,
    header: &'a str,
    rest: &'a str,
}

/// What stands behind a header; `None` where the header doesn't stand there.
fn behind<'a>(written: &'a [u8], header: &str) -> Option<&'a str> {
    str::from_utf8(written).ok()?.strip_prefix(header)
}

/// Compares a run over a shelf that gives at most `most` bytes a read and fails at one read.
fn with_failed_read<R: AllocGlobal + Abort>(
    rt: &R,
    run: &Run,
    tape: &[u8],
    most: usize,
    call: u64,
    want: (u8, &str, &str),
) -> Result<(), AllocError>
    requires { 1 ≤ most }
{
    let mut shelf = shelf_of(rt.alloc(), run.spec.as_bytes(), tape, most)?;
    shelf.fail_at(call)?;
    let mut sink = MemorySink::new(rt.alloc(), 4096, 4096)?;
    let got = status_of(rt, run.words, &mut shelf, &mut sink)?;
    let (status, header, rest) = want;
    let written = behind(sink.written(), header);
    assert_eq!(rt;
        (got, written),
        (status, Some(rest)),
        "{}: read {call}",
        run.words
    );
    Ok(())
}

/// Lets each read of a run fail in turn, and then none.
fn each_read_fails<R: AllocGlobal + Abort>(
    rt: &R,
    run: &Run,
    tape: &[u8],
    broken: &[&str],
    most: usize,
) -> Result<(), AllocError>
    requires { 1 ≤ most }
{
    let mut call: u64 = 1;
    for _piece in run.spec.as_bytes().chunks(most) {
        with_failed_read(rt, run, tape, most, call, (8, "", "refused read\n"))?;
        call = call.saturating_add(1);
    }
    with_failed_read(rt, run, tape, most, call, (8, "", "refused read\n"))?;
    for (place, text) in broken.iter().enumerate() {
        if !text.is_empty() && place % most == 0 {
            call = call.saturating_add(1);
            with_failed_read(rt, run, tape, most, call, (8, run.header, *text))?;
        }
    }
    let call = call.saturating_add(1);
    with_failed_read(
        rt,
        run,
        tape,
        most,
        call,
        (run.status, run.header, run.rest),
    )?;
    Ok(())
}

/// Lets each read of a run of the table fail in turn, where a read gives a byte, ten or all.
fn reads_fail<R: AllocGlobal + Abort>(rt: &R, line: &str) -> Result<(), Fail> {
    let lines = line.replace(rt.alloc(), ";", "\n")?;
    let fields = fields_of(&lines);
    let [words, spec, tape, status, header, rest, ..] = fields;
    let broken = &fields[6..];
    let status = status_in(status);
    let run = Run {
        words,
        spec,
        status,
        header,
        rest,
    };
    let tape = bytes_of(rt.alloc(), tape)?;
    each_read_fails(rt, &run, &tape, broken, 1)?;
    each_read_fails(rt, &run, &tape, broken, 10)?;
    each_read_fails(rt, &run, &tape, broken, 4096)?;
    Ok(())
}

#[test]
fn reads_fail_in_turn(rt: HostRuntime) -> Result<(), Fail> {
    for line in RUNS.lines() {
        reads_fail(&rt, line)?;
    }
    Ok(())
}

/// Compares a run over a sink that takes at most `most` bytes a write and fails at one write.
fn with_failed_write<R: AllocGlobal + Abort>(
    rt: &R,
    run: &Run,
    tape: &[u8],
    most: usize,
    call: u64,
    want: (u8, &[u8]),
) -> Result<(), AllocError>
    requires { 1 ≤ most }
{
    let mut shelf = shelf_of(rt.alloc(), run.spec.as_bytes(), tape, 4096)?;
    let mut sink = MemorySink::new(rt.alloc(), most, 4096)?;
    sink.fail_at(call)?;
    let got = status_of(rt, run.words, &mut shelf, &mut sink)?;
    assert_eq!(rt; (got, sink.written()), want, "{}: write {call}", run.words);
    Ok(())
}

/// Lets each write of a text fail in turn, and then none.
fn each_write_fails<R: AllocGlobal + Abort>(
    rt: &R,
    run: &Run,
    tape: &[u8],
    text: &[u8],
    most: usize,
) -> Result<(), AllocError>
    requires { 1 ≤ most }
{
    let mut call: u64 = 1;
    let mut written = 0usize;
    for piece in text.chunks(most) {
        let before = text.get(..written).unwrap_or(text);
        with_failed_write(rt, run, tape, most, call, (9, before))?;
        written = written.saturating_add(piece.len());
        call = call.saturating_add(1);
    }
    with_failed_write(rt, run, tape, most, call, (run.status, text))?;
    Ok(())
}

/// Lets each write of a run of the table fail in turn, where a write takes a byte, ten or all.
fn writes_fail<R: AllocGlobal + Abort>(rt: &R, line: &str) -> Result<(), Fail> {
    let lines = line.replace(rt.alloc(), ";", "\n")?;
    let [words, spec, tape, status, header, rest, ..] = fields_of(&lines);
    let status = status_in(status);
    let run = Run {
        words,
        spec,
        status,
        header,
        rest,
    };
    let tape = bytes_of(rt.alloc(), tape)?;
    writes_of(rt, &run, &tape)
}

fn writes_of<R: AllocGlobal + Abort>(rt: &R, run: &Run, tape: &[u8]) -> Result<(), Fail> {
    let text = format!(in rt.alloc(); "{}{}", run.header, run.rest)?;
    each_write_fails(rt, run, tape, text.as_bytes(), 1)?;
    each_write_fails(rt, run, tape, text.as_bytes(), 10)?;
    each_write_fails(rt, run, tape, text.as_bytes(), 4096)?;
    Ok(())
}

#[test]
fn writes_fail_in_turn(rt: HostRuntime) -> Result<(), Fail> {
    for line in RUNS.lines() {
        writes_fail(&rt, line)?;
    }
    Ok(())
}

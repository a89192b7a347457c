//! Seeded tapes against ChaCha20 by another program, and a tape over a file that is read in small
//! pieces and fails.
ghost use Rattle.std.specs.Prelude.{ℕ, List, Option, IfOk};
ghost use Rattle.bit_tape.specs.Tape.{BelongsToShelf};

use bit_tape::tape::{BitAnswer, Tape};
use bz_outside::memory_shelf::MemoryShelf;
use bz_outside::shelf::Shelf;
use bz_outside::steady::SteadyShelf;
use bz_outside::word::Word;
use std::alloc::Global;
use std::test::Fail;

/// The first 32 words of ChaCha20, stream 0, under the seeds 0, 1 and 2^64 - 1.
const WORDS: [(u64, &str); 3] = [
    (
        0,
        "\
ade0b876 903df1a0 e56a5d40 28bd8653 b819d2bd 1aed8da0 ccef36a8 c70d778b \
7c5941da 8d485751 3fe02477 374ad8b8 f4b8436a 1ca11815 69b687c3 8665eeb2 \
bee7079f 7a385155 7c97ba98 0d082d73 a0290fcb 6965e348 3e53c612 ed7aee32 \
7621b729 434ee69c b03371d5 d539d874 281fed31 45fb0a51 1f0ae1ac 6f4d794b",
    ),
    (
        1,
        "\
7c0ad3c5 9311ece1 484fc878 855a777d ce3ef142 55948a23 889e22e8 bd5be88d \
d063eb29 995b7aa1 22da529b eb2340be 540a6207 d86afaf6 eb717b73 c0da6404 \
e656f610 0555fdd1 87c4503e a330995c 63026d3f d6df14bd 52708cab 8b33191c \
5cb90823 7dbbd0f8 02212d20 52a30e78 85b41c8f 206bf760 42b982f3 acce0f50",
    ),
    (
        u64::MAX,
        "\
6beea23f eb4153da fc8a4224 3836e52a f3239209 434eb43b 9cfed5f3 16404d4a \
d2077dfb 3a345ff9 965651ae d41bd87d 2658fd35 3ca48f3e 05ac5c34 8c652ea8 \
bb0ecea6 8bfab5a9 d51ba0e2 3a02f66b 749e54e7 974c11e3 de34ba05 6a30ee41 \
71ea75f2 0625fe38 a497a2c8 0ee1b3f0 3530d412 2ed21113 6816b279 73296d3b",
    ),
];

/// The next `count` bits as a number, the first of them the highest, or what came in place of one.
fn take_bits<S: Shelf>(tape: &mut Tape, shelf: &mut S, count: u32) -> Result<u32, BitAnswer>
    requires { BelongsToShelf (S.content shelf.old) tape.old }
    ensures { BelongsToShelf (S.content shelf.new) tape.new }
{
    let mut bits = 0u32;
    'bits: for _ in 0..count {
        match tape.next_bit(shelf) {
            BitAnswer::Bit(bit) => bits = bits << 1 | u32::from(bit),
            stop => return Err(stop),
        }
    }
    Ok(bits)
}

/// The first 32 words of the tape of a seed, in hexadecimal digits, with a blank between them.
fn words_of(alloc: Global, seed: u64) -> Result<String, Fail> {
    let mut shelf = SteadyShelf::new(Vec::new(alloc));
    let mut tape = Tape::seeded(seed);
    let mut text = String::new(alloc);
    'words: for i in 0..32 {
        let word = take_bits(&mut tape, &mut shelf, 32).ok().ok_or("no bit")?;
        let blank = if i > 0 { " " } else { "" };
        write!(text, "{blank}{word:08x}")?;
    }
    Ok(text)
}

#[test]
fn a_seeded_tape_gives_the_bits_of_its_words(rt: HostRuntime) -> Result<(), Fail> {
    for (seed, want) in WORDS {
        let got = words_of(rt.alloc(), seed)?;
        assert_eq!(rt; got.as_str(), want);
    }
    Ok(())
}

/// A shelf with three bytes under the name `t`, one byte a read, whose second read fails.
fn failing_shelf(alloc: Global) -> Result<MemoryShelf, Fail> {
    let mut shelf = MemoryShelf::new(alloc, 1);
    shelf.fail_at(2)?;
    let bytes = Vec::from_slice(alloc, &[0xa5, 0x3c, 0x01])?;
    shelf.add(Word::from_bytes(alloc, b"t")?, bytes)?;
    Ok(shelf)
}

/// The tape over the content of the name `t`.
fn tape_over(alloc: Global) -> Result<Tape, Fail>
    ensures { IfOk result (λ tape.
        (contents : List ℕ → Option (List ℕ)) → BelongsToShelf contents tape) }
{
    Ok(Tape::over(Word::from_bytes(alloc, b"t")?))
}

/// What is taken one after another, eight bits, eight, sixteen and one, and how many bits are used
/// after each.
fn taken<S: Shelf>(alloc: Global, tape: &mut Tape, shelf: &mut S) -> Result<String, Fail>
    requires { BelongsToShelf (S.content shelf.old) tape.old }
{
    let mut text = String::new(alloc);
    'counts: for count in [8, 8, 16, 1] {
        let bits = take_bits(tape, shelf, count);
        write!(text, "{bits:?} {}; ", tape.used())?;
    }
    Ok(text)
}

#[test]
fn a_failed_read_leaves_the_tape_and_the_end_is_met_after_the_last_bit(
    rt: HostRuntime,
) -> Result<(), Fail> {
    let mut shelf = failing_shelf(rt.alloc())?;
    let mut tape = tape_over(rt.alloc())?;
    let got = taken(rt.alloc(), &mut tape, &mut shelf)?;
    let want = "Ok(165) 8; Err(ReadFault) 8; Ok(15361) 24; Err(Ended) 24; ";
    assert_eq!(rt; got.as_str(), want);
    Ok(())
}

//! Words against the commands and refusals that were found by hand.
//!
//! In the table a line is the words of a command, with one blank between two of them, and what they
//! stand for. A word is shown as its bytes: 115 is `s`, 116 is `t`, 107 is `k`.

use crate::runs::cut;
use bz_outside::word::Word;
use command_words::read::read_words;
use std::alloc::Global;
use std::test::Fail;

/// The words of a text, with one blank between two of them.
fn words_of(alloc: Global, text: &str) -> Result<Vec<Word>, Fail> {
    let mut words = Vec::new(alloc);
    for word in text.split(' ') {
        words.push(Word::from_bytes(alloc, word.as_bytes())?)?;
    }
    Ok(words)
}

/// The command or the refusal of words.
fn told(alloc: Global, words: &[Word]) -> Result<String, Fail> {
    match read_words(alloc, words) {
        Ok(command) => Ok(format!(in alloc; "{command:?}")?),
        Err(fault) => Ok(format!(in alloc; "{fault:?}")?),
    }
}

const WORDS: &str = "\
tree s @ NotACommand
 @ NotACommand
spec @ NotACommand
spec s t @ NotACommand
spec s --fraction 48 @ NotACommand
spec   @ NotACommand
spec - @ NotACommand
spec s\t @ NotACommand
--help @ NotACommand
oracle s 1/2 --min 1 @ NotACommand
oracle s 1/2 --fraction @ NotACommand
oracle s 1/2 --fraction=48 @ NotACommand
sample s 1/2 @ NotACommand
sample s 1/2 --tape t --seed 1 @ NotACommand
sample s 1/2 --seed 1 --seed 1 @ NotACommand
sample s 1/2 --tape --seed 1 @ NotACommand
sample s 1/2 --seed -1 @ NotACommand
pool s 1/2 k @ NotACommand
pool s 1/2 k t --seed 1 @ NotACommand
verify s @ NotACommand
bulk 1 2 @ NotACommand
sample s 1/2 --seed 1 --fast --fast @ NotACommand
sample s 1/2 --seed --fast @ NotACommand
--fast sample s 1/2 --seed 1 @ NotACommand
pool s 1/2 k t --fast @ NotACommand
oracle s 1/2 --fast @ NotACommand
point @ NotACommand
point s --fraction 48 @ NotACommand
chance s 1/2 @ NotACommand
chance s 1/2 o --min 1 @ NotACommand
count s 4 --fraction 48 @ NotACommand
unrank s 2 @ NotACommand
rank s o p @ NotACommand
sample s 0/2 --seed 1 @ BadValue { name: X }
sample s 0/2 --seed x --min x @ BadValue { name: X }
sample s 1/2 --seed 18446744073709551616 @ BadValue { name: Seed }
sample s 1/2 --max x --min 01 --seed 1 @ BadValue { name: Min }
sample s 1/2 --max 1000001 --min 9 --seed 1 @ BadValue { name: Max }
sample s 1/2 --count 0 --turns 0 --seed 1 @ BadValue { name: Count }
pool s 1/2 k t --turns 50000001 @ BadValue { name: Turns }
oracle s 1/2 --fraction 47 @ BadValue { name: Fraction }
bulk 0 --fraction 48. @ BadValue { name: Fraction }
bulk 1001 @ BadValue { name: N }
chance s 0/2 o --fraction 47 @ BadValue { name: X }
chance s 1/2 o --fraction 47 @ BadValue { name: Fraction }
count s 501 @ BadValue { name: N }
count s 04 @ BadValue { name: N }
unrank s 501 x @ BadValue { name: N }
unrank s 2 x @ BadValue { name: Rank }
unrank s 2 340282366920938463463374607431768211456 @ BadValue { name: Rank }
sample s 1/2 --seed 1 --min 9 --max 8 @ BadValue { name: Min }
sample s 1/2 --seed 1 --min 1001 @ BadValue { name: Min }
sample s 1/2 --seed 1 --min 1001 --count 0 @ BadValue { name: Count }
spec spec @ Spec { file: Word { content: [115, 112, 101, 99] } }
oracle s 3/16 @ Oracle { file: Word { content: [115] }, x: Fraction { num: 3, den: 16 }, fraction: F48 }
oracle --fraction 40 s 3/16 @ Oracle { file: Word { content: [115] }, x: Fraction { num: 3, den: 16 }, fraction: F40 }
sample s 1/2 --tape t @ Sample { file: Word { content: [115] }, x: Fraction { num: 1, den: 2 }, tape: File(Word { content: [116] }), limits: Limits { min: 0, max: 1000, count: 1, turns: 1000000 }, fraction: F48, fast: false }
sample s 1/2 --seed 18446744073709551615 @ Sample { file: Word { content: [115] }, x: Fraction { num: 1, den: 2 }, tape: Seed(18446744073709551615), limits: Limits { min: 0, max: 1000, count: 1, turns: 1000000 }, fraction: F48, fast: false }
sample --min 8 s --turns 50000000 --max 1000000 1/2 --count 100000 --seed 0 --fraction 52 @ Sample { file: Word { content: [115] }, x: Fraction { num: 1, den: 2 }, tape: Seed(0), limits: Limits { min: 8, max: 1000000, count: 100000, turns: 50000000 }, fraction: F52, fast: false }
pool s 1/2 k t @ Pool { file: Word { content: [115] }, x: Fraction { num: 1, den: 2 }, schedule: Word { content: [107] }, tapes: WordList { content: [Word { content: [116] }] }, limits: Limits { min: 0, max: 1000, count: 1, turns: 1000000 }, fraction: F48 }
pool s 1/2 --max 8 k t --min 8 u t @ Pool { file: Word { content: [115] }, x: Fraction { num: 1, den: 2 }, schedule: Word { content: [107] }, tapes: WordList { content: [Word { content: [116] }, Word { content: [117] }, Word { content: [116] }] }, limits: Limits { min: 8, max: 8, count: 1, turns: 1000000 }, fraction: F48 }
verify s c @ Verify { file: Word { content: [115] }, cert: Word { content: [99] } }
migrate s c @ Migrate { file: Word { content: [115] }, cert: Word { content: [99] } }
bulk 1000 --fraction 52 @ Bulk { n: 1000, fraction: F52 }
sample s 1/2 --seed 1 --fast @ Sample { file: Word { content: [115] }, x: Fraction { num: 1, den: 2 }, tape: Seed(1), limits: Limits { min: 0, max: 1000, count: 1, turns: 1000000 }, fraction: F48, fast: true }
sample --fast s --tape t 1/2 @ Sample { file: Word { content: [115] }, x: Fraction { num: 1, den: 2 }, tape: File(Word { content: [116] }), limits: Limits { min: 0, max: 1000, count: 1, turns: 1000000 }, fraction: F48, fast: true }
point s @ Point { file: Word { content: [115] } }
chance s 1/2 t --fraction 40 @ Chance { file: Word { content: [115] }, x: Fraction { num: 1, den: 2 }, object: Word { content: [116] }, fraction: F40 }
count s 0 @ Count { file: Word { content: [115] }, n: 0 }
count s 500 @ Count { file: Word { content: [115] }, n: 500 }
unrank s 2 0 @ Unrank { file: Word { content: [115] }, n: 2, number: 0 }
unrank s 500 340282366920938463463374607431768211455 @ Unrank { file: Word { content: [115] }, n: 500, number: 340282366920938463463374607431768211455 }
rank s t @ Rank { file: Word { content: [115] }, object: Word { content: [116] } }";

/// The command or the refusal of the words of a text.
fn told_text(alloc: Global, text: &str) -> Result<String, Fail> {
    let words = words_of(alloc, text)?;
    told(alloc, &words)
}

#[test]
fn words_stand_for_a_command_or_are_refused(rt: HostRuntime) -> Result<(), Fail> {
    for line in WORDS.lines() {
        let (text, want) = cut(line)?;
        let got = told_text(rt.alloc(), text)?;
        assert_eq!(rt; got.as_str(), want);
    }
    Ok(())
}

/// What is told of a pool with so many tapes.
fn told_pool(alloc: Global, tapes: usize) -> Result<String, Fail> {
    let mut words = words_of(alloc, "pool s 1/2 k")?;
    for _ in 0..tapes {
        words.push(Word::from_bytes(alloc, b"t")?)?;
    }
    told(alloc, &words)
}

#[test]
fn a_pool_has_up_to_64_tapes(rt: HostRuntime) -> Result<(), Fail> {
    for (tapes, want) in [(64, false), (65, true)] {
        let got = told_pool(rt.alloc(), tapes)?;
        assert_eq!(rt; got.as_str() == "NotACommand", want);
    }
    Ok(())
}

//! Tables of numbers of parts, and labels.
ghost use Rattle.std.specs.Prelude.{◌≤◌};

use bit_tape::tape::Tape;
use bz_model::cell::{Bounds, Cell};
use bz_outside::steady::SteadyShelf;
use count_draw::kind::CountKind;
use count_draw::table::CountTable;
use labelling::label::label;
use labelling::labelled::Labelled;
use std::alloc::Global;
use std::test::Fail;

const ONE: u64 = 1 << 24;

#[test]
fn a_table_of_sequences_tells_values_and_the_least_option(rt: HostRuntime) {
    let half = Bounds {
        lo: ONE / 2,
        hi: ONE / 2,
    };
    let two = Bounds {
        lo: 2 * ONE - 1,
        hi: 2 * ONE,
    };
    let table = CountTable::<24>::fill(CountKind::Seq, 0, half, two, 300);
    for (i, want) in [(3, (31457280, 31457280)), (300, (2 * ONE - 1, 2 * ONE))] {
        assert!(rt; i <= 300);
        assert_eq!(rt; (table.lower(i), table.upper(i)), want);
    }
    for (k, want) in [(0, Some(0)), (1, Some(0)), (2, Some(1)), (3, None)] {
        assert!(rt; k < 4);
        assert_eq!(rt; table.least(Cell { k, b: 2 }), want, "cell {k}/2");
    }
}

/// What is told of the labels of `n` atoms from the tape of seed 7.
fn told(alloc: Global, n: u64) -> Result<String, Fail>
    requires within_limit { n ≤ 1000000 }
{
    let mut shelf = SteadyShelf::new(Vec::new(alloc));
    let mut tape = Tape::seeded(7);
    let Labelled::Labels { labels, cells: _ } = label(alloc, n, &mut tape, &mut shelf) else {
        return Err(Fail::from("no labels"));
    };
    let labels = labels.items();
    let mut sum = 0u64;
    for label in labels {
        sum = sum.wrapping_mul(3).wrapping_add(*label);
    }
    let (count, used) = (labels.len(), tape.used());
    Ok(format!(in alloc; "{count} labels, {used} bits, sum {sum}")?)
}

/// The sum takes three times the sum before for each label, and leaves out multiples of 2^64.
#[test]
fn a_million_labels_are_those_of_an_independent_program(rt: HostRuntime) -> Result<(), Fail> {
    let want = "1000000 labels, 20428145 bits, sum 15460399831429722448";
    assert_eq!(rt; told(rt.alloc(), 1_000_000)?.as_str(), want);
    Ok(())
}

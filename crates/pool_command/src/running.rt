//! The turns of a pool: those that its schedule names, and then those of each drawing until it
//! ends.
ghost use Rattle.std.specs.Prelude.{◌≡◌, ◌≢◌, ℕ, ◌+◌, ◌-◌, ◌<◌, ◌≤◌, [], ◌∷◌, ◌++◌, List, length};
ghost use Rattle.std.specs.Prelude.{replicate, IfOk, OnOk, OnErr, IsSome};
ghost use Rattle.bz_model.specs.Fraction.{IsFractionBits};
ghost use Rattle.session_pool.specs.Interleaving.{shared_setting, how_often};
ghost use Rattle.session_pool.specs.Pool.{ending_at};
ghost use Rattle.pool_command.specs.Schedule.{all_asked, drawings_named};
ghost use Rattle.pool_command.specs.UnderWay.{asked_by, ended_now, moment, Beginning, IsSoFar};
ghost use Rattle.pool_command.specs.UnderWay.{IsPoolRunning, IsBrokenPool, IsEnded, CanAsk};
ghost use Rattle.pool_command.specs.UnderWay.{IsAsked};
ghost use Rattle.pool_command.specs.UnderWay.{IsFinished};

use bit_tape::tape::Tape;
use bz_model::oracle::Oracle;
use bz_model::steps::Steps;
use bz_outside::shelf::Shelf;
use session_pool::pool::Pool;
use session_pool::pooled::Pooled;
use size_window::laws::a_turn_continues_a_trace;
use std::alloc::{AllocError, Global};
use std::sync::ledger::Ledger;
use well_founded::examination::Founded;

/// Makes the turns of a pool until all its drawings have ended, and answers in which order they
/// ended.
///
/// The bytes of the schedule, modulo the number of drawings, name those that are asked for a turn.
/// Then each drawing, least number first, is asked until it has ended.
pub(crate) fn take_turns<const F: u32, O: Oracle<F>, S: Shelf, L: Ledger>(
    alloc: Global,
    founded: &Founded,
    oracle: &mut O,
    pool: &mut Pool,
    count: usize,
    schedule: &[u8],
    shelf: &mut S,
    steps: &mut Steps<L>,
) -> Result<Vec<usize>, AllocError>
    requires fraction_bits { IsFractionBits F }
    requires some { 1 ≤ count }
    requires can { CanAsk founded.now (O.spec oracle.old) (O.x oracle.old) (S.content shelf.old)
        count pool.old }
    ensures ended { IfOk result (λ order. (b : Beginning)
        → IsSoFar b [] (moment (shared_setting (O.spec oracle.old) (O.x oracle.old) F
        (O.table oracle.old)
        (S.content shelf.old))
        (S.faults shelf.old) (O.cost oracle.old) (O.raised oracle.old) steps.old pool.old)
        → IsEnded b schedule.now count
        (moment (shared_setting (O.spec oracle.new) (O.x oracle.new) F (O.table oracle.new)
        (S.content shelf.new))
        (S.faults shelf.new) (O.cost oracle.new) (O.raised oracle.new) steps.new pool.new)
        order.items) }
    ensures broken { OnErr result ((b : Beginning)
        → IsSoFar b [] (moment (shared_setting (O.spec oracle.old) (O.x oracle.old) F
        (O.table oracle.old)
        (S.content shelf.old))
        (S.faults shelf.old) (O.cost oracle.old) (O.raised oracle.old) steps.old pool.old)
        → IsBrokenPool b (moment (shared_setting (O.spec oracle.new) (O.x oracle.new) F
        (O.table oracle.new)
        (S.content shelf.new))
        (S.faults shelf.new) (O.cost oracle.new) (O.raised oracle.new) steps.new pool.new)) }
    ensures can { CanAsk founded.now (O.spec oracle.new) (O.x oracle.new) (S.content shelf.new)
        count pool.new }
    ensures content { S.content shelf.new ≡ S.content shelf.old }
    ensures counts { (name : List ℕ) → S.faults shelf.old name ≤ S.faults shelf.new name }
{
    let mut order = Vec::new(alloc);
    follow(
        founded, oracle, pool, count, schedule, &mut order, shelf, steps,
    )?;
    finish_all(founded, oracle, pool, count, &mut order, shelf, steps)?;
    Ok(order)
}

/// Asks for the turns that a schedule names.
fn follow<const F: u32, O: Oracle<F>, S: Shelf, L: Ledger>(
    founded: &Founded,
    oracle: &mut O,
    pool: &mut Pool,
    count: usize,
    schedule: &[u8],
    order: &mut Vec<usize>,
    shelf: &mut S,
    steps: &mut Steps<L>,
) -> Result<(), AllocError>
    requires fraction_bits { IsFractionBits F }
    requires some { 1 ≤ count }
    requires can { CanAsk founded.now (O.spec oracle.old) (O.x oracle.old) (S.content shelf.old)
        count pool.old }
    ensures under_way { OnOk result ((b : Beginning) (asked : List ℕ)
        → IsPoolRunning b asked (moment
        (shared_setting (O.spec oracle.old) (O.x oracle.old) F (O.table oracle.old)
        (S.content shelf.old))
        (S.faults shelf.old) (O.cost oracle.old) (O.raised oracle.old) steps.old pool.old)
        order.old.items
        → IsPoolRunning b (asked ++ drawings_named count schedule.now)
        (moment (shared_setting (O.spec oracle.new) (O.x oracle.new) F (O.table oracle.new)
        (S.content shelf.new))
        (S.faults shelf.new) (O.cost oracle.new) (O.raised oracle.new) steps.new pool.new)
        order.new.items) }
    ensures broken { OnErr result ((b : Beginning) (asked : List ℕ)
        → IsPoolRunning b asked (moment
        (shared_setting (O.spec oracle.old) (O.x oracle.old) F (O.table oracle.old)
        (S.content shelf.old))
        (S.faults shelf.old) (O.cost oracle.old) (O.raised oracle.old) steps.old pool.old)
        order.old.items
        → IsBrokenPool b (moment (shared_setting (O.spec oracle.new) (O.x oracle.new) F
        (O.table oracle.new)
        (S.content shelf.new))
        (S.faults shelf.new) (O.cost oracle.new) (O.raised oracle.new) steps.new pool.new)) }
    ensures can { CanAsk founded.now (O.spec oracle.new) (O.x oracle.new) (S.content shelf.new)
        count pool.new }
    ensures content { S.content shelf.new ≡ S.content shelf.old }
    ensures counts { (name : List ℕ) → S.faults shelf.old name ≤ S.faults shelf.new name }
{
    for byte in schedule {
        let number = usize::from(*byte) % count;
        ask(founded, oracle, pool, count, number, order, shelf, steps)?;
    }
    Ok(())
}

/// Asks each drawing, least number first, until it has ended.
fn finish_all<const F: u32, O: Oracle<F>, S: Shelf, L: Ledger>(
    founded: &Founded,
    oracle: &mut O,
    pool: &mut Pool,
    count: usize,
    order: &mut Vec<usize>,
    shelf: &mut S,
    steps: &mut Steps<L>,
) -> Result<(), AllocError>
    requires fraction_bits { IsFractionBits F }
    requires can { CanAsk founded.now (O.spec oracle.old) (O.x oracle.old) (S.content shelf.old)
        count pool.old }
    ensures under_way { OnOk result ((b : Beginning) (asked : List ℕ)
        → IsPoolRunning b asked (moment
        (shared_setting (O.spec oracle.old) (O.x oracle.old) F (O.table oracle.old)
        (S.content shelf.old))
        (S.faults shelf.old) (O.cost oracle.old) (O.raised oracle.old) steps.old pool.old)
        order.old.items
        → IsPoolRunning b (all_asked (asked_by pool.new) asked count)
        (moment (shared_setting (O.spec oracle.new) (O.x oracle.new) F (O.table oracle.new)
        (S.content shelf.new))
        (S.faults shelf.new) (O.cost oracle.new) (O.raised oracle.new) steps.new pool.new)
        order.new.items) }
    ensures ended { OnOk result ((number : ℕ) → number < count
        → IsSome (ending_at pool.new number)) }
    ensures broken { OnErr result ((b : Beginning) (asked : List ℕ)
        → IsPoolRunning b asked (moment
        (shared_setting (O.spec oracle.old) (O.x oracle.old) F (O.table oracle.old)
        (S.content shelf.old))
        (S.faults shelf.old) (O.cost oracle.old) (O.raised oracle.old) steps.old pool.old)
        order.old.items
        → IsBrokenPool b (moment (shared_setting (O.spec oracle.new) (O.x oracle.new) F
        (O.table oracle.new)
        (S.content shelf.new))
        (S.faults shelf.new) (O.cost oracle.new) (O.raised oracle.new) steps.new pool.new)) }
    ensures can { CanAsk founded.now (O.spec oracle.new) (O.x oracle.new) (S.content shelf.new)
        count pool.new }
    ensures content { S.content shelf.new ≡ S.content shelf.old }
    ensures counts { (name : List ℕ) → S.faults shelf.old name ≤ S.faults shelf.new name }
{
    for number in 0..count {
        finish(founded, oracle, pool, count, number, order, shelf, steps)?;
    }
    Ok(())
}

/// Asks a drawing until it has ended.
fn finish<const F: u32, O: Oracle<F>, S: Shelf, L: Ledger>(
    founded: &Founded,
    oracle: &mut O,
    pool: &mut Pool,
    count: usize,
    number: usize,
    order: &mut Vec<usize>,
    shelf: &mut S,
    steps: &mut Steps<L>,
) -> Result<(), AllocError>
    requires fraction_bits { IsFractionBits F }
    requires number { number < count }
    requires can { CanAsk founded.now (O.spec oracle.old) (O.x oracle.old) (S.content shelf.old)
        count pool.old }
    ensures under_way { OnOk result ((b : Beginning) (asked : List ℕ)
        → IsPoolRunning b asked (moment
        (shared_setting (O.spec oracle.old) (O.x oracle.old) F (O.table oracle.old)
        (S.content shelf.old))
        (S.faults shelf.old) (O.cost oracle.old) (O.raised oracle.old) steps.old pool.old)
        order.old.items
        → IsPoolRunning b (asked ++ replicate
        (asked_by pool.new number - how_often number asked) number)
        (moment (shared_setting (O.spec oracle.new) (O.x oracle.new) F (O.table oracle.new)
        (S.content shelf.new))
        (S.faults shelf.new) (O.cost oracle.new) (O.raised oracle.new) steps.new pool.new)
        order.new.items) }
    ensures finished { OnOk result (IsFinished pool.old number pool.new) }
    ensures broken { OnErr result ((b : Beginning) (asked : List ℕ)
        → IsPoolRunning b asked (moment
        (shared_setting (O.spec oracle.old) (O.x oracle.old) F (O.table oracle.old)
        (S.content shelf.old))
        (S.faults shelf.old) (O.cost oracle.old) (O.raised oracle.old) steps.old pool.old)
        order.old.items
        → IsBrokenPool b (moment (shared_setting (O.spec oracle.new) (O.x oracle.new) F
        (O.table oracle.new)
        (S.content shelf.new))
        (S.faults shelf.new) (O.cost oracle.new) (O.raised oracle.new) steps.new pool.new)) }
    ensures can { CanAsk founded.now (O.spec oracle.new) (O.x oracle.new) (S.content shelf.new)
        count pool.new }
    ensures content { S.content shelf.new ≡ S.content shelf.old }
    ensures counts { (name : List ℕ) → S.faults shelf.old name ≤ S.faults shelf.new name }
{
    'turns: while pool.result(number).ending.is_none() {
        ask(founded, oracle, pool, count, number, order, shelf, steps)?;
    }
    Ok(())
}

/// Asks a drawing for a turn, and notes its number where it ends by it.
fn ask<const F: u32, O: Oracle<F>, S: Shelf, L: Ledger>(
    founded: &Founded,
    oracle: &mut O,
    pool: &mut Pool,
    count: usize,
    number: usize,
    order: &mut Vec<usize>,
    shelf: &mut S,
    steps: &mut Steps<L>,
) -> Result<(), AllocError>
    requires fraction_bits { IsFractionBits F }
    requires number { number < count }
    requires can { CanAsk founded.now (O.spec oracle.old) (O.x oracle.old) (S.content shelf.old)
        count pool.old }
    ensures under_way { OnOk result ((b : Beginning) (asked : List ℕ)
        → IsPoolRunning b asked (moment
        (shared_setting (O.spec oracle.old) (O.x oracle.old) F (O.table oracle.old)
        (S.content shelf.old))
        (S.faults shelf.old) (O.cost oracle.old) (O.raised oracle.old) steps.old pool.old)
        order.old.items
        → IsPoolRunning b (asked ++ number ∷ [])
        (moment (shared_setting (O.spec oracle.new) (O.x oracle.new) F (O.table oracle.new)
        (S.content shelf.new))
        (S.faults shelf.new) (O.cost oracle.new) (O.raised oracle.new) steps.new pool.new)
        order.new.items) }
    ensures asked { OnOk result (IsAsked pool.old number pool.new) }
    ensures broken { OnErr result ((b : Beginning) (asked : List ℕ)
        → IsPoolRunning b asked (moment
        (shared_setting (O.spec oracle.old) (O.x oracle.old) F (O.table oracle.old)
        (S.content shelf.old))
        (S.faults shelf.old) (O.cost oracle.old) (O.raised oracle.old) steps.old pool.old)
        order.old.items
        → IsBrokenPool b (moment (shared_setting (O.spec oracle.new) (O.x oracle.new) F
        (O.table oracle.new)
        (S.content shelf.new))
        (S.faults shelf.new) (O.cost oracle.new) (O.raised oracle.new) steps.new pool.new)) }
    ensures can { CanAsk founded.now (O.spec oracle.new) (O.x oracle.new) (S.content shelf.new)
        count pool.new }
    ensures content { S.content shelf.new ≡ S.content shelf.old }
    ensures counts { (name : List ℕ) → S.faults shelf.old name ≤ S.faults shelf.new name }
{
    if turn_once(founded, oracle, pool, count, number, shelf, steps)? {
        order.push(number)?;
    }
    Ok(())
}

/// Makes a turn of a drawing, and answers whether it ended by it. One that had ended stays as it
/// was.
fn turn_once<const F: u32, O: Oracle<F>, S: Shelf, L: Ledger>(
    founded: &Founded,
    oracle: &mut O,
    pool: &mut Pool,
    count: usize,
    number: usize,
    shelf: &mut S,
    steps: &mut Steps<L>,
) -> Result<bool, AllocError>
    requires fraction_bits { IsFractionBits F }
    requires number { number < count }
    requires can { CanAsk founded.now (O.spec oracle.old) (O.x oracle.old) (S.content shelf.old)
        count pool.old }
    ensures so_far { OnOk result ((b : Beginning) (asked : List ℕ)
        → IsSoFar b asked (moment (shared_setting (O.spec oracle.old) (O.x oracle.old) F
        (O.table oracle.old) (S.content shelf.old))
        (S.faults shelf.old) (O.cost oracle.old) (O.raised oracle.old) steps.old pool.old)
        → IsSoFar b (asked ++ number ∷ [])
        (moment (shared_setting (O.spec oracle.new) (O.x oracle.new) F (O.table oracle.new)
        (S.content shelf.new))
        (S.faults shelf.new) (O.cost oracle.new) (O.raised oracle.new) steps.new pool.new)) }
    ensures asked { OnOk result (IsAsked pool.old number pool.new) }
    ensures ends { IfOk result (λ ends. ends
        ≡ ended_now (ending_at pool.old number) (ending_at pool.new number)) }
    ensures no_memory { OnErr result ((b : Beginning) (asked : List ℕ)
        → IsSoFar b asked (moment (shared_setting (O.spec oracle.old) (O.x oracle.old) F
        (O.table oracle.old) (S.content shelf.old))
        (S.faults shelf.old) (O.cost oracle.old) (O.raised oracle.old) steps.old pool.old)
        → IsSoFar b asked (moment (shared_setting (O.spec oracle.new) (O.x oracle.new) F
        (O.table oracle.new) (S.content shelf.new))
        (S.faults shelf.new) (O.cost oracle.new) (O.raised oracle.new) steps.new pool.new)) }
    ensures can { CanAsk founded.now (O.spec oracle.new) (O.x oracle.new) (S.content shelf.new)
        count pool.new }
    ensures content { S.content shelf.new ≡ S.content shelf.old }
    ensures counts { (name : List ℕ) → S.faults shelf.old name ≤ S.faults shelf.new name }
{
    a_turn_continues_a_trace();
    let had_ended = pool.result(number).ending.is_some();
    match pool.turn(number, founded, oracle, shelf, steps) {
        Pooled::Going => Ok(false),
        Pooled::Finished => Ok(!had_ended),
        Pooled::OutOfMemory => Err(AllocError),
    }
}

//! The command `chance`: bounds of the chance of an object.
ghost use Rattle.std.specs.Prelude.{◌≡◌, ◌≢◌, ℕ, ◌+◌, ◌^◌, ◌<◌, ◌≤◌, ◌⊎◌, List, [], ◌∷◌, length};
ghost use Rattle.std.specs.Prelude.{Some, IfOk, string_bytes};
ghost use Rattle.bz_model.specs.Fraction.{ratio, IsFractionBits};
ghost use Rattle.bz_model.specs.Oracle.{Encloses};
ghost use Rattle.bz_model.specs.Spec.{body_of};
ghost use Rattle.bz_outside.specs.Outside.{Rose, Appends};
ghost use Rattle.object_store.specs.Tokens.{IsOf};
ghost use Rattle.oracle_memo.specs.Levels.{level_bounds, cost_at};
ghost use Rattle.command_words.specs.Fractions.{fraction_bits};
ghost use Rattle.rounded_map.specs.RoundedMap.{setting, IsPostFixed};
ghost use Rattle.call_stages.specs.Ends.{EndsBy, output};
ghost use Rattle.call_stages.specs.Outcomes.{MaySay};
ghost use Rattle.call_stages.specs.Stages.{files, AreCalm};
ghost use Rattle.call_stages.specs.declared.status.Status.{Status};
ghost use Rattle.chance_command.specs.ChanceCommand.{chance_text, AreBoundsOver, Weighed};
ghost use Rattle.chance_command.specs.ChanceCommand.{WeighedAt, ReadAndWeighed, CarriesChance};

use bz_model::cell::Bounds;
use bz_model::fraction::Fraction;
use bz_model::oracle::Oracle;
use bz_model::steps::Steps;
use bz_outside::shelf::Shelf;
use bz_outside::sink::Sink;
use bz_outside::word::Word;
use call_stages::at_fraction;
use call_stages::report::{refused, written};
use call_stages::stages::{based, specified};
use call_stages::status::Status;
use chance_law::chance::chance as chance_of;
use chance_law::line::chance_line;
use chance_law::scaled::ChanceBounds;
use class_system::ids::ClassId;
use command_words::command::FractionBits;
use newton_upper::Base;
use object_stage::stage::object_read;
use object_store::shape::Shape;
use oracle_memo::Memo;
use std::alloc::{AllocError, Global};
use std::sync::ledger::Ledger;
use well_founded::examination::Founded;

/// The level whose bounds are taken, the last one.
const LEVEL: u8 = 6;

/// Reads a specification and judges it, reads an object of its first class, searches a base at `x`,
/// and prints bounds of the chance of the object.
pub fn chance<S: Shelf, K: Sink, L: Ledger>(
    alloc: Global,
    file: &Word,
    x: Fraction,
    object: &Word,
    fraction: FractionBits,
    shelf: &mut S,
    out: &mut K,
    steps: &mut Steps<L>,
) -> Status
    ensures ends { EndsBy (CarriesChance (files (S.content shelf.old) (S.faults shelf.old)
        (S.faults shelf.new)) file.now x object.now (fraction_bits fraction))
        (output (K.written out.old) (K.written out.new) (K.faults out.old) (K.faults out.new)
        steps.old steps.new) result }
    ensures exact { (status : Status) (text : List ℕ) (ticks : ℕ)
        → AreCalm (files (S.content shelf.old) (S.faults shelf.old) (S.faults shelf.new))
        (file.now ∷ object.now ∷ [])
        → CarriesChance (files (S.content shelf.old) (S.faults shelf.old) (S.faults shelf.new))
        file.now x object.now (fraction_bits fraction) status text ticks
        → status ≢ Status.OutOfMemory → ¬ (Rose (K.faults out.old) (K.faults out.new))
        → (result ≡ Status.OutOfMemory)
        ⊎ ((result ≡ status) × Appends (K.written out.old) (K.written out.new) text) }
    ensures content { S.content shelf.new ≡ S.content shelf.old }
    ensures counts { (name : List ℕ) → S.faults shelf.old name ≤ S.faults shelf.new name }
    ensures writes { K.faults out.old ≤ K.faults out.new }
{
    match specified(alloc, file, shelf) {
        Ok(founded) => read_and_weighed(alloc, &founded, x, object, fraction, shelf, out, steps),
        Err(refusal) => refused(out, &refusal),
    }
}

/// Reads an object of the specification's first class, and weighs it at `x`.
///
/// In `ends` the counts of failed reads before the call may be those of an earlier time.
fn read_and_weighed<S: Shelf, K: Sink, L: Ledger>(
    alloc: Global,
    founded: &Founded,
    x: Fraction,
    object: &Word,
    fraction: FractionBits,
    shelf: &mut S,
    out: &mut K,
    steps: &mut Steps<L>,
) -> Status
    ensures ends { (before : List ℕ → ℕ)
        → ((name : List ℕ) → before name ≤ S.faults shelf.old name)
        → EndsBy (ReadAndWeighed (files (S.content shelf.old) before (S.faults shelf.new))
        object.now (setting founded.now x.num x.den (fraction_bits fraction)))
        (output (K.written out.old) (K.written out.new) (K.faults out.old) (K.faults out.new)
        steps.old steps.new) result }
    ensures content { S.content shelf.new ≡ S.content shelf.old }
    ensures counts { (name : List ℕ) → S.faults shelf.old name ≤ S.faults shelf.new name }
    ensures writes { K.faults out.old ≤ K.faults out.new }
{
    match object_read(alloc, founded, object, shelf) {
        Ok(read) => weighed_at(alloc, founded, x, &read.shape, fraction, out, steps),
        Err(refusal) => refused(out, &refusal),
    }
}

/// Searches a base of the specification, and weighs the object over it, in units of `2^-fraction`.
fn weighed_at<K: Sink, L: Ledger>(
    alloc: Global,
    founded: &Founded,
    x: Fraction,
    shape: &Shape,
    fraction: FractionBits,
    out: &mut K,
    steps: &mut Steps<L>,
) -> Status
    requires is_of { IsOf founded.now 0 shape.now.items }
    requires few { length shape.now.items < 2 ^ 32 }
    ensures ends { EndsBy (WeighedAt (setting founded.now x.num x.den (fraction_bits fraction))
        shape.now.items)
        (output (K.written out.old) (K.written out.new) (K.faults out.old) (K.faults out.new)
        steps.old steps.new) result }
    ensures writes { K.faults out.old ≤ K.faults out.new }
{
    at_fraction!(fraction, weighed [K, L] (alloc, founded, x, shape, out, steps))
}

/// Searches a base of the specification, and weighs the object over it, in units of `2^-F`.
fn weighed<const F: u32, K: Sink, L: Ledger>(
    alloc: Global,
    founded: &Founded,
    x: Fraction,
    shape: &Shape,
    out: &mut K,
    steps: &mut Steps<L>,
) -> Status
    requires fraction_bits { IsFractionBits F }
    requires is_of { IsOf founded.now 0 shape.now.items }
    requires few { length shape.now.items < 2 ^ 32 }
    ensures ends { EndsBy (WeighedAt (setting founded.now x.num x.den F) shape.now.items)
        (output (K.written out.old) (K.written out.new) (K.faults out.old) (K.faults out.new)
        steps.old steps.new) result }
    ensures writes { K.faults out.old ≤ K.faults out.new }
{
    match based::<F, L>(alloc, founded, x, steps) {
        Ok(base) => weighed_over::<F, K, L>(alloc, founded, x, base, shape, out, steps),
        Err(refusal) => refused(out, &refusal),
    }
}

/// Weighs the object over a base, and prints the bounds of its chance.
fn weighed_over<const F: u32, K: Sink, L: Ledger>(
    alloc: Global,
    founded: &Founded,
    x: Fraction,
    base: Base<F>,
    shape: &Shape,
    out: &mut K,
    steps: &mut Steps<L>,
) -> Status
    requires fraction_bits { IsFractionBits F }
    requires post_fixed { IsPostFixed (setting founded.now x.num x.den F) base }
    requires is_of { IsOf founded.now 0 shape.now.items }
    requires few { length shape.now.items < 2 ^ 32 }
    ensures ends { EndsBy (Weighed (setting founded.now x.num x.den F) shape.now.items base.entry)
        (output (K.written out.old) (K.written out.new) (K.faults out.old) (K.faults out.new)
        steps.old steps.new) result }
    ensures writes { K.faults out.old ≤ K.faults out.new }
{
    match bounds_over::<F, L>(alloc, founded, x, base, shape, steps) {
        Ok(bounds) => printed(alloc, bounds, out),
        Err(_) => Status::OutOfMemory,
    }
}

/// Bounds of the chance of the object over the bounds of level 6.
fn bounds_over<const F: u32, L: Ledger>(
    alloc: Global,
    founded: &Founded,
    x: Fraction,
    base: Base<F>,
    shape: &Shape,
    steps: &mut Steps<L>,
) -> Result<ChanceBounds, AllocError>
    requires fraction_bits { IsFractionBits F }
    requires post_fixed { IsPostFixed (setting founded.now x.num x.den F) base }
    requires is_of { IsOf founded.now 0 shape.now.items }
    requires few { length shape.now.items < 2 ^ 32 }
    ensures bounds { IfOk result (AreBoundsOver (setting founded.now x.num x.den F) base.entry
        shape.now.items) }
    ensures ticks { steps.new ≤ steps.old + cost_at 6 }
{
    let root = root_bounds::<F, L>(alloc, founded, x, base, steps)?;
    chance_of::<F>(founded, x, root, shape)
}

/// The bounds of level 6 of the body of the first class.
fn root_bounds<const F: u32, L: Ledger>(
    alloc: Global,
    founded: &Founded,
    x: Fraction,
    base: Base<F>,
    steps: &mut Steps<L>,
) -> Result<Bounds, AllocError>
    requires fraction_bits { IsFractionBits F }
    requires post_fixed { IsPostFixed (setting founded.now x.num x.den F) base }
    ensures bounds { IfOk result (λ root. (body : ℕ) → body_of founded.now 0 ≡ Some body
        → root ≡ level_bounds (setting founded.now x.num x.den F) base.entry 6 body) }
    ensures encloses { IfOk result (λ root. (body : ℕ) → body_of founded.now 0 ≡ Some body
        → Encloses founded.now (ratio x.num x.den) F body root) }
    ensures some { IfOk result (λ root. 0 < root.hi) }
    ensures ticks { steps.new ≤ steps.old + cost_at 6 }
{
    let system = founded.system();
    system.known();
    let mut memo = Memo::make(alloc, founded, x, base)?;
    memo.raise_to::<L>(LEVEL, steps);
    memo.known();
    match memo.bounds(system.body(ClassId(0)).0, LEVEL) {
        Some(root) => Ok(root),
        None => unreachable!(),
    }
}

/// Prints the bounds of a chance.
fn printed<K: Sink>(alloc: Global, bounds: ChanceBounds, out: &mut K) -> Status
    ensures ends { EndsBy (MaySay Status.Done (chance_text bounds) 0)
        (output (K.written out.old) (K.written out.new) (K.faults out.old) (K.faults out.new) 0 0)
        result }
    ensures writes { K.faults out.old ≤ K.faults out.new }
{
    match lines(alloc, bounds) {
        Ok(text) => written(out, Status::Done, text.as_bytes()),
        Err(_) => Status::OutOfMemory,
    }
}

/// The line of the bounds, and the last line.
fn lines(alloc: Global, bounds: ChanceBounds) -> Result<String, AllocError>
    ensures { IfOk result (λ text. string_bytes text ≡ chance_text bounds) }
{
    let mut text = chance_line(alloc, bounds)?;
    text.push_str("end done\n")?;
    Ok(text)
}

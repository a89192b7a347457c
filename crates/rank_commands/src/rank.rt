//! The command `rank`: the rank of an object among those of its size.
ghost use Rattle.std.specs.Prelude.{◌≡◌, ℕ, ◌≤◌, List, None, IfOk, IfErr, string_bytes};
ghost use Rattle.bz_model.specs.Spec as model;
ghost use Rattle.object_store.specs.Tokens.{size_of, IsOf};
ghost use Rattle.rank_tables.specs.Refusals.{HasPlainRanges};
ghost use Rattle.rank_tables.specs.Tables.{AreCounts};
ghost use Rattle.call_stages.specs.Ends.{EndsBy, output};
ghost use Rattle.call_stages.specs.Outcomes.{Never};
ghost use Rattle.call_stages.specs.Reports.{refusal_status, refusal_text};
ghost use Rattle.call_stages.specs.Stages.{files};
ghost use Rattle.call_stages.specs.declared.status.Status.{Status};
ghost use Rattle.rank_commands.specs.RankStages.{SizeJudged};
ghost use Rattle.rank_commands.specs.RankCommand.{rank_text, RankPrinted, ObjectRanked, RankedIn};
ghost use Rattle.rank_commands.specs.RankCommand.{CarriesRank};

use crate::refusals::size_refusal;
use crate::stages::{rankable, tables_up_to};
use bz_outside::shelf::Shelf;
use bz_outside::sink::Sink;
use bz_outside::word::Word;
use call_stages::report::{Refusal, refused, written};
use call_stages::stages::specified;
use call_stages::status::Status;
use class_system::ids::ClassId;
use object_stage::stage::object_read;
use object_store::shape::Shape;
use rank_tables::rank_tables::RankTables;
use std::alloc::{AllocError, Global};
use well_founded::examination::Founded;

/// The greatest size up to which objects are counted.
const MOST_ATOMS: u64 = 500;

/// Reads a specification, judges it, reads an object of its first class, and prints the object's
/// rank.
///
/// Labels and ranges are refused before the object is read. Its size is the greatest one counted.
pub fn rank<S: Shelf, K: Sink>(
    alloc: Global,
    file: &Word,
    object: &Word,
    shelf: &mut S,
    out: &mut K,
) -> Status
    ensures ends { (ticks : ℕ) → EndsBy
        (CarriesRank (files (S.content shelf.old) (S.faults shelf.old) (S.faults shelf.new))
        file.now object.now) (output (K.written out.old) (K.written out.new) (K.faults out.old)
        (K.faults out.new) ticks ticks) result }
    ensures content { S.content shelf.new ≡ S.content shelf.old }
    ensures counts { (name : List ℕ) → S.faults shelf.old name ≤ S.faults shelf.new name }
    ensures writes { K.faults out.old ≤ K.faults out.new }
{
    match page(alloc, file, object, shelf) {
        Ok(page) => written(out, Status::Done, page.as_slice()),
        Err(refusal) => refused(out, &refusal),
    }
}

/// What is printed of a specification and an object that are read from files.
fn page<S: Shelf>(
    alloc: Global,
    file: &Word,
    object: &Word,
    shelf: &mut S,
) -> Result<Vec<u8>, Refusal>
    ensures ok { IfOk result (λ page. CarriesRank
        (files (S.content shelf.old) (S.faults shelf.old) (S.faults shelf.new)) file.now object.now
        Status.Done page.items 0) }
    ensures err { IfErr result (λ e. CarriesRank
        (files (S.content shelf.old) (S.faults shelf.old) (S.faults shelf.new)) file.now object.now
        (refusal_status e) (refusal_text e) 0) }
    ensures content { S.content shelf.new ≡ S.content shelf.old }
    ensures counts { (name : List ℕ) → S.faults shelf.old name ≤ S.faults shelf.new name }
{
    match specified(alloc, file, shelf) {
        Ok(founded) => ranked(alloc, &founded, object, shelf),
        Err(refusal) => Err(refusal),
    }
}

/// What is printed of a specification: labels and ranges are refused, and then the object is read.
///
/// The counts of failed reads before the call may be those of an earlier time.
fn ranked<S: Shelf>(
    alloc: Global,
    founded: &Founded,
    object: &Word,
    shelf: &mut S,
) -> Result<Vec<u8>, Refusal>
    ensures ok { IfOk result (λ page. (before : List ℕ → ℕ)
        → ((name : List ℕ) → before name ≤ S.faults shelf.old name)
        → RankedIn (files (S.content shelf.old) before (S.faults shelf.new)) object.now founded.now
        Status.Done page.items 0) }
    ensures err { IfErr result (λ e. (before : List ℕ → ℕ)
        → ((name : List ℕ) → before name ≤ S.faults shelf.old name)
        → RankedIn (files (S.content shelf.old) before (S.faults shelf.new)) object.now founded.now
        (refusal_status e) (refusal_text e) 0) }
    ensures content { S.content shelf.new ≡ S.content shelf.old }
    ensures counts { (name : List ℕ) → S.faults shelf.old name ≤ S.faults shelf.new name }
{
    rankable(alloc, founded)?;
    match object_read(alloc, founded, object, shelf) {
        Ok(read) => object_ranked(alloc, founded, &read.shape),
        Err(refusal) => Err(refusal),
    }
}

/// What is printed of an object: its size is judged, tables are made up to it, and its rank is
/// taken.
fn object_ranked(alloc: Global, founded: &Founded, shape: &Shape) -> Result<Vec<u8>, Refusal>
    requires unlabelled { founded.now.mode ≡ model.Mode.Unlabelled }
    requires plain { HasPlainRanges founded.now }
    requires object { IsOf founded.now 0 shape.now.items }
    ensures ok { IfOk result (λ page.
        ObjectRanked founded.now shape.now.items None Status.Done page.items 0) }
    ensures err { IfErr result (λ e.
        ObjectRanked founded.now shape.now.items None (refusal_status e) (refusal_text e) 0) }
{
    let size = judged_size(alloc, shape)?;
    let tables = tables_up_to(alloc, founded, size)?;
    Ok(rank_of(alloc, founded, &tables, shape)?)
}

/// The size of an object, where it is counted.
#[tactic(auto, using(crate::proofs::Staging::size_refused, crate::proofs::Staging::size_lacks_memory))]
fn judged_size(alloc: Global, shape: &Shape) -> Result<u64, Refusal>
    ensures size { IfOk result (λ size. size ≡ size_of shape.now.items) }
    ensures small { IfOk result (λ size. size ≤ 500) }
    ensures err { IfErr result (λ e.
        SizeJudged shape.now.items Never (refusal_status e) (refusal_text e) 0) }
{
    let size = shape.size();
    if size > MOST_ATOMS {
        return Err(Refusal::Reported(size_refusal(alloc, size)?));
    }
    Ok(size)
}

/// The rank of an object among those of its size, how many there are, and the last line.
fn rank_of(
    alloc: Global,
    founded: &Founded,
    tables: &RankTables,
    shape: &Shape,
) -> Result<Vec<u8>, AllocError>
    requires tables { AreCounts founded.now (size_of shape.now.items) tables.now }
    requires object { IsOf founded.now 0 shape.now.items }
    ensures { IfOk result (λ text.
        RankPrinted founded.now shape.now.items Status.Done text.items 0) }
{
    let system = founded.system();
    system.known();
    let rank = tables.rank(founded, shape)?;
    let count = tables.count(system.body(ClassId(0)), shape.size());
    let text = line_of_rank(alloc, rank, count)?;
    Ok(text.into_bytes())
}

/// The line of a rank among so many objects, and the last line.
fn line_of_rank(alloc: Global, rank: u128, count: u128) -> Result<String, AllocError>
    ensures { IfOk result (λ text. string_bytes text ≡ rank_text rank count) }
{
    format!(in alloc; "rank {rank} of {count}\nend done\n")
}

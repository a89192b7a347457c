//! The command `unrank`: the object of a size that has a rank.
ghost use Rattle.std.specs.Prelude.{◌≡◌, ℕ, ◌≤◌, ◌++◌, List, [], IfOk, IfErr};
ghost use Rattle.bz_model.specs.Spec as model;
ghost use Rattle.object_store.specs.Tokens.{IsOf};
ghost use Rattle.rank_tables.specs.Tables.{AreCounts};
ghost use Rattle.call_stages.specs.Ends.{EndsBy, output};
ghost use Rattle.call_stages.specs.Reports.{refusal_status, refusal_text};
ghost use Rattle.call_stages.specs.Stages.{files};
ghost use Rattle.call_stages.specs.declared.status.Status.{Status};
ghost use Rattle.rank_commands.specs.UnrankCommand.{object_page, ObjectOfRank, Unranked};
ghost use Rattle.rank_commands.specs.UnrankCommand.{CarriesUnrank};

use crate::refusals::number_refusal;
use crate::stages::tables_up_to;
use bz_outside::shelf::Shelf;
use bz_outside::sink::Sink;
use bz_outside::word::Word;
use call_stages::report::{Refusal, refused, written};
use call_stages::stages::specified;
use call_stages::status::Status;
use class_system::ids::ClassId;
use object_store::shape::Shape;
use object_text::print::print_in;
use rank_tables::rank_tables::RankTables;
use std::alloc::{AllocError, Global};
use well_founded::examination::Founded;

/// Reads a specification, judges it, and prints the object of its first class with this size and
/// rank.
pub fn unrank<S: Shelf, K: Sink>(
    alloc: Global,
    file: &Word,
    n: u64,
    number: u128,
    shelf: &mut S,
    out: &mut K,
) -> Status
    requires greatest { n ≤ 500 }
    ensures ends { (ticks : ℕ) → EndsBy
        (CarriesUnrank (files (S.content shelf.old) (S.faults shelf.old) (S.faults shelf.new))
        file.now n number) (output (K.written out.old) (K.written out.new) (K.faults out.old)
        (K.faults out.new) ticks ticks) result }
    ensures content { S.content shelf.new ≡ S.content shelf.old }
    ensures counts { (name : List ℕ) → S.faults shelf.old name ≤ S.faults shelf.new name }
    ensures writes { K.faults out.old ≤ K.faults out.new }
{
    match page(alloc, file, n, number, shelf) {
        Ok(page) => written(out, Status::Done, page.as_slice()),
        Err(refusal) => refused(out, &refusal),
    }
}

/// What is printed of a specification that is read from a file.
fn page<S: Shelf>(
    alloc: Global,
    file: &Word,
    n: u64,
    number: u128,
    shelf: &mut S,
) -> Result<Vec<u8>, Refusal>
    requires greatest { n ≤ 500 }
    ensures ok { IfOk result (λ page. CarriesUnrank
        (files (S.content shelf.old) (S.faults shelf.old) (S.faults shelf.new)) file.now n number
        Status.Done page.items 0) }
    ensures err { IfErr result (λ e. CarriesUnrank
        (files (S.content shelf.old) (S.faults shelf.old) (S.faults shelf.new)) file.now n number
        (refusal_status e) (refusal_text e) 0) }
    ensures content { S.content shelf.new ≡ S.content shelf.old }
    ensures counts { (name : List ℕ) → S.faults shelf.old name ≤ S.faults shelf.new name }
{
    match specified(alloc, file, shelf) {
        Ok(founded) => unranked(alloc, &founded, n, number),
        Err(refusal) => Err(refusal),
    }
}

/// What is printed of a specification: its tables are made, and the object is made by them.
fn unranked(alloc: Global, founded: &Founded, n: u64, number: u128) -> Result<Vec<u8>, Refusal>
    requires greatest { n ≤ 500 }
    ensures ok { IfOk result (λ page. Unranked n number founded.now Status.Done page.items 0) }
    ensures err { IfErr result (λ e.
        Unranked n number founded.now (refusal_status e) (refusal_text e) 0) }
{
    let tables = tables_up_to(alloc, founded, n)?;
    object_of_rank(alloc, founded, &tables, n, number)
}

/// The text of the object of the first class with this size and rank, and the last line.
fn object_of_rank(
    alloc: Global,
    founded: &Founded,
    tables: &RankTables,
    n: u64,
    number: u128,
) -> Result<Vec<u8>, Refusal>
    requires tables { AreCounts founded.now n tables.now }
    ensures ok { IfOk result (λ page.
        ObjectOfRank founded.now n number Status.Done page.items 0) }
    ensures err { IfErr result (λ e.
        ObjectOfRank founded.now n number (refusal_status e) (refusal_text e) 0) }
{
    let system = founded.system();
    system.known();
    if number >= tables.count(system.body(ClassId(0)), n) {
        return Err(Refusal::Reported(number_refusal(alloc)?));
    }
    let shape = tables.unrank(founded, n, number)?;
    Ok(printed_object(alloc, founded, &shape)?)
}

/// The text of an object of the first class, and the last line.
fn printed_object(alloc: Global, founded: &Founded, shape: &Shape) -> Result<Vec<u8>, AllocError>
    requires unlabelled { founded.now.mode ≡ model.Mode.Unlabelled }
    requires is_of { IsOf founded.now 0 shape.now.items }
    ensures text { IfOk result (λ text. (of : IsOf founded.now 0 shape.now.items)
        → text.items ≡ object_page founded.now of.body of.object of.belongs) }
{
    let system = founded.system();
    system.known();
    let mut text = print_in(alloc, system, ClassId(0), shape)?;
    text.extend_from_slice(b"\nend done\n")?;
    Ok(text)
}

//! The command `count`: how many objects of each size there are.
ghost use Rattle.std.specs.Prelude.{◌≡◌, ℕ, ◌<◌, ◌≤◌, ◌++◌, List, IfOk, IfErr, OnOk, string_bytes};
ghost use Rattle.rank_tables.specs.Tables.{AreCounts, count_told};
ghost use Rattle.call_stages.specs.Ends.{EndsBy, output};
ghost use Rattle.call_stages.specs.Lines.{lines_below};
ghost use Rattle.call_stages.specs.Reports.{refusal_status, refusal_text};
ghost use Rattle.call_stages.specs.Stages.{files};
ghost use Rattle.call_stages.specs.declared.status.Status.{Status};
ghost use Rattle.rank_commands.specs.CountCommand.{size_line, CountsPrinted, CountedTo};
ghost use Rattle.rank_commands.specs.CountCommand.{CarriesCount};

use crate::stages::tables_up_to;
use bz_outside::shelf::Shelf;
use bz_outside::sink::Sink;
use bz_outside::word::Word;
use call_stages::report::{Refusal, refused, written};
use call_stages::stages::specified;
use call_stages::status::Status;
use class_system::ids::{ClassId, ExprId};
use rank_tables::rank_tables::RankTables;
use std::alloc::{AllocError, Global};
use well_founded::examination::Founded;

/// Reads a specification, judges it, and prints the counts of its first class for the sizes up to
/// `n`.
pub fn count<S: Shelf, K: Sink>(
    alloc: Global,
    file: &Word,
    n: u64,
    shelf: &mut S,
    out: &mut K,
) -> Status
    requires greatest { n ≤ 500 }
    ensures ends { (ticks : ℕ) → EndsBy
        (CarriesCount (files (S.content shelf.old) (S.faults shelf.old) (S.faults shelf.new))
        file.now n) (output (K.written out.old) (K.written out.new) (K.faults out.old)
        (K.faults out.new) ticks ticks) result }
    ensures content { S.content shelf.new ≡ S.content shelf.old }
    ensures counts { (name : List ℕ) → S.faults shelf.old name ≤ S.faults shelf.new name }
    ensures writes { K.faults out.old ≤ K.faults out.new }
{
    match page(alloc, file, n, shelf) {
        Ok(page) => written(out, Status::Done, page.as_slice()),
        Err(refusal) => refused(out, &refusal),
    }
}

/// What is printed of a specification that is read from a file.
fn page<S: Shelf>(alloc: Global, file: &Word, n: u64, shelf: &mut S) -> Result<Vec<u8>, Refusal>
    requires greatest { n ≤ 500 }
    ensures ok { IfOk result (λ page. CarriesCount
        (files (S.content shelf.old) (S.faults shelf.old) (S.faults shelf.new)) file.now n
        Status.Done page.items 0) }
    ensures err { IfErr result (λ e. CarriesCount
        (files (S.content shelf.old) (S.faults shelf.old) (S.faults shelf.new)) file.now n
        (refusal_status e) (refusal_text e) 0) }
    ensures content { S.content shelf.new ≡ S.content shelf.old }
    ensures counts { (name : List ℕ) → S.faults shelf.old name ≤ S.faults shelf.new name }
{
    match specified(alloc, file, shelf) {
        Ok(founded) => counted(alloc, &founded, n),
        Err(refusal) => Err(refusal),
    }
}

/// What is printed of a specification: its tables are made, and the counts of its first class are
/// taken.
fn counted(alloc: Global, founded: &Founded, n: u64) -> Result<Vec<u8>, Refusal>
    requires greatest { n ≤ 500 }
    ensures ok { IfOk result (λ page. CountedTo n founded.now Status.Done page.items 0) }
    ensures err { IfErr result (λ e.
        CountedTo n founded.now (refusal_status e) (refusal_text e) 0) }
{
    let tables = tables_up_to(alloc, founded, n)?;
    Ok(counts(alloc, founded, &tables, n)?)
}

/// The counts of the first class for the sizes up to `n`, and the last line.
fn counts(
    alloc: Global,
    founded: &Founded,
    tables: &RankTables,
    n: u64,
) -> Result<Vec<u8>, AllocError>
    requires greatest { n ≤ 500 }
    requires tables { AreCounts founded.now n tables.now }
    ensures { IfOk result (λ text. CountsPrinted founded.now n Status.Done text.items 0) }
{
    let system = founded.system();
    system.known();
    let mut text = Vec::new(alloc);
    append_counts(alloc, tables, system.body(ClassId(0)), n + 1, &mut text)?;
    text.extend_from_slice(b"end done\n")?;
    Ok(text)
}

/// Appends the lines of the first sizes of a node.
#[tactic(auto, using(call_stages::proofs::LinesBelow::below_start, call_stages::proofs::LinesBelow::below_more))]
fn append_counts(
    alloc: Global,
    tables: &RankTables,
    node: ExprId,
    sizes: u64,
    text: &mut Vec<u8>,
) -> Result<(), AllocError>
    requires node { node.0 < tables.now.counts.nodes }
    requires sizes { sizes ≤ tables.now.counts.sizes }
    ensures { OnOk result (text.new.items
        ≡ text.old.items ++ lines_below (size_line (count_told tables.now node.0)) sizes) }
{
    for size in 0..sizes {
        let line = line_of_size(alloc, size, tables.count(node, size))?;
        text.extend_from_slice(line.as_bytes())?;
    }
    Ok(())
}

/// The line of a size with this count.
fn line_of_size(alloc: Global, size: u64, count: u128) -> Result<String, AllocError>
    ensures { IfOk result (λ line. string_bytes line ≡ size_line (λ n. count) size) }
{
    format!(in alloc; "size {size} {count}\n")
}

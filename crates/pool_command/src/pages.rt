//! The text of a pool whose drawings have ended.
ghost use Rattle.std.specs.Prelude.{◌≡◌, ℕ, ◌<◌, ◌≤◌, ◌++◌, List, length, map, slice_get, flat_map};
ghost use Rattle.std.specs.Prelude.{codes, IfOk, OnOk, string_bytes};
ghost use Rattle.std.specs.List.{All};
ghost use Rattle.object_store.specs.Tokens.{IsOf};
ghost use Rattle.size_window.specs.Turn.{EntryHasLabels, entry_of};
ghost use Rattle.session_pool.specs.Member.{counts_of};
ghost use Rattle.session_pool.specs.Pool.{ending_at};
ghost use Rattle.call_stages.specs.Refusals.{number_field};
ghost use Rattle.call_stages.specs.declared.status.Status as status;
ghost use Rattle.sample_command.specs.Drawn.{Lists};
ghost use Rattle.pool_command.specs.PoolCommand as printed;
ghost use Rattle.pool_command.specs.Pages.{told_session, closing_of_member, status_by};
ghost use Rattle.pool_command.specs.Pages.{AreLinesOfMember, AreAppended, AllCanPrint};

use call_stages::status::Status;
use certificate::write::append_closing;
use sample_command::entries::{append_entry, closing_of, status_of};
use session_pool::pool::Pool;
use size_window::turned::Entry;
use std::alloc::{AllocError, Global};
use well_founded::examination::Founded;

/// The text of a pool whose drawings ended in this order, after the lines of its header.
pub(crate) fn page(
    alloc: Global,
    founded: &Founded,
    pool: &Pool,
    count: usize,
    order: &[usize],
    header: Vec<u8>,
) -> Result<Vec<u8>, AllocError>
    requires number { count ≤ length pool.now }
    requires printable { AllCanPrint founded.now pool.now }
    ensures { IfOk result (λ text. (sessions : List ℕ)
        × AreAppended founded.now pool.now count header.items sessions
        × (text.items ≡ sessions ++ (printed.order_line order.now ++ printed.pool_end_line))) }
{
    let mut text = header;
    append_sessions(alloc, founded, pool, count, &mut text)?;
    let last = order_and_end(alloc, order)?;
    text.extend_from_slice(last.as_bytes())?;
    Ok(text)
}

/// Appends the lines of all drawings.
fn append_sessions(
    alloc: Global,
    founded: &Founded,
    pool: &Pool,
    count: usize,
    text: &mut Vec<u8>,
) -> Result<(), AllocError>
    requires number { count ≤ length pool.now }
    requires printable { AllCanPrint founded.now pool.now }
    ensures { OnOk result
        (AreAppended founded.now pool.now count text.old.items text.new.items) }
{
    for number in 0..count {
        append_session(alloc, founded, pool, number, text)?;
    }
    Ok(())
}

/// Appends the lines of a drawing: its number, its entries, and its closing where it has ended.
fn append_session(
    alloc: Global,
    founded: &Founded,
    pool: &Pool,
    number: usize,
    text: &mut Vec<u8>,
) -> Result<(), AllocError>
    requires number { number < length pool.now }
    requires printable { AllCanPrint founded.now pool.now }
    ensures { OnOk result ((lines : List ℕ)
        × AreLinesOfMember founded.now (slice_get pool.now number) lines
        × (text.new.items ≡ text.old.items ++ told_session pool.now number lines)) }
{
    let first = session_line(alloc, number)?;
    text.extend_from_slice(first.as_bytes())?;
    append_entries(alloc, founded, pool.result(number).entries, text)?;
    append_end(alloc, pool, number, text)?;
    Ok(())
}

/// The line before a drawing's entries.
fn session_line(alloc: Global, number: usize) -> Result<String, AllocError>
    ensures { IfOk result (λ line. string_bytes line ≡ printed.session_line number) }
{
    format!(in alloc; "session {number}\n")
}

/// Appends the lines of kept objects.
fn append_entries(
    alloc: Global,
    founded: &Founded,
    entries: &[Entry],
    text: &mut Vec<u8>,
) -> Result<(), AllocError>
    requires are_of { All (λ e. IsOf founded.now 0 e.shape.items) entries.now }
    requires labels { All (EntryHasLabels founded.now.mode) entries.now }
    ensures { OnOk result ((lines : List ℕ) × Lists founded.now (map entry_of entries.now) lines
        × (text.new.items ≡ text.old.items ++ lines)) }
{
    for entry in entries {
        append_entry(alloc, founded, entry, text)?;
    }
    Ok(())
}

/// Appends the closing of a drawing, where it has ended.
fn append_end(
    alloc: Global,
    pool: &Pool,
    number: usize,
    text: &mut Vec<u8>,
) -> Result<(), AllocError>
    requires number { number < length pool.now }
    ensures { OnOk result (text.new.items
        ≡ text.old.items ++ closing_of_member (slice_get pool.now number)) }
{
    let drawing = pool.result(number);
    let Some(ending) = drawing.ending else {
        return Ok(());
    };
    let closing = closing_of(ending, drawing.counts, drawing.used);
    append_closing(alloc, text, &closing)
}

/// The line of the order in which the drawings ended, and the last line.
fn order_and_end(alloc: Global, order: &[usize]) -> Result<String, AllocError>
    ensures { IfOk result (λ text. string_bytes text
        ≡ printed.order_line order.now ++ printed.pool_end_line) }
{
    let mut text = numbers(alloc, order)?;
    text.push_str("\nend pool\n")?;
    Ok(text)
}

/// The line of the order without its end.
fn numbers(alloc: Global, order: &[usize]) -> Result<String, AllocError>
    ensures { IfOk result (λ text. string_bytes text
        ≡ codes "order" ++ flat_map number_field order.now) }
{
    let mut text = format!(in alloc; "order")?;
    for number in order {
        let number = *number;
        write!(text, " {number}")?;
    }
    Ok(text)
}

/// The status of the first drawing that didn't end with `Done`; `Done` where all did.
pub(crate) fn first_status(pool: &Pool, count: usize) -> Status
    requires number { count ≤ length pool.now }
    ensures { result ≡ printed.first_status (λ number.
        status_by (ending_at pool.now number)) count }
{
    let mut status = Status::Done;
    for number in 0..count {
        status = first_of(status, status_at(pool, number));
    }
    status
}

/// The first of two statuses that isn't `Done`.
fn first_of(first: Status, second: Status) -> Status
    ensures { result ≡ printed.first_of first second }
{
    match first {
        Status::Done => second,
        other => other,
    }
}

/// The status of a drawing that ended; `Done` while it goes on.
fn status_at(pool: &Pool, number: usize) -> Status
    requires number { number < length pool.now }
    ensures { result ≡ status_by (ending_at pool.now number) }
{
    match pool.result(number).ending {
        Some(ending) => status_of(ending),
        None => Status::Done,
    }
}

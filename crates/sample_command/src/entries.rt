//! The lines of a drawing: before its objects, of each object, and after them.
//!
//! They are those of a certificate, and its writers print them. Only the first line of a drawing
//! from a fast vector is another one.
ghost use Rattle.std.specs.Prelude.{◌≡◌, ◌++◌, List, ℕ, length, None, Some, IfOk, OnErr};
ghost use Rattle.certificate.specs.Certificates.{FitsHeader};
ghost use Rattle.certificate.specs.Headers.{header_of};
ghost use Rattle.certificate.specs.Lines.{version_line};
ghost use Rattle.object_store.specs.Tokens.{IsOf};
ghost use Rattle.rounded_map.specs.RoundedMap.{setting};
ghost use Rattle.size_window.specs.Drawing.{ending_of, limits_of};
ghost use Rattle.size_window.specs.Turn.{entry_of, EntryHasLabels, labels_told};
ghost use Rattle.call_stages.specs.Lines.{fast_format};
ghost use Rattle.sample_command.specs.Drawn.{closing_word as word_told, ending_word, ending_status};
ghost use Rattle.sample_command.specs.Drawn.{drawn_header, AreLinesOf};
ghost use Rattle.sample_command.specs.UnderWay.{told_open, told_closing};

use bz_model::fraction::Fraction;
use call_stages::status::Status;
use certificate::certificate::Header;
use certificate::closing::{Closing, ClosingWord};
use certificate::header::header_of;
use certificate::write::{append_below_version, append_object, write_header};
use class_system::ids::ClassId;
use class_system::system::System;
use object_text::print::print_labelled;
use size_window::ending::{Ending, Straddle};
use size_window::limits::{Counts, Limits};
use size_window::turned::Entry;
use std::alloc::{AllocError, Global};
use well_founded::examination::Founded;

/// The lines before the first object.
pub fn header<const F: u32>(
    alloc: Global,
    system: &System,
    x: Fraction,
    limits: Limits,
    base: &[u64],
) -> Result<Vec<u8>, AllocError>
    requires one_per_class { length base.now ≡ length system.now.bodies }
    ensures { IfOk result (λ text. text.items ≡ drawn_header (version_line 2)
        (setting system.now x.num x.den F) base.now (limits_of limits)) }
{
    let header = stated::<F>(alloc, system, x, limits, base)?;
    write_header(alloc, &header)
}

/// The lines before the first object, where the lower sweeps start from a fast vector.
pub fn fast_header<const F: u32>(
    alloc: Global,
    system: &System,
    x: Fraction,
    limits: Limits,
    base: &[u64],
) -> Result<Vec<u8>, AllocError>
    requires one_per_class { length base.now ≡ length system.now.bodies }
    ensures { IfOk result (λ text. text.items ≡ drawn_header fast_format
        (setting system.now x.num x.den F) base.now (limits_of limits)) }
{
    let header = stated::<F>(alloc, system, x, limits, base)?;
    let mut text = Vec::new(alloc);
    text.extend_from_slice(b"boltzmann fast\n")?;
    append_below_version(alloc, &mut text, &header)?;
    Ok(text)
}

/// What the lines before the first object state, as a certificate's header.
fn stated<const F: u32>(
    alloc: Global,
    system: &System,
    x: Fraction,
    limits: Limits,
    base: &[u64],
) -> Result<Header, AllocError>
    requires one_per_class { length base.now ≡ length system.now.bodies }
    ensures same { IfOk result (λ h. h
        ≡ header_of system.now x F limits.min limits.max base.now) }
    ensures fits { IfOk result FitsHeader }
{
    system.known();
    header_of(alloc, system, x, F, limits.min, limits.max, base)
}

/// Appends the lines of a kept object.
///
/// A refusal, which comes for want of memory alone, leaves the page unchanged.
pub fn append_entry(
    alloc: Global,
    founded: &Founded,
    kept: &Entry,
    page: &mut Vec<u8>,
) -> Result<(), AllocError>
    requires is_of { IsOf founded.now 0 kept.now.shape.items }
    requires labels { EntryHasLabels founded.now.mode kept.now }
    ensures ok { IfOk result (λ _. (more : List ℕ) × AreLinesOf founded.now (entry_of kept.now) more
        × (page.new.items ≡ page.old.items ++ more)) }
    ensures err { OnErr result (page.new.items ≡ page.old.items) }
{
    let system = founded.system();
    system.known();
    let labels = labels_of(kept);
    let text = print_labelled(alloc, system, ClassId(0), &kept.shape, labels)?;
    let size = kept.shape.size();
    let cells = kept.cells.items();
    let object = text.as_slice();
    append_object(alloc, page, kept.number, kept.place, size, object, cells)?;
    Ok(())
}

/// The labels of a kept object, of which there are none in unlabelled mode.
fn labels_of(kept: &Entry) -> &[u64]
    ensures { result.now ≡ labels_told kept.now.labels }
{
    match &kept.labels {
        Some(labels) => labels.items(),
        None => &[],
    }
}

/// The closing of a drawing that came to this end, of which these bits are used.
pub fn closing_of(ending: Ending, counts: Counts, bits: u64) -> Closing
    ensures { result ≡ told_closing ending counts.kept counts.thrown bits counts.turns }
{
    Closing {
        word: closing_word(ending),
        straddle: straddle_of(ending),
        kept: counts.kept,
        thrown: counts.thrown,
        bits,
        turns: counts.turns,
    }
}

/// Why a drawing ended, as a certificate names it.
fn closing_word(ending: Ending) -> ClosingWord
    ensures { result ≡ word_told (ending_of ending) }
{
    match ending {
        Ending::Done => ClosingWord::Done,
        Ending::TapeEnded => ClosingWord::TapeEnded,
        Ending::Undecided(_) => ClosingWord::Undecided,
        Ending::TurnLimit => ClosingWord::TurnLimit,
        Ending::ReadFault => ClosingWord::ReadFault,
    }
}

/// The number that was left open, if one was.
fn straddle_of(ending: Ending) -> Option<Straddle>
    ensures { result ≡ told_open ending }
{
    match ending {
        Ending::Undecided(straddle) => Some(straddle),
        _ => None,
    }
}

/// The word for why a drawing ended.
pub fn word_of(ending: Ending) -> &'static str
    ensures { result.now ≡ ending_word (ending_of ending) }
{
    match ending {
        Ending::Done => "done",
        Ending::TapeEnded => "tape-ended",
        Ending::Undecided(_) => "undecided",
        Ending::TurnLimit => "turn-limit",
        Ending::ReadFault => "read-fault",
    }
}

/// The program's answer for each end of a drawing.
pub fn status_of(ending: Ending) -> Status
    ensures { result ≡ ending_status (ending_of ending) }
{
    match ending {
        Ending::Done => Status::Done,
        Ending::TapeEnded => Status::TapeEnded,
        Ending::Undecided(_) => Status::Undecided,
        Ending::TurnLimit => Status::TurnLimit,
        Ending::ReadFault => Status::ReadFault,
    }
}

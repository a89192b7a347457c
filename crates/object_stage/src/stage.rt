//! The stage: an object is read from a file and judged.
ghost use Rattle.std.specs.Prelude.{◌≡◌, ℕ, ◌≤◌, List, length, IfOk, IfErr};
ghost use Rattle.call_stages.specs.Outcomes.{Never};
ghost use Rattle.call_stages.specs.Reports.{refusal_status, refusal_text};
ghost use Rattle.call_stages.specs.Stages.{files};
ghost use Rattle.object_stage.specs.ObjectStage.{without_feed, ObjectJudged, ObjectRead};
ghost use Rattle.object_stage.specs.ObjectStage.{IsObjectIn};
ghost use Rattle.object_text.specs.Reading.{IsRead};

use crate::refusals::{object_refusal, too_long_refusal};
use bz_outside::shelf::Shelf;
use bz_outside::word::Word;
use call_stages::report::Refusal;
use call_stages::stages::read_file;
use class_system::ids::ClassId;
use object_text::read::{ReadObject, read};
use std::alloc::Global;
use well_founded::examination::Founded;

/// The most bytes that an object's file may have.
const MOST: usize = 16_777_216;

/// The most bytes that are read of an object's file: one more than it may have.
const MOST_READ: u64 = 16_777_217;

/// Reads an object of the first class from a file.
///
/// One line feed at the end of the file is no part of the object's text. In `err` the counts of
/// failed reads before the call may be those of an earlier time.
#[tactic(auto, using(crate::proofs::Judging::is_object, crate::proofs::Judging::ended_by_reading))]
pub fn object_read<S: Shelf>(
    alloc: Global,
    founded: &Founded,
    name: &Word,
    shelf: &mut S,
) -> Result<ReadObject, Refusal>
    ensures ok { IfOk result (λ object. IsObjectIn (S.content shelf.old) founded.now name.now
        object.shape.items object.labels) }
    ensures err { IfErr result (λ e. (before : List ℕ → ℕ)
        → ((other : List ℕ) → before other ≤ S.faults shelf.old other)
        → ObjectRead (files (S.content shelf.old) before (S.faults shelf.new)) founded.now name.now
        (λ tokens labels. Never) (refusal_status e) (refusal_text e) 0) }
    ensures content { S.content shelf.new ≡ S.content shelf.old }
    ensures counts { (other : List ℕ) → S.faults shelf.old other ≤ S.faults shelf.new other }
{
    match read_file(alloc, name, MOST_READ, shelf) {
        Ok(bytes) => object_of(alloc, founded, bytes.as_slice()),
        Err(refusal) => Err(refusal),
    }
}

/// The object of the first class whose text, with or without a line feed at its end, these bytes
/// are.
#[tactic(auto, using(crate::proofs::Judging::too_long, crate::proofs::Judging::object_refused, crate::proofs::Judging::judging_lacks_memory))]
fn object_of(alloc: Global, founded: &Founded, bytes: &[u8]) -> Result<ReadObject, Refusal>
    ensures few { IfOk result (λ object. length bytes.now ≤ 16777216) }
    ensures read { IfOk result (λ object.
        IsRead founded.now 0 (without_feed bytes.now) object.shape.items object.labels) }
    ensures err { IfErr result (λ e. ObjectJudged founded.now (λ tokens labels. Never) bytes.now
        (refusal_status e) (refusal_text e) 0) }
{
    if bytes.len() > MOST {
        return Err(Refusal::Reported(too_long_refusal(alloc)?));
    }
    founded.system().known();
    let text = text_in(bytes);
    match read(alloc, founded, ClassId(0), text) {
        Ok(object) => Ok(object),
        Err(fault) => Err(Refusal::Reported(object_refusal(alloc, fault)?)),
    }
}

/// A text without the line feed at its end.
#[tactic(auto, using(crate::proofs::Feeds::feed_off, crate::proofs::Feeds::other_kept))]
fn text_in(bytes: &[u8]) -> &[u8]
    ensures text { result.now ≡ without_feed bytes.now }
    ensures shorter { length result.now ≤ length bytes.now }
{
    match bytes.split_last() {
        Some((10, front)) => front,
        _ => bytes,
    }
}

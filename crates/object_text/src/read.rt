//! Reading the text of an object.
ghost use Rattle.std.specs.Prelude.{◌≡◌, ◌≤◌, ◌<◌, ◌^◌, [], length, IfOk, IfErr};
ghost use Rattle.class_system.specs.Views.{spec_mode};
ghost use Rattle.object_text.specs.Reading.{IsRead, TellsFault};
ghost use Rattle.object_text.specs.Scanning.{StopsAt};
ghost use Rattle.object_text.specs.States.{IsReadWhole, IsRefusedReading, stop_fault};

use crate::fault::TextFault;
use crate::parsed::Partial;
use crate::permutation::are_one_to;
use crate::reader::Reader;
use crate::scan::Stop;
use class_system::draft::Mode;
use class_system::ids::ClassId;
use labelling::labels::Labels;
use object_store::shape::Shape;
use std::alloc::Global;
use well_founded::examination::Founded;

/// An object that was read: its tokens, and in labelled mode its labels in token order. The parts
/// of sets and cycles stand as they were written.
#[derive(Drop)]
pub struct ReadObject {
    pub shape: Shape,
    pub labels: Option<Labels>,
}

/// Reads a text as that of an object of a class.
///
/// It takes one step for each byte, and one for each class on the way down to a node that isn't
/// one. It takes memory for the tokens and the labels, for one entry for each part of a product and
/// each list on the way down, and in labelled mode for one mark for each label.
pub fn read(
    alloc: Global,
    founded: &Founded,
    c: ClassId,
    text: &[u8],
) -> Result<ReadObject, TextFault>
    requires in_range { c.0 < length founded.now.names }
    requires short { length text.now < 2 ^ 32 }
    ensures read { IfOk result (λ object.
        IsRead founded.now c.0 text.now object.shape.items object.labels) }
    ensures fault { IfErr result (TellsFault founded.now c.0 text.now) }
{
    founded.known();
    let system = founded.system();
    system.known();
    let mut reader = Reader::new(alloc);
    match reader.read_all(system, system.body(c), text) {
        Ok(()) => {}
        Err(stop) => return Err(stop_fault(text, stop)),
    }
    let Reader { taken, stack: _ } = reader;
    finish(alloc, system.mode(), taken)
}

/// The fault of a text where reading it stopped.
fn stop_fault(text: &[u8], stop: Stop) -> TextFault
    requires within { StopsAt (λ left. left ≤ length text.now) stop }
    ensures exact { result ≡ stop_fault (length text.now) stop }
{
    match stop {
        Stop::At(left) => {
            let place = (text.len() - left) as u64;
            TextFault::NotObject { place }
        }
        Stop::OutOfMemory => TextFault::OutOfMemory,
    }
}

/// The object that was read, where it is canonical.
fn finish(alloc: Global, mode: Mode, taken: Partial) -> Result<ReadObject, TextFault>
    requires whole { taken.lists ≡ [] }
    ensures ok { IfOk result (λ object.
        IsReadWhole (spec_mode mode) taken object.shape.items object.labels) }
    ensures fault { IfErr result (IsRefusedReading taken) }
{
    if !taken.is_ordered() {
        return Err(TextFault::NotCanonical);
    }
    if !are_one_to(alloc, taken.labels())? {
        return Err(TextFault::NotCanonical);
    }
    let shape = taken.shape(alloc)?;
    let labels = match mode {
        Mode::Unlabelled => None,
        Mode::Labelled => Some(taken.into_labels()),
    };
    Ok(ReadObject { shape, labels })
}

//! Text that is held back until there is enough of it to be written.
ghost use Rattle.std.specs.Prelude.{◌≡◌, ◌≤◌, ℕ, List, Option, OnOk, OnErr};
ghost use Rattle.bz_outside.specs.Outside.{Rose, AppendsFront};
ghost use Rattle.call_stages.specs.Ends.{IsHeld};

use bz_outside::shelf::Failed;
use bz_outside::sink::{Sink, put_all};

/// How many bytes are written together, at least: as many as make the cost of a write small.
const PIECE: usize = 32_768;

/// Writes what is held back where it is enough, and keeps it otherwise.
#[tactic(auto, using(crate::proofs::Held::held_sent, crate::proofs::Held::held_cut))]
pub fn send_enough<K: Sink>(out: &mut K, page: &mut Vec<u8>) -> Result<(), Failed>
    ensures held { OnOk result ((start : Option (List ℕ)) (text : List ℕ)
        → IsHeld start (K.written out.old) page.old.items text
        → IsHeld start (K.written out.new) page.new.items text) }
    ensures cut { OnErr result ((start : Option (List ℕ)) (text : List ℕ)
        → IsHeld start (K.written out.old) page.old.items text
        → AppendsFront start (K.written out.new) text) }
    ensures cause { OnErr result (Rose (K.faults out.old) (K.faults out.new)) }
    ensures counts { K.faults out.old ≤ K.faults out.new }
{
    if page.len() < PIECE {
        return Ok(());
    }
    match put_all(out, page.as_slice()) {
        Ok(()) => {
            page.clear();
            Ok(())
        }
        Err(failed) => Err(failed),
    }
}

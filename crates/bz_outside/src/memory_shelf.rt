//! A shelf over memory, whose reads fail where they are told to.
ghost use Rattle.std.specs.Prelude.{◌≡◌, ℕ, ◌<◌, ◌≤◌, List, [], ◌∷◌, ◌++◌, length, All, IfSome};
ghost use Rattle.std.specs.Prelude.{IsNone, IfOk, OnOk, OnErr, is_err, option_map};
ghost use Rattle.bz_outside.specs.Outside.{IsPiece, RoseOnce};
ghost use Rattle.bz_outside.specs.Memory.{after_call, content_of, read_fails, piece_length};

use crate::call_log::CallLog;
use crate::shelf::{Failed, Shelf, copy_piece};
use crate::word::Word;
use std::alloc::{AllocError, Global};
use std::marker::Model;

/// Bytes under a name.
#[derive(Debug, Drop)]
struct NamedBytes {
    name: Word,
    bytes: Vec<u8>,
}

impl Model for NamedBytes {
    ghost use Rattle.bz_outside.specs.Memory.{Stored};

    ghost Value = { Stored };

    ghost view = { λ f. record { name = f.name; bytes = f.bytes.items } };
}

/// Named lists of bytes in memory. It tells all contents.
///
/// A read gives at most `most` bytes. It fails where its number, counted from 1 over the reads of
/// all names, is one of those given to `fail_at`, or where nothing is stored under the name. The
/// count of faults is the number of failures so far, the same for every name.
#[derive(Debug, Drop)]
pub struct MemoryShelf {
    files: Vec<NamedBytes>,
    most: usize,
    calls: CallLog,
}

impl Model for MemoryShelf {
    ghost use Rattle.std.specs.Prelude.{◌≤◌};
    ghost use Rattle.bz_outside.specs.Memory.{ShelfState};

    ghost Value = { ShelfState };

    ghost view = { λ s. record { files = s.files.items; most = s.most; calls = s.calls } };

    ghost invariant = { λ s. 1 ≤ s.most };
}

impl MemoryShelf {
    /// The shelf with no names, of which one read gives at most `most` bytes.
    pub fn new(alloc: Global, most: usize) -> MemoryShelf
        requires { 1 ≤ most }
        ensures { result ≡ record {
          files = [];
          most = most;
          calls =
              record { made = 0; failing = []; failed = 0 };
        } }
    {
        MemoryShelf {
            files: Vec::new(alloc),
            most,
            calls: CallLog::new(alloc),
        }
    }

    /// Stores bytes under a new name.
    pub fn add(&mut self, name: Word, bytes: Vec<u8>) -> Result<(), AllocError>
        requires new { IsNone (content_of self.old.files name) }
        ensures ok { OnOk result (self.new ≡ record self.old {
          files =
              self.old.files ++ record { name = name; bytes = bytes.items } ∷ [];
        }) }
        ensures err { OnErr result (self.new ≡ self.old) }
    {
        self.files.push(NamedBytes { name, bytes })?;
        Ok(())
    }

    /// Lets the read with this number fail, too. The numbers are given in rising order.
    pub fn fail_at(&mut self, call: u64) -> Result<(), AllocError>
        requires rising { All (λ number. number < call) self.old.calls.failing }
        ensures ok { OnOk result (self.new ≡ record self.old {
          calls =
              record self.old.calls { failing = self.old.calls.failing ++ call ∷ [] };
        }) }
        ensures err { OnErr result (self.new ≡ self.old) }
    {
        self.calls.fail_at(call)
    }
}

fn stored<'a>(files: &'a [NamedBytes], name: &Word) -> Option<&'a [u8]>
    ensures { option_map (λ bytes. bytes.now) result ≡ content_of files.now name.now }
{
    let file = files.iter().find(|file| file.name == *name)?;
    Some(file.bytes.as_slice())
}

impl Shelf for MemoryShelf {
    ghost content = { λ shelf. content_of shelf.files };

    ghost faults = { λ shelf _. shelf.calls.failed };

    fn piece(&mut self, name: &Word, place: u64, buf: &mut [u8]) -> Result<usize, Failed>
        ensures piece { IfOk result
            (λ n. IfSome (content_of self.old.files name.now)
            (λ bytes. IsPiece bytes place n buf.new)) }
        ensures cause { OnErr result (RoseOnce self.old.calls.failed self.new.calls.failed) }

        // Exactly which reads fail, how many bytes the others give, and what stays.
        ensures fails { is_err result ≡ read_fails self.old name.now }
        ensures exact { IfOk result
            (λ n. IfSome (content_of self.old.files name.now)
            (λ bytes. n ≡ piece_length self.old bytes place (length buf.old))) }
        ensures after { self.new ≡ record self.old {
          calls =
              after_call (is_err result) self.old.calls;
        } }
    {
        if self.calls.fails_next() {
            return Err(self.calls.failure());
        }
        let width = buf.len().min(self.most);
        let Some(bytes) = stored(self.files.as_slice(), name) else {
            return Err(self.calls.failure());
        };
        let n = copy_piece(bytes, place, &mut buf[..width]);
        self.calls.success();
        Ok(n)
    }
}

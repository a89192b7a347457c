//! A sink over memory, whose writes fail where they are told to.
ghost use Rattle.std.specs.Prelude.{◌≡◌, ◌<◌, ◌≤◌, [], ◌∷◌, ◌++◌, length, take, All, Some, IfOk};
ghost use Rattle.std.specs.Prelude.{OnOk, OnErr, is_err, true, false};
ghost use Rattle.bz_outside.specs.Outside.{Appends, RoseOnce};
ghost use Rattle.bz_outside.specs.Memory.{after_call, write_fails, taken_length};

use crate::call_log::CallLog;
use crate::shelf::Failed;
use crate::sink::Sink;
use std::alloc::{AllocError, Global};
use std::marker::Model;

/// What was written, in memory. It tells all.
///
/// A write takes at most `most` bytes, and all writes together at most `room`. A write fails where
/// its number, counted from 1, is one of those given to `fail_at`, or where there are bytes to
/// write and the room is used up. The count of faults is the number of failures so far.
#[derive(Debug, Drop)]
pub struct MemorySink {
    kept: Vec<u8>,
    most: usize,
    room: usize,
    calls: CallLog,
}

impl Model for MemorySink {
    ghost use Rattle.std.specs.Prelude.{◌≤◌, vec_len, vec_capacity};
    ghost use Rattle.bz_outside.specs.Memory.{SinkState};

    ghost Value = { SinkState };

    ghost view = { λ s. record {
      written = s.kept.items;
      most = s.most;
      room = s.room;
      calls = s.calls;
    } };

    ghost invariant = { λ s. (1 ≤ s.most) × (vec_len s.kept ≤ s.room) ×
        (s.room ≤ vec_capacity s.kept) };
}

impl MemorySink {
    /// The sink of which one write takes at most `most` bytes, and all together at most `room`.
    ///
    /// The memory for `room` bytes is taken here at once.
    pub fn new(alloc: Global, most: usize, room: usize) -> Result<MemorySink, AllocError>
        requires { 1 ≤ most }
        ensures { IfOk result (λ s. s ≡ record {
          written = [];
          most = most;
          room = room;
          calls =
              record { made = 0; failing = []; failed = 0 };
        }) }
    {
        Ok(MemorySink {
            kept: Vec::with_capacity(alloc, room)?,
            most,
            room,
            calls: CallLog::new(alloc),
        })
    }

    /// What was written so far. Takes no memory.
    pub fn written(&self) -> &[u8]
        ensures { result.now ≡ self.now.written }
    {
        self.kept.as_slice()
    }

    /// Lets the write with this number fail, too. The numbers are given in rising order.
    pub fn fail_at(&mut self, call: u64) -> Result<(), AllocError>
        requires rising { All (λ number. number < call) self.old.calls.failing }
        ensures ok { OnOk result (self.new ≡ record self.old {
          calls =
              record self.old.calls { failing = self.old.calls.failing ++ call ∷ [] };
        }) }
        ensures err { OnErr result (self.new ≡ self.old) }
    {
        self.calls.fail_at(call)
    }
}

impl Sink for MemorySink {
    ghost written = { λ sink. Some sink.written };

    ghost faults = { λ sink. sink.calls.failed };

    /// Takes no memory.
    fn put(&mut self, bytes: &[u8]) -> Result<usize, Failed>
        ensures some { IfOk result (λ n. 0 < length bytes.now → 0 < n) }
        ensures cause { OnErr result (RoseOnce self.old.calls.failed self.new.calls.failed) }

        // Exactly which writes fail, how many bytes the others take, and what stays.
        ensures fails { is_err result ≡ write_fails self.old bytes.now }
        ensures exact { IfOk result (λ n. n ≡ taken_length self.old bytes.now) }
        ensures after_ok { IfOk result (λ n. self.new ≡ record self.old {
          written = self.old.written
              ++ take n bytes.now;
          calls = after_call false self.old.calls;
        }) }
        ensures after_err { OnErr result
            (self.new ≡ record self.old { calls = after_call true self.old.calls }) }
    {
        let left = self.room - self.kept.len();
        if self.calls.fails_next() || (left == 0 && !bytes.is_empty()) {
            return Err(self.calls.failure());
        }
        let n = bytes.len().min(self.most).min(left);
        self.kept.extend_from_slice(&bytes[..n]).unwrap();
        self.calls.success();
        Ok(n)
    }
}

//! The sink of a writer of the system, as the standard output. It doesn't tell what was written.
ghost use Rattle.std.specs.Prelude.{◌≡◌, ◌≤◌, ◌<◌, None, IfSome, length};

use crate::shelf::Failed;
use crate::sink::Sink;
use std::io::Write;
use std::marker::Model;

/// A writer as a sink. Contracts see it as its count of faults.
///
/// Nothing is kept back between calls. An interrupted write counts as a failure, as does one that
/// takes none of the bytes.
#[derive(Drop)]
pub struct StdSink<W: Write + Drop> {
    writer: W,
    faults: u64,
}

impl<W: Write + Drop> Model for StdSink<W> {
    ghost use Rattle.std.specs.Prelude.{ℕ};

    ghost Value = { ℕ };

    ghost view = { λ s. s.faults };
}

impl<W: Write + Drop> StdSink<W> {
    /// The sink of this writer, before any fault.
    pub fn new(writer: W) -> Self
        ensures { result ≡ 0 }
    {
        StdSink { writer, faults: 0 }
    }

    fn write_some(&mut self, bytes: &[u8]) -> Option<usize>
        ensures counts { self.new ≡ self.old }
        ensures within { IfSome result (λ n. n ≤ length bytes.now) }
        ensures some { IfSome result (λ n. 0 < length bytes.now → 0 < n) }
    {
        let n = self.writer.write(bytes).ok()?;
        if n == 0 && !bytes.is_empty() {
            return None;
        }
        Some(n)
    }
}

impl<W: Write + Drop> Sink for StdSink<W> {
    ghost written = { λ _. None };

    ghost faults = { λ faults. faults };

    /// The count rises at each `Err`, and at nothing else.
    fn put(&mut self, bytes: &[u8]) -> Result<usize, Failed> {
        match self.write_some(bytes) {
            Some(n) => Ok(n),
            None => {
                self.faults = self.faults.saturating_add(1);
                Err(Failed)
            }
        }
    }
}

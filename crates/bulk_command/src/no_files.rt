//! A shelf for what reads no file.
ghost use Rattle.bulk_command.specs.NoFiles.{empty_files, no_faults};

use bz_outside::shelf::{Failed, Shelf};
use bz_outside::word::Word;

/// A shelf on which every file is empty, and no read fails.
#[derive(Drop)]
pub(crate) struct NoFiles;

impl Shelf for NoFiles {
    ghost content = { λ _. empty_files };

    ghost faults = { λ _. no_faults };

    fn piece(&mut self, _name: &Word, _place: u64, _buf: &mut [u8]) -> Result<usize, Failed> {
        Ok(0)
    }
}

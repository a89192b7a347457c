//! Certificates: what a drawing printed, as values.
ghost use Rattle.std.specs.Prelude.{◌≡◌, [], ◌∷◌, ◌++◌, OnOk, OnErr};
ghost use Rattle.certificate.specs.declared.certificate.CertEntry.{CertEntry};

use crate::closing::Closing;
use crate::digest::SpecDigest;
use bz_model::cells::Cells;
use bz_model::fraction::Fraction;
use bz_outside::word::Word;
use class_system::draft::Mode;
use class_system::names::Names;
use newton_upper::Values;
use std::alloc::{AllocError, Global};
use std::marker::Model;

/// What stands before the entries: the version, the mode, in version 2 the digest of the
/// specification, x, the fraction bits, the window of sizes, and the classes' names with the base,
/// an upper value for each, in units of `2^-fraction`.
#[derive(Drop)]
pub struct Header {
    pub version: u8,
    pub mode: Mode,
    pub digest: Option<SpecDigest>,
    pub x: Fraction,
    pub fraction: u32,
    pub min: u64,
    pub max: u64,
    pub names: Names,
    pub base: Values,
}

/// A kept object: its number, the place of its first bit, its size, its text, and the cells of the
/// numbers that it was made of.
#[derive(Drop)]
pub struct CertEntry {
    pub number: u64,
    pub place: u64,
    pub size: u64,
    pub text: Word,
    pub cells: Cells,
}

/// A list of entries.
#[derive(Drop)]
pub struct CertEntries {
    content: Vec<CertEntry>,
}

impl Model for CertEntries {
    ghost use Rattle.std.specs.Prelude.{List};
    ghost use Rattle.certificate.specs.declared.certificate.CertEntry.{CertEntry};

    ghost Value = { List CertEntry };

    ghost view = { λ e. e.content.items };
}

impl CertEntries {
    /// The empty list. Takes no memory.
    pub fn new(alloc: Global) -> CertEntries
        ensures empty { result ≡ [] }
    {
        CertEntries {
            content: Vec::new(alloc),
        }
    }

    /// Appends an entry. A refusal, which comes for want of memory alone, leaves the list
    /// unchanged.
    pub fn push(&mut self, item: CertEntry) -> Result<(), AllocError>
        ensures ok { OnOk result (self.new ≡ self.old ++ item ∷ []) }
        ensures err { OnErr result (self.new ≡ self.old) }
    {
        self.content.push(item)?;
        Ok(())
    }

    /// The entries in order. Takes no memory.
    pub fn items(&self) -> &[CertEntry]
        ensures items { result.now ≡ self.now }
    {
        self.content.as_slice()
    }
}

/// The header, the entries in order, and the closing.
#[derive(Drop)]
pub struct Certificate {
    pub header: Header,
    pub entries: CertEntries,
    pub closing: Closing,
}

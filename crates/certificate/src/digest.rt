//! Digests of specifications.
ghost use Rattle.std.specs.Prelude.{◌≡◌, IfOk};
ghost use Rattle.class_system.specs.CanonicalText.{canonical_text};
ghost use Rattle.sha2.specs.Sha256.{sha256};
ghost use Rattle.certificate.specs.Fields.{IsDigest};

use class_system::system::System;
use sha2::{Digest, Sha256};
use std::alloc::AllocError;
use std::marker::Model;

/// The SHA-256 digest of a specification's canonical text, seen as the list of its 32 bytes.
#[derive(Debug, Drop)]
pub struct SpecDigest {
    content: [u8; 32],
}

impl Model for SpecDigest {
    ghost use Rattle.std.specs.Prelude.{ℕ, List};
    ghost use Rattle.hex.specs.Hex.{IsBytes};

    ghost Value = { List ℕ };

    ghost view = { λ d. d.content };

    ghost invariant = { λ d. IsBytes d.content };
}

impl SpecDigest {
    /// The digest of these bytes. Takes no memory.
    pub fn new(bytes: [u8; 32]) -> SpecDigest
        ensures bytes { result ≡ bytes }
    {
        SpecDigest { content: bytes }
    }

    /// The bytes in order. Takes no memory.
    pub fn bytes(&self) -> &[u8]
        ensures bytes { result.now ≡ self.now }
        ensures digest { IsDigest self.now }
    {
        &self.content
    }
}

/// The digest of a specification's canonical text.
pub fn digest_of(system: &System) -> Result<SpecDigest, AllocError>
    ensures digest { IfOk result (λ digest. digest ≡ sha256 (canonical_text system.now)) }
    ensures fits { IfOk result IsDigest }
{
    let canonical = system.to_text()?;
    let digest = SpecDigest::new(Sha256::digest(canonical.as_slice()));
    let _bytes = digest.bytes();
    Ok(digest)
}

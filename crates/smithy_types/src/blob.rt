// Bytes that are no text.
use crate::error::OutOfMemory;
use std::alloc::Global;
use std::marker::Model;

/// Bytes, seen as their list.
#[derive(Debug, Drop)]
pub struct Blob {
    bytes: Vec<u8>,
}

impl Model for Blob {
    ghost use Rattle.std.specs.Prelude.{List, ℕ};

    ghost Value = { List ℕ };

    ghost view = { λ a. a.bytes.items };
}

impl Blob {
    ghost use Rattle.std.specs.Prelude.{◌≡◌, IfOk};

    /// A copy of the bytes.
    pub fn new(alloc: Global, bytes: &[u8]) -> Result<Blob, OutOfMemory>
        ensures { IfOk result (λ b. b ≡ bytes.now) }
    {
        Ok(Blob {
            bytes: Vec::from_slice(alloc, bytes)?,
        })
    }

    /// These bytes, with no copy of them.
    pub fn from_vec(bytes: Vec<u8>) -> Blob
        ensures { result ≡ bytes.items }
    {
        Blob { bytes }
    }

    /// The bytes.
    pub fn as_slice(&self) -> &[u8]
        ensures { result.now ≡ self.now }
    {
        self.bytes.as_slice()
    }
}

//! Bytes that a row describes.

use std::alloc::{AllocError, Global};

/// Bytes that grow by what is put. Once memory has run out, nothing more is put, and `end` says so: no call before has
/// to look.
#[derive(Drop)]
pub(crate) struct Grown {
    pub bytes: Vec<u8>,
    is_short: bool,
}

impl Grown {
    pub fn new(alloc: Global) -> Grown {
        Grown {
            bytes: Vec::new(alloc),
            is_short: false,
        }
    }

    /// Appends a byte.
    pub fn push(&mut self, byte: u8) {
        if !self.is_short {
            self.is_short = self.bytes.push(byte).is_err();
        }
    }

    /// Appends bytes.
    pub fn put(&mut self, bytes: &[u8]) {
        if !self.is_short {
            self.is_short = self.bytes.extend_from_slice(bytes).is_err();
        }
    }

    /// The bytes, where it is known what they stand for; or that memory ran out for them.
    pub fn end(self, known: bool) -> Result<Option<Vec<u8>>, AllocError> {
        if self.is_short {
            Err(AllocError)
        } else if known {
            Ok(Some(self.bytes))
        } else {
            Ok(None)
        }
    }
}

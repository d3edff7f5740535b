// Bytes that several values share.
ghost use Rattle.std.specs.Prelude.{◌≡◌, IfOk};

use crate::memory::OutOfMemory;
use std::alloc::Global;
use std::marker::Model;
use std::ops::Deref;
use std::sync::Arc;

/// Bytes that are written once and then shared. Contracts see them as a list. They are freed with their last holder.
#[derive(Drop, Debug)]
pub struct SharedBytes {
    bytes: Arc<Vec<u8>>,
}

impl Model for SharedBytes {
    ghost use Rattle.std.specs.Prelude.{ℕ, List};

    ghost Value = { List ℕ };

    ghost view = { λ t. t.bytes.value.items };
}

impl SharedBytes {
    /// Takes the bytes of a `Vec`; the result is their one holder.
    pub fn from_vec(alloc: Global, bytes: Vec<u8>) -> Result<SharedBytes, OutOfMemory>
        ensures { IfOk result (λ t. t ≡ bytes.items) }
    {
        Ok(SharedBytes {
            bytes: Arc::new(alloc, bytes)?,
        })
    }

    /// Adds a holder of the same bytes. `OutOfMemory` where there would be more holders than can be counted.
    pub fn share(&self) -> Result<SharedBytes, OutOfMemory>
        ensures { IfOk result (λ t. t ≡ self.now) }
    {
        Ok(SharedBytes {
            bytes: Arc::try_clone(&self.bytes)?,
        })
    }

    /// The bytes.
    pub fn as_slice(&self) -> &[u8]
        ensures { result.now ≡ self.now }
    {
        self.bytes.deref().as_slice()
    }
}

// A sink that remembers the end of the last write.
ghost use Rattle.std.specs.Prelude.{◌≡◌};

use esm_io::{Failed, Sink};
use std::alloc::Global;

/// How many bytes are remembered: more than the line of a refusal has.
const TAIL: usize = 256;

/// A sink that remembers the end of the last write.
pub trait Remembers {
    /// The last bytes of the last write, at most 256; empty if there was no memory for them.
    fn tail(&self) -> &[u8];
}

/// A sink that passes each write to another one, and remembers the end of what that one took last.
#[derive(Drop)]
pub struct TailSink<K: Sink> {
    inner: K,
    tail: Vec<u8>,
}

impl<K: Sink> TailSink<K> {
    /// Makes a sink that has written nothing. Takes no memory.
    pub fn new(alloc: Global, inner: K) -> TailSink<K> {
        TailSink {
            inner,
            tail: Vec::new(alloc),
        }
    }

    /// Remembers the end of the bytes, or nothing if memory runs out.
    fn remember(&mut self, bytes: &[u8])
        ensures { self.new.inner ≡ self.old.inner }
    {
        let from = bytes.len().saturating_sub(TAIL);
        self.tail.clear();
        let _ = self.tail.extend_from_slice(&bytes[from..]);
    }
}

impl<K: Sink> Sink for TailSink<K> {
    ghost faults = { λ s. K.faults s.inner };

    ghost written = { λ s. K.written s.inner };

    fn write(&mut self, from: &[u8]) -> Result<usize, Failed> {
        let count = self.inner.write(from)?;
        self.remember(&from[..count]);
        Ok(count)
    }
}

impl<K: Sink> Remembers for TailSink<K> {
    fn tail(&self) -> &[u8] {
        self.tail.as_slice()
    }
}

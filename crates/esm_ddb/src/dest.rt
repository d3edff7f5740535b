// A destination that gets failure lines of a stream and delivers those of a DynamoDB stream.
ghost use Rattle.std.specs.Prelude.{◌≡◌, min, vec_capacity};
ghost use Rattle.esm_io.specs.Faults.{MAX_FAULTS};
ghost use Rattle.esm_ddb.specs.FailureLine.{HasRoomBeside, ddb_line};

use crate::failure_line::push_line;
use esm_io::{Dest, DestError};
use esm_model::OutOfMemory;
use std::alloc::Global;

/// A destination over another. It delivers each line of at most 16,777,214 bytes with `"DDBStreamBatchInfo":` in place of
/// its first `"KinesisBatchInfo":`, and a longer one unchanged.
#[derive(Drop)]
pub struct DdbDest<T: Dest> {
    /// The destination below.
    pub inner: T,
    /// Room for the changed line.
    room: Vec<u8>,
}

impl<T: Dest> DdbDest<T> {
    /// Makes the destination over `inner`. Takes no memory.
    pub fn new(alloc: Global, inner: T) -> DdbDest<T>
        ensures { result.inner ≡ inner }
    {
        DdbDest {
            inner,
            room: Vec::new(alloc),
        }
    }

    /// Returns the destination below, as the deliveries left it.
    pub fn into_inner(self) -> T
        ensures { result ≡ self.inner }
    {
        let DdbDest { inner, room } = self;
        drop(room);
        inner
    }
}

impl<T: Dest> Dest for DdbDest<T> {
    ghost faults = { λ d. min (T.faults d.inner) MAX_FAULTS };

    ghost honest = { λ d. T.honest d.inner };

    ghost sends = { λ line. T.sends (ddb_line line) };

    ghost lines = { λ d. T.lines d.inner };

    ghost failed = { λ d. T.failed d.inner };

    ghost moment = { λ d. T.moment d.inner };

    ghost image_since = { λ d. T.image_since d.inner };

    ghost reads_as = { T.reads_as };

    ghost counts_now = { λ d t left honest early since. T.counts_now d.inner t left honest early since };

    ghost has_room = { λ d n. HasRoomBeside (T.has_room d.inner) (vec_capacity d.room) n };

    fn reserve(&mut self, alloc: Global, bytes: u64) -> Result<(), OutOfMemory> {
        let Some(wanted) = bytes.checked_add(2) else {
            return Err(OutOfMemory);
        };
        self.room.clear();
        self.room.reserve(wanted as usize)?;
        self.inner.reserve(alloc, wanted)
    }

    fn deliver(&mut self, alloc: Global, line: &[u8]) -> Result<(), DestError> {
        self.room.clear();
        match push_line(&mut self.room, line) {
            Ok(()) => self.inner.deliver(alloc, self.room.as_slice()),
            Err(_) => Err(DestError::OutOfMemory),
        }
    }
}

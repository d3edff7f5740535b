// A caller that gets events of a stream and calls with those of a DynamoDB stream.
ghost use Rattle.std.specs.Prelude.{◌≡◌, min};
ghost use Rattle.esm_io.specs.Faults.{MAX_FAULTS};
ghost use Rattle.esm_ddb.specs.Event.{ddb_event};

use crate::event::ddb_event;
use esm_io::Caller;
use esm_model::{OutOfMemory, Reply};
use std::alloc::Global;

/// A caller over another, which it calls with the event of the DynamoDB stream's records. Its faults are those of the one
/// below.
#[derive(Drop)]
pub struct DdbCaller<F: Caller> {
    /// The caller below.
    pub inner: F,
}

impl<F: Caller> DdbCaller<F> {
    /// Makes the caller over `inner`. Takes no memory.
    pub fn new(inner: F) -> DdbCaller<F>
        ensures { result.inner ≡ inner }
    {
        DdbCaller { inner }
    }

    /// Returns the caller below, as the calls left it.
    pub fn into_inner(self) -> F
        ensures { result ≡ self.inner }
    {
        let DdbCaller { inner } = self;
        inner
    }
}

impl<F: Caller> Caller for DdbCaller<F> {
    ghost faults = { λ c. min (F.faults c.inner) MAX_FAULTS };

    ghost sends = { λ event. F.sends (ddb_event event) };

    ghost log = { λ c. F.log c.inner };

    fn call(&mut self, alloc: Global, name: &str, event: &[u8]) -> Result<Reply, OutOfMemory> {
        let changed = ddb_event(alloc, event)?;
        self.inner.call(alloc, name, changed.as_slice())
    }
}

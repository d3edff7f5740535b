// The memory for reading documents, which is reused from one document to the next.
ghost use Rattle.std.specs.Prelude.{◌≢◌, None, OnOk};

use esm_model::OutOfMemory;
use json::Scratch;
use std::alloc::Global;

/// Memory for reading documents. One value serves all records or messages of a list. It is allocated when the first document
/// is read, grows to the longest one, and is freed when it is dropped.
#[derive(Drop)]
pub struct Work {
    scratch: Option<Box<Scratch>>,
}

impl Work {
    /// Takes no memory yet.
    pub fn new() -> Work {
        Work { scratch: None }
    }

    fn make(&mut self, alloc: Global) -> Result<(), OutOfMemory>
        ensures { OnOk result (self.new.scratch ≢ None) }
    {
        if self.scratch.is_none() {
            self.scratch = Some(Box::new(alloc, Scratch::new(alloc))?);
        }
        Ok(())
    }

    /// The memory, allocated by the first call.
    pub(crate) fn scratch(&mut self, alloc: Global) -> Result<&mut Scratch, OutOfMemory> {
        self.make(alloc)?;
        match &mut self.scratch {
            Some(scratch) => Ok(&mut **scratch),
            None => unreachable!(),
        }
    }
}

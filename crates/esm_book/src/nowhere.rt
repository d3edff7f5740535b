// The destination of a book without one, which never fails and shows no line.
ghost use Rattle.std.specs.Prelude.{None, false, true};

use esm_io::{Dest, DestError};
use esm_model::OutOfMemory;
use std::alloc::Global;

/// The destination of a book without one: it never fails, and shows no line.
#[derive(Drop, Debug)]
pub struct Nowhere {}

impl Dest for Nowhere {
    ghost faults = { λ _. 0 };

    ghost honest = { λ _. true };

    ghost sends = { λ line. line };

    ghost lines = { λ _. None };

    ghost failed = { λ _. false };

    ghost moment = { λ _. 0 };

    ghost image_since = { λ _ _ _. ⊥ };

    ghost reads_as = { λ _ _. ⊥ };

    ghost counts_now = { λ _ _ _ _ _ none. none };

    ghost has_room = { λ _ _. Unit {0} };

    fn reserve(&mut self, alloc: Global, bytes: u64) -> Result<(), OutOfMemory> {
        let _ = alloc;
        let _ = bytes;
        Ok(())
    }

    fn deliver(&mut self, alloc: Global, line: &[u8]) -> Result<(), DestError> {
        let _ = alloc;
        let _ = line;
        Ok(())
    }
}

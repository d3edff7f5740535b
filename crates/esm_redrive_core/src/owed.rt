// The deletions that calls of a redrive owe.
ghost use Rattle.std.specs.Prelude.{◌≡◌, All, IfOk, length, reverse};
ghost use Rattle.esm_book.specs.Decided.{lengths_of};
ghost use Rattle.esm_redrive_core.specs.Kept.{HasShortPayload, payloads_in};

use esm_model::{Fate, LaneId, OutOfMemory, Places, Text};
use std::alloc::Global;

/// A deletion that a call owes, with its payload, and with its line if a message is moved.
#[derive(Drop, Debug)]
pub(crate) struct Gift {
    pub by: Option<LaneId>,
    pub places: Places,
    pub fate: Fate,
    pub line: Option<Text>,
    pub moment: u64,
    pub payload: Vec<u8>,
}

/// The lengths of the payloads in bytes, from the last deletion to the first.
pub(crate) fn lengths_in(alloc: Global, gifts: &[Gift]) -> Result<Vec<u32>, OutOfMemory>
    requires { All HasShortPayload gifts.now }
    ensures { IfOk result (λ lengths. lengths.items ≡ lengths_of (payloads_in (reverse gifts.now))) }
{
    let mut lengths = Vec::new(alloc);
    let mut index = gifts.len();
    while index > 0 {
        index -= 1;
        lengths.push(length_of(&gifts[index]))?;
    }
    Ok(lengths)
}

/// The length of its payload.
fn length_of(gift: &Gift) -> u32
    requires { HasShortPayload gift.now }
    ensures { result ≡ length gift.now.payload.items }
{
    gift.payload.len() as u32
}

// Buffers for the entries of the next payloads, so that adding these takes no memory.
ghost use Rattle.std.specs.Prelude.{◌≡◌, ◌+◌, ◌-◌, ◌<◌, ◌≤◌, ◌^◌, ◌∷◌, ◌++◌};
ghost use Rattle.std.specs.Prelude.{ℕ, [], length, take, drop, IfOk, IfSome, IfNone, OnOk, OnErr, vec_len, vec_capacity};
ghost use Rattle.esm_journal.specs.File.{entry};
ghost use Rattle.esm_journal.specs.Room.{HasRoom, room_after, room_of, total_room, AreSpares};

use esm_model::MAX_PAYLOAD;
use std::alloc::{AllocError, Global};
use std::collections::VecDeque;

/// Fills an empty buffer with an entry's bytes behind its gate, and a next gate that is closed.
fn filled(frame: Vec<u8>, payload: &[u8]) -> Result<Vec<u8>, AllocError>
    requires empty { vec_len frame ≡ 0 }
    requires short { length payload.now ≤ MAX_PAYLOAD }
    ensures filled { IfOk result (λ frame. frame.items ≡ entry payload.now ++ 0 ∷ []) }
    ensures full { OnErr result (vec_capacity frame < length payload.now + 5) }
{
    let mut frame = frame;
    frame.extend_from_slice(&(payload.len() as u32).to_be_bytes())?;
    frame.extend_from_slice(payload)?;
    frame.push(0)?;
    Ok(frame)
}

/// Takes the first spare buffer, if an entry of `size` bytes fits into it.
fn take_spare(spares: &mut VecDeque<Vec<u8>>, size: usize) -> Option<Vec<u8>>
    ensures taken { IfSome result (λ spare. spares.old.items ≡ spare ∷ spares.new.items) }
    ensures fits { IfSome result (λ spare. size ≤ vec_capacity spare) }
    ensures kept { IfNone result (spares.new.items ≡ spares.old.items) }
    ensures missing { (n : ℕ) → n + 5 ≡ size → AreSpares spares.old.items → IfNone result (HasRoom (room_of spares.old.items) n → ⊥) }
{
    let fits = match spares.front() {
        Some(spare) => spare.capacity() >= size,
        None => false,
    };
    if fits { spares.pop_front() } else { None }
}

/// The bytes of a payload's entry behind its gate, and a closed next gate. Uses the first spare buffer if the entry fits
/// into it; otherwise allocates one and drops the spares. Fails also if the file would have 2^64 bytes or more.
pub(crate) fn framed(
    alloc: Global,
    spares: &mut VecDeque<Vec<u8>>,
    end: u64,
    payload: &[u8],
) -> Result<Vec<u8>, AllocError>
    requires spares { AreSpares spares.old.items }
    requires total { end + total_room spares.old.items < 2 ^ 64 }
    requires short { length payload.now ≤ MAX_PAYLOAD }
    ensures framed { IfOk result (λ frame. frame.items ≡ entry payload.now ++ 0 ∷ []) }
    ensures spares { AreSpares spares.new.items }
    ensures fewer { length spares.new.items ≤ length spares.old.items }
    ensures used { OnOk result (0 < length spares.old.items → length spares.new.items < length spares.old.items) }
    ensures total { OnOk result (end + length payload.now + 5 + total_room spares.new.items < 2 ^ 64) }
    ensures room { OnOk result (room_of spares.new.items ≡ room_after (room_of spares.old.items) (length payload.now)) }
    ensures kept { OnErr result (spares.new.items ≡ spares.old.items) }
    ensures missing { OnErr result (HasRoom (room_of spares.old.items) (length payload.now) → ⊥) }
{
    let size = payload.len() + 5;
    match take_spare(spares, size) {
        Some(spare) => filled(spare, payload),
        None => {
            if u64::MAX - end < size as u64 {
                return Err(AllocError);
            }
            let frame = filled(Vec::with_capacity(alloc, size)?, payload)?;
            spares.clear();
            Ok(frame)
        }
    }
}

/// Allocates a buffer for the entry of a payload of each length, in order. `end` is the number of the file's bytes before
/// them; fails also if the file would have 2^64 bytes or more.
pub(crate) fn make_spares(
    alloc: Global,
    end: u64,
    lengths: &[u32],
) -> Result<VecDeque<Vec<u8>>, AllocError>
    ensures spares { IfOk result (λ spares. AreSpares spares.items) }
    ensures room { IfOk result (λ spares. room_of spares.items ≡ lengths.now) }
    ensures total { IfOk result (λ spares. end + total_room spares.items < 2 ^ 64) }
{
    let mut spares = VecDeque::new(alloc);
    let mut last = end;
    for length in lengths {
        let size = *length as usize + 5;
        if u64::MAX - last < size as u64 {
            return Err(AllocError);
        }
        spares.push_back(Vec::with_capacity(alloc, size)?)?;
        last += size as u64;
    }
    Ok(spares)
}

/// Cuts the payload out of an entry's bytes: drops the length before it and the gate after it.
pub(crate) fn payload_of(frame: Vec<u8>) -> Vec<u8>
    requires { 5 ≤ vec_len frame }
    ensures { result.items ≡ take (vec_len frame - 5) (drop 4 frame.items) }
{
    let mut frame = frame;
    let count = frame.len() - 5;
    frame.as_mut_slice().rotate_left(4);
    frame.truncate(count);
    frame
}

// The bytes of a whole list of payloads, and copies of them.
ghost use Rattle.std.specs.Prelude.{◌≡◌, ◌+◌, ◌<◌, ◌≤◌, ◌^◌, [], ◌∷◌, ◌++◌, length, IfOk, vec_len, vec_capacity};
ghost use Rattle.esm_journal.specs.File.{entries, AreShort};
ghost use Rattle.esm_journal.specs.Room.{total_room};
ghost use Rattle.esm_journal.specs.Replace.{first_too_long};

use crate::format::FIRST_GATE;
use esm_model::{Bytes, MAX_PAYLOAD};
use std::alloc::{AllocError, Global};
use std::collections::VecDeque;

/// The length in bytes of the first payload longer than `MAX_PAYLOAD`.
pub(crate) fn first_too_long(payloads: &[Bytes]) -> Option<u64>
    ensures { result ≡ first_too_long payloads.now }
{
    for payload in payloads {
        let size = payload.as_slice().len();
        if size > MAX_PAYLOAD {
            return Some(size as u64);
        }
    }
    None
}

/// The bytes of a list of payloads: their entries behind open gates, and a closed last gate.
pub(crate) fn list_bytes(alloc: Global, payloads: &[Bytes]) -> Result<Vec<u8>, AllocError>
    requires { AreShort payloads.now }
    ensures { IfOk result (λ list. list.items ≡ entries payloads.now ++ 0 ∷ []) }
{
    let mut list = Vec::new(alloc);
    for payload in payloads {
        let bytes = payload.as_slice();
        list.push(1)?;
        list.extend_from_slice(&(bytes.len() as u32).to_be_bytes())?;
        list.extend_from_slice(bytes)?;
    }
    list.push(0)?;
    Ok(list)
}

/// Copies payloads, with capacity for `more` further ones.
pub(crate) fn copies(
    alloc: Global,
    payloads: &[Bytes],
    more: usize,
) -> Result<Vec<Bytes>, AllocError>
    ensures same { IfOk result (λ copies. copies.items ≡ payloads.now) }
    ensures places { IfOk result (λ copies. vec_len copies + more ≤ vec_capacity copies) }
{
    let mut copies = Vec::with_capacity(alloc, payloads.len())?;
    for payload in payloads {
        copies.push(Bytes::from_vec(payload.as_slice().to_vec(alloc)?))?;
    }
    copies.reserve(more)?;
    Ok(copies)
}

/// A list that is ready to be written: its bytes behind the seal, and its payloads.
#[derive(Drop)]
pub(crate) struct Prepared {
    pub(crate) bytes: Vec<u8>,
    pub(crate) payloads: Vec<Bytes>,
}

/// Prepares a list to be written, with capacity for one more payload for each spare buffer. Fails also if the file would
/// grow to 2^64 bytes or more with these.
pub(crate) fn prepare(
    alloc: Global,
    payloads: &[Bytes],
    spares: &VecDeque<Vec<u8>>,
) -> Result<Prepared, AllocError>
    requires short { AreShort payloads.now }
    requires fits { total_room spares.now.items < 2 ^ 64 }
    ensures bytes { IfOk result (λ made. made.bytes.items ≡ entries payloads.now ++ 0 ∷ []) }
    ensures payloads { IfOk result (λ made. made.payloads.items ≡ payloads.now) }
    ensures places { IfOk result (λ made. vec_len made.payloads + length spares.now.items ≤ vec_capacity made.payloads) }
    ensures total { IfOk result (λ made. 17 + vec_len made.bytes + total_room spares.now.items < 2 ^ 64) }
{
    let bytes = list_bytes(alloc, payloads)?;
    let payloads = copies(alloc, payloads, spares.len())?;
    let end = FIRST_GATE + bytes.len() as u64;
    if u64::MAX - end < room_bytes(spares) {
        return Err(AllocError);
    }
    Ok(Prepared { bytes, payloads })
}

/// The bytes of all entries that fit into the spare buffers: the sum of their capacities.
pub(crate) fn room_bytes(spares: &VecDeque<Vec<u8>>) -> u64
    requires { total_room spares.now.items < 2 ^ 64 }
    ensures { result ≡ total_room spares.now.items }
{
    let mut total = 0;
    for i in 0..spares.len() {
        total += spares[i].capacity() as u64;
    }
    total
}

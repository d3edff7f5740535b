// Reads the fields of a payload from the front of its bytes.
ghost use Rattle.std.specs.Prelude.{◌≡◌};
ghost use Rattle.std.specs.Int.{w32, w64};
ghost use Rattle.esm_journal_record.specs.declared.field.ReadError.TheVariants.{Memory};
ghost use Rattle.esm_journal_record.specs.Parsing.{Gives, number_at, byte_at, shard_at, moment_at, tries_at, fate_at, taken, text_at, flagged_at, fate_of};

use esm_model::{
    Bytes, Fate, MAX_DATA, MAX_MOMENT, MAX_SHARD, MAX_TRIES, OutOfMemory, WindowState,
};
use std::alloc::{AllocError, AllocFailed, Global};

/// Why a field could not be read.
#[derive(Drop, Debug)]
pub(crate) enum ReadError {
    Memory,
    NoPayload,
}

impl From<AllocError> for ReadError {
    ghost from_gives = { λ _ e. e ≡ Memory };

    fn from(_: AllocError) -> ReadError {
        ReadError::Memory
    }
}

impl<T: Drop> From<AllocFailed<T>> for ReadError {
    ghost from_gives = { λ _ e. e ≡ Memory };

    fn from(_: AllocFailed<T>) -> ReadError {
        ReadError::Memory
    }
}

impl From<OutOfMemory> for ReadError {
    ghost from_gives = { λ _ e. e ≡ Memory };

    fn from(_: OutOfMemory) -> ReadError {
        ReadError::Memory
    }
}

#[tactic(auto, unfolding(crate::specs::Parsing::number_at))]
fn read_u64(bytes: &[u8]) -> Result<(u64, &[u8]), ReadError>
    ensures { Gives (λ x. (x.0, x.1.now)) result (number_at w64 bytes.now) }
{
    if bytes.len() < 8 {
        return Err(ReadError::NoPayload);
    }
    let (front, rest) = bytes.split_at(8);
    let number = u64::from_be_bytes([
        front[0], front[1], front[2], front[3], front[4], front[5], front[6], front[7],
    ]);
    Ok((number, rest))
}

#[tactic(auto, unfolding(crate::specs::Parsing::number_at))]
pub(crate) fn read_u32(bytes: &[u8]) -> Result<(u32, &[u8]), ReadError>
    ensures { Gives (λ x. (x.0, x.1.now)) result (number_at w32 bytes.now) }
{
    if bytes.len() < 4 {
        return Err(ReadError::NoPayload);
    }
    let (front, rest) = bytes.split_at(4);
    let number = u32::from_be_bytes([front[0], front[1], front[2], front[3]]);
    Ok((number, rest))
}

#[tactic(auto, unfolding(crate::specs::Parsing::byte_at))]
pub(crate) fn read_byte(bytes: &[u8]) -> Result<(u8, &[u8]), ReadError>
    ensures { Gives (λ x. (x.0, x.1.now)) result (byte_at bytes.now) }
{
    match bytes {
        [] => Err(ReadError::NoPayload),
        [byte, rest @ ..] => Ok((*byte, rest)),
    }
}

#[tactic(auto, unfolding(crate::specs::Parsing::shard_at))]
pub(crate) fn read_shard(bytes: &[u8]) -> Result<(u64, &[u8]), ReadError>
    ensures { Gives (λ x. (x.0, x.1.now)) result (shard_at bytes.now) }
{
    let (shard, rest) = read_u64(bytes)?;
    if shard > MAX_SHARD {
        return Err(ReadError::NoPayload);
    }
    Ok((shard, rest))
}

/// Reads a moment, or the start of a window, in milliseconds.
#[tactic(auto, unfolding(crate::specs::Parsing::moment_at))]
pub(crate) fn read_moment(bytes: &[u8]) -> Result<(u64, &[u8]), ReadError>
    ensures { Gives (λ x. (x.0, x.1.now)) result (moment_at bytes.now) }
{
    let (moment, rest) = read_u64(bytes)?;
    if moment > MAX_MOMENT {
        return Err(ReadError::NoPayload);
    }
    Ok((moment, rest))
}

#[tactic(auto, unfolding(crate::specs::Parsing::tries_at))]
pub(crate) fn read_tries(bytes: &[u8]) -> Result<(u32, &[u8]), ReadError>
    ensures { Gives (λ x. (x.0, x.1.now)) result (tries_at bytes.now) }
{
    let (tries, rest) = read_u32(bytes)?;
    if tries < 1 || tries > MAX_TRIES {
        return Err(ReadError::NoPayload);
    }
    Ok((tries, rest))
}

fn fate_of(byte: u8) -> Option<Fate>
    ensures { result ≡ fate_of byte }
{
    match byte {
        1 => Some(Fate::Succeeded),
        2 => Some(Fate::Filtered),
        3 => Some(Fate::Expired),
        4 => Some(Fate::Exhausted),
        _ => None,
    }
}

#[tactic(auto, unfolding(crate::specs::Parsing::fate_at))]
pub(crate) fn read_fate(bytes: &[u8]) -> Result<(Fate, &[u8]), ReadError>
    ensures { Gives (λ x. (x.0, x.1.now)) result (fate_at bytes.now) }
{
    let (byte, rest) = read_byte(bytes)?;
    match fate_of(byte) {
        None => Err(ReadError::NoPayload),
        Some(fate) => Ok((fate, rest)),
    }
}

/// The first `count` bytes, and those after them.
#[tactic(auto, unfolding(crate::specs::Parsing::taken))]
pub(crate) fn take(count: usize, bytes: &[u8]) -> Result<(&[u8], &[u8]), ReadError>
    ensures { Gives (λ x. (x.0.now, x.1.now)) result (taken count bytes.now) }
{
    if bytes.len() < count {
        return Err(ReadError::NoPayload);
    }
    Ok(bytes.split_at(count))
}

/// Reads the length of a state's text, and the text.
#[tactic(auto, unfolding(crate::specs::Parsing::text_at))]
pub(crate) fn read_text(alloc: Global, bytes: &[u8]) -> Result<(Bytes, &[u8]), ReadError>
    ensures { Gives (λ x. (x.0, x.1.now)) result (text_at bytes.now) }
{
    let (count, rest) = read_u32(bytes)?;
    if count as usize > MAX_DATA {
        return Err(ReadError::NoPayload);
    }
    let (text, rest) = take(count as usize, rest)?;
    let text = Vec::from_slice(alloc, text)?;
    Ok((Bytes::from_vec(text), rest))
}

/// Reads a flag and, if it is 1, a window and its state.
#[tactic(auto, unfolding(crate::specs::Parsing::flagged_at))]
pub(crate) fn read_flagged(
    alloc: Global,
    bytes: &[u8],
) -> Result<(Option<WindowState>, &[u8]), ReadError>
    ensures { Gives (λ x. (x.0, x.1.now)) result (flagged_at bytes.now) }
{
    let (flag, rest) = read_byte(bytes)?;
    if flag == 0 {
        return Ok((None, rest));
    }
    if flag != 1 {
        return Err(ReadError::NoPayload);
    }
    let (window, rest) = read_moment(rest)?;
    let (text, rest) = read_text(alloc, rest)?;
    Ok((Some(WindowState { window, text }), rest))
}

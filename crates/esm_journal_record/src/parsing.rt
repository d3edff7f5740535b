// Reads a payload.
ghost use Rattle.std.specs.Prelude.{◌≡◌, ◌≢◌, IfOk, IfSome, IfNone};
ghost use Rattle.esm_journal_record.specs.Payload.{payload_of, IsSaid, may_keep, is_deletion};
ghost use Rattle.esm_journal_record.specs.Parsing.{Gives, said_of, said_at, fates_at, closed_at, deleted_at, state_at, tried_at, window_tried_at, replayed_at};
ghost use Rattle.esm_journal_record.specs.declared.said.Said.{Said};

use crate::field::{
    ReadError, read_byte, read_fate, read_flagged, read_moment, read_shard, read_text, read_tries,
};
use crate::names::read_named;
use crate::said::Said;
use crate::word::Word;
use esm_model::{Fate, OutOfMemory, WindowState};
use std::alloc::Global;

fn may_keep(fate: Fate, state: &Option<WindowState>) -> bool
    ensures { result ≡ may_keep fate state.now }
{
    match (fate, state) {
        (Fate::Succeeded, _) => true,
        (_, None) => true,
        (_, Some(_)) => false,
    }
}

fn is_deletion(fate: Fate) -> bool
    ensures { result ≡ is_deletion fate }
{
    match fate {
        Fate::Expired => false,
        _ => true,
    }
}

#[tactic(auto, unfolding(crate::specs::Parsing::fates_at))]
fn read_fates(alloc: Global, bytes: &[u8]) -> Result<(Said, &[u8]), ReadError>
    ensures { Gives (λ x. (x.0, x.1.now)) result (fates_at bytes.now) }
{
    let (shard, rest) = read_shard(bytes)?;
    let (fate, rest) = read_fate(rest)?;
    let (moment, rest) = read_moment(rest)?;
    let (state, rest) = read_flagged(alloc, rest)?;
    let (named, rest) = read_named(alloc, Word::Sequence, rest)?;
    if !may_keep(fate, &state) {
        return Err(ReadError::NoPayload);
    }
    let said = Said::Fates {
        shard,
        fate,
        moment,
        state,
        places: named.places,
        texts: named.texts,
    };
    Ok((said, rest))
}

#[tactic(auto, unfolding(crate::specs::Parsing::closed_at))]
fn read_closed(bytes: &[u8]) -> Result<(Said, &[u8]), ReadError>
    ensures { Gives (λ x. (x.0, x.1.now)) result (closed_at bytes.now) }
{
    let (shard, rest) = read_shard(bytes)?;
    let (window, rest) = read_moment(rest)?;
    let (moment, rest) = read_moment(rest)?;
    let said = Said::Closed {
        shard,
        window,
        moment,
    };
    Ok((said, rest))
}

#[tactic(auto, unfolding(crate::specs::Parsing::deleted_at))]
fn read_deleted(alloc: Global, bytes: &[u8]) -> Result<(Said, &[u8]), ReadError>
    ensures { Gives (λ x. (x.0, x.1.now)) result (deleted_at bytes.now) }
{
    let (fate, rest) = read_fate(bytes)?;
    if !is_deletion(fate) {
        return Err(ReadError::NoPayload);
    }
    let (moment, rest) = read_moment(rest)?;
    let (named, rest) = read_named(alloc, Word::MessageId, rest)?;
    let said = Said::Deleted {
        fate,
        moment,
        places: named.places,
        texts: named.texts,
    };
    Ok((said, rest))
}

#[tactic(auto, unfolding(crate::specs::Parsing::state_at))]
fn read_state(alloc: Global, bytes: &[u8]) -> Result<(Said, &[u8]), ReadError>
    ensures { Gives (λ x. (x.0, x.1.now)) result (state_at bytes.now) }
{
    let (shard, rest) = read_shard(bytes)?;
    let (window, rest) = read_moment(rest)?;
    let (moment, rest) = read_moment(rest)?;
    let (text, rest) = read_text(alloc, rest)?;
    let said = Said::State {
        shard,
        moment,
        state: WindowState { window, text },
    };
    Ok((said, rest))
}

#[tactic(auto, unfolding(crate::specs::Parsing::tried_at))]
fn read_tried(alloc: Global, bytes: &[u8]) -> Result<(Said, &[u8]), ReadError>
    ensures { Gives (λ x. (x.0, x.1.now)) result (tried_at bytes.now) }
{
    let (shard, rest) = read_shard(bytes)?;
    let (moment, rest) = read_moment(rest)?;
    let (tries, rest) = read_tries(rest)?;
    let (named, rest) = read_named(alloc, Word::Sequence, rest)?;
    let said = Said::Tried {
        shard,
        moment,
        tries,
        places: named.places,
        texts: named.texts,
    };
    Ok((said, rest))
}

#[tactic(auto, unfolding(crate::specs::Parsing::window_tried_at))]
fn read_window_tried(bytes: &[u8]) -> Result<(Said, &[u8]), ReadError>
    ensures { Gives (λ x. (x.0, x.1.now)) result (window_tried_at bytes.now) }
{
    let (shard, rest) = read_shard(bytes)?;
    let (window, rest) = read_moment(rest)?;
    let (moment, rest) = read_moment(rest)?;
    let (tries, rest) = read_tries(rest)?;
    let said = Said::WindowTried {
        shard,
        window,
        moment,
        tries,
    };
    Ok((said, rest))
}

#[tactic(auto, unfolding(crate::specs::Parsing::replayed_at))]
fn read_replayed(alloc: Global, bytes: &[u8]) -> Result<(Said, &[u8]), ReadError>
    ensures { Gives (λ x. (x.0, x.1.now)) result (replayed_at bytes.now) }
{
    let (shard, rest) = read_shard(bytes)?;
    let (moment, rest) = read_moment(rest)?;
    let (named, rest) = read_named(alloc, Word::Sequence, rest)?;
    let said = Said::Replayed {
        shard,
        moment,
        places: named.places,
        texts: named.texts,
    };
    Ok((said, rest))
}

#[tactic(auto, unfolding(crate::specs::Parsing::said_at))]
fn read_kind(alloc: Global, kind: u8, bytes: &[u8]) -> Result<(Said, &[u8]), ReadError>
    ensures { Gives (λ x. (x.0, x.1.now)) result (said_at kind bytes.now) }
{
    match kind {
        1 => read_fates(alloc, bytes),
        2 => read_closed(bytes),
        3 => read_deleted(alloc, bytes),
        4 => read_state(alloc, bytes),
        5 => read_tried(alloc, bytes),
        6 => read_window_tried(bytes),
        7 => read_replayed(alloc, bytes),
        _ => Err(ReadError::NoPayload),
    }
}

#[tactic(auto, unfolding(crate::specs::Parsing::said_of))]
fn read_whole(alloc: Global, bytes: &[u8]) -> Result<Said, ReadError>
    ensures { Gives (λ said. said) result (said_of bytes.now) }
{
    let (kind, rest) = read_byte(bytes)?;
    let (said, rest) = read_kind(alloc, kind, rest)?;
    if !rest.is_empty() {
        return Err(ReadError::NoPayload);
    }
    Ok(said)
}

/// What the payload says; `None` if and only if the bytes are no payload of a mapping's journal. Linear in the bytes.
pub fn read_said(alloc: Global, bytes: &[u8]) -> Result<Option<Said>, OutOfMemory>
    ensures found { IfOk result (λ o. IfSome o (λ s. IsSaid s × (bytes.now ≡ payload_of s))) }
    ensures only { (s : Said) → IsSaid s → bytes.now ≡ payload_of s → IfOk result (λ o. o ≡ Some s) }
    ensures value { IfOk result (λ o. o ≡ said_of bytes.now) }
{
    match read_whole(alloc, bytes) {
        Ok(said) => Ok(Some(said)),
        Err(ReadError::NoPayload) => Ok(None),
        Err(ReadError::Memory) => Err(OutOfMemory),
    }
}

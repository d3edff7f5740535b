// The pieces that are still to be called, the next first.
ghost use Rattle.std.specs.Prelude.{◌≡◌, ◌+◌, ◌<◌, ◌≤◌, [], ◌++◌, All, OnOk, IfOk, IfSome, IfNone, Some, length, slice_get};
ghost use Rattle.std.specs.VecDeque.{deque_len, deque_capacity};
ghost use Rattle.esm_model.specs.Valid.{IsStreamConfig, IsValidRecord};
ghost use Rattle.esm_replay_model.specs.ReplaySetting.{ReplaySetting, config_of};
ghost use Rattle.esm_replay.specs.Waiting.{put_ahead, without_front, front_of, HasNamed, IsPlaced};
ghost use Rattle.esm_replay.specs.Batch.{IsNextBatch, IsAmong, StandWithin};
ghost use Rattle.esm_replay.specs.Ending.{ArePartsOf, EndsSo, StaysPlaced};

use crate::batch::{Batch, batch_of};
use crate::parts::{Parts, parts_of};
use crate::piece::Piece;
use esm_model::{Config, OutOfMemory, Record, Verdict};
use std::alloc::Global;
use std::collections::VecDeque;
use std::marker::Model;

/// The pieces that are still to be called, the next first; each has at least one record.
#[derive(Drop)]
pub struct Waiting {
    pieces: VecDeque<Piece>,
}

impl Model for Waiting {
    ghost use Rattle.std.specs.Prelude.{◌-◌, All};
    ghost use Rattle.std.specs.VecDeque.{deque_len, deque_capacity};
    ghost use Rattle.esm_replay.specs.Waiting.{Waiting, HasNamed};

    ghost Value = { Waiting };

    ghost view = { λ w. record { pieces = w.pieces.items; room = deque_capacity w.pieces - deque_len w.pieces } };

    ghost invariant = { λ w. All HasNamed w.pieces.items };
}

/// Puts the piece ahead of the others, if it has a record.
fn put(pieces: &mut VecDeque<Piece>, piece: Piece)
    requires { deque_len pieces.old < deque_capacity pieces.old }
    ensures items { pieces.new.items ≡ put_ahead piece.shard piece.named pieces.old.items }
    ensures len { deque_len pieces.new ≤ deque_len pieces.old + 1 }
    ensures capacity { deque_capacity pieces.new ≡ deque_capacity pieces.old }
{
    if !piece.named().is_empty() {
        pieces.push_front_reserved(piece);
    }
}

/// Removes the first `count` records of the first piece.
fn drop_first(pieces: &mut VecDeque<Piece>, count: usize)
    requires { count ≤ length (front_of pieces.old.items) }
    ensures items { pieces.new.items ≡ without_front count pieces.old.items }
    ensures len { deque_len pieces.new ≤ deque_len pieces.old }
    ensures capacity { deque_capacity pieces.new ≡ deque_capacity pieces.old }
{
    if let Some(piece) = pieces.pop_front() {
        put(pieces, piece.without_front(count));
    }
}

impl Waiting {
    pub(crate) fn new(alloc: Global) -> Waiting
        ensures { result.pieces ≡ [] }
    {
        Waiting {
            pieces: VecDeque::new(alloc),
        }
    }

    /// Adds the piece behind the others, if it has a record.
    pub(crate) fn add_last(&mut self, piece: Piece) -> Result<(), OutOfMemory>
        ensures { OnOk result (self.new.pieces ≡ self.old.pieces ++ put_ahead piece.shard piece.named []) }
    {
        if !piece.named().is_empty() {
            self.pieces.reserve(1)?;
            self.pieces.push_back_reserved(piece);
        }
        Ok(())
    }

    /// The first piece.
    fn front(&self) -> Option<&Piece>
        ensures some { IfSome result (λ p. slice_get self.now.pieces 0 ≡ Some p.now) }
        ensures filled { IfSome result (λ p. HasNamed p.now) }
        ensures none { IfNone result (self.now.pieces ≡ []) }
    {
        self.pieces.front()
    }

    /// Reserves room for the parts that the end of a call may leave.
    pub fn reserve(&mut self) -> Result<(), OutOfMemory>
        ensures pieces { self.new.pieces ≡ self.old.pieces }
        ensures room { self.old.room ≤ self.new.room }
        ensures ok { OnOk result (2 ≤ self.new.room) }
    {
        self.pieces.reserve(2)?;
        Ok(())
    }

    /// Returns the next call: the longest prefix of the first piece within the batch size and the length of an event.
    /// `None` if and only if nothing waits. `OutOfMemory`: an allocation failed.
    pub fn next_batch(
        &self,
        alloc: Global,
        config: &Config,
        records: &[Record],
    ) -> Result<Option<Batch>, OutOfMemory>
        requires config { IsStreamConfig config.now }
        requires valid { All IsValidRecord records.now }
        requires stand { StandWithin (length records.now) self.now.pieces }
        ensures call { IfOk result (λ batch. (s : ReplaySetting) → config_of s ≡ config.now →
            All (IsPlaced s records.now) self.now.pieces → IsNextBatch s records.now self.now.pieces batch) }
        ensures among { IfOk result (λ batch. IfSome batch (IsAmong (length records.now))) }
    {
        match self.front() {
            None => Ok(None),
            Some(piece) => {
                let batch = batch_of(alloc, config, records, piece.shard(), piece.named())?;
                Ok(Some(batch))
            }
        }
    }

    /// Returns the parts into which the verdict splits what remains of a call of the first `count` records of the first
    /// piece.
    pub fn parts(&self, alloc: Global, count: u32, verdict: Verdict) -> Result<Parts, OutOfMemory>
        requires some { 1 ≤ length self.now.pieces }
        requires within { count ≤ length (front_of self.now.pieces) }
        requires succeeded { verdict.succeeded ≤ count }
        ensures { IfOk result (ArePartsOf verdict count self.now.pieces) }
    {
        match self.front() {
            None => unreachable!(),
            Some(piece) => parts_of(
                alloc,
                piece.shard(),
                &piece.named()[..count as usize],
                verdict,
            ),
        }
    }

    /// Ends a call of the first `count` records of the first piece, of which these parts remain. Takes no memory.
    pub fn end_call(&mut self, count: u32, parts: Parts)
        requires room { 2 ≤ self.old.room }
        requires within { count ≤ length (front_of self.old.pieces) }
        ensures ended { EndsSo count parts self.old.pieces self.new.pieces }
        ensures placed { StaysPlaced count parts self.old.pieces self.new.pieces }
    {
        drop_first(&mut self.pieces, count as usize);
        put(&mut self.pieces, parts.rest);
        put(&mut self.pieces, parts.first);
    }
}

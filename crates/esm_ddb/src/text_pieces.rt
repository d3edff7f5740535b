// Text in pieces, read from its front.
ghost use Rattle.std.specs.Prelude.{◌≡◌, ◌<◌, ◌≤◌, ◌++◌, [], drop, length, take, OnOk};
ghost use Rattle.std.specs.List.{concat};

use esm_model::{Bytes, OutOfMemory};
use std::alloc::Global;
use std::collections::VecDeque;
use std::marker::Model;

/// Bytes in pieces, each of which is freed once it has been read. Contracts see the bytes that are left.
#[derive(Drop)]
pub struct TextPieces {
    /// The piece that is being read.
    first: Bytes,
    /// How many of its bytes have been read.
    at: usize,
    others: VecDeque<Bytes>,
}

impl Model for TextPieces {
    ghost use Rattle.std.specs.Prelude.{◌≤◌, ◌++◌, ℕ, List, drop, length};
    ghost use Rattle.std.specs.List.{concat};

    ghost Value = { List ℕ };

    ghost view = { λ t. drop t.at t.first ++ concat t.others.items };

    ghost invariant = { λ t. t.at ≤ length t.first };
}

/// Appends a piece without copying it. An empty one takes no room.
pub fn push_piece(pieces: &mut Vec<Bytes>, piece: Bytes) -> Result<(), OutOfMemory>
    ensures { OnOk result (concat pieces.new.items ≡ concat pieces.old.items ++ piece) }
{
    if piece.as_slice().is_empty() {
        return Ok(());
    }
    pieces.push(piece)?;
    Ok(())
}

/// Moves on to the next piece while the first one has no bytes left.
fn go_on(first: &mut Bytes, at: &mut usize, others: &mut VecDeque<Bytes>)
    requires { at.old ≤ length first.old }
    ensures same { drop at.new first.new ++ concat others.new.items ≡ drop at.old first.old ++ concat others.old.items }
    ensures within { at.new ≤ length first.new }
    ensures end { at.new ≡ length first.new → concat others.new.items ≡ [] }
{
    while *at == first.as_slice().len() {
        let Some(next) = others.pop_front() else {
            return;
        };
        *first = next;
        *at = 0;
    }
}

/// Copies bytes from `at` on to the front of `into`, as many as both have. Returns how many, and moves `at` behind them.
fn give_front(bytes: &[u8], at: &mut usize, into: &mut [u8]) -> usize
    requires { at.old ≤ length bytes.now }
    ensures within { at.new ≤ length bytes.now }
    ensures fits { result ≤ length into.old }
    ensures given { drop at.old bytes.now ≡ take result into.new ++ drop at.new bytes.now }
    ensures end { result ≡ 0 → 0 < length into.old → at.new ≡ length bytes.now }
{
    let (_, rest) = bytes.split_at(*at);
    let count = into.len().min(rest.len());
    let (front, _) = rest.split_at(count);
    into[..count].copy_from_slice(front);
    *at += count;
    count
}

impl TextPieces {
    /// Makes an empty text. Takes no memory.
    pub fn new(alloc: Global) -> TextPieces
        ensures { result ≡ [] }
    {
        TextPieces {
            first: Bytes::from_vec(Vec::new(alloc)),
            at: 0,
            others: VecDeque::new(alloc),
        }
    }

    /// Appends a piece without copying it. An empty one takes no room.
    pub fn push(&mut self, piece: Bytes) -> Result<(), OutOfMemory>
        ensures { OnOk result (self.new ≡ self.old ++ piece) }
    {
        if piece.as_slice().is_empty() {
            return Ok(());
        }
        match self.others.push_back(piece) {
            Ok(()) => Ok(()),
            Err(_) => Err(OutOfMemory),
        }
    }

    /// Takes bytes from the front, copies them to the front of `into`, and returns how many. If `into` is not empty, 0
    /// means the end.
    pub fn read(&mut self, into: &mut [u8]) -> usize
        ensures within { result ≤ length into.old }
        ensures taken { self.old ≡ take result into.new ++ self.new }
        ensures end { result ≡ 0 → 0 < length into.old → self.new ≡ [] }
    {
        go_on(&mut self.first, &mut self.at, &mut self.others);
        give_front(self.first.as_slice(), &mut self.at, into)
    }
}

// A piece of named records of a shard; records are removed from its front without moving the others.
ghost use Rattle.std.specs.Prelude.{◌≡◌, ◌≤◌, ◌==◌, IfOk, length, take, drop};

use crate::rows::Named;
use esm_model::OutOfMemory;
use std::alloc::Global;
use std::marker::Model;

/// Named records of a shard that are called together.
#[derive(Drop)]
pub struct Piece {
    shard: u64,
    named: Vec<Named>,
    /// How many of them are already removed from the front.
    start: usize,
}

impl Model for Piece {
    ghost use Rattle.std.specs.Prelude.{◌≤◌, drop, length};
    ghost use Rattle.esm_replay.specs.Waiting.{NamedPiece};

    ghost Value = { NamedPiece };

    ghost view = { λ p. record { shard = p.shard; named = drop p.start p.named.items } };

    ghost invariant = { λ p. p.start ≤ length p.named.items };
}

impl Piece {
    /// A piece with a copy of these records.
    pub(crate) fn of(alloc: Global, shard: u64, named: &[Named]) -> Result<Piece, OutOfMemory>
        ensures { IfOk result (λ piece. piece ≡ record { shard = shard; named = named.now }) }
    {
        Ok(Piece {
            shard,
            named: Vec::from_slice(alloc, named)?,
            start: 0,
        })
    }

    pub(crate) fn shard(&self) -> u64
        ensures { result ≡ self.now.shard }
    {
        self.shard
    }

    pub(crate) fn named(&self) -> &[Named]
        ensures { result.now ≡ self.now.named }
    {
        &self.named[self.start..]
    }

    /// The piece without its first `count` records. Takes no memory.
    pub(crate) fn without_front(self, count: usize) -> Piece
        requires { count ≤ length self.named }
        ensures { result ≡ record { shard = self.shard; named = drop count self.named } }
    {
        Piece {
            shard: self.shard,
            named: self.named,
            start: self.start + count,
        }
    }
}

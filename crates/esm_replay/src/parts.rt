// What remains of a call that ended.
ghost use Rattle.std.specs.Prelude.{◌≡◌, ◌≤◌, IfOk, drop, length};
ghost use Rattle.esm_replay.specs.Ending.{split_first, split_rest};

use crate::piece::Piece;
use crate::rows::Named;
use esm_model::{OutOfMemory, Rest, Verdict};
use std::alloc::Global;

/// The two pieces into which the remaining records of a call are split; a part without records is no piece.
#[derive(Drop)]
pub struct Parts {
    pub(crate) first: Piece,
    pub(crate) rest: Piece,
}

fn split_first(rest: Rest, remaining: &[Named]) -> &[Named]
    ensures { result.now ≡ split_first rest remaining.entry.now }
{
    match rest {
        Rest::Split(first) => &remaining[..(first as usize).min(remaining.len())],
        Rest::Nothing | Rest::Again | Rest::Counted | Rest::Exhausted => &remaining[..0],
    }
}

fn split_rest(rest: Rest, remaining: &[Named]) -> &[Named]
    ensures { result.now ≡ split_rest rest remaining.entry.now }
{
    match rest {
        Rest::Split(first) => &remaining[(first as usize).min(remaining.len())..],
        Rest::Nothing | Rest::Again | Rest::Counted | Rest::Exhausted => &remaining[..0],
    }
}

/// The parts into which the verdict splits what remains of a call of these records of the shard.
pub(crate) fn parts_of(
    alloc: Global,
    shard: u64,
    named: &[Named],
    verdict: Verdict,
) -> Result<Parts, OutOfMemory>
    requires { verdict.succeeded ≤ length named.now }
    ensures first { IfOk result (λ parts. parts.first ≡ record { shard = shard; named = split_first verdict.rest (drop verdict.succeeded named.now) }) }
    ensures rest { IfOk result (λ parts. parts.rest ≡ record { shard = shard; named = split_rest verdict.rest (drop verdict.succeeded named.now) }) }
{
    let remaining = &named[verdict.succeeded as usize..];
    let first = Piece::of(alloc, shard, split_first(verdict.rest, remaining))?;
    let rest = Piece::of(alloc, shard, split_rest(verdict.rest, remaining))?;
    Ok(Parts { first, rest })
}

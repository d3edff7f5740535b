// The pieces that a replay begins with: one for each shard, with its named records.
ghost use Rattle.std.specs.Prelude.{◌≡◌, ℕ, ◌<◌, ◌^◌, [], List, All, IfOk, length};
ghost use Rattle.esm_model.specs.declared.config.Config.{Config};
ghost use Rattle.esm_journal_state.specs.SaidLists.{SaidLists};
ghost use Rattle.esm_replay_model.specs.declared.range.Range.{Range};
ghost use Rattle.esm_replay_model.specs.Pieces.{first_pieces};
ghost use Rattle.esm_replay.specs.Records.{setting_with, are_named};
ghost use Rattle.esm_replay.specs.Waiting.{seen_pieces, pieces_in, IsPlaced};

use crate::piece::Piece;
use crate::rows::{Row, rows_of};
use crate::waiting::Waiting;
use esm_model::{OutOfMemory, Record};
use std::alloc::Global;
use std::collections::BTreeMap;

fn pieces_in(alloc: Global, rows: &BTreeMap<u64, Row>) -> Result<Waiting, OutOfMemory>
    ensures { IfOk result (λ waiting. waiting.pieces ≡ pieces_in rows.now.entries) }
{
    let mut waiting = Waiting::new(alloc);
    for (shard, row) in rows {
        let piece = Piece::of(alloc, *shard, row.named.as_slice())?;
        waiting.add_last(piece)?;
    }
    Ok(waiting)
}

/// Returns what is to be called first, where these records arrived and those flagged in `named` are named. The time is
/// linear in the records, times the logarithm of the number of shards.
pub fn first_waiting(
    alloc: Global,
    records: &[Record],
    named: &[bool],
) -> Result<Waiting, OutOfMemory>
    requires few { length records.now < 2 ^ 32 }
    requires each { length named.now ≡ length records.now }
    ensures pieces { IfOk result (λ waiting. (told : SaidLists) (ranges : List Range) → named.now ≡ are_named told ranges [] records.now → (config : Config) (calls : ℕ) →
        seen_pieces waiting.pieces ≡ first_pieces (setting_with config calls told ranges records.now)) }
    ensures placed { IfOk result (λ waiting. (told : SaidLists) (ranges : List Range) → named.now ≡ are_named told ranges [] records.now → (config : Config) (calls : ℕ) →
        All (IsPlaced (setting_with config calls told ranges records.now) records.now) waiting.pieces) }
{
    let rows = rows_of(alloc, records, named)?;
    let _ = rows.len();
    pieces_in(alloc, &rows)
}

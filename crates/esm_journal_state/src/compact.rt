// The shorter list of payloads that says the same.
ghost use Rattle.std.specs.Prelude.{◌≡◌, ◌≤◌, ◌++◌, List, true, length, map, max, reverse, IfOk, OnOk, IfErr};
ghost use Rattle.std.specs.List.{All, AllByRecursion};
ghost use Rattle.esm_journal_record.specs.declared.said.Said.{Said};
ghost use Rattle.esm_journal_state.specs.Bad.{IsFirstBad};
ghost use Rattle.esm_journal_state.specs.Compact.{moment_of, greatest_moment, fate_from, fates_of, tried_of, replayed_of, deleted_of};
ghost use Rattle.esm_journal_state.specs.Compact.{state_of_window, tried_of_window, IsCompacted, SameSaid};
ghost use Rattle.esm_journal_state.specs.Meaning.{history, are_good};
ghost use Rattle.esm_journal_record.specs.Payload.{IsSaid, payload_of};
ghost use Rattle.esm_journal_state.specs.Table.{IsTable};
ghost use Rattle.esm_journal_state.specs.Tells.{Tells};
ghost use Rattle.esm_journal_state.specs.SaidLists.{SaidLists, IsInOrder};

use crate::error::SaysError;
use crate::history::table_of;
use crate::piece::{Piece, pieces_of};
use crate::regroup::{by_deletion, by_fate, by_replay, by_tries};
use crate::table::{Table, Window};
use esm_journal_record::laws::read_again;
use esm_journal_record::{Said, read_said, said_bytes};
use esm_model::{Bytes, Fate, MAX_PAYLOAD, OutOfMemory, WindowState};
use std::alloc::Global;
use std::collections::BTreeMap;

fn moment_of(said: &Said) -> u64
    ensures { result ≡ moment_of said.now }
{
    match said {
        Said::Fates { moment, .. }
        | Said::Closed { moment, .. }
        | Said::Deleted { moment, .. }
        | Said::State { moment, .. }
        | Said::Tried { moment, .. }
        | Said::WindowTried { moment, .. }
        | Said::Replayed { moment, .. } => *moment,
    }
}

/// The greatest moment of the payloads, or 0.
fn greatest_moment(alloc: Global, payloads: &[Bytes]) -> Result<u64, OutOfMemory>
    ensures moment { IfOk result (λ m. m ≡ greatest_moment (history (reverse payloads.now))) }
    ensures said { OnOk result (AllByRecursion IsSaid (history (reverse payloads.now))) }
{
    let mut greatest = 0;
    for payload in payloads {
        if let Some(said) = read_said(alloc, payload.as_slice())? {
            greatest = greatest.max(moment_of(&said));
        }
    }
    Ok(greatest)
}

fn fate_from(byte: u32) -> Fate
    ensures { result ≡ fate_from byte }
{
    match byte {
        1 => Fate::Succeeded,
        2 => Fate::Filtered,
        3 => Fate::Expired,
        _ => Fate::Exhausted,
    }
}

fn push_fates(saids: &mut Vec<Said>, moment: u64, pieces: Vec<Piece>) -> Result<(), OutOfMemory>
    ensures { OnOk result (saids.new.items ≡ saids.old.items ++ map (fates_of moment) pieces.items) }
{
    for piece in pieces {
        let (shard, byte) = piece.group();
        let (places, texts) = piece.into_named();
        saids.push(Said::Fates {
            shard,
            fate: fate_from(byte),
            moment,
            state: None,
            places,
            texts,
        })?;
    }
    Ok(())
}

fn push_tries(saids: &mut Vec<Said>, moment: u64, pieces: Vec<Piece>) -> Result<(), OutOfMemory>
    ensures { OnOk result (saids.new.items ≡ saids.old.items ++ map (tried_of moment) pieces.items) }
{
    for piece in pieces {
        let (shard, tries) = piece.group();
        let (places, texts) = piece.into_named();
        saids.push(Said::Tried {
            shard,
            moment,
            tries,
            places,
            texts,
        })?;
    }
    Ok(())
}

fn push_replays(saids: &mut Vec<Said>, moment: u64, pieces: Vec<Piece>) -> Result<(), OutOfMemory>
    ensures { OnOk result (saids.new.items ≡ saids.old.items ++ map (replayed_of moment) pieces.items) }
{
    for piece in pieces {
        let (shard, _) = piece.group();
        let (places, texts) = piece.into_named();
        saids.push(Said::Replayed {
            shard,
            moment,
            places,
            texts,
        })?;
    }
    Ok(())
}

fn push_deletions(saids: &mut Vec<Said>, moment: u64, pieces: Vec<Piece>) -> Result<(), OutOfMemory>
    ensures { OnOk result (saids.new.items ≡ saids.old.items ++ map (deleted_of moment) pieces.items) }
{
    for piece in pieces {
        let (_, byte) = piece.group();
        let (places, texts) = piece.into_named();
        saids.push(Said::Deleted {
            fate: fate_from(byte),
            moment,
            places,
            texts,
        })?;
    }
    Ok(())
}

fn push_states(
    alloc: Global,
    saids: &mut Vec<Said>,
    moment: u64,
    states: &BTreeMap<Window, Bytes>,
) -> Result<(), OutOfMemory>
    ensures { OnOk result (saids.new.items ≡ saids.old.items ++ map (state_of_window moment) states.now.entries) }
{
    for (key, text) in states {
        let text = text.copy(alloc)?;
        let state = WindowState {
            window: key.1,
            text,
        };
        saids.push(Said::State {
            shard: key.0,
            moment,
            state,
        })?;
    }
    Ok(())
}

fn push_window_tries(
    saids: &mut Vec<Said>,
    moment: u64,
    window_tries: &BTreeMap<Window, u32>,
) -> Result<(), OutOfMemory>
    ensures { OnOk result (saids.new.items ≡ saids.old.items ++ map (tried_of_window moment) window_tries.now.entries) }
{
    for (key, tries) in window_tries {
        saids.push(Said::WindowTried {
            shard: key.0,
            window: key.1,
            moment,
            tries: *tries,
        })?;
    }
    Ok(())
}

/// The shorter list, each payload with this moment.
fn compact_saids(alloc: Global, table: &Table, moment: u64) -> Result<Vec<Said>, OutOfMemory>
    ensures { IfOk result (λ v. (h : List Said) → IsTable table.now h → moment ≡ greatest_moment h → IsCompacted h v.items) }
{
    let mut saids = Vec::new(alloc);
    let fates = by_fate(alloc, &table.fates)?;
    push_fates(&mut saids, moment, pieces_of(alloc, fates)?)?;
    let tries = by_tries(alloc, &table.tries)?;
    push_tries(&mut saids, moment, pieces_of(alloc, tries)?)?;
    let replays = by_replay(alloc, &table.fates, &table.replays)?;
    push_replays(&mut saids, moment, pieces_of(alloc, replays)?)?;
    let _ = table.states.len();
    push_states(alloc, &mut saids, moment, &table.states)?;
    let _ = table.window_tries.len();
    push_window_tries(&mut saids, moment, &table.window_tries)?;
    let deletions = by_deletion(alloc, &table.deletions)?;
    push_deletions(&mut saids, moment, pieces_of(alloc, deletions)?)?;
    Ok(saids)
}

/// The payloads that say these, in order.
fn payloads_of(alloc: Global, saids: &[Said]) -> Result<Vec<Bytes>, OutOfMemory>
    requires { AllByRecursion IsSaid saids.now }
    ensures { IfOk result (λ v. v.items ≡ map payload_of saids.now) }
{
    let mut payloads = Vec::new(alloc);
    for said in saids {
        let payload = said_bytes(alloc, said)?;
        payloads.push(Bytes::from_vec(payload))?;
    }
    Ok(payloads)
}

/// The shorter list of payloads that says the same as these, the oldest first: fates, tries, replays, states, windows' tries
/// and deletions, each in order and with the greatest moment of the payloads. Returns the errors of `says`.
pub fn compacted(alloc: Global, payloads: &[Bytes]) -> Result<Vec<Bytes>, SaysError>
    ensures listed { IfOk result (λ v. (saids : List Said) × IsCompacted (history (reverse payloads.now)) saids × (v.items ≡ map payload_of saids)) }
    ensures same { IfOk result (λ v. SameSaid (history (reverse v.items)) (history (reverse payloads.now))) }
    ensures fine { IfOk result (λ v. are_good (reverse v.items) ≡ true) }
    // What `says` gives of the shorter list and of these payloads is equal.
    ensures equal { IfOk result (λ v. (t u : SaidLists) → Tells t (history (reverse v.items)) → IsInOrder t
        → Tells u (history (reverse payloads.now)) → IsInOrder u → t ≡ u) }
    // Each is short enough for a journal.
    ensures short { IfOk result (λ v. All (λ payload. length payload ≤ MAX_PAYLOAD) v.items) }
    ensures good { OnOk result (are_good (reverse payloads.now) ≡ true) }
    ensures bad { IfErr result (λ e. IsFirstBad payloads.now e) }
{
    let table = table_of(alloc, payloads)?;
    let moment = greatest_moment(alloc, payloads)?;
    let saids = compact_saids(alloc, &table, moment)?;
    read_again();
    Ok(payloads_of(alloc, &saids)?)
}

// Reads a list of payloads one after the other.
ghost use Rattle.std.specs.Prelude.{◌≡◌, ℕ, List, ◌∷◌, true, reverse, IfOk, OnOk, IfErr};
ghost use Rattle.esm_journal_record.specs.declared.said.Said.{Said};
ghost use Rattle.esm_journal_state.specs.Bad.{IsFirstBad, IsAt};
ghost use Rattle.esm_journal_state.specs.Growing.{IsGrown};
ghost use Rattle.esm_journal_state.specs.Meaning.{history, is_good, are_good};
ghost use Rattle.esm_journal_state.specs.Table.{IsTable};
ghost use Rattle.esm_journal_state.specs.Tells.{Tells};
ghost use Rattle.esm_journal_state.specs.SaidLists.{IsInOrder};

use crate::add::add;
use crate::error::SaysError;
use crate::gather::gathered;
use crate::growing::{Growing, empty_growing, make_ready, settle};
use crate::judge::is_bad;
use crate::lookup::Says;
use crate::table::Table;
use esm_journal_record::read_said;
use esm_model::{Bytes, OutOfMemory};
use std::alloc::Global;

/// Adds what one more payload says, if it is good; returns whether it is.
fn take(alloc: Global, growing: &mut Growing, payload: &[u8]) -> Result<bool, OutOfMemory>
    ensures judged { IfOk result (λ good. (h : List Said) → IsGrown growing.old h → good ≡ is_good h payload.now) }
    ensures added { IfOk result (λ good. good ≡ true → (payloads : List (List ℕ)) → IsGrown growing.old (history payloads)
        → IsGrown growing.new (history (payload.now ∷ payloads))) }
{
    let Some(said) = read_said(alloc, payload)? else {
        return Ok(false);
    };
    make_ready(alloc, growing, &said)?;
    if is_bad(&growing.table, &said) {
        return Ok(false);
    }
    add(growing, said)?;
    Ok(true)
}

/// The error for a bad payload with this index. An index above 32 bits, which no memory can hold, is `OutOfMemory`.
fn bad_payload(index: usize) -> SaysError
    ensures { IsAt index result }
{
    match u32::try_from(index) {
        Ok(index) => SaysError::BadPayload(index),
        Err(_) => SaysError::OutOfMemory,
    }
}

/// What the payloads say, the oldest first.
pub(crate) fn table_of(alloc: Global, payloads: &[Bytes]) -> Result<Table, SaysError>
    ensures table { IfOk result (λ t. IsTable t (history (reverse payloads.now))) }
    ensures good { OnOk result (are_good (reverse payloads.now) ≡ true) }
    ensures bad { IfErr result (λ e. IsFirstBad payloads.now e) }
{
    let mut growing = empty_growing(alloc);
    for (index, payload) in payloads.iter().enumerate() {
        if !take(alloc, &mut growing, payload.as_slice())? {
            return Err(bad_payload(index));
        }
    }
    settle(alloc, &mut growing)?;
    Ok(growing.table)
}

/// What the payloads, the oldest first, say. Near-linear in their bytes: each place costs a logarithm. Returns `BadPayload`,
/// with the index of the first such payload, if one is no payload of a mapping's journal or is bad for a book after those
/// before it, and `OutOfMemory` if an allocation failed.
pub fn says(alloc: Global, payloads: &[Bytes]) -> Result<Says, SaysError>
    ensures told { IfOk result (λ s. Tells s (history (reverse payloads.now))) }
    ensures order { IfOk result (λ s. IsInOrder s) }
    ensures good { OnOk result (are_good (reverse payloads.now) ≡ true) }
    ensures bad { IfErr result (λ e. IsFirstBad payloads.now e) }
{
    let table = table_of(alloc, payloads)?;
    Ok(gathered(alloc, table)?)
}

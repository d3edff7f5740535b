// Owes what records that come bring: their arrival, part by part, and what the filter refuses of them.
ghost use Rattle.std.specs.Prelude.{◌≡◌, ℕ, ◌+◌, ◌<◌, ◌++◌, ◌∷◌, [], All, not, true, false, map, length, reverse, slice_index_or, IfOk, OnOk, OnErr};
ghost use Rattle.esm_model.specs.Entries.{holds};
ghost use Rattle.esm_journal_record.specs.Payload.{IsSaid, names_bytes};
ghost use Rattle.esm_ledger.specs.Ledger.{past_of, setting_of, HasRoom, HasShardRoom, Keeps};
ghost use Rattle.esm_ledger.specs.Prepared.{StaysElsewhere};
ghost use Rattle.esm_ingest.specs.Parts.{part};
ghost use Rattle.esm_ingest.specs.Entries.{part_entries};
ghost use Rattle.esm_stream_core.specs.Gathered.{MayBring, IsFrom, names_in, part_said, came_owed, filtered_owed, filtered_of, CanTake, IsGathered, IsTaken};
ghost use Rattle.esm_stream_core.specs.Calls.{streams_of};
ghost use Rattle.esm_stream_core.specs.Standing.{is_whole};
ghost use Rattle.esm_stream_core.specs.CoreView.{LegalAhead, SettledAhead, owing, forgotten};
ghost use Rattle.esm_record_bounds.specs.Bounds.{AreWithinBounds};
ghost use Rattle.esm_stream_core.specs.Acts.{entries_of, parts_of, IsPayloadOf};
ghost use Rattle.esm_stream_core.specs.Kept.{Decides, IsSame};

use crate::owed::{Act, Owed};
use crate::stream_core::StreamCore;
use esm_ingest::ShardRecords;
use esm_journal_record::{begin_fates, push_sequence};
use esm_ledger::{Coming, Ledger};
use esm_model::{Bytes, Fate, OutOfMemory, Places, Record};
use std::alloc::Global;
use std::mem;

/// Whether each of `count` records from the place `first` on passes the filter: all but those at the refused places.
fn passing_of(
    alloc: Global,
    first: u32,
    count: usize,
    refused: &[u32],
) -> Result<Vec<bool>, OutOfMemory>
    requires { All (IsFrom first count) refused.now }
    ensures all { IfOk result (λ passing. length passing.items ≡ count) }
    ensures each { IfOk result (λ passing. (k : ℕ) → k < count → slice_index_or passing.items k false ≡ not (holds refused.now (first + k))) }
{
    let mut passing = vec![in alloc; true; count]?;
    for place in refused {
        let at = (*place - first) as usize;
        passing[at] = false;
    }
    Ok(passing)
}

/// Appends each place with the sequence number of its record. The first of the records is at the place `first`.
fn push_names(
    out: &mut Vec<u8>,
    first: u32,
    records: &[Record],
    places: &[u32],
) -> Result<(), OutOfMemory>
    requires { All (IsFrom first (length records.now)) places.now }
    ensures { OnOk result (out.new.items ≡ out.old.items ++ names_bytes places.now (names_in first records.now places.now)) }
{
    for place in places {
        push_sequence(out, *place, &records[(*place - first) as usize])?;
    }
    Ok(())
}

/// The payload of the refused places of a part.
fn filtered_payload(
    alloc: Global,
    shard: u64,
    first: u32,
    records: &[Record],
    places: &Places,
    moment: u64,
) -> Result<Vec<u8>, OutOfMemory>
    requires within { All (IsFrom first (length records.now)) places.now }
    requires said { IsSaid (part_said moment (record { shard = shard; first = first; records = records.now; refused = places.now })) }
    ensures { IfOk result (IsPayloadOf (part_said moment (record { shard = shard; first = first; records = records.now; refused = places.now }))) }
{
    let (fate, state) = (Fate::Filtered, None);
    let places = places.as_slice();
    let mut out = begin_fates(alloc, shard, fate, moment, &state, places.len() as u32)?;
    push_names(&mut out, first, records, places)?;
    Ok(out)
}

/// The owed entry by which the refused places of a part are filtered, with its payload.
fn filtered(
    alloc: Global,
    shard: u64,
    first: u32,
    records: &[Record],
    places: Places,
    moment: u64,
) -> Result<Owed, OutOfMemory>
    requires within { All (IsFrom first (length records.now)) places }
    requires said { IsSaid (part_said moment (record { shard = shard; first = first; records = records.now; refused = places })) }
    ensures { IfOk result (λ owed. owed ≡ filtered_owed moment (record { shard = shard; first = first; records = records.now; refused = places })) }
{
    let payload = filtered_payload(alloc, shard, first, records, &places, moment)?;
    let act = Act::Gave {
        by: None,
        shard,
        places,
        fate: Fate::Filtered,
        line: None,
        state: None,
        copy: None,
        moment,
    };
    Ok(Owed {
        act,
        payload: Some(Bytes::from_vec(payload)),
    })
}

/// What a list of records brings, as it is gathered part by part: the records, the `Came` of each part, and what is
/// filtered.
#[derive(Drop)]
pub(crate) struct Gathered {
    pub coming: Vec<Coming>,
    pub came: Vec<Owed>,
    pub filtered: Vec<Owed>,
}

impl Gathered {
    /// Prepares a part and appends all that it brings. After `OutOfMemory` nothing has changed of the ledger that contracts
    /// see.
    fn take(
        &mut self,
        alloc: Global,
        ledger: &mut Ledger,
        next: ShardRecords,
        moment: u64,
    ) -> Result<(), OutOfMemory>
        requires kept { Keeps ledger.old }
        requires can { CanTake (setting_of ledger.old) (past_of ledger.old) moment (part next) }
        ensures same { IsSame ledger.old ledger.new }
        ensures room { (n : ℕ) → HasRoom ledger.old n → HasRoom ledger.new n }
        ensures shards { (n : ℕ) → HasShardRoom ledger.old n → HasShardRoom ledger.new n }
        ensures elsewhere { OnOk result (StaysElsewhere ledger.old ledger.new next.shard) }
        ensures coming { OnOk result (IsTaken ledger.new (part next) self.old.coming.items self.new.coming.items) }
        ensures came { OnOk result (self.new.came.items ≡ self.old.came.items ++ came_owed moment (part next) ∷ []) }
        ensures filtered { OnOk result (self.new.filtered.items ≡ self.old.filtered.items ++ filtered_of moment (part next)) }
    {
        let ShardRecords {
            shard,
            first,
            records,
            refused,
        } = next;
        let count = records.len();
        let passing = passing_of(alloc, first, count, refused.as_slice())?;
        if !refused.as_slice().is_empty() {
            let gift = filtered(alloc, shard, first, records.as_slice(), refused, moment)?;
            self.filtered.push(gift)?;
        }
        let coming = ledger.prepare_came(alloc, shard, records, passing.as_slice())?;
        self.coming.push(coming)?;
        let act = Act::Came {
            shard,
            first,
            count: count as u32,
            moment,
        };
        self.came.push(Owed { act, payload: None })?;
        Ok(())
    }
}

/// The entries of the first list and then those of the second, in reverse order.
fn turned(mut first: Vec<Owed>, mut second: Vec<Owed>) -> Result<Vec<Owed>, OutOfMemory>
    ensures { IfOk result (λ out. out.items ≡ reverse (first.items ++ second.items)) }
{
    first.append(&mut second)?;
    first.reverse();
    Ok(first)
}

/// Prepares each part, in the room that the ledger has for the entries and the shards.
fn gather(
    alloc: Global,
    ledger: &mut Ledger,
    parts: Vec<ShardRecords>,
    moment: u64,
) -> Result<Gathered, OutOfMemory>
    requires kept { Keeps ledger.old }
    requires bounds { AreWithinBounds (setting_of ledger.old) }
    requires may { MayBring (setting_of ledger.old) (past_of ledger.old) (map part parts.items) moment }
    ensures same { IsSame ledger.old ledger.new }
    ensures room { (n : ℕ) → HasRoom ledger.old n → HasRoom ledger.new n }
    ensures shards { (n : ℕ) → HasShardRoom ledger.old n → HasShardRoom ledger.new n }
    ensures all { IfOk result (IsGathered ledger.new moment (map part parts.items)) }
{
    let mut gathered = Gathered {
        coming: Vec::with_capacity(alloc, parts.len())?,
        came: Vec::with_capacity(alloc, parts.len())?,
        filtered: Vec::new(alloc),
    };
    for next in parts {
        gathered.take(alloc, ledger, next, moment)?;
    }
    Ok(gathered)
}

/// What a list of records brings; what is next to be added is last.
#[derive(Drop)]
pub(crate) struct Arrived {
    pub coming: Vec<Coming>,
    pub owed: Vec<Owed>,
}

/// Prepares all for the records of the parts and for what the filter refuses of them. After `OutOfMemory` nothing has
/// changed that contracts see.
fn prepare_arrival(
    alloc: Global,
    ledger: &mut Ledger,
    parts: Vec<ShardRecords>,
    moment: u64,
) -> Result<Arrived, OutOfMemory>
    requires kept { Keeps ledger.old }
    requires bounds { AreWithinBounds (setting_of ledger.old) }
    requires may { MayBring (setting_of ledger.old) (past_of ledger.old) (map part parts.items) moment }
    ensures same { IsSame ledger.old ledger.new }
    ensures decides { IfOk result (λ arrived. Decides ledger.old ledger.new (reverse arrived.coming.items) (reverse arrived.owed.items)) }
    ensures coming { IfOk result (λ arrived. parts_of (reverse arrived.coming.items) ≡ streams_of (map part parts.items)) }
    ensures owed { IfOk result (λ arrived. entries_of (reverse arrived.owed.items) ≡ part_entries moment (map part parts.items)) }
{
    let count = parts.len();
    ledger.prepare_entries(count.saturating_mul(2))?;
    ledger.prepare_shards(count)?;
    let Gathered {
        mut coming,
        came,
        filtered,
    } = gather(alloc, ledger, parts, moment)?;
    coming.reverse();
    let owed = turned(came, filtered)?;
    Ok(Arrived { coming, owed })
}

impl StreamCore {
    /// Owes the arrival of records of several shards: the `Came` of each part, and then what the filter refuses of each.
    /// After `OutOfMemory` nothing has changed, and the records are gone.
    pub(crate) fn owe_records(
        &mut self,
        alloc: Global,
        parts: Vec<ShardRecords>,
        moment: u64,
    ) -> Result<(), OutOfMemory>
        requires settled { self.old.owed ≡ [] }
        requires whole { is_whole self.old.standing ≡ true }
        requires may { MayBring self.old.setting self.old.past (map part parts.items) moment }
        ensures owes { OnOk result (self.new ≡ owing self.old (streams_of (map part parts.items)) (part_entries moment (map part parts.items))) }
        ensures undone { OnOk result (forgotten self.new ≡ self.old) }
        ensures legal { OnOk result (LegalAhead self.new) }
        ensures settled { OnOk result (SettledAhead self.new) }
        ensures unchanged { OnErr result (self.new ≡ self.old) }
    {
        let arrived = prepare_arrival(alloc, &mut self.ledger, parts, moment)?;
        let _ = mem::replace(&mut self.owed, arrived.owed);
        let _ = mem::replace(&mut self.coming, arrived.coming);
        Ok(())
    }
}

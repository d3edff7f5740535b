//! Adds an owed entry to a ledger, or a noted one to its history alone.
ghost use Rattle.std.specs.Prelude.{◌≡◌, ◌<◌, [], ◌∷◌, true, false, reverse, drop, vec_len, vec_capacity};
ghost use Rattle.esm_model.specs.Entries.{moment_of as entry_moment, is_shut_entry};
ghost use Rattle.esm_model.specs.declared.entry.Entry.{Entry};
ghost use Rattle.esm_stream_core.specs.Adding.{IsPushed, IsShut, CanAdd, CanShut, IsAdded};

use crate::owed::Act;
use esm_ledger::{Coming, Ledger};
use esm_model::Entry;
use std::alloc::Global;

/// Adds a `Came`, for which all is prepared, with the records that come.
fn add_coming(ledger: &mut Ledger, alloc: Global, coming: Coming, act: Act)
    requires { CanAdd ledger.old (coming ∷ []) act }
    ensures { IsAdded ledger.old ledger.new (coming ∷ []) act }
{
    match act {
        Act::Came {
            shard: _,
            first: _,
            count: _,
            moment,
        } => ledger.came(alloc, coming, moment),
        _ => unreachable!(),
    }
}

/// Adds any other entry, for which all is prepared.
fn add(ledger: &mut Ledger, alloc: Global, act: Act)
    requires { CanAdd ledger.old [] act }
    ensures { IsAdded ledger.old ledger.new [] act }
{
    match act {
        Act::Came {
            shard: _,
            first: _,
            count: _,
            moment: _,
        } => unreachable!(),
        Act::Began {
            lane,
            places,
            closing,
            moment,
        } => ledger.began(lane, places, closing, moment),
        Act::Ended {
            lane,
            reply,
            verdict,
            moment,
        } => ledger.ended(alloc, lane, reply, verdict, moment),
        Act::Gave {
            by,
            shard,
            places,
            fate,
            line,
            state,
            copy,
            moment,
        } => ledger.gave(by, shard, places, fate, line, state, copy, moment),
        Act::Expired {
            lane,
            places,
            line,
            moment,
        } => ledger.expired(lane, places, line, moment),
        Act::Tried {
            lane,
            places,
            closing,
            tries,
            moment,
        } => ledger.tried(lane, places, closing, tries, moment),
        Act::Closed {
            lane,
            window,
            moment,
        } => ledger.closed(lane, window, moment),
    }
}

/// Adds the next owed entry, with the records that come with it, the last of `coming`, if any are coming.
pub(crate) fn add_next(ledger: &mut Ledger, alloc: Global, coming: &mut Vec<Coming>, act: Act)
    requires { CanAdd ledger.old (reverse coming.old.items) act }
    ensures added { IsAdded ledger.old ledger.new (reverse coming.old.items) act }
    ensures coming { reverse coming.new.items ≡ drop 1 (reverse coming.old.items) }
{
    match coming.pop() {
        Some(next) => add_coming(ledger, alloc, next, act),
        None => add(ledger, alloc, act),
    }
}

/// Appends an entry that does not end the input to the history alone, within its room.
pub(crate) fn push(ledger: &mut Ledger, entry: Entry, moment: u64)
    requires going { is_shut_entry entry ≡ false }
    requires room { vec_len ledger.old.history < vec_capacity ledger.old.history }
    requires moment { moment ≡ entry_moment entry }
    ensures { IsPushed ledger.old ledger.new entry }
{
    ledger.history.push_reserved(entry);
    ledger.last = moment;
}

/// Adds the end of the input: to the tables too if `whole`, so that they are kept and nothing is owed.
pub(crate) fn shut(ledger: &mut Ledger, whole: bool, moment: u64)
    requires whole { whole ≡ true → CanShut ledger.old moment }
    requires room { vec_len ledger.old.history < vec_capacity ledger.old.history }
    ensures added { whole ≡ true → IsShut ledger.old ledger.new moment }
    ensures pushed { whole ≡ false → IsPushed ledger.old ledger.new (Entry.Shut moment) }
{
    if whole {
        ledger.ended_input(moment);
    } else {
        ledger.history.push_reserved(Entry::Shut { moment });
        ledger.last = moment;
        ledger.shut = true;
    }
}

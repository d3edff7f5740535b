// The entries that a call of a replay owes: arrivals, the beginning or the end of a call, and then what is replayed.
ghost use Rattle.std.specs.Prelude.{◌≡◌, ◌≤◌, length, option_copied};
ghost use Rattle.esm_replay_core.specs.Owing.{replay_entries, owed_entries, owed_replay_of, first_replay_of, is_left, given_up, owing_replay, still_coming};

use esm_journal_record::KeptTexts;
use esm_model::{LaneId, PastReply, Places};
use esm_replay::Parts;

/// Records that are replayed, with the payload that says so.
#[derive(Drop)]
pub(crate) struct Replay {
    pub shard: u64,
    pub places: Places,
    pub moment: u64,
    pub payload: Vec<u8>,
}

/// What a call owes.
#[derive(Drop)]
pub(crate) enum Owed {
    Nothing,
    /// The records that are not yet counted arrive.
    Coming,
    /// A call of the function begins, with the records that have these sequence numbers.
    Began {
        lane: LaneId,
        places: Places,
        names: KeptTexts,
        moment: u64,
    },
    /// It ends: `count` records leave the first piece, and these parts of them are called again.
    Ended {
        lane: LaneId,
        reply: PastReply,
        moment: u64,
        count: u32,
        parts: Parts,
        replay: Option<Replay>,
    },
    /// Records are replayed.
    Replayed(Replay),
    /// What the history requires was given up: nothing more is decided.
    Left,
}

/// Whether what the history requires was given up.
pub(crate) fn is_left(owed: &Owed) -> bool
    ensures { result ≡ is_left owed.now }
{
    match owed {
        Owed::Left => true,
        Owed::Nothing
        | Owed::Coming
        | Owed::Began { .. }
        | Owed::Ended { .. }
        | Owed::Replayed(_) => false,
    }
}

/// How many entries of the history are owed.
pub(crate) fn entries_owed(owed: &Owed) -> usize
    ensures { result ≡ length (owed_entries owed.now) }
{
    match owed {
        Owed::Nothing | Owed::Coming | Owed::Left => 0,
        Owed::Began { .. } | Owed::Replayed(_) => 1,
        Owed::Ended { replay, .. } => 1 + count_of(replay),
    }
}

fn count_of(replay: &Option<Replay>) -> usize
    ensures value { result ≡ length (replay_entries replay.now) }
    ensures one { result ≤ 1 }
{
    match replay {
        None => 0,
        Some(_) => 1,
    }
}

/// The records that what is owed replays.
pub(crate) fn replay_owed(owed: &Owed) -> Option<&Replay>
    ensures { option_copied result ≡ owed_replay_of owed.entry.now }
{
    match owed {
        Owed::Nothing | Owed::Coming | Owed::Began { .. } | Owed::Left => None,
        Owed::Ended { replay, .. } => replay.as_ref(),
        Owed::Replayed(replay) => Some(replay),
    }
}

/// The same, if the `Replayed` is owed first.
pub(crate) fn first_owed(owed: &Owed) -> Option<&Replay>
    ensures { option_copied result ≡ first_replay_of owed.entry.now }
{
    match owed {
        Owed::Nothing | Owed::Coming | Owed::Began { .. } | Owed::Ended { .. } | Owed::Left => None,
        Owed::Replayed(replay) => Some(replay),
    }
}

/// What is owed after staged entries are discarded.
pub(crate) fn given_up(owed: Owed) -> Owed
    ensures { result ≡ given_up owed }
{
    match owed {
        Owed::Replayed(_) | Owed::Left => Owed::Left,
        Owed::Nothing | Owed::Coming | Owed::Began { .. } | Owed::Ended { .. } => Owed::Nothing,
    }
}

/// What is owed after the end of a call is added: its `Replayed`, if it has one.
pub(crate) fn owing_replay(replay: Option<Replay>) -> Owed
    ensures { result ≡ owing_replay replay }
{
    match replay {
        None => Owed::Nothing,
        Some(replay) => Owed::Replayed(replay),
    }
}

/// What is owed after `came` of the records have arrived.
pub(crate) fn still_coming(came: usize, records: usize) -> Owed
    ensures { result ≡ still_coming came records }
{
    if came < records {
        Owed::Coming
    } else {
        Owed::Nothing
    }
}

/// Replaces what is owed.
pub(crate) fn put(place: &mut Owed, owed: Owed)
    ensures { place.new ≡ owed }
{
    *place = owed;
}

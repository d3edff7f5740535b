// Whether a failure line names a record that was given up and not yet replayed.
ghost use Rattle.std.specs.Prelude.{◌≡◌};
ghost use Rattle.esm_journal_state.specs.Meaning.{is_failure};
ghost use Rattle.esm_replay.specs.Records.{names_by};

use crate::ranges::Ranges;
use esm_journal_state::Says;
use esm_model::{Fate, Record};

fn is_failure(fate: Fate) -> bool
    ensures { result ≡ is_failure fate }
{
    match fate {
        Fate::Expired | Fate::Exhausted => true,
        Fate::Succeeded | Fate::Filtered => false,
    }
}

/// Whether the record is named, if this is its place in its shard and the journal gives the place this fate. Takes no
/// memory.
pub fn names(said: &Says, ranges: &Ranges, item: &Record, place: u32, fate: Fate) -> bool
    ensures { result ≡ names_by fate said.now ranges.now item.now place }
{
    let mut near = 0;
    names_near(said, ranges, &mut near, item, place, fate)
}

/// The same, for asking about many records in turn: the range at `near` is tried first, as in `Ranges::hold_near`. Takes
/// no memory.
pub fn names_near(
    said: &Says,
    ranges: &Ranges,
    near: &mut usize,
    item: &Record,
    place: u32,
    fate: Fate,
) -> bool
    ensures { result ≡ names_by fate said.now ranges.now item.now place }
{
    is_failure(fate)
        && ranges.hold_near(near, item.shard(), item.seq())
        && !said.replayed(item.shard(), place)
}

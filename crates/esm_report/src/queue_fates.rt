// The fates that a history gave to the messages of a queue.
ghost use Rattle.std.specs.Prelude.{◌≡◌, ℕ, ◌==◌, ◌&&◌, List, ◌∷◌, Some, None, get_or, reverse, IfOk, OnOk, if◌then◌else◌};
ghost use Rattle.std.specs.Option.{option_or};
ghost use Rattle.esm_model.specs.declared.entry.Entry.{Entry};
ghost use Rattle.esm_model.specs.Entries.{holds};
ghost use Rattle.esm_report.specs.Counts.{AreGiven};

use crate::fates::Fates;
use esm_model::{Entry, Fate, OutOfMemory, Places};
use std::alloc::Global;

/// Collects the fates that the history (oldest entry first) gave, by the place of the message.
pub(crate) fn fates_of(alloc: Global, trace: &[Entry]) -> Result<Fates, OutOfMemory>
    ensures { IfOk result (λ fates. AreGiven fates (reverse trace.now)) }
{
    let mut fates = Fates::new(alloc);
    for entry in trace {
        add(&mut fates, entry)?;
    }
    Ok(fates)
}

/// Adds one more entry of the history.
fn add(fates: &mut Fates, entry: &Entry) -> Result<(), OutOfMemory>
    ensures { OnOk result ((h : List Entry) → AreGiven fates.old h → AreGiven fates.new (entry.now ∷ h)) }
{
    match entry {
        Entry::Gave {
            shard,
            places,
            fate,
            ..
        } => give(fates, *shard, places, *fate),
        _ => Ok(()),
    }
}

/// Gives this fate to each of the queue's places, whose shard is 0, that has none.
fn give(fates: &mut Fates, shard: u64, places: &Places, fate: Fate) -> Result<(), OutOfMemory>
    ensures { OnOk result ((i : ℕ) → get_or fates.new i None
        ≡ option_or (get_or fates.old i None) (if (shard == 0) && holds places.now i then Some fate else None)) }
{
    if shard == 0 {
        return fates.give_all(places, fate);
    }
    Ok(())
}

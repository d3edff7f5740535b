// Adds one more payload.
ghost use Rattle.std.specs.Prelude.{◌≡◌, ℕ, List, ◌∷◌, length, OnOk};
ghost use Rattle.esm_model.specs.declared.entry.Fate.{Fate};
ghost use Rattle.esm_model.specs.Sequence.{is_sequence};
ghost use Rattle.esm_journal_record.specs.declared.said.Said.{Said};
ghost use Rattle.esm_journal_record.specs.declared.said.Said.TheVariants as said;
ghost use Rattle.esm_journal_record.specs.Payload.{IsSaid, AreNamed};
ghost use Rattle.esm_journal_state.specs.Growing.{IsGrown};

use crate::growing::{Growing, push_fates, raise};
use crate::table::{
    drop_tries, keep_deletions, keep_replays, keep_some_state, keep_state, keep_tries,
};
use esm_journal_record::{KeptTexts, Said};
use esm_model::{Fate, OutOfMemory, Places, WindowState};

/// Adds what one more payload says, and keeps its texts. After an error a part of it may have been added.
pub(crate) fn add(growing: &mut Growing, said: Said) -> Result<(), OutOfMemory>
    requires { IsSaid said }
    ensures { OnOk result ((h : List Said) → IsGrown growing.old h → IsGrown growing.new (said ∷ h)) }
{
    match said {
        Said::Fates {
            shard,
            fate,
            state,
            places,
            texts,
            ..
        } => { add_fates(growing, shard, fate, state, &places, texts) }
        Said::Closed { shard, window, .. } => {
            add_closed(growing, shard, window);
            Ok(())
        }
        Said::Deleted {
            fate,
            places,
            texts,
            ..
        } => add_deleted(growing, fate, &places, texts),
        Said::State { shard, state, .. } => add_state(growing, shard, state),
        Said::Tried {
            shard,
            tries,
            places,
            texts,
            ..
        } => add_tried(growing, shard, tries, &places, texts),
        Said::WindowTried {
            shard,
            window,
            tries,
            ..
        } => add_window_tried(growing, shard, window, tries),
        Said::Replayed { shard, places, .. } => add_replayed(growing, shard, &places),
    }
}

fn add_fates(
    growing: &mut Growing,
    shard: u64,
    fate: Fate,
    state: Option<WindowState>,
    places: &Places,
    texts: KeptTexts,
) -> Result<(), OutOfMemory>
    requires { AreNamed is_sequence places.now texts }
    ensures { OnOk result ((h : List Said) (moment : ℕ) → IsGrown growing.old h
        → IsGrown growing.new (said.Fates shard fate moment state places.now texts ∷ h)) }
{
    let places = places.as_slice();
    push_fates(&mut growing.recent, shard, fate, places, texts.into_vec())?;
    raise(&mut growing.tops, shard, places)?;
    drop_tries(&mut growing.table.tries, shard, places);
    keep_some_state(&mut growing.table.states, shard, state)?;
    Ok(())
}

fn add_closed(growing: &mut Growing, shard: u64, window: u64)
    ensures { (h : List Said) (moment : ℕ) → IsGrown growing.old h → IsGrown growing.new (said.Closed shard window moment ∷ h) }
{
    let _ = growing.table.states.remove(&(shard, window));
    let _ = growing.table.window_tries.remove(&(shard, window));
}

fn add_deleted(
    growing: &mut Growing,
    fate: Fate,
    places: &Places,
    texts: KeptTexts,
) -> Result<(), OutOfMemory>
    requires { length texts ≡ length places.now }
    ensures { OnOk result ((h : List Said) (moment : ℕ) → IsGrown growing.old h
        → IsGrown growing.new (said.Deleted fate moment places.now texts ∷ h)) }
{
    keep_deletions(
        &mut growing.table.deletions,
        fate,
        places.as_slice(),
        texts.into_vec(),
    )
}

fn add_state(growing: &mut Growing, shard: u64, state: WindowState) -> Result<(), OutOfMemory>
    ensures { OnOk result ((h : List Said) (moment : ℕ) → IsGrown growing.old h
        → IsGrown growing.new (said.State shard moment state ∷ h)) }
{
    keep_state(&mut growing.table.states, shard, state)
}

fn add_tried(
    growing: &mut Growing,
    shard: u64,
    tries: u32,
    places: &Places,
    texts: KeptTexts,
) -> Result<(), OutOfMemory>
    requires { length texts ≡ length places.now }
    ensures { OnOk result ((h : List Said) (moment : ℕ) → IsGrown growing.old h
        → IsGrown growing.new (said.Tried shard moment tries places.now texts ∷ h)) }
{
    keep_tries(
        &mut growing.table.tries,
        shard,
        tries,
        places.as_slice(),
        texts.into_vec(),
    )
}

fn add_window_tried(
    growing: &mut Growing,
    shard: u64,
    window: u64,
    tries: u32,
) -> Result<(), OutOfMemory>
    ensures { OnOk result ((h : List Said) (moment : ℕ) → IsGrown growing.old h
        → IsGrown growing.new (said.WindowTried shard window moment tries ∷ h)) }
{
    growing.table.window_tries.insert((shard, window), tries)?;
    Ok(())
}

fn add_replayed(growing: &mut Growing, shard: u64, places: &Places) -> Result<(), OutOfMemory>
    ensures { OnOk result ((h : List Said) (moment : ℕ) (texts : List (List ℕ)) → IsGrown growing.old h
        → IsGrown growing.new (said.Replayed shard moment places.now texts ∷ h)) }
{
    keep_replays(&mut growing.table.replays, shard, places.as_slice())
}

//! Computes what is kept of records that are about to come, beside what was found of them.
ghost use Rattle.std.specs.Prelude.{◌≡◌, ℕ, ◌+◌, ◌<◌, max, length, Some, slice_get, IfOk};
ghost use Rattle.std.specs.List.{All};
ghost use Rattle.esm_model.specs.Records.{Record};
ghost use Rattle.esm_model.specs.Valid.{IsStreamConfig, IsValidRecord};
ghost use Rattle.esm_model.specs.Setting.{Setting, record_at};
ghost use Rattle.esm_model.specs.Windows.{window_floor};
ghost use Rattle.esm_shard_index.specs.Progress.{AreFound};
ghost use Rattle.esm_shard_index.specs.Windows.{window_before};
ghost use Rattle.esm_ledger.specs.Arriving.{AreArriving, IsEven, IsLanding, landing_at};
ghost use Rattle.esm_ledger.specs.Measuring.{measures_of, open_of, last_of};

use crate::arriving::{Arriving, Landing};
use crate::measure::Measure;
use esm_event::stream_bytes;
use esm_model::{Config, Fate, OutOfMemory, Record};
use esm_window::window_of;
use std::alloc::Global;

/// The window of a record that follows one of the window `before`, by its start in milliseconds; 0 if no windows are
/// configured.
fn window_after(config: &Config, before: u64, arrival: u64) -> u64
    ensures { result ≡ max before (window_floor config.now.tumbling_ms arrival) }
{
    if config.tumbling_ms == 0 {
        before
    } else {
        window_of(arrival, before, config.tumbling_ms)
    }
}

/// The measures of records, the windows of those without a found fate, and the window of the last.
#[derive(Drop)]
struct Beside {
    measures: Vec<Measure>,
    windows: Vec<u64>,
    last: u64,
}

fn measured(
    alloc: Global,
    config: &Config,
    before: u64,
    records: &[Record],
    fates: &[Option<Fate>],
) -> Result<Beside, OutOfMemory>
    requires config { IsStreamConfig config.now }
    requires valid { All IsValidRecord records.now }
    requires fates { length fates.now ≡ length records.now }
    ensures measures { IfOk result (λ m. m.measures.items ≡ measures_of config.now before records.now) }
    ensures windows { IfOk result (λ m. m.windows.items ≡ open_of config.now before records.now fates.now) }
    ensures last { IfOk result (λ m. m.last ≡ last_of config.now before records.now) }
{
    let mut measures = Vec::with_capacity(alloc, records.len())?;
    let mut windows = Vec::with_capacity(alloc, records.len())?;
    let mut last = before;
    for i in 0..records.len() {
        let record = &records[i];
        last = window_after(config, last, record.arrival());
        let length = stream_bytes(config, record);
        let window = last;
        measures.push(Measure { length, window })?;
        if fates[i].is_none() {
            windows.push(last)?;
        }
    }
    Ok(Beside {
        measures,
        windows,
        last,
    })
}

impl Arriving {
    /// Records of a shard that are about to come, with the fates that were found of them and where they go. `before` is the
    /// window of the record before them in their shard, or 0.
    pub fn new(
        alloc: Global,
        config: &Config,
        before: u64,
        records: Vec<Record>,
        fates: Vec<Option<Fate>>,
        landings: Vec<Option<Landing>>,
    ) -> Result<Arriving, OutOfMemory>
        requires config { IsStreamConfig config.now }
        requires valid { All IsValidRecord records.items }
        requires fates { length fates.items ≡ length records.items }
        requires landings { length landings.items ≡ length records.items }
        ensures records { IfOk result (λ a. a.records.items ≡ records.items) }
        ensures landings { IfOk result (λ a. a.landings.items ≡ landings.items) }
        ensures even { IfOk result IsEven }
        ensures stand { IfOk result (λ a. (s : Setting) (n first : ℕ) → s.config ≡ config.now → before ≡ window_before s n first →
            ((k : ℕ) (r : Record) → slice_get records.items k ≡ Some r → record_at s n (first + k) ≡ Some r) → AreFound s n first fates.items →
            ((k : ℕ) → k < length records.items → IsLanding s n (first + k) (landing_at landings.items k)) → AreArriving s n first a) }
    {
        let beside = measured(alloc, config, before, records.as_slice(), fates.as_slice())?;
        let Beside {
            measures,
            windows,
            last,
        } = beside;
        Ok(Arriving {
            records,
            measures,
            fates,
            landings,
            windows,
            last,
        })
    }
}

// Records of one shard that are about to come, with their lanes, found fates and windows.
use crate::measure::Measure;
use esm_model::{Fate, Record};

/// The lane that a record goes to, and the tries that were found of it at opening, 1 to 10,001, if there are any.
#[derive(Clone, Copy, Debug)]
pub struct Landing {
    pub lane: u32,
    pub tries: Option<u32>,
}

/// Records of one shard that are about to come, in order, with all that is kept of them.
#[derive(Drop)]
pub struct Arriving {
    pub records: Vec<Record>,
    pub measures: Vec<Measure>,
    /// The fates that were found of them at opening.
    pub fates: Vec<Option<Fate>>,
    /// Where they go; `None` for a record that has a found fate or that the filter refuses.
    pub landings: Vec<Option<Landing>>,
    /// The windows of those without a found fate, one for each, by their start in milliseconds.
    pub windows: Vec<u64>,
    /// The window of the last record.
    pub last: u64,
}

// The mapping of a run and where it starts, and why the words may name none.
use esm_config::Param;
use esm_model::{Config, Start};

/// The mapping of a run, and where in its input it starts.
#[derive(Drop, Debug)]
pub struct NamedMapping {
    pub config: Config,
    /// Where it starts; never `Latest`: a mapping of the registry with that position starts at the moment of its creation.
    pub start: Start,
}

/// Why the words name no mapping that may run.
#[derive(Clone, Copy, Debug, PartialEq, Eq)]
pub enum MappingError {
    /// The registry's file does not begin with a journal's header.
    NotAJournal,
    /// The file is damaged at this offset, in bytes from its start.
    Damaged { place: u64 },
    /// The payload with this index, counted from 0, is the first in the file that is not a registry's.
    BadPayload { index: u32 },
    /// The count of faults of its disk rose.
    DiskFault,
    /// The registry has no mapping with this id.
    Unknown,
    /// The mapping is disabled.
    Disabled,
    /// This field is the first, in the order of the table, that is refused; `Body` means that the text is no JSON object.
    BadParam(Param),
    OutOfMemory,
}

/// The mapping that the words name, or why there is none, and the registry's disk, to which nothing was written.
#[derive(Drop)]
pub struct MappingRead<D> {
    pub named: Result<NamedMapping, MappingError>,
    pub registry: D,
}

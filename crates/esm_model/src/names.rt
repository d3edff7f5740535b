// Names that reports and messages print: the files of a folder, and the limits of the engine.
ghost use Rattle.std.specs.Prelude.{◌≡◌};
ghost use Rattle.esm_model.specs.Names.{file_name};

/// A file of a folder.
#[derive(Clone, Copy, Debug, PartialEq, Eq)]
pub enum FileName {
    Journal,
    Spare,
    Failures,
    Registry,
}

impl FileName {
    /// Its name in the folder, as in `journal.esm`.
    pub fn name(self) -> &'static str
        ensures { result.now ≡ file_name self }
    {
        match self {
            FileName::Journal => "journal.esm",
            FileName::Spare => "spare.esm",
            FileName::Failures => "failures.esm",
            FileName::Registry => "registry.esm",
        }
    }
}

/// A limit that an input exceeded: of records, bytes of records, shards, or lanes.
#[derive(Clone, Copy, Debug, PartialEq, Eq)]
pub enum LimitName {
    Records,
    Bytes,
    Shards,
    Lanes,
}

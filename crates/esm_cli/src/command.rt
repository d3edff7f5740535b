// The commands of the program with their options, and why words give no command.
ghost use Rattle.std.specs.Prelude.{◌≡◌};
ghost use Rattle.esm_cli.specs.declared.command.WordsError.TheVariants.{OutOfMemory};

use esm_model::text::Text;
use std::alloc::AllocError;
use uuid::Uuid;

/// What the words ask for.
#[derive(Drop, Debug)]
pub enum Command {
    /// Makes the four files.
    Init,
    /// Runs one mapping.
    Run(RunWords),
    /// Prints how many places of each shard have a fate, and the checkpoint, by the journal.
    Show,
    /// Prints the failure lines, or the dead letters.
    Failures,
    /// Runs a generated stream of this many records.
    Gen {
        records: u32,
    },
    /// Rewrites the journal.
    Compact,
    /// Answers this many connections, then ends.
    Serve {
        requests: u32,
    },
    /// Brings a journal of version 1 to version 2.
    Migrate,
    /// Runs the mapping over a DynamoDB stream. `timeout` is in seconds; with `trace` the history is printed before the
    /// report.
    Ddb {
        config: Text,
        calls: u32,
        timeout: u32,
        trace: bool,
    },
    /// Runs a queue's mapping, and moves each message that was received too often to the dead letters. `visibility` and
    /// `timeout` are in seconds; with `trace` the history is printed before the report.
    Redrive {
        config: Text,
        max_receives: u32,
        calls: u32,
        visibility: u32,
        timeout: u32,
        trace: bool,
    },
    /// Calls again the records that failure lines name. `timeout` is in seconds; with `trace` the history is printed before
    /// the report.
    Replay {
        config: Text,
        calls: u32,
        timeout: u32,
        trace: bool,
    },
}

/// The options of `run`.
#[derive(Drop, Debug)]
pub struct RunWords {
    /// The mapping that is run.
    pub which: Which,
    /// The greatest number of calls that the run makes.
    pub calls: u32,
    /// The visibility timeout of a queue's messages, in seconds.
    pub visibility: u32,
    /// The time limit of one call of a function, in seconds.
    pub timeout: u32,
    /// Whether the input is read to its end before the first call.
    pub read_first: bool,
    /// Whether the run's history is printed before its report.
    pub trace: bool,
}

/// Which flags are given.
#[derive(Clone, Copy, Debug, PartialEq, Eq)]
pub struct Flags {
    pub read_first: bool,
    pub trace: bool,
}

/// Where a mapping comes from.
#[derive(Drop, Debug)]
pub enum Which {
    /// The JSON text of its fields (`--config TEXT`).
    Config(Text),
    /// The registry, which has it under this id (`--mapping UUID`).
    Mapping(Uuid),
}

/// Why words give no command.
#[derive(Clone, Copy, Debug, PartialEq, Eq)]
pub enum WordsError {
    /// They spell no command.
    BadWords,
    /// An allocation failed.
    OutOfMemory,
}

impl From<AllocError> for WordsError {
    ghost from_gives = { λ _ e. e ≡ OutOfMemory };

    fn from(_: AllocError) -> Self {
        WordsError::OutOfMemory
    }
}

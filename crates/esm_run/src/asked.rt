// What the words of the command line ask for: a command over the files, serving connections, a generated stream or a run.
ghost use Rattle.std.specs.Prelude.{◌≡◌, map, true};
ghost use Rattle.std.specs.String.{string_bytes};
ghost use Rattle.esm_run.specs.Asked.{AsksFor, IsAsked};
ghost use Rattle.esm_run.specs.Built.{is_built};

use crate::built::built_command;
use crate::tending::{FilesCommand, Upkeep};
use esm_cli::{Command, RunWords, WordsError};
use esm_model::Text;
use std::alloc::Global;

/// The words of `redrive`: the mapping's text, how often a message may be received, the greatest number of calls, the
/// visibility timeout and the time limit of a call, both in seconds, and whether the trace is printed.
#[derive(Drop)]
pub struct RedriveWords {
    pub config: Text,
    pub max_receives: u32,
    pub calls: u32,
    pub visibility: u32,
    pub timeout: u32,
    pub trace: bool,
}

/// What the words ask for, by what the command works on.
#[derive(Drop)]
pub enum Asked {
    /// A command that uses only the four files.
    Files(FilesCommand),
    /// Serving this many connections.
    Serve {
        requests: u32,
    },
    /// Running a generated stream of this many records.
    Gen {
        records: u32,
    },
    /// A run.
    Run(RunWords),
    /// Running the mapping of a DynamoDB stream, with at most this many calls.
    Ddb {
        config: Text,
        calls: u32,
        timeout: u32,
        trace: bool,
    },
    /// Running a queue's mapping, and moving what was received too often to the dead-letter file.
    Redrive(RedriveWords),
    /// Calling the records again that failure lines name, with at most this many calls.
    Replay {
        config: Text,
        calls: u32,
        timeout: u32,
        trace: bool,
    },
    /// Nothing, since the words give no command.
    Nothing(WordsError),
}

/// Returns what a command that is built asks for.
fn part(command: Command) -> Asked
    requires { is_built command ≡ true }
    ensures { AsksFor command result }
{
    match command {
        Command::Init => Asked::Files(FilesCommand::Init),
        Command::Show => Asked::Files(FilesCommand::Upkeep(Upkeep::Show)),
        Command::Failures => Asked::Files(FilesCommand::Upkeep(Upkeep::Failures)),
        Command::Compact => Asked::Files(FilesCommand::Upkeep(Upkeep::Compact)),
        Command::Migrate => Asked::Files(FilesCommand::Upkeep(Upkeep::Migrate)),
        Command::Serve { requests } => Asked::Serve { requests },
        Command::Gen { records } => Asked::Gen { records },
        Command::Run(options) => Asked::Run(options),
        Command::Ddb {
            config,
            calls,
            timeout,
            trace,
        } => Asked::Ddb {
            config,
            calls,
            timeout,
            trace,
        },
        Command::Redrive {
            config,
            max_receives,
            calls,
            visibility,
            timeout,
            trace,
        } => Asked::Redrive(RedriveWords {
            config,
            max_receives,
            calls,
            visibility,
            timeout,
            trace,
        }),
        Command::Replay {
            config,
            calls,
            timeout,
            trace,
        } => Asked::Replay {
            config,
            calls,
            timeout,
            trace,
        },
    }
}

/// Reads what the words ask for: `Nothing(BadWords)` if they spell no command that is built, `Nothing(OutOfMemory)` if an
/// allocation failed.
pub fn asked_by(alloc: Global, words: &[String]) -> Asked
    ensures { IsAsked (map string_bytes words.now) result }
{
    match built_command(alloc, words) {
        Ok(command) => part(command),
        Err(why) => Asked::Nothing(why),
    }
}

// The time limit of one call of a function, by the words of the command.
ghost use Rattle.std.specs.Prelude.{◌≡◌, map, IfOk};
ghost use Rattle.std.specs.String.{string_bytes};
ghost use Rattle.esm.specs.Timeouts.{IsTimeout, timeout_of};

use esm_cli::laws::one_command;
use esm_cli::table::TIMEOUT;
use esm_cli::{Command, WordsError, read};
use esm_model::OutOfMemory;
use std::alloc::Global;

/// Returns the time limit of one call of a function under the command, in seconds: the longest if the command takes no
/// `--timeout`.
pub fn timeout_of(command: &Command) -> u32
    ensures { result ≡ timeout_of command.now }
{
    match command {
        Command::Run(words) => words.timeout,
        Command::Ddb { timeout, .. }
        | Command::Redrive { timeout, .. }
        | Command::Replay { timeout, .. } => *timeout,
        _ => TIMEOUT.greatest,
    }
}

/// Reads the time limit of one call of a function, in seconds, from the words of the command: the longest if they spell
/// none.
pub fn read_timeout(alloc: Global, words: &[String]) -> Result<u32, OutOfMemory>
    ensures { IfOk result (IsTimeout (map string_bytes words.now)) }
{
    one_command();
    match read(alloc, words) {
        Ok(command) => Ok(timeout_of(&command)),
        Err(WordsError::BadWords) => Ok(TIMEOUT.greatest),
        Err(WordsError::OutOfMemory) => Err(OutOfMemory),
    }
}

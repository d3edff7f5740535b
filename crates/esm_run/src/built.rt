// Reads the command that the words of the command line spell, if it is built.
ghost use Rattle.std.specs.Prelude.{◌≡◌, map, IfOk};
ghost use Rattle.std.specs.String.{string_bytes};
ghost use Rattle.esm_cli.specs.declared.command.Command.{Command};
ghost use Rattle.esm_run.specs.Built.{is_built, SpellsBuilt};

use esm_cli::laws::one_command;
use esm_cli::{Command, WordsError, read};
use std::alloc::Global;

/// Whether the command is built.
fn is_built(command: &Command) -> bool
    ensures { result ≡ is_built command.now }
{
    match command {
        Command::Init
        | Command::Run(_)
        | Command::Show
        | Command::Failures
        | Command::Gen { .. }
        | Command::Compact
        | Command::Serve { .. }
        | Command::Migrate
        | Command::Ddb { .. }
        | Command::Redrive { .. }
        | Command::Replay { .. } => true,
    }
}

/// Reads the command that the words spell. `BadWords` if they spell none that is built; `OutOfMemory` if an allocation
/// failed.
pub fn built_command(alloc: Global, words: &[String]) -> Result<Command, WordsError>
    ensures spelled { IfOk result (SpellsBuilt (map string_bytes words.now)) }
    ensures bad { result ≡ Err WordsError.BadWords → (c : Command) → ¬ SpellsBuilt (map string_bytes words.now) c }
{
    one_command();
    match read(alloc, words) {
        Ok(command) => {
            if is_built(&command) {
                Ok(command)
            } else {
                Err(WordsError::BadWords)
            }
        }
        Err(why) => Err(why),
    }
}

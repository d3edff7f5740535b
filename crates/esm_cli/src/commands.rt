// Making a command from its verb and its options.
ghost use Rattle.std.specs.Prelude.{◌≡◌, IfOk};
ghost use Rattle.esm_cli.specs.Clap.{values_found};
ghost use Rattle.esm_cli.specs.Words.{IsSaid, IsRun, verb_of};
ghost use Rattle.esm_cli.specs.declared.command.Command.{Command};
ghost use Rattle.esm_cli.specs.declared.command.RunWords.{RunWords};

use crate::command::{Command, RunWords, WordsError};
use crate::options::Options;
use crate::table::{CALLS, MAX_RECEIVES, OptionName, RECORDS, REQUESTS, TIMEOUT, VISIBILITY, Verb};
use std::alloc::Global;

/// Makes the command of this verb with these options. `BadWords` if they are not options of it; `OutOfMemory` if an
/// allocation failed.
pub fn command(alloc: Global, verb: Verb, options: &Options<'_>) -> Result<Command, WordsError>
    ensures verb { IfOk result (λ c. verb_of c ≡ verb) }
    ensures said { IfOk result (IsSaid (values_found options.now.matches) options.now.flags) }
    ensures bad { result ≡ Err WordsError.BadWords → (c : Command) → verb_of c ≡ verb
        → ¬ IsSaid (values_found options.now.matches) options.now.flags c }
{
    match verb {
        Verb::Init => Ok(Command::Init),
        Verb::Run => Ok(Command::Run(run(alloc, options)?)),
        Verb::Show => Ok(Command::Show),
        Verb::Failures => Ok(Command::Failures),
        Verb::Gen => Ok(Command::Gen {
            records: options.number(RECORDS)?,
        }),
        Verb::Compact => Ok(Command::Compact),
        Verb::Serve => Ok(Command::Serve {
            requests: options.number(REQUESTS)?,
        }),
        Verb::Migrate => Ok(Command::Migrate),
        Verb::Ddb => Ok(Command::Ddb {
            config: options.text(alloc, OptionName::Config)?,
            calls: options.number(CALLS)?,
            timeout: options.number(TIMEOUT)?,
            trace: options.flags.trace,
        }),
        Verb::Redrive => Ok(Command::Redrive {
            config: options.text(alloc, OptionName::Config)?,
            max_receives: options.number(MAX_RECEIVES)?,
            calls: options.number(CALLS)?,
            visibility: options.number(VISIBILITY)?,
            timeout: options.number(TIMEOUT)?,
            trace: options.flags.trace,
        }),
        Verb::Replay => Ok(Command::Replay {
            config: options.text(alloc, OptionName::Config)?,
            calls: options.number(CALLS)?,
            timeout: options.number(TIMEOUT)?,
            trace: options.flags.trace,
        }),
    }
}

/// Makes the options of `run`. `BadWords` if these are none of its; `OutOfMemory` if an allocation failed.
fn run(alloc: Global, options: &Options<'_>) -> Result<RunWords, WordsError>
    ensures said { IfOk result (IsRun (values_found options.now.matches) options.now.flags) }
    ensures bad { result ≡ Err WordsError.BadWords → (r : RunWords)
        → ¬ IsRun (values_found options.now.matches) options.now.flags r }
{
    Ok(RunWords {
        which: options.which(alloc)?,
        calls: options.number(CALLS)?,
        visibility: options.number(VISIBILITY)?,
        timeout: options.number(TIMEOUT)?,
        read_first: options.flags.read_first,
        trace: options.flags.trace,
    })
}

//! Laws of every spelling, as the contracts of functions that do nothing.
ghost use Rattle.std.specs.Prelude.{◌≡◌, ◌<◌, ◌≤◌, ◌↔◌, ℕ, List, Some, None};
ghost use Rattle.std.specs.Fmt.{decimal};
ghost use Rattle.esm_cli.specs.declared.command.Command.{Command};
ghost use Rattle.esm_cli.specs.declared.table.TheConstants.{TIMEOUT};
ghost use Rattle.esm_cli.specs.Words.{IsNumberFrom, spells};

/// Words spell at most one command.
pub fn one_command()
    ensures { (words : List (List ℕ)) (c d : Command) → spells words c → spells words d → c ≡ d }
{}

/// The time limit of a call is from 1 to 900 seconds, and 900 if none is given.
pub fn timeouts()
    ensures given { (word : List ℕ) (n : ℕ) → IsNumberFrom TIMEOUT (Some word) n ↔ ((word ≡ decimal n) × (0 < n) × (n ≤ 900)) }
    ensures absent { (n : ℕ) → IsNumberFrom TIMEOUT None n ↔ (n ≡ 900) }
{}

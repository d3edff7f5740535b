// What answers the calls of functions, and the word of the command line that names it.
ghost use Rattle.std.specs.Prelude.{◌≡◌, ◌≢◌, ◌≤◌, ℕ, IfSome, IfNone};
ghost use Rattle.std.specs.Fmt.{decimal};
ghost use Rattle.esm.specs.Opening.{Names};
ghost use Rattle.esm.specs.declared.functions.Functions.{Functions};

use esm_cli::whole_number;

/// What answers the calls of functions.
#[derive(Clone, Copy)]
pub enum Functions<'a> {
    /// Status 200 and no body.
    Succeed,
    /// Status 200 and no body, with the function error if the event contains the text.
    Poison(&'a str),
    /// A server on this port of 127.0.0.1, from 1 to 65535.
    Port(u16),
}

/// The least port at which a server can be called.
const LEAST_PORT: u16 = 1;

/// The greatest port.
const GREATEST_PORT: u32 = 65_535;

/// Reads the port from 0 to 65535 that a word spells, without a leading zero.
pub fn port(word: &str) -> Option<u16>
    ensures some { IfSome result (λ port. word.now ≡ decimal port) }
    ensures none { IfNone result ((port : ℕ) → port ≤ 65535 → word.now ≢ decimal port) }
{
    match whole_number(word) {
        Some(number) if number <= GREATEST_PORT => Some(number as u16),
        _ => None,
    }
}

/// Reads the word that names the functions: `ok`, `poison:TEXT`, or a port from 1 on.
pub fn read_functions(word: &str) -> Option<Functions<'_>>
    ensures some { IfSome result (Names word.now) }
    ensures none { IfNone result ((functions : Functions) → ¬ Names word.now functions) }
{
    if word == "ok" {
        return Some(Functions::Succeed);
    }
    if let Some(text) = word.strip_prefix("poison:") {
        return Some(Functions::Poison(text));
    }
    let port = port(word)?;
    if port < LEAST_PORT {
        return None;
    }
    Some(Functions::Port(port))
}

// Reading the words of the command line as a command.
ghost use Rattle.std.specs.Prelude.{◌≡◌, ◌≢◌, ◌∷◌, List, ℕ, map, IfOk, IfSome, IfNone};
ghost use Rattle.std.specs.String.{string_bytes};
ghost use Rattle.std.specs.List.{list_any};
ghost use Rattle.esm_cli.specs.Spelling.{is_stray_dash};
ghost use Rattle.esm_cli.specs.Tables.{verb_name};
ghost use Rattle.esm_cli.specs.Words.{spells};
ghost use Rattle.esm_cli.specs.declared.command.Command.{Command};
ghost use Rattle.esm_cli.specs.declared.table.Verb.{Verb};

use crate::command::{Command, WordsError};
use crate::commands::command;
use crate::options::read_options;
use crate::table::Verb;
use std::alloc::Global;

/// Reads the command that the words spell; the program's own three words are left out.
/// `BadWords` if they spell none; `OutOfMemory` if an allocation failed.
pub fn read(alloc: Global, words: &[String]) -> Result<Command, WordsError>
    ensures spelled { IfOk result (λ c. spells (map string_bytes words.now) c) }
    ensures bad { result ≡ Err WordsError.BadWords → (c : Command) → ¬ spells (map string_bytes words.now) c }
{
    if has_stray_dash(words) {
        return Err(WordsError::BadWords);
    }
    let Some(verb) = first_verb(words) else {
        return Err(WordsError::BadWords);
    };
    let options = read_options(alloc, verb, words)?;
    command(alloc, verb, &options)
}

/// Reads the command that the first word names.
fn first_verb(words: &[String]) -> Option<Verb>
    ensures named { IfSome result (λ verb. (rest : List (List ℕ)) × (map string_bytes words.now ≡ verb_name verb ∷ rest)) }
    ensures none { IfNone result ((verb : Verb) (rest : List (List ℕ)) → map string_bytes words.now ≢ verb_name verb ∷ rest) }
{
    match words.first() {
        Some(word) => Verb::named(word.as_str()),
        None => None,
    }
}

/// Whether a word begins with `-` and is not `--` with a name: no spelling has such a word.
fn has_stray_dash(words: &[String]) -> bool
    ensures { result ≡ list_any (λ w. is_stray_dash (string_bytes w)) words.now }
{
    words.iter().any(|word| is_stray_dash(word.as_bytes()))
}

fn is_stray_dash(word: &[u8]) -> bool
    ensures { result ≡ is_stray_dash word.now }
{
    match word {
        [b'-', b'-', _, ..] => false,
        [b'-', ..] => true,
        _ => false,
    }
}

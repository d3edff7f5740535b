// Reading the first three words of the command line: the folder, the functions and the port of `serve`.
ghost use Rattle.std.specs.Prelude.{◌≡◌, ℕ, List, map, IfSome, IfNone};
ghost use Rattle.std.specs.String.{string_bytes};
ghost use Rattle.esm.specs.Opening.{Opens, IsRefused, IsFolder};
ghost use Rattle.esm.specs.declared.opening.Folder.{Folder};

use crate::functions::{Functions, port, read_functions};

/// Where the four files are.
#[derive(Clone, Copy)]
pub enum Folder<'a> {
    /// In memory, as an acknowledged `init` leaves them; the input is standard input.
    Memory,
    /// In the folder of this path, with the input beside them.
    Files(&'a str),
}

/// What the first three words of the command line name, and the words after them.
#[derive(Clone, Copy)]
pub struct Opening<'a> {
    pub folder: Folder<'a>,
    pub functions: Functions<'a>,
    /// The port on which `serve` listens; for 0 the system chooses one.
    pub door: u16,
    pub command: &'a [String],
}

/// Reads the folder that a word names. An empty word names none: its files would be those of the root.
fn read_folder(word: &str) -> Option<Folder<'_>>
    ensures some { IfSome result (IsFolder word.now) }
    ensures none { IfNone result ((folder : Folder) → ¬ IsFolder word.now folder) }
{
    match word {
        "" => None,
        "-" => Some(Folder::Memory),
        path => Some(Folder::Files(path)),
    }
}

/// Reads the folder, the functions and the door.
/// Returns `None` if one of the three words is missing or has another form.
pub fn read_opening(words: &[String]) -> Option<Opening<'_>>
    ensures some { IfSome result (λ opening. Opens (map string_bytes words.now) opening.folder opening.functions
        opening.door (map string_bytes opening.command.now)) }
    ensures none { IfNone result (IsRefused (map string_bytes words.now)) }
{
    let (folder, words) = words.split_first()?;
    let (called, words) = words.split_first()?;
    let (door, command) = words.split_first()?;
    let folder = read_folder(folder.as_str())?;
    let door = port(door.as_str())?;
    let functions = read_functions(called.as_str())?;
    Some(Opening {
        folder,
        functions,
        door,
        command,
    })
}

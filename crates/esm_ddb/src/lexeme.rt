//! Where the lexemes of a JSON text begin: its strings, numbers and words, brackets, colons and commas.
ghost use Rattle.std.specs.Prelude.{◌≡◌, ◌++◌, [], IfOk, OnOk};
ghost use Rattle.json.specs.Lex.{class};
ghost use Rattle.esm_model.specs.State.{places};
ghost use Rattle.esm_window.specs.Layout.{next};
ghost use Rattle.esm_ddb.specs.Lexemes.{begins, class_of, mode_of, place_if};

use esm_model::OutOfMemory;
use std::alloc::Global;

/// Where in the text the lexer is.
#[derive(Clone, Copy)]
pub enum Mode {
    /// Between lexemes.
    Between,
    /// In a number or a word.
    InWord,
    /// In a string.
    InText,
    /// In a string, just after a backslash.
    InEscape,
}

/// What kind of byte it is.
#[derive(Clone, Copy)]
pub enum Kind {
    Quote,
    Backslash,
    Operator,
    Space,
    Other,
}

fn kind_of(byte: u8) -> Kind
    ensures { class_of result ≡ class byte }
{
    match byte {
        b'"' => Kind::Quote,
        b'\\' => Kind::Backslash,
        b'{' | b'}' | b'[' | b']' | b':' | b',' => Kind::Operator,
        b' ' | b'\t' | b'\n' | b'\r' => Kind::Space,
        _ => Kind::Other,
    }
}

impl Mode {
    /// Whether a lexeme begins with a byte of this kind.
    fn begins(self, kind: Kind) -> bool
        ensures { result ≡ begins (mode_of self) (class_of kind) }
    {
        match self {
            Mode::Between => !matches!(kind, Kind::Space),
            Mode::InWord => matches!(kind, Kind::Operator),
            Mode::InText | Mode::InEscape => false,
        }
    }

    /// The mode after a byte of this kind.
    fn after(self, kind: Kind) -> Mode
        ensures { mode_of result ≡ next (mode_of self) (class_of kind) }
    {
        match self {
            Mode::Between => match kind {
                Kind::Quote => Mode::InText,
                Kind::Operator | Kind::Space => Mode::Between,
                Kind::Backslash | Kind::Other => Mode::InWord,
            },
            Mode::InWord => match kind {
                Kind::Operator | Kind::Space => Mode::Between,
                Kind::Quote | Kind::Backslash | Kind::Other => Mode::InWord,
            },
            Mode::InText => match kind {
                Kind::Quote => Mode::Between,
                Kind::Backslash => Mode::InEscape,
                Kind::Operator | Kind::Space | Kind::Other => Mode::InText,
            },
            Mode::InEscape => Mode::InText,
        }
    }
}

fn note(found: &mut Vec<usize>, begins: bool, place: usize) -> Result<(), OutOfMemory>
    ensures { OnOk result (found.new.items ≡ found.old.items ++ place_if begins place) }
{
    if begins {
        found.push(place)?;
    }
    Ok(())
}

/// Returns the places in bytes at which lexemes begin, in ascending order.
pub fn places(alloc: Global, text: &[u8]) -> Result<Vec<usize>, OutOfMemory>
    ensures { IfOk result (λ found. found.items ≡ places [] text.now) }
{
    let mut found = Vec::new(alloc);
    let mut mode = Mode::Between;
    for (place, byte) in text.iter().enumerate() {
        let kind = kind_of(*byte);
        note(&mut found, mode.begins(kind), place)?;
        mode = mode.after(kind);
    }
    Ok(found)
}

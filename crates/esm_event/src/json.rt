// Writing JSON texts.
ghost use Rattle.std.specs.Prelude.{◌≡◌, ◌++◌, ◌∷◌, [], true, OnOk};
ghost use Rattle.std.specs.List.{flat_map};
ghost use Rattle.esm_model.specs.JsonText.{escape_letter, escaped_byte, quoted, truth_text};

use crate::bytes::push_bytes;
use crate::digits::push_hexadecimal;
use esm_model::OutOfMemory;

/// Appends the UTF-8 text between quotation marks, with the escapes of RFC 8259. After an error a part of it may have been
/// appended.
pub fn push_quoted(out: &mut Vec<u8>, text: &[u8]) -> Result<(), OutOfMemory>
    ensures { OnOk result (out.new.items ≡ out.old.items ++ quoted text.now) }
{
    out.push(b'"')?;
    push_escaped(out, text)?;
    out.push(b'"')?;
    Ok(())
}

/// Appends the UTF-8 text with the escapes of RFC 8259; a text that needs none in one step. After an error a part of it may
/// have been appended.
pub(crate) fn push_escaped(out: &mut Vec<u8>, text: &[u8]) -> Result<(), OutOfMemory>
    ensures { OnOk result (out.new.items ≡ out.old.items ++ flat_map escaped_byte text.now) }
{
    if is_plain(text) {
        push_bytes(out, text)?;
    } else {
        push_each(out, text)?;
    }
    Ok(())
}

/// Whether no byte of the text needs an escape.
pub(crate) fn is_plain(text: &[u8]) -> bool
    ensures { result ≡ true → flat_map escaped_byte text.now ≡ text.now }
{
    for byte in text {
        if !is_plain_byte(*byte) {
            return false;
        }
    }
    true
}

#[tactic(auto, unfolding(esm_model::specs::JsonText::escaped_byte))]
fn is_plain_byte(byte: u8) -> bool
    ensures { result ≡ true → escaped_byte byte ≡ byte ∷ [] }
{
    byte >= 32 && byte != b'"' && byte != b'\\'
}

fn push_each(out: &mut Vec<u8>, text: &[u8]) -> Result<(), OutOfMemory>
    ensures { OnOk result (out.new.items ≡ out.old.items ++ flat_map escaped_byte text.now) }
{
    for byte in text {
        push_escape(out, *byte)?;
    }
    Ok(())
}

#[tactic(auto, unfolding(esm_model::specs::JsonText::escaped_byte))]
fn push_escape(out: &mut Vec<u8>, byte: u8) -> Result<(), OutOfMemory>
    ensures { OnOk result (out.new.items ≡ out.old.items ++ escaped_byte byte) }
{
    if let Some(letter) = escape_letter(byte) {
        out.push(b'\\')?;
        out.push(letter)?;
        return Ok(());
    }
    if byte < 32 {
        out.extend_from_slice(b"\\u00")?;
        return push_hexadecimal(out, 2, byte as u64);
    }
    out.push(byte)?;
    Ok(())
}

fn escape_letter(byte: u8) -> Option<u8>
    ensures { result ≡ escape_letter byte }
{
    match byte {
        b'"' => Some(b'"'),
        b'\\' => Some(b'\\'),
        8 => Some(b'b'),
        12 => Some(b'f'),
        b'\n' => Some(b'n'),
        b'\r' => Some(b'r'),
        b'\t' => Some(b't'),
        _ => None,
    }
}

/// Appends `true` or `false`. After an error a part of it may have been appended.
pub fn push_truth(out: &mut Vec<u8>, truth: bool) -> Result<(), OutOfMemory>
    ensures { OnOk result (out.new.items ≡ out.old.items ++ truth_text truth) }
{
    if truth {
        out.extend_from_slice(b"true")?;
    } else {
        out.extend_from_slice(b"false")?;
    }
    Ok(())
}

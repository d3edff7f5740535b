//! Writing JSON strings; a string without escapes is copied in one piece.
ghost use Rattle.std.specs.Prelude.{◌≡◌, ◌++◌, OnOk};
ghost use Rattle.std.specs.List.{list_all};
ghost use Rattle.esm_model.specs.JsonText.{quoted};
ghost use Rattle.esm_ddb.specs.OwnForm.{is_kept};

use esm_event::bytes::push_bytes;
use esm_event::json;
use esm_model::OutOfMemory;

/// Whether a JSON string has each of these bytes as it is.
pub fn are_kept(text: &[u8]) -> bool
    ensures { result ≡ list_all is_kept text.now }
{
    text.iter().all(|b| 32 <= *b && *b != b'"' && *b != b'\\')
}

/// Appends the UTF-8 text in quotation marks, with the escapes of RFC 8259. After an `Err` a part of it may have been
/// appended.
pub fn push_quoted(out: &mut Vec<u8>, text: &[u8]) -> Result<(), OutOfMemory>
    ensures { OnOk result (out.new.items ≡ out.old.items ++ quoted text.now) }
{
    if !are_kept(text) {
        return json::push_quoted(out, text);
    }
    push_bytes(out, b"\"")?;
    push_bytes(out, text)?;
    push_bytes(out, b"\"")?;
    Ok(())
}

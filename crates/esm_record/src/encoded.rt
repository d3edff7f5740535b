//! The number of bytes that a base64 text encodes, computed without decoding it.
ghost use Rattle.std.specs.Prelude.{◌≡◌, ◌≤◌, length, option_map, IfSome};
ghost use Rattle.std.specs.List.{list_all};
ghost use Rattle.std.specs.Result.{result_ok};
ghost use Rattle.base64.specs.Engines.{standard};
ghost use Rattle.base64.specs.GeneralPurpose.{decode_of};
ghost use Rattle.esm_record.specs.Base64Symbols.{is_symbol};

use base64::engine::general_purpose::STANDARD;

/// The symbols of a group.
const SYMBOLS: usize = 4;

/// The bytes that a group encodes.
const BYTES: usize = 3;

fn is_symbol(byte: u8) -> bool
    ensures { result ≡ is_symbol byte }
{
    ((b'A' <= byte) & (byte <= b'Z'))
        | ((b'a' <= byte) & (byte <= b'z'))
        | ((b'0' <= byte) & (byte <= b'9'))
        | (byte == b'+')
        | (byte == b'/')
}

/// Whether each byte is a symbol of the standard alphabet. Reads all bytes, so the loop can use vector instructions.
fn are_symbols(text: &[u8]) -> bool
    ensures { result ≡ list_all is_symbol text.now }
{
    let mut passes = true;
    for byte in text {
        passes &= is_symbol(*byte);
    }
    passes
}

/// The number of bytes that a text of at most one group encodes.
fn group_length(group: &[u8]) -> Option<usize>
    requires { length group.now ≤ SYMBOLS }
    ensures count { result ≡ option_map length (result_ok (decode_of standard group.now)) }
    ensures few { IfSome result (λ bytes. bytes ≤ BYTES) }
{
    let mut bytes = [0; BYTES];
    STANDARD.decode_slice(group, &mut bytes).ok()
}

/// The number of bytes that the standard padded base64 text encodes; `None` if and only if the text is no base64.
pub(crate) fn encoded_length(text: &[u8]) -> Option<usize>
    ensures { result ≡ option_map length (result_ok (decode_of standard text.now)) }
{
    let groups = text.len().saturating_sub(1) / SYMBOLS;
    let (before, last) = text.split_at(SYMBOLS * groups);
    if !are_symbols(before) {
        return None;
    }
    match group_length(last) {
        Some(bytes) => Some(BYTES * groups + bytes),
        None => None,
    }
}

// Whether bytes are digits, the bytes of a name, or a sequence number.
ghost use Rattle.std.specs.Prelude.{◌≡◌, ◌==◌, ◌||◌, ◌<◌, not, length, slice_index};
ghost use Rattle.std.specs.List.{list_all};
ghost use Rattle.std.specs.Char.{is_ascii_digit};
ghost use Rattle.esm_model.specs.Sequence.{is_sequence};
ghost use Rattle.esm_model.specs.Valid.{is_name_byte};

/// Whether each byte is an ASCII decimal digit.
pub fn are_digits(text: &[u8]) -> bool
    ensures { result ≡ list_all is_ascii_digit text.now }
{
    text.iter().all(|b| b.is_ascii_digit())
}

/// Whether the byte is an ASCII letter or digit, `-` or `_`.
pub fn is_name_byte(byte: u8) -> bool
    ensures { result ≡ is_name_byte byte }
{
    byte.is_ascii_alphabetic() || byte.is_ascii_digit() || byte == b'-' || byte == b'_'
}

/// Whether each byte is an ASCII letter or digit, `-` or `_`.
pub fn are_name_bytes(text: &[u8]) -> bool
    ensures { result ≡ list_all is_name_byte text.now }
{
    text.iter().all(|b| is_name_byte(*b))
}

fn is_short_or_leads(text: &[u8]) -> bool
    requires { 0 < length text.now }
    ensures { result ≡ ((length text.now == 1) || not (slice_index text.now 0 == 48)) }
{
    text.len() == 1 || text[0] != b'0'
}

/// Whether the bytes spell a sequence number: `0`, or 1 to 129 digits that do not begin with `0` (Kinesis API
/// Reference, `SequenceNumber`).
pub fn is_sequence(text: &[u8]) -> bool
    ensures { result ≡ is_sequence text.now }
{
    if text.is_empty() || text.len() > 129 || !are_digits(text) {
        return false;
    }
    is_short_or_leads(text)
}

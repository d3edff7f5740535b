// The parts of an ARN: regions, accounts, and the names of functions, streams, tables and queues.
ghost use Rattle.std.specs.Prelude.{◌≡◌, ◌≤◌, codes, nat_eq, option_map, IsTrue};
ghost use Rattle.std.specs.Char.{is_ascii_digit};
ghost use Rattle.std.specs.List.{ends_with, list_all};
ghost use Rattle.esm_model.specs.Valid.{is_account, is_between, is_label_byte, is_name_byte, is_queue_name, is_region, is_region_byte, is_stream_byte, is_word};
ghost use Rattle.std.specs.Prelude.{length};
ghost use Rattle.esm_config.specs.Arn.{cut, cut_at, is_label, is_slash, is_table_path, queue_kind, strip};

use esm_model::config::Kind;
use esm_model::spelling::{are_digits, are_name_bytes, is_name_byte};

/// The text after the prefix, where it begins with it.
pub fn strip<'a>(text: &'a str, prefix: &str) -> Option<&'a str>
    ensures { option_map (λ s. s.now) result ≡ strip prefix.now text.entry.now }
{
    text.strip_prefix(prefix)
}

/// The texts before and after the first colon.
pub fn cut(text: &str) -> Option<(&str, &str)>
    ensures { option_map (λ p. (p.0.now, p.1.now)) result ≡ cut text.entry.now }
{
    text.split_once(':')
}

/// The texts before and after the first slash.
fn cut_path(text: &str) -> Option<(&str, &str)>
    ensures { option_map (λ p. (p.0.now, p.1.now)) result ≡ cut_at is_slash text.entry.now }
{
    text.split_once('/')
}

fn is_region_byte(b: u8) -> bool
    ensures { result ≡ is_region_byte b }
{
    b.is_ascii_lowercase() || b.is_ascii_digit() || b == b'-'
}

fn is_stream_byte(b: u8) -> bool
    ensures { result ≡ is_stream_byte b }
{
    is_name_byte(b) || b == b'.'
}

fn is_label_byte(b: u8) -> bool
    ensures { result ≡ is_label_byte b }
{
    is_stream_byte(b) || b == b':'
}

fn has_length(text: &[u8], low: usize, high: usize) -> bool
    ensures { result ≡ is_between low high (length text.now) }
{
    low <= text.len() && text.len() <= high
}

fn are_region_bytes(text: &[u8]) -> bool
    ensures { result ≡ list_all is_region_byte text.now }
{
    text.iter().all(|b| is_region_byte(*b))
}

fn are_stream_bytes(text: &[u8]) -> bool
    ensures { result ≡ list_all is_stream_byte text.now }
{
    text.iter().all(|b| is_stream_byte(*b))
}

fn are_label_bytes(text: &[u8]) -> bool
    ensures { result ≡ list_all is_label_byte text.now }
{
    text.iter().all(|b| is_label_byte(*b))
}

/// Whether the text is a region: 1 to 32 lower-case letters, digits and `-`.
pub fn is_region(text: &[u8]) -> bool
    ensures { result ≡ is_region text.now }
{
    has_length(text, 1, 32) && are_region_bytes(text)
}

/// Whether the text is an account: twelve digits.
pub fn is_account(text: &[u8]) -> bool
    ensures { result ≡ is_account text.now }
{
    has_length(text, 12, 12) && are_digits(text)
}

/// Whether the text names a function: 1 to 64 letters, digits, `-` and `_`.
pub fn is_function_name(text: &[u8]) -> bool
    ensures { result ≡ is_word is_name_byte 1 64 text.now }
{
    has_length(text, 1, 64) && are_name_bytes(text)
}

/// Whether the text names a stream: 1 to 128 letters, digits, `_`, `-` and `.`.
pub fn is_stream_name(text: &[u8]) -> bool
    ensures { result ≡ is_word is_stream_byte 1 128 text.now }
{
    has_length(text, 1, 128) && are_stream_bytes(text)
}

fn is_table_name(text: &[u8]) -> bool
    ensures { result ≡ is_word is_stream_byte 3 255 text.now }
{
    has_length(text, 3, 255) && are_stream_bytes(text)
}

fn is_label(text: &[u8]) -> bool
    ensures { result ≡ is_word is_label_byte 1 64 text.now }
{
    has_length(text, 1, 64) && are_label_bytes(text)
}

fn is_labelled(text: &str) -> bool
    ensures { result ≡ is_label (strip (codes "stream/") text.now) }
{
    match strip(text, "stream/") {
        Some(label) => is_label(label.as_bytes()),
        None => false,
    }
}

/// Whether the text is `NAME/stream/LABEL`, with a table's name of 3 to 255 letters, digits, `_`, `-` and `.`, and a
/// stream's label of 1 to 64 of these and `:`.
pub fn is_table_path(text: &str) -> bool
    ensures { result ≡ is_table_path (cut_at is_slash text.now) }
{
    match cut_path(text) {
        Some((name, rest)) => is_table_name(name.as_bytes()) && is_labelled(rest),
        None => false,
    }
}

fn is_fifo_name(text: &[u8]) -> bool
    ensures ending { result ≡ ends_with nat_eq text.now (codes ".fifo") }
    ensures room { IsTrue result → 5 ≤ length text.now }
{
    text.ends_with(b".fifo")
}

/// The kind of a queue by its name: a FIFO queue's ends in `.fifo`.
pub fn queue_kind(name: &[u8]) -> Kind
    ensures { result ≡ queue_kind name.now }
{
    if is_fifo_name(name) {
        Kind::Fifo
    } else {
        Kind::Standard
    }
}

fn is_fifo_queue_name(text: &[u8]) -> bool
    ensures { result ≡ is_queue_name Kind.Fifo text.now }
{
    if !is_fifo_name(text) {
        return false;
    }
    let front = &text[..text.len() - 5];
    has_length(front, 1, 75) && are_name_bytes(front)
}

/// Whether the text names a queue of this kind: 1 to 80 letters, digits, `-` and `_`; a FIFO queue's name ends in `.fifo`,
/// which counts among the 80.
pub fn is_queue_name(kind: Kind, text: &[u8]) -> bool
    ensures { result ≡ is_queue_name kind text.now }
{
    match kind {
        Kind::Stream => false,
        Kind::Standard => has_length(text, 1, 80) && are_name_bytes(text),
        Kind::Fifo => is_fifo_queue_name(text),
    }
}

// The texts that a payload keeps: sequence numbers and message ids.
ghost use Rattle.std.specs.Prelude.{◌≡◌, true};
ghost use Rattle.std.specs.Str.{IsUtf8};
ghost use Rattle.esm_journal_record.specs.Payload.{is_message_id};
ghost use Rattle.esm_journal_record.specs.Words.{test_of};

use esm_model::spelling::{are_name_bytes, is_sequence};

/// The kind of text that is kept of a place.
#[derive(Clone, Copy, Debug)]
pub(crate) enum Word {
    Sequence,
    MessageId,
}

/// Whether the bytes are a text of this kind.
pub(crate) fn is_word(word: Word, bytes: &[u8]) -> bool
    ensures value { result ≡ test_of word bytes.now }
    ensures text { test_of word bytes.now ≡ true → IsUtf8 bytes.now }
{
    match word {
        Word::Sequence => is_sequence(bytes),
        Word::MessageId => is_message_id(bytes),
    }
}

fn is_message_id(bytes: &[u8]) -> bool
    ensures { result ≡ is_message_id bytes.now }
{
    if bytes.is_empty() || bytes.len() > 100 {
        return false;
    }
    are_name_bytes(bytes)
}

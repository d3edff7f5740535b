// Records and messages of the worked examples.
ghost use Rattle.std.specs.Prelude.{◌≡◌, ◌≤◌, true, false, length, None, Ok, IfOk};
ghost use Rattle.std.specs.String.{string_bytes};
ghost use Rattle.base64.specs.Engines.{standard};
ghost use Rattle.base64.specs.GeneralPurpose.{decode_of};
ghost use Rattle.esm_model.specs.declared.limits.TheConstants.{MAX_DATA, MAX_KEY};
ghost use Rattle.esm_model.specs.Sequence.{is_sequence};
ghost use Rattle.esm_model.specs.Valid.{IsValidRecord, is_between, char_count};
ghost use Rattle.esm_queue_model.specs.WorkedHistories.{message};

use crate::mappings::text;
use base64::engine::general_purpose::STANDARD;
use esm_model::spelling::is_sequence;
use esm_model::{Message, Record, SeqError};
use std::alloc::{AllocError, Global};

/// The standard padded base64 of the bytes (RFC 4648, section 4).
fn base64_of(alloc: Global, bytes: &[u8]) -> Result<String, AllocError>
    ensures { IfOk result (λ text. decode_of standard (string_bytes text) ≡ Ok bytes.now) }
{
    STANDARD.encode(alloc, bytes)
}

/// Returns the record of shard 0 with this sequence number, partition key and data, which arrived at moment 0. `BadSeq`
/// if and only if the text is not a sequence number.
pub fn record_of(
    alloc: Global,
    sequence: &str,
    key: &str,
    payload: &[u8],
) -> Result<Record, SeqError>
    ensures made { IfOk result (λ r. r ≡ record { shard = 0; seq = sequence.now; key = key.now; payload = payload.now; arrival = 0 }) }
    ensures valid { is_between 1 MAX_KEY (char_count key.now) ≡ true → length payload.now ≤ MAX_DATA → IfOk result IsValidRecord }
    ensures bad { result ≡ Err SeqError.BadSeq → is_sequence sequence.now ≡ false }
    ensures good { IfOk result (λ r. is_sequence sequence.now ≡ true) }
{
    if !is_sequence(sequence.as_bytes()) {
        return Err(SeqError::BadSeq);
    }
    let Ok(len) = u32::try_from(payload.len()) else {
        return Err(SeqError::OutOfMemory);
    };
    let data = base64_of(alloc, payload)?;
    match Record::of(alloc, 0, sequence.as_bytes(), key, data.as_bytes(), len, 0) {
        Ok(item) => Ok(item),
        Err(_) => Err(SeqError::OutOfMemory),
    }
}

/// Returns the message of a standard queue with this id and body, which was sent at moment 0.
pub fn message_of(alloc: Global, id: &str, body: &str) -> Result<Message, AllocError>
    ensures { IfOk result (λ m. m ≡ message id.now None body.now) }
{
    let id = text(alloc, id)?;
    let body = text(alloc, body)?;
    Ok(Message {
        id,
        group: None,
        body,
        sent: 0,
    })
}

// Reads places with the texts that a payload keeps of them.
ghost use Rattle.std.specs.Prelude.{◌≡◌, IfOk, IsUtf8};
ghost use Rattle.esm_journal_record.specs.Payload.{rises};
ghost use Rattle.esm_journal_record.specs.Words.{test_of};
ghost use Rattle.esm_journal_record.specs.Parsing.{Gives, name_at, names_at, named_at};

use crate::field::{ReadError, read_byte, read_u32, take};
use crate::gathered::GatheredTexts;
use crate::kept_text::KeptTexts;
use crate::word::{Word, is_word};
use esm_model::Places;
use std::alloc::Global;

/// The bytes that a place and the length of its text take.
const FRONT_BYTES: usize = 5;

/// Places and, in the same order, the text of each.
#[derive(Drop)]
pub(crate) struct Named {
    pub places: Places,
    pub texts: KeptTexts,
}

/// Reads a place and its text; also returns the bytes after them.
#[tactic(auto, unfolding(crate::specs::Parsing::name_at))]
fn read_name(word: Word, bytes: &[u8]) -> Result<((u32, &[u8]), &[u8]), ReadError>
    ensures read { Gives (λ x. ((x.0.0, x.0.1.now), x.1.now)) result (name_at (test_of word) bytes.now) }
    ensures utf8 { IfOk result (λ x. IsUtf8 x.0.1.now) }
{
    let (place, rest) = read_u32(bytes)?;
    let (count, rest) = read_byte(rest)?;
    let (text, rest) = take(count as usize, rest)?;
    if !is_word(word, text) {
        return Err(ReadError::NoPayload);
    }
    Ok(((place, text), rest))
}

/// Reads `count` places, each with its text. Takes memory for no more than the bytes can have.
fn read_names(
    alloc: Global,
    word: Word,
    count: u32,
    bytes: &[u8],
) -> Result<(Named, &[u8]), ReadError>
    ensures { Gives (λ x. (x.0, x.1.now)) result (names_at (test_of word) count bytes.now) }
{
    let room = (count as usize).min(bytes.len() / FRONT_BYTES);
    let mut places = Vec::with_capacity(alloc, room)?;
    let mut texts = GatheredTexts::new(alloc, room, bytes.len())?;
    let mut rest = bytes;
    for _ in 0..count {
        let ((place, text), after) = read_name(word, rest)?;
        places.push(place)?;
        texts = texts.with(text)?;
        rest = after;
    }
    let texts = texts.into_texts(alloc)?;
    let places = Places::from_vec(places);
    Ok((Named { places, texts }, rest))
}

fn rises(places: &[u32]) -> bool
    ensures { result ≡ rises places.now }
{
    let mut low: u64 = 0;
    for place in places {
        if (*place as u64) < low {
            return false;
        }
        low = *place as u64 + 1;
    }
    true
}

/// Reads at least one place, in rising order, each with its text.
#[tactic(auto, unfolding(crate::specs::Parsing::named_at))]
pub(crate) fn read_named(
    alloc: Global,
    word: Word,
    bytes: &[u8],
) -> Result<(Named, &[u8]), ReadError>
    ensures { Gives (λ x. (x.0, x.1.now)) result (named_at (test_of word) bytes.now) }
{
    let (count, rest) = read_u32(bytes)?;
    if count < 1 {
        return Err(ReadError::NoPayload);
    }
    let (named, rest) = read_names(alloc, word, count, rest)?;
    if !rises(named.places.as_slice()) {
        return Err(ReadError::NoPayload);
    }
    Ok((named, rest))
}

// A record of a stream. Its texts are parts of one text, which it may share with other records.
ghost use Rattle.std.specs.Prelude.{◌≡◌, ◌≤◌, ◌<◌, true, IsUtf8, Some, Ok, length, option_map, IfOk};
ghost use Rattle.std.specs.Result.{result_ok};
ghost use Rattle.base64.specs.Engines.{standard};
ghost use Rattle.base64.specs.GeneralPurpose.{IsBytes, decode_of};
ghost use Rattle.esm_model.specs.EventText.{base64_text};
ghost use Rattle.esm_model.specs.Lane.{lane_of};
ghost use Rattle.esm_model.specs.Records.{part_of, record_in, encoded_in, IsWithin, IsPart};
ghost use Rattle.esm_model.specs.Sequence.{is_sequence};

use crate::lane::{lane_by, lane_of, mixed};
use crate::memory::OutOfMemory;
use crate::part::Part;
use crate::sequence::Seq;
use crate::shared::SharedBytes;
use base64::DecodeAllocError;
use base64::engine::general_purpose::STANDARD;
use std::alloc::Global;
use std::marker::Model;
use std::str::from_utf8;

/// A record of a stream: its shard's number, its sequence number, its partition key, its data and its approximate arrival in
/// milliseconds since 1970. The sequence number, the key and the base64 of the data are parts of one text, which records may
/// share.
#[derive(Drop, Debug)]
pub struct Record {
    text: SharedBytes,
    shard: u64,
    arrival: u64,
    seq: Part,
    key: Part,
    payload: Part,
    /// Bytes of the data.
    len: u32,
    /// The key's MD5, reduced as `mixed` does, from which its lane follows; `None` where it was not computed yet.
    mixed: Option<u16>,
}

impl Model for Record {
    ghost use Rattle.std.specs.Prelude.{◌≡◌, IfSome};
    ghost use Rattle.esm_model.specs.declared.lane.TheConstants.{LANES_MULTIPLE};
    ghost use Rattle.esm_model.specs.Lane.{lane_of};
    ghost use Rattle.esm_model.specs.Records.{Record, ArePartsOf, part_of, record_in};

    ghost Value = { Record };

    ghost view = { λ r. record_in r.text r.shard r.seq r.key r.payload r.arrival };

    ghost invariant = { λ r. ArePartsOf r.text r.seq r.key r.payload r.len
        × IfSome r.mixed (λ m. m ≡ lane_of (part_of r.text r.key) LANES_MULTIPLE) };
}

/// The texts of one record, one after the other, and which part is which.
#[derive(Drop)]
struct Packed {
    text: Vec<u8>,
    seq: Part,
    key: Part,
    payload: Part,
}

/// Writes the texts of a record into one new text.
#[tactic(auto, using(crate::proofs::RecordFacts::is_part_still))]
fn pack(alloc: Global, seq: &[u8], key: &[u8], payload: &[u8]) -> Result<Packed, OutOfMemory>
    ensures seq { IfOk result (λ p. IsPart p.text.items p.seq seq.now) }
    ensures key { IfOk result (λ p. IsPart p.text.items p.key key.now) }
    ensures payload { IfOk result (λ p. IsPart p.text.items p.payload payload.now) }
{
    let room = seq.len().saturating_add(key.len());
    let mut text = Vec::with_capacity(alloc, room.saturating_add(payload.len()))?;
    let seq = Part::append(&mut text, seq)?;
    let key = Part::append(&mut text, key)?;
    let payload = Part::append(&mut text, payload)?;
    Ok(Packed {
        text,
        seq,
        key,
        payload,
    })
}

/// Each byte of a slice is below 256. Does nothing.
fn are_bytes(text: &[u8])
    ensures { IsBytes text.now }
{
    let _ = text;
}

impl Record {
    /// The record whose sequence number, partition key and base64 of the data are these parts of the text. The data has
    /// `len` bytes, and `arrival` is in milliseconds since 1970. Takes no memory.
    pub fn within(
        text: SharedBytes,
        shard: u64,
        seq: Part,
        key: Part,
        payload: Part,
        len: u32,
        arrival: u64,
    ) -> Record
        requires seq_within { IsWithin text seq }
        requires key_within { IsWithin text key }
        requires payload_within { IsWithin text payload }
        requires number { is_sequence (part_of text seq) ≡ true }
        requires utf8 { IsUtf8 (part_of text key) }
        requires encoded { option_map length (result_ok (decode_of standard (part_of text payload))) ≡ Some len }
        ensures { result ≡ record_in text shard seq key payload arrival }
    {
        are_bytes(payload.of(text.as_slice()));
        Record {
            text,
            shard,
            arrival,
            seq,
            key,
            payload,
            len,
            mixed: None,
        }
    }

    /// The record with this sequence number, partition key and base64 of `len` bytes of data, in a text of its own.
    pub fn of(
        alloc: Global,
        shard: u64,
        seq: &[u8],
        key: &str,
        payload: &[u8],
        len: u32,
        arrival: u64,
    ) -> Result<Record, OutOfMemory>
        requires number { is_sequence seq.now ≡ true }
        requires encoded { option_map length (result_ok (decode_of standard payload.now)) ≡ Some len }
        ensures { IfOk result (λ r. r ≡ record { shard = shard; seq = seq.now; key = key.now; payload = encoded_in payload.now; arrival = arrival }) }
    {
        let Packed {
            text,
            seq,
            key,
            payload,
        } = pack(alloc, seq, key.as_bytes(), payload)?;
        let text = SharedBytes::from_vec(alloc, text)?;
        Ok(Record::within(text, shard, seq, key, payload, len, arrival))
    }

    /// A copy, which shares the text. `OutOfMemory` where the text has more holders than can be counted.
    pub fn copy(&self) -> Result<Record, OutOfMemory>
        ensures { IfOk result (λ copy. copy ≡ self.now) }
    {
        Ok(Record {
            text: self.text.share()?,
            shard: self.shard,
            arrival: self.arrival,
            seq: self.seq,
            key: self.key,
            payload: self.payload,
            len: self.len,
            mixed: self.mixed,
        })
    }

    /// Computes the MD5 of its key once, so that `lane` need not. Contracts see no change.
    pub fn mix(&mut self)
        ensures { self.new ≡ self.old }
    {
        self.mixed = Some(mixed(self.key.of(self.text.as_slice())));
    }

    /// The number of its lane, below the factor. Computes an MD5 of the key unless `mix` was called or the factor is 1.
    pub fn lane(&self, factor: u32) -> u32
        requires some { 1 ≤ factor }
        requires most { factor ≤ 10 }
        ensures value { result ≡ lane_of self.now.key factor }
        ensures below { result < factor }
    {
        match self.mixed {
            Some(mixed) => lane_by(mixed, factor),
            None => lane_of(self.key(), factor),
        }
    }

    /// A copy in a text of its own, which is freed with the last record that shares it. Keeps what `mix` computed.
    /// `OutOfMemory` if an allocation failed.
    pub fn apart(&self, alloc: Global) -> Result<Record, OutOfMemory>
        ensures { IfOk result (λ copy. copy ≡ self.now) }
    {
        let payload = self.payload.of(self.text.as_slice());
        let mut copy = Record::of(
            alloc,
            self.shard,
            self.seq(),
            self.key_text(),
            payload,
            self.len,
            self.arrival,
        )?;
        copy.mixed = self.mixed;
        Ok(copy)
    }

    /// The number of its shard.
    pub fn shard(&self) -> u64
        ensures { result ≡ self.now.shard }
    {
        self.shard
    }

    /// Its approximate arrival, in milliseconds since 1970.
    pub fn arrival(&self) -> u64
        ensures { result ≡ self.now.arrival }
    {
        self.arrival
    }

    /// The digits of its sequence number.
    pub fn seq(&self) -> &[u8]
        ensures value { result.now ≡ self.now.seq }
        ensures spelled { is_sequence self.now.seq ≡ true }
    {
        self.seq.of(self.text.as_slice())
    }

    /// The digits of its sequence number, as a text.
    #[tactic(auto, using(crate::proofs::RecordFacts::sequence_utf8))]
    pub fn seq_text(&self) -> &str
        ensures { result.now ≡ self.now.seq }
    {
        match from_utf8(self.seq()) {
            Ok(text) => text,
            Err(_) => unreachable!(),
        }
    }

    /// A copy of its sequence number.
    pub fn sequence_copy(&self, alloc: Global) -> Result<Seq, OutOfMemory>
        ensures { IfOk result (λ s. s ≡ self.now.seq) }
    {
        Seq::of_digits(alloc, self.seq())
    }

    /// Its partition key, in UTF-8.
    pub fn key(&self) -> &[u8]
        ensures value { result.now ≡ self.now.key }
        ensures utf8 { IsUtf8 self.now.key }
    {
        self.key.of(self.text.as_slice())
    }

    /// Its partition key, as a text.
    pub fn key_text(&self) -> &str
        ensures { result.now ≡ self.now.key }
    {
        match from_utf8(self.key()) {
            Ok(text) => text,
            Err(_) => unreachable!(),
        }
    }

    /// The base64 of its data, standard and padded (RFC 4648, section 4).
    #[tactic(auto, unfolding(crate::specs::EventText::base64_text))]
    pub fn base64(&self) -> &[u8]
        ensures { result.now ≡ base64_text self.now.payload }
    {
        self.payload.of(self.text.as_slice())
    }

    /// The number of bytes of its data.
    pub fn data_len(&self) -> usize
        ensures { result ≡ length self.now.payload }
    {
        self.len as usize
    }

    /// Its data, decoded.
    pub fn decoded(&self, alloc: Global) -> Result<Vec<u8>, OutOfMemory>
        ensures { IfOk result (λ bytes. bytes.items ≡ self.now.payload) }
    {
        match STANDARD.decode(alloc, self.payload.of(self.text.as_slice())) {
            Ok(bytes) => Ok(bytes),
            Err(DecodeAllocError::OutOfMemory) => Err(OutOfMemory),
            Err(DecodeAllocError::DecodeError(_)) => unreachable!(),
        }
    }
}

//! Parsed lines whose records share one text. Their sequence numbers, keys and data are written into it one after the other,
//! so a record takes no memory of its own.
ghost use Rattle.std.specs.Prelude.{◌≡◌, ◌++◌, [], ◌∷◌, Ok, Some, IfOk, OnOk};
ghost use Rattle.esm_model.specs.declared.item.Item.TheVariants.{Stream};
ghost use Rattle.esm_record.specs.Fields.{record_at};
ghost use Rattle.esm_record.specs.Input.{some_item};
ghost use Rattle.esm_record.specs.Line.{line_of, record_of};
ghost use Rattle.esm_record.specs.Packing.{placed_record, ArePlaced, said_over, all_said, IsRowOf, AreRowsOf};
ghost use Rattle.esm_record.specs.Parsing.{parse_line};

use crate::error::{LineError, Refusal};
use crate::fields::Fields;
use crate::parse::{Parsed, is_blank, parse_message};
use crate::stream::read_fields;
use esm_model::{Item, LineKind, MAX_LINE, OutOfMemory, Part, Record, SharedBytes};
use json::Scratch;
use std::alloc::Global;
use std::marker::Model;

/// A record whose sequence number, key and base64 are in a text that is not shared yet.
#[derive(Drop)]
struct Placed {
    shard: u64,
    /// Its arrival, in milliseconds since 1970.
    arrival: u64,
    seq: Part,
    key: Part,
    payload: Part,
    /// The number of bytes of its data.
    len: u32,
}

/// What a line is: a record that does not share the text yet, or anything else.
#[derive(Drop)]
enum Row {
    Record(Placed),
    Said(Parsed),
}

/// What lines are, in their order, and the text of their records. Contracts see what the lines are.
#[derive(Drop)]
pub struct Packed {
    text: Vec<u8>,
    rows: Vec<Row>,
}

impl Model for Packed {
    ghost use Rattle.std.specs.Prelude.{List, Option, Result};
    ghost use Rattle.esm_model.specs.declared.item.Item.{Item};
    ghost use Rattle.esm_record.specs.declared.error.LineError.{LineError};

    ghost Value = { List (Result (Option Item) LineError) };

    ghost use Rattle.esm_record.specs.Packing.{all_said, AreRowsOf};

    ghost view = { λ p. all_said p.text.items p.rows.items };

    ghost invariant = { λ p. AreRowsOf p.text.items p.rows.items };
}

/// Appends the texts of a record to the others.
fn place(text: &mut Vec<u8>, fields: &Fields<'_>) -> Result<Placed, OutOfMemory>
    ensures text { OnOk result (text.new.items
        ≡ text.old.items ++ (fields.now.seq.now ++ (fields.now.key.now ++ fields.now.payload.text.now))) }
    ensures placed { IfOk result (λ p. ArePlaced text.new.items p) }
    ensures record { IfOk result (λ p. placed_record text.new.items p ≡ record_at fields.now) }
{
    let seq = Part::append(text, fields.seq)?;
    let key = Part::append(text, fields.key)?;
    let payload = Part::append(text, fields.payload.text)?;
    Ok(Placed {
        shard: fields.shard,
        arrival: fields.arrival,
        seq,
        key,
        payload,
        len: fields.payload.len,
    })
}

/// What the line is; its record now shares the text. With several lanes, the MD5 that chooses its lane is computed too.
fn said_of(text: &SharedBytes, row: Row, lanes: bool) -> Result<Parsed, OutOfMemory>
    requires { IsRowOf text.now row }
    ensures { IfOk result (λ said. said ≡ said_over text.now row) }
{
    match row {
        Row::Record(
            Placed {
                shard,
                arrival,
                seq,
                key,
                payload,
                len,
            },
        ) => {
            let text = text.share()?;
            let mut record = Record::within(text, shard, seq, key, payload, len, arrival);
            if lanes {
                record.mix();
            }
            Ok(Ok(Some(Item::Stream(record))))
        }
        Row::Said(said) => Ok(said),
    }
}

/// What the lines are; their records share the text.
fn all_said(
    alloc: Global,
    text: &SharedBytes,
    rows: Vec<Row>,
    lanes: bool,
) -> Result<Vec<Parsed>, OutOfMemory>
    requires { AreRowsOf text.now rows.items }
    ensures { IfOk result (λ v. v.items ≡ all_said text.now rows.items) }
{
    let mut parsed = Vec::with_capacity(alloc, rows.len())?;
    for row in rows {
        let said = said_of(text, row, lanes)?;
        parsed.push(said)?;
    }
    Ok(parsed)
}

impl Packed {
    /// No lines yet, and memory for `room` bytes of records.
    pub fn new(alloc: Global, room: usize) -> Result<Packed, OutOfMemory>
        ensures { IfOk result (λ p. p ≡ []) }
    {
        Ok(Packed {
            text: Vec::with_capacity(alloc, room)?,
            rows: Vec::new(alloc),
        })
    }

    /// These lines and a next one, which was parsed as this.
    fn with_said(self, said: Parsed) -> Result<Packed, OutOfMemory>
        ensures { IfOk result (λ p. p ≡ self ++ said ∷ []) }
    {
        let Packed { text, mut rows } = self;
        rows.push(Row::Said(said))?;
        Ok(Packed { text, rows })
    }

    /// These lines and a next one, which has these fields.
    fn with_fields(self, fields: &Fields<'_>) -> Result<Packed, OutOfMemory>
        ensures { IfOk result (λ p. p ≡ self ++ Ok (Some (Stream (record_at fields.now))) ∷ []) }
    {
        let Packed { mut text, mut rows } = self;
        let placed = place(&mut text, fields)?;
        rows.push(Row::Record(placed))?;
        Ok(Packed { text, rows })
    }

    /// These lines and a next one of a stream, which is neither blank nor too long.
    fn with_record(self, scratch: &mut Scratch, line: &[u8]) -> Result<Packed, OutOfMemory>
        ensures { IfOk result (λ p. p ≡ self ++ some_item Stream (line_of record_of line.now) ∷ []) }
    {
        match read_fields(scratch, line) {
            Ok(fields) => self.with_fields(&fields),
            Err(Refusal::Line(why)) => self.with_said(Err(why)),
            Err(Refusal::OutOfMemory) => Err(OutOfMemory),
        }
    }

    /// These lines and the next one.
    pub fn with_line(
        self,
        alloc: Global,
        kind: LineKind,
        scratch: &mut Scratch,
        line: &[u8],
    ) -> Result<Packed, OutOfMemory>
        ensures { IfOk result (λ p. p ≡ self ++ parse_line kind line.now ∷ []) }
    {
        if line.len() > MAX_LINE {
            return self.with_said(Err(LineError::LineTooLong));
        }
        if is_blank(line) {
            return self.with_said(Ok(None));
        }
        match kind {
            LineKind::Stream => self.with_record(scratch, line),
            LineKind::Queue { fifo } => {
                let said = parse_message(alloc, scratch, fifo, line)?;
                self.with_said(said)
            }
        }
    }

    /// What the lines are; their records share the text. With several lanes, the MD5 that chooses each one's lane is
    /// computed too.
    pub fn into_parsed(self, alloc: Global, lanes: bool) -> Result<Vec<Parsed>, OutOfMemory>
        ensures { IfOk result (λ v. v.items ≡ self) }
    {
        let Packed { mut text, rows } = self;
        text.shrink_to_fit();
        let text = SharedBytes::from_vec(alloc, text)?;
        all_said(alloc, &text, rows, lanes)
    }
}

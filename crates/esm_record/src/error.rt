// The fields of an input line, and why a line is refused.
ghost use Rattle.std.specs.Prelude.{◌≡◌, ◌≢◌, ◌<◌, IfOk, IfSome, IfNone, if◌then◌else◌};
ghost use Rattle.std.specs.Str.{bytes_eq};
ghost use Rattle.esm_record.specs.Line.{name_of, slot_of};
ghost use Rattle.esm_record.specs.declared.error.Field.{Field};

use esm_model::{OutOfMemory, Text};
use std::alloc::{AllocError, Global};

/// A field of an input line, by its name there.
#[derive(Clone, Copy, Debug, PartialEq, Eq)]
pub enum Field {
    /// `shardId`
    ShardId,
    /// `sequenceNumber`
    SequenceNumber,
    /// `partitionKey`
    PartitionKey,
    /// `data`
    Data,
    /// `approximateArrivalTimestamp`
    ApproximateArrivalTimestamp,
    /// `messageId`
    MessageId,
    /// `body`
    Body,
    /// `sentTimestamp`
    SentTimestamp,
    /// `messageGroupId`
    MessageGroupId,
}

/// The field, if this is its name.
fn only(name: &str, wanted: &str, field: Field) -> Option<Field>
    ensures { result ≡ (if bytes_eq name.now wanted.now then Some field else None) }
{
    if name == wanted { Some(field) } else { None }
}

impl Field {
    /// The member's name in a line.
    pub fn name(self) -> &'static str
        ensures { result.now ≡ name_of self }
    {
        match self {
            Field::ShardId => "shardId",
            Field::SequenceNumber => "sequenceNumber",
            Field::PartitionKey => "partitionKey",
            Field::Data => "data",
            Field::ApproximateArrivalTimestamp => "approximateArrivalTimestamp",
            Field::MessageId => "messageId",
            Field::Body => "body",
            Field::SentTimestamp => "sentTimestamp",
            Field::MessageGroupId => "messageGroupId",
        }
    }

    /// The field of this name. Its length leaves at most two names to compare.
    pub fn of_name(name: &str) -> Option<Field>
        ensures named { IfSome result (λ f. name.now ≡ name_of f) }
        ensures none { IfNone result ((f : Field) → name.now ≢ name_of f) }
    {
        match name.len() {
            4 => match name {
                "data" => Some(Field::Data),
                "body" => Some(Field::Body),
                _ => None,
            },
            7 => only(name, "shardId", Field::ShardId),
            9 => only(name, "messageId", Field::MessageId),
            12 => only(name, "partitionKey", Field::PartitionKey),
            13 => only(name, "sentTimestamp", Field::SentTimestamp),
            14 => match name {
                "sequenceNumber" => Some(Field::SequenceNumber),
                "messageGroupId" => Some(Field::MessageGroupId),
                _ => None,
            },
            27 => only(
                name,
                "approximateArrivalTimestamp",
                Field::ApproximateArrivalTimestamp,
            ),
            _ => None,
        }
    }

    /// Its index among the fields.
    pub fn slot(self) -> usize
        ensures value { result ≡ slot_of self }
        ensures within { result < 9 }
    {
        match self {
            Field::ShardId => 0,
            Field::SequenceNumber => 1,
            Field::PartitionKey => 2,
            Field::Data => 3,
            Field::ApproximateArrivalTimestamp => 4,
            Field::MessageId => 5,
            Field::Body => 6,
            Field::SentTimestamp => 7,
            Field::MessageGroupId => 8,
        }
    }
}

/// Why a line is refused: the first of these causes that holds.
#[derive(Drop, Debug)]
pub enum LineError {
    /// It does not read as a JSON object.
    NotJson,
    /// The field is absent.
    Missing(Field),
    /// The field's value is not allowed.
    BadField(Field),
    /// The sequence number `given` is not greater than the shard's last one, `kept`.
    Backwards { kept: Text, given: Text },
    /// It has more than 8,388,608 bytes without its line feed.
    LineTooLong,
    /// The message id occurred in an earlier line.
    Repeated(Text),
}

/// The first bad line: its number, counted from 1, and why it is refused.
#[derive(Drop, Debug)]
pub struct BadLine {
    pub line: u64,
    pub why: LineError,
}

impl LineError {
    fn copy(&self, alloc: Global) -> Result<LineError, OutOfMemory>
        ensures { IfOk result (λ e. e ≡ self.now) }
    {
        match self {
            LineError::NotJson => Ok(LineError::NotJson),
            LineError::Missing(field) => Ok(LineError::Missing(*field)),
            LineError::BadField(field) => Ok(LineError::BadField(*field)),
            LineError::LineTooLong => Ok(LineError::LineTooLong),
            LineError::Backwards { kept, given } => {
                let kept = kept.copy(alloc)?;
                let given = given.copy(alloc)?;
                Ok(LineError::Backwards { kept, given })
            }
            LineError::Repeated(id) => Ok(LineError::Repeated(id.copy(alloc)?)),
        }
    }
}

impl BadLine {
    /// A copy of it.
    pub fn copy(&self, alloc: Global) -> Result<BadLine, OutOfMemory>
        ensures { IfOk result (λ b. b ≡ self.now) }
    {
        Ok(BadLine {
            line: self.line,
            why: self.why.copy(alloc)?,
        })
    }
}

/// Why a line gave no item.
#[derive(Drop, Debug)]
pub enum Refusal {
    /// There is no memory for the item.
    OutOfMemory,
    /// The line is bad.
    Line(LineError),
}

impl From<OutOfMemory> for Refusal {
    ghost use Rattle.std.specs.Prelude.{◌≡◌};
    ghost use Rattle.esm_record.specs.declared.error.Refusal.{Refusal};

    ghost from_gives = { λ _ e. e ≡ Refusal.OutOfMemory };

    fn from(_: OutOfMemory) -> Self {
        Refusal::OutOfMemory
    }
}

impl From<AllocError> for Refusal {
    ghost use Rattle.std.specs.Prelude.{◌≡◌};
    ghost use Rattle.esm_record.specs.declared.error.Refusal.{Refusal};

    ghost from_gives = { λ _ e. e ≡ Refusal.OutOfMemory };

    fn from(_: AllocError) -> Self {
        Refusal::OutOfMemory
    }
}

impl From<LineError> for Refusal {
    ghost use Rattle.std.specs.Prelude.{◌≡◌};
    ghost use Rattle.esm_record.specs.declared.error.Refusal.{Refusal};

    ghost from_gives = { λ w e. e ≡ Refusal.Line w };

    fn from(why: LineError) -> Self {
        Refusal::Line(why)
    }
}

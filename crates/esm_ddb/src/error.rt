// The fields of a line of a DynamoDB stream, and why a line is refused.
ghost use Rattle.std.specs.Prelude.{◌≡◌};
ghost use Rattle.esm_ddb.specs.Change.{name_of};

use esm_model::OutOfMemory;
use std::alloc::AllocError;

/// A field of a line, named as its member; the fields are judged in this order.
#[derive(Clone, Copy, Debug, PartialEq, Eq)]
pub enum DdbField {
    /// `shardId`
    ShardId,
    /// `approximateArrivalTimestamp`
    ApproximateArrivalTimestamp,
    /// `eventID`
    EventId,
    /// `eventName`
    EventName,
    /// `dynamodb`
    Dynamodb,
}

impl DdbField {
    /// The member's name in a line.
    pub fn name(self) -> &'static str
        ensures { result.now ≡ name_of self }
    {
        match self {
            DdbField::ShardId => "shardId",
            DdbField::ApproximateArrivalTimestamp => "approximateArrivalTimestamp",
            DdbField::EventId => "eventID",
            DdbField::EventName => "eventName",
            DdbField::Dynamodb => "dynamodb",
        }
    }
}

/// Why a line is refused: the first of these that holds, and `LineTooLong` before all others.
#[derive(Clone, Copy, Debug, PartialEq, Eq)]
pub enum DdbError {
    /// It does not read as a JSON object.
    NotJson,
    /// The field is absent.
    Missing(DdbField),
    /// The field's value is not valid; for `dynamodb` also if the element has more than 1,048,576 bytes.
    BadField(DdbField),
    /// The line has more than 8,388,608 bytes without its line feed.
    LineTooLong,
}

/// The first bad line, counted from 1, and why it is refused.
#[derive(Clone, Copy, Debug, PartialEq, Eq)]
pub struct DdbLine {
    pub line: u64,
    pub why: DdbError,
}

/// Why a line was not turned.
#[derive(Clone, Copy, Debug)]
pub enum Refusal {
    /// An allocation failed.
    OutOfMemory,
    /// The line is bad.
    Line(DdbError),
}

impl From<OutOfMemory> for Refusal {
    ghost use Rattle.std.specs.Prelude.{◌≡◌};
    ghost use Rattle.esm_ddb.specs.declared.error.Refusal.{Refusal};

    ghost from_gives = { λ _ e. e ≡ Refusal.OutOfMemory };

    fn from(_: OutOfMemory) -> Self {
        Refusal::OutOfMemory
    }
}

impl From<AllocError> for Refusal {
    ghost use Rattle.std.specs.Prelude.{◌≡◌};
    ghost use Rattle.esm_ddb.specs.declared.error.Refusal.{Refusal};

    ghost from_gives = { λ _ e. e ≡ Refusal.OutOfMemory };

    fn from(_: AllocError) -> Self {
        Refusal::OutOfMemory
    }
}

// The kind of mapping that a command expects when a text gives the mapping.
ghost use Rattle.std.specs.Prelude.{◌≡◌};
ghost use Rattle.esm_model.specs.Valid.{is_stream};
ghost use Rattle.esm_mapping.specs.Expected.{is_expected};

use esm_model::Kind;

/// The kind of mapping that a command expects when a text gives the mapping.
#[derive(Clone, Copy, Debug, PartialEq, Eq)]
pub enum Expected {
    /// A mapping of a Kinesis stream or of an SQS queue.
    StreamOrQueue,
    /// A mapping of a Kinesis stream; a queue's is refused.
    Stream,
    /// A mapping of an SQS queue; a stream's is refused.
    Queue,
    /// A mapping of a DynamoDB table's stream, by the table of fields for such mappings.
    DynamoDb,
}

/// Whether the kind is a stream's.
fn is_stream(kind: Kind) -> bool
    ensures { result ≡ is_stream kind }
{
    match kind {
        Kind::Stream => true,
        Kind::Standard | Kind::Fifo => false,
    }
}

/// Whether a mapping of this kind is expected.
pub fn is_expected(expected: Expected, kind: Kind) -> bool
    ensures { result ≡ is_expected expected kind }
{
    match expected {
        Expected::StreamOrQueue => true,
        Expected::Stream | Expected::DynamoDb => is_stream(kind),
        Expected::Queue => !is_stream(kind),
    }
}

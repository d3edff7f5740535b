// The source of a mapping, by its ARN: a stream, a queue or a table's stream.
ghost use Rattle.std.specs.Prelude.{◌≡◌, option_map};
ghost use Rattle.esm_config.specs.Arn.{source_among, source_of, stream_source, table_of};
ghost use Rattle.esm_config.specs.Fields.{source_in};
ghost use Rattle.esm_config.specs.Parts.{source_view};
ghost use Rattle.esm_config.specs.View.{data_of};

use crate::arn::queue_kind;
use crate::owned::{Owned, queue_of, stream_of, table_of};
use crate::sources::Sources;
use esm_model::config::Kind;
use serde_json::Value;

/// The source that a mapping reads: its ARN, its kind and the ARN's parts.
#[derive(Clone, Copy, Debug)]
pub struct Source<'a> {
    pub arn: &'a str,
    pub kind: Kind,
    pub parts: Owned<'a>,
}

/// The stream or the queue with this ARN.
fn source_of(text: &str) -> Option<Source<'_>>
    ensures { option_map source_view result ≡ source_of text.entry.now }
{
    match stream_of(text) {
        Some(parts) => Some(Source {
            arn: text,
            kind: Kind::Stream,
            parts,
        }),
        None => match queue_of(text) {
            Some(parts) => Some(Source {
                arn: text,
                kind: queue_kind(parts.name.as_bytes()),
                parts,
            }),
            None => None,
        },
    }
}

/// The stream of a DynamoDB table with this ARN.
fn table_source(text: &str) -> Option<Source<'_>>
    ensures { option_map source_view result ≡ option_map (stream_source text.entry.now) (table_of text.entry.now) }
{
    match table_of(text) {
        Some(parts) => Some(Source {
            arn: text,
            kind: Kind::Stream,
            parts,
        }),
        None => None,
    }
}

fn source_among(sources: Sources, text: &str) -> Option<Source<'_>>
    ensures { option_map source_view result ≡ source_among sources text.entry.now }
{
    match sources {
        Sources::KinesisOrSqs => source_of(text),
        Sources::DynamoDb => table_source(text),
    }
}

/// The source with the field's ARN, if it is among these sources.
pub fn source_in(sources: Sources, field: Option<&Value>) -> Option<Source<'_>>
    ensures { option_map source_view result ≡ source_in sources (data_of field.entry) }
{
    match field {
        Some(found) => match found.as_str() {
            Some(text) => source_among(sources, text),
            None => None,
        },
        None => None,
    }
}

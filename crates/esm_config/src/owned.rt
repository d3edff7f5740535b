// Splitting the ARN of a stream, a queue, a table's stream or a function into region, account and name.
ghost use Rattle.std.specs.Prelude.{◌≡◌, option_map};
ghost use Rattle.esm_config.specs.Arn.{function_arn_of, is_function, is_queue, is_stream, is_table, owned, owned_region, cut, queue_of, stream_of, table_of};
ghost use Rattle.esm_config.specs.Parts.{parts_of};

use crate::arn::{
    cut, is_account, is_function_name, is_queue_name, is_region, is_stream_name, is_table_path,
    queue_kind, strip,
};

/// The parts of an ARN of a stream, a queue, a table's stream or a function.
#[derive(Clone, Copy, Debug)]
pub struct Owned<'a> {
    pub region: &'a str,
    pub account: &'a str,
    pub name: &'a str,
}

/// The parts of a text of the form `PREFIX REGION:ACCOUNT:RESOURCE NAME`, without the blanks.
fn owned_by<'a>(text: &'a str, prefix: &str, resource: &str) -> Option<Owned<'a>>
    ensures { option_map parts_of result ≡ owned prefix.now resource.now text.entry.now }
{
    match strip(text, prefix) {
        Some(rest) => owned_rest(rest, resource),
        None => None,
    }
}

fn owned_rest<'a>(rest: &'a str, resource: &str) -> Option<Owned<'a>>
    ensures { option_map parts_of result ≡ owned_region resource.now (cut rest.entry.now) }
{
    match cut(rest) {
        Some((region, rest)) => match cut(rest) {
            Some((account, rest)) => match strip(rest, resource) {
                Some(name) => Some(Owned {
                    region,
                    account,
                    name,
                }),
                None => None,
            },
            None => None,
        },
        None => None,
    }
}

/// The parts of the text, if it is the ARN of a Kinesis stream.
pub fn stream_of(text: &str) -> Option<Owned<'_>>
    ensures { option_map parts_of result ≡ stream_of text.entry.now }
{
    match owned_by(text, "arn:aws:kinesis:", "stream/") {
        Some(parts) => { if is_stream(&parts) { Some(parts) } else { None } }
        None => None,
    }
}

/// The parts of the text, if it is the ARN of an SQS queue.
pub fn queue_of(text: &str) -> Option<Owned<'_>>
    ensures { option_map parts_of result ≡ queue_of text.entry.now }
{
    match owned_by(text, "arn:aws:sqs:", "") {
        Some(parts) => { if is_queue(&parts) { Some(parts) } else { None } }
        None => None,
    }
}

/// The parts of the text, if it is the ARN of a DynamoDB table's stream; their name is `NAME/stream/LABEL`.
pub fn table_of(text: &str) -> Option<Owned<'_>>
    ensures { option_map parts_of result ≡ table_of text.entry.now }
{
    match owned_by(text, "arn:aws:dynamodb:", "table/") {
        Some(parts) => { if is_table(&parts) { Some(parts) } else { None } }
        None => None,
    }
}

/// The parts of the text, if it is the ARN of a function.
pub fn function_arn_of(text: &str) -> Option<Owned<'_>>
    ensures { option_map parts_of result ≡ function_arn_of text.entry.now }
{
    match owned_by(text, "arn:aws:lambda:", "function:") {
        Some(parts) => {
            if is_function(&parts) {
                Some(parts)
            } else {
                None
            }
        }
        None => None,
    }
}

fn is_stream(parts: &Owned) -> bool
    ensures { result ≡ is_stream (parts_of parts.now) }
{
    is_region(parts.region.as_bytes())
        && is_account(parts.account.as_bytes())
        && is_stream_name(parts.name.as_bytes())
}

fn is_queue(parts: &Owned) -> bool
    ensures { result ≡ is_queue (parts_of parts.now) }
{
    let name = parts.name.as_bytes();
    is_region(parts.region.as_bytes())
        && is_account(parts.account.as_bytes())
        && is_queue_name(queue_kind(name), name)
}

fn is_table(parts: &Owned) -> bool
    ensures { result ≡ is_table (parts_of parts.now) }
{
    is_region(parts.region.as_bytes())
        && is_account(parts.account.as_bytes())
        && is_table_path(parts.name)
}

fn is_function(parts: &Owned) -> bool
    ensures { result ≡ is_function (parts_of parts.now) }
{
    is_region(parts.region.as_bytes())
        && is_account(parts.account.as_bytes())
        && is_function_name(parts.name.as_bytes())
}

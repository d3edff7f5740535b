/// The sources of which a table of fields accepts one.
#[derive(Clone, Copy, Debug, PartialEq, Eq)]
pub enum Sources {
    /// A Kinesis stream or an SQS queue.
    KinesisOrSqs,
    /// The stream of a DynamoDB table.
    DynamoDb,
}

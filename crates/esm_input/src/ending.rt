// Why the reading of an input ended.
use esm_model::LimitName;
use esm_record::BadLine;

/// Why the reading of an input ended.
#[derive(Drop, Debug)]
pub enum InputEnd {
    /// It was read to its end.
    End,
    /// A line is bad, the first one; the items before it were handed out.
    BadLine(BadLine),
    /// The source failed.
    Fault,
    /// An item exceeds this limit, the first of those that it exceeds; the items before it were handed out.
    Limit(LimitName),
}

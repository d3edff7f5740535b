// A message as a queue keeps it, with its moments and receive count, and the limit of that count.
use esm_model::Message;

/// The greatest receive count, at which it stays; this product's own.
pub const MAX_COUNT: u32 = 4_294_967_295;

/// A message as a queue keeps it: the moment at which it arrived and those of its first and its last receipt, in
/// milliseconds since 1970; how often it was received; and whether it is deleted.
#[derive(Drop, Debug)]
pub struct Stored {
    pub message: Message,
    pub came: u64,
    pub first: Option<u64>,
    pub last: Option<u64>,
    pub count: u32,
    pub deleted: bool,
}

// A member of a JSON object whose text keeps the order of its members.
use serde_json::Value;

/// A member of an object whose text keeps the order of its members.
#[derive(Drop, Debug)]
pub struct Member {
    pub name: &'static str,
    pub value: Value,
}

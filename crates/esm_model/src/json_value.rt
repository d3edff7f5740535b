//! JSON as this product reads it.
ghost use Rattle.std.specs.Prelude.{◌≡◌, IfOk, option_map};
ghost use Rattle.serde_json.specs.Read.{read};
ghost use Rattle.serde_json.specs.View.{view};
ghost use Rattle.esm_model.specs.Json.{read_json};

use crate::memory::OutOfMemory;
use serde_json::Value;
use std::alloc::Global;

/// The JSON value that the bytes encode, or `None` where they are no UTF-8 text that `serde_json` reads, within its limit of
/// depth. Of a key that occurs twice in an object the last value counts.
pub fn parse_json(alloc: Global, bytes: &[u8]) -> Result<Option<Value>, OutOfMemory>
    ensures { IfOk result (λ value. option_map view value ≡ read_json bytes.now) }
{
    match Value::from_slice(alloc, bytes) {
        Ok(value) => Ok(Some(value)),
        Err(error) => {
            if error.is_memory() {
                Err(OutOfMemory)
            } else {
                Ok(None)
            }
        }
    }
}

/// The JSON value that the text encodes, or `None` where `serde_json` does not read it.
pub fn parse_json_text(alloc: Global, text: &str) -> Result<Option<Value>, OutOfMemory>
    ensures { IfOk result (λ value. option_map view value ≡ read text.now) }
{
    match Value::from_str(alloc, text) {
        Ok(value) => Ok(Some(value)),
        Err(error) => {
            if error.is_memory() {
                Err(OutOfMemory)
            } else {
                Ok(None)
            }
        }
    }
}

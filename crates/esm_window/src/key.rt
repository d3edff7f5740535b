// Whether a member's key in a function's answer reads as `state`.
ghost use Rattle.std.specs.Prelude.{◌≡◌, IfOk, codes};
ghost use Rattle.esm_model.specs.Json.{read_json};
ghost use Rattle.esm_window.specs.Scan.{is_text};

use esm_model::{OutOfMemory, parse_json};
use serde_json::Value;
use std::alloc::Global;

/// Whether the bytes of a member's key, with its escapes, read as `state`.
pub fn is_state(alloc: Global, key: &[u8]) -> Result<bool, OutOfMemory>
    ensures { IfOk result (λ is. is ≡ is_text (codes "state") (read_json key.now)) }
{
    match parse_json(alloc, key)? {
        Some(Value::String(text)) => Ok(text.as_str() == "state"),
        _ => Ok(false),
    }
}

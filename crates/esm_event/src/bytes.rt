// Appending bytes to a text.
ghost use Rattle.std.specs.Prelude.{◌≡◌, ◌++◌, OnOk};

use esm_model::OutOfMemory;

/// Appends the bytes to `out`, as they are.
pub fn push_bytes(out: &mut Vec<u8>, bytes: &[u8]) -> Result<(), OutOfMemory>
    ensures { OnOk result (out.new.items ≡ out.old.items ++ bytes.now) }
{
    out.extend_from_slice(bytes)?;
    Ok(())
}

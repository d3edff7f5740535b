// A part of a text, as a range of its bytes.
ghost use Rattle.std.specs.Prelude.{◌≡◌, ◌++◌, IfOk, OnOk};
ghost use Rattle.esm_model.specs.Records.{part_of, IsWithin, IsPart};

use crate::memory::OutOfMemory;

/// A part of a text: the index of its first byte, and the index after its last one, both counted from 0.
#[derive(Clone, Copy, Debug)]
pub struct Part {
    pub from: u32,
    pub to: u32,
}

impl Part {
    /// Appends the bytes to the text, and returns the part that they are. `OutOfMemory` is also returned where the text
    /// would reach 2^32 bytes.
    pub fn append(text: &mut Vec<u8>, bytes: &[u8]) -> Result<Part, OutOfMemory>
        ensures text { OnOk result (text.new.items ≡ text.old.items ++ bytes.now) }
        ensures part { IfOk result (λ p. IsPart text.new.items p bytes.now) }
    {
        let Ok(from) = u32::try_from(text.len()) else {
            return Err(OutOfMemory);
        };
        text.extend_from_slice(bytes)?;
        let Ok(to) = u32::try_from(text.len()) else {
            return Err(OutOfMemory);
        };
        Ok(Part { from, to })
    }

    /// The bytes of the part. The part has to lie within the text.
    pub fn of(self, text: &[u8]) -> &[u8]
        requires { IsWithin text.now self }
        ensures { result.now ≡ part_of text.now self }
    {
        &text[self.from as usize..self.to as usize]
    }
}

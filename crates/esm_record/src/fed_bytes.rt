//! The bytes that a reader was fed, for contracts alone.
ghost use Rattle.std.specs.Prelude.{◌≡◌, ◌<◌, ◌++◌, [], length, OnOk, IfOk};
ghost use Rattle.esm_record.specs.Fed.{in_blocks};

use esm_model::OutOfMemory;
use std::alloc::Global;
use std::marker::Model;
use std::snapshot::Snapshot;

/// The bytes of a block.
const BLOCK: usize = 256;

/// Bytes that only contracts read. Whole blocks take no memory; the bytes after the last whole block are kept, to become
/// one.
#[derive(Drop)]
pub struct FedBytes {
    blocks: Vec<Snapshot<[u8; BLOCK]>>,
    rest: Vec<u8>,
}

impl Model for FedBytes {
    ghost use Rattle.std.specs.Prelude.{ℕ, List, ◌≤◌, ◌++◌, length};
    ghost use Rattle.esm_record.specs.Fed.{in_blocks};

    ghost Value = { List ℕ };

    ghost view = { λ f. in_blocks f.blocks.items ++ f.rest.items };

    ghost invariant = { λ f. length f.rest.items ≤ 256 };
}

/// Adds a whole block.
fn push_block(noted: &mut Vec<Snapshot<[u8; BLOCK]>>, bytes: &[u8]) -> Result<(), OutOfMemory>
    requires { length bytes.now ≡ BLOCK }
    ensures { OnOk result (in_blocks noted.new.items ≡ in_blocks noted.old.items ++ bytes.now) }
{
    match bytes.as_array::<BLOCK>() {
        Some(block) => {
            noted.push(Snapshot::of(block))?;
            Ok(())
        }
        None => unreachable!(),
    }
}

/// Adds the whole blocks at the front, and returns the bytes after them.
fn push_blocks<'a>(
    noted: &mut Vec<Snapshot<[u8; BLOCK]>>,
    bytes: &'a [u8],
) -> Result<&'a [u8], OutOfMemory>
    ensures taken { IfOk result (λ rest. in_blocks noted.new.items ++ rest.now
        ≡ in_blocks noted.old.items ++ bytes.now) }
    ensures short { IfOk result (λ rest. length rest.now < BLOCK) }
{
    let mut rest = bytes;
    while let Some((block, after)) = rest.split_first_chunk::<BLOCK>() {
        noted.push(Snapshot::of(block))?;
        rest = after;
    }
    Ok(rest)
}

impl FedBytes {
    pub fn new(alloc: Global) -> Self
        ensures { result ≡ [] }
    {
        FedBytes {
            blocks: Vec::new(alloc),
            rest: Vec::new(alloc),
        }
    }

    /// Adds the next piece.
    pub fn note(&mut self, piece: &[u8]) -> Result<(), OutOfMemory>
        ensures { OnOk result (self.new ≡ self.old ++ piece.now) }
    {
        let wanted = BLOCK - self.rest.len();
        if piece.len() < wanted {
            self.rest.extend_from_slice(piece)?;
            return Ok(());
        }
        let (front, after) = piece.split_at(wanted);
        self.rest.extend_from_slice(front)?;
        push_block(&mut self.blocks, self.rest.as_slice())?;
        self.rest.clear();
        let last = push_blocks(&mut self.blocks, after)?;
        self.rest.extend_from_slice(last)?;
        Ok(())
    }
}

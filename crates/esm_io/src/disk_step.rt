// The steps that a disk in memory records: each write, with the bytes that it replaced, and each sync.
use esm_model::Bytes;

/// A step of a disk in memory: what one call did to it.
#[derive(Drop, Debug)]
pub enum DiskStep {
    /// `count` bytes were written from the offset `at` on, over the bytes `before`, which are fewer where the write extended
    /// the end.
    Wrote {
        at: usize,
        count: usize,
        before: Bytes,
    },
    /// A sync succeeded.
    Synced,
}

// The header and the places of the bytes of a journal's file.

/// The header of a single journal's file.
pub(crate) const SINGLE: [u8; 8] = *b"ESMJ0001";

/// The header of a pair's files.
pub(crate) const PAIR: [u8; 8] = *b"ESMJ0002";

/// The place of the seal, behind the header and the epoch.
pub(crate) const SEAL: u64 = 16;

/// The place of the first gate, where the entries begin.
pub(crate) const FIRST_GATE: u64 = 17;

/// The number of bytes of a file without entries, with its last gate.
pub(crate) const LEAST_SIZE: u64 = 18;

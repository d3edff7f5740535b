// The standing of a piece: fresh, tried or split off, and so which places may join it.
ghost use Rattle.std.specs.Prelude.{◌≡◌};
ghost use Rattle.esm_lanes.specs.Piece as spec;

/// How a piece arose, which decides what places may join it.
#[derive(Clone, Copy, Debug, PartialEq, Eq)]
pub enum Standing {
    /// Opened by `add`: no call has failed with these places.
    Fresh,
    /// Opened by `add_tried`, with this number of failed tries.
    Tried(u32),
    /// The first part of a split, with this number of failed tries: no place joins it.
    Split(u32),
}

impl Standing {
    pub fn is_fresh(self) -> bool
        ensures { result ≡ spec.is_fresh self }
    {
        matches!(self, Standing::Fresh)
    }

    /// The number of failed tries; 0 for a fresh piece.
    pub fn tries(self) -> u32
        ensures { result ≡ spec.tries_of self }
    {
        match self {
            Standing::Fresh => 0,
            Standing::Tried(tries) | Standing::Split(tries) => tries,
        }
    }

    /// Whether a place with the standing `other` may join a piece with this one.
    pub fn takes(self, other: Standing) -> bool
        ensures { result ≡ spec.takes self other }
    {
        match (self, other) {
            (Standing::Fresh, Standing::Fresh) => true,
            (Standing::Tried(mine), Standing::Tried(theirs)) => mine == theirs,
            _ => false,
        }
    }
}

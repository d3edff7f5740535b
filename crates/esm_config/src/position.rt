/// Where a stream's mapping begins to read, as its object says (`StartingPosition`).
#[derive(Clone, Copy, Debug, PartialEq, Eq)]
pub enum Position {
    TrimHorizon,
    Latest,
    /// At the moment of `StartingPositionTimestamp`.
    AtTimestamp,
}

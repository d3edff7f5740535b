//! Worked examples of records that arrive: which are filtered, and which differ from what the journal kept.
ghost use Rattle.esm_worked.specs.WorkedArrivals.{FilteredData, ChangedStream, ChangedAfterTries};

/// A record that does not pass the filter is filtered at its arrival; for one that passes only the arrival is recorded.
pub fn filters()
    ensures { FilteredData }
{}

/// A record with another sequence number than the journal kept for its place, with a fate or with tries, is reported with
/// both numbers. One with the kept number is not.
pub fn changes()
    ensures with_fate { ChangedStream }
    ensures with_tries { ChangedAfterTries }
{}

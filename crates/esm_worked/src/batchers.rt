//! Worked examples of what a batcher is answered: calls with their whole event, and the answers that add no entry: to pause
//! until a moment, that all calls allowed were made, that nothing is left.
ghost use Rattle.esm_worked.specs.WorkedNext.{OneRecordIsCalled, BatchWaits, LaneWaits, NothingToDo, Finishes, Stops, BothLanesCall, FinalCallIsFirst};

/// The call of one record has the whole event. The batchers of two lanes get their calls while the other's call runs. If a
/// window is due and a batch of the next one is ready, the window's final call comes first, with the state.
pub fn calls()
    ensures one_record { OneRecordIsCalled }
    ensures two_lanes { BothLanesCall }
    ensures final_call { FinalCallIsFirst }
{}

/// A batch that waits for its batching window, and a lane that waits after a failure, are answered with the moment at which
/// the wait is over. A batcher whose shard has not arrived, or whose lane has no open record, is answered to ask again after
/// 20 milliseconds.
pub fn pauses()
    ensures batching_window { BatchWaits }
    ensures retry_delays { LaneWaits }
    ensures nothing_to_do { NothingToDo }
{}

/// Once the input ended, a batcher without a shard or an open record is answered that nothing is left. After all calls
/// allowed were made, one with open records is answered that they are spent.
pub fn ends()
    ensures finished { Finishes }
    ensures spent { Stops }
{}

//! Worked examples, each computed from the definitions.
ghost use Rattle.std.specs.Prelude.{◌≡◌, true, List};
ghost use Rattle.esm_model.specs.declared.entry.Entry.{Entry};
ghost use Rattle.esm_replay_model.specs.ReplaySetting.{ReplaySetting};
ghost use Rattle.esm_replay_model.specs.ReplayRun.{IsReplay};
ghost use Rattle.esm_replay_model.specs.ReplayTests.{is_replay};
ghost use Rattle.esm_replay_model.specs.WorkedReplays.{FailureRanges, ReplayEight, ShortCallIsNoReplay, FailedIsNotReplayed};
ghost use Rattle.esm_replay_model.specs.WorkedReplays.{SecondCallIsNoReplay, NoCallsAllowed, ReplayEdges, UnnamedIsNotCalled};
ghost use Rattle.esm_replay_model.specs.WorkedReplays.{UnlistedIsNotNamed, HalvedReplay, LaterHalfIsNoReplay, ReportedReplay};

/// A history is a run of the replay if it passes the tests.
pub fn replay_by_tests()
    ensures { (s : ReplaySetting) (h : List Entry) → is_replay s h ≡ true → IsReplay s h }
{}

/// A failure line names a range of records, where it is one of a Kinesis stream whose numbers are in order.
pub fn lines_read()
    ensures { FailureRanges }
{}

/// One call replays eight records that one line names, and no later replay calls them again. Without calls they are left.
pub fn eight_replayed()
    ensures replay_eight { ReplayEight }
    ensures short_call { ShortCallIsNoReplay }
    ensures failed { FailedIsNotReplayed }
    ensures second_call { SecondCallIsNoReplay }
    ensures no_calls { NoCallsAllowed }
{}

/// A record that fails again is left. One that no line names, or that was not given up, is not called.
pub fn one_left()
    ensures replay_edges { ReplayEdges }
    ensures unnamed { UnnamedIsNotCalled }
    ensures unlisted { UnlistedIsNotNamed }
{}

/// A batch that fails is halved, and its halves are called first, the earlier one before the later one. If the answer
/// reports a record of the batch, those before it are replayed, and the others are called again.
pub fn pieces()
    ensures halved { HalvedReplay }
    ensures later_half { LaterHalfIsNoReplay }
    ensures reported { ReportedReplay }
{}

//! Worked histories that the rules decide entry by entry, most of them beside similar ones that they do not decide. A
//! history is decided if each call that begins and all records that expire are what a batcher is answered then; if right
//! after each end of a call come all entries that it requires, in their order; and if after the arrival of records those
//! that do not pass the filter are filtered.
ghost use Rattle.esm_worked.specs.WorkedHistories.{BisectEight, ExhaustEight, BisectItemFailures, BudgetAndRestart, RetryDelays};
ghost use Rattle.esm_worked.specs.WorkedHistories.{ThrottledCall, DelayLadder, TriesOutlast, RecordAge, AgeEdge, TwoLanes, OneRecord};
ghost use Rattle.esm_worked.specs.WorkedHistories.{BatchingWindow, FilteredData, PartialFailure, ItemFailuresCounted, AnswerBodies};
ghost use Rattle.esm_worked.specs.WorkedHistories.{HostileBodies, TumblingWindows, WindowRestart};

/// Eight records of which the fifth fails are halved down to it in seven calls, or given up together with their failure
/// line. Item failures halve a batch too. A run that may make three calls makes the first three, and a second run, which
/// finds their fates, makes five more. The rules do not decide a batch that omits a record, the later half of a halved batch
/// before the first one, a fourth of three calls, or records that are given up without their line.
pub fn splits()
    ensures bisect_eight { BisectEight }
    ensures exhaust_eight { ExhaustEight }
    ensures bisect_item_failures { BisectItemFailures }
    ensures budget_and_restart { BudgetAndRestart }
{}

/// A record that fails is called again at 250 and 750 and then given up. A call that was not run counts no try; ten of them
/// in a row are made, each as soon as the delay is over. Two tries found in the journal leave one call. The rules do not
/// decide a call before the delay is over, one after a failed try that was not counted, or a record that is given up while
/// it has retries.
pub fn retries()
    ensures retry_delays { RetryDelays }
    ensures throttled_call { ThrottledCall }
    ensures delay_ladder { DelayLadder }
    ensures tries_outlast { TriesOutlast }
{}

/// A record is called while it is not older than the maximum age, and expires with its failure line one millisecond later.
/// The rules do not decide that it is called then, expires earlier, or expires without the line.
pub fn ages()
    ensures record_age { RecordAge }
    ensures age_edge { AgeEdge }
{}

/// The calls of two lanes overlap. A record is not called in the other record's lane.
pub fn lanes()
    ensures { TwoLanes }
{}

/// One record is one call. A batch waits for its batching window, unless it is full or the input ended, and does not begin
/// earlier. A record that does not pass the filter is filtered and never called; one that passes is called and not filtered.
pub fn batches()
    ensures one_record { OneRecord }
    ensures batching_window { BatchingWindow }
    ensures filtered_data { FilteredData }
{}

/// What is before the least position that an answer reports succeeds, and the rest counts one try; these entries come in
/// this order and not in the other. The rest is then called again, or given up if no retry is left. Fourteen further bodies
/// lead to the fate of their only record.
pub fn answers()
    ensures partial_failure { PartialFailure }
    ensures item_failures_counted { ItemFailuresCounted }
    ensures answer_bodies { AnswerBodies }
    ensures hostile_bodies { HostileBodies }
{}

/// The batch of each window leaves the state that its answer gives, and the final call closes the window before the next one
/// begins, also where a second run finds the state in the journal. The rules do not decide that a final call is skipped, or
/// that it leaves its window open.
pub fn windows()
    ensures tumbling_windows { TumblingWindows }
    ensures window_restart { WindowRestart }
{}

//! Worked examples: whole legal histories and their outcome. Each is computed from the definitions.
ghost use Rattle.std.specs.Prelude.{◌≡◌, true, List};
ghost use Rattle.esm_model.specs.declared.entry.Entry.{Entry};
ghost use Rattle.esm_model.specs.Setting.{Setting};
ghost use Rattle.esm_model.specs.Step.{Legal};
ghost use Rattle.esm_model.specs.WorkedLegal.{is_legal};
ghost use Rattle.esm_model.specs.WorkedSplits.{BisectEight, ShortBatchIsNotLegal, LaterHalfIsNotLegal, ExhaustEight, BisectItemFailures, BudgetAndRestart, FourthCallIsNotLegal};
ghost use Rattle.esm_model.specs.WorkedRetries.{RetryDelays, EarlyCallIsNotLegal, ThrottledCall, DelayLadder, TriesOutlast};
ghost use Rattle.esm_model.specs.WorkedAges.{RecordAge, LateCallIsNotLegal, AgeEdge};
ghost use Rattle.esm_model.specs.WorkedLanes.{TwoLanes};
ghost use Rattle.esm_model.specs.WorkedBatches.{OneRecord, BatchingWindow, EarlyBatchIsNotLegal, FilteredData};
ghost use Rattle.esm_model.specs.WorkedAnswers.{PartialFailure, ItemFailuresCounted, AnswerBodies, HostileBodies};
ghost use Rattle.esm_model.specs.WorkedWindows.{TumblingWindows, SkippedFinalCallIsNotLegal, WindowRestart, StateSpans};

/// A history is legal if it passes tests over the shards, lanes and windows that occur in it.
pub fn legal_by_tests()
    ensures { (s : Setting) (h : List Entry) → is_legal s h ≡ true → Legal s h }
{}

/// Eight records of which the fifth fails are halved down to it in seven calls, or given up together with one failure line.
/// Item failures halve a batch too. A second run continues from the fates that it finds. Refused are a batch that omits a
/// record that fits, the later half of a halved batch before the first one, and a call beyond those allowed.
pub fn splits()
    ensures bisect_eight { BisectEight }
    ensures exhaust_eight { ExhaustEight }
    ensures bisect_item_failures { BisectItemFailures }
    ensures budget_and_restart { BudgetAndRestart }
    ensures short_batch { ShortBatchIsNotLegal }
    ensures later_half { LaterHalfIsNotLegal }
    ensures fourth_call { FourthCallIsNotLegal }
{}

/// A record that fails is called again after a delay, which doubles up to a minute, until its retries are used up. A call
/// that was not run counts no try, and the tries in the journal count. No call begins before the delay is over.
pub fn retries()
    ensures retry_delays { RetryDelays }
    ensures early_call { EarlyCallIsNotLegal }
    ensures throttled_call { ThrottledCall }
    ensures delay_ladder { DelayLadder }
    ensures tries_outlast { TriesOutlast }
{}

/// A record expires, with its failure line, once it is strictly older than the maximum age, and may then not be called.
pub fn ages()
    ensures record_age { RecordAge }
    ensures late_call { LateCallIsNotLegal }
    ensures age_edge { AgeEdge }
{}

/// The calls of two lanes overlap, and the checkpoint waits for the first record.
pub fn lanes()
    ensures { TwoLanes }
{}

/// One record is one call with its whole event. A batch waits for its batching window, unless it is full or the input ended,
/// and may not begin earlier. A record that does not pass the filter is never called.
pub fn batches()
    ensures one_record { OneRecord }
    ensures batching_window { BatchingWindow }
    ensures early_batch { EarlyBatchIsNotLegal }
    ensures filtered_data { FilteredData }
{}

/// Of an answer's item failures the least position counts: what is before it succeeded, and the rest, from it on, counts one
/// try. A body without item failures succeeds. One that reports no record of the batch, or is no list of item failures,
/// fails.
pub fn answers()
    ensures partial_failure { PartialFailure }
    ensures item_failures_counted { ItemFailuresCounted }
    ensures answer_bodies { AnswerBodies }
    ensures hostile_bodies { HostileBodies }
{}

/// A window's state passes from call to call and to its final call, which comes before the next window, also where a second
/// run finds the state in the journal. A state is the bytes of the member as the answer has them.
pub fn windows()
    ensures tumbling_windows { TumblingWindows }
    ensures skipped_final_call { SkippedFinalCallIsNotLegal }
    ensures window_restart { WindowRestart }
    ensures state_spans { StateSpans }
{}

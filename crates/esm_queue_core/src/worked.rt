//! Worked examples, each computed from the definitions.
ghost use Rattle.esm_queue_core.specs.WorkedNext.{ReportedIsCalledAgain, QueueEventIsCalled, EmptyQueue};

/// What batchers do next: a message that the answer reports is called again when it shows; the event of a call; and
/// nothing is left of an empty queue whose input ended.
pub fn batchers()
    ensures queue_item_failures { ReportedIsCalledAgain }
    ensures queue_event { QueueEventIsCalled }
    ensures empty_queue { EmptyQueue }
{}

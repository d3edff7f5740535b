//! Worked examples, each computed from the definitions.
ghost use Rattle.esm_report.specs.Worked.{EmptyQueue, OneFound, ChangedMessage, NothingRan};

/// Reports of four queues' runs: without a message; with a deletion that the journal had; with a message whose id is not the
/// one that the journal kept; and a run that did not begin.
pub fn reports()
    ensures empty_queue { EmptyQueue }
    ensures one_found { OneFound }
    ensures changed_message { ChangedMessage }
    ensures nothing_ran { NothingRan }
{}

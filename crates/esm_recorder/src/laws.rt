//! What the logs of recorders say about the callers below, as the contracts of functions that do nothing.
ghost use Rattle.esm_recorder.specs.Laws.{ListsTell, LogTells, LogsTell};

use esm_io::Caller;

/// If the log of a recorder over a caller grew by some calls, so did the log of that caller, and the replies that are kept
/// are those to these calls.
pub fn log_tells<F: Caller>()
    ensures { LogTells F.log }
{}

/// The same for the callers of a run, each by its number; and if each recorder kept its replies, the lists of them are the
/// replies to the calls.
pub fn logs_tell<F: Caller>()
    ensures below { LogsTell F.log }
    ensures kept { ListsTell F.log }
{}

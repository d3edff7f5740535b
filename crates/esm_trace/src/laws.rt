//! What a trace says, and whose replies it needs, as the contracts of functions that do nothing.
ghost use Rattle.std.specs.Prelude.{◌≡◌, List, All};
ghost use Rattle.esm_model.specs.declared.config.Kind.{Kind};
ghost use Rattle.esm_model.specs.declared.entry.Entry.{Entry};
ghost use Rattle.esm_trace.specs.Laws.{QueueCallsTell, StreamCallsTell};
ghost use Rattle.esm_trace.specs.Trace.{trace_text};
ghost use Rattle.esm_trace.specs.Within.{IsWithin};

/// A trace determines the whole history: two histories over sources of one kind that have the same text are equal.
pub fn trace_is_the_history()
    ensures { (kind : Kind) (h h' : List Entry) → All (IsWithin kind) h → All (IsWithin kind) h'
        → trace_text kind h ≡ trace_text kind h' → h ≡ h' }
{}

/// The replies in the calls of a batcher, as its caller logs them, are the replies that the history has for this batcher.
pub fn calls_tell_replies()
    ensures stream { StreamCallsTell }
    ensures queue { QueueCallsTell }
{}

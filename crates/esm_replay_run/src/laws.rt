// The laws from which the headline of a replay follows, in one place.
ghost use Rattle.esm_replay_run.specs.Laws.{AreLaws};

use esm_replay_model::laws::{
    calls_logged, calls_named, calls_within, counts_add_up, replayed_as_answered, replayed_once,
    replayed_or_left, says_after, succeeded_are_replayed,
};

/// States the laws. Does nothing.
pub(crate) fn laws_hold()
    ensures { AreLaws }
{
    replayed_once();
    calls_named();
    replayed_as_answered();
    succeeded_are_replayed();
    replayed_or_left();
    calls_within();
    counts_add_up();
    calls_logged();
    says_after();
}

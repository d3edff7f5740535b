// The laws from which those of a life follow, in one place: of lists of replays, and of lists of a queue's runs and
// redrives.
ghost use Rattle.esm_life.specs.QueueLaws.{AreQueueLaws};
ghost use Rattle.esm_life.specs.ReplayLaws.{AreReplayLaws};

use esm_queue_life::life as queue;
use esm_replay_life::life::{
    content_is_good, each_is_answered, each_replayed_once, fates_and_tries_stay,
    none_is_called_again, replays_stay, runs_replay_nothing,
};

/// States the laws of lists of replays. Does nothing.
pub(crate) fn replay_laws_hold()
    ensures { AreReplayLaws }
{
    each_replayed_once();
    replays_stay();
    none_is_called_again();
    each_is_answered();
    fates_and_tries_stay();
    content_is_good();
    runs_replay_nothing();
}

/// States the laws of a queue's life. Does nothing.
pub(crate) fn queue_laws_hold()
    ensures { AreQueueLaws }
{
    queue::deletion_stays();
    queue::each_deleted_once();
    queue::each_is_earned();
    queue::each_redrive_is_earned();
    queue::ids_are_kept();
    queue::none_is_called_again();
    queue::groups_in_order();
    queue::deletions_are_recorded();
    queue::each_run_goes_on();
}

// Marks the receipt of messages of a queue, which hides them for the visibility timeout.
ghost use Rattle.std.specs.Prelude.{◌≡◌, ◌<◌, length, All};
ghost use Rattle.esm_model.specs.Moment.{moment_after};
ghost use Rattle.esm_queue_model.specs.Queue.{received_once, changed_from};
ghost use Rattle.esm_queue.specs.Receiving.{IsRising};
ghost use Rattle.esm_queue.specs.Moments.{AreAlive, leaves};
ghost use Rattle.esm_queue.specs.Groups.{IsHeadedBy};

use crate::groups::Groups;
use crate::timeline::Timeline;
use esm_model::MAX_MOMENT;
use esm_queue_model::Stored;

/// The moment `milliseconds` after this one, at most `MAX_MOMENT`.
pub fn moment_after(moment: u64, milliseconds: u64) -> u64
    ensures { result ≡ moment_after moment milliseconds }
{
    moment.saturating_add(milliseconds).min(MAX_MOMENT)
}

/// Counts one more receipt of the message.
fn receive_one(stored: &mut Stored, now: u64)
    ensures { stored.new ≡ received_once now stored.old }
{
    stored.first = stored.first.or(Some(now));
    stored.last = Some(now);
    stored.count = stored.count.saturating_add(1);
}

/// Counts one more receipt of the messages at the places, which rise, and hides them. Takes no memory: the moment at which
/// they show is ready.
pub fn hide_all(
    messages: &mut [Stored],
    shows: &mut Timeline,
    groups: &mut Groups,
    places: &[u32],
    now: u64,
    visibility_ms: u64,
)
    requires within { All (λ i. i < length messages.old) places.now }
    requires rising { IsRising 0 places.now }
    requires alive { AreAlive messages.old places.now }
    requires shown { shows.old.moments ≡ leaves visibility_ms messages.old }
    requires headed { IsHeadedBy (leaves visibility_ms messages.old) groups.old }
    requires linked { length groups.old.links.items ≡ length messages.old }
    requires ready { shows.old.ready ≡ moment_after now visibility_ms }
    ensures hidden { messages.new ≡ changed_from (received_once now) places.now 0 messages.old }
    ensures shown { shows.new.moments ≡ leaves visibility_ms messages.new }
    ensures spare { shows.new.spare ≡ shows.old.spare }
    ensures headed { IsHeadedBy (leaves visibility_ms messages.new) groups.new }
    ensures kind { groups.new.fifo ≡ groups.old.fifo }
    ensures links { groups.new.links ≡ groups.old.links }
    ensures buckets { groups.new.buckets ≡ groups.old.buckets }
    ensures room { groups.new.heads.spare ≡ groups.old.heads.spare }
{
    let show = moment_after(now, visibility_ms);
    for &place in places {
        let _ = shows.set(place, show);
        groups.show(place, show);
        receive_one(&mut messages[place as usize], now);
    }
}

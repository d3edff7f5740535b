// A queue that limits how often each message may be received, and finds the next message that is due.
ghost use Rattle.std.specs.Prelude.{◌≡◌, ◌+◌, ◌≤◌, ◌<◌, ◌∷◌, [], All, not, length, slice_get, slice_set, if◌then◌else◌, OnOk, OnErr, IfOk, IsOk};
ghost use Rattle.esm_model.specs.Moment.{capped_moment};
ghost use Rattle.esm_model.specs.Moment as moments;
ghost use Rattle.esm_queue_model.specs.Queue.{empty_queue, after_arrival, after_receipt, after_deletion, receivable, is_deleted_at};
ghost use Rattle.esm_redrive.specs.Limited.{is_spent, due_in};
ghost use Rattle.esm_redrive.specs.Spent.{AreMarked};

use esm_model::{MAX_MOMENT, Message, OutOfMemory};
use esm_queue::moment_tree::{MomentTree, NEVER};
use esm_queue::{Queue, moment_after};
use std::alloc::Global;
use std::marker::Model;

/// The greatest limit of receives. Source: the SQS API Reference, `SetQueueAttributes`, `RedrivePolicy`
/// (`maxReceiveCount`, 1 to 1,000).
pub const MAX_RECEIVES: u32 = 1_000;

/// A queue with a limit of receives for each message. A message is due if it is eligible and was received as often as it
/// may be; the first one is found without looking at those that are hidden. Moments are in milliseconds since 1970.
#[derive(Drop, Debug)]
pub struct LimitedQueue {
    queue: Queue,
    visibility_ms: u64,
    max_receives: u32,
    /// The moment at which a message becomes visible that was received as often as it may be; `NEVER` for all others, and
    /// where it is deleted.
    spent: MomentTree,
}

impl Model for LimitedQueue {
    ghost use Rattle.std.specs.Prelude.{min};
    ghost use Rattle.esm_redrive.specs.Limited.{Limited};
    ghost use Rattle.esm_redrive.specs.Spent.{IsKept};

    ghost Value = { Limited };

    ghost view = { λ q. record { state = q.queue.state; max_receives = q.max_receives; spare = min q.queue.spare q.spent.spare; ready = q.queue.ready } };

    ghost invariant = { λ q. IsKept q };
}

/// Notes that the message at the place shows at this moment, if it was received as often as it may be.
fn mark_one(queue: &Queue, spent: &mut MomentTree, place: u32, max_receives: u32, show: u64)
    requires { place < length spent.old.moments }
    ensures set { spent.new.moments ≡ (if is_spent max_receives queue.now.state place then slice_set spent.old.moments place show else spent.old.moments) }
    ensures spare { spent.new.spare ≡ spent.old.spare }
{
    if max_receives <= queue.count(place) {
        spent.set(place, show);
    }
}

/// Notes the same for each of the messages at the places.
fn mark_spent(queue: &Queue, spent: &mut MomentTree, places: &[u32], max_receives: u32, show: u64)
    requires { All (λ i. i < length spent.old.moments) places.now }
    ensures sized { length spent.new.moments ≡ length spent.old.moments }
    ensures marked { AreMarked max_receives queue.now.state places.now show spent.old.moments spent.new.moments }
    ensures spare { spent.new.spare ≡ spent.old.spare }
{
    for &place in places {
        mark_one(queue, spent, place, max_receives, show);
    }
}

impl LimitedQueue {
    /// Makes a queue without messages, FIFO or standard, with this visibility timeout in milliseconds and limit of
    /// receives.
    pub fn new(
        alloc: Global,
        fifo: bool,
        visibility_ms: u64,
        max_receives: u32,
    ) -> Result<LimitedQueue, OutOfMemory>
        requires some { 1 ≤ max_receives }
        requires few { max_receives ≤ MAX_RECEIVES }
        ensures state { IfOk result (λ q. q.state ≡ empty_queue fifo visibility_ms) }
        ensures limit { IfOk result (λ q. q.max_receives ≡ max_receives) }
    {
        let queue = Queue::new(alloc, fifo, visibility_ms)?;
        let spent = MomentTree::new(alloc)?;
        Ok(LimitedQueue {
            queue,
            visibility_ms,
            max_receives,
            spent,
        })
    }

    /// Takes the memory for `n` more messages, so that the next `n` calls of `came` succeed. No message changes.
    pub fn reserve(&mut self, alloc: Global, n: u32) -> Result<(), OutOfMemory>
        ensures state { self.new.state ≡ self.old.state }
        ensures limit { self.new.max_receives ≡ self.old.max_receives }
        ensures ok { OnOk result (n ≤ self.new.spare) }
        ensures kept { self.old.spare ≤ self.new.spare }
    {
        self.queue.reserve(alloc, n)?;
        self.spent.reserve(alloc, n)
    }

    /// Adds a message that arrives, and returns its place. After `OutOfMemory`, which is not returned within what
    /// `reserve` took, nothing has changed.
    pub fn came(&mut self, alloc: Global, message: Message, moment: u64) -> Result<u32, OutOfMemory>
        requires few { length self.old.state.messages < u32.MAX }
        ensures ok { OnOk result (self.new.state ≡ after_arrival message (capped_moment moment) self.old.state) }
        ensures place { IfOk result (λ place. place ≡ length self.old.state.messages) }
        ensures err { OnErr result (self.new.state ≡ self.old.state) }
        ensures limit { self.new.max_receives ≡ self.old.max_receives }

        // Within what was reserved it succeeds, and uses up at most one.
        ensures succeeds { 0 < self.old.spare → IsOk result }
        ensures spare { self.old.spare ≤ self.new.spare + 1 }
    {
        self.spent.reserve(alloc, 1)?;
        let place = self.queue.came(alloc, message, moment)?;
        self.spent.push(NEVER);
        Ok(place)
    }

    /// Takes the memory for a receipt at this moment, so that the next `hide` at it takes none. No message changes.
    pub fn prepare(&mut self, now: u64) -> Result<(), OutOfMemory>
        ensures ready { OnOk result (self.new.ready ≡ moments.moment_after (capped_moment now) self.old.state.visibility) }
        ensures state { self.new.state ≡ self.old.state }
        ensures limit { self.new.max_receives ≡ self.old.max_receives }
        ensures spare { self.new.spare ≡ self.old.spare }
    {
        self.queue.prepare(now)
    }

    /// Receives the messages at the places, which are the first eligible ones, while none is due: they are hidden from
    /// then on for the visibility timeout, and each was received once more. Takes no memory.
    pub fn hide(&mut self, places: &[u32], now: u64)
        requires ready { self.old.ready ≡ moments.moment_after (capped_moment now) self.old.state.visibility }
        requires first { places.now ≡ receivable self.old.state (capped_moment now) (length places.now) }
        requires none_due { due_in self.old.max_receives self.old.state (capped_moment now) ≡ [] }
        ensures state { self.new.state ≡ after_receipt (capped_moment now) places.now self.old.state }
        ensures limit { self.new.max_receives ≡ self.old.max_receives }
        ensures spare { self.new.spare ≡ self.old.spare }
    {
        self.queue.hide(places, now);
        let show = moment_after(now.min(MAX_MOMENT), self.visibility_ms);
        mark_spent(
            &self.queue,
            &mut self.spent,
            places,
            self.max_receives,
            show,
        );
    }

    /// Deletes the message, and returns whether it was not deleted before. Takes no memory.
    pub fn delete(&mut self, place: u32) -> bool
        requires known { place < length self.old.state.messages }
        ensures answer { result ≡ not (is_deleted_at self.old.state place) }
        ensures state { self.new.state ≡ after_deletion (place ∷ []) self.old.state }
        ensures limit { self.new.max_receives ≡ self.old.max_receives }
        ensures spare { self.new.spare ≡ self.old.spare }
    {
        let is_new = self.queue.delete(place);
        self.spent.set(place, NEVER);
        is_new
    }

    /// Returns the first message that is due at the moment. Takes no memory, and looks at no message that is hidden.
    pub fn first_due(&self, now: u64) -> Option<u32>
        ensures { result ≡ slice_get (due_in self.now.max_receives self.now.state (capped_moment now)) 0 }
    {
        self.spent.first_from(0, now.min(MAX_MOMENT))
    }

    /// Returns the queue, for reading. Takes no memory.
    pub fn queue(&self) -> &Queue
        ensures state { result.now.state ≡ self.now.state }
        ensures ready { result.now.ready ≡ self.now.ready }
    {
        &self.queue
    }
}

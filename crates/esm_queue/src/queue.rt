// The messages of a queue's mapping: their arrival, receipt, visibility timeout and deletion.
ghost use Rattle.std.specs.Prelude.{◌≡◌, ◌+◌, ◌≤◌, ◌<◌, not, length, ◌∷◌, [], OnOk, OnErr, IfOk, IsOk, IsTrue, ◌↔◌, option_map};
ghost use Rattle.std.specs.Option.{option_copied};
ghost use Rattle.esm_model.specs.Moment.{capped_moment};
ghost use Rattle.esm_model.specs.Moment as moments;
ghost use Rattle.esm_model.specs.declared.moment.TheConstants.{MAX_MOMENT};
ghost use Rattle.esm_queue_model.specs.declared.stored.Stored.{Stored};
ghost use Rattle.esm_queue_model.specs.Queue.{empty_queue, after_arrival, after_receipt, after_deletion, receivable, seen, stored_at};
ghost use Rattle.esm_queue_model.specs.Queue.{is_deleted_at, count_at, first_at, next_show};

use crate::copying::copy_all;
use crate::fifo::first_places;
use crate::groups::Groups;
use crate::marking::{hide_all, moment_after};
use crate::timeline::Timeline;
use esm_model::{MAX_MOMENT, Message, OutOfMemory, Places, Received};
use esm_queue_model::Stored;
use std::alloc::Global;
use std::marker::Model;

/// The messages of a queue's mapping. A place counts messages in order of arrival from 0; moments and the visibility
/// timeout are in milliseconds, and a moment after `MAX_MOMENT` is taken as `MAX_MOMENT`. Source: the Amazon SQS
/// Developer Guide, "visibility timeout" and "FIFO queue delivery logic".
#[derive(Drop, Debug)]
pub struct Queue {
    visibility_ms: u64,
    messages: Vec<Stored>,
    /// The moment at which each message shows, `NEVER` if it is deleted.
    shows: Timeline,
    groups: Groups,
}

impl Model for Queue {
    ghost use Rattle.std.specs.Prelude.{◌-◌, min};
    ghost use Rattle.std.specs.Vec.{vec_len, vec_capacity};
    ghost use Rattle.esm_queue.specs.Held.{Held};
    ghost use Rattle.esm_queue.specs.Groups.{room};
    ghost use Rattle.esm_queue.specs.Kept.{IsKept};

    ghost Value = { Held };

    ghost view = { λ q. record {
      state = record { fifo = q.groups.fifo; visibility = q.visibility_ms; messages = q.messages.items };
      spare = min
          (min (vec_capacity q.messages - vec_len q.messages) q.shows.spare) (room q.groups);
      ready = q.shows.ready;
    } };

    ghost invariant = { λ q. IsKept q };
}

impl Queue {
    /// A queue without messages, FIFO or standard.
    pub fn new(alloc: Global, fifo: bool, visibility_ms: u64) -> Result<Queue, OutOfMemory>
        ensures { IfOk result (λ q. q.state ≡ empty_queue fifo visibility_ms) }
    {
        let shows = Timeline::new(alloc);
        let groups = Groups::new(alloc, fifo)?;
        Ok(Queue {
            visibility_ms,
            messages: Vec::new(alloc),
            shows,
            groups,
        })
    }

    /// Reserves memory for `n` more messages: the next `n` calls of `came` do not return `OutOfMemory`. No message changes.
    pub fn reserve(&mut self, alloc: Global, n: u32) -> Result<(), OutOfMemory>
        ensures state { self.new.state ≡ self.old.state }
        ensures ok { OnOk result (n ≤ self.new.spare) }
        ensures kept { self.old.spare ≤ self.new.spare }
    {
        self.messages.reserve(n as usize)?;
        self.shows.reserve(n)?;
        self.groups.reserve(alloc, n)
    }

    /// Adds a message that comes, and returns its place. Within what `reserve` made it does not return `OutOfMemory`. After
    /// `OutOfMemory` nothing has changed.
    pub fn came(&mut self, alloc: Global, message: Message, moment: u64) -> Result<u32, OutOfMemory>
        requires few { length self.old.state.messages < u32.MAX }
        ensures ok { OnOk result (self.new.state ≡ after_arrival message (capped_moment moment) self.old.state) }
        ensures place { IfOk result (λ place. place ≡ length self.old.state.messages) }
        ensures err { OnErr result (self.new.state ≡ self.old.state) }

        // Within what was reserved it always succeeds, and uses one place of it.
        ensures succeeds { 0 < self.old.spare → IsOk result }
        ensures spare { self.old.spare ≤ self.new.spare + 1 }
    {
        self.messages.reserve(1)?;
        self.shows.reserve(1)?;
        self.groups.reserve(alloc, 1)?;
        let place = self.messages.len() as u32;
        self.groups.append(self.messages.as_slice(), &message.group);
        self.messages.push_reserved(Stored {
            message,
            came: moment.min(MAX_MOMENT),
            first: None,
            last: None,
            count: 0,
            deleted: false,
        });
        self.shows.push(0);
        Ok(place)
    }

    fn first_eligible(&self, alloc: Global, now: u64, max: u32) -> Result<Vec<u32>, OutOfMemory>
        requires { now ≤ MAX_MOMENT }
        ensures { IfOk result (λ places. places.items ≡ receivable self.now.state now max) }
    {
        let messages = self.messages.as_slice();
        first_places(alloc, messages, &self.groups, self.visibility_ms, now, max)
    }

    /// The places that `receive` would return: the first `max` eligible ones at the moment. Nothing changes.
    pub fn peek(&self, alloc: Global, now: u64, max: u32) -> Result<Places, OutOfMemory>
        ensures { IfOk result (λ places. places ≡ receivable self.now.state (capped_moment now) max) }
    {
        let places = self.first_eligible(alloc, now.min(MAX_MOMENT), max)?;
        Ok(Places::from_vec(places))
    }

    /// Receives the first `max` messages that are neither deleted nor hidden and, in a FIFO queue, have no earlier one of
    /// their group in flight. They are hidden from then on for the visibility timeout, and were received once more. After
    /// `OutOfMemory` nothing has changed.
    pub fn receive(
        &mut self,
        alloc: Global,
        now: u64,
        max: u32,
    ) -> Result<Vec<Received>, OutOfMemory>
        ensures ok { OnOk result (self.new.state ≡ after_receipt (capped_moment now) (receivable self.old.state (capped_moment now) max) self.old.state) }
        ensures given { IfOk result (λ given. given.items ≡ seen self.new.state (receivable self.old.state (capped_moment now) max)) }
        ensures err { OnErr result (self.new.state ≡ self.old.state) }
        ensures spare { self.new.spare ≡ self.old.spare }
    {
        let moment = now.min(MAX_MOMENT);
        let places = self.peek(alloc, now, max)?;
        let given = copy_all(alloc, self.messages.as_slice(), places.as_slice(), moment)?;
        self.prepare(now)?;
        self.hide(places.as_slice(), now);
        Ok(given)
    }

    /// Prepares memory for a receipt at this moment: the next `hide` at it takes none. No message changes.
    pub fn prepare(&mut self, now: u64) -> Result<(), OutOfMemory>
        ensures ready { OnOk result (self.new.ready ≡ moments.moment_after (capped_moment now) self.old.state.visibility) }
        ensures state { self.new.state ≡ self.old.state }
        ensures spare { self.new.spare ≡ self.old.spare }
    {
        let show = moment_after(now.min(MAX_MOMENT), self.visibility_ms);
        self.shows.prepare(show)
    }

    /// Receives the messages at the places, which are the first eligible ones: they are hidden from then on for the
    /// visibility timeout, and were received once more. Takes no memory.
    pub fn hide(&mut self, places: &[u32], now: u64)
        requires ready { self.old.ready ≡ moments.moment_after (capped_moment now) self.old.state.visibility }
        requires first { places.now ≡ receivable self.old.state (capped_moment now) (length places.now) }
        ensures state { self.new.state ≡ after_receipt (capped_moment now) places.now self.old.state }
        ensures spare { self.new.spare ≡ self.old.spare }
    {
        hide_all(
            self.messages.as_mut_slice(),
            &mut self.shows,
            &mut self.groups,
            places,
            now.min(MAX_MOMENT),
            self.visibility_ms,
        );
    }

    /// Deletes the message; returns whether it was not deleted before. Takes no memory.
    pub fn delete(&mut self, place: u32) -> bool
        requires known { place < length self.old.state.messages }
        ensures answer { result ≡ not (is_deleted_at self.old.state place) }
        ensures state { self.new.state ≡ after_deletion (place ∷ []) self.old.state }
        ensures spare { self.new.spare ≡ self.old.spare }
    {
        if self.messages[place as usize].deleted {
            return false;
        }
        self.groups
            .remove(self.messages.as_slice(), place, self.visibility_ms);
        self.shows.clear(place);
        self.messages[place as usize].deleted = true;
        true
    }

    /// Whether a message has the place and is deleted. Takes no memory.
    pub fn is_deleted(&self, place: u32) -> bool
        ensures { result ≡ is_deleted_at self.now.state place }
    {
        match self.messages.get(place as usize) {
            None => false,
            Some(stored) => stored.deleted,
        }
    }

    /// How many messages came. Takes no memory.
    pub fn len(&self) -> u32
        ensures { result ≡ length self.now.state.messages }
    {
        self.messages.len() as u32
    }

    /// Whether no message came. Takes no memory.
    pub fn is_empty(&self) -> bool
        ensures { IsTrue result ↔ (self.now.state.messages ≡ []) }
    {
        self.messages.is_empty()
    }

    /// The message at the place; `None` if and only if none has it. Takes no memory.
    pub fn message(&self, place: u32) -> Option<&Message>
        ensures { option_copied result ≡ option_map (λ (x : Stored). x.message) (stored_at self.now.state place) }
    {
        match self.messages.get(place as usize) {
            None => None,
            Some(stored) => Some(&stored.message),
        }
    }

    /// The moment at which the message came, in milliseconds; `None` if and only if none has the place. Takes no memory.
    pub fn arrival(&self, place: u32) -> Option<u64>
        ensures { result ≡ option_map (λ (x : Stored). x.came) (stored_at self.now.state place) }
    {
        match self.messages.get(place as usize) {
            None => None,
            Some(stored) => Some(stored.came),
        }
    }

    /// How often the message was received; 0 if none has the place. Takes no memory.
    pub fn count(&self, place: u32) -> u32
        ensures { result ≡ count_at self.now.state place }
    {
        match self.messages.get(place as usize) {
            None => 0,
            Some(stored) => stored.count,
        }
    }

    /// The moment of the message's first receipt, in milliseconds; `None` if none has the place or it was never received.
    /// Takes no memory.
    pub fn first(&self, place: u32) -> Option<u64>
        ensures { result ≡ first_at self.now.state place }
    {
        match self.messages.get(place as usize) {
            None => None,
            Some(stored) => stored.first,
        }
    }

    /// The next moment after `now` at which a message shows that is hidden at `now` and not deleted. Takes no memory.
    pub fn next_show(&self, now: u64) -> Option<u64>
        ensures { result ≡ next_show self.now.state (capped_moment now) }
    {
        self.shows.next_after(now.min(MAX_MOMENT))
    }
}

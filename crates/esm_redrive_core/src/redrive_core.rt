// The core of a redrive: its history, the calls, moves and deletions that it decides, and the entries that it owes.
ghost use Rattle.std.specs.Prelude.{◌≡◌, ◌+◌, ◌<◌, ◌≤◌, ◌^◌, ◌∷◌, [], All, length, take, reverse, false, true};
ghost use Rattle.std.specs.Prelude.{IfOk, IfErr, IfSome, IfNone, OnOk, OnErr};
ghost use Rattle.esm_model.specs.declared.limits.TheConstants.{MAX_BATCH, MAX_LINE, MAX_PAYLOAD};
ghost use Rattle.esm_model.specs.declared.moment.TheConstants.{MAX_MOMENT};
ghost use Rattle.esm_model.specs.QueueEvent.{IsQueueConfig};
ghost use Rattle.esm_model.specs.ValidMessage.{IsValidMessage};
ghost use Rattle.esm_model.specs.declared.entry.Entry.{Entry};
ghost use Rattle.esm_model.specs.Entries.{is_shut, is_running};
ghost use Rattle.esm_filter.specs.Criteria.{JudgesMessages};
ghost use Rattle.esm_book.specs.Decided.{written_of, lengths_of, IsLineWithin, IsRefused};
ghost use Rattle.esm_model.specs.Books.{entry_line};
ghost use Rattle.esm_journal_record.specs.EntryPayload.{queue_payload};
ghost use Rattle.esm_redrive.specs.declared.limited.TheConstants.{MAX_RECEIVES};
ghost use Rattle.esm_queue_model.specs.QueueEntries.{queue_lane, queue_of};
ghost use Rattle.esm_queue_core.specs.CoreView.{moment_for};
ghost use Rattle.esm_queue_core.specs.Coming.{NoneHasChanged};
ghost use Rattle.esm_queue_core.specs.Next.{next_for, next_entries};
ghost use Rattle.esm_redrive.specs.Limited.{due_in};
ghost use Rattle.esm_redrive_core.specs.RedriveView.{new_setting, new_view, all_messages, IsRunningJob, owing, paid, forgotten, noted};
ghost use Rattle.esm_redrive_core.specs.Refusing.{IsFirstChange};
ghost use Rattle.esm_redrive_core.specs.Adding.{came_entries, moved_entry, redrive_next, redrive_next_entries, ended_entries};
ghost use Rattle.esm_redrive_core.specs.Sound.{ended_places};
ghost use Rattle.esm_redrive_core.specs.Ahead.{IsConsistent};

use crate::arriving::gifts_for;
use crate::giving::{move_of, owe_first};
use crate::notes::{is_fifo, make_room, may_decide, past_of, raised_to};
use crate::owed::{Gift, lengths_in};
use crate::paying::{bring, delete_all, prepare_for};
use esm_book::Refusal;
use esm_filter::Criteria;
use esm_journal_state::Says;
use esm_model::{Config, Entry, Fate, Job, Message, Next, OutOfMemory, PastReply, Reply};
use esm_queue_core::coming::{change_at, first_changed};
use esm_queue_core::ending::succeeded;
use esm_queue_core::gift::ids_at;
use esm_queue_core::next::{Counts, began_by, decide_next};
use esm_queue_core::owed::First;
use esm_redrive::laws::has_letter;
use esm_redrive::{DeadIds, LimitedQueue};
use esm_verdict::read_queue;
use std::alloc::Global;
use std::marker::Model;
use std::mem;

/// The decisions of a redrive. Contracts see the setting over which its history is judged, the history, and the entries
/// that were decided and are not yet added. There is one batcher, number 0.
///
/// Moments are in milliseconds since 1970. An entry has the moment that is passed in, or that of the last entry if it is
/// later, and at most 9999-12-31T23:59:59.999Z. Places count messages in order of arrival, from 0. A call that could make
/// the history longer than 2^40 entries returns `OutOfMemory`.
#[derive(Drop)]
pub struct RedriveCore {
    config: Config,
    calls: u32,
    visibility_ms: u64,
    /// What the journal said of deletions.
    said: Says,
    /// The ids of the lines that were found in the dead-letter file.
    dead: DeadIds,
    criteria: Criteria,
    queue: LimitedQueue,
    history: Vec<Entry>,
    /// The moment of the last entry.
    last: u64,
    shut: bool,
    begun: u64,
    /// How many messages are deleted.
    deleted: u32,
    running: bool,
    /// The messages whose `Came` is owed.
    coming: Vec<Message>,
    /// The owed entries: a `Came`, a `Began` or an `Ended`, and then deletions, the last of which is paid first.
    first: Option<First>,
    gifts: Vec<Gift>,
}

impl Model for RedriveCore {
    ghost use Rattle.esm_redrive_core.specs.RedriveView.{RedriveView};
    ghost use Rattle.esm_redrive_core.specs.Inside.{view_of, IsCore};

    ghost Value = { RedriveView };

    ghost view = { view_of };

    ghost invariant = { IsCore };
}

impl RedriveCore {
    /// Makes a core in which no message has arrived, for `calls` calls in all, with the deletions that the journal
    /// recorded and the ids of the lines in the dead-letter file.
    pub fn new(
        alloc: Global,
        config: Config,
        criteria: Criteria,
        calls: u32,
        visibility_ms: u64,
        max_receives: u32,
        said: Says,
        dead: DeadIds,
    ) -> Result<RedriveCore, OutOfMemory>
        requires config { IsQueueConfig config }
        requires criteria { JudgesMessages config.kind config.filters criteria }
        requires some { 1 ≤ max_receives }
        requires few { max_receives ≤ MAX_RECEIVES }
        ensures { IfOk result (λ core. core ≡ new_view (new_setting config calls visibility_ms said.deletions max_receives dead)) }
    {
        let fifo = is_fifo(config.kind);
        let queue = LimitedQueue::new(alloc, fifo, visibility_ms, max_receives)?;
        let history = Vec::with_capacity(alloc, 1)?;
        Ok(RedriveCore {
            config,
            calls,
            visibility_ms,
            said,
            dead,
            criteria,
            queue,
            history,
            last: 0,
            shut: false,
            begun: 0,
            deleted: 0,
            running: false,
            coming: Vec::new(alloc),
            first: None,
            gifts: Vec::new(alloc),
        })
    }

    /// Decides on messages that arrive. It owes one `Came` if there are any; then the record that those whose line was
    /// found are moved; and then the deletion of those of the others that fail the filter and were not found deleted. If
    /// a message was found deleted with another id, the whole list is refused, and the refusal reports the first such
    /// message. After a refusal the core is as before.
    pub fn came(&mut self, alloc: Global, items: Vec<Message>, moment: u64) -> Result<(), Refusal>
        requires settled { self.old.owed ≡ [] }
        requires few { length items.items ≤ MAX_BATCH }
        requires valid { All (IsValidMessage self.old.setting.queue.config.kind) items.items }
        requires places { length self.old.setting.queue.messages + length items.items < 2 ^ 32 }
        ensures owes { OnOk result (self.new ≡ owing self.old items.items (came_entries self.old items.items moment)) }
        ensures alike { OnOk result (NoneHasChanged self.old.setting.queue.deletions (length self.old.setting.queue.messages)
            items.items (length items.items)) }
        ensures refused { IfErr result (IsRefused (IsFirstChange self.old items.items)) }
        ensures unchanged { OnErr result (self.new ≡ self.old) }
        ensures undone { OnOk result (forgotten self.new ≡ self.old) }
    {
        if !may_decide(self.history.len()) {
            return Err(Refusal::OutOfMemory);
        }
        if items.is_empty() {
            return Ok(());
        }
        let from = self.queue.queue().len();
        if let Some(j) = first_changed(&self.said, items.as_slice(), from) {
            let told = change_at(alloc, &self.said, &items[j], from + j as u32)?;
            let kept = change_at(alloc, &self.said, &items[j], from + j as u32)?;
            return Err(Refusal::Changed { told, kept });
        }
        let count = items.len() as u32;
        let now = raised_to(self.last, moment);
        let gifts = gifts_for(
            alloc,
            &self.config,
            &self.said,
            &self.dead,
            &self.criteria,
            self.queue.queue(),
            items.as_slice(),
            from,
            now,
        )?;
        make_room(&mut self.history)?;
        self.queue.reserve(alloc, count)?;
        self.first = Some(First::Came {
            from,
            count,
            moment: now,
        });
        self.gifts = gifts;
        self.coming = items;
        Ok(())
    }

    /// Owes the move of the message at the place, which is the first that is due at the moment.
    fn move_out(&mut self, alloc: Global, place: u32, now: u64) -> Result<(), OutOfMemory>
        requires settled { self.old.owed ≡ [] }
        requires within { place < length self.old.setting.queue.messages }
        requires in_time { now ≤ MAX_MOMENT }
        requires short { length self.old.past + 5 ≤ 2 ^ 40 }
        ensures owes { OnOk result (self.new ≡ owing self.old [] (moved_entry self.old.setting place now ∷ [])) }
        ensures unchanged { OnErr result (self.new ≡ self.old) }
        ensures undone { OnOk result (forgotten self.new ≡ self.old) }
    {
        let gift = move_of(alloc, self.queue.queue(), place, now)?;
        let mut gifts = Vec::new(alloc);
        gifts.push(gift)?;
        make_room(&mut self.history)?;
        self.gifts = gifts;
        Ok(())
    }

    /// Decides what the batcher does next by the rules of a queue, if no message is due at the moment; a call is owed.
    fn begin(&mut self, alloc: Global, now: u64) -> Result<Next, OutOfMemory>
        requires settled { self.old.owed ≡ [] }
        requires rests { is_running self.old.past (queue_lane 0) ≡ false }
        requires none_due { due_in self.old.setting.max_receives (queue_of self.old.setting.queue self.old.past) now ≡ [] }
        requires in_time { now ≤ MAX_MOMENT }
        requires short { length self.old.past + 5 ≤ 2 ^ 40 }
        ensures answer { IfOk result (λ next. next ≡ next_for self.old.setting.queue self.old.past 0 now) }
        ensures owes { OnOk result (self.new ≡ owing self.old [] (next_entries (next_for self.old.setting.queue self.old.past 0 now) now)) }
        ensures unchanged { OnErr result (self.new ≡ self.old) }
        ensures undone { OnOk result (forgotten self.new ≡ self.old) }
    {
        let counts = Counts {
            calls: self.calls,
            begun: self.begun,
            deleted: self.deleted,
            shut: self.shut,
        };
        let next = decide_next(alloc, &self.config, self.queue.queue(), counts, 0, now)?;
        let began = began_by(alloc, &next, now)?;
        make_room(&mut self.history)?;
        prepare_for(&mut self.queue, &began, now)?;
        self.first = began;
        Ok(next)
    }

    /// Decides what the batcher does next: the first message that is due is moved; if none is due, the first rule of a
    /// queue that holds decides, and a call is owed. No call is running. After `OutOfMemory` the core is as before.
    pub fn next(&mut self, alloc: Global, moment: u64) -> Result<Next, OutOfMemory>
        requires settled { self.old.owed ≡ [] }
        requires rests { is_running self.old.past (queue_lane 0) ≡ false }
        ensures answer { IfOk result (λ next. next ≡ redrive_next self.old.setting self.old.past (moment_for self.old.past moment)) }
        ensures owes { OnOk result (self.new ≡ owing self.old [] (redrive_next_entries self.old.setting self.old.past (moment_for self.old.past moment))) }
        ensures unchanged { OnErr result (self.new ≡ self.old) }
        ensures undone { OnOk result (forgotten self.new ≡ self.old) }
    {
        if !may_decide(self.history.len()) {
            return Err(OutOfMemory);
        }
        let now = raised_to(self.last, moment);
        match self.queue.first_due(now) {
            Some(place) => {
                self.move_out(alloc, place, now)?;
                Ok(Next::Gave(1))
            }
            None => self.begin(alloc, now),
        }
    }

    /// Decides what the end of the job requires: its `Ended`, and the deletion of the messages that succeeded and are not
    /// yet deleted, if there are any. Returns their number. After `OutOfMemory` the core is as before, and the job and
    /// the reply are dropped.
    pub fn done(
        &mut self,
        alloc: Global,
        job: Job,
        reply: Reply,
        moment: u64,
    ) -> Result<u32, OutOfMemory>
        requires settled { self.old.owed ≡ [] }
        requires runs { IsRunningJob self.old.past job }
        ensures owes { OnOk result (self.new ≡ owing self.old [] (ended_entries self.old.setting self.old.past reply (moment_for self.old.past moment))) }
        ensures answer { IfOk result (λ count. count ≡ length (ended_places self.old.setting self.old.past reply (moment_for self.old.past moment))) }
        ensures unchanged { OnErr result (self.new ≡ self.old) }
        ensures undone { OnOk result (forgotten self.new ≡ self.old) }
    {
        if !may_decide(self.history.len()) {
            return Err(OutOfMemory);
        }
        let now = raised_to(self.last, moment);
        let queue = self.queue.queue();
        let ids = ids_at(alloc, queue, &[], job.places.as_slice())?;
        let reading = read_queue(alloc, &self.config, ids.as_slice(), &reply)?;
        let places = succeeded(alloc, queue, &reading, job.places.as_slice())?;
        let count = places.len() as u32;
        let mut gifts = Vec::new(alloc);
        owe_first(
            alloc,
            &mut gifts,
            queue,
            &[],
            Some(job.lane),
            places,
            Fate::Succeeded,
            now,
        )?;
        make_room(&mut self.history)?;
        self.first = Some(First::Ended {
            lane: job.lane,
            reply,
            moment: now,
        });
        self.gifts = gifts;
        Ok(count)
    }

    /// Discards what is owed. Takes no memory.
    pub fn forget(&mut self)
        ensures { self.new ≡ forgotten self.old }
    {
        self.coming.clear();
        self.first = None;
        self.gifts.clear();
    }

    /// Adds the first owed entry to the history. Takes no memory.
    pub fn pay(&mut self)
        requires { 0 < length self.old.owed }
        ensures { self.new ≡ paid self.old }
    {
        match mem::replace(&mut self.first, None) {
            Some(
                First::Came {
                    from,
                    count,
                    moment,
                },
            ) => {
                let alloc = *self.history.allocator();
                let coming = mem::replace(&mut self.coming, Vec::new(alloc));
                self.deleted += bring(&mut self.queue, alloc, &self.said, coming, moment);
                self.history.push_reserved(Entry::Came {
                    shard: 0,
                    first: from,
                    count,
                    moment,
                });
                self.last = moment;
            }
            Some(
                First::Began {
                    lane,
                    places,
                    moment,
                },
            ) => {
                self.queue.hide(places.as_slice(), moment);
                self.history.push_reserved(Entry::Began {
                    lane,
                    places,
                    closing: None,
                    moment,
                });
                self.last = moment;
                self.begun += 1;
                self.running = true;
            }
            Some(
                First::Ended {
                    lane,
                    reply,
                    moment,
                },
            ) => {
                self.history.push_reserved(Entry::Ended {
                    lane,
                    reply: past_of(reply),
                    moment,
                });
                self.last = moment;
                self.running = false;
            }
            None => {
                if let Some(gift) = self.gifts.pop() {
                    self.deleted += delete_all(&mut self.queue, gift.places.as_slice());
                    self.history.push_reserved(Entry::Gave {
                        by: gift.by,
                        shard: 0,
                        places: gift.places,
                        fate: gift.fate,
                        line: gift.line,
                        state: None,
                        moment: gift.moment,
                    });
                    self.last = gift.moment;
                }
            }
        }
    }

    /// Notes that the job ended, but adds nothing that this requires. Takes no memory.
    pub fn note_ended(&mut self, job: Job, reply: Reply, moment: u64)
        requires { IsRunningJob self.old.past job }
        ensures { self.new ≡ noted self.old (Entry.Ended job.lane reply (moment_for self.old.past moment)) }
    {
        let now = raised_to(self.last, moment);
        self.history.push_reserved(Entry::Ended {
            lane: job.lane,
            reply: PastReply::of(&reply),
            moment: now,
        });
        self.last = now;
        self.running = false;
    }

    /// Notes that the input ended. Takes no memory: every other call leaves room for this entry.
    pub fn shut(&mut self, moment: u64)
        requires { is_shut self.old.past ≡ false }
        ensures { self.new ≡ noted self.old (Entry.Shut (moment_for self.old.past moment)) }
    {
        let now = raised_to(self.last, moment);
        self.history.push_reserved(Entry::Shut { moment: now });
        self.last = now;
        self.shut = true;
    }

    /// States what is true of every core. Does nothing.
    pub fn keeps(&self)
        ensures { IsConsistent self.now }
    {
        has_letter();
        let _ = &self.config;
    }

    /// Whether the input ended. Takes no memory.
    pub fn is_shut(&self) -> bool
        ensures { result ≡ is_shut self.now.past }
    {
        self.shut
    }

    /// How many entries are owed. Takes no memory.
    pub fn owed_count(&self) -> usize
        ensures { result ≡ length self.now.owed }
    {
        match &self.first {
            Some(_) => 1 + self.gifts.len(),
            None => self.gifts.len(),
        }
    }

    /// Returns the lengths in bytes of the owed payloads, in order.
    pub fn owed_lengths(&self, alloc: Global) -> Result<Vec<u32>, OutOfMemory>
        ensures { IfOk result (λ lengths. lengths.items ≡ lengths_of (written_of (queue_payload (all_messages self.now)) self.now.owed)) }
    {
        let lengths = lengths_in(alloc, self.gifts.as_slice())?;
        Ok(lengths)
    }

    /// Whether a line is owed; there is then exactly one. Takes no memory.
    pub fn owes_line(&self) -> bool
        ensures yes { result ≡ true → IsLineWithin (written_of entry_line self.now.owed) MAX_LINE }
        ensures no { result ≡ false → written_of entry_line self.now.owed ≡ [] }
    {
        match self.gifts.last() {
            None => false,
            Some(gift) => gift.line.is_some(),
        }
    }

    /// Returns the payload of the first owed entry, if it has one. Takes no memory.
    pub fn first_payload(&self) -> Option<&[u8]>
        requires { 0 < length self.now.owed }
        ensures payload { IfSome result (λ bytes. written_of (queue_payload (all_messages self.entry.now)) (take 1 self.entry.now.owed) ≡ bytes.now ∷ []) }
        ensures short { IfSome result (λ bytes. length bytes.now ≤ MAX_PAYLOAD) }
        ensures none { IfNone result (written_of (queue_payload (all_messages self.entry.now)) (take 1 self.entry.now.owed) ≡ []) }
    {
        if self.first.is_some() {
            return None;
        }
        match self.gifts.last() {
            None => None,
            Some(gift) => Some(gift.payload.as_slice()),
        }
    }

    /// Returns the line of the first owed entry, if it has one. Takes no memory.
    pub fn first_line(&self) -> Option<&[u8]>
        requires { 0 < length self.now.owed }
        ensures line { IfSome result (λ bytes. written_of entry_line (take 1 self.entry.now.owed) ≡ bytes.now ∷ []) }
        ensures short { IfSome result (λ bytes. length bytes.now ≤ MAX_PAYLOAD) }
        ensures none { IfNone result (written_of entry_line (take 1 self.entry.now.owed) ≡ []) }
    {
        if self.first.is_some() {
            return None;
        }
        match self.gifts.last() {
            None => None,
            Some(gift) => match &gift.line {
                None => None,
                Some(line) => Some(line.as_slice()),
            },
        }
    }

    /// Returns the history, oldest entry first. Takes no memory.
    pub fn into_history(self) -> Vec<Entry>
        ensures { result.items ≡ reverse self.past }
    {
        self.history
    }
}

// The core of a queue's book: its history, the calls and deletions that it decides on, and the entries it owes.
ghost use Rattle.std.specs.Prelude.{◌≡◌, ◌+◌, ◌<◌, ◌≤◌, ◌==◌, ◌^◌, ◌∷◌, [], min, max, IfOk, IfErr, IfSome, IfNone, OnOk, OnErr, All};
ghost use Rattle.std.specs.Prelude.{length, take, reverse, false, true};
ghost use Rattle.std.specs.Vec.{vec_capacity};
ghost use Rattle.esm_model.specs.declared.limits.TheConstants.{MAX_BATCH, MAX_PAYLOAD};
ghost use Rattle.esm_model.specs.declared.moment.TheConstants.{MAX_MOMENT};
ghost use Rattle.esm_model.specs.QueueEvent.{IsQueueConfig};
ghost use Rattle.esm_model.specs.Valid.{is_stream};
ghost use Rattle.esm_model.specs.ValidMessage.{IsValidMessage};
ghost use Rattle.esm_model.specs.declared.entry.Entry.{Entry};
ghost use Rattle.esm_model.specs.Entries.{is_shut, is_running, calls_begun, last_moment};
ghost use Rattle.esm_filter.specs.Criteria.{JudgesMessages};
ghost use Rattle.esm_book.specs.Decided.{written_of, lengths_of, IsRefused};
ghost use Rattle.esm_journal_record.specs.EntryPayload.{queue_payload};
ghost use Rattle.esm_queue_model.specs.QueueSetting.{is_fifo};
ghost use Rattle.esm_queue_model.specs.QueueEntries.{queue_lane};
ghost use Rattle.esm_queue_model.specs.QueueStep.{LegalQueue};
ghost use Rattle.esm_queue_model.specs.QueueBooks.{messages_told};
ghost use Rattle.esm_queue_core.specs.declared.standing.Standing.TheVariants.{Whole};
ghost use Rattle.esm_queue_core.specs.CoreView.{new_setting, new_view, moment_for, all_messages, LegalAhead, SettledAhead, IsRunningJob};
ghost use Rattle.esm_queue_core.specs.CoreView.{owing, paid, forgotten, noted};
ghost use Rattle.esm_queue_core.specs.Coming.{came_entries, IsFirstChange};
ghost use Rattle.esm_queue_core.specs.Ending.{ended_places, ended_entries};
ghost use Rattle.esm_queue_core.specs.Next.{is_all_deleted, next_for, next_entries};
ghost use Rattle.esm_queue_core.specs.Told.{told_of};

use crate::coming::{change_at, first_changed, refused};
use crate::ending::succeeded;
use crate::gift::{gift_of, ids_at};
use crate::next::{Counts, began_by, decide_next, prepare_for};
use crate::owed::{First, Gift};
use crate::paying::{bring, delete_all};
use crate::standing::Standing;
use esm_book::Refusal;
use esm_filter::Criteria;
use esm_journal_state::Says;
use esm_model::{
    Config, Entry, Fate, Job, Kind, MAX_ENTRIES, MAX_MOMENT, Message, Next, OutOfMemory, PastReply,
    Reply,
};
use esm_queue::Queue;
use esm_verdict::read_queue;
use std::alloc::Global;
use std::marker::Model;
use std::mem;

/// The decisions of a queue's book, seen as what its history is judged over, the history, and the entries that were
/// decided and are not yet added.
///
/// Moments are in milliseconds since 1970. An entry has the moment that is handed in, or that of the last entry if that is
/// later, and at most 9999-12-31T23:59:59.999Z. Places count messages in order of arrival.
/// `OutOfMemory` is also the answer if the history, with what a call may owe and the ends of the running calls, would have
/// more than 2^40 entries, and to each decision of a core that was left: one in which a call of the function ended without
/// what that requires, whose input ended while entries were owed, or whose owed entries were discarded when some were added.
#[derive(Drop)]
pub struct QueueCore {
    config: Config,
    calls: u32,
    visibility_ms: u64,
    /// What the journal said of deletions at opening.
    said: Says,
    criteria: Criteria,
    pub(crate) queue: Queue,
    history: Vec<Entry>,
    /// The moment of the last entry.
    last: u64,
    shut: bool,
    begun: u64,
    /// How many messages are deleted.
    pub(crate) deleted: u32,
    /// At least as many as calls run.
    running: usize,
    /// The messages whose `Came` is owed.
    coming: Vec<Message>,
    /// The owed entries: a `Came`, a `Began` or an `Ended`, and then a deletion.
    first: Option<First>,
    gift: Option<Gift>,
    standing: Standing,
}

impl Model for QueueCore {
    ghost use Rattle.esm_queue_core.specs.CoreView.{CoreView};

    ghost Value = { CoreView };

    ghost use Rattle.esm_queue_core.specs.Inside.{view_of, IsCore};

    ghost view = { view_of };

    ghost invariant = { IsCore };
}

fn is_fifo(kind: Kind) -> bool
    ensures { result ≡ is_fifo kind }
{
    match kind {
        Kind::Fifo => true,
        Kind::Standard | Kind::Stream => false,
    }
}

/// The moment of the next entry: not before the last one, and at most `MAX_MOMENT`.
fn raised_to(last: u64, moment: u64) -> u64
    requires { last ≤ MAX_MOMENT }
    ensures value { result ≡ min (max moment last) MAX_MOMENT }
    ensures goes_on { last ≤ result }
    ensures in_time { result ≤ MAX_MOMENT }
{
    moment.max(last).min(MAX_MOMENT)
}

/// Makes room for what a call owes, for the ends of `running` calls, and for the end of the input.
fn make_room(history: &mut Vec<Entry>, running: usize) -> Result<(), OutOfMemory>
    requires { running < 2 ^ 62 }
    ensures items { history.new.items ≡ history.old.items }
    ensures capacity { vec_capacity history.old ≤ vec_capacity history.new }
    ensures ok { OnOk result (length history.old.items + running + 3 ≤ vec_capacity history.new) }
{
    history.reserve(running + 3)?;
    Ok(())
}

/// Whether a core decides: it was not left, and its history has room for what it may owe.
fn may_decide(standing: Standing, entries: usize, running: usize) -> bool
    ensures whole { result ≡ true → standing ≡ Whole }
    ensures short { result ≡ true → entries + running + 3 ≤ 2 ^ 40 }
{
    match standing {
        Standing::Paying | Standing::Left => false,
        Standing::Whole => {
            entries <= MAX_ENTRIES && running <= MAX_ENTRIES && entries + running + 3 <= MAX_ENTRIES
        }
    }
}

impl QueueCore {
    /// A core in which no message came, for `calls` calls in all, with the deletions that the journal named at opening.
    pub fn new(
        alloc: Global,
        config: Config,
        criteria: Criteria,
        calls: u32,
        visibility_ms: u64,
        said: Says,
    ) -> Result<QueueCore, OutOfMemory>
        requires config { IsQueueConfig config }
        requires criteria { JudgesMessages config.kind config.filters criteria }
        ensures { IfOk result (λ core. core ≡ new_view (new_setting config calls visibility_ms said.deletions)) }
    {
        let queue = Queue::new(alloc, is_fifo(config.kind), visibility_ms)?;
        let history = Vec::with_capacity(alloc, 1)?;
        Ok(QueueCore {
            config,
            calls,
            visibility_ms,
            said,
            criteria,
            queue,
            history,
            last: 0,
            shut: false,
            begun: 0,
            deleted: 0,
            running: 0,
            coming: Vec::new(alloc),
            first: None,
            gift: None,
            standing: Standing::Whole,
        })
    }

    /// Decides on messages that come: one `Came` if there are any, and the deletion of those that fail the filter and were
    /// not found deleted, if there are any. A list with a message that was found deleted with another id is refused whole as
    /// `Changed`, which has the first such message. After a refusal the core is as before.
    pub fn came(&mut self, alloc: Global, items: Vec<Message>, moment: u64) -> Result<(), Refusal>
        requires settled { self.old.owed ≡ [] }
        requires going { is_shut self.old.past ≡ false }
        requires few { length items.items ≤ MAX_BATCH }
        requires valid { All (IsValidMessage self.old.setting.config.kind) items.items }
        requires places { length self.old.setting.messages + length items.items < 2 ^ 32 }
        ensures owes { OnOk result (self.new ≡ owing self.old items.items (came_entries self.old items.items moment)) }
        ensures refused { IfErr result (IsRefused (IsFirstChange self.old items.items)) }
        ensures unchanged { OnErr result (self.new ≡ self.old) }
        ensures undone { OnOk result (forgotten self.new ≡ self.old) }
        ensures legal { OnOk result (LegalAhead self.new) }
        ensures settled { OnOk result (SettledAhead self.new) }
    {
        if !may_decide(self.standing, self.history.len(), self.running) {
            return Err(Refusal::OutOfMemory);
        }
        if items.is_empty() {
            return Ok(());
        }
        let from = self.queue.len();
        if let Some(j) = first_changed(&self.said, items.as_slice(), from) {
            let told = change_at(alloc, &self.said, &items[j], from + j as u32)?;
            let kept = change_at(alloc, &self.said, &items[j], from + j as u32)?;
            return Err(Refusal::Changed { told, kept });
        }
        let count = items.len() as u32;
        let now = raised_to(self.last, moment);
        let places = refused(alloc, &self.said, &self.criteria, items.as_slice(), from)?;
        let gift = gift_of(
            alloc,
            &self.queue,
            items.as_slice(),
            None,
            places,
            Fate::Filtered,
            now,
        )?;
        make_room(&mut self.history, self.running)?;
        self.queue.reserve(alloc, count)?;
        self.first = Some(First::Came {
            from,
            count,
            moment: now,
        });
        self.gift = gift;
        self.coming = items;
        Ok(())
    }

    /// Decides what the batcher does next, by the first rule that holds, and owes the call, if it is one (Lambda Developer
    /// Guide, "Using Lambda with Amazon SQS"). No call of the batcher's lane may be running. After `OutOfMemory` the core is
    /// as before.
    pub fn next(&mut self, alloc: Global, batcher: u32, moment: u64) -> Result<Next, OutOfMemory>
        requires settled { self.old.owed ≡ [] }
        requires rests { is_running self.old.past (queue_lane batcher) ≡ false }
        ensures answer { IfOk result (λ next. next ≡ next_for self.old.setting self.old.past batcher (moment_for self.old.past moment)) }
        ensures owes { IfOk result (λ next. self.new ≡ owing self.old [] (next_entries next (moment_for self.old.past moment))) }
        ensures unchanged { OnErr result (self.new ≡ self.old) }
        ensures undone { OnOk result (forgotten self.new ≡ self.old) }
        ensures legal { OnOk result (LegalAhead self.new) }
        ensures settled { OnOk result (SettledAhead self.new) }
    {
        if !may_decide(self.standing, self.history.len(), self.running) {
            return Err(OutOfMemory);
        }
        let now = raised_to(self.last, moment);
        let counts = Counts {
            calls: self.calls,
            begun: self.begun,
            deleted: self.deleted,
            shut: self.shut,
        };
        let next = decide_next(alloc, &self.config, &self.queue, counts, batcher, now)?;
        let began = began_by(alloc, &next, now)?;
        make_room(&mut self.history, self.running)?;
        prepare_for(&mut self.queue, &began, now)?;
        self.first = began;
        Ok(next)
    }

    /// Decides what the end of the job requires: its `Ended`, and the deletion of the messages that succeeded and are not
    /// deleted, if there are any. Returns their number (Lambda Developer Guide, "Implementing partial batch responses").
    /// After `OutOfMemory` the core is as before, and the job and the reply are dropped.
    pub fn done(
        &mut self,
        alloc: Global,
        job: Job,
        reply: Reply,
        moment: u64,
    ) -> Result<u32, OutOfMemory>
        requires settled { self.old.owed ≡ [] }
        requires runs { IsRunningJob self.old.past job }
        ensures owes { OnOk result (self.new ≡ owing self.old [] (ended_entries self.old.setting self.old.past job.lane reply
            (moment_for self.old.past moment))) }
        ensures answer { IfOk result (λ count. count ≡ length (ended_places self.old.setting self.old.past job.lane reply (moment_for self.old.past moment))) }
        ensures unchanged { OnErr result (self.new ≡ self.old) }
        ensures undone { OnOk result (forgotten self.new ≡ self.old) }
        ensures legal { OnOk result (LegalAhead self.new) }
        ensures settled { OnOk result (SettledAhead self.new) }
    {
        if !may_decide(self.standing, self.history.len(), self.running) {
            return Err(OutOfMemory);
        }
        let now = raised_to(self.last, moment);
        let ids = ids_at(alloc, &self.queue, &[], job.places.as_slice())?;
        let reading = read_queue(alloc, &self.config, ids.as_slice(), &reply)?;
        let places = succeeded(alloc, &self.queue, &reading, job.places.as_slice())?;
        let count = places.len() as u32;
        let by = Some(job.lane);
        let gift = gift_of(alloc, &self.queue, &[], by, places, Fate::Succeeded, now)?;
        make_room(&mut self.history, self.running)?;
        self.first = Some(First::Ended {
            lane: job.lane,
            reply,
            moment: now,
        });
        self.gift = gift;
        Ok(count)
    }

    /// Discards what is owed. This rolls back a decision of which no entry was added; if some were added, nothing more is
    /// decided. Takes no memory.
    pub fn forget(&mut self)
        ensures { self.new ≡ forgotten self.old }
    {
        self.coming.clear();
        self.first = None;
        self.gift = None;
        self.standing = self.standing.forgotten();
    }

    /// Adds the first owed entry to the history. Takes no memory.
    pub fn pay(&mut self)
        requires { 0 < length self.old.owed }
        ensures { self.new ≡ paid self.old }
    {
        let more = self.gift.is_some();
        match mem::replace(&mut self.first, None) {
            Some(
                First::Came {
                    from,
                    count,
                    moment,
                },
            ) => {
                let alloc = *self.history.allocator();
                let coming = mem::replace(&mut self.coming, Vec::new(alloc));
                self.deleted += bring(&mut self.queue, alloc, &self.said, coming, moment);
                self.history.push_reserved(Entry::Came {
                    shard: 0,
                    first: from,
                    count,
                    moment,
                });
                self.last = moment;
                self.standing = self.standing.paid(more);
            }
            Some(
                First::Began {
                    lane,
                    places,
                    moment,
                },
            ) => {
                self.queue.hide(places.as_slice(), moment);
                self.history.push_reserved(Entry::Began {
                    lane,
                    places,
                    closing: None,
                    moment,
                });
                self.last = moment;
                self.begun += 1;
                self.running = self.running.saturating_add(1);
                self.standing = self.standing.paid(more);
            }
            Some(
                First::Ended {
                    lane,
                    reply,
                    moment,
                },
            ) => {
                self.history.push_reserved(Entry::Ended {
                    lane,
                    reply: PastReply::of(&reply),
                    moment,
                });
                self.last = moment;
                self.running = self.running.saturating_sub(1);
                self.standing = self.standing.paid(more);
            }
            None => {
                if let Some(gift) = mem::replace(&mut self.gift, None) {
                    self.deleted += delete_all(&mut self.queue, gift.places.as_slice());
                    self.history.push_reserved(Entry::Gave {
                        by: gift.by,
                        shard: 0,
                        places: gift.places,
                        fate: gift.fate,
                        line: None,
                        state: None,
                        moment: gift.moment,
                    });
                    self.last = gift.moment;
                    self.standing = self.standing.paid(false);
                }
            }
        }
    }

    /// Notes the end of the job's call, when nothing that it requires is added any more. Takes no memory.
    pub fn note_ended(&mut self, job: Job, reply: Reply, moment: u64)
        requires { IsRunningJob self.old.past job }
        ensures { self.new ≡ noted self.old (Entry.Ended job.lane reply (moment_for self.old.past moment)) }
    {
        let now = raised_to(self.last, moment);
        self.history.push_reserved(Entry::Ended {
            lane: job.lane,
            reply: PastReply::of(&reply),
            moment: now,
        });
        self.last = now;
        self.standing = Standing::Left;
    }

    /// Notes that the input ended. If entries are owed then, nothing more is decided. Takes no memory: every other call
    /// leaves room for this entry.
    pub fn shut(&mut self, moment: u64)
        requires { is_shut self.old.past ≡ false }
        ensures { self.new ≡ noted self.old (Entry.Shut (moment_for self.old.past moment)) }
    {
        let now = raised_to(self.last, moment);
        self.history.push_reserved(Entry::Shut { moment: now });
        self.last = now;
        self.shut = true;
        self.standing = self.standing.shut(&self.first, &self.gift);
    }

    /// Whether the input ended. Takes no memory.
    pub fn is_shut(&self) -> bool
        ensures { result ≡ is_shut self.now.past }
    {
        self.shut
    }

    /// Whether all calls allowed were made, whatever waits. Takes no memory.
    pub fn is_spent(&self) -> bool
        ensures { result ≡ (calls_begun self.now.past == self.now.setting.calls) }
    {
        self.begun == self.calls as u64
    }

    /// Whether every message that came is deleted, if the history is legal. Takes no memory.
    pub fn is_over(&self) -> bool
        ensures { LegalQueue self.now.setting self.now.past → result ≡ is_all_deleted self.now.setting self.now.past }
    {
        self.deleted == self.queue.len()
    }

    /// How many entries are owed. Takes no memory.
    pub fn owed_count(&self) -> usize
        ensures { result ≡ length self.now.owed }
    {
        match (&self.first, &self.gift) {
            (Some(_), Some(_)) => 2,
            (None, None) => 0,
            _ => 1,
        }
    }

    /// The lengths in bytes of the owed payloads, in order.
    pub fn owed_lengths(&self, alloc: Global) -> Result<Vec<u32>, OutOfMemory>
        ensures { IfOk result (λ lengths. lengths.items ≡ lengths_of (written_of (queue_payload (all_messages self.now)) self.now.owed)) }
    {
        let mut lengths = Vec::new(alloc);
        if let Some(gift) = &self.gift {
            lengths.push(gift.payload.len() as u32)?;
        }
        Ok(lengths)
    }

    /// The payload of the first owed entry, if it has one. Takes no memory.
    pub fn first_payload(&self) -> Option<&[u8]>
        requires { 0 < length self.now.owed }
        ensures payload { IfSome result (λ bytes. written_of (queue_payload (all_messages self.entry.now)) (take 1 self.entry.now.owed) ≡ bytes.now ∷ []) }
        ensures short { IfSome result (λ bytes. length bytes.now ≤ MAX_PAYLOAD) }
        ensures none { IfNone result (written_of (queue_payload (all_messages self.entry.now)) (take 1 self.entry.now.owed) ≡ []) }
    {
        match (&self.first, &self.gift) {
            (None, Some(gift)) => Some(gift.payload.as_slice()),
            _ => None,
        }
    }

    /// What holds of every core, whoever made its calls: it is of a queue, the messages that came are those of its history,
    /// none is coming if nothing is owed, and no moment is above `MAX_MOMENT`. Does nothing.
    pub fn keeps(&self)
        ensures queue { is_stream self.now.setting.config.kind ≡ false }
        ensures messages { self.now.setting.messages ≡ messages_told (told_of self.now) }
        ensures rests { self.now.owed ≡ [] → self.now.coming ≡ [] }
        ensures in_time { last_moment self.now.past ≤ MAX_MOMENT }
    {
        let _ = &self.standing;
    }

    /// The number of entries of the history. Takes no memory.
    pub fn entries(&self) -> u64
        ensures value { result ≡ length self.now.past }
        ensures few { result ≤ 2 ^ 40 }
    {
        self.history.len() as u64
    }

    /// The history, oldest entry first. Takes no memory.
    pub fn into_history(self) -> Vec<Entry>
        ensures { result.items ≡ reverse self.past }
    {
        self.history
    }
}

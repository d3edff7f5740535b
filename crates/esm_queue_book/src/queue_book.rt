// The book of a queue's mapping: messages that come, calls of batchers, and deletions kept in a journal.
ghost use Rattle.std.specs.Prelude.{◌≡◌, ◌==◌, ◌↔◌, ℕ, List, ◌++◌, None, Some, true, false, is_ok, length, reverse, IfOk, IfErr, OnOk, OnErr, IsErrOf, IsSome};
ghost use Rattle.std.specs.Option.{option_copied};
ghost use Rattle.esm_io.specs.Faults.{Rose};
ghost use Rattle.esm_io.specs.Images.{Only};
ghost use Rattle.esm_io.specs.Meanings.{disk};
ghost use Rattle.esm_journal.specs.Pair.{PairKeepsWhileUp, first_disk, second_disk};
ghost use Rattle.esm_journal.specs.Reads.{IsOnlyRead};
ghost use Rattle.esm_model.specs.declared.book.Change.{Change};
ghost use Rattle.esm_model.specs.declared.book.Trouble.TheVariants as trouble;
ghost use Rattle.esm_model.specs.declared.entry.Entry.TheVariants as entry;
ghost use Rattle.esm_model.specs.Entries.{is_shut, is_running, calls_begun};
ghost use Rattle.esm_model.specs.Kept.{IsLegal};
ghost use Rattle.esm_model.specs.Pattern.{read_patterns};
ghost use Rattle.esm_model.specs.QueueEvent.{IsQueueConfig};
ghost use Rattle.esm_model.specs.Valid.{is_stream};
ghost use Rattle.esm_model.specs.declared.setup.Setup.{Setup};
ghost use Rattle.esm_queue_model.specs.QueueBooks.{queue_may_follow};
ghost use Rattle.esm_queue_model.specs.QueueEntries.{queue_lane};
ghost use Rattle.esm_queue_core.specs.CoreView.{all_messages, moment_for, IsRunningJob};
ghost use Rattle.esm_queue_core.specs.Coming.{came_entries, IsFirstChange};
ghost use Rattle.esm_queue_core.specs.Ending.{ended_places, ended_entries};
ghost use Rattle.esm_queue_core.specs.Next.{is_all_deleted, next_for, next_entries};
ghost use Rattle.esm_queue_core.specs.Told.{opened, told_of, MayCome};
ghost use Rattle.esm_queue_book.specs.Books.{payloads_in, OpensToFirst, LeavesFirst};
ghost use Rattle.esm_queue_book.specs.Calls.{AddedAll, AddedSome, AddedOne, RunsCall, IsSame};
ghost use Rattle.esm_queue_book.specs.Keeping.{IsSound, IsSetupOf, IsCause, HasJournal, entries_left};
ghost use Rattle.esm_queue_book.specs.Opening.{IsCoreOver, IsOpened, IsNotOpened};

use crate::carrying::{Stop, carry, is_down, note_end, note_shut};
use crate::opening::{read_filters, read_journal};
use esm_book::{Durable, Nowhere, Parts};
use esm_io::Disk;
use esm_journal::Pair;
use esm_model::{
    BookError, BookOpen, CameError, Config, Entry, Job, Message, Next, OutOfMemory, Refused, Reply,
    Trouble,
};
use esm_queue_core::{QueueAnswer, QueueCall, QueueCore};
use esm_queue_model::queue_book_laws::legal_queue_is_kept;
use std::alloc::Global;
use std::marker::Model;
use std::snapshot::Snapshot;

/// What a queue's book is made of: its history, oldest entry first, and its journal; and why it is down, if it is.
#[derive(Drop)]
pub struct QueueParts<D: Disk> {
    pub history: Vec<Entry>,
    pub trouble: Option<Trouble>,
    pub pair: Pair<D>,
}

/// The book of a queue's mapping: which messages came, which are being called and which are deleted, with each deletion
/// in a journal of two files (Lambda Developer Guide, "Using Lambda with Amazon SQS"). After the first fault of a disk, or
/// the first message that was found deleted and came with another id, it is down.
///
/// Moments are in milliseconds since 1970. An entry has the moment that is handed in, or that of the last entry if that is
/// later, and at most 9999-12-31T23:59:59.999Z. Places count messages in order of arrival.
#[derive(Drop)]
pub struct QueueBook<D: Disk> {
    pub(crate) durable: Durable<QueueCore, D, Nowhere>,
    /// How many messages are in running calls, while the book is up, for whoever watches the run. No contract speaks of it.
    pub(crate) in_calls: u64,
}

impl<D: Disk> Model for QueueBook<D> {
    ghost use Rattle.esm_queue_book.specs.Books.{BookState};
    ghost use Rattle.esm_queue_book.specs.Keeping.{IsSound};

    ghost Value = { BookState D };

    ghost view = { λ b. b.durable };

    ghost invariant = { λ b. IsSound b.durable };
}

/// The core of a book over a journal with these payloads.
fn open_over<D: Disk>(
    alloc: Global,
    config: Config,
    calls: u32,
    visibility_ms: u64,
    pair: &Pair<D>,
) -> Result<QueueCore, BookOpen>
    requires config { IsQueueConfig config }
    requires patterns { is_ok (read_patterns (is_stream config.kind) config.filters) ≡ true }
    ensures opened { IfOk result (IsCoreOver config calls visibility_ms pair.now.payloads) }
    ensures refused { IfErr result (IsNotOpened pair.now.payloads) }
{
    let said = read_journal(alloc, pair.payloads())?;
    let criteria = read_filters(alloc, &config)?;
    Ok(QueueCore::new(alloc, config, criteria, calls, visibility_ms, said)?)
}

/// How many messages are in the call that is answered; 0 if none is.
fn called_by(next: &Next) -> u64 {
    match next {
        Next::Call(job) => job.places.as_slice().len() as u64,
        Next::Gave(_) | Next::Idle { until: _ } | Next::Spent | Next::Finished => 0,
    }
}

impl<D: Disk> QueueBook<D> {
    /// Opens a book in which no message came, for `calls` calls in all, with the deletions that the journal names.
    /// `visibility_ms` is the visibility timeout in milliseconds. Returns `BadPayload`, with the index of the first such
    /// payload, if one is bad for a book, and `OutOfMemory` if an allocation failed. The journal is as before, and a refusal
    /// returns it.
    pub fn open(
        alloc: Global,
        config: Config,
        calls: u32,
        visibility_ms: u64,
        pair: Pair<D>,
    ) -> Result<QueueBook<D>, Refused<BookOpen, Pair<D>>>
        requires config { IsQueueConfig config }
        requires patterns { is_ok (read_patterns (is_stream config.kind) config.filters) ≡ true }
        requires up { pair.down ≡ false }
        ensures opened { IfOk result (IsOpened config calls visibility_ms pair) }
        ensures refused { IfErr result (λ refused. IsNotOpened pair.payloads refused.why) }
        ensures back { IfErr result (λ refused. refused.back ≡ pair) }
    {
        match open_over(alloc, config, calls, visibility_ms, &pair) {
            Ok(core) => Ok(QueueBook {
                durable: Durable::new(core, pair, Nowhere {}),
                in_calls: 0,
            }),
            Err(why) => Err(Refused { why, back: pair }),
        }
    }

    /// Adds messages that come: one `Came` if there are any, and then the deletion of those that fail the filter and were
    /// not found deleted, if there are any. A list with a message that was found deleted with another id is refused whole:
    /// `StreamChanged` has the first such message. After `DiskFault` the entries that were written before the fault stay.
    /// After either the book is down. `Down` is returned if and only if an earlier call found trouble.
    pub fn came(&mut self, alloc: Global, items: Vec<Message>, moment: u64) -> Result<(), CameError>
        requires may { MayCome self.old.core items.items }
        // What is added, and what a crash leaves.
        ensures added { OnOk result (AddedAll (disk D.Disk)
            (self.old.core.setting.messages ++ items.items) self.old self.new (came_entries self.old.core items.items moment)) }
        ensures stopped { IsErrOf result CameError.DiskFault → AddedSome (disk D.Disk)
            (self.old.core.setting.messages ++ items.items) self.old self.new (came_entries self.old.core items.items moment) }
        // When each error is returned, and what it leaves.
        ensures cause { IsErrOf result CameError.DiskFault → Rose (D.faults self.old.pair.used) (D.faults self.new.pair.used) }
        ensures changed { (change : Change) → IsErrOf result (CameError.StreamChanged change) →
            (self.old.trouble ≡ None) × IsFirstChange self.old.core items.items change
            × (self.new ≡ record self.old { trouble = Some (trouble.Changed change) }) }
        ensures is_changed { (change : Change) → IsFirstChange self.old.core items.items change → (OnOk result ⊥) × (IsErrOf result CameError.DiskFault → ⊥) }
        ensures down { IsErrOf result CameError.Down ↔ IsSome self.old.trouble }
        ensures left { IsErrOf result CameError.Down → self.new ≡ self.old }
        ensures no_memory { IsErrOf result CameError.OutOfMemory → IsSame self.old self.new }
    {
        if is_down(&self.durable) {
            return Err(CameError::Down);
        }
        match carry(&mut self.durable, alloc, QueueCall::Came(items, moment)) {
            Ok(_) => Ok(()),
            Err(Stop::DiskFault) => Err(CameError::DiskFault),
            Err(Stop::Changed(change)) => Err(CameError::StreamChanged(change)),
            Err(Stop::OutOfMemory) => Err(CameError::OutOfMemory),
        }
    }

    /// Adds the end of the input. Returns `Down` if and only if an earlier call found trouble, and no other error; the book
    /// is then as before. Takes no memory.
    pub fn shut(&mut self, moment: u64) -> Result<(), BookError>
        requires going { is_shut self.old.core.past ≡ false }
        ensures added { OnOk result (AddedOne self.old self.new (entry.Shut (moment_for self.old.core.past moment))) }
        ensures down { IsErrOf result BookError.Down ↔ IsSome self.old.trouble }
        ensures only_down { IfErr result (λ why. why ≡ BookError.Down) }
        ensures left { OnErr result (self.new ≡ self.old) }
    {
        if is_down(&self.durable) {
            return Err(BookError::Down);
        }
        note_shut(&mut self.durable, moment);
        Ok(())
    }

    /// Returns what the batcher does next, by the first rule that holds, and adds the call that begins, if it is one. No
    /// call of the batcher's lane may be running.
    pub fn next(&mut self, alloc: Global, batcher: u32, moment: u64) -> Result<Next, BookError>
        requires rests { is_running self.old.core.past (queue_lane batcher) ≡ false }
        // What is answered and added, and what a crash leaves.
        ensures answer { IfOk result (λ next. next ≡ next_for self.old.core.setting self.old.core.past batcher (moment_for self.old.core.past moment)) }
        ensures added { OnOk result (AddedAll (disk D.Disk) self.old.core.setting.messages self.old self.new
            (next_entries (next_for self.old.core.setting self.old.core.past batcher (moment_for self.old.core.past moment))
            (moment_for self.old.core.past moment))) }
        ensures stopped { IsErrOf result BookError.DiskFault → AddedSome (disk D.Disk) self.old.core.setting.messages self.old self.new
            (next_entries (next_for self.old.core.setting self.old.core.past batcher (moment_for self.old.core.past moment))
            (moment_for self.old.core.past moment)) }
        ensures runs { IfOk result (RunsCall batcher self.new.core.past) }
        // When each error is returned, and what it leaves.
        ensures cause { IsErrOf result BookError.DiskFault → Rose (D.faults self.old.pair.used) (D.faults self.new.pair.used) }
        ensures no_dest { IsErrOf result BookError.DestFault → ⊥ }
        ensures down { IsErrOf result BookError.Down ↔ IsSome self.old.trouble }
        ensures left { IsErrOf result BookError.Down → self.new ≡ self.old }
        ensures no_memory { IsErrOf result BookError.OutOfMemory → IsSame self.old self.new }
    {
        if is_down(&self.durable) {
            return Err(BookError::Down);
        }
        match carry(&mut self.durable, alloc, QueueCall::Next(batcher, moment)) {
            Ok(QueueAnswer::Next(next)) => {
                self.in_calls = self.in_calls.saturating_add(called_by(&next));
                Ok(next)
            }
            Ok(QueueAnswer::Taken | QueueAnswer::Deleted(_)) => unreachable!(),
            Err(Stop::DiskFault) => Err(BookError::DiskFault),
            Err(Stop::Changed(_)) => unreachable!(),
            Err(Stop::OutOfMemory) => Err(BookError::OutOfMemory),
        }
    }

    /// Adds the end of the job's call with this reply: its `Ended`, and then the deletion of the messages that succeeded and
    /// are not deleted, if there are any. Returns their number (Lambda Developer Guide, "Implementing partial batch
    /// responses"). On a book that is down only the `Ended` is added, and `Down` is returned. The job is its lane's running
    /// one.
    pub fn done(
        &mut self,
        alloc: Global,
        job: Job,
        reply: Reply,
        moment: u64,
    ) -> Result<u32, BookError>
        requires runs { IsRunningJob self.old.core.past job }
        // What is answered and added, and what a crash leaves.
        ensures answer { IfOk result (λ count. count ≡
            length (ended_places self.old.core.setting self.old.core.past job.lane reply (moment_for self.old.core.past moment))) }
        ensures added { OnOk result (AddedAll (disk D.Disk) self.old.core.setting.messages self.old self.new
            (ended_entries self.old.core.setting self.old.core.past job.lane reply (moment_for self.old.core.past moment))) }
        ensures stopped { IsErrOf result BookError.DiskFault → AddedSome (disk D.Disk) self.old.core.setting.messages self.old self.new
            (ended_entries self.old.core.setting self.old.core.past job.lane reply (moment_for self.old.core.past moment)) }
        ensures noted { IsErrOf result BookError.Down → AddedOne self.old self.new (entry.Ended job.lane reply (moment_for self.old.core.past moment)) }
        // When each error is returned, and what it leaves.
        ensures cause { IsErrOf result BookError.DiskFault → Rose (D.faults self.old.pair.used) (D.faults self.new.pair.used) }
        ensures no_dest { IsErrOf result BookError.DestFault → ⊥ }
        ensures down { IsErrOf result BookError.Down ↔ IsSome self.old.trouble }
        ensures no_memory { IsErrOf result BookError.OutOfMemory → IsSame self.old self.new }
    {
        let called = job.places.as_slice().len() as u64;
        if is_down(&self.durable) {
            note_end(&mut self.durable, job, reply, moment);
            return Err(BookError::Down);
        }
        match carry(
            &mut self.durable,
            alloc,
            QueueCall::Done(job, reply, moment),
        ) {
            Ok(QueueAnswer::Deleted(count)) => {
                self.in_calls = self.in_calls.saturating_sub(called);
                Ok(count)
            }
            Ok(QueueAnswer::Taken | QueueAnswer::Next(_)) => unreachable!(),
            Err(Stop::DiskFault) => Err(BookError::DiskFault),
            Err(Stop::Changed(_)) => unreachable!(),
            Err(Stop::OutOfMemory) => Err(BookError::OutOfMemory),
        }
    }

    /// Whether the input ended. Takes no memory.
    pub fn is_shut(&self) -> bool
        ensures { result ≡ is_shut self.now.core.past }
    {
        self.durable.core().is_shut()
    }

    /// Whether all calls allowed were made, also if the book is down. Takes no memory.
    pub fn is_spent(&self) -> bool
        ensures { result ≡ (calls_begun self.now.core.past == self.now.core.setting.calls) }
    {
        self.durable.core().is_spent()
    }

    /// Whether every message that came is deleted. Takes no memory.
    pub fn is_over(&self) -> bool
        ensures { result ≡ is_all_deleted self.now.core.setting self.now.core.past }
    {
        self.durable.core().is_over()
    }

    /// The first fault or change that a call returned; `None` if none did. Its clauses say what holds of any book, whoever
    /// made its calls. Takes no memory.
    pub fn trouble(&self) -> Option<&Trouble>
        ensures value { option_copied result ≡ self.now.trouble }
        ensures cause { IsCause (Rose (D.faults self.now.found.used) (D.faults self.now.pair.used)) (opened self.now.core) self.now.trouble }
        // The history, and what the journal has of it.
        ensures sound { IsSound self.now }
        ensures legal { (setup : Setup) → IsSetupOf setup self.now → IsLegal (queue_may_follow setup) (told_of self.now.core) }
        ensures journal { HasJournal (disk D.Disk) self.now }
        // What a crash leaves: of both disks since the opening, and now.
        ensures images { LeavesFirst (disk D.Disk) self.now.found self.now.pair (payloads_in (all_messages self.now.core) (entries_left self.now)) }
        ensures kept { PairKeepsWhileUp (disk D.Disk) self.now.pair }
    {
        legal_queue_is_kept();
        self.durable.trouble()
    }

    /// What a crash leaves of the disks since a moment before they were opened, if each had one image then, as after a crash
    /// or a sync. `journal` and `spare` are the disks at that moment. Does nothing.
    pub fn since_before(&self, journal: &Snapshot<D>, spare: &Snapshot<D>)
        requires first { IsOnlyRead (disk D.Disk) journal.now.value (first_disk self.now.found) }
        requires second { IsOnlyRead (disk D.Disk) spare.now.value (second_disk self.now.found) }
        ensures { D.honest journal.now.value ≡ true → D.honest spare.now.value ≡ true →
            Only (D.content journal.now.value) (D.image journal.now.value) → Only (D.content spare.now.value) (D.image spare.now.value) → (one other : List ℕ) →
            D.image_since (first_disk self.now.pair) (D.moment journal.now.value) one →
            D.image_since (second_disk self.now.pair) (D.moment spare.now.value) other →
            OpensToFirst self.now.found.epoch self.now.found.payloads (payloads_in (all_messages self.now.core) (entries_left self.now)) one other }
    {
        self.durable.since_before(journal, spare);
    }

    /// The history, the first fault or change that a call returned, and the journal, as the calls left them. Takes no
    /// memory.
    pub fn into_parts(self) -> QueueParts<D>
        ensures history { result.history.items ≡ reverse self.core.past }
        ensures trouble { result.trouble ≡ self.trouble }
        ensures pair { result.pair ≡ self.pair }
    {
        let QueueBook {
            durable,
            in_calls: _,
        } = self;
        let Parts {
            core,
            pair,
            dest: _,
            trouble,
        } = durable.into_parts();
        QueueParts {
            history: core.into_history(),
            trouble,
            pair,
        }
    }
}

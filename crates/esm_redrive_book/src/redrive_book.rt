// The book of a redrive: messages that arrive, calls of the batcher, moves and deletions, over a journal and a
// dead-letter file.
ghost use Rattle.std.specs.Prelude.{◌≡◌, ◌↔◌, ℕ, List, [], ◌++◌, None, Some, true, false, length, reverse, IfOk, IfErr, OnOk, OnErr, IsErrOf, IsSome};
ghost use Rattle.std.specs.Option.{option_copied};
ghost use Rattle.esm_io.specs.Faults.{Rose};
ghost use Rattle.esm_io.specs.Images.{Only};
ghost use Rattle.esm_io.specs.Meanings.{disk, destination};
ghost use Rattle.esm_journal.specs.Pair.{PairKeepsWhileUp, first_disk, second_disk};
ghost use Rattle.esm_journal.specs.Reads.{IsOnlyRead};
ghost use Rattle.esm_model.specs.declared.book.Change.{Change};
ghost use Rattle.esm_model.specs.declared.book.Trouble.TheVariants as trouble;
ghost use Rattle.esm_model.specs.declared.entry.Entry.TheVariants as entry;
ghost use Rattle.esm_model.specs.Entries.{is_shut, is_running};
ghost use Rattle.esm_book.specs.Growth.{LeavesFronts, OpensToFront};
ghost use Rattle.esm_book.specs.State.{IsKept};
ghost use Rattle.esm_queue_model.specs.QueueEntries.{queue_lane};
ghost use Rattle.esm_queue_core.specs.CoreView.{moment_for};
ghost use Rattle.esm_redrive_core.specs.RedriveView.{IsRunningJob};
ghost use Rattle.esm_redrive_core.specs.Refusing.{IsFirstChange};
ghost use Rattle.esm_redrive_core.specs.Adding.{came_entries, redrive_next, redrive_next_entries, ended_entries};
ghost use Rattle.esm_redrive_core.specs.Sound.{ended_places};
ghost use Rattle.esm_redrive_core.specs.Ahead.{IsConsistent};
ghost use Rattle.esm_redrive_core.specs.Told.{opened, MayCome};
ghost use Rattle.esm_redrive_book.specs.Books.{redrive_meaning};
ghost use Rattle.esm_redrive_book.specs.Calls.{AddedAll, AddedSome, AddedOne, RunsCall, IsSame};
ghost use Rattle.esm_redrive_book.specs.Keeping.{IsSound, IsCause, entries_left};
ghost use Rattle.esm_redrive_book.specs.Letters.{LeavesLetters, LinesStandFirst};

use crate::carrying::{Stop, carry, is_down, keeps, note_end, note_shut};
use esm_book::{Durable, Parts};
use esm_io::{Dest, Disk};
use esm_journal::Pair;
use esm_model::{BookError, CameError, Entry, Job, Message, Next, Reply, Trouble};
use esm_redrive_core::{RedriveAnswer, RedriveCall, RedriveCore};
use std::alloc::Global;
use std::marker::Model;
use std::snapshot::Snapshot;

/// The parts of a redrive: its history, oldest entry first, why it is down, if it is, its journal and its dead-letter
/// file.
#[derive(Drop)]
pub struct RedriveParts<D: Disk, T> {
    pub history: Vec<Entry>,
    pub trouble: Option<Trouble>,
    pub pair: Pair<D>,
    pub dead: T,
}

/// The book of a redrive: which messages arrived, which are being called, which are deleted and which are moved. Each
/// deletion is kept in a journal of two files, and each dead letter in a file of its own (Amazon SQS Developer Guide,
/// "Using dead-letter queues"). After the first fault of a disk, or the first message that was found deleted and arrived
/// with another id, the book is down.
///
/// Moments are in milliseconds since 1970. An entry has the moment that is passed in, or that of the last entry if it is
/// later, and at most 9999-12-31T23:59:59.999Z. Places count messages in order of arrival, from 0. There is one batcher.
#[derive(Drop)]
pub struct Redrive<D: Disk, T: Dest> {
    durable: Durable<RedriveCore, D, T>,
}

impl<D: Disk, T: Dest> Model for Redrive<D, T> {
    ghost use Rattle.esm_redrive_book.specs.Books.{BookState};
    ghost use Rattle.esm_redrive_book.specs.Keeping.{IsSound};

    ghost Value = { BookState D T };

    ghost view = { λ b. b.durable };

    ghost invariant = { λ b. IsSound b.durable };
}

impl<D: Disk, T: Dest> Redrive<D, T> {
    /// Makes a redrive with this core, which has no history, over devices that have not failed. Takes no memory.
    pub(crate) fn over(core: RedriveCore, pair: Pair<D>, dead: T) -> Redrive<D, T>
        requires empty { core.past ≡ [] }
        requires rests { core.coming ≡ [] }
        requires settled { core.owed ≡ [] }
        requires up { pair.down ≡ false }
        requires usable { T.failed dead ≡ false }
        ensures { result ≡ record { core = core; pair = pair; dest = dead; trouble = None; found = pair; found_dest = dead } }
    {
        Redrive {
            durable: Durable::new(core, pair, dead),
        }
    }

    /// Adds messages that arrive: one `Came` if there are any; then those whose line was found are recorded as moved,
    /// without a second line; then those of the others that fail the filter and were not found deleted are deleted. If a
    /// message was found deleted with another id, the whole list is refused, and the error reports the first such
    /// message; the book is then down. `Down`: an earlier call failed for good. After `DiskFault` the entries that were
    /// written before the fault stay.
    pub fn came(&mut self, alloc: Global, items: Vec<Message>, moment: u64) -> Result<(), CameError>
        requires may { MayCome self.old.core items.items }
        // What is added, and what a crash leaves.
        ensures added { OnOk result (AddedAll (disk D.Disk) (destination T.Dest)
            (self.old.core.setting.queue.messages ++ items.items) self.old self.new (came_entries self.old.core items.items moment)) }
        ensures stopped { IsErrOf result CameError.DiskFault → AddedSome (disk D.Disk) (destination T.Dest)
            (self.old.core.setting.queue.messages ++ items.items) self.old self.new (came_entries self.old.core items.items moment) trouble.Disk }
        // When each error is returned, and what it leaves.
        ensures cause { IsErrOf result CameError.DiskFault → Rose (D.faults self.old.pair.used) (D.faults self.new.pair.used) }
        ensures changed { (change : Change) → IsErrOf result (CameError.StreamChanged change) →
            (self.old.trouble ≡ None) × IsFirstChange self.old.core items.items change
            × (self.new ≡ record self.old { trouble = Some (trouble.Changed change) }) }
        ensures is_changed { (change : Change) → IsFirstChange self.old.core items.items change → (OnOk result ⊥) × (IsErrOf result CameError.DiskFault → ⊥) }
        ensures down { IsErrOf result CameError.Down ↔ IsSome self.old.trouble }
        ensures left { IsErrOf result CameError.Down → self.new ≡ self.old }
        ensures no_memory { IsErrOf result CameError.OutOfMemory → IsSame (destination T.Dest) self.old self.new }
    {
        if is_down(&self.durable) {
            return Err(CameError::Down);
        }
        match carry(&mut self.durable, alloc, RedriveCall::Came(items, moment)) {
            Ok(_) => Ok(()),
            Err(Stop::DiskFault) => Err(CameError::DiskFault),
            Err(Stop::DestFault) => unreachable!(),
            Err(Stop::Changed(change)) => Err(CameError::StreamChanged(change)),
            Err(Stop::OutOfMemory) => Err(CameError::OutOfMemory),
        }
    }

    /// Notes the end of the input. `Down` is returned if and only if an earlier call failed for good, and is the only
    /// error; the book is then as before. Takes no memory.
    pub fn shut(&mut self, moment: u64) -> Result<(), BookError>
        requires going { is_shut self.old.core.past ≡ false }
        ensures added { OnOk result (AddedOne self.old self.new (entry.Shut (moment_for self.old.core.past moment))) }
        ensures down { IsErrOf result BookError.Down ↔ IsSome self.old.trouble }
        ensures only_down { IfErr result (λ why. why ≡ BookError.Down) }
        ensures left { OnErr result (self.new ≡ self.old) }
    {
        if is_down(&self.durable) {
            return Err(BookError::Down);
        }
        note_shut(&mut self.durable, moment);
        Ok(())
    }

    /// Decides what the batcher does next. If a message is due, the first one is moved: its line is appended to the
    /// dead-letter file, and then its deletion to the journal. Otherwise the first rule of a queue that holds decides; if
    /// that is a call, it begins. No call is running. `DiskFault` and `DestFault`: the journal or the dead-letter file
    /// failed, and the rest is owed. `Down`: an earlier call failed for good. `OutOfMemory`: an allocation failed, or the
    /// history could exceed 2^40 entries; nothing has changed except reserved room.
    pub fn next(&mut self, alloc: Global, moment: u64) -> Result<Next, BookError>
        requires rests { is_running self.old.core.past (queue_lane 0) ≡ false }
        // What is returned and added, and what a crash leaves.
        ensures answer { IfOk result (λ next. next ≡ redrive_next self.old.core.setting self.old.core.past (moment_for self.old.core.past moment)) }
        ensures added { OnOk result (AddedAll (disk D.Disk) (destination T.Dest)
            self.old.core.setting.queue.messages self.old self.new
            (redrive_next_entries self.old.core.setting self.old.core.past (moment_for self.old.core.past moment))) }
        ensures stopped { IsErrOf result BookError.DiskFault → AddedSome (disk D.Disk) (destination T.Dest)
            self.old.core.setting.queue.messages self.old self.new
            (redrive_next_entries self.old.core.setting self.old.core.past (moment_for self.old.core.past moment)) trouble.Disk }
        ensures undelivered { IsErrOf result BookError.DestFault → AddedSome (disk D.Disk) (destination T.Dest)
            self.old.core.setting.queue.messages self.old self.new
            (redrive_next_entries self.old.core.setting self.old.core.past (moment_for self.old.core.past moment)) trouble.Dest }
        ensures runs { IfOk result (RunsCall self.new.core.past) }
        // When each error is returned, and what it leaves.
        ensures disk_cause { IsErrOf result BookError.DiskFault → Rose (D.faults self.old.pair.used) (D.faults self.new.pair.used) }
        ensures dest_cause { IsErrOf result BookError.DestFault → Rose (T.faults self.old.dest) (T.faults self.new.dest) }
        ensures down { IsErrOf result BookError.Down ↔ IsSome self.old.trouble }
        ensures left { IsErrOf result BookError.Down → self.new ≡ self.old }
        ensures no_memory { IsErrOf result BookError.OutOfMemory → IsSame (destination T.Dest) self.old self.new }
    {
        if is_down(&self.durable) {
            return Err(BookError::Down);
        }
        match carry(&mut self.durable, alloc, RedriveCall::Next(moment)) {
            Ok(RedriveAnswer::Next(next)) => Ok(next),
            Ok(RedriveAnswer::Taken | RedriveAnswer::Deleted(_)) => unreachable!(),
            Err(Stop::DiskFault) => Err(BookError::DiskFault),
            Err(Stop::DestFault) => Err(BookError::DestFault),
            Err(Stop::Changed(_)) => unreachable!(),
            Err(Stop::OutOfMemory) => Err(BookError::OutOfMemory),
        }
    }

    /// Ends the job's call with this reply: adds its `Ended`, and then the deletion of the messages that succeeded and
    /// are not yet deleted, if there are any. Returns their number (Lambda Developer Guide, "Implementing partial batch
    /// responses"). If the book is down, only the `Ended` is added, and `Down` is returned. The job is the running one.
    /// `DiskFault`: a disk failed, and the rest is owed. `OutOfMemory`: as for `next`.
    pub fn done(
        &mut self,
        alloc: Global,
        job: Job,
        reply: Reply,
        moment: u64,
    ) -> Result<u32, BookError>
        requires runs { IsRunningJob self.old.core.past job }
        // What is returned and added, and what a crash leaves.
        ensures answer { IfOk result (λ count. count ≡
            length (ended_places self.old.core.setting self.old.core.past reply (moment_for self.old.core.past moment))) }
        ensures added { OnOk result (AddedAll (disk D.Disk) (destination T.Dest)
            self.old.core.setting.queue.messages self.old self.new
            (ended_entries self.old.core.setting self.old.core.past reply (moment_for self.old.core.past moment))) }
        ensures stopped { IsErrOf result BookError.DiskFault → AddedSome (disk D.Disk) (destination T.Dest)
            self.old.core.setting.queue.messages self.old self.new
            (ended_entries self.old.core.setting self.old.core.past reply (moment_for self.old.core.past moment)) trouble.Disk }
        ensures noted { IsErrOf result BookError.Down → AddedOne self.old self.new (entry.Ended job.lane reply (moment_for self.old.core.past moment)) }
        // When each error is returned, and what it leaves.
        ensures cause { IsErrOf result BookError.DiskFault → Rose (D.faults self.old.pair.used) (D.faults self.new.pair.used) }
        ensures no_dest { IsErrOf result BookError.DestFault → ⊥ }
        ensures down { IsErrOf result BookError.Down ↔ IsSome self.old.trouble }
        ensures no_memory { IsErrOf result BookError.OutOfMemory → IsSame (destination T.Dest) self.old self.new }
    {
        if is_down(&self.durable) {
            note_end(&mut self.durable, job, reply, moment);
            return Err(BookError::Down);
        }
        match carry(
            &mut self.durable,
            alloc,
            RedriveCall::Done(job, reply, moment),
        ) {
            Ok(RedriveAnswer::Deleted(count)) => Ok(count),
            Ok(RedriveAnswer::Taken | RedriveAnswer::Next(_)) => unreachable!(),
            Err(Stop::DiskFault) => Err(BookError::DiskFault),
            Err(Stop::DestFault) => unreachable!(),
            Err(Stop::Changed(_)) => unreachable!(),
            Err(Stop::OutOfMemory) => Err(BookError::OutOfMemory),
        }
    }

    /// Whether the input ended. Takes no memory.
    pub fn is_shut(&self) -> bool
        ensures { result ≡ is_shut self.now.core.past }
    {
        self.durable.core().is_shut()
    }

    /// Returns the first fault or change that a call reported; `None` if and only if there was none. Its clauses state
    /// the invariant of every redrive, whoever made its calls. Takes no memory.
    pub fn trouble(&self) -> Option<&Trouble>
        ensures value { option_copied result ≡ self.now.trouble }
        ensures cause { IsCause (Rose (D.faults self.now.found.used) (D.faults self.now.pair.used))
            (Rose (T.faults self.now.found_dest) (T.faults self.now.dest)) (opened self.now.core) self.now.trouble }
        // The history, and what the devices have in addition to what was passed in.
        ensures sound { IsSound self.now }
        ensures consistent { IsConsistent self.now.core }
        ensures written { IsKept redrive_meaning (disk D.Disk) (destination T.Dest) self.now }
        // What a crash leaves of both disks: at any moment since the opening, and now.
        ensures images { LeavesFronts redrive_meaning (disk D.Disk) (destination T.Dest)
            self.now.found self.now.pair self.now.found_dest self.now.dest (entries_left self.now) }
        // What it leaves of the dead-letter file, alone and together with the journal.
        ensures letters { LeavesLetters (destination T.Dest) self.now }
        ensures lines_first { LinesStandFirst (disk D.Disk) (destination T.Dest) self.now self.now.dest }
        ensures kept { PairKeepsWhileUp (disk D.Disk) self.now.pair }
    {
        keeps(&self.durable);
        self.durable.trouble()
    }

    /// States what a crash leaves of the disks since a moment before they were opened, if each had one image then, as
    /// after a crash or a sync. Does nothing.
    pub fn since_before(&self, journal: &Snapshot<D>, spare: &Snapshot<D>)
        requires first { IsOnlyRead (disk D.Disk) journal.now.value (first_disk self.now.found) }
        requires second { IsOnlyRead (disk D.Disk) spare.now.value (second_disk self.now.found) }
        ensures { D.honest journal.now.value ≡ true → D.honest spare.now.value ≡ true →
            Only (D.content journal.now.value) (D.image journal.now.value) → Only (D.content spare.now.value) (D.image spare.now.value) → (one other : List ℕ) →
            D.image_since (first_disk self.now.pair) (D.moment journal.now.value) one →
            D.image_since (second_disk self.now.pair) (D.moment spare.now.value) other →
            OpensToFront redrive_meaning (destination T.Dest) self.now.found.epoch self.now.found.payloads
            self.now.found_dest self.now.dest (entries_left self.now) one other }
    {
        self.durable.since_before(journal, spare);
    }

    /// Returns the history, the first fault or change that a call reported, the journal and the dead-letter file, as the
    /// calls left them. Takes no memory.
    pub fn into_parts(self) -> RedriveParts<D, T>
        ensures history { result.history.items ≡ reverse self.core.past }
        ensures trouble { result.trouble ≡ self.trouble }
        ensures pair { result.pair ≡ self.pair }
        ensures dead { result.dead ≡ self.dest }
    {
        let Redrive { durable } = self;
        let Parts {
            core,
            pair,
            dest,
            trouble,
        } = durable.into_parts();
        RedriveParts {
            history: core.into_history(),
            trouble,
            pair,
            dead: dest,
        }
    }
}

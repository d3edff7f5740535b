// The book of a replay: records that arrive, calls of those that are named, and replays kept in a journal.
ghost use Rattle.std.specs.Prelude.{◌≡◌, ◌↔◌, ◌<◌, ◌+◌, ◌^◌, ℕ, List, [], ◌++◌, None, Some, true, false, is_some, length, reverse};
ghost use Rattle.std.specs.Prelude.{All, IfOk, IfErr, OnOk, IsErrOf, IsSome};
ghost use Rattle.std.specs.Option.{option_copied};
ghost use Rattle.esm_io.specs.Faults.{Rose};
ghost use Rattle.esm_io.specs.Images.{Only};
ghost use Rattle.esm_io.specs.Meanings.{disk};
ghost use Rattle.esm_journal.specs.Pair.{PairKeepsWhileUp, first_disk, second_disk};
ghost use Rattle.esm_journal.specs.Reads.{IsOnlyRead};
ghost use Rattle.esm_model.specs.declared.book.Change.{Change};
ghost use Rattle.esm_model.specs.declared.book.Trouble.TheVariants as trouble;
ghost use Rattle.esm_model.specs.Valid.{IsValidRecord, IsStreamConfig};
ghost use Rattle.esm_journal_state.specs.Meaning.{history, are_good};
ghost use Rattle.esm_journal_state.specs.SaidLists.{IsInOrder};
ghost use Rattle.esm_journal_state.specs.Tells.{Tells};
ghost use Rattle.esm_replay_model.specs.ReplayReport.{named_count};
ghost use Rattle.esm_replay_model.specs.ReplayRun.{call_out};
ghost use Rattle.esm_replay_core.specs.View.{setting_of, moment_for, IsJobOut};
ghost use Rattle.esm_replay_core.specs.Deciding.{next_of, next_entries, done_entries, done_count};
ghost use Rattle.esm_replay_book.specs.Books.{payloads_in, OpensToFirst, LeavesFirst};
ghost use Rattle.esm_replay_book.specs.Calls.{AddedAll, AddedSome, IsFirstChange, RunsCall, IsSame};
ghost use Rattle.esm_replay_book.specs.Keeping.{IsSound, IsCause, HasJournal, entries_left};
ghost use Rattle.esm_replay_book.specs.Opening.{IsOpened, IsOpenedOver, IsNotOpened, IsBadLines};

use crate::carrying::{Stop, carry, is_down};
use crate::opening::{ReplayOpen, core_over, read_journal};
use esm_book::{Durable, Nowhere, Parts};
use esm_io::Disk;
use esm_journal::Pair;
use esm_journal_state::Says;
use esm_model::{BookError, Bytes, CameError, Config, Entry, Job, Record, Refused, Reply, Trouble};
use esm_replay_core::{ReplayAnswer, ReplayCall, ReplayCore, ReplayNext};
use std::alloc::Global;
use std::marker::Model;
use std::snapshot::Snapshot;

/// The parts of a replay's book: its history, oldest entry first, what its journal said at opening, why it is down, if it
/// is, and its journal.
#[derive(Drop)]
pub struct ReplayParts<D: Disk> {
    pub history: Vec<Entry>,
    pub said: Says,
    pub trouble: Option<Trouble>,
    pub pair: Pair<D>,
}

/// The book of a replay: which records arrived, which of them the failure lines name, which are being called again, and
/// which succeeded. Those that succeeded are kept in a journal of two files. After the first fault of a disk, or the
/// first record that was kept with another text, the book is down.
///
/// Moments are in milliseconds since 1970. An entry has the moment that is passed in, or that of the last entry if it is
/// later, and at most 9999-12-31T23:59:59.999Z. Places count the records of a shard in order of arrival, from 0.
#[derive(Drop)]
pub struct Replay<D: Disk> {
    durable: Durable<ReplayCore, D, Nowhere>,
    /// How many records arrived.
    count: usize,
}

impl<D: Disk> Model for Replay<D> {
    ghost use Rattle.std.specs.Prelude.{◌≡◌, length};
    ghost use Rattle.esm_replay_book.specs.Books.{BookState};
    ghost use Rattle.esm_replay_book.specs.Keeping.{IsSound};

    ghost Value = { BookState D };

    ghost view = { λ b. b.durable };

    ghost invariant = { λ b. IsSound b.durable × (b.count ≡ length b.durable.core.records) };
}

impl<D: Disk> Replay<D> {
    /// Opens a book in which no record has arrived, for `calls` calls in all, with what the journal says and the records
    /// that the failure lines name. `BadPayload`: a payload is bad for a book; it names the first such one. `BadLine`: no
    /// payload is bad, and a line names no range; it names the first such one. The journal is only read, and an error
    /// gives it back.
    pub fn open(
        alloc: Global,
        config: Config,
        calls: u32,
        pair: Pair<D>,
        lines: &[Bytes],
    ) -> Result<Replay<D>, Refused<ReplayOpen, Pair<D>>>
        requires config { IsStreamConfig config }
        requires up { pair.down ≡ false }
        ensures opened { IfOk result (IsOpened config calls pair lines.now) }
        ensures refused { IfErr result (λ refused. IsNotOpened pair.payloads lines.now refused.why) }
        ensures back { IfErr result (λ refused. refused.back ≡ pair) }
    {
        match read_journal(alloc, pair.payloads()) {
            Err(why) => Err(Refused { why, back: pair }),
            Ok(said) => match Replay::open_over(alloc, config, calls, said, pair, lines) {
                Ok(book) => Ok(book),
                Err(refused) => Err(Refused {
                    why: refused.why,
                    back: refused.back.0,
                }),
            },
        }
    }

    /// Opens a book as `open` does, over a journal whose content is already known, so it is not read again. An error
    /// gives both back; `BadPayload` is never returned.
    pub fn open_over(
        alloc: Global,
        config: Config,
        calls: u32,
        said: Says,
        pair: Pair<D>,
        lines: &[Bytes],
    ) -> Result<Replay<D>, Refused<ReplayOpen, (Pair<D>, Says)>>
        requires config { IsStreamConfig config }
        requires up { pair.down ≡ false }
        requires good { are_good (reverse pair.payloads) ≡ true }
        requires tells { Tells said (history (reverse pair.payloads)) }
        requires order { IsInOrder said }
        ensures opened { IfOk result (IsOpenedOver config calls said pair lines.now) }
        ensures refused { IfErr result (λ refused. IsBadLines lines.now refused.why) }
        ensures back { IfErr result (λ refused. (refused.back.0 ≡ pair) × (refused.back.1 ≡ said)) }
    {
        match core_over(alloc, config, calls, said, lines) {
            Ok(core) => Ok(Replay {
                durable: Durable::new(core, pair, Nowhere {}),
                count: 0,
            }),
            Err(refused) => Err(Refused {
                why: refused.why,
                back: (pair, refused.back),
            }),
        }
    }

    /// Whether 32 bits count the records with `more` of them.
    fn has_room(&self, more: usize) -> bool
        ensures { result ≡ true → length self.now.core.records + more < 2 ^ 32 }
    {
        more <= u32::MAX as usize && self.count <= u32::MAX as usize - more
    }

    /// States that the book is not down if a call is running. Does nothing.
    fn stands(&self, job: &Job)
        requires { IsJobOut self.now.core.past job.now }
        ensures { self.now.trouble ≡ None }
    {
        let _ = is_down(&self.durable);
        let _ = job;
    }

    /// Adds records that arrive, before the first call. If the journal kept another text of a record, the whole list is
    /// refused, and the error reports the first such record; the book is then down. `Down`: an earlier call failed for
    /// good. `OutOfMemory`: an allocation failed, or 32 bits do not count the records. No disk is called.
    pub fn came(&mut self, alloc: Global, items: Vec<Record>) -> Result<(), CameError>
        requires early { self.old.core.past ≡ [] }
        requires valid { All IsValidRecord items.items }
        // What is added.
        ensures added { OnOk result (AddedAll (disk D.Disk) (self.old.core.records ++ items.items) self.old self.new []) }
        // When each error is returned, and what it leaves.
        ensures no_fault { IsErrOf result CameError.DiskFault → ⊥ }
        ensures changed { (change : Change) → IsErrOf result (CameError.StreamChanged change) →
            (self.old.trouble ≡ None) × IsFirstChange self.old.core items.items change
            × (self.new ≡ record self.old { trouble = Some (trouble.Changed change) }) }
        ensures is_changed { (change : Change) → IsFirstChange self.old.core items.items change → OnOk result ⊥ }
        ensures down { IsErrOf result CameError.Down ↔ IsSome self.old.trouble }
        ensures left { IsErrOf result CameError.Down → self.new ≡ self.old }
        ensures no_memory { IsErrOf result CameError.OutOfMemory → IsSame self.old self.new }
    {
        if is_down(&self.durable) {
            return Err(CameError::Down);
        }
        let more = items.len();
        if !self.has_room(more) {
            return Err(CameError::OutOfMemory);
        }
        match carry(&mut self.durable, alloc, ReplayCall::Came(items)) {
            Ok(_) => {
                self.count += more;
                Ok(())
            }
            Err(Stop::DiskFault) => unreachable!(),
            Err(Stop::Changed(change)) => Err(CameError::StreamChanged(change)),
            Err(Stop::OutOfMemory) => Err(CameError::OutOfMemory),
        }
    }

    /// Decides what the caller does next: `Finished` if and only if nothing is left to call; otherwise `Spent` if and
    /// only if all calls allowed were made; otherwise a call, which begins. No call is running. `Down`: an earlier call
    /// failed for good. `OutOfMemory`: an allocation failed, and nothing has changed except reserved room.
    pub fn next(&mut self, alloc: Global, moment: u64) -> Result<ReplayNext, BookError>
        requires rests { (call_out self.old.core.past).places ≡ [] }
        // What is returned and added.
        ensures answer { IfOk result (λ next. next ≡ next_of (setting_of self.old.core) self.old.core.past) }
        ensures added { OnOk result (AddedAll (disk D.Disk) self.old.core.records self.old self.new
            (next_entries (next_of (setting_of self.old.core) self.old.core.past) (moment_for self.old.core.past moment))) }
        ensures runs { IfOk result (RunsCall (setting_of self.new.core) self.new.core.past) }
        // When each error is returned, and what it leaves.
        ensures no_fault { IsErrOf result BookError.DiskFault → ⊥ }
        ensures no_dest { IsErrOf result BookError.DestFault → ⊥ }
        ensures down { IsErrOf result BookError.Down ↔ IsSome self.old.trouble }
        ensures left { IsErrOf result BookError.Down → self.new ≡ self.old }
        ensures no_memory { IsErrOf result BookError.OutOfMemory → IsSame self.old self.new }
    {
        if is_down(&self.durable) {
            return Err(BookError::Down);
        }
        match carry(&mut self.durable, alloc, ReplayCall::Next(moment)) {
            Ok(ReplayAnswer::Next(next)) => Ok(next),
            Ok(ReplayAnswer::Taken | ReplayAnswer::Replayed(_)) => unreachable!(),
            Err(Stop::DiskFault) => unreachable!(),
            Err(Stop::Changed(_)) => unreachable!(),
            Err(Stop::OutOfMemory) => Err(BookError::OutOfMemory),
        }
    }

    /// Ends the job's call with this reply: adds its `Ended`, and then a `Replayed` of the records that succeeded, if
    /// there are any. Returns their number (Lambda Developer Guide, error handling for Kinesis,
    /// `ReportBatchItemFailures`). The job is the running call, so the book is not down. `DiskFault`: a disk failed, and
    /// the rest is owed. `OutOfMemory`: an allocation failed, and nothing has changed except reserved room.
    pub fn done(
        &mut self,
        alloc: Global,
        job: Job,
        reply: Reply,
        moment: u64,
    ) -> Result<u32, BookError>
        requires out { IsJobOut self.old.core.past job }
        // What is returned and added, and what a crash leaves.
        ensures answer { IfOk result (λ count. count ≡ done_count (setting_of self.old.core) self.old.core.past reply) }
        ensures added { OnOk result (AddedAll (disk D.Disk) self.old.core.records self.old self.new
            (done_entries (setting_of self.old.core) self.old.core.past job.lane reply (moment_for self.old.core.past moment))) }
        ensures stopped { IsErrOf result BookError.DiskFault → AddedSome (disk D.Disk) self.old.core.records self.old self.new
            (done_entries (setting_of self.old.core) self.old.core.past job.lane reply (moment_for self.old.core.past moment)) }
        // When each error is returned, and what it leaves.
        ensures cause { IsErrOf result BookError.DiskFault → Rose (D.faults self.old.pair.used) (D.faults self.new.pair.used) }
        ensures no_dest { IsErrOf result BookError.DestFault → ⊥ }
        ensures not_down { IsErrOf result BookError.Down → ⊥ }
        ensures up { self.old.trouble ≡ None }
        ensures no_memory { IsErrOf result BookError.OutOfMemory → IsSame self.old self.new }
    {
        self.stands(&job);
        match carry(
            &mut self.durable,
            alloc,
            ReplayCall::Done(job, reply, moment),
        ) {
            Ok(ReplayAnswer::Replayed(count)) => Ok(count),
            Ok(ReplayAnswer::Taken | ReplayAnswer::Next(_)) => unreachable!(),
            Err(Stop::DiskFault) => Err(BookError::DiskFault),
            Err(Stop::Changed(_)) => unreachable!(),
            Err(Stop::OutOfMemory) => Err(BookError::OutOfMemory),
        }
    }

    /// How many of the records that arrived are named: they were given up, a failure line names them, and the journal
    /// recorded no replay of them at opening. Takes no memory.
    pub fn named(&self) -> u32
        ensures { result ≡ named_count (setting_of self.now.core) }
    {
        self.durable.core().named()
    }

    /// Whether a call failed for good. Takes no memory.
    pub fn is_down(&self) -> bool
        ensures { result ≡ is_some self.now.trouble }
    {
        is_down(&self.durable)
    }

    /// Returns the first fault or change that a call reported; `None` if and only if there was none. Its clauses state
    /// the invariant of every book, whoever made its calls. Takes no memory.
    pub fn trouble(&self) -> Option<&Trouble>
        ensures value { option_copied result ≡ self.now.trouble }
        ensures cause { IsCause (Rose (D.faults self.now.found.used) (D.faults self.now.pair.used)) self.now.core.opened self.now.trouble }
        // The history, and what the journal has of it.
        ensures sound { IsSound self.now }
        ensures journal { HasJournal (disk D.Disk) self.now }
        // What a crash leaves of both disks: at any moment since the opening, and now.
        ensures images { LeavesFirst (disk D.Disk) self.now.found self.now.pair (payloads_in (setting_of self.now.core) (entries_left self.now)) }
        ensures kept { PairKeepsWhileUp (disk D.Disk) self.now.pair }
    {
        self.durable.trouble()
    }

    /// States what a crash leaves of the disks since a moment before they were opened, if each had one image then, as
    /// after a crash or a sync. Does nothing.
    pub fn since_before(&self, journal: &Snapshot<D>, spare: &Snapshot<D>)
        requires first { IsOnlyRead (disk D.Disk) journal.now.value (first_disk self.now.found) }
        requires second { IsOnlyRead (disk D.Disk) spare.now.value (second_disk self.now.found) }
        ensures { D.honest journal.now.value ≡ true → D.honest spare.now.value ≡ true →
            Only (D.content journal.now.value) (D.image journal.now.value) → Only (D.content spare.now.value) (D.image spare.now.value) → (one other : List ℕ) →
            D.image_since (first_disk self.now.pair) (D.moment journal.now.value) one →
            D.image_since (second_disk self.now.pair) (D.moment spare.now.value) other →
            OpensToFirst self.now.found.epoch self.now.found.payloads (payloads_in (setting_of self.now.core) (entries_left self.now)) one other }
    {
        self.durable.since_before(journal, spare);
    }

    /// Returns the history, what the journal said at opening, the first fault or change that a call reported, and the
    /// journal, as the calls left them. Takes no memory.
    pub fn into_parts(self) -> ReplayParts<D>
        ensures history { result.history.items ≡ reverse self.core.past }
        ensures said { result.said ≡ self.core.opened.said }
        ensures trouble { result.trouble ≡ self.trouble }
        ensures pair { result.pair ≡ self.pair }
    {
        let Replay { durable, count: _ } = self;
        let Parts {
            core,
            pair,
            dest: _,
            trouble,
        } = durable.into_parts();
        let (history, said) = core.into_parts();
        ReplayParts {
            history,
            said,
            trouble,
            pair,
        }
    }
}

// The book of a stream's mapping, over its journal and its failure destination.
ghost use Rattle.std.specs.Prelude.{◌≡◌, ◌↔◌, ◌<◌, ◌≤◌, ℕ, List, [], None, Some, true, false, is_ok, reverse, IfOk, IfErr, OnOk, OnErr, IsErrOf, IsSome};
ghost use Rattle.std.specs.Option.{option_copied};
ghost use Rattle.esm_io.specs.Faults.{Rose};
ghost use Rattle.esm_io.specs.Images.{Only};
ghost use Rattle.esm_io.specs.Meanings.{disk, destination};
ghost use Rattle.esm_journal.specs.Pair.{PairKeepsWhileUp, first_disk, second_disk};
ghost use Rattle.esm_journal.specs.Reads.{IsOnlyRead};
ghost use Rattle.esm_ledger.specs.Reading.{checkpoint_of, spread_of};
ghost use Rattle.esm_model.specs.declared.book.Change.{Change};
ghost use Rattle.esm_model.specs.declared.book.Trouble.TheVariants as trouble;
ghost use Rattle.esm_model.specs.declared.entry.Entry.TheVariants as entry;
ghost use Rattle.esm_model.specs.declared.setup.Setup.{Setup};
ghost use Rattle.esm_model.specs.Books.{stream_may_follow};
ghost use Rattle.esm_model.specs.Entries.{is_shut, calls_begun};
ghost use Rattle.esm_model.specs.Kept.{IsLegal};
ghost use Rattle.esm_model.specs.Pattern.{read_patterns};
ghost use Rattle.esm_model.specs.Valid.{IsStreamConfig, is_stream};
ghost use Rattle.esm_record_bounds.specs.Bounds.{AreWithinBounds};
ghost use Rattle.esm_stream_core.specs.Quiet.{IsQuiet, IsWanting};
ghost use Rattle.esm_stream_core.specs.CoreView.{full_setting, setting_with};
ghost use Rattle.esm_stream_core.specs.Calls.{moment_for, coming_lists, came_entries, Differs, IsResting, IsNextOver, IsRunningJob};
ghost use Rattle.esm_stream_core.specs.Calls.{ended_entries, given_by_end};
ghost use Rattle.esm_stream_core.specs.Told.{opened, told_of, MayCome};
ghost use Rattle.esm_book.specs.State.{in_hand};
ghost use Rattle.esm_stream_book.specs.Books.{OpensToFirst, LeavesFirst, payloads_in};
ghost use Rattle.esm_stream_book.specs.Calls.{AddedAll, AddedSome, AddedOne, RunsCall, IsSame, next_entries_now};
ghost use Rattle.esm_stream_book.specs.Keeping.{IsSound, IsSetupOf, IsCause, HasJournal, HasLines, entries_left};
ghost use Rattle.esm_stream_book.specs.Opening.{IsCoreOver, IsOpened, IsNotOpened};

use crate::carrying::{Stop, carry, is_down, keeps, note_end, note_shut};
use crate::opening::{read_filters, read_journal};
use esm_book::Durable;
use esm_io::{Dest, Disk};
use esm_journal::Pair;
use esm_model::book_laws::legal_is_kept;
use esm_model::{
    BookError, BookOpen, CameError, Config, Entry, Job, Next, OutOfMemory, Record, Refused, Reply,
    Trouble,
};
use esm_stream_core::{StreamAnswer, StreamCall, StreamCore};
use std::alloc::Global;
use std::marker::Model;
use std::snapshot::Snapshot;

/// What a stream's book is made of: its history, oldest entry first, its journal and its failure destination; and why it is
/// down, if it is.
#[derive(Drop)]
pub struct Parts<D: Disk, T> {
    pub history: Vec<Entry>,
    pub trouble: Option<Trouble>,
    pub pair: Pair<D>,
    pub dest: T,
}

/// The book of a stream's mapping: which records came, which are being called and what became of each, with each fate, state
/// and failed try in a journal of two files, and each failure line at a destination (Lambda Developer Guide, event source
/// mappings for Kinesis). After the first fault of a disk or of the destination, or the first record that came with another
/// sequence number than was kept of it, it is down.
///
/// Moments are in milliseconds since 1970. An entry has the moment that is handed in, or that of the last entry if that is
/// later, and at most 9999-12-31T23:59:59.999Z. Places count a shard's records from 0.
#[derive(Drop)]
pub struct Book<D: Disk, T: Dest> {
    pub(crate) durable: Durable<StreamCore, D, T>,
}

impl<D: Disk, T: Dest> Model for Book<D, T> {
    ghost use Rattle.esm_stream_book.specs.Books.{BookState};
    ghost use Rattle.esm_stream_book.specs.Keeping.{IsSound};

    ghost Value = { BookState D T };

    ghost view = { λ b. b.durable };

    ghost invariant = { λ b. IsSound b.durable };
}

/// The core of a book over a journal with these payloads.
fn open_over<D: Disk>(
    alloc: Global,
    config: Config,
    calls: u32,
    pair: &Pair<D>,
) -> Result<StreamCore, BookOpen>
    requires config { IsStreamConfig config }
    requires patterns { is_ok (read_patterns (is_stream config.kind) config.filters) ≡ true }
    ensures opened { IfOk result (IsCoreOver config calls pair.now.payloads) }
    ensures refused { IfErr result (IsNotOpened pair.now.payloads) }
{
    let said = read_journal(alloc, pair.payloads())?;
    let criteria = read_filters(alloc, &config)?;
    Ok(StreamCore::new(alloc, config, criteria, calls, said)?)
}

impl<D: Disk, T: Dest> Book<D, T> {
    /// Opens a book in which no record came, for `calls` calls in all, with the fates, tries, states and window tries that
    /// the journal has. Returns `BadPayload`, with the index of the first such payload, if one is bad for a book, and
    /// `OutOfMemory` if an allocation failed. The journal and the destination are as before, and a refusal returns them.
    pub fn open(
        alloc: Global,
        config: Config,
        calls: u32,
        pair: Pair<D>,
        dest: T,
    ) -> Result<Book<D, T>, Refused<BookOpen, (Pair<D>, T)>>
        requires config { IsStreamConfig config }
        requires patterns { is_ok (read_patterns (is_stream config.kind) config.filters) ≡ true }
        requires up { pair.down ≡ false }
        requires usable { T.failed dest ≡ false }
        ensures opened { IfOk result (IsOpened config calls pair dest) }
        ensures refused { IfErr result (λ refused. IsNotOpened pair.payloads refused.why) }
        ensures back { IfErr result (λ refused. refused.back ≡ (pair, dest)) }
    {
        match open_over(alloc, config, calls, &pair) {
            Ok(core) => Ok(Book {
                durable: Durable::new(core, pair, dest),
            }),
            Err(why) => Err(Refused {
                why,
                back: (pair, dest),
            }),
        }
    }

    /// Adds records that come: one `Came` for each shard of the list, in the order of first appearance; then, for each of
    /// them with records that fail the filter and have no found fate, their fate. A list with a record that came with
    /// another sequence number than was kept of it, with a fate or with tries, is refused whole: `StreamChanged` has the
    /// first such record. After `DiskFault` the entries that were written before the fault stay. After either the book is
    /// down. `Down` is returned if and only if an earlier call found trouble.
    pub fn came(&mut self, alloc: Global, items: Vec<Record>, moment: u64) -> Result<(), CameError>
        requires may { MayCome self.old.core items.items }
        // What is added, and what a crash leaves.
        ensures added { OnOk result (AddedAll (disk D.Disk)
            (destination T.Dest)
            (setting_with self.old.core.setting (coming_lists self.old.core items.items)) self.old self.new
            (came_entries self.old.core items.items (moment_for self.old.core.past moment))) }
        ensures stopped { IsErrOf result CameError.DiskFault → AddedSome (disk D.Disk)
            (destination T.Dest)
            (setting_with self.old.core.setting (coming_lists self.old.core items.items)) self.old self.new
            (came_entries self.old.core items.items (moment_for self.old.core.past moment)) trouble.Disk }
        // When each error is returned, and what it leaves.
        ensures cause { IsErrOf result CameError.DiskFault → Rose (D.faults self.old.pair.used) (D.faults self.new.pair.used) }
        ensures changed { (change : Change) → IsErrOf result (CameError.StreamChanged change) →
            (self.old.trouble ≡ None) × Differs self.old.core items.items change × (self.new ≡ record self.old { trouble = Some (trouble.Changed change) }) }
        ensures is_changed { (change : Change) → Differs self.old.core items.items change → (OnOk result ⊥) × (IsErrOf result CameError.DiskFault → ⊥) }
        ensures down { IsErrOf result CameError.Down ↔ IsSome self.old.trouble }
        ensures left { IsErrOf result CameError.Down → self.new ≡ self.old }
        ensures no_memory { IsErrOf result CameError.OutOfMemory → IsSame (destination T.Dest) self.old self.new }
    {
        if is_down(&self.durable) {
            return Err(CameError::Down);
        }
        match carry(&mut self.durable, alloc, StreamCall::Came(items, moment)) {
            Ok(_) => Ok(()),
            Err(Stop::DiskFault) => Err(CameError::DiskFault),
            Err(Stop::DestFault) => unreachable!(),
            Err(Stop::Changed(change)) => Err(CameError::StreamChanged(change)),
            Err(Stop::OutOfMemory) => Err(CameError::OutOfMemory),
        }
    }

    /// Adds the end of the input. Returns `Down` if and only if an earlier call found trouble, and no other error; the book
    /// is then as before. Takes no memory.
    pub fn shut(&mut self, moment: u64) -> Result<(), BookError>
        requires going { is_shut self.old.core.past ≡ false }
        ensures added { OnOk result (AddedOne self.old self.new (entry.Shut (moment_for self.old.core.past moment))) }
        ensures down { IsErrOf result BookError.Down ↔ IsSome self.old.trouble }
        ensures only_down { IfErr result (λ why. why ≡ BookError.Down) }
        ensures left { OnErr result (self.new ≡ self.old) }
    {
        if is_down(&self.durable) {
            return Err(BookError::Down);
        }
        note_shut(&mut self.durable, moment);
        Ok(())
    }

    /// Returns what the batcher does next, by the first rule that holds, and adds it: a call begins, or records that expire
    /// get their fate, after their failure line was delivered if a destination is set (Lambda Developer Guide, event source
    /// mappings for Kinesis: batching behavior, tumbling windows, error handling). No call of the batcher's lane may be
    /// running.
    pub fn next(&mut self, alloc: Global, batcher: u32, moment: u64) -> Result<Next, BookError>
        requires rests { IsResting self.old.core batcher }
        // What is answered and added, and what a crash leaves.
        ensures answer { IfOk result (IsNextOver self.old.core batcher (moment_for self.old.core.past moment)) }
        ensures added { OnOk result (AddedAll (disk D.Disk)
            (destination T.Dest)
            self.old.core.setting self.old self.new (next_entries_now self.old.core batcher moment)) }
        ensures stopped { IsErrOf result BookError.DiskFault → AddedSome (disk D.Disk)
            (destination T.Dest)
            self.old.core.setting self.old self.new (next_entries_now self.old.core batcher moment) trouble.Disk }
        ensures undelivered { IsErrOf result BookError.DestFault → AddedSome (disk D.Disk)
            (destination T.Dest)
            self.old.core.setting self.old self.new (next_entries_now self.old.core batcher moment) trouble.Dest }
        ensures runs { IfOk result (RunsCall batcher self.old.core self.new.core) }
        // When each error is returned, and what it leaves.
        ensures disk_cause { IsErrOf result BookError.DiskFault → Rose (D.faults self.old.pair.used) (D.faults self.new.pair.used) }
        ensures dest_cause { IsErrOf result BookError.DestFault → Rose (T.faults self.old.dest) (T.faults self.new.dest) }
        ensures down { IsErrOf result BookError.Down ↔ IsSome self.old.trouble }
        ensures left { IsErrOf result BookError.Down → self.new ≡ self.old }
        ensures no_memory { IsErrOf result BookError.OutOfMemory → IsSame (destination T.Dest) self.old self.new }
    {
        if is_down(&self.durable) {
            return Err(BookError::Down);
        }
        match carry(&mut self.durable, alloc, StreamCall::Next(batcher, moment)) {
            Ok(StreamAnswer::Next(next)) => Ok(next),
            Ok(StreamAnswer::Taken | StreamAnswer::Given(_)) => unreachable!(),
            Err(Stop::DiskFault) => Err(BookError::DiskFault),
            Err(Stop::DestFault) => Err(BookError::DestFault),
            Err(Stop::Changed(_)) => unreachable!(),
            Err(Stop::OutOfMemory) => Err(BookError::OutOfMemory),
        }
    }

    /// Adds the end of the job's call with this reply: its `Ended`, and then the fates, tries, states and closed windows
    /// that the reply requires. Returns how many records get a fate (Lambda Developer Guide, error handling for Kinesis). On
    /// a book that is down only the `Ended` is added, and `Down` is returned. The job is its lane's running one.
    pub fn done(
        &mut self,
        alloc: Global,
        job: Job,
        reply: Reply,
        moment: u64,
    ) -> Result<u32, BookError>
        requires runs { IsRunningJob self.old.core.past job }
        // What is answered and added, and what a crash leaves.
        ensures answer { IfOk result (λ count. count ≡ given_by_end self.old.core job.lane reply (moment_for self.old.core.past moment)) }
        ensures added { OnOk result (AddedAll (disk D.Disk)
            (destination T.Dest)
            self.old.core.setting self.old self.new (ended_entries self.old.core job.lane reply (moment_for self.old.core.past moment))) }
        ensures stopped { IsErrOf result BookError.DiskFault → AddedSome (disk D.Disk)
            (destination T.Dest)
            self.old.core.setting self.old self.new (ended_entries self.old.core job.lane reply (moment_for self.old.core.past moment)) trouble.Disk }
        ensures undelivered { IsErrOf result BookError.DestFault → AddedSome (disk D.Disk)
            (destination T.Dest)
            self.old.core.setting self.old self.new (ended_entries self.old.core job.lane reply (moment_for self.old.core.past moment)) trouble.Dest }
        ensures noted { IsErrOf result BookError.Down → AddedOne self.old self.new (entry.Ended job.lane reply (moment_for self.old.core.past moment)) }
        // When each error is returned, and what it leaves.
        ensures disk_cause { IsErrOf result BookError.DiskFault → Rose (D.faults self.old.pair.used) (D.faults self.new.pair.used) }
        ensures dest_cause { IsErrOf result BookError.DestFault → Rose (T.faults self.old.dest) (T.faults self.new.dest) }
        ensures down { IsErrOf result BookError.Down ↔ IsSome self.old.trouble }
        ensures no_memory { IsErrOf result BookError.OutOfMemory → IsSame (destination T.Dest) self.old self.new }
    {
        if is_down(&self.durable) {
            note_end(&mut self.durable, job, reply, moment);
            return Err(BookError::Down);
        }
        match carry(
            &mut self.durable,
            alloc,
            StreamCall::Done(job, reply, moment),
        ) {
            Ok(StreamAnswer::Given(count)) => Ok(count),
            Ok(StreamAnswer::Taken | StreamAnswer::Next(_)) => unreachable!(),
            Err(Stop::DiskFault) => Err(BookError::DiskFault),
            Err(Stop::DestFault) => Err(BookError::DestFault),
            Err(Stop::Changed(_)) => unreachable!(),
            Err(Stop::OutOfMemory) => Err(BookError::OutOfMemory),
        }
    }

    /// Whether the input ended. Takes no memory.
    pub fn is_shut(&self) -> bool
        ensures { result ≡ is_shut self.now.core.past }
    {
        self.durable.core().is_shut()
    }

    /// Whether all calls allowed began, also if the book is down. Takes no memory.
    pub fn is_spent(&self) -> bool
        ensures spent { result ≡ true → self.now.core.setting.calls ≤ calls_begun self.now.core.past }
        ensures going { result ≡ false → calls_begun self.now.core.past < self.now.core.setting.calls }
    {
        self.durable.core().is_spent()
    }

    /// Whether nothing is left for the batchers below the number, of a book that is not down: no record of their lanes is
    /// open, and no window of their shards is outstanding. `None` if nothing is decided any more. Takes no memory.
    pub fn is_over(&self, batchers: u32) -> Option<bool>
        requires up { self.now.trouble ≡ None }
        ensures over { result ≡ Some true → (k : ℕ) → k < batchers → IsQuiet self.now.core.setting self.now.core.past k }
        ensures left { result ≡ Some false → (k : ℕ) × (k < batchers) × IsWanting self.now.core.setting self.now.core.past k }
    {
        keeps(&self.durable);
        self.durable.core().is_over(batchers)
    }

    /// How many of the shard's first records all have a fate; `None` if and only if the shard has not come. Takes no memory.
    pub fn checkpoint(&self, shard: u64) -> Option<u32>
        ensures { result ≡ checkpoint_of self.now.core.setting self.now.core.past shard }
    {
        self.durable.core().checkpoint(shard)
    }

    /// How many of the shard's records past the checkpoint have a fate; `None` if and only if the shard has not come. Takes
    /// no memory.
    pub fn spread(&self, shard: u64) -> Option<u32>
        ensures { result ≡ spread_of self.now.core.setting self.now.core.past shard }
    {
        self.durable.core().spread(shard)
    }

    /// The first fault or change that a call returned; `None` if none did. Its clauses say what holds of any book, whoever
    /// made its calls. Takes no memory.
    pub fn trouble(&self) -> Option<&Trouble>
        ensures value { option_copied result ≡ self.now.trouble }
        ensures cause { IsCause (Rose (D.faults self.now.found.used) (D.faults self.now.pair.used))
            (Rose (T.faults self.now.found_dest) (T.faults self.now.dest)) (opened self.now.core) self.now.trouble }
        // The history, and what the devices have of it.
        ensures sound { IsSound self.now }
        ensures bounds { AreWithinBounds (full_setting self.now.core) }
        ensures settled { self.now.trouble ≡ None → self.now.core.owed ≡ [] }
        ensures hand { payloads_in (full_setting self.now.core) (in_hand self.now.trouble self.now.core.owed) ≡
            payloads_in self.now.core.setting (in_hand self.now.trouble self.now.core.owed) }
        ensures legal { (setup : Setup) → IsSetupOf setup self.now → IsLegal (stream_may_follow setup) (told_of self.now.core) }
        ensures journal { HasJournal (disk D.Disk) self.now }
        ensures lines { HasLines (destination T.Dest) self.now }
        // What a crash leaves: of both disks since the opening, and now.
        ensures images { LeavesFirst (disk D.Disk) (destination T.Dest)
            (full_setting self.now.core) self.now.found self.now.pair self.now.found_dest self.now.dest (entries_left self.now) }
        ensures kept { PairKeepsWhileUp (disk D.Disk) self.now.pair }
    {
        legal_is_kept();
        keeps(&self.durable);
        self.durable.trouble()
    }

    /// What a crash leaves of the disks since a moment before they were opened, if each had one image then, as after a crash
    /// or a sync. `journal` and `spare` are the disks at that moment. Does nothing.
    pub fn since_before(&self, journal: &Snapshot<D>, spare: &Snapshot<D>)
        requires first { IsOnlyRead (disk D.Disk) journal.now.value (first_disk self.now.found) }
        requires second { IsOnlyRead (disk D.Disk) spare.now.value (second_disk self.now.found) }
        ensures { D.honest journal.now.value ≡ true → D.honest spare.now.value ≡ true →
            Only (D.content journal.now.value) (D.image journal.now.value) → Only (D.content spare.now.value) (D.image spare.now.value) → (one other : List ℕ) →
            D.image_since (first_disk self.now.pair) (D.moment journal.now.value) one →
            D.image_since (second_disk self.now.pair) (D.moment spare.now.value) other →
            OpensToFirst (destination T.Dest) (full_setting self.now.core) self.now.found.epoch self.now.found.payloads
            self.now.found_dest self.now.dest (entries_left self.now) one other }
    {
        self.durable.since_before(journal, spare);
    }

    /// The history, the first fault or change that a call returned, the journal and the destination, as the calls left them.
    /// Takes no memory.
    pub fn into_parts(self) -> Parts<D, T>
        ensures history { result.history.items ≡ reverse self.core.past }
        ensures trouble { result.trouble ≡ self.trouble }
        ensures pair { result.pair ≡ self.pair }
        ensures dest { result.dest ≡ self.dest }
    {
        let Book { durable } = self;
        let esm_book::Parts {
            core,
            pair,
            dest,
            trouble,
        } = durable.into_parts();
        Parts {
            history: core.into_history(),
            trouble,
            pair,
            dest,
        }
    }
}

// Reading what a journal's payloads say of a queue, the ids of its dead-letter file, and the filter of its mapping.
ghost use Rattle.std.specs.Prelude.{◌≡◌, ◌≤◌, false, true, is_ok, IfOk, IfErr, OnOk, length, reverse};
ghost use Rattle.esm_filter.specs.Criteria.{JudgesMessages};
ghost use Rattle.esm_journal_state.specs.Meaning.{history, are_good};
ghost use Rattle.esm_journal_state.specs.SaidLists.{IsInOrder};
ghost use Rattle.esm_journal_state.specs.Tells.{Tells};
ghost use Rattle.esm_model.specs.Pattern.{read_patterns};
ghost use Rattle.esm_model.specs.QueueEvent.{IsQueueConfig};
ghost use Rattle.esm_model.specs.Valid.{is_stream};
ghost use Rattle.esm_redrive.specs.declared.limited.TheConstants.{MAX_RECEIVES};
ghost use Rattle.esm_redrive.specs.DeadFile.{AreLetters, dead_ids};
ghost use Rattle.esm_redrive_model.specs.RedriveSetting.{HaveSameIds};
ghost use Rattle.esm_queue_model.specs.QueueSetting.{is_fifo};
ghost use Rattle.esm_redrive_book.specs.Opening.{IsCoreOver, IsOpened, IsNotOpened, IsBadJournal, IsBadFile};

use crate::open_error::{RedriveOpen, RedriveRefused};
use crate::redrive_book::Redrive;
use esm_filter::{Criteria, FilterError};
use esm_io::Disk;
use esm_journal::{FileDest, Journal, Pair};
use esm_journal_state::{Says, SaysError, says};
use esm_model::{Bytes, Config, Kind, OutOfMemory};
use esm_redrive::{DeadFileError, DeadIds, dead_ids};
use esm_redrive_core::RedriveCore;
use std::alloc::Global;

fn is_fifo(kind: Kind) -> bool
    ensures { result ≡ is_fifo kind }
{
    match kind {
        Kind::Fifo => true,
        Kind::Standard | Kind::Stream => false,
    }
}

/// What the payloads of the journal say; the payloads are oldest first.
fn read_journal(alloc: Global, payloads: &[Bytes]) -> Result<Says, RedriveOpen>
    ensures told { IfOk result (λ said. Tells said (history (reverse payloads.now))) }
    ensures order { IfOk result (λ said. IsInOrder said) }
    ensures good { OnOk result (are_good (reverse payloads.now) ≡ true) }
    ensures bad { IfErr result (IsBadJournal payloads.now) }
{
    match says(alloc, payloads) {
        Ok(said) => Ok(said),
        Err(SaysError::BadPayload(index)) => Err(RedriveOpen::BadPayload(index)),
        Err(SaysError::OutOfMemory) => Err(RedriveOpen::OutOfMemory),
    }
}

/// The ids of the lines of the dead-letter file.
fn read_letters(alloc: Global, fifo: bool, lines: &[Bytes]) -> Result<DeadIds, RedriveOpen>
    ensures ids { IfOk result (λ ids. HaveSameIds ids (dead_ids fifo lines.now)) }
    ensures good { OnOk result (AreLetters fifo lines.now (length lines.now)) }
    ensures bad { IfErr result (IsBadFile fifo lines.now) }
{
    if lines.len() >= u32::MAX as usize {
        return Err(RedriveOpen::OutOfMemory);
    }
    match dead_ids(alloc, fifo, lines) {
        Ok(ids) => Ok(ids),
        Err(DeadFileError::BadLine(index)) => Err(RedriveOpen::BadLine(index)),
        Err(DeadFileError::OutOfMemory) => Err(RedriveOpen::OutOfMemory),
    }
}

/// The filter of a mapping whose texts are patterns.
fn read_filters(alloc: Global, config: &Config) -> Result<Criteria, OutOfMemory>
    requires config { IsQueueConfig config.now }
    requires patterns { is_ok (read_patterns (is_stream config.now.kind) config.now.filters) ≡ true }
    ensures { IfOk result (λ criteria. JudgesMessages config.now.kind config.now.filters criteria) }
{
    match Criteria::read(alloc, config.kind, config.filters.as_slice()) {
        Ok(criteria) => Ok(criteria),
        Err(FilterError::BadPattern { .. }) => unreachable!(),
        Err(FilterError::OutOfMemory) => Err(OutOfMemory),
    }
}

/// The core of a redrive over a journal with these payloads and a dead-letter file with these lines.
fn core_over(
    alloc: Global,
    config: Config,
    calls: u32,
    visibility_ms: u64,
    max_receives: u32,
    payloads: &[Bytes],
    lines: &[Bytes],
) -> Result<RedriveCore, RedriveOpen>
    requires config { IsQueueConfig config }
    requires patterns { is_ok (read_patterns (is_stream config.kind) config.filters) ≡ true }
    requires some { 1 ≤ max_receives }
    requires few { max_receives ≤ MAX_RECEIVES }
    ensures opened { IfOk result (IsCoreOver config calls visibility_ms max_receives payloads.now lines.now) }
    ensures refused { IfErr result (IsNotOpened config payloads.now lines.now) }
{
    let said = read_journal(alloc, payloads)?;
    let dead = read_letters(alloc, is_fifo(config.kind), lines)?;
    let criteria = read_filters(alloc, &config)?;
    Ok(RedriveCore::new(
        alloc,
        config,
        criteria,
        calls,
        visibility_ms,
        max_receives,
        said,
        dead,
    )?)
}

/// Opens a redrive in which no message has arrived, for `calls` calls in all, with the deletions that the journal
/// recorded and the ids of the lines in the dead-letter file. `visibility_ms` is the visibility timeout in milliseconds,
/// and `max_receives`, 1 to 1,000, is how often a message may be received. `BadPayload`: a payload of the journal is bad
/// for a book; it names the first such one. `BadLine`: no payload of the journal is bad, and a payload of the dead-letter
/// file is not a line of the queue's kind; it names the first such one. The journal and the dead-letter file are only
/// read, and an error gives them back.
pub fn open_redrive<D: Disk>(
    alloc: Global,
    config: Config,
    calls: u32,
    visibility_ms: u64,
    max_receives: u32,
    pair: Pair<D>,
    dead: Journal<D>,
) -> Result<Redrive<D, FileDest<D>>, RedriveRefused<D>>
    requires config { IsQueueConfig config }
    requires patterns { is_ok (read_patterns (is_stream config.kind) config.filters) ≡ true }
    requires some { 1 ≤ max_receives }
    requires few { max_receives ≤ MAX_RECEIVES }
    requires up { pair.down ≡ false }
    requires usable { dead.down ≡ false }
    ensures opened { IfOk result (IsOpened config calls visibility_ms max_receives dead.payloads pair dead) }
    ensures refused { IfErr result (λ refused. IsNotOpened config pair.payloads dead.payloads refused.why) }
    ensures pair_back { IfErr result (λ refused. refused.pair ≡ pair) }
    ensures dead_back { IfErr result (λ refused. refused.dead ≡ dead) }
{
    match core_over(
        alloc,
        config,
        calls,
        visibility_ms,
        max_receives,
        pair.payloads(),
        dead.payloads(),
    ) {
        Ok(core) => Ok(Redrive::over(core, pair, FileDest::new(dead))),
        Err(why) => Err(RedriveRefused { why, pair, dead }),
    }
}

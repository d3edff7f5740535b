// What the commands print.
ghost use Rattle.std.specs.Prelude.{◌≡◌, ◌++◌, codes, IfOk, OnOk};
ghost use Rattle.esm_model.specs.Numbers.{decimal};
ghost use Rattle.esm_folder.specs.UpkeepText.{deleted_line, file_name, line, shard_lines, shard_text, summary_lines, upkeep_text};

use crate::ending::{JournalFile, UpkeepEnd};
use crate::summary::{ShardSummary, Summary};
use esm_event::bytes::push_bytes;
use esm_event::digits::push_decimal;
use esm_event::record::push_shard_id;
use esm_model::OutOfMemory;
use std::alloc::Global;

/// What a command over a folder's journals prints: its lines, and the last line.
pub fn upkeep_text(alloc: Global, end: &UpkeepEnd) -> Result<Vec<u8>, OutOfMemory>
    ensures { IfOk result (λ text. text.items ≡ upkeep_text end.now) }
{
    let mut out = Vec::new(alloc);
    push_end(&mut out, end)?;
    Ok(out)
}

fn push_end(out: &mut Vec<u8>, end: &UpkeepEnd) -> Result<(), OutOfMemory>
    ensures { OnOk result (out.new.items ≡ out.old.items ++ upkeep_text end.now) }
{
    match end {
        UpkeepEnd::Shown(summary) => push_summary(out, summary),
        UpkeepEnd::Listed { lines } => push_lines(out, lines.as_slice()),
        UpkeepEnd::Compacted { before, after } => push_compacted(out, *before, *after),
        UpkeepEnd::Migrated { count } => push_migrated(out, *count),
        UpkeepEnd::WasVersion2 => push_bytes(out, b"version 2\ndone\n"),
        UpkeepEnd::NotAJournal { file } => push_not_a_journal(out, *file),
        UpkeepEnd::Damaged { file, place } => push_at(out, b"damaged ", *file, *place),
        UpkeepEnd::BadPayload { file, index } => {
            push_at(out, b"bad payload ", *file, u64::from(*index))
        }
        UpkeepEnd::DiskFault => push_bytes(out, b"disk fault\n"),
    }
}

fn push_shard(out: &mut Vec<u8>, shard: &ShardSummary) -> Result<(), OutOfMemory>
    ensures { OnOk result (out.new.items ≡ out.old.items ++ line (shard_text shard.now)) }
{
    push_bytes(out, b"shard ")?;
    push_shard_id(out, shard.shard)?;
    push_bytes(out, b" given ")?;
    push_decimal(out, u64::from(shard.given))?;
    push_bytes(out, b" frontier ")?;
    push_decimal(out, u64::from(shard.frontier))?;
    push_bytes(out, b"\n")?;
    Ok(())
}

fn push_shards(out: &mut Vec<u8>, shards: &[ShardSummary]) -> Result<(), OutOfMemory>
    ensures { OnOk result (out.new.items ≡ out.old.items ++ shard_lines shards.now) }
{
    for shard in shards {
        push_shard(out, shard)?;
    }
    Ok(())
}

fn push_deleted_line(out: &mut Vec<u8>, deleted: u32) -> Result<(), OutOfMemory>
    ensures { OnOk result (out.new.items ≡ out.old.items ++ line (codes "queue deleted " ++ decimal deleted)) }
{
    push_bytes(out, b"queue deleted ")?;
    push_decimal(out, u64::from(deleted))?;
    push_bytes(out, b"\n")?;
    Ok(())
}

fn push_deleted(out: &mut Vec<u8>, deleted: u32) -> Result<(), OutOfMemory>
    ensures { OnOk result (out.new.items ≡ out.old.items ++ deleted_line deleted) }
{
    if deleted == 0 {
        return Ok(());
    }
    push_deleted_line(out, deleted)
}

fn push_summary(out: &mut Vec<u8>, summary: &Summary) -> Result<(), OutOfMemory>
    ensures { OnOk result (out.new.items ≡ out.old.items ++ (summary_lines summary.now ++ codes "done\n")) }
{
    push_shards(out, &summary.shards)?;
    push_deleted(out, summary.deleted)?;
    push_bytes(out, b"done\n")?;
    Ok(())
}

fn push_lines(out: &mut Vec<u8>, lines: &[u8]) -> Result<(), OutOfMemory>
    ensures { OnOk result (out.new.items ≡ out.old.items ++ (lines.now ++ codes "done\n")) }
{
    push_bytes(out, lines)?;
    push_bytes(out, b"done\n")?;
    Ok(())
}

fn push_compacted(out: &mut Vec<u8>, before: u64, after: u64) -> Result<(), OutOfMemory>
    ensures { OnOk result (out.new.items ≡ out.old.items
        ++ (codes "compacted " ++ decimal before ++ codes " to " ++ decimal after ++ codes "\ndone\n")) }
{
    push_bytes(out, b"compacted ")?;
    push_decimal(out, before)?;
    push_bytes(out, b" to ")?;
    push_decimal(out, after)?;
    push_bytes(out, b"\ndone\n")?;
    Ok(())
}

fn push_migrated(out: &mut Vec<u8>, count: u64) -> Result<(), OutOfMemory>
    ensures { OnOk result (out.new.items ≡ out.old.items ++ (codes "migrated " ++ decimal count ++ codes "\ndone\n")) }
{
    push_bytes(out, b"migrated ")?;
    push_decimal(out, count)?;
    push_bytes(out, b"\ndone\n")?;
    Ok(())
}

fn push_not_a_journal(out: &mut Vec<u8>, file: JournalFile) -> Result<(), OutOfMemory>
    ensures { OnOk result (out.new.items ≡ out.old.items ++ (codes "not a journal " ++ file_name file ++ codes "\n")) }
{
    push_bytes(out, b"not a journal ")?;
    push_bytes(out, file.name().as_bytes())?;
    push_bytes(out, b"\n")?;
    Ok(())
}

/// Appends what is wrong with a file, its name, and the place or the index.
fn push_at(
    out: &mut Vec<u8>,
    wrong: &[u8],
    file: JournalFile,
    place: u64,
) -> Result<(), OutOfMemory>
    ensures { OnOk result (out.new.items ≡ out.old.items
        ++ (wrong.now ++ file_name file ++ codes " " ++ decimal place ++ codes "\n")) }
{
    push_bytes(out, wrong)?;
    push_bytes(out, file.name().as_bytes())?;
    push_bytes(out, b" ")?;
    push_decimal(out, place)?;
    push_bytes(out, b"\n")?;
    Ok(())
}

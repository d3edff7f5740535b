// Which of a shard's records that come fail the filter, and which stay open.
ghost use Rattle.std.specs.Prelude.{◌≡◌, ◌+◌, ◌<◌, IfOk, length};
ghost use Rattle.esm_model.specs.Setting.{Setting};
ghost use Rattle.esm_ingest.specs.Parts.{is_refused_at, refused_from};
ghost use Rattle.esm_ingest.specs.Judged.{IsJudgedBy, is_refusal, is_staying, is_staying_at, staying_from};

use esm_filter::{Criteria, Work};
use esm_journal_state::Says;
use esm_model::{OutOfMemory, Record};
use std::alloc::Global;

/// What becomes of a record that comes.
#[derive(Clone, Copy)]
enum Standing {
    /// It has a found fate.
    Fated,
    /// It has none and fails the filter.
    Refused,
    /// It has none and passes the filter.
    Staying,
}

/// The places of a shard's records that have no found fate, rising.
#[derive(Drop)]
pub struct Judged {
    /// Of those that fail the filter.
    pub refused: Vec<u32>,
    /// Of those that pass it, and so stay open.
    pub staying: Vec<u32>,
}

/// What becomes of the shard's record at the place.
fn standing_of(
    alloc: Global,
    said: &Says,
    criteria: &Criteria,
    work: &mut Work,
    shard: u64,
    place: u32,
    item: &Record,
) -> Result<Standing, OutOfMemory>
    ensures refused { IfOk result (λ x. (s : Setting) → IsJudgedBy s said.now criteria.now → is_refusal x ≡ is_refused_at s shard place item.now) }
    ensures staying { IfOk result (λ x. (s : Setting) → IsJudgedBy s said.now criteria.now → is_staying x ≡ is_staying_at s shard place item.now) }
{
    match said.fate(shard, place) {
        Some(_) => Ok(Standing::Fated),
        None => {
            if criteria.passes_record(alloc, work, item)? {
                Ok(Standing::Staying)
            } else {
                Ok(Standing::Refused)
            }
        }
    }
}

/// The places of the shard's records, from the place `from` on, that have no found fate: of those that fail the filter,
/// and of those that pass it.
pub fn judge(
    alloc: Global,
    said: &Says,
    criteria: &Criteria,
    work: &mut Work,
    shard: u64,
    from: u32,
    items: &[Record],
) -> Result<Judged, OutOfMemory>
    requires { from + length items.now < 4294967296 }
    ensures refused { IfOk result (λ j. (s : Setting) → IsJudgedBy s said.now criteria.now → j.refused.items ≡ refused_from s shard from items.now) }
    ensures staying { IfOk result (λ j. (s : Setting) → IsJudgedBy s said.now criteria.now → j.staying.items ≡ staying_from s shard from items.now) }
{
    let mut refused = Vec::new(alloc);
    let mut staying = Vec::new(alloc);
    for (i, item) in items.iter().enumerate() {
        let place = from + i as u32;
        let standing = standing_of(alloc, said, criteria, work, shard, place, item)?;
        match standing {
            Standing::Fated => {}
            Standing::Refused => refused.push(place)?,
            Standing::Staying => staying.push(place)?,
        }
    }
    Ok(Judged { refused, staying })
}

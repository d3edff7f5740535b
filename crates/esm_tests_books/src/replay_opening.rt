// Tests of opening a replay's book over disks in memory, and of the reasons why it does not open.
ghost use Rattle.std.specs.Prelude.{◌≡◌, false, IfOk};

use crate::stream_lanes::mapping;
use esm_fixtures::fresh_pair;
use esm_io::MemDisk;
use esm_journal::Pair;
use esm_model::Bytes;
use esm_replay_book::{Replay, ReplayOpen};
use std::alloc::Global;
use std::test::Fail;

/// A line of a failure file that names the records 1 and 2.
const LINE: &str =
    r#"{"KinesisBatchInfo":{"shardId":"shardId-000000000000","startSequenceNumber":"1","endSequenceNumber":"2"}}"#;

/// A journal with this payload.
fn journal_of(alloc: Global, payload: &[u8]) -> Result<Pair<MemDisk>, Fail>
    ensures { IfOk result (λ pair. pair.down ≡ false) }
{
    let mut pair = fresh_pair(alloc, &[])?;
    match pair.append(alloc, payload) {
        Ok(()) => Ok(pair),
        Err(_) => Err("no payload".into()),
    }
}

/// Why the book of a replay does not open over the journal and this line, if it does not.
fn refusal(alloc: Global, pair: Pair<MemDisk>, line: &str) -> Result<Option<ReplayOpen>, Fail>
    requires { pair.down ≡ false }
{
    let config = mapping(alloc)?;
    let mut lines = Vec::new(alloc);
    lines.push(Bytes::from_vec(Vec::from_slice(alloc, line.as_bytes())?))?;
    match Replay::open(alloc, config, 10, pair, lines.as_slice()) {
        Ok(_) => Ok(None),
        Err(refused) => Ok(Some(refused.why)),
    }
}

/// A bad payload is reported before a line that names no records.
#[test]
fn replay_opens(rt: HostRuntime) -> Result<(), Fail> {
    let alloc = rt.alloc();
    assert!(rt; refusal(alloc, fresh_pair(alloc, &[])?, LINE)?.is_none());
    let bad_line = refusal(alloc, fresh_pair(alloc, &[])?, "{}")?;
    assert!(rt; bad_line == Some(ReplayOpen::BadLine(0)));
    let bad_payload = refusal(alloc, journal_of(alloc, b"?")?, "{}")?;
    assert!(rt; bad_payload == Some(ReplayOpen::BadPayload(0)));
    Ok(())
}

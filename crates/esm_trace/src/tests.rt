// Tests: the line of a call's end, the text of a short history, and the order of its replies.
use crate::{Batchers, in_order, push_entry, push_trace};
use esm_model::{Bytes, Entry, Kind, LaneId, PastReply, Reply};
use std::test::Fail;

#[test]
fn line_of_an_end(rt: HostRuntime) -> Result<(), Fail> {
    let alloc = rt.alloc();
    let reply = Reply::Answered {
        status: 200,
        error: true,
        body: Bytes::from_vec(vec![in alloc; b'{', b'}']?),
    };
    let ended = Entry::Ended {
        lane: LaneId { shard: 1, lane: 2 },
        reply: PastReply::of(&reply),
        moment: 7,
    };
    let mut out = Vec::new(alloc);
    push_entry(&mut out, Kind::Stream, &ended, Some(&reply))?;
    let line =
        b"{\"at\":7,\"entry\":\"ended\",\"shard\":\"shardId-000000000001\",\"lane\":2,\"status\":200,\"error\":true,\"body\":\"e30=\"}\n";
    assert_eq!(rt; out.as_slice(), line.as_slice());
    Ok(())
}

#[test]
fn text_of_a_history(rt: HostRuntime) -> Result<(), Fail> {
    let alloc = rt.alloc();
    let came = Entry::Came {
        shard: 0,
        first: 0,
        count: 1,
        moment: 9,
    };
    let history = vec![in alloc; came, Entry::Shut { moment: 10 }]?;
    let replies = Vec::new(alloc);
    let mut out = Vec::new(alloc);
    push_trace(&mut out, Kind::Fifo, &history, &replies)?;
    let text =
        b"{\"at\":9,\"entry\":\"came\",\"shard\":\"queue\",\"first\":0,\"count\":1}\n{\"at\":10,\"entry\":\"shut\"}\n";
    assert_eq!(rt; out.as_slice(), text.as_slice());
    Ok(())
}

#[test]
fn replies_of_a_queue(rt: HostRuntime) -> Result<(), Fail> {
    let alloc = rt.alloc();
    let ended = Entry::Ended {
        lane: LaneId { shard: 0, lane: 1 },
        reply: PastReply::of(&Reply::Lost),
        moment: 3,
    };
    let history = vec![in alloc; ended]?;
    let kept = vec![in alloc; Vec::new(alloc), vec![in alloc; Reply::Lost]?]?;
    let replies = in_order(alloc, Batchers::OfQueue, &history, kept)?;
    assert_eq!(rt; replies.len(), 1);
    Ok(())
}

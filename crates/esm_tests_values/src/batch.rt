// Tests: where a batch is cut, by the payload limit and by the batching window.
use esm_next::{Cut, Limits, SizedItem, Why, cut};
use std::alloc::Global;
use std::test::Fail;

/// How many bytes an event's elements and commas may have: 6,291,456 less those of `{"Records":[` and `]}`.
const PAYLOAD: u32 = 6_291_442;

/// An item of 801 bytes that arrived at moment 0.
const ITEM: SizedItem = SizedItem {
    bytes: 801,
    came: 0,
    arrival: 0,
    window: 0,
};

/// The cut without a limit of age; `None` if the first item does not fit the payload, or there is none.
fn cut_of_any_age(
    items: &[SizedItem],
    count: u32,
    window_ms: u64,
    shut: bool,
    now: u64,
) -> Option<Cut> {
    let limits = Limits {
        count,
        payload: PAYLOAD,
        window_ms,
        age_ms: None,
        shut,
    };
    match items {
        [first, ..] if first.bytes <= PAYLOAD => Some(cut(items, &limits, now)),
        _ => None,
    }
}

/// The cut of what is left of 10,000 items without the first `first`.
fn cut_of_rest(alloc: Global, first: usize) -> Result<Option<Cut>, Fail> {
    let items = vec![in alloc; ITEM; 10_000]?;
    let rest = items.as_slice().get(first..).ok_or("no rest")?;
    Ok(cut_of_any_age(rest, 10_000, 0, false, 0))
}

#[test]
fn payload_limit(rt: HostRuntime) -> Result<(), Fail> {
    let rows = [(0, 7_844, Why::Full), (7_844, 2_156, Why::Waited)];
    for (first, count, why) in rows {
        assert_eq!(rt; cut_of_rest(rt.alloc(), first)?, Some(Cut { count, why }));
    }
    Ok(())
}

/// How many of two items are there, whether the input ended, the moment, and how many are cut and why.
const WINDOW: [(usize, bool, u64, u32, Why); 5] = [
    (1, false, 0, 1, Why::Waiting { until: 1_000 }),
    (1, false, 999, 1, Why::Waiting { until: 1_000 }),
    (1, false, 1_000, 1, Why::Waited),
    (2, false, 0, 2, Why::Full),
    (1, true, 0, 1, Why::Shut),
];

#[test]
fn batching_window(rt: HostRuntime) -> Result<(), Fail> {
    for (items, shut, now, count, why) in WINDOW {
        let items = [ITEM; 2].as_slice().get(..items).ok_or("two items")?;
        let cut = cut_of_any_age(items, 2, 1_000, shut, now);
        assert_eq!(rt; cut, Some(Cut { count, why }));
    }
    Ok(())
}

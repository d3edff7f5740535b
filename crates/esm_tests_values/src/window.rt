//! The worked example `state-spans`, and the window of a moment.
use esm_window::{StateRead, read_state, window_of};
use std::test::Fail;

const fn span(from: usize, to: usize) -> StateRead {
    StateRead::Span { from, to }
}

#[test]
fn state_spans(rt: HostRuntime) -> Result<(), Fail> {
    let rows = [
        ("{\"state\": {\"a\" : 1},\"x\":2}", span(10, 19)),
        ("{\"state\":7}", StateRead::Bad),
        ("x", StateRead::Bad),
        ("null", StateRead::Empty),
        ("{}", StateRead::Empty),
        ("{\"\\u0073tate\":{},\"x\":{\"state\":1}}", span(14, 16)),
    ];
    for (body, expected) in rows {
        assert_eq!(rt; read_state(rt.alloc(), body.as_bytes())?, expected);
    }
    Ok(())
}

#[test]
fn windows(rt: HostRuntime) {
    assert_eq!(rt; window_of(12_345, 0, 10_000), 10_000);
    assert_eq!(rt; window_of(12_345, 20_000, 10_000), 20_000);
}

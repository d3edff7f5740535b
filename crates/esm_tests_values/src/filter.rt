// The worked examples of filter patterns, and rows for each operator.
use esm_filter::{Criteria, FilterError, PatternError, Work};
use esm_fixtures::{message_of, record_of, text};
use esm_model::Kind;
use std::alloc::Global;
use std::test::Fail;

/// A pattern, the data of a record, and whether the record passes. The first three are the example `filtered-data`.
const RECORDS: &str = r#"{"data":{"n":[1]}} | Hello | fails
{"data":{"n":[1]}} | {"n":1} | passes
{"partitionKey":["1"]} | Hello | passes
{"data":{"a":[{"prefix":"x"}]}} | {"a":["no","xy"]} | passes
{"data":{"a":[{"prefix":"xy"}]}} | {"a":"zxy"} | fails
{"data":{"a":[{"prefix":"xy"}]}} | {"a":"x"} | fails
{"data":{"a":[{"suffix":"yz"}]}} | {"a":"xyz"} | passes
{"data":{"a":[{"suffix":"yz"}]}} | {"a":"yz"} | passes
{"data":{"a":[{"suffix":"yz"}]}} | {"a":"yzx"} | fails
{"data":{"a":[{"suffix":"yz"}]}} | {"a":"z"} | fails
{"data":{"a":[{"equals-ignore-case":"Ab"}]}} | {"a":"aB"} | passes
{"data":{"a":[{"equals-ignore-case":"Ab"}]}} | {"a":"Abc"} | fails
{"data":{"a":[{"equals-ignore-case":"É"}]}} | {"a":"é"} | fails
{"data":{"a":[{"anything-but":["x",1]}]}} | {"a":"x"} | fails
{"data":{"a":[{"anything-but":["x",1]}]}} | {"a":1} | fails
{"data":{"a":[{"anything-but":["x",1]}]}} | {"a":["x",1]} | fails
{"data":{"a":[{"anything-but":["x",1]}]}} | {"a":["x","y"]} | passes
{"data":{"a":[{"anything-but":["x",1]}]}} | {"a":1.5} | passes
{"data":{"a":[{"anything-but":["x",1]}]}} | {"a":null} | passes
{"data":{"a":[{"anything-but":["x",1]}]}} | {"a":true} | passes
{"data":{"a":[{"anything-but":["x",1]}]}} | {"a":[]} | fails
{"data":{"a":[{"anything-but":["x",1]}]}} | {"a":{}} | fails
{"data":{"a":[{"anything-but":["x",1]}]}} | {} | fails
{"data":{"a":[{"exists":false}]}} | {} | passes
{"data":{"a":[{"exists":false}]}} | {"a":{}} | passes
{"data":{"a":[{"exists":false}]}} | {"a":[]} | passes
{"data":{"a":[{"exists":false}]}} | {"a":[{},[1]]} | passes
{"data":{"a":[{"exists":false}]}} | {"a":[1]} | fails
{"data":{"a":[{"exists":false}]}} | {"a":null} | fails
{"data":{"a":[{"exists":false}]}} | 7 | passes
{"data":{"a":[{"exists":false}]}} | Hello | fails
{"data":{"a":[{"exists":true}]}} | {"a":{}} | fails
{"data":{"a":[{"exists":true}]}} | {"a":[]} | fails
{"data":{"a":[{"exists":true}]}} | {"a":[[],0]} | passes
{"data":{"a":[{"exists":true}]}} | {"a":null} | passes
{"data":{"a":{"b":[{"exists":false}]}}} | {"a":7} | passes
{"data":{"a":[null]}} | {"a":null} | passes
{"data":{"a":[null]}} | {} | fails
{"data":{"a":["x",false]}} | {"a":false} | passes
{"data":{"a":["x",false]}} | {"a":true} | fails
{"data":{"a":[1],"b":[2]}} | {"a":1,"b":2} | passes
{"data":{"a":[1],"b":[2]}} | {"a":1} | fails
{"data":{"n":[{"numeric":[">",0,"<=",5]}]}} | {"n":0} | fails
{"data":{"n":[{"numeric":[">",0,"<=",5]}]}} | {"n":1} | passes
{"data":{"n":[{"numeric":[">",0,"<=",5]}]}} | {"n":5} | passes
{"data":{"n":[{"numeric":[">",0,"<=",5]}]}} | {"n":6} | fails
{"data":{"n":[{"numeric":[">=",0,"<",5]}]}} | {"n":0} | passes
{"data":{"n":[{"numeric":[">=",0,"<",5]}]}} | {"n":5} | fails
{"data":{"n":[{"numeric":["=",7]}]}} | {"n":[1,7]} | passes
{"data":{"n":[{"numeric":["=",7]}]}} | {"n":"7"} | fails
{"data":{"n":[{"numeric":["<=",9223372036854775807]}]}} | {"n":9223372036854775807} | passes
{"data":{"n":[{"numeric":["<=",9223372036854775807]}]}} | {"n":9223372036854775808} | fails
{"data":{"n":[{"numeric":[">=",-9223372036854775808]}]}} | {"n":-9223372036854775808} | passes
{"data":{"n":[{"numeric":[">=",-9223372036854775808]}]}} | {"n":-9223372036854775809} | fails
{"data":{"n":[{"numeric":["<",2000]}]}} | {"n":1e3} | fails
{"data":{"n":[{"numeric":["<",2000]}]}} | {"n":-0} | fails
{"data":{"n":[{"numeric":["<",2000]}]}} | {"n":0} | passes
{"data":{"n":[1000]}} | {"n":1e3} | fails
{"data":{"n":[{"exists":true}]}} | {"n":1e3} | passes
{"data":{"n":[{"anything-but":1000}]}} | {"n":1e3} | passes
{"data":{"n":[0]}} | {"n":-0} | fails
{"data":{"n":[{"anything-but":0}]}} | {"n":-0} | passes
{"data":{"$or":[{"a":[1]},{"b":[2]}]}} | {"b":2} | passes
{"data":{"$or":[{"a":[1],"$or":[{"b":[2]},{"c":[3]}]},{"d":[4]}]}} | {"a":1,"c":3} | passes
{"data":{"$or":[{"a":[1],"$or":[{"b":[2]},{"c":[3]}]},{"d":[4]}]}} | {"d":4} | passes
{"data":{"$or":[{"a":[1],"$or":[{"b":[2]},{"c":[3]}]},{"d":[4]}]}} | {"a":1} | fails
{"data":{"$or":[{"a":[1],"$or":[{"b":[2]},{"c":[3]}]},{"d":[4]}]}} | {"b":2,"c":3} | fails
{"$or":[{"partitionKey":["2"]},{"data":{"a":[1]}}]} | {"a":1} | passes
{"$or":[{"partitionKey":["2"]},{"data":{"a":[1]}}]} | Hello | fails
{"$or":[{"partitionKey":["1"]},{"data":{"a":[1]}}]} | Hello | passes
{"data":{"a":[1]}} | {"a":1,"a":2} | fails
{"data":{"a":[2]}} | {"a":1,"a":2} | passes
{"data":{"a":[],"a":[1]}} | {"a":1} | passes
{"kinesisSchemaVersion":["1.0"],"sequenceNumber":["1"]} | Hello | passes
{"eventID":[{"exists":false}]} | Hello | passes
{"eventID":[{"anything-but":"x"}]} | Hello | fails
{"eventID":{"a":[{"exists":false}]}} | Hello | passes"#;

/// A pattern, the body of the message `m-1`, and whether the message passes.
const MESSAGES: &str = r#"{"messageId":["m-1"]} | Hello | passes
{"messageId":["m-2"]} | Hello | fails
{"body":{"n":[1]}} | {"n":1} | passes
{"body":{"n":[1]}} | {"n":2} | fails
{"body":{"n":[{"exists":false}]}} | 7 | passes
{"body":{"n":[{"exists":false}]}} | Hello | fails
{"body":["Hello"]} | Hello | passes
{"body":["1"]} | 1 | passes
{"body":[1]} | 1 | fails
{"body":["{}"]} | {} | fails
{"body":[{"exists":true}]} | [1] | fails
{"body":[{"exists":false}]} | {} | fails
{"body":[{"exists":false}]} | Hello | fails
{"data":[{"exists":false}]} | Hello | passes
{"$or":[{"messageId":["m-2"]},{"body":[{"prefix":"He"}]}]} | Hello | passes"#;

const NOT_JSON: &str = r#"{
{"a":[1]} x"#;

const NOT_OBJECT: &str = r#"[1]
"x"
[]"#;

const EMPTY: &str = r#"{}
{"a":[]}
{"a":{}}
{"a":[{}]}
{"a":[[]]}
{"a":{"b":{}}}
{"data":[]}
{"data":{"a":[]}}
{"$or":[]}
{"$or":{}}
{"$or":[{}]}
{"a":[{"numeric":[]}]}
{"a":[{"anything-but":[]}]}
{"a":[{"prefix":{}}]}
{"a":[],"b":[1.5]}"#;

const BAD_TEST: &str = r#"{"a":1}
{"a":[{"cidr":"x"}]}
{"data":["x"]}
{"$or":[{"data":["x"]}]}
{"$or":{"a":[1]}}
{"$or":[1]}
{"a":[[1]]}
{"a":[1.5]}
{"a":[1e3]}
{"a":[-0]}
{"a":[9223372036854775808]}
{"a":[-9223372036854775809]}
{"a":[{"prefix":"x","suffix":"y"}]}
{"a":[{"prefix":1}]}
{"a":[{"exists":1}]}
{"a":[{"anything-but":true}]}
{"a":[{"anything-but":["x",null]}]}
{"a":[{"anything-but":{"prefix":"x"}}]}
{"a":[{"numeric":1}]}
{"a":[{"numeric":["<"]}]}
{"a":[{"numeric":["<",1.5]}]}
{"a":[{"numeric":["=",1,"<",2]}]}
{"a":[{"numeric":["<",5,">",0]}]}
{"a":[{"numeric":[">",0,">=",5]}]}
{"a":[{"numeric":[">",0,"<",5,1]}]}
{"a":[1.5],"b":[]}
{"b":[],"a":[1.5]}"#;

fn criteria(alloc: Global, kind: Kind, pattern: &str) -> Result<Criteria, Fail> {
    let texts = [text(alloc, pattern)?];
    Ok(Criteria::read(alloc, kind, &texts).ok().ok_or("a pattern")?)
}

fn passes_record(alloc: Global, criteria: &Criteria, data: &str) -> Result<bool, Fail> {
    let item = record_of(alloc, "1", "1", data.as_bytes())?;
    Ok(criteria.passes_record(alloc, &mut Work::new(), &item)?)
}

fn passes_message(alloc: Global, criteria: &Criteria, body: &str) -> Result<bool, Fail> {
    let item = message_of(alloc, "m-1", body)?;
    Ok(criteria.passes_message(alloc, &mut Work::new(), &item)?)
}

fn record_passes(alloc: Global, pattern: &str, data: &str) -> Result<bool, Fail> {
    let criteria = criteria(alloc, Kind::Stream, pattern)?;
    passes_record(alloc, &criteria, data)
}

fn message_passes(alloc: Global, pattern: &str, body: &str) -> Result<bool, Fail> {
    let criteria = criteria(alloc, Kind::Standard, pattern)?;
    passes_message(alloc, &criteria, body)
}

fn refusal(alloc: Global, pattern: &str) -> Result<Option<FilterError>, Fail> {
    let texts = [text(alloc, pattern)?];
    Ok(Criteria::read(alloc, Kind::Stream, &texts).err())
}

/// The parts of a row: the pattern, what is judged, and whether it passes.
fn parts(row: &str) -> Option<(&str, &str, bool)> {
    let (pattern, rest) = row.split_once(" | ")?;
    let (judged, expected) = rest.split_once(" | ")?;
    Some((pattern, judged, expected == "passes"))
}

/// Whether the record of the row passes or fails as the row says.
fn is_record_judged(alloc: Global, row: &str) -> Result<bool, Fail> {
    let (pattern, data, expected) = parts(row).ok_or("three parts")?;
    Ok(record_passes(alloc, pattern, data)? == expected)
}

fn is_message_judged(alloc: Global, row: &str) -> Result<bool, Fail> {
    let (pattern, body, expected) = parts(row).ok_or("three parts")?;
    Ok(message_passes(alloc, pattern, body)? == expected)
}

/// The text `before`, then the piece `times` times, then `after`.
fn repeated(
    alloc: Global,
    before: &str,
    piece: &str,
    times: u32,
    after: &str,
) -> Result<String, Fail> {
    let mut chars = String::from_str(alloc, before)?;
    for _ in 0..times {
        chars.push_str(piece)?;
    }
    chars.push_str(after)?;
    Ok(chars)
}

/// Whether a pattern for `n` passes a record whose field `deep` nests this many lists.
fn nested_passes(alloc: Global, depth: u32) -> Result<bool, Fail> {
    let opened = repeated(alloc, "{\"n\":1,\"deep\":", "[", depth, "")?;
    let data = repeated(alloc, opened.as_str(), "]", depth, "}")?;
    record_passes(alloc, "{\"data\":{\"n\":[1]}}", data.as_str())
}

#[test]
fn judged_records(rt: HostRuntime) -> Result<(), Fail> {
    for row in RECORDS.lines() {
        assert!(rt; is_record_judged(rt.alloc(), row)?, "{row}");
    }
    Ok(())
}

#[test]
fn judged_messages(rt: HostRuntime) -> Result<(), Fail> {
    for row in MESSAGES.lines() {
        assert!(rt; is_message_judged(rt.alloc(), row)?, "{row}");
    }
    Ok(())
}

/// A JSON text may nest 127 deep; deeper data is not JSON, so an object pattern for it fails.
#[test]
fn nested_data(rt: HostRuntime) -> Result<(), Fail> {
    assert!(rt; nested_passes(rt.alloc(), 100)?);
    assert!(rt; !nested_passes(rt.alloc(), 200)?);
    Ok(())
}

/// The first of these patterns, one a line, that is not refused for this reason.
fn first_other<'a>(
    alloc: Global,
    patterns: &'a str,
    why: PatternError,
) -> Result<Option<&'a str>, Fail> {
    let expected = Some(FilterError::BadPattern { filter: 0, why });
    for pattern in patterns.lines() {
        if refusal(alloc, pattern)? != expected {
            return Ok(Some(pattern));
        }
    }
    Ok(None)
}

#[test]
fn refused_patterns(rt: HostRuntime) -> Result<(), Fail> {
    for (patterns, why) in [
        (NOT_JSON, PatternError::NotJson),
        (NOT_OBJECT, PatternError::NotObject),
        (EMPTY, PatternError::Empty),
        (BAD_TEST, PatternError::BadTest),
    ] {
        assert_eq!(rt; first_other(rt.alloc(), patterns, why)?, None);
    }
    Ok(())
}

/// Why a pattern is refused that has `count` characters of two bytes each.
fn long_refusal(alloc: Global, count: u32) -> Result<Option<FilterError>, Fail> {
    let pattern = repeated(alloc, "{\"a\":[\"", "é", count, "\"]}")?;
    refusal(alloc, pattern.as_str())
}

/// The limit counts characters, not bytes.
#[test]
fn long_patterns(rt: HostRuntime) -> Result<(), Fail> {
    let why = PatternError::TooLong;
    let too_long = FilterError::BadPattern { filter: 0, why };
    for (count, expected) in [(4086, None), (4087, Some(too_long))] {
        assert_eq!(rt; long_refusal(rt.alloc(), count)?, expected);
    }
    Ok(())
}

fn refusal_of_three(
    alloc: Global,
    first: &str,
    second: &str,
    third: &str,
) -> Result<Option<FilterError>, Fail> {
    let first = text(alloc, first)?;
    let second = text(alloc, second)?;
    let third = text(alloc, third)?;
    Ok(Criteria::read(alloc, Kind::Stream, &[first, second, third]).err())
}

#[test]
fn first_bad_pattern(rt: HostRuntime) -> Result<(), Fail> {
    let why = PatternError::Empty;
    let expected = Some(FilterError::BadPattern { filter: 1, why });
    assert_eq!(rt;
        refusal_of_three(rt.alloc(), "{\"a\":[1]}", "{}", "[")?,
        expected
    );
    Ok(())
}

/// Whether a record and a message pass if there is no pattern.
fn pass_all(alloc: Global) -> Result<(bool, bool), Fail> {
    let all = Criteria::read(alloc, Kind::Fifo, &[])
        .ok()
        .ok_or("no patterns")?;
    let record = passes_record(alloc, &all, "Hello")?;
    Ok((record, passes_message(alloc, &all, "Hello")?))
}

#[test]
fn no_patterns(rt: HostRuntime) -> Result<(), Fail> {
    assert_eq!(rt; pass_all(rt.alloc())?, (true, true));
    Ok(())
}

// A desk and a sink that fail at one call, for every call.
use crate::bench::{Answer, call, done, kept_call, two_files};
use rst_outside::{Desk, MemoryDesk, MemorySink, Sink, SureDesk, SureSink};
use rst_table::{Unlike, agree};
use std::alloc::{AllocError, Global};
use std::str;
use std::test::Fail;

// Six numbered calls.
const CALLS: &str = "\
    first c 12
    next c 345
    piece a 1 4
    load a 3
    next c 6
    piece b 0 4";

fn mark(succeeded: bool) -> char {
    if succeeded { '+' } else { '-' }
}

// The calls, `+` for each that succeeded and `-` for each that failed.
fn outcomes<K: Desk>(alloc: Global, desk: &mut K) -> Option<String> {
    let mut outcomes = String::new(alloc);
    for row in CALLS.lines() {
        let answer = call(alloc, desk, row.trim())?;
        outcomes.push(mark(answer.is_ok())).ok()?;
    }
    Some(outcomes)
}

fn owned(alloc: Global, bytes: &[u8]) -> Option<String> {
    String::from_str(alloc, str::from_utf8(bytes).ok()?).ok()
}

// What succeeds on a desk that fails at the call of a number, and what stands under `c` and `a` then.
fn failing_desk(alloc: Global, number: &str) -> Option<(String, String, String)> {
    let failing = vec![in alloc; number.parse::<u32>().ok()?].ok()?;
    let mut desk = MemoryDesk::new(alloc, two_files(alloc).ok()?, failing);
    desk.reserve("c", 6).ok()?;
    let outcomes = outcomes(alloc, &mut desk)?;
    let saved = owned(alloc, desk.file("c")?)?;
    let kept = owned(alloc, desk.file("a")?)?;
    Some((outcomes, saved, kept))
}

const DESKS: &str = r#"
    0 => ("-+++++", "3456", "abc")
    1 => ("+-++++", "126", "abc")
    2 => ("++-+++", "123456", "abc")
    3 => ("+++-++", "123456", "abc")
    4 => ("++++-+", "12345", "abc")
    5 => ("+++++-", "123456", "abc")
    6 => ("++++++", "123456", "abc")
"#;

#[test]
fn a_desk_fails_at_the_call_that_it_is_told(rt: HostRuntime) -> Result<(), Unlike> {
    agree(rt.alloc(), DESKS, failing_desk)
}

// Three numbered puts, `+` for each that succeeded and `-` for each that failed.
fn three_puts<S: Sink>(alloc: Global, sink: &mut S) -> Option<String> {
    let mut outcomes = String::new(alloc);
    for piece in "ab,,cde".split(',') {
        outcomes
            .push(mark(sink.put(piece.as_bytes()).is_ok()))
            .ok()?;
    }
    Some(outcomes)
}

// What succeeds on a sink that fails at the put of a number, and what it takes.
fn failing_sink(alloc: Global, number: &str) -> Option<(String, String)> {
    let failing = vec![in alloc; number.parse::<u32>().ok()?].ok()?;
    let mut sink = MemorySink::new(alloc, failing);
    sink.reserve(5).ok()?;
    let outcomes = three_puts(alloc, &mut sink)?;
    Some((outcomes, owned(alloc, sink.taken())?))
}

const SINKS: &str = r#"
    0 => ("-++", "cde")
    1 => ("+-+", "abcde")
    2 => ("++-", "ab")
    3 => ("+++", "abcde")
"#;

#[test]
fn a_sink_fails_at_the_put_that_it_is_told(rt: HostRuntime) -> Result<(), Unlike> {
    agree(rt.alloc(), SINKS, failing_sink)
}

const SURE_DESK: &str = r#"
    load a 3     => Ok("abc")
    load a 2     => Err(TooLong)
    load no 3    => Err(Failed)
    first c      => Err(Failed)
    room c 3     => Ok("")
    first c 1234 => Err(Failed)
    first c 123  => Ok("")
    file c       => Ok("123")
"#;

#[test]
fn a_sure_desk_fails_only_without_a_file_or_without_room(rt: HostRuntime) -> Result<(), Fail> {
    let alloc = rt.alloc();
    let mut desk = SureDesk::new(alloc, two_files(alloc)?);
    agree(
        alloc,
        SURE_DESK,
        |alloc, row| kept_call(alloc, &mut desk, row),
    )?;
    Ok(())
}

// A call of a sink: `put BYTES`, `room` for three bytes, and all that was `taken`.
fn sink_call(alloc: Global, sink: &mut SureSink, row: &str) -> Option<Answer> {
    match row {
        "room" => Some(done(alloc, sink.reserve(3).is_ok())),
        "taken" => Some(Ok(owned(alloc, sink.taken())?)),
        _ => {
            let piece = row.strip_prefix("put ")?;
            Some(done(alloc, sink.put(piece.as_bytes()).is_ok()))
        }
    }
}

const SURE_SINK: &str = r#"
    put x  => Err(Failed)
    room   => Ok("")
    put xy => Ok("")
    put zz => Err(Failed)
    put z  => Ok("")
    taken  => Ok("xyz")
"#;

#[test]
fn a_sure_sink_fails_only_without_room(rt: HostRuntime) -> Result<(), Unlike> {
    let alloc = rt.alloc();
    let mut sink = SureSink::new(alloc);
    agree(
        alloc,
        SURE_SINK,
        |alloc, row| sink_call(alloc, &mut sink, row),
    )
}

//! Links that give the events of a script, at whose calls they fail, take nothing now or find a connection lost.

use crate::steps::Answer::*;
use crate::steps::Step::*;
use crate::steps::{Row, ask};
use std::alloc::{AllocError, Global};
use std::process::Abort;
use std::test::Fail;
use wire_io::{Heard, Link, ScriptEvent, ScriptLink, Took};

/// A link of two connections that open, which fails at these calls.
fn failing_link(alloc: Global, failing: &[u64]) -> Result<ScriptLink, AllocError> {
    let mut events = Vec::new(alloc);
    events.push(ScriptEvent::Opened(2))?;
    events.push(ScriptEvent::Opened(1))?;
    let failing = failing.to_vec(alloc)?;
    let link = ScriptLink::new(alloc, events, failing, Vec::new(alloc), Vec::new(alloc));
    Ok(link)
}

/// Each step of the link gives what it is to give.
fn play(rt: &impl Abort, link: &mut ScriptLink, rows: &[Row]) {
    let mut buf = [0u8; 3];
    for (index, (step, want)) in rows.iter().enumerate() {
        let found = ask(link, "127.0.0.1:389", &mut buf, *step);
        assert_eq!(rt; found, Some(*want), "step {index}");
    }
}

static FAILING: [Row; 4] = [
    (Open(1), Failed),
    (Next, Event(Heard::Opened(2))),
    (Next, Failed),
    (Next, Event(Heard::Opened(1))),
];

#[test]
fn a_link_fails_at_the_calls_that_are_to_fail_and_takes_no_event_there(
    rt: HostRuntime,
) -> Result<(), Fail> {
    let mut link = failing_link(rt.alloc(), &[0, 2])?;
    play(&rt, &mut link, &FAILING);
    Ok(())
}

/// A link of two connections, whose calls of `write` 0 and 3 take nothing now, and whose call 2 finds
/// the connection lost.
fn refusing_link(alloc: Global) -> Result<ScriptLink, AllocError> {
    let mut events = Vec::new(alloc);
    events.push(ScriptEvent::Opened(2))?;
    events.push(ScriptEvent::Opened(1))?;
    events.push(ScriptEvent::Ended(2))?;
    let mut later = Vec::new(alloc);
    later.push(0)?;
    later.push(3)?;
    let mut gone = Vec::new(alloc);
    gone.push(2)?;
    let link = ScriptLink::new(alloc, events, Vec::new(alloc), later, gone);
    Ok(link)
}

static REFUSING: [Row; 5] = [
    (Write(2, b"ab"), Taken(Took::Later)),
    (Write(2, b"ab"), Taken(Took::Took(2))),
    (Write(1, b"c"), Taken(Took::Gone)),
    (Write(2, b"d"), Taken(Took::Later)),
    (Write(2, b"d"), Taken(Took::Took(1))),
];

#[test]
fn a_link_takes_nothing_now_or_finds_a_connection_lost_at_the_calls_that_are_to(
    rt: HostRuntime,
) -> Result<(), Fail> {
    let mut link = refusing_link(rt.alloc())?;
    play(&rt, &mut link, &REFUSING);
    assert_eq!(rt;
        (link.said_of(2), link.said_of(1)),
        (b"abd".as_slice(), b"".as_slice())
    );
    Ok(())
}

// Behind an event, the connection 2 is on hold until it is released, and until it is hung up.
static RELEASED: [Row; 7] = [
    (Next, Event(Heard::Opened(2))),
    (Next, Event(Heard::Opened(1))),
    (Hold(2), Done),
    (Next, Event(Heard::Ready(2))),
    (Next, Event(Heard::Ready(2))),
    (Release(2), Done),
    (Next, Event(Heard::Ended(2))),
];

static HUNG_UP: [Row; 5] = [
    (Next, Event(Heard::Opened(2))),
    (Next, Event(Heard::Opened(1))),
    (Hold(2), Done),
    (HangUp(2), Done),
    (Next, Event(Heard::Ended(2))),
];

#[test]
fn a_connection_on_hold_is_ready_until_it_is_released_or_hung_up(
    rt: HostRuntime,
) -> Result<(), Fail> {
    let mut released = refusing_link(rt.alloc())?;
    play(&rt, &mut released, &RELEASED);
    let mut hung_up = refusing_link(rt.alloc())?;
    play(&rt, &mut hung_up, &HUNG_UP);
    assert_eq!(rt; (hung_up.hung_up(1), hung_up.hung_up(2)), (false, true));
    Ok(())
}

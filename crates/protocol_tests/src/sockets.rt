//! The link of the system's sockets, over loopback.

use crate::steps::Answer::*;
use crate::steps::Row;
use crate::steps::Step::*;
use crate::talk::{Talk, new_talk, play};
use std::process::Abort;
use std::test::Fail;
use wire_io::{Heard, Took};

static SERVED: [Row; 27] = [
    // not open, at no address, open, and open already
    (Next, Failed),
    (OpenAt("here"), Failed),
    (Open(2), Done),
    (Open(2), Failed),
    (Connect, Done),
    (Hear, Event(Heard::Opened(1))),
    (Send(0, b"abc"), Done),
    (Hear, Event(Heard::Bytes(1, 3))),
    (Buffer(b"abc\0"), Is(true)),
    (Write(1, b"xyz"), Taken(Took::Took(3))),
    (Read(0), Count(3)),
    (Buffer(b"xyz\0"), Is(true)),
    (Hold(1), Done),
    (Hear, Event(Heard::Ready(1))),
    (Release(1), Done),
    (Shut(0), Done),
    (Hear, Event(Heard::Ended(1))),
    (HangUp(1), Done),
    (Write(1, b"z"), Taken(Took::Gone)),
    // a peer that leaves what it was sent unread resets the connection
    (Connect, Done),
    (Hear, Event(Heard::Opened(2))),
    (Write(2, b"xyz"), Taken(Took::Took(3))),
    (Leave, Done),
    (Hear, Event(Heard::Ended(2))),
    (Write(2, b"xyz"), Taken(Took::Gone)),
    (HangUp(2), Done),
    // two sessions ended
    (Next, Event(Heard::Stop)),
];

#[test]
fn connections_over_loopback_are_served_to_their_end(rt: HostRuntime) -> Result<(), Fail> {
    let mut talk = new_talk(&rt, 4)?;
    play(&rt, &mut talk, &SERVED);
    Ok(())
}

static SHORT: [Row; 26] = [
    (Open(0), Done),
    (Connect, Done),
    (Hear, Event(Heard::Opened(1))),
    (Connect, Done),
    (Hear, Event(Heard::Opened(2))),
    // more octets than the buffer has room for
    (Send(0, b"abcde"), Done),
    (Hear, Event(Heard::Bytes(1, 4))),
    (Hear, Event(Heard::Bytes(1, 1))),
    (Send(1, b"x"), Done),
    (Hear, Event(Heard::Bytes(2, 1))),
    // octets that come on hold are heard after the release
    (Hold(1), Done),
    (Send(0, b"fg"), Done),
    (Hear, Event(Heard::Ready(1))),
    (Release(1), Done),
    (Hear, Event(Heard::Bytes(1, 2))),
    // the end behind the last octet
    (Send(0, b"h"), Done),
    (Shut(0), Done),
    (Hear, Event(Heard::Bytes(1, 1))),
    (Hear, Event(Heard::Ended(1))),
    (HangUp(1), Done),
    // another connection at the place of one that was hung up
    (Connect, Done),
    (Hear, Event(Heard::Opened(3))),
    (Send(2, b"z"), Done),
    (Hear, Event(Heard::Bytes(3, 1))),
    (Shut(1), Done),
    (Hear, Event(Heard::Ended(2))),
];

#[test]
fn what_comes_behind_a_short_read_is_heard(rt: HostRuntime) -> Result<(), Fail> {
    let mut talk = new_talk(&rt, 4)?;
    play(&rt, &mut talk, &SHORT);
    Ok(())
}

/// A search of the whole tree below "dc=x" for objectClass (RFC 4511 4.5.1).
const TREE: &[u8] =
    b"\x30\x23\x02\x01\x01\x63\x1e\x04\x04dc=x\x0a\x01\x02\x0a\x01\x00\x02\x01\x00\x02\x01\x00\x01\x01\x00\x87\x05class\x30\x00";

/// It three times, and the front of a header.
const THREE: &[u8] =
    b"\x30\x23\x02\x01\x01\x63\x1e\x04\x04dc=x\x0a\x01\x02\x0a\x01\x00\x02\x01\x00\x02\x01\x00\x01\x01\x00\x87\x05class\x30\x00\
    \x30\x23\x02\x01\x01\x63\x1e\x04\x04dc=x\x0a\x01\x02\x0a\x01\x00\x02\x01\x00\x02\x01\x00\x01\x01\x00\x87\x05class\x30\x00\
    \x30\x23\x02\x01\x01\x63\x1e\x04\x04dc=x\x0a\x01\x02\x0a\x01\x00\x02\x01\x00\x02\x01\x00\x01\x01\x00\x87\x05class\x30\x00\
    \x30";

static SEARCHES: [Row; 21] = [
    (Open(0), Done),
    (Connect, Done),
    (Hear, Event(Heard::Opened(1))),
    (Connect, Done),
    (Hear, Event(Heard::Opened(2))),
    (Send(0, THREE), Done),
    (Send(1, TREE), Done),
    (Hear, Event(Heard::Bytes(1, 37))),
    (Hear, Event(Heard::Bytes(2, 37))),
    (Hear, Event(Heard::Bytes(1, 37))),
    // on hold nothing is heard of it
    (Hold(1), Done),
    (Hear, Event(Heard::Ready(1))),
    (Release(1), Done),
    (Hear, Event(Heard::Bytes(1, 37))),
    (Buffer(TREE), Is(true)),
    // the front of a header comes with what follows it, and before the end
    (Send(0, b"\x05\x02"), Done),
    (Hear, Event(Heard::Bytes(1, 3))),
    (Send(1, b"\x30"), Done),
    (Shut(1), Done),
    (Hear, Event(Heard::Bytes(2, 1))),
    (Hear, Event(Heard::Ended(2))),
];

#[test]
fn searches_sent_at_once_are_heard_in_turn_with_others(rt: HostRuntime) -> Result<(), Fail> {
    let mut talk = new_talk(&rt, 200)?;
    play(&rt, &mut talk, &SEARCHES);
    Ok(())
}

static SILENT: [Row; 11] = [
    // the first spoke last, the second is on hold
    (Send(0, b"abc"), Done),
    (Hear, Event(Heard::Bytes(1, 3))),
    (Hold(2), Done),
    (Hear, Event(Heard::Ready(2))),
    (Connect, Done),
    (Send(256, b"xyz"), Done),
    // the second may take octets all the time, until the system is asked for reports again
    (HearPast(Heard::Ready(2)), Event(Heard::Ended(3))),
    (Release(2), Done),
    (HangUp(3), Done),
    (Hear, Event(Heard::Opened(257))),
    (Hear, Event(Heard::Bytes(257, 3))),
];

#[test]
fn the_peer_that_was_silent_longest_makes_room_for_another(rt: HostRuntime) -> Result<(), Fail> {
    let mut talk = new_talk(&rt, 4)?;
    play(&rt, &mut talk, &[(Open(0), Done)]);
    for number in 1..257u32 {
        play(
            &rt,
            &mut talk,
            &[(Connect, Done), (Hear, Event(Heard::Opened(number)))],
        );
    }
    play(&rt, &mut talk, &SILENT);
    Ok(())
}

static IDLE: [Row; 8] = [
    (EndIdleAfter(1), Done),
    (Open(0), Done),
    (Connect, Done),
    (Hear, Event(Heard::Opened(1))),
    (Send(0, b"abc"), Done),
    (Hear, Event(Heard::Bytes(1, 3))),
    (Hear, Event(Heard::Ended(1))),
    (HangUp(1), Done),
];

#[test]
fn a_peer_that_is_idle_is_ended(rt: HostRuntime) -> Result<(), Fail> {
    let mut talk = new_talk(&rt, 4)?;
    play(&rt, &mut talk, &IDLE);
    Ok(())
}

/// The link opens a store of this name, and the connections 1 and 2 of two peers.
fn open_two(rt: &impl Abort, talk: &mut Talk, store: &'static str, sessions: u64) {
    let rows = [
        (Remove(store), Done),
        (OpenStore(store), Done),
        (Open(sessions), Done),
        (Connect, Done),
        (Hear, Event(Heard::Opened(1))),
        (Connect, Done),
        (Hear, Event(Heard::Opened(2))),
    ];
    play(rt, talk, &rows);
}

static GROUP: [Row; 23] = [
    (Send(0, b"abc"), Done),
    (Hear, Event(Heard::Bytes(1, 3))),
    (Store(b"abc\n"), Done),
    (Write(1, b"x"), Taken(Took::Later)),
    (Hold(1), Done),
    // put off
    (Sync, Done),
    // another is heard before the disk is waited for
    (Send(1, b"de"), Done),
    (Hear, Event(Heard::Bytes(2, 2))),
    (Write(2, b"x"), Taken(Took::Later)),
    (Hold(2), Done),
    // put off again
    (Sync, Done),
    // nobody is told that it may be written to, and nothing is waited for
    (Next, Event(Heard::Idle)),
    // before the disk has it
    (Write(2, b"x"), Taken(Took::Later)),
    // waits for the disk
    (Sync, Done),
    (Next, Event(Heard::Ready(1))),
    (Write(1, b"x"), Taken(Took::Took(1))),
    (Release(1), Done),
    (Next, Event(Heard::Ready(2))),
    (Write(2, b"x"), Taken(Took::Took(1))),
    (Release(2), Done),
    (Read(0), Count(1)),
    (Read(1), Count(1)),
    (Text("group", "abc\n"), Is(true)),
];

#[test]
fn no_octets_are_taken_before_the_disk_has_what_was_stored(rt: HostRuntime) -> Result<(), Fail> {
    let mut talk = new_talk(&rt, 4)?;
    open_two(&rt, &mut talk, "group", 0);
    play(&rt, &mut talk, &GROUP);
    Ok(())
}

static HUNG_UP: [Row; 11] = [
    (Store(b"abc\n"), Done),
    (Write(1, b"x"), Taken(Took::Later)),
    (Hold(1), Done),
    (HangUp(1), Done),
    // neither does another that is opened at its place
    (Connect, Done),
    (Hear, Event(Heard::Opened(3))),
    // put off
    (Sync, Done),
    (Next, Event(Heard::Idle)),
    // waits for the disk
    (Sync, Done),
    (Send(1, b"g"), Done),
    (Hear, Event(Heard::Bytes(2, 1))),
];

#[test]
fn a_connection_that_is_hung_up_waits_for_the_disk_no_more(rt: HostRuntime) -> Result<(), Fail> {
    let mut talk = new_talk(&rt, 4)?;
    open_two(&rt, &mut talk, "hung_up", 0);
    play(&rt, &mut talk, &HUNG_UP);
    Ok(())
}

// The second may take octets all the time.
static LATE: [Row; 4] = [
    (Hold(2), Done),
    (Store(b"abc\n"), Done),
    (Write(1, b"x"), Taken(Took::Later)),
    (Hold(1), Done),
];

static PUT_OFF: [Row; 3] = [
    (Sync, Done),
    (Next, Event(Heard::Ready(2))),
    (Write(1, b"x"), Taken(Took::Later)),
];

static WAITED: [Row; 4] = [
    (Sync, Done),
    (Next, Event(Heard::Ready(1))),
    (Write(1, b"x"), Taken(Took::Took(1))),
    (Release(1), Done),
];

#[test]
fn the_disk_is_waited_for_after_at_most_256_events(rt: HostRuntime) -> Result<(), Fail> {
    let mut talk = new_talk(&rt, 4)?;
    open_two(&rt, &mut talk, "late", 0);
    play(&rt, &mut talk, &LATE);
    for _event in 0..256 {
        play(&rt, &mut talk, &PUT_OFF);
    }
    play(&rt, &mut talk, &WAITED);
    Ok(())
}

static END: [Row; 8] = [
    (Store(b"abc\n"), Done),
    (Write(1, b"x"), Taken(Took::Later)),
    (Hold(1), Done),
    (HangUp(2), Done),
    // one session ended
    (Sync, Done),
    (Write(1, b"x"), Taken(Took::Took(1))),
    (Release(1), Done),
    (Next, Event(Heard::Stop)),
];

#[test]
fn the_disk_is_waited_for_before_the_end(rt: HostRuntime) -> Result<(), Fail> {
    let mut talk = new_talk(&rt, 4)?;
    open_two(&rt, &mut talk, "end", 1);
    play(&rt, &mut talk, &END);
    Ok(())
}

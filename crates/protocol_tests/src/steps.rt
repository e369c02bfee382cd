//! The steps of a test of a link: what the link and its peers do, and what each step gives.

use std::io;
use wire_io::{Heard, Link, NextFault, NoMemory, Took};

/// What a link or a peer does, or what is looked at.
#[derive(Clone, Copy)]
pub enum Step {
    /// The link ends connections that are idle for so many seconds.
    EndIdleAfter(u64),
    /// It opens at the address of the test, for so many sessions.
    Open(u64),
    /// It opens at another one, for as many sessions as come.
    OpenAt(&'static str),
    /// It is asked for an event.
    Next,
    /// It is asked for events until one is not Idle.
    Hear,
    /// The same until one is not this one either.
    HearPast(Heard),
    /// It is offered octets for the connection.
    Write(u32, &'static [u8]),
    Hold(u32),
    Release(u32),
    HangUp(u32),
    /// It opens the store of this name.
    OpenStore(&'static str),
    Cut(u64),
    Store(&'static [u8]),
    Sync,
    /// Another peer connects.
    Connect,
    /// The peer at this place, from 0, sends octets.
    Send(usize, &'static [u8]),
    /// It sends no more.
    Shut(usize),
    /// It reads what it was sent into the buffer.
    Read(usize),
    /// The last of the peers leaves.
    Leave,
    /// The front of the buffer is compared with octets.
    Buffer(&'static [u8]),
    /// The file of this name is removed, if there is one.
    Remove(&'static str),
    /// Whether there is a file of this name is looked at.
    Exists(&'static str),
    /// The permissions of the file are looked at.
    Mode(&'static str),
    /// The text of the file is compared with this one.
    Text(&'static str, &'static str),
}

/// What a step gives.
#[derive(Clone, Copy, Debug, PartialEq)]
pub enum Answer {
    Done,
    Failed,
    NoMemory,
    Event(Heard),
    Taken(Took),
    Count(usize),
    Permissions(u32),
    Is(bool),
    /// The peer or the file gave an error, or there is no such peer.
    Broken,
}

/// A step, and what it is to give.
pub type Row = (Step, Answer);

fn of_link(done: Result<(), NextFault>) -> Answer {
    match done {
        Ok(()) => Answer::Done,
        Err(NextFault::Failed) => Answer::Failed,
        Err(NextFault::NoMemory) => Answer::NoMemory,
    }
}

fn of_event(heard: Result<Heard, NextFault>) -> Answer {
    match heard {
        Ok(heard) => Answer::Event(heard),
        Err(NextFault::Failed) => Answer::Failed,
        Err(NextFault::NoMemory) => Answer::NoMemory,
    }
}

fn of_note(done: Result<(), NoMemory>) -> Answer {
    if done.is_ok() {
        Answer::Done
    } else {
        Answer::NoMemory
    }
}

/// What a peer's call gives.
pub fn of_peer(done: io::Result<()>) -> Answer {
    if done.is_ok() {
        Answer::Done
    } else {
        Answer::Broken
    }
}

// The next event; a buffer without room gets none.
fn next<L: Link>(link: &mut L, buf: &mut [u8]) -> Result<Heard, NextFault> {
    if buf.is_empty() {
        return Err(NextFault::NoMemory);
    }
    link.next(buf)
}

// The next event that is not Idle.
fn hear<L: Link>(link: &mut L, buf: &mut [u8]) -> Result<Heard, NextFault> {
    for _ in 0..1000 {
        let heard = next(link, buf);
        if heard != Ok(Heard::Idle) {
            return heard;
        }
    }
    Ok(Heard::Idle)
}

// The next event that is neither Idle nor this one.
fn hear_past<L: Link>(link: &mut L, buf: &mut [u8], past: Heard) -> Result<Heard, NextFault> {
    for _ in 0..100_000 {
        let heard = hear(link, buf);
        if heard != Ok(past) {
            return heard;
        }
    }
    Ok(past)
}

// What is taken of octets; of none, nothing now.
fn write<L: Link>(link: &mut L, conn: u32, octets: &[u8]) -> Took {
    if octets.is_empty() {
        return Took::Later;
    }
    link.write(conn, octets)
}

// What a step of the store gives; None where it is no such step.
fn ask_store<L: Link>(link: &mut L, step: Step) -> Option<Answer> {
    let done = match step {
        Step::OpenStore(name) => link.open_store(name),
        Step::Cut(length) => link.cut_store(length),
        Step::Store(octets) => link.store(octets),
        Step::Sync => link.sync_store(),
        _ => return None,
    };
    Some(of_link(done))
}

// What a step that only notes something gives; None where it is no such step.
fn ask_note<L: Link>(link: &mut L, step: Step) -> Option<Answer> {
    let done = match step {
        Step::Hold(conn) => link.hold(conn),
        Step::Release(conn) => link.release(conn),
        Step::HangUp(conn) => link.hang_up(conn),
        _ => return None,
    };
    Some(of_note(done))
}

// What a step that asks for an event gives; None where it is no such step.
fn ask_event<L: Link>(link: &mut L, buf: &mut [u8], step: Step) -> Option<Answer> {
    let heard = match step {
        Step::Next => next(link, buf),
        Step::Hear => hear(link, buf),
        Step::HearPast(past) => hear_past(link, buf, past),
        _ => return None,
    };
    Some(of_event(heard))
}

// What a step that opens the link or offers octets gives; None where it is no such step.
fn ask_other<L: Link>(link: &mut L, address: &str, step: Step) -> Option<Answer> {
    match step {
        Step::EndIdleAfter(seconds) => {
            link.end_idle_after(seconds);
            Some(Answer::Done)
        }
        Step::Open(sessions) => Some(of_link(link.open(address, sessions))),
        Step::OpenAt(other) => Some(of_link(link.open(other, 0))),
        Step::Write(conn, octets) => Some(Answer::Taken(write(link, conn, octets))),
        _ => None,
    }
}

/// What a step of the link gives, whose test is at this address; None where it is no step of a link.
pub fn ask<L: Link>(link: &mut L, address: &str, buf: &mut [u8], step: Step) -> Option<Answer> {
    let answer = match step {
        Step::Next | Step::Hear | Step::HearPast(_) => ask_event(link, buf, step),
        Step::Hold(_) | Step::Release(_) | Step::HangUp(_) => ask_note(link, step),
        Step::OpenStore(_) | Step::Cut(_) | Step::Store(_) | Step::Sync => ask_store(link, step),
        _ => ask_other(link, address, step),
    };
    answer
}

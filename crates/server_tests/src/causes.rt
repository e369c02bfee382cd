//! How the program ends, and what it puts, where calls of the outside fail.

use crate::runs::{Ran, Start, link_of, run_with};
use crate::sets::TWO_ENTRIES;
use acl_program::Status;
use std::alloc::{AllocError, Global};
use std::test::*;

/// A line, a script, the calls of the shelf and of the sink that fail, what is put, and how the run ends.
type Row = (
    &'static str,
    &'static str,
    &'static [u64],
    &'static [u64],
    &'static str,
    Status,
);

#[rattlefmt::skip]
static CALLS: [Row; 24] = [
    // two calls are for the data file and two for the other; the call after a failing one would succeed
    ("replay d s", "open 1\nopen 2\n", &[0], &[], "data fault\n", Status::ShelfFault),
    ("replay d s", "open 1\nopen 2\n", &[1], &[], "data fault\n", Status::ShelfFault),
    ("replay d s", "open 1\nopen 2\n", &[2], &[], "data fault\n", Status::ShelfFault),
    ("replay d s", "open 1\nopen 2\n", &[3], &[], "data fault\n", Status::ShelfFault),
    ("replay d s", "open 1\nopen 2\n", &[4], &[], "1 -\n2 -\n", Status::Done),
    ("ask d s", "open 1\n", &[2], &[], "data fault\n", Status::ShelfFault),
    ("ask d s", "open 1\n", &[4], &[], "bad request line 1\n", Status::BadScript),
    ("verify d s", "open 1\n", &[3], &[], "data fault\n", Status::ShelfFault),
    ("verify d s", "open 1\n", &[4], &[], "bad certificate line 1\n", Status::BadScript),
    ("sample 4", "", &[0, 1], &[], "entries 8\nfound 2\nhidden 2\n", Status::Done),
    // what is put before a call of the sink fails
    ("replay d s", "open 1\nopen 2\n", &[], &[0], "", Status::SinkFault),
    ("replay d s", "open 1\nopen 2\n", &[], &[1], "1 ", Status::SinkFault),
    ("replay d s", "open 1\nopen 2\n", &[], &[2], "1 -\n", Status::SinkFault),
    ("replay d s", "open 1\nopen 2\n", &[], &[3], "1 -\n2 ", Status::SinkFault),
    ("replay d s", "open 1\nopen 2\n", &[], &[4], "1 -\n2 -\n", Status::Done),
    ("replay d s --turns 1", "open 1\nopen 2\n", &[], &[0], "", Status::SinkFault),
    ("replay d", "", &[], &[0], "", Status::SinkFault),
    ("replay d t", "", &[], &[0], "", Status::SinkFault),
    ("replay d s", "send 1 00", &[], &[0], "", Status::SinkFault),
    ("ask d s", "dn:\ndo: whoami\n", &[], &[0], "", Status::SinkFault),
    ("verify d s", "no certificate", &[], &[0], "", Status::SinkFault),
    ("prove d anonymous dc=u entry Read", "", &[], &[0], "", Status::SinkFault),
    ("rights d anonymous dc=u", "", &[], &[0], "", Status::SinkFault),
    ("sample 4", "", &[], &[0], "", Status::SinkFault),
];

// The run of a row over two entries.
fn run_row(alloc: Global, row: &Row) -> Result<Ran, AllocError> {
    let (line, script, shelf, sink, _put, _status) = *row;
    let start = Start {
        line,
        data: TWO_ENTRIES,
        script,
        shelf,
        sink,
    };
    run_with(alloc, &start, link_of(alloc, "")?)
}

#[test]
fn each_call_of_the_outside_may_fail(rt: HostRuntime) -> Result<(), Fail> {
    for row in &CALLS {
        let ran = run_row(rt.alloc(), row)?;
        let (line, _script, _shelf, _sink, put, status) = *row;
        assert_eq!(rt; ran.end(), (put, status), "{line}, which puts {put}");
    }
    Ok(())
}

/// A status, and its number.
static NUMBERS: [(Status, u8); 11] = [
    (Status::Done, 0u8),
    (Status::Usage, 2),
    (Status::BadData, 3),
    (Status::ShelfFault, 4),
    (Status::SinkFault, 5),
    (Status::LinkFault, 6),
    (Status::TurnsSpent, 7),
    (Status::NoMemory, 8),
    (Status::BadScript, 9),
    (Status::NotProved, 10),
    (Status::StoreFault, 11),
];

#[test]
fn each_status_has_its_number(rt: HostRuntime) {
    for (status, number) in &NUMBERS {
        assert_eq!(rt; status.number(), *number);
    }
}

//! A data file served over a link that stores its changes in a file.

ghost use Rattle.std.specs.Prelude.{◌<◌, IfOk, length};
ghost use Rattle.wire_io.specs.script_text.script.Script.{OpensOnce, AreFilled};

use crate::runs::{Ran, run_beside};
use crate::sets::{SITE, SITE_HEAD};
use acl_program::Status;
use std::alloc::{AllocError, Global};
use std::test::*;
use wire_io::ScriptLink;
use wire_io::plain_values::Octets;
use wire_io::script_text::ScriptEvent;

/// Words that ask for a file of changes.
const LINE: &str = "serve d 127.0.0.1:389 --changes c";

/// A delete of the first entry below the suffix, and its answer where it is done (RFC 4511 4.8).
const DELETE: &[u8] = b"\x30\x0e\x02\x01\x01\x4a\x09cn=d,dc=w";

const DELETED: &[u8] = b"\x30\x0c\x02\x01\x01\x6b\x07\x0a\x01\x00\x04\x00\x04\x00";

/// The answer where there is no such entry: no name above it is told, since nobody may know of one on an error.
const NO_ENTRY: &[u8] = b"\x30\x0c\x02\x01\x01\x6b\x07\x0a\x01\x20\x04\x00\x04\x00";

/// The record of that delete, as a file of changes has it, and that of another entry.
const RECORD: &str = "dn: cn=d,dc=w\nchangetype: delete\n\n";

const OTHER: &str = "dn: cn=e,dc=w\nchangetype: delete\n\n";

/// The parts of the file of changes, what is put, how the run ends, and what the connection gets.
type Row = (&'static [&'static str], &'static str, Status, &'static [u8]);

#[rattlefmt::skip]
static STARTS: [Row; 9] = [
    // a file that is new, one that was cut in its head, and one that was cut behind it
    (&[], "changes 0 torn 0\nlistening 127.0.0.1:389\n", Status::Done, DELETED),
    (&["version: 1\n# of sha256 "], "changes 0 torn 23\nlistening 127.0.0.1:389\n", Status::Done, DELETED),
    (&[SITE_HEAD], "changes 0 torn 0\nlistening 127.0.0.1:389\n", Status::Done, DELETED),
    (&[SITE_HEAD, "dn: cn=d,dc=w\n"], "changes 0 torn 14\nlistening 127.0.0.1:389\n", Status::Done, DELETED),
    // one with changes and a torn end
    (&[SITE_HEAD, OTHER, "dn: cn=d,dc=w\nchangetype: delete\n"], "changes 1 torn 33\nlistening 127.0.0.1:389\n", Status::Done, DELETED),
    (&[SITE_HEAD, OTHER, RECORD], "changes 2 torn 0\nlistening 127.0.0.1:389\n", Status::Done, NO_ENTRY),
    // one that isn't accepted
    (&["version: 1\n# of sha256 0"], "bad changes line 1: syntax\n", Status::BadData, b""),
    (&[SITE_HEAD, RECORD, RECORD], "bad changes line 7: code 32\n", Status::BadData, b""),
    (&[SITE_HEAD, "dn: cn=d,dc=w\n\n"], "bad changes line 4: syntax\n", Status::BadData, b""),
];

#[test]
fn what_a_file_of_changes_leaves_is_served(rt: HostRuntime) -> Result<(), Fail> {
    for (parts, put, status, said) in &STARTS {
        let link = deleting(rt.alloc(), DELETE, &[])?;
        let ran = serve_stored(rt.alloc(), LINE, parts, link)?;
        assert_eq!(rt; ran.end(), (*put, *status), "which puts {put}");
        assert_eq!(rt;
            ran.link.said_of(1),
            *said,
            "what is said where it puts {put}"
        );
    }
    Ok(())
}

/// The parts of the file of changes, the call of the link that fails, what is put, and what the connection gets. The calls
/// of the store are numbered with those that open the address and that ask for an event.
#[rattlefmt::skip]
static FAILING: [(&[&str], u64, &str, Status, &[u8]); 10] = [
    (&[], 0, "store fault\n", Status::StoreFault, b""),
    (&[], 1, "store fault\n", Status::StoreFault, b""),
    (&[], 2, "store fault\n", Status::StoreFault, b""),
    (&[], 3, "link fault\n", Status::LinkFault, b""),
    (&[], 4, "changes 0 torn 0\nlistening 127.0.0.1:389\nstore fault\n", Status::StoreFault, b""),
    (&[], 5, "changes 0 torn 0\nlistening 127.0.0.1:389\nlink fault\n", Status::LinkFault, b""),
    // the record is stored before the reply is sent
    (&[], 8, "changes 0 torn 0\nlistening 127.0.0.1:389\nstore fault\n", Status::StoreFault, b""),
    (&[], 9, "changes 0 torn 0\nlistening 127.0.0.1:389\nstore fault\n", Status::StoreFault, DELETED),
    // behind a whole head no other is stored
    (&[SITE_HEAD], 2, "link fault\n", Status::LinkFault, b""),
    (&[SITE_HEAD], 7, "changes 0 torn 0\nlistening 127.0.0.1:389\nstore fault\n", Status::StoreFault, b""),
];

#[test]
fn a_store_that_fails_ends_the_serving(rt: HostRuntime) -> Result<(), Fail> {
    for (parts, call, put, status, said) in &FAILING {
        let link = deleting(rt.alloc(), DELETE, &[*call])?;
        let ran = serve_stored(rt.alloc(), LINE, parts, link)?;
        assert_eq!(rt; ran.end(), (*put, *status), "the call {call}");
        assert_eq!(rt;
            ran.link.said_of(1),
            *said,
            "what is said before the call {call}"
        );
    }
    Ok(())
}

/// A file that isn't there, also where a call of its store would fail.
#[test]
fn a_file_of_changes_that_is_not_there_ends_the_serving(rt: HostRuntime) -> Result<(), Fail> {
    let line = "serve d 127.0.0.1:389 --changes e";
    for call in &[1u64, 2] {
        let link = deleting(rt.alloc(), DELETE, &[*call])?;
        let ran = serve_stored(rt.alloc(), line, &[], link)?;
        assert_eq!(rt;
            ran.end(),
            ("data fault\n", Status::ShelfFault),
            "the call {call}"
        );
    }
    Ok(())
}

// A link of one connection, which sends the message, and of which the calls of these numbers fail.
fn deleting(alloc: Global, message: &[u8], calls: &[u64]) -> Result<ScriptLink, AllocError>
    requires { 0 < length message.now }
{
    let events = one_message(alloc, message)?;
    Ok(ScriptLink::new(
        alloc,
        events,
        calls.to_vec(alloc)?,
        Vec::new(alloc),
        Vec::new(alloc),
    ))
}

// One connection opens, and sends a message.
fn one_message(alloc: Global, message: &[u8]) -> Result<Vec<ScriptEvent>, AllocError>
    requires { 0 < length message.now }
    ensures once { IfOk result (λ events. OpensOnce events.items) }
    ensures filled { IfOk result (λ events. AreFilled events.items) }
{
    let octets = message.to_vec(alloc)?;
    Ok(vec![in alloc;
        ScriptEvent::Opened(1),
        ScriptEvent::Bytes(1, Octets::from_vec(octets)),
    ]?)
}

// Serves the site by the words of the line, beside the file `c` of these parts.
fn serve_stored(
    alloc: Global,
    line: &str,
    parts: &[&str],
    link: ScriptLink,
) -> Result<Ran, AllocError> {
    let mut changes = String::new(alloc);
    for part in parts {
        changes.push_str(part)?;
    }
    run_beside(alloc, line, SITE, changes.as_str(), link)
}

//! A data file served over a link.

ghost use Rattle.std.specs.Prelude.{IfOk};
ghost use Rattle.wire_io.specs.script_text.script.Script.{OpensOnce, AreFilled};

use crate::runs::{Ran, link_of, serve};
use crate::sets::{OPEN, TWO_ENTRIES};
use acl_program::Status;
use std::alloc::{AllocError, Global};
use std::test::*;
use wire_io::ScriptLink;
use wire_io::script_text::ScriptEvent;

/// The reply to an anonymous bind.
const BOUND: &[u8] = b"\x30\x0c\x02\x01\x01\x61\x07\x0a\x01\x00\x04\x00\x04\x00";

/// What is put where the address is open.
const LISTENING: &str = "listening 127.0.0.1:389\n";

/// Words of the command line behind the address, what a connection sends, what is put, how the run ends, and what the
/// connection gets.
struct Served {
    line: &'static str,
    sent: &'static str,
    put: &'static str,
    status: Status,
    said: &'static [u8],
}

/// An anonymous bind, and searches of all entries for their names with the sizeLimits 0 and 3 (RFC 4511 4.2, 4.5.1).
const BIND: &str = "open 1\nsend 1 300c020101600702010304008000\n";

const ALL: &str =
    "open 1\nsend 1 302e0201016329040464633d770a01020a0100020100020100010100870b6f626a656374436c61737330050403312e31\n";

const THREE: &str =
    "open 1\nsend 1 302e0201016329040464633d770a01020a0100020103020100010100870b6f626a656374436c61737330050403312e31\n";

/// All entries but the subentry in their order, and two of them, each under no attributes (RFC 4511 4.5.2).
const FOUR_FOUND: &[u8] =
    b"0\x0d\x02\x01\x01d\x08\x04\x04dc=w0\x000\x12\x02\x01\x01d\x0d\x04\x09cn=d,dc=w0\x000\x12\x02\x01\x01d\x0d\x04\x09cn=e,dc=w0\x000\x12\x02\x01\x01d\x0d\x04\x09cn=f,dc=w0\x000\x0c\x02\x01\x01e\x07\x0a\x01\x00\x04\x00\x04\x00";

const TWO_FOUND: &[u8] =
    b"0\x0d\x02\x01\x01d\x08\x04\x04dc=w0\x000\x12\x02\x01\x01d\x0d\x04\x09cn=d,dc=w0\x000\x0c\x02\x01\x01e\x07\x0a\x01\x04\x04\x00\x04\x00";

static SERVED: [Served; 6] = [
    Served {
        line: "serve d 127.0.0.1:389",
        sent: BIND,
        put: LISTENING,
        status: Status::Done,
        said: BOUND,
    },
    Served {
        line: "serve d 127.0.0.1:389 --turns 1",
        sent: BIND,
        put: "listening 127.0.0.1:389\nturns spent\n",
        status: Status::TurnsSpent,
        said: b"",
    },
    Served {
        line: "serve d 127.0.0.1:389",
        sent: ALL,
        put: LISTENING,
        status: Status::Done,
        said: FOUR_FOUND,
    },
    Served {
        line: "serve d 127.0.0.1:389 --limit 4",
        sent: ALL,
        put: LISTENING,
        status: Status::Done,
        said: FOUR_FOUND,
    },
    Served {
        line: "serve d 127.0.0.1:389 --limit 2",
        sent: ALL,
        put: LISTENING,
        status: Status::Done,
        said: TWO_FOUND,
    },
    Served {
        line: "serve d 127.0.0.1:389 --limit 2",
        sent: THREE,
        put: LISTENING,
        status: Status::Done,
        said: TWO_FOUND,
    },
];

#[test]
fn a_data_file_is_served_within_the_bounds_of_the_words(rt: HostRuntime) -> Result<(), Fail> {
    for row in &SERVED {
        let link = link_of(rt.alloc(), row.sent)?;
        let ran = serve(rt.alloc(), row.line, OPEN, link)?;
        assert_eq!(rt; ran.end(), (row.put, row.status), "{}", row.line);
        assert_eq!(rt; ran.link.said_of(1), row.said, "{}", row.line);
    }
    Ok(())
}

// One connection opens.
fn one_opened(alloc: Global) -> Result<Vec<ScriptEvent>, AllocError>
    ensures once { IfOk result (λ events. OpensOnce events.items) }
    ensures filled { IfOk result (λ events. AreFilled events.items) }
{
    Ok(vec![in alloc; ScriptEvent::Opened(1)]?)
}

// The run over a link of which the call of this number, to open an address or for an event, fails.
fn serve_failing(alloc: Global, call: u64) -> Result<Ran, AllocError> {
    let mut failing = Vec::new(alloc);
    failing.push(call)?;
    let events = one_opened(alloc)?;
    let link = ScriptLink::new(alloc, events, failing, Vec::new(alloc), Vec::new(alloc));
    serve(alloc, "serve d 127.0.0.1:389", TWO_ENTRIES, link)
}

/// The call that fails, and what is put.
static FAILING: [(u64, &str); 2] = [
    (0, "link fault\n"),
    (1, "listening 127.0.0.1:389\nlink fault\n"),
];

#[test]
fn a_link_that_fails_ends_the_serving(rt: HostRuntime) -> Result<(), Fail> {
    for (call, put) in &FAILING {
        let ran = serve_failing(rt.alloc(), *call)?;
        assert_eq!(rt; ran.end(), (*put, Status::LinkFault), "the call {call}");
    }
    Ok(())
}

/// A search of the last entry for its description (RFC 4511 4.5.1).
const DESCRIBED: &str =
    "303b02010163360409636e3d662c64633d770a01000a0100020100020100010100870b6f626a656374436c617373300d040b6465736372697074696f6e";

// The data file, whose last entry has a description of 60,000 octets.
fn described(alloc: Global) -> Result<String, AllocError> {
    let mut data = String::from_str(alloc, OPEN)?;
    data.push_str("description: ")?;
    for _part in 0..6000 {
        data.push_str("abcdefghij")?;
    }
    data.push('\n')?;
    Ok(data)
}

// A connection that asks for the description 30 times in one piece, and then another that binds.
fn flood(alloc: Global) -> Result<ScriptLink, AllocError> {
    let mut script = String::from_str(alloc, "open 1\nopen 2\nsend 1 ")?;
    for _search in 0..30 {
        script.push_str(DESCRIBED)?;
    }
    script.push_str("\nsend 2 300c020101600702010304008000\n")?;
    link_of(alloc, script.as_str())
}

/// The words, how the run ends, how many octets the first connection gets, 60,065 for each search, until more than 1 MiB
/// waits, and whether it is closed.
static FLOODED: [(&str, Status, usize, bool); 2] = [
    ("serve d 127.0.0.1:389", Status::Done, 1_801_950, false),
    (
        "serve d 127.0.0.1:389 --queues 1",
        Status::NoMemory,
        1_081_170,
        true,
    ),
];

#[test]
fn a_connection_for_which_too_much_waits_is_closed_and_others_go_on(
    rt: HostRuntime,
) -> Result<(), Fail> {
    let data = described(rt.alloc())?;
    for (line, status, octets, closed) in &FLOODED {
        let ran = serve(rt.alloc(), line, data.as_str(), flood(rt.alloc())?)?;
        assert_eq!(rt; ran.end(), (LISTENING, *status), "{line}");
        let found = (ran.link.said_of(1).len(), ran.link.hung_up(1));
        assert_eq!(rt; found, (*octets, *closed), "{line}");
        assert_eq!(rt; ran.link.said_of(2), BOUND, "{line}");
        assert!(rt; !ran.link.hung_up(2), "the other one stays");
    }
    Ok(())
}

//! Where the octets of a stream are cut (RFC 4511 4.5.1, 5.1), and what is kept of them.

use fair_pieces::{Cut, Kept, cut_at, is_wide};
use std::alloc::{AllocError, Global};
use std::process::Abort;
use std::test::Fail;

/// A search of "dc=x" and all below it for objectClass.
const TREE: [u8; 37] = [
    0x30, 0x23, 2, 1, 1, 0x63, 0x1e, 4, 4, 0x64, 0x63, 0x3d, 0x78, 0x0a, 1, 2, 0x0a, 1, 0, 2, 1, 0,
    2, 1, 0, 1, 1, 0, 0x87, 5, 0x63, 0x6c, 0x61, 0x73, 0x73, 0x30, 0,
];

/// One of the level below it.
const LEVEL: [u8; 37] = [
    0x30, 0x23, 2, 1, 1, 0x63, 0x1e, 4, 4, 0x64, 0x63, 0x3d, 0x78, 0x0a, 1, 1, 0x0a, 1, 0, 2, 1, 0,
    2, 1, 0, 1, 1, 0, 0x87, 5, 0x63, 0x6c, 0x61, 0x73, 0x73, 0x30, 0,
];

/// One of it alone.
const ITSELF: [u8; 37] = [
    0x30, 0x23, 2, 1, 1, 0x63, 0x1e, 4, 4, 0x64, 0x63, 0x3d, 0x78, 0x0a, 1, 0, 0x0a, 1, 0, 2, 1, 0,
    2, 1, 0, 1, 1, 0, 0x87, 5, 0x63, 0x6c, 0x61, 0x73, 0x73, 0x30, 0,
];

const UNBIND: [u8; 7] = [0x30, 5, 2, 1, 2, 0x42, 0];

static WIDE: [(&[u8], bool, &str); 7] = [
    (&TREE, true, "a whole tree"),
    (&LEVEL, true, "a level"),
    (&ITSELF, false, "the base alone"),
    (&UNBIND, false, "no search"),
    (
        &[
            0x30, 0x84, 0, 0, 0, 12, 2, 1, 1, 0x63, 0x81, 6, 4, 0, 0x0a, 1, 2, 0,
        ],
        true,
        "long lengths",
    ),
    (
        &[0x30, 11, 2, 1, 1, 0x63, 6, 4, 0, 0x0a, 0x81, 1, 0],
        true,
        "the base with a long length",
    ),
    (&[0x30, 5, 2, 1, 1, 0x63, 0], true, "no scope"),
];

/// Whether the octets of a message are wide. It promises nothing.
fn wide(message: &[u8]) -> bool {
    is_wide(message)
}

#[test]
fn searches_of_more_than_the_base_are_wide(rt: HostRuntime) {
    for (message, want, what) in &WIDE {
        assert_eq!(rt; wide(*message), *want, "{what}");
    }
}

static CUTS: [(usize, &[u8], Cut, &str); 10] = [
    (0, &[], Cut { given: 0, left: 0 }, "nothing"),
    (0, &[0x30], Cut { given: 0, left: 0 }, "a tag alone"),
    (
        0,
        &[0x30, 0x84, 0, 0, 0],
        Cut { given: 0, left: 0 },
        "less than a header",
    ),
    (0, &[0x30, 5, 2], Cut { given: 3, left: 4 }, "a part"),
    (
        4,
        &[1, 2, 0x42, 0, 0x30, 5],
        Cut { given: 4, left: 0 },
        "the rest of a message, and another",
    ),
    (
        4,
        &[1, 2],
        Cut { given: 2, left: 2 },
        "more of a message, but not all",
    ),
    (
        0,
        &[0x30, 5, 2, 1, 2, 0x42, 0, 0x30, 5, 2],
        Cut { given: 7, left: 0 },
        "a message and a part of another",
    ),
    (
        0,
        &[0x30, 5, 2, 1, 2, 0x42, 0, 0x30, 5, 2, 1, 3, 0x42, 0, 0x31],
        Cut { given: 14, left: 0 },
        "two messages that aren't wide, and none",
    ),
    (0, &[0x31, 5], Cut { given: 2, left: 0 }, "no message"),
    (0, &TREE, Cut { given: 37, left: 0 }, "a search"),
];

/// The cut of octets. It promises nothing.
fn cut_of(left: usize, octets: &[u8]) -> Cut {
    cut_at(left, octets)
}

#[test]
fn octets_are_cut_behind_the_first_wide_message(rt: HostRuntime) {
    for (left, octets, want, what) in &CUTS {
        assert_eq!(rt; cut_of(*left, *octets), *want, "{what}");
    }
}

// So many of the octets can be given at once, counted from the front of all that are kept.
fn keeps(rt: &impl Abort, kept: &mut Kept, octets: &[u8], want: usize, what: &str) {
    assert_eq!(rt; kept.keep(octets).ok(), Some(want), "{what}");
}

// These counts of the octets are given in turn into a buffer of 100, and then none.
fn gives(rt: &impl Abort, kept: &mut Kept, counts: &[usize], what: &str) {
    let mut buf = [0u8; 100];
    for want in counts {
        assert_eq!(rt; kept.give(&mut buf), *want, "{what}");
    }
    assert_eq!(rt; kept.give(&mut buf), 0, "no more than {what}");
}

// So many octets are kept, and whether they wait for others.
fn has(rt: &impl Abort, kept: &Kept, count: usize, waits: bool) {
    assert_eq!(rt; (kept.octets().len(), kept.is_waiting()), (count, waits));
}

/// A search of the base alone, one of a whole tree, an unbind, one of a level and one of a whole tree.
static PARTS: [&[u8]; 5] = [&ITSELF, &TREE, &UNBIND, &LEVEL, &TREE];

/// The parts, one behind the other.
fn stream(alloc: Global) -> Result<Vec<u8>, AllocError> {
    let mut stream = Vec::new(alloc);
    for part in PARTS.iter() {
        stream.extend_from_slice(*part)?;
    }
    Ok(stream)
}

#[test]
fn searches_of_many_entries_are_given_one_by_one(rt: HostRuntime) -> Result<(), Fail> {
    let octets = stream(rt.alloc())?;
    let mut kept = Kept::new(rt.alloc());
    keeps(
        &rt,
        &mut kept,
        &octets,
        74,
        "the base alone and a whole tree",
    );
    has(&rt, &kept, 81, false);
    gives(&rt, &mut kept, &[44, 37], "the others");
    has(&rt, &kept, 0, true);
    Ok(())
}

// The first 50 octets, which end in the middle of a message.
fn front_of(octets: &[u8]) -> &[u8] {
    octets.split_at(octets.len().min(50)).0
}

// The others.
fn rest_of(octets: &[u8]) -> &[u8] {
    octets.split_at(octets.len().min(50)).1
}

#[test]
fn a_stream_that_begins_in_mid_message_is_cut_too(rt: HostRuntime) -> Result<(), Fail> {
    let octets = stream(rt.alloc())?;
    let mut kept = Kept::new(rt.alloc());
    keeps(&rt, &mut kept, front_of(&octets), 37, "the base alone");
    gives(&rt, &mut kept, &[13], "13 of a whole tree");
    keeps(&rt, &mut kept, rest_of(&octets), 24, "the rest of it");
    gives(&rt, &mut kept, &[44, 37], "the others");
    Ok(())
}

// One octet of the tag of a message is kept: none can be given, and it can be copied.
fn has_tag(rt: &impl Abort, kept: &mut Kept) {
    let mut buf = [0u8; 4];
    let given = kept.give(&mut buf);
    let copied = kept.copy(&mut buf);
    assert_eq!(rt; (given, copied), (0, 1));
}

#[test]
fn octet_by_octet_only_the_first_waits(rt: HostRuntime) {
    let mut kept = Kept::new(rt.alloc());
    keeps(&rt, &mut kept, &TREE[..1], 0, "a tag alone");
    has(&rt, &kept, 1, true);
    has_tag(&rt, &mut kept);
    keeps(&rt, &mut kept, &TREE[..2], 2, "its header");
    for index in 2..37 {
        keeps(&rt, &mut kept, &TREE[index..index + 1], 1, "an octet more");
    }
    keeps(&rt, &mut kept, &TREE[..1], 0, "the tag of another");
    kept.forget();
    has(&rt, &kept, 0, true);
}

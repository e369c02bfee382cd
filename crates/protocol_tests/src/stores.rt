//! The store of the link of the system's sockets: a file.

use crate::steps::Answer::*;
use crate::steps::Step::*;
use crate::steps::{Row, Step};
use crate::talk::{new_talk, play};
use std::test::Fail;
use wire_io::Took;

static STORED: [Row; 10] = [
    (Remove("stored"), Done),
    // made
    (OpenStore("stored"), Done),
    (Mode("stored"), Permissions(0o600)),
    // nothing to be cut
    (Cut(0), Done),
    (Store(b"abc\n"), Done),
    (Store(b""), Done),
    (Store(b"de\n"), Done),
    (Sync, Done),
    // nothing to wait for
    (Sync, Done),
    (Text("stored", "abc\nde\n"), Is(true)),
];

static STORED_AGAIN: [Row; 9] = [
    // as it is
    (OpenStore("./stored"), Done),
    (Text("stored", "abc\nde\n"), Is(true)),
    (Cut(4), Done),
    (Text("stored", "abc\n"), Is(true)),
    (Store(b"f\n"), Done),
    // cut before the disk was waited for
    (Cut(5), Done),
    (Store(b"g\n"), Done),
    (Sync, Done),
    (Text("stored", "abc\nfg\n"), Is(true)),
];

#[test]
fn octets_are_appended_behind_those_to_which_a_store_was_cut(rt: HostRuntime) -> Result<(), Fail> {
    for rows in [STORED.as_slice(), STORED_AGAIN.as_slice()] {
        let mut talk = new_talk(&rt, 1)?;
        play(&rt, &mut talk, rows);
    }
    Ok(())
}

static LOCKED: [Row; 3] = [
    (Remove("locked"), Done),
    (OpenStore("locked"), Done),
    (Store(b"abc\n"), Done),
];

static LOCKED_OUT: [Row; 2] = [(OpenStore("locked"), Failed), (Cut(0), Failed)];

static LOCKED_STILL: [Row; 2] = [
    (Store(b"de\n"), Done),
    (Text("locked", "abc\nde\n"), Is(true)),
];

#[test]
fn a_store_is_locked_against_another_link(rt: HostRuntime) -> Result<(), Fail> {
    let mut first = new_talk(&rt, 1)?;
    let mut other = new_talk(&rt, 1)?;
    let mut later = new_talk(&rt, 1)?;
    play(&rt, &mut first, &LOCKED);
    play(&rt, &mut other, &LOCKED_OUT);
    play(&rt, &mut first, &LOCKED_STILL);
    drop(first);
    play(&rt, &mut later, &[(OpenStore("locked"), Done)]);
    Ok(())
}

// Steps that are faults, behind an opening or not.
static FAULTS: [(bool, Step); 5] = [
    // not open, not even where it cuts none
    (false, Cut(0)),
    (false, Store(b"de\n")),
    // open already
    (true, OpenStore("failed")),
    // fewer octets, and far fewer
    (true, Cut(5)),
    (true, Cut(u64::MAX)),
];

// Before the fault: nothing was stored to wait for.
static UNOPENED: [Row; 2] = [(Remove("failed"), Done), (Sync, Done)];

static OPENED: [Row; 4] = [
    (Remove("failed"), Done),
    (Sync, Done),
    (OpenStore("failed"), Done),
    (Store(b"abc\n"), Done),
];

// After it, every later call is one, and nothing is written.
static LATER: [Row; 5] = [
    (OpenStore("failed"), Failed),
    (Cut(0), Failed),
    (Store(b"de\n"), Failed),
    (Sync, Failed),
    (Write(1, b"x"), Taken(Took::Later)),
];

static NO_FILE: [Row; 1] = [(Exists("failed"), Is(false))];

static AS_IT_WAS: [Row; 2] = [
    (Exists("failed"), Is(true)),
    (Text("failed", "abc\n"), Is(true)),
];

#[test]
fn a_store_that_failed_takes_nothing_any_more(rt: HostRuntime) -> Result<(), Fail> {
    for (is_open, fault) in &FAULTS {
        let before: &[Row] = if *is_open { &OPENED } else { &UNOPENED };
        let after: &[Row] = if *is_open { &AS_IT_WAS } else { &NO_FILE };
        let mut talk = new_talk(&rt, 1)?;
        play(&rt, &mut talk, before);
        play(&rt, &mut talk, &[(*fault, Failed)]);
        play(&rt, &mut talk, &LATER);
        play(&rt, &mut talk, after);
    }
    Ok(())
}

// What can't be a store: no name, a folder, a file in no folder and in one in which none is made, and a device that can't
// be synced.
static NO_STORES: [&str; 5] = ["", ".", "none/stored", "/proc/stored", "/dev/full"];

#[test]
fn what_is_no_file_is_no_store(rt: HostRuntime) -> Result<(), Fail> {
    for name in &NO_STORES {
        let mut talk = new_talk(&rt, 1)?;
        let rows = [(OpenStore(*name), Failed), (Store(b"abc\n"), Failed)];
        play(&rt, &mut talk, &rows);
    }
    Ok(())
}

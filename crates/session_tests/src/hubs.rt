//! A hub that hears events: what it tells of its connections, and what waits for one that takes nothing.

use crate::messages::{BIND, BOUND};
use aci_index::IndexedDir;
use dir_tree::Tree;
use session_hub::{Bounds, Event, Hub};
use std::alloc::{AllocError, Global};
use std::test::Fail;

const NOTHING: &[u8] = b"";

// Hears an event. It promises nothing, so that the proof of a test goes by what the test asks of the hub.
fn hear(hub: &mut Hub, dir: &mut IndexedDir, event: Event<'_>) -> Result<(), AllocError> {
    hub.hear(dir, event)
}

// So many octets of the queue were taken, if it has them.
fn take(hub: &mut Hub, conn: u32, count: usize) {
    if count <= hub.queue(conn).len() {
        hub.took(conn, count);
    }
}

// What a connection has unread, what is to be sent to it, and whether it is held.
fn held(hub: &Hub, conn: u32) -> (&[u8], &[u8], bool) {
    (
        hub.unread(conn),
        hub.queue(conn),
        hub.requester(conn).is_some(),
    )
}

#[test]
fn a_message_that_comes_octet_by_octet_is_answered_once(rt: HostRuntime) -> Result<(), Fail> {
    let mut hub = Hub::new(rt.alloc(), Bounds::NONE)?;
    let mut dir = IndexedDir::new(rt.alloc(), Tree::new(rt.alloc()))?;
    hear(&mut hub, &mut dir, Event::Opened(1))?;
    for at in 0..BIND.len() {
        let (front, rest) = BIND.split_at(at);
        assert_eq!(rt;
            held(&hub, 1),
            (front, NOTHING, true),
            "the message isn't whole yet"
        );
        hear(&mut hub, &mut dir, Event::Bytes(1, rest.split_at(1).0))?;
    }
    assert_eq!(rt;
        held(&hub, 1),
        (NOTHING, BOUND, true),
        "the message was read once"
    );
    assert_eq!(rt;
        held(&hub, 2),
        (NOTHING, NOTHING, false),
        "one that never came"
    );
    Ok(())
}

// So many binds, one behind the other.
fn binds(alloc: Global, count: u32) -> Result<Vec<u8>, AllocError> {
    let mut octets = Vec::new(alloc);
    for _bind in 0..count {
        octets.extend_from_slice(BIND)?;
    }
    Ok(octets)
}

// A hub for whose queues there is this bound, whose connection 1 has sent 80,000 binds and whose connection 2 has sent so
// many before; neither takes anything.
fn flooded(
    alloc: Global,
    dir: &mut IndexedDir,
    queues: u64,
    beside: u32,
) -> Result<Hub, AllocError> {
    let mut hub = Hub::new(
        alloc,
        Bounds {
            terms: Bounds::NONE.terms,
            queues,
        },
    )?;
    hear(&mut hub, dir, Event::Opened(1))?;
    hear(&mut hub, dir, Event::Opened(2))?;
    let (before, piece) = (binds(alloc, beside)?, binds(alloc, 80_000)?);
    hear(&mut hub, dir, Event::Bytes(2, &before))?;
    hear(&mut hub, dir, Event::Bytes(1, &piece))?;
    Ok(hub)
}

// How many octets wait for the connection 1, where it was cut, and whether it is closing and any was cut.
fn told(hub: &Hub) -> (usize, Option<u64>, bool, bool) {
    (
        hub.queue(1).len(),
        hub.cut(1),
        hub.closing(1),
        hub.was_cut(),
    )
}

// How many octets all queues may hold, how many binds wait for another connection, and how many of 80,000 are then
// answered, each by 14 octets: until more than 1,048,576 wait, or more than the other leaves of the bound.
struct Queued {
    queues: u64,
    beside: u32,
    answered: usize,
    cut: Option<u64>,
}

static QUEUED: [Queued; 4] = [
    Queued {
        queues: u64::MAX,
        beside: 80_000,
        answered: 80_000,
        cut: None,
    },
    Queued {
        queues: 0,
        beside: 0,
        answered: 74_899,
        cut: Some(74_899),
    },
    Queued {
        queues: 1_088_576,
        beside: 0,
        answered: 77_756,
        cut: Some(77_756),
    },
    Queued {
        queues: 1_088_576,
        beside: 1_000,
        answered: 76_756,
        cut: Some(76_756),
    },
];

#[test]
fn a_connection_that_takes_no_replies_is_cut_when_it_goes_on(rt: HostRuntime) -> Result<(), Fail> {
    for row in QUEUED.iter() {
        let mut dir = IndexedDir::new(rt.alloc(), Tree::new(rt.alloc()))?;
        let mut hub = flooded(rt.alloc(), &mut dir, row.queues, row.beside)?;
        let is_cut = row.cut.is_some();
        let wanted = (row.answered.saturating_mul(14), row.cut, is_cut, is_cut);
        assert_eq!(rt; told(&hub), wanted);
        let waits = hub.queue(2).len();
        hear(&mut hub, &mut dir, Event::Bytes(2, BIND))?;
        let answered = hub.queue(2).len().saturating_sub(waits);
        assert_eq!(rt; answered, 14, "the other is answered");
    }
    Ok(())
}

#[test]
fn what_was_taken_of_a_long_queue_is_not_sent_again(rt: HostRuntime) -> Result<(), Fail> {
    let mut dir = IndexedDir::new(rt.alloc(), Tree::new(rt.alloc()))?;
    let mut hub = flooded(rt.alloc(), &mut dir, u64::MAX, 0)?;
    for taken in [14usize, 500_003, 400_000, 219_969] {
        take(&mut hub, 1, taken);
    }
    assert_eq!(rt; hub.queue(1), BOUND);
    hear(&mut hub, &mut dir, Event::Bytes(1, BIND))?;
    assert_eq!(rt; hub.queue(1).len(), 28);
    Ok(())
}

//! The loop over links whose connections take nothing for a while, or are found lost.

ghost use Rattle.std.specs.Prelude.{◌<◌, length, IfOk};
ghost use Rattle.wire_io.specs.script_text.script.Script.{OpensOnce, AreFilled};

use crate::loops::serve;
use crate::messages::{BIND, BOUND};
use aci_index::IndexedDir;
use dir_tree::Tree;
use session_hub::{Bounds, Ended, serve_loop};
use std::alloc::{AllocError, Global};
use std::test::Fail;
use wire_io::plain_values::Octets;
use wire_io::script_text::ScriptEvent;
use wire_io::{Heard, Link, NextFault, NoMemory, ScriptLink, Took};

// The octets of an anonymous bind.
fn bind(alloc: Global) -> Result<Octets, AllocError>
    ensures { IfOk result (λ octets. 0 < length octets) }
{
    let mut octets = Vec::new(alloc);
    octets.push(BIND[0])?;
    octets.extend_from_slice(&BIND[1..])?;
    Ok(Octets::from_vec(octets))
}

// Two connections open and bind, 1 before 2, and 1 ends.
fn events(alloc: Global) -> Result<Vec<ScriptEvent>, AllocError>
    ensures once { IfOk result (λ events. OpensOnce events.items) }
    ensures filled { IfOk result (λ events. AreFilled events.items) }
{
    let (one, other) = (bind(alloc)?, bind(alloc)?);
    Ok(vec![in alloc;
        ScriptEvent::Opened(2),
        ScriptEvent::Opened(1),
        ScriptEvent::Bytes(1, one),
        ScriptEvent::Bytes(2, other),
        ScriptEvent::Ended(1),
    ]?)
}

// A link of these events, one of whose writes takes nothing now.
fn slow_link(alloc: Global, later: u64) -> Result<ScriptLink, AllocError> {
    let mut refused = Vec::new(alloc);
    refused.push(later)?;
    let events = events(alloc)?;
    let link = ScriptLink::new(alloc, events, Vec::new(alloc), refused, Vec::new(alloc));
    Ok(link)
}

// A link of these events, one of whose writes finds its connection lost.
fn losing_link(alloc: Global, gone: u64) -> Result<ScriptLink, AllocError> {
    let mut lost = Vec::new(alloc);
    lost.push(gone)?;
    let events = events(alloc)?;
    let link = ScriptLink::new(alloc, events, Vec::new(alloc), Vec::new(alloc), lost);
    Ok(link)
}

#[test]
fn a_write_that_takes_nothing_now_is_made_again_until_all_is_sent(
    rt: HostRuntime,
) -> Result<(), Fail> {
    for later in 0..4u64 {
        let mut link = slow_link(rt.alloc(), later)?;
        assert_eq!(rt;
            serve(rt.alloc(), &mut link),
            Ended::Stopped,
            "write {later}"
        );
        assert_eq!(rt; link.said_of(1), BOUND, "write {later}");
        assert_eq!(rt; link.said_of(2), BOUND, "write {later}");
        assert_eq!(rt; link.hung_up(1), true, "write {later}");
        assert_eq!(rt; link.hung_up(2), false, "write {later}");
    }
    Ok(())
}

// The write that finds its connection lost, that connection, and the other one.
static LOST: [(u64, u32, u32); 2] = [(0, 1, 2), (1, 2, 1)];

#[test]
fn a_lost_connection_is_hung_up_and_the_others_are_served(rt: HostRuntime) -> Result<(), Fail> {
    for (gone, lost, other) in LOST.iter() {
        let mut link = losing_link(rt.alloc(), *gone)?;
        assert_eq!(rt;
            serve(rt.alloc(), &mut link),
            Ended::Stopped,
            "write {gone}"
        );
        assert_eq!(rt; link.said_of(*lost).len(), 0, "write {gone}");
        assert_eq!(rt; link.hung_up(*lost), true, "write {gone}");
        assert_eq!(rt; link.said_of(*other), BOUND, "write {gone}");
    }
    Ok(())
}

// What a connection of such a link did: how often it took nothing, and how many octets it took.
#[derive(Clone, Copy)]
struct Writes {
    refused: u8,
    taken: usize,
}

// A link of 256 connections, each of which opens and then binds; 512 idle events follow. Those of odd numbers take
// nothing at their first three writes. It tells nothing of what it did.
#[derive(Drop)]
struct HalfSlow {
    given: u32,
    writes: Vec<Writes>,
}

impl Link for HalfSlow {
    ghost use Rattle.std.specs.Prelude.{None};

    ghost journal = { λ _. None };

    ghost plan = { λ _. None };

    ghost faults = { λ _. 0 };

    ghost store_faults = { λ _. 0 };

    ghost lost = { λ _. 0 };

    ghost refusals = { λ _. 0 };

    fn end_idle_after(&mut self, _seconds: u64) {}

    #[tactic(auto, unfolding(wire_io::specs::link::Telling::OpenTells, wire_io::specs::Answers::LinkCause, wire_io::specs::Answers::RefusalCause, wire_io::specs::Answers::IsPlanned))]
    fn open(&mut self, _address: &str, _sessions: u64) -> Result<(), NextFault> {
        Ok(())
    }

    #[tactic(auto, unfolding(wire_io::specs::link::Telling::StoreOpenTells, wire_io::specs::Answers::LinkCause, wire_io::specs::Answers::RefusalCause, wire_io::specs::Answers::IsPlanned))]
    fn open_store(&mut self, _name: &str) -> Result<(), NextFault> {
        Ok(())
    }

    #[tactic(auto, unfolding(wire_io::specs::link::Telling::NoteTells, wire_io::specs::Answers::LinkCause, wire_io::specs::Answers::RefusalCause, wire_io::specs::Answers::IsPlanned))]
    fn cut_store(&mut self, _length: u64) -> Result<(), NextFault> {
        Ok(())
    }

    #[tactic(auto, unfolding(wire_io::specs::link::Telling::NoteTells, wire_io::specs::Answers::LinkCause, wire_io::specs::Answers::RefusalCause, wire_io::specs::Answers::IsPlanned))]
    fn store(&mut self, _octets: &[u8]) -> Result<(), NextFault> {
        Ok(())
    }

    #[tactic(auto, unfolding(wire_io::specs::Answers::LinkCause, wire_io::specs::Answers::RefusalCause, wire_io::specs::Answers::IsPlanned))]
    fn sync_store(&mut self) -> Result<(), NextFault> {
        Ok(())
    }

    #[tactic(auto, unfolding(wire_io::specs::link::Telling::NextTells, wire_io::specs::Playing::NextPlays, wire_io::specs::Answers::LinkCause, wire_io::specs::Answers::RefusalCause, wire_io::specs::Answers::IsPlanned))]
    fn next(&mut self, buf: &mut [u8]) -> Result<Heard, NextFault> {
        let turn = self.given;
        if turn >= 1024 {
            return Ok(Heard::Stop);
        }
        self.given = turn + 1;
        if turn < 256 {
            return Ok(Heard::Opened(turn + 1));
        }
        if turn < 512 && buf.len() >= 14 {
            buf[..14].copy_from_slice(&BIND[..14]);
            return Ok(Heard::Bytes(turn - 255, 14));
        }
        Ok(Heard::Idle)
    }

    #[tactic(auto, unfolding(wire_io::specs::link::Telling::TookTells, wire_io::specs::Answers::WriteCause, wire_io::specs::Answers::WriteRefusal, wire_io::specs::Answers::IsPlanned))]
    fn write(&mut self, conn: u32, bytes: &[u8]) -> Took {
        match self.writes.get_mut(conn as usize) {
            None => Took::Later,
            Some(writes) => {
                if conn % 2 == 1 && writes.refused < 3 {
                    writes.refused += 1;
                    return Took::Later;
                }
                writes.taken = writes.taken.saturating_add(bytes.len());
                Took::Took(bytes.len())
            }
        }
    }

    #[tactic(auto, unfolding(wire_io::specs::link::Telling::NoteTells, wire_io::specs::Answers::NoteRefusal))]
    fn hold(&mut self, _conn: u32) -> Result<(), NoMemory> {
        Ok(())
    }

    #[tactic(auto, unfolding(wire_io::specs::link::Telling::NoteTells, wire_io::specs::Answers::NoteRefusal))]
    fn release(&mut self, _conn: u32) -> Result<(), NoMemory> {
        Ok(())
    }

    #[tactic(auto, unfolding(wire_io::specs::link::Telling::NoteTells, wire_io::specs::Answers::NoteRefusal))]
    fn hang_up(&mut self, _conn: u32) -> Result<(), NoMemory> {
        Ok(())
    }
}

#[test]
fn each_of_256_connections_is_answered_where_half_of_them_are_slow(
    rt: HostRuntime,
) -> Result<(), Fail> {
    let writes = vec![in rt.alloc(); Writes {
        refused: 0,
        taken: 0
    }; 257]?;
    let mut link = HalfSlow { given: 0, writes };
    let mut dir = IndexedDir::new(rt.alloc(), Tree::new(rt.alloc()))?;
    assert_eq!(rt;
        serve_loop(rt.alloc(), &mut dir, &mut link, 2000, Bounds::NONE),
        Ended::Stopped
    );
    for (conn, writes) in link.writes.iter().enumerate() {
        let wanted = if conn == 0 { 0 } else { BOUND.len() };
        assert_eq!(rt; writes.taken, wanted, "connection {conn}");
    }
    Ok(())
}

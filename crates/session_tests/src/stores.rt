//! The loop over a link that stores changes.

ghost use Rattle.std.specs.Prelude.{◌≡◌, true, false, length};
ghost use Rattle.wire_io.specs.Answers.{HeardFits};
ghost use Rattle.wire_io.specs.plain_values.Counts.{Rose};

use crate::messages::BIND;
use crate::updates::{ADD, DELETE, site};
use session_hub::{Bounds, Ended, Terms, serve_loop};
use std::alloc::Global;
use std::test::Fail;
use wire_io::plain_values::raised;
use wire_io::{Heard, Link, NextFault, NoMemory, Took};

// A call of a link that stores or takes octets.
#[derive(Clone, Copy, Debug, PartialEq, Eq)]
enum Call {
    Stored,
    Took,
}

// What a link refuses, once.
#[derive(Clone, Copy, Debug, PartialEq, Eq)]
enum Refused {
    Nothing,
    Store,
    Sync,
}

// A link of one connection that opens and sends these messages, each by itself. It notes the calls that store and that take,
// and the octets stored. It tells nothing of what it did.
#[derive(Drop)]
struct Keeper {
    messages: &'static [&'static [u8]],
    given: usize,
    refuses: Refused,
    store_faults: u64,
    refusals: u64,
    calls: Vec<Call>,
    stored: Vec<u8>,
}

impl Keeper {
    fn new(alloc: Global, messages: &'static [&'static [u8]], refuses: Refused) -> Keeper {
        Keeper {
            messages,
            given: 0,
            refuses,
            store_faults: 0,
            refusals: 0,
            calls: Vec::new(alloc),
            stored: Vec::new(alloc),
        }
    }

    // Whether the call is to be refused, which is a fault.
    fn refuses(&mut self, call: Refused) -> bool
        ensures refused { result ≡ true → Rose self.old.store_faults self.new.store_faults }
        ensures kept { result ≡ false → self.new.store_faults ≡ self.old.store_faults }
        ensures refusals { self.new.refusals ≡ self.old.refusals }
    {
        let is_refused = self.refuses == call && self.store_faults == 0;
        if is_refused {
            self.store_faults = 1;
        }
        is_refused
    }
}

// The event of a message, whose octets are put at the front of the buffer.
fn came(buf: &mut [u8], message: &[u8]) -> Heard
    ensures { HeardFits (length buf.new) result }
{
    if message.is_empty() || message.len() > buf.len() {
        return Heard::Idle;
    }
    buf[..message.len()].copy_from_slice(message);
    Heard::Bytes(1, message.len())
}

impl Link for Keeper {
    ghost use Rattle.std.specs.Prelude.{None};

    ghost journal = { λ _. None };

    ghost plan = { λ _. None };

    ghost faults = { λ _. 0 };

    ghost store_faults = { λ keeper. keeper.store_faults };

    ghost lost = { λ _. 0 };

    ghost refusals = { λ keeper. keeper.refusals };

    fn end_idle_after(&mut self, _seconds: u64) {}

    #[tactic(auto, unfolding(wire_io::specs::link::Telling::OpenTells, wire_io::specs::Answers::LinkCause, wire_io::specs::Answers::RefusalCause, wire_io::specs::Answers::IsPlanned))]
    fn open(&mut self, _address: &str, _sessions: u64) -> Result<(), NextFault> {
        Ok(())
    }

    #[tactic(auto, unfolding(wire_io::specs::link::Telling::StoreOpenTells, wire_io::specs::Answers::LinkCause, wire_io::specs::Answers::RefusalCause, wire_io::specs::Answers::IsPlanned))]
    fn open_store(&mut self, _name: &str) -> Result<(), NextFault> {
        Ok(())
    }

    #[tactic(auto, unfolding(wire_io::specs::link::Telling::NoteTells, wire_io::specs::Answers::LinkCause, wire_io::specs::Answers::RefusalCause, wire_io::specs::Answers::IsPlanned))]
    fn cut_store(&mut self, _length: u64) -> Result<(), NextFault> {
        Ok(())
    }

    #[tactic(auto, unfolding(wire_io::specs::link::Telling::NoteTells, wire_io::specs::Answers::LinkCause, wire_io::specs::Answers::RefusalCause, wire_io::specs::Answers::IsPlanned))]
    fn store(&mut self, octets: &[u8]) -> Result<(), NextFault> {
        if self.refuses(Refused::Store) {
            return Err(NextFault::Failed);
        }
        if self.calls.push(Call::Stored).is_err()
            || self.stored.extend_from_slice(octets).is_err()
        {
            self.refusals = raised(self.refusals);
            return Err(NextFault::NoMemory);
        }
        Ok(())
    }

    #[tactic(auto, unfolding(wire_io::specs::Answers::LinkCause, wire_io::specs::Answers::RefusalCause, wire_io::specs::Answers::IsPlanned))]
    fn sync_store(&mut self) -> Result<(), NextFault> {
        if self.given == 2 && self.refuses(Refused::Sync) {
            return Err(NextFault::Failed);
        }
        Ok(())
    }

    #[tactic(auto, unfolding(wire_io::specs::link::Telling::NextTells, wire_io::specs::Playing::NextPlays, wire_io::specs::Answers::LinkCause, wire_io::specs::Answers::RefusalCause, wire_io::specs::Answers::IsPlanned))]
    fn next(&mut self, buf: &mut [u8]) -> Result<Heard, NextFault> {
        let turn = self.given;
        self.given = turn.saturating_add(1);
        if turn == 0 {
            return Ok(Heard::Opened(1));
        }
        match self.messages.get(turn - 1) {
            Some(message) => Ok(came(buf, message)),
            None => Ok(Heard::Stop),
        }
    }

    #[tactic(auto, unfolding(wire_io::specs::link::Telling::TookTells, wire_io::specs::Answers::WriteCause, wire_io::specs::Answers::WriteRefusal, wire_io::specs::Answers::IsPlanned))]
    fn write(&mut self, _conn: u32, bytes: &[u8]) -> Took {
        match self.calls.push(Call::Took) {
            Ok(()) => Took::Took(bytes.len()),
            Err(_) => {
                self.refusals = raised(self.refusals);
                Took::NoMemory
            }
        }
    }

    #[tactic(auto, unfolding(wire_io::specs::link::Telling::NoteTells, wire_io::specs::Answers::NoteRefusal))]
    fn hold(&mut self, _conn: u32) -> Result<(), NoMemory> {
        Ok(())
    }

    #[tactic(auto, unfolding(wire_io::specs::link::Telling::NoteTells, wire_io::specs::Answers::NoteRefusal))]
    fn release(&mut self, _conn: u32) -> Result<(), NoMemory> {
        Ok(())
    }

    #[tactic(auto, unfolding(wire_io::specs::link::Telling::NoteTells, wire_io::specs::Answers::NoteRefusal))]
    fn hang_up(&mut self, _conn: u32) -> Result<(), NoMemory> {
        Ok(())
    }
}

// Serves the link over the site.
fn serve(alloc: Global, link: &mut Keeper, keeps: bool) -> Result<Ended, Fail> {
    let mut dir = site(alloc)?;
    let bounds = Bounds {
        terms: Terms { limit: 0, keeps },
        queues: u64::MAX,
    };
    Ok(serve_loop(alloc, &mut dir, link, 100, bounds))
}

// A search of the root DSE.
const SEARCH: &[u8] =
    b"\x30\x25\x02\x01\x01\x63\x20\x04\x00\x0a\x01\x00\x0a\x01\x00\x02\x01\x00\x02\x01\x00\x01\x01\x00\
    \x87\x0bobjectClass\x30\x00";

// What is asked for, in words and as messages, and the calls that come of it where changes are kept.
static STORED: [(&str, &[&[u8]], &[Call]); 4] = [
    ("an add", &[ADD], &[Call::Stored, Call::Took]),
    (
        "an add, and a delete of its entry",
        &[ADD, DELETE],
        &[Call::Stored, Call::Took, Call::Stored, Call::Took],
    ),
    (
        "a delete of an entry that isn't there",
        &[DELETE],
        &[Call::Took],
    ),
    (
        "a bind and a search",
        &[BIND, SEARCH],
        &[Call::Took, Call::Took],
    ),
];

#[test]
fn a_change_is_stored_before_its_reply_is_taken(rt: HostRuntime) -> Result<(), Fail> {
    for (words, messages, calls) in STORED.iter() {
        let mut link = Keeper::new(rt.alloc(), messages, Refused::Nothing);
        assert_eq!(rt;
            serve(rt.alloc(), &mut link, true)?,
            Ended::Stopped,
            "{words}"
        );
        assert_eq!(rt; link.calls.as_slice(), *calls, "{words}");
    }
    Ok(())
}

#[test]
fn changes_are_stored_as_records(rt: HostRuntime) -> Result<(), Fail> {
    let mut link = Keeper::new(rt.alloc(), &[ADD, DELETE], Refused::Nothing);
    serve(rt.alloc(), &mut link, true)?;
    let records: &[u8] =
        b"dn: cn=e,dc=w\nchangetype: add\nobjectClass: device\n\ndn: cn=e,dc=w\nchangetype: delete\n\n";
    assert_eq!(rt; link.stored.as_slice(), records);
    Ok(())
}

#[test]
fn nothing_is_stored_where_no_changes_are_kept(rt: HostRuntime) -> Result<(), Fail> {
    let mut link = Keeper::new(rt.alloc(), &[ADD, DELETE], Refused::Store);
    assert_eq!(rt; serve(rt.alloc(), &mut link, false)?, Ended::Stopped);
    assert_eq!(rt; link.calls.as_slice(), [Call::Took, Call::Took].as_slice());
    Ok(())
}

// What the link refuses, and the calls before the loop ends with that: of the sync, the one behind the first message.
static REFUSED: [(Refused, &[Call]); 2] = [
    (Refused::Store, &[]),
    (Refused::Sync, &[Call::Stored, Call::Took]),
];

#[test]
fn the_loop_ends_where_a_change_can_not_be_stored(rt: HostRuntime) -> Result<(), Fail> {
    for (refused, calls) in REFUSED.iter() {
        let mut link = Keeper::new(rt.alloc(), &[ADD, DELETE], *refused);
        assert_eq!(rt;
            serve(rt.alloc(), &mut link, true)?,
            Ended::StoreFault,
            "{refused:?}"
        );
        assert_eq!(rt; link.calls.as_slice(), *calls, "{refused:?}");
    }
    Ok(())
}

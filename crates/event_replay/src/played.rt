//! The events of a script, as a loop hears them.

ghost use Rattle.std.specs.Prelude.{◌≡◌, ◌≤◌, [], IfOk, length, take};
ghost use Rattle.session_hub.specs.serve.Loops.{buffer_length};
ghost use Rattle.session_hub.specs.session_model.Journaled.{steps_of_events};
ghost use Rattle.session_hub.specs.session_model.wire_io.Answers.{HeardFits};
ghost use Rattle.session_hub.specs.session_model.wire_io.Pieces.{pieces};
ghost use Rattle.session_hub.specs.session_model.wire_io.Scripted.{fresh_link};
ghost use Rattle.session_hub.specs.session_model.wire_io.link.Telling.{event_of};
ghost use Rattle.event_replay.specs.Played.{played_steps, IsPlayedAs};
ghost use Rattle.event_replay.specs.Playing.{IsGiven, TakesNext};

use dir_tree::NoMemory;
use dir_tree::plain_values::Octets;
use session_hub::BUFFER_LENGTH;
use session_hub::session_model::wire_io::{Heard, Link, ScriptEvent, ScriptLink};
use std::alloc::{AllocError, Global};

// So many octets of the buffer's front, in memory of their own.
fn copied_front(alloc: Global, buffer: &[u8], count: usize) -> Result<Octets, NoMemory>
    requires { count ≤ length buffer.now }
    ensures ok { IfOk result (λ octets. octets ≡ take count buffer.now) }
{
    Ok(Octets::from_vec(buffer.split_at(count).0.to_vec(alloc)?))
}

// The event that was heard, whose octets stand at the front of the buffer, in memory of its own; None where none is left.
fn given_event(alloc: Global, heard: Heard, buffer: &[u8]) -> Result<Option<ScriptEvent>, NoMemory>
    requires fits { HeardFits (length buffer.now) heard }
    requires long { length buffer.now ≡ buffer_length }
    ensures ok { IfOk result (IsGiven (event_of buffer.now heard)) }
{
    match heard {
        Heard::Opened(conn) => Ok(Some(ScriptEvent::Opened(conn))),
        Heard::Bytes(conn, count) => {
            let octets = copied_front(alloc, buffer, count)?;
            Ok(Some(ScriptEvent::Bytes(conn, octets)))
        }
        Heard::Ended(conn) => Ok(Some(ScriptEvent::Ended(conn))),
        Heard::Stop => Ok(None),
        // A script link gives neither while no connection is on hold.
        Heard::Ready(_) | Heard::Idle => Err(AllocError),
    }
}

// The next event of the link, in memory of its own; None where none is left.
fn next_event(
    alloc: Global,
    link: &mut ScriptLink,
    buffer: &mut [u8],
) -> Result<Option<ScriptEvent>, NoMemory>
    requires long { length buffer.old ≡ buffer_length }
    ensures ok { IfOk result (λ next. TakesNext link.old next link.new) }
{
    match link.next(buffer) {
        Ok(heard) => given_event(alloc, heard, buffer),
        Err(_) => Err(AllocError),
    }
}

// All events of the link, heard in a buffer.
fn heard_events(
    alloc: Global,
    link: &mut ScriptLink,
    buffer: &mut [u8],
) -> Result<Vec<ScriptEvent>, NoMemory>
    requires fresh { link.old ≡ fresh_link link.old.plan.to_come [] [] [] }
    requires long { length buffer.old ≡ buffer_length }
    ensures ok { IfOk result (λ events. IsPlayedAs link.old.plan.to_come events.items) }
{
    let mut events = Vec::new(alloc);
    while let Some(event) = next_event(alloc, link, buffer)? {
        events.push(event)?;
    }
    Ok(events)
}

/// All events that the link gives, in their order, of which octets come in pieces as they do to the loop: at most 65,536
/// octets each. The link has done nothing yet, and none of its calls is to fail. The error comes where memory is wanted.
pub fn played_events(alloc: Global, link: ScriptLink) -> Result<Vec<ScriptEvent>, NoMemory>
    requires fresh { link ≡ fresh_link link.plan.to_come [] [] [] }
    ensures ok { IfOk result (λ events. IsPlayedAs link.plan.to_come events.items) }
    ensures steps { IfOk result (λ events. played_steps events.items
        ≡ steps_of_events (pieces buffer_length link.plan.to_come)) }
{
    let mut link = link;
    let mut buffer = vec![in alloc; 0; BUFFER_LENGTH]?;
    heard_events(alloc, &mut link, buffer.as_mut_slice())
}

//! The events of one connection alone.

ghost use Rattle.std.specs.Prelude.{◌≡◌, IfOk};
ghost use Rattle.session_hub.specs.session_model.Purging.{is_of, purged};
ghost use Rattle.event_replay.specs.Played.{step_of, played_steps, ArePlayed};
ghost use Rattle.event_replay.specs.Playing.{own_of};

use crate::events::copied_event;
use dir_tree::NoMemory;
use session_hub::session_model::script_text::ScriptEvent;
use std::alloc::Global;

// Whether the event is of the connection of the number.
fn is_of(event: &ScriptEvent, number: u32) -> bool
    ensures exact { result ≡ is_of number (step_of event.now) }
{
    match event {
        ScriptEvent::Opened(conn) | ScriptEvent::Bytes(conn, _) | ScriptEvent::Ended(conn) => {
            *conn == number
        }
    }
}

// Those of the events that are of the connection, in memory of their own.
fn copied_own(
    alloc: Global,
    events: &[ScriptEvent],
    number: u32,
) -> Result<Vec<ScriptEvent>, NoMemory>
    ensures ok { IfOk result (λ own. own.items ≡ own_of number events.now) }
{
    let mut own = Vec::new(alloc);
    for event in events {
        if is_of(event, number) {
            own.push(copied_event(alloc, event)?)?;
        }
    }
    Ok(own)
}

/// Those of the events that are of the connection of the number, in their order and in memory of their own. The error comes
/// where memory is wanted.
pub fn own_events(
    alloc: Global,
    events: &[ScriptEvent],
    number: u32,
) -> Result<Vec<ScriptEvent>, NoMemory>
    requires played { ArePlayed events.now }
    ensures played { IfOk result (λ own. ArePlayed own.items) }
    ensures ok { IfOk result (λ own. played_steps own.items ≡ purged number (played_steps events.now)) }
{
    copied_own(alloc, events, number)
}

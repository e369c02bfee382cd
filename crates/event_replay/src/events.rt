//! Events copied.

ghost use Rattle.std.specs.Prelude.{◌≡◌, IfOk};

use dir_tree::NoMemory;
use session_hub::session_model::script_text::ScriptEvent;
use std::alloc::Global;

/// The event in memory of its own.
pub(crate) fn copied_event(alloc: Global, event: &ScriptEvent) -> Result<ScriptEvent, NoMemory>
    ensures ok { IfOk result (λ copy. copy ≡ event.now) }
{
    match event {
        ScriptEvent::Opened(conn) => Ok(ScriptEvent::Opened(*conn)),
        ScriptEvent::Bytes(conn, octets) => Ok(ScriptEvent::Bytes(*conn, octets.copy(alloc)?)),
        ScriptEvent::Ended(conn) => Ok(ScriptEvent::Ended(*conn)),
    }
}

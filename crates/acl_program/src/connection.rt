//! One connection, all of whose events are served over a directory.

ghost use Rattle.std.specs.Prelude.{◌≡◌, [], List, OnOk};
ghost use Rattle.command_files.specs.dir_tree.tree.Numbered.{entries_of};
ghost use Rattle.command_files.specs.script_text.declared.event.ScriptEvent.{ScriptEvent};
ghost use Rattle.command_files.specs.script_text.script.Script.{OpensOnce, AreFilled};
ghost use Rattle.command_files.specs.wire_io.Journal.{taken_of};
ghost use Rattle.command_files.specs.wire_io.Scripted.{fresh_link};
ghost use Rattle.acl_program.specs.Lines.{sent_over};

use aci_index::IndexedDir;
use command_files::dir_tree::NoMemory;
use command_files::script_text::ScriptEvent;
use command_files::wire_io::ScriptLink;
use session_hub::{Bounds, Ended, serve_loop};
use std::alloc::{AllocError, Global};

/// The number of the connection.
pub(crate) const CONNECTION: u32 = 1;

/// How many events are heard at most: more than memory has room for.
const TURNS: u64 = u64::MAX;

/// A link that gives these events, none of whose calls fails.
pub(crate) fn link_of(alloc: Global, events: Vec<ScriptEvent>) -> ScriptLink
    requires once { OpensOnce events.items }
    requires filled { AreFilled events.items }
    ensures fresh { result ≡ fresh_link events.items [] [] [] }
{
    let (failing, later, gone) = (Vec::new(alloc), Vec::new(alloc), Vec::new(alloc));
    ScriptLink::new(alloc, events, failing, later, gone)
}

/// Serves the link's events over the directory, all of them.
pub(crate) fn serve_link(
    alloc: Global,
    dir: &mut IndexedDir,
    link: &mut ScriptLink,
) -> Result<(), NoMemory>
    ensures sends { (events : List ScriptEvent) → link.old ≡ fresh_link events [] [] [] → OnOk result
        (taken_of 1 link.new.journal ≡ sent_over (entries_of dir.old) events) }
{
    match serve_loop(alloc, dir, link, TURNS, Bounds::NONE) {
        Ended::Stopped => Ok(()),
        Ended::TurnsSpent | Ended::LinkFault | Ended::StoreFault | Ended::NoMemory => {
            Err(AllocError)
        },
    }
}

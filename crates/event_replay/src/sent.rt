//! What a connection is sent where events are served over a tree.

ghost use Rattle.std.specs.Prelude.{◌≡◌, [], ℕ, List, IfOk, OnOk};
ghost use Rattle.dir_tree.specs.tree.Numbered.{entries_of};
ghost use Rattle.session_hub.specs.Answering.{rules};
ghost use Rattle.session_hub.specs.session_model.Replaying.{replayed};
ghost use Rattle.session_hub.specs.session_model.script_text.declared.event.ScriptEvent.{ScriptEvent};
ghost use Rattle.session_hub.specs.session_model.script_text.script.Script.{OpensOnce, AreFilled};
ghost use Rattle.session_hub.specs.session_model.wire_io.Journal.{taken_of};
ghost use Rattle.session_hub.specs.session_model.wire_io.Scripted.{fresh_link};
ghost use Rattle.session_hub.specs.Terms.{no_terms};
ghost use Rattle.event_replay.specs.Played.{played_steps, ArePlayed};

use aci_index::IndexedDir;
use dir_tree::{NoMemory, Tree};
use session_hub::session_model::wire_io::{ScriptEvent, ScriptLink};
use session_hub::{Bounds, Ended, serve_loop};
use std::alloc::{AllocError, Global};

// How many events are heard at most: more than memory has room for.
const TURNS: u64 = u64::MAX;

// A link that gives these events, none of whose calls fails.
fn link_of(alloc: Global, events: Vec<ScriptEvent>) -> ScriptLink
    requires once { OpensOnce events.items }
    requires filled { AreFilled events.items }
    ensures fresh { result ≡ fresh_link events.items [] [] [] }
{
    let (failing, later, gone) = (Vec::new(alloc), Vec::new(alloc), Vec::new(alloc));
    ScriptLink::new(alloc, events, failing, later, gone)
}

// Serves the link's events over the directory, all of them.
fn serve_link(alloc: Global, dir: &mut IndexedDir, link: &mut ScriptLink) -> Result<(), NoMemory>
    ensures sends { (events : List ScriptEvent) → ArePlayed events → link.old ≡ fresh_link events [] [] []
        → OnOk result ((number : ℕ) → taken_of number link.new.journal
        ≡ ((replayed (rules no_terms) (entries_of dir.old) (played_steps events)).of number).reply) }
{
    match serve_loop(alloc, dir, link, TURNS, Bounds::NONE) {
        Ended::Stopped => Ok(()),
        Ended::TurnsSpent | Ended::LinkFault | Ended::StoreFault | Ended::NoMemory => {
            Err(AllocError)
        }
    }
}

/// All octets that the connection of the number is sent where these events are served over the tree; none where it never
/// opens. The error comes where memory is wanted.
pub fn sent_to(
    alloc: Global,
    tree: Tree,
    events: Vec<ScriptEvent>,
    number: u32,
) -> Result<Vec<u8>, NoMemory>
    requires played { ArePlayed events.items }
    ensures ok { IfOk result (λ sent. sent.items
        ≡ ((replayed (rules no_terms) (entries_of tree) (played_steps events.items)).of number).reply) }
{
    let mut dir = IndexedDir::new(alloc, tree)?;
    let mut link = link_of(alloc, events);
    serve_link(alloc, &mut dir, &mut link)?;
    link.said_of(number).to_vec(alloc)
}

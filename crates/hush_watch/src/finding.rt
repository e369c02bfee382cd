//! What breaks the hush of a subtree first.

ghost use Rattle.std.specs.Prelude.{◌≡◌, IfOk};
ghost use Rattle.dir_tree.specs.tree.Numbered.{entries_of};
ghost use Rattle.event_replay.specs.Played.{ArePlayed, played_steps};
ghost use Rattle.hush_laws.specs.Hush.{hush_of_replay};
ghost use Rattle.session_hub.specs.Terms.{no_terms};

use crate::watch::Watch;
use crate::watched::Watched;
use aci_index::IndexedDir;
use dir_tree::dn_names::Dn;
use dir_tree::{NoMemory, Tree};
use hush_laws::{Beginning, Fault, Part, is_below_suffix};
use session_hub::session_model::script_text::ScriptEvent;
use std::alloc::Global;

/// What breaks the hush of the subtree of a name first for the connection of a number, while all events are replayed over a
/// tree; None exactly where nothing does. The tree is given twice: as it was at the beginning, and to be changed by the events.
/// The error comes where memory is wanted, for the answer to a message too.
pub fn find_fault(
    alloc: Global,
    before: Tree,
    tree: Tree,
    events: &[ScriptEvent],
    number: u32,
    top: &Dn,
) -> Result<Option<Fault>, NoMemory>
    requires same { entries_of before ≡ entries_of tree }
    requires played { ArePlayed events.now }
    ensures ok { IfOk result (λ fault. fault
        ≡ hush_of_replay no_terms (entries_of tree) (played_steps events.now) number top.now) }
{
    if !is_below_suffix(&before, top) {
        return Ok(Some(Fault {
            heard: 0,
            part: Part::Suffix,
        }));
    }
    let begun = Beginning::new(alloc, &before, top)?;
    let before = IndexedDir::new(alloc, before)?;
    let mut watched = Watched::new(alloc, tree)?;
    let watch = Watch {
        alloc,
        before: &before,
        begun,
        number,
        top,
    };
    watch.first_shown(&mut watched, events)
}

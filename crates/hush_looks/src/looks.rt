//! What is looked at at one place.

ghost use Rattle.std.specs.Prelude.{◌≡◌, IfOk, option_map};
ghost use Rattle.dir_tree.specs.tree.Numbered.{entries_of};
ghost use Rattle.session_hub.specs.session_model.Kept.{kept_of};
ghost use Rattle.session_hub.specs.session_model.Places.{asker_in};
ghost use Rattle.hush_laws.specs.TwinParts.{IsBeginning};
ghost use Rattle.hush_looks.specs.Looks.{failing_look, LooksAt};

use dir_tree::NoMemory;
use dir_tree::dn_names::Dn;
use hush_laws::{Beginning, Part, failing_twins};
use op_read::acdf_filters::Requester;
use op_read::directory::Dir;
use session_hub::Hub;
use std::alloc::Global;

// Who asks on the connection, where it is open.
fn asking(hub: &Hub, number: u32) -> Option<&Requester>
    ensures exact { option_map (λ who. who.now) result ≡ asker_in (kept_of number hub.now.kept) }
{
    if hub.closing(number) {
        None
    } else {
        hub.requester(number)
    }
}

/// The first part of being twins that fails of the directory at the beginning and the directory now, for who asks on the
/// connection; None exactly where none fails or the connection isn't open. The error comes where memory is wanted.
pub fn look<D: Dir, E: Dir>(
    alloc: Global,
    before: &D,
    begun: Beginning,
    now: &E,
    hub: &Hub,
    number: u32,
    top: &Dn,
) -> Result<Option<Part>, NoMemory>
    requires { IsBeginning top.now (entries_of (D.rows before.now)) begun.governs begun.lists_group }
    ensures held { IfOk result (λ part. part
        ≡ failing_look number top.now (entries_of (D.rows before.now)) (entries_of (E.rows now.now)) hub.now.kept) }
    ensures ok { IfOk result (LooksAt top.now (entries_of (D.rows before.now)) (entries_of (E.rows now.now)) hub.now number) }
{
    match asking(hub, number) {
        None => Ok(None),
        Some(who) => failing_twins(alloc, before, begun, now, top, who),
    }
}

//! Deletes.

ghost use Rattle.std.specs.Prelude.{◌≡◌, Some, IfOk};
ghost use Rattle.dir_tree.specs.tree.Numbered.{entry_of, entries_of};
ghost use Rattle.change_replay.specs.Applied.{without_target, without_named, applied_delete};
ghost use Rattle.change_replay.specs.Steps.{HasName, Leads};

use crate::making::Step;
use crate::names::{name_in, target_in};
use change_records::ldap_msg::{DeleteRequest, ResultCode};
use dir_tree::Tree;
use dir_tree::dn_names::Dn;
use op_add_delete::Fault;
use op_add_delete::directory::{NumberedEntry, is_suffix};
use std::alloc::Global;

// The target may go, or why not.
fn check_target(tree: &Tree, target: NumberedEntry<'_>) -> Result<Step, Fault>
    requires found { entry_of target.number.0 tree.now ≡ Some target.entry.now }
    ensures exact { Leads tree.now result (without_target (entries_of tree.now) target.entry.entry.now) }
    ensures named { IfOk result (HasName tree.now) }
{
    if is_suffix(tree, target) {
        return Err(Fault::Refused(ResultCode::UnwillingToPerform));
    }
    if tree.has_below(target.number) {
        return Err(Fault::Refused(ResultCode::NotAllowedOnNonLeaf));
    }
    Ok(Step::TakeOut(target.number))
}

// The same of the entry of the name.
fn check_named(tree: &Tree, name: &Dn) -> Result<Step, Fault>
    ensures exact { Leads tree.now result (without_named (entries_of tree.now) name.now) }
    ensures named { IfOk result (HasName tree.now) }
{
    match target_in(tree, name) {
        Ok(target) => check_target(tree, target),
        Err(fault) => Err(fault),
    }
}

/// What the delete does.
#[tactic(auto, unfolding(crate::specs::Applied::applied_delete))]
pub(crate) fn check_delete(
    alloc: Global,
    tree: &Tree,
    request: &DeleteRequest,
) -> Result<Step, Fault>
    ensures exact { Leads tree.now result (applied_delete (entries_of tree.now) request.now) }
    ensures named { IfOk result (HasName tree.now) }
{
    match name_in(alloc, request.name.as_slice()) {
        Ok(name) => check_named(tree, &name),
        Err(fault) => Err(fault),
    }
}

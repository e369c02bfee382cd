//! Modifies.

ghost use Rattle.std.specs.Prelude.{◌≡◌, Some, IfOk};
ghost use Rattle.dir_tree.specs.plain_values.Answers.{Answers};
ghost use Rattle.dir_tree.specs.tree.Numbered.{entry_of, entries_of};
ghost use Rattle.entry_changes.specs.Change.{changed_by};
ghost use Rattle.op_add_delete.specs.reading.Reading.{cause_of};
ghost use Rattle.change_replay.specs.Applied.{everything, with_in_place, with_changed, with_changed_named, with_modified, applied_modify};
ghost use Rattle.change_replay.specs.Steps.{HasName, Leads};

use crate::everything::Everything;
use crate::making::Step;
use crate::names::{name_in, target_in};
use crate::rules::broken_in_place;
use change_laws::op_modify::read_changes;
use change_records::ldap_msg::{Change, ModifyRequest};
use dir_tree::dn_names::Dn;
use dir_tree::{Entry, Tree};
use entry_changes::{ChangeFault, EntryChange, change_entry};
use op_add_delete::Fault;
use op_add_delete::directory::NumberedEntry;
use std::alloc::Global;

// The entry as the changes leave it.
fn changed(alloc: Global, entry: &Entry, changes: Vec<EntryChange>) -> Result<Entry, Fault>
    ensures exact { Answers (λ left. left) cause_of result
        (changed_by everything entry.now changes.items) }
    ensures named { IfOk result (λ left. left.name ≡ entry.now.name) }
{
    match change_entry(alloc, &Everything, entry, changes) {
        Ok(left) => Ok(left),
        Err(ChangeFault::Refused(code)) => Err(Fault::Refused(code)),
        Err(ChangeFault::NoMemory) => Err(Fault::NoMemory),
    }
}

// The entry may take the target's place, or why not.
fn check_left(
    alloc: Global,
    tree: &Tree,
    target: NumberedEntry<'_>,
    left: Entry,
) -> Result<Step, Fault>
    requires found { entry_of target.number.0 tree.now ≡ Some target.entry.now }
    requires named { left.name ≡ target.entry.now.name }
    ensures exact { Leads tree.now result (with_in_place (entries_of tree.now) target.entry.entry.now left) }
    ensures named { IfOk result (HasName tree.now) }
{
    match broken_in_place(alloc, tree, target, &left)? {
        Some(code) => Err(Fault::Refused(code)),
        None => Ok(Step::Revise(target.number, left)),
    }
}

// The same of what the changes leave of the target.
fn check_target(
    alloc: Global,
    tree: &Tree,
    changes: Vec<EntryChange>,
    target: NumberedEntry<'_>,
) -> Result<Step, Fault>
    requires found { entry_of target.number.0 tree.now ≡ Some target.entry.now }
    ensures exact { Leads tree.now result
        (with_changed (entries_of tree.now) changes.items target.entry.entry.now) }
    ensures named { IfOk result (HasName tree.now) }
{
    match changed(alloc, target.entry, changes) {
        Ok(left) => check_left(alloc, tree, target, left),
        Err(fault) => Err(fault),
    }
}

// The same of the entry of the name.
fn check_named(
    alloc: Global,
    tree: &Tree,
    name: &Dn,
    changes: Vec<EntryChange>,
) -> Result<Step, Fault>
    ensures exact { Leads tree.now result (with_changed_named (entries_of tree.now) name.now changes.items) }
    ensures named { IfOk result (HasName tree.now) }
{
    match target_in(tree, name) {
        Ok(target) => check_target(alloc, tree, changes, target),
        Err(fault) => Err(fault),
    }
}

// The same by the changes that a request lists.
fn check_listed(alloc: Global, tree: &Tree, given: &[Change], name: &Dn) -> Result<Step, Fault>
    ensures exact { Leads tree.now result (with_modified (entries_of tree.now) given.now name.now) }
    ensures named { IfOk result (HasName tree.now) }
{
    match read_changes(alloc, given) {
        Ok(changes) => check_named(alloc, tree, name, changes),
        Err(fault) => Err(fault),
    }
}

/// What the modify does.
#[tactic(auto, unfolding(crate::specs::Applied::applied_modify))]
pub(crate) fn check_modify(
    alloc: Global,
    tree: &Tree,
    request: &ModifyRequest,
) -> Result<Step, Fault>
    ensures exact { Leads tree.now result (applied_modify (entries_of tree.now) request.now) }
    ensures named { IfOk result (HasName tree.now) }
{
    match name_in(alloc, request.name.as_slice()) {
        Ok(name) => check_listed(alloc, tree, request.changes.as_slice(), &name),
        Err(fault) => Err(fault),
    }
}

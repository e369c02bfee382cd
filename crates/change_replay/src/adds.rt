//! Adds.

ghost use Rattle.std.specs.Prelude.{◌≡◌, ◌≢◌, [], IfOk};
ghost use Rattle.dir_tree.specs.plain_values.Refusals.{first_some};
ghost use Rattle.dir_tree.specs.tree.Trees.{has_name, superior_name};
ghost use Rattle.dir_tree.specs.tree.Numbered.{entries_of};
ghost use Rattle.change_replay.specs.Applied.{add_rows, with_new, with_named, applied_add};
ghost use Rattle.change_replay.specs.Steps.{HasName, Leads};

use crate::making::Step;
use crate::names::name_in;
use crate::rules::{broken_as_new, taken_refusal};
use change_records::ldap_msg::{AddRequest, KindValues, ResultCode};
use dir_tree::dn_names::Dn;
use dir_tree::{Entry, NoMemory, Tree};
use op_add_delete::{Fault, new_entry};
use std::alloc::Global;

// Whether the superior of the name is an entry.
fn has_superior(tree: &Tree, name: &Dn) -> bool
    ensures exact { result ≡ has_name (superior_name name.now) (entries_of tree.now) }
{
    tree.find_prefix(name, name.len().saturating_sub(1))
        .is_some()
}

// The first refusal of an add's table. The error comes where memory is wanted.
fn add_refusal(alloc: Global, tree: &Tree, entry: &Entry) -> Result<Option<ResultCode>, NoMemory>
    ensures ok { IfOk result (λ refusal. refusal ≡ first_some (add_rows (entries_of tree.now) entry.now)) }
{
    if let Some(code) = taken_refusal(tree, entry.name()) {
        return Ok(Some(code));
    }
    if !has_superior(tree, entry.name()) {
        return Ok(Some(ResultCode::NoSuchObject));
    }
    broken_as_new(alloc, tree, entry)
}

// The entry may come, or why not.
fn check_new(alloc: Global, tree: &Tree, entry: Entry) -> Result<Step, Fault>
    requires named { entry.name ≢ [] }
    ensures exact { Leads tree.now result (with_new (entries_of tree.now) entry) }
    ensures named { IfOk result (HasName tree.now) }
{
    match add_refusal(alloc, tree, &entry)? {
        Some(code) => Err(Fault::Refused(code)),
        None => Ok(Step::PutIn(entry)),
    }
}

// The same of the entry of the name with the attributes.
fn check_named(alloc: Global, tree: &Tree, given: &[KindValues], name: Dn) -> Result<Step, Fault>
    requires named { name ≢ [] }
    ensures exact { Leads tree.now result (with_named (entries_of tree.now) given.now name) }
    ensures named { IfOk result (HasName tree.now) }
{
    match new_entry(alloc, name, given) {
        Ok(entry) => check_new(alloc, tree, entry),
        Err(fault) => Err(fault),
    }
}

/// What the add does.
#[tactic(auto, unfolding(crate::specs::Applied::applied_add))]
pub(crate) fn check_add(alloc: Global, tree: &Tree, request: &AddRequest) -> Result<Step, Fault>
    ensures exact { Leads tree.now result (applied_add (entries_of tree.now) request.now) }
    ensures named { IfOk result (HasName tree.now) }
{
    match name_in(alloc, request.name.as_slice()) {
        Ok(name) => check_named(alloc, tree, request.attributes.as_slice(), name),
        Err(fault) => Err(fault),
    }
}

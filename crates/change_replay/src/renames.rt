//! Renames.

ghost use Rattle.std.specs.Prelude.{◌≡◌, ◌++◌, Some, IfOk, IfErr, None, if◌then◌else◌};
ghost use Rattle.dir_tree.specs.plain_values.Answers.{Answers, IsFaultOf};
ghost use Rattle.dir_tree.specs.plain_values.Refusals.{first_some};
ghost use Rattle.dir_tree.specs.dn_names.NameOrder.{is_same};
ghost use Rattle.dir_tree.specs.tree.Trees.{named_in};
ghost use Rattle.dir_tree.specs.tree.Numbered.{entry_of, entries_of};
ghost use Rattle.entry_changes.specs.Renaming.{renamed_entry};
ghost use Rattle.change_laws.specs.op_modify.ReadRenames.{above, read_renaming};
ghost use Rattle.change_laws.specs.op_modify.Renames.{new_name, is_unmovable, other_named};
ghost use Rattle.op_add_delete.specs.reading.Reading.{cause_of};
ghost use Rattle.change_replay.specs.Applied.{taken_refusal, become, coming_rows, with_moved, with_renamed, with_renamed_named, renaming_by, applied_rename};
ghost use Rattle.change_replay.specs.Steps.{HasName, Leads};

use crate::making::Step;
use crate::names::target_in;
use crate::rules::{broken_in_place, taken_refusal};
use change_laws::op_modify::{Renaming, find_above, read_renaming};
use change_records::ldap_msg::{RenameRequest, ResultCode};
use dir_tree::dn_names::{Dn, compare_front, join, same};
use dir_tree::{Entry, NoMemory, Tree};
use entry_changes::rename_entry;
use op_add_delete::Fault;
use op_add_delete::directory::{NumberedEntry, is_suffix};
use std::alloc::{AllocError, Global};

// Whether the name is that of the superior that the entry is to have.
fn is_above(renaming: &Renaming, name: &Dn) -> bool
    ensures exact { result ≡ is_same (above renaming.now) name.now }
{
    match &renaming.superior {
        Some(superior) => same(superior, name),
        None => {
            let len = renaming.name.len().saturating_sub(1);
            compare_front(&renaming.name, len, name).is_eq()
        }
    }
}

// Whether the target is the suffix, or would be its own superior.
fn is_unmovable(tree: &Tree, renaming: &Renaming, target: NumberedEntry<'_>) -> bool
    requires found { entry_of target.number.0 tree.now ≡ Some target.entry.now }
    ensures exact { result ≡ is_unmovable (entries_of tree.now) renaming.now target.entry.entry.now }
{
    is_suffix(tree, target) || is_above(renaming, target.entry.name())
}

// The RDNs of the superior, and then the new one. As another name may stand below the superior's, the error is always want
// of memory.
fn joined(alloc: Global, superior: &Entry, renaming: &Renaming) -> Result<Dn, NoMemory>
    ensures ok { IfOk result (λ name. name ≡ superior.now.name ++ renaming.now.rdn) }
{
    match join(alloc, superior.name(), &renaming.rdn) {
        Ok(name) => Ok(name),
        Err(_) => Err(AllocError),
    }
}

// The target below the superior that it is to have, which is this entry.
fn moved(
    alloc: Global,
    superior: &Entry,
    renaming: &Renaming,
    target: &Entry,
) -> Result<Entry, NoMemory>
    ensures ok { IfOk result (λ entry. entry
        ≡ renamed_entry (superior.now.name ++ renaming.now.rdn) renaming.now.delete_old target.now) }
{
    let name = joined(alloc, superior, renaming)?;
    rename_entry(alloc, target, name, renaming.delete_old)
}

// The entry that the target becomes.
fn become_renamed(
    alloc: Global,
    tree: &Tree,
    renaming: &Renaming,
    target: NumberedEntry<'_>,
) -> Result<Entry, Fault>
    requires found { entry_of target.number.0 tree.now ≡ Some target.entry.now }
    ensures exact { Answers (λ entry. entry) cause_of result
        (become (entries_of tree.now) renaming.now target.entry.entry.now) }
{
    if is_unmovable(tree, renaming, target) {
        return Err(Fault::Refused(ResultCode::UnwillingToPerform));
    }
    if tree.has_below(target.number) {
        return Err(Fault::Refused(ResultCode::NotAllowedOnNonLeaf));
    }
    match find_above(tree, renaming) {
        Some(superior) => Ok(moved(alloc, superior, renaming, target.entry)?),
        None => Err(Fault::Refused(ResultCode::NoSuchObject)),
    }
}

// The refusal where an entry other than the target has the name.
fn other_refusal(tree: &Tree, target: NumberedEntry<'_>, name: &Dn) -> Option<ResultCode>
    ensures exact { result ≡ taken_refusal (other_named (entries_of tree.now) target.entry.entry.now name.now) }
{
    if same(name, target.entry.name()) {
        return None;
    }
    taken_refusal(tree, name)
}

// The first refusal that the renamed entry decides. The error comes where memory is wanted.
fn coming_refusal(
    alloc: Global,
    tree: &Tree,
    target: NumberedEntry<'_>,
    entry: &Entry,
) -> Result<Option<ResultCode>, NoMemory>
    requires found { entry_of target.number.0 tree.now ≡ Some target.entry.now }
    ensures ok { IfOk result (λ refusal. refusal
        ≡ first_some (coming_rows (entries_of tree.now) target.entry.entry.now entry.now)) }
{
    if let Some(code) = other_refusal(tree, target, entry.name()) {
        return Ok(Some(code));
    }
    broken_in_place(alloc, tree, target, entry)
}

// The renamed entry may take the target's place, or why not.
fn check_moved(
    alloc: Global,
    tree: &Tree,
    target: NumberedEntry<'_>,
    entry: Entry,
) -> Result<Step, Fault>
    requires found { entry_of target.number.0 tree.now ≡ Some target.entry.now }
    ensures exact { Leads tree.now result (with_moved (entries_of tree.now) target.entry.entry.now entry) }
    ensures named { IfOk result (HasName tree.now) }
{
    match coming_refusal(alloc, tree, target, &entry)? {
        Some(code) => Err(Fault::Refused(code)),
        None => Ok(Step::Replace(target.number, entry)),
    }
}

// The target may be renamed, or why not.
fn check_target(
    alloc: Global,
    tree: &Tree,
    renaming: &Renaming,
    target: NumberedEntry<'_>,
) -> Result<Step, Fault>
    requires found { entry_of target.number.0 tree.now ≡ Some target.entry.now }
    ensures exact { Leads tree.now result
        (with_renamed (entries_of tree.now) renaming.now target.entry.entry.now) }
    ensures named { IfOk result (HasName tree.now) }
{
    match become_renamed(alloc, tree, renaming, target) {
        Ok(entry) => check_moved(alloc, tree, target, entry),
        Err(fault) => Err(fault),
    }
}

// The same of the entry that has the name.
fn check_named(alloc: Global, tree: &Tree, renaming: &Renaming) -> Result<Step, Fault>
    ensures exact { Leads tree.now result (with_renamed_named (entries_of tree.now) renaming.now) }
    ensures named { IfOk result (HasName tree.now) }
{
    match target_in(tree, &renaming.name) {
        Ok(target) => check_target(alloc, tree, renaming, target),
        Err(fault) => Err(fault),
    }
}

// What is asked for.
fn renaming_by(alloc: Global, request: &RenameRequest) -> Result<Renaming, Fault>
    ensures exact { Answers (λ renaming. renaming) cause_of result (renaming_by (read_renaming request.now)) }
{
    let Some(renaming) = read_renaming(alloc, request)? else {
        return Err(Fault::Refused(ResultCode::InvalidDnSyntax));
    };
    if renaming.name.len() == 0 {
        return Err(Fault::Refused(ResultCode::UnwillingToPerform));
    }
    Ok(renaming)
}

/// What the rename does.
#[tactic(auto, unfolding(crate::specs::Applied::applied_rename))]
pub(crate) fn check_rename(
    alloc: Global,
    tree: &Tree,
    request: &RenameRequest,
) -> Result<Step, Fault>
    ensures exact { Leads tree.now result (applied_rename (entries_of tree.now) request.now) }
    ensures named { IfOk result (HasName tree.now) }
{
    match renaming_by(alloc, request) {
        Ok(renaming) => check_named(alloc, tree, &renaming),
        Err(fault) => Err(fault),
    }
}

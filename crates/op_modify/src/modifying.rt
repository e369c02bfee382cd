//! Modifies.

ghost use Rattle.std.specs.Prelude.{◌≡◌, Ok, IfOk, OnErr};
ghost use Rattle.dir_tree.specs.tree.Trees.{named_in};
ghost use Rattle.dir_tree.specs.tree.Numbered.{entries_of};
ghost use Rattle.entry_changes.specs.Change.{changed_by};
ghost use Rattle.op_add_delete.specs.adding.Updates.{IsChanged};
ghost use Rattle.op_modify.specs.ReadChanges.{read_changes};
ghost use Rattle.op_modify.specs.Modifying.{asker_of, modified_as, modified_target, modified_by, modified_named, modified};
ghost use Rattle.op_modify.specs.Steps.{IsChecked, KeepsName};

use crate::asker::TargetAsker;
use crate::reading::read_changes;
use crate::replacing::{Checked, make_revised, rule_refusal};
use acdf_filters::aci_item::Permission;
use acdf_filters::{Item, Requester};
use dir_tree::dn_names::Dn;
use dir_tree::{Entry, NoMemory};
use entry_changes::{ChangeFault, EntryChange, change_entry};
use ldap_msg::{Change, LdapResult, ModifyRequest, ResultCode};
use op_add_delete::Fault;
use op_add_delete::directory::{Asking, Dir, Target, absent, hidden, read_named, result_of};
use std::alloc::{AllocError, Global};

// What comes of the entry that the changes leave.
fn check_left<D: Dir>(
    alloc: Global,
    target: &Target<'_, '_, D>,
    left: Entry,
) -> Result<Checked, NoMemory>
    requires named { left.name ≡ target.now.entry.now.name }
    ensures ok { IfOk result (λ checked. IsChecked
        (modified_as (entries_of (D.rows target.now.asking.now.dir.now)) target.now.entry.now (Ok left))
        (D.rows target.now.asking.now.dir.now) checked) }
    ensures named { IfOk result (KeepsName (D.rows target.now.asking.now.dir.now)) }
{
    match rule_refusal(alloc, target, &left)? {
        Some(refusal) => Ok(Checked::Refused(refusal)),
        None => Ok(Checked::Allowed(target.number, left)),
    }
}

// What comes of the changes of the target.
fn check_changes<D: Dir>(
    alloc: Global,
    target: &Target<'_, '_, D>,
    changes: Vec<EntryChange>,
) -> Result<Checked, NoMemory>
    ensures ok { IfOk result (λ checked. IsChecked
        (modified_as (entries_of (D.rows target.now.asking.now.dir.now)) target.now.entry.now
        (changed_by (asker_of (entries_of (D.rows target.now.asking.now.dir.now)) target.now.asking.now.who.now
        target.now.entry.now)
        target.now.entry.now changes.items))
        (D.rows target.now.asking.now.dir.now) checked) }
    ensures named { IfOk result (KeepsName (D.rows target.now.asking.now.dir.now)) }
{
    let asker = TargetAsker { target };
    match change_entry(alloc, &asker, target.entry, changes) {
        Ok(left) => check_left(alloc, target, left),
        Err(ChangeFault::Refused(code)) => Ok(Checked::Refused(result_of(alloc, code))),
        Err(ChangeFault::NoMemory) => Err(AllocError),
    }
}

// What comes of the changes of the entry that has the name, if there is one.
fn check_target<D: Dir>(
    alloc: Global,
    asking: &Asking<'_, D>,
    name: &Dn,
    changes: Vec<EntryChange>,
) -> Result<Checked, NoMemory>
    ensures ok { IfOk result (λ checked. IsChecked
        (modified_target (entries_of (D.rows asking.now.dir.now)) asking.now.who.now name.now changes.items
        (named_in name.now (entries_of (D.rows asking.now.dir.now))))
        (D.rows asking.now.dir.now) checked) }
    ensures named { IfOk result (KeepsName (D.rows asking.now.dir.now)) }
{
    let Some(target) = asking.find(name) else {
        return Ok(Checked::Refused(absent(alloc, asking, name)?));
    };
    if !target.allows(Item::Entry, Permission::Modify) {
        return Ok(Checked::Refused(hidden(alloc, &target, name)?));
    }
    check_changes(alloc, &target, changes)
}

// The same of a directory that isn't asked yet.
fn check_modify<D: Dir>(
    alloc: Global,
    dir: &D,
    who: &Requester,
    name: &Dn,
    changes: Vec<EntryChange>,
) -> Result<Checked, NoMemory>
    ensures ok { IfOk result (λ checked. IsChecked
        (modified_target (entries_of (D.rows dir.now)) who.now name.now changes.items
        (named_in name.now (entries_of (D.rows dir.now))))
        (D.rows dir.now) checked) }
    ensures named { IfOk result (KeepsName (D.rows dir.now)) }
{
    let asking = Asking::new(alloc, dir, who)?;
    check_target(alloc, &asking, name, changes)
}

// A modify of the entry of the name by these changes.
fn modify_by<D: Dir>(
    alloc: Global,
    dir: &mut D,
    who: &Requester,
    name: &Dn,
    changes: Vec<EntryChange>,
) -> Result<Option<LdapResult>, NoMemory>
    ensures ok { IfOk result (λ refusal. IsChanged (entries_of (D.rows dir.old))
        (modified_by (entries_of (D.rows dir.old)) who.now name.now (Ok changes.items))
        refusal (entries_of (D.rows dir.new))) }
    ensures kept { OnErr result (D.rows dir.new ≡ D.rows dir.old) }
{
    let checked = check_modify(alloc, dir, who, name, changes)?;
    make_revised(alloc, dir, checked)
}

// A modify of the entry of the name by the changes that a request lists.
fn modify_entry<D: Dir>(
    alloc: Global,
    dir: &mut D,
    who: &Requester,
    name: &Dn,
    given: &[Change],
) -> Result<Option<LdapResult>, NoMemory>
    ensures ok { IfOk result (λ refusal. IsChanged (entries_of (D.rows dir.old))
        (modified_by (entries_of (D.rows dir.old)) who.now name.now (read_changes given.now))
        refusal (entries_of (D.rows dir.new))) }
    ensures kept { OnErr result (D.rows dir.new ≡ D.rows dir.old) }
{
    match read_changes(alloc, given) {
        Ok(changes) => modify_by(alloc, dir, who, name, changes),
        Err(Fault::Refused(code)) => Ok(Some(result_of(alloc, code))),
        Err(Fault::NoMemory) => Err(AllocError),
    }
}

// A modify of any name.
fn modify_named<D: Dir>(
    alloc: Global,
    dir: &mut D,
    who: &Requester,
    name: &Dn,
    given: &[Change],
) -> Result<Option<LdapResult>, NoMemory>
    ensures ok { IfOk result (λ refusal. IsChanged (entries_of (D.rows dir.old))
        (modified_named (entries_of (D.rows dir.old)) who.now given.now (Ok name.now))
        refusal (entries_of (D.rows dir.new))) }
    ensures kept { OnErr result (D.rows dir.new ≡ D.rows dir.old) }
{
    if name.len() == 0 {
        return Ok(Some(result_of(alloc, ResultCode::UnwillingToPerform)));
    }
    modify_entry(alloc, dir, who, name, given)
}

/// Modifies the entry of the name (RFC 4511 4.6, X.511 11.3) by the request's changes, in their order and all or none:
/// each must be one that the requester may make, by decisions that are all taken before the first is made, where a value
/// that comes counts as one of the entry that its change leaves, and the entry that they leave must keep the rules of the directory. None where it was done, and otherwise the result that refuses it,
/// with the directory as it was: of an entry that may not be modified nothing is said but what is said of one that isn't
/// there, unless the requester may know of it. The error comes where memory is wanted, and all is then as it was.
pub fn modify<D: Dir>(
    alloc: Global,
    dir: &mut D,
    who: &Requester,
    request: &ModifyRequest,
) -> Result<Option<LdapResult>, NoMemory>
    ensures ok { IfOk result (λ refusal. IsChanged (entries_of (D.rows dir.old))
        (modified (entries_of (D.rows dir.old)) who.now request.now)
        refusal (entries_of (D.rows dir.new))) }
    ensures kept { OnErr result (entries_of (D.rows dir.new) ≡ entries_of (D.rows dir.old)) }
{
    match read_named(alloc, request.name.as_slice())? {
        Some(name) => modify_named(alloc, dir, who, &name, request.changes.as_slice()),
        None => Ok(Some(result_of(alloc, ResultCode::InvalidDnSyntax))),
    }
}

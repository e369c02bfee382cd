//! Deletes.

ghost use Rattle.std.specs.Prelude.{◌≡◌, Some, Ok, IfOk, OnOk, OnErr};
ghost use Rattle.dir_tree.specs.Entry.{EntryInformation};
ghost use Rattle.dir_tree.specs.tree.Trees.{taken_out, named_in};
ghost use Rattle.dir_tree.specs.tree.Numbered.{entry_of, entries_of};
ghost use Rattle.op_add_delete.specs.Deleting.{delete_refusal};
ghost use Rattle.op_add_delete.specs.adding.Updates.{IsChanged, deleted_target, deleted_named, deleted};
ghost use Rattle.op_add_delete.specs.reading.Steps.{IsChecked};

use acdf_filters::aci_item::Permission;
use acdf_filters::{Item, Requester};
use dir_tree::dn_names::Dn;
use dir_tree::{EntryNo, NoMemory};
use directory::{Asking, Dir, Target, absent, hidden, not_leaf, read_named, result_of};
use ldap_msg::{DeleteRequest, LdapResult, ResultCode};
use std::alloc::{AllocError, Global};

/// What came of a delete's table.
#[derive(Drop)]
pub(crate) enum Checked {
    /// The delete is refused.
    Refused(LdapResult),
    /// The entry of the number may go.
    Allowed(EntryNo),
}

// Why the target, which has the name, is not deleted.
#[tactic(auto, unfolding(crate::specs::Deleting::delete_refusal))]
fn delete_refusal<D: Dir>(
    alloc: Global,
    target: &Target<'_, '_, D>,
    name: &Dn,
) -> Result<Option<LdapResult>, NoMemory>
    requires named { named_in name.now (entries_of (D.rows target.now.asking.now.dir.now))
        ≡ Some target.now.entry.now }
    ensures ok { IfOk result (λ refusal. refusal
        ≡ delete_refusal (entries_of (D.rows target.now.asking.now.dir.now)) target.now.asking.now.who.now name.now
        target.now.entry.now) }
{
    let tree = target.asking.dir.tree();
    if !target.allows(Item::Entry, Permission::Remove) {
        return Ok(Some(hidden(alloc, target, name)?));
    }
    if target.is_suffix() {
        return Ok(Some(result_of(alloc, ResultCode::UnwillingToPerform)));
    }
    if tree.has_below(target.number) {
        return Ok(Some(not_leaf(alloc, target, name)?));
    }
    Ok(None)
}

// What comes of the table, by the target, if there is one.
fn check_target<D: Dir>(
    alloc: Global,
    asking: &Asking<'_, D>,
    name: &Dn,
) -> Result<Checked, NoMemory>
    ensures ok { IfOk result (λ checked.
        IsChecked (D.rows asking.now.dir.now) asking.now.who.now name.now checked) }
{
    let Some(target) = asking.find(name) else {
        return Ok(Checked::Refused(absent(alloc, asking, name)?));
    };
    match delete_refusal(alloc, &target, name)? {
        Some(refusal) => Ok(Checked::Refused(refusal)),
        None => Ok(Checked::Allowed(target.number)),
    }
}

// The same of a directory that isn't asked yet.
fn check_delete<D: Dir>(
    alloc: Global,
    dir: &D,
    who: &Requester,
    name: &Dn,
) -> Result<Checked, NoMemory>
    ensures ok { IfOk result (λ checked. IsChecked (D.rows dir.now) who.now name.now checked) }
{
    let asking = Asking::new(alloc, dir, who)?;
    check_target(alloc, &asking, name)
}

// Takes the entry of the number out. After the error, want of memory, the directory is as before.
fn remove<D: Dir>(alloc: Global, dir: &mut D, number: EntryNo) -> Result<(), NoMemory>
    ensures ok { OnOk result ((target : EntryInformation) → entry_of number.0 (D.rows dir.old) ≡ Some target
        → entries_of (D.rows dir.new) ≡ taken_out target.name (entries_of (D.rows dir.old))) }
    ensures kept { OnErr result (D.rows dir.new ≡ D.rows dir.old) }
{
    dir.tree().entries_form_a_tree();
    match dir.remove(alloc, number) {
        Ok(_entry) => Ok(()),
        Err(_) => Err(AllocError),
    }
}

// A delete of the entry that has the name, if there is one.
fn delete_entry<D: Dir>(
    alloc: Global,
    dir: &mut D,
    who: &Requester,
    name: &Dn,
) -> Result<Option<LdapResult>, NoMemory>
    ensures ok { IfOk result (λ refusal. IsChanged (entries_of (D.rows dir.old))
        (deleted_target (entries_of (D.rows dir.old)) who.now name.now
        (named_in name.now (entries_of (D.rows dir.old))))
        refusal (entries_of (D.rows dir.new))) }
    ensures kept { OnErr result (D.rows dir.new ≡ D.rows dir.old) }
{
    match check_delete(alloc, dir, who, name)? {
        Checked::Refused(refusal) => Ok(Some(refusal)),
        Checked::Allowed(number) => {
            remove(alloc, dir, number)?;
            Ok(None)
        }
    }
}

// A delete of any name.
fn delete_named<D: Dir>(
    alloc: Global,
    dir: &mut D,
    who: &Requester,
    name: &Dn,
) -> Result<Option<LdapResult>, NoMemory>
    ensures ok { IfOk result (λ refusal. IsChanged (entries_of (D.rows dir.old))
        (deleted_named (entries_of (D.rows dir.old)) who.now (Ok name.now))
        refusal (entries_of (D.rows dir.new))) }
    ensures kept { OnErr result (D.rows dir.new ≡ D.rows dir.old) }
{
    if name.len() == 0 {
        return Ok(Some(result_of(alloc, ResultCode::UnwillingToPerform)));
    }
    delete_entry(alloc, dir, who, name)
}

/// Deletes the entry of the name (RFC 4511 4.8, X.511 11.2): one that the requester may remove, that isn't the suffix,
/// and below which none stands. None where it was done, and otherwise the result that refuses it, with the directory as
/// it was: what the requester may not know of is answered as what is not there. The error comes where memory is wanted,
/// and all is then as it was.
pub fn delete<D: Dir>(
    alloc: Global,
    dir: &mut D,
    who: &Requester,
    request: &DeleteRequest,
) -> Result<Option<LdapResult>, NoMemory>
    ensures ok { IfOk result (λ refusal. IsChanged (entries_of (D.rows dir.old))
        (deleted (entries_of (D.rows dir.old)) who.now request.now)
        refusal (entries_of (D.rows dir.new))) }
    ensures kept { OnErr result (entries_of (D.rows dir.new) ≡ entries_of (D.rows dir.old)) }
{
    match read_named(alloc, request.name.as_slice())? {
        Some(name) => delete_named(alloc, dir, who, &name),
        None => Ok(Some(result_of(alloc, ResultCode::InvalidDnSyntax))),
    }
}

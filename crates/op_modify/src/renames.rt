//! Renames.

ghost use Rattle.std.specs.Prelude.{◌≡◌, ◌++◌, Some, None, IfOk, OnErr};
ghost use Rattle.dir_tree.specs.tree.Trees.{named_in};
ghost use Rattle.dir_tree.specs.tree.Numbered.{entries_of};
ghost use Rattle.ldap_msg.specs.plain_values.Refusals.{first_some};
ghost use Rattle.entry_changes.specs.Renaming.{renamed_entry};
ghost use Rattle.op_add_delete.specs.adding.Updates.{IsChanged};
ghost use Rattle.op_modify.specs.Renames.{new_name, renamed_as, renamed_target, renamed_by, renamed};
ghost use Rattle.op_modify.specs.Steps.{IsChecked, leaving_rows};

use crate::coming::coming_refusal;
use crate::leaving::{find_above, leaving_refusal};
use crate::renaming::{Renaming, read_renaming};
use crate::replacing::{Checked, make};
use acdf_filters::Requester;
use dir_tree::dn_names::{Dn, join};
use dir_tree::{Entry, NoMemory, Tree};
use entry_changes::rename_entry;
use ldap_msg::{LdapResult, RenameRequest, ResultCode};
use op_add_delete::directory::{Asking, Dir, Target, absent, result_of};
use std::alloc::{AllocError, Global};

// The RDNs of the superior, and then the new one. As another name may stand below the
// superior's, the error is always want of memory.
fn joined(alloc: Global, superior: &Dn, rdn: &Dn) -> Result<Dn, NoMemory>
    ensures ok { IfOk result (λ name. name ≡ superior.now ++ rdn.now) }
{
    match join(alloc, superior, rdn) {
        Ok(name) => Ok(name),
        Err(_) => Err(AllocError),
    }
}

// The new name. The superior is an entry.
fn new_name(alloc: Global, tree: &Tree, renaming: &Renaming) -> Result<Dn, NoMemory>
    ensures ok { IfOk result (λ name. name ≡ new_name (entries_of tree.now) renaming.now) }
{
    match find_above(tree, renaming) {
        Some(superior) => joined(alloc, superior.name(), &renaming.rdn),
        None => Err(AllocError),
    }
}

// The entry that the target would become.
fn renamed_entry(
    alloc: Global,
    tree: &Tree,
    target: &Entry,
    renaming: &Renaming,
) -> Result<Entry, NoMemory>
    ensures ok { IfOk result (λ entry. entry
        ≡ renamed_entry (new_name (entries_of tree.now) renaming.now) renaming.now.delete_old target.now) }
{
    let name = new_name(alloc, tree, renaming)?;
    rename_entry(alloc, target, name, renaming.delete_old)
}

// What comes of the renamed entry's rows.
fn check_place<D: Dir>(
    alloc: Global,
    target: &Target<'_, '_, D>,
    renaming: &Renaming,
    entry: Entry,
) -> Result<Checked, NoMemory>
    requires free { first_some (leaving_rows (entries_of (D.rows target.now.asking.now.dir.now))
        target.now.asking.now.who.now renaming.now target.now.entry.now) ≡ None }
    ensures ok { IfOk result (λ checked. IsChecked
        (renamed_as (entries_of (D.rows target.now.asking.now.dir.now)) target.now.asking.now.who.now renaming.now
        target.now.entry.now entry)
        (D.rows target.now.asking.now.dir.now) checked) }
{
    match coming_refusal(alloc, target, renaming, &entry)? {
        Some(refusal) => Ok(Checked::Refused(refusal)),
        None => Ok(Checked::Allowed(target.number, entry)),
    }
}

// What comes of the table, by the target.
fn check_table<D: Dir>(
    alloc: Global,
    target: &Target<'_, '_, D>,
    renaming: &Renaming,
) -> Result<Checked, NoMemory>
    requires named { named_in renaming.now.name (entries_of (D.rows target.now.asking.now.dir.now))
        ≡ Some target.now.entry.now }
    ensures ok { IfOk result (λ checked. IsChecked
        (renamed_target (entries_of (D.rows target.now.asking.now.dir.now)) target.now.asking.now.who.now renaming.now
        (Some target.now.entry.now))
        (D.rows target.now.asking.now.dir.now) checked) }
{
    match leaving_refusal(alloc, target, renaming)? {
        Some(refusal) => Ok(Checked::Refused(refusal)),
        None => {
            let entry = renamed_entry(alloc, target.asking.dir.tree(), target.entry, renaming)?;
            check_place(alloc, target, renaming, entry)
        }
    }
}

// What comes of the table, by the target, if there is one.
fn check_target<D: Dir>(
    alloc: Global,
    asking: &Asking<'_, D>,
    renaming: &Renaming,
) -> Result<Checked, NoMemory>
    ensures ok { IfOk result (λ checked. IsChecked
        (renamed_target (entries_of (D.rows asking.now.dir.now)) asking.now.who.now renaming.now
        (named_in renaming.now.name (entries_of (D.rows asking.now.dir.now))))
        (D.rows asking.now.dir.now) checked) }
{
    match asking.find(&renaming.name) {
        Some(target) => check_table(alloc, &target, renaming),
        None => Ok(Checked::Refused(absent(alloc, asking, &renaming.name)?)),
    }
}

// The same of a directory that isn't asked yet.
fn check_rename<D: Dir>(
    alloc: Global,
    dir: &D,
    who: &Requester,
    renaming: &Renaming,
) -> Result<Checked, NoMemory>
    ensures ok { IfOk result (λ checked. IsChecked
        (renamed_target (entries_of (D.rows dir.now)) who.now renaming.now
        (named_in renaming.now.name (entries_of (D.rows dir.now))))
        (D.rows dir.now) checked) }
{
    let asking = Asking::new(alloc, dir, who)?;
    check_target(alloc, &asking, renaming)
}

// A rename, by what was read.
fn rename_by<D: Dir>(
    alloc: Global,
    dir: &mut D,
    who: &Requester,
    renaming: &Renaming,
) -> Result<Option<LdapResult>, NoMemory>
    ensures ok { IfOk result (λ refusal. IsChanged (entries_of (D.rows dir.old))
        (renamed_by (entries_of (D.rows dir.old)) who.now (Some renaming.now))
        refusal (entries_of (D.rows dir.new))) }
    ensures kept { OnErr result (D.rows dir.new ≡ D.rows dir.old) }
{
    if renaming.name.len() == 0 {
        return Ok(Some(result_of(alloc, ResultCode::UnwillingToPerform)));
    }
    let checked = check_rename(alloc, dir, who, renaming)?;
    make(alloc, dir, checked)
}

/// Renames the entry of the name, or moves it below another superior, or both (RFC 4511 4.9, X.511 11.4): one that isn't
/// the suffix, and below which none stands. The requester must be allowed to rename it, where it gets another RDN or stays
/// where it is, and, where it moves, to export it and to import what it becomes. The values of the new RDN come, and where
/// the old ones are to go those go that the new RDN has not; the new name must not be that of another entry, and the entry
/// must keep the rules of the directory under it. None where it was done, and otherwise the result that refuses it, with
/// the directory as it was: noSuchObject where the new superior is no entry, and entryAlreadyExists where another entry has
/// the new name, or insufficientAccessRights if the requester may not know of that. The error comes where memory is wanted,
/// and all is then as it was.
#[tactic(auto, unfolding(crate::specs::Renames::renamed))]
pub fn rename<D: Dir>(
    alloc: Global,
    dir: &mut D,
    who: &Requester,
    request: &RenameRequest,
) -> Result<Option<LdapResult>, NoMemory>
    ensures ok { IfOk result (λ refusal. IsChanged (entries_of (D.rows dir.old))
        (renamed (entries_of (D.rows dir.old)) who.now request.now)
        refusal (entries_of (D.rows dir.new))) }
    ensures kept { OnErr result (entries_of (D.rows dir.new) ≡ entries_of (D.rows dir.old)) }
{
    match read_renaming(alloc, request)? {
        Some(renaming) => rename_by(alloc, dir, who, &renaming),
        None => Ok(Some(result_of(alloc, ResultCode::InvalidDnSyntax))),
    }
}

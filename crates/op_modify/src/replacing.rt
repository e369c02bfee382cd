//! Entries that take another's place.

ghost use Rattle.std.specs.Prelude.{◌≡◌, true, Some, IfOk, OnOk, OnErr};
ghost use Rattle.dir_tree.specs.tree.Trees.{taken_out};
ghost use Rattle.dir_tree.specs.tree.Numbered.{entries_of, is_called};
ghost use Rattle.acdf_filters.specs.aci_item.Rules.{broken_rule};
ghost use Rattle.op_add_delete.specs.adding.Adding.{rule_refusal};
ghost use Rattle.op_add_delete.specs.adding.Updates.{Changed, IsChanged};
ghost use Rattle.op_modify.specs.Steps.{ComesInPlace, IsChecked, KeepsName};

use dir_tree::{Entry, EntryNo, NoMemory};
use ldap_msg::LdapResult;
use op_add_delete::directory::{Dir, Target, result_of};
use op_add_delete::rule_code;
use op_add_delete::schema_rules::{Broken, check_entry};
use std::alloc::{AllocError, Global};

/// What came of the checks of a change.
#[derive(Drop)]
pub(crate) enum Checked {
    /// The change is refused.
    Refused(LdapResult),
    /// The entry may take the place of that of the number.
    Allowed(EntryNo, Entry),
}

/// The refusal where the entry breaks a rule in the target's place. The error comes where memory is wanted.
pub(crate) fn rule_refusal<D: Dir>(
    alloc: Global,
    target: &Target<'_, '_, D>,
    entry: &Entry,
) -> Result<Option<LdapResult>, NoMemory>
    ensures ok { IfOk result (λ refusal. refusal ≡ rule_refusal (broken_rule (Some target.now.entry.now)
        (taken_out target.now.entry.now.name (entries_of (D.rows target.now.asking.now.dir.now))) entry.now)) }
{
    let tree = target.asking.dir.tree();
    tree.entries_form_a_tree();
    match check_entry(alloc, tree, Some(target.number), entry) {
        Ok(()) => Ok(None),
        Err(Broken::Rule(rule)) => Ok(Some(result_of(alloc, rule_code(rule)))),
        Err(Broken::NoMemory) => Err(AllocError),
    }
}

// Gives the place of the entry of the number to another. After the error, want of memory, the directory is as before.
fn replace<D: Dir>(
    alloc: Global,
    dir: &mut D,
    number: EntryNo,
    entry: Entry,
) -> Result<(), NoMemory>
    ensures ok { OnOk result (ComesInPlace (D.rows dir.old) number.0 entry (D.rows dir.new)) }
    ensures kept { OnErr result (D.rows dir.new ≡ D.rows dir.old) }
{
    dir.tree().entries_form_a_tree();
    match dir.replace(alloc, number, entry) {
        Ok(_entry) => Ok(()),
        Err(_) => Err(AllocError),
    }
}

// Gives the place of the entry of the number to another of its name. After the error, want of memory, the directory is as
// before.
fn revise<D: Dir>(alloc: Global, dir: &mut D, number: EntryNo, entry: Entry) -> Result<(), NoMemory>
    requires named { is_called number.0 entry.name (D.rows dir.old) ≡ true }
    ensures ok { OnOk result (ComesInPlace (D.rows dir.old) number.0 entry (D.rows dir.new)) }
    ensures kept { OnErr result (D.rows dir.new ≡ D.rows dir.old) }
{
    dir.tree().entries_form_a_tree();
    let _old = dir.revise(alloc, number, entry)?;
    Ok(())
}

/// Makes the change that was checked, unless it is refused. The error comes where memory is wanted, and the directory is
/// as before.
pub(crate) fn make<D: Dir>(
    alloc: Global,
    dir: &mut D,
    checked: Checked,
) -> Result<Option<LdapResult>, NoMemory>
    ensures ok { IfOk result (λ refusal. (changed : Changed) → IsChecked changed (D.rows dir.old) checked
        → IsChanged (entries_of (D.rows dir.old)) changed refusal (entries_of (D.rows dir.new))) }
    ensures kept { OnErr result (D.rows dir.new ≡ D.rows dir.old) }
{
    match checked {
        Checked::Refused(refusal) => Ok(Some(refusal)),
        Checked::Allowed(number, entry) => {
            replace(alloc, dir, number, entry)?;
            Ok(None)
        }
    }
}

/// Makes the change that was checked, as `make` does, where an entry that comes keeps the name: no name is looked at.
pub(crate) fn make_revised<D: Dir>(
    alloc: Global,
    dir: &mut D,
    checked: Checked,
) -> Result<Option<LdapResult>, NoMemory>
    requires named { KeepsName (D.rows dir.old) checked }
    ensures ok { IfOk result (λ refusal. (changed : Changed) → IsChecked changed (D.rows dir.old) checked
        → IsChanged (entries_of (D.rows dir.old)) changed refusal (entries_of (D.rows dir.new))) }
    ensures kept { OnErr result (D.rows dir.new ≡ D.rows dir.old) }
{
    match checked {
        Checked::Refused(refusal) => Ok(Some(refusal)),
        Checked::Allowed(number, entry) => {
            revise(alloc, dir, number, entry)?;
            Ok(None)
        }
    }
}

//! Changes of an entry.

ghost use Rattle.std.specs.Prelude.{◌≡◌, Ok, IfOk, IfErr, OnOk};
ghost use Rattle.ldap_msg.specs.plain_values.Answers.{Answers, IsFaultOf};
ghost use Rattle.entry_changes.specs.Change.{changed_by, cause_of};
ghost use Rattle.entry_changes.specs.Steps.{left_in};

use crate::ask::EntryAsker;
use crate::change::EntryChange;
use crate::fault::ChangeFault;
use crate::pending::Pending;
use dir_tree::Entry;
use std::alloc::Global;

// Makes the changes, in their order, unless one is refused.
fn apply_each<A: EntryAsker>(
    asker: &A,
    left: &mut Pending,
    changes: &[EntryChange],
) -> Result<(), ChangeFault>
    ensures ok { OnOk result (changed_by (A.asker asker.now) (left_in left.old) changes.now
        ≡ Ok (left_in left.new)) }
    ensures refused { IfErr result (λ fault. IsFaultOf (cause_of fault)
        (changed_by (A.asker asker.now) (left_in left.old) changes.now)) }
{
    for change in changes {
        match left.apply(asker, change) {
            Ok(()) => {}
            Err(fault) => return Err(fault),
        }
    }
    Ok(())
}

/// The entry with the changes, in their order (RFC 4511 4.6, X.511 11.3). Each is judged by the values that the earlier
/// ones left, and by the permissions of the requester, which the asker knows: those of the entry as it was before the
/// first, where a value that comes counts as one of the entry that its change leaves. `Refused`, with its code, comes where
/// one is refused, the first of them; the entry itself stays as it is. `NoMemory` comes where memory is wanted. The changes
/// cost what their values are, but for those of one type that come and go by turns.
pub fn change_entry<A: EntryAsker>(
    alloc: Global,
    asker: &A,
    entry: &Entry,
    changes: Vec<EntryChange>,
) -> Result<Entry, ChangeFault>
    ensures exact { Answers (λ entry. entry) cause_of result
        (changed_by (A.asker asker.now) entry.now changes.items) }
    ensures named { IfOk result (λ left. left.name ≡ entry.now.name) }
{
    let mut left = Pending::new(alloc, entry.copy(alloc)?)?;
    match apply_each(asker, &mut left, &changes) {
        Ok(()) => Ok(left.into_entry()?),
        Err(fault) => Err(fault),
    }
}

//! The nearest entry above a name of which a requester may know.

ghost use Rattle.std.specs.Prelude.{◌≡◌, ◌<◌, length, take};
ghost use Rattle.std.specs.Option.{option_map};
ghost use Rattle.dir_tree.specs.tree.Numbered.{entries_of, entry_of};
ghost use Rattle.dir_tree.specs.tree.Trees.{named_in};
ghost use Rattle.acdf_filters.specs.Granted.{is_disclosed, matched};
ghost use Rattle.directory.specs.Fronts.{where_passes};

use crate::asking::Asking;
use crate::dir::Dir;
use acdf_filters::Item;
use acdf_filters::aci_item::Permission;
use dir_tree::dn_names::Dn;
use dir_tree::{Entry, EntryNo};

// The entry of the number, if there is one and the requester may know of it.
fn disclosed_at<'a, D: Dir>(asking: &Asking<'a, D>, number: EntryNo) -> Option<&'a Entry>
    ensures exact { option_map (λ entry. entry.now) result
        ≡ where_passes (is_disclosed (entries_of (D.rows asking.now.dir.now)) asking.now.who.now)
        (entry_of number.0 (D.rows asking.now.dir.now)) }
{
    let target = asking.at(number)?;
    if target.allows(Item::Entry, Permission::DiscloseOnError) {
        Some(target.entry)
    } else {
        None
    }
}

// The entry that the front of so many RDNs names, if the requester may know of it.
fn disclosed_front<'a, D: Dir>(asking: &Asking<'a, D>, name: &Dn, len: usize) -> Option<&'a Entry>
    requires len { len < length name.now }
    ensures exact { option_map (λ entry. entry.now) result
        ≡ where_passes (is_disclosed (entries_of (D.rows asking.now.dir.now)) asking.now.who.now)
        (named_in (take len name.now) (entries_of (D.rows asking.now.dir.now))) }
{
    let tree = asking.dir.tree();
    tree.entries_form_a_tree();
    match tree.find_prefix(name, len) {
        Some(number) => disclosed_at(asking, number),
        None => None,
    }
}

/// The nearest entry above the name, not that of the name itself, of which the requester may know (X.511 7.11.3): the
/// one that is named where an entry is not found. None exactly where there is none. No memory is taken.
pub fn matched<'a, D: Dir>(asking: &Asking<'a, D>, name: &Dn) -> Option<&'a Entry>
    ensures exact { option_map (λ entry. entry.now) result
        ≡ matched (entries_of (D.rows asking.now.dir.now)) asking.now.who.now name.now }
{
    asking.dir.tree().entries_form_a_tree();
    let mut len = name.len();
    while len > 0 {
        len -= 1;
        if let Some(entry) = disclosed_front(asking, name, len) {
            return Some(entry);
        }
    }
    None
}

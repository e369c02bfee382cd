//! The numbers of the access control subentries, kept in the order of the names.

ghost use Rattle.std.specs.Prelude.{◌≡◌, ◌<◌, ◌≤◌, not, ◌==◌, true, length, IfOk, OnErr, OnOk, vec_len, vec_capacity};
ghost use Rattle.dir_tree.specs.Points.{is_access_subentry};
ghost use Rattle.dir_tree.specs.tree.Trees.{is_before};
ghost use Rattle.dir_tree.specs.slots.Slots.{slot_of, entry_in, numbers_in, place_among, listed_in, unlisted};

use crate::entry::Entry;
use crate::number::EntryNo;
use crate::slots::{entry_at, put_at};
use dn_names::{Dn, compare_names};
use std::alloc::AllocError;

/// Makes room for the number of the entry, where it is an access control subentry.
pub(crate) fn make_room(numbers: &mut Vec<EntryNo>, entry: &Entry) -> Result<(), AllocError>
    ensures ok { OnOk result (is_access_subentry entry.now ≡ true
        → vec_len numbers.new < vec_capacity numbers.new) }
    ensures kept { numbers.new.items ≡ numbers.old.items }
{
    if entry.is_access_subentry() {
        numbers.reserve(1)?;
    }
    Ok(())
}

/// Puts the number of the entry among those of the others, where it is an access control subentry.
pub(crate) fn list_number(
    slots: &[Option<Entry>],
    numbers: &mut Vec<EntryNo>,
    entry: &Entry,
    no: EntryNo,
)
    requires room { is_access_subentry entry.now ≡ true → vec_len numbers.old < vec_capacity numbers.old }
    ensures exact { numbers_in numbers.new.items ≡ listed_in slots.now entry.now no.0 (numbers_in numbers.old.items) }
{
    if entry.is_access_subentry() {
        let place = place_among(slots, numbers.as_slice(), entry.name());
        put_at(numbers, place, no);
    }
}

/// Takes the number out.
pub(crate) fn drop_number(numbers: &mut Vec<EntryNo>, no: EntryNo)
    ensures exact { numbers_in numbers.new.items ≡ unlisted no.0 (numbers_in numbers.old.items) }
    ensures room { vec_capacity numbers.new ≡ vec_capacity numbers.old }
    ensures fits { vec_len numbers.new ≤ vec_len numbers.old }
{
    numbers.retain(
        |other: &EntryNo| -> bool
            ensures { result ≡ not (other.now.0 == no.0) }
        { other.0 != no.0 },
    );
}

/// The numbers, in memory of their own, where the entry takes the place of the one that has the number.
pub(crate) fn relisted(
    slots: &Vec<Option<Entry>>,
    numbers: &Vec<EntryNo>,
    entry: &Entry,
    no: EntryNo,
) -> Result<Vec<EntryNo>, AllocError>
    ensures ok { IfOk result (λ list. numbers_in list.items
        ≡ listed_in slots.now.items entry.now no.0 (unlisted no.0 (numbers_in numbers.now.items))) }
{
    let mut list = numbers.as_slice().to_vec(*numbers.allocator())?;
    make_room(&mut list, entry)?;
    drop_number(&mut list, no);
    list_number(slots, &mut list, entry, no);
    Ok(list)
}

// The place of the name among the entries of the numbers: how many come before it.
fn place_among(slots: &[Option<Entry>], numbers: &[EntryNo], name: &Dn) -> usize
    ensures exact { result ≡ place_among name.now slots.now (numbers_in numbers.now) }
    ensures fits { result ≤ length numbers.now }
{
    let mut place = 0;
    for no in numbers {
        if !comes_before(slots, *no, name) {
            return place;
        }
        place += 1;
    }
    place
}

// Whether the entry of the number comes before the name.
fn comes_before(slots: &[Option<Entry>], no: EntryNo, name: &Dn) -> bool
    ensures exact { result ≡ is_before (entry_in (slot_of slots.now no.0)).name name.now }
{
    match entry_at(slots, no.0) {
        Some(entry) => compare_names(entry.name(), name).is_lt(),
        None => name.len() > 0,
    }
}

//! Entries in slots by their numbers, and numbers in order.

ghost use Rattle.std.specs.Prelude.{◌≡◌, ◌≢◌, ℕ, ◌<◌, ◌≤◌, ◌+◌, length, IfSome, IsSome, is_some, IfOk, Some, None, true, insert, set, vec_len, vec_capacity, OnOk, OnErr};
ghost use Rattle.std.specs.Option.{option_map};
ghost use Rattle.dir_tree.specs.slots.Slots.{slot_of, count_full, HasSameSlots, with_room};
ghost use Rattle.dir_tree.specs.tree.Trees.{most_entries};

use crate::entry::Entry;
use std::alloc::AllocError;

/// The entry in the slot of the number.
pub(crate) fn entry_at(slots: &[Option<Entry>], id: u32) -> Option<&Entry>
    ensures exact { option_map (λ entry. entry.now) result ≡ slot_of slots.now id }
{
    match slots.get(id as usize) {
        Some(Some(entry)) => Some(entry),
        _ => None,
    }
}

/// The number of an empty slot, of which one is made where all are full; no slot before `low` is looked at, as long
/// as one from there on is empty.
pub(crate) fn free_slot(
    slots: &mut Vec<Option<Entry>>,
    low: usize,
    full: usize,
) -> Result<usize, AllocError>
    requires counted { count_full slots.old.items ≡ full }
    requires room { full < most_entries }
    requires within { length slots.old.items ≤ most_entries }
    ensures ok { IfOk result (λ id.
        (id < length slots.new.items) × (slot_of slots.new.items id ≡ None)) }
    ensures kept { HasSameSlots slots.old.items slots.new.items }
    ensures count { count_full slots.new.items ≡ full }
    ensures fits { length slots.new.items ≤ most_entries }
    ensures only { vec_capacity slots.new ≤ with_room (vec_len slots.old) (vec_capacity slots.old) }
{
    let len = slots.len();
    if len == full {
        make_room(slots)?;
        slots.push_reserved(None);
        return Ok(len);
    }
    Ok(empty_slot(slots, low))
}

// Makes room for one more slot; where there is none, for an eighth more, since a slot is large.
fn make_room(slots: &mut Vec<Option<Entry>>) -> Result<(), AllocError>
    ensures ok { OnOk result (vec_len slots.new < vec_capacity slots.new) }
    ensures exact { OnOk result
        (vec_capacity slots.new ≡ with_room (vec_len slots.old) (vec_capacity slots.old)) }
    ensures kept { slots.new.items ≡ slots.old.items }
    ensures err { OnErr result (vec_capacity slots.new ≡ vec_capacity slots.old) }
{
    let len = slots.len();
    if len >= slots.capacity() {
        slots.reserve_exact(len / 8 + 1)?;
    }
    Ok(())
}

// The number of an empty slot.
fn empty_slot(slots: &[Option<Entry>], low: usize) -> usize
    requires { count_full slots.now < length slots.now }
    ensures fits { result < length slots.now }
    ensures empty { slot_of slots.now result ≡ None }
{
    match empty_from(slots, low) {
        Some(id) => id,
        None => match empty_from(slots, 0) {
            Some(id) => id,
            None => unreachable!(),
        },
    }
}

// The number of the first empty slot from one on.
fn empty_from(slots: &[Option<Entry>], from: usize) -> Option<usize>
    ensures found { IfSome result (λ id. (id < length slots.now) × (slot_of slots.now id ≡ None)) }
    ensures empty { result ≡ None
        → (id : ℕ) → from ≤ id → id < length slots.now → is_some (slot_of slots.now id) ≡ true }
{
    let mut id = from;
    while id < slots.len() {
        if slots[id].is_none() {
            return Some(id);
        }
        id += 1;
    }
    None
}

/// Puts the entry into the slot of the number.
pub(crate) fn fill_slot(slots: &mut Vec<Option<Entry>>, id: usize, entry: Entry)
    requires { id < length slots.old.items }
    ensures exact { slots.new.items ≡ set slots.old.items id (Some entry) }
{
    slots[id] = Some(entry);
}

/// Takes the entry out of the slot of the number, which then is empty.
pub(crate) fn take_entry(slots: &mut Vec<Option<Entry>>, id: u32) -> Entry
    requires { IsSome (slot_of slots.old.items id) }
    ensures found { slot_of slots.old.items id ≡ Some result }
    ensures exact { slots.new.items ≡ set slots.old.items id None }
{
    match slots[id as usize].take() {
        Some(entry) => entry,
        None => unreachable!(),
    }
}

/// Puts the entry into the slot of the number, in place of the one that is there.
pub(crate) fn replace_entry(slots: &mut Vec<Option<Entry>>, id: u32, entry: Entry) -> Entry
    requires { IsSome (slot_of slots.old.items id) }
    ensures found { slot_of slots.old.items id ≡ Some result }
    ensures exact { slots.new.items ≡ set slots.old.items id (Some entry) }
{
    match slots[id as usize].replace(entry) {
        Some(old) => old,
        None => unreachable!(),
    }
}

/// Puts the item at the place, for which there is room.
pub(crate) fn put_at<T: Drop>(items: &mut Vec<T>, place: usize, item: T)
    requires found { place ≤ vec_len items.old }
    requires room { vec_len items.old < vec_capacity items.old }
    ensures exact { items.new.items ≡ insert items.old.items place item }
{
    items.insert(place, item).unwrap();
}

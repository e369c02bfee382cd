//! What is noted of administrative points.

ghost use Rattle.std.specs.Prelude.{◌≡◌, ◌==◌, ◌++◌, ◌≤◌, ◌<◌, OnOk, IfOk, false, length, filter, codes, string_bytes, if◌then◌else◌};
ghost use Rattle.std.specs.List.{list_any};
ghost use Rattle.dir_tree.specs.Points.{is_specific_point};
ghost use Rattle.dir_tree.specs.Scope.{scoped};
ghost use Rattle.dir_tree.specs.declared.scope.Scope.TheVariants.{Sub};
ghost use Rattle.dir_tree.specs.tree.Numbered.{entries_of, IsNumberedTree};
ghost use Rattle.data_advice.specs.Advice.{is_outside, outside_note, no_point_note, points_note};
ghost use Rattle.data_advice.specs.Walking.{passes};

use crate::noting::NoMemory;
use admin_scope::{areas, is_specific_point};
use dir_tree::{EntryNo, Scope, Tree};
use std::alloc::Global;

// Whether the entry of the number is a specific point.
fn is_specific_at(tree: &Tree, no: EntryNo) -> bool
    ensures exact { result ≡ passes is_specific_point tree.now no.0 }
{
    match tree.at(no) {
        Some(entry) => is_specific_point(entry),
        None => false,
    }
}

// Whether one of the entries from the number on is.
fn is_specific_from(tree: &Tree, suffix: EntryNo) -> bool
    ensures exact { result ≡ list_any (passes is_specific_point tree.now) (scoped Sub suffix.0 tree.now) }
{
    for no in tree.below(suffix, Scope::Sub) {
        if is_specific_at(tree, no) {
            return true;
        }
    }
    false
}

// Whether there are no numbers.
fn are_none(numbers: &[EntryNo]) -> bool
    ensures exact { result ≡ (length numbers.now == 0) }
{
    numbers.is_empty()
}

// Whether the entry of the number is in no area.
fn is_outside_at(alloc: Global, tree: &Tree, no: EntryNo) -> Result<bool, NoMemory>
    ensures ok { IfOk result (λ found. found ≡ passes (is_outside (entries_of tree.now)) tree.now no.0) }
    ensures tree { IsNumberedTree tree.now }
{
    tree.entries_form_a_tree();
    match tree.at(no) {
        Some(_) => {
            let points = areas(alloc, tree, no)?;
            Ok(are_none(points.as_slice()))
        }
        None => Ok(false),
    }
}

// How many of the entries from the number on are in no area.
fn count_outside(alloc: Global, tree: &Tree, suffix: EntryNo) -> Result<usize, NoMemory>
    ensures ok { IfOk result (λ count. count
        ≡ length (filter (passes (is_outside (entries_of tree.now)) tree.now) (scoped Sub suffix.0 tree.now))) }
{
    let mut count = 0;
    for no in tree.below(suffix, Scope::Sub) {
        if is_outside_at(alloc, tree, no)? {
            count += 1;
        }
    }
    Ok(count)
}

// Writes how many entries are in no area, where there are some.
fn put_outside(count: usize, out: &mut String) -> Result<(), NoMemory>
    ensures ok { OnOk result (string_bytes out.new ≡ string_bytes out.old ++ outside_note count) }
{
    if count == 0 {
        Ok(())
    } else {
        write!(
            out,
            "note: entries in no administrative area, which nobody may find: {count}\n"
        )
    }
}

// Writes that there is no point.
fn put_no_point(out: &mut String) -> Result<(), NoMemory>
    ensures ok { OnOk result (string_bytes out.new ≡ string_bytes out.old ++ no_point_note) }
{
    out.push_str(
        "note: no entry is an access control specific point (administrativeRole): nobody may do anything\n",
    )
}

// Writes what is noted of the points of the entries from the suffix on.
fn put_points_from(
    alloc: Global,
    tree: &Tree,
    suffix: EntryNo,
    out: &mut String,
) -> Result<(), NoMemory>
    ensures ok { OnOk result (string_bytes out.new ≡ string_bytes out.old
        ++ (if list_any (passes is_specific_point tree.now) (scoped Sub suffix.0 tree.now)
        then outside_note (length (filter (passes (is_outside (entries_of tree.now)) tree.now) (scoped Sub suffix.0 tree.now)))
        else no_point_note)) }
{
    if is_specific_from(tree, suffix) {
        put_outside(count_outside(alloc, tree, suffix)?, out)
    } else {
        put_no_point(out)
    }
}

/// Writes what is noted of the points.
pub(crate) fn put_points(alloc: Global, tree: &Tree, out: &mut String) -> Result<(), NoMemory>
    ensures ok { OnOk result (string_bytes out.new ≡ string_bytes out.old ++ points_note (entries_of tree.now)) }
    ensures tree { IsNumberedTree tree.now }
{
    tree.entries_form_a_tree();
    match tree.suffix() {
        Some(suffix) => put_points_from(alloc, tree, suffix, out),
        None => put_no_point(out),
    }
}

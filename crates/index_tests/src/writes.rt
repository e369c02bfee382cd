//! Writes of every kind, one after the other.

use crate::directories::{Attributes, entry, kept, kept_at, new_at, number, said, tree};
use aci_index::IndexedDir;
use directory::Dir;
use std::alloc::Global;
use std::test::Fail;

/// What is written.
#[derive(Clone, Copy)]
enum Write {
    /// An entry of this name comes in.
    Insert(&'static str, Attributes),
    /// The entry of the name goes.
    Remove(&'static str),
    /// An entry of the second name takes the place of that of the first.
    Replace(&'static str, &'static str, Attributes),
    /// An entry of the name takes the place of the one that has it.
    Revise(&'static str, Attributes),
}

fn insert<D: Dir>(
    alloc: Global,
    dir: &mut D,
    name: &str,
    attributes: Attributes,
) -> Result<(), Fail> {
    let entry = entry(alloc, name, attributes)?;
    if entry.name().len() == 0 {
        return Err(Fail::from("no name"));
    }
    let _number = dir.insert(alloc, entry)?;
    Ok(())
}

fn revise<D: Dir>(
    alloc: Global,
    dir: &mut D,
    name: &str,
    attributes: Attributes,
) -> Result<(), Fail> {
    let entry = entry(alloc, name, attributes)?;
    let number = number(alloc, dir.tree(), name)?;
    if !dir.tree().is_called(number, entry.name()) {
        return Err(Fail::from("another name"));
    }
    let _old = dir.revise(alloc, number, entry)?;
    Ok(())
}

// Writes to the directory.
fn make_write<D: Dir>(alloc: Global, dir: &mut D, what: Write) -> Result<(), Fail> {
    match what {
        Write::Insert(name, attributes) => insert(alloc, dir, name, attributes),
        Write::Remove(name) => {
            let number = number(alloc, dir.tree(), name)?;
            let _entry = dir.remove(alloc, number)?;
            Ok(())
        }
        Write::Replace(name, new, attributes) => {
            let number = number(alloc, dir.tree(), name)?;
            let _entry = dir.replace(alloc, number, entry(alloc, new, attributes)?)?;
            Ok(())
        }
        Write::Revise(name, attributes) => revise(alloc, dir, name, attributes),
    }
}

// The subentries in force for the entry of the name, where the directory keeps for each entry what the entries say.
fn told(alloc: Global, dir: &IndexedDir, name: &str) -> Result<String, Fail> {
    if kept(alloc, dir)?.as_str() != said(alloc, dir.tree())?.as_str() {
        return Ok(String::from_str(alloc, "what is kept is not what the entries say")?);
    }
    kept_at(alloc, dir, number(alloc, dir.tree(), name)?)
}

// A subentry that takes in all below its point.
const ALL: Attributes = &[
    ("objectClass", "subentry"),
    ("objectClass", "accessControlSubentry"),
    ("subtreeSpecification", "{ }"),
];

// One that takes in what has the class.
const WITH_UID: Attributes = &[
    ("objectClass", "subentry"),
    ("objectClass", "accessControlSubentry"),
    (
        "subtreeSpecification",
        "{ specificationFilter item:uidObject }",
    ),
];

// One that takes in what is below its point, without the point.
const BELOW: Attributes = &[
    ("objectClass", "subentry"),
    ("objectClass", "accessControlSubentry"),
    ("subtreeSpecification", "{ minimum 1 }"),
];

// One that is not for access control.
const OTHER: Attributes = &[("objectClass", "subentry"), ("subtreeSpecification", "{ }")];

const AUTONOMOUS: Attributes = &[
    ("objectClass", "organizationalUnit"),
    ("administrativeRole", "autonomousArea"),
];

const SPECIFIC: Attributes = &[
    ("objectClass", "organizationalUnit"),
    ("administrativeRole", "accessControlSpecificArea"),
];

const INNER: Attributes = &[
    ("objectClass", "organizationalUnit"),
    ("administrativeRole", "accessControlInnerArea"),
];

const UNIT: Attributes = &[("objectClass", "organizationalUnit")];

const DEVICE: Attributes = &[("objectClass", "device")];

const DEVICE_WITH_UID: Attributes = &[("objectClass", "device"), ("objectClass", "uidObject")];

static ENTRIES: [(&str, Attributes); 7] = [
    ("ou=u", AUTONOMOUS),
    ("cn=top,ou=u", ALL),
    ("cn=uid,ou=u", WITH_UID),
    ("ou=a,ou=u", UNIT),
    ("ou=b,ou=a,ou=u", UNIT),
    ("cn=d,ou=b,ou=a,ou=u", DEVICE),
    ("cn=e,ou=u", DEVICE),
];

const A: &str = "ou=a,ou=u";

const B: &str = "ou=b,ou=a,ou=u";

const LEAF: &str = "cn=d,ou=b,ou=a,ou=u";

const DEEP: &str = "cn=deep,ou=b,ou=a,ou=u";

const LOW: &str = "cn=low,ou=b,ou=a,ou=u";

const MORE: &str = "cn=more,ou=a,ou=u";

// What is written, a name, and the subentries in force for its entry then.
static WRITES: [(Write, &str, &str); 26] = [
    // entries
    (
        Write::Insert("cn=f,ou=a,ou=u", DEVICE),
        "cn=f,ou=a,ou=u",
        "cn=top,ou=u ",
    ),
    (
        Write::Replace(LEAF, LEAF, DEVICE_WITH_UID),
        LEAF,
        "cn=top,ou=u cn=uid,ou=u ",
    ),
    (Write::Replace(LEAF, LEAF, DEVICE), LEAF, "cn=top,ou=u "),
    (
        Write::Replace("cn=e,ou=u", "cn=g,ou=u", DEVICE_WITH_UID),
        "cn=g,ou=u",
        "cn=top,ou=u cn=uid,ou=u ",
    ),
    (Write::Remove("cn=f,ou=a,ou=u"), LEAF, "cn=top,ou=u "),
    // points
    (Write::Insert("ou=h,ou=u", SPECIFIC), "ou=h,ou=u", ""),
    (
        Write::Replace("ou=h,ou=u", "ou=i,ou=u", INNER),
        "ou=i,ou=u",
        "cn=top,ou=u ",
    ),
    (
        Write::Replace("ou=i,ou=u", "ou=j,ou=u", SPECIFIC),
        "ou=j,ou=u",
        "",
    ),
    (
        Write::Remove("ou=j,ou=u"),
        "cn=g,ou=u",
        "cn=top,ou=u cn=uid,ou=u ",
    ),
    // a subentry below what is no point yet, and then is one
    (Write::Insert(MORE, ALL), LEAF, "cn=top,ou=u "),
    (
        Write::Replace(A, A, INNER),
        LEAF,
        "cn=more,ou=a,ou=u cn=top,ou=u ",
    ),
    (Write::Replace(A, A, SPECIFIC), LEAF, "cn=more,ou=a,ou=u "),
    (Write::Replace(B, B, INNER), LEAF, "cn=more,ou=a,ou=u "),
    // subentries
    (
        Write::Insert(DEEP, ALL),
        LEAF,
        "cn=deep,ou=b,ou=a,ou=u cn=more,ou=a,ou=u ",
    ),
    (Write::Replace(DEEP, DEEP, BELOW), B, "cn=more,ou=a,ou=u "),
    (
        Write::Replace(DEEP, LOW, BELOW),
        LEAF,
        "cn=low,ou=b,ou=a,ou=u cn=more,ou=a,ou=u ",
    ),
    (Write::Replace(LOW, LOW, DEVICE), LOW, "cn=more,ou=a,ou=u "),
    (Write::Replace(LOW, LOW, ALL), LOW, ""),
    (
        Write::Replace(LEAF, LEAF, DEVICE_WITH_UID),
        LEAF,
        "cn=low,ou=b,ou=a,ou=u cn=more,ou=a,ou=u ",
    ),
    (Write::Remove(LOW), LEAF, "cn=more,ou=a,ou=u "),
    // the suffix loses its role, and has it again
    (Write::Replace("ou=u", "ou=u", UNIT), "cn=g,ou=u", ""),
    (
        Write::Replace("ou=u", "OU=U", AUTONOMOUS),
        "cn=g,ou=u",
        "cn=top,ou=u cn=uid,ou=u ",
    ),
    // a subentry that is not for access control any more, and one below it that goes
    (
        Write::Replace("cn=top,ou=u", "cn=top,ou=u", OTHER),
        "cn=g,ou=u",
        "cn=uid,ou=u ",
    ),
    (Write::Remove(MORE), LEAF, ""),
    (Write::Replace(A, A, UNIT), LEAF, "cn=uid,ou=u "),
    (Write::Replace(LEAF, LEAF, DEVICE), LEAF, ""),
];

#[test]
fn after_each_write_a_directory_keeps_what_the_entries_say(rt: HostRuntime) -> Result<(), Fail> {
    let alloc = rt.alloc();
    let mut dir = IndexedDir::new(alloc, tree(alloc, &ENTRIES)?)?;
    for (what, name, want) in &WRITES {
        make_write(alloc, &mut dir, *what)?;
        let found = told(alloc, &dir, name)?;
        assert_eq!(rt; found.as_str(), *want, "in force for {name}");
    }
    Ok(())
}

// Entries that take the places of others of their names: a leaf, a point that gets other roles, a subentry that reaches
// less and then is none, and the suffix in another spelling.
#[rattlefmt::skip]
static REVISIONS: [(Write, &str, &str); 11] = [
    (Write::Revise(LEAF, DEVICE_WITH_UID), LEAF, "cn=top,ou=u cn=uid,ou=u "),
    (Write::Revise(LEAF, DEVICE), LEAF, "cn=top,ou=u "),
    (Write::Insert(MORE, ALL), LEAF, "cn=top,ou=u "),
    (Write::Revise(A, INNER), LEAF, "cn=more,ou=a,ou=u cn=top,ou=u "),
    (Write::Revise(A, INNER), LEAF, "cn=more,ou=a,ou=u cn=top,ou=u "),
    (Write::Revise(A, SPECIFIC), LEAF, "cn=more,ou=a,ou=u "),
    (Write::Revise(MORE, BELOW), A, ""),
    (Write::Revise(MORE, OTHER), LEAF, ""),
    (Write::Revise(A, UNIT), LEAF, "cn=top,ou=u "),
    (Write::Revise("OU=U", UNIT), LEAF, ""),
    (Write::Revise("ou=u", AUTONOMOUS), LEAF, "cn=top,ou=u "),
];

#[test]
fn after_each_revision_a_directory_keeps_what_the_entries_say(rt: HostRuntime) -> Result<(), Fail> {
    let alloc = rt.alloc();
    let mut dir = IndexedDir::new(alloc, tree(alloc, &ENTRIES)?)?;
    for (what, name, want) in &REVISIONS {
        make_write(alloc, &mut dir, *what)?;
        let found = told(alloc, &dir, name)?;
        assert_eq!(rt; found.as_str(), *want, "in force for {name}");
    }
    Ok(())
}

const H: &str = "ou=h,ou=u";

const SIDE: &str = "cn=more,ou=h,ou=u";

const UP: &str = "cn=more,ou=u";

// Entries that move, and what is in force then.
#[rattlefmt::skip]
static MOVES: [(Write, &str, &str); 21] = [
    (Write::Insert(MORE, ALL), LEAF, "cn=top,ou=u "),
    (Write::Replace(A, A, INNER), LEAF, "cn=more,ou=a,ou=u cn=top,ou=u "),
    // a leaf goes up, down and to where it was
    (Write::Replace(LEAF, "cn=d,ou=u", DEVICE), "cn=d,ou=u", "cn=top,ou=u "),
    (Write::Replace("cn=d,ou=u", "cn=d,ou=a,ou=u", DEVICE_WITH_UID), "cn=d,ou=a,ou=u",
        "cn=more,ou=a,ou=u cn=top,ou=u cn=uid,ou=u "),
    (Write::Replace("cn=d,ou=a,ou=u", LEAF, DEVICE), LEAF, "cn=more,ou=a,ou=u cn=top,ou=u "),
    // so does a point, and as it moves it gets another role, loses it, and has it again
    (Write::Insert(H, SPECIFIC), H, ""),
    (Write::Replace(H, "ou=h,ou=a,ou=u", SPECIFIC), "ou=h,ou=a,ou=u", ""),
    (Write::Replace("ou=h,ou=a,ou=u", "ou=h,ou=b,ou=a,ou=u", INNER), "ou=h,ou=b,ou=a,ou=u",
        "cn=more,ou=a,ou=u cn=top,ou=u "),
    (Write::Replace("ou=h,ou=b,ou=a,ou=u", "ou=h,ou=a,ou=u", UNIT), "ou=h,ou=a,ou=u", "cn=more,ou=a,ou=u cn=top,ou=u "),
    (Write::Replace("ou=h,ou=a,ou=u", H, SPECIFIC), H, ""),
    // a subentry goes beside, up and down: it is in force where it stands, and no more where it stood
    (Write::Replace(MORE, SIDE, ALL), LEAF, "cn=top,ou=u "),
    (Write::Replace(LEAF, LEAF, DEVICE), H, "cn=more,ou=h,ou=u "),
    (Write::Replace(SIDE, UP, ALL), LEAF, "cn=more,ou=u cn=top,ou=u "),
    (Write::Replace(LEAF, LEAF, DEVICE), H, ""),
    (Write::Replace(UP, MORE, BELOW), LEAF, "cn=more,ou=a,ou=u cn=top,ou=u "),
    (Write::Replace(LEAF, LEAF, DEVICE), "cn=e,ou=u", "cn=top,ou=u "),
    // one that becomes none as it moves, and one that becomes one
    (Write::Replace(MORE, SIDE, DEVICE), LEAF, "cn=top,ou=u "),
    (Write::Replace(SIDE, MORE, ALL), LEAF, "cn=more,ou=a,ou=u cn=top,ou=u "),
    (Write::Replace(MORE, UP, OTHER), LEAF, "cn=top,ou=u "),
    // below an entry that is no point, where it is in force for none, and back
    (Write::Replace(UP, "cn=more,cn=e,ou=u", ALL), "cn=e,ou=u", "cn=top,ou=u "),
    (Write::Replace("cn=more,cn=e,ou=u", MORE, ALL), LEAF, "cn=more,ou=a,ou=u cn=top,ou=u "),
];

#[test]
fn after_each_move_a_directory_keeps_what_the_entries_say(rt: HostRuntime) -> Result<(), Fail> {
    let alloc = rt.alloc();
    let mut dir = IndexedDir::new(alloc, tree(alloc, &ENTRIES)?)?;
    for (what, name, want) in &MOVES {
        make_write(alloc, &mut dir, *what)?;
        let found = told(alloc, &dir, name)?;
        assert_eq!(rt; found.as_str(), *want, "in force for {name}");
    }
    Ok(())
}

// An entry that is to be added, and the subentries in force for it: a point is not yet one for itself, and for a subentry
// none are.
static NEW: [(&str, Attributes, &str); 5] = [
    ("cn=f,ou=a,ou=u", DEVICE, "cn=top,ou=u "),
    (
        "cn=f,ou=a,ou=u",
        DEVICE_WITH_UID,
        "cn=top,ou=u cn=uid,ou=u ",
    ),
    ("ou=h,ou=u", SPECIFIC, "cn=top,ou=u "),
    (MORE, ALL, ""),
    ("cn=f,ou=v", DEVICE, ""),
];

#[test]
fn for_a_new_entry_what_stands_above_it_is_in_force(rt: HostRuntime) -> Result<(), Fail> {
    let alloc = rt.alloc();
    let dir = IndexedDir::new(alloc, tree(alloc, &ENTRIES)?)?;
    for (name, attributes, want) in &NEW {
        let new = entry(alloc, name, attributes)?;
        let found = new_at(alloc, &dir, &new)?;
        assert_eq!(rt; found.as_str(), *want, "in force for {name}");
    }
    Ok(())
}

#[test]
fn the_access_control_subentries_are_listed_in_the_order_of_names(
    rt: HostRuntime,
) -> Result<(), Fail> {
    let alloc = rt.alloc();
    let mut dir = IndexedDir::new(alloc, tree(alloc, &ENTRIES)?)?;
    make_write(alloc, &mut dir, Write::Insert("cn=first,ou=u", ALL))?;
    make_write(alloc, &mut dir, Write::Insert("cn=other,ou=u", OTHER))?;
    let mut found = String::new(alloc);
    for number in dir.subentries() {
        let entry = dir.tree().at(*number).ok_or("no entry of the number")?;
        dir_tree::dn_names::print(alloc, entry.name(), &mut found)?;
        found.push(' ')?;
    }
    assert_eq!(rt; found.as_str(), "cn=first,ou=u cn=top,ou=u cn=uid,ou=u ");
    Ok(())
}

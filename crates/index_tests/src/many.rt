//! Many decisions over many long subtrees, and many writes of a large directory.

use crate::directories::{kept_at, number, put, said_at};
use acdf_filters::aci_item::{Level, Permission};
use acdf_filters::{Item, Requester};
use aci_index::IndexedDir;
use dir_tree::{EntryNo, Tree};
use directory::{Asking, Dir};
use std::alloc::Global;
use std::test::Fail;

const OPEN: &str =
    "{ identificationTag \"open\", precedence 0, authenticationLevel none, itemOrUserFirst userFirst: { \
    userClasses { allUsers }, userPermissions { { protectedItems { entry }, grantsAndDenials { grantBrowse } } } } }";

// A subtree with so many exclusions.
fn exclusions(alloc: Global, count: usize) -> Result<String, Fail> {
    let mut out = String::new(alloc);
    out.push_str("{ specificExclusions { ")?;
    for index in 0..count {
        if index > 0 {
            out.push_str(", ")?;
        }
        write!(out, "chopBefore:\"cn=y{index}\"")?;
    }
    out.push_str(" } }")?;
    Ok(out)
}

// A device below a point with so many access control subentries, each of so many exclusions.
fn long_subtrees(alloc: Global, subentries: usize, count: usize) -> Result<Tree, Fail> {
    let mut tree = Tree::new(alloc);
    put(
        alloc,
        &mut tree,
        "dc=v",
        &[
            ("objectClass", "domain"),
            ("administrativeRole", "autonomousArea"),
        ],
    )?;
    put(alloc, &mut tree, "cn=d,dc=v", &[("objectClass", "device")])?;
    let subtree = exclusions(alloc, count)?;
    for index in 0..subentries {
        let mut name = String::new(alloc);
        write!(name, "cn=x{index},dc=v")?;
        put(
            alloc,
            &mut tree,
            name.as_str(),
            &[
                ("objectClass", "subentry"),
                ("objectClass", "accessControlSubentry"),
                ("subtreeSpecification", subtree.as_str()),
                ("prescriptiveACI", OPEN),
            ],
        )?;
    }
    Ok(tree)
}

// How often, of so many times, an anonymous requester may browse the entry; never, where there is none.
fn browsable(
    alloc: Global,
    dir: &IndexedDir,
    number: EntryNo,
    times: usize,
) -> Result<usize, Fail> {
    let who = Requester {
        name: None,
        level: Level::Anyone,
    };
    let asking = Asking::new(alloc, dir, &who)?;
    let Some(target) = asking.at(number) else {
        return Ok(0);
    };
    let mut count: usize = 0;
    for _ in 0..times {
        if target.allows(Item::Entry, Permission::Browse) {
            count = count.saturating_add(1);
        }
    }
    Ok(count)
}

// The subtrees are not tested again: that would be 80,000,000,000 comparisons of names.
#[test]
fn decisions_go_by_what_is_kept(rt: HostRuntime) -> Result<(), Fail> {
    let alloc = rt.alloc();
    let dir = IndexedDir::new(alloc, long_subtrees(alloc, 100, 2_000)?)?;
    let device = number(alloc, dir.tree(), "cn=d,dc=v")?;
    assert_eq!(rt; browsable(alloc, &dir, device, 400_000)?, 400_000);
    Ok(())
}

// The name of a person.
fn person(alloc: Global, index: usize) -> Result<String, Fail> {
    let mut name = String::new(alloc);
    let unit = if index % 2 == 0 { "open" } else { "shut" };
    write!(name, "uid=u{index},ou={unit},dc=town")?;
    Ok(name)
}

// A town of so many people in two units, one of which has rules of its own.
fn town(alloc: Global, people: usize) -> Result<Tree, Fail> {
    let mut tree = Tree::new(alloc);
    put(
        alloc,
        &mut tree,
        "dc=town",
        &[
            ("objectClass", "domain"),
            ("administrativeRole", "autonomousArea"),
        ],
    )?;
    put(
        alloc,
        &mut tree,
        "cn=all,dc=town",
        &[
            ("objectClass", "subentry"),
            ("objectClass", "accessControlSubentry"),
            ("subtreeSpecification", "{ }"),
            ("prescriptiveACI", OPEN),
        ],
    )?;
    put(
        alloc,
        &mut tree,
        "cn=half,dc=town",
        &[
            ("objectClass", "subentry"),
            ("objectClass", "accessControlSubentry"),
            ("subtreeSpecification", "{ base \"ou=open\" }"),
            ("prescriptiveACI", OPEN),
        ],
    )?;
    for unit in ["ou=open,dc=town", "ou=shut,dc=town"] {
        put(
            alloc,
            &mut tree,
            unit,
            &[("objectClass", "organizationalUnit")],
        )?;
    }
    for index in 0..people {
        let name = person(alloc, index)?;
        put(
            alloc,
            &mut tree,
            name.as_str(),
            &[("objectClass", "inetOrgPerson"), ("cn", "Someone")],
        )?;
    }
    Ok(tree)
}

// Takes the entry of the name out, and puts it in again.
fn take_and_put(alloc: Global, dir: &mut IndexedDir, name: &str) -> Result<(), Fail> {
    let number = number(alloc, dir.tree(), name)?;
    let entry = dir.remove(alloc, number)?;
    if entry.name().len() == 0 {
        return Err(Fail::from("no name"));
    }
    let _number = dir.insert(alloc, entry)?;
    Ok(())
}

// Whether the directory keeps of the entry of the name what the entries say.
fn agrees(alloc: Global, dir: &IndexedDir, name: &str) -> Result<bool, Fail> {
    let number = number(alloc, dir.tree(), name)?;
    let found = kept_at(alloc, dir, number)?;
    let want = said_at(alloc, dir.tree(), number)?;
    Ok(found.as_str() == want.as_str())
}

// How many of so many people the directory keeps another list of than the entries say.
fn wrong(alloc: Global, dir: &IndexedDir, people: usize) -> Result<usize, Fail> {
    let mut count: usize = 0;
    for index in 0..people {
        let name = person(alloc, index)?;
        if !agrees(alloc, dir, name.as_str())? {
            count = count.saturating_add(1);
        }
    }
    Ok(count)
}

// The lists of the others are not made again: that would be 800,000,000 lists.
#[test]
fn a_write_makes_the_lists_of_its_entry_alone(rt: HostRuntime) -> Result<(), Fail> {
    let alloc = rt.alloc();
    let mut dir = IndexedDir::new(alloc, town(alloc, 20_000)?)?;
    for index in 0..20_000 {
        let name = person(alloc, index)?;
        take_and_put(alloc, &mut dir, name.as_str())?;
    }
    assert_eq!(rt; wrong(alloc, &dir, 100)?, 0);
    let unit = number(alloc, dir.tree(), "ou=open,dc=town")?;
    let found = kept_at(alloc, &dir, unit)?;
    assert_eq!(rt; found.as_str(), "cn=all,dc=town cn=half,dc=town ");
    Ok(())
}

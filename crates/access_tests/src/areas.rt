//! Administrative areas and subentries in force, in small trees.
use admin_scope::{areas, in_force};
use dir_tree::dn_names::{make_value, parse};
use dir_tree::schema_tables::attr;
use dir_tree::{Entry, EntryNo, Tree};
use std::alloc::Global;
use std::process::Abort;
use std::test::Fail;

type Attributes = &'static [(&'static str, &'static str)];

// A name, its points from the entry upwards, and the subentries in force for it.
type Row = (&'static str, &'static str, &'static str);

// The entry of the name with the attributes.
fn entry(
    alloc: Global,
    name: &str,
    attributes: &[(&'static str, &'static str)],
) -> Result<Entry, Fail> {
    let mut entry = Entry::new(alloc, parse(alloc, name.as_bytes())?)?;
    for (kind, text) in attributes {
        let kind = attr(kind).ok_or("no such type")?;
        let value = make_value(alloc, kind, text.as_bytes().to_vec(alloc)?)?;
        let _added = entry.push(kind, value)?;
    }
    Ok(entry)
}

fn insert(tree: &mut Tree, entry: Entry) -> Result<(), Fail> {
    if entry.name().len() == 0 {
        return Err(Fail::from("no name"));
    }
    let _number = tree.insert(entry)?;
    Ok(())
}

fn tree(alloc: Global, entries: &'static [(&'static str, Attributes)]) -> Result<Tree, Fail> {
    let mut tree = Tree::new(alloc);
    for (name, attributes) in entries {
        insert(&mut tree, entry(alloc, name, attributes)?)?;
    }
    Ok(tree)
}

// The names of the entries of the numbers, one behind the other.
fn names(alloc: Global, tree: &Tree, numbers: &[EntryNo]) -> Result<String, Fail> {
    let mut out = String::new(alloc);
    for number in numbers {
        let entry = tree.at(*number).ok_or("no such entry")?;
        dir_tree::dn_names::print(alloc, entry.name(), &mut out)?;
        out.push_str(" ")?;
    }
    Ok(out)
}

// Each entry of the rows has these points and subentries in the tree of the entries.
fn check_rows(
    rt: &impl Abort,
    alloc: Global,
    entries: &'static [(&'static str, Attributes)],
    rows: &'static [Row],
) -> Result<(), Fail> {
    let tree = tree(alloc, entries)?;
    for (name, points, subentries) in rows {
        let number = tree
            .find(&parse(alloc, name.as_bytes())?)
            .ok_or("no such entry")?;
        let found = areas(alloc, &tree, number)?;
        let found = names(alloc, &tree, found.as_slice())?;
        assert_eq!(rt; found.as_str(), *points, "points of {name}");
        let found = in_force(alloc, &tree, number)?;
        let found = names(alloc, &tree, found.as_slice())?;
        assert_eq!(rt; found.as_str(), *subentries, "in force for {name}");
    }
    Ok(())
}

// A subentry that holds all below its point.
const ALL: Attributes = &[
    ("objectClass", "subentry"),
    ("objectClass", "accessControlSubentry"),
    ("subtreeSpecification", "{ }"),
];

const AUTONOMOUS: Attributes = &[
    ("objectClass", "organizationalUnit"),
    ("administrativeRole", "autonomousArea"),
];

const SPECIFIC: Attributes = &[
    ("objectClass", "organizationalUnit"),
    ("administrativeRole", "accessControlSpecificArea"),
];

const INNER: Attributes = &[
    ("objectClass", "organizationalUnit"),
    ("administrativeRole", "accessControlInnerArea"),
];

const UNIT: Attributes = &[("objectClass", "organizationalUnit")];

// An autonomous area with an inner one, in it a specific one, and in that an inner one.
static NESTED: [(&str, Attributes); 9] = [
    ("ou=u", AUTONOMOUS),
    ("cn=top,ou=u", ALL),
    ("ou=a,ou=u", INNER),
    ("cn=inner,ou=a,ou=u", ALL),
    ("ou=b,ou=a,ou=u", SPECIFIC),
    (
        "cn=below,ou=b,ou=a,ou=u",
        &[
            ("objectClass", "subentry"),
            ("objectClass", "accessControlSubentry"),
            ("subtreeSpecification", "{ base \"ou=c\" }"),
        ],
    ),
    ("ou=c,ou=b,ou=a,ou=u", INNER),
    ("cn=deep,ou=c,ou=b,ou=a,ou=u", ALL),
    ("ou=d,ou=c,ou=b,ou=a,ou=u", UNIT),
];

static NESTED_ROWS: [Row; 7] = [
    ("ou=u", "ou=u ", "cn=top,ou=u "),
    (
        "ou=a,ou=u",
        "ou=a,ou=u ou=u ",
        "cn=inner,ou=a,ou=u cn=top,ou=u ",
    ),
    // the specific point cuts off what is above it, and its subentry holds only what is below its base
    ("ou=b,ou=a,ou=u", "ou=b,ou=a,ou=u ", ""),
    (
        "ou=c,ou=b,ou=a,ou=u",
        "ou=c,ou=b,ou=a,ou=u ou=b,ou=a,ou=u ",
        "cn=deep,ou=c,ou=b,ou=a,ou=u cn=below,ou=b,ou=a,ou=u ",
    ),
    (
        "ou=d,ou=c,ou=b,ou=a,ou=u",
        "ou=c,ou=b,ou=a,ou=u ou=b,ou=a,ou=u ",
        "cn=deep,ou=c,ou=b,ou=a,ou=u cn=below,ou=b,ou=a,ou=u ",
    ),
    // none is in force for a subentry
    ("cn=top,ou=u", "ou=u ", ""),
    ("cn=inner,ou=a,ou=u", "ou=a,ou=u ou=u ", ""),
];

#[test]
fn areas_end_at_the_first_specific_point(rt: HostRuntime) -> Result<(), Fail> {
    check_rows(&rt, rt.alloc(), &NESTED, &NESTED_ROWS)
}

// An inner point with no specific one above it.
static OPEN: [(&str, Attributes); 3] = [("ou=u", INNER), ("cn=s,ou=u", ALL), ("ou=a,ou=u", UNIT)];

static OPEN_ROWS: [Row; 2] = [("ou=u", "", ""), ("ou=a,ou=u", "", "")];

#[test]
fn an_inner_point_alone_makes_no_area(rt: HostRuntime) -> Result<(), Fail> {
    check_rows(&rt, rt.alloc(), &OPEN, &OPEN_ROWS)
}

// Subentries two levels below the point, of another kind, and with a text that says no subtree.
static ASTRAY: [(&str, Attributes); 6] = [
    ("ou=u", SPECIFIC),
    ("ou=a,ou=u", UNIT),
    ("cn=s,ou=a,ou=u", ALL),
    (
        "cn=other,ou=u",
        &[("objectClass", "subentry"), ("subtreeSpecification", "{ }")],
    ),
    (
        "cn=unread,ou=u",
        &[
            ("objectClass", "subentry"),
            ("objectClass", "accessControlSubentry"),
            ("subtreeSpecification", "{ base }"),
        ],
    ),
    ("cn=z,ou=u", ALL),
];

static ASTRAY_ROWS: [Row; 2] = [
    ("ou=u", "ou=u ", "cn=z,ou=u "),
    ("ou=a,ou=u", "ou=u ", "cn=z,ou=u "),
];

#[test]
fn only_access_control_subentries_immediately_below_a_point_are_in_force(
    rt: HostRuntime,
) -> Result<(), Fail> {
    check_rows(&rt, rt.alloc(), &ASTRAY, &ASTRAY_ROWS)
}

// Subentries with refinements: of a class, of a class below it, and of what is made of them.
static REFINED: [(&str, Attributes); 9] = [
    ("ou=u", SPECIFIC),
    (
        "cn=a,ou=u",
        &[
            ("objectClass", "subentry"),
            ("objectClass", "accessControlSubentry"),
            (
                "subtreeSpecification",
                "{ specificationFilter item:person }",
            ),
        ],
    ),
    (
        "cn=b,ou=u",
        &[
            ("objectClass", "subentry"),
            ("objectClass", "accessControlSubentry"),
            (
                "subtreeSpecification",
                "{ specificationFilter item:inetOrgPerson }",
            ),
        ],
    ),
    (
        "cn=c,ou=u",
        &[
            ("objectClass", "subentry"),
            ("objectClass", "accessControlSubentry"),
            (
                "subtreeSpecification",
                "{ specificationFilter not:item:person }",
            ),
        ],
    ),
    (
        "cn=d,ou=u",
        &[
            ("objectClass", "subentry"),
            ("objectClass", "accessControlSubentry"),
            ("subtreeSpecification", "{ specificationFilter and:{ } }"),
        ],
    ),
    (
        "cn=e,ou=u",
        &[
            ("objectClass", "subentry"),
            ("objectClass", "accessControlSubentry"),
            ("subtreeSpecification", "{ specificationFilter or:{ } }"),
        ],
    ),
    (
        "cn=f,ou=u",
        &[
            ("objectClass", "subentry"),
            ("objectClass", "accessControlSubentry"),
            (
                "subtreeSpecification",
                "{ specificationFilter and:{ item:person, not:item:inetOrgPerson } }",
            ),
        ],
    ),
    (
        "cn=g,ou=u",
        &[
            ("objectClass", "subentry"),
            ("objectClass", "accessControlSubentry"),
            (
                "subtreeSpecification",
                "{ specificationFilter or:{ item:domain, item:top } }",
            ),
        ],
    ),
    (
        "cn=z,ou=u",
        &[("objectClass", "organizationalPerson"), ("cn", "z")],
    ),
];

static REFINED_ROWS: [Row; 2] = [
    // an organizationalPerson is a person
    (
        "cn=z,ou=u",
        "ou=u ",
        "cn=a,ou=u cn=d,ou=u cn=f,ou=u cn=g,ou=u ",
    ),
    ("ou=u", "ou=u ", "cn=c,ou=u cn=d,ou=u cn=g,ou=u "),
];

#[test]
fn a_refinement_is_of_classes_and_their_superclasses(rt: HostRuntime) -> Result<(), Fail> {
    check_rows(&rt, rt.alloc(), &REFINED, &REFINED_ROWS)
}

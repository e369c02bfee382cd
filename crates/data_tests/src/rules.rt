//! Rules of entries: for each, the entries that break it first, and their nearest that don't.
use dir_tree::dn_names::{make_value, parse};
use dir_tree::schema_tables::attr;
use dir_tree::{Entry, Tree};
use ldif_load::schema_rules::{Broken, EntryRule, check_entry};
use std::alloc::Global;
use std::process::Abort;
use std::test::Fail;

type Attributes = &'static [(&'static str, &'static str)];

// A name, attributes, and the rule that such an entry breaks, if it breaks one.
type Row = (&'static str, Attributes, Option<EntryRule>);

fn put(alloc: Global, entry: &mut Entry, kind: &str, octets: Vec<u8>) -> Result<(), Fail> {
    let kind = attr(kind).ok_or("no such type")?;
    let _added = entry.push(kind, make_value(alloc, kind, octets)?)?;
    Ok(())
}

// The entry of the name with the attributes.
fn entry(
    alloc: Global,
    name: &str,
    attributes: &[(&'static str, &'static str)],
) -> Result<Entry, Fail> {
    let mut entry = Entry::new(alloc, parse(alloc, name.as_bytes())?)?;
    for (kind, text) in attributes {
        put(alloc, &mut entry, kind, text.as_bytes().to_vec(alloc)?)?;
    }
    Ok(entry)
}

fn insert(tree: &mut Tree, entry: Entry) -> Result<(), Fail> {
    if entry.name().len() == 0 {
        return Err(Fail::from("no name"));
    }
    let _no = tree.insert(entry)?;
    Ok(())
}

static DOMAIN: [(&str, &str); 2] = [("objectClass", "domain"), ("dc", "example")];

static AREA: [(&str, &str); 3] = [
    ("objectClass", "organizationalUnit"),
    ("ou", "area"),
    ("administrativeRole", "autonomousArea"),
];

static POLICY: [(&str, &str); 3] = [
    ("objectClass", "subentry"),
    ("cn", "policy"),
    ("subtreeSpecification", "{ }"),
];

// A suffix, an administrative point below it, and a subentry below the point.
fn tree(alloc: Global) -> Result<Tree, Fail> {
    let mut tree = Tree::new(alloc);
    insert(&mut tree, entry(alloc, "dc=example", &DOMAIN)?)?;
    insert(&mut tree, entry(alloc, "ou=area,dc=example", &AREA)?)?;
    insert(
        &mut tree,
        entry(alloc, "cn=policy,ou=area,dc=example", &POLICY)?,
    )?;
    Ok(tree)
}

// What is answered of an entry that breaks the rule, or none.
fn answer(rule: Option<EntryRule>) -> Result<(), Broken> {
    match rule {
        Some(rule) => Err(Broken::Rule(rule)),
        None => Ok(()),
    }
}

// Each entry of the rows breaks the rule of its row first.
fn check_rows(rt: &impl Abort, alloc: Global, rows: &'static [Row]) -> Result<(), Fail> {
    let tree = tree(alloc)?;
    for (name, attributes, want) in rows {
        let entry = entry(alloc, name, attributes)?;
        let found = check_entry(alloc, &tree, None, &entry);
        assert_eq!(rt; found, answer(*want), "{name} {attributes:?}");
    }
    Ok(())
}

static OWN_VALUES: [Row; 6] = [
    (
        "cn=ann,dc=example",
        &[("objectClass", "person"), ("cn", "Ann"), ("sn", "Lee")],
        None,
    ),
    // compared by keys, in any place of its type
    (
        "cn=ann,dc=example",
        &[
            ("objectClass", "person"),
            ("cn", "Annie"),
            ("cn", " ANN "),
            ("sn", "Lee"),
        ],
        None,
    ),
    // another type has it, or it is absent
    (
        "cn=ann,dc=example",
        &[("objectClass", "person"), ("cn", "Annie"), ("sn", "Ann")],
        Some(EntryRule::RdnValues),
    ),
    // each value of an RDN of two, and no other RDN
    (
        "cn=ann+sn=lee,dc=example",
        &[("objectClass", "person"), ("cn", "Ann"), ("sn", "Lee")],
        None,
    ),
    (
        "cn=ann+sn=king,dc=example",
        &[("objectClass", "person"), ("cn", "Ann"), ("sn", "Lee")],
        Some(EntryRule::RdnValues),
    ),
    // this rule comes before that of classes
    (
        "cn=ann,dc=example",
        &[("cn", "Annie")],
        Some(EntryRule::RdnValues),
    ),
];

#[test]
fn a_value_of_the_own_rdn_is_among_the_attributes(rt: HostRuntime) -> Result<(), Fail> {
    check_rows(&rt, rt.alloc(), &OWN_VALUES)
}

static CLASSES: [Row; 8] = [
    // no class, and one outside the table
    (
        "cn=ann,dc=example",
        &[("cn", "Ann")],
        Some(EntryRule::Classes),
    ),
    (
        "cn=ann,dc=example",
        &[
            ("objectClass", "person"),
            ("cn", "Ann"),
            ("sn", "Lee"),
            ("objectClass", "1.3.6.1.4.1.32473.1"),
        ],
        Some(EntryRule::Classes),
    ),
    // abstract and auxiliary classes alone (X.501 8.3.2)
    (
        "cn=ann,dc=example",
        &[("objectClass", "top"), ("cn", "Ann")],
        Some(EntryRule::Classes),
    ),
    (
        "cn=ann,dc=example",
        &[("objectClass", "uidObject"), ("uid", "ann"), ("cn", "Ann")],
        Some(EntryRule::Classes),
    ),
    // classes in one line, and in two
    (
        "cn=ann,dc=example",
        &[
            ("objectClass", "person"),
            ("cn", "Ann"),
            ("sn", "Lee"),
            ("objectClass", "top"),
            ("objectClass", "inetOrgPerson"),
        ],
        None,
    ),
    (
        "cn=ann,dc=example",
        &[
            ("objectClass", "person"),
            ("cn", "Ann"),
            ("sn", "Lee"),
            ("objectClass", "organizationalRole"),
        ],
        Some(EntryRule::Classes),
    ),
    (
        "cn=ann,dc=example",
        &[
            ("objectClass", "person"),
            ("cn", "Ann"),
            ("sn", "Lee"),
            ("objectClass", "uidObject"),
            ("uid", "ann"),
        ],
        None,
    ),
    // the class of access control subentries without that of subentries
    (
        "cn=ann,dc=example",
        &[
            ("objectClass", "person"),
            ("cn", "Ann"),
            ("sn", "Lee"),
            ("objectClass", "accessControlSubentry"),
        ],
        Some(EntryRule::Classes),
    ),
];

#[test]
fn the_structural_classes_of_an_entry_stand_in_one_line(rt: HostRuntime) -> Result<(), Fail> {
    check_rows(&rt, rt.alloc(), &CLASSES)
}

static CONTENTS: [Row; 10] = [
    // person requires sn, and so do the classes below it (RFC 4519 3.12, RFC 2798 section 3)
    (
        "cn=ann,dc=example",
        &[("objectClass", "person"), ("cn", "Ann")],
        Some(EntryRule::Classes),
    ),
    (
        "cn=ann,dc=example",
        &[("objectClass", "inetOrgPerson"), ("cn", "Ann")],
        Some(EntryRule::Classes),
    ),
    (
        "cn=ann,dc=example",
        &[
            ("objectClass", "inetOrgPerson"),
            ("cn", "Ann"),
            ("sn", "Lee"),
        ],
        None,
    ),
    // what only inetOrgPerson allows, and what person allows
    (
        "cn=ann,dc=example",
        &[
            ("objectClass", "person"),
            ("cn", "Ann"),
            ("sn", "Lee"),
            ("mail", "ann@example.org"),
        ],
        Some(EntryRule::Classes),
    ),
    (
        "cn=ann,dc=example",
        &[
            ("objectClass", "inetOrgPerson"),
            ("cn", "Ann"),
            ("sn", "Lee"),
            ("mail", "ann@example.org"),
            ("description", "x"),
        ],
        None,
    ),
    // an auxiliary class requires its attribute
    (
        "cn=ann,dc=example",
        &[
            ("objectClass", "person"),
            ("cn", "Ann"),
            ("sn", "Lee"),
            ("objectClass", "simpleSecurityObject"),
        ],
        Some(EntryRule::Classes),
    ),
    // operational attributes (X.501 14.3)
    (
        "cn=ann,dc=example",
        &[
            ("objectClass", "person"),
            ("cn", "Ann"),
            ("sn", "Lee"),
            ("administrativeRole", "autonomousArea"),
            ("accessControlScheme", "2.5.28.1"),
        ],
        None,
    ),
    (
        "cn=ann,dc=example",
        &[
            ("objectClass", "person"),
            ("cn", "Ann"),
            ("sn", "Lee"),
            ("subtreeSpecification", "{ }"),
        ],
        Some(EntryRule::Classes),
    ),
    (
        "cn=ann,dc=example",
        &[
            ("objectClass", "person"),
            ("cn", "Ann"),
            ("sn", "Lee"),
            ("prescriptiveACI", "{ }"),
        ],
        Some(EntryRule::Classes),
    ),
    (
        "cn=policy,dc=example",
        &[
            ("objectClass", "subentry"),
            ("cn", "policy"),
            ("subtreeSpecification", "{ }"),
            ("administrativeRole", "autonomousArea"),
        ],
        Some(EntryRule::Classes),
    ),
];

#[test]
fn the_classes_of_an_entry_require_and_allow_its_attributes(rt: HostRuntime) -> Result<(), Fail> {
    check_rows(&rt, rt.alloc(), &CONTENTS)
}

static UNREAD: [Row; 7] = [
    (
        "cn=ann,dc=example",
        &[
            ("objectClass", "person"),
            ("cn", "Ann"),
            ("sn", "Lee"),
            ("entryACI", "{ }"),
        ],
        Some(EntryRule::Syntaxes),
    ),
    (
        "cn=ann,dc=example",
        &[
            ("objectClass", "person"),
            ("cn", "Ann"),
            ("sn", "Lee"),
            ("subentryACI", "{ }"),
        ],
        Some(EntryRule::Syntaxes),
    ),
    (
        "cn=ann,dc=example",
        &[
            ("objectClass", "person"),
            ("cn", "Ann"),
            ("sn", "Lee"),
            (
                "entryACI",
                "{ identificationTag \"own\", precedence 1, authenticationLevel none, itemOrUserFirst userFirst: { userClasses { thisEntry }, userPermissions { { protectedItems { entry }, grantsAndDenials { grantRead } } } } }",
            ),
        ],
        None,
    ),
    (
        "cn=local,ou=area,dc=example",
        &[
            ("objectClass", "subentry"),
            ("cn", "local"),
            ("subtreeSpecification", "{ }"),
        ],
        None,
    ),
    // no grammar has the text, and no attribute has the name
    (
        "cn=local,ou=area,dc=example",
        &[
            ("objectClass", "subentry"),
            ("cn", "local"),
            ("subtreeSpecification", "{ base }"),
        ],
        Some(EntryRule::Syntaxes),
    ),
    (
        "cn=local,ou=area,dc=example",
        &[
            ("objectClass", "subentry"),
            ("cn", "local"),
            ("subtreeSpecification", "{ base \"zz=b\" }"),
        ],
        Some(EntryRule::Syntaxes),
    ),
    // before the rule of single values
    (
        "cn=ann,dc=example",
        &[
            ("objectClass", "person"),
            ("cn", "Ann"),
            ("sn", "Lee"),
            ("entryACI", "{ }"),
            ("accessControlScheme", "2.5.28.1"),
            ("accessControlScheme", "2.5.28.2"),
        ],
        Some(EntryRule::Syntaxes),
    ),
];

#[test]
fn subtree_specifications_and_access_control_items_are_read(rt: HostRuntime) -> Result<(), Fail> {
    check_rows(&rt, rt.alloc(), &UNREAD)
}

static SINGLE: [Row; 4] = [
    // RFC 4524 and RFC 2798 give dc and employeeNumber one value
    (
        "dc=example,dc=example",
        &[
            ("objectClass", "domain"),
            ("dc", "example"),
            ("dc", "other"),
        ],
        Some(EntryRule::SingleValues),
    ),
    (
        "cn=ann,dc=example",
        &[
            ("objectClass", "inetOrgPerson"),
            ("cn", "Ann"),
            ("cn", "Anna"),
            ("sn", "Lee"),
            ("employeeNumber", "1"),
        ],
        None,
    ),
    (
        "cn=ann,dc=example",
        &[
            ("objectClass", "inetOrgPerson"),
            ("cn", "Ann"),
            ("sn", "Lee"),
            ("employeeNumber", "1"),
            ("employeeNumber", "2"),
        ],
        Some(EntryRule::SingleValues),
    ),
    // before the rule of places
    (
        "cn=ann,cn=policy,ou=area,dc=example",
        &[
            ("objectClass", "person"),
            ("cn", "Ann"),
            ("sn", "Lee"),
            ("accessControlScheme", "2.5.28.1"),
            ("accessControlScheme", "2.5.28.2"),
        ],
        Some(EntryRule::SingleValues),
    ),
];

#[test]
fn a_single_valued_attribute_has_one_value(rt: HostRuntime) -> Result<(), Fail> {
    check_rows(&rt, rt.alloc(), &SINGLE)
}

static PLACES: [Row; 4] = [
    // RFC 3672 section 2
    (
        "cn=ann,cn=policy,ou=area,dc=example",
        &[("objectClass", "person"), ("cn", "Ann"), ("sn", "Lee")],
        Some(EntryRule::Place),
    ),
    (
        "cn=ann,ou=area,dc=example",
        &[("objectClass", "person"), ("cn", "Ann"), ("sn", "Lee")],
        None,
    ),
    // names are compared by their keys
    (
        "cn=ann,CN=Policy,ou=area,dc=example",
        &[("objectClass", "person"), ("cn", "Ann"), ("sn", "Lee")],
        Some(EntryRule::Place),
    ),
    // a superior that is not there
    (
        "cn=ann,cn=none,dc=example",
        &[("objectClass", "person"), ("cn", "Ann"), ("sn", "Lee")],
        None,
    ),
];

#[test]
fn nothing_stands_below_a_subentry(rt: HostRuntime) -> Result<(), Fail> {
    check_rows(&rt, rt.alloc(), &PLACES)
}

#[test]
fn the_values_of_an_entry_have_at_most_67108864_octets(rt: HostRuntime) -> Result<(), Fail> {
    let tree = tree(rt.alloc())?;
    let attributes = [("objectClass", "person"), ("cn", "Ann"), ("sn", "Lee")];
    // the other three values have 6, 3 and 3 octets
    for (octets, want) in [
        (67_108_852usize, None),
        (67_108_853, Some(EntryRule::Limits)),
    ] {
        let mut entry = entry(rt.alloc(), "cn=ann,dc=example", &attributes)?;
        let password = vec![in rt.alloc(); 0u8; octets]?;
        put(rt.alloc(), &mut entry, "userPassword", password)?;
        let found = check_entry(rt.alloc(), &tree, None, &entry);
        assert_eq!(rt; found, answer(want), "{octets}");
    }
    Ok(())
}

#[test]
fn a_suffix_is_checked_in_a_tree_without_entries(rt: HostRuntime) -> Result<(), Fail> {
    let tree = Tree::new(rt.alloc());
    let suffix = entry(rt.alloc(), "dc=example", &DOMAIN)?;
    assert_eq!(rt; check_entry(rt.alloc(), &tree, None, &suffix), Ok(()));
    let subentry = entry(rt.alloc(), "cn=policy", &POLICY)?;
    let found = check_entry(rt.alloc(), &tree, None, &subentry);
    assert_eq!(rt; found, answer(Some(EntryRule::Place)));
    Ok(())
}

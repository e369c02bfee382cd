//! Data files: loaded whole, refused at a line, and written again (RFC 2849).

use data_file::{DataCause, DataFault, load, put_tree};
use ldif_load::LoadCause;
use ldif_load::ldif_records::LineCause;
use ldif_load::schema_rules::EntryRule;
use std::alloc::Global;
use std::test::Fail;
use wire_io::{MemSink, PutFault};

// A file of three entries, the last two not in the order of their names, each without a value of its own RDN.
const FILE: &str =
    "version: 1\n\ndn: dc=example\nobjectClass: organization\nobjectClass: dcObject\no: Example\n\ndn: ou=b,dc=example\nobjectClass: organizationalUnit\n\n# the last\ndn: OU=a, DC=Example\nobjectclass: ORGANIZATIONALUNIT\n";

// The same as it is written.
const WRITTEN: &str =
    "version: 1\n\ndn: dc=example\nobjectClass: organization\nobjectClass: dcObject\no: Example\ndc: example\n\ndn: ou=a,dc=Example\nobjectClass: ORGANIZATIONALUNIT\nou: a\n\ndn: ou=b,dc=example\nobjectClass: organizationalUnit\nou: b\n";

// Puts the tree of a file into a sink that fails at chosen calls.
fn put_again(
    alloc: Global,
    text: &str,
    failing: &[u64],
) -> Result<(Result<(), PutFault>, MemSink), Fail> {
    let tree = load(alloc, text.as_bytes())?;
    let mut out = MemSink::new(alloc, failing.to_vec(alloc)?);
    let put = put_tree(alloc, &tree, &mut out);
    Ok((put, out))
}

#[test]
fn a_file_is_loaded_and_written_in_the_order_of_names(rt: HostRuntime) -> Result<(), Fail> {
    for text in [FILE, WRITTEN] {
        let (put, out) = put_again(rt.alloc(), text, &[])?;
        assert_eq!(rt; put, Ok(()));
        assert_eq!(rt; out.bytes(), WRITTEN.as_bytes());
    }
    Ok(())
}

#[test]
fn after_a_refusal_a_front_was_put(rt: HostRuntime) -> Result<(), Fail> {
    let (put, out) = put_again(rt.alloc(), FILE, &[1])?;
    assert_eq!(rt; put, Err(PutFault::Failed));
    assert_eq!(rt; out.bytes(), b"version: 1\n".as_slice());
    Ok(())
}

// A file, and the line and the cause of its refusal.
static BAD: [(&str, u64, DataCause); 5] = [
    ("", 1, DataCause::Line(LineCause::Syntax)),
    ("version: 1\n# c\n", 1, DataCause::Line(LineCause::Syntax)),
    (
        "dn: dc=t\nobjectClass; domain\n",
        2,
        DataCause::Line(LineCause::Syntax),
    ),
    (
        "dn: dc=t\nobjectClass: domain\nshoe: 9\n",
        3,
        DataCause::Record(LoadCause::Kind),
    ),
    (
        "\ndn: dc=t\ndc: t\n",
        2,
        DataCause::Record(LoadCause::Rule(EntryRule::Classes)),
    ),
];

#[test]
fn a_file_is_refused_at_its_first_bad_line(rt: HostRuntime) -> Result<(), Fail> {
    for (text, line, cause) in &BAD {
        let found = load(rt.alloc(), text.as_bytes()).err();
        let (line, cause) = (*line, *cause);
        assert_eq!(rt; found, Some(DataFault::Bad { line, cause }), "{text:?}");
    }
    Ok(())
}

#[test]
fn a_file_without_subentries_has_none_for_access_control(rt: HostRuntime) -> Result<(), Fail> {
    let tree = load(rt.alloc(), FILE.as_bytes())?;
    assert!(rt; tree.access_subentries().is_empty());
    Ok(())
}

// A file with a subentry, below the suffix, which is an autonomous area.
const WITH_SUBENTRY: &str =
    "dn: dc=u\nobjectClass: domain\ndc: u\nadministrativeRole: autonomousArea\n\ndn: ou=b,dc=u\nobjectClass: organizationalUnit\n\ndn: cn=s,dc=u\nobjectClass: subentry\nobjectClass: accessControlSubentry\ncn: s\nsubtreeSpecification: { base \"ou=b\" }\n";

#[test]
fn a_file_with_a_subentry_is_loaded_and_written(rt: HostRuntime) -> Result<(), Fail> {
    let tree = load(rt.alloc(), WITH_SUBENTRY.as_bytes())?;
    assert_eq!(rt; tree.len(), 3);
    assert_eq!(rt; tree.access_subentries().len(), 1);
    let (put, out) = put_again(rt.alloc(), WITH_SUBENTRY, &[])?;
    assert_eq!(rt; put, Ok(()));
    let tree = load(rt.alloc(), out.bytes())?;
    assert_eq!(rt; tree.access_subentries().len(), 1);
    Ok(())
}

// Files with a subentry that has no place or no subtree, and the line and the rule of each.
static WRONG_SUBENTRIES: [(&str, u64, EntryRule); 6] = [
    // its base names an attribute that there is not
    (
        "dn: dc=u\nobjectClass: domain\nadministrativeRole: autonomousArea\n\ndn: cn=s,dc=u\nobjectClass: subentry\ncn: s\nsubtreeSpecification: { base \"zz=b\" }\n",
        5,
        EntryRule::Syntaxes,
    ),
    (
        "dn: dc=u\nobjectClass: domain\nadministrativeRole: autonomousArea\n\ndn: cn=s,dc=u\nobjectClass: subentry\ncn: s\nsubtreeSpecification: { base \"ou=b\"\n",
        5,
        EntryRule::Syntaxes,
    ),
    // below no administrative point
    (
        "dn: dc=u\nobjectClass: domain\n\ndn: cn=s,dc=u\nobjectClass: subentry\ncn: s\nsubtreeSpecification: { }\n",
        4,
        EntryRule::Place,
    ),
    // two levels below the point
    (
        "dn: dc=u\nobjectClass: domain\nadministrativeRole: autonomousArea\n\ndn: ou=b,dc=u\nobjectClass: organizationalUnit\n\ndn: cn=s,ou=b,dc=u\nobjectClass: subentry\ncn: s\nsubtreeSpecification: { }\n",
        8,
        EntryRule::Place,
    ),
    // below a subentry
    (
        "dn: dc=u\nobjectClass: domain\nadministrativeRole: autonomousArea\n\ndn: cn=s,dc=u\nobjectClass: subentry\ncn: s\nsubtreeSpecification: { }\n\ndn: ou=b,cn=s,dc=u\nobjectClass: organizationalUnit\n",
        10,
        EntryRule::Place,
    ),
    // as the suffix
    (
        "dn: cn=s\nobjectClass: subentry\ncn: s\nsubtreeSpecification: { }\n",
        1,
        EntryRule::Place,
    ),
];

#[test]
fn a_subentry_has_a_subtree_and_a_point_above_it(rt: HostRuntime) -> Result<(), Fail> {
    for (text, line, rule) in &WRONG_SUBENTRIES {
        let found = load(rt.alloc(), text.as_bytes()).err();
        let (line, cause) = (*line, DataCause::Record(LoadCause::Rule(*rule)));
        assert_eq!(rt; found, Some(DataFault::Bad { line, cause }), "{text:?}");
    }
    Ok(())
}

//! What is said of data files that are refused: for each cause a file, and the lines.
use fault_places::why_refused;
use std::process::Abort;
use std::test::Fail;

// A file, and what is said of it.
type Row = (&'static str, &'static str);

fn check_rows(
    rt: &impl Abort,
    alloc: std::alloc::Global,
    rows: &'static [Row],
) -> Result<(), Fail> {
    for (text, want) in rows {
        let said = why_refused(alloc, text.as_bytes())?;
        assert_eq!(rt; said.as_str(), *want, "{text}");
    }
    Ok(())
}

static LINES: [Row; 16] = [
    ("dn: o=x\nobjectClass: organization\n", ""),
    ("", "why: no record, which begins with \"dn: name\"\n"),
    (
        "dn: o=x\nobjectClass organization\n",
        "why: line 2: a record is \"dn: name\" and lines \"type: value\" behind it, and an empty line ends it\n",
    ),
    (
        "dn: o=x\nchangetype: add\n",
        "why: line 2: a record with a changetype is no entry\n",
    ),
    (
        "dn: o=x\nobjectClass:: b3J\n",
        "why: line 2: the value behind \"::\" is no padded base64\n",
    ),
    // names
    (
        "dn: \nobjectClass: organization\n",
        "why: line 1, dn: the name is empty\n",
    ),
    (
        "dn: o=x,,o=y\nobjectClass: organization\n",
        "why: line 1, dn, octet 5: \",\"\n",
    ),
    (
        "dn: o=x,colour=red\nobjectClass: organization\n",
        "why: line 1, dn: part 2 has a type that names nothing, or no value of it\n",
    ),
    // types
    (
        "dn: o=x\nobjectClass: organization\ncreateTimestamp: 20260101000000Z\n",
        "why: line 3: no attribute type \"createTimestamp\"\n",
    ),
    (
        "dn: o=x\nobjectClass: organization\ndn: ou=a,o=x\nobjectClass: organizationalUnit\n",
        "why: line 3: an empty line is missing before \"dn\"\n",
    ),
    // values
    (
        "dn: o=x\nobjectClass: organization\nobjectClass: posixAccount\n",
        "why: line 3, objectClass, value 2: the schema has nothing of the name \"posixAccount\"\n",
    ),
    (
        "dn: cn=g,o=x\nobjectClass: groupOfNames\nmember: cn=a,o=x\nmember: a,o=x\n",
        "why: line 4, member, value 2, octet 2: \",\"\n",
    ),
    (
        "dn: o=x\nobjectClass: organization\ntelephoneNumber: \n",
        "why: line 3, telephoneNumber, value 1: it is no telephone number\n",
    ),
    (
        "dn: o=x\nobjectClass: organization\ndescription: a\ndescription: b\ndescription: A\n",
        "why: line 5, description, value 3: the entry has the value before\n",
    ),
    // the place of the entry
    (
        "dn: o=x\nobjectClass: organization\n\ndn: O=X\nobjectClass: organization\n",
        "why: line 4: a record before it has the name\n",
    ),
    (
        "dn: o=x\nobjectClass: organization\n\ndn: cn=a,ou=b,o=x\nobjectClass: device\n",
        "why: line 4: no record before it is the entry above it\n",
    ),
];

#[test]
fn each_fault_of_a_line_is_told_with_its_place(rt: HostRuntime) -> Result<(), Fail> {
    check_rows(&rt, rt.alloc(), &LINES)
}

static ENTRIES: [Row; 9] = [
    ("dn: o=x\no: x\n", "why: line 1: objectClass is missing\n"),
    (
        "dn: o=x\nobjectClass: organization\nobjectClass: 1.3.6.1.4.1.32473.1\n",
        "why: line 1: no class \"1.3.6.1.4.1.32473.1\"\n",
    ),
    (
        "dn: o=x\nobjectClass: top\n",
        "why: line 1: no structural class is listed\nwhy: line 1: no listed class allows o\n",
    ),
    (
        "dn: cn=a\nobjectClass: device\nobjectClass: organizationalRole\n",
        "why: line 1: structural classes in more than one line of superclasses: \"device\" \"organizationalRole\"\n",
    ),
    (
        "dn: cn=a\nobjectClass: inetOrgPerson\n",
        "why: line 1: sn is missing, which \"inetOrgPerson\" requires\n",
    ),
    (
        "dn: cn=a\nobjectClass: person\nsn: a\nmail: a@x\nmobile: 1\n",
        "why: line 4: no listed class allows mail\nwhy: line 5: no listed class allows mobile\n",
    ),
    (
        "dn: cn=a\nobjectClass: device\nobjectClass: accessControlSubentry\n",
        "why: line 1: accessControlSubentry is listed without subentry\n",
    ),
    (
        "dn: cn=a\nobjectClass: inetOrgPerson\nsn: a\nemployeeNumber: 1\nemployeeNumber: 2\n",
        "why: line 4: employeeNumber may have one value, and has more\n",
    ),
    (
        "dn: o=x\nobjectClass: organization\n\ndn: cn=a,o=x\nobjectClass: subentry\nsubtreeSpecification: { }\n",
        "why: line 4: the entry above this subentry is no administrative point (administrativeRole)\n",
    ),
];

#[test]
fn each_rule_that_an_entry_breaks_is_told(rt: HostRuntime) -> Result<(), Fail> {
    check_rows(&rt, rt.alloc(), &ENTRIES)
}

// A point, a subentry of two items, and what is behind the front of the second one.
static MISTAKES: [(&str, &str, &str); 5] = [
    (
        "{ identificationTag \"t\", precedence ",
        "256, authenticationLevel none, itemOrUserFirst userFirst:{ userClasses { allUsers }, userPermissions { } } }",
        "\"256\"",
    ),
    (
        "{ identificationTag \"t\", precedence 10, authenticationLevel none, itemOrUserFirst userFirst:{ userClasses { allUsers }, userPermissions { { protectedItems { attributeType { ",
        "mial } }, grantsAndDenials { grantRead } } } } }",
        "\"mial\"",
    ),
    (
        "{ identificationTag \"t\", precedence 10, authenticationLevel none, itemOrUserFirst userFirst:{ userClasses { name { ",
        "\"a,o=x\" } }, userPermissions { } } }",
        "\"a,o=x\"",
    ),
    (
        "{ identificationTag \"t\", precedence 10, authenticationLevel none, itemOrUserFirst userFirst:{ userClasses { allUsers }, userPermissions { { protectedItems { entry }, grantsAndDenials { ",
        "grantRaed } } } } }",
        "\"grantRaed\"",
    ),
    (
        "{ identificationTag \"t\", precedence 10, authenticationLevel none, itemOrUserFirst userFirst:{ userClasses { allUsers }, userPermissions { } }",
        "",
        "the end",
    ),
];

#[test]
fn each_mistake_of_an_item_is_told_with_its_line_its_value_and_its_octet(
    rt: HostRuntime,
) -> Result<(), Fail> {
    let alloc = rt.alloc();
    for (front, rest, word) in &MISTAKES {
        let text = format!(in alloc;
            "dn: o=x\nobjectClass: organization\nadministrativeRole: accessControlSpecificArea\n\ndn: cn=s,o=x\nobjectClass: subentry\nobjectClass: accessControlSubentry\nsubtreeSpecification: {{ }}\nprescriptiveACI: {{ identificationTag \"a\", precedence 1, authenticationLevel none,\n  itemOrUserFirst userFirst:{{ userClasses {{ }}, userPermissions {{ }} }} }}\nprescriptiveACI: {front}{rest}\n"
        )?;
        let said = why_refused(alloc, text.as_bytes())?;
        let want = format!(in alloc;
            "why: line 11, prescriptiveACI, value 2, octet {}: {word}\n",
            front.len() + 1
        )?;
        assert_eq!(&rt; said.as_str(), want.as_str(), "{text}");
    }
    Ok(())
}

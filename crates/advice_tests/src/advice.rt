//! What is noted of data files that are loaded.
use data_advice::advice;
use data_file::load;
use std::test::Fail;

// A file, and what is noted of it.
static FILES: [(&str, &str); 7] = [
    // no point: no more is said of areas
    (
        "dn: o=x\nobjectClass: organization\n\ndn: ou=a,o=x\nobjectClass: organizationalUnit\n",
        "note: no entry is an access control specific point (administrativeRole): nobody may do anything\n",
    ),
    // an inner point is no specific one
    (
        "dn: o=x\nobjectClass: organization\nadministrativeRole: accessControlInnerArea\n",
        "note: no entry is an access control specific point (administrativeRole): nobody may do anything\n",
    ),
    // the suffix stands above the point
    (
        "dn: o=x\nobjectClass: organization\n\ndn: ou=a,o=x\nobjectClass: organizationalUnit\nadministrativeRole: autonomousArea\n\ndn: ou=b,o=x\nobjectClass: organizationalUnit\n",
        "note: entries in no administrative area, which nobody may find: 2\n",
    ),
    (
        "dn: o=x\nobjectClass: organization\nadministrativeRole: autonomousArea\nuserPassword: secret\nuserPassword: {SSHA}abc\nuserPassword: {SHA256}abc\n",
        "note: o=x, userPassword, value 2: no password is accepted, whose scheme is another than {SHA256}\n",
    ),
    // an absolute base
    (
        "dn: o=x\nobjectClass: organization\nadministrativeRole: autonomousArea\n\ndn: ou=a,o=x\nobjectClass: organizationalUnit\n\ndn: cn=s,o=x\nobjectClass: subentry\nsubtreeSpecification: { base \"ou=a,o=x\" }\n\ndn: cn=t,o=x\nobjectClass: subentry\nsubtreeSpecification: { base \"ou=a\" }\n",
        "note: cn=s,o=x, subtreeSpecification, value 1: it holds no entry; its base is read from the entry above\n",
    ),
    // a user, a group and a subtree of users that are none
    (
        "dn: o=x\nobjectClass: organization\nadministrativeRole: autonomousArea\nentryACI: { identificationTag \"t\", precedence 1, authenticationLevel none, itemOrUserFirst userFirst:{ userClasses { name { \"o=x\", \"cn=gone,o=x\" }, userGroup { \"cn=g,o=x\" }, subtree { { base \"ou=a\" }, { base \"o=x\" } } }, userPermissions { } } }\n",
        "note: o=x, entryACI, value 1: no entry cn=gone,o=x\nnote: o=x, entryACI, value 1: no entry cn=g,o=x\nnote: o=x, entryACI, value 1: a subtree of users has no entry, of base \"ou=a\"\n",
    ),
    // the second item, which begins with what it protects
    (
        "dn: o=x\nobjectClass: organization\nadministrativeRole: autonomousArea\nsubentryACI: { identificationTag \"t\", precedence 1, authenticationLevel none, itemOrUserFirst userFirst:{ userClasses { allUsers }, userPermissions { } } }\nsubentryACI: { identificationTag \"u\", precedence 1, authenticationLevel none, itemOrUserFirst itemFirst:{ protectedItems { entry }, itemPermissions { { userClasses { name { \"cn=gone,o=x\" } }, grantsAndDenials { grantRead } } } } }\n",
        "note: o=x, subentryACI, value 2: no entry cn=gone,o=x\n",
    ),
];

#[test]
fn what_may_surprise_is_noted(rt: HostRuntime) -> Result<(), Fail> {
    for (text, want) in &FILES {
        let tree = load(rt.alloc(), text.as_bytes())?;
        let said = advice(rt.alloc(), &tree)?;
        assert_eq!(rt; said.as_str(), *want, "{text}");
    }
    Ok(())
}

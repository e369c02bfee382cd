//! Access control items: each spelling, each refusal with its place, sets, tuples, and the order of levels.
use aci_item::subtree_spec::BadText;
use aci_item::{AciItem, Level, Permission, print, read, tuples};
use std::alloc::Global;
use std::process::Abort;
use std::test::Fail;

// Appends the printed form of what was read of a text, or why nothing was.
fn put_read(alloc: Global, text: &[u8], out: &mut String) -> Result<(), Fail> {
    match read(alloc, text) {
        Ok(item) => Ok(print(alloc, &item, out)?),
        Err(BadText::Text) => Ok(out.push_str("Text")?),
        Err(BadText::Part { place }) => Ok(write!(out, "Part {place}")?),
        Err(BadText::NoMemory) => Ok(out.push_str("NoMemory")?),
    }
}

// Each text of the rows is read so.
fn check_texts(
    rt: &impl Abort,
    alloc: Global,
    rows: &'static [(&'static str, &'static str)],
) -> Result<(), Fail> {
    for (text, want) in rows {
        let mut found = String::new(alloc);
        put_read(alloc, text.as_bytes(), &mut found)?;
        assert_eq!(rt; found.as_str(), *want, "{text}");
    }
    Ok(())
}

// A text, and the full spelling of its item, which is read as the same item.
static SPELLINGS: [(&str, &str); 24] = [
    (
        "{ identificationTag \"t\", precedence 10, authenticationLevel basicLevels:{ level none }, itemOrUserFirst userFirst:{ userClasses { allUsers NULL }, userPermissions { } } }",
        "{ identificationTag \"t\", precedence 10, authenticationLevel basicLevels:{ level none }, itemOrUserFirst userFirst:{ userClasses { allUsers NULL }, userPermissions { } } }",
    ),
    (
        "{identificationTag \"t\",precedence 10,authenticationLevel none,itemOrUserFirst userFirst:{userClasses {allUsers},userPermissions {}}}",
        "{ identificationTag \"t\", precedence 10, authenticationLevel basicLevels:{ level none }, itemOrUserFirst userFirst:{ userClasses { allUsers NULL }, userPermissions { } } }",
    ),
    (
        "  { identificationTag \"t\", precedence 10, authenticationLevel basicLevels : {level none}, itemOrUserFirst userFirst:{ userClasses { allUsers NULL }, userPermissions { } } }  ",
        "{ identificationTag \"t\", precedence 10, authenticationLevel basicLevels:{ level none }, itemOrUserFirst userFirst:{ userClasses { allUsers NULL }, userPermissions { } } }",
    ),
    (
        "{ identificationTag \"t\", precedence 10, authenticationLevel simple, itemOrUserFirst userFirst:{ userClasses { allUsers NULL }, userPermissions { } } }",
        "{ identificationTag \"t\", precedence 10, authenticationLevel basicLevels:{ level simple }, itemOrUserFirst userFirst:{ userClasses { allUsers NULL }, userPermissions { } } }",
    ),
    (
        "{ identificationTag \"t\", precedence 10, authenticationLevel strong, itemOrUserFirst userFirst:{ userClasses { allUsers NULL }, userPermissions { } } }",
        "{ identificationTag \"t\", precedence 10, authenticationLevel basicLevels:{ level strong }, itemOrUserFirst userFirst:{ userClasses { allUsers NULL }, userPermissions { } } }",
    ),
    (
        "{ identificationTag \"a \"\"b\"\"\", precedence 0, authenticationLevel basicLevels:{ level none }, itemOrUserFirst userFirst:{ userClasses { allUsers NULL }, userPermissions { } } }",
        "{ identificationTag \"a \"\"b\"\"\", precedence 0, authenticationLevel basicLevels:{ level none }, itemOrUserFirst userFirst:{ userClasses { allUsers NULL }, userPermissions { } } }",
    ),
    (
        "{ identificationTag \"t\", precedence 255, authenticationLevel basicLevels:{ level none }, itemOrUserFirst userFirst:{ userClasses { allUsers NULL }, userPermissions { } } }",
        "{ identificationTag \"t\", precedence 255, authenticationLevel basicLevels:{ level none }, itemOrUserFirst userFirst:{ userClasses { allUsers NULL }, userPermissions { } } }",
    ),
    (
        "{ identificationTag \"t\", precedence 10, authenticationLevel basicLevels:{ level none }, itemOrUserFirst userFirst:{ userClasses { name { \"cn=b\", { dn \"cn=a\" }, \"cn=b\", { dn \"cn=b\" } } }, userPermissions { } } }",
        "{ identificationTag \"t\", precedence 10, authenticationLevel basicLevels:{ level none }, itemOrUserFirst userFirst:{ userClasses { name { { dn \"cn=a\" }, { dn \"cn=b\" } } }, userPermissions { } } }",
    ),
    (
        "{ identificationTag \"t\", precedence 10, authenticationLevel basicLevels:{ level none }, itemOrUserFirst userFirst:{ userClasses { name { \"cn=b\", \"cn=B\" } }, userPermissions { } } }",
        "{ identificationTag \"t\", precedence 10, authenticationLevel basicLevels:{ level none }, itemOrUserFirst userFirst:{ userClasses { name { { dn \"cn=B\" }, { dn \"cn=b\" } } }, userPermissions { } } }",
    ),
    (
        "{ identificationTag \"t\", precedence 10, authenticationLevel basicLevels:{ level none }, itemOrUserFirst userFirst:{ userClasses { thisEntry, name { }, userGroup { \"cn=g\" } }, userPermissions { } } }",
        "{ identificationTag \"t\", precedence 10, authenticationLevel basicLevels:{ level none }, itemOrUserFirst userFirst:{ userClasses { thisEntry NULL, userGroup { { dn \"cn=g\" } } }, userPermissions { } } }",
    ),
    (
        "{ identificationTag \"t\", precedence 10, authenticationLevel basicLevels:{ level none }, itemOrUserFirst userFirst:{ userClasses { name { \"cn=ab\", \"cn=a\" } }, userPermissions { } } }",
        "{ identificationTag \"t\", precedence 10, authenticationLevel basicLevels:{ level none }, itemOrUserFirst userFirst:{ userClasses { name { { dn \"cn=a\" }, { dn \"cn=ab\" } } }, userPermissions { } } }",
    ),
    (
        "{ identificationTag \"t\", precedence 10, authenticationLevel basicLevels:{ level none }, itemOrUserFirst userFirst:{ userClasses { name { \"cn=a\", \"cn=a b\" } }, userPermissions { } } }",
        "{ identificationTag \"t\", precedence 10, authenticationLevel basicLevels:{ level none }, itemOrUserFirst userFirst:{ userClasses { name { { dn \"cn=a b\" }, { dn \"cn=a\" } } }, userPermissions { } } }",
    ),
    (
        "{ identificationTag \"t\", precedence 10, authenticationLevel basicLevels:{ level none }, itemOrUserFirst userFirst:{ userClasses { allUsers NULL }, userPermissions { { precedence 5, protectedItems { entry }, grantsAndDenials { grantRead } } } } }",
        "{ identificationTag \"t\", precedence 10, authenticationLevel basicLevels:{ level none }, itemOrUserFirst userFirst:{ userClasses { allUsers NULL }, userPermissions { { precedence 5, protectedItems { entry NULL }, grantsAndDenials { grantRead } } } } }",
    ),
    (
        "{ identificationTag \"t\", precedence 10, authenticationLevel basicLevels:{ level none }, itemOrUserFirst userFirst:{ userClasses { allUsers NULL }, userPermissions { { protectedItems { entry, allUserAttributeTypes, attributeType { sn, 2.5.4.3, CN }, allAttributeValues { }, allUserAttributeTypesAndValues NULL, attributeValue { { type mail, value \"x\" } }, selfValue { member } }, grantsAndDenials { denyInvoke, grantAdd, denyAdd, grantAdd } } } } }",
        "{ identificationTag \"t\", precedence 10, authenticationLevel basicLevels:{ level none }, itemOrUserFirst userFirst:{ userClasses { allUsers NULL }, userPermissions { { protectedItems { entry NULL, allUserAttributeTypes NULL, attributeType { cn, sn }, allUserAttributeTypesAndValues NULL, attributeValue { { type mail, value \"x\" } }, selfValue { member } }, grantsAndDenials { grantAdd, denyAdd, denyInvoke } } } } }",
    ),
    (
        "{ identificationTag \"t\", precedence 10, authenticationLevel basicLevels:{ level none }, itemOrUserFirst userFirst:{ userClasses { allUsers NULL }, userPermissions { { protectedItems { }, grantsAndDenials { denyInvoke, grantInvoke, denyFilterMatch, grantFilterMatch, denyCompare, grantCompare, denyReturnDN, grantReturnDN, denyRename, grantRename, denyModify, grantModify, denyImport, grantImport, denyExport, grantExport, denyBrowse, grantBrowse, denyRemove, grantRemove, denyRead, grantRead, denyDiscloseOnError, grantDiscloseOnError, denyAdd, grantAdd } } } } }",
        "{ identificationTag \"t\", precedence 10, authenticationLevel basicLevels:{ level none }, itemOrUserFirst userFirst:{ userClasses { allUsers NULL }, userPermissions { { protectedItems { }, grantsAndDenials { grantAdd, denyAdd, grantDiscloseOnError, denyDiscloseOnError, grantRead, denyRead, grantRemove, denyRemove, grantBrowse, denyBrowse, grantExport, denyExport, grantImport, denyImport, grantModify, denyModify, grantRename, denyRename, grantReturnDN, denyReturnDN, grantCompare, denyCompare, grantFilterMatch, denyFilterMatch, grantInvoke, denyInvoke } } } } }",
    ),
    (
        "{ identificationTag \"t\", precedence 10, authenticationLevel basicLevels:{ level none }, itemOrUserFirst itemFirst:{ protectedItems { entry NULL }, itemPermissions { { userClasses { allUsers NULL }, grantsAndDenials { grantRead } }, { precedence 20, userClasses { allUsers NULL }, grantsAndDenials { denyRead } }, { userClasses { allUsers }, grantsAndDenials { grantRead } } } } }",
        "{ identificationTag \"t\", precedence 10, authenticationLevel basicLevels:{ level none }, itemOrUserFirst itemFirst:{ protectedItems { entry NULL }, itemPermissions { { precedence 20, userClasses { allUsers NULL }, grantsAndDenials { denyRead } }, { userClasses { allUsers NULL }, grantsAndDenials { grantRead } } } } }",
    ),
    (
        "{ identificationTag \"t\", precedence 10, authenticationLevel basicLevels:{ level none }, itemOrUserFirst userFirst:{ userClasses { subtree { { minimum 1 }, { }, { base \"ou=a\" }, { minimum 0 } } }, userPermissions { } } }",
        "{ identificationTag \"t\", precedence 10, authenticationLevel basicLevels:{ level none }, itemOrUserFirst userFirst:{ userClasses { subtree { { base \"ou=a\" }, { minimum 1 }, { } } }, userPermissions { } } }",
    ),
    (
        "{   identificationTag   \"t\"  ,   precedence   10  ,   authenticationLevel   basicLevels  :  {   level   none   }  ,   itemOrUserFirst   userFirst  :  {   userClasses   {   allUsers   NULL   }  ,   userPermissions   {   }   }   }   ",
        "{ identificationTag \"t\", precedence 10, authenticationLevel basicLevels:{ level none }, itemOrUserFirst userFirst:{ userClasses { allUsers NULL }, userPermissions { } } }",
    ),
    (
        "{ identificationTag \"t\", precedence 10, authenticationLevel basicLevels:{ level none }, itemOrUserFirst userFirst:{ userClasses { allUsers NULL }, userPermissions { { protectedItems { entry NULL }, grantsAndDenials { denyRead, grantRead } } } } }",
        "{ identificationTag \"t\", precedence 10, authenticationLevel basicLevels:{ level none }, itemOrUserFirst userFirst:{ userClasses { allUsers NULL }, userPermissions { { protectedItems { entry NULL }, grantsAndDenials { grantRead, denyRead } } } } }",
    ),
    (
        "{ identificationTag \"t\", precedence 10, authenticationLevel basicLevels:{ level none }, itemOrUserFirst userFirst:{ userClasses { allUsers NULL }, userPermissions { { protectedItems { entry NULL }, grantsAndDenials { denyRead, denyRead } } } } }",
        "{ identificationTag \"t\", precedence 10, authenticationLevel basicLevels:{ level none }, itemOrUserFirst userFirst:{ userClasses { allUsers NULL }, userPermissions { { protectedItems { entry NULL }, grantsAndDenials { denyRead } } } } }",
    ),
    (
        "{identificationTag \"t\",precedence 10,authenticationLevel simple,itemOrUserFirst itemFirst:{protectedItems {entry},itemPermissions {{precedence 0,userClasses {thisEntry},grantsAndDenials {denyAdd}}}}}",
        "{ identificationTag \"t\", precedence 10, authenticationLevel basicLevels:{ level simple }, itemOrUserFirst itemFirst:{ protectedItems { entry NULL }, itemPermissions { { precedence 0, userClasses { thisEntry NULL }, grantsAndDenials { denyAdd } } } } }",
    ),
    (
        "{ identificationTag \"t\", precedence 10, authenticationLevel basicLevels:{ level none }, itemOrUserFirst userFirst:{ userClasses { allUsers NULL }, userPermissions { { protectedItems { attributeType { 2.5.4.20, TelephoneNumber } }, grantsAndDenials { } } } } }",
        "{ identificationTag \"t\", precedence 10, authenticationLevel basicLevels:{ level none }, itemOrUserFirst userFirst:{ userClasses { allUsers NULL }, userPermissions { { protectedItems { attributeType { telephoneNumber } }, grantsAndDenials { } } } } }",
    ),
    (
        "{ identificationTag \"t\", precedence 10, authenticationLevel basicLevels:{ level none }, itemOrUserFirst userFirst:{ userClasses { subtree { { base \"ou=a\", specificExclusions { chopAfter:\"cn=y\", chopBefore:\"cn=x\" }, minimum 1, maximum 2147483647 } } }, userPermissions { } } }",
        "{ identificationTag \"t\", precedence 10, authenticationLevel basicLevels:{ level none }, itemOrUserFirst userFirst:{ userClasses { subtree { { base \"ou=a\", specificExclusions { chopBefore:\"cn=x\", chopAfter:\"cn=y\" }, minimum 1, maximum 2147483647 } } }, userPermissions { } } }",
    ),
    (
        "{ identificationTag \"Zoë\", precedence 10, authenticationLevel none, itemOrUserFirst userFirst:{ userClasses { allUsers NULL }, userPermissions { } } }",
        "{ identificationTag \"Zoë\", precedence 10, authenticationLevel basicLevels:{ level none }, itemOrUserFirst userFirst:{ userClasses { allUsers NULL }, userPermissions { } } }",
    ),
];

#[test]
fn an_item_is_read_in_each_spelling(rt: HostRuntime) -> Result<(), Fail> {
    check_texts(&rt, rt.alloc(), &SPELLINGS)
}

#[test]
fn the_full_spelling_is_read_as_itself(rt: HostRuntime) -> Result<(), Fail> {
    for (_, text) in &SPELLINGS {
        let mut found = String::new(rt.alloc());
        put_read(rt.alloc(), text.as_bytes(), &mut found)?;
        assert_eq!(rt; found.as_str(), *text);
    }
    Ok(())
}

// A text that is refused, and why: the place is that of the first octet of the part that breaks its rule.
static REFUSALS: [(&str, &str); 51] = [
    (
        "{identificationTag \"t\",precedence 10,authenticationLevel none,itemOrUserFirst userFirst:{userClasses{allUsers},userPermissions{}}}",
        "Text",
    ),
    ("", "Text"),
    ("{ }", "Text"),
    (
        "{ identificationTag t, precedence 10, authenticationLevel basicLevels:{ level none }, itemOrUserFirst userFirst:{ userClasses { allUsers NULL }, userPermissions { } } }",
        "Text",
    ),
    (
        "{ identificationTag \"t\", precedence 010, authenticationLevel basicLevels:{ level none }, itemOrUserFirst userFirst:{ userClasses { allUsers NULL }, userPermissions { } } }",
        "Text",
    ),
    (
        "{ identificationTag \"t\", precedence 10, authenticationLevel weak, itemOrUserFirst userFirst:{ userClasses { allUsers NULL }, userPermissions { } } }",
        "Text",
    ),
    (
        "{ identificationTag \"t\", precedence 10, authenticationLevel basicLevels:none, itemOrUserFirst userFirst:{ userClasses { allUsers NULL }, userPermissions { } } }",
        "Text",
    ),
    (
        "{ identificationTag \"t\", precedence 10, authenticationLevel basicLevels:{ level none, signed TRUE }, itemOrUserFirst userFirst:{ userClasses { allUsers NULL }, userPermissions { } } }",
        "Text",
    ),
    (
        "{ identificationTag \"t\", precedence 10, authenticationLevel other:none, itemOrUserFirst userFirst:{ userClasses { allUsers NULL }, userPermissions { } } }",
        "Text",
    ),
    (
        "{ identificationTag \"t\", precedence 10, authenticationLevel basicLevels:{ level none }, itemOrUserFirst { allUsers NULL } }",
        "Text",
    ),
    (
        "{ identificationTag \"t\", precedence 10, authenticationLevel basicLevels:{ level none }, itemOrUserFirst userFirst:{ userClasses { allUsers TRUE }, userPermissions { } } }",
        "Text",
    ),
    (
        "{ identificationTag \"t\", precedence 10, authenticationLevel basicLevels:{ level none }, itemOrUserFirst userFirst:{ userClasses { thisEntry, allUsers }, userPermissions { } } }",
        "Text",
    ),
    (
        "{ identificationTag \"t\", precedence 10, authenticationLevel basicLevels:{ level none }, itemOrUserFirst userFirst:{ userClasses { classes { } }, userPermissions { } } }",
        "Text",
    ),
    (
        "{ identificationTag \"t\", precedence 10, authenticationLevel basicLevels:{ level none }, itemOrUserFirst userFirst:{ userClasses { name \"cn=a\" }, userPermissions { } } }",
        "Text",
    ),
    (
        "{ identificationTag \"t\", precedence 10, authenticationLevel basicLevels:{ level none }, itemOrUserFirst userFirst:{ userClasses { name { { dn \"cn=a\", uid 1 } } }, userPermissions { } } }",
        "Text",
    ),
    (
        "{ identificationTag \"t\", precedence 10, authenticationLevel basicLevels:{ level none }, itemOrUserFirst userFirst:{ userClasses { allUsers NULL }, userPermissions { { protectedItems { rangeOfValues item:present:cn }, grantsAndDenials { } } } } }",
        "Text",
    ),
    (
        "{ identificationTag \"t\", precedence 10, authenticationLevel basicLevels:{ level none }, itemOrUserFirst userFirst:{ userClasses { allUsers NULL }, userPermissions { { protectedItems { maxImmSub 1 }, grantsAndDenials { } } } } }",
        "Text",
    ),
    (
        "{ identificationTag \"t\", precedence 10, authenticationLevel basicLevels:{ level none }, itemOrUserFirst userFirst:{ userClasses { allUsers NULL }, userPermissions { { protectedItems { entry }, grantsAndDenials { grantreturnDN } } } } }",
        "Text",
    ),
    (
        "{ identificationTag \"t\", precedence 10, authenticationLevel basicLevels:{ level none }, itemOrUserFirst userFirst:{ userClasses { allUsers NULL }, userPermissions { { protectedItems { entry } } } } }",
        "Text",
    ),
    (
        "{ identificationTag \"t\", precedence 10, authenticationLevel basicLevels:{ level none }, itemOrUserFirst itemFirst:{ protectedItems { entry }, itemPermissions { { precedence 1, grantsAndDenials { grantRead } } } } }",
        "Text",
    ),
    (
        "{ identificationTag \"t\", precedence 10, authenticationLevel basicLevels:{ level none }, itemOrUserFirst itemFirst:{ protectedItems { attributeType { cn }, entry }, itemPermissions { } } }",
        "Text",
    ),
    (
        "{ identificationTag \"t\", precedence 256, authenticationLevel basicLevels:{ level none }, itemOrUserFirst userFirst:{ userClasses { name { cn } }, userPermissions { } } }",
        "Text",
    ),
    (
        "{ identificationTag \"t\", precedence 256, authenticationLevel basicLevels:{ level none }, itemOrUserFirst userFirst:{ userClasses { allUsers NULL }, userPermissions { } } }",
        "Part 36",
    ),
    (
        "{ identificationTag \"t\", precedence 256, authenticationLevel basicLevels:{ level none }, itemOrUserFirst userFirst:{ userClasses { name { \"zz=a\" } }, userPermissions { } } }",
        "Part 36",
    ),
    (
        "{ identificationTag \"t\", precedence 10, authenticationLevel basicLevels:{ level none }, itemOrUserFirst userFirst:{ userClasses { name { \"zz=a\" } }, userPermissions { } } }",
        "Part 137",
    ),
    (
        "{ identificationTag \"t\", precedence 10, authenticationLevel basicLevels:{ level none }, itemOrUserFirst userFirst:{ userClasses { allUsers NULL }, userPermissions { { protectedItems { attributeType { cn, nosuch } }, grantsAndDenials { } } } } }",
        "Part 204",
    ),
    (
        "{ identificationTag \"t\", precedence 10, authenticationLevel basicLevels:{ level none }, itemOrUserFirst userFirst:{ userClasses { allUsers NULL }, userPermissions { { protectedItems { attributeType { 1.2.3 } }, grantsAndDenials { } } } } }",
        "Part 200",
    ),
    (
        "{ identificationTag \"t\", precedence 10, authenticationLevel basicLevels:{ level none }, itemOrUserFirst userFirst:{ userClasses { allUsers NULL }, userPermissions { { protectedItems { attributeValue { { type c, value \"abc\" } } }, grantsAndDenials { } } } } }",
        "Part 217",
    ),
    (
        "{ identificationTag \"t\", precedence 10, authenticationLevel basicLevels:{ level none }, itemOrUserFirst userFirst:{ userClasses { allUsers NULL }, userPermissions { { protectedItems { attributeValue { { type nosuch, value \"abc\" } } }, grantsAndDenials { } } } } }",
        "Part 208",
    ),
    (
        "{ identificationTag \"t\", precedence 10, authenticationLevel basicLevels:{ level none }, itemOrUserFirst userFirst:{ userClasses { allUsers NULL }, userPermissions { { precedence 300, protectedItems { entry }, grantsAndDenials { } } } } }",
        "Part 178",
    ),
    (
        "{ identificationTag \"t\", precedence 10, authenticationLevel basicLevels:{ level none }, itemOrUserFirst userFirst:{ userClasses { subtree { { base \"ou=a\", specificationFilter item:person } } }, userPermissions { } } }",
        "Part 175",
    ),
    (
        "{ identificationTag \"t\", precedence 10, authenticationLevel basicLevels:{ level none }, itemOrUserFirst userFirst:{ userClasses { subtree { { specificationFilter item:nosuch } } }, userPermissions { } } }",
        "Part 162",
    ),
    (
        "{ identificationTag \"t\", precedence 10, authenticationLevel basicLevels:{ level none }, itemOrUserFirst userFirst:{ userClasses { subtree { { base \"zz=a\", specificationFilter item:person } } }, userPermissions { } } }",
        "Part 147",
    ),
    (
        "{ identificationTag \"t\", precedence 10, authenticationLevel basicLevels:{ level none }, itemOrUserFirst userFirst:{ userClasses { allUsers NULL }, userPermissions { { protectedItems { contexts { { contextType 2.5.31.0, contextValues { \"en\" } } } }, grantsAndDenials { } } } } }",
        "Text",
    ),
    (
        "{ identificationTag \"t\", precedence 10, authenticationLevel basicLevels:{ level none }, itemOrUserFirst userFirst:{ userClasses { allUsers NULL }, userPermissions { { protectedItems { classes item:person }, grantsAndDenials { } } } } }",
        "Text",
    ),
    (
        "{ identificationTag \"t\", precedence 10, authenticationLevel basicLevels:{ level none, localQualifier 1 }, itemOrUserFirst userFirst:{ userClasses { allUsers NULL }, userPermissions { } } }",
        "Text",
    ),
    (
        "{ identificationTag \"t\", precedence 10, authenticationLevel basicLevels:{ level none, signed FALSE }, itemOrUserFirst userFirst:{ userClasses { allUsers NULL }, userPermissions { } } }",
        "Text",
    ),
    (
        "{ identificationTag \"t\", precedence 10, authenticationLevel basicLevels:{ }, itemOrUserFirst userFirst:{ userClasses { allUsers NULL }, userPermissions { } } }",
        "Text",
    ),
    (
        "{ precedence 10, identificationTag \"t\", authenticationLevel none, itemOrUserFirst userFirst:{ userClasses { allUsers NULL }, userPermissions { } } }",
        "Text",
    ),
    (
        "{ identificationTag \"t\", precedence -1, authenticationLevel none, itemOrUserFirst userFirst:{ userClasses { allUsers NULL }, userPermissions { } } }",
        "Text",
    ),
    (
        "{ identificationTag \"t\", precedence 10, authenticationLevel basicLevels:{ level none }, itemOrUserFirst userFirst:{ userClasses { allUsers NULL }, userPermissions { } } } }",
        "Text",
    ),
    (
        "{ identificationTag \"t\", precedence 10, authenticationLevel basicLevels:{ level none }, itemOrUserFirst userFirst:{ userClasses { allUsers NULL, }, userPermissions { } } }",
        "Text",
    ),
    (
        "{ identificationTag \"t\", precedence 10, authenticationLevel basicLevels:{ level none }, itemOrUserFirst userFirst:{ userClasses { allUsers NULL }, userPermissions { { protectedItems { entry NULL }, grantsAndDenials { grantRead } } } }",
        "Text",
    ),
    (
        "{ identificationTag \"t\", precedence\t10, authenticationLevel basicLevels:{ level none }, itemOrUserFirst userFirst:{ userClasses { allUsers NULL }, userPermissions { } } }",
        "Text",
    ),
    (
        "{ identificationTag \"t\", precedence 10, authenticationLevel basicLevels:{ level none }, itemOrUserFirst userFirst:{ userClasses { allUsers NULL }, userPermissions { { protectedItems { allAttributeValues { sn, nosuch } }, grantsAndDenials { } } } } }",
        "Part 209",
    ),
    (
        "{ identificationTag \"t\", precedence 10, authenticationLevel basicLevels:{ level none }, itemOrUserFirst userFirst:{ userClasses { allUsers NULL }, userPermissions { { protectedItems { selfValue { 1.2.3 } }, grantsAndDenials { } } } } }",
        "Part 196",
    ),
    (
        "{ identificationTag \"t\", precedence 10, authenticationLevel basicLevels:{ level none }, itemOrUserFirst userFirst:{ userClasses { userGroup { { dn \"cn=g\" }, { dn \"zz=g\" } } }, userPermissions { } } }",
        "Part 162",
    ),
    (
        "{ identificationTag \"t\", precedence 10, authenticationLevel basicLevels:{ level none }, itemOrUserFirst userFirst:{ userClasses { subtree { { minimum 2147483648 } } }, userPermissions { } } }",
        "Part 150",
    ),
    (
        "{ identificationTag \"t\", precedence 10, authenticationLevel basicLevels:{ level none }, itemOrUserFirst userFirst:{ userClasses { subtree { { specificExclusions { chopBefore:\"zz=a\" } } } }, userPermissions { } } }",
        "Part 174",
    ),
    (
        "{ identificationTag \"t\", precedence 10, authenticationLevel basicLevels:{ level none }, itemOrUserFirst itemFirst:{ protectedItems { entry }, itemPermissions { { precedence 256, userClasses { allUsers }, grantsAndDenials { denyRead } } } } }",
        "Part 173",
    ),
    (
        "{ identificationTag \"t\", precedence 10, authenticationLevel basicLevels:{ level none }, itemOrUserFirst userFirst:{ userClasses { allUsers NULL }, userPermissions { { protectedItems { attributeType { nosuch }, attributeValue { { type c, value \"abc\" } } }, grantsAndDenials { } } } } }",
        "Part 200",
    ),
];

#[test]
fn a_text_is_refused_at_its_first_bad_part(rt: HostRuntime) -> Result<(), Fail> {
    check_texts(&rt, rt.alloc(), &REFUSALS)
}

// Appends the kind, the precedence and the users of each tuple, and whether it has Read.
fn put_tuples(alloc: Global, item: &AciItem, out: &mut String) -> Result<(), Fail> {
    for tuple in &tuples(alloc, item)? {
        let kind = if tuple.grants { "grant" } else { "deny" };
        let read = tuple.has(Permission::Read);
        let users = tuple.classes.names.len();
        write!(out, "{kind} {} {users} {read};", tuple.precedence)?;
    }
    Ok(())
}

#[test]
fn permissions_are_split_into_grants_and_denials(rt: HostRuntime) -> Result<(), Fail> {
    let item = read(
        rt.alloc(),
        b"{ identificationTag \"t\", precedence 10, authenticationLevel simple, itemOrUserFirst itemFirst:{ protectedItems { entry }, itemPermissions { { userClasses { name { \"cn=a\" } }, grantsAndDenials { denyRead, grantAdd, grantRead } }, { precedence 20, userClasses { allUsers }, grantsAndDenials { denyInvoke } }, { userClasses { thisEntry }, grantsAndDenials { } } } } }",
    )?;
    let mut found = String::new(rt.alloc());
    put_tuples(rt.alloc(), &item, &mut found)?;
    assert_eq!(rt;
        found.as_str(),
        "deny 20 0 false;grant 10 1 true;deny 10 1 true;"
    );
    Ok(())
}

#[test]
fn a_stronger_level_is_above_a_weaker_one(rt: HostRuntime) -> Result<(), Fail> {
    assert!(rt; Level::Strong.is_above(Level::Simple));
    assert!(rt; Level::Simple.is_above(Level::Anyone));
    assert!(rt; !Level::Simple.is_above(Level::Simple));
    assert!(rt; !Level::Anyone.is_above(Level::Strong));
    Ok(())
}

//! Where the texts of rules leave the table of what may stand where: each mistake with its place and its word.
use std::alloc::Global;
use std::process::Abort;
use std::test::Fail;
use text_stops::{item_stop, put_word, subtree_stop};

// Appends the word at the place, if there is one.
fn put_stop(text: &[u8], stop: Option<usize>, out: &mut String) -> Result<(), Fail> {
    match stop {
        Some(place) => {
            write!(out, "{place} ")?;
            Ok(put_word(text, place, out)?)
        }
        None => Ok(out.push_str("none")?),
    }
}

// What is passed of an item and what is not, and the word in the way.
static ITEMS: [(&str, &str, &str); 17] = [
    // a closing brace is missing, at the end and before a comma
    (
        "{ identificationTag \"t\", precedence 10, authenticationLevel none, itemOrUserFirst userFirst:{ userClasses { allUsers }, userPermissions { { protectedItems { entry }, grantsAndDenials { grantRead } } } }",
        "",
        "the end",
    ),
    (
        "{ identificationTag \"t\", precedence 10, authenticationLevel none, itemOrUserFirst userFirst:{ userClasses { allUsers, ",
        "userPermissions { } } }",
        "\"userPermissions\"",
    ),
    // an opening brace is missing
    (
        "{ identificationTag \"t\", precedence 10, authenticationLevel none, itemOrUserFirst userFirst:{ userClasses ",
        "allUsers }, userPermissions { } } }",
        "\"allUsers\"",
    ),
    // a misspelled bit, and one with a capital letter
    (
        "{ identificationTag \"t\", precedence 10, authenticationLevel none, itemOrUserFirst userFirst:{ userClasses { allUsers }, userPermissions { { protectedItems { entry }, grantsAndDenials { grantBrowse, ",
        "grantRaed } } } } }",
        "\"grantRaed\"",
    ),
    (
        "{ identificationTag \"t\", precedence 10, authenticationLevel none, itemOrUserFirst userFirst:{ userClasses { allUsers }, userPermissions { { protectedItems { entry }, grantsAndDenials { ",
        "GrantRead } } } } }",
        "\"GrantRead\"",
    ),
    // another order than the standard's
    (
        "{ identificationTag \"t\", precedence 10, authenticationLevel none, itemOrUserFirst userFirst:{ userClasses { allUsers }, userPermissions { { protectedItems { attributeType { cn }, ",
        "entry }, grantsAndDenials { grantRead } } } } }",
        "\"entry\"",
    ),
    // a comma is missing, behind a flag and behind a value
    (
        "{ identificationTag \"t\", precedence 10, authenticationLevel none, itemOrUserFirst userFirst:{ userClasses { allUsers }, userPermissions { { protectedItems { entry ",
        "attributeType { cn } }, grantsAndDenials { grantRead } } } } }",
        "\"attributeType\"",
    ),
    (
        "{ identificationTag \"t\" ",
        "precedence 10, authenticationLevel none, itemOrUserFirst userFirst:{ userClasses { allUsers }, userPermissions { } } }",
        "\"precedence\"",
    ),
    // quotation marks of print
    (
        "{ identificationTag ",
        "\u{201c}t\u{201d}, precedence 10, authenticationLevel none, itemOrUserFirst userFirst:{ userClasses { allUsers }, userPermissions { } } }",
        "\"\u{201c}t\u{201d}\"",
    ),
    // no precedence, and one that is no number
    (
        "{ identificationTag \"t\", ",
        "authenticationLevel none, itemOrUserFirst userFirst:{ userClasses { allUsers }, userPermissions { } } }",
        "\"authenticationLevel\"",
    ),
    (
        "{ identificationTag \"t\", precedence ",
        "010, authenticationLevel none, itemOrUserFirst userFirst:{ userClasses { allUsers }, userPermissions { } } }",
        "\"010\"",
    ),
    // a colon is missing
    (
        "{ identificationTag \"t\", precedence 10, authenticationLevel none, itemOrUserFirst userFirst ",
        "{ userClasses { allUsers }, userPermissions { } } }",
        "\"{\"",
    ),
    // a level that is none
    (
        "{ identificationTag \"t\", precedence 10, authenticationLevel ",
        "weak, itemOrUserFirst userFirst:{ userClasses { allUsers }, userPermissions { } } }",
        "\"weak\"",
    ),
    // a name without quotation marks
    (
        "{ identificationTag \"t\", precedence 10, authenticationLevel none, itemOrUserFirst userFirst:{ userClasses { name { ",
        "cn=a } }, userPermissions { } } }",
        "\"cn=a\"",
    ),
    // a string and a brace that touch a word
    (
        "{ identificationTag",
        "\"t\", precedence 10, authenticationLevel none, itemOrUserFirst userFirst:{ userClasses { allUsers }, userPermissions { } } }",
        "\"t\"",
    ),
    (
        "{ identificationTag \"t\", precedence 10, authenticationLevel none, itemOrUserFirst userFirst:{ userClasses",
        "{ allUsers }, userPermissions { } } }",
        "\"{\"",
    ),
    // a comma too many
    (
        "{ identificationTag \"t\", precedence 10, authenticationLevel none, itemOrUserFirst userFirst:{ userClasses { allUsers, ",
        "}, userPermissions { } } }",
        "\"}\"",
    ),
];

// The same of subtree specifications.
static SUBTREES: [(&str, &str, &str); 6] = [
    ("{ base ", "ou=people }", "\"ou=people\""),
    ("{ minimum 1, ", "base \"ou=people\" }", "\"base\""),
    (
        "{ specificExclusions { chopBefore ",
        "\"ou=a\" } }",
        "\"ou=a\"",
    ),
    (
        "{ specificExclusions { ",
        "chopbefore:\"ou=a\" } }",
        "\"chopbefore\"",
    ),
    ("{ base \"ou=people\"", "", "the end"),
    ("{ base \"ou=people }", "", "the end"),
];

fn check_rows(
    rt: &impl Abort,
    alloc: Global,
    rows: &'static [(&'static str, &'static str, &'static str)],
    items: bool,
) -> Result<(), Fail> {
    for (front, rest, word) in rows {
        let text = format!(in alloc; "{front}{rest}")?;
        let stop = if items {
            item_stop(alloc, text.as_bytes())?
        } else {
            subtree_stop(alloc, text.as_bytes())?
        };
        let mut found = String::new(alloc);
        put_stop(text.as_bytes(), stop, &mut found)?;
        let want = format!(in alloc; "{} {word}", front.len())?;
        assert_eq!(rt; found.as_str(), want.as_str(), "{text}");
    }
    Ok(())
}

#[test]
fn each_mistake_of_an_item_has_its_place(rt: HostRuntime) -> Result<(), Fail> {
    check_rows(&rt, rt.alloc(), &ITEMS, true)
}

#[test]
fn each_mistake_of_a_subtree_specification_has_its_place(rt: HostRuntime) -> Result<(), Fail> {
    check_rows(&rt, rt.alloc(), &SUBTREES, false)
}

// Texts that leave the table nowhere.
static WHOLE: [&str; 3] = [
    "{ identificationTag \"t\", precedence 10, authenticationLevel basicLevels:{ level none }, itemOrUserFirst itemFirst:{ protectedItems { entry NULL, attributeType { cn, 2.5.4.4 }, attributeValue { { type cn, value \"a\" } }, maxValueCount { { type cn, maxCount 3 } }, restrictedBy { { type cn, valuesIn sn } } }, itemPermissions { { precedence 3, userClasses { thisEntry, name { \"cn=a\", { dn \"cn=b\" } }, subtree { { base \"o=x\" } } }, grantsAndDenials { denyRead } } } } }",
    "{identificationTag \"a \"\"b\"\"\",precedence 255,authenticationLevel strong,itemOrUserFirst userFirst : {userClasses {},userPermissions {}}}",
    "  { identificationTag \"\", precedence 0, authenticationLevel none, itemOrUserFirst userFirst:{ userClasses { allUsers NULL }, userPermissions { { protectedItems { }, grantsAndDenials { } } } } }  ",
];

#[test]
fn a_good_item_leaves_the_table_nowhere(rt: HostRuntime) -> Result<(), Fail> {
    for text in &WHOLE {
        assert!(rt; item_stop(rt.alloc(), text.as_bytes())?.is_none(), "{text}");
    }
    Ok(())
}

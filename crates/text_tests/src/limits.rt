//! The limits of protected items on values: each spelling, and each refusal with its place.
use aci_item::subtree_spec::BadText;
use aci_item::{print, read};
use std::alloc::Global;
use std::process::Abort;
use std::test::Fail;

// The text of an item with these protected items.
fn item_with(alloc: Global, items: &str) -> Result<String, Fail> {
    Ok(format!(in alloc;
        "{{ identificationTag \"t\", precedence 10, authenticationLevel basicLevels:{{ level none }}, itemOrUserFirst itemFirst:{{ protectedItems {items}, itemPermissions {{ }} }} }}"
    )?)
}

// Protected items, and their full spelling: members stand in the order of their printed texts, each once.
static SPELLINGS: [(&str, &str); 8] = [
    (
        "{ maxValueCount { { type cn, maxCount 1 } } }",
        "{ maxValueCount { { type cn, maxCount 1 } } }",
    ),
    (
        "{restrictedBy {{type CN,valuesIn 2.5.4.4}}}",
        "{ restrictedBy { { type cn, valuesIn sn } } }",
    ),
    (
        "{ maxValueCount { { type sn, maxCount 2147483647 }, { type 2.5.4.3, maxCount 9 }, { type cn, maxCount 0 } } }",
        "{ maxValueCount { { type cn, maxCount 0 }, { type cn, maxCount 9 }, { type sn, maxCount 2147483647 } } }",
    ),
    (
        "{ maxValueCount { { type cn, maxCount 2 }, { type cn, maxCount 10 }, { type 2.5.4.3, maxCount 2 } } }",
        "{ maxValueCount { { type cn, maxCount 10 }, { type cn, maxCount 2 } } }",
    ),
    (
        "{ restrictedBy { { type owner, valuesIn member }, { type cn, valuesIn cn }, { type OWNER, valuesIn 2.5.4.31 }, { type owner, valuesIn manager } } }",
        "{ restrictedBy { { type cn, valuesIn cn }, { type owner, valuesIn manager }, { type owner, valuesIn member } } }",
    ),
    (
        "{ entry, selfValue { member }, maxValueCount { { type mail, maxCount 3 } }, restrictedBy { { type mail, valuesIn dc } } }",
        "{ entry NULL, selfValue { member }, maxValueCount { { type mail, maxCount 3 } }, restrictedBy { { type mail, valuesIn dc } } }",
    ),
    ("{ maxValueCount { }, restrictedBy { } }", "{ }"),
    (
        "{ restrictedBy { { type mobile, valuesIn telephoneNumber }, { type prescriptiveACI, valuesIn entryACI }, { type objectClass, valuesIn administrativeRole } } }",
        "{ restrictedBy { { type mobile, valuesIn telephoneNumber }, { type objectClass, valuesIn administrativeRole }, { type prescriptiveACI, valuesIn entryACI } } }",
    ),
];

#[test]
fn limits_are_read_in_each_spelling(rt: HostRuntime) -> Result<(), Fail> {
    for (items, full) in &SPELLINGS {
        let text = item_with(rt.alloc(), items)?;
        let item = read(rt.alloc(), text.as_bytes())?;
        let mut found = String::new(rt.alloc());
        print(rt.alloc(), &item, &mut found)?;
        let want = item_with(rt.alloc(), full)?;
        assert_eq!(rt; found.as_str(), want.as_str(), "{items}");
    }
    Ok(())
}

// Where the part is that a text is refused for; None where it is not refused for one.
fn bad_place(alloc: Global, text: &str) -> Option<usize> {
    match read(alloc, text.as_bytes()) {
        Err(BadText::Part { place }) => Some(place),
        _ => None,
    }
}

// Protected items that are refused, and their first part that breaks its rule.
static BAD_PARTS: [(&str, &str); 10] = [
    (
        "{ maxValueCount { { type nosuch, maxCount 1 } } }",
        "nosuch",
    ),
    (
        "{ maxValueCount { { type cn, maxCount 2147483648 } } }",
        "2147483648",
    ),
    (
        "{ maxValueCount { { type cn, maxCount 1 }, { type 1.2.3, maxCount 99999999999999999999 } } }",
        "1.2.3",
    ),
    (
        "{ restrictedBy { { type cn, valuesIn telephoneNumber } } }",
        "telephoneNumber",
    ),
    (
        "{ restrictedBy { { type 2.5.4.20, valuesIn 2.5.4.3 } } }",
        "2.5.4.3",
    ),
    (
        "{ restrictedBy { { type nosuch, valuesIn telephoneNumber } } }",
        "nosuch",
    ),
    (
        "{ restrictedBy { { type cn, valuesIn nosuch } } }",
        "nosuch",
    ),
    (
        "{ restrictedBy { { type description, valuesIn title }, { type description, valuesIn mail } } }",
        "mail",
    ),
    (
        "{ maxValueCount { { type cn, maxCount 2147483648 } }, restrictedBy { { type nosuch, valuesIn sn } } }",
        "2147483648",
    ),
    (
        "{ selfValue { nosuch }, restrictedBy { { type cn, valuesIn member } } }",
        "nosuch",
    ),
];

#[test]
fn a_limit_is_refused_at_its_first_bad_part(rt: HostRuntime) -> Result<(), Fail> {
    for (items, part) in &BAD_PARTS {
        let text = item_with(rt.alloc(), items)?;
        let place = bad_place(rt.alloc(), text.as_str());
        assert!(rt; place.is_some(), "{items}");
        assert_eq!(rt; place, text.as_str().find(*part), "{items}");
    }
    Ok(())
}

// Protected items that are not in the grammar.
static MISFITS: [&str; 12] = [
    "{ restrictedBy { }, maxValueCount { } }",
    "{ maxValueCount { }, selfValue { member } }",
    "{ maxValueCount NULL }",
    "{ maxValueCount { type cn, maxCount 1 } }",
    "{ maxValueCount { { maxCount 1, type cn } } }",
    "{ maxValueCount { { type cn } } }",
    "{ maxValueCount { { type cn, maxCount -1 } } }",
    "{ maxValueCount { { type cn, maxCount 01 } } }",
    "{ maxValueCount { { type cn, maxCount 1, maxCount 1 } } }",
    "{ restrictedBy { { type cn } } }",
    "{ restrictedBy { { type cn, valuesIn \"sn\" } } }",
    "{ restrictedBy { { type cn, valuesIn sn, valuesIn sn } } }",
];

#[test]
fn limits_of_no_grammar_are_refused(rt: HostRuntime) -> Result<(), Fail> {
    for items in &MISFITS {
        let text = item_with(rt.alloc(), items)?;
        let found = read(rt.alloc(), text.as_bytes());
        assert!(rt; matches!(found, Err(BadText::Text)), "{items}");
    }
    Ok(())
}

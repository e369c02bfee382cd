//! The parts of texts: numbers, object identifiers, and strings written and read.
use aci_item::gser_tree::{Bad, number, put_string, read_tree};
use aci_item::subtree_spec::is_oid;
use std::alloc::Global;
use std::process::Abort;
use std::test::Fail;

// The number of a text; None where it is none.
fn number_in(alloc: Global, text: &str) -> Result<Option<u32>, Fail> {
    let mut bad = Bad::none();
    match read_tree(alloc, text.as_bytes())? {
        Some(tree) => Ok(number(&tree, 255, &mut bad).ok()),
        None => Ok(None),
    }
}

static NUMBERS: [(&str, Option<u32>); 8] = [
    ("0", Some(0)),
    ("120", Some(120)),
    ("255", Some(255)),
    ("01", None),
    ("1a", None),
    ("1.2", None),
    ("-1", None),
    ("", None),
];

#[test]
fn a_number_has_no_nought_before_it(rt: HostRuntime) -> Result<(), Fail> {
    for (text, want) in &NUMBERS {
        assert_eq!(rt; number_in(rt.alloc(), text)?, *want, "{text}");
    }
    Ok(())
}

static OIDS: [(&str, bool); 18] = [
    ("2.5.4.3", true),
    ("2.5", true),
    ("0.9.2342", true),
    ("2.5.", false),
    ("2.5..4", false),
    ("1.02", false),
    ("1.2a", false),
    ("1", false),
    ("12a", false),
    ("01.2", false),
    ("12.a", false),
    (".1", false),
    ("cn", true),
    ("x", true),
    ("Person-2", true),
    ("Person-2.1", false),
    ("-a", false),
    ("", false),
];

#[test]
fn an_object_identifier_is_dotted_or_a_descriptor(rt: HostRuntime) -> Result<(), Fail> {
    for (text, want) in &OIDS {
        assert_eq!(rt; is_oid(text), *want, "{text}");
    }
    Ok(())
}

// A text, and the string that is written for it.
static STRINGS: [(&str, &str); 5] = [
    ("", "\"\""),
    ("a b", "\"a b\""),
    ("cn=\"a\"", "\"cn=\"\"a\"\"\""),
    ("\"", "\"\"\"\""),
    ("\u{e9}", "\"\u{e9}\""),
];

#[test]
fn a_string_has_each_quotation_mark_twice(rt: HostRuntime) -> Result<(), Fail> {
    for (text, want) in &STRINGS {
        let mut out = String::new(rt.alloc());
        put_string(&mut out, text)?;
        assert_eq!(rt; out.as_str(), *want, "{text}");
    }
    Ok(())
}

// Appends the text of a string, or that it is none.
fn put_text(alloc: Global, string: &str, out: &mut String) -> Result<(), Fail> {
    match read_tree(alloc, string.as_bytes())? {
        Some(tree) => match tree.string() {
            Some(part) => Ok(out.push_str(part.text.as_str())?),
            None => Ok(out.push_str("no string")?),
        },
        None => Ok(out.push_str("no value")?),
    }
}

#[test]
fn a_written_string_is_read_as_its_text(rt: HostRuntime) -> Result<(), Fail> {
    for (text, string) in &STRINGS {
        let mut found = String::new(rt.alloc());
        put_text(rt.alloc(), string, &mut found)?;
        assert_eq!(rt; found.as_str(), *text, "{string}");
    }
    Ok(())
}

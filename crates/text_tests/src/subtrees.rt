//! Subtree specifications: each spelling, each refusal with its place, and the names that belong to a subtree.
use aci_item::subtree_spec::{BadText, Refinement, Spec, holds_below, holds_name, print, read};
use dir_tree::dn_names::{Dn, parse};
use std::alloc::Global;
use std::process::Abort;
use std::test::Fail;

// Appends a name as it is printed.
fn put_name(alloc: Global, name: &Dn, out: &mut String) -> Result<(), Fail> {
    out.push_str(" ")?;
    out.push_str("<")?;
    dir_tree::dn_names::print(alloc, name, out)?;
    out.push_str(">")?;
    Ok(())
}

// Appends what kind of refinement there is.
fn put_filter(filter: &Refinement, out: &mut String) -> Result<(), Fail> {
    match filter {
        Refinement::Item(oid) => {
            out.push_str(" item ")?;
            out.push_str(oid.as_str())?;
        }
        Refinement::And(members) => write!(out, " and {}", members.len())?,
        Refinement::Or(members) => write!(out, " or {}", members.len())?,
        Refinement::Not(_) => out.push_str(" not")?,
    }
    Ok(())
}

// Appends the base, the names of both kinds, the distances and the refinement.
fn put_spec(alloc: Global, spec: &Spec, out: &mut String) -> Result<(), Fail> {
    out.push_str("base")?;
    put_name(alloc, &spec.base, out)?;
    out.push_str(" before")?;
    for name in &spec.before {
        put_name(alloc, name, out)?;
    }
    out.push_str(" after")?;
    for name in &spec.after {
        put_name(alloc, name, out)?;
    }
    write!(out, " from {}", spec.minimum)?;
    if let Some(maximum) = spec.maximum {
        write!(out, " to {maximum}")?;
    }
    if let Some(filter) = &spec.filter {
        put_filter(filter, out)?;
    }
    Ok(())
}

// Appends what was read of a text, or why nothing was.
fn put_read(alloc: Global, text: &[u8], out: &mut String) -> Result<(), Fail> {
    match read(alloc, text) {
        Ok(spec) => put_spec(alloc, &spec, out),
        Err(BadText::Text) => Ok(out.push_str("Text")?),
        Err(BadText::Part { place }) => Ok(write!(out, "Part {place}")?),
        Err(BadText::NoMemory) => Ok(out.push_str("NoMemory")?),
    }
}

// Each text of the rows is read so.
fn check_texts(
    rt: &impl Abort,
    alloc: Global,
    rows: &'static [(&'static str, &'static str)],
) -> Result<(), Fail> {
    for (text, want) in rows {
        let mut found = String::new(alloc);
        put_read(alloc, text.as_bytes(), &mut found)?;
        assert_eq!(rt; found.as_str(), *want, "{text}");
    }
    Ok(())
}

// A text, and what it says.
static SPELLINGS: [(&str, &str); 17] = [
    ("{}", "base <> before after from 0"),
    ("{ }", "base <> before after from 0"),
    ("   {   }  ", "base <> before after from 0"),
    ("{base \"ou=b\"}", "base <ou=b> before after from 0"),
    ("{ base   \"ou=b\"  }", "base <ou=b> before after from 0"),
    ("{ base \"\" }", "base <> before after from 0"),
    ("{ base \"cn=a\"\"b\" }", "Part 7"),
    (
        "{ base \"OU = b , DC=c\", minimum 1 }",
        "base <ou=b,dc=c> before after from 1",
    ),
    (
        "{minimum 1,maximum 2147483647}",
        "base <> before after from 1 to 2147483647",
    ),
    (
        "{ specificExclusions { chopBefore:\"ou=b\", chopAfter:\"ou=c\", chopBefore : \"ou=a\" } }",
        "base <> before <ou=a> <ou=b> after <ou=c> from 0",
    ),
    (
        "{ specificExclusions { chopBefore:\"ou=B\" , chopBefore:\"ou=b\" } }",
        "base <> before <ou=B> after from 0",
    ),
    (
        "{ specificExclusions { }, specificationFilter item:person }",
        "base <> before after from 0 item 2.5.6.6",
    ),
    (
        "{ specificationFilter item : 1.2.3 }",
        "base <> before after from 0 item 1.2.3",
    ),
    (
        "{ specificationFilter and:{ item:person, or:{ } } }",
        "base <> before after from 0 and 2",
    ),
    (
        "{ specificationFilter or:{item:PERSON,not:item:device,item:top} }",
        "base <> before after from 0 or 3",
    ),
    (
        "{ specificationFilter not:and:{} }",
        "base <> before after from 0 not",
    ),
    (
        "{ specificExclusions { chopAfter:\"\" }, minimum 1, maximum 1 }",
        "base <> before after <> from 1 to 1",
    ),
];

#[test]
fn a_specification_is_read_in_each_spelling(rt: HostRuntime) -> Result<(), Fail> {
    check_texts(&rt, rt.alloc(), &SPELLINGS)
}

// A text that is refused, and why: the place is that of the first octet of the part that breaks its rule.
static REFUSALS: [(&str, &str); 43] = [
    ("", "Text"),
    (" ", "Text"),
    ("{", "Text"),
    ("}", "Text"),
    ("{ } }", "Text"),
    ("{ }x", "Text"),
    ("{,}", "Text"),
    ("{ minimum 1, }", "Text"),
    ("{ , minimum 1 }", "Text"),
    ("{ minimum 1 maximum 2 }", "Text"),
    ("{ minimum }", "Text"),
    ("{ minimum:1 }", "Text"),
    ("{ minimum \"1\" }", "Text"),
    ("{ minimum 01 }", "Text"),
    ("{ minimum -1 }", "Text"),
    ("{ minimum 1.5 }", "Text"),
    ("{ minimum1 }", "Text"),
    ("{ Minimum 1 }", "Text"),
    ("{ maximum 1, minimum 1 }", "Text"),
    ("{ minimum 1, minimum 1 }", "Text"),
    ("{ other 1 }", "Text"),
    ("{ base ou=b }", "Text"),
    ("{ base\"ou=b\" }", "Text"),
    ("{ base \"ou=b }", "Text"),
    ("{ base \"ou=b\"minimum 1 }", "Text"),
    ("{ specificExclusions }", "Text"),
    ("{ specificExclusions { \"ou=b\" } }", "Text"),
    ("{ specificExclusions { chopOver:\"ou=b\" } }", "Text"),
    ("{ specificExclusions { chopBefore \"ou=b\" } }", "Text"),
    ("{ specificationFilter person }", "Text"),
    ("{ specificationFilter item:1. }", "Text"),
    ("{ specificationFilter item:1 }", "Text"),
    ("{ specificationFilter some:{} }", "Text"),
    ("{ specificationFilter not:{} }", "Text"),
    ("{\tminimum 1 }", "Text"),
    ("{ minimum 2147483648 }", "Part 10"),
    ("{ maximum 99999999999999999999 }", "Part 10"),
    ("{ base \"zz=b\" }", "Part 7"),
    ("{ base \"ou\" }", "Part 7"),
    ("{ base \"zz=b\", minimum 4000000000 }", "Part 7"),
    ("{ base \"zz=b\", minimum x }", "Text"),
    (
        "{ specificExclusions { chopAfter:\"member=b\" } }",
        "Part 33",
    ),
    (
        "{ specificationFilter and:{ item:person, item:nobody } }",
        "Part 46",
    ),
];

#[test]
fn a_text_is_refused_at_its_first_bad_part(rt: HostRuntime) -> Result<(), Fail> {
    check_texts(&rt, rt.alloc(), &REFUSALS)
}

// A text, and the printed form of what it says: what has its usual value is left out, the names of chopBefore come
// first and names stand in their order, object identifiers are dotted.
static PRINTED: [(&str, &str); 14] = [
    ("{}", "{ }"),
    ("{ base \"\", specificExclusions { }, minimum 0 }", "{ }"),
    ("{base \"OU = b , DC=c\"}", "{ base \"ou=b,dc=c\" }"),
    ("{ base \"cn=a\\\"\"b\" }", "{ base \"cn=a\\\"\"b\" }"),
    ("{ maximum 0 }", "{ maximum 0 }"),
    (
        "{minimum 1,maximum 2147483647}",
        "{ minimum 1, maximum 2147483647 }",
    ),
    (
        "{ specificExclusions { chopAfter:\"ou=c\", chopBefore : \"ou=b\", chopBefore:\"ou=a\" } }",
        "{ specificExclusions { chopBefore:\"ou=a\", chopBefore:\"ou=b\", chopAfter:\"ou=c\" } }",
    ),
    (
        "{ specificExclusions { chopBefore:\"ou=B\" , chopBefore:\"ou=b\" } }",
        "{ specificExclusions { chopBefore:\"ou=B\" } }",
    ),
    (
        "{ specificExclusions { chopAfter:\"\" } }",
        "{ specificExclusions { chopAfter:\"\" } }",
    ),
    (
        "{ specificationFilter item:PERSON }",
        "{ specificationFilter item:2.5.6.6 }",
    ),
    (
        "{ specificationFilter item : 1.2.3 }",
        "{ specificationFilter item:1.2.3 }",
    ),
    (
        "{specificationFilter and:{item:top,or:{},not:item:person}}",
        "{ specificationFilter and:{ item:2.5.6.0, or:{ }, not:item:2.5.6.6 } }",
    ),
    (
        "{ specificationFilter not:and:{} }",
        "{ specificationFilter not:and:{ } }",
    ),
    (
        "{base \"ou=b\",specificExclusions {chopAfter:\"ou=c\"},minimum 1,maximum 2,specificationFilter item:top}",
        "{ base \"ou=b\", specificExclusions { chopAfter:\"ou=c\" }, minimum 1, maximum 2, specificationFilter item:2.5.6.0 }",
    ),
];

// A printed form is read again, and printed as it was.
#[test]
fn a_specification_has_one_printed_form(rt: HostRuntime) -> Result<(), Fail> {
    for (text, want) in &PRINTED {
        let mut found = String::new(rt.alloc());
        print(rt.alloc(), &read(rt.alloc(), text.as_bytes())?, &mut found)?;
        assert_eq!(rt; found.as_str(), *want, "{text}");
        let mut again = String::new(rt.alloc());
        print(rt.alloc(), &read(rt.alloc(), want.as_bytes())?, &mut again)?;
        assert_eq!(rt; again.as_str(), *want, "{text}");
    }
    Ok(())
}

// The printed form stands behind what stood there.
#[test]
fn a_printed_specification_is_appended(rt: HostRuntime) -> Result<(), Fail> {
    let mut out = String::from_str(rt.alloc(), "subtree ")?;
    print(rt.alloc(), &read(rt.alloc(), b"{minimum 1}")?, &mut out)?;
    assert_eq!(rt; out.as_str(), "subtree { minimum 1 }");
    Ok(())
}

// Appends so many refinements, each but the last the one of `not`.
fn put_deep(depth: usize, out: &mut String) -> Result<(), Fail> {
    out.push_str("{ specificationFilter ")?;
    for _ in 1..depth {
        out.push_str("not:")?;
    }
    out.push_str("item:2.5.6.6 }")?;
    Ok(())
}

#[test]
fn refinements_are_at_most_64_deep(rt: HostRuntime) -> Result<(), Fail> {
    let mut deepest = String::new(rt.alloc());
    put_deep(64, &mut deepest)?;
    let mut found = String::new(rt.alloc());
    print(
        rt.alloc(),
        &read(rt.alloc(), deepest.as_bytes())?,
        &mut found,
    )?;
    assert_eq!(rt; found.as_str(), deepest.as_str());
    let mut deeper = String::new(rt.alloc());
    put_deep(65, &mut deeper)?;
    let mut refused = String::new(rt.alloc());
    put_read(rt.alloc(), deeper.as_bytes(), &mut refused)?;
    assert_eq!(rt; refused.as_str(), "Text");
    Ok(())
}

// Appends a specification with so many exclusions, in the order of names or against it.
fn put_many(count: usize, falling: bool, out: &mut String) -> Result<(), Fail> {
    out.push_str("{ specificExclusions { ")?;
    for index in 0..count {
        if index > 0 {
            out.push_str(", ")?;
        }
        let number = if falling { count - 1 - index } else { index };
        write!(out, "chopAfter:\"ou={:04}\"", number)?;
    }
    out.push_str(" } }")?;
    Ok(())
}

// Exclusions are read in any order, and printed in one.
#[test]
fn many_exclusions_are_printed_in_their_order(rt: HostRuntime) -> Result<(), Fail> {
    let mut rising = String::new(rt.alloc());
    put_many(2_000, false, &mut rising)?;
    let mut falling = String::new(rt.alloc());
    put_many(2_000, true, &mut falling)?;
    let mut found = String::new(rt.alloc());
    print(
        rt.alloc(),
        &read(rt.alloc(), falling.as_bytes())?,
        &mut found,
    )?;
    assert!(rt; found.as_str() == rising.as_str());
    Ok(())
}

// Octets that are no UTF-8 are in no text.
#[test]
fn octets_beyond_utf8_are_refused(rt: HostRuntime) -> Result<(), Fail> {
    let mut found = String::new(rt.alloc());
    put_read(rt.alloc(), b"{ base \"cn=\xff\" }", &mut found)?;
    assert_eq!(rt; found.as_str(), "Text");
    Ok(())
}

// A specification, a point, a name, and whether the name belongs to the point's subtree.
static MEMBERS: [(&str, &str, &str, bool); 16] = [
    ("{ }", "dc=u", "dc=u", true),
    ("{ }", "dc=u", "cn=a,ou=b,dc=u", true),
    ("{ }", "dc=u", "dc=v", false),
    ("{ }", "ou=b,dc=u", "dc=u", false),
    ("{ base \"ou=b\" }", "dc=u", "ou=B,dc=u", true),
    ("{ base \"ou=b\" }", "dc=u", "dc=u", false),
    ("{ base \"ou=b\" }", "dc=u", "ou=c,dc=u", false),
    ("{ minimum 1 }", "dc=u", "dc=u", false),
    ("{ minimum 1, maximum 1 }", "dc=u", "ou=b,dc=u", true),
    ("{ maximum 1 }", "dc=u", "cn=a,ou=b,dc=u", false),
    (
        "{ specificExclusions { chopBefore:\"ou=b\" } }",
        "dc=u",
        "ou=B,dc=u",
        false,
    ),
    (
        "{ specificExclusions { chopBefore:\"ou=b\" } }",
        "dc=u",
        "cn=a,ou=b,dc=u",
        false,
    ),
    (
        "{ specificExclusions { chopBefore:\"ou=b\" } }",
        "dc=u",
        "ou=c,dc=u",
        true,
    ),
    (
        "{ specificExclusions { chopAfter:\"ou=b\" } }",
        "dc=u",
        "ou=b,dc=u",
        true,
    ),
    (
        "{ specificExclusions { chopAfter:\"ou=b\" } }",
        "dc=u",
        "cn=a,ou=b,dc=u",
        false,
    ),
    (
        "{ specificExclusions { chopAfter:\"\" }, minimum 1, maximum 1 }",
        "dc=u",
        "ou=b,dc=u",
        false,
    ),
];

#[test]
fn names_belong_to_the_subtree_of_a_point(rt: HostRuntime) -> Result<(), Fail> {
    for (text, point, name, want) in &MEMBERS {
        let spec = read(rt.alloc(), text.as_bytes())?;
        let point = parse(rt.alloc(), point.as_bytes())?;
        let name = parse(rt.alloc(), name.as_bytes())?;
        assert_eq!(rt; holds_below(&spec, &point, &name), *want, "{text}");
    }
    Ok(())
}

// The base of a user class's subtree stands at the root.
#[test]
fn names_belong_to_a_subtree_from_the_root(rt: HostRuntime) -> Result<(), Fail> {
    let spec = read(rt.alloc(), b"{ base \"ou=b,dc=u\", minimum 1 }")?;
    let base = parse(rt.alloc(), b"ou=b,dc=u")?;
    let below = parse(rt.alloc(), b"cn=a,ou=b,dc=u")?;
    assert!(rt; !holds_name(&spec, &base));
    assert!(rt; holds_name(&spec, &below));
    Ok(())
}

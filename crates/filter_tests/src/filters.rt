//! Filters over entries: the examples of RFC 4515, the three values, each syntax, classes, and permission.
use crate::fixtures::{Values, entry};
use crate::grants::AllBut;
use crate::steps::Step::{
    self, And, Approx, AtLeast, AtMost, Equal, Extensible, Not, Or, Parts, Present,
};
use crate::steps::filter;
use dir_tree::schema_tables::AttrId;
use filter_match::{Truth, evaluate, is_true, prepare_filter};
use std::alloc::Global;
use std::process::Abort;
use std::test::*;

// What a row is about, the steps of a filter, and what it is of the entry.
type Row = (&'static str, &'static [Step], Truth);

// The filter of each row is what it says, and `is_true` tells whether it is True.
fn check(
    rt: &impl Abort,
    alloc: Global,
    values: Values,
    grants: &AllBut,
    rows: &'static [Row],
) -> Result<(), Fail> {
    let entry = entry(alloc, values)?;
    for (what, steps, want) in rows {
        let filter = filter(alloc, steps)?;
        let prepared = prepare_filter(alloc, &filter)?;
        assert_eq!(rt; evaluate(&prepared, &entry, grants), *want, "{what}");
        assert_eq!(rt;
            is_true(&prepared, &entry, grants),
            *want == Truth::True,
            "{what}"
        );
    }
    Ok(())
}

// All is granted: no entry of the tests has the type or the value that isn't.
fn all() -> AllBut {
    AllBut::new(AttrId::SUBENTRY_ACI, "")
}

const BABS: Values = &[
    ("objectClass", "inetOrgPerson"),
    ("cn", "Babs Jensen"),
    ("cn", "Barbara Jensen"),
    ("sn", "Jensen"),
    ("o", "University of Michigan"),
    ("o", "Parens R Us (for all your parenthetical needs)"),
];

const TIM: Values = &[
    ("objectClass", "inetOrgPerson"),
    ("cn", "Tim Howes"),
    ("cn", "Tim * Howes"),
    ("sn", "Lu\u{10d}i\u{107}"),
];

const EXAMPLES_OF_BABS: &[Row] = &[
    (
        "(cn=Babs Jensen)",
        &[Equal("cn", "Babs Jensen")],
        Truth::True,
    ),
    (
        "(!(cn=Tim Howes))",
        &[Equal("cn", "Tim Howes"), Not],
        Truth::True,
    ),
    (
        "(&(objectClass=Person)(|(sn=Jensen)(cn=Babs J*)))",
        &[
            Equal("objectClass", "Person"),
            Equal("sn", "Jensen"),
            Parts("cn", Some("Babs J"), &[], None),
            Or(2),
            And(2),
        ],
        Truth::True,
    ),
    (
        "(o=univ*of*mich*)",
        &[Parts("o", Some("univ"), &["of", "mich"], None)],
        Truth::True,
    ),
    ("(seeAlso=)", &[Equal("seeAlso", "")], Truth::False),
    (
        "(cn:caseExactMatch:=Fred Flintstone)",
        &[Extensible("\u{81}\u{0e}caseExactMatch")],
        Truth::Undefined,
    ),
    (
        "(o=Parens R Us \\28for all your parenthetical needs\\29)",
        &[Equal("o", "Parens R Us (for all your parenthetical needs)")],
        Truth::True,
    ),
    (
        "(cn=*\\2A*)",
        &[Parts("cn", None, &["*"], None)],
        Truth::False,
    ),
    (
        "(filename=C:\\5cMyFile)",
        &[Equal("filename", "C:\\MyFile")],
        Truth::Undefined,
    ),
    (
        "(bin=\\00\\00\\00\\04)",
        &[Equal("bin", "\0\0\0\u{4}")],
        Truth::Undefined,
    ),
    (
        "(1.3.6.1.4.1.1466.0=\\04\\02\\48\\69)",
        &[Equal("1.3.6.1.4.1.1466.0", "\u{4}\u{2}Hi")],
        Truth::Undefined,
    ),
    (
        "(sn=Lu\\c4\\8di\\c4\\87)",
        &[Equal("sn", "Lu\u{10d}i\u{107}")],
        Truth::False,
    ),
];

const EXAMPLES_OF_TIM: &[Row] = &[
    (
        "(cn=Babs Jensen)",
        &[Equal("cn", "Babs Jensen")],
        Truth::False,
    ),
    (
        "(!(cn=Tim Howes))",
        &[Equal("cn", "Tim Howes"), Not],
        Truth::False,
    ),
    (
        "(&(objectClass=Person)(|(sn=Jensen)(cn=Babs J*)))",
        &[
            Equal("objectClass", "Person"),
            Equal("sn", "Jensen"),
            Parts("cn", Some("Babs J"), &[], None),
            Or(2),
            And(2),
        ],
        Truth::False,
    ),
    (
        "(cn=*\\2A*)",
        &[Parts("cn", None, &["*"], None)],
        Truth::True,
    ),
    (
        "(sn=Lu\\c4\\8di\\c4\\87)",
        &[Equal("sn", "LU\u{10c}I\u{106}")],
        Truth::True,
    ),
];

#[test]
fn the_examples_of_rfc_4515_are_answered(rt: HostRuntime) -> Result<(), Fail> {
    check(&rt, rt.alloc(), BABS, &all(), EXAMPLES_OF_BABS)?;
    check(&rt, rt.alloc(), TIM, &all(), EXAMPLES_OF_TIM)
}

// Of Babs an item that is True, one that is False, and one that is Undefined.
const YES: Step = Present("cn");

const NO: Step = Present("mail");

const UNKNOWN: Step = Present("shoeSize");

const THREE_VALUES: &[Row] = &[
    ("not true", &[YES, Not], Truth::False),
    ("not false", &[NO, Not], Truth::True),
    ("not undefined", &[UNKNOWN, Not], Truth::Undefined),
    ("not not undefined", &[UNKNOWN, Not, Not], Truth::Undefined),
    ("and of none", &[And(0)], Truth::True),
    ("or of none", &[Or(0)], Truth::False),
    ("true and true", &[YES, YES, And(2)], Truth::True),
    ("true and false", &[YES, NO, And(2)], Truth::False),
    (
        "true and undefined",
        &[YES, UNKNOWN, And(2)],
        Truth::Undefined,
    ),
    ("false and undefined", &[NO, UNKNOWN, And(2)], Truth::False),
    ("undefined and false", &[UNKNOWN, NO, And(2)], Truth::False),
    (
        "undefined and undefined",
        &[UNKNOWN, UNKNOWN, And(2)],
        Truth::Undefined,
    ),
    ("false or false", &[NO, NO, Or(2)], Truth::False),
    ("false or true", &[NO, YES, Or(2)], Truth::True),
    ("true or undefined", &[YES, UNKNOWN, Or(2)], Truth::True),
    ("undefined or true", &[UNKNOWN, YES, Or(2)], Truth::True),
    (
        "false or undefined",
        &[NO, UNKNOWN, Or(2)],
        Truth::Undefined,
    ),
    (
        "undefined or undefined",
        &[UNKNOWN, UNKNOWN, Or(2)],
        Truth::Undefined,
    ),
    (
        "a settled and before others",
        &[NO, YES, And(2), YES, UNKNOWN, Or(2), YES, And(2), Or(2)],
        Truth::True,
    ),
    (
        "approximate",
        &[Approx("cn", "Babs Jensen")],
        Truth::Undefined,
    ),
];

#[test]
fn and_or_and_not_have_three_values(rt: HostRuntime) -> Result<(), Fail> {
    check(&rt, rt.alloc(), BABS, &all(), THREE_VALUES)
}

const OF_EACH_SYNTAX: Values = &[
    ("objectClass", "organizationalPerson"),
    ("cn", "Ann  Lee"),
    ("mail", "Ann@Example.com"),
    ("telephoneNumber", "+1 555-0100"),
    ("c", "US"),
    ("userPassword", "Secret"),
    ("member", "cn=Bob,dc=Example"),
    ("administrativeRole", "autonomousArea"),
    ("entryACI", "{ }"),
];

const SYNTAXES: &[Row] = &[
    (
        "a text",
        &[
            Equal("commonName", "ann lee"),
            Equal("cn", " ann LEE"),
            Or(2),
        ],
        Truth::True,
    ),
    ("another text", &[Equal("cn", "AnnLee")], Truth::False),
    ("an empty text", &[Equal("cn", "")], Truth::Undefined),
    (
        "parts of a text",
        &[Parts("cn", Some("ANN "), &[], Some("lee"))],
        Truth::True,
    ),
    (
        "parts over each other",
        &[Parts("cn", Some("ann le"), &[], Some("lee"))],
        Truth::False,
    ),
    ("a text from here on", &[AtLeast("cn", "Ann")], Truth::True),
    ("a text up to here", &[AtMost("cn", "Ann")], Truth::False),
    (
        "a text up to itself",
        &[AtMost("cn", "ANN LEE"), AtLeast("cn", "ann lee"), And(2)],
        Truth::True,
    ),
    (
        "an ASCII text",
        &[Equal("mail", "ann@example.COM")],
        Truth::True,
    ),
    (
        "no ASCII text",
        &[Equal("mail", "\u{e4}nn@example.com")],
        Truth::Undefined,
    ),
    (
        "a part that is no ASCII text",
        &[Parts("mail", None, &["\u{e4}"], None)],
        Truth::Undefined,
    ),
    (
        "a telephone number",
        &[Equal("2.5.4.20", "+15550100")],
        Truth::True,
    ),
    (
        "a part of a telephone number",
        &[Parts("telephoneNumber", None, &["5 5-5 01"], None)],
        Truth::True,
    ),
    ("a country", &[Equal("c", "us")], Truth::True),
    (
        "three letters for a country",
        &[Equal("c", "USA")],
        Truth::Undefined,
    ),
    (
        "a letter of a country",
        &[Parts("c", Some("u"), &[], None)],
        Truth::True,
    ),
    ("octets", &[Equal("userPassword", "Secret")], Truth::True),
    (
        "other octets",
        &[Equal("userPassword", "secret")],
        Truth::False,
    ),
    (
        "order of octets",
        &[AtLeast("userPassword", "A")],
        Truth::Undefined,
    ),
    (
        "parts of octets",
        &[Parts("userPassword", Some("S"), &[], None)],
        Truth::Undefined,
    ),
    (
        "a name",
        &[Equal("member", "CN = bob , dc=example")],
        Truth::True,
    ),
    ("another name", &[Equal("member", "cn=bob")], Truth::False),
    ("no name", &[Equal("member", "bob")], Truth::Undefined),
    (
        "order of names",
        &[AtMost("member", "cn=bob")],
        Truth::Undefined,
    ),
    (
        "parts of a name",
        &[Parts("member", Some("cn"), &[], None)],
        Truth::Undefined,
    ),
    (
        "an identifier",
        &[Equal("administrativeRole", "2.5.23.1")],
        Truth::True,
    ),
    (
        "another identifier",
        &[Equal("administrativeRole", "1.2.3")],
        Truth::False,
    ),
    (
        "no identifier",
        &[Equal("administrativeRole", "no such role")],
        Truth::Undefined,
    ),
    (
        "order of identifiers",
        &[AtLeast("objectClass", "person")],
        Truth::Undefined,
    ),
    (
        "an access control item",
        &[Equal("entryACI", "{ }")],
        Truth::True,
    ),
    (
        "order of access control items",
        &[AtLeast("entryACI", "{ }")],
        Truth::Undefined,
    ),
    (
        "a type with an option",
        &[Equal("cn;lang-en", "Ann Lee")],
        Truth::Undefined,
    ),
];

#[test]
fn each_syntax_matches_by_its_rule(rt: HostRuntime) -> Result<(), Fail> {
    check(&rt, rt.alloc(), OF_EACH_SYNTAX, &all(), SYNTAXES)
}

const CLASSES: &[Row] = &[
    (
        "its own",
        &[Equal("objectClass", "organizationalPerson")],
        Truth::True,
    ),
    (
        "its superclass",
        &[Equal("objectClass", "PERSON")],
        Truth::True,
    ),
    (
        "the superclass of that",
        &[Equal("objectClass", "2.5.6.0")],
        Truth::True,
    ),
    (
        "a subclass",
        &[Equal("objectClass", "inetOrgPerson")],
        Truth::False,
    ),
    (
        "another class",
        &[Equal("objectClass", "device")],
        Truth::False,
    ),
    (
        "a class outside the table",
        &[Equal("objectClass", "1.2.3")],
        Truth::False,
    ),
    (
        "no class",
        &[Equal("objectClass", "no such class")],
        Truth::Undefined,
    ),
];

#[test]
fn a_class_matches_with_its_superclasses(rt: HostRuntime) -> Result<(), Fail> {
    check(&rt, rt.alloc(), OF_EACH_SYNTAX, &all(), CLASSES)
}

const WITHOUT_CN: &[Row] = &[
    (
        "a value of it",
        &[Equal("cn", "Babs Jensen")],
        Truth::Undefined,
    ),
    ("no value of it", &[Equal("cn", "Ann")], Truth::Undefined),
    (
        "not a value of it",
        &[Equal("cn", "Ann"), Not],
        Truth::Undefined,
    ),
    ("its presence", &[Present("cn")], Truth::Undefined),
    ("another type", &[Equal("sn", "Jensen")], Truth::True),
];

const WITHOUT_MAIL: &[Row] = &[(
    "the presence of a type that isn't there",
    &[NO],
    Truth::Undefined,
)];

#[test]
fn without_permission_on_its_type_an_item_is_undefined(rt: HostRuntime) -> Result<(), Fail> {
    check(
        &rt,
        rt.alloc(),
        BABS,
        &AllBut::new(AttrId::CN, ""),
        WITHOUT_CN,
    )?;
    check(
        &rt,
        rt.alloc(),
        BABS,
        &AllBut::new(AttrId::MAIL, ""),
        WITHOUT_MAIL,
    )
}

const WITHOUT_A_NAME: &[Row] = &[
    ("the value", &[Equal("cn", "Babs Jensen")], Truth::False),
    (
        "not the value",
        &[Equal("cn", "Babs Jensen"), Not],
        Truth::True,
    ),
    (
        "another value",
        &[Equal("cn", "Barbara Jensen")],
        Truth::True,
    ),
    (
        "a part of both",
        &[Parts("cn", None, &["jens"], None)],
        Truth::True,
    ),
    (
        "a part of the value alone",
        &[Parts("cn", Some("babs"), &[], None)],
        Truth::False,
    ),
    ("presence", &[Present("cn")], Truth::True),
];

const WITHOUT_A_LAST_NAME: &[Row] = &[
    ("the value", &[Equal("sn", "Jensen")], Truth::False),
    (
        "presence, which asks for no value",
        &[Present("sn")],
        Truth::True,
    ),
];

#[test]
fn without_permission_on_a_value_it_does_not_match(rt: HostRuntime) -> Result<(), Fail> {
    check(
        &rt,
        rt.alloc(),
        BABS,
        &AllBut::new(AttrId::MAIL, "Babs Jensen"),
        WITHOUT_A_NAME,
    )?;
    check(
        &rt,
        rt.alloc(),
        BABS,
        &AllBut::new(AttrId::MAIL, "Jensen"),
        WITHOUT_A_LAST_NAME,
    )
}

// Filters that are not True of Babs by what she has.
const NOT_OF_BABS: &[(&str, &[Step])] = &[
    ("another value", &[Equal("cn", "Tim Howes")]),
    (
        "a type that isn't there",
        &[Equal("mail", "babs@example.com")],
    ),
    ("another class", &[Equal("objectClass", "device")]),
    ("no presence", &[Present("mail")]),
    ("one of none", &[Equal("cn", "Tim"), Present("mail"), Or(2)]),
    (
        "the second of an and",
        &[Present("cn"), Equal("cn", "Tim Howes"), And(2)],
    ),
    (
        "a value beside a not",
        &[Present("mail"), Not, Equal("cn", "Tim Howes"), And(2)],
    ),
];

#[test]
fn what_does_not_match_costs_no_question(rt: HostRuntime) -> Result<(), Fail> {
    let babs = entry(rt.alloc(), BABS)?;
    for (what, steps) in NOT_OF_BABS {
        let filter = filter(rt.alloc(), steps)?;
        let prepared = prepare_filter(rt.alloc(), &filter)?;
        let grants = all();
        assert!(rt; !is_true(&prepared, &babs, &grants), "{what}");
        assert_eq!(rt; grants.asked(), 0, "{what}");
    }
    Ok(())
}

//! Records of a data file, loaded: the entries that they leave, and each fault with its line and cause.
use crate::reading::read_all;
use dir_tree::dn_names::print;
use dir_tree::schema_tables::row;
use dir_tree::{Entry, Scope, Tree};
use ldif_load::ldif_records::{BadLine, KindText, Record, RecordLine, RecordLines};
use ldif_load::{LoadFault, load_record};
use std::alloc::Global;
use std::str;
use std::test::Fail;
use wire_io::plain_values::Octets;

// Loads the records of a file in order, up to the first fault.
fn load_all(alloc: Global, tree: &mut Tree, text: &[u8]) -> Result<Result<(), LoadFault>, BadLine> {
    for record in read_all(alloc, text)? {
        if let Err(fault) = load_record(alloc, tree, record) {
            return Ok(Err(fault));
        }
    }
    Ok(Ok(()))
}

// What was answered, as text.
fn told(alloc: Global, answer: Result<(), LoadFault>) -> Result<String, Fail> {
    match answer {
        Ok(()) => Ok(format!(in alloc; "loaded")?),
        Err(fault) => Ok(format!(in alloc; "{fault}")?),
    }
}

// What loading the records answers.
fn answer(alloc: Global, tree: &mut Tree, text: &str) -> Result<String, Fail> {
    let answer = load_all(alloc, tree, text.as_bytes())?;
    told(alloc, answer)
}

// Appends a line of an entry: its name, and each type with the octets of its values.
fn put_line(alloc: Global, out: &mut String, entry: &Entry) -> Result<(), Fail> {
    print(alloc, entry.name(), out)?;
    for index in 0..entry.kinds() {
        let kind = entry.kind_at(index).ok_or("no type at the index")?;
        write!(out, " {}=", row(kind).ok_or("no such type")?.name)?;
        for value in entry.values(kind) {
            write!(out, "{};", str::from_utf8(value.octets())?)?;
        }
    }
    out.push('\n')?;
    Ok(())
}

// The entries in the order of their names, each on a line.
fn shown(alloc: Global, tree: &Tree) -> Result<String, Fail> {
    let mut out = String::new(alloc);
    if let Some(suffix) = tree.suffix() {
        for no in tree.below(suffix, Scope::Sub) {
            put_line(
                alloc,
                &mut out,
                tree.at(no).ok_or("no entry of the number")?,
            )?;
        }
    }
    Ok(out)
}

// A file, and the entries that are loaded of it.
static LOADED: [(&str, &str); 4] = [
    (
        "dn: dc=Example\nobjectClass: domain\n",
        "dc=Example objectClass=domain; dc=Example;\n",
    ),
    (
        "dn: dc=Example\ndc: EXAMPLE\nobjectClass: domain\n",
        "dc=Example dc=EXAMPLE; objectClass=domain;\n",
    ),
    (
        "version: 1\n\ndn: dc=a\nobjectClass: domain\nobjectClass: top\n\ndn: ou=z,dc=A\nobjectClass: organizationalUnit\n\n\
             dn: ou=y,dc=a\nobjectClass: organizationalUnit\nou: x\n\ndn: ou=w,ou=z,dc=a\nobjectClass: organizationalUnit",
        "dc=a objectClass=domain;top; dc=a;\nou=y,dc=a objectClass=organizationalUnit; ou=x;y;\n\
             ou=z,dc=A objectClass=organizationalUnit; ou=z;\nou=w,ou=z,dc=a objectClass=organizationalUnit; ou=w;\n",
    ),
    (
        "dn: dc=a\nobjectClass: domain\n\ndn: cn=A+sn=B,dc=a\nobjectClass: person\nsn: C\n",
        "dc=a objectClass=domain; dc=a;\ncn=A+sn=B,dc=a objectClass=person; sn=C;B; cn=A;\n",
    ),
];

// What loading a file into a tree answers, and the entries then.
fn left(alloc: Global, tree: &mut Tree, text: &str) -> Result<(String, String), Fail> {
    let found = answer(alloc, tree, text)?;
    Ok((found, shown(alloc, tree)?))
}

// The same of an empty tree.
fn loaded(alloc: Global, text: &str) -> Result<(String, String), Fail> {
    let mut tree = Tree::new(alloc);
    left(alloc, &mut tree, text)
}

#[test]
fn entries_stand_in_the_order_of_their_names_with_their_own_values_last(
    rt: HostRuntime,
) -> Result<(), Fail> {
    for (text, want) in &LOADED {
        let (found, entries) = loaded(rt.alloc(), text)?;
        let (found, entries) = (found.as_str(), entries.as_str());
        assert_eq!(rt; (found, entries), ("loaded", *want), "{text:?}");
    }
    Ok(())
}

// A file, and its first fault.
static FAULTS: [(&str, &str); 15] = [
    ("dn:\nobjectClass: domain\n", "line 1: name"),
    ("dn:    \nobjectClass: domain\n", "line 1: name"),
    ("# c\ndn: zz=a\nzz: x\n", "line 2: name"),
    ("dn: dc=a\nzz: x\nobjectClass: none\n", "line 2: type"),
    (
        "dn: dc=a\nobjectClass: domain\nDC: b\n2.5.4.999: x\n",
        "line 4: type",
    ),
    ("dn: dc=a\nobjectClass: none\nzz: x\n", "line 2: value"),
    (
        "dn: dc=a\nobjectClass: domain\nseeAlso: a=b\n",
        "line 3: value",
    ),
    (
        "dn: dc=a\nobjectClass: domain\ndescription: x\nobjectClass: DOMAIN\nzz: x\n",
        "line 4: twice",
    ),
    (
        "dn: dc=a\nobjectClass: domain\n\ndn: DC= A\nobjectClass: top\n",
        "line 4: twice",
    ),
    (
        "dn: dc=a\nobjectClass: domain\n\ndn: dc=b\nobjectClass: top\n",
        "line 4: order",
    ),
    (
        "dn: dc=a\nobjectClass: domain\n\ndn: ou=b,ou=c,dc=a\nobjectClass: top\n",
        "line 4: order",
    ),
    ("dn: dc=a\ndescription: x\n", "line 1: rule 65"),
    ("dn: dc=a\nobjectClass: top\n", "line 1: rule 65"),
    (
        "dn: dc=a\nobjectClass: domain\n\ndn: cn=b,dc=a\nobjectClass: person\n",
        "line 4: rule 65",
    ),
    ("dn: dc=a\nobjectClass: domain\ndc: b\n", "line 1: rule 19"),
];

// What loading a file into an empty tree answers.
fn answer_alone(alloc: Global, text: &str) -> Result<String, Fail> {
    let mut tree = Tree::new(alloc);
    answer(alloc, &mut tree, text)
}

#[test]
fn the_first_fault_is_told_with_its_line(rt: HostRuntime) -> Result<(), Fail> {
    for (text, want) in &FAULTS {
        let found = answer_alone(rt.alloc(), text)?;
        assert_eq!(rt; found.as_str(), *want, "{text:?}");
    }
    Ok(())
}

// A domain, and its entry.
const DOMAIN: &str = "dn: dc=a\nobjectClass: domain\n";

const ENTRY: &str = "dc=a objectClass=domain; dc=a;\n";

// A record with a fault, where the domain is loaded, and the fault.
static LEFT: [(&str, &str); 4] = [
    (DOMAIN, "line 1: twice"),
    (
        "dn: ou=c,ou=b,dc=a\nobjectClass: organizationalUnit\n",
        "line 1: order",
    ),
    (
        "dn: ou=b,dc=a\nobjectClass: organizationalUnit\nou: b\nou: B\n",
        "line 4: twice",
    ),
    ("dn: ou=b,dc=a\nobjectClass: domain\n", "line 1: rule 65"),
];

#[test]
fn a_record_with_a_fault_leaves_the_tree(rt: HostRuntime) -> Result<(), Fail> {
    let mut tree = Tree::new(rt.alloc());
    let loaded = answer(rt.alloc(), &mut tree, DOMAIN)?;
    assert_eq!(rt; loaded.as_str(), "loaded");
    for (text, want) in &LEFT {
        let (found, entries) = left(rt.alloc(), &mut tree, text)?;
        let (found, entries) = (found.as_str(), entries.as_str());
        assert_eq!(rt; (found, entries), (*want, ENTRY), "{text:?}");
    }
    Ok(())
}

// A line of octets all alike.
fn long_line(alloc: Global, line: u64, kind: &str, count: usize) -> Result<RecordLine, Fail> {
    let mut value = Vec::new(alloc);
    for _ in 0..count {
        value.push(b'x')?;
    }
    Ok(RecordLine {
        line,
        kind: KindText::from_slice(alloc, kind.as_bytes())?,
        value: Octets::from_vec(value),
    })
}

// A domain with a password of so many octets.
fn with_password(alloc: Global, count: usize) -> Result<Record, Fail> {
    let mut lines = Vec::new(alloc);
    lines.push(RecordLine {
        line: 8,
        kind: KindText::from_slice(alloc, b"objectClass")?,
        value: Octets::from_vec(b"domain".to_vec(alloc)?),
    })?;
    lines.push(long_line(alloc, 9, "userPassword", count)?)?;
    Ok(Record {
        line: 7,
        name: Octets::from_vec(b"dc=a".to_vec(alloc)?),
        lines: RecordLines::from_vec(lines),
    })
}

// How many octets a value has, and what loading its record answers.
static OCTETS: [(usize, &str); 3] = [(0, "loaded"), (65_536, "loaded"), (65_537, "line 9: value")];

// What loading a domain with a password of so many octets answers.
fn answer_of(alloc: Global, count: usize) -> Result<String, Fail> {
    let mut tree = Tree::new(alloc);
    let record = with_password(alloc, count)?;
    told(alloc, load_record(alloc, &mut tree, record))
}

#[test]
fn a_value_has_at_most_65536_octets(rt: HostRuntime) -> Result<(), Fail> {
    for (count, want) in &OCTETS {
        let found = answer_of(rt.alloc(), *count)?;
        assert_eq!(rt; found.as_str(), *want, "{count} octets");
    }
    Ok(())
}

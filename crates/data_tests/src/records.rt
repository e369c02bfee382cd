//! Data files: what RFC 2849 makes of each form of line, and each bad line with its number and cause.

ghost use Rattle.std.specs.Prelude.{IfOk};
ghost use Rattle.ldif_load.specs.ldif_records.writing.Written.{AreInTable};

use crate::reading::read_all;
use dir_tree::Entry;
use dir_tree::dn_names::{make_value, parse};
use dir_tree::schema_tables::attr;
use ldif_load::ldif_records::{
    BadLine, LineCause, Position, Record, RecordLines, next_record, put_entry,
};
use std::alloc::Global;
use std::process::Abort;
use std::test::Fail;

// A record as text: each line by its number, its type and its value.
fn shown(alloc: Global, records: &[Record]) -> Result<Vec<u8>, Fail> {
    let mut out = Vec::new(alloc);
    for record in records {
        out.extend_from_slice(format!(in alloc; "{} dn ", record.line)?.as_bytes())?;
        out.extend_from_slice(record.name.as_slice())?;
        out.push(b'\n')?;
        for line in record.lines.as_slice() {
            out.extend_from_slice(format!(in alloc; "{} ", line.line)?.as_bytes())?;
            out.extend_from_slice(line.kind.as_slice())?;
            out.push(b' ')?;
            out.extend_from_slice(line.value.as_slice())?;
            out.push(b'\n')?;
        }
    }
    Ok(out)
}

// Each file of the rows has its records.
fn check_records(
    rt: &impl Abort,
    alloc: Global,
    rows: &'static [(&'static str, &'static str)],
) -> Result<(), Fail> {
    for (text, want) in rows {
        let records = read_all(alloc, text.as_bytes())?;
        let found = shown(alloc, &records)?;
        assert_eq!(rt; found.as_slice(), want.as_bytes(), "{text:?}");
    }
    Ok(())
}

// Files without a record.
static NONE: [(&str, &str); 5] = [
    ("", ""),
    ("\n\r\n\n", ""),
    ("# c\n# d\n  e", ""),
    ("version: 1\n", ""),
    ("version: 1", ""),
];

#[test]
fn files_without_a_record_give_none(rt: HostRuntime) -> Result<(), Fail> {
    check_records(&rt, rt.alloc(), &NONE)
}

// A file, and its records as text.
static LINES: [(&str, &str); 10] = [
    ("# c\nversion: 1\n\ndn: dc=t\na: x\n", "4 dn dc=t\n5 a x\n"),
    ("vers\n ion: 1\ndn: dc=t\na: x", "3 dn dc=t\n4 a x\n"),
    ("\n\ndn: dc=t\r\na: x\r\n\r\n", "3 dn dc=t\n4 a x\n"),
    (
        "dn: dc=t\na: x\n\n\ndn: dc=u\nb: y\n",
        "1 dn dc=t\n2 a x\n5 dn dc=u\n6 b y\n",
    ),
    ("dn: d\n c=\n t\na: x\n  y\n", "1 dn dc=t\n4 a x y\n"),
    ("dn: dc=t\na: x\n\n b: y\n", "1 dn dc=t\n2 a x\n3 b y\n"),
    ("dn: dc=t\na\n b:\n  x\n", "1 dn dc=t\n2 ab x\n"),
    (
        "dn: dc=t\n# c\n  d\na: x\n#\nb: y",
        "1 dn dc=t\n4 a x\n6 b y\n",
    ),
    ("dn:dc=t\na:   x  \n", "1 dn dc=t\n2 a x  \n"),
    ("dn: dc=t\na:\nb: \n", "1 dn dc=t\n2 a \n3 b \n"),
];

#[test]
fn records_are_read_with_their_lines(rt: HostRuntime) -> Result<(), Fail> {
    check_records(&rt, rt.alloc(), &LINES)
}

// A file, and its records as text.
static VALUES: [(&str, &str); 10] = [
    ("dn: dc=t\na: : x\nb: <y\n", "1 dn dc=t\n2 a : x\n3 b <y\n"),
    ("dn: dc=t\na: x\ry\n", "1 dn dc=t\n2 a x\ry\n"),
    ("dn: dc=t\na: x\r\r\n", "1 dn dc=t\n2 a x\r\n"),
    ("dn: dc=t\na: x\r", "1 dn dc=t\n2 a x\r\n"),
    ("dn: dc=t\na: \u{E9}\0\n", "1 dn dc=t\n2 a \u{E9}\0\n"),
    ("dn:: ZGM9dA==\na::  YWI=\n", "1 dn dc=t\n2 a ab\n"),
    ("dn: dc=t\na::YQ\n ==\nb::\n", "1 dn dc=t\n2 a a\n4 b \n"),
    ("dn:\na-1: x\n", "1 dn \n2 a-1 x\n"),
    (
        "dn: dc=t\n2.5.4.0: x\n0.10: y\n",
        "1 dn dc=t\n2 2.5.4.0 x\n3 0.10 y\n",
    ),
    (
        "dn: dc=t\ndn: x\nversion: 1\n",
        "1 dn dc=t\n2 dn x\n3 version 1\n",
    ),
];

#[test]
fn values_are_read_as_they_stand_or_from_base64(rt: HostRuntime) -> Result<(), Fail> {
    check_records(&rt, rt.alloc(), &VALUES)
}

// The number of the line that is bad for the cause, where there is one.
fn bad_line(alloc: Global, text: &str, why: LineCause) -> Option<u64> {
    match read_all(alloc, text.as_bytes()) {
        Err(BadLine::Bad { line, cause }) => { if cause == why { Some(line) } else { None } }
        _ => None,
    }
}

// Each file of the rows has its bad line, for the cause.
fn check_bad_lines(
    rt: &impl Abort,
    alloc: Global,
    why: LineCause,
    rows: &'static [(&'static str, u64)],
) {
    for (text, number) in rows {
        let bad = bad_line(alloc, text, why);
        assert_eq!(rt; bad, Some(*number), "{text:?}");
    }
}

// A file, and its bad line.
static NO_START: [(&str, u64); 14] = [
    ("version: 2\n", 1),
    ("version:1\n\ndn: dc=t\na: x\n", 1),
    ("\nversion: 1\n", 2),
    ("version: 1\nversion: 1\n", 2),
    (" dn: dc=t\na: x\n", 1),
    (" \n", 1),
    ("\n  dn: dc=t\na: x\n", 1),
    ("# c\ndn: dc=t\n# d\n\na: x", 2),
    ("dn:: !!", 1),
    ("DN: dc=t\na: x\n", 1),
    ("a: x\ndn: dc=t\n", 1),
    ("changetype: add\na: x\n", 1),
    ("dn\na: x\n", 1),
    ("dn:< x\na: x\n", 1),
];

#[test]
fn a_line_that_starts_no_record_is_bad(rt: HostRuntime) {
    check_bad_lines(&rt, rt.alloc(), LineCause::Syntax, &NO_START)
}

// A file, and its bad line.
static NO_FORM: [(&str, u64); 14] = [
    ("dn: dc=t\na: x\n\n  b: y\n", 3),
    ("dn: dc=t\n", 1),
    ("dn: dc=t\nab\n", 2),
    ("dn: dc=t\n: x\n", 2),
    ("dn: dc=t\na:< x\n", 2),
    ("dn: dc=t\nchangetype:< x\n", 2),
    ("dn: dc=t\na : x\n", 2),
    ("dn: dc=t\na_b: x\n", 2),
    ("dn: dc=t\n1a: x\n", 2),
    ("dn: dc=t\ncn;lang-en: x\n", 2),
    ("dn: dc=t\n1: x\n", 2),
    ("dn: dc=t\n1.02: x\n", 2),
    ("dn: dc=t\n1.2.: x\n", 2),
    ("dn: dc=t\na: x\n  y\n\n# c\n  d\ndn: dc=u\nab\n", 8),
];

#[test]
fn a_line_of_no_form_is_bad(rt: HostRuntime) {
    check_bad_lines(&rt, rt.alloc(), LineCause::Syntax, &NO_FORM)
}

// A file, and its bad line.
static CHANGES: [(&str, u64); 4] = [
    ("version: 1\n\ndn: dc=t\nchangetype: add\n", 4),
    ("dn: dc=t\nChangeTYPE:: YWRk\n", 2),
    ("dn: dc=t\nchangetype:: !!\n", 2),
    ("dn: dc=t\nchange\n type: add\n", 2),
];

#[test]
fn a_change_is_refused_at_its_line(rt: HostRuntime) {
    check_bad_lines(&rt, rt.alloc(), LineCause::Changetype, &CHANGES)
}

// A file, and its bad line.
static BASE64: [(&str, u64); 8] = [
    ("dn:: ZGM9dA\na: x\n", 1),
    ("dn:: !!\nab\n", 1),
    ("dn: dc=t\na:: YQ\n", 2),
    ("dn: dc=t\na:: YR==\n", 2),
    ("dn: dc=t\na:: Y Q==\n", 2),
    ("dn: dc=t\na:: YQ== \n", 2),
    ("dn: dc=t\na::< x\n", 2),
    ("dn: dc=t\na: x\nb:: !\nab\nchangetype: x\n", 3),
];

#[test]
fn base64_is_padded_and_leaves_no_bits(rt: HostRuntime) {
    check_bad_lines(&rt, rt.alloc(), LineCause::Base64, &BASE64)
}

#[test]
fn the_records_before_a_bad_one_are_given(rt: HostRuntime) -> Result<(), Fail> {
    let text = b"dn: dc=t\na: x\n\ndn: dc=u\n".as_slice();
    let start = Position { offset: 0, line: 1 };
    let Some((record, after)) = next_record(rt.alloc(), text, start)? else {
        return Err(Fail::from("no record"));
    };
    assert_eq!(rt; record.line, 1);
    let bad = next_record(rt.alloc(), text, after);
    assert!(rt;
        matches!(
            bad,
            Err(BadLine::Bad {
                line: 4,
                cause: LineCause::Syntax
            })
        )
    );
    Ok(())
}

// The entry with one value more.
fn with(alloc: Global, mut entry: Entry, name: &str, octets: &[u8]) -> Result<Entry, Fail>
    requires { AreInTable entry.attributes }
    ensures { IfOk result (λ entry. AreInTable entry.attributes) }
{
    let Some(kind) = attr(name) else {
        return Err(Fail::from("no such type"));
    };
    let value = make_value(alloc, kind, octets.to_vec(alloc)?)?;
    entry.push(kind, value)?;
    Ok(entry)
}

// What is written of an entry that has one value, after other octets.
fn written(alloc: Global, octets: &[u8]) -> Result<Vec<u8>, Fail> {
    let mut out = b"# c\n".as_slice().to_vec(alloc)?;
    let entry = Entry::new(alloc, parse(alloc, b"DC = t")?)?;
    put_entry(&mut out, &with(alloc, entry, "userPassword", octets)?)?;
    Ok(out)
}

// The octets of a value, and what is written of it behind its type.
static WRITTEN: [(&[u8], &str); 16] = [
    (b"", ": "),
    (b"a", ": a"),
    (b"a b:<", ": a b:<"),
    (b"#", ": #"),
    (b"\x01\x7F", ": \x01\x7F"),
    (b" ", ":: IA=="),
    (b" a", ":: IGE="),
    (b"a ", ":: YSA="),
    (b":a", ":: OmE="),
    (b"<a", ":: PGE="),
    (b"a\nb", ":: YQpi"),
    (b"a\rb", ":: YQ1i"),
    (b"\0", ":: AA=="),
    (b"\x80", ":: gA=="),
    (b"\xFF\xFF\xFF", ":: ////"),
    (b"abcd\xC3\xA9", ":: YWJjZMOp"),
];

#[test]
fn a_value_is_written_as_it_is_or_in_base64(rt: HostRuntime) -> Result<(), Fail> {
    for (octets, want) in &WRITTEN {
        let found = written(rt.alloc(), octets)?;
        let want = format!(in rt.alloc(); "# c\ndn: dc=t\nuserPassword{want}\n")?;
        assert_eq!(rt; found.as_slice(), want.as_bytes(), "{octets:?}");
    }
    Ok(())
}

#[test]
fn an_entry_is_written_value_by_value(rt: HostRuntime) -> Result<(), Fail> {
    let alloc = rt.alloc();
    let entry = Entry::new(alloc, parse(alloc, "cn=\u{E9}".as_bytes())?)?;
    let entry = with(alloc, entry, "sn", b"b")?;
    let entry = with(alloc, entry, "CN", b"A")?;
    let entry = with(alloc, entry, "2.5.4.4", b"a")?;
    let entry = with(alloc, entry, "sn", b"B")?;
    let mut out = Vec::new(alloc);
    put_entry(&mut out, &entry)?;
    let want = b"dn:: Y249w6k=\nsn: b\nsn: a\ncn: A\n".as_slice();
    assert_eq!(rt; out.as_slice(), want);
    Ok(())
}

#[test]
fn the_lines_of_a_record_are_taken_and_given_back(rt: HostRuntime) -> Result<(), Fail> {
    let mut records = read_all(rt.alloc(), b"dn: dc=t\na: x\nb: y\n")?;
    let Record { line, name, lines } = records.pop().ok_or("no record")?;
    let lines = RecordLines::from_vec(lines.into_vec());
    let found = shown(rt.alloc(), &[Record { line, name, lines }])?;
    assert_eq!(rt; found.as_slice(), b"1 dn dc=t\n2 a x\n3 b y\n".as_slice());
    Ok(())
}

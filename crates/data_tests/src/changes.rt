//! Files of changes: written as they were read, and refused at a line (RFC 2849).

use change_records::ldif_records::{BadLine, LineCause};
use change_records::{put_head, put_record, read_file};
use std::alloc::Global;
use std::test::Fail;

// The head of a file of changes of a data file of no octets (FIPS 180-4).
const HEAD: &str =
    "version: 1\n# of sha256 e3b0c44298fc1c149afbf4c8996fb92427ae41e4649b934ca495991b7852b855\n\n";

// A record, and what it is.
static RECORDS: [(&str, &str); 6] = [
    (
        "dn: cn=Fiona Jensen, ou=Marketing, dc=airius, dc=com\nchangetype: add\nobjectclass: top\nobjectclass: person\nobjectclass: organizationalPerson\ncn: Fiona Jensen\nsn: Jensen\nuid: fiona\ntelephonenumber: +1 408 555 1212\n\n",
        "an add",
    ),
    (
        "dn: cn=Robert Jensen, ou=Marketing, dc=airius, dc=com\nchangetype: delete\n\n",
        "a delete",
    ),
    (
        "dn: cn=Paul Jensen, ou=Product Development, dc=airius, dc=com\nchangetype: modrdn\nnewrdn: cn=Paula Jensen\ndeleteoldrdn: 1\n\n",
        "a new name",
    ),
    (
        "dn: ou=PD Accountants, ou=Product Development, dc=airius, dc=com\nchangetype: modrdn\nnewrdn: ou=Product Development Accountants\ndeleteoldrdn: 0\nnewsuperior: ou=Accounting, dc=airius, dc=com\n\n",
        "a new superior",
    ),
    (
        "dn: cn=Paula Jensen, ou=Product Development, dc=airius, dc=com\nchangetype: modify\nadd: postaladdress\npostaladdress: 123 Anystreet $ Sunnyvale, CA $ 94086\n-\ndelete: description\n-\nreplace: telephonenumber\ntelephonenumber: +1 408 555 1234\ntelephonenumber: +1 408 555 5678\n-\ndelete: facsimiletelephonenumber\nfacsimiletelephonenumber: +1 408 555 9876\n-\n\n",
        "a modify of four attributes",
    ),
    (
        "dn:: b3U9w4l0dWRlcyxkYz1leGFtcGxlLGRjPW9yZw==\nchangetype: modify\nreplace: description\ndescription:: w4l0dWRlcw==\n-\n\n",
        "a modify in base64",
    ),
];

// The file of these records, read and written again.
fn written_again(alloc: Global, records: &str) -> Result<Vec<u8>, Fail> {
    let mut text = Vec::new(alloc);
    text.extend_from_slice(HEAD.as_bytes())?;
    text.extend_from_slice(records.as_bytes())?;
    let file = read_file(alloc, &text)?;
    let mut out = Vec::new(alloc);
    put_head(&mut out, &file.digest)?;
    for recorded in &file.changes {
        put_record(&mut out, &recorded.change)?;
    }
    Ok(out)
}

#[test]
fn records_of_rfc_2849_are_written_as_they_were_read(rt: HostRuntime) -> Result<(), Fail> {
    for (record, what) in &RECORDS {
        let out = written_again(rt.alloc(), record)?;
        assert_eq!(rt; out.len(), HEAD.len() + record.len(), "{what}");
        assert!(rt; out.as_slice().ends_with(record.as_bytes()), "{what}");
        assert!(rt; out.as_slice().starts_with(HEAD.as_bytes()), "{what}");
    }
    Ok(())
}

// A record behind a head, and the line and the cause of its refusal.
static REFUSED: [(&str, u64, LineCause, &str); 8] = [
    (
        "dn: dc=com\n\n",
        4,
        LineCause::Syntax,
        "a name without a change",
    ),
    (
        "dn: dc=com\nobjectClass: domain\ndc: com\n\n",
        5,
        LineCause::Syntax,
        "a record of an entry",
    ),
    (
        "dn: dc=com\nchangetype: modify\nadd: description\ndescription: x\n\n",
        5,
        LineCause::Syntax,
        "a modify without its last hyphen",
    ),
    (
        "dn: dc=com\nchangetype: modify\nadd: description\nl: x\n-\n\n",
        7,
        LineCause::Syntax,
        "a value of another type",
    ),
    (
        "dn: dc=com\nchangetype: modify\nincrement: uidNumber\nuidNumber: 1\n-\n\n",
        6,
        LineCause::Syntax,
        "an increment",
    ),
    (
        "dn: dc=com\nchangetype: modrdn\nnewrdn: dc=org\ndeleteoldrdn: 2\n\n",
        7,
        LineCause::Syntax,
        "a flag that is none",
    ),
    (
        "dn: dc=com\nchangetype: delete\n\ndn: dc=org\nchangetype: add\ndc:: b3Jn!\n\n",
        9,
        LineCause::Base64,
        "a value that is not in base64",
    ),
    (
        "dn: dc=com\nchangetype: delete\ndc: com\n\n",
        6,
        LineCause::Syntax,
        "a delete with an attribute",
    ),
];

#[test]
fn a_file_of_changes_is_refused_at_its_first_bad_line(rt: HostRuntime) -> Result<(), Fail> {
    let alloc = rt.alloc();
    for (record, line, cause, what) in &REFUSED {
        let mut text = Vec::new(alloc);
        text.extend_from_slice(HEAD.as_bytes())?;
        text.extend_from_slice(record.as_bytes())?;
        match read_file(alloc, &text) {
            Ok(_) => assert!(rt; false, "{what}"),
            Err(bad) => assert_eq!(rt;
                bad,
                BadLine::Bad {
                    line: *line,
                    cause: *cause
                },
                "{what}"
            ),
        }
    }
    assert!(rt; read_file(alloc, b"version: 1\n\n").is_err(), "no head");
    Ok(())
}

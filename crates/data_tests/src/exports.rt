//! Data files as other programs write them: which are taken, and the line at which the others are refused (RFC 2849).

use data_file::{DataCause, DataFault, load};
use ldif_load::LoadCause;
use ldif_load::ldif_records::LineCause;
use std::test::Fail;

// A file, how many entries it has, and how it came to be.
static TAKEN: [(&str, usize, &str); 2] = [
    // lines end in CR LF, and are folded after 76 octets
    (
        "version: 1\r\n\r\ndn: dc=example,dc=org\r\nobjectClass: domain\r\ndc: example\r\ndescription: The department that answers every question on the register, wha\r\n tever the hour of the day may be\r\n\r\ndn: ou=people,dc=example,dc=org\r\nobjectClass: organizationalUnit\r\nou: people\r\n",
        2,
        "folded lines that end in CR LF",
    ),
    (
        "# extended LDIF\n#\n# LDAPv3\n# base <dc=example,dc=org> with scope subtree\n#\n\n# example.org\ndn: dc=example,dc=org\nobjectClass: domain\ndc: example\n\n# b3U9w4l0dWRlcw==, example.org\ndn:: b3U9w4l0dWRlcyxkYz1leGFtcGxlLGRjPW9yZw==\nobjectClass: organizationalUnit\nou:: w4l0dWRlcw==\n",
        2,
        "what ldapsearch prints, with comments and base64",
    ),
];

#[test]
fn what_clients_print_is_taken(rt: HostRuntime) -> Result<(), Fail> {
    for (text, entries, what) in &TAKEN {
        let tree = load(rt.alloc(), text.as_bytes())?;
        assert_eq!(rt; tree.len(), *entries, "{what}");
    }
    Ok(())
}

// A file, and the line and the cause of its refusal.
static REFUSED: [(&str, u64, DataCause, &str); 6] = [
    (
        "dn: dc=example,dc=org\nobjectClass: domain\ndc: example\nstructuralObjectClass: domain\nentryUUID: 5a3c1b1e-9d0f-1039-8f6b-7d2a1f0f3c11\ncreatorsName: cn=admin,dc=example,dc=org\ncreateTimestamp: 20250101120000Z\n",
        4,
        DataCause::Record(LoadCause::Kind),
        "slapcat: operational attributes",
    ),
    (
        "version: 1\n\n# entry-id: 1\ndn: dc=example,dc=org\nobjectClass: top\nobjectClass: domain\ndc: example\nnsUniqueId: 5a3c1b1e-9d0f1039-8f6b7d2a-1f0f3c11\naci: (targetattr = \"*\")(version 3.0; acl \"all\"; allow (read) userdn = \"ldap:///anyone\";)\n",
        8,
        DataCause::Record(LoadCause::Kind),
        "db2ldif: a unique number",
    ),
    (
        "dn: DC=example,DC=org\nchangetype: add\nobjectClass: domain\ndc: example\n",
        2,
        DataCause::Line(LineCause::Changetype),
        "ldifde: records of changes",
    ),
    (
        "\u{FEFF}dn: dc=example,dc=org\nobjectClass: domain\ndc: example\n",
        1,
        DataCause::Line(LineCause::Syntax),
        "a byte-order mark",
    ),
    (
        "dn: dc=example,dc=org\nobjectClass: domain\ndc: example\n\n# search result\nsearch: 2\nresult: 0 Success\n",
        6,
        DataCause::Line(LineCause::Syntax),
        "ldapsearch: its own last lines",
    ),
    (
        "dn: dc=example,dc=org\nobjectClass: domain\ndc: example\ndescription:< file:///tmp/text\n",
        4,
        DataCause::Line(LineCause::Syntax),
        "a value in a file of its own",
    ),
];

#[test]
fn what_servers_write_of_their_own_is_refused_at_its_line(rt: HostRuntime) -> Result<(), Fail> {
    for (text, line, cause, what) in &REFUSED {
        let found = load(rt.alloc(), text.as_bytes()).err();
        let (line, cause) = (*line, *cause);
        assert_eq!(rt; found, Some(DataFault::Bad { line, cause }), "{what}");
    }
    Ok(())
}

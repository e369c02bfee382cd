//! Names: each refusal with its place or its number (RFC 4514 section 3), and a name that is cut and joined.
use dir_tree::dn_names::{BadName, is_prefix, join, local, parse, parse_rdn, same};
use std::alloc::Global;
use std::test::Fail;

// Why a text is no name. It promises nothing, so that the proof of a test goes by what the test asks.
fn fault(alloc: Global, text: &[u8]) -> Option<BadName> {
    parse(alloc, text).err()
}

// A text outside the grammar, and the place of its first bad octet.
static PLACES: [(&[u8], usize); 22] = [
    (b"dc", 2),
    (b"dc ", 3),
    (b"d_c=x", 1),
    (b"=x", 0),
    (b",cn=a", 0),
    (b"cn a=b", 3),
    (b"1=x", 1),
    (b"1.=x", 2),
    (b"01.2=x", 1),
    (b"1.02=x", 3),
    (b"1.3.6.1.4.1.1466.0=#04024869", 19),
    (b"cn= #1", 4),
    (b"cn=a\"b", 4),
    (b"cn=a\0b", 4),
    (b"cn=a;dc=b", 4),
    (b"cn=\\", 4),
    (b"cn=\\0", 5),
    (b"cn=\\0,", 5),
    (b"cn=\\zz", 4),
    (b"cn=a,", 5),
    (b"cn=a+", 5),
    (b"cn=a,,dc=b", 5),
];

#[test]
fn octets_outside_the_grammar_are_refused_at_their_place(rt: HostRuntime) {
    for (text, place) in &PLACES {
        let place = *place;
        assert_eq!(rt;
            fault(rt.alloc(), text),
            Some(BadName::Text { place }),
            "{text:?}"
        );
    }
}

// A text, and the number of its first bad pair.
static PAIRS: [(&[u8], usize); 13] = [
    (b"dc=", 0),
    (b"cn=a,dc=", 1),
    (b"xx=a", 0),
    (b"1.2.3=a", 0),
    (b"cn=a+xx=b,dc=c", 1),
    (b"cn=a,xx=b,dc=", 1),
    (b"member=a", 0),
    (b"userPassword=a", 0),
    (b"cn=a+CN=b", 1),
    (b"cn=a+uid=b+2.5.4.3=c,dc=", 2),
    (b"cn=\\ff", 0),
    (b"dc=\\c3\\a9", 0),
    (b"c=deu", 0),
];

#[test]
fn the_first_bad_pair_is_refused_by_its_number(rt: HostRuntime) {
    for (text, index) in &PAIRS {
        let index = *index;
        assert_eq!(rt;
            fault(rt.alloc(), text),
            Some(BadName::Part { index }),
            "{text:?}"
        );
    }
}

// A text that is no RDN alone, and why.
static NO_RDNS: [(&[u8], BadName); 6] = [
    (b"", BadName::TooMany),
    (b" ", BadName::TooMany),
    (b"cn=a,dc=b", BadName::TooMany),
    (b"xx=a,dc=b", BadName::TooMany),
    (b"xx=a", BadName::Part { index: 0 }),
    (b"cn", BadName::Text { place: 2 }),
];

#[test]
fn an_rdn_is_read_alone(rt: HostRuntime) {
    for (text, want) in &NO_RDNS {
        let found = parse_rdn(rt.alloc(), text).err();
        assert_eq!(rt; found, Some(*want), "{text:?}");
    }
}

#[test]
fn a_name_is_cut_and_joined(rt: HostRuntime) -> Result<(), Fail> {
    let alloc = rt.alloc();
    let (point, whole) = (parse(alloc, b"dc=t")?, parse(alloc, b"cn=a,dc=t")?);
    assert!(rt; is_prefix(&point, &whole));
    let below = local(alloc, &point, &whole)?;
    assert!(rt; same(&below, &parse(alloc, b"cn=a")?));
    assert!(rt; same(&join(alloc, &point, &below)?, &whole));
    Ok(())
}

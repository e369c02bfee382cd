//! Which stored values accept which passwords.
use op_bind::accepts;
use std::process::Abort;
use std::test::Fail;

// A stored value, a password, and whether it is accepted.
type Row = (&'static [u8], &'static [u8], bool);

static ROWS: [Row; 29] = [
    // in clear
    (b"bob1", b"bob1", true),
    (b"bob1", b"bob2", false),
    (b"bob1", b"Bob1", false),
    (b"bob1", b"bob1 ", false),
    (b"bob1", b"", false),
    (b"", b"", true),
    (b"", b"x", false),
    (b"\x00\xff", b"\x00\xff", true),
    (b"a{", b"a{", true),
    (b" {SHA256}", b" {SHA256}", true),
    // digests
    (
        b"{SHA256}ungWv48Bz+pBQUDeXa4iI7ADYaOWF3qctBD/YfIAFa0=",
        b"abc",
        true,
    ),
    (
        b"{SHA256}ungWv48Bz+pBQUDeXa4iI7ADYaOWF3qctBD/YfIAFa0=",
        b"abd",
        false,
    ),
    (
        b"{SHA256}ungWv48Bz+pBQUDeXa4iI7ADYaOWF3qctBD/YfIAFa0=",
        b"{SHA256}ungWv48Bz+pBQUDeXa4iI7ADYaOWF3qctBD/YfIAFa0=",
        false,
    ),
    (
        b"{SHA256}ungWv48Bz+pBQUDeXa4iI7ADYaOWF3qctBD/YfIAFa0=",
        b"ungWv48Bz+pBQUDeXa4iI7ADYaOWF3qctBD/YfIAFa0=",
        false,
    ),
    (
        b"{SHA256}47DEQpj8HBSa+/TImW+5JCeuQeRkm5NMpJWZG3hSuFU=",
        b"",
        true,
    ),
    (
        b"{SHA256}But9amnuGeX733SQGNPSq/oEvL0TZdsxLrhtxxaTibg=",
        b"\x00\xff",
        true,
    ),
    // of more than one block
    (
        b"{SHA256}JI1qYdIGOLjlwCaTDD5gOaM85Flk/yFn9uzt1BnbBsE=",
        b"abcdbcdecdefdefgefghfghighijhijkijkljklmklmnlmnomnopnopq",
        true,
    ),
    // without the padding, and with more
    (
        b"{SHA256}ungWv48Bz+pBQUDeXa4iI7ADYaOWF3qctBD/YfIAFa0",
        b"abc",
        false,
    ),
    (
        b"{SHA256}ungWv48Bz+pBQUDeXa4iI7ADYaOWF3qctBD/YfIAFa0==",
        b"abc",
        false,
    ),
    // a bit behind the last octet
    (
        b"{SHA256}ungWv48Bz+pBQUDeXa4iI7ADYaOWF3qctBD/YfIAFa1=",
        b"abc",
        false,
    ),
    // the first 31 octets of the digest, and one octet more
    (
        b"{SHA256}ungWv48Bz+pBQUDeXa4iI7ADYaOWF3qctBD/YfIAFQ==",
        b"abc",
        false,
    ),
    (
        b"{SHA256}ungWv48Bz+pBQUDeXa4iI7ADYaOWF3qctBD/YfIAFa0A",
        b"abc",
        false,
    ),
    // the alphabet for file names
    (
        b"{SHA256}ungWv48Bz-pBQUDeXa4iI7ADYaOWF3qctBD_YfIAFa0=",
        b"abc",
        false,
    ),
    // no digest, and other schemes
    (b"{SHA256}", b"{SHA256}", false),
    (b"{SHA256}", b"", false),
    (
        b"{sha256}ungWv48Bz+pBQUDeXa4iI7ADYaOWF3qctBD/YfIAFa0=",
        b"abc",
        false,
    ),
    (b"{SHA}qZk+NkcGgWq6PiVxeFDCbJzQ2J0=", b"abc", false),
    (b"{MD5}x", b"{MD5}x", false),
    (b"{", b"{", false),
];

#[test]
fn a_value_accepts_its_own_octets_or_the_password_of_its_digest(
    rt: HostRuntime,
) -> Result<(), Fail> {
    for (index, (value, password, expected)) in ROWS.iter().enumerate() {
        assert_eq!(rt; accepts(value, password), *expected, "row {index}");
    }
    Ok(())
}

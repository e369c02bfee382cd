//! The stored values of userPassword (RFC 4519 2.41).

ghost use Rattle.std.specs.Prelude.{◌≡◌, ◌&&◌, not};
ghost use Rattle.std.specs.Str.{bytes_eq};
ghost use Rattle.op_bind.specs.Passwords.{digest_text, is_schemed, accepts};

use base64::engine::general_purpose::STANDARD;
use sha2::{Digest, Sha256};

const SCHEME: &[u8] = b"{SHA256}";

// The padded base64 of the password's digest.
fn digest_text(password: &[u8]) -> [u8; 44]
    ensures exact { result ≡ digest_text password.now }
{
    let mut text = [0u8; 44];
    let _ = STANDARD.encode_slice(&Sha256::digest(password), &mut text);
    text
}

// Whether the text is the padded base64 of the password's digest.
fn is_digest_text(text: &[u8], password: &[u8]) -> bool
    ensures exact { result ≡ bytes_eq text.now (digest_text password.now) }
{
    text == digest_text(password).as_slice()
}

// Whether the value begins as one of a scheme does.
fn is_schemed(value: &[u8]) -> bool
    ensures exact { result ≡ is_schemed value.now }
{
    match value.first() {
        Some(first) => *first == b'{',
        None => false,
    }
}

// Whether the value is of no scheme, and the password itself.
fn is_in_clear(value: &[u8], password: &[u8]) -> bool
    ensures exact { result ≡ (not (is_schemed value.now) && bytes_eq value.now password.now) }
{
    !is_schemed(value) && value == password
}

/// Whether a stored value of userPassword accepts the password. A value `{SHA256}` with the padded base64
/// of 32 octets behind it (RFC 4648 4) accepts a password whose SHA-256 (FIPS 180-4) is these octets. The
/// text is the canonical one: one without its padding, of another length, or with bits behind the last
/// octet that are not zero is that of no digest. Any other value that begins with `{` accepts no password,
/// not even one of equal octets. Any other value accepts equal octets alone. No memory is taken.
pub fn accepts(value: &[u8], password: &[u8]) -> bool
    ensures exact { result ≡ accepts value.now password.now }
{
    match value.strip_prefix(SCHEME) {
        Some(text) => is_digest_text(text, password),
        None => is_in_clear(value, password),
    }
}

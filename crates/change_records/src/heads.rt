//! The head of a file of changes.

ghost use Rattle.std.specs.Prelude.{◌≡◌, ◌≤◌, ◌++◌, IfOk, IfSome, OnOk, OnErr, length};
ghost use Rattle.std.specs.Str.{bytes_eq};
ghost use Rattle.std.specs.Result.{result_ok};
ghost use Rattle.hex.specs.Hex.{decode_sized};
ghost use Rattle.change_records.specs.Files.{head_text, headed_by, digest_of};

use crate::types::NoMemory;
use hex::FromHex;
use std::alloc::Global;

/// How many octets a head of a digest of 32 octets has.
pub(crate) const HEAD_LENGTH: usize = 89;

/// Appends the head of a file of changes: the line `version: 1` (RFC 2849), a comment that has the octets of the digest as
/// lower-case hexadecimal digits, and an empty line. The digest is the SHA-256 of the data file whose entries are changed,
/// 32 octets.
///
/// The error comes where memory is refused; `out` is then as before.
#[tactic(auto, unfolding(crate::specs::Files::head_text))]
pub fn put_head(out: &mut Vec<u8>, digest: &[u8]) -> Result<(), NoMemory>
    ensures ok { OnOk result (out.new.items ≡ out.old.items ++ head_text digest.now) }
    ensures err { OnErr result (out.new.items ≡ out.old.items) }
{
    let alloc = *out.allocator();
    let digits = hex::encode(alloc, digest)?;
    let mut text = Vec::new(alloc);
    text.extend_from_slice(b"version: 1\n# of sha256 ")?;
    text.extend_from_slice(digits.as_bytes())?;
    text.extend_from_slice(b"\n\n")?;
    out.extend_from_slice(&text)
}

// Whether the octets are the head of the digest.
fn is_head(alloc: Global, digest: &[u8], octets: &[u8]) -> Result<bool, NoMemory>
    ensures { IfOk result (λ same. same ≡ bytes_eq octets.now (head_text digest.now)) }
{
    let mut head = Vec::new(alloc);
    put_head(&mut head, digest)?;
    Ok(octets == head.as_slice())
}

// The 32 octets that digits stand for.
fn decoded(digits: &[u8]) -> Option<[u8; 32]>
    ensures { result ≡ result_ok (decode_sized digits.now 32) }
{
    <[u8; 32] as FromHex>::from_hex(digits).ok()
}

// The digest, where the octets are its head.
fn headed_by(alloc: Global, octets: &[u8], digest: [u8; 32]) -> Result<Option<[u8; 32]>, NoMemory>
    ensures { IfOk result (λ found. found ≡ headed_by octets.now (Some digest)) }
{
    if is_head(alloc, &digest, octets)? {
        Ok(Some(digest))
    } else {
        Ok(None)
    }
}

/// The digest of the head at the front of a text, if one stands there. The error comes where memory is refused.
#[tactic(auto, unfolding(crate::specs::Files::digest_of))]
pub(crate) fn digest_of(alloc: Global, text: &[u8]) -> Result<Option<[u8; 32]>, NoMemory>
    ensures exact { IfOk result (λ digest. digest ≡ digest_of text.now) }
    ensures within { IfOk result (λ digest. IfSome digest (λ _. 89 ≤ length text.now)) }
{
    if text.len() < HEAD_LENGTH {
        return Ok(None);
    }
    let digits = text.split_at(23).1.split_at(64).0;
    match decoded(digits) {
        Some(digest) => headed_by(alloc, text.split_at(HEAD_LENGTH).0, digest),
        None => Ok(None),
    }
}

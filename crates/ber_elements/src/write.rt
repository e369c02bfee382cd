//! Headers written.

ghost use Rattle.std.specs.Prelude.{◌≡◌, ◌≢◌, ◌+◌, ◌<◌, ◌≤◌, ◌^◌, ◌++◌, length, OnOk, OnErr};
ghost use Rattle.ber_elements.specs.write.Element.{IsTag};
ghost use Rattle.ber_elements.specs.write.Spelling.{length_octets, header_octets};

use crate::kinds::NoMemory;

#[tactic(auto, unfolding(crate::specs::write::Spelling::length_octets))]
fn put_octets(out: &mut Vec<u8>, tag: u8, len: u32) -> Result<(), NoMemory>
    ensures ok { OnOk result (out.new.items ≡ out.old.items ++ header_octets tag len) }
    ensures err { OnErr result (out.new.items ≡ out.old.items) }
{
    let [a, b, c, d] = len.to_be_bytes();
    if len < 128 {
        return out.extend_from_slice(&[tag, d]);
    }
    if len < 256 {
        return out.extend_from_slice(&[tag, 129, d]);
    }
    if len < 65536 {
        return out.extend_from_slice(&[tag, 130, c, d]);
    }
    if len < 16_777_216 {
        return out.extend_from_slice(&[tag, 131, b, c, d]);
    }
    out.extend_from_slice(&[tag, 132, a, b, c, d])
}

/// Appends a header: the tag, which is one of a single octet, and the length, below 2^32, in its
/// shortest form (X.690 8.1.2, 8.1.3). After the error, want of memory, `out` is as before.
pub fn put_header(out: &mut Vec<u8>, tag: u8, len: usize) -> Result<(), NoMemory>
    requires tag { IsTag tag }
    requires len { len < 2 ^ 32 }
    ensures ok { OnOk result (out.new.items ≡ out.old.items ++ header_octets tag len) }
    ensures err { OnErr result (out.new.items ≡ out.old.items) }
{
    put_octets(out, tag, len as u32)
}

/// How many octets `put_header` appends, with any tag. This takes no memory.
#[tactic(auto, unfolding(crate::specs::write::Spelling::length_octets))]
pub fn header_len(len: usize) -> usize
    ensures exact { result ≡ 1 + length (length_octets len) }
    ensures bound { result ≤ 6 }
{
    if len < 128 {
        return 2;
    }
    if len < 256 {
        return 3;
    }
    if len < 65536 {
        return 4;
    }
    if len < 16_777_216 {
        return 5;
    }
    6
}

//! Copying octets to the front of a buffer.

ghost use Rattle.std.specs.Prelude.{◌≡◌, ◌≤◌, min, length, take};

/// Copies as many of the octets as the buffer has room for, and says how many.
pub(crate) fn copy_front(octets: &[u8], buf: &mut [u8]) -> usize
    ensures count { result ≡ min (length octets.now) (length buf.old) }
    ensures exact { take result buf.new ≡ take result octets.now }
{
    let count = octets.len().min(buf.len());
    buf.split_at_mut(count)
        .0
        .copy_from_slice(octets.split_at(count).0);
    count
}

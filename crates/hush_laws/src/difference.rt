//! Where two texts differ.

ghost use Rattle.std.specs.Prelude.{◌≡◌};
ghost use Rattle.hush_laws.specs.Audits.{common_front, first_difference};

// How many octets the longest common front of the two has.
fn common_front(one: &[u8], other: &[u8]) -> usize
    ensures exact { result ≡ common_front one.now other.now }
{
    let mut count = 0;
    while count < one.len() && count < other.len() {
        if one[count] != other[count] {
            return count;
        }
        count += 1;
    }
    count
}

/// How many octets the longest common front of the two has; None exactly where they are the same. Takes no memory.
pub fn first_difference(one: &[u8], other: &[u8]) -> Option<usize>
    ensures exact { result ≡ first_difference one.now other.now }
{
    if one == other {
        None
    } else {
        Some(common_front(one, other))
    }
}

//! Where the octets of a stream are cut.

ghost use Rattle.std.specs.Prelude.{◌≡◌, ◌≤◌, length};
ghost use Rattle.ber_elements.specs.declared.kinds.Header.{Header};
ghost use Rattle.fair_pieces.specs.Cuts.{front_of, part_cut, cut_at};

use crate::wide::is_wide;
use ber_elements::{Header, header};
use ldap_msg::{Frame, frame};

/// What is given of some octets at once, and what is then still to come of a message that was given
/// in part, each in octets.
#[derive(Clone, Copy, Debug, PartialEq)]
pub struct Cut {
    /// So many octets of the front are given.
    pub given: usize,
    /// So many octets of the message that was given in part are still to come.
    pub left: usize,
}

/// How many octets the whole messages at the front have, up to the first wide one.
fn front(octets: &[u8]) -> usize
    ensures exact { result ≡ front_of octets.now }
    ensures within { result ≤ length octets.now }
{
    let mut read = 0;
    'messages: loop {
        let rest = octets.split_at(read).1;
        let Frame::Whole(count) = frame(rest) else {
            return read;
        };
        read += count;
        if is_wide(rest.split_at(count).0) {
            return read;
        }
    }
}

/// The cut of octets that are the front of a message, whose header is this.
fn part(octets: &[u8], heading: Header) -> Cut
    ensures exact { result ≡ part_cut octets.now heading }
    ensures within { result.given ≤ length octets.now }
{
    let given = octets.len();
    match heading {
        Header::Head { head, len, .. } => Cut {
            given,
            left: len.saturating_sub(given.saturating_sub(head)),
        },
        Header::Short => Cut { given: 0, left: 0 },
        Header::Bad => Cut { given, left: 0 },
    }
}

/// What is given at once of octets that came, where `left` octets of a message that was given in part
/// are still to come: no more than those; otherwise whole messages, of which only the last is wide;
/// the front of a message as far as it came, but nothing of it before its header is there; and octets
/// that begin no message. This takes no memory.
#[tactic(auto, unfolding(crate::specs::Cuts::cut_at))]
pub fn cut_at(left: usize, octets: &[u8]) -> Cut
    ensures exact { result ≡ cut_at left octets.now }
    ensures within { result.given ≤ length octets.now }
{
    let count = octets.len();
    if left > 0 {
        return Cut {
            given: left.min(count),
            left: left.saturating_sub(count),
        };
    }
    match frame(octets) {
        Frame::Whole(_) => Cut {
            given: front(octets),
            left: 0,
        },
        Frame::More => part(octets, header(octets)),
        Frame::Bad => Cut {
            given: count,
            left: 0,
        },
    }
}

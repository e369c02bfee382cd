//! Where the next message of a connection ends.

ghost use Rattle.std.specs.Prelude.{◌≤◌, length, IfOk, IfSome, ◌++◌};
ghost use Rattle.hush_watch.specs.NextMessages.{IsFirst, IsNextIn};

use dir_tree::NoMemory;
use session_hub::session_model::ldap_msg::plain_values::Octets;
use session_hub::session_model::ldap_msg::{Frame, frame};
use std::alloc::Global;

/// The next message of a connection, and how many octets of a piece complete it.
#[derive(Drop)]
pub(crate) struct NextMessage {
    pub(crate) octets: Octets,
    pub(crate) count: usize,
}

// The message at the front of the octets, if a whole one stands there.
fn first_message(alloc: Global, octets: &[u8]) -> Result<Option<Octets>, NoMemory>
    ensures ok { IfOk result (IsFirst octets.now) }
{
    match frame(octets) {
        Frame::Whole(count) => {
            let mut message = Vec::new(alloc);
            message.extend_from_slice(&octets[..count])?;
            Ok(Some(Octets::from_vec(message)))
        }
        Frame::More => Ok(None),
        Frame::Bad => Ok(None),
    }
}

// The message at the front of what is unread and a piece behind it, if a whole one stands there.
fn message_across(alloc: Global, unread: &[u8], piece: &[u8]) -> Result<Option<Octets>, NoMemory>
    ensures ok { IfOk result (IsFirst (unread.now ++ piece.now)) }
{
    if unread.is_empty() {
        return first_message(alloc, piece);
    }
    let mut joined = Vec::new(alloc);
    joined.extend_from_slice(unread)?;
    joined.extend_from_slice(piece)?;
    first_message(alloc, joined.as_slice())
}

/// The message at the front of what is unread of a connection and of a piece, if a whole one stands there. The error comes
/// where memory is wanted.
pub(crate) fn next_message(
    alloc: Global,
    unread: &[u8],
    piece: &[u8],
) -> Result<Option<NextMessage>, NoMemory>
    ensures ok { IfOk result (IsNextIn unread.now piece.now) }
    ensures fits { IfOk result (λ found. IfSome found (λ next. next.count ≤ length piece.now)) }
{
    match message_across(alloc, unread, piece)? {
        Some(octets) => {
            let count = octets.len().saturating_sub(unread.len());
            Ok(Some(NextMessage { octets, count }))
        }
        None => Ok(None),
    }
}

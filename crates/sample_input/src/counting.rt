//! What is counted of replies.

ghost use Rattle.std.specs.Prelude.{◌≡◌, ◌+◌, ◌<◌, IfOk, cond};
ghost use Rattle.sample_input.specs.Counting.{is_entry, is_absent, is_hidden, says_such, found_in, hidden_in};

use ldap_msg::{Frame, LdapResult, ReadFault, Reply, ResultCode, frame, read_reply};
use std::alloc::{AllocError, Global};

/// How many of the replies are entries, and how many say noSuchObject (RFC 4511 4.1.9).
#[derive(Clone, Copy, Debug, PartialEq, Eq)]
pub struct Found {
    pub found: usize,
    pub hidden: usize,
}

/// What is counted of one reply.
#[derive(Clone, Copy)]
struct Kind {
    entry: bool,
    hidden: bool,
}

fn is_entry(reply: &Reply) -> bool
    ensures { result ≡ is_entry reply.now }
{
    matches!(reply, Reply::Entry(_, _))
}

fn is_absent(ended: &LdapResult) -> bool
    ensures { result ≡ is_absent ended.now }
{
    ended.code.number() == ResultCode::NoSuchObject.number()
}

fn is_hidden(reply: &Reply) -> bool
    ensures { result ≡ is_hidden reply.now }
{
    match reply {
        Reply::Entry(_, _) => false,
        Reply::Ended(_, ended) | Reply::Extended(ended, _, _) => is_absent(ended),
    }
}

// What is counted of a message's octets.
fn kind_of(alloc: Global, message: &[u8]) -> Result<Kind, AllocError>
    ensures entry { IfOk result (λ kind. kind.entry ≡ says_such is_entry message.now) }
    ensures hidden { IfOk result (λ kind. kind.hidden ≡ says_such is_hidden message.now) }
{
    match read_reply(alloc, message) {
        Ok((_, reply)) => Ok(Kind {
            entry: is_entry(&reply),
            hidden: is_hidden(&reply),
        }),
        Err(ReadFault::BadMessage) => Ok(Kind {
            entry: false,
            hidden: false,
        }),
        Err(ReadFault::NoMemory) => Err(AllocError),
    }
}

// One more, where there is one.
fn with(count: usize, more: bool) -> usize
    requires fits { count < 18446744073709551615 }
    ensures { result ≡ count + cond more 1 0 }
{
    if more { count + 1 } else { count }
}

// One more reply is counted.
fn and_one(counts: Found, kind: Kind) -> Found
    requires found { counts.found < 18446744073709551615 }
    requires hidden { counts.hidden < 18446744073709551615 }
    ensures found { result.found ≡ counts.found + cond kind.entry 1 0 }
    ensures hidden { result.hidden ≡ counts.hidden + cond kind.hidden 1 0 }
{
    Found {
        found: with(counts.found, kind.entry),
        hidden: with(counts.hidden, kind.hidden),
    }
}

/// Counts the replies of a stream. The error comes for want of memory alone.
pub fn count_found(alloc: Global, stream: &[u8]) -> Result<Found, AllocError>
    ensures found { IfOk result (λ counts. counts.found ≡ found_in stream.now) }
    ensures hidden { IfOk result (λ counts. counts.hidden ≡ hidden_in stream.now) }
{
    let mut counts = Found {
        found: 0,
        hidden: 0,
    };
    let mut rest = stream;
    for _left in 0..stream.len() {
        match frame(rest) {
            Frame::More => return Ok(counts),
            Frame::Bad => return Ok(counts),
            Frame::Whole(length) => {
                let kind = kind_of(alloc, rest.split_at(length).0)?;
                counts = and_one(counts, kind);
                rest = rest.split_at(length).1;
            }
        }
    }
    Ok(counts)
}

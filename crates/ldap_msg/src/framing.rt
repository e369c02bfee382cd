//! Where a message ends.

ghost use Rattle.std.specs.Prelude.{◌≡◌};
ghost use Rattle.ldap_msg.specs.declared.kinds.Frame.{Frame};
ghost use Rattle.ldap_msg.specs.Streams.{IsFrame, frame_at};
ghost use Rattle.ldap_msg.specs.reading.Heads.{frame_of, HasHead, HasContent};

use crate::kinds::{Frame, Framed, MAX_CONTENT};
use ber_elements::{Header, header};

impl Framed {
    /// The same, without where the content begins.
    pub fn frame(self) -> Frame
        ensures { result ≡ frame_of self }
    {
        match self {
            Framed::Whole { length, .. } => Frame::Whole(length),
            Framed::More => Frame::More,
            Framed::Bad => Frame::Bad,
        }
    }
}

#[tactic(auto, unfolding(crate::specs::Streams::frame_at, crate::specs::Streams::framed))]
fn framing(bytes: &[u8]) -> Framed
    ensures frame { frame_of result ≡ frame_at bytes.now }
    ensures head { HasHead bytes.now result }
{
    match bytes {
        [] => Framed::More,
        [tag, ..] => {
            if *tag != 0x30 {
                return Framed::Bad;
            }
            match header(bytes) {
                Header::Head { head, len, .. } => {
                    if len > MAX_CONTENT {
                        return Framed::Bad;
                    }
                    if bytes.len() - head < len {
                        return Framed::More;
                    }
                    let length = head + len;
                    Framed::Whole { head, length }
                }
                Header::Short => Framed::More,
                Header::Bad => Framed::Bad,
            }
        }
    }
}

/// What stands at the front of a stream, as `frame` has it, and how long the header of a whole message is. This takes no
/// memory.
pub fn framed(bytes: &[u8]) -> Framed
    ensures frame { frame_of result ≡ frame_at bytes.now }
    // Behind its header a whole message has its content.
    ensures content { HasContent bytes.now result }
{
    framing(bytes)
}

/// What stands at the front of a stream: a whole message with its length, less than one, or
/// octets that begin none (RFC 4511 5). A message is an element with the tag of a SEQUENCE and
/// at most `MAX_CONTENT` content octets. This takes no memory.
pub fn frame(bytes: &[u8]) -> Frame
    // The answer is the one that the stream has.
    ensures found { IsFrame bytes.now result }
    // It has no other.
    ensures only { (other : Frame) → IsFrame bytes.now other → result ≡ other }
    ensures exact { result ≡ frame_at bytes.now }
{
    framing(bytes).frame()
}

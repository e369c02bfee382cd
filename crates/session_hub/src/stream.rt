//! The answers to the messages of a stream.

ghost use Rattle.std.specs.Prelude.{◌≡◌, ◌<◌, ◌≤◌, ◌+◌, [], length, true, false, vec_len, vec_capacity};
ghost use Rattle.dir_tree.specs.tree.Numbered.{entries_of};
ghost use Rattle.session_hub.specs.Outgoing.{put_in};
ghost use Rattle.session_hub.specs.Answers.{Speaks, GaveFirst};
ghost use Rattle.session_hub.specs.FirstAnswers.{kept_room, HasKeptAnswer};

use crate::allowance::Allowance;
use crate::messages::answer;
use crate::outgoing::Outgoing;
use crate::spoken::{SpeechEnd, Spoken};
use op_read::acdf_filters::Requester;
use op_read::directory::Dir;
use session_model::ldap_msg::{Framed, framed, put_notice};
use std::alloc::Global;

/// Whether more is queued than there is room for, behind the first message.
fn is_full(answered: u64, replies: &Vec<u8>, room: usize) -> bool
    ensures full { result ≡ true → room < length replies.now.items }
    ensures behind { result ≡ true → 0 < answered }
    ensures spare { result ≡ false → 0 < answered → length replies.now.items ≤ room }
{
    answered > 0 && replies.len() > room
}

/// Answers the whole messages of a stream in their order until one closes, where they lie, and
/// sends the notice where none of them does and the stream can't go on (RFC 4511 4.4.1, 5). Where
/// there is no memory for an answer the stream is cut there, and so it is behind the first message where
/// the replies are more octets than there is room for and another message is to be answered. The first
/// answer takes no memory where it is one that has kept room, and the room is there.
pub fn speak<D: Dir>(
    alloc: Global,
    dir: &mut D,
    who: &mut Requester,
    stream: &[u8],
    allowed: Allowance,
    out: &mut Outgoing,
) -> Spoken
    ensures said { Speaks allowed.terms allowed.room (entries_of (D.rows dir.old)) who.old stream.now
        (put_in out.old) (put_in out.new) (entries_of (D.rows dir.new)) who.new result }
    ensures first { vec_len out.old.replies + kept_room ≤ vec_capacity out.old.replies → HasKeptAnswer [] stream.now → GaveFirst result }
{
    let mut read = 0;
    let mut answered = 0;
    'messages: loop {
        let rest = stream.split_at(read).1;
        match framed(rest) {
            Framed::More => {
                return Spoken {
                    read,
                    answered,
                    end: SpeechEnd::StaysOpen,
                };
            }
            Framed::Bad => {
                let end = match put_notice(&mut out.replies) {
                    Ok(()) => SpeechEnd::Closes,
                    Err(_) => SpeechEnd::IsCut,
                };
                return Spoken {
                    read,
                    answered,
                    end,
                };
            }
            Framed::Whole { head, length } => {
                if is_full(answered, &out.replies, allowed.room) {
                    return Spoken {
                        read,
                        answered,
                        end: SpeechEnd::IsFull,
                    };
                }
                let message = rest.split_at(length).0;
                let content = message.split_at(head).1;
                match answer(alloc, dir, who, content, allowed, out) {
                    Err(_) => return Spoken {
                        read,
                        answered,
                        end: SpeechEnd::IsCut,
                    },
                    Ok(true) => return Spoken {
                        read,
                        answered,
                        end: SpeechEnd::Closes,
                    },
                    Ok(false) => {
                        read += length;
                        answered += 1;
                    }
                }
            }
        }
    }
}

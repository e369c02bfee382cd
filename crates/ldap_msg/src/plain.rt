//! The reply of a result with no matched name, written in one piece: most replies are one.

ghost use Rattle.std.specs.Prelude.{◌≡◌, ◌<◌, ◌≤◌, ◌+◌, ◌++◌, [], vec_len, vec_capacity, IfSome, IsSome, IsOk, OnOk, OnErr};
ghost use Rattle.ber_layout.specs.Layouts.{writes};
ghost use Rattle.ldap_msg.specs.Plain.{IsPlain};
ghost use Rattle.ldap_msg.specs.operations.ResultCodes.{code_number};
ghost use Rattle.ldap_msg.specs.Results.{result_layout};
ghost use Rattle.ldap_msg.specs.Replies.{reply_content, reply_octets};

use crate::kinds::{NoMemory, Reply};
use crate::operations::ResultCode;

/// The code of a reply that is a result with no matched name.
pub(crate) fn plain_code(reply: &Reply) -> Option<ResultCode>
    ensures content { IfSome result (λ code. reply_content reply.now ≡ writes result_layout (code_number code, ([], (tt, tt)))) }
    ensures found { IsPlain reply.now → IsSome result }
{
    match reply {
        Reply::Entry(_, _) | Reply::Extended(_, _, _) => None,
        Reply::Ended(_, ended) => match ended.matched.as_slice() {
            [] => Some(ended.code),
            _ => None,
        },
    }
}

/// Appends the message of such a reply: the messageID, and the response with the code, no matched name and no diagnostic
/// message. The messageID has one octet to four. Where there is room for 17 octets this takes no memory.
pub(crate) fn put_plain(
    out: &mut Vec<u8>,
    id: u32,
    reply: &Reply,
    code: ResultCode,
) -> Result<(), NoMemory>
    requires id { id ≤ 2147483647 }
    requires content { reply_content reply.now ≡ writes result_layout (code_number code, ([], (tt, tt))) }
    ensures ok { OnOk result (out.new.items ≡ out.old.items ++ reply_octets id reply.now) }
    ensures err { OnErr result (out.new.items ≡ out.old.items) }
    ensures succeeds { vec_len out.old + 17 ≤ vec_capacity out.old → IsOk result }
{
    let tag = reply.response().tag();
    let code = code.number();
    let [a, b, c, d] = id.to_be_bytes();
    if id < 128 {
        return out.extend_from_slice(&[
            0x30, 12, 0x02, 1, d, tag, 7, 0x0a, 1, code, 0x04, 0, 0x04, 0,
        ]);
    }
    if id < 32_768 {
        return out.extend_from_slice(&[
            0x30, 13, 0x02, 2, c, d, tag, 7, 0x0a, 1, code, 0x04, 0, 0x04, 0,
        ]);
    }
    if id < 8_388_608 {
        return out.extend_from_slice(&[
            0x30, 14, 0x02, 3, b, c, d, tag, 7, 0x0a, 1, code, 0x04, 0, 0x04, 0,
        ]);
    }
    out.extend_from_slice(&[
        0x30, 15, 0x02, 4, a, b, c, d, tag, 7, 0x0a, 1, code, 0x04, 0, 0x04, 0,
    ])
}

//! The laws of responses: each function computes nothing, and what it ensures is a law.

ghost use Rattle.std.specs.Prelude.{◌≡◌, ℕ, List, [], Bool, Some, map, flat_map};
ghost use Rattle.std.specs.List.{AllByRecursion};
ghost use Rattle.ldap_msg.specs.declared.kinds.Message.{Message};
ghost use Rattle.ldap_msg.specs.Streams.{IsOuter, whole, rest_of};
ghost use Rattle.ldap_msg.specs.reading.Messages.{message_of};
ghost use Rattle.ldap_msg.specs.Replies.{reply_of, notice_octets};
ghost use Rattle.session_hub.specs.Parties.{DirectoryEntries, Requester};
ghost use Rattle.session_hub.specs.declared.bounds.Terms.{Terms};
ghost use Rattle.session_hub.specs.Answering.{rules, answer_read};
ghost use Rattle.session_hub.specs.session_model.AnsweredMessages.{AnsweredMessage};
ghost use Rattle.session_hub.specs.ShortAnswers.{IsAnsweredShort};
ghost use Rattle.response_laws.specs.Responses.{Sent, reply_in, octets_of, IsAnswered, IsWritableSent, IsReadable, notice, IsReadAnswer};

use ldap_msg::laws::replies_are_read_again;
use page_core::laws::a_written_page_is_read_again;

/// A message that is read is answered by one response of its request's kind with the message's own messageID, behind which
/// nothing is sent, and before which a search alone sends entries; an unbind and an abandon are answered by nothing (RFC
/// 4511 4.1.1, 4.2.2, 4.3, 4.5.2 and 4.6 to 4.12). So it is whatever is asked, by whom, and over which entries, and where
/// a control is refused.
pub fn each_request_has_one_response()
    ensures read { (keeps : Bool) (entries : DirectoryEntries) (who : Requester) (message : Message)
        → IsAnswered message.request message.id (answer_read keeps entries who (Some message)).replies }
    ensures served { (terms : Terms) (entries : DirectoryEntries) (who : Requester) (bytes : List ℕ) (message : Message)
        → message_of bytes ≡ Some message
        → IsAnswered message.request message.id ((rules terms).answer entries who bytes).replies }
{}

/// The octets of messages that are sent are cut into these messages again, with nothing left, where each is one that a
/// stream of messages may hold; and a message that can be written so is read again as its reply, with its messageID. So a
/// client that reads the octets of an answer reads its replies, in their order, and nothing else.
pub fn what_is_sent_is_read_again()
    ensures messages { (id : ℕ) (sent : List Sent) → AllByRecursion (λ one. IsOuter (octets_of id one)) sent
        → whole (flat_map (octets_of id) sent) ≡ map (octets_of id) sent }
    ensures no_rest { (id : ℕ) (sent : List Sent) → AllByRecursion (λ one. IsOuter (octets_of id one)) sent
        → rest_of (flat_map (octets_of id) sent) ≡ [] }
    ensures replies { (id : ℕ) (sent : List Sent) → AllByRecursion (IsReadable id) sent
        → map reply_of (whole (flat_map (octets_of id) sent)) ≡ map (λ one. Some (id, reply_in one)) sent }
    ensures reply { (id : ℕ) (one : Sent) → IsWritableSent id one → reply_of (octets_of id one) ≡ Some (id, reply_in one) }
{
    replies_are_read_again();
    a_written_page_is_read_again();
}

/// Each message that answers a request is read again, as the reply that it is, with the request's messageID, where the
/// contents of all of them have lengths that can be written; `Hub::hear` ensures so of each message that it answers. The
/// notice of disconnection is read again too, with the messageID 0 (RFC 4511 4.1.1 and 4.4.1).
pub fn each_answer_is_read_again()
    ensures answers { (terms : Terms) (asked : AnsweredMessage DirectoryEntries Requester) (message : Message)
        → message_of asked.message ≡ Some message → IsAnsweredShort terms asked
        → IsReadAnswer message.request message.id ((rules terms).answer asked.tree asked.who asked.message).replies }
    ensures notice { reply_of notice_octets ≡ Some (0, notice) }
{
    replies_are_read_again();
    a_written_page_is_read_again();
}

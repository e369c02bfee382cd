//! Laws over the definitions: each function's clauses are the laws, and its body does nothing.

ghost use Rattle.std.specs.Prelude.{◌≡◌, ℕ, ◌<◌, true, false, List, [], Some, length};
ghost use Rattle.ldap_msg.specs.declared.kinds.Frame.TheVariants.{Whole, More, Bad};
ghost use Rattle.ldap_msg.specs.declared.kinds.Message.{Message};
ghost use Rattle.ldap_msg.specs.declared.kinds.Reply.{Reply};
ghost use Rattle.ldap_msg.specs.declared.operations.ResultCode.{ResultCode};
ghost use Rattle.ldap_msg.specs.operations.ResultCodes.{code_number, code_from};
ghost use Rattle.ldap_msg.specs.Streams.{IsWhole, IsBroken, frame_at, whole, rest_of, is_broken};
ghost use Rattle.ldap_msg.specs.reading.Messages.{Says, message_of, request_octets};
ghost use Rattle.ldap_msg.specs.Replies.{Replies, reply_of, reply_octets};
ghost use Rattle.ldap_msg.specs.Ranges.{IsWritable, IsWritableReply};
ghost use Rattle.ldap_msg.specs.Laws.{GoesOn, IsDone, StepsOver, StopsAt, OnlyWhole};

/// The messages of a stream are those of its front, and then those of its rest with what came.
pub fn streams_go_on()
    ensures grows { (stream piece : List ℕ) → GoesOn stream piece }
    ensures no_messages { whole [] ≡ [] }
    ensures no_rest { rest_of [] ≡ [] }
{}

/// What follows the messages has none, and is bounded.
pub fn rests_are_done()
    ensures { (stream : List ℕ) → IsDone stream }
{}

/// One step of a reader that takes messages where they lie.
pub fn streams_step()
    ensures whole { (stream : List ℕ) (count : ℕ) → frame_at stream ≡ Whole count → StepsOver stream count }
    ensures more { (stream : List ℕ) → frame_at stream ≡ More → StopsAt stream false }
    ensures bad { (stream : List ℕ) → frame_at stream ≡ Bad → StopsAt stream true }
{}

/// The messages of a stream are the outer elements at its front, one behind the other and as many
/// as there can be; no other list is that.
pub fn messages_are_longest()
    ensures found { (stream : List ℕ) → IsWhole stream (whole stream) (rest_of stream) }
    ensures only { (stream : List ℕ) (messages : List (List ℕ)) (rest : List ℕ) → IsWhole stream messages rest → OnlyWhole stream messages rest }
{}

/// A stream is broken exactly where its rest is.
pub fn broken_streams()
    ensures found { (stream : List ℕ) → is_broken stream ≡ true → IsBroken (rest_of stream) }
    ensures only { (stream : List ℕ) → IsBroken (rest_of stream) → is_broken stream ≡ true }
{}

/// Octets say one message.
pub fn one_message()
    ensures { (message other : Message) (bytes : List ℕ) → Says message bytes → Says other bytes → message ≡ other }
{}

/// What is computed of octets is the message that they say.
pub fn messages_are_read()
    ensures found { (message : Message) (bytes : List ℕ) → message_of bytes ≡ Some message → Says message bytes }
    ensures only { (message : Message) (bytes : List ℕ) → Says message bytes → message_of bytes ≡ Some message }
{}

/// A written request is read again.
pub fn requests_are_read_again()
    ensures says { (message : Message) → IsWritable message → Says message (request_octets message) }
    ensures exact { (message : Message) → IsWritable message → message_of (request_octets message) ≡ Some message }
{}

/// What is computed of octets is the reply that they say.
pub fn replies_are_read()
    ensures found { (id : ℕ) (reply : Reply) (bytes : List ℕ) → reply_of bytes ≡ Some (id, reply) → Replies id reply bytes }
    ensures only { (id : ℕ) (reply : Reply) (bytes : List ℕ) → Replies id reply bytes → reply_of bytes ≡ Some (id, reply) }
{}

/// A written reply is read again, where its messageID is at most 2147483647. Each that `put_reply` appended is short.
pub fn replies_are_read_again()
    ensures says { (id : ℕ) (reply : Reply) → IsWritableReply id reply → Replies id reply (reply_octets id reply) }
    ensures exact { (id : ℕ) (reply : Reply) → IsWritableReply id reply → reply_of (reply_octets id reply) ≡ Some (id, reply) }
{}

/// The code of a code's number is the code, and every number below 128 is that of a code.
pub fn codes_are_numbered()
    ensures code { (code : ResultCode) → code_from (code_number code) ≡ code }
    ensures number { (number : ℕ) → number < 128 → code_number (code_from number) ≡ number }
    ensures range { (code : ResultCode) → code_number code < 128 }
{}

/// No reply is empty.
pub fn replies_have_octets()
    ensures { (id : ℕ) (reply : Reply) → 0 < length (reply_octets id reply) }
{}

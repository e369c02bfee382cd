//! The answer to one message.

ghost use Rattle.std.specs.Prelude.{◌≡◌, ◌≤◌, ◌+◌, ◌++◌, ℕ, Bool, List, [], ◌∷◌, take, vec_len, vec_capacity, IsOk, IfOk, OnOk, OnErr, Some, None};
ghost use Rattle.dir_tree.specs.tree.Numbered.{entries_of};
ghost use Rattle.session_model.specs.ldap_msg.reading.Messages.{message_in};
ghost use Rattle.session_model.specs.ldap_msg.declared.operations.ResultCode.TheVariants as code;
ghost use Rattle.op_read.specs.read_model.Views.{view_of, result_of as result_with};
ghost use Rattle.op_read.specs.Short.{IsShortPage, Puts};
ghost use Rattle.op_read.specs.read_model.CompareReplies.{compare_result};
ghost use Rattle.session_model.specs.ldap_msg.declared.kinds.Reply.TheVariants as reply;
ghost use Rattle.session_model.specs.ldap_msg.declared.kinds.Request.TheVariants as request;
ghost use Rattle.session_model.specs.ldap_msg.declared.operations.Ending.TheVariants as ending;
ghost use Rattle.change_laws.specs.op_add_delete.adding.Updates.{IsChanged};
ghost use Rattle.change_laws.specs.Updating.{updated};
ghost use Rattle.change_records.specs.Written.{record_text};
ghost use Rattle.session_hub.specs.Parties.{DirectoryEntries, Requester};
ghost use Rattle.op_read.specs.page_core.Pages.{ended as unread};
ghost use Rattle.session_hub.specs.Controls.{subentries_asked, page_asked};
ghost use Rattle.session_hub.specs.Answering.{ending_for, response_to as response_of, replies_in, ended_with, asking, searched, answer_octets, changing, kept_changes, operated, answered, is_unbind, answer_read, answer_to};
ghost use Rattle.session_hub.specs.Outgoing.{put_in};
ghost use Rattle.session_hub.specs.Answers.{Gives, Sends};
ghost use Rattle.session_hub.specs.ShortAnswers.{IsShortAnswer};
ghost use Rattle.session_hub.specs.FirstAnswers.{IsAnonymousBind};
ghost use Rattle.session_hub.specs.Limiting.{limited_message, limited_read, lesser_limit};

use crate::allowance::Allowance;
use crate::binds::{answer_bind, answer_simple_bind};
use crate::controls::{is_refused, page_asked, subentries_asked};
use crate::extended::answer_extended;
use crate::outgoing::Outgoing;
use crate::requester::anonymous;
use crate::results::result_of;
use crate::simple::bind_in;
use change_laws::op_add_delete::{add, delete};
use change_laws::op_modify::{modify, rename};
use change_records::put_record;
use op_read::acdf_filters::Requester;
use op_read::directory::Dir;
use op_read::{compare, search, search_page};
use session_model::ldap_msg::{
    CompareRequest, Ending, LdapResult, Message, ReadFault, Reply, Request, ResultCode,
    SearchRequest, Update, put_notice, put_reply, read_content,
};
use std::alloc::{AllocError, Global};

/// The kind of the response to a request for a change.
fn ending_for(update: &Update) -> Ending
    ensures { result ≡ ending_for update.now }
{
    match update {
        Update::Modify(_) => Ending::Modify,
        Update::Add(_) => Ending::Add,
        Update::Delete(_) => Ending::Delete,
        Update::Rename(_) => Ending::Rename,
    }
}

fn response_to(request: &Request, ended: LdapResult) -> Option<Reply>
    ensures { result ≡ response_of request.now ended }
{
    match request {
        Request::Unbind | Request::Abandon(_) => None,
        Request::Bind(_) => Some(Reply::Ended(Ending::Bind, ended)),
        Request::Search(_) => Some(Reply::Ended(Ending::Done, ended)),
        Request::Update(update) => Some(Reply::Ended(ending_for(update), ended)),
        Request::Compare(_) => Some(Reply::Ended(Ending::Compare, ended)),
        Request::Extended(_, _) => Some(Reply::Extended(ended, None, None)),
    }
}

/// Appends the response with this result, if the request has one.
fn put_response(message: &Message, ended: LdapResult, out: &mut Vec<u8>) -> Result<(), AllocError>
    ensures ok { OnOk result (Puts message.now.id
        (replies_in (response_of message.now.request ended))
        out.old.items out.new.items) }
    ensures err { OnErr result (out.new.items ≡ out.old.items) }
{
    match response_to(&message.request, ended) {
        None => Ok(()),
        Some(reply) => put_reply(out, message.id, &reply),
    }
}

/// Appends the response of a request that ends with the code, if it has one.
fn put_ended(
    alloc: Global,
    message: &Message,
    code: ResultCode,
    out: &mut Vec<u8>,
) -> Result<(), AllocError>
    ensures ok { OnOk result (Puts message.now.id
        (ended_with code message.now.request)
        out.old.items out.new.items) }
    ensures err { OnErr result (out.new.items ≡ out.old.items) }
{
    put_response(message, result_of(alloc, code), out)
}

/// A bind makes the requester anonymous before anything else; no other request changes it.
fn begin_asking(who: &mut Requester, request: &Request)
    ensures { who.new ≡ asking who.old request.now }
{
    if let Request::Bind(_) = request {
        *who = anonymous();
    }
}

/// Appends that a search's controls can't be read.
fn put_unread(alloc: Global, id: u32, out: &mut Vec<u8>) -> Result<(), AllocError>
    ensures ok { OnOk result (out.new.items ≡ out.old.items ++ answer_octets id (unread code.ProtocolError)) }
    ensures short { OnOk result (IsShortPage id (unread code.ProtocolError)) }
    ensures err { OnErr result (out.new.items ≡ out.old.items) }
{
    let ended = result_of(alloc, ResultCode::ProtocolError);
    put_reply(out, id, &Reply::Ended(Ending::Done, ended))
}

/// Appends the replies to a search, or to the page of it that its controls ask for, among subentries or others.
fn put_asked<D: Dir>(
    alloc: Global,
    dir: &D,
    who: &Requester,
    message: &Message,
    request: &SearchRequest,
    subentries: Option<bool>,
    room: usize,
    out: &mut Vec<u8>,
) -> Result<(), AllocError>
    ensures ok { OnOk result (out.new.items ≡ out.old.items ++ answer_octets message.now.id
        (searched (view_of (entries_of (D.rows dir.now)) who.now) request.now (Some subentries)
        (page_asked message.now.controls))) }
    ensures short { OnOk result (IsShortPage message.now.id
        (searched (view_of (entries_of (D.rows dir.now)) who.now) request.now (Some subentries)
        (page_asked message.now.controls))) }
    ensures err { OnErr result (out.new.items ≡ out.old.items) }
{
    match page_asked(alloc, message.controls.as_slice()) {
        Ok(None) => search(alloc, dir, who, message.id, request, subentries, room, out),
        Ok(Some(page)) => {
            search_page(
                alloc, dir, who, message.id, request, subentries, &page, room, out,
            )
        }
        Err(ReadFault::NoMemory) => Err(AllocError),
        Err(ReadFault::BadMessage) => put_unread(alloc, message.id, out),
    }
}

/// Appends the replies to a search, with what its controls ask for. The error comes for want of memory, or where `out` is
/// past the room and entries are left.
#[inline(never)] // what it needs is not to be cleared for each bind
fn put_search<D: Dir>(
    alloc: Global,
    dir: &D,
    who: &Requester,
    message: &Message,
    request: &SearchRequest,
    room: usize,
    out: &mut Vec<u8>,
) -> Result<(), AllocError>
    ensures ok { OnOk result (out.new.items ≡ out.old.items ++ answer_octets message.now.id
        (searched (view_of (entries_of (D.rows dir.now)) who.now) request.now
        (subentries_asked message.now.controls) (page_asked message.now.controls))) }
    ensures short { OnOk result (IsShortPage message.now.id
        (searched (view_of (entries_of (D.rows dir.now)) who.now) request.now
        (subentries_asked message.now.controls) (page_asked message.now.controls))) }
    ensures err { OnErr result (out.new.items ≡ out.old.items) }
{
    match subentries_asked(message.controls.as_slice()) {
        Ok(subentries) => { put_asked(alloc, dir, who, message, request, subentries, room, out) }
        Err(ReadFault::NoMemory) => Err(AllocError),
        Err(ReadFault::BadMessage) => put_unread(alloc, message.id, out),
    }
}

/// Appends the reply to a compare.
#[inline(never)] // what it needs is not to be cleared for each bind
fn put_compare<D: Dir>(
    alloc: Global,
    dir: &D,
    who: &Requester,
    id: u32,
    request: &CompareRequest,
    out: &mut Vec<u8>,
) -> Result<(), AllocError>
    ensures ok { OnOk result (Puts id
        (reply.Ended ending.Compare (compare_result (view_of (entries_of (D.rows dir.now)) who.now) request.now) ∷ [])
        out.old.items out.new.items) }
    ensures err { OnErr result (out.new.items ≡ out.old.items) }
{
    let found = compare(alloc, dir, who, request)?;
    put_reply(out, id, &Reply::Ended(Ending::Compare, found))
}

/// A change, with the message that asks for it.
#[derive(Clone, Copy)]
struct Wanted<'a> {
    message: &'a Message,
    update: &'a Update,
}

/// Changes the entries as is asked for. None where nothing refuses it. After `AllocError` all is as it was.
fn change<D: Dir>(
    alloc: Global,
    dir: &mut D,
    who: &Requester,
    update: &Update,
) -> Result<Option<LdapResult>, AllocError>
    ensures ok { IfOk result (λ refusal. IsChanged (entries_of (D.rows dir.old))
        (updated (entries_of (D.rows dir.old)) who.now update.now)
        refusal (entries_of (D.rows dir.new))) }
    ensures kept { OnErr result (entries_of (D.rows dir.new) ≡ entries_of (D.rows dir.old)) }
{
    match update {
        Update::Modify(asked) => modify(alloc, dir, who, asked),
        Update::Add(asked) => add(alloc, dir, who, asked),
        Update::Delete(asked) => delete(alloc, dir, who, asked),
        Update::Rename(asked) => rename(alloc, dir, who, asked),
    }
}

/// Appends the record of a change, where changes are kept. After `AllocError` nothing was appended.
fn put_kept(keeps: bool, request: &Request, changes: &mut Vec<u8>) -> Result<(), AllocError>
    ensures ok { OnOk result (changes.new.items ≡ changes.old.items ++ kept_changes keeps (record_text request.now)) }
    ensures err { OnErr result (changes.new.items ≡ changes.old.items) }
{
    if keeps {
        put_record(changes, request)
    } else {
        Ok(())
    }
}

/// Appends the response to a change.
fn put_changed(wanted: Wanted<'_>, ended: LdapResult, out: &mut Vec<u8>) -> Result<(), AllocError>
    ensures ok { OnOk result (Puts wanted.entry.message.now.id
        (reply.Ended (ending_for wanted.entry.update.now) ended ∷ [])
        out.old.items out.new.items) }
    ensures err { OnErr result (out.new.items ≡ out.old.items) }
{
    let reply = Reply::Ended(ending_for(wanted.update), ended);
    put_reply(out, wanted.message.id, &reply)
}

/// Appends what an accepted change has appended: its record and its reply. After `AllocError` nothing was appended.
fn put_accepted(
    alloc: Global,
    wanted: Wanted<'_>,
    keeps: bool,
    out: &mut Outgoing,
) -> Result<(), AllocError>
    requires asks { wanted.message.now.request ≡ request.Update wanted.update.now }
    ensures ok { OnOk result (Puts wanted.entry.message.now.id
        (reply.Ended (ending_for wanted.entry.update.now) (result_with code.Success) ∷ [])
        out.old.replies.items out.new.replies.items) }
    ensures recorded { OnOk result (out.new.changes.items ≡ out.old.changes.items
        ++ kept_changes keeps (record_text (request.Update wanted.entry.update.now))) }
    ensures err { OnErr result (out.new.replies.items ≡ out.old.replies.items) }
    ensures unrecorded { OnErr result (out.new.changes.items ≡ out.old.changes.items) }
{
    let before = out.changes.len();
    put_kept(keeps, &wanted.message.request, &mut out.changes)?;
    let ended = result_of(alloc, ResultCode::Success);
    match put_changed(wanted, ended, &mut out.replies) {
        Ok(()) => Ok(()),
        Err(fault) => {
            out.changes.truncate(before);
            Err(fault)
        }
    }
}

/// Puts the response with a refusal in the place of all replies behind the first octets, and takes back all changes behind
/// those that were kept. After `AllocError` all is taken back.
fn put_refusal(
    wanted: Wanted<'_>,
    refusal: LdapResult,
    first: usize,
    kept: usize,
    out: &mut Outgoing,
) -> Result<(), AllocError>
    requires replies { first ≤ vec_len out.old.replies }
    requires changes { kept ≤ vec_len out.old.changes }
    ensures ok { OnOk result (Puts wanted.entry.message.now.id (reply.Ended (ending_for wanted.entry.update.now) refusal ∷ [])
        (take first out.old.replies.items) out.new.replies.items) }
    ensures err { OnErr result (out.new.replies.items ≡ take first out.old.replies.items) }
    ensures unrecorded { out.new.changes.items ≡ take kept out.old.changes.items }
{
    out.replies.truncate(first);
    out.changes.truncate(kept);
    put_changed(wanted, refusal, &mut out.replies)
}

/// Changes the entries, and appends the record of the change and the reply, for which there is room before the directory
/// changes. Of a change that is refused nothing is recorded. After `AllocError` all is as it was.
#[inline(never)] // what it needs is not to be cleared for each bind
fn put_change<D: Dir>(
    alloc: Global,
    dir: &mut D,
    who: &Requester,
    wanted: Wanted<'_>,
    keeps: bool,
    out: &mut Outgoing,
) -> Result<(), AllocError>
    requires asks { wanted.message.now.request ≡ request.Update wanted.update.now }
    ensures ok { OnOk result (Sends wanted.entry.message.now.id
        (changing (entries_of (D.rows dir.old)) who.now wanted.entry.update.now
        (updated (entries_of (D.rows dir.old)) who.now wanted.entry.update.now))
        out.old.replies.items out.new.replies.items (entries_of (D.rows dir.new)) who.now) }
    ensures recorded { OnOk result (out.new.changes.items ≡ out.old.changes.items ++ kept_changes keeps
        (changing (entries_of (D.rows dir.old)) who.now wanted.entry.update.now
        (updated (entries_of (D.rows dir.old)) who.now wanted.entry.update.now)).changes) }
    ensures err { OnErr result (out.new.replies.items ≡ out.old.replies.items) }
    ensures unrecorded { OnErr result (out.new.changes.items ≡ out.old.changes.items) }
    ensures entries { OnErr result (entries_of (D.rows dir.new) ≡ entries_of (D.rows dir.old)) }
{
    let before = out.replies.len();
    let unchanged = out.changes.len();
    put_accepted(alloc, wanted, keeps, out)?;
    match change(alloc, dir, who, wanted.update) {
        Ok(None) => Ok(()),
        Ok(Some(refusal)) => put_refusal(wanted, refusal, before, unchanged, out),
        Err(fault) => {
            out.changes.truncate(unchanged);
            out.replies.truncate(before);
            Err(fault)
        }
    }
}

/// Does what a request asks for that no control refuses. After `AllocError` all is as it was.
fn operate<D: Dir>(
    alloc: Global,
    dir: &mut D,
    who: &mut Requester,
    message: &Message,
    allowed: Allowance,
    out: &mut Outgoing,
) -> Result<(), AllocError>
    ensures ok { OnOk result (Sends message.now.id
        (operated (entries_of (D.rows dir.old)) (asking who.old message.now.request)
        message.now.controls message.now.request)
        out.old.replies.items out.new.replies.items (entries_of (D.rows dir.new)) who.new) }
    ensures recorded { OnOk result (out.new.changes.items ≡ out.old.changes.items ++ kept_changes allowed.terms.keeps
        (operated (entries_of (D.rows dir.old)) (asking who.old message.now.request)
        message.now.controls message.now.request).changes) }
    ensures err { OnErr result (out.new.replies.items ≡ out.old.replies.items) }
    ensures unrecorded { OnErr result (out.new.changes.items ≡ out.old.changes.items) }
    ensures kept { OnErr result (who.new ≡ who.old) }
    ensures entries { OnErr result (entries_of (D.rows dir.new) ≡ entries_of (D.rows dir.old)) }
{
    match &message.request {
        Request::Bind(bind) => answer_bind(alloc, dir, who, message.id, bind, &mut out.replies),
        Request::Search(search) => put_search(
            alloc,
            dir,
            who,
            message,
            search,
            allowed.room,
            &mut out.replies,
        ),
        Request::Compare(compare) => put_compare(
            alloc,
            dir,
            who,
            message.id,
            compare,
            &mut out.replies,
        ),
        Request::Unbind | Request::Abandon(_) => Ok(()),
        Request::Extended(name, value) => {
            answer_extended(alloc, who, message.id, name, value, &mut out.replies)
        }
        Request::Update(update) => {
            let wanted = Wanted { message, update };
            put_change(alloc, dir, who, wanted, allowed.terms.keeps, out)
        }
    }
}

/// Refuses a request for a control. After `AllocError` the requester is who it was.
fn refuse(
    alloc: Global,
    who: &mut Requester,
    message: &Message,
    out: &mut Vec<u8>,
) -> Result<(), AllocError>
    ensures ok { OnOk result (Puts message.now.id
        (ended_with code.UnavailableCriticalExtension message.now.request)
        out.old.items out.new.items) }
    ensures asked { OnOk result (who.new ≡ asking who.old message.now.request) }
    ensures err { OnErr result (out.new.items ≡ out.old.items) }
    ensures kept { OnErr result (who.new ≡ who.old) }
{
    put_ended(
        alloc,
        message,
        ResultCode::UnavailableCriticalExtension,
        out,
    )?;
    begin_asking(who, &message.request);
    Ok(())
}

/// Answers a request with its controls. After `AllocError` all is as it was.
fn answer_request<D: Dir>(
    alloc: Global,
    dir: &mut D,
    who: &mut Requester,
    message: &Message,
    allowed: Allowance,
    out: &mut Outgoing,
) -> Result<(), AllocError>
    ensures ok { OnOk result (Sends message.now.id
        (answered (entries_of (D.rows dir.old)) who.old message.now.controls message.now.request)
        out.old.replies.items out.new.replies.items (entries_of (D.rows dir.new)) who.new) }
    ensures recorded { OnOk result (out.new.changes.items ≡ out.old.changes.items ++ kept_changes allowed.terms.keeps
        (answered (entries_of (D.rows dir.old)) who.old message.now.controls message.now.request).changes) }
    ensures err { OnErr result (out.new.replies.items ≡ out.old.replies.items) }
    ensures unrecorded { OnErr result (out.new.changes.items ≡ out.old.changes.items) }
    ensures kept { OnErr result (who.new ≡ who.old) }
    ensures entries { OnErr result (entries_of (D.rows dir.new) ≡ entries_of (D.rows dir.old)) }
{
    if is_refused(&message.request, message.controls.as_slice()) {
        refuse(alloc, who, message, &mut out.replies)
    } else {
        operate(alloc, dir, who, message, allowed, out)
    }
}

fn closes_after(request: &Request) -> bool
    ensures { result ≡ is_unbind request.now }
{
    matches!(request, Request::Unbind)
}

#[tactic(auto, unfolding(crate::specs::Answering::rules))]
fn answer_message<D: Dir>(
    alloc: Global,
    dir: &mut D,
    who: &mut Requester,
    message: &Message,
    allowed: Allowance,
    out: &mut Outgoing,
) -> Result<bool, AllocError>
    ensures ok { IfOk result (λ closes.
        Gives (answer_read allowed.terms.keeps (entries_of (D.rows dir.old)) who.old (Some message.now))
        (put_in out.old) (put_in out.new) (entries_of (D.rows dir.new)) who.new closes) }
    ensures short { OnOk result (IsShortAnswer (entries_of (D.rows dir.old)) who.old (Some message.now)) }
    ensures err { OnErr result (out.new.replies.items ≡ out.old.replies.items) }
    ensures unrecorded { OnErr result (out.new.changes.items ≡ out.old.changes.items) }
    ensures kept { OnErr result (who.new ≡ who.old) }
    ensures entries { OnErr result (entries_of (D.rows dir.new) ≡ entries_of (D.rows dir.old)) }
{
    answer_request(alloc, dir, who, message, allowed, out)?;
    Ok(closes_after(&message.request))
}

#[tactic(auto, unfolding(crate::specs::Answering::rules))]
fn refuse_octets(out: &mut Vec<u8>) -> Result<bool, AllocError>
    ensures ok { IfOk result (λ closes. (keeps : Bool) (changes : List ℕ) (entries : DirectoryEntries) (who : Requester) →
        Gives (answer_read keeps entries who None) (record { replies = out.old.items; changes = changes })
        (record { replies = out.new.items; changes = changes }) entries who closes) }
    ensures err { OnErr result (out.new.items ≡ out.old.items) }
{
    put_notice(out)?;
    Ok(true)
}

/// The lesser of two limits on the entries of a search, where 0 is none (RFC 4511 4.5.1.4).
fn lesser_limit(limit: u32, size: u32) -> u32
    ensures { result ≡ lesser_limit limit size }
{
    if limit == 0 {
        size
    } else if size == 0 || limit < size {
        limit
    } else {
        size
    }
}

/// Limits a search as the server does.
fn limit_message(message: &mut Message, limit: u32)
    ensures { message.new ≡ limited_message limit message.old }
{
    if let Request::Search(search) = &mut message.request {
        search.size = lesser_limit(limit, search.size);
    }
}

/// Answers the content of any message.
#[inline(never)] // what it needs is not to be cleared for each bind
fn answer_any<D: Dir>(
    alloc: Global,
    dir: &mut D,
    who: &mut Requester,
    content: &[u8],
    allowed: Allowance,
    out: &mut Outgoing,
) -> Result<bool, AllocError>
    ensures ok { IfOk result (λ closes. Gives (answer_to allowed.terms (entries_of (D.rows dir.old)) who.old content.now)
        (put_in out.old) (put_in out.new) (entries_of (D.rows dir.new)) who.new closes) }
    ensures short { OnOk result (IsShortAnswer (entries_of (D.rows dir.old)) who.old
        (limited_read allowed.terms.limit (message_in content.now))) }
    ensures err { OnErr result (out.new.replies.items ≡ out.old.replies.items) }
    ensures unrecorded { OnErr result (out.new.changes.items ≡ out.old.changes.items) }
    ensures asker { OnErr result (who.new ≡ who.old) }
    ensures entries { OnErr result (entries_of (D.rows dir.new) ≡ entries_of (D.rows dir.old)) }
{
    match read_content(alloc, content) {
        Ok(mut message) => {
            limit_message(&mut message, allowed.terms.limit);
            answer_message(alloc, dir, who, &message, allowed, out)
        }
        Err(ReadFault::NoMemory) => Err(AllocError),
        Err(ReadFault::BadMessage) => refuse_octets(&mut out.replies),
    }
}

/// Answers the content of one message for the requester, appends the replies (RFC 4511 4.1.1), and
/// says whether the connection closes. A content that says no message gets the notice of disconnection
/// (4.4.1). `AllocError` comes for want of memory, or where more than the room waits for the
/// connection while a search is answered, and then all is as it was. An anonymous bind is answered
/// without memory where there is room for 17 octets.
pub fn answer<D: Dir>(
    alloc: Global,
    dir: &mut D,
    who: &mut Requester,
    content: &[u8],
    allowed: Allowance,
    out: &mut Outgoing,
) -> Result<bool, AllocError>
    ensures ok { IfOk result (λ closes. Gives (answer_to allowed.terms (entries_of (D.rows dir.old)) who.old content.now)
        (put_in out.old) (put_in out.new) (entries_of (D.rows dir.new)) who.new closes) }
    // So each reply is read again.
    ensures short { OnOk result (IsShortAnswer (entries_of (D.rows dir.old)) who.old
        (limited_read allowed.terms.limit (message_in content.now))) }
    ensures err { OnErr result (out.new.replies.items ≡ out.old.replies.items) }
    ensures unrecorded { OnErr result (out.new.changes.items ≡ out.old.changes.items) }
    ensures asker { OnErr result (who.new ≡ who.old) }
    ensures entries { OnErr result (entries_of (D.rows dir.new) ≡ entries_of (D.rows dir.old)) }
    ensures succeeds { IsAnonymousBind (message_in content.now) → vec_len out.old.replies + 17 ≤ vec_capacity out.old.replies → IsOk result }
{
    match bind_in(content) {
        Some(request) => answer_simple_bind(alloc, dir, who, &request, &mut out.replies),
        None => answer_any(alloc, dir, who, content, allowed, out),
    }
}

//! What a search sends.

ghost use Rattle.std.specs.Prelude.{◌≡◌, ◌∷◌, [], ℕ, Some, IfOk, OnOk, filter};
ghost use Rattle.std.specs.List.{list_any};
ghost use Rattle.dir_tree.specs.tree.Numbered.{IsNumberedTree, find_name};
ghost use Rattle.ldap_msg.specs.ber_layout.Spellings.{Extends};
ghost use Rattle.ldap_msg.specs.declared.kinds.Reply.TheVariants as reply;
ghost use Rattle.ldap_msg.specs.declared.operations.Ending.TheVariants as ending;
ghost use Rattle.page_core.specs.read_model.Selecting.{is_shown};
ghost use Rattle.page_core.specs.read_model.Choosing.{is_chosen};
ghost use Rattle.page_core.specs.read_model.SearchReplies.{nothing_found};
ghost use Rattle.directory.specs.Asking.{view_in};
ghost use Rattle.op_read.specs.Choices.{chooses};
ghost use Rattle.op_read.specs.Seeing.{row_in, rows_at};
ghost use Rattle.op_read.specs.Sending.{shown_at, shown_among, Goes, IsSent, ended_by};
ghost use Rattle.op_read.specs.Short.{Puts};

use crate::candidates::Candidates;
use crate::choosing::Selection;
use crate::selecting::{is_found, is_seen};
use crate::writing::put_entry;
use acdf_filters::Item;
use acdf_filters::aci_item::Permission;
use dir_tree::dn_names::Dn;
use dir_tree::{EntryNo, NoMemory};
use directory::{Asking, Dir, Target, no_such_object, result_of};
use ldap_msg::{Ending, LdapResult, Reply, ResultCode, SearchRequest, put_reply};
use page_core::read_model::filter_match::Prepared;
use std::alloc::{AllocError, Global};

/// A search, with what is made of its request once for all entries.
#[derive(Drop)]
pub(crate) struct Search<'a> {
    /// The number of the message.
    pub(crate) id: u32,
    pub(crate) request: &'a SearchRequest,
    pub(crate) subentries: Option<bool>,
    pub(crate) filter: &'a Prepared<'a>,
    pub(crate) selection: Selection<'a>,
    /// How many entries may be sent; 0 where there is no limit.
    pub(crate) limit: u32,
    /// How many octets `out` may hold, before a further entry is refused.
    pub(crate) room: usize,
    ghost filtering: { filter.now ≡ request.now.filter },
    ghost types: { (kind : ℕ)
        → list_any (chooses kind) selection.choices.now ≡ is_chosen request.now.selection kind },
    ghost values: { selection.kinds_only ≡ request.now.kinds_only },
}

/// What was sent so far.
#[derive(Clone, Copy)]
pub(crate) struct Sent {
    /// The number of the last entry among it.
    pub(crate) last: Option<EntryNo>,
    /// How many more entries may be sent, where there is a limit.
    pub(crate) room: u32,
}

/// What a search has found.
#[derive(Clone, Copy)]
pub(crate) enum Found {
    /// No entry.
    Nothing,
    /// Entries, which all were sent.
    Some,
    /// More entries than may be sent; the number of the last that was.
    TooMany(Option<EntryNo>),
}

/// Appends the one reply. After the error, want of memory, or a content of 2^32 octets or more, `out` is as before.
pub(crate) fn put_one(id: u32, reply: &Reply, out: &mut Vec<u8>) -> Result<(), NoMemory>
    ensures ok { OnOk result (Puts id (reply.now ∷ []) out.old.items out.new.items) }
    ensures kept { Extends out.old.items out.new.items }
{
    put_reply(out, id, reply)
}

/// Appends how the search ended. After the error, as above, `out` is as before.
pub(crate) fn put_done(id: u32, ended: LdapResult, out: &mut Vec<u8>) -> Result<(), NoMemory>
    ensures ok { OnOk result (Puts id (reply.Ended ending.Done ended ∷ []) out.old.items out.new.items) }
    ensures kept { Extends out.old.items out.new.items }
{
    put_one(id, &Reply::Ended(Ending::Done, ended), out)
}

/// Whether the entry is selected, of those in the scope.
pub(crate) fn is_shown<D: Dir>(search: &Search<'_>, target: &Target<'_, '_, D>) -> bool
    ensures exact { result ≡ is_shown search.now.request.now search.now.subentries
        (row_in (D.rows target.now.asking.now.dir.now) target.now.asking.now.who.now target.now.entry.now) }
{
    is_seen(search.request.scope, search.subentries, target.entry)
        && is_found(search.filter, target)
}

// Sends the entry, which is selected, where there is room for it. Answers whether there was.
fn send<D: Dir>(
    alloc: Global,
    search: &Search<'_>,
    target: &Target<'_, '_, D>,
    sent: &mut Sent,
    out: &mut Vec<u8>,
) -> Result<bool, NoMemory>
    ensures ok { IfOk result (λ goes_on. Goes (rows_at (D.rows target.now.asking.now.dir.now) target.now.asking.now.who.now)
        search.now.limit search.now.id search.now.request.now
        (row_in (D.rows target.now.asking.now.dir.now) target.now.asking.now.who.now target.now.entry.now ∷ [])
        sent.old out.old.items sent.new out.new.items goes_on) }
    ensures kept { Extends out.old.items out.new.items }
{
    if search.limit == 0 {
        put_entry(alloc, search, target, out)?;
        sent.last = Some(target.number);
        return Ok(true);
    }
    if sent.room == 0 {
        return Ok(false);
    }
    put_entry(alloc, search, target, out)?;
    sent.last = Some(target.number);
    sent.room -= 1;
    Ok(true)
}

// Sends the entry if it is selected. The error also comes where `out` is past the room, whether it is selected or not.
fn offer<D: Dir>(
    alloc: Global,
    search: &Search<'_>,
    target: &Target<'_, '_, D>,
    sent: &mut Sent,
    out: &mut Vec<u8>,
) -> Result<bool, NoMemory>
    ensures ok { IfOk result (λ goes_on. Goes (rows_at (D.rows target.now.asking.now.dir.now) target.now.asking.now.who.now)
        search.now.limit search.now.id search.now.request.now
        (filter (is_shown search.now.request.now search.now.subentries)
        (row_in (D.rows target.now.asking.now.dir.now) target.now.asking.now.who.now target.now.entry.now ∷ []))
        sent.old out.old.items sent.new out.new.items goes_on) }
    ensures kept { Extends out.old.items out.new.items }
{
    if out.len() > search.room {
        return Err(AllocError);
    }
    if is_shown(search, target) {
        send(alloc, search, target, sent, out)
    } else {
        Ok(true)
    }
}

// The same of the entry of the number, if there is one.
fn offer_at<D: Dir>(
    alloc: Global,
    asking: &Asking<'_, D>,
    search: &Search<'_>,
    number: EntryNo,
    sent: &mut Sent,
    out: &mut Vec<u8>,
) -> Result<bool, NoMemory>
    ensures ok { IfOk result (λ goes_on. Goes (rows_at (D.rows asking.now.dir.now) asking.now.who.now) search.now.limit
        search.now.id search.now.request.now
        (shown_at (is_shown search.now.request.now search.now.subentries)
        (D.rows asking.now.dir.now) asking.now.who.now number.0)
        sent.old out.old.items sent.new out.new.items goes_on) }
    ensures kept { Extends out.old.items out.new.items }
{
    match asking.at(number) {
        Some(target) => offer(alloc, search, &target, sent, out),
        None => Ok(true),
    }
}

/// Sends the candidates that are selected, in their order: no more than the limit, if there is one. What is not selected
/// is not counted. The error comes for want of memory, or where `out` is past the room and candidates are left.
pub(crate) fn put_found<D: Dir>(
    alloc: Global,
    asking: &Asking<'_, D>,
    search: &Search<'_>,
    candidates: Candidates<'_>,
    out: &mut Vec<u8>,
) -> Result<Found, NoMemory>
    ensures ok { IfOk result (λ found. IsSent (rows_at (D.rows asking.now.dir.now) asking.now.who.now)
        search.now.limit search.now.id search.now.request.now
        (shown_among (is_shown search.now.request.now search.now.subentries) (D.rows asking.now.dir.now)
        asking.now.who.now candidates.entry)
        out.old.items out.new.items found) }
    ensures kept { Extends out.old.items out.new.items }
{
    let mut sent = Sent {
        last: None,
        room: search.limit,
    };
    for candidate in candidates {
        if !offer_at(alloc, asking, search, candidate, &mut sent, out)? {
            return Ok(Found::TooMany(sent.last));
        }
    }
    if sent.last.is_some() {
        Ok(Found::Some)
    } else {
        Ok(Found::Nothing)
    }
}

// How the search ends that selects nothing from the target on, which has the name of the base.
fn nothing_found<D: Dir>(
    alloc: Global,
    target: &Target<'_, '_, D>,
    base: &Dn,
) -> Result<LdapResult, NoMemory>
    requires tree { IsNumberedTree (D.rows target.now.asking.now.dir.now) }
    requires found { find_name base.now (D.rows target.now.asking.now.dir.now) ≡ Some target.now.number.0 }
    ensures ok { IfOk result (λ ended. ended
        ≡ nothing_found (view_in (D.rows target.now.asking.now.dir.now) target.now.asking.now.who.now) base.now) }
{
    if target.allows(Item::Entry, Permission::DiscloseOnError) {
        Ok(result_of(alloc, ResultCode::Success))
    } else {
        no_such_object(alloc, target.asking, base)
    }
}

/// How the search ends, by what it has found from the target on, which has the name of the base. The error comes where
/// memory is wanted.
pub(crate) fn ended_by<D: Dir>(
    alloc: Global,
    target: &Target<'_, '_, D>,
    base: &Dn,
    found: Found,
) -> Result<LdapResult, NoMemory>
    requires tree { IsNumberedTree (D.rows target.now.asking.now.dir.now) }
    requires found { find_name base.now (D.rows target.now.asking.now.dir.now) ≡ Some target.now.number.0 }
    ensures ok { IfOk result (λ ended. ended
        ≡ ended_by (view_in (D.rows target.now.asking.now.dir.now) target.now.asking.now.who.now) base.now found) }
{
    match found {
        Found::Nothing => nothing_found(alloc, target, base),
        Found::Some => Ok(result_of(alloc, ResultCode::Success)),
        Found::TooMany(_) => Ok(result_of(alloc, ResultCode::SizeLimitExceeded)),
    }
}

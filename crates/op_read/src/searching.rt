//! Searches.

ghost use Rattle.std.specs.Prelude.{◌≡◌, ◌++◌, ◌∷◌, [], Some, None, Ok, IfOk, OnOk, OnErr, if◌then◌else◌};
ghost use Rattle.dir_tree.specs.Scope.{scoped};
ghost use Rattle.dir_tree.specs.tree.Trees.{named_in};
ghost use Rattle.dir_tree.specs.tree.Numbered.{IsNumberedTree, entries_of, find_name};
ghost use Rattle.ldap_msg.specs.ber_layout.Spellings.{Extends};
ghost use Rattle.ldap_msg.specs.declared.kinds.Reply.TheVariants as reply;
ghost use Rattle.ldap_msg.specs.declared.operations.Ending.TheVariants as ending;
ghost use Rattle.page_core.specs.read_model.Views.{view_of, hidden};
ghost use Rattle.page_core.specs.read_model.Selecting.{is_shown, selected};
ghost use Rattle.page_core.specs.read_model.RootEntry.{finds_root, root_entry, root_replies};
ghost use Rattle.page_core.specs.read_model.SearchReplies.{replies_octets, found_replies, replies_at, replies_by, search_replies};
ghost use Rattle.directory.specs.Asking.{view_in};
ghost use Rattle.op_read.specs.Alike.{SendsAlike};
ghost use Rattle.op_read.specs.Seeing.{rows_at, scope_of};
ghost use Rattle.op_read.specs.Sending.{shown_among, IsSent};
ghost use Rattle.op_read.specs.Short.{AreShort, Puts};

use crate::candidates::{Candidates, candidates_of};
use crate::choosing::{Selection, read_choices};
use crate::root_entry::{finds_root, root_entry};
use crate::selecting::walk_from;
use crate::sending::{Found, Search, ended_by, put_done, put_found, put_one};
use acdf_filters::Requester;
use dir_tree::dn_names::Dn;
use dir_tree::{EntryNo, NoMemory};
use directory::{Asking, Dir, Target, absent, read_named, result_of};
use ldap_msg::{ResultCode, SearchRequest};
use page_core::read_model::filter_match::prepare_filter;
use std::alloc::Global;

/// A request to search, with the number of its message, what the control of subentries says (RFC 3672 3), and how many
/// octets `out` may hold before a further entry is refused.
#[derive(Clone, Copy)]
pub(crate) struct Asked<'a> {
    pub(crate) id: u32,
    pub(crate) request: &'a SearchRequest,
    pub(crate) subentries: Option<bool>,
    pub(crate) room: usize,
}

// Sends the entries of the scope that are selected, from the entry of the number on. Where the holders of a value that
// the filter needs are known, they alone are looked at.
fn put_scope<D: Dir>(
    alloc: Global,
    asking: &Asking<'_, D>,
    search: &Search<'_>,
    number: EntryNo,
    out: &mut Vec<u8>,
) -> Result<Found, NoMemory>
    ensures ok { IfOk result (λ found. IsSent (rows_at (D.rows asking.now.dir.now) asking.now.who.now)
        search.now.limit search.now.id search.now.request.now
        (shown_among (is_shown search.now.request.now search.now.subentries) (D.rows asking.now.dir.now)
        asking.now.who.now
        (scoped (scope_of search.now.request.now.scope) number.0 (D.rows asking.now.dir.now)))
        out.old.items out.new.items found) }
    ensures kept { Extends out.old.items out.new.items }
{
    match candidates_of(alloc, asking, search, number) {
        Some(numbers) => put_found(alloc, asking, search, Candidates::of_list(&numbers), out),
        None => {
            let walk = walk_from(asking, search.request.scope, number);
            put_found(alloc, asking, search, Candidates::of_walk(walk), out)
        }
    }
}

// Appends the replies to a search from the target on, which has the name.
fn put_selected<D: Dir>(
    alloc: Global,
    search: &Search<'_>,
    target: &Target<'_, '_, D>,
    base: &Dn,
    out: &mut Vec<u8>,
) -> Result<(), NoMemory>
    requires tree { IsNumberedTree (D.rows target.now.asking.now.dir.now) }
    requires found { find_name base.now (D.rows target.now.asking.now.dir.now) ≡ Some target.now.number.0 }
    requires limit { search.now.limit ≡ search.now.request.now.size }
    ensures ok { OnOk result (Puts search.now.id
        (found_replies (view_in (D.rows target.now.asking.now.dir.now) target.now.asking.now.who.now)
        search.now.request.now base.now
        (selected (view_in (D.rows target.now.asking.now.dir.now) target.now.asking.now.who.now) search.now.request.now
        search.now.subentries base.now))
        out.old.items out.new.items) }
    ensures kept { Extends out.old.items out.new.items }
{
    let found = put_scope(alloc, target.asking, search, target.number, out)?;
    let ended = ended_by(alloc, target, base, found)?;
    put_done(search.id, ended, out)
}

/// Appends what is answered where no entry has the name of the base.
pub(crate) fn put_absent<D: Dir>(
    alloc: Global,
    asking: &Asking<'_, D>,
    id: u32,
    base: &Dn,
    out: &mut Vec<u8>,
) -> Result<(), NoMemory>
    requires none { named_in base.now (entries_of (D.rows asking.now.dir.now)) ≡ None }
    ensures ok { OnOk result (Puts id
        (reply.Ended ending.Done (hidden (view_in (D.rows asking.now.dir.now) asking.now.who.now) base.now) ∷ [])
        out.old.items out.new.items) }
    ensures kept { Extends out.old.items out.new.items }
{
    let ended = absent(alloc, asking, base)?;
    put_done(id, ended, out)
}

// Appends the replies to a search of a name.
fn put_at<D: Dir>(
    alloc: Global,
    asking: &Asking<'_, D>,
    search: &Search<'_>,
    base: &Dn,
    out: &mut Vec<u8>,
) -> Result<(), NoMemory>
    requires limit { search.now.limit ≡ search.now.request.now.size }
    ensures ok { OnOk result (Puts search.now.id
        (replies_at (view_in (D.rows asking.now.dir.now) asking.now.who.now) search.now.request.now
        search.now.subentries base.now)
        out.old.items out.new.items) }
    ensures kept { Extends out.old.items out.new.items }
{
    asking.dir.tree().entries_form_a_tree();
    match asking.find(base) {
        Some(target) => put_selected(alloc, search, &target, base, out),
        None => put_absent(alloc, asking, search.id, base, out),
    }
}

// The same with what is made of the request: before the base is looked for, so that this takes as long where there is none.
fn put_prepared<D: Dir>(
    alloc: Global,
    asking: &Asking<'_, D>,
    asked: Asked<'_>,
    base: &Dn,
    out: &mut Vec<u8>,
) -> Result<(), NoMemory>
    ensures ok { OnOk result (Puts asked.entry.id
        (replies_at (view_in (D.rows asking.now.dir.now) asking.now.who.now) asked.entry.request.now
        asked.entry.subentries base.now)
        out.old.items out.new.items) }
    ensures kept { Extends out.old.items out.new.items }
{
    let filter = prepare_filter(alloc, &asked.request.filter)?;
    let choices = read_choices(alloc, asked.request.selection.as_slice())?;
    let selection = Selection {
        choices: &choices,
        kinds_only: asked.request.kinds_only,
    };
    let search = Search {
        id: asked.id,
        request: asked.request,
        subentries: asked.subentries,
        filter: &filter,
        selection,
        limit: asked.request.size,
        room: asked.room,
    };
    put_at(alloc, asking, &search, base, out)
}

// Appends the root DSE, if the search finds it.
fn put_root<D: Dir>(
    alloc: Global,
    asking: &Asking<'_, D>,
    asked: Asked<'_>,
    out: &mut Vec<u8>,
) -> Result<(), NoMemory>
    ensures ok { OnOk result (Puts asked.entry.id
        (if finds_root asked.entry.request.now asked.entry.subentries
        then root_entry (view_in (D.rows asking.now.dir.now) asking.now.who.now) asked.entry.request.now ∷ []
        else [])
        out.old.items out.new.items) }
    ensures kept { Extends out.old.items out.new.items }
{
    if finds_root(asked.request, asked.subentries) {
        let reply = root_entry(alloc, asking, asked.request)?;
        return put_one(asked.id, &reply, out);
    }
    Ok(())
}

/// Appends the replies to a search of the empty name.
pub(crate) fn put_root_replies<D: Dir>(
    alloc: Global,
    asking: &Asking<'_, D>,
    asked: Asked<'_>,
    out: &mut Vec<u8>,
) -> Result<(), NoMemory>
    ensures ok { OnOk result (Puts asked.entry.id
        (root_replies (view_in (D.rows asking.now.dir.now) asking.now.who.now) asked.entry.request.now
        asked.entry.subentries)
        out.old.items out.new.items) }
    ensures kept { Extends out.old.items out.new.items }
{
    if !asked.request.scope.is_base() {
        return put_done(asked.id, result_of(alloc, ResultCode::NoSuchObject), out);
    }
    put_root(alloc, asking, asked, out)?;
    put_done(asked.id, result_of(alloc, ResultCode::Success), out)
}

// Appends the replies to a search whose base is a name.
fn put_named<D: Dir>(
    alloc: Global,
    asking: &Asking<'_, D>,
    asked: Asked<'_>,
    base: &Dn,
    out: &mut Vec<u8>,
) -> Result<(), NoMemory>
    ensures ok { OnOk result (Puts asked.entry.id
        (replies_by (view_in (D.rows asking.now.dir.now) asking.now.who.now) asked.entry.request.now
        asked.entry.subentries (Ok base.now))
        out.old.items out.new.items) }
    ensures kept { Extends out.old.items out.new.items }
{
    if base.len() == 0 {
        return put_root_replies(alloc, asking, asked, out);
    }
    put_prepared(alloc, asking, asked, base, out)
}

/// Appends the replies to a search, the groups of whose requester are known.
pub(crate) fn put_known<D: Dir>(
    alloc: Global,
    asking: &Asking<'_, D>,
    asked: Asked<'_>,
    out: &mut Vec<u8>,
) -> Result<(), NoMemory>
    ensures ok { OnOk result (Puts asked.entry.id
        (search_replies (view_in (D.rows asking.now.dir.now) asking.now.who.now) asked.entry.request.now
        asked.entry.subentries)
        out.old.items out.new.items) }
    ensures kept { Extends out.old.items out.new.items }
{
    match read_named(alloc, asked.request.base.as_slice())? {
        Some(base) => put_named(alloc, asking, asked, &base, out),
        None => put_done(asked.id, result_of(alloc, ResultCode::InvalidDnSyntax), out),
    }
}

// Appends the replies to a search. After the error some of them may be there.
fn put_replies<D: Dir>(
    alloc: Global,
    dir: &D,
    who: &Requester,
    asked: Asked<'_>,
    out: &mut Vec<u8>,
) -> Result<(), NoMemory>
    ensures ok { OnOk result (Puts asked.entry.id
        (search_replies (view_of (entries_of (D.rows dir.now)) who.now) asked.entry.request.now
        asked.entry.subentries)
        out.old.items out.new.items) }
    ensures kept { Extends out.old.items out.new.items }
{
    let asking = Asking::new(alloc, dir, who)?;
    put_known(alloc, &asking, asked, out)
}

// Appends the replies to a search; after the error `out` is as before.
fn append_replies<D: Dir>(
    alloc: Global,
    dir: &D,
    who: &Requester,
    asked: Asked<'_>,
    out: &mut Vec<u8>,
) -> Result<(), NoMemory>
    ensures ok { OnOk result (Puts asked.entry.id
        (search_replies (view_of (entries_of (D.rows dir.now)) who.now) asked.entry.request.now
        asked.entry.subentries)
        out.old.items out.new.items) }
    ensures err { OnErr result (out.new.items ≡ out.old.items) }
{
    let before = out.len();
    match put_replies(alloc, dir, who, asked, out) {
        Ok(()) => Ok(()),
        Err(fault) => {
            out.truncate(before);
            Err(fault)
        }
    }
}

/// Appends the replies to a search (RFC 4511 4.5, X.511 10.2): the entries that are selected, in the order of names
/// and up to the limit of the request, and how the search ended. What the requester may not know of is answered as
/// what is not there: over two trees that differ only in a subtree of which it sees nothing, the same octets are
/// appended. `subentries` is what the control of subentries says, where it goes with the request (RFC 3672 3). The
/// error comes for want of memory, or past the room: where `out` holds more than `room` octets and entries of the scope
/// are left to be looked at. Then `out` is as before. Where the directory knows who holds a value that the filter needs,
/// the search costs its holders, and else the entries of the scope.
pub fn search<D: Dir>(
    alloc: Global,
    dir: &D,
    who: &Requester,
    id: u32,
    request: &SearchRequest,
    subentries: Option<bool>,
    room: usize,
    out: &mut Vec<u8>,
) -> Result<(), NoMemory>
    ensures ok { OnOk result (out.new.items ≡ out.old.items ++ replies_octets id
        (search_replies (view_of (entries_of (D.rows dir.now)) who.now) request.now subentries)) }
    // So each of them is read again.
    ensures short { OnOk result (AreShort id (search_replies (view_of (entries_of (D.rows dir.now)) who.now) request.now
        subentries)) }
    ensures err { OnErr result (out.new.items ≡ out.old.items) }
    ensures twins { OnOk result (SendsAlike who.now (entries_of (D.rows dir.now)) id request.now subentries
        out.old.items out.new.items) }
{
    let asked = Asked {
        id,
        request,
        subentries,
        room,
    };
    append_replies(alloc, dir, who, asked, out)
}

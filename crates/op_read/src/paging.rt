//! Searches by pages (RFC 2696).

ghost use Rattle.std.specs.Prelude.{◌≡◌, ◌≢◌, ◌++◌, Some, IfOk, OnOk, OnErr, filter};
ghost use Rattle.std.specs.Result.{result_ok};
ghost use Rattle.dir_tree.specs.Scope.{scoped};
ghost use Rattle.dir_tree.specs.dn_names.parsing.NameText.{read_name};
ghost use Rattle.dir_tree.specs.dn_names.Printing.{print_name};
ghost use Rattle.dir_tree.specs.tree.Numbered.{IsNumberedTree, entries_of, find_name};
ghost use Rattle.ldap_msg.specs.ber_layout.Spellings.{Extends};
ghost use Rattle.page_core.specs.read_model.Views.{view_of};
ghost use Rattle.page_core.specs.read_model.Selecting.{is_shown, selected};
ghost use Rattle.page_core.specs.Starts.{start_of, is_after};
ghost use Rattle.page_core.specs.Pages.{fits_page, last_name, paged_octets, page_by, page_replies};
ghost use Rattle.directory.specs.Asking.{view_in};
ghost use Rattle.op_read.specs.Alike.{SendsPageAlike};
ghost use Rattle.op_read.specs.Paging.{is_done, ending_page, page_of_none, page_ending, page_at, page_sized_at, page_from_at, page_named};
ghost use Rattle.op_read.specs.Seeing.{rows_at, scope_of};
ghost use Rattle.op_read.specs.Sending.{is_filled, shown_at, shown_among, IsSent};
ghost use Rattle.op_read.specs.Short.{IsShortPage, PutsPage};

use crate::candidates::{Candidates, candidates_after};
use crate::choosing::{Selection, read_choices};
use crate::searching::{Asked, put_absent, put_known, put_root_replies};
use crate::selecting::{walk_after, walk_from};
use crate::sending::{Found, Search, is_shown, put_done, put_found};
use acdf_filters::aci_item::Permission;
use acdf_filters::{Item, Requester};
use dir_tree::dn_names::Dn;
use dir_tree::{EntryNo, NoMemory};
use directory::{Asking, Dir, Target, no_such_object, printed, read_named, result_of};
use ldap_msg::plain_values::Octets;
use ldap_msg::{ResultCode, SearchRequest};
use page_core::read_model::filter_match::prepare_filter;
use page_core::{Page, put_page_end};
use std::alloc::Global;

/// The base of a search by pages, and the name behind which the page begins: the empty one begins with the first entry.
#[derive(Clone, Copy)]
struct Start<'a> {
    base: &'a Dn,
    after: &'a Dn,
}

// Whether the answer is one page, by the limit of the request.
fn fits_page(request: &SearchRequest, size: u32) -> bool
    ensures exact { result ≡ fits_page request.now size }
{
    request.size != 0 && request.size <= size
}

// The name that was read of the cookie, unless it is the empty one and the cookie is not empty.
fn start_named(name: Dn, cookie: &[u8]) -> Option<Dn>
    requires { Some name ≡ result_ok (read_name cookie.now) }
    ensures exact { result ≡ start_of cookie.now }
{
    if cookie.is_empty() {
        return Some(name);
    }
    if name.len() == 0 { None } else { Some(name) }
}

// The name behind which a page begins; None where the cookie says none.
fn read_start(alloc: Global, cookie: &[u8]) -> Result<Option<Dn>, NoMemory>
    ensures ok { IfOk result (λ start. start ≡ start_of cookie.now) }
{
    match read_named(alloc, cookie)? {
        Some(name) => Ok(start_named(name, cookie)),
        None => Ok(None),
    }
}

// Whether the entry of the number is selected, if there is one.
fn is_shown_at<D: Dir>(asking: &Asking<'_, D>, search: &Search<'_>, number: EntryNo) -> bool
    ensures exact { result ≡ is_filled (shown_at (is_shown search.now.request.now search.now.subentries)
        (D.rows asking.now.dir.now) asking.now.who.now number.0) }
{
    match asking.at(number) {
        Some(target) => is_shown(search, &target),
        None => false,
    }
}

// Whether an entry of the scope is selected, from the entry of the number on.
fn is_any_shown<D: Dir>(asking: &Asking<'_, D>, search: &Search<'_>, number: EntryNo) -> bool
    ensures exact { result ≡ is_filled (shown_among (is_shown search.now.request.now search.now.subentries)
        (D.rows asking.now.dir.now) asking.now.who.now
        (scoped (scope_of search.now.request.now.scope) number.0 (D.rows asking.now.dir.now))) }
{
    for candidate in walk_from(asking, search.request.scope, number) {
        if is_shown_at(asking, search, candidate) {
            return true;
        }
    }
    false
}

// Whether the whole search succeeds, where no entry is behind the name. An entry is looked for only where the base is
// hidden.
fn is_done<D: Dir>(search: &Search<'_>, target: &Target<'_, '_, D>, base: &Dn) -> bool
    requires tree { IsNumberedTree (D.rows target.now.asking.now.dir.now) }
    requires found { find_name base.now (D.rows target.now.asking.now.dir.now) ≡ Some target.now.number.0 }
    ensures exact { result ≡ is_done (view_in (D.rows target.now.asking.now.dir.now) target.now.asking.now.who.now)
        (selected (view_in (D.rows target.now.asking.now.dir.now) target.now.asking.now.who.now) search.now.request.now
        search.now.subentries base.now) base.now }
{
    target.allows(Item::Entry, Permission::DiscloseOnError)
        || is_any_shown(target.asking, search, target.number)
}

// Appends the end of a page with the cookie.
fn put_end(id: u32, cookie: &[u8], out: &mut Vec<u8>) -> Result<(), NoMemory>
    ensures ok { OnOk result (PutsPage id (ending_page cookie.now) out.old.items out.new.items) }
    ensures kept { Extends out.old.items out.new.items }
{
    put_page_end(out, id, cookie)
}

// Appends how a page ends behind whose name no entry is.
fn put_none<D: Dir>(
    alloc: Global,
    search: &Search<'_>,
    target: &Target<'_, '_, D>,
    base: &Dn,
    out: &mut Vec<u8>,
) -> Result<(), NoMemory>
    requires tree { IsNumberedTree (D.rows target.now.asking.now.dir.now) }
    requires found { find_name base.now (D.rows target.now.asking.now.dir.now) ≡ Some target.now.number.0 }
    ensures ok { OnOk result (PutsPage search.now.id
        (page_of_none (view_in (D.rows target.now.asking.now.dir.now) target.now.asking.now.who.now)
        (selected (view_in (D.rows target.now.asking.now.dir.now) target.now.asking.now.who.now) search.now.request.now
        search.now.subentries base.now) base.now)
        out.old.items out.new.items) }
    ensures kept { Extends out.old.items out.new.items }
{
    if is_done(search, target, base) {
        return put_end(search.id, &[], out);
    }
    let ended = no_such_object(alloc, target.asking, base)?;
    put_done(search.id, ended, out)
}

// The name of the entry of the number as text; empty where there is none.
fn name_of<D: Dir>(
    alloc: Global,
    asking: &Asking<'_, D>,
    number: EntryNo,
) -> Result<Octets, NoMemory>
    ensures ok { IfOk result (λ name. name ≡ print_name
        (last_name (rows_at (D.rows asking.now.dir.now) asking.now.who.now (Some number)))) }
{
    match asking.dir.tree().at(number) {
        Some(entry) => printed(alloc, entry.name()),
        None => Ok(Octets::from_vec(Vec::new(alloc))),
    }
}

// The same of a number, if there is one.
fn name_at<D: Dir>(
    alloc: Global,
    asking: &Asking<'_, D>,
    number: Option<EntryNo>,
) -> Result<Octets, NoMemory>
    ensures ok { IfOk result (λ name. name
        ≡ print_name (last_name (rows_at (D.rows asking.now.dir.now) asking.now.who.now number))) }
{
    match number {
        Some(number) => name_of(alloc, asking, number),
        None => Ok(Octets::from_vec(Vec::new(alloc))),
    }
}

// Appends the end of a page with the name of its last entry.
fn put_more<D: Dir>(
    alloc: Global,
    asking: &Asking<'_, D>,
    id: u32,
    last: Option<EntryNo>,
    out: &mut Vec<u8>,
) -> Result<(), NoMemory>
    ensures ok { OnOk result (PutsPage id (ending_page
        (print_name (last_name (rows_at (D.rows asking.now.dir.now) asking.now.who.now last))))
        out.old.items out.new.items) }
    ensures kept { Extends out.old.items out.new.items }
{
    let cookie = name_at(alloc, asking, last)?;
    put_end(id, cookie.as_slice(), out)
}

// Appends how a page ends, by what was found for it.
fn put_ending<D: Dir>(
    alloc: Global,
    search: &Search<'_>,
    target: &Target<'_, '_, D>,
    base: &Dn,
    found: Found,
    out: &mut Vec<u8>,
) -> Result<(), NoMemory>
    requires tree { IsNumberedTree (D.rows target.now.asking.now.dir.now) }
    requires found { find_name base.now (D.rows target.now.asking.now.dir.now) ≡ Some target.now.number.0 }
    ensures ok { OnOk result (PutsPage search.now.id (page_ending
        (rows_at (D.rows target.now.asking.now.dir.now) target.now.asking.now.who.now)
        (view_in (D.rows target.now.asking.now.dir.now) target.now.asking.now.who.now)
        (selected (view_in (D.rows target.now.asking.now.dir.now) target.now.asking.now.who.now) search.now.request.now
        search.now.subentries base.now) base.now found)
        out.old.items out.new.items) }
    ensures kept { Extends out.old.items out.new.items }
{
    match found {
        Found::Nothing => put_none(alloc, search, target, base, out),
        Found::Some => put_end(search.id, &[], out),
        Found::TooMany(last) => put_more(alloc, target.asking, search.id, last, out),
    }
}

// Sends the entries of the scope that are selected and come after the name, from the target on, which has the name of the
// base. Where the holders of a value that the filter needs are known, they alone are looked at.
fn put_behind<D: Dir>(
    alloc: Global,
    search: &Search<'_>,
    target: &Target<'_, '_, D>,
    start: Start<'_>,
    out: &mut Vec<u8>,
) -> Result<Found, NoMemory>
    requires tree { IsNumberedTree (D.rows target.now.asking.now.dir.now) }
    requires found { find_name start.base.now (D.rows target.now.asking.now.dir.now) ≡ Some target.now.number.0 }
    ensures ok { IfOk result (λ found. IsSent
        (rows_at (D.rows target.now.asking.now.dir.now) target.now.asking.now.who.now)
        search.now.limit search.now.id search.now.request.now
        (filter (is_after start.entry.after.now)
        (selected (view_in (D.rows target.now.asking.now.dir.now) target.now.asking.now.who.now) search.now.request.now
        search.now.subentries start.entry.base.now))
        out.old.items out.new.items found) }
    ensures kept { Extends out.old.items out.new.items }
{
    let asking = target.asking;
    match candidates_after(alloc, asking, search, target.number, start.after) {
        Some(numbers) => put_found(alloc, asking, search, Candidates::of_list(&numbers), out),
        None => {
            let walk = walk_after(asking, search.request.scope, target.number, start.after);
            put_found(alloc, asking, search, Candidates::of_walk(walk), out)
        }
    }
}

// Appends a page of a search from the target on, which has the name of the base.
fn put_page_selected<D: Dir>(
    alloc: Global,
    search: &Search<'_>,
    target: &Target<'_, '_, D>,
    start: Start<'_>,
    out: &mut Vec<u8>,
) -> Result<(), NoMemory>
    requires tree { IsNumberedTree (D.rows target.now.asking.now.dir.now) }
    requires found { find_name start.base.now (D.rows target.now.asking.now.dir.now) ≡ Some target.now.number.0 }
    requires limit { search.now.limit ≢ 0 }
    ensures ok { OnOk result (PutsPage search.now.id
        (page_at (view_in (D.rows target.now.asking.now.dir.now) target.now.asking.now.who.now) search.now.request.now
        search.now.subentries start.entry.base.now search.now.limit start.entry.after.now)
        out.old.items out.new.items) }
    ensures kept { Extends out.old.items out.new.items }
{
    let found = put_behind(alloc, search, target, start, out)?;
    put_ending(alloc, search, target, start.base, found, out)
}

// Appends a page of a search of a name.
fn put_page_at<D: Dir>(
    alloc: Global,
    asking: &Asking<'_, D>,
    search: &Search<'_>,
    start: Start<'_>,
    out: &mut Vec<u8>,
) -> Result<(), NoMemory>
    requires limit { search.now.limit ≢ 0 }
    ensures ok { OnOk result (PutsPage search.now.id
        (page_at (view_in (D.rows asking.now.dir.now) asking.now.who.now) search.now.request.now
        search.now.subentries start.entry.base.now search.now.limit start.entry.after.now)
        out.old.items out.new.items) }
    ensures kept { Extends out.old.items out.new.items }
{
    asking.dir.tree().entries_form_a_tree();
    match asking.find(start.base) {
        Some(target) => put_page_selected(alloc, search, &target, start, out),
        None => put_absent(alloc, asking, search.id, start.base, out),
    }
}

// The same with what is made of the request: before the base is looked for, so that this takes as long where there is none.
fn put_page_prepared<D: Dir>(
    alloc: Global,
    asking: &Asking<'_, D>,
    asked: Asked<'_>,
    size: u32,
    start: Start<'_>,
    out: &mut Vec<u8>,
) -> Result<(), NoMemory>
    requires { size ≢ 0 }
    ensures ok { OnOk result (PutsPage asked.entry.id
        (page_at (view_in (D.rows asking.now.dir.now) asking.now.who.now) asked.entry.request.now
        asked.entry.subentries start.entry.base.now size start.entry.after.now)
        out.old.items out.new.items) }
    ensures kept { Extends out.old.items out.new.items }
{
    let filter = prepare_filter(alloc, &asked.request.filter)?;
    let choices = read_choices(alloc, asked.request.selection.as_slice())?;
    let selection = Selection {
        choices: &choices,
        kinds_only: asked.request.kinds_only,
    };
    let search = Search {
        id: asked.id,
        request: asked.request,
        subentries: asked.subentries,
        filter: &filter,
        selection,
        limit: size,
        room: asked.room,
    };
    put_page_at(alloc, asking, &search, start, out)
}

// Appends a page of the size: of none there are no entries.
fn put_page_sized<D: Dir>(
    alloc: Global,
    asking: &Asking<'_, D>,
    asked: Asked<'_>,
    size: u32,
    start: Start<'_>,
    out: &mut Vec<u8>,
) -> Result<(), NoMemory>
    ensures ok { OnOk result (PutsPage asked.entry.id
        (page_sized_at (view_in (D.rows asking.now.dir.now) asking.now.who.now) asked.entry.request.now
        asked.entry.subentries start.entry.base.now size start.entry.after.now)
        out.old.items out.new.items) }
    ensures kept { Extends out.old.items out.new.items }
{
    if size == 0 {
        return put_end(asked.id, &[], out);
    }
    put_page_prepared(alloc, asking, asked, size, start, out)
}

// Appends a page of a search whose base is a name, which isn't empty.
fn put_page_from<D: Dir>(
    alloc: Global,
    asking: &Asking<'_, D>,
    asked: Asked<'_>,
    base: &Dn,
    page: &Page,
    out: &mut Vec<u8>,
) -> Result<(), NoMemory>
    ensures ok { OnOk result (PutsPage asked.entry.id
        (page_from_at (view_in (D.rows asking.now.dir.now) asking.now.who.now) asked.entry.request.now
        asked.entry.subentries base.now page.now.size (start_of page.now.cookie))
        out.old.items out.new.items) }
    ensures kept { Extends out.old.items out.new.items }
{
    match read_start(alloc, page.cookie.as_slice())? {
        Some(after) => {
            let start = Start {
                base,
                after: &after,
            };
            put_page_sized(alloc, asking, asked, page.size, start, out)
        }
        None => {
            let ended = result_of(alloc, ResultCode::UnwillingToPerform);
            put_done(asked.id, ended, out)
        }
    }
}

// Appends the answer to a search by pages of a name: the root DSE isn't paged.
fn put_page_named<D: Dir>(
    alloc: Global,
    asking: &Asking<'_, D>,
    asked: Asked<'_>,
    base: &Dn,
    page: &Page,
    out: &mut Vec<u8>,
) -> Result<(), NoMemory>
    ensures ok { OnOk result (PutsPage asked.entry.id
        (page_named (view_in (D.rows asking.now.dir.now) asking.now.who.now) asked.entry.request.now
        asked.entry.subentries page.now base.now)
        out.old.items out.new.items) }
    ensures kept { Extends out.old.items out.new.items }
{
    if base.len() == 0 {
        return put_root_replies(alloc, asking, asked, out);
    }
    put_page_from(alloc, asking, asked, base, page, out)
}

// Appends the answer to a search by pages, by what its base is.
fn put_page_by<D: Dir>(
    alloc: Global,
    asking: &Asking<'_, D>,
    asked: Asked<'_>,
    page: &Page,
    out: &mut Vec<u8>,
) -> Result<(), NoMemory>
    ensures ok { OnOk result (PutsPage asked.entry.id
        (page_by (view_in (D.rows asking.now.dir.now) asking.now.who.now) asked.entry.request.now
        asked.entry.subentries page.now (read_name asked.entry.request.now.base))
        out.old.items out.new.items) }
    ensures kept { Extends out.old.items out.new.items }
{
    match read_named(alloc, asked.request.base.as_slice())? {
        Some(base) => put_page_named(alloc, asking, asked, &base, page, out),
        None => put_done(asked.id, result_of(alloc, ResultCode::InvalidDnSyntax), out),
    }
}

// Appends the answer to a search by pages, the groups of whose requester are known.
fn put_page_known<D: Dir>(
    alloc: Global,
    asking: &Asking<'_, D>,
    asked: Asked<'_>,
    page: &Page,
    out: &mut Vec<u8>,
) -> Result<(), NoMemory>
    ensures ok { OnOk result (PutsPage asked.entry.id
        (page_replies (view_in (D.rows asking.now.dir.now) asking.now.who.now) asked.entry.request.now
        asked.entry.subentries page.now)
        out.old.items out.new.items) }
    ensures kept { Extends out.old.items out.new.items }
{
    if fits_page(asked.request, page.size) {
        return put_known(alloc, asking, asked, out);
    }
    put_page_by(alloc, asking, asked, page, out)
}

// Appends the answer to a search by pages. After the error some of it may be there.
fn put_page<D: Dir>(
    alloc: Global,
    dir: &D,
    who: &Requester,
    asked: Asked<'_>,
    page: &Page,
    out: &mut Vec<u8>,
) -> Result<(), NoMemory>
    ensures ok { OnOk result (PutsPage asked.entry.id
        (page_replies (view_of (entries_of (D.rows dir.now)) who.now) asked.entry.request.now
        asked.entry.subentries page.now)
        out.old.items out.new.items) }
    ensures kept { Extends out.old.items out.new.items }
{
    let asking = Asking::new(alloc, dir, who)?;
    put_page_known(alloc, &asking, asked, page, out)
}

// Appends the answer to a search by pages; after the error `out` is as before.
fn append_page<D: Dir>(
    alloc: Global,
    dir: &D,
    who: &Requester,
    asked: Asked<'_>,
    page: &Page,
    out: &mut Vec<u8>,
) -> Result<(), NoMemory>
    ensures ok { OnOk result (PutsPage asked.entry.id
        (page_replies (view_of (entries_of (D.rows dir.now)) who.now) asked.entry.request.now
        asked.entry.subentries page.now)
        out.old.items out.new.items) }
    ensures err { OnErr result (out.new.items ≡ out.old.items) }
{
    let before = out.len();
    match put_page(alloc, dir, who, asked, page, out) {
        Ok(()) => Ok(()),
        Err(fault) => {
            out.truncate(before);
            Err(fault)
        }
    }
}

/// Appends the answer to a search with the control of pages (RFC 2696): of the entries that are selected, in the order
/// of names, those behind the name that the cookie says, as many as the page's size, and the end of the page, with the
/// last one's name where more are left. It costs what is sent and what the filter passes over: what comes before the
/// page is not walked over, nor what comes behind the first entry too many; where the directory knows who holds a value
/// that the filter needs, it costs its holders. What the requester may not know of is
/// answered as what is not there: over two trees that differ only in a subtree of which it sees nothing, the same octets
/// are appended. `subentries` is what the control of subentries says, where it goes with the request (RFC 3672 3). The
/// error comes for want of memory, or past the room: where `out` holds more than `room` octets and entries of the scope
/// are left to be looked at. Then `out` is as before.
pub fn search_page<D: Dir>(
    alloc: Global,
    dir: &D,
    who: &Requester,
    id: u32,
    request: &SearchRequest,
    subentries: Option<bool>,
    page: &Page,
    room: usize,
    out: &mut Vec<u8>,
) -> Result<(), NoMemory>
    ensures ok { OnOk result (out.new.items ≡ out.old.items ++ paged_octets id
        (page_replies (view_of (entries_of (D.rows dir.now)) who.now) request.now subentries page.now)) }
    // So it is read again.
    ensures short { OnOk result (IsShortPage id (page_replies (view_of (entries_of (D.rows dir.now)) who.now) request.now
        subentries page.now)) }
    ensures err { OnErr result (out.new.items ≡ out.old.items) }
    ensures twins { OnOk result (SendsPageAlike who.now (entries_of (D.rows dir.now)) id request.now subentries
        page.now out.old.items out.new.items) }
{
    let asked = Asked {
        id,
        request,
        subentries,
        room,
    };
    append_page(alloc, dir, who, asked, page, out)
}

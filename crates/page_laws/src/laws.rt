//! The laws of pages: each function computes nothing, and what it ensures is a law.

ghost use Rattle.std.specs.Prelude.{◌≡◌, ℕ, ◌<◌, Bool, List, [], ◌∷◌, length, Option, Some};
ghost use Rattle.dir_tree.specs.dn_names.name.Names.{RdnSequence};
ghost use Rattle.dir_tree.specs.Entry.{EntryInformation};
ghost use Rattle.dir_tree.specs.tree.Trees.{IsTree};
ghost use Rattle.acdf_filters.specs.declared.asking.Requester.{Requester};
ghost use Rattle.ldap_msg.specs.declared.kinds.SearchRequest.{SearchRequest};
ghost use Rattle.read_model.specs.Views.{View, view_of};
ghost use Rattle.page_core.specs.declared.page.Page.{Page};
ghost use Rattle.page_core.specs.Pages.{page_replies};
ghost use Rattle.twin_laws.specs.Twins.{AreTwins};
ghost use Rattle.page_laws.specs.Listing.{AreReadAgain, IsListable, JoinsToAnswer, IsNameOfLast};

/// Pages of a size above 0, from an empty cookie on and each with the cookie of the one before, come to an end, and join
/// to the entries of the answer without pages: each once and in order. This is so of every tree whose printed names are
/// read again, and of every requester and search without a limit that succeeds below a base other than the
/// empty name. No write comes in between.
pub fn pages_join_to_the_answer()
    ensures { (entries : List EntryInformation) → IsTree entries → AreReadAgain entries → (who : Requester)
        (request : SearchRequest) (subentries : Option Bool) → IsListable (view_of entries who) request subentries
        → (size count : ℕ) → 0 < size → length entries < count
        → JoinsToAnswer (view_of entries who) request subentries size count }
{}

/// A cookie that isn't empty is the name of the last entry that was sent in its page, whatever was asked.
pub fn a_cookie_names_the_last_entry()
    ensures { (view : View) (request : SearchRequest) (subentries : Option Bool) (page : Page)
        (octet : ℕ) (octets : List ℕ)
        → (page_replies view request subentries page).cookie ≡ Some (octet ∷ octets)
        → IsNameOfLast (octet ∷ octets) (page_replies view request subentries page).replies }
{}

/// A requester gets of twins the same page to every search, whatever page is asked for.
pub fn twins_get_equal_pages()
    ensures { (who : Requester) (one other : List EntryInformation) (top : RdnSequence)
        → AreTwins who one other top → (request : SearchRequest) (subentries : Option Bool) (page : Page)
        → page_replies (view_of one who) request subentries page
        ≡ page_replies (view_of other who) request subentries page }
{}

//! Laws over the definitions: each function's clauses are the laws, and its body does nothing.

ghost use Rattle.std.specs.Prelude.{◌≡◌, ℕ, List, Some};
ghost use Rattle.ldap_msg.specs.Replies.{reply_of};
ghost use Rattle.page_core.specs.declared.page.Page.{Page};
ghost use Rattle.page_core.specs.Values.{SaysPage, page_of, page_octets};
ghost use Rattle.page_core.specs.Endings.{done, page_end};
ghost use Rattle.page_core.specs.Laws.{IsWritablePage, IsWritableEnd, EndsPage};

/// A written value of the control of pages is read again (RFC 2696 2), and so is the end of a page: as a message with
/// that control, and as the reply that the search is done.
pub fn a_written_page_is_read_again()
    ensures says { (page : Page) → IsWritablePage page → SaysPage page (page_octets page) }
    ensures exact { (page : Page) → IsWritablePage page → page_of (page_octets page) ≡ Some page }
    ensures ends { (id : ℕ) (cookie : List ℕ) → IsWritableEnd id cookie → EndsPage id cookie (page_end id cookie) }
    ensures reply { (id : ℕ) (cookie : List ℕ) → IsWritableEnd id cookie
        → reply_of (page_end id cookie) ≡ Some (id, done) }
{}

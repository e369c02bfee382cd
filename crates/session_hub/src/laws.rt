//! The laws of sessions in this server: a function here computes nothing, and what it ensures is a law.

ghost use Rattle.std.specs.Prelude.{◌≡◌, ◌<◌, ◌≤◌, List, ℕ, false, None};
ghost use Rattle.std.specs.List.{AllByRecursion};
ghost use Rattle.op_read.specs.aci_item.Rules.{IsGoodTree};
ghost use Rattle.session_model.specs.Run.{Step, start, run};
ghost use Rattle.session_model.specs.Kept.{Held};
ghost use Rattle.session_model.specs.Replaying.{replayed};
ghost use Rattle.session_model.specs.Purging.{answered_of_connection, answered_in_replay};
ghost use Rattle.session_model.specs.Places.{places, places_of_replay};
ghost use Rattle.session_hub.specs.Parties.{DirectoryEntries, Requester};
ghost use Rattle.session_hub.specs.Terms.{Terms};
ghost use Rattle.session_hub.specs.Answering.{rules, answered};
ghost use Rattle.session_model.specs.ldap_msg.declared.kinds.Message.{Message};
ghost use Rattle.session_model.specs.ldap_msg.declared.kinds.Control.{Control};
ghost use Rattle.session_model.specs.ldap_msg.declared.kinds.SearchRequest.{SearchRequest};
ghost use Rattle.session_model.specs.ldap_msg.declared.kinds.Request.TheVariants as request;
ghost use Rattle.session_hub.specs.declared.event.Event.{Event};
ghost use Rattle.session_hub.specs.Event.{step_of, step_by};
ghost use Rattle.session_hub.specs.hub.Hubs.{Hears};
ghost use Rattle.session_hub.specs.Limiting.{limited_message, limited_request, KeepsAsked, entries_among};

use change_laws::laws::{a_good_tree_stays_good, a_good_tree_stays_good_when_changed};

/// What each answer, and so sessions, leave of a good tree is a good tree, whatever is asked, by whom and in which order,
/// and on whichever terms the server answers. So is the tree of each place, and that over which each message of a
/// connection is answered, where events are replayed too.
pub fn sessions_keep_a_directory_good()
    ensures answers { (terms : Terms) (entries : DirectoryEntries) (who : Requester) (bytes : List ℕ) → IsGoodTree entries
        → IsGoodTree ((rules terms).answer entries who bytes).tree }
    ensures good { (terms : Terms) (entries : DirectoryEntries) (steps : List Step) → IsGoodTree entries
        → IsGoodTree (run (rules terms) entries steps).tree }
    ensures replay { (terms : Terms) (entries : DirectoryEntries) (events : List Step) → IsGoodTree entries
        → IsGoodTree (replayed (rules terms) entries events).tree }

    // at each place, and for each message of a connection
    ensures places { (terms : Terms) (number : ℕ) (entries : DirectoryEntries) (steps : List Step) → IsGoodTree entries
        → AllByRecursion (λ place. IsGoodTree place.tree) (places (rules terms) number entries steps) }
    ensures replay_places { (terms : Terms) (number : ℕ) (entries : DirectoryEntries) (events : List Step) → IsGoodTree entries
        → AllByRecursion (λ place. IsGoodTree place.tree) (places_of_replay (rules terms) number entries events) }
    ensures messages { (terms : Terms) (number : ℕ) (entries : DirectoryEntries) (steps : List Step) → IsGoodTree entries
        → AllByRecursion (λ asked. IsGoodTree asked.tree) (answered_of_connection (rules terms) number (start (rules terms) entries) steps) }
    ensures replay_messages { (terms : Terms) (number : ℕ) (entries : DirectoryEntries) (events : List Step) → IsGoodTree entries
        → AllByRecursion (λ asked. IsGoodTree asked.tree) (answered_in_replay (rules terms) number (start (rules terms) entries) events) }
{
    a_good_tree_stays_good();
    a_good_tree_stays_good_when_changed();
}

/// A server's limit on searches keeps of a message its number, its controls and what it asks for, but for the sizeLimit of
/// a search, which is then one, and at most the server's (RFC 4511 4.5.1.4). Without a limit the whole message is kept.
pub fn a_limit_changes_no_more_than_a_size_limit()
    ensures kept { (limit : ℕ) (message : Message) → KeepsAsked limit message (limited_message limit message) }
    ensures none { (message : Message) → limited_message 0 message ≡ message }
{}

/// A search is answered with no more entries than the server's limit, where it has one.
pub fn a_limited_search_sends_no_more_entries()
    ensures exact { (limit : ℕ) (entries : DirectoryEntries) (who : Requester) (controls : List Control)
        (search : SearchRequest) → 0 < limit
        → entries_among (answered entries who controls (limited_request limit (request.Search search))).replies ≤ limit }
{}

/// An event was heard whole where no connection was cut until after it.
pub fn an_event_is_heard_whole_where_nothing_was_cut()
    ensures exact { (terms : Terms) (came : Event) (old new : Held DirectoryEntries Requester) → Hears terms came old new
        → new.was_cut ≡ false → step_by came old.kept new.kept ≡ step_of came None }
{}

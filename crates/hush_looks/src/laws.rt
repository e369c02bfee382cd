//! Why most places need no look: each function computes nothing, and what it ensures is a law.

ghost use Rattle.std.specs.Prelude.{◌≡◌, ◌≢◌, ◌==◌, ℕ, Bool, true, false, List, [], None};
ghost use Rattle.dir_tree.specs.dn_names.name.Names.{RdnSequence};
ghost use Rattle.session_hub.specs.session_model.Run.{Sessions, Open, Opened, Bytes, Ended, step, new_messages};
ghost use Rattle.session_hub.specs.session_model.Replaying.{hung_up};
ghost use Rattle.session_hub.specs.session_model.Places.{CompletesOne};
ghost use Rattle.session_hub.specs.Parties.{DirectoryEntries, Requester};
ghost use Rattle.session_hub.specs.declared.bounds.Terms.{Terms};
ghost use Rattle.session_hub.specs.Answering.{rules};
ghost use Rattle.hush_laws.specs.Requests.{failing_request};
ghost use Rattle.hush_looks.specs.Due.{is_due};
ghost use Rattle.hush_looks.specs.Looks.{StaysShown, failing_standing};

/// A message that is not due leaves the tree, whoever sent it. One of the connection's own leaves its requester too, and no
/// part forbids it.
pub fn what_is_not_due_stays()
    ensures tree { (terms : Terms) (own : Bool) (tree : DirectoryEntries) (who : Requester) (octets : List ℕ)
        → is_due own octets ≡ false → ((rules terms).answer tree who octets).tree ≡ tree }
    ensures who { (terms : Terms) (tree : DirectoryEntries) (who : Requester) (octets : List ℕ)
        → is_due true octets ≡ false → ((rules terms).answer tree who octets).who ≡ who }
    ensures request { (top : RdnSequence) (octets : List ℕ) → is_due true octets ≡ false → failing_request top octets ≡ None }
{}

/// A step shows a connection nothing new where the one message that it completes is not due, where it completes none or isn't
/// of an open connection, where another connection opens, and at the end of a peer's octets; nor does hanging up.
pub fn a_step_that_is_not_due_shows_nothing_new()
    ensures message { (terms : Terms) (number other : ℕ) (sessions : Sessions DirectoryEntries Requester) (piece message : List ℕ)
        → CompletesOne sessions other piece message → is_due (other == number) message ≡ false
        → StaysShown number sessions (step (rules terms) sessions (Bytes other piece None)) }
    ensures none { (terms : Terms) (number other : ℕ) (sessions : Sessions DirectoryEntries Requester) (piece : List ℕ)
        → new_messages (sessions.of other).stream piece ≡ []
        → StaysShown number sessions (step (rules terms) sessions (Bytes other piece None)) }
    ensures closed { (terms : Terms) (number other : ℕ) (sessions : Sessions DirectoryEntries Requester) (piece : List ℕ)
        → (sessions.of other).state ≢ Open
        → StaysShown number sessions (step (rules terms) sessions (Bytes other piece None)) }
    ensures opened { (terms : Terms) (number other : ℕ) (sessions : Sessions DirectoryEntries Requester) → other ≢ number
        → StaysShown number sessions (step (rules terms) sessions (Opened other)) }
    ensures ended { (terms : Terms) (number other : ℕ) (sessions : Sessions DirectoryEntries Requester)
        → StaysShown number sessions (step (rules terms) sessions (Ended other)) }
    ensures hung_up { (terms : Terms) (number other : ℕ) (sessions after : Sessions DirectoryEntries Requester)
        → StaysShown number sessions after → StaysShown number sessions (hung_up (rules terms) other after) }
{}

/// Where no part fails and nothing new is shown, no part fails.
pub fn what_shows_nothing_new_fails_no_part()
    ensures exact { (top : RdnSequence) (before : DirectoryEntries) (number : ℕ)
        (sessions after : Sessions DirectoryEntries Requester) → StaysShown number sessions after
        → failing_standing top before number sessions ≡ None → failing_standing top before number after ≡ None }
{}

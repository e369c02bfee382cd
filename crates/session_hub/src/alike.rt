//! Laws of sessions over twins: each function computes nothing, and what it ensures is a law.

ghost use Rattle.std.specs.Prelude.{◌≡◌, ◌≤◌, ℕ, true, List};
ghost use Rattle.std.specs.List.{AllByRecursion};
ghost use Rattle.dir_tree.specs.dn_names.name.Names.{RdnSequence};
ghost use Rattle.session_model.specs.Run.{Step, start, run};
ghost use Rattle.session_model.specs.Replaying.{replayed};
ghost use Rattle.session_model.specs.AnsweredMessages.{AnsweredMessage, AreOver, IsAnsweredAlike, answered_of_run, answered_of_replay};
ghost use Rattle.session_model.specs.Purging.{purged, openings, finds_room, answered_of_connection, finds_room_in_replay, answered_in_replay};
ghost use Rattle.session_model.specs.wire_io.declared.journal.Item.{Item};
ghost use Rattle.session_model.specs.Serving.{Sound, Served, IsFront};
ghost use Rattle.session_hub.specs.Parties.{DirectoryEntries, Requester};
ghost use Rattle.session_hub.specs.Terms.{Terms};
ghost use Rattle.session_hub.specs.Answering.{rules};
ghost use Rattle.session_hub.specs.Twins.{IsOverTwins};

/// A search, a compare, an abandon, an unbind, an extended request, a bind with a name outside the subtree, or octets
/// that are no message are answered alike over twins, on whichever terms the server answers: the same octets are sent, the same requester is
/// left, and the entries stay.
pub fn twins_are_answered_alike()
    ensures exact { (terms : Terms) (other : DirectoryEntries) (top : RdnSequence) (asked : AnsweredMessage DirectoryEntries Requester) →
        IsOverTwins other top asked → IsAnsweredAlike (rules terms) other asked }
{}

/// Steps leave the same sessions over twins, of however many connections, where each of their messages is so; and so
/// do events where each connection that closes is hung up at once.
pub fn runs_over_twins_are_alike()
    ensures run { (terms : Terms) (one other : DirectoryEntries) (top : RdnSequence) (steps : List Step) →
        AllByRecursion (IsOverTwins other top) (answered_of_run (rules terms) (start (rules terms) one) steps) →
        AreOver one other (run (rules terms) one steps) (run (rules terms) other steps) }
    ensures replay { (terms : Terms) (one other : DirectoryEntries) (top : RdnSequence) (steps : List Step) →
        AllByRecursion (IsOverTwins other top) (answered_of_replay (rules terms) (start (rules terms) one) steps) →
        AreOver one other (replayed (rules terms) one steps) (replayed (rules terms) other steps) }
{}

/// A connection gets by the steps of all what it gets by its own alone, where it opens once at most and finds room,
/// and the entries over which each of its messages is answered are twins of those of the beginning. The others may
/// change what lies in the subtree meanwhile. So it is where events are replayed; and what a link took of the connection is
/// a front of what it gets alone.
pub fn other_sessions_do_not_show()
    ensures exact { (terms : Terms) (entries : DirectoryEntries) (top : RdnSequence) (number : ℕ) (steps : List Step) → openings number steps ≤ 1 →
        finds_room (rules terms) number (start (rules terms) entries) steps ≡ true →
        AllByRecursion (IsOverTwins entries top) (answered_of_connection (rules terms) number (start (rules terms) entries) steps) →
        (run (rules terms) entries steps).of number ≡ (run (rules terms) entries (purged number steps)).of number }
    ensures replay { (terms : Terms) (entries : DirectoryEntries) (top : RdnSequence) (number : ℕ) (events : List Step) → openings number events ≤ 1 →
        finds_room_in_replay (rules terms) number (start (rules terms) entries) events ≡ true →
        AllByRecursion (IsOverTwins entries top) (answered_in_replay (rules terms) number (start (rules terms) entries) events) →
        (replayed (rules terms) entries events).of number ≡ (replayed (rules terms) entries (purged number events)).of number }
    ensures taken { (terms : Terms) (entries : DirectoryEntries) (top : RdnSequence) (number : ℕ) (steps : List Step) (journal : List Item) →
        Sound (rules terms) entries steps journal → openings number steps ≤ 1 →
        finds_room (rules terms) number (start (rules terms) entries) steps ≡ true →
        AllByRecursion (IsOverTwins entries top) (answered_of_connection (rules terms) number (start (rules terms) entries) steps) →
        IsFront journal number ((run (rules terms) entries (purged number steps)).of number) }
{}

/// A journal that serves its connections over a directory serves them over another, where each message that its steps
/// answer is answered over twins; with its last block unfinished too. So who sees the journal can't tell which of both it was.
pub fn a_journal_serves_twins()
    ensures served { (terms : Terms) (one other : DirectoryEntries) (top : RdnSequence) (steps : List Step) (journal : List Item) →
        AllByRecursion (IsOverTwins other top) (answered_of_run (rules terms) (start (rules terms) one) steps) →
        Served (rules terms) one steps journal → Served (rules terms) other steps journal }
    ensures sound { (terms : Terms) (one other : DirectoryEntries) (top : RdnSequence) (steps : List Step) (journal : List Item) →
        AllByRecursion (IsOverTwins other top) (answered_of_run (rules terms) (start (rules terms) one) steps) →
        Sound (rules terms) one steps journal → Sound (rules terms) other steps journal }
{}

//! The laws of loading again: each function computes nothing, and what it ensures is a law.

ghost use Rattle.std.specs.Prelude.{◌≡◌, ◌<◌, ℕ, List, Some, Ok};
ghost use Rattle.session_hub.specs.session_model.ldap_msg.declared.kinds.Message.{Message};
ghost use Rattle.session_hub.specs.session_model.ldap_msg.declared.kinds.Request.{Request};
ghost use Rattle.session_hub.specs.session_model.ldap_msg.reading.Messages.{message_of};
ghost use Rattle.data_file.specs.ldif_records.writing.WrittenFile.{written_file};
ghost use Rattle.data_file.specs.ldif_load.load.DataFile.{loads};
ghost use Rattle.change_laws.specs.op_add_delete.adding.Updates.{left_by};
ghost use Rattle.change_replay.specs.Accepted.{outcome};
ghost use Rattle.change_replay.specs.Laws.{IsOfOctets};
ghost use Rattle.session_hub.specs.session_model.Run.{Step, run};
ghost use Rattle.session_hub.specs.session_model.Hearing.{BringOnly};
ghost use Rattle.session_hub.specs.session_model.Replaying.{replayed};
ghost use Rattle.session_hub.specs.Parties.{DirectoryEntries, Requester};
ghost use Rattle.session_hub.specs.declared.bounds.Terms.{Terms};
ghost use Rattle.session_hub.specs.Answering.{rules};
ghost use Rattle.loading_laws.specs.LoadableTrees.{AreOctets, IsLoadableTree};

use change_laws::laws::{
    a_good_tree_stays_good, a_good_tree_stays_good_when_changed,
    exactly_what_may_be_changed_is_changed, exactly_what_may_be_done_is_done,
};
use data_file::laws::{
    what_is_loaded_is_good, what_is_loaded_is_loadable, what_is_written_loads_again,
};

/// A loadable tree stays loadable, whatever change is asked for and by whom, where the names and values that the request
/// brings are of octets: each value that comes is of its type's syntax and of at most 65,536 octets (RFC 4511 4.6 to 4.9).
pub fn a_loadable_tree_stays_loadable()
    ensures exact { (entries : DirectoryEntries) (who : Requester) (asked : Request) → IsOfOctets asked
        → IsLoadableTree entries → IsLoadableTree (left_by entries (outcome entries who asked)) }
{
    exactly_what_may_be_done_is_done();
    exactly_what_may_be_changed_is_changed();
    a_good_tree_stays_good();
    a_good_tree_stays_good_when_changed();
}

/// What a message of octets asks for is of octets.
pub fn what_is_read_of_octets_is_of_octets()
    ensures exact { (bytes : List ℕ) (message : Message) → AreOctets bytes → message_of bytes ≡ Some message
        → IsOfOctets message.request }
{}

/// The data file that is written of a loadable tree gives its entries, in their order, when it is loaded (RFC 2849); and what
/// a data file of octets loads is a loadable tree.
pub fn a_loadable_tree_loads_again()
    ensures exact { (entries : DirectoryEntries) → IsLoadableTree entries → loads (written_file entries) ≡ Ok entries }
    ensures loaded { (text : List ℕ) (entries : DirectoryEntries) → AreOctets text → loads text ≡ Ok entries
        → IsLoadableTree entries }
{
    what_is_written_loads_again();
    what_is_loaded_is_good();
    what_is_loaded_is_loadable();
}

/// What each answer to a message of octets, and so sessions over octets, leave of a loadable tree is a loadable tree; so it
/// is where events are replayed. So the data file that is written of what is left loads again, as that of a replay of events
/// over a data file of octets does.
pub fn sessions_keep_a_directory_loadable()
    ensures answers { (terms : Terms) (entries : DirectoryEntries) (who : Requester) (bytes : List ℕ) → AreOctets bytes
        → IsLoadableTree entries → IsLoadableTree ((rules terms).answer entries who bytes).tree }
    ensures run { (terms : Terms) (entries : DirectoryEntries) (steps : List Step) → BringOnly (λ octet. octet < 256) steps
        → IsLoadableTree entries → IsLoadableTree (run (rules terms) entries steps).tree }
    ensures replay { (terms : Terms) (entries : DirectoryEntries) (events : List Step) → BringOnly (λ octet. octet < 256) events
        → IsLoadableTree entries → IsLoadableTree (replayed (rules terms) entries events).tree }

    // and so the file of what is left
    ensures run_loads { (terms : Terms) (entries : DirectoryEntries) (steps : List Step) → BringOnly (λ octet. octet < 256) steps
        → IsLoadableTree entries
        → loads (written_file (run (rules terms) entries steps).tree) ≡ Ok (run (rules terms) entries steps).tree }
    ensures replay_loads { (terms : Terms) (entries : DirectoryEntries) (events : List Step)
        → BringOnly (λ octet. octet < 256) events → IsLoadableTree entries
        → loads (written_file (replayed (rules terms) entries events).tree) ≡ Ok (replayed (rules terms) entries events).tree }
    ensures dump_loads { (terms : Terms) (text : List ℕ) (entries : DirectoryEntries) (events : List Step) → AreOctets text
        → loads text ≡ Ok entries → BringOnly (λ octet. octet < 256) events
        → loads (written_file (replayed (rules terms) entries events).tree) ≡ Ok (replayed (rules terms) entries events).tree }
{
    a_loadable_tree_stays_loadable();
    a_loadable_tree_loads_again();
}

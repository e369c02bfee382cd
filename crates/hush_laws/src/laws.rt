//! The laws of hushed subtrees: each function computes nothing, and what it ensures is a law.

ghost use Rattle.std.specs.Prelude.{◌≡◌, ◌≢◌, ◌↔◌, ◌≤◌, ◌+◌, ◌||◌, ℕ, true, not, List, take, Some, None};
ghost use Rattle.dir_tree.specs.dn_names.name.Names.{RdnSequence};
ghost use Rattle.dir_tree.specs.Entry.{EntryInformation};
ghost use Rattle.dir_tree.specs.tree.Trees.{IsTree};
ghost use Rattle.aci_item.specs.Rules.{IsGoodTree};
ghost use Rattle.op_read.specs.acdf_filters.admin_scope.Areas.{without_subtree};
ghost use Rattle.op_read.specs.acdf_filters.declared.asking.Requester.{Requester};
ghost use Rattle.op_read.specs.twin_laws.Twins.{AreTwins, is_below_suffix};
ghost use Rattle.session_hub.specs.session_model.ldap_msg.declared.kinds.Request.{Request};
ghost use Rattle.session_hub.specs.session_model.wire_io.declared.journal.Item.{Item};
ghost use Rattle.session_hub.specs.session_model.Run.{Step, run};
ghost use Rattle.session_hub.specs.session_model.Serving.{Sound, IsFront};
ghost use Rattle.session_hub.specs.session_model.Replaying.{replayed};
ghost use Rattle.session_hub.specs.session_model.Purging.{purged, openings};
ghost use Rattle.session_hub.specs.session_model.Places.{places, places_of_replay};
ghost use Rattle.session_hub.specs.Parties.{DirectoryEntries};
ghost use Rattle.session_hub.specs.declared.bounds.Terms.{Terms};
ghost use Rattle.session_hub.specs.Answering.{rules};
ghost use Rattle.session_hub.specs.Twins.{reads_outside};
ghost use Rattle.hush_laws.specs.declared.audited.Audited.{Audited};
ghost use Rattle.hush_laws.specs.Equality.{are_all_equal};
ghost use Rattle.hush_laws.specs.TwinParts.{failing_twins, lists_group_outside};
ghost use Rattle.hush_laws.specs.Requests.{is_change, binds_within};
ghost use Rattle.hush_laws.specs.Hush.{hush_of_run, hush_of_replay, IsHushed};
ghost use Rattle.hush_laws.specs.Audits.{first_difference, IsAudit};

use session_hub::laws::sessions_keep_a_directory_good;
use session_hub::other_sessions_do_not_show;

/// The test of lists of entries passes exactly where they are the same.
pub fn entries_pass_the_test_where_they_are_the_same()
    ensures exact { (one other : List EntryInformation) → (are_all_equal one other ≡ true) ↔ (one ≡ other) }
{}

/// No part of being twins fails exactly where two trees are twins for the requester, the name being below the suffix of the
/// first.
pub fn no_part_fails_of_twins()
    ensures exact { (top : RdnSequence) (before now : List EntryInformation) (who : Requester) → IsTree now
        → is_below_suffix top before ≡ true
        → (failing_twins top before now who ≡ None) ↔ AreTwins who now before top }
{}

/// Where the entries outside are the same, items outside name a group at or below the name in both trees or in none: so
/// what was found of the one need not be looked for in the other.
pub fn the_same_items_list_the_same_groups()
    ensures exact { (top : RdnSequence) (one other : List EntryInformation)
        → without_subtree top one ≡ without_subtree top other
        → lists_group_outside top one ≡ lists_group_outside top other }
{}

/// A request reads outside a subtree exactly where it asks for no change and is no bind with a name there.
pub fn a_request_reads_outside_where_it_asks_for_neither()
    ensures exact { (top : RdnSequence) (asked : Request)
        → reads_outside top asked ≡ not (is_change asked || binds_within top asked) }
{}

/// Nothing breaks a hush exactly where the name is below the suffix and each place is hushed: in a run, and where events are
/// replayed.
pub fn nothing_breaks_a_hush_where_each_place_is_hushed()
    ensures run { (terms : Terms) (entries : DirectoryEntries) (steps : List Step) (number : ℕ) (top : RdnSequence)
        → IsGoodTree entries → (hush_of_run terms entries steps number top ≡ None)
        ↔ IsHushed entries (places (rules terms) number entries steps) top }
    ensures replay { (terms : Terms) (entries : DirectoryEntries) (events : List Step) (number : ℕ) (top : RdnSequence)
        → IsGoodTree entries → (hush_of_replay terms entries events number top ≡ None)
        ↔ IsHushed entries (places_of_replay (rules terms) number entries events) top }
{
    sessions_keep_a_directory_good();
}

/// What is hushed does not show: a connection that opens once at most is left the same by the steps of all as by its own
/// alone, and so it is where events are replayed; what a link took of it is a front of what it gets alone. What others do in
/// the subtree meanwhile is theirs.
pub fn what_is_hushed_does_not_show()
    ensures run { (terms : Terms) (entries : DirectoryEntries) (steps : List Step) (number : ℕ) (top : RdnSequence)
        → IsGoodTree entries → openings number steps ≤ 1 → hush_of_run terms entries steps number top ≡ None
        → (run (rules terms) entries steps).of number ≡ (run (rules terms) entries (purged number steps)).of number }
    ensures replay { (terms : Terms) (entries : DirectoryEntries) (events : List Step) (number : ℕ) (top : RdnSequence)
        → IsGoodTree entries → openings number events ≤ 1 → hush_of_replay terms entries events number top ≡ None
        → (replayed (rules terms) entries events).of number
        ≡ (replayed (rules terms) entries (purged number events)).of number }
    ensures taken { (terms : Terms) (entries : DirectoryEntries) (steps : List Step) (number : ℕ) (top : RdnSequence)
        (journal : List Item) → Sound (rules terms) entries steps journal
        → IsGoodTree entries → openings number steps ≤ 1 → hush_of_run terms entries steps number top ≡ None
        → IsFront journal number ((run (rules terms) entries (purged number steps)).of number) }
{
    sessions_keep_a_directory_good();
    other_sessions_do_not_show();
}

/// An audit that finds the hush kept finds no difference.
pub fn an_audit_finds_no_difference_under_a_hush()
    ensures exact { (terms : Terms) (entries : DirectoryEntries) (events : List Step) (number : ℕ) (top : RdnSequence)
        (audited : Audited) → IsGoodTree entries → openings number events ≤ 1
        → IsAudit terms entries events number top audited → audited.fault ≡ None → audited.differs ≡ None }
{
    what_is_hushed_does_not_show();
}

/// Two texts differ exactly where they are not the same, and then right behind their longest common front.
pub fn texts_differ_behind_their_common_front()
    ensures same { (one other : List ℕ) → (first_difference one other ≡ None) ↔ (one ≡ other) }
    ensures front { (one other : List ℕ) (count : ℕ) → first_difference one other ≡ Some count
        → take count one ≡ take count other }
    ensures longest { (one other : List ℕ) (count : ℕ) → first_difference one other ≡ Some count
        → take (count + 1) one ≢ take (count + 1) other }
{}

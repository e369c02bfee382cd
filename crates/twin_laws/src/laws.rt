//! The laws of twins: each function computes nothing, and what it ensures is a law.

ghost use Rattle.std.specs.Prelude.{◌≡◌, Bool, true, false, List, [], ◌∷◌, Option};
ghost use Rattle.dir_tree.specs.dn_names.name.Names.{RdnSequence};
ghost use Rattle.dir_tree.specs.dn_names.NameOrder.{is_prefix_of};
ghost use Rattle.dir_tree.specs.Entry.{EntryInformation};
ghost use Rattle.dir_tree.specs.tree.Trees.{IsTree, named_in};
ghost use Rattle.dir_tree.specs.Scope.{is_within};
ghost use Rattle.acdf_filters.specs.admin_scope.Areas.{without_subtree};
ghost use Rattle.acdf_filters.specs.admin_scope.InForce.{in_force};
ghost use Rattle.acdf_filters.specs.declared.asking.Requester.{Requester};
ghost use Rattle.ldap_msg.specs.declared.kinds.SearchRequest.{SearchRequest};
ghost use Rattle.ldap_msg.specs.declared.kinds.CompareRequest.{CompareRequest};
ghost use Rattle.ldap_msg.specs.declared.kinds.Reply.TheVariants as reply;
ghost use Rattle.ldap_msg.specs.declared.operations.Ending.TheVariants as ending;
ghost use Rattle.read_model.specs.Views.{view_of, matched_name, hidden, no_such_object};
ghost use Rattle.read_model.specs.Selecting.{selected};
ghost use Rattle.read_model.specs.SearchReplies.{replies_at, search_replies};
ghost use Rattle.read_model.specs.CompareReplies.{compare_result};
ghost use Rattle.twin_laws.specs.Twins.{is_below_suffix, rows_outside, IsUnseen, AreTwins};

/// A requester gets of twins the same replies to every search, and the same result of every compare (X.511 9
/// and 10), with the same matched names.
pub fn twins_get_equal_replies()
    ensures search { (who : Requester) (one other : List EntryInformation) (top : RdnSequence)
        → AreTwins who one other top → (request : SearchRequest) (subentries : Option Bool)
        → search_replies (view_of one who) request subentries
        ≡ search_replies (view_of other who) request subentries }
    ensures compare { (who : Requester) (one other : List EntryInformation) (top : RdnSequence)
        → AreTwins who one other top → (request : CompareRequest)
        → compare_result (view_of one who) request ≡ compare_result (view_of other who) request }
{}

/// What of twins is the same to a requester: the entries outside the subtree with all that is allowed on
/// them, the subentries in force for these, the entry of a name outside, the entries that a search selects,
/// the name of the nearest entry above a name that may be known of, and what is said of a hidden name.
pub fn twins_are_seen_alike()
    ensures view { (who : Requester) (one other : List EntryInformation) (top : RdnSequence)
        → AreTwins who one other top
        → rows_outside top (view_of one who) ≡ rows_outside top (view_of other who) }
    ensures in_force { (who : Requester) (one other : List EntryInformation) (top : RdnSequence)
        → AreTwins who one other top → (entry : EntryInformation) → is_within top entry ≡ false
        → in_force one entry ≡ in_force other entry }
    ensures named { (who : Requester) (one other : List EntryInformation) (top : RdnSequence)
        → AreTwins who one other top → (name : RdnSequence) → is_prefix_of top name ≡ false
        → named_in name one ≡ named_in name other }
    ensures selected { (who : Requester) (one other : List EntryInformation) (top : RdnSequence)
        → AreTwins who one other top
        → (request : SearchRequest) (subentries : Option Bool) (base : RdnSequence)
        → selected (view_of one who) request subentries base
        ≡ selected (view_of other who) request subentries base }
    ensures matched { (who : Requester) (one other : List EntryInformation) (top : RdnSequence)
        → AreTwins who one other top → (name : RdnSequence)
        → matched_name (view_of one who) name ≡ matched_name (view_of other who) name }
    ensures hidden { (who : Requester) (one other : List EntryInformation) (top : RdnSequence)
        → AreTwins who one other top → (name : RdnSequence)
        → hidden (view_of one who) name ≡ hidden (view_of other who) name }
{}

/// A name in a subtree of which a requester sees nothing is answered as one that no entry has, whether an
/// entry has it or not: there is no such object, and the nearest entry above that may be known of is named.
pub fn an_unseen_name_is_answered_as_an_absent_one()
    ensures search { (who : Requester) (top : RdnSequence) (entries : List EntryInformation)
        → IsUnseen who top entries → (request : SearchRequest) (subentries : Option Bool) (base : RdnSequence)
        → is_prefix_of top base ≡ true → replies_at (view_of entries who) request subentries base
        ≡ reply.Ended ending.Done (no_such_object (view_of entries who) base) ∷ [] }
    ensures hidden { (who : Requester) (top : RdnSequence) (entries : List EntryInformation)
        → IsUnseen who top entries → (name : RdnSequence) → is_prefix_of top name ≡ true
        → hidden (view_of entries who) name ≡ no_such_object (view_of entries who) name }
{}

/// Of two trees that are the same but for the subtree of a name, the name is below the suffix of both where
/// it is below that of one.
pub fn twins_differ_below_one_suffix()
    ensures { (one other : List EntryInformation) (top : RdnSequence) → IsTree other
        → without_subtree top one ≡ without_subtree top other
        → is_below_suffix top one ≡ true → is_below_suffix top other ≡ true }
{}

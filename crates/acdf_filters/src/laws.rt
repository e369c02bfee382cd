//! The laws of the decision: each function computes nothing, and what it ensures is a law.

ghost use Rattle.std.specs.Prelude.{◌≡◌, ℕ, false, List, fold, map};
ghost use Rattle.dir_tree.specs.dn_names.name.Names.{Keyed, RdnSequence};
ghost use Rattle.dir_tree.specs.Entry.{EntryInformation};
ghost use Rattle.dir_tree.specs.tree.Numbered.{entries_of};
ghost use Rattle.dir_tree.specs.Scope.{is_within};
ghost use Rattle.admin_scope.specs.Areas.{without_subtree};
ghost use Rattle.aci_item.specs.declared.permission.Permission.{Permission};
ghost use Rattle.acdf_filters.specs.declared.asking.Requester.{Requester};
ghost use Rattle.acdf_filters.specs.declared.question.Question.{Question};
ghost use Rattle.acdf_filters.specs.Asking.{Protected};
ghost use Rattle.acdf_filters.specs.Tuples.{Listed};
ghost use Rattle.acdf_filters.specs.Filters.{left_by_permission, decided};
ghost use Rattle.acdf_filters.specs.Granted.{placed, granted, granted_after, granted_new};
ghost use Rattle.acdf_filters.specs.Standing.{initial, standing};
ghost use Rattle.acdf_filters.specs.Unseen.{IsApart, has_group};
ghost use Rattle.acdf_filters.specs.weighing.Weighing.{asked_of, keys_of, weighed_for, is_granted};

/// Weighing tuples one after the other decides as the six filters do, each over whole lists: the state says of those that
/// the first three leave which precedence, class and item the last three choose.
pub fn the_running_state_is_that_of_the_six_filters()
    ensures state { (question : Question) (xs : List Listed)
        → fold (weighed_for question) initial (map (λ x. x.tuple) xs)
        ≡ standing (keys_of (asked_of question)) (left_by_permission (asked_of question)
        (placed (entries_of question.tree.now) question.entry.now question.who.now.name xs)) }
    ensures exact { (question : Question) (xs : List Listed)
        → is_granted (fold (weighed_for question) initial (map (λ x. x.tuple) xs))
        ≡ decided (asked_of question)
        (placed (entries_of question.tree.now) question.entry.now question.who.now.name xs) }
{}

/// Leaving out all entries at or below a name changes no decision on an entry that is not among them, where they have no
/// access control subentry, and no item outside them names a group among them.
pub fn an_unseen_subtree_changes_no_decision()
    ensures there { (top : RdnSequence) (entries : List EntryInformation) (entry : EntryInformation)
        → IsApart top entries → is_within top entry ≡ false → has_group top entry ≡ false
        → (who : Requester) (item : Protected) (permission : Permission)
        → granted (without_subtree top entries) who entry item permission ≡ granted entries who entry item permission }
    ensures after { (top : RdnSequence) (entries : List EntryInformation) (entry : EntryInformation)
        → IsApart top entries → is_within top entry ≡ false → has_group top entry ≡ false
        → (who : Requester) (after : EntryInformation) (kind : ℕ) (value : Keyed)
        → granted_after (without_subtree top entries) who entry after kind value
        ≡ granted_after entries who entry after kind value }
    ensures new { (top : RdnSequence) (entries : List EntryInformation) (entry : EntryInformation)
        → IsApart top entries → is_within top entry ≡ false
        → (who : Requester) (item : Protected) (permission : Permission)
        → granted_new (without_subtree top entries) who entry item permission
        ≡ granted_new entries who entry item permission }
{}

//! The laws of changes: each function computes nothing, and what it ensures is a law.

ghost use Rattle.std.specs.Prelude.{◌≡◌, List};
ghost use Rattle.dir_tree.specs.Entry.{EntryInformation};
ghost use Rattle.dir_tree.specs.tree.Trees.{put_in, taken_out};
ghost use Rattle.acdf_filters.specs.aci_item.Rules.{IsGoodTree};
ghost use Rattle.acdf_filters.specs.declared.asking.Requester.{Requester};
ghost use Rattle.ldap_msg.specs.declared.kinds.AddRequest.{AddRequest};
ghost use Rattle.ldap_msg.specs.declared.kinds.DeleteRequest.{DeleteRequest};
ghost use Rattle.op_add_delete.specs.adding.Updates.{Made, left_by, deleted, added};
ghost use Rattle.change_laws.specs.Granting.{MayDelete, MayAdd};
ghost use Rattle.change_laws.specs.ChangeGranting.{MayModify, MayRename};
ghost use Rattle.ldap_msg.specs.declared.kinds.ModifyRequest.{ModifyRequest};
ghost use Rattle.ldap_msg.specs.declared.kinds.RenameRequest.{RenameRequest};
ghost use Rattle.op_modify.specs.Modifying.{modified};
ghost use Rattle.op_modify.specs.Renames.{renamed};

use entry_changes::laws::changes_keep_attributes_good;
use op_add_delete::schema_rules::laws::a_tree_stays_good_in_place;

/// A good tree stays good, whatever is deleted or added, and by whom.
pub fn a_good_tree_stays_good()
    ensures deleted { (entries : List EntryInformation) (who : Requester) (request : DeleteRequest)
        → IsGoodTree entries → IsGoodTree (left_by entries (deleted entries who request)) }
    ensures added { (entries : List EntryInformation) (who : Requester) (request : AddRequest)
        → IsGoodTree entries → IsGoodTree (left_by entries (added entries who request)) }
{}

/// A change is done where nothing refuses it: each decision of its sequence is granted, and the tree takes it. So no
/// answer is always a refusal (X.511 11.1 and 11.2). And what was done was granted so.
pub fn exactly_what_may_be_done_is_done()
    ensures deleted { (entries : List EntryInformation) (who : Requester) (request : DeleteRequest)
        (target : EntryInformation) → MayDelete entries who request target
        → deleted entries who request ≡ Made (taken_out target.name entries) }
    ensures only_deleted { (entries : List EntryInformation) (who : Requester) (request : DeleteRequest)
        (after : List EntryInformation) → deleted entries who request ≡ Made after
        → (target : EntryInformation) × MayDelete entries who request target }
    ensures added { (entries : List EntryInformation) (who : Requester) (request : AddRequest)
        (entry : EntryInformation) → MayAdd entries who request entry
        → added entries who request ≡ Made (put_in entry entries) }
    ensures only_added { (entries : List EntryInformation) (who : Requester) (request : AddRequest)
        (after : List EntryInformation) → added entries who request ≡ Made after
        → (entry : EntryInformation) × MayAdd entries who request entry }
{}

/// A good tree stays good, whatever is modified or renamed, and by whom.
pub fn a_good_tree_stays_good_when_changed()
    ensures modified { (entries : List EntryInformation) (who : Requester) (request : ModifyRequest)
        → IsGoodTree entries → IsGoodTree (left_by entries (modified entries who request)) }
    ensures renamed { (entries : List EntryInformation) (who : Requester) (request : RenameRequest)
        → IsGoodTree entries → IsGoodTree (left_by entries (renamed entries who request)) }
{
    a_tree_stays_good_in_place();
    changes_keep_attributes_good();
}

/// A change is made where nothing refuses it: each decision of its sequence is granted, and the tree takes what it leaves.
/// So no answer is always a refusal (X.511 11.3 and 11.4). And what was changed was granted so.
pub fn exactly_what_may_be_changed_is_changed()
    ensures modified { (entries : List EntryInformation) (who : Requester) (request : ModifyRequest)
        (target left : EntryInformation) → MayModify entries who request target left
        → modified entries who request ≡ Made (put_in left (taken_out target.name entries)) }
    ensures only_modified { (entries : List EntryInformation) (who : Requester) (request : ModifyRequest)
        (after : List EntryInformation) → modified entries who request ≡ Made after
        → (target : EntryInformation) × (left : EntryInformation) × MayModify entries who request target left }
    ensures renamed { (entries : List EntryInformation) (who : Requester) (request : RenameRequest)
        (target entry : EntryInformation) → MayRename entries who request target entry
        → renamed entries who request ≡ Made (put_in entry (taken_out target.name entries)) }
    ensures only_renamed { (entries : List EntryInformation) (who : Requester) (request : RenameRequest)
        (after : List EntryInformation) → renamed entries who request ≡ Made after
        → (target : EntryInformation) × (entry : EntryInformation) × MayRename entries who request target entry }
{}

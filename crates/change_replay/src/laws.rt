//! The laws of replays: each function computes nothing, and what it ensures is a law.

ghost use Rattle.std.specs.Prelude.{◌≡◌, List, Ok};
ghost use Rattle.dir_tree.specs.Entry.{EntryInformation};
ghost use Rattle.acdf_filters.specs.declared.asking.Requester.{Requester};
ghost use Rattle.op_add_delete.specs.adding.Updates.{Made, deleted, added};
ghost use Rattle.change_laws.specs.op_modify.Modifying.{modified};
ghost use Rattle.change_laws.specs.op_modify.Renames.{renamed};
ghost use Rattle.change_laws.specs.op_modify.ldap_msg.declared.kinds.AddRequest.{AddRequest};
ghost use Rattle.change_laws.specs.op_modify.ldap_msg.declared.kinds.DeleteRequest.{DeleteRequest};
ghost use Rattle.change_laws.specs.op_modify.ldap_msg.declared.kinds.ModifyRequest.{ModifyRequest};
ghost use Rattle.change_laws.specs.op_modify.ldap_msg.declared.kinds.RenameRequest.{RenameRequest};
ghost use Rattle.change_laws.specs.op_modify.ldap_msg.declared.kinds.Request.TheVariants as request_of;
ghost use Rattle.change_laws.specs.op_modify.ldap_msg.declared.kinds.Update.TheVariants as update;
ghost use Rattle.change_replay.specs.Applied.{applied};
ghost use Rattle.change_replay.specs.Laws.{StaysGood, CanBeWritten, RecoversWhereCut};

use change_laws::laws::{exactly_what_may_be_changed_is_changed, exactly_what_may_be_done_is_done};
use change_records::laws::{a_file_of_changes_is_read_again, known_types_can_be_written};
use entry_changes::laws::changes_keep_attributes_good;
use op_add_delete::schema_rules::laws::a_tree_stays_good_in_place;

/// What was accepted of whoever asked leaves the same entries when it is applied without asking.
pub fn what_was_accepted_is_applied()
    ensures deleted { (entries : List EntryInformation) (who : Requester) (request : DeleteRequest)
        (after : List EntryInformation) → deleted entries who request ≡ Made after
        → applied entries (request_of.Update (update.Delete request)) ≡ Ok after }
    ensures added { (entries : List EntryInformation) (who : Requester) (request : AddRequest)
        (after : List EntryInformation) → added entries who request ≡ Made after
        → applied entries (request_of.Update (update.Add request)) ≡ Ok after }
    ensures modified { (entries : List EntryInformation) (who : Requester) (request : ModifyRequest)
        (after : List EntryInformation) → modified entries who request ≡ Made after
        → applied entries (request_of.Update (update.Modify request)) ≡ Ok after }
    ensures renamed { (entries : List EntryInformation) (who : Requester) (request : RenameRequest)
        (after : List EntryInformation) → renamed entries who request ≡ Made after
        → applied entries (request_of.Update (update.Rename request)) ≡ Ok after }
{
    exactly_what_may_be_done_is_done();
    exactly_what_may_be_changed_is_changed();
}

/// A good tree stays good, whatever changes are replayed.
pub fn a_good_tree_stays_good_when_replayed()
    ensures exact { StaysGood }
{
    a_tree_stays_good_in_place();
    changes_keep_attributes_good();
}

/// A request that was accepted, with names and values of octets, can be written as a record: its types are known, none
/// comes twice in an add, and each attribute of one has a value.
pub fn what_was_accepted_can_be_written()
    ensures exact { CanBeWritten }
{
    known_types_can_be_written();
    what_was_accepted_is_applied();
}

/// The entries are recovered: where the file of accepted changes is cut at any octet, as a crash may leave it, the changes
/// whose records stand before the cut are read again, with a front of the others, and replayed over the first entries they
/// leave what they left when they were accepted.
pub fn what_was_accepted_is_recovered()
    ensures exact { RecoversWhereCut }
{
    what_was_accepted_is_applied();
    what_was_accepted_can_be_written();
    a_file_of_changes_is_read_again();
}

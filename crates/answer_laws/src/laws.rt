//! The laws of completeness: each function computes nothing, and what it ensures is a law.

ghost use Rattle.std.specs.Prelude.{◌≡◌, ◌⊎◌, ◌∷◌, [], Some, List, Bool, Option};
ghost use Rattle.dir_tree.specs.Entry.{EntryInformation};
ghost use Rattle.dir_tree.specs.tree.Trees.{put_in, taken_out};
ghost use Rattle.acdf_filters.specs.declared.asking.Requester.{Requester};
ghost use Rattle.ldap_msg.specs.declared.operations.ResultCode.TheVariants as code;
ghost use Rattle.ldap_msg.specs.declared.kinds.SearchRequest.{SearchRequest};
ghost use Rattle.ldap_msg.specs.declared.kinds.CompareRequest.{CompareRequest};
ghost use Rattle.ldap_msg.specs.declared.kinds.AddRequest.{AddRequest};
ghost use Rattle.ldap_msg.specs.declared.kinds.DeleteRequest.{DeleteRequest};
ghost use Rattle.ldap_msg.specs.declared.kinds.ModifyRequest.{ModifyRequest};
ghost use Rattle.ldap_msg.specs.declared.kinds.RenameRequest.{RenameRequest};
ghost use Rattle.ldap_msg.specs.declared.kinds.Request.TheVariants as request;
ghost use Rattle.ldap_msg.specs.declared.kinds.Update.TheVariants as update;
ghost use Rattle.ldap_msg.specs.declared.kinds.Reply.TheVariants as reply;
ghost use Rattle.ldap_msg.specs.declared.operations.Ending.TheVariants as ending;
ghost use Rattle.ldap_msg.specs.declared.kinds.Message.{Message};
ghost use Rattle.change_laws.specs.Granting.{MayDelete, MayAdd};
ghost use Rattle.change_laws.specs.ChangeGranting.{MayModify, MayRename};
ghost use Rattle.answer_laws.specs.Made.{IsMade};
ghost use Rattle.answer_laws.specs.Complete.{HasKnownBase, IsComparable, EndsWith};
ghost use Rattle.session_hub.specs.Answering.{answer_read};
ghost use Rattle.answer_laws.specs.Asked.{AsksSearch, AsksCompare, AsksFor, IsSearchedWith, IsComparedWith};
ghost use Rattle.read_model.specs.Views.{view_of, result_of};
ghost use Rattle.read_model.specs.SearchReplies.{search_replies};
ghost use Rattle.read_model.specs.CompareReplies.{compare_result};

use change_laws::laws::{exactly_what_may_be_changed_is_changed, exactly_what_may_be_done_is_done};

/// A message with a search whose base the requester may know of is answered by the octets of entries, or of none, and of
/// an end with success or with sizeLimitExceeded, where no control of it is refused (RFC 4511 4.1.11 and 4.5.2).
pub fn a_message_with_a_search_of_a_known_base_succeeds()
    ensures exact { (keeps : Bool) (entries : List EntryInformation) (who : Requester) (message : Message)
        (request : SearchRequest) → AsksSearch message request → HasKnownBase entries who request
        → (IsSearchedWith code.Success message.id (answer_read keeps entries who (Some message)).replies)
        ⊎ (IsSearchedWith code.SizeLimitExceeded message.id (answer_read keeps entries who (Some message)).replies) }
{}

/// A message with a compare of an attribute that an entry has, where the entry may be read and the type compared, is
/// answered by compareTrue or compareFalse, where no control of it is refused (RFC 4511 4.1.11 and 4.10).
pub fn a_message_with_a_compare_that_is_granted_is_done()
    ensures exact { (keeps : Bool) (entries : List EntryInformation) (who : Requester) (message : Message)
        (request : CompareRequest) → AsksCompare message request → IsComparable entries who request
        → (IsComparedWith code.CompareTrue message.id (answer_read keeps entries who (Some message)).replies)
        ⊎ (IsComparedWith code.CompareFalse message.id (answer_read keeps entries who (Some message)).replies) }
{}

/// A message with a change that may be made is answered by success, and the change is made: each decision of its sequence is
/// granted, the tree takes what it leaves, and no control of it is refused (RFC 4511 4.1.11 and 4.6 to 4.9, X.511 11).
pub fn a_message_with_a_change_that_is_granted_is_done()
    ensures added { (keeps : Bool) (entries : List EntryInformation) (who : Requester) (message : Message)
        (add : AddRequest) (entry : EntryInformation) → AsksFor message (request.Update (update.Add add)) → MayAdd entries who add entry
        → IsMade keeps who message ending.Add (put_in entry entries) (answer_read keeps entries who (Some message)) }
    ensures deleted { (keeps : Bool) (entries : List EntryInformation) (who : Requester) (message : Message)
        (delete : DeleteRequest) (target : EntryInformation) → AsksFor message (request.Update (update.Delete delete))
        → MayDelete entries who delete target
        → IsMade keeps who message ending.Delete (taken_out target.name entries) (answer_read keeps entries who (Some message)) }
    ensures modified { (keeps : Bool) (entries : List EntryInformation) (who : Requester) (message : Message)
        (modify : ModifyRequest) (target left : EntryInformation) → AsksFor message (request.Update (update.Modify modify))
        → MayModify entries who modify target left
        → IsMade keeps who message ending.Modify (put_in left (taken_out target.name entries)) (answer_read keeps entries who (Some message)) }
    ensures renamed { (keeps : Bool) (entries : List EntryInformation) (who : Requester) (message : Message)
        (rename : RenameRequest) (target entry : EntryInformation) → AsksFor message (request.Update (update.Rename rename))
        → MayRename entries who rename target entry
        → IsMade keeps who message ending.Rename (put_in entry (taken_out target.name entries)) (answer_read keeps entries who (Some message)) }
{
    exactly_what_may_be_done_is_done();
    exactly_what_may_be_changed_is_changed();
}

/// A search whose base is an entry that the requester may know of sends entries, or none, and ends with success or with
/// sizeLimitExceeded, whatever its scope, its filter, its selection and its limit are, and with the control of subentries
/// or without (RFC 4511 4.5.2, X.511 10.2).
pub fn a_search_of_a_known_base_succeeds()
    ensures exact { (entries : List EntryInformation) (who : Requester)
        (request : SearchRequest) (subentries : Option Bool) → HasKnownBase entries who request
        → (EndsWith code.Success (search_replies (view_of entries who) request subentries))
        ⊎ (EndsWith code.SizeLimitExceeded (search_replies (view_of entries who) request subentries)) }
{}

/// A compare of an attribute that an entry has, where the entry may be read and the type compared, is answered by
/// compareTrue or compareFalse (RFC 4511 4.10, X.511 9.2).
pub fn a_compare_that_is_granted_is_done()
    ensures exact { (entries : List EntryInformation) (who : Requester) (request : CompareRequest)
        → IsComparable entries who request
        → (compare_result (view_of entries who) request ≡ result_of code.CompareTrue)
        ⊎ (compare_result (view_of entries who) request ≡ result_of code.CompareFalse) }
{}

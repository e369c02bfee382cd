//! The law of binds: the function computes nothing, and what it ensures is a law.

ghost use Rattle.std.specs.Prelude.{◌≡◌, false, List, IfOk};
ghost use Rattle.dir_tree.specs.dn_names.name.Names.{RdnSequence};
ghost use Rattle.dir_tree.specs.dn_names.NameOrder.{is_prefix_of};
ghost use Rattle.dir_tree.specs.dn_names.parsing.NameText.{read_name};
ghost use Rattle.dir_tree.specs.Entry.{EntryInformation};
ghost use Rattle.acdf_filters.specs.admin_scope.Areas.{without_subtree};
ghost use Rattle.ldap_msg.specs.declared.kinds.BindRequest.{BindRequest};
ghost use Rattle.op_bind.specs.Binds.{bind_answer};

/// Leaving out all entries at or below a name changes no bind, but one with a name at or below it.
pub fn an_unseen_subtree_changes_no_bind()
    ensures exact { (top : RdnSequence) (entries : List EntryInformation) (request : BindRequest)
        → IfOk (read_name request.name) (λ name. is_prefix_of top name ≡ false)
        → bind_answer (without_subtree top entries) request ≡ bind_answer entries request }
{}

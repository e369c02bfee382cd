//! Binds answered.

ghost use Rattle.std.specs.Prelude.{◌≡◌, ◌≤◌, ◌+◌, ℕ, Bool, List, [], ◌∷◌, vec_len, vec_capacity, IsOk, IfOk, OnOk, OnErr, Some};
ghost use Rattle.dir_tree.specs.tree.Numbered.{entries_of};
ghost use Rattle.session_model.specs.ldap_msg.declared.kinds.Reply.TheVariants as reply;
ghost use Rattle.session_model.specs.ldap_msg.declared.operations.Ending.TheVariants as ending;
ghost use Rattle.op_read.specs.read_model.Views.{result_of as result_with};
ghost use Rattle.op_read.specs.Short.{Puts};
ghost use Rattle.session_hub.specs.Answering.{bound, answer_read};
ghost use Rattle.session_hub.specs.Answers.{Gives, Sends};
ghost use Rattle.session_hub.specs.ShortAnswers.{IsShortAnswer};
ghost use Rattle.session_hub.specs.SimpleBinds.{message_for};

use crate::results::result_of;
use crate::simple::SimpleBind;
use op_bind::{Bound, bind, bind_with_password};
use op_read::acdf_filters::Requester;
use op_read::directory::Dir;
use session_model::ldap_msg::{BindRequest, Ending, Reply, put_reply};
use std::alloc::{AllocError, Global};

/// Appends the reply to a bind, and the requester is whom it made. After `AllocError` the requester is who it was.
fn put_bound(
    alloc: Global,
    who: &mut Requester,
    id: u32,
    bound: Bound,
    out: &mut Vec<u8>,
) -> Result<(), AllocError>
    ensures ok { OnOk result (Puts id
        (reply.Ended ending.Bind (result_with bound.code) ∷ [])
        out.old.items out.new.items) }
    ensures asked { OnOk result (who.new ≡ bound.who) }
    ensures err { OnErr result (out.new.items ≡ out.old.items) }
    ensures kept { OnErr result (who.new ≡ who.old) }
    ensures succeeds { id ≤ 2147483647 → vec_len out.old + 17 ≤ vec_capacity out.old → IsOk result }
{
    let ended = result_of(alloc, bound.code);
    put_reply(out, id, &Reply::Ended(Ending::Bind, ended))?;
    *who = bound.who;
    Ok(())
}

/// Binds over the directory. After `AllocError` the requester is who it was.
pub fn answer_bind<D: Dir>(
    alloc: Global,
    dir: &D,
    who: &mut Requester,
    id: u32,
    request: &BindRequest,
    out: &mut Vec<u8>,
) -> Result<(), AllocError>
    ensures ok { OnOk result (Sends id (bound (entries_of (D.rows dir.now)) request.now)
        out.old.items out.new.items (entries_of (D.rows dir.now)) who.new) }
    ensures err { OnErr result (out.new.items ≡ out.old.items) }
    ensures kept { OnErr result (who.new ≡ who.old) }
{
    let bound = bind(alloc, dir.tree(), request)?;
    put_bound(alloc, who, id, bound, out)
}

/// The same for a simple bind, which leaves the connection open. Without a name it takes no memory where there is room for
/// 17 octets.
pub fn answer_simple_bind<D: Dir>(
    alloc: Global,
    dir: &D,
    who: &mut Requester,
    request: &SimpleBind<'_>,
    out: &mut Vec<u8>,
) -> Result<bool, AllocError>
    ensures ok { IfOk result (λ closes.
        (keeps : Bool) (changes : List ℕ) →
        Gives (answer_read keeps (entries_of (D.rows dir.now)) who.old (Some (message_for request.now)))
        (record { replies = out.old.items; changes = changes }) (record { replies = out.new.items; changes = changes })
        (entries_of (D.rows dir.now)) who.new closes) }
    ensures short { OnOk result (IsShortAnswer (entries_of (D.rows dir.now)) who.old (Some (message_for request.now))) }
    ensures err { OnErr result (out.new.items ≡ out.old.items) }
    ensures kept { OnErr result (who.new ≡ who.old) }
    ensures succeeds { request.now.name.now ≡ [] → request.now.id ≤ 2147483647 → vec_len out.old + 17 ≤ vec_capacity out.old → IsOk result }
{
    let bound = bind_with_password(alloc, dir.tree(), request.name, request.password)?;
    put_bound(alloc, who, request.id, bound, out)?;
    Ok(false)
}

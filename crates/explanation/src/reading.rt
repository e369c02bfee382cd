//! The question of four words.

ghost use Rattle.std.specs.Prelude.{◌≡◌, IfOk};
ghost use Rattle.std.specs.Option.{option_map};
ghost use Rattle.explanation.specs.Questions.{question_view};
ghost use Rattle.explanation.specs.Reading.{question_of};

use crate::asked::{AskedDecision, NoMemory};
use crate::item::read_item;
use crate::names::{read_target, read_who};
use crate::permission::permission_named;
use std::alloc::Global;

/// The question that the words ask; None where they ask none. The error comes where memory is refused.
///
/// `who` is `anonymous` or a name (RFC 4514): a requester with a name is one known by a password, and the empty name is
/// that of an anonymous one (RFC 4513, 5.1.1). `target` is a name that isn't empty. `item` is `entry`, `type:NAME` or
/// `value:NAME=TEXT`, cut at the first `=`: NAME is an attribute type's name or object identifier, and TEXT is of its
/// syntax, however long. `permission` is the name of a permission that operations ask for (X.501 18.2.3 and 18.2.4).
#[tactic(auto, unfolding(crate::specs::Reading::question_of))]
pub fn read_question(
    alloc: Global,
    who: &str,
    target: &str,
    item: &str,
    permission: &str,
) -> Result<Option<AskedDecision>, NoMemory>
    ensures exact { IfOk result (λ asked.
        option_map question_view asked ≡ question_of who.now target.now item.now permission.now) }
{
    let Some(who) = read_who(alloc, who.as_bytes())? else {
        return Ok(None);
    };
    let Some(target) = read_target(alloc, target.as_bytes())? else {
        return Ok(None);
    };
    let Some(item) = read_item(alloc, item)? else {
        return Ok(None);
    };
    match permission_named(permission.as_bytes()) {
        Some(permission) => Ok(Some(AskedDecision {
            who,
            target,
            item,
            permission,
        })),
        None => Ok(None),
    }
}

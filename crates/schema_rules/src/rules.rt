//! The table of the rules, in the order in which they are tried.

ghost use Rattle.std.specs.Prelude.{◌≡◌, IfOk};
ghost use Rattle.std.specs.Option.{option_map};
ghost use Rattle.schema_rules.specs.Checking.{IsSuperior, replaced, others};
ghost use Rattle.aci_item.specs.Rules.{breaks_classes, broken_rule};

use crate::broken::NoMemory;
use crate::contents::{has_unpermitted, lacks_required};
use crate::limits::is_past_limits;
use crate::listed::{
    lists_access_alone, lists_no_structural, lists_none, lists_two_lines, lists_unknown,
};
use crate::own::lacks_own_value;
use crate::points::is_misplaced;
use crate::structural::has_other_structural;
use crate::values::{has_two_values, has_unread};
use aci_item::EntryRule;
use dir_tree::{Entry, EntryNo, Tree};
use std::alloc::Global;

/// The first rule that the entry breaks in the tree, as a new one or in the place of the entry of the first number; None
/// where it breaks none. The second number is that of its superior.
#[tactic(auto, unfolding(aci_item::specs::Rules::broken_rule))]
pub(crate) fn broken_rule(
    alloc: Global,
    tree: &Tree,
    old: Option<EntryNo>,
    superior: Option<EntryNo>,
    entry: &Entry,
) -> Result<Option<EntryRule>, NoMemory>
    requires { IsSuperior (option_map (λ no. no.0) superior) entry.now tree.now }
    ensures exact { IfOk result (λ rule. rule
        ≡ broken_rule (replaced (option_map (λ no. no.0) old) tree.now)
        (others (option_map (λ no. no.0) old) tree.now) entry.now) }
{
    if lacks_own_value(entry) {
        Ok(Some(EntryRule::RdnValues))
    } else if has_other_structural(tree, old, entry) {
        Ok(Some(EntryRule::StructuralClass))
    } else if breaks_classes(entry) {
        Ok(Some(EntryRule::Classes))
    } else if has_unread(alloc, entry)? {
        Ok(Some(EntryRule::Syntaxes))
    } else if has_two_values(entry) {
        Ok(Some(EntryRule::SingleValues))
    } else if is_misplaced(tree, old, superior, entry) {
        Ok(Some(EntryRule::Place))
    } else if is_past_limits(tree, old, entry) {
        Ok(Some(EntryRule::Limits))
    } else {
        Ok(None)
    }
}

// Whether the entry's classes don't go together, or its attributes don't go with them.
#[tactic(auto, unfolding(aci_item::specs::Rules::breaks_classes))]
fn breaks_classes(entry: &Entry) -> bool
    ensures exact { result ≡ breaks_classes entry.now }
{
    lists_none(entry)
        || lists_unknown(entry)
        || lists_no_structural(entry)
        || lists_two_lines(entry)
        || lacks_required(entry)
        || has_unpermitted(entry)
        || lists_access_alone(entry)
}

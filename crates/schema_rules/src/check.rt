//! Whether an entry may stand in a tree.

ghost use Rattle.std.specs.Prelude.{◌≡◌, None, IfOk, IfErr};
ghost use Rattle.std.specs.Option.{option_map};
ghost use Rattle.dir_tree.specs.tree.Numbered.{entries_of};
ghost use Rattle.schema_rules.specs.Checking.{IsSuperior, IsFor, replaced, others};
ghost use Rattle.aci_item.specs.Rules.{broken_rule};

use crate::broken::Broken;
use crate::points::number_above;
use crate::rules::broken_rule;
use dir_tree::{Entry, EntryNo, Tree};
use std::alloc::{AllocError, Global};

/// Whether the entry may stand in the tree in the place of the entry of the number, or, without a number, as a new one:
/// `Rule` comes exactly where it breaks a rule beside the others, and names the first one. `NoMemory` may come in place
/// of any answer: values of subtreeSpecification are read. A number that is not in use is none.
pub fn check_entry(
    alloc: Global,
    tree: &Tree,
    old: Option<EntryNo>,
    entry: &Entry,
) -> Result<(), Broken>
    ensures ok { IfOk result (λ _. broken_rule (replaced (option_map (λ no. no.0) old) tree.now)
        (others (option_map (λ no. no.0) old) tree.now) entry.now ≡ None) }
    ensures rule { IfErr result (λ broken.
        IsFor broken (broken_rule (replaced (option_map (λ no. no.0) old) tree.now)
        (others (option_map (λ no. no.0) old) tree.now) entry.now)) }
{
    let superior = number_above(tree, entry.name());
    match broken_rule(alloc, tree, old, superior, entry) {
        Ok(Some(rule)) => Err(Broken::Rule(rule)),
        Ok(None) => Ok(()),
        Err(AllocError) => Err(Broken::NoMemory),
    }
}

/// The same of a new entry for a caller that knows the number of its superior: the tree isn't searched for it. None says
/// that the tree has no entry of the superior's name.
pub fn check_entry_below(
    alloc: Global,
    tree: &Tree,
    superior: Option<EntryNo>,
    entry: &Entry,
) -> Result<(), Broken>
    requires { IsSuperior (option_map (λ no. no.0) superior) entry.now tree.now }
    ensures ok { IfOk result (λ _. broken_rule None (entries_of tree.now) entry.now ≡ None) }
    ensures rule { IfErr result (λ broken.
        IsFor broken (broken_rule None (entries_of tree.now) entry.now)) }
{
    match broken_rule(alloc, tree, None, superior, entry) {
        Ok(Some(rule)) => Err(Broken::Rule(rule)),
        Ok(None) => Ok(()),
        Err(AllocError) => Err(Broken::NoMemory),
    }
}

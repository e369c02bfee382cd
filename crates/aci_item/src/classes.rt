//! User classes.

use dir_tree::dn_names::Dn;
use subtree_spec::Spec;

/// User classes (X.501 18.4.2.5): a requester is in them where it is in one of them. The names, and the subtrees, stand
/// in the order of their printed texts, and no two texts are equal.
#[derive(Drop)]
pub struct UserClasses {
    /// allUsers.
    pub all: bool,
    /// thisEntry.
    pub this_entry: bool,
    /// The users of name.
    pub names: Vec<Dn>,
    /// The groups of userGroup.
    pub groups: Vec<Dn>,
    /// The subtrees of subtree.
    pub subtrees: Vec<Spec>,
}

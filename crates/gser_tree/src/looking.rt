//! What a tree is.

ghost use Rattle.std.specs.Prelude.{◌≡◌, ◌==◌, ◌≤◌, ◌<◌, ◌^◌, [], List, IfOk, IfSome, Some, map, length, option_map};
ghost use Rattle.gser_tree.specs.looking.Shapes.{Shape, nest};
ghost use Rattle.gser_tree.specs.TextOf.{IsTextOf};
ghost use Rattle.gser_tree.specs.Growing.{tree_of};
ghost use Rattle.gser_tree.specs.Tree.{shape_of, behind_of};
ghost use Rattle.gser_tree.specs.looking.Looking.{members_in, word_in, string_in, named_in, chosen_in, Behind, component, is_null, flag};

use crate::growing::tree_of;
use crate::part::Part;
use crate::tree::Tree;
use std::alloc::{AllocError, Global};

/// Reads a text (RFC 3641) as a value. None comes where it is written for no value, or for one in which braces stand
/// more than a hundred deep. The error comes where memory is refused.
pub fn read_tree(alloc: Global, text: &[u8]) -> Result<Option<Tree>, AllocError>
    ensures exact { IfOk result (λ found. option_map shape_of found ≡ tree_of text.now) }
    ensures found { IfOk result (λ found. IfSome found (λ tree. IsTextOf (shape_of tree) text.now)) }
    ensures only { IfOk result (λ found. (shape : Shape) → IsTextOf shape text.now → nest shape ≤ 100
        → option_map shape_of found ≡ Some shape) }
{
    tree_of(alloc, text)
}

impl Tree {
    /// The members in braces.
    pub fn members(&self) -> Option<&[Tree]>
        ensures exact { option_map (λ trees. map shape_of trees.now) result ≡ members_in (shape_of self.now) }
    {
        match self {
            Tree::Braces(trees) => Some(trees),
            _ => None,
        }
    }

    /// A word.
    pub fn word(&self) -> Option<&Part>
        ensures exact { option_map (λ part. part.now) result ≡ word_in (shape_of self.now) }
    {
        match self {
            Tree::Word(part) => Some(part),
            _ => None,
        }
    }

    /// A string.
    pub fn string(&self) -> Option<&Part>
        ensures exact { option_map (λ part. part.now) result ≡ string_in (shape_of self.now) }
    {
        match self {
            Tree::Quoted(part) => Some(part),
            _ => None,
        }
    }

    /// An identifier, and the value behind it.
    pub fn named(&self) -> Option<(&Part, &Tree)>
        ensures exact { option_map (λ found. (found.0.now, shape_of found.1.now)) result ≡ named_in (shape_of self.now) }
    {
        match self {
            Tree::Named(part, tree) => Some((part, tree)),
            _ => None,
        }
    }

    /// An identifier, and the value behind it and a colon.
    pub fn chosen(&self) -> Option<(&Part, &Tree)>
        ensures exact { option_map (λ found. (found.0.now, shape_of found.1.now)) result ≡ chosen_in (shape_of self.now) }
    {
        match self {
            Tree::Chosen(part, tree) => Some((part, tree)),
            _ => None,
        }
    }
}

/// The value of the first member, where that is the component of the name, and the members behind it.
pub fn component<'a>(name: &str, trees: &'a [Tree]) -> Option<(&'a Tree, &'a [Tree])>
    ensures exact { option_map behind_of result ≡ component name.now (map shape_of trees.now) }
{
    let (first, rest) = trees.split_first()?;
    match first.named() {
        Some((part, value)) if part.text.as_str() == name => Some((value, rest)),
        _ => None,
    }
}

// Whether the value is NULL.
fn is_null(tree: &Tree) -> bool
    ensures exact { result ≡ is_null (shape_of tree.now) }
{
    match tree.word() {
        Some(part) => part.text.as_str() == "NULL",
        None => false,
    }
}

/// The members behind the first, where that is the identifier alone, or before NULL.
pub fn flag<'a>(name: &str, trees: &'a [Tree]) -> Option<&'a [Tree]>
    ensures exact { option_map (λ rest. map shape_of rest.now) result ≡ flag name.now (map shape_of trees.now) }
{
    let (first, rest) = trees.split_first()?;
    let found = match first {
        Tree::Word(part) => part.text.as_str() == name,
        Tree::Named(part, value) => part.text.as_str() == name && is_null(value),
        _ => false,
    };
    if found { Some(rest) } else { None }
}

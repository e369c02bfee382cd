//! The value of tokens, from the last token to the first.

ghost use Rattle.std.specs.Prelude.{◌≡◌, ◌==◌, ◌&&◌, IfOk, Some, length, map, reverse, option_map, option_and_then};
ghost use Rattle.gser_tree.specs.looking.Shapes.{gathered};
ghost use Rattle.gser_tree.specs.declared.token.Token.TheVariants as token;
ghost use Rattle.gser_tree.specs.declared.marks.Mark.TheVariants.{Close};
ghost use Rattle.gser_tree.specs.Growing.{with_word, with_value, with_comma, with_colon, all_of, with_braces, on_top, grow, value_of, value_in, tree_of};
ghost use Rattle.gser_tree.specs.Tree.{shape_of, from_end, frame_of, stack_of};

use crate::lexing::lex;
use crate::marks::Mark;
use crate::part::Part;
use crate::token::Token;
use crate::tree::Tree;
use std::alloc::{AllocError, Global};

const MOST_OPEN: usize = 100;

/// What has come of values in braces, from their end: the values before others are kept last.
#[derive(Drop)]
pub(crate) enum Level {
    /// Nothing.
    Fresh,
    /// Values, and a comma before them.
    Wanting(Vec<Tree>),
    /// A value before others.
    Holding(Tree, Vec<Tree>),
    /// A colon, a value and others.
    Choosing(Tree, Vec<Tree>),
}

/// The braces that are open: the innermost, and those around it, the outermost first.
#[derive(Drop)]
pub(crate) struct Growing {
    top: Level,
    below: Vec<Level>,
}

// A word before what has come.
fn with_word(alloc: Global, part: Part, level: Level) -> Result<Level, AllocError>
    ensures ok { IfOk result (λ next. frame_of next ≡ with_word part (frame_of level)) }
{
    match level {
        Level::Fresh => Ok(Level::Holding(Tree::Word(part), Vec::new(alloc))),
        Level::Wanting(trees) => Ok(Level::Holding(Tree::Word(part), trees)),
        Level::Holding(tree, trees) => {
            let named = Tree::Named(part, Box::new(alloc, tree)?);
            Ok(Level::Holding(named, trees))
        }
        Level::Choosing(tree, trees) => {
            let chosen = Tree::Chosen(part, Box::new(alloc, tree)?);
            Ok(Level::Holding(chosen, trees))
        }
    }
}

// A whole value, where one may stand.
fn with_value(alloc: Global, tree: Tree, level: Level) -> Option<Level>
    ensures exact { option_map frame_of result ≡ with_value (shape_of tree) (frame_of level) }
{
    match level {
        Level::Fresh => Some(Level::Holding(tree, Vec::new(alloc))),
        Level::Wanting(trees) => Some(Level::Holding(tree, trees)),
        Level::Holding(_, _) | Level::Choosing(_, _) => None,
    }
}

// A comma.
fn with_comma(level: Level) -> Result<Option<Level>, AllocError>
    ensures ok { IfOk result (λ next. option_map frame_of next ≡ with_comma (frame_of level)) }
{
    match level {
        Level::Holding(tree, mut trees) => {
            trees.push(tree)?;
            Ok(Some(Level::Wanting(trees)))
        }
        _ => Ok(None),
    }
}

// A colon.
fn with_colon(level: Level) -> Option<Level>
    ensures exact { option_map frame_of result ≡ with_colon (frame_of level) }
{
    match level {
        Level::Holding(tree, trees) => Some(Level::Choosing(tree, trees)),
        _ => None,
    }
}

// The values in braces, all of which have come, in the order of the text.
fn all_of(alloc: Global, level: Level) -> Result<Option<Vec<Tree>>, AllocError>
    ensures ok { IfOk result (λ trees. option_map (λ trees. gathered (map shape_of trees.items)) trees ≡ all_of (frame_of level)) }
{
    match level {
        Level::Fresh => Ok(Some(Vec::new(alloc))),
        Level::Holding(tree, mut trees) => {
            trees.push(tree)?;
            trees.reverse();
            Ok(Some(trees))
        }
        _ => Ok(None),
    }
}

// The same braces, with another top.
fn on_top(top: Option<Level>, below: Vec<Level>) -> Option<Growing>
    ensures exact { option_map stack_of result
        ≡ option_and_then (λ top. Some (record { top = top; below = map frame_of (reverse below.items) })) (option_map frame_of top) }
{
    match top {
        Some(top) => Some(Growing { top, below }),
        None => None,
    }
}

// Braces that stand in others.
fn with_braces(alloc: Global, trees: Vec<Tree>, below: Vec<Level>) -> Option<Growing>
    ensures exact { option_map stack_of result
        ≡ with_braces (gathered (map shape_of trees.items)) (map frame_of (reverse below.items)) }
{
    let mut below = below;
    match below.pop() {
        Some(level) => on_top(with_value(alloc, Tree::Braces(trees), level), below),
        None => None,
    }
}

// The end of braces; at most a hundred are open at once.
#[tactic(auto, unfolding(crate::specs::Growing::grow))]
fn open_braces(top: Level, below: Vec<Level>) -> Result<Option<Growing>, AllocError>
    ensures ok { IfOk result (λ next. option_map stack_of next
        ≡ grow (token.Sign Close) (record { top = frame_of top; below = map frame_of (reverse below.items) })) }
{
    let mut below = below;
    if below.len() >= MOST_OPEN {
        return Ok(None);
    }
    below.push(top)?;
    Ok(Some(Growing {
        top: Level::Fresh,
        below,
    }))
}

// A token before what has come.
#[tactic(auto, unfolding(crate::specs::Growing::grow))]
fn grow(alloc: Global, token: Token, growing: Growing) -> Result<Option<Growing>, AllocError>
    ensures ok { IfOk result (λ next. option_map stack_of next ≡ grow token (stack_of growing)) }
{
    let Growing { top, below } = growing;
    match token {
        Token::Word(part) => Ok(on_top(Some(with_word(alloc, part, top)?), below)),
        Token::Quoted(part) => Ok(on_top(with_value(alloc, Tree::Quoted(part), top), below)),
        Token::Sign(Mark::Comma) => Ok(on_top(with_comma(top)?, below)),
        Token::Sign(Mark::Colon) => Ok(on_top(with_colon(top), below)),
        Token::Sign(Mark::Close) => open_braces(top, below),
        Token::Sign(Mark::Open) => match all_of(alloc, top)? {
            Some(trees) => Ok(with_braces(alloc, trees, below)),
            None => Ok(None),
        },
    }
}

fn are_empty(trees: &[Tree], below: &[Level]) -> bool
    ensures exact { result ≡ ((length trees.now == 0) && (length below.now == 0)) }
{
    trees.is_empty() && below.is_empty()
}

// One value, where no braces are open.
fn value_in(growing: Growing) -> Option<Tree>
    ensures exact { option_map shape_of result ≡ value_in (stack_of growing) }
{
    let Growing { top, below } = growing;
    match top {
        Level::Holding(tree, trees) => {
            if are_empty(&trees, &below) {
                Some(tree)
            } else {
                None
            }
        }
        _ => None,
    }
}

// The value of tokens.
#[tactic(auto, unfolding(crate::specs::Growing::value_of))]
fn value_of(alloc: Global, tokens: Vec<Token>) -> Result<Option<Tree>, AllocError>
    ensures ok { IfOk result (λ tree. option_map shape_of tree ≡ value_of tokens.items) }
{
    let mut left = tokens;
    let mut growing = Growing {
        top: Level::Fresh,
        below: Vec::new(alloc),
    };
    'tokens: while let Some(token) = left.pop() {
        match grow(alloc, token, growing)? {
            Some(next) => growing = next,
            None => return Ok(None),
        }
    }
    Ok(value_in(growing))
}

/// The value of a text; None where it has none, or braces stand more than a hundred deep.
#[tactic(auto, unfolding(crate::specs::Growing::tree_of))]
pub(crate) fn tree_of(alloc: Global, text: &[u8]) -> Result<Option<Tree>, AllocError>
    ensures ok { IfOk result (λ tree. option_map shape_of tree ≡ tree_of text.now) }
{
    match lex(alloc, text)? {
        Some(tokens) => value_of(alloc, tokens),
        None => Ok(None),
    }
}

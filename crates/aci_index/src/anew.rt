//! The lists of the entries that a write reaches, made of the tree and put.

ghost use Rattle.std.specs.Prelude.{◌≡◌, ◌++◌, IfOk, OnOk, length, fold, unwrap_or};
ghost use Rattle.std.specs.List.{AllByRecursion};
ghost use Rattle.dir_tree.specs.tree.Numbered.{superior_of};
ghost use Rattle.dir_tree.specs.Scope.{scoped};
ghost use Rattle.dir_tree.specs.declared.scope.Scope.TheVariants.{Sub};
ghost use Rattle.acdf_filters.specs.admin_scope.Finding.{AreSubtrees};
ghost use Rattle.aci_index.specs.Steps.{AllStay};
ghost use Rattle.aci_index.specs.Reach.{HaveRoom, IsAnew, IsPut, IsRemade, left_behind, numbers_of, put_one, reached, top_of};

use crate::putting::make_room;
use acdf_filters::admin_scope::{AccessSubentry, access_subtrees};
use aci_lists::{Holdings, Kept, make_at};
use dir_tree::{EntryNo, NoMemory, Scope, Tree};
use std::alloc::Global;

/// Which lists a write may change.
#[derive(Clone, Copy, Drop)]
pub(crate) enum Reach {
    /// Those of its entry, and of the entries below it.
    Below,
    /// Those of the entries at and below the superior of its entry, or at and below its entry where it has none.
    Around,
}

/// The lists of a number, made anew.
#[derive(Drop)]
pub(crate) struct Remade {
    pub number: EntryNo,
    pub lists: Kept,
}

/// The subtrees of a tree, and the lists of the entries that are reached.
#[derive(Drop)]
pub(crate) struct Anew {
    pub subtrees: Vec<AccessSubentry>,
    pub lists: Vec<Remade>,
}

/// Nothing made.
pub(crate) fn no_anew(alloc: Global) -> Anew {
    Anew {
        subtrees: Vec::new(alloc),
        lists: Vec::new(alloc),
    }
}

// The superior of the number, or the number itself where it has none.
fn superior_or_itself(tree: &Tree, number: EntryNo) -> EntryNo
    ensures exact { result.0 ≡ unwrap_or (superior_of number.0 tree.now) number.0 }
{
    match tree.superior(number) {
        Some(above) => above,
        None => number,
    }
}

/// The number at and below which the lists are that a write of the number may change.
pub(crate) fn top(tree: &Tree, number: EntryNo, reach: Reach) -> EntryNo
    ensures exact { result.0 ≡ top_of reach number.0 tree.now }
{
    match reach {
        Reach::Below => number,
        Reach::Around => superior_or_itself(tree, number),
    }
}

// The lists of the number.
fn remake(
    alloc: Global,
    tree: &Tree,
    subtrees: &[AccessSubentry],
    number: EntryNo,
) -> Result<Remade, NoMemory>
    requires subtrees { AreSubtrees subtrees.now tree.now }
    ensures number { IfOk result (λ one. one.number.0 ≡ number.0) }
    ensures lists { IfOk result (λ one. IsRemade tree.now one) }
{
    let lists = make_at(alloc, tree, subtrees, number)?;
    Ok(Remade { number, lists })
}

// Puts the lists of the entries at and below the top behind those that were made.
fn remake_below(
    alloc: Global,
    tree: &Tree,
    subtrees: &[AccessSubentry],
    top: EntryNo,
    list: &mut Vec<Remade>,
) -> Result<(), NoMemory>
    requires subtrees { AreSubtrees subtrees.now tree.now }
    requires made { AllByRecursion (IsRemade tree.now) list.old.items }
    ensures numbers { OnOk result
        (numbers_of list.new.items ≡ numbers_of list.old.items ++ scoped Sub top.0 tree.now) }
    ensures lists { OnOk result (AllByRecursion (IsRemade tree.now) list.new.items) }
{
    for number in tree.below(top, Scope::Sub) {
        list.push(remake(alloc, tree, subtrees, number)?)?;
    }
    Ok(())
}

// The lists of the entries at and below a top that is the top no more.
fn remake_left(
    alloc: Global,
    tree: &Tree,
    subtrees: &[AccessSubentry],
    from: EntryNo,
    to: EntryNo,
) -> Result<Vec<Remade>, NoMemory>
    requires subtrees { AreSubtrees subtrees.now tree.now }
    ensures numbers { IfOk result (λ list. numbers_of list.items ≡ left_behind from.0 to.0 tree.now) }
    ensures lists { IfOk result (λ list. AllByRecursion (IsRemade tree.now) list.items) }
{
    let mut list = Vec::new(alloc);
    if from.0 == to.0 {
        return Ok(list);
    }
    remake_below(alloc, tree, subtrees, from, &mut list)?;
    Ok(list)
}

// The lists of the entries at and below the two tops.
fn remake_reached(
    alloc: Global,
    tree: &Tree,
    subtrees: &[AccessSubentry],
    from: EntryNo,
    to: EntryNo,
) -> Result<Vec<Remade>, NoMemory>
    requires subtrees { AreSubtrees subtrees.now tree.now }
    ensures numbers { IfOk result (λ list. numbers_of list.items ≡ reached from.0 to.0 tree.now) }
    ensures lists { IfOk result (λ list. AllByRecursion (IsRemade tree.now) list.items) }
{
    let mut list = remake_left(alloc, tree, subtrees, from, to)?;
    remake_below(alloc, tree, subtrees, to, &mut list)?;
    Ok(list)
}

/// The subtrees, and the lists that a write may change: those at and below the top before it, and at and below the one
/// after it. The error comes where memory is wanted.
pub(crate) fn make_anew(
    alloc: Global,
    tree: &Tree,
    from: EntryNo,
    to: EntryNo,
) -> Result<Anew, NoMemory>
    ensures ok { IfOk result (λ anew. IsAnew from.0 to.0 anew tree.now) }
{
    let subtrees = access_subtrees(alloc, tree)?;
    let lists = remake_reached(alloc, tree, &subtrees, from, to)?;
    Ok(Anew { subtrees, lists })
}

/// Makes the same where one top is all, with room for the lists of all numbers of the tree.
pub(crate) fn make_anew_with_room(
    alloc: Global,
    tree: &Tree,
    held: &mut Holdings,
    top: EntryNo,
) -> Result<Anew, NoMemory>
    ensures ok { IfOk result (λ anew. IsAnew top.0 top.0 anew tree.now) }
    ensures room { IfOk result (λ anew. HaveRoom anew.lists.items (length held.new.lists.items)) }
    ensures stay { AllStay held.old held.new }
{
    let anew = make_anew(alloc, tree, top, top)?;
    make_room(alloc, &mut held.lists, tree.bound())?;
    Ok(anew)
}

// Puts the lists in place of those that the numbers have.
fn put_all(kept: &mut [Kept], list: Vec<Remade>)
    requires room { HaveRoom list.items (length kept.old) }
    ensures exact { kept.new ≡ fold put_one kept.old list.items }
{
    for one in list {
        kept[one.number.0 as usize] = one.lists;
    }
}

/// Puts what was made in place of what is kept. Takes no memory.
pub(crate) fn put_anew(held: &mut Holdings, anew: Anew)
    requires room { HaveRoom anew.lists.items (length held.old.lists.items) }
    ensures exact { IsPut anew held.old held.new }
{
    held.subtrees = anew.subtrees;
    put_all(&mut held.lists, anew.lists);
}

//! What is done with the tree.

ghost use Rattle.std.specs.Prelude.{◌≡◌, List, Result, Ok, OnOk};
ghost use Rattle.dir_tree.specs.Entry.{EntryInformation};
ghost use Rattle.dir_tree.specs.tree.Numbered.{entries_of};
ghost use Rattle.change_laws.specs.op_modify.ldap_msg.declared.operations.ResultCode.{ResultCode};
ghost use Rattle.change_replay.specs.Steps.{TakesOut, Replaces, IsStep, HasName};

use dir_tree::{Entry, EntryNo, NoMemory, Tree};
use std::alloc::AllocError;

/// What is to be done with a tree.
#[derive(Drop)]
pub(crate) enum Step {
    /// The entry of the number goes.
    TakeOut(EntryNo),
    /// The entry comes.
    PutIn(Entry),
    /// The entry takes the place of that of the number.
    Replace(EntryNo, Entry),
    /// The entry, which has the name of that of the number, takes its place.
    Revise(EntryNo, Entry),
}

// Takes the entry of the number out.
fn take_out(tree: &mut Tree, number: EntryNo) -> Result<(), NoMemory>
    ensures ok { OnOk result ((expected : Result (List EntryInformation) ResultCode)
        → TakesOut tree.old number.0 expected → expected ≡ Ok (entries_of tree.new)) }
{
    tree.entries_form_a_tree();
    match tree.remove(number) {
        Ok(_entry) => Ok(()),
        Err(_) => Err(AllocError),
    }
}

// Puts the entry in.
fn put_in(tree: &mut Tree, entry: Entry) -> Result<(), NoMemory>
    requires named { HasName tree.old (Step.PutIn entry) }
    ensures ok { OnOk result ((expected : Result (List EntryInformation) ResultCode)
        → IsStep tree.old (Step.PutIn entry) expected → expected ≡ Ok (entries_of tree.new)) }
{
    match tree.insert(entry) {
        Ok(_number) => Ok(()),
        Err(_) => Err(AllocError),
    }
}

// Puts the entry into the place of that of the number.
fn replace(tree: &mut Tree, number: EntryNo, entry: Entry) -> Result<(), NoMemory>
    ensures ok { OnOk result ((expected : Result (List EntryInformation) ResultCode)
        → Replaces tree.old number.0 entry expected → expected ≡ Ok (entries_of tree.new)) }
{
    tree.entries_form_a_tree();
    match tree.replace(number, entry) {
        Ok(_entry) => Ok(()),
        Err(_) => Err(AllocError),
    }
}

// Puts the entry into the place of that of the number, whose name it has.
fn revise(tree: &mut Tree, number: EntryNo, entry: Entry) -> Result<(), NoMemory>
    requires named { HasName tree.old (Step.Revise number entry) }
    ensures ok { OnOk result ((expected : Result (List EntryInformation) ResultCode)
        → Replaces tree.old number.0 entry expected → expected ≡ Ok (entries_of tree.new)) }
{
    tree.entries_form_a_tree();
    let _old = tree.revise(number, entry)?;
    Ok(())
}

/// Does it. The error comes where memory is wanted: what is to be done was checked.
pub(crate) fn make(tree: &mut Tree, step: Step) -> Result<(), NoMemory>
    requires named { HasName tree.old step }
    ensures ok { OnOk result ((expected : Result (List EntryInformation) ResultCode)
        → IsStep tree.old step expected → expected ≡ Ok (entries_of tree.new)) }
{
    match step {
        Step::TakeOut(number) => take_out(tree, number),
        Step::PutIn(entry) => put_in(tree, entry),
        Step::Replace(number, entry) => replace(tree, number, entry),
        Step::Revise(number, entry) => revise(tree, number, entry),
    }
}

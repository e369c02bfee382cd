//! Recorded changes, one after the other.

ghost use Rattle.std.specs.Prelude.{◌≡◌, Ok, OnOk, IfErr};
ghost use Rattle.dir_tree.specs.plain_values.Answers.{Answers, IsFaultOf};
ghost use Rattle.dir_tree.specs.tree.Numbered.{entries_of};
ghost use Rattle.change_replay.specs.Applied.{applied};
ghost use Rattle.change_replay.specs.Replayed.{at_line, replayed, refused_by};

use crate::applying::apply;
use crate::fault::ReplayFault;
use change_records::RecordedChange;
use dir_tree::Tree;
use op_add_delete::Fault;
use std::alloc::Global;

// Makes one of the changes.
fn apply_recorded(
    alloc: Global,
    tree: &mut Tree,
    recorded: &RecordedChange,
) -> Result<(), ReplayFault>
    ensures exact { Answers (λ _. entries_of tree.new) refused_by result
        (at_line recorded.now.line (applied (entries_of tree.old) recorded.now.change)) }
{
    let line = recorded.line;
    match apply(alloc, tree, &recorded.change) {
        Ok(()) => Ok(()),
        Err(Fault::Refused(code)) => Err(ReplayFault::Refused { line, code }),
        Err(Fault::NoMemory) => Err(ReplayFault::NoMemory),
    }
}

/// Makes recorded changes of the tree, in their order, and asks nobody for permission: each was accepted once (RFC 4511 4.6
/// to 4.9, without the decisions of X.511). What it still must have is what the operations ask of the entries: an entry of
/// the name, the free name of a new one, an entry without others below it, the values that a modify names, and the rules of
/// entries.
///
/// `Refused` tells the first change that lacks one of these, by the line where its record begins and the result code that
/// the operation would have answered; that of a request that changes nothing is protocolError. `NoMemory` may come in place
/// of any answer. After an error the tree is to be dropped: some of the changes are made then,
/// and no clause says which.
pub fn apply_changes(
    alloc: Global,
    tree: &mut Tree,
    changes: &[RecordedChange],
) -> Result<(), ReplayFault>
    ensures ok { OnOk result (replayed (entries_of tree.old) changes.now ≡ Ok (entries_of tree.new)) }
    ensures refused { IfErr result (λ fault.
        IsFaultOf (refused_by fault) (replayed (entries_of tree.old) changes.now)) }
{
    for recorded in changes {
        match apply_recorded(alloc, tree, recorded) {
            Ok(()) => {}
            Err(fault) => return Err(fault),
        }
    }
    Ok(())
}

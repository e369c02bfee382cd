//! A data file, loaded.

ghost use Rattle.std.specs.Prelude.{◌≡◌, [], Ok, IfOk, IfErr, IfSome, IfNone, OnOk};
ghost use Rattle.dir_tree.specs.tree.Numbered.{entries_of};
ghost use Rattle.aci_item.specs.Rules.{IsGoodTree};
ghost use Rattle.ldif_load.specs.ldif_records.lines.Places.{IsPlace, records_from};
ghost use Rattle.ldif_load.specs.ldif_records.writing.WrittenFile.{written_file};
ghost use Rattle.ldif_load.specs.load.Loading.{IsLoaded, loaded_entry};
ghost use Rattle.ldif_load.specs.load.DataFile.{loads, loads_after, file_start, in_file};
ghost use Rattle.wire_io.specs.plain_values.Answers.{IsFaultOf};
ghost use Rattle.data_file.specs.Files.{fault_of};
ghost use Rattle.data_file.specs.Steps.{IsStep, of_line, of_record};

use crate::fault::{DataCause, DataFault};
use crate::laws::{
    what_is_loaded_is_good, what_is_loaded_is_loadable, what_is_written_loads_again,
};
use dir_tree::Tree;
use ldif_load::ldif_records::{BadLine, LineCause, Position, Record, next_record};
use ldif_load::{LoadFault, load_record};
use std::alloc::Global;

/// The tree of a data file: the entries of its records, each of which joins those before it. `Bad` comes exactly where
/// the file isn't accepted, with its first bad line and the cause; a file without a record is bad at line 1. `NoMemory`
/// may come in place of any answer. The file that is written of the tree gives the same entries when it is loaded.
pub fn load(alloc: Global, text: &[u8]) -> Result<Tree, DataFault>
    ensures ok { IfOk result (λ tree. loads text.now ≡ Ok (entries_of tree)) }
    ensures good { IfOk result (λ tree. IsGoodTree (entries_of tree)) }
    ensures again { IfOk result (λ tree.
        loads (written_file (entries_of tree)) ≡ Ok (entries_of tree)) }
    ensures bad { IfErr result (λ fault. IsFaultOf (fault_of fault) (loads text.now)) }
{
    let mut tree = Tree::new(alloc);
    load_all(alloc, text, &mut tree)?;
    if tree.len() == 0 {
        return Err(DataFault::Bad {
            line: 1,
            cause: DataCause::Line(LineCause::Syntax),
        });
    }
    what_is_loaded_is_good();
    what_is_loaded_is_loadable();
    what_is_written_loads_again();
    Ok(tree)
}

// Loads all records of the file, one after another, into a tree without entries.
fn load_all(alloc: Global, text: &[u8], tree: &mut Tree) -> Result<(), DataFault>
    requires { tree.old ≡ [] }
    ensures ok { OnOk result (
        loads_after [] (records_from text.now file_start) ≡ Ok (entries_of tree.new)) }
    ensures bad { IfErr result (λ fault.
        IsFaultOf (fault_of fault) (loads_after [] (records_from text.now file_start))) }
{
    let mut at = Position { offset: 0, line: 1 };
    while let Some(next) = load_next(alloc, text, at, tree)? {
        at = next;
    }
    Ok(())
}

// Loads the first record from a place on, if there is one, and answers the place after it.
fn load_next(
    alloc: Global,
    text: &[u8],
    at: Position,
    tree: &mut Tree,
) -> Result<Option<Position>, DataFault>
    requires { IsPlace text.now at }
    ensures more { IfOk result (λ next.
        IfSome next (λ to. IsStep text.now at tree.old to tree.new)) }
    ensures end { IfOk result (λ next. IfNone next (records_from text.now at ≡ [])) }
    ensures kept { IfOk result (λ next. IfNone next (tree.new ≡ tree.old)) }
    ensures bad { IfErr result (λ fault.
        IsFaultOf (fault_of fault) (loads_after (entries_of tree.old) (records_from text.now at))) }
{
    match next_record(alloc, text, at) {
        Ok(Some((given, to))) => {
            load_one(alloc, given, tree)?;
            Ok(Some(to))
        }
        Ok(None) => Ok(None),
        Err(bad) => Err(misread(bad)),
    }
}

// Loads a record.
fn load_one(alloc: Global, given: Record, tree: &mut Tree) -> Result<(), DataFault>
    ensures ok { OnOk result (IsLoaded tree.old given tree.new) }
    ensures bad { IfErr result (λ fault.
        IsFaultOf (fault_of fault) (in_file (loaded_entry (entries_of tree.old) given))) }
{
    match load_record(alloc, tree, given) {
        Ok(()) => Ok(()),
        Err(fault) => Err(refused(fault)),
    }
}

fn misread(bad: BadLine) -> DataFault
    ensures exact { result ≡ of_line bad }
{
    match bad {
        BadLine::Bad { line, cause } => DataFault::Bad {
            line,
            cause: DataCause::Line(cause),
        },
        BadLine::NoMemory => DataFault::NoMemory,
    }
}

fn refused(fault: LoadFault) -> DataFault
    ensures exact { result ≡ of_record fault }
{
    match fault {
        LoadFault::Bad { line, cause } => DataFault::Bad {
            line,
            cause: DataCause::Record(cause),
        },
        LoadFault::NoMemory => DataFault::NoMemory,
    }
}

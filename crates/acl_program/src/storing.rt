//! What is to be served, made ready: the files of the command are read, and the store of their changes is opened.

ghost use Rattle.std.specs.Prelude.{◌≡◌, ℕ, List, Ok, Some, None};
ghost use Rattle.command_files.specs.aci_item.Rules.{IsGoodTree};
ghost use Rattle.command_files.specs.dir_tree.tree.Numbered.{entries_of};
ghost use Rattle.command_files.specs.loading.Changing.{head_of, left_of, unchanged};
ghost use Rattle.command_files.specs.loading.Loading.{LoadsFile};
ghost use Rattle.command_words.specs.command.Command.{ServingView, serving_view};
ghost use Rattle.acl_program.specs.program.Outside.{Linked, at_count, at_link, linked};
ghost use Rattle.acl_program.specs.serve.Listening.{Prepares, Readies};
ghost use Rattle.acl_program.specs.serve.Storing.{OpensStore, Stores, whole_of};

use crate::outside::Outside;
use command_files::wire_io::{Link, NextFault, Shelf, Sink};
use command_files::{Applied, DataFile, Loaded, Trouble, head_of, load_changes, load_file};
use command_words::Serving;
use std::alloc::Global;

/// Why nothing is ready to be served.
#[derive(Clone, Copy, Debug)]
pub(crate) enum Unready {
    /// A file wasn't taken.
    Files(Trouble),
    /// A call of the store was answered with a fault.
    Store(NextFault),
}

/// Loads the data file. Where a file of changes is named, its store is opened, the changes are applied, the store is cut to
/// what is whole of them, and the head of the data file is stored where nothing is.
pub(crate) fn make_ready<H: Shelf, K: Sink, L: Link>(
    alloc: Global,
    asked: &Serving<'_>,
    outside: &mut Outside<H, K, L>,
) -> Result<Loaded, Unready>
    ensures readies { Readies (serving_view asked.now) outside.old result outside.new }
    ensures kept { outside.new.shelf.files ≡ outside.old.shelf.files }
    ensures out { outside.new.out ≡ outside.old.out }
{
    match load_file(alloc, &mut outside.shelf, asked.data) {
        Ok(file) => match asked.changes {
            Some(changes) => open_store(alloc, file, changes, outside),
            None => Ok(unchanged(file)),
        },
        Err(trouble) => Err(Unready::Files(trouble)),
    }
}

/// The tree of a data file without changes.
fn unchanged(file: DataFile) -> Loaded
    ensures exact { left_of result ≡ unchanged (entries_of file.tree) }
{
    let DataFile { content: _, tree } = file;
    Loaded {
        tree,
        applied: None,
    }
}

/// Opens the store of the changes of a data file, and makes it ready.
fn open_store<H: Shelf, K: Sink, L: Link>(
    alloc: Global,
    file: DataFile,
    changes: &str,
    outside: &mut Outside<H, K, L>,
) -> Result<Loaded, Unready>
    requires good { IsGoodTree (entries_of file.tree) }
    ensures readies { (serving : ServingView) (count : ℕ) → serving.changes ≡ Some changes.now
        → LoadsFile outside.old.shelf.files serving.data_file count outside.old.shelf.faults (Ok file)
        → Readies serving (at_count count outside.old) result outside.new }
    ensures kept { outside.new.shelf.files ≡ outside.old.shelf.files }
    ensures out { outside.new.out ≡ outside.old.out }
{
    match outside.link.open_store(changes) {
        Ok(()) => read_store(alloc, file, changes, outside),
        Err(fault) => Err(Unready::Store(fault)),
    }
}

/// Applies the changes of the store that was opened to the data file's tree, and cuts it to what is whole.
fn read_store<H: Shelf, K: Sink, L: Link>(
    alloc: Global,
    file: DataFile,
    changes: &str,
    outside: &mut Outside<H, K, L>,
) -> Result<Loaded, Unready>
    requires good { IsGoodTree (entries_of file.tree) }
    ensures readies { (serving : ServingView) (count : ℕ) (before : Linked) → serving.changes ≡ Some changes.now
        → LoadsFile outside.old.shelf.files serving.data_file count outside.old.shelf.faults (Ok file)
        → OpensStore (Some changes.now) (Ok tt) before outside.old.link
        → Readies serving (at_count count (at_link before outside.old)) result outside.new }
    ensures kept { outside.new.shelf.files ≡ outside.old.shelf.files }
    ensures out { outside.new.out ≡ outside.old.out }
{
    let DataFile { content, tree } = file;
    let content = content.as_slice();
    match load_changes(alloc, &mut outside.shelf, tree, content, changes) {
        Ok(loaded) => match cut_store(alloc, content, whole_of(loaded.applied), &mut outside.link) {
            Ok(()) => Ok(loaded),
            Err(fault) => Err(Unready::Store(fault)),
        },
        Err(trouble) => Err(Unready::Files(trouble)),
    }
}

/// How many octets of a file of changes are whole; none, where there is no file.
fn whole_of(applied: Option<Applied>) -> usize
    ensures { result ≡ whole_of applied }
{
    match applied {
        Some(applied) => applied.whole,
        None => 0,
    }
}

/// Cuts the store to what is whole of the file of changes, and stores the head of the data file where nothing is.
fn cut_store<L: Link>(
    alloc: Global,
    content: &[u8],
    whole: usize,
    link: &mut L,
) -> Result<(), NextFault>
    ensures { Prepares content.now whole result
        (linked (L.journal link.old) (L.plan link.old) (L.faults link.old) (L.store_faults link.old) (L.lost link.old) (L.refusals link.old))
        (linked (L.journal link.new) (L.plan link.new) (L.faults link.new) (L.store_faults link.new) (L.lost link.new) (L.refusals link.new)) }
{
    match link.cut_store(whole as u64) {
        Ok(()) => {
            if whole == 0 {
                store_head(alloc, content, link)
            } else {
                Ok(())
            }
        },
        Err(fault) => Err(fault),
    }
}

/// Stores the head of the data file of this content.
fn store_head<L: Link>(alloc: Global, content: &[u8], link: &mut L) -> Result<(), NextFault>
    ensures { Stores (head_of content.now) result
        (linked (L.journal link.old) (L.plan link.old) (L.faults link.old) (L.store_faults link.old) (L.lost link.old) (L.refusals link.old))
        (linked (L.journal link.new) (L.plan link.new) (L.faults link.new) (L.store_faults link.new) (L.lost link.new) (L.refusals link.new)) }
{
    match head_of(alloc, content) {
        Ok(head) => link.store(head.as_slice()),
        Err(_) => Err(NextFault::NoMemory),
    }
}

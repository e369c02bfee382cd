//! The commands `check` and `dump`: a data file loaded, and its changes applied where there are some; and the tree that is
//! left counted, or put as a data file.

ghost use Rattle.std.specs.Prelude.{◌≡◌, IfOk, option_copied, string_bytes};
ghost use Rattle.command_words.specs.command.Command.{Check, Dump};
ghost use Rattle.command_files.specs.dir_tree.Points.{access_subentries};
ghost use Rattle.command_files.specs.dir_tree.tree.Numbered.{entries_of};
ghost use Rattle.command_files.specs.aci_item.Rules.{IsGoodTree};
ghost use Rattle.command_files.specs.loading.Changing.{left_of};
ghost use Rattle.command_files.specs.Outside.{written};
ghost use Rattle.acl_program.specs.Outcomes.{Checked, Dumped, status_of, text_of};
ghost use Rattle.acl_program.specs.serve.Serving.{applied_text};
ghost use Rattle.acl_program.specs.program.Playing.{Ends, Performs};

use crate::outside::Outside;
use crate::status::Status;
use crate::troubles::print_trouble;
use command_files::data_file::put_tree;
use command_files::dir_tree::Tree;
use command_files::wire_io::{Link, Shelf, Sink, write_all};
use command_files::{Applied, Loaded, load_tree};
use command_words::Loading;
use std::alloc::{AllocError, Global};

/// Loads the data file, applies the changes where there are some, and prints how many entries and access control subentries
/// are left, and how many changes were applied.
pub(crate) fn check<H: Shelf, K: Sink, L: Link>(
    alloc: Global,
    asked: &Loading<'_>,
    outside: &mut Outside<H, K, L>,
) -> Status
    ensures performs { Performs (Check asked.now.data.now (option_copied asked.now.changes)) outside.old result outside.new }
    ensures kept { outside.new.shelf.files ≡ outside.old.shelf.files }
{
    match load_tree(alloc, &mut outside.shelf, asked.data, asked.changes) {
        Ok(loaded) => print_counts(alloc, &loaded, &mut outside.out),
        Err(trouble) => print_trouble(alloc, trouble, &mut outside.out),
    }
}

/// Prints how many entries and access control subentries the tree has, and how many changes were applied.
#[tactic(auto, unfolding(crate::specs::Outcomes::text_of, crate::specs::Outcomes::status_of))]
fn print_counts<K: Sink>(alloc: Global, loaded: &Loaded, out: &mut K) -> Status
    ensures ends { Ends (Checked (left_of loaded.now)) (written (K.put out.old) (K.faults out.old)) result
        (written (K.put out.new) (K.faults out.new)) }
{
    let Ok(text) = counts(alloc, loaded) else {
        return Status::NoMemory;
    };
    let put = write_all(out, text.as_bytes());
    Status::Done.after(put)
}

#[tactic(auto, unfolding(crate::specs::Outcomes::text_of))]
fn counts(alloc: Global, loaded: &Loaded) -> Result<String, AllocError>
    ensures { IfOk result (λ text. string_bytes text ≡ text_of (Checked (left_of loaded.now))) }
{
    let entries = loaded.tree.len();
    let subentries = count_subentries(&loaded.tree);
    let applied = applied_text(alloc, loaded.applied)?;
    format!(in alloc; "ok {entries} {subentries}\n{applied}")
}

/// How many changes were applied, and how many octets are torn, where there is a file of changes.
pub(crate) fn applied_text(alloc: Global, applied: Option<Applied>) -> Result<String, AllocError>
    ensures { IfOk result (λ text. string_bytes text ≡ applied_text applied) }
{
    match applied {
        Some(Applied { count, torn, .. }) => format!(in alloc; "changes {count} torn {torn}\n"),
        None => String::from_str(alloc, ""),
    }
}

// How many access control subentries the tree has.
pub(crate) fn count_subentries(tree: &Tree) -> usize
    ensures exact { result ≡ access_subentries (entries_of tree.now) }
{
    tree.access_subentries().len()
}

/// Loads the data file, applies the changes where there are some, and prints the tree that is left as a data file.
pub(crate) fn dump<H: Shelf, K: Sink, L: Link>(
    alloc: Global,
    asked: &Loading<'_>,
    outside: &mut Outside<H, K, L>,
) -> Status
    ensures performs { Performs (Dump asked.now.data.now (option_copied asked.now.changes)) outside.old result outside.new }
    ensures kept { outside.new.shelf.files ≡ outside.old.shelf.files }
{
    match load_tree(alloc, &mut outside.shelf, asked.data, asked.changes) {
        Ok(loaded) => print_tree(alloc, &loaded, &mut outside.out),
        Err(trouble) => print_trouble(alloc, trouble, &mut outside.out),
    }
}

/// Prints the tree as a data file.
#[tactic(auto, unfolding(crate::specs::Outcomes::text_of, crate::specs::Outcomes::status_of))]
fn print_tree<K: Sink>(alloc: Global, loaded: &Loaded, out: &mut K) -> Status
    requires { IsGoodTree (entries_of loaded.now.tree) }
    ensures ends { Ends (Dumped (left_of loaded.now)) (written (K.put out.old) (K.faults out.old)) result
        (written (K.put out.new) (K.faults out.new)) }
{
    let put = put_tree(alloc, &loaded.tree, out);
    Status::Done.after(put)
}

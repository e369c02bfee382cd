//! The command `check` with `--why`: where a data file that isn't accepted is at fault, and what may surprise in one that is.

ghost use Rattle.std.specs.Prelude.{◌≡◌, ◌++◌, ◌≤◌, IfOk, length, string_bytes};
ghost use Rattle.command_words.specs.command.Command.{Why};
ghost use Rattle.command_files.specs.Outside.{written};
ghost use Rattle.command_files.specs.Troubles.{bad_data_text};
ghost use Rattle.command_files.specs.data_file.Files.{cause_of};
ghost use Rattle.command_files.specs.dir_tree.tree.Numbered.{entries_of};
ghost use Rattle.command_files.specs.loading.Accepting.{most_data};
ghost use Rattle.fault_places.specs.Refusals.{refusal_text};
ghost use Rattle.acl_program.specs.Answering.{why_text};
ghost use Rattle.acl_program.specs.Deciding.{EndsWhy};
ghost use Rattle.acl_program.specs.Outcomes.{Answered, Explained};
ghost use Rattle.acl_program.specs.program.Playing.{Ends, Performs};

use crate::data::count_subentries;
use crate::outside::Outside;
use crate::status::Status;
use crate::troubles::print_trouble;
use command_files::data_file::{DataCause, DataFault, load};
use command_files::dir_tree::Tree;
use command_files::wire_io::{Link, Shelf, Sink, write_all};
use command_files::{bad_data_text, load_content};
use data_advice::advice;
use fault_places::why_refused;
use std::alloc::{AllocError, Global};

/// Reads the data file, and prints what is told of it.
pub(crate) fn tell_why<H: Shelf, K: Sink, L: Link>(
    alloc: Global,
    name: &str,
    outside: &mut Outside<H, K, L>,
) -> Status
    ensures performs { Performs (Why name.now) outside.old result outside.new }
    ensures kept { outside.new.shelf.files ≡ outside.old.shelf.files }
{
    match load_content(alloc, &mut outside.shelf, name) {
        Ok(content) => print_why(alloc, content.as_slice(), &mut outside.out),
        Err(trouble) => print_trouble(alloc, trouble, &mut outside.out),
    }
}

/// Loads the data file of the content, and prints what may surprise in it, or where it is at fault.
fn print_why<K: Sink>(alloc: Global, content: &[u8], out: &mut K) -> Status
    requires short { length content.now ≤ most_data }
    ensures ends { EndsWhy content.now (written (K.put out.old) (K.faults out.old)) result
        (written (K.put out.new) (K.faults out.new)) }
{
    match load(alloc, content) {
        Ok(tree) => print_notes(alloc, &tree, out),
        Err(DataFault::Bad { line, cause }) => print_places(alloc, line, cause, content, out),
        Err(DataFault::NoMemory) => Status::NoMemory,
    }
}

/// Prints how many entries and access control subentries the tree has, and what may surprise in it.
#[tactic(auto, unfolding(crate::specs::Outcomes::text_of, crate::specs::Outcomes::status_of))]
fn print_notes<K: Sink>(alloc: Global, tree: &Tree, out: &mut K) -> Status
    ensures ends { Ends (Answered (why_text (entries_of tree.now))) (written (K.put out.old) (K.faults out.old)) result
        (written (K.put out.new) (K.faults out.new)) }
{
    let Ok(text) = noted(alloc, tree) else {
        return Status::NoMemory;
    };
    let put = write_all(out, text.as_bytes());
    Status::Done.after(put)
}

#[tactic(auto, unfolding(crate::specs::Answering::why_text))]
fn noted(alloc: Global, tree: &Tree) -> Result<String, AllocError>
    ensures { IfOk result (λ text. string_bytes text ≡ why_text (entries_of tree.now)) }
{
    let entries = tree.len();
    let subentries = count_subentries(tree);
    let notes = advice(alloc, tree)?;
    format!(in alloc; "ok {entries} {subentries}\n{notes}")
}

/// Prints the first bad line of the data file of the content, and where it is at fault.
#[tactic(auto, unfolding(crate::specs::Outcomes::text_of, crate::specs::Outcomes::status_of))]
fn print_places<K: Sink>(
    alloc: Global,
    line: u64,
    cause: DataCause,
    content: &[u8],
    out: &mut K,
) -> Status
    ensures ends { Ends (Explained line (cause_of cause) content.now) (written (K.put out.old) (K.faults out.old)) result
        (written (K.put out.new) (K.faults out.new)) }
{
    let Ok(text) = placed(alloc, line, cause, content) else {
        return Status::NoMemory;
    };
    let put = write_all(out, text.as_bytes());
    Status::BadData.after(put)
}

fn placed(alloc: Global, line: u64, cause: DataCause, content: &[u8]) -> Result<String, AllocError>
    ensures { IfOk result (λ text. string_bytes text ≡ bad_data_text line (cause_of cause) ++ refusal_text content.now) }
{
    let refused = bad_data_text(alloc, line, cause)?;
    let places = why_refused(alloc, content)?;
    format!(in alloc; "{refused}{places}")
}

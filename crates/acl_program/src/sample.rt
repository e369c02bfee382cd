//! The command `sample`: a data file made in memory, half of which is hidden, and one connection that searches for each of
//! its persons.

ghost use Rattle.std.specs.Prelude.{◌≡◌, ◌≤◌, [], ℕ, Ok, IfErr, IfOk, string_bytes};
ghost use Rattle.command_words.specs.command.Command.{Sample};
ghost use Rattle.command_files.specs.plain_values.Answers.{IsFaultOf};
ghost use Rattle.command_files.specs.data_file.Files.{fault_of};
ghost use Rattle.command_files.specs.dir_tree.tree.Numbered.{entries_of};
ghost use Rattle.command_files.specs.ldif_load.load.DataFile.{loads};
ghost use Rattle.sample_input.specs.SampleFile.{sample_file};
ghost use Rattle.sample_input.specs.SampleEvents.{sample_events};
ghost use Rattle.command_files.specs.wire_io.Scripted.{fresh_link};
ghost use Rattle.command_files.specs.Outside.{written};
ghost use Rattle.acl_program.specs.Outcomes.{Sampled};
ghost use Rattle.acl_program.specs.program.Playing.{Ends, Performs};
ghost use Rattle.acl_program.specs.Sampling.{sample_text, summary};

use crate::connection::{CONNECTION, link_of, serve_link};
use crate::outside::Outside;
use crate::status::Status;
use crate::troubles::print_trouble;
use aci_index::IndexedDir;
use aci_index::directory::Dir;
use command_files::Trouble;
use command_files::data_file::{DataFault, load};
use command_files::dir_tree::{NoMemory, Tree};
use command_files::wire_io::{Link, ScriptLink, Shelf, Sink, write_all};
use sample_input::{count_found, sample_events, sample_file};
use std::alloc::{AllocError, Global};

/// Makes a sample of so many persons, serves its connection, and prints how many entries it has, how many were sent and how
/// many replies say that there is no such object.
pub(crate) fn sample<H: Shelf, K: Sink, L: Link>(
    alloc: Global,
    count: u64,
    outside: &mut Outside<H, K, L>,
) -> Status
    requires few { count ≤ 20000 }
    ensures performs { Performs (Sample count) outside.old result outside.new }
    ensures kept { outside.new.shelf.files ≡ outside.old.shelf.files }
{
    let count = count as u32;
    match load_sample(alloc, count) {
        Ok(tree) => sample_over(alloc, tree, count, &mut outside.out),
        Err(DataFault::Bad { line, cause }) => {
            print_trouble(alloc, Trouble::BadData(line, cause), &mut outside.out)
        }
        Err(DataFault::NoMemory) => Status::NoMemory,
    }
}

/// The tree of the sample's data file, which is loaded as any other.
fn load_sample(alloc: Global, count: u32) -> Result<Tree, DataFault>
    ensures ok { IfOk result (λ tree. loads (sample_file count) ≡ Ok (entries_of tree)) }
    ensures bad { IfErr result (λ fault. IsFaultOf (fault_of fault) (loads (sample_file count))) }
{
    match sample_file(alloc, count) {
        Ok(text) => load(alloc, text.as_bytes()),
        Err(_) => Err(DataFault::NoMemory),
    }
}

/// The link of the sample's events.
fn sample_link(alloc: Global, count: u32) -> Result<ScriptLink, NoMemory>
    requires few { count ≤ 20000 }
    ensures fresh { IfOk result (λ link. link ≡ fresh_link (sample_events count) [] [] []) }
{
    let events = sample_events(alloc, count)?;
    Ok(link_of(alloc, events))
}

/// The same over the tree.
#[tactic(auto, unfolding(crate::specs::Outcomes::text_of, crate::specs::Outcomes::status_of))]
fn sample_over<K: Sink>(alloc: Global, tree: Tree, count: u32, out: &mut K) -> Status
    requires few { count ≤ 20000 }
    ensures ends { Ends (Sampled (sample_text (entries_of tree) count))
        (written (K.put out.old) (K.faults out.old)) result (written (K.put out.new) (K.faults out.new)) }
{
    let Ok(text) = sample_text(alloc, tree, count) else {
        return Status::NoMemory;
    };
    let put = write_all(out, text.as_bytes());
    Status::Done.after(put)
}

/// The text of the sample over its tree.
fn sample_text(alloc: Global, tree: Tree, count: u32) -> Result<String, NoMemory>
    requires few { count ≤ 20000 }
    ensures exact { IfOk result (λ text. string_bytes text ≡ sample_text (entries_of tree) count) }
{
    let dir = IndexedDir::new(alloc, tree)?;
    let link = sample_link(alloc, count)?;
    served_text(alloc, dir, link)
}

/// Serves the link over the directory, and gives the summary of what was sent to its connection.
fn served_text(alloc: Global, dir: IndexedDir, link: ScriptLink) -> Result<String, NoMemory>
    ensures sends { (count : ℕ) → link ≡ fresh_link (sample_events count) [] [] [] → IfOk result
        (λ text. string_bytes text ≡ sample_text (entries_of dir) count) }
{
    let mut dir = dir;
    let mut link = link;
    let entries = dir.tree().len();
    serve_link(alloc, &mut dir, &mut link)?;
    summary(alloc, entries, link.said_of(CONNECTION))
}

/// The summary of the replies that were sent.
#[tactic(auto, unfolding(crate::specs::Sampling::summary))]
fn summary(alloc: Global, entries: usize, replies: &[u8]) -> Result<String, AllocError>
    ensures { IfOk result (λ text. string_bytes text ≡ summary entries replies.now) }
{
    let counts = count_found(alloc, replies)?;
    let found = counts.found;
    let hidden = counts.hidden;
    format!(in alloc; "entries {entries}\nfound {found}\nhidden {hidden}\n")
}

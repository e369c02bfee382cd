//! The command `ask`: requests as text, served over a data file's tree as those of one connection, and its replies as text.

ghost use Rattle.std.specs.Prelude.{◌≡◌, [], ℕ, List, Ok, IfOk};
ghost use Rattle.command_words.specs.command.Command.{Ask};
ghost use Rattle.command_files.specs.client_core.Asks.{AreSendable};
ghost use Rattle.command_files.specs.client_core.ReplyTexts.{replies_text};
ghost use Rattle.command_files.specs.client_core.Scripts.{ask_events, ask_script};
ghost use Rattle.command_files.specs.dir_tree.tree.Numbered.{entries_of};
ghost use Rattle.command_files.specs.loading.Loading.{LoadsData};
ghost use Rattle.command_files.specs.script_text.declared.event.ScriptEvent.{ScriptEvent};
ghost use Rattle.command_files.specs.wire_io.Scripted.{fresh_link};
ghost use Rattle.command_files.specs.Outside.{written};
ghost use Rattle.acl_program.specs.Answering.{asked_text};
ghost use Rattle.acl_program.specs.Lines.{sent_over};
ghost use Rattle.acl_program.specs.Outcomes.{Answered};
ghost use Rattle.acl_program.specs.program.Outside.{at_count};
ghost use Rattle.acl_program.specs.program.Playing.{Ends, Performs};

use crate::connection::{CONNECTION, link_of, serve_link};
use crate::outside::Outside;
use crate::status::Status;
use crate::troubles::print_trouble;
use aci_index::IndexedDir;
use command_files::client_core::{Asked, ask_events, put_ask_script, put_replies_text};
use command_files::dir_tree::{NoMemory, Tree};
use command_files::wire_io::{Link, ScriptLink, Shelf, Sink, write_all};
use command_files::{load_asks, load_data};
use command_words::Asking;
use std::alloc::Global;

/// Loads the data file, reads the requests, serves them as those of one connection, and prints its replies; or serves
/// nothing and prints the script, if that is asked for.
pub(crate) fn tell_replies<H: Shelf, K: Sink, L: Link>(
    alloc: Global,
    asked: &Asking<'_>,
    outside: &mut Outside<H, K, L>,
) -> Status
    ensures performs { Performs (Ask asked.now.data.now asked.now.requests.now asked.now.script) outside.old result outside.new }
    ensures kept { outside.new.shelf.files ≡ outside.old.shelf.files }
{
    match load_data(alloc, &mut outside.shelf, asked.data) {
        Ok(tree) => ask_over(alloc, tree, asked, outside),
        Err(trouble) => print_trouble(alloc, trouble, &mut outside.out),
    }
}

/// The same over the tree of the data file.
fn ask_over<H: Shelf, K: Sink, L: Link>(
    alloc: Global,
    tree: Tree,
    asked: &Asking<'_>,
    outside: &mut Outside<H, K, L>,
) -> Status
    ensures performs { (name : List ℕ) (before : ℕ) →
        LoadsData outside.old.shelf.files name before outside.old.shelf.faults (Ok tree) →
        Performs (Ask name asked.now.requests.now asked.now.script) (at_count before outside.old) result outside.new }
    ensures kept { outside.new.shelf.files ≡ outside.old.shelf.files }
{
    match load_asks(alloc, &mut outside.shelf, asked.requests) {
        Ok(requests) => print_asked(
            alloc,
            tree,
            requests.as_slice(),
            asked.script,
            &mut outside.out,
        ),
        Err(trouble) => print_trouble(alloc, trouble, &mut outside.out),
    }
}

/// Prints the replies to the requests over the tree, or their script.
#[tactic(auto, unfolding(crate::specs::Outcomes::text_of, crate::specs::Outcomes::status_of))]
fn print_asked<K: Sink>(
    alloc: Global,
    tree: Tree,
    requests: &[Asked],
    script: bool,
    out: &mut K,
) -> Status
    requires sendable { AreSendable requests.now }
    ensures ends { Ends (Answered (asked_text script (entries_of tree) requests.now))
        (written (K.put out.old) (K.faults out.old)) result (written (K.put out.new) (K.faults out.new)) }
{
    let Ok(text) = asked_text(alloc, tree, requests, script) else {
        return Status::NoMemory;
    };
    let put = write_all(out, text.as_slice());
    Status::Done.after(put)
}

/// The same as text.
fn asked_text(
    alloc: Global,
    tree: Tree,
    requests: &[Asked],
    script: bool,
) -> Result<Vec<u8>, NoMemory>
    requires sendable { AreSendable requests.now }
    ensures exact { IfOk result (λ text. text.items ≡ asked_text script (entries_of tree) requests.now) }
{
    if script {
        script_text(alloc, requests)
    } else {
        replies_text(alloc, tree, requests)
    }
}

/// The script that sends the requests.
fn script_text(alloc: Global, requests: &[Asked]) -> Result<Vec<u8>, NoMemory>
    requires sendable { AreSendable requests.now }
    ensures exact { IfOk result (λ text. text.items ≡ ask_script requests.now) }
{
    let mut text = Vec::new(alloc);
    put_ask_script(alloc, requests, &mut text)?;
    Ok(text)
}

/// The replies to the requests over the tree.
fn replies_text(alloc: Global, tree: Tree, requests: &[Asked]) -> Result<Vec<u8>, NoMemory>
    requires sendable { AreSendable requests.now }
    ensures exact { IfOk result (λ text. text.items ≡ replies_text (sent_over (entries_of tree) (ask_events requests.now))) }
{
    let dir = IndexedDir::new(alloc, tree)?;
    let link = asked_link(alloc, requests)?;
    served_text(alloc, dir, link)
}

/// The link of the requests' events.
fn asked_link(alloc: Global, requests: &[Asked]) -> Result<ScriptLink, NoMemory>
    requires sendable { AreSendable requests.now }
    ensures fresh { IfOk result (λ link. link ≡ fresh_link (ask_events requests.now) [] [] []) }
{
    let events = ask_events(alloc, requests)?;
    Ok(link_of(alloc, events))
}

/// Serves the link over the directory, and gives what was sent to its connection, as text.
fn served_text(alloc: Global, dir: IndexedDir, link: ScriptLink) -> Result<Vec<u8>, NoMemory>
    ensures sends { (events : List ScriptEvent) → link ≡ fresh_link events [] [] [] → IfOk result
        (λ text. text.items ≡ replies_text (sent_over (entries_of dir) events)) }
{
    let mut dir = dir;
    let mut link = link;
    serve_link(alloc, &mut dir, &mut link)?;
    let mut text = Vec::new(alloc);
    put_replies_text(alloc, link.said_of(CONNECTION), &mut text)?;
    Ok(text)
}

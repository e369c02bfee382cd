//! The command `replay`: a script's events served over a data file's tree, and what was sent to each of its connections.

ghost use Rattle.std.specs.Prelude.{◌≡◌, [], ℕ, List, Ok, Some};
ghost use Rattle.std.specs.Option.{option_map};
ghost use Rattle.command_words.specs.command.Command.{Replay};
ghost use Rattle.command_files.specs.wire_io.Scripted.{fresh_link};
ghost use Rattle.command_files.specs.dir_tree.tree.Numbered.{entries_of};
ghost use Rattle.command_files.specs.aci_item.Rules.{IsGoodTree};
ghost use Rattle.command_files.specs.loading.Loading.{LoadsData};
ghost use Rattle.command_files.specs.Outside.{written};
ghost use Rattle.acl_program.specs.Outcomes.{Replayed, dump_text};
ghost use Rattle.acl_program.specs.program.Outside.{at_count};
ghost use Rattle.acl_program.specs.program.Playing.{Performs, Plays, Shows, Ends, dumped_text, IsDumpable};

use crate::outside::Outside;
use crate::printing::print_replay;
use crate::status::Status;
use crate::troubles::print_trouble;
use aci_index::IndexedDir;
use aci_index::directory::Dir;
use command_files::dir_tree::Tree;
use command_files::wire_io::{Link, ScriptLink, Shelf, Sink};
use command_files::{load_data, load_script};
use command_words::Replaying;
use session_hub::laws::sessions_keep_a_directory_good;
use session_hub::{Bounds, Ended, serve_loop};
use std::alloc::Global;

/// Loads the data file, serves the events of the script file, at most so many, and prints the lines of its connections;
/// then the tree, if that is asked for.
pub(crate) fn replay<H: Shelf, K: Sink, L: Link>(
    alloc: Global,
    asked: &Replaying<'_>,
    outside: &mut Outside<H, K, L>,
) -> Status
    ensures performs { Performs (Replay asked.now.data.now asked.now.script.now asked.now.turns asked.now.dump) outside.old result outside.new }
    ensures kept { outside.new.shelf.files ≡ outside.old.shelf.files }
{
    match load_data(alloc, &mut outside.shelf, asked.data) {
        Ok(tree) => replay_over(alloc, tree, asked, outside),
        Err(trouble) => print_trouble(alloc, trouble, &mut outside.out),
    }
}

/// The same over the tree of the data file.
fn replay_over<H: Shelf, K: Sink, L: Link>(
    alloc: Global,
    tree: Tree,
    asked: &Replaying<'_>,
    outside: &mut Outside<H, K, L>,
) -> Status
    requires good { IsGoodTree (entries_of tree) }
    ensures performs { (name : List ℕ) (before : ℕ) →
        LoadsData outside.old.shelf.files name before outside.old.shelf.faults (Ok tree) →
        Performs (Replay name asked.now.script.now asked.now.turns asked.now.dump) (at_count before outside.old) result outside.new }
    ensures kept { outside.new.shelf.files ≡ outside.old.shelf.files }
{
    match load_script(alloc, &mut outside.shelf, asked.script) {
        Ok(link) => play(alloc, tree, link, asked.turns, asked.dump, &mut outside.out),
        Err(fault) => print_trouble(alloc, fault, &mut outside.out),
    }
}

/// The same with the link of the script file.
fn play<K: Sink>(
    alloc: Global,
    tree: Tree,
    link: ScriptLink,
    turns: u64,
    dump: bool,
    out: &mut K,
) -> Status
    requires fresh { link ≡ fresh_link link.plan.to_come [] [] [] }
    requires good { IsGoodTree (entries_of tree) }
    ensures ends { Ends (Replayed link.plan.to_come turns dump (entries_of tree))
        (written (K.put out.old) (K.faults out.old)) result
        (written (K.put out.new) (K.faults out.new)) }
{
    match IndexedDir::new(alloc, tree) {
        Ok(dir) => play_over(alloc, dir, link, turns, dump, out),
        Err(_) => Status::NoMemory,
    }
}

/// The tree, where it is to be put.
fn dumped(tree: &Tree, dump: bool) -> Option<&Tree>
    requires good { IsDumpable (Some tree.now) }
    ensures text { dumped_text (option_map (λ tree. tree.now) result) ≡ dump_text dump (entries_of tree.now) }
    ensures good { IsDumpable (option_map (λ tree. tree.now) result) }
{
    if dump { Some(tree) } else { None }
}

/// Serves the link's events over the directory, at most so many, and prints the lines of its connections, and then the
/// tree that is left.
fn play_over<K: Sink>(
    alloc: Global,
    dir: IndexedDir,
    link: ScriptLink,
    turns: u64,
    dump: bool,
    out: &mut K,
) -> Status
    requires fresh { link ≡ fresh_link link.plan.to_come [] [] [] }
    requires good { IsGoodTree (entries_of dir) }
    ensures ends { Ends (Replayed link.plan.to_come turns dump (entries_of dir))
        (written (K.put out.old) (K.faults out.old)) result
        (written (K.put out.new) (K.faults out.new)) }
{
    let mut dir = dir;
    let mut link = link;
    match serve(alloc, &mut dir, &mut link, turns) {
        Ended::Stopped => show(alloc, &link, dumped(dir.tree(), dump), Status::Done, out),
        Ended::TurnsSpent => show(
            alloc,
            &link,
            dumped(dir.tree(), dump),
            Status::TurnsSpent,
            out,
        ),
        Ended::LinkFault => Status::LinkFault,
        Ended::StoreFault => Status::LinkFault,
        Ended::NoMemory => Status::NoMemory,
    }
}

/// Serves the link's events over the directory, at most so many.
fn serve(alloc: Global, dir: &mut IndexedDir, link: &mut ScriptLink, turns: u64) -> Ended
    requires fresh { link.old ≡ fresh_link link.old.plan.to_come [] [] [] }
    requires good { IsGoodTree (entries_of dir.old) }
    ensures plays { Plays (entries_of dir.old) (entries_of dir.new) link.old.plan.to_come turns result link.new.journal }
    ensures good { IsGoodTree (entries_of dir.new) }
{
    sessions_keep_a_directory_good();
    serve_loop(alloc, dir, link, turns, Bounds::NONE)
}

/// Prints the lines of all connections and the tree, and then ends so.
fn show<K: Sink>(
    alloc: Global,
    link: &ScriptLink,
    dumped: Option<&Tree>,
    status: Status,
    out: &mut K,
) -> Status
    requires good { IsDumpable (option_map (λ tree. tree.now) dumped) }
    ensures ends { Shows link.now.journal (dumped_text (option_map (λ tree. tree.now) dumped.entry)) status
        (written (K.put out.old) (K.faults out.old)) result
        (written (K.put out.new) (K.faults out.new)) }
{
    let put = print_replay(alloc, link, dumped, out);
    status.after(put)
}

//! The command `serve`: a data file's tree, with its changes, served over the link's connections.

ghost use Rattle.std.specs.Prelude.{◌≡◌, ℕ, List, Option, IfOk, string_bytes};
ghost use Rattle.command_words.specs.command.Command.{Serve, serving_view};
ghost use Rattle.command_files.specs.declared.changing.Applied.{Applied};
ghost use Rattle.command_files.specs.dir_tree.tree.Numbered.{entries_of};
ghost use Rattle.command_files.specs.loading.Changing.{left_of};
ghost use Rattle.command_files.specs.wire_io.Putting.{PutsAll, PutCause};
ghost use Rattle.command_files.specs.Outside.{written};
ghost use Rattle.acl_program.specs.serve.Listening.{EndsUnready, Listens, ListensOn, ServesOpened, listening_asked};
ghost use Rattle.acl_program.specs.Outcomes.{Served};
ghost use Rattle.acl_program.specs.program.Outside.{linked};
ghost use Rattle.acl_program.specs.program.Playing.{Ends, Performs};
ghost use Rattle.acl_program.specs.serve.Storing.{ServeAsked, StoreCall, serve_asked};
ghost use Rattle.acl_program.specs.serve.Serving.{NotOpened, NotStored, Opens, bounds_of, ended_text, listening_text, loop_status};

use crate::data::applied_text;
use crate::outside::Outside;
use crate::status::Status;
use crate::storing::{Unready, make_ready};
use crate::troubles::print_trouble;
use aci_index::IndexedDir;
use command_files::dir_tree::Tree;
use command_files::wire_io::{Link, NextFault, PutFault, Shelf, Sink, write_all};
use command_files::{Applied, Loaded};
use command_words::Serving;
use session_hub::{Bounds, Ended, Terms, serve_loop};
use std::alloc::{AllocError, Global};

/// What is listened for: what the words ask for, and what was applied of a file of changes, where one is named.
#[derive(Clone, Copy, Debug, Drop)]
struct ListenAsked<'a> {
    serving: Serving<'a>,
    applied: Option<Applied>,
}

/// Makes ready what is to be served, opens the link, prints that it listens, and serves the tree until the link gives Stop or
/// so many events were heard. Where the store or the link fails, or the turns are spent, a line says so.
pub(crate) fn serve<H: Shelf, K: Sink, L: Link>(
    alloc: Global,
    asked: &Serving<'_>,
    outside: &mut Outside<H, K, L>,
) -> Status
    ensures performs { Performs (Serve (serving_view asked.now)) outside.old result outside.new }
    ensures kept { outside.new.shelf.files ≡ outside.old.shelf.files }
{
    match make_ready(alloc, asked, outside) {
        Ok(loaded) => listen_for(alloc, loaded, asked, outside),
        Err(unready) => print_unready(alloc, unready, &mut outside.out),
    }
}

/// Opens the link and serves what is ready over it.
fn listen_for<H: Shelf, K: Sink, L: Link>(
    alloc: Global,
    loaded: Loaded,
    asked: &Serving<'_>,
    outside: &mut Outside<H, K, L>,
) -> Status
    ensures listens { (content : List ℕ) → Listens
        (serve_asked (serving_view asked.now) content (left_of loaded)) outside.old result outside.new }
    ensures kept { outside.new.shelf ≡ outside.old.shelf }
{
    let Loaded { tree, applied } = loaded;
    let serving = *asked;
    listen(alloc, tree, &ListenAsked { serving, applied }, outside)
}

/// Opens the link and serves the tree over it.
fn listen<H: Shelf, K: Sink, L: Link>(
    alloc: Global,
    tree: Tree,
    asked: &ListenAsked<'_>,
    outside: &mut Outside<H, K, L>,
) -> Status
    ensures listens { (content : List ℕ) → Listens
        (listening_asked asked.now content (entries_of tree)) outside.old result outside.new }
    ensures kept { outside.new.shelf ≡ outside.old.shelf }
{
    match IndexedDir::new(alloc, tree) {
        Ok(dir) => listen_on(alloc, dir, asked, outside),
        Err(_) => Status::NoMemory,
    }
}

/// Opens the link and serves the directory over it.
fn listen_on<H: Shelf, K: Sink, L: Link>(
    alloc: Global,
    dir: IndexedDir,
    asked: &ListenAsked<'_>,
    outside: &mut Outside<H, K, L>,
) -> Status
    ensures listens { (content : List ℕ) → Listens
        (listening_asked asked.now content (entries_of dir)) outside.old result outside.new }
    ensures kept { outside.new.shelf ≡ outside.old.shelf }
{
    match open(&asked.serving, &mut outside.link) {
        Ok(()) => serve_opened(alloc, dir, asked, outside),
        Err(NextFault::Failed) => print_link_fault(&mut outside.out),
        Err(NextFault::NoMemory) => Status::NoMemory,
    }
}

/// Tells the link which silence ends a connection, and opens it at the address.
fn open<L: Link>(asked: &Serving<'_>, link: &mut L) -> Result<(), NextFault>
    ensures { Opens (serving_view asked.now) result
        (linked (L.journal link.old) (L.plan link.old) (L.faults link.old) (L.store_faults link.old) (L.lost link.old) (L.refusals link.old))
        (linked (L.journal link.new) (L.plan link.new) (L.faults link.new) (L.store_faults link.new) (L.lost link.new) (L.refusals link.new)) }
{
    link.end_idle_after(asked.idle);
    link.open(asked.address, asked.sessions)
}

/// Prints that the link is open, and then serves the directory over it.
fn serve_opened<H: Shelf, K: Sink, L: Link>(
    alloc: Global,
    dir: IndexedDir,
    asked: &ListenAsked<'_>,
    outside: &mut Outside<H, K, L>,
) -> Status
    ensures opened { (content : List ℕ) → ListensOn
        (listening_asked asked.now content (entries_of dir)) outside.old result outside.new }
    ensures kept { outside.new.shelf ≡ outside.old.shelf }
{
    match print_listening(alloc, asked, &mut outside.out) {
        Ok(()) => serve_events(alloc, dir, &asked.serving, outside),
        Err(fault) => Status::NoMemory.after(Err(fault)),
    }
}

/// Prints what was applied of a file of changes, where one is named, and that the link is open at the address.
fn print_listening<K: Sink>(
    alloc: Global,
    asked: &ListenAsked<'_>,
    out: &mut K,
) -> Result<(), PutFault>
    ensures tells { PutsAll (K.put out.old) (listening_text asked.now.applied asked.now.serving.address.now) result (K.put out.new) }
    ensures cause { PutCause (K.faults out.old) (K.faults out.new) result }
{
    let Ok(text) = listening_line(alloc, asked.applied, asked.serving.address) else {
        return Err(PutFault::NoMemory);
    };
    write_all(out, text.as_bytes())
}

fn listening_line(
    alloc: Global,
    applied: Option<Applied>,
    address: &str,
) -> Result<String, AllocError>
    ensures { IfOk result (λ text. string_bytes text ≡ listening_text applied address.now) }
{
    let applied = applied_text(alloc, applied)?;
    format!(in alloc; "{applied}listening {address}\n")
}

/// Serves the directory over the open link, and prints why the loop ended, where a line says that.
fn serve_events<H: Shelf, K: Sink, L: Link>(
    alloc: Global,
    dir: IndexedDir,
    asked: &Serving<'_>,
    outside: &mut Outside<H, K, L>,
) -> Status
    ensures serves { (content : List ℕ) (applied : Option Applied) → ServesOpened
        (serve_asked (serving_view asked.now) content (record { entries = entries_of dir; applied = applied })) outside.old result outside.new }
    ensures kept { outside.new.shelf ≡ outside.old.shelf }
{
    let mut dir = dir;
    let ended = serve_loop(
        alloc,
        &mut dir,
        &mut outside.link,
        asked.turns,
        bounds_of(asked),
    );
    let put = write_all(&mut outside.out, ended_text(ended).as_bytes());
    loop_status(ended).after(put)
}

/// What queues may have, in octets, what one search is given, and whether changes are stored.
fn bounds_of(asked: &Serving<'_>) -> Bounds
    ensures exact { result ≡ bounds_of (serving_view asked.now) }
{
    Bounds {
        terms: Terms {
            limit: asked.limit,
            keeps: asked.changes.is_some(),
        },
        queues: asked.queues.saturating_mul(1_048_576),
    }
}

/// The line of a loop's end, where it has one.
fn ended_text(ended: Ended) -> &'static str
    ensures { result.now ≡ ended_text ended }
{
    match ended {
        Ended::Stopped | Ended::NoMemory => "",
        Ended::TurnsSpent => "turns spent\n",
        Ended::LinkFault => "link fault\n",
        Ended::StoreFault => "store fault\n",
    }
}

/// How the program ends after a loop.
fn loop_status(ended: Ended) -> Status
    ensures { result ≡ loop_status ended }
{
    match ended {
        Ended::Stopped => Status::Done,
        Ended::TurnsSpent => Status::TurnsSpent,
        Ended::LinkFault => Status::LinkFault,
        Ended::StoreFault => Status::StoreFault,
        Ended::NoMemory => Status::NoMemory,
    }
}

/// Prints why nothing was ready to be served.
fn print_unready<K: Sink>(alloc: Global, unready: Unready, out: &mut K) -> Status
    ensures ends { EndsUnready unready (written (K.put out.old) (K.faults out.old)) result
        (written (K.put out.new) (K.faults out.new)) }
{
    match unready {
        Unready::Files(trouble) => print_trouble(alloc, trouble, out),
        Unready::Store(fault) => print_store_fault(fault, out),
    }
}

/// Prints that the link failed.
#[tactic(auto, unfolding(crate::specs::Outcomes::text_of, crate::specs::Outcomes::status_of))]
fn print_link_fault<K: Sink>(out: &mut K) -> Status
    ensures ends { (asked : ServeAsked) → Ends (Served asked NotOpened) (written (K.put out.old) (K.faults out.old)) result
        (written (K.put out.new) (K.faults out.new)) }
{
    let put = write_all(out, b"link fault\n");
    Status::LinkFault.after(put)
}

/// Prints that a call of the store failed.
#[tactic(auto, unfolding(crate::specs::Outcomes::text_of, crate::specs::Outcomes::status_of))]
fn print_store_fault<K: Sink>(fault: NextFault, out: &mut K) -> Status
    ensures ends { (asked : ServeAsked) (call : StoreCall) → Ends (Served asked (NotStored call fault))
        (written (K.put out.old) (K.faults out.old)) result (written (K.put out.new) (K.faults out.new)) }
{
    match fault {
        NextFault::Failed => {
            let put = write_all(out, b"store fault\n");
            Status::StoreFault.after(put)
        },
        NextFault::NoMemory => Status::NoMemory,
    }
}

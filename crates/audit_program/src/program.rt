//! The program's one call.

ghost use Rattle.std.specs.Prelude.{◌≡◌, ◌⊎◌, [], ℕ, List, map, string_bytes, Ok};
ghost use Rattle.command_files.specs.plain_values.Counts.{Rose};
ghost use Rattle.command_files.specs.aci_item.Rules.{IsGoodTree};
ghost use Rattle.command_files.specs.dir_tree.tree.Numbered.{entries_of};
ghost use Rattle.command_files.specs.loading.Loading.{LoadsData};
ghost use Rattle.command_files.specs.wire_io.Scripted.{fresh_link};
ghost use Rattle.command_files.specs.Outside.{written};
ghost use Rattle.audit_program.specs.Auditing.{Prints, PutsAudit, IsDue, IsCause, EndsAtFaults, at_count};
ghost use Rattle.audit_program.specs.Performing.{Performs, Tells};
ghost use Rattle.audit_program.specs.Words.{audit_of, view};

use crate::auditing::audit_script;
use crate::outside::Outside;
use crate::printing::print_audit;
use crate::status::AuditStatus;
use crate::troubles::{print_trouble, print_usage};
use crate::words::{Asked, read_words};
use command_files::dir_tree::Tree;
use command_files::wire_io::{ScriptLink, Shelf, Sink};
use command_files::{load_data, load_script};
use std::alloc::Global;

/// Audits one connection of a recorded session, as the words after the program's name ask for it, and says how it ended.
///
/// `DATA SCRIPT N NAME` loads the data file, reads the script, replays its events over the tree with all of its connections
/// and with those of connection N alone, and puts two lines. The first is `hush yes` where what others did at and below NAME
/// was hushed for N, and else `hush no at K: part P`: K counts the events that had been heard at the first place that breaks
/// it, and P is the number of the first part that it breaks (`Part`). The second is `same` where what N was sent is the same
/// in both replays, and else `differs at I`, I being the length of the longest common front. Other words put a line on how to
/// call the program.
///
/// The data file is read before the script. A file that isn't there, or that the shelf can't read, puts `data fault`; a file
/// that isn't accepted puts its first bad line.
pub fn audit<H: Shelf, K: Sink>(
    alloc: Global,
    words: &[String],
    outside: &mut Outside<H, K>,
) -> AuditStatus
    // what is put: the text that the words and the files come to, with its status; or a front of it
    ensures text { Prints (map string_bytes words.now) outside.old result outside.new }
    // where it is done, both lines of an audit, in which nothing differs where the hush was kept
    ensures done { result ≡ AuditStatus.Done → PutsAudit (map string_bytes words.now) outside.old outside.new }
    // where the files are told and accepted, it is done
    ensures complete { IsDue (map string_bytes words.now) outside.old.shelf.files
        → (Rose outside.old.shelf.faults outside.new.shelf.faults → ⊥) → (Rose outside.old.out.faults outside.new.out.faults → ⊥)
        → (result ≡ AuditStatus.Done) ⊎ (result ≡ AuditStatus.NoMemory) }
    // each refusal
    ensures cause { IsCause (map string_bytes words.now) outside.old outside.new result }
    ensures faults { EndsAtFaults outside.old outside.new result }
    // what stays
    ensures shelf { outside.new.shelf.files ≡ outside.old.shelf.files }
{
    audit_words(alloc, words, outside)
}

/// The same, with all that is known of how it ended.
fn audit_words<H: Shelf, K: Sink>(
    alloc: Global,
    words: &[String],
    outside: &mut Outside<H, K>,
) -> AuditStatus
    ensures prints { Prints (map string_bytes words.now) outside.old result outside.new }
    ensures kept { outside.new.shelf.files ≡ outside.old.shelf.files }
{
    match read_words(alloc, words) {
        Ok(Some(asked)) => audit_files(alloc, &asked, outside),
        Ok(None) => print_usage(&mut outside.out),
        Err(_) => AuditStatus::NoMemory,
    }
}

/// Loads the data file, and makes the audit over its tree.
fn audit_files<H: Shelf, K: Sink>(
    alloc: Global,
    asked: &Asked<'_>,
    outside: &mut Outside<H, K>,
) -> AuditStatus
    ensures performs { Performs (view asked.now) outside.old result outside.new }
    ensures kept { outside.new.shelf.files ≡ outside.old.shelf.files }
{
    match load_data(alloc, &mut outside.shelf, asked.data) {
        Ok(tree) => audit_over(alloc, tree, asked, outside),
        Err(trouble) => print_trouble(alloc, trouble, &mut outside.out),
    }
}

/// Reads the script, and makes the audit over the tree of the data file.
fn audit_over<H: Shelf, K: Sink>(
    alloc: Global,
    tree: Tree,
    asked: &Asked<'_>,
    outside: &mut Outside<H, K>,
) -> AuditStatus
    requires good { IsGoodTree (entries_of tree) }
    ensures performs { (name : List ℕ) (before : ℕ) →
        LoadsData outside.old.shelf.files name before outside.old.shelf.faults (Ok tree) →
        Performs (audit_of name asked.now.script.now asked.now.number asked.now.top) (at_count before outside.old) result outside.new }
    ensures kept { outside.new.shelf.files ≡ outside.old.shelf.files }
{
    match load_script(alloc, &mut outside.shelf, asked.script) {
        Ok(link) => tell_audit(alloc, tree, link, asked, &mut outside.out),
        Err(trouble) => print_trouble(alloc, trouble, &mut outside.out),
    }
}

/// Makes the audit of the script, and puts its lines.
fn tell_audit<K: Sink>(
    alloc: Global,
    tree: Tree,
    link: ScriptLink,
    asked: &Asked<'_>,
    out: &mut K,
) -> AuditStatus
    requires fresh { link ≡ fresh_link link.plan.to_come [] [] [] }
    requires good { IsGoodTree (entries_of tree) }
    ensures tells { Tells (entries_of tree) link.plan.to_come asked.now.number asked.now.top
        (written (K.put out.old) (K.faults out.old)) result (written (K.put out.new) (K.faults out.new)) }
{
    match audit_script(alloc, tree, link, asked.number, &asked.top) {
        Ok(audited) => print_audit(alloc, audited, out),
        Err(_) => AuditStatus::NoMemory,
    }
}

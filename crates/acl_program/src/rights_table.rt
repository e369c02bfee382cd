//! The command `rights`: all decisions on one entry of a data file's tree.

ghost use Rattle.std.specs.Prelude.{◌≡◌, ℕ, List, Some, IfOk};
ghost use Rattle.command_words.specs.command.Command.{Rights};
ghost use Rattle.command_files.specs.dir_tree.tree.Numbered.{entries_of};
ghost use Rattle.certify.specs.RightsTable.{rights_at};
ghost use Rattle.certify.specs.explanation.NameWords.{target_of, who_of};
ghost use Rattle.command_files.specs.Outside.{written};
ghost use Rattle.acl_program.specs.Deciding.{SaysParty};
ghost use Rattle.acl_program.specs.Outcomes.{Answered};
ghost use Rattle.acl_program.specs.program.Playing.{Ends, Performs};

use crate::outside::Outside;
use crate::status::Status;
use crate::troubles::{print_trouble, print_usage};
use aci_index::IndexedDir;
use aci_index::acdf_filters::Requester;
use certify::explanation::{read_target, read_who};
use certify::rights_text;
use command_files::dir_tree::{NoMemory, Tree};
use command_files::dn_names::Dn;
use command_files::load_data;
use command_files::wire_io::{Link, Shelf, Sink, write_all};
use command_words::RightsAsked;
use std::alloc::Global;

/// A requester, and the name of an entry.
#[derive(Drop)]
pub(crate) struct Party {
    pub(crate) who: Requester,
    pub(crate) target: Dn,
}

/// Reads who asks and on what, loads the data file, and prints the table of rights. Where the words say no such thing it
/// prints how to call the program, and reads no file.
pub(crate) fn tell_rights<H: Shelf, K: Sink, L: Link>(
    alloc: Global,
    asked: &RightsAsked<'_>,
    outside: &mut Outside<H, K, L>,
) -> Status
    ensures performs { Performs (Rights asked.now.data.now asked.now.who.now asked.now.target.now) outside.old result outside.new }
    ensures kept { outside.new.shelf.files ≡ outside.old.shelf.files }
{
    match read_party(alloc, asked.who, asked.target) {
        Ok(Some(party)) => rights_over(alloc, asked.data, &party, outside),
        Ok(None) => print_usage(&mut outside.out),
        Err(_) => Status::NoMemory,
    }
}

/// Who asks, and on what, where the words say both.
#[tactic(auto, using(crate::proofs::rights_table::RightsLemmas::says_nobody, crate::proofs::rights_table::RightsLemmas::says_no_target, crate::proofs::rights_table::RightsLemmas::says_both))]
fn read_party(alloc: Global, who: &str, target: &str) -> Result<Option<Party>, NoMemory>
    ensures exact { IfOk result (SaysParty who.now target.now) }
{
    let Some(who) = read_who(alloc, who.as_bytes())? else {
        return Ok(None);
    };
    match read_target(alloc, target.as_bytes())? {
        Some(target) => Ok(Some(Party { who, target })),
        None => Ok(None),
    }
}

/// Loads the data file, and prints the table over its tree.
fn rights_over<H: Shelf, K: Sink, L: Link>(
    alloc: Global,
    name: &str,
    party: &Party,
    outside: &mut Outside<H, K, L>,
) -> Status
    ensures performs { (who target : List ℕ) →
        who_of who ≡ Some party.now.who → target_of target ≡ Some party.now.target →
        Performs (Rights name.now who target) outside.old result outside.new }
    ensures kept { outside.new.shelf.files ≡ outside.old.shelf.files }
{
    match load_data(alloc, &mut outside.shelf, name) {
        Ok(tree) => print_rights(alloc, tree, party, &mut outside.out),
        Err(trouble) => print_trouble(alloc, trouble, &mut outside.out),
    }
}

/// Prints the table over the tree.
#[tactic(auto, unfolding(crate::specs::Outcomes::text_of, crate::specs::Outcomes::status_of))]
fn print_rights<K: Sink>(alloc: Global, tree: Tree, party: &Party, out: &mut K) -> Status
    ensures ends { Ends (Answered (rights_at (entries_of tree) party.now.who party.now.target))
        (written (K.put out.old) (K.faults out.old)) result (written (K.put out.new) (K.faults out.new)) }
{
    let Ok(text) = table_text(alloc, tree, party) else {
        return Status::NoMemory;
    };
    let put = write_all(out, text.as_slice());
    Status::Done.after(put)
}

/// The table over the tree, as text.
fn table_text(alloc: Global, tree: Tree, party: &Party) -> Result<Vec<u8>, NoMemory>
    ensures exact { IfOk result (λ text. text.items ≡ rights_at (entries_of tree) party.now.who party.now.target) }
{
    let dir = IndexedDir::new(alloc, tree)?;
    rights_text(alloc, &dir, &party.who, &party.target)
}

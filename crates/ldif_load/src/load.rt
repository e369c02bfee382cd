//! Records of a data file, loaded.

ghost use Rattle.std.specs.Prelude.{◌≡◌, Option, Some, None, IfOk, OnOk, OnErr, IfErr, nat_le, length, true, false};
ghost use Rattle.std.specs.Option.{option_map};
ghost use Rattle.dir_tree.specs.Entry.{EntryInformation};
ghost use Rattle.dir_tree.specs.tree.Trees.{most_entries, has_name, lacks_superior, superior_name};
ghost use Rattle.dir_tree.specs.tree.Numbered.{entries_of, find_name};
ghost use Rattle.dir_tree.specs.Refusals.{insert_refusal};
ghost use Rattle.dir_tree.specs.Vacancy.{IsVacancy};
ghost use Rattle.schema_rules.specs.Checking.{IsFor};
ghost use Rattle.aci_item.specs.declared.entry_rule.EntryRule.{EntryRule};
ghost use Rattle.aci_item.specs.Rules.{broken_rule};
ghost use Rattle.ldif_load.specs.load.Loading.{cause_of, entry_of_record, ruled, placed, loaded_entry, IsLoaded, fault_of};
ghost use Rattle.dir_tree.specs.plain_values.Answers.{Answers, IsFaultOf};

use crate::fault::{LoadCause, LoadFault, bad_at};
use crate::lines::{add_lines, named};
use crate::own::add_own_values;
use dir_tree::{Entry, EntryNo, InsertRefusal, Tree, Vacancy};
use ldif_records::Record;
use schema_rules::{Broken, EntryRule, check_entry, check_entry_below};
use std::alloc::Global;

// The entry of a record, wherever it will stand.
fn entry_of_record(alloc: Global, given: Record) -> Result<Entry, LoadFault>
    ensures exact { Answers (λ entry. entry) fault_of result (entry_of_record given) }
{
    let name = named(alloc, given.line, given.name.as_slice())?;
    let mut entry = Entry::new(alloc, name)?;
    add_lines(alloc, &mut entry, given.lines.into_vec())?;
    add_own_values(alloc, &mut entry)?;
    Ok(entry)
}

// What is told of an entry that breaks the rule: what goes past a limit is told apart.
fn cause_of(rule: EntryRule) -> LoadCause
    ensures exact { result ≡ cause_of rule }
{
    match rule {
        EntryRule::Limits => LoadCause::Limit,
        _ => LoadCause::Rule(rule),
    }
}

// The fault of an entry that breaks a rule.
fn fault_of(line: u64, broken: Broken) -> LoadFault
    ensures exact { (entry : EntryInformation) (rule : Option EntryRule) → IsFor broken rule
        → IsFaultOf (fault_of result) (ruled line entry rule) }
{
    match broken {
        Broken::Rule(rule) => bad_at(line, cause_of(rule)),
        Broken::NoMemory => LoadFault::NoMemory,
    }
}

// Whether the entry breaks a rule, the number of whose superior is known.
fn ruled(
    alloc: Global,
    tree: &Tree,
    line: u64,
    superior: Option<EntryNo>,
    entry: &Entry,
) -> Result<(), LoadFault>
    requires { option_map (λ no. no.0) superior ≡ find_name (superior_name entry.now.name) tree.now }
    ensures ok { OnOk result (broken_rule None (entries_of tree.now) entry.now ≡ None) }
    ensures bad { IfErr result (λ fault.
        IsFaultOf (fault_of fault) (ruled line entry.now (broken_rule None (entries_of tree.now) entry.now))) }
{
    match check_entry_below(alloc, tree, superior, entry) {
        Ok(()) => Ok(()),
        Err(broken) => Err(fault_of(line, broken)),
    }
}

// The fault of an entry that a full tree would take otherwise: the limit, where it breaks no other rule.
fn crowded_out(alloc: Global, tree: &Tree, line: u64, entry: &Entry) -> LoadFault
    requires { nat_le most_entries (length (entries_of tree.now)) ≡ true }
    ensures bad { IsFaultOf (fault_of result)
        (ruled line entry.now (broken_rule None (entries_of tree.now) entry.now)) }
{
    match check_entry(alloc, tree, None, entry) {
        Ok(()) => bad_at(line, LoadCause::Limit),
        Err(broken) => fault_of(line, broken),
    }
}

// The fault of an entry that the tree refuses.
fn refused(
    alloc: Global,
    tree: &Tree,
    line: u64,
    entry: &Entry,
    refusal: InsertRefusal,
) -> LoadFault
    requires { insert_refusal entry.now.name (entries_of tree.now) ≡ Some refusal }
    ensures exact { IsFaultOf (fault_of result) (placed (entries_of tree.now) line entry.now) }
{
    match refusal {
        InsertRefusal::NameTaken => bad_at(line, LoadCause::Twice),
        InsertRefusal::NoSuperior => bad_at(line, LoadCause::Order),
        InsertRefusal::Full => crowded_out(alloc, tree, line, entry),
        InsertRefusal::NoMemory => LoadFault::NoMemory,
    }
}

// Where the entry may join those of the tree: `Twice`, `Order`, `Rule` and `Limit` are tried in this order.
fn placed(alloc: Global, tree: &Tree, line: u64, entry: &Entry) -> Result<Vacancy, LoadFault>
    ensures vacant { IfOk result (λ vacancy. IsVacancy vacancy entry.now.name tree.now) }
    ensures ok { OnOk result (placed (entries_of tree.now) line entry.now ≡ Ok entry.now) }
    ensures bad { IfErr result (λ fault.
        IsFaultOf (fault_of fault) (placed (entries_of tree.now) line entry.now)) }
{
    match tree.vacancy(entry.name()) {
        Ok(vacancy) => match ruled(alloc, tree, line, vacancy.superior(), entry) {
            Ok(()) => Ok(vacancy),
            Err(fault) => Err(fault),
        },
        Err(refusal) => Err(refused(alloc, tree, line, entry, refusal)),
    }
}

/// Adds the entry of a data record (RFC 2849) to the tree; access control isn't asked. Values of its own RDN that it
/// lacks come last. `Bad` tells the first fault of a record that can't be loaded, and comes for no other record. First
/// `Name` is tried, then `Kind`, `Value` and `Twice` for one line after another, and then `Twice`, `Order`, `Rule` and
/// `Limit` for the entry; `Name` and these four are told at the `dn` line. After any error, of which `NoMemory` may
/// come in place of any answer, the tree is as before.
pub fn load_record(alloc: Global, tree: &mut Tree, given: Record) -> Result<(), LoadFault>
    ensures ok { OnOk result (IsLoaded tree.old given tree.new) }
    ensures bad { IfErr result (λ fault.
        IsFaultOf (fault_of fault) (loaded_entry (entries_of tree.old) given)) }
    ensures err { OnErr result (tree.new ≡ tree.old) }
{
    let line = given.line;
    let entry = entry_of_record(alloc, given)?;
    let vacancy = placed(alloc, tree, line, &entry)?;
    tree.insert_at(vacancy, entry)?;
    Ok(())
}

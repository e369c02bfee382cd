//! Adds.

ghost use Rattle.std.specs.Prelude.{◌≡◌, ◌≢◌, ◌||◌, not, [], None, Ok, IfOk, OnOk, OnErr};
ghost use Rattle.std.specs.List.{list_any};
ghost use Rattle.dir_tree.specs.tree.Trees.{put_in, named_in, has_name, superior_name};
ghost use Rattle.dir_tree.specs.tree.Numbered.{entries_of};
ghost use Rattle.acdf_filters.specs.aci_item.Rules.{broken_rule};
ghost use Rattle.acdf_filters.specs.aci_item.declared.permission.Permission.TheVariants as permission;
ghost use Rattle.acdf_filters.specs.Asking as protected;
ghost use Rattle.acdf_filters.specs.Granted.{granted_new};
ghost use Rattle.op_add_delete.specs.reading.NewEntries.{read_attributes};
ghost use Rattle.op_add_delete.specs.adding.Adding.{there_already, taken_refusal, refuses_attribute, refuses_entry, rule_refusal, add_refusal};
ghost use Rattle.op_add_delete.specs.adding.Updates.{IsChanged, unless, added_entry, added_named, added};

use crate::fault::Fault;
use crate::reading::new_entry;
use crate::rule_codes::rule_code;
use acdf_filters::aci_item::Permission;
use acdf_filters::{Item, Requester};
use dir_tree::dn_names::{Dn, Value};
use dir_tree::schema_tables::AttrId;
use dir_tree::{Entry, NoMemory, Tree};
use directory::{Asking, Dir, Newcomer, Target, no_such_object, read_named, result_of};
use ldap_msg::{AddRequest, KindValues, LdapResult, ResultCode};
use ldif_load::schema_rules::{Broken, check_entry};
use std::alloc::{AllocError, Global};

// What is answered where the entry has the name already.
fn there_already<D: Dir>(
    alloc: Global,
    other: &Target<'_, '_, D>,
    name: &Dn,
) -> Result<LdapResult, NoMemory>
    ensures ok { IfOk result (λ ended. ended ≡ there_already (entries_of (D.rows other.now.asking.now.dir.now))
        other.now.asking.now.who.now name.now other.now.entry.now) }
{
    if other.allows(Item::Entry, Permission::DiscloseOnError)
        || other.allows(Item::Entry, Permission::Add)
    {
        return Ok(result_of(alloc, ResultCode::EntryAlreadyExists));
    }
    no_such_object(alloc, other.asking, name)
}

// The refusal where an entry has the name.
fn taken_refusal<D: Dir>(
    alloc: Global,
    asking: &Asking<'_, D>,
    name: &Dn,
) -> Result<Option<LdapResult>, NoMemory>
    ensures ok { IfOk result (λ refusal. refusal
        ≡ taken_refusal (entries_of (D.rows asking.now.dir.now)) asking.now.who.now name.now
        (named_in name.now (entries_of (D.rows asking.now.dir.now)))) }
{
    match asking.find(name) {
        Some(other) => Ok(Some(there_already(alloc, &other, name)?)),
        None => Ok(None),
    }
}

// Whether the superior of the name is an entry.
fn has_superior(tree: &Tree, name: &Dn) -> bool
    ensures exact { result ≡ has_name (superior_name name.now) (entries_of tree.now) }
{
    tree.find_prefix(name, name.len().saturating_sub(1))
        .is_some()
}

// Whether the value may not be added.
fn refuses_value<D: Dir>(newcomer: &Newcomer<'_, '_, D>, kind: AttrId, value: &Value) -> bool
    ensures exact { result ≡ not (granted_new (entries_of (D.rows newcomer.now.asking.now.dir.now))
        newcomer.now.asking.now.who.now newcomer.now.entry.now (protected.Value kind.0 value.now) permission.Add) }
{
    !newcomer.allows(Item::Value(kind, value), Permission::Add)
}

// Whether one of the values may not be added.
fn refuses_values<D: Dir>(newcomer: &Newcomer<'_, '_, D>, kind: AttrId, values: &[Value]) -> bool
    ensures exact { result ≡ list_any
        (λ value. not (granted_new (entries_of (D.rows newcomer.now.asking.now.dir.now))
        newcomer.now.asking.now.who.now newcomer.now.entry.now (protected.Value kind.0 value) permission.Add))
        values.now }
{
    values
        .iter()
        .any(|value| refuses_value(newcomer, kind, value))
}

// Whether the attribute may not be added: its type, or one of its values.
fn refuses_attribute<D: Dir>(newcomer: &Newcomer<'_, '_, D>, kind: AttrId, values: &[Value]) -> bool
    ensures exact { result
        ≡ refuses_attribute (granted_new (entries_of (D.rows newcomer.now.asking.now.dir.now))
        newcomer.now.asking.now.who.now newcomer.now.entry.now)
        (record { kind = kind.0; values = values.now }) }
{
    !newcomer.allows(Item::Kind(kind), Permission::Add) || refuses_values(newcomer, kind, values)
}

// Whether an attribute may not be added.
fn refuses_attributes<D: Dir>(newcomer: &Newcomer<'_, '_, D>) -> bool
    ensures exact { result ≡ list_any
        (refuses_attribute (granted_new (entries_of (D.rows newcomer.now.asking.now.dir.now))
        newcomer.now.asking.now.who.now newcomer.now.entry.now))
        newcomer.now.entry.now.attributes }
{
    for (kind, values) in newcomer.entry.attributes() {
        if refuses_attribute(newcomer, kind, values) {
            return true;
        }
    }
    false
}

// Whether the entry may not be added: itself, or one of its attributes.
#[tactic(auto, unfolding(crate::specs::adding::Adding::refuses_entry))]
fn refuses_entry<D: Dir>(newcomer: &Newcomer<'_, '_, D>) -> bool
    ensures exact { result
        ≡ refuses_entry (granted_new (entries_of (D.rows newcomer.now.asking.now.dir.now))
        newcomer.now.asking.now.who.now newcomer.now.entry.now) newcomer.now.entry.now }
{
    !newcomer.allows(Item::Entry, Permission::Add) || refuses_attributes(newcomer)
}

// The refusal where a rule is broken.
fn rule_refusal(alloc: Global, tree: &Tree, entry: &Entry) -> Result<Option<LdapResult>, NoMemory>
    ensures ok { IfOk result (λ refusal. refusal
        ≡ rule_refusal (broken_rule None (entries_of tree.now) entry.now)) }
{
    match check_entry(alloc, tree, None, entry) {
        Ok(()) => Ok(None),
        Err(Broken::Rule(rule)) => Ok(Some(result_of(alloc, rule_code(rule)))),
        Err(Broken::NoMemory) => Err(AllocError),
    }
}

// Why the entry is not added.
#[tactic(auto, unfolding(crate::specs::adding::Adding::add_refusal))]
fn add_refusal<D: Dir>(
    alloc: Global,
    asking: &Asking<'_, D>,
    entry: &Entry,
) -> Result<Option<LdapResult>, NoMemory>
    ensures ok { IfOk result (λ refusal. refusal
        ≡ add_refusal (entries_of (D.rows asking.now.dir.now)) asking.now.who.now entry.now.name entry.now) }
{
    let tree = asking.dir.tree();
    if let Some(refusal) = taken_refusal(alloc, asking, entry.name())? {
        return Ok(Some(refusal));
    }
    if !has_superior(tree, entry.name()) {
        return Ok(Some(no_such_object(alloc, asking, entry.name())?));
    }
    let newcomer = Newcomer::new(alloc, asking, entry)?;
    if refuses_entry(&newcomer) {
        return Ok(Some(result_of(alloc, ResultCode::InsufficientAccessRights)));
    }
    rule_refusal(alloc, tree, entry)
}

// The same of a directory that isn't asked yet.
fn check_add<D: Dir>(
    alloc: Global,
    dir: &D,
    who: &Requester,
    entry: &Entry,
) -> Result<Option<LdapResult>, NoMemory>
    ensures ok { IfOk result (λ refusal. refusal
        ≡ add_refusal (entries_of (D.rows dir.now)) who.now entry.now.name entry.now) }
{
    let asking = Asking::new(alloc, dir, who)?;
    add_refusal(alloc, &asking, entry)
}

// Puts the entry in. After the error, want of memory, the directory is as before.
fn insert<D: Dir>(alloc: Global, dir: &mut D, entry: Entry) -> Result<(), NoMemory>
    requires named { entry.name ≢ [] }
    ensures ok { OnOk result (entries_of (D.rows dir.new) ≡ put_in entry (entries_of (D.rows dir.old))) }
    ensures kept { OnErr result (D.rows dir.new ≡ D.rows dir.old) }
{
    match dir.insert(alloc, entry) {
        Ok(_number) => Ok(()),
        Err(_) => Err(AllocError),
    }
}

// An add of the entry.
fn add_new<D: Dir>(
    alloc: Global,
    dir: &mut D,
    who: &Requester,
    entry: Entry,
) -> Result<Option<LdapResult>, NoMemory>
    requires named { entry.name ≢ [] }
    ensures ok { IfOk result (λ refusal. IsChanged (entries_of (D.rows dir.old))
        (unless (add_refusal (entries_of (D.rows dir.old)) who.now entry.name entry)
        (put_in entry (entries_of (D.rows dir.old))))
        refusal (entries_of (D.rows dir.new))) }
    ensures kept { OnErr result (D.rows dir.new ≡ D.rows dir.old) }
{
    match check_add(alloc, dir, who, &entry)? {
        Some(refusal) => Ok(Some(refusal)),
        None => {
            insert(alloc, dir, entry)?;
            Ok(None)
        }
    }
}

// An add of an entry of the name with the attributes.
fn add_entry<D: Dir>(
    alloc: Global,
    dir: &mut D,
    who: &Requester,
    name: Dn,
    given: &[KindValues],
) -> Result<Option<LdapResult>, NoMemory>
    requires named { name ≢ [] }
    ensures ok { IfOk result (λ refusal. IsChanged (entries_of (D.rows dir.old))
        (added_entry (entries_of (D.rows dir.old)) who.now name (read_attributes given.now))
        refusal (entries_of (D.rows dir.new))) }
    ensures kept { OnErr result (D.rows dir.new ≡ D.rows dir.old) }
{
    match new_entry(alloc, name, given) {
        Ok(entry) => add_new(alloc, dir, who, entry),
        Err(Fault::Refused(code)) => Ok(Some(result_of(alloc, code))),
        Err(Fault::NoMemory) => Err(AllocError),
    }
}

// An add of an entry of any name with the attributes.
fn add_named<D: Dir>(
    alloc: Global,
    dir: &mut D,
    who: &Requester,
    name: Dn,
    given: &[KindValues],
) -> Result<Option<LdapResult>, NoMemory>
    ensures ok { IfOk result (λ refusal. IsChanged (entries_of (D.rows dir.old))
        (added_named (entries_of (D.rows dir.old)) who.now given.now (Ok name))
        refusal (entries_of (D.rows dir.new))) }
    ensures kept { OnErr result (D.rows dir.new ≡ D.rows dir.old) }
{
    if name.len() == 0 {
        return Ok(Some(result_of(alloc, ResultCode::UnwillingToPerform)));
    }
    add_entry(alloc, dir, who, name, given)
}

/// Adds the entry that the request describes (RFC 4511 4.7, X.511 11.1): with its attributes in their order, and last the
/// values of its own RDN that they leave out. Its name must be free, its superior an entry, and the requester must be
/// allowed to add the entry, each of its types and each value; what the entry itself would grant doesn't count. Then it
/// must keep the rules of the directory. None where it was done, and otherwise the result that refuses it, with the
/// directory as it was. The error comes where memory is wanted, and all is then as it was.
pub fn add<D: Dir>(
    alloc: Global,
    dir: &mut D,
    who: &Requester,
    request: &AddRequest,
) -> Result<Option<LdapResult>, NoMemory>
    ensures ok { IfOk result (λ refusal. IsChanged (entries_of (D.rows dir.old))
        (added (entries_of (D.rows dir.old)) who.now request.now)
        refusal (entries_of (D.rows dir.new))) }
    ensures kept { OnErr result (entries_of (D.rows dir.new) ≡ entries_of (D.rows dir.old)) }
{
    match read_named(alloc, request.name.as_slice())? {
        Some(name) => add_named(alloc, dir, who, name, request.attributes.as_slice()),
        None => Ok(Some(result_of(alloc, ResultCode::InvalidDnSyntax))),
    }
}

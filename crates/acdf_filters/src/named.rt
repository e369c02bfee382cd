//! A requester by its name, of which groups are asked.

ghost use Rattle.std.specs.Prelude.{◌≡◌, ◌||◌, IfOk};
ghost use Rattle.dir_tree.specs.dn_names.Printing.{name_key};
ghost use Rattle.dir_tree.specs.Entry.{values_of, has_key};
ghost use Rattle.dir_tree.specs.tree.Numbered.{entries_of};
ghost use Rattle.acdf_filters.specs.users.Users.{member, unique_member, has_member, is_in_group};

use crate::users::{entry_named, has_member};
use dir_tree::dn_names::laws::a_printed_name_is_read_again;
use dir_tree::dn_names::{Dn, Value, make_value, print};
use dir_tree::schema_tables::AttrId;
use dir_tree::{Entry, NoMemory, Tree};
use std::alloc::{AllocError, Global};
use std::marker::Model;

/// The most members among which a name is looked for with no key of it.
const FEW: usize = 32;

/// A requester's name, and its key as a member of groups once a group of many was asked. Contracts see the name.
#[derive(Drop)]
pub struct NamedRequester<'a> {
    name: &'a Dn,
    key: Option<Value>,
}

impl<'a> Model for NamedRequester<'a> {
    ghost use Rattle.dir_tree.specs.dn_names.name.Names.{RdnSequence};
    ghost use Rattle.acdf_filters.specs.Named.{IsKeyOf};

    ghost Value = { RdnSequence };

    ghost view = { λ named. named.name.now };

    ghost invariant = { λ named. IsKeyOf named.name.now named.key };
}

impl<'a> NamedRequester<'a> {
    /// The requester of this name.
    pub fn new(name: &'a Dn) -> NamedRequester<'a>
        ensures exact { result ≡ name.now }
    {
        NamedRequester { name, key: None }
    }

    /// Whether the requester is a member of the group of this name: an absent group has no members, and a group that is
    /// a member gives none. The error comes where memory is wanted, which only a group of many members takes, and only
    /// the first time.
    pub fn is_in_group(&mut self, alloc: Global, tree: &Tree, group: &Dn) -> Result<bool, NoMemory>
        ensures exact { IfOk result (λ found.
            found ≡ is_in_group (entries_of tree.now) self.old group.now) }
        ensures kept { self.new ≡ self.old }
    {
        match entry_named(tree, group) {
            Some(entry) => self.is_member(alloc, entry),
            None => Ok(false),
        }
    }

    // Whether the requester is among the members of the group.
    fn is_member(&mut self, alloc: Global, group: &Entry) -> Result<bool, NoMemory>
        ensures exact { IfOk result (λ found. found ≡ has_member self.old group.now) }
        ensures kept { self.new ≡ self.old }
    {
        if has_few(group) {
            return Ok(has_member(group, self.name));
        }
        self.make_key(alloc)?;
        Ok(self.is_among_many(group))
    }

    // Makes the key, where there is none.
    fn make_key(&mut self, alloc: Global) -> Result<(), NoMemory>
        ensures kept { self.new ≡ self.old }
    {
        if self.key.is_none() {
            self.key = Some(value_of_name(alloc, self.name)?);
        }
        Ok(())
    }

    // The same of a group of many members.
    fn is_among_many(&self, group: &Entry) -> bool
        ensures exact { result ≡ has_member self.now group.now }
    {
        match &self.key {
            Some(value) => has_member_key(group, value.key()),
            None => has_member(group, self.name),
        }
    }
}

// Whether the group has so few members that looking through them is faster than making a key.
fn has_few(group: &Entry) -> bool {
    group.values(AttrId::MEMBER).len() <= FEW && group.values(AttrId::UNIQUE_MEMBER).len() <= FEW
}

// Whether one of the group's members has the key.
fn has_member_key(group: &Entry, key: &[u8]) -> bool
    ensures exact { result ≡ (has_key key.now (values_of member group.now.attributes)
        || has_key key.now (values_of unique_member group.now.attributes)) }
{
    group.has_value(AttrId::MEMBER, key) || group.has_value(AttrId::UNIQUE_MEMBER, key)
}

// The name as a member of a group.
fn value_of_name(alloc: Global, name: &Dn) -> Result<Value, NoMemory>
    ensures key { IfOk result (λ value. value.key ≡ name_key name.now) }
{
    name.known_good();
    a_printed_name_is_read_again();
    let mut text = String::new(alloc);
    print(alloc, name, &mut text)?;
    match make_value(alloc, AttrId::MEMBER, text.into_bytes()) {
        Ok(value) => Ok(value),
        Err(_) => Err(AllocError),
    }
}

//! One item, or a list of them.

ghost use Rattle.std.specs.Prelude.{◌≡◌, ◌++◌, [], ◌∷◌, ◌==◌, ◌≤◌, length, vec_capacity, OnOk, OnErr};
ghost use Rattle.std.specs.Mem.{FitsInMemory};
ghost use Rattle.std.specs.Fn.{CalledAt};
ghost use Rattle.std.specs.List.Retain.{IsFiltered};
ghost use Rattle.plain_values.specs.Items.{items_in};

use std::alloc::{AllocError, Global};
use std::marker::Model;
use std::mem::replace;
use std::slice::from_ref;

/// Items in their order. Contracts see the list of them. One item takes no memory beside its own.
#[derive(Debug, Drop)]
pub struct OneOrMany<T> {
    kept: Kept<T>,
}

#[derive(Debug, Drop)]
enum Kept<T> {
    One(T),
    Many(Vec<T>),
}

impl<T> Model for OneOrMany<T> {
    ghost use Rattle.std.specs.Prelude.{List};
    ghost use Rattle.std.specs.Coded.{coded_list};

    ghost Value = { List T };

    ghost coded = { coded_list T.code };

    ghost use Rattle.plain_values.specs.Items.{items_in};

    ghost view = { λ items. items_in items.kept };
}

impl<T> OneOrMany<T> {
    /// The one item.
    pub fn one(item: T) -> OneOrMany<T>
        ensures exact { result ≡ item ∷ [] }
    {
        OneOrMany {
            kept: Kept::One(item),
        }
    }

    /// The items in their order.
    pub fn as_slice(&self) -> &[T]
        requires { FitsInMemory T.row }
        ensures exact { result.now ≡ self.now }
    {
        match &self.kept {
            Kept::One(item) => from_ref(item),
            Kept::Many(items) => items.as_slice(),
        }
    }

    /// Whether there is none.
    pub fn is_empty(&self) -> bool
        ensures exact { result ≡ (length self.now == 0) }
    {
        match &self.kept {
            Kept::One(_) => false,
            Kept::Many(items) => items.is_empty(),
        }
    }
}

impl<T: Drop> OneOrMany<T> {
    /// These items.
    pub fn from_vec(items: Vec<T>) -> OneOrMany<T>
        ensures exact { result ≡ items.items }
    {
        let mut items = items;
        if items.len() == 1 {
            if let Some(item) = items.pop() {
                return OneOrMany::one(item);
            }
        }
        OneOrMany {
            kept: Kept::Many(items),
        }
    }

    /// Puts the item last. The error comes where memory is wanted, and the items stay.
    pub fn push(&mut self, alloc: Global, item: T) -> Result<(), AllocError>
        ensures ok { OnOk result (self.new ≡ self.old ++ item ∷ []) }
        ensures err { OnErr result (self.new ≡ self.old) }
    {
        self.kept.push(alloc, item)
    }

    /// Takes out the items at which the test answers false.
    pub fn retain<F: FnMut(&T) -> bool>(&mut self, alloc: Global, keep: F)
        requires { F.IsAlwaysCallable keep }
        ensures filtered { IsFiltered (CalledAt F.FnMut) keep self.old self.new }
    {
        self.kept.retain(alloc, keep);
    }
}

impl<T: Drop> Kept<T> {
    // Puts the item last.
    fn push(&mut self, alloc: Global, item: T) -> Result<(), AllocError>
        ensures ok { OnOk result (items_in self.new ≡ items_in self.old ++ item ∷ []) }
        ensures err { OnErr result (items_in self.new ≡ items_in self.old) }
    {
        match replace(self, Kept::Many(Vec::new(alloc))) {
            Kept::One(first) => self.put_both(alloc, first, item),
            Kept::Many(mut items) => {
                let result = items.push(item);
                *self = Kept::Many(items);
                Ok(result?)
            }
        }
    }

    // Takes out the items at which the test answers false.
    fn retain<F: FnMut(&T) -> bool>(&mut self, alloc: Global, mut keep: F)
        requires { F.IsAlwaysCallable keep }
        ensures filtered { IsFiltered (CalledAt F.FnMut) keep (items_in self.old) (items_in self.new) }
    {
        match self {
            Kept::One(item) => {
                if !keep(item) {
                    *self = Kept::Many(Vec::new(alloc));
                }
            }
            Kept::Many(items) => items.retain(keep),
        }
    }

    // Puts both items in; where memory is wanted, the first alone.
    fn put_both(&mut self, alloc: Global, first: T, second: T) -> Result<(), AllocError>
        ensures ok { OnOk result (items_in self.new ≡ first ∷ second ∷ []) }
        ensures err { OnErr result (items_in self.new ≡ first ∷ []) }
    {
        match Vec::with_capacity(alloc, 2) {
            Ok(room) => {
                *self = Kept::Many(both_in(room, first, second));
                Ok(())
            }
            Err(error) => {
                *self = Kept::One(first);
                Err(error)
            }
        }
    }
}

// The two items in the vector, which is empty and has room for them.
fn both_in<T: Drop>(room: Vec<T>, first: T, second: T) -> Vec<T>
    requires empty { room.items ≡ [] }
    requires fits { 2 ≤ vec_capacity room }
    ensures exact { result.items ≡ first ∷ second ∷ [] }
{
    let mut items = room;
    items.push_reserved(first);
    items.push_reserved(second);
    items
}

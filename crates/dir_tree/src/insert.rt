//! Entries put in.

ghost use Rattle.std.specs.Prelude.{◌≡◌, ◌≢◌, ◌<◌, [], None, IfOk};

use crate::entry::{Entry, NoMemory};
use crate::number::EntryNo;
use crate::paths::copy_path;
use crate::refusals::InsertRefusal;
use crate::slots::{fill_slot, free_slot};
use crate::subentries::{list_number, make_room};
use crate::tree::Tree;
use crate::vacancy::Vacancy;
use std::alloc::AllocError;

impl Tree {
    ghost use Rattle.dir_tree.specs.tree.Trees.{most_entries};
    ghost use Rattle.dir_tree.specs.tree.Numbered.{entries_of};
    ghost use Rattle.dir_tree.specs.Refusals.{insert_refusal};
    ghost use Rattle.dir_tree.specs.Vacancy.{IsVacancy};
    ghost use Rattle.dir_tree.specs.Effects.{Inserts, InsertsAllowed};

    /// Puts the entry in, and gives the number by which it is known: one that is not in use. Its name shares memory
    /// with that of its superior, and the memory that its attributes do not need is given back.
    ///
    /// Each refusal comes in exactly one case, and of several the first: `NameTaken` where the name is that of an
    /// entry, `NoSuperior` where there are entries and none of them is the superior, `Full` where there are 200,000.
    /// `NoMemory`, where memory is refused, may come before these. The name may not be empty; the first entry, of any
    /// such name, is the suffix.
    pub fn insert(&mut self, entry: Entry) -> Result<EntryNo, InsertRefusal>
        requires { entry.name ≢ [] }
        ensures exact { Inserts entry self.old result self.new }
        ensures fits { IfOk result (λ no. no.0 < most_entries) }
    {
        let vacancy = self.vacancy(entry.name())?;
        match self.insert_at(vacancy, entry) {
            Ok(no) => Ok(no),
            Err(_) => Err(InsertRefusal::NoMemory),
        }
    }

    /// Puts the entry in where its vacancy is, as `insert` does. The error comes where there is no memory.
    pub fn insert_at(&mut self, vacancy: Vacancy, entry: Entry) -> Result<EntryNo, NoMemory>
        requires vacant { IsVacancy vacancy entry.name self.old }
        requires named { entry.name ≢ [] }
        ensures exact { InsertsAllowed entry self.old result self.new }
        ensures fits { IfOk result (λ no. no.0 < most_entries) }
    {
        let mut entry = entry;
        self.share_name(vacancy.superior(), &mut entry);
        entry.fit();
        self.put_in(entry)
    }

    // Lets the entry's name share memory with that of its superior, if it has one.
    fn share_name(&self, superior: Option<EntryNo>, entry: &mut Entry)
        ensures exact { entry.new ≡ entry.old }
    {
        if let Some(no) = superior {
            if let Some(superior) = self.at(no) {
                entry.share_name(superior.name());
            }
        }
    }

    // Puts the entry, which is not refused, in.
    fn put_in(&mut self, entry: Entry) -> Result<EntryNo, AllocError>
        requires allowed { insert_refusal entry.name (entries_of self.old) ≡ None }
        requires named { entry.name ≢ [] }
        ensures exact { InsertsAllowed entry self.old result self.new }
        ensures fits { IfOk result (λ no. no.0 < most_entries) }
    {
        let path = copy_path(entry.name())?;
        make_room(&mut self.subentries, &entry)?;
        let number = free_slot(&mut self.slots, self.low, self.places.len())?;
        let no = EntryNo(number as u32);
        self.places.insert(path, no.0)?;
        list_number(&self.slots, &mut self.subentries, &entry, no);
        fill_slot(&mut self.slots, number, entry);
        self.low = number + 1;
        Ok(no)
    }
}

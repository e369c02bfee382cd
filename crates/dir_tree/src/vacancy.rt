//! Where entries may be put in.

ghost use Rattle.std.specs.Prelude.{◌≡◌, Some, None, IfOk, IfErr, OnOk};
ghost use Rattle.std.specs.Option.{option_map};

use crate::number::EntryNo;
use crate::refusals::InsertRefusal;
use crate::tree::Tree;
use dn_names::Dn;
use std::marker::Model;

/// The most entries of a tree.
pub const MOST_ENTRIES: usize = 200_000;

/// Where an entry may be put in. Contracts see the number of its superior.
#[derive(Debug, Drop)]
pub struct Vacancy {
    superior: Option<EntryNo>,
}

impl Model for Vacancy {
    ghost use Rattle.std.specs.Prelude.{Option, ℕ};
    ghost use Rattle.std.specs.Option.{option_map};

    ghost Value = { Option ℕ };

    ghost view = { λ vacancy. option_map (λ no. no.0) vacancy.superior };
}

impl Vacancy {
    /// The number of the superior; None where the tree is empty, so that the entry will be the suffix.
    pub fn superior(&self) -> Option<EntryNo>
        ensures exact { option_map (λ no. no.0) result ≡ self.now }
    {
        self.superior
    }
}

impl Tree {
    ghost use Rattle.dir_tree.specs.tree.Trees.{has_name, lacks_superior, superior_name};
    ghost use Rattle.dir_tree.specs.tree.Numbered.{entries_of, find_name};
    ghost use Rattle.dir_tree.specs.Refusals.{insert_refusal};
    ghost use Rattle.dir_tree.specs.Vacancy.{IsVacancy};

    /// Where an entry of the name may be put in, and below which superior. Takes no memory.
    ///
    /// The refusals are those of `insert`, in their order: `NameTaken`, `NoSuperior` and `Full`. `NoMemory` never comes.
    pub fn vacancy(&self, name: &Dn) -> Result<Vacancy, InsertRefusal>
        ensures ok { IfOk result (λ vacancy. IsVacancy vacancy name.now self.now) }
        ensures exact { OnOk result (insert_refusal name.now (entries_of self.now) ≡ None) }
        ensures cause { IfErr result (λ refusal.
            insert_refusal name.now (entries_of self.now) ≡ Some refusal) }
    {
        let superior = self.number_above(name);
        match self.insert_refusal(name, superior) {
            Some(refusal) => Err(refusal),
            None => Ok(Vacancy { superior }),
        }
    }

    // Why an entry of the name is not put in, whose superior is the entry of the number.
    fn insert_refusal(&self, name: &Dn, superior: Option<EntryNo>) -> Option<InsertRefusal>
        requires { option_map (λ no. no.0) superior ≡ find_name (superior_name name.now) self.now }
        ensures exact { result ≡ insert_refusal name.now (entries_of self.now) }
    {
        if self.has_name(name) {
            Some(InsertRefusal::NameTaken)
        } else if self.lacks_superior(name, superior) {
            Some(InsertRefusal::NoSuperior)
        } else if self.len() == MOST_ENTRIES {
            Some(InsertRefusal::Full)
        } else {
            None
        }
    }

    // Whether the tree has entries, and the superior of the name is none of them.
    fn lacks_superior(&self, name: &Dn, superior: Option<EntryNo>) -> bool
        requires { option_map (λ no. no.0) superior ≡ find_name (superior_name name.now) self.now }
        ensures exact { result ≡ lacks_superior name.now (entries_of self.now) }
    {
        self.len() > 0 && !self.has_superior(name, superior)
    }

    // Whether the tree has the superior of the name.
    fn has_superior(&self, name: &Dn, superior: Option<EntryNo>) -> bool
        requires { option_map (λ no. no.0) superior ≡ find_name (superior_name name.now) self.now }
        ensures exact { result ≡ has_name (superior_name name.now) (entries_of self.now) }
    {
        superior.is_some()
    }

    // Whether an entry has the name.
    fn has_name(&self, name: &Dn) -> bool
        ensures exact { result ≡ has_name name.now (entries_of self.now) }
    {
        self.find(name).is_some()
    }
}

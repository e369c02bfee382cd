//! Permission that is given to all but one type and all but one value.
ghost use Rattle.std.specs.Prelude.{◌≡◌, ◌==◌, not};
ghost use Rattle.std.specs.Str.{bytes_eq};

use dir_tree::dn_names::Value;
use dir_tree::schema_tables::AttrId;
use filter_match::Allow;
use std::cell::Cell;

// FilterMatch is granted on all types but one, and on all values but those of some octets. Each question is counted.
#[derive(Drop)]
pub struct AllBut {
    kind: u8,
    octets: &'static str,
    asked: Cell<u32>,
}

impl AllBut {
    pub fn new(kind: AttrId, octets: &'static str) -> AllBut {
        AllBut {
            kind: kind.0,
            octets,
            asked: Cell::new(0),
        }
    }

    // How often it was asked.
    pub fn asked(&self) -> u32 {
        self.asked.get()
    }

    fn count(&self) {
        self.asked.set(self.asked.get().wrapping_add(1));
    }
}

impl Allow for AllBut {
    ghost permits = { λ all. record {
      kind = λ kind. not (kind == all.kind);
      value = λ kind value. not (bytes_eq value.octets all.octets.now);
    } };

    fn kind(&self, kind: AttrId) -> bool {
        self.count();
        kind.0 != self.kind
    }

    fn value(&self, _kind: AttrId, value: &Value) -> bool {
        self.count();
        value.octets() != self.octets.as_bytes()
    }
}

//! Types that say their layout.

use crate::kinds::{NoMemory, ReadFault};
use plain_values::Octets;
use std::alloc::Global;

/// A value that stands in the content of an element.
pub trait Laid: Drop {
    ghost use Rattle.std.specs.Prelude.{◌≡◌, ◌++◌, OnOk};
    ghost use Rattle.ber_layout.specs.Layouts.{Layout, Value, reads, writes};
    ghost use Rattle.ber_layout.specs.element.Reading.{Gives};
    ghost use Rattle.ber_layout.specs.Spellings.{Extends};

    ghost layout: { Layout };

    ghost parts: { Self → Value layout };

    /// The value that the content says. `BadMessage` comes exactly where it says none, and
    /// `NoMemory` may come in place of any answer.
    fn read(alloc: Global, content: &[u8]) -> Result<Self, ReadFault>
        ensures { Gives parts result (reads layout content.now) };

    /// Appends the written content of the value. After the error, want of memory, `out` has what it
    /// had and may have more.
    fn put(&self, out: &mut Vec<u8>) -> Result<(), NoMemory>
        ensures ok { OnOk result (out.new.items ≡ out.old.items ++ writes layout (parts self.now)) }
        ensures kept { Extends out.old.items out.new.items };
}

impl Laid for Octets {
    ghost use Rattle.ber_layout.specs.Layouts.Layout.{AnyOctets};

    ghost layout = { AnyOctets };

    ghost parts = { λ octets. octets };

    #[tactic(auto, unfolding(crate::specs::Layouts::reads_into))]
    fn read(alloc: Global, content: &[u8]) -> Result<Octets, ReadFault> {
        Ok(Octets::from_vec(Vec::from_slice(alloc, content)?))
    }

    fn put(&self, out: &mut Vec<u8>) -> Result<(), NoMemory> {
        out.extend_from_slice(self.as_slice())
    }
}

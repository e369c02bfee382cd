//! Connections, whose events are heard one by one.

ghost use Rattle.std.specs.Prelude.{◌≡◌, ◌<◌, length, IfOk};
ghost use Rattle.plain_values.specs.Counts.{NeverFalls};
ghost use Rattle.wire_io.specs.Answers.{HeardFits, TookFits, LinkCause, WriteCause, RefusalCause, WriteRefusal, NoteRefusal};
ghost use Rattle.wire_io.specs.link.Telling.{OpenTells, StoreOpenTells, NextTells, TookTells, NoteTells};
ghost use Rattle.wire_io.specs.Playing.{NextPlays};

use crate::{Heard, Item, NextFault, NoMemory, Took};

/// What gives the events of connections and takes octets for them. Where the link tells, `journal`
/// is all that it did, and `plan` what it still has to give; `faults` counts the faults of `open` and `next`,
/// `store_faults` those of the store's calls, `lost` the connections that it found lost, and `refusals` the
/// calls that it answered with want of memory.
pub trait Link {
    ghost use Rattle.std.specs.Prelude.{ℕ, Option, List};
    ghost use Rattle.wire_io.specs.declared.journal.Item.{Item};
    ghost use Rattle.wire_io.specs.link.Plan.{Plan};

    ghost journal: { Self → Option (List Item) };

    ghost plan: { Self → Option Plan };

    ghost faults: { Self → ℕ };

    ghost store_faults: { Self → ℕ };

    ghost lost: { Self → ℕ };

    ghost refusals: { Self → ℕ };

    /// Has connections ended that are idle, called before `open`: one whose peer sent nothing for so many
    /// seconds, and to which nothing is due, is ended, and one on hold that takes nothing for so long is
    /// lost; with 0 seconds, and where this is never called, none is. No clause says when a link does so:
    /// it may have no clock, and then it does nothing.
    fn end_idle_after(&mut self, seconds: u64)
        ensures tells { journal self.new ≡ journal self.old }
        ensures plan { plan self.new ≡ plan self.old }
        ensures faults { faults self.new ≡ faults self.old }
        ensures store_faults { store_faults self.new ≡ store_faults self.old }
        ensures lost { lost self.new ≡ lost self.old }
        ensures refusals { refusals self.new ≡ refusals self.old };

    /// Prepares the address. With sessions above 0 the link is asked to stop once so many
    /// connections have ended; no clause says that it does. `Failed` is a fault, and is counted;
    /// after `NoMemory` nothing was done.
    fn open(&mut self, address: &str, sessions: u64) -> Result<(), NextFault>
        ensures tells { OpenTells (journal self.old) address.now sessions result (journal self.new) }
        ensures cause { LinkCause (plan self.old) (faults self.old) (faults self.new) result }
        ensures refusals { RefusalCause (refusals self.old) (refusals self.new) result }
        // what stays
        ensures plan { plan self.new ≡ plan self.old }
        ensures store_faults { store_faults self.new ≡ store_faults self.old }
        ensures lost { NeverFalls (lost self.old) (lost self.new) };

    /// From now on `store` appends to the file of this name, to which nobody else may then append; a file that
    /// isn't there is made. `Failed` is a fault, and is counted; after `NoMemory` nothing was done.
    fn open_store(&mut self, name: &str) -> Result<(), NextFault>
        ensures tells { StoreOpenTells (journal self.old) name.now result (journal self.new) }
        ensures cause { LinkCause (plan self.old) (store_faults self.old) (store_faults self.new) result }
        ensures refusals { RefusalCause (refusals self.old) (refusals self.new) result }
        // what stays
        ensures plan { plan self.new ≡ plan self.old }
        ensures faults { faults self.new ≡ faults self.old }
        ensures lost { NeverFalls (lost self.old) (lost self.new) };

    /// Cuts the store to so many octets, which it has. `Failed` is a fault, and is counted; after
    /// `NoMemory` nothing was done.
    fn cut_store(&mut self, length: u64) -> Result<(), NextFault>
        ensures tells { NoteTells (journal self.old) (Item.StoreCut length) result (journal self.new) }
        ensures cause { LinkCause (plan self.old) (store_faults self.old) (store_faults self.new) result }
        ensures refusals { RefusalCause (refusals self.old) (refusals self.new) result }
        // what stays
        ensures plan { plan self.new ≡ plan self.old }
        ensures faults { faults self.new ≡ faults self.old }
        ensures lost { NeverFalls (lost self.old) (lost self.new) };

    /// Appends the octets to the store. Until they are on the disk no octets are taken for any connection.
    /// After `Failed`, a fault, which is counted, a front of them may be there; after `NoMemory` nothing
    /// was done.
    fn store(&mut self, octets: &[u8]) -> Result<(), NextFault>
        ensures tells { NoteTells (journal self.old) (Item.Stored octets.now) result (journal self.new) }
        ensures cause { LinkCause (plan self.old) (store_faults self.old) (store_faults self.new) result }
        ensures refusals { RefusalCause (refusals self.old) (refusals self.new) result }
        // what stays
        ensures plan { plan self.new ≡ plan self.old }
        ensures faults { faults self.new ≡ faults self.old }
        ensures lost { NeverFalls (lost self.old) (lost self.new) };

    /// Has on the disk what was stored, called before `next`. It may be put off to a later call where `next`
    /// gives an event without waiting, so that what is stored meanwhile shares the wait for the disk. After
    /// `Failed`, a fault, which is counted, a front of what was stored may be there.
    fn sync_store(&mut self) -> Result<(), NextFault>
        ensures tells { journal self.new ≡ journal self.old }
        ensures cause { LinkCause (plan self.old) (store_faults self.old) (store_faults self.new) result }
        ensures refusals { RefusalCause (refusals self.old) (refusals self.new) result }
        // what stays
        ensures plan { plan self.new ≡ plan self.old }
        ensures faults { faults self.new ≡ faults self.old }
        ensures lost { NeverFalls (lost self.old) (lost self.new) };

    /// Waits for the next event; the octets of `Bytes` stand at the front of the buffer. `Failed` is
    /// a fault, and is counted; after an error no event was taken.
    fn next(&mut self, buf: &mut [u8]) -> Result<Heard, NextFault>
        requires { 0 < length buf.old }
        // the event
        ensures fits { IfOk result (HeardFits (length buf.new)) }
        ensures tells { NextTells (journal self.old) buf.new result (journal self.new) }
        ensures plays { NextPlays (journal self.old) (plan self.old) buf.new result (plan self.new) }
        // each refusal
        ensures cause { LinkCause (plan self.old) (faults self.old) (faults self.new) result }
        ensures refusals { RefusalCause (refusals self.old) (refusals self.new) result }
        // what stays
        ensures store_faults { store_faults self.new ≡ store_faults self.old }
        ensures lost { NeverFalls (lost self.old) (lost self.new) };

    /// Offers octets for the connection. `Gone` says that it was found lost, which the count of these
    /// shows; after `Later`, `Gone` and `NoMemory` none were taken.
    fn write(&mut self, conn: u32, bytes: &[u8]) -> Took
        requires { 0 < length bytes.now }
        ensures fits { TookFits (length bytes.now) result }
        ensures tells { TookTells (journal self.old) conn bytes.now result (journal self.new) }
        // each answer
        ensures cause { WriteCause (plan self.old) (lost self.old) (lost self.new) result }
        ensures refusals { WriteRefusal (refusals self.old) (refusals self.new) result }
        // what stays
        ensures plan { plan self.new ≡ plan self.old }
        ensures faults { faults self.new ≡ faults self.old }
        ensures store_faults { store_faults self.new ≡ store_faults self.old };

    /// Stops the octets of the connection until it is released; where it may take octets again,
    /// `Ready` comes. After want of memory nothing was done.
    fn hold(&mut self, conn: u32) -> Result<(), NoMemory>
        ensures tells { NoteTells (journal self.old) (Item.Held conn) result (journal self.new) }
        ensures refusals { NoteRefusal (refusals self.old) (refusals self.new) result }
        ensures plan { plan self.new ≡ plan self.old }
        ensures faults { faults self.new ≡ faults self.old }
        ensures store_faults { store_faults self.new ≡ store_faults self.old }
        ensures lost { NeverFalls (lost self.old) (lost self.new) };

    /// Lets the octets of the connection come again. After want of memory nothing was done.
    fn release(&mut self, conn: u32) -> Result<(), NoMemory>
        ensures tells { NoteTells (journal self.old) (Item.Released conn) result (journal self.new) }
        ensures refusals { NoteRefusal (refusals self.old) (refusals self.new) result }
        ensures plan { plan self.new ≡ plan self.old }
        ensures faults { faults self.new ≡ faults self.old }
        ensures store_faults { store_faults self.new ≡ store_faults self.old }
        ensures lost { NeverFalls (lost self.old) (lost self.new) };

    /// Ends the connection. After want of memory nothing was done.
    fn hang_up(&mut self, conn: u32) -> Result<(), NoMemory>
        ensures tells { NoteTells (journal self.old) (Item.HungUp conn) result (journal self.new) }
        ensures refusals { NoteRefusal (refusals self.old) (refusals self.new) result }
        ensures plan { plan self.new ≡ plan self.old }
        ensures faults { faults self.new ≡ faults self.old }
        ensures store_faults { store_faults self.new ≡ store_faults self.old }
        ensures lost { NeverFalls (lost self.old) (lost self.new) };
}

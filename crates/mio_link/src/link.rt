//! The link over the system's sockets, and a file of the system.

ghost use Rattle.std.specs.Prelude.{◌≡◌, ◌≢◌, ◌⊎◌, ◌<◌, length, true, false, Ok, Err, IfOk, OnOk, OnErr};
ghost use Rattle.plain_values.specs.Counts.{NeverFalls};
ghost use Rattle.wire_io.specs.declared.journal.Item.{Item};
ghost use Rattle.wire_io.specs.Answers.{HeardFits, TookFits, LinkCause, WriteCause, RefusalCause, WriteRefusal, NoteRefusal};
ghost use Rattle.wire_io.specs.Playing.{NextPlays};
ghost use Rattle.wire_io.specs.link.Telling.{OpenTells, StoreOpenTells, NextTells, TookTells, NoteTells};
ghost use Rattle.mio_link.specs.Store.{awaits_disk};
ghost use Rattle.mio_link.specs.SystemLink.{link_faults, store_faults, lost_connections, refused_calls, has_store, waits_for_disk, times_put_off, IsPutOffOnce, NoneWaits, HangsUp, Holds, Defers, HasNone, IsDone, IsOfLink, KeepsBounds, KeepsConnections, KeepsEach, sessions_of, ended_of, idle_of, StoreFailed, StoreStays};

use crate::sockets::Sockets;
use crate::store::Store;
use plain_values::raised;
use std::alloc::Global;
use std::fs::File;
use std::io::ErrorKind;
use std::net::Net;
use std::rt::Files;
use std::time::Clock;
use wire_io::{Heard, Link, NextFault, NoMemory, Took};

/// A link to connections of the system. It tells nothing of what it did. Connections have the numbers 1,
/// 2, 3 and so on; after 4294967295 none is accepted any more. At most 257 are open at a time: where
/// another takes the last place, the one whose peer was silent longest is ended for it, of those to which
/// nothing is due; where there is none such, the other is opened beside them. What is given at once of a
/// peer's octets makes at most one message whole that is wide, and that is the last; the others are
/// kept, at most a buffer of them for each connection. The store is a file of the system.
#[derive(Drop)]
pub struct MioLink<R> {
    rt: R,
    sockets: Sockets,
    store: Store,
    faults: u64,
    store_faults: u64,
    lost: u64,
    refusals: u64,
}

impl<R: Net + Drop> MioLink<R> {
    /// A link over the runtime, which isn't open yet, had no fault and refused nothing. Its tables are made here.
    pub fn new(rt: R, alloc: Global) -> Result<MioLink<R>, NoMemory>
        ensures fresh { IfOk result (λ link. (link_faults link ≡ 0) × (store_faults link ≡ 0) × (lost_connections link ≡ 0) × (refused_calls link ≡ 0)) }
        ensures store { IfOk result (λ link. (has_store link ≡ false) × (waits_for_disk link ≡ false)) }
        ensures bounds { IfOk result (λ link. (sessions_of link ≡ 0) × (ended_of link ≡ 0) × (idle_of link ≡ 0)) }
    {
        Ok(MioLink {
            rt,
            sockets: Sockets::new(alloc)?,
            store: Store::Unopened,
            faults: 0,
            store_faults: 0,
            lost: 0,
            refusals: 0,
        })
    }
}

impl<R> MioLink<R> {
    /// Offers octets for the connection, but none before the disk has all that was stored.
    fn offer(&mut self, conn: u32, bytes: &[u8]) -> Took
        requires { 0 < length bytes.now }
        ensures deferred { awaits_disk self.old.store ≡ true → Defers conn self.old self.new }
        ensures nowhere { awaits_disk self.old.store ≡ false → HasNone conn self.old → result ≡ Took.Gone }
        ensures later { awaits_disk self.old.store ≡ true → result ≡ Took.Later }
        ensures fits { TookFits (length bytes.now) result }
        // what stays
        ensures counts { (self.new.faults ≡ self.old.faults) × (self.new.store_faults ≡ self.old.store_faults) × (self.new.lost ≡ self.old.lost) × (self.new.refusals ≡ self.old.refusals) }
        ensures store { self.new.store ≡ self.old.store }
        ensures bounds { KeepsBounds self.old self.new }
        ensures connections { KeepsConnections self.old self.new }
    {
        if self.store.awaits_disk() {
            self.sockets.put_off(conn)
        } else {
            self.sockets.write(conn, bytes)
        }
    }
}

impl<R: Net + Clock + Files<File = File>> Link for MioLink<R> {
    ghost use Rattle.std.specs.Prelude.{None};

    ghost journal = { λ _. None };

    ghost plan = { λ _. None };

    ghost faults = { λ link. link.faults };

    ghost store_faults = { λ link. link.store_faults };

    ghost lost = { λ link. link.lost };

    ghost refusals = { λ link. link.refusals };

    /// The clock is the runtime's; where it can't be read no connection is idle.
    fn end_idle_after(&mut self, seconds: u64)
        ensures idle { idle_of self.new ≡ seconds }
        ensures faults { link_faults self.new ≡ link_faults self.old }
        ensures store_faults { store_faults self.new ≡ store_faults self.old }
        ensures lost { lost_connections self.new ≡ lost_connections self.old }
        ensures refusals { refused_calls self.new ≡ refused_calls self.old }
        ensures store { StoreStays self.old self.new }
        ensures sessions { (sessions_of self.new ≡ sessions_of self.old) × (ended_of self.new ≡ ended_of self.old) }
        ensures connections { KeepsConnections self.old self.new }
    {
        self.sockets.end_idle_after(seconds);
    }

    /// Listens at the address, an IP address and a port.
    #[tactic(auto, unfolding(wire_io::specs::link::Telling::OpenTells, wire_io::specs::Answers::LinkCause, wire_io::specs::Answers::RefusalCause, wire_io::specs::Answers::IsPlanned))]
    fn open(&mut self, address: &str, sessions: u64) -> Result<(), NextFault>
        ensures sessions { OnOk result (sessions_of self.new ≡ sessions) }
        ensures tells { OpenTells None address.now sessions result None }
        ensures cause { LinkCause None (link_faults self.old) (link_faults self.new) result }
        ensures refusals { RefusalCause (refused_calls self.old) (refused_calls self.new) result }
        ensures refused { result ≢ Err NextFault.NoMemory → refused_calls self.new ≡ refused_calls self.old }
        ensures store_faults { store_faults self.new ≡ store_faults self.old }
        ensures lost { NeverFalls (lost_connections self.old) (lost_connections self.new) }
        ensures store { StoreStays self.old self.new }
        ensures bounds { (ended_of self.new ≡ ended_of self.old) × (idle_of self.new ≡ idle_of self.old) }
        ensures connections { KeepsConnections self.old self.new }
    {
        match self.sockets.open(&self.rt, address, sessions) {
            Ok(()) => Ok(()),
            Err(error) if error.kind() == ErrorKind::OutOfMemory => {
                self.refusals = raised(self.refusals);
                Err(NextFault::NoMemory)
            }
            Err(_) => {
                self.faults = raised(self.faults);
                Err(NextFault::Failed)
            }
        }
    }

    /// Opens the file of the name, which keeps its mode, or makes one that its owner alone may read and write
    /// (mode 0600), locks it until the link is dropped, and has it and its folder on the disk. `Failed` comes
    /// besides where another process has it locked, where a store was opened before, and always after a fault
    /// of the store.
    #[tactic(auto, unfolding(wire_io::specs::link::Telling::StoreOpenTells, wire_io::specs::Answers::LinkCause, wire_io::specs::Answers::RefusalCause, wire_io::specs::Answers::IsPlanned))]
    fn open_store(&mut self, name: &str) -> Result<(), NextFault>
        ensures ok { OnOk result ((has_store self.new ≡ true) × (waits_for_disk self.new ≡ false)) }
        ensures fault { result ≡ Err NextFault.Failed → StoreFailed self.new }
        ensures memory { result ≡ Err NextFault.NoMemory → StoreStays self.old self.new }
        ensures failed { StoreFailed self.old → result ≡ Err NextFault.Failed }
        ensures tells { StoreOpenTells None name.now result None }
        ensures cause { LinkCause None (store_faults self.old) (store_faults self.new) result }
        ensures refusals { RefusalCause (refused_calls self.old) (refused_calls self.new) result }
        ensures refused { result ≢ Err NextFault.NoMemory → refused_calls self.new ≡ refused_calls self.old }
        ensures faults { link_faults self.new ≡ link_faults self.old }
        ensures lost { NeverFalls (lost_connections self.old) (lost_connections self.new) }
        ensures bounds { KeepsBounds self.old self.new }
        ensures connections { KeepsConnections self.old self.new }
    {
        match self.store.open(&self.rt, name) {
            Ok(()) => Ok(()),
            Err(NextFault::NoMemory) => {
                self.refusals = raised(self.refusals);
                Err(NextFault::NoMemory)
            }
            Err(NextFault::Failed) => {
                self.store_faults = raised(self.store_faults);
                Err(NextFault::Failed)
            }
        }
    }

    /// Cuts the file, and waits until the disk has it. `Failed` comes besides where it has fewer octets than
    /// that, and where no store is open. After a fault nothing is written any more, and every later call of
    /// the store is a fault.
    #[tactic(auto, unfolding(wire_io::specs::link::Telling::NoteTells, wire_io::specs::Answers::LinkCause, wire_io::specs::Answers::RefusalCause, wire_io::specs::Answers::IsPlanned))]
    fn cut_store(&mut self, length: u64) -> Result<(), NextFault>
        ensures ok { OnOk result (StoreStays self.old self.new) }
        ensures err { OnErr result (StoreFailed self.new) }
        ensures failed { StoreFailed self.old → result ≡ Err NextFault.Failed }
        ensures tells { NoteTells None (Item.StoreCut length) result None }
        ensures cause { LinkCause None (store_faults self.old) (store_faults self.new) result }
        ensures refusals { RefusalCause (refused_calls self.old) (refused_calls self.new) result }
        ensures refused { result ≢ Err NextFault.NoMemory → refused_calls self.new ≡ refused_calls self.old }
        ensures faults { link_faults self.new ≡ link_faults self.old }
        ensures lost { NeverFalls (lost_connections self.old) (lost_connections self.new) }
        ensures bounds { KeepsBounds self.old self.new }
        ensures connections { KeepsConnections self.old self.new }
    {
        match self.store.cut(length) {
            Ok(()) => Ok(()),
            Err(_) => {
                self.store_faults = raised(self.store_faults);
                Err(NextFault::Failed)
            }
        }
    }

    /// Appends the octets to the file; the disk has them once `sync_store` has waited for it. Want of memory
    /// of the system is `Failed` too, since a front of the octets may be there. After a fault nothing is
    /// written any more, and every later call of the store is a fault.
    #[tactic(auto, unfolding(wire_io::specs::link::Telling::NoteTells, wire_io::specs::Answers::LinkCause, wire_io::specs::Answers::RefusalCause, wire_io::specs::Answers::IsPlanned))]
    fn store(&mut self, octets: &[u8]) -> Result<(), NextFault>
        ensures ok { OnOk result (has_store self.new ≡ true) }
        ensures waits { OnOk result (waits_for_disk self.new ≡ true) }
        ensures kept { OnOk result (times_put_off self.new ≡ times_put_off self.old) }
        ensures err { OnErr result (StoreFailed self.new) }
        ensures failed { StoreFailed self.old → result ≡ Err NextFault.Failed }
        ensures tells { NoteTells None (Item.Stored octets.now) result None }
        ensures cause { LinkCause None (store_faults self.old) (store_faults self.new) result }
        ensures refusals { RefusalCause (refused_calls self.old) (refused_calls self.new) result }
        ensures refused { result ≢ Err NextFault.NoMemory → refused_calls self.new ≡ refused_calls self.old }
        ensures faults { link_faults self.new ≡ link_faults self.old }
        ensures lost { NeverFalls (lost_connections self.old) (lost_connections self.new) }
        ensures bounds { KeepsBounds self.old self.new }
        ensures connections { KeepsConnections self.old self.new }
    {
        match self.store.append(octets) {
            Ok(()) => Ok(()),
            Err(_) => {
                self.store_faults = raised(self.store_faults);
                Err(NextFault::Failed)
            }
        }
    }

    /// Where octets were stored since the last wait for the disk, waits until it has them, and then lets the
    /// connections go for which octets were put off. The wait is put off while `next` may give an event at
    /// once, up to 256 times.
    #[tactic(auto, unfolding(wire_io::specs::Answers::LinkCause, wire_io::specs::Answers::RefusalCause, wire_io::specs::Answers::IsPlanned))]
    fn sync_store(&mut self) -> Result<(), NextFault>
        ensures ok { OnOk result (has_store self.new ≡ has_store self.old) }
        ensures waits { OnOk result (waits_for_disk self.new ≡ true → waits_for_disk self.old ≡ true) }
        ensures let_go { OnOk result (waits_for_disk self.old ≡ true → waits_for_disk self.new ≡ false → NoneWaits self.new) }
        ensures put_off { OnOk result (waits_for_disk self.new ≡ true → IsPutOffOnce self.old self.new) }
        ensures err { OnErr result (StoreFailed self.new) }
        ensures failed { StoreFailed self.old → result ≡ Err NextFault.Failed }
        ensures cause { LinkCause None (store_faults self.old) (store_faults self.new) result }
        ensures refusals { RefusalCause (refused_calls self.old) (refused_calls self.new) result }
        ensures refused { result ≢ Err NextFault.NoMemory → refused_calls self.new ≡ refused_calls self.old }
        ensures faults { link_faults self.new ≡ link_faults self.old }
        ensures lost { NeverFalls (lost_connections self.old) (lost_connections self.new) }
        ensures bounds { KeepsBounds self.old self.new }
        ensures connections { KeepsConnections self.old self.new }
    {
        if !self.store.awaits_disk() || (self.sockets.have_some() && self.store.put_off()) {
            return Ok(());
        }
        match self.store.sync() {
            Ok(()) => {
                self.sockets.let_go();
                Ok(())
            }
            Err(_) => {
                self.store_faults = raised(self.store_faults);
                Err(NextFault::Failed)
            }
        }
    }

    /// Waits for the next event; Stop once as many connections ended as there were to be sessions. While the
    /// disk is waited for, Idle comes at once where there is no event.
    #[tactic(auto, unfolding(wire_io::specs::link::Telling::NextTells, wire_io::specs::Playing::NextPlays, wire_io::specs::Answers::LinkCause, wire_io::specs::Answers::RefusalCause, wire_io::specs::Answers::IsPlanned))]
    fn next(&mut self, buf: &mut [u8]) -> Result<Heard, NextFault>
        requires { 0 < length buf.old }
        ensures done { IsDone self.old → result ≡ Ok Heard.Stop }
        ensures whose { IfOk result (λ heard. IsDone self.old ⊎ IsOfLink self.new heard) }
        ensures fits { IfOk result (HeardFits (length buf.new)) }
        ensures tells { NextTells None buf.new result None }
        ensures plays { NextPlays None None buf.new result None }
        ensures cause { LinkCause None (link_faults self.old) (link_faults self.new) result }
        ensures refusals { RefusalCause (refused_calls self.old) (refused_calls self.new) result }
        ensures refused { result ≢ Err NextFault.NoMemory → refused_calls self.new ≡ refused_calls self.old }
        ensures store_faults { store_faults self.new ≡ store_faults self.old }
        ensures lost { NeverFalls (lost_connections self.old) (lost_connections self.new) }
        ensures store { StoreStays self.old self.new }
        ensures bounds { KeepsBounds self.old self.new }
        ensures connections { KeepsEach self.old self.new }
    {
        if self.sockets.are_done() {
            return Ok(Heard::Stop);
        }
        let may_wait = !self.store.awaits_disk();
        match self.sockets.next(&self.rt, may_wait, buf) {
            Ok(heard) => Ok(heard),
            Err(error) if error.kind() == ErrorKind::OutOfMemory => {
                self.refusals = raised(self.refusals);
                Err(NextFault::NoMemory)
            }
            Err(_) => {
                self.faults = raised(self.faults);
                Err(NextFault::Failed)
            }
        }
    }

    /// Offers octets; a connection that was reset, or whose peer takes no more, is lost. Until the disk has
    /// all that was stored none are taken, and after a fault of the store none any more: Later then, and once
    /// the disk has it Ready, where the connection is on hold.
    #[tactic(auto, unfolding(wire_io::specs::link::Telling::TookTells, wire_io::specs::Answers::WriteCause, wire_io::specs::Answers::WriteRefusal, wire_io::specs::Answers::IsPlanned))]
    fn write(&mut self, conn: u32, bytes: &[u8]) -> Took
        requires { 0 < length bytes.now }
        ensures deferred { waits_for_disk self.old ≡ true → Defers conn self.old self.new }
        ensures nowhere { waits_for_disk self.old ≡ false → HasNone conn self.old → result ≡ Took.Gone }
        ensures later { waits_for_disk self.old ≡ true → result ≡ Took.Later }
        ensures fits { TookFits (length bytes.now) result }
        ensures tells { TookTells None conn bytes.now result None }
        ensures cause { WriteCause None (lost_connections self.old) (lost_connections self.new) result }
        ensures refusals { WriteRefusal (refused_calls self.old) (refused_calls self.new) result }
        ensures gone { result ≢ Took.Gone → lost_connections self.new ≡ lost_connections self.old }
        ensures refused { result ≢ Took.NoMemory → refused_calls self.new ≡ refused_calls self.old }
        ensures faults { link_faults self.new ≡ link_faults self.old }
        ensures store_faults { store_faults self.new ≡ store_faults self.old }
        ensures store { StoreStays self.old self.new }
        ensures bounds { KeepsBounds self.old self.new }
        ensures connections { KeepsConnections self.old self.new }
    {
        let took = self.offer(conn, bytes);
        match took {
            Took::Gone => self.lost = raised(self.lost),
            Took::NoMemory => self.refusals = raised(self.refusals),
            _ => {}
        }
        took
    }

    #[tactic(auto, unfolding(wire_io::specs::link::Telling::NoteTells, wire_io::specs::Answers::NoteRefusal))]
    fn hold(&mut self, conn: u32) -> Result<(), NoMemory>
        ensures held { Holds true conn self.old self.new }
        ensures tells { NoteTells None (Item.Held conn) result None }
        ensures refusals { NoteRefusal (refused_calls self.old) (refused_calls self.new) result }
        ensures faults { link_faults self.new ≡ link_faults self.old }
        ensures store_faults { store_faults self.new ≡ store_faults self.old }
        ensures lost { NeverFalls (lost_connections self.old) (lost_connections self.new) }
        ensures store { StoreStays self.old self.new }
        ensures bounds { KeepsBounds self.old self.new }
        ensures connections { KeepsConnections self.old self.new }
    {
        self.sockets.set_on_hold(conn, true);
        Ok(())
    }

    #[tactic(auto, unfolding(wire_io::specs::link::Telling::NoteTells, wire_io::specs::Answers::NoteRefusal))]
    fn release(&mut self, conn: u32) -> Result<(), NoMemory>
        ensures released { Holds false conn self.old self.new }
        ensures tells { NoteTells None (Item.Released conn) result None }
        ensures refusals { NoteRefusal (refused_calls self.old) (refused_calls self.new) result }
        ensures faults { link_faults self.new ≡ link_faults self.old }
        ensures store_faults { store_faults self.new ≡ store_faults self.old }
        ensures lost { NeverFalls (lost_connections self.old) (lost_connections self.new) }
        ensures store { StoreStays self.old self.new }
        ensures bounds { KeepsBounds self.old self.new }
        ensures connections { KeepsConnections self.old self.new }
    {
        self.sockets.set_on_hold(conn, false);
        Ok(())
    }

    #[tactic(auto, unfolding(wire_io::specs::link::Telling::NoteTells, wire_io::specs::Answers::NoteRefusal))]
    fn hang_up(&mut self, conn: u32) -> Result<(), NoMemory>
        ensures ended { HangsUp conn self.old self.new }
        ensures tells { NoteTells None (Item.HungUp conn) result None }
        ensures refusals { NoteRefusal (refused_calls self.old) (refused_calls self.new) result }
        ensures faults { link_faults self.new ≡ link_faults self.old }
        ensures store_faults { store_faults self.new ≡ store_faults self.old }
        ensures lost { NeverFalls (lost_connections self.old) (lost_connections self.new) }
        ensures store { StoreStays self.old self.new }
        ensures bounds { (sessions_of self.new ≡ sessions_of self.old) × (idle_of self.new ≡ idle_of self.old) }
    {
        self.sockets.hang_up(conn);
        Ok(())
    }
}

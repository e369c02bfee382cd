//! A link that gives the events of a script.

ghost use Rattle.std.specs.Prelude.{◌≡◌, ◌<◌, ℕ, [], Ok, Err, Some, IfOk, MatchResult, length, slice_get};
ghost use Rattle.plain_values.specs.Counts.{NeverFalls, next_count};
ghost use Rattle.script_text.specs.script.Script.{OpensOnce, AreFilled, IsScript, IsFirstBadLine};
ghost use Rattle.script_text.specs.script.ScriptReading.{IsCause, script_of};
ghost use Rattle.wire_io.specs.declared.journal.Item.{Item};
ghost use Rattle.wire_io.specs.Answers.{HeardFits, TookFits, LinkCause, WriteCause, RefusalCause, WriteRefusal, NoteRefusal};
ghost use Rattle.wire_io.specs.Journal.{is_hung_up, opened_by, taken_of};
ghost use Rattle.wire_io.specs.MemoryForms.{is_listed};
ghost use Rattle.wire_io.specs.Playing.{NextPlays};
ghost use Rattle.wire_io.specs.Rising.{rising};
ghost use Rattle.wire_io.specs.Scripted.{fresh_link, AreApart, LinkOpens, LinkOpensStore, LinkStores, LinkSyncs, LinkHears, LinkWrites, LinkNotes};
ghost use Rattle.wire_io.specs.link.Telling.{OpenTells, StoreOpenTells, NextTells, TookTells, NoteTells};

use crate::listed::is_listed;
use crate::log::Note;
use crate::script::{Script, turn};
use crate::tracked_journal::TrackedJournal;
use crate::{Heard, Link, NextFault, NoMemory, ScriptEvent, ScriptFault, Took};
use plain_values::raised;
use script_text::read_script;
use std::alloc::{AllocError, Global};
use std::marker::Model;

/// A link that gives planned events in their order, each as soon as it is asked for, takes every
/// piece whole, and keeps a journal. It fails, takes nothing now, or finds a connection lost, at
/// chosen calls.
#[derive(Debug, Drop)]
pub struct ScriptLink {
    script: Script,
    journal: TrackedJournal,
    failing: Vec<u64>,
    later: Vec<u64>,
    gone: Vec<u64>,
    calls: u64,
    writes: u64,
    faults: u64,
    store_faults: u64,
    lost: u64,
    refusals: u64,
}

impl Model for ScriptLink {
    ghost use Rattle.wire_io.specs.Scripted.{LinkState, IsPlayable};

    ghost Value = { LinkState };

    ghost view = { λ link. record { journal = link.journal; plan = record { to_come = link.script; failing = link.failing.items; later = link.later.items; gone = link.gone.items }; calls = link.calls; writes = link.writes; faults = link.faults; store_faults = link.store_faults; lost = link.lost; refusals = link.refusals } };

    ghost invariant = { λ link. IsPlayable link.journal link.script };
}

impl ScriptLink {
    /// A link with these events, which open no number twice and have no empty octets. It counts from 0
    /// the calls of `open`, `next`, `open_store`, `cut_store`, `store` and `sync_store` together, and those of
    /// `write` alone. Of the former those in `failing` fail; of the latter those in `later` take nothing now, and
    /// those in `gone` find the connection lost; no number is in both of these. Takes no memory.
    pub fn new(
        alloc: Global,
        events: Vec<ScriptEvent>,
        failing: Vec<u64>,
        later: Vec<u64>,
        gone: Vec<u64>,
    ) -> ScriptLink
        requires once { OpensOnce events.items }
        requires filled { AreFilled events.items }
        requires apart { AreApart later.items gone.items }
        ensures exact { result ≡ fresh_link events.items failing.items later.items gone.items }
    {
        let script = Script::of_list(alloc, events);
        ScriptLink::of_script(alloc, script, failing, later, gone)
    }

    /// A link that gives these events and has done nothing yet.
    fn of_script(
        alloc: Global,
        script: Script,
        failing: Vec<u64>,
        later: Vec<u64>,
        gone: Vec<u64>,
    ) -> ScriptLink
        requires once { OpensOnce script }
        requires filled { AreFilled script }
        ensures exact { result ≡ fresh_link script failing.items later.items gone.items }
    {
        ScriptLink {
            script,
            journal: TrackedJournal::new(alloc),
            failing,
            later,
            gone,
            calls: 0,
            writes: 0,
            faults: 0,
            store_faults: 0,
            lost: 0,
            refusals: 0,
        }
    }

    /// A link with the events of the script text, which never fails and takes every piece. `Bad` comes
    /// exactly where the text is no script, with its first bad line; `NoMemory` may come in place of
    /// any answer.
    pub fn read(alloc: Global, text: &[u8]) -> Result<ScriptLink, ScriptFault>
        ensures ok { IfOk result (λ link. IsScript text.now link.plan.to_come) }
        ensures fresh { IfOk result (λ link. link ≡ fresh_link link.plan.to_come [] [] []) }
        ensures bad { (line : ℕ) → result ≡ Err (ScriptFault.Bad line) → IsFirstBadLine text.now line }
        // the same, as it is computed
        ensures exact { MatchResult result (λ link. script_of text.now ≡ Ok link.plan.to_come) (λ fault. IsCause fault (script_of text.now)) }
    {
        let script = Script::of_recording(alloc, read_script(alloc, text)?);
        let (failing, later, gone) = (Vec::new(alloc), Vec::new(alloc), Vec::new(alloc));
        Ok(ScriptLink::of_script(alloc, script, failing, later, gone))
    }

    /// The octets taken for the connection so far.
    pub fn said_of(&self, conn: u32) -> &[u8]
        ensures exact { result.now ≡ taken_of conn self.now.journal }
    {
        self.journal.said_of(conn)
    }

    /// Whether the connection was hung up.
    pub fn hung_up(&self, conn: u32) -> bool
        ensures exact { result ≡ is_hung_up conn self.now.journal }
    {
        self.journal.hung_up(conn)
    }

    /// The number at the index, from 0 and in rising order, of those that events have opened so far;
    /// None exactly past the last. Each call goes through all of them; `opened` gives them at once.
    pub fn opened_at(&self, index: usize) -> Option<u32>
        ensures exact { result ≡ slice_get (rising (opened_by self.now.journal)) index }
    {
        self.journal.opened_at(index)
    }

    /// The numbers that events have opened so far, in rising order. `AllocError` comes for want of
    /// memory alone.
    pub fn opened(&self) -> Result<Vec<u32>, AllocError>
        ensures ok { IfOk result (λ numbers. numbers.items ≡ rising (opened_by self.now.journal)) }
    {
        self.journal.numbers()
    }

    /// Counts a call of `open`, `next` or the store, and says whether it fails.
    fn fails(&mut self) -> bool
        ensures exact { result ≡ is_listed self.old.calls self.old.plan.failing }
        ensures kept { self.new ≡ record self.old { calls = next_count self.old.calls } }
    {
        let call = self.calls;
        self.calls = raised(call);
        is_listed(call, &self.failing)
    }

    #[tactic(auto, unfolding(crate::specs::link::Telling::NextTells, crate::specs::Playing::NextPlays))]
    /// Gives the next event.
    fn play(&mut self, buf: &mut [u8]) -> Result<Heard, NoMemory>
        requires { 0 < length buf.old }
        ensures fits { IfOk result (HeardFits (length buf.new)) }
        ensures tells { NextTells (Some self.old.journal) buf.new result (Some self.new.journal) }
        ensures plays { NextPlays (Some self.old.journal) (Some self.old.plan) buf.new result (Some self.new.plan) }
        ensures kept { self.new ≡ record self.old { journal = self.new.journal; plan = self.new.plan } }
    {
        let len = buf.len();
        let heard = turn(&self.script, &self.journal, buf);
        self.journal.hear(heard, buf)?;
        self.script.pass(heard, len);
        Ok(heard)
    }
}

impl Link for ScriptLink {
    ghost use Rattle.std.specs.Prelude.{Some};

    ghost journal = { λ link. Some link.journal };

    ghost plan = { λ link. Some link.plan };

    ghost faults = { λ link. link.faults };

    ghost store_faults = { λ link. link.store_faults };

    ghost lost = { λ link. link.lost };

    ghost refusals = { λ link. link.refusals };

    /// Does nothing: all that comes is planned.
    fn end_idle_after(&mut self, _seconds: u64)
        ensures tells { Some self.new.journal ≡ Some self.old.journal }
        ensures plan { Some self.new.plan ≡ Some self.old.plan }
        ensures faults { self.new.faults ≡ self.old.faults }
        ensures store_faults { self.new.store_faults ≡ self.old.store_faults }
        ensures lost { self.new.lost ≡ self.old.lost }
        ensures refusals { self.new.refusals ≡ self.old.refusals }
        ensures exact { self.new ≡ self.old }
    {}

    #[tactic(auto, unfolding(crate::specs::link::Telling::OpenTells, crate::specs::Answers::LinkCause, crate::specs::Answers::RefusalCause, crate::specs::Answers::IsPlanned, crate::specs::Scripted::LinkOpens))]
    /// Opens, or fails at the chosen calls.
    fn open(&mut self, address: &str, sessions: u64) -> Result<(), NextFault>
        ensures tells { OpenTells (Some self.old.journal) address.now sessions result (Some self.new.journal) }
        ensures cause { LinkCause (Some self.old.plan) self.old.faults self.new.faults result }
        ensures refusals { RefusalCause self.old.refusals self.new.refusals result }
        ensures plan { Some self.new.plan ≡ Some self.old.plan }
        ensures store_faults { self.new.store_faults ≡ self.old.store_faults }
        ensures lost { NeverFalls self.old.lost self.new.lost }
        ensures exact { LinkOpens self.old address.now sessions result self.new }
    {
        if self.fails() {
            if self.journal.open(address, sessions, false).is_err() {
                self.refusals = raised(self.refusals);
                return Err(NextFault::NoMemory);
            }
            self.faults = raised(self.faults);
            return Err(NextFault::Failed);
        }
        if self.journal.open(address, sessions, true).is_err() {
            self.refusals = raised(self.refusals);
            return Err(NextFault::NoMemory);
        }
        Ok(())
    }

    #[tactic(auto, unfolding(crate::specs::link::Telling::StoreOpenTells, crate::specs::Answers::LinkCause, crate::specs::Answers::RefusalCause, crate::specs::Answers::IsPlanned, crate::specs::Scripted::LinkOpensStore))]
    /// Notes the store as opened, or fails at the chosen calls. Nothing is written to any file.
    fn open_store(&mut self, name: &str) -> Result<(), NextFault>
        ensures tells { StoreOpenTells (Some self.old.journal) name.now result (Some self.new.journal) }
        ensures cause { LinkCause (Some self.old.plan) self.old.store_faults self.new.store_faults result }
        ensures refusals { RefusalCause self.old.refusals self.new.refusals result }
        ensures plan { Some self.new.plan ≡ Some self.old.plan }
        ensures faults { self.new.faults ≡ self.old.faults }
        ensures lost { NeverFalls self.old.lost self.new.lost }
        ensures exact { LinkOpensStore self.old name.now result self.new }
    {
        if self.fails() {
            if self.journal.open_store(name, false).is_err() {
                self.refusals = raised(self.refusals);
                return Err(NextFault::NoMemory);
            }
            self.store_faults = raised(self.store_faults);
            return Err(NextFault::Failed);
        }
        if self.journal.open_store(name, true).is_err() {
            self.refusals = raised(self.refusals);
            return Err(NextFault::NoMemory);
        }
        Ok(())
    }

    #[tactic(auto, unfolding(crate::specs::link::Telling::NoteTells, crate::specs::Answers::LinkCause, crate::specs::Answers::RefusalCause, crate::specs::Answers::IsPlanned, crate::specs::Scripted::LinkStores))]
    /// Notes the store as cut, or fails at the chosen calls. No file is cut.
    fn cut_store(&mut self, length: u64) -> Result<(), NextFault>
        ensures tells { NoteTells (Some self.old.journal) (Item.StoreCut length) result (Some self.new.journal) }
        ensures cause { LinkCause (Some self.old.plan) self.old.store_faults self.new.store_faults result }
        ensures refusals { RefusalCause self.old.refusals self.new.refusals result }
        ensures plan { Some self.new.plan ≡ Some self.old.plan }
        ensures faults { self.new.faults ≡ self.old.faults }
        ensures lost { NeverFalls self.old.lost self.new.lost }
        ensures exact { LinkStores self.old (Item.StoreCut length) result self.new }
    {
        if self.fails() {
            self.store_faults = raised(self.store_faults);
            return Err(NextFault::Failed);
        }
        if self.journal.cut_store(length).is_err() {
            self.refusals = raised(self.refusals);
            return Err(NextFault::NoMemory);
        }
        Ok(())
    }

    #[tactic(auto, unfolding(crate::specs::link::Telling::NoteTells, crate::specs::Answers::LinkCause, crate::specs::Answers::RefusalCause, crate::specs::Answers::IsPlanned, crate::specs::Scripted::LinkStores))]
    /// Notes the octets as stored, or fails at the chosen calls. Nothing is written to any file.
    fn store(&mut self, octets: &[u8]) -> Result<(), NextFault>
        ensures tells { NoteTells (Some self.old.journal) (Item.Stored octets.now) result (Some self.new.journal) }
        ensures cause { LinkCause (Some self.old.plan) self.old.store_faults self.new.store_faults result }
        ensures refusals { RefusalCause self.old.refusals self.new.refusals result }
        ensures plan { Some self.new.plan ≡ Some self.old.plan }
        ensures faults { self.new.faults ≡ self.old.faults }
        ensures lost { NeverFalls self.old.lost self.new.lost }
        ensures exact { LinkStores self.old (Item.Stored octets.now) result self.new }
    {
        if self.fails() {
            self.store_faults = raised(self.store_faults);
            return Err(NextFault::Failed);
        }
        if self.journal.note(Note::Stored, 0, octets).is_err() {
            self.refusals = raised(self.refusals);
            return Err(NextFault::NoMemory);
        }
        Ok(())
    }

    #[tactic(auto, unfolding(crate::specs::Answers::LinkCause, crate::specs::Answers::RefusalCause, crate::specs::Answers::IsPlanned, crate::specs::Scripted::LinkSyncs))]
    /// Does nothing, or fails at the chosen calls.
    fn sync_store(&mut self) -> Result<(), NextFault>
        ensures tells { Some self.new.journal ≡ Some self.old.journal }
        ensures cause { LinkCause (Some self.old.plan) self.old.store_faults self.new.store_faults result }
        ensures refusals { RefusalCause self.old.refusals self.new.refusals result }
        ensures plan { Some self.new.plan ≡ Some self.old.plan }
        ensures faults { self.new.faults ≡ self.old.faults }
        ensures lost { NeverFalls self.old.lost self.new.lost }
        ensures exact { LinkSyncs self.old result self.new }
    {
        if self.fails() {
            self.store_faults = raised(self.store_faults);
            return Err(NextFault::Failed);
        }
        Ok(())
    }

    #[tactic(auto, unfolding(crate::specs::link::Telling::NextTells, crate::specs::Playing::NextPlays, crate::specs::Answers::LinkCause, crate::specs::Answers::RefusalCause, crate::specs::Answers::IsPlanned, crate::specs::Scripted::LinkHears))]
    /// Gives the next event of the script, or fails at the chosen calls.
    fn next(&mut self, buf: &mut [u8]) -> Result<Heard, NextFault>
        requires { 0 < length buf.old }
        ensures fits { IfOk result (HeardFits (length buf.new)) }
        ensures tells { NextTells (Some self.old.journal) buf.new result (Some self.new.journal) }
        ensures plays { NextPlays (Some self.old.journal) (Some self.old.plan) buf.new result (Some self.new.plan) }
        ensures cause { LinkCause (Some self.old.plan) self.old.faults self.new.faults result }
        ensures refusals { RefusalCause self.old.refusals self.new.refusals result }
        ensures store_faults { self.new.store_faults ≡ self.old.store_faults }
        ensures lost { NeverFalls self.old.lost self.new.lost }
        ensures exact { LinkHears self.old result self.new }
    {
        if self.fails() {
            self.faults = raised(self.faults);
            return Err(NextFault::Failed);
        }
        let Ok(heard) = self.play(buf) else {
            self.refusals = raised(self.refusals);
            return Err(NextFault::NoMemory);
        };
        Ok(heard)
    }

    #[tactic(auto, unfolding(crate::specs::link::Telling::TookTells, crate::specs::Answers::WriteCause, crate::specs::Answers::WriteRefusal, crate::specs::Answers::IsPlanned, crate::specs::Scripted::LinkWrites))]
    /// Takes the piece whole, or answers Later or Gone at the chosen calls.
    fn write(&mut self, conn: u32, bytes: &[u8]) -> Took
        requires { 0 < length bytes.now }
        ensures fits { TookFits (length bytes.now) result }
        ensures tells { TookTells (Some self.old.journal) conn bytes.now result (Some self.new.journal) }
        ensures cause { WriteCause (Some self.old.plan) self.old.lost self.new.lost result }
        ensures refusals { WriteRefusal self.old.refusals self.new.refusals result }
        ensures plan { Some self.new.plan ≡ Some self.old.plan }
        ensures faults { self.new.faults ≡ self.old.faults }
        ensures store_faults { self.new.store_faults ≡ self.old.store_faults }
        ensures exact { LinkWrites self.old conn bytes.now result self.new }
    {
        let call = self.writes;
        self.writes = raised(call);
        if self.later.contains(&call) {
            if self.journal.note(Note::Later, conn, &[]).is_err() {
                self.refusals = raised(self.refusals);
                return Took::NoMemory;
            }
            return Took::Later;
        }
        if self.gone.contains(&call) {
            if self.journal.note(Note::Gone, conn, &[]).is_err() {
                self.refusals = raised(self.refusals);
                return Took::NoMemory;
            }
            self.lost = raised(self.lost);
            return Took::Gone;
        }
        if self.journal.take(conn, bytes).is_err() {
            self.refusals = raised(self.refusals);
            return Took::NoMemory;
        }
        Took::Took(bytes.len())
    }

    #[tactic(auto, unfolding(crate::specs::link::Telling::NoteTells, crate::specs::Answers::NoteRefusal, crate::specs::Scripted::LinkNotes))]
    fn hold(&mut self, conn: u32) -> Result<(), NoMemory>
        ensures tells { NoteTells (Some self.old.journal) (Item.Held conn) result (Some self.new.journal) }
        ensures refusals { NoteRefusal self.old.refusals self.new.refusals result }
        ensures plan { Some self.new.plan ≡ Some self.old.plan }
        ensures faults { self.new.faults ≡ self.old.faults }
        ensures store_faults { self.new.store_faults ≡ self.old.store_faults }
        ensures lost { NeverFalls self.old.lost self.new.lost }
        ensures exact { LinkNotes self.old (Item.Held conn) result self.new }
    {
        if self.journal.hold(conn).is_err() {
            self.refusals = raised(self.refusals);
            return Err(AllocError);
        }
        Ok(())
    }

    #[tactic(auto, unfolding(crate::specs::link::Telling::NoteTells, crate::specs::Answers::NoteRefusal, crate::specs::Scripted::LinkNotes))]
    fn release(&mut self, conn: u32) -> Result<(), NoMemory>
        ensures tells { NoteTells (Some self.old.journal) (Item.Released conn) result (Some self.new.journal) }
        ensures refusals { NoteRefusal self.old.refusals self.new.refusals result }
        ensures plan { Some self.new.plan ≡ Some self.old.plan }
        ensures faults { self.new.faults ≡ self.old.faults }
        ensures store_faults { self.new.store_faults ≡ self.old.store_faults }
        ensures lost { NeverFalls self.old.lost self.new.lost }
        ensures exact { LinkNotes self.old (Item.Released conn) result self.new }
    {
        if self.journal.release(conn).is_err() {
            self.refusals = raised(self.refusals);
            return Err(AllocError);
        }
        Ok(())
    }

    #[tactic(auto, unfolding(crate::specs::link::Telling::NoteTells, crate::specs::Answers::NoteRefusal, crate::specs::Scripted::LinkNotes))]
    fn hang_up(&mut self, conn: u32) -> Result<(), NoMemory>
        ensures tells { NoteTells (Some self.old.journal) (Item.HungUp conn) result (Some self.new.journal) }
        ensures refusals { NoteRefusal self.old.refusals self.new.refusals result }
        ensures plan { Some self.new.plan ≡ Some self.old.plan }
        ensures faults { self.new.faults ≡ self.old.faults }
        ensures store_faults { self.new.store_faults ≡ self.old.store_faults }
        ensures lost { NeverFalls self.old.lost self.new.lost }
        ensures exact { LinkNotes self.old (Item.HungUp conn) result self.new }
    {
        if self.journal.hang_up(conn).is_err() {
            self.refusals = raised(self.refusals);
            return Err(AllocError);
        }
        Ok(())
    }
}

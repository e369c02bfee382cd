//! One connection of the system.

ghost use Rattle.std.specs.Prelude.{◌≡◌, true, false, ℕ, ◌+◌, ◌<◌, ◌≤◌, [], length, Some, IfSome};
ghost use Rattle.fair_pieces.specs.Cuts.{cut_at};
ghost use Rattle.fair_pieces.specs.Keeping.{behind_cut};
ghost use Rattle.wire_io.specs.Answers.{HeardFits, TookFits};
ghost use Rattle.mio_link.specs.Cutting.{HearsCut, KeepsCut, EndsAsSaid};
ghost use Rattle.mio_link.specs.Numbers.{IsOf};
ghost use Rattle.mio_link.specs.Offering.{Puts};

use crate::moment::Moment;
use fair_pieces::Kept;
use mio::event::Event;
use mio::net::TcpStream;
use std::alloc::Global;
use std::io::{ErrorKind, Read, Write};
use wire_io::{Heard, Took};

/// A connection, and what the system's reports and its own calls last said of it.
#[derive(Drop)]
pub(crate) struct Connection<S = TcpStream> {
    number: u32,
    stream: S,
    // what was read of its octets and not given yet
    kept: Kept,
    // when octets of it were last read, or on hold taken, or it was put on hold or released
    last: Moment,
    // it waits for another to be hung up before it is opened
    is_newcomer: bool,
    may_read: bool,
    may_write: bool,
    // the peer was reported to send no more
    is_read_closed: bool,
    // its peer was silent for too long
    is_idle: bool,
    // it was heard that the connection ended
    is_ended: bool,
    is_on_hold: bool,
    // octets were offered that wait for the disk
    is_put_off: bool,
    is_lost: bool,
}

impl Connection {
    /// A connection that was just accepted, and isn't opened yet. It may be written to; a report says
    /// when it may be read.
    pub(crate) fn new(alloc: Global, number: u32, stream: TcpStream, now: Moment) -> Connection
        ensures { result.number ≡ number }
    {
        Connection {
            number,
            stream,
            kept: Kept::new(alloc),
            last: now,
            is_newcomer: true,
            may_read: false,
            may_write: true,
            is_read_closed: false,
            is_idle: false,
            is_ended: false,
            is_on_hold: false,
            is_put_off: false,
            is_lost: false,
        }
    }

    pub(crate) fn number(&self) -> u32
        ensures { result ≡ self.now.number }
    {
        self.number
    }

    /// When something of it was last heard.
    pub(crate) fn last(&self) -> Moment {
        self.last
    }

    /// Opens it, and gives its number.
    pub(crate) fn open(&mut self) -> u32
        ensures exact { result ≡ self.old.number }
        ensures kept { self.new.number ≡ self.old.number }
    {
        self.is_newcomer = false;
        self.number
    }

    /// Puts it on hold, or releases it.
    pub(crate) fn set_on_hold(&mut self, is_on_hold: bool, now: Moment)
        ensures exact { self.new.is_on_hold ≡ is_on_hold }
        ensures number { self.new.number ≡ self.old.number }
    {
        if is_on_hold != self.is_on_hold {
            self.is_on_hold = is_on_hold;
            self.is_idle = false;
            self.last = now;
        }
    }

    /// Whether nothing is due to it: nothing can be given of it before its peer sends something, and
    /// nothing is to be sent to it.
    pub(crate) fn is_silent(&self) -> bool {
        let is_open = !self.is_newcomer && !self.is_ended;
        is_open && !self.is_on_hold && !self.may_read && self.kept.is_waiting()
    }

    /// Ends it: it is read no more.
    pub(crate) fn set_ended(&mut self)
        ensures { self.new.number ≡ self.old.number }
    {
        self.is_ended = true;
    }

    /// Notes that for so many seconds nothing of it was heard, and says whether there is something to be
    /// heard of that: where nothing is due to it that it ended; on hold that it is lost.
    pub(crate) fn look(&mut self, second: u64, limit: u64) -> bool
        ensures late { result ≡ true → self.old.last.second + limit < second }
        ensures number { self.new.number ≡ self.old.number }
    {
        if second.saturating_sub(self.last.second) <= limit {
            return false;
        }
        if self.is_on_hold && !self.may_write {
            self.is_lost = true;
            self.may_write = true;
            return true;
        }
        self.is_idle = self.is_silent();
        self.is_idle
    }

    /// Notes what the system reports. A connection that failed may be read and written: the call then
    /// says so.
    pub(crate) fn note(&mut self, event: &Event)
        ensures number { self.new.number ≡ self.old.number }
    {
        if event.is_readable() || event.is_read_closed() || event.is_error() {
            self.may_read = true;
        }
        if event.is_writable() || event.is_write_closed() || event.is_error() {
            self.may_write = true;
        }
        if event.is_read_closed() {
            self.is_read_closed = true;
        }
    }

    /// What is to be heard of the connection now: on hold, that it may take octets again; otherwise its
    /// octets or its end.
    pub(crate) fn hear(&mut self, now: Moment, buf: &mut [u8]) -> Option<Heard>
        requires room { 0 < length buf.old }
        ensures whose { IfSome result (IsOf (Some self.new.number)) }
        ensures fits { IfSome result (HeardFits (length buf.new)) }
        ensures number { self.new.number ≡ self.old.number }
    {
        if self.is_newcomer {
            None
        } else if !self.is_on_hold {
            self.listen(now, buf)
        } else {
            self.hear_ready()
        }
    }

    /// On hold, that it may take octets again, unless it waits for the disk.
    pub(crate) fn hear_ready(&self) -> Option<Heard>
        ensures whose { IfSome result (IsOf (Some self.now.number)) }
        ensures ready { IfSome result (λ heard. (self.now.is_on_hold ≡ true) × (self.now.may_write ≡ true) × (self.now.is_put_off ≡ false)) }
        ensures fits { (len : ℕ) → IfSome result (HeardFits len) }
    {
        if self.is_on_hold && self.may_write && !self.is_put_off {
            Some(Heard::Ready(self.number))
        } else {
            None
        }
    }

    /// What was kept of its octets, as far as it can be given; otherwise what is read; otherwise the end
    /// of one that was silent for too long.
    fn listen(&mut self, now: Moment, buf: &mut [u8]) -> Option<Heard>
        requires room { 0 < length buf.old }
        ensures whose { IfSome result (IsOf (Some self.new.number)) }
        ensures fits { IfSome result (HeardFits (length buf.new)) }
        ensures number { self.new.number ≡ self.old.number }
    {
        let given = self.kept.give(buf);
        if given > 0 {
            return Some(Heard::Bytes(self.number, given));
        }
        if self.is_ended {
            None
        } else if self.may_read {
            self.read(now, buf)
        } else if self.is_idle {
            self.is_ended = true;
            Some(Heard::Ended(self.number))
        } else {
            None
        }
    }

    /// Reads octets behind those that are kept, or the end. A piece that leaves room in the buffer was
    /// the last for now, unless the peer was reported to send no more. A connection that can't be read is
    /// lost, and its end is heard.
    fn read(&mut self, now: Moment, buf: &mut [u8]) -> Option<Heard>
        requires room { 0 < length buf.old }
        ensures whose { IfSome result (IsOf (Some self.new.number)) }
        ensures fits { IfSome result (HeardFits (length buf.new)) }
        ensures number { self.new.number ≡ self.old.number }
    {
        let had = self.kept.copy(buf);
        match self.stream.read(&mut buf[had..]) {
            Ok(0) => Some(self.finish(&buf[..had])),
            Ok(count) => {
                let all = had + count;
                self.may_read = all == buf.len() || self.is_read_closed;
                Some(self.take(now, &buf[..all]))
            }
            Err(error) => match error.kind() {
                ErrorKind::WouldBlock => {
                    self.may_read = false;
                    None
                }
                ErrorKind::Interrupted | ErrorKind::OutOfMemory => Some(Heard::Idle),
                _ => {
                    self.is_lost = true;
                    self.is_ended = true;
                    Some(Heard::Ended(self.number))
                }
            },
        }
    }

    /// What is heard where no octet comes any more: these first, which are all that is kept, and then the
    /// end.
    fn finish(&mut self, octets: &[u8]) -> Heard
        ensures whose { IsOf (Some self.new.number) result }
        ensures forgets { 0 < length octets.now → self.new.kept.octets ≡ [] }
        ensures fits { (len : ℕ) → length octets.now ≤ len → HeardFits len result }
        ensures number { self.new.number ≡ self.old.number }
    {
        if octets.len() > 0 {
            self.kept.forget();
            return Heard::Bytes(self.number, octets.len());
        }
        self.is_ended = true;
        Heard::Ended(self.number)
    }

    /// What is heard of octets that were read, with those that were kept at their front: as many as the
    /// cut gives; the others are kept. Where it gives none, more is waited for; where there is no memory to
    /// keep them, the connection ends.
    fn take(&mut self, now: Moment, octets: &[u8]) -> Heard
        ensures whose { IsOf (Some self.new.number) result }
        ensures cut { HearsCut (cut_at self.old.kept.left octets.now).given result }
        ensures kept { KeepsCut (behind_cut self.old.kept.left octets.now) result self.new.kept }
        ensures ended { EndsAsSaid result self.old.is_ended self.new.is_ended }
        ensures fits { (len : ℕ) → length octets.now ≤ len → HeardFits len result }
        ensures number { self.new.number ≡ self.old.number }
    {
        self.last = now;
        self.is_idle = false;
        match self.kept.keep(octets) {
            Ok(0) => Heard::Idle,
            Ok(given) => Heard::Bytes(self.number, given),
            Err(_) => {
                self.is_ended = true;
                Heard::Ended(self.number)
            }
        }
    }

    /// Notes that octets were offered that wait for the disk: until it is let go it isn't heard that it may
    /// take some.
    pub(crate) fn put_off(&mut self)
        ensures exact { self.new.is_put_off ≡ true }
        ensures number { self.new.number ≡ self.old.number }
    {
        self.is_put_off = true;
    }

    /// Lets it go, and says whether it waited for the disk: then it is offered octets again, whatever the
    /// system took of it before.
    pub(crate) fn let_go(&mut self) -> bool
        ensures exact { self.new.is_put_off ≡ false }
        ensures number { self.new.number ≡ self.old.number }
    {
        if !self.is_put_off {
            return false;
        }
        self.is_put_off = false;
        self.may_write = true;
        true
    }
}

impl<S: Write> Connection<S> {
    /// Offers octets. Where the system took none before, it isn't asked again until it reports that it
    /// may take some. A reset, a broken pipe and every other refusal that doesn't pass is a lost
    /// connection.
    pub(crate) fn write(&mut self, now: Moment, bytes: &[u8]) -> Took
        requires { 0 < length bytes.now }
        ensures puts { Puts (S.contents self.old.stream) (S.contents self.new.stream) bytes.now result }
        ensures fits { TookFits (length bytes.now) result }
        ensures number { self.new.number ≡ self.old.number }
    {
        if self.is_lost {
            Took::Gone
        } else if self.may_write {
            self.offer(now, bytes)
        } else {
            Took::Later
        }
    }

    /// Offers octets to the system.
    fn offer(&mut self, now: Moment, bytes: &[u8]) -> Took
        requires { 0 < length bytes.now }
        ensures puts { Puts (S.contents self.old.stream) (S.contents self.new.stream) bytes.now result }
        ensures fits { TookFits (length bytes.now) result }
        ensures number { self.new.number ≡ self.old.number }
    {
        match self.stream.write(bytes) {
            Ok(count) if count > 0 => {
                if self.is_on_hold {
                    self.last = now;
                }
                Took::Took(count)
            }
            Ok(_) => Took::Later,
            Err(error) => match error.kind() {
                ErrorKind::WouldBlock => {
                    self.may_write = false;
                    Took::Later
                }
                ErrorKind::Interrupted => Took::Later,
                ErrorKind::OutOfMemory => Took::NoMemory,
                _ => {
                    self.is_lost = true;
                    Took::Gone
                }
            },
        }
    }
}

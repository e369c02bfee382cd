//! All sockets of a link: events are found by going around the places of which something may be heard,
//! the listening socket being one place beside those of connections.

ghost use Rattle.std.specs.Prelude.{◌≡◌, ◌↔◌, ℕ, ◌<◌, length, true, IfOk, OnOk, IfSome};
ghost use Rattle.wire_io.specs.Answers.{HeardFits, TookFits};
ghost use Rattle.mio_link.specs.Numbers.{number_at, AllStand, AreLetGo, IsNowhere, IsOfOne, IsOpenedAs, PutsOff, SetsHold, Stand, TakesNext, WaitsFor};
ghost use Rattle.mio_link.specs.Sessions.{HadSessions, IsHungUp, BoundsStay};

use crate::connection::Connection;
use crate::connections::{Connections, PLACES};
use crate::moment::Moment;
use crate::ready::Ready;
use crate::server::{LISTENER, Server};
use crate::turns::Turns;
use mio::Events;
use plain_values::raised;
use std::alloc::{AllocError, Global};
use std::io;
use std::io::ErrorKind;
use std::net::{Net, SocketAddr};
use std::time::{Clock, Instant};
use wire_io::{Heard, Took};

/// How many events are heard at most before the system is asked for reports again.
const EVENTS: u32 = 64;

/// After how many microseconds it is asked again, however few events were heard: one may take long to answer.
const LATE: u128 = 1_000;

/// The sockets, and how far they have come.
#[derive(Drop)]
pub(crate) struct Sockets {
    alloc: Global,
    server: Option<Server>,
    connections: Connections,
    events: Events,
    // the places that were reported or changed, and not asked in vain since
    turns: Turns,
    // the places of connections that were let go, and weren't told so yet
    untold: Ready,
    // how many events were heard since the system was asked
    heard: u32,
    // the number of the next connection, as long as there is one
    number: Option<u32>,
    // the place of a connection that is opened once another was hung up
    newcomer: Option<usize>,
    now: Moment,
    // when the clock was first read
    start: Option<Instant>,
    // when the system was asked last, if the clock could be read then
    looked: Option<Instant>,
    // for how many seconds connections may be idle, 0 where that has no bound
    idle: u64,
    // after how many ended connections no event comes any more, 0 where there is no such number
    sessions: u64,
    ended: u64,
}

impl Sockets {
    /// No socket is open. Later calls take no memory of their own.
    pub(crate) fn new(alloc: Global) -> Result<Sockets, AllocError>
        ensures { IfOk result (λ sockets. (sockets.sessions ≡ 0) × (sockets.ended ≡ 0) × (sockets.idle ≡ 0)) }
    {
        Ok(Sockets {
            alloc,
            server: None,
            connections: Connections::new(alloc)?,
            events: Events::with_capacity(alloc, PLACES + 1)?,
            turns: Turns::new(),
            untold: Ready::new(),
            heard: 0,
            number: Some(1),
            newcomer: None,
            now: Moment { turn: 0, second: 0 },
            start: None,
            looked: None,
            idle: 0,
            sessions: 0,
            ended: 0,
        })
    }

    /// Has connections ended that are idle for more than so many seconds.
    pub(crate) fn end_idle_after(&mut self, seconds: u64)
        ensures { self.new ≡ record self.old { idle = seconds } }
    {
        self.idle = seconds;
    }

    /// Listens at the address, an IP address and a port, for so many sessions. Sockets open once.
    pub(crate) fn open<R: Net>(&mut self, rt: &R, address: &str, sessions: u64) -> io::Result<()>
        ensures sessions { OnOk result (self.new.sessions ≡ sessions) }
        ensures bounds { (self.new.ended ≡ self.old.ended) × (self.new.idle ≡ self.old.idle) }
        ensures numbers { AllStand self.old.connections self.new.connections }
    {
        if self.server.is_some() {
            return Err(io::Error::from(ErrorKind::AddrInUse));
        }
        let Ok(address) = address.parse::<SocketAddr>() else {
            return Err(io::Error::from(ErrorKind::InvalidInput));
        };
        self.server = Some(Server::open(rt, address)?);
        self.sessions = sessions;
        Ok(())
    }

    /// Whether as many connections ended as there were to be sessions.
    pub(crate) fn are_done(&self) -> bool
        ensures { (result ≡ true) ↔ HadSessions self.entry.now }
    {
        self.sessions > 0 && self.sessions <= self.ended
    }

    /// Whether an event may be had now without asking the system.
    pub(crate) fn have_some(&self) -> bool {
        let may_hear = !self.turns.is_empty() || self.untold.next(0).is_some();
        may_hear && !self.are_done()
    }

    /// The next event: one that can be had now, or one that the system has reported by now; where none can,
    /// and it may be waited for, one that the system reports next. Idle where its reports bring none.
    pub(crate) fn next<R: Clock>(
        &mut self,
        rt: &R,
        may_wait: bool,
        buf: &mut [u8],
    ) -> io::Result<Heard>
        requires room { 0 < length buf.old }
        ensures whose { IfOk result (IsOfOne self.new.connections) }
        ensures fits { IfOk result (HeardFits (length buf.new)) }
        ensures bounds { BoundsStay self.old self.new }
        ensures stand { Stand self.old.connections self.new.connections }
    {
        if self.heard >= EVENTS || self.is_late(rt) {
            self.look(rt)?;
        }
        if let Some(heard) = self.hear(buf) {
            return Ok(heard);
        }
        if may_wait {
            self.wait(rt)?;
        } else {
            self.look(rt)?;
        }
        match self.hear(buf) {
            Some(heard) => Ok(heard),
            None => Ok(Heard::Idle),
        }
    }

    /// Whether the events since the system was asked took so long that it is to be asked again. Where the
    /// clock can't be read it is asked before each event.
    fn is_late<R: Clock>(&self, rt: &R) -> bool {
        let Some(looked) = self.looked else {
            return true;
        };
        match Instant::now(rt) {
            Ok(now) => now.duration_since(looked).as_micros() >= LATE,
            Err(_) => true,
        }
    }

    /// An event that can be had now: first that connections which were let go may take octets, so that none
    /// is put off again before; then the places are asked in turn, from the one behind the last. One of which
    /// nothing is to be heard isn't asked again before it is reported or changed.
    fn hear(&mut self, buf: &mut [u8]) -> Option<Heard>
        requires room { 0 < length buf.old }
        ensures whose { IfSome result (IsOfOne self.new.connections) }
        ensures fits { IfSome result (HeardFits (length buf.new)) }
        ensures bounds { BoundsStay self.old self.new }
        ensures stand { Stand self.old.connections self.new.connections }
    {
        self.heard = self.heard.saturating_add(1);
        self.now.turn = self.now.turn.saturating_add(1);
        if let Some(heard) = self.hear_let_go() {
            return Some(heard);
        }
        for _ in 0..PLACES + 1 {
            let place = self.turns.take()?;
            if let Some(heard) = self.ask(place, buf) {
                return Some(heard);
            }
            self.turns.remove(place);
        }
        None
    }

    /// Of the connections that were let go, the next that is still on hold may take octets.
    fn hear_let_go(&mut self) -> Option<Heard>
        ensures whose { IfSome result (IsOfOne self.new.connections) }
        ensures fits { (len : ℕ) → IfSome result (HeardFits len) }
        ensures bounds { BoundsStay self.old self.new }
        ensures numbers { AllStand self.old.connections self.new.connections }
    {
        for _ in 0..PLACES {
            let place = self.untold.next(0)?;
            self.untold.remove(place);
            if let Some(ready) = self.connections.hear_ready(place) {
                self.turns.add(place);
                return Some(ready);
            }
        }
        None
    }

    /// What is to be heard of the place now.
    fn ask(&mut self, place: usize, buf: &mut [u8]) -> Option<Heard>
        requires room { 0 < length buf.old }
        ensures whose { IfSome result (IsOfOne self.new.connections) }
        ensures fits { IfSome result (HeardFits (length buf.new)) }
        ensures bounds { BoundsStay self.old self.new }
        ensures stand { Stand self.old.connections self.new.connections }
    {
        if place != LISTENER {
            return self.connections.hear(place, self.now, buf);
        }
        match self.newcomer {
            Some(newcomer) => self.admit(newcomer),
            None => self.accept(),
        }
    }

    /// Accepts a connection that waits, where a place is free and a number left. Where it takes the last
    /// place, the connection that was silent longest is ended first, if there is one to which nothing is
    /// due; the other is opened once a place is free.
    fn accept(&mut self) -> Option<Heard>
        ensures number { IfSome result (TakesNext self.old.number self.new.number) }
        ensures waits { IfSome result (WaitsFor self.old.number self.new.newcomer self.new.connections) }
        ensures whose { IfSome result (IsOfOne self.new.connections) }
        ensures fits { (len : ℕ) → IfSome result (HeardFits len) }
        ensures bounds { BoundsStay self.old self.new }
        ensures stand { Stand self.old.connections self.new.connections }
    {
        let number = self.number?;
        let place = self.connections.free()?;
        let stream = self.server.as_mut()?.accept(place)?;
        self.number = number.checked_add(1);
        let connection = Connection::new(self.alloc, number, stream, self.now);
        self.connections.put(place, number, connection);
        if self.connections.free().is_none() {
            if let Some(ended) = self.connections.end_most_silent() {
                self.newcomer = Some(place);
                return Some(ended);
            }
        }
        self.open_at(place)
    }

    /// Opens the connection that waits at the place, once another place is free.
    fn admit(&mut self, place: usize) -> Option<Heard>
        ensures whose { IfSome result (IsOfOne self.new.connections) }
        ensures fits { (len : ℕ) → IfSome result (HeardFits len) }
        ensures bounds { BoundsStay self.old self.new }
        ensures numbers { AllStand self.old.connections self.new.connections }
    {
        self.connections.free()?;
        self.newcomer = None;
        self.turns.add(place);
        self.open_at(place)
    }

    /// Opens the connection at the place.
    fn open_at(&mut self, place: usize) -> Option<Heard>
        ensures opened { IfSome result (IsOpenedAs (number_at self.old.connections place)) }
        ensures whose { IfSome result (IsOfOne self.new.connections) }
        ensures number { self.new.number ≡ self.old.number }
        ensures fits { (len : ℕ) → IfSome result (HeardFits len) }
        ensures bounds { BoundsStay self.old self.new }
        ensures numbers { AllStand self.old.connections self.new.connections }
    {
        match self.connections.open(place) {
            Some(number) => Some(Heard::Opened(number)),
            None => None,
        }
    }

    /// Waits for the system's reports.
    fn wait<R: Clock>(&mut self, rt: &R) -> io::Result<()>
        ensures bounds { BoundsStay self.old self.new }
        ensures numbers { AllStand self.old.connections self.new.connections }
    {
        match &mut self.server {
            Some(server) => server.wait(&mut self.events, self.idle > 0)?,
            None => return Err(io::Error::from(ErrorKind::NotConnected)),
        }
        self.note();
        self.tick(rt);
        Ok(())
    }

    /// Takes the system's reports that are there.
    fn look<R: Clock>(&mut self, rt: &R) -> io::Result<()>
        ensures bounds { BoundsStay self.old self.new }
        ensures numbers { AllStand self.old.connections self.new.connections }
    {
        match &mut self.server {
            Some(server) => server.look(&mut self.events)?,
            None => return Err(io::Error::from(ErrorKind::NotConnected)),
        }
        self.note();
        self.tick(rt);
        Ok(())
    }

    /// Notes all of the system's reports.
    fn note(&mut self)
        ensures bounds { BoundsStay self.old self.new }
        ensures numbers { AllStand self.old.connections self.new.connections }
    {
        self.heard = 0;
        note_all(
            &self.events,
            &mut self.turns,
            &mut self.connections,
            &mut self.server,
        );
        self.listen();
    }

    /// Reads the clock, and looks connections over once a second where their idle time has a bound. Where the
    /// clock can't be read none is idle.
    fn tick<R: Clock>(&mut self, rt: &R)
        ensures bounds { BoundsStay self.old self.new }
        ensures numbers { AllStand self.old.connections self.new.connections }
    {
        self.looked = Instant::now(rt).ok();
        let Some(instant) = self.looked else {
            return;
        };
        if self.idle == 0 {
            return;
        }
        let start = *self.start.get_or_insert(instant);
        let second = instant.duration_since(start).as_secs();
        if second != self.now.second {
            self.now.second = second;
            self.connections
                .look_over(second, self.idle, &mut self.turns);
        }
    }

    /// Has the listening socket asked where connections may wait.
    fn listen(&mut self)
        ensures connections { self.new.connections ≡ self.old.connections }
        ensures bounds { BoundsStay self.old self.new }
    {
        let may_accept = match &self.server {
            Some(server) => server.may_accept(),
            None => false,
        };
        if may_accept || self.newcomer.is_some() {
            self.turns.add(LISTENER);
        }
    }

    /// Offers octets for the connection.
    pub(crate) fn write(&mut self, number: u32, bytes: &[u8]) -> Took
        requires { 0 < length bytes.now }
        ensures nowhere { IsNowhere number self.old.connections → result ≡ Took.Gone }
        ensures fits { TookFits (length bytes.now) result }
        ensures bounds { BoundsStay self.old self.new }
        ensures numbers { AllStand self.old.connections self.new.connections }
    {
        self.connections.write(number, self.now, bytes)
    }

    /// Takes no octets for the connection now, since the disk is waited for.
    pub(crate) fn put_off(&mut self, number: u32) -> Took
        ensures later { result ≡ Took.Later }
        ensures exact { PutsOff number self.old.connections self.new.connections }
        ensures bounds { BoundsStay self.old self.new }
        ensures numbers { AllStand self.old.connections self.new.connections }
    {
        self.connections.put_off(number);
        Took::Later
    }

    /// Lets the connections go for which octets were put off: those on hold are told first that they may take
    /// some.
    pub(crate) fn let_go(&mut self)
        ensures exact { AreLetGo self.new.connections }
        ensures bounds { BoundsStay self.old self.new }
        ensures numbers { AllStand self.old.connections self.new.connections }
    {
        self.connections.let_go(&mut self.untold);
    }

    /// Puts the connection on hold, or releases it.
    pub(crate) fn set_on_hold(&mut self, number: u32, is_on_hold: bool)
        ensures exact { SetsHold is_on_hold number self.old.connections self.new.connections }
        ensures bounds { BoundsStay self.old self.new }
        ensures numbers { AllStand self.old.connections self.new.connections }
    {
        if let Some(place) = self.connections.set_on_hold(number, is_on_hold, self.now) {
            self.turns.add(place);
        }
    }

    /// Ends the connection.
    pub(crate) fn hang_up(&mut self, number: u32)
        ensures exact { IsHungUp number self.old self.new }
        ensures bounds { (self.new.sessions ≡ self.old.sessions) × (self.new.idle ≡ self.old.idle) }
    {
        if self.connections.end(number) {
            self.ended = raised(self.ended);
            self.listen();
        }
    }
}

/// Notes reports of the system.
fn note_all(
    events: &Events,
    turns: &mut Turns,
    connections: &mut Connections,
    server: &mut Option<Server>,
)
    ensures numbers { AllStand connections.old connections.new }
{
    for event in events.iter() {
        let place = event.token().0;
        turns.add(place);
        if place < PLACES {
            connections.note(place, event);
        } else if let Some(server) = server {
            server.note(event);
        }
    }
}

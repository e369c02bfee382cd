//! The connections of the system, each at a place.

ghost use Rattle.std.specs.Prelude.{◌≡◌, ◌≢◌, ℕ, ◌<◌, length, position, is_none, true, false, Some, None, IfSome, IfNone};
ghost use Rattle.wire_io.specs.Answers.{HeardFits, TookFits};
ghost use Rattle.mio_link.specs.Numbers.{stands, number_of, number_at, IsOf, IsOfOne, IsNowhere, IsFree, AllStand, IsEnd, Ends, SetsHold, hold_of, PutsOff, is_put_off, is_put_off_at, AreLetGo};

use crate::connection::Connection;
use crate::moment::Moment;
use crate::ready::Ready;
use crate::turns::Turns;
use mio::event::Event;
use std::alloc::{AllocError, Global};
use wire_io::{Heard, Took};

/// How many connections there may be: as many as a server holds, and one that it turns away.
pub(crate) const PLACES: usize = 257;

/// How many places are remembered by number.
const HINTS: usize = 512;

/// Places of connections, and at which of them each of the last numbers was put.
#[derive(Drop)]
pub(crate) struct Connections {
    places: Vec<Option<Connection>>,
    hints: Vec<usize>,
}

impl Connections {
    /// All places free. Later calls take no memory.
    pub(crate) fn new(alloc: Global) -> Result<Connections, AllocError> {
        let mut places = Vec::with_capacity(alloc, PLACES)?;
        for _ in 0..PLACES {
            places.push(None)?;
        }
        let hints = vec![in alloc; 0; HINTS]?;
        Ok(Connections { places, hints })
    }

    /// A free place.
    pub(crate) fn free(&self) -> Option<usize>
        ensures { IfSome result (IsFree self.now) }
    {
        free_in(&self.places)
    }

    /// Puts the connection at the place.
    pub(crate) fn put(&mut self, place: usize, number: u32, connection: Connection)
        ensures exact { place < length self.old.places.items → number_at self.new place ≡ Some connection.number }
        ensures others { (other : ℕ) → other ≢ place → number_at self.new other ≡ number_at self.old other }
    {
        if let Some(free) = self.places.get_mut(place) {
            *free = Some(connection);
        }
        if let Some(hint) = self.hints.get_mut(number as usize % HINTS) {
            *hint = place;
        }
    }

    /// The place of the connection of the number: first where a number like it was put last.
    fn place_of(&self, number: u32) -> Option<usize>
        ensures found { IfSome result (λ place. number_at self.now place ≡ Some number) }
        ensures none { IfNone result (IsNowhere number self.now) }
    {
        let hint = match self.hints.get(number as usize % HINTS) {
            Some(place) => *place,
            None => 0,
        };
        if self.is_at(hint, number) {
            return Some(hint);
        }
        place_in(&self.places, number)
    }

    fn is_at(&self, place: usize, number: u32) -> bool
        ensures { result ≡ true → number_at self.now place ≡ Some number }
    {
        match self.places.get(place) {
            Some(found) => has_number(found, number),
            None => false,
        }
    }

    /// Puts the connection of the number on hold, or releases it, and gives its place.
    pub(crate) fn set_on_hold(
        &mut self,
        number: u32,
        is_on_hold: bool,
        now: Moment,
    ) -> Option<usize>
        ensures found { IfSome result (λ place. number_at self.old place ≡ Some number) }
        ensures exact { SetsHold is_on_hold number self.old self.new }
        ensures numbers { AllStand self.old self.new }
    {
        let place = self.place_of(number)?;
        if let Some(found) = self.places.get_mut(place) {
            set_on_hold(found, is_on_hold, now);
        }
        Some(place)
    }

    /// Ends the connection of the number, and says whether there was one.
    pub(crate) fn end(&mut self, number: u32) -> bool
        ensures { Ends result number self.old self.new }
    {
        let Some(place) = self.place_of(number) else {
            return false;
        };
        if let Some(found) = self.places.get_mut(place) {
            *found = None;
        }
        true
    }

    /// Opens the connection at the place, and gives its number.
    pub(crate) fn open(&mut self, place: usize) -> Option<u32>
        ensures found { IfSome result (λ number. number_at self.old place ≡ Some number) }
        ensures kept { IfSome result (λ number. number_at self.new place ≡ Some number) }
        ensures numbers { AllStand self.old self.new }
    {
        match self.places.get_mut(place) {
            Some(found) => open(found),
            None => None,
        }
    }

    /// The place of the connection that was silent longest, of those to which nothing is due.
    fn most_silent(&self) -> Option<usize> {
        let mut found = None;
        let mut least = u64::MAX;
        for (place, held) in self.places.iter().enumerate() {
            if let Some(connection) = held {
                let turn = connection.last().turn;
                if turn < least && connection.is_silent() {
                    found = Some(place);
                    least = turn;
                }
            }
        }
        found
    }

    /// Ends the connection that was silent longest, of those to which nothing is due, and says so; None
    /// where there is none.
    pub(crate) fn end_most_silent(&mut self) -> Option<Heard>
        ensures ended { IfSome result IsEnd }
        ensures whose { IfSome result (IsOfOne self.new) }
        ensures kept { IfNone result (self.new.places.items ≡ self.old.places.items) }
        ensures numbers { AllStand self.old self.new }
        ensures fits { (len : ℕ) → IfSome result (HeardFits len) }
    {
        let place = self.most_silent()?;
        match self.places.get_mut(place) {
            Some(found) => end(found),
            None => None,
        }
    }

    /// Adds the places of which it is to be heard that nothing happened there for more than so many
    /// seconds.
    pub(crate) fn look_over(&mut self, second: u64, limit: u64, turns: &mut Turns)
        ensures numbers { AllStand self.old self.new }
    {
        for place in 0..PLACES {
            if self.look_at(place, second, limit) {
                turns.add(place);
            }
        }
    }

    /// Looks the connection at the place over, and says whether something is to be heard of that.
    fn look_at(&mut self, place: usize, second: u64, limit: u64) -> bool
        ensures numbers { AllStand self.old self.new }
    {
        match self.places.get_mut(place) {
            Some(found) => look(found, second, limit),
            None => false,
        }
    }

    /// Notes that octets for the connection of the number wait for the disk.
    pub(crate) fn put_off(&mut self, number: u32)
        ensures exact { PutsOff number self.old self.new }
        ensures numbers { AllStand self.old self.new }
    {
        if let Some(place) = self.place_of(number) {
            if let Some(found) = self.places.get_mut(place) {
                put_off(found);
            }
        }
    }

    /// Lets the connections go that wait for the disk, and adds their places.
    pub(crate) fn let_go(&mut self, places: &mut Ready)
        ensures exact { AreLetGo self.new }
        ensures numbers { AllStand self.old self.new }
    {
        for place in 0..PLACES {
            if self.let_go_at(place) {
                places.add(place);
            }
        }
    }

    /// Lets the connection at the place go, and says whether it waited for the disk.
    fn let_go_at(&mut self, place: usize) -> bool
        ensures exact { is_put_off_at self.new place ≡ false }
        ensures others { (other : ℕ) → other ≢ place → is_put_off_at self.new other ≡ is_put_off_at self.old other }
        ensures numbers { AllStand self.old self.new }
    {
        match self.places.get_mut(place) {
            Some(found) => let_go(found),
            None => false,
        }
    }

    /// Notes what the system reports of the place.
    pub(crate) fn note(&mut self, place: usize, event: &Event)
        ensures numbers { AllStand self.old self.new }
    {
        if let Some(found) = self.places.get_mut(place) {
            note(found, event);
        }
    }

    /// What is to be heard of the place now.
    pub(crate) fn hear(&mut self, place: usize, now: Moment, buf: &mut [u8]) -> Option<Heard>
        requires room { 0 < length buf.old }
        ensures whose { IfSome result (IsOf (number_at self.new place)) }
        ensures fits { IfSome result (HeardFits (length buf.new)) }
        ensures numbers { AllStand self.old self.new }
    {
        match self.places.get_mut(place) {
            Some(found) => hear(found, now, buf),
            None => None,
        }
    }

    /// Whether it is to be heard of the place that its connection, on hold, may take octets again.
    pub(crate) fn hear_ready(&self, place: usize) -> Option<Heard>
        ensures whose { IfSome result (IsOf (number_at self.now place)) }
        ensures fits { (len : ℕ) → IfSome result (HeardFits len) }
    {
        match self.places.get(place) {
            Some(Some(connection)) => connection.hear_ready(),
            _ => None,
        }
    }

    /// Offers octets for the connection of the number; one that isn't there is lost.
    pub(crate) fn write(&mut self, number: u32, now: Moment, bytes: &[u8]) -> Took
        requires { 0 < length bytes.now }
        ensures nowhere { IsNowhere number self.old → result ≡ Took.Gone }
        ensures fits { TookFits (length bytes.now) result }
        ensures numbers { AllStand self.old self.new }
    {
        let Some(place) = self.place_of(number) else {
            return Took::Gone;
        };
        match self.places.get_mut(place) {
            Some(found) => write(found, now, bytes),
            None => Took::Gone,
        }
    }
}

/// The first free place.
fn free_in(places: &[Option<Connection>]) -> Option<usize>
    ensures exact { result ≡ position is_none places.now }
{
    places.iter().position(|place| place.is_none())
}

/// The first place of a connection of the number.
fn place_in(places: &[Option<Connection>], number: u32) -> Option<usize>
    ensures exact { result ≡ position (stands number) places.now }
{
    places.iter().position(|place| has_number(place, number))
}

/// Looks the connection at the place over, and says whether something is to be heard of that.
fn look(place: &mut Option<Connection>, second: u64, limit: u64) -> bool
    ensures number { number_of place.new ≡ number_of place.old }
{
    match place {
        Some(connection) => connection.look(second, limit),
        None => false,
    }
}

/// Notes what the system reports of the connection at the place.
fn note(place: &mut Option<Connection>, event: &Event)
    ensures number { number_of place.new ≡ number_of place.old }
{
    if let Some(connection) = place {
        connection.note(event);
    }
}

/// Offers octets for the connection at the place.
fn write(place: &mut Option<Connection>, now: Moment, bytes: &[u8]) -> Took
    requires { 0 < length bytes.now }
    ensures fits { TookFits (length bytes.now) result }
    ensures number { number_of place.new ≡ number_of place.old }
{
    match place {
        Some(connection) => connection.write(now, bytes),
        None => Took::Gone,
    }
}

/// Puts the connection at the place on hold, or releases it.
fn set_on_hold(place: &mut Option<Connection>, is_on_hold: bool, now: Moment)
    ensures exact { number_of place.old ≢ None → hold_of place.new ≡ Some is_on_hold }
    ensures number { number_of place.new ≡ number_of place.old }
{
    if let Some(connection) = place {
        connection.set_on_hold(is_on_hold, now);
    }
}

/// Notes that octets for the connection at the place wait for the disk.
fn put_off(place: &mut Option<Connection>)
    ensures exact { number_of place.old ≢ None → is_put_off place.new ≡ true }
    ensures number { number_of place.new ≡ number_of place.old }
{
    if let Some(connection) = place {
        connection.put_off();
    }
}

/// Opens the connection at the place, and gives its number.
fn open(place: &mut Option<Connection>) -> Option<u32>
    ensures found { IfSome result (λ number. number_of place.old ≡ Some number) }
    ensures kept { IfSome result (λ number. number_of place.new ≡ Some number) }
    ensures number { number_of place.new ≡ number_of place.old }
{
    match place {
        Some(connection) => Some(connection.open()),
        None => None,
    }
}

/// What is to be heard of the connection at the place now.
fn hear(place: &mut Option<Connection>, now: Moment, buf: &mut [u8]) -> Option<Heard>
    requires room { 0 < length buf.old }
    ensures whose { IfSome result (IsOf (number_of place.new)) }
    ensures fits { IfSome result (HeardFits (length buf.new)) }
    ensures number { number_of place.new ≡ number_of place.old }
{
    match place {
        Some(connection) => connection.hear(now, buf),
        None => None,
    }
}

/// Ends the connection at the place, and says so.
fn end(place: &mut Option<Connection>) -> Option<Heard>
    ensures ended { IfSome result IsEnd }
    ensures whose { IfSome result (IsOf (number_of place.new)) }
    ensures kept { IfNone result (place.new ≡ place.old) }
    ensures number { number_of place.new ≡ number_of place.old }
    ensures fits { (len : ℕ) → IfSome result (HeardFits len) }
{
    match place {
        Some(connection) => {
            connection.set_ended();
            Some(Heard::Ended(connection.number()))
        }
        None => None,
    }
}

/// Lets the connection at the place go, and says whether it waited for the disk.
fn let_go(place: &mut Option<Connection>) -> bool
    ensures exact { is_put_off place.new ≡ false }
    ensures number { number_of place.new ≡ number_of place.old }
{
    match place {
        Some(connection) => connection.let_go(),
        None => false,
    }
}

/// Whether the connection of the number is at the place.
fn has_number(place: &Option<Connection>, number: u32) -> bool
    ensures { result ≡ stands number place.now }
{
    match place {
        Some(connection) => connection.number() == number,
        None => false,
    }
}

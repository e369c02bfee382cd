//! Where a connection stands among those held.

ghost use Rattle.std.specs.Prelude.{◌≡◌, ◌≤◌, ◌-◌, ◌^◌, min, length, option_map, MatchOption, None, true};
ghost use Rattle.session_model.specs.Kept.{kept_of, is_kept, queue_of, closing_of, cut_of, forgotten, taken_off, changed, closed};
ghost use Rattle.session_hub.specs.Rooms.{queued_beside};
ghost use Rattle.session_hub.specs.hub.Hubs.{IsAt, IsShut, IsOpenAt, AreDistinct, unread_of};

use crate::connection::Connection;
use op_read::acdf_filters::Requester;

/// The place of the connection with the number. The place that is guessed is tried first, and then the
/// one behind it: connections that are heard in turn stand so.
pub fn place_of(connections: &[Connection], guess: usize, number: u32) -> Option<usize>
    requires { AreDistinct connections.now }
    ensures { MatchOption result (kept_of number connections.now ≡ None) (λ at. IsAt number at connections.now) }
{
    if is_number_at(connections, guess, number) {
        return Some(guess);
    }
    let next = guess.saturating_add(1);
    if is_number_at(connections, next, number) {
        return Some(next);
    }
    for (at, connection) in connections.iter().enumerate() {
        if connection.number() == number {
            return Some(at);
        }
    }
    None
}

/// Whether the connection at the place has the number.
fn is_number_at(connections: &[Connection], at: usize, number: u32) -> bool
    requires { AreDistinct connections.now }
    ensures { result ≡ true → IsAt number at connections.now }
{
    at < connections.len() && connections[at].number() == number
}

/// The place of the connection with the number, if it isn't closing.
pub fn open_at(connections: &[Connection], guess: usize, number: u32) -> Option<usize>
    requires { AreDistinct connections.now }
    ensures { MatchOption result (IsShut (kept_of number connections.now)) (λ at. IsOpenAt number at connections.now) }
{
    let at = place_of(connections, guess, number)?;
    if connections[at].is_closing() {
        None
    } else {
        Some(at)
    }
}

/// Whether there is a connection with the number.
pub fn is_at(connections: &[Connection], guess: usize, number: u32) -> bool
    requires { AreDistinct connections.now }
    ensures { result ≡ is_kept (kept_of number connections.now) }
{
    match place_of(connections, guess, number) {
        Some(_) => true,
        None => false,
    }
}

/// The octets still to be sent to the connection with the number.
pub fn queue_at(connections: &[Connection], guess: usize, number: u32) -> &[u8]
    requires { AreDistinct connections.now }
    ensures { result.now ≡ queue_of number connections.now }
{
    match place_of(connections, guess, number) {
        Some(at) => connections[at].queue(),
        None => &[],
    }
}

/// Whether the connection with the number is closing.
pub fn closing_at(connections: &[Connection], guess: usize, number: u32) -> bool
    requires { AreDistinct connections.now }
    ensures { result ≡ closing_of number connections.now }
{
    match place_of(connections, guess, number) {
        Some(at) => connections[at].is_closing(),
        None => false,
    }
}

/// Who asks on the connection with the number.
pub fn requester_at(connections: &[Connection], guess: usize, number: u32) -> Option<&Requester>
    requires { AreDistinct connections.now }
    ensures { option_map (λ who. who.now) result ≡ option_map (λ connection. connection.who) (kept_of number connections.now) }
{
    match place_of(connections, guess, number) {
        Some(at) => Some(connections[at].requester()),
        None => None,
    }
}

/// The unread octets of the connection with the number.
pub fn unread_at(connections: &[Connection], guess: usize, number: u32) -> &[u8]
    requires { AreDistinct connections.now }
    ensures { result.now ≡ unread_of (kept_of number connections.now) }
{
    match place_of(connections, guess, number) {
        Some(at) => connections[at].unread(),
        None => &[],
    }
}

/// Octets of the queue of the connection with the number were taken.
pub fn take_off(connections: &mut [Connection], guess: usize, number: u32, count: usize)
    requires distinct { AreDistinct connections.old }
    requires within { count ≤ length (queue_of number connections.old) }
    ensures { connections.new ≡ taken_off number count connections.old }
{
    match place_of(connections, guess, number) {
        Some(at) => connections[at].took(count),
        None => {}
    }
}

/// The peer of the connection with the number sends no more.
pub fn end_at(connections: &mut [Connection], guess: usize, number: u32)
    requires { AreDistinct connections.old }
    ensures { connections.new ≡ changed number closed connections.old }
{
    match place_of(connections, guess, number) {
        Some(at) => connections[at].end(),
        None => {}
    }
}

/// Where the connection with the number was cut.
pub fn cut_at(connections: &[Connection], guess: usize, number: u32) -> Option<u64>
    requires { AreDistinct connections.now }
    ensures { result ≡ cut_of number connections.now }
{
    match place_of(connections, guess, number) {
        Some(at) => connections[at].cut(),
        None => None,
    }
}

/// How many octets wait for the connections of other numbers; the greatest u64 stands for all above it.
pub fn beside(connections: &[Connection], number: u32) -> u64
    ensures { result ≡ min (2 ^ 64 - 1) (queued_beside number connections.now) }
{
    let mut queued = 0u64;
    for connection in connections {
        if connection.number() != number {
            queued = queued.saturating_add(connection.queue().len() as u64);
        }
    }
    queued
}

/// Forgets the connection with the number.
pub fn forget_at(connections: &mut Vec<Connection>, guess: usize, number: u32)
    requires { AreDistinct connections.old.items }
    ensures { connections.new.items ≡ forgotten number connections.old.items }
{
    match place_of(connections, guess, number) {
        Some(at) => {
            let _gone = connections.remove(at);
        }
        None => {}
    }
}

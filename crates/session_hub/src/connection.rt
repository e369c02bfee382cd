//! One connection held.

ghost use Rattle.std.specs.Prelude.{◌≡◌, ◌≤◌, ◌+◌, ◌++◌, ℕ, true, false, [], length, take, drop, vec_len, vec_capacity, IfOk};
ghost use Rattle.dir_tree.specs.tree.Numbered.{entries_of};
ghost use Rattle.session_model.specs.Kept.{closed, without_front, opened_kept};
ghost use Rattle.session_hub.specs.Answering.{rules};
ghost use Rattle.session_hub.specs.Answers.{Speaks, GaveFirst, MayCut, closes_at, cut_at};
ghost use Rattle.session_hub.specs.FirstAnswers.{kept_room, HasKeptAnswer, IsIdle, IsBehindFirst};
ghost use Rattle.session_hub.specs.Rooms.{StaysWithin};
ghost use Rattle.session_hub.specs.connection.Connections.{HearsPiece, KeepsRest};
ghost use Rattle.session_hub.specs.connection.Limits.{most_unread};
ghost use Rattle.session_hub.specs.Terms.{Terms};
ghost use Rattle.session_hub.specs.declared.spoken.SpeechEnd.TheVariants.{StaysOpen};

use crate::allowance::Allowance;
use crate::outgoing::Outgoing;
use crate::requester::anonymous;
use crate::spoken::{SpeechEnd, Spoken};
use crate::stream::speak;
use op_read::acdf_filters::Requester;
use op_read::directory::Dir;
use std::alloc::{AllocError, Global};
use std::marker::Model;
use std::mem::replace;

/// The most octets that a buffer keeps room for while it is empty.
const MOST_SPARE: usize = 65_536;

/// How many octets of replies, and how many unread, an open connection keeps room for, so that its first answer may take no
/// memory.
const KEPT_ROOM: usize = 64;

/// A connection: its octets that are part of no whole message yet, and the octets still to be sent.
#[derive(Drop)]
pub struct Connection {
    number: u32,
    rest: Vec<u8>,
    who: Requester,
    out: Vec<u8>,
    taken: usize,
    closing: bool,
    cut: Option<u64>,
}

impl Model for Connection {
    ghost use Rattle.std.specs.Prelude.{drop, length, vec_capacity};
    ghost use Rattle.session_model.specs.Kept.{Kept};
    ghost use Rattle.session_hub.specs.Parties.{Requester};
    ghost use Rattle.session_hub.specs.connection.Queues.{AreBuffers};

    ghost Value = { Kept Requester };

    ghost view = { λ connection. record { number = connection.number; rest = connection.rest.items; who = connection.who; queue = drop connection.taken connection.out.items; closing = connection.closing; cut = connection.cut } };

    ghost invariant = { λ connection. AreBuffers connection.taken (length connection.out.items) (vec_capacity connection.out) connection.closing (vec_capacity connection.rest) };
}

impl Connection {
    /// A connection that has just opened. The error comes for want of memory.
    pub fn new(alloc: Global, number: u32) -> Result<Connection, AllocError>
        ensures ok { IfOk result (λ connection. (terms : Terms) → connection ≡ opened_kept (rules terms) number) }
    {
        let rest = Vec::with_capacity(alloc, KEPT_ROOM)?;
        let out = Vec::with_capacity(alloc, KEPT_ROOM)?;
        Ok(Connection {
            number,
            rest,
            who: anonymous(),
            out,
            taken: 0,
            closing: false,
            cut: None,
        })
    }

    pub fn number(&self) -> u32
        ensures { result ≡ self.now.number }
    {
        self.number
    }

    pub fn is_closing(&self) -> bool
        ensures { result ≡ self.now.closing }
    {
        self.closing
    }

    /// Who asks on it.
    pub fn requester(&self) -> &Requester
        ensures { result.now ≡ self.now.who }
    {
        &self.who
    }

    /// The octets that are part of no whole message yet.
    pub fn unread(&self) -> &[u8]
        ensures { result.now ≡ self.now.rest }
    {
        &self.rest
    }

    /// Behind how many of its last octets' messages it was cut, if it was.
    pub fn cut(&self) -> Option<u64>
        ensures { result ≡ self.now.cut }
    {
        self.cut
    }

    /// The octets still to be sent.
    pub fn queue(&self) -> &[u8]
        ensures { result.now ≡ self.now.queue }
    {
        self.out.split_at(self.taken).1
    }

    /// The first octets of the queue were taken.
    pub fn took(&mut self, count: usize)
        requires { count ≤ length self.old.queue }
        ensures { self.new ≡ without_front count self.old }
    {
        self.taken += count;
        if is_spent(self.taken, self.out.len()) {
            give_back(&mut self.out, self.taken);
            self.taken = 0;
        }
    }

    /// The peer sends no more.
    pub fn end(&mut self)
        ensures { self.new ≡ closed self.old }
    {
        discard(&mut self.rest);
        self.closing = true;
    }

    /// Hears a piece of an open connection: its whole messages are answered, and what is left is
    /// kept unless the connection closes now. Where there is no memory, or more waits for it than
    /// there is room for, it is cut, which closes it. Where nothing is queued it isn't cut before a first
    /// answer that has kept room.
    pub fn hear<D: Dir>(
        &mut self,
        alloc: Global,
        dir: &mut D,
        piece: &[u8],
        allowed: Allowance,
        changes: &mut Vec<u8>,
    )
        ensures exact { HearsPiece allowed.terms piece.now
            (entries_of (D.rows dir.old)) self.old changes.old.items
            (entries_of (D.rows dir.new)) self.new changes.new.items }
        ensures bounded { length self.new.rest ≤ most_unread }
        ensures room { StaysWithin allowed.terms allowed.room piece.now (entries_of (D.rows dir.old)) self.old self.new }
        ensures first { IsIdle self.old → HasKeptAnswer self.old.rest piece.now → IsBehindFirst self.new.cut }
    {
        let inside = Allowance {
            terms: allowed.terms,
            room: room_behind(allowed.room, self.taken),
        };
        let (who, out) = (&mut self.who, &mut self.out);
        if self.rest.is_empty() {
            let spoken = speak_and_fit(alloc, dir, who, piece, inside, out, changes);
            let end = keep_unread(&mut self.rest, piece, spoken);
            self.closing = closes(end);
            self.cut = cut_behind(end, spoken.answered);
        } else {
            let all = join(&mut self.rest, piece);
            let spoken = speak_and_fit(alloc, dir, who, &self.rest, inside, out, changes);
            let end = leave_unread(&mut self.rest, spoken.read, end_of(all, spoken.end));
            self.closing = closes(end);
            self.cut = cut_behind(end, spoken.answered);
        }
    }
}

/// Puts a piece behind unread octets. Where there is no memory for all of it, the first octets of both are left, as many as
/// there is kept room for, and the answer is false.
fn join(unread: &mut Vec<u8>, piece: &[u8]) -> bool
    requires { kept_room ≤ vec_capacity unread.old }
    ensures all { result ≡ true → unread.new.items ≡ unread.old.items ++ piece.now }
    ensures front { result ≡ false → unread.new.items ≡ take kept_room (unread.old.items ++ piece.now) }
    ensures kept { kept_room ≤ vec_capacity unread.new }
{
    match unread.extend_from_slice(piece) {
        Ok(()) => true,
        Err(_) => {
            unread.truncate(KEPT_ROOM);
            let more = piece.len().min(KEPT_ROOM - unread.len());
            let _joined = unread.extend_from_slice(piece.split_at(more).0);
            false
        }
    }
}

/// How a stream ends of which all was there, or only its front: where there may be more, the connection is cut.
fn end_of(all: bool, end: SpeechEnd) -> SpeechEnd
    ensures may { MayCut end result }
    ensures front { all ≡ false → closes_at result ≡ true }
{
    match end {
        SpeechEnd::StaysOpen => if all {
            SpeechEnd::StaysOpen
        } else {
            SpeechEnd::IsCut
        },
        SpeechEnd::Closes => SpeechEnd::Closes,
        SpeechEnd::IsCut => SpeechEnd::IsCut,
        SpeechEnd::IsFull => SpeechEnd::IsFull,
    }
}

/// The room of a buffer of which so many octets were taken already.
fn room_behind(room: usize, taken: usize) -> usize
    ensures { result ≤ room + taken }
{
    room.saturating_add(taken)
}

/// Answers a stream, as `speak` does, behind a queue and the changes so far, and leaves the queue no more room than it needs,
/// and the kept room where the connection stays open.
fn speak_and_fit<D: Dir>(
    alloc: Global,
    dir: &mut D,
    who: &mut Requester,
    stream: &[u8],
    allowed: Allowance,
    queue: &mut Vec<u8>,
    changes: &mut Vec<u8>,
) -> Spoken
    ensures said { Speaks allowed.terms allowed.room (entries_of (D.rows dir.old)) who.old stream.now
        (record { replies = queue.old.items; changes = changes.old.items })
        (record { replies = queue.new.items; changes = changes.new.items })
        (entries_of (D.rows dir.new)) who.new result }
    ensures first { vec_len queue.old + kept_room ≤ vec_capacity queue.old → HasKeptAnswer [] stream.now → GaveFirst result }
    ensures kept { result.end ≡ StaysOpen → kept_room ≤ vec_capacity queue.new }
{
    let mut out = Outgoing {
        replies: replace(queue, Vec::new(alloc)),
        changes: replace(changes, Vec::new(alloc)),
    };
    let spoken = speak(alloc, dir, who, stream, allowed, &mut out);
    let Outgoing {
        replies: queued,
        changes: changed,
    } = out;
    *queue = queued;
    *changes = changed;
    fit(queue);
    Spoken {
        read: spoken.read,
        answered: spoken.answered,
        end: keep_room(queue, spoken.end),
    }
}

/// Keeps the room of the queue of a connection that stays open. Where there is no memory for it, the connection is cut.
fn keep_room(queue: &mut Vec<u8>, end: SpeechEnd) -> SpeechEnd
    ensures items { queue.new.items ≡ queue.old.items }
    ensures kept { result ≡ StaysOpen → kept_room ≤ vec_capacity queue.new }
    ensures end { MayCut end result }
{
    match end {
        SpeechEnd::StaysOpen => match queue.reserve(KEPT_ROOM.saturating_sub(queue.len())) {
            Ok(()) => SpeechEnd::StaysOpen,
            Err(_) => SpeechEnd::IsCut,
        },
        SpeechEnd::Closes => SpeechEnd::Closes,
        SpeechEnd::IsCut => SpeechEnd::IsCut,
        SpeechEnd::IsFull => SpeechEnd::IsFull,
    }
}

/// Whether a buffer of this length, of which so many octets were taken, gives their room back: where all were, or a quarter
/// as many as are left and more than a buffer may keep.
fn is_spent(taken: usize, length: usize) -> bool
    requires { taken ≤ length }
    ensures { taken ≡ length → result ≡ true }
{
    taken == length || (taken > MOST_SPARE && taken >= (length - taken) / 4)
}

/// Whether a buffer of this length has much more room than it needs: a quarter more, and more than a buffer may keep.
fn is_loose(room: usize, length: usize) -> bool {
    room > MOST_SPARE && room.saturating_sub(length) >= length / 4
}

/// Gives back most of the room that a buffer doesn't need. An eighth stays, so that what is appended next is seldom copied.
pub fn fit(octets: &mut Vec<u8>)
    ensures items { octets.new.items ≡ octets.old.items }
    ensures kept { kept_room ≤ vec_capacity octets.old → kept_room ≤ vec_capacity octets.new }
{
    let length = octets.len();
    if is_loose(octets.capacity(), length) {
        octets.shrink_to(MOST_SPARE.max(length.saturating_add(length / 8)));
    }
}

/// Takes the first octets away, without memory, and gives back what room the buffer needs no more.
fn give_back(octets: &mut Vec<u8>, count: usize)
    requires { count ≤ vec_len octets.old }
    ensures items { octets.new.items ≡ drop count octets.old.items }
    ensures kept { kept_room ≤ vec_capacity octets.old → kept_room ≤ vec_capacity octets.new }
{
    let left = octets.len() - count;
    octets.copy_within(count.., 0);
    octets.truncate(left);
    fit(octets);
}

/// Drops all octets and their room, but for what is kept.
fn discard(octets: &mut Vec<u8>)
    ensures items { octets.new.items ≡ [] }
    ensures kept { kept_room ≤ vec_capacity octets.old → kept_room ≤ vec_capacity octets.new }
{
    octets.clear();
    octets.shrink_to(KEPT_ROOM);
}

fn closes(end: SpeechEnd) -> bool
    ensures { result ≡ closes_at end }
{
    match end {
        SpeechEnd::StaysOpen => false,
        SpeechEnd::Closes | SpeechEnd::IsCut | SpeechEnd::IsFull => true,
    }
}

fn cut_behind(end: SpeechEnd, answered: u64) -> Option<u64>
    ensures { result ≡ cut_at end answered }
{
    match end {
        SpeechEnd::StaysOpen | SpeechEnd::Closes => None,
        SpeechEnd::IsCut | SpeechEnd::IsFull => Some(answered),
    }
}

/// Keeps the octets of a stream that weren't read, if its connection stays open and there is room.
fn keep_unread(rest: &mut Vec<u8>, stream: &[u8], spoken: Spoken) -> SpeechEnd
    requires empty { rest.old.items ≡ [] }
    requires within { spoken.read ≤ length stream.now }
    ensures items { KeepsRest spoken.end (drop spoken.read stream.now) rest.new.items result }
    ensures kept { kept_room ≤ vec_capacity rest.old → kept_room ≤ vec_capacity rest.new }
{
    match spoken.end {
        SpeechEnd::Closes => SpeechEnd::Closes,
        SpeechEnd::IsCut => SpeechEnd::IsCut,
        SpeechEnd::IsFull => SpeechEnd::IsFull,
        SpeechEnd::StaysOpen => match rest.extend_from_slice(stream.split_at(spoken.read).1) {
            Ok(()) => SpeechEnd::StaysOpen,
            Err(_) => SpeechEnd::IsCut,
        },
    }
}

/// Leaves the octets that weren't read, if the connection stays open.
fn leave_unread(rest: &mut Vec<u8>, read: usize, end: SpeechEnd) -> SpeechEnd
    requires { read ≤ vec_len rest.old }
    ensures items { KeepsRest end (drop read rest.old.items) rest.new.items result }
    ensures kept { kept_room ≤ vec_capacity rest.old → kept_room ≤ vec_capacity rest.new }
{
    match end {
        SpeechEnd::StaysOpen => cut_front(rest, read),
        SpeechEnd::Closes | SpeechEnd::IsCut | SpeechEnd::IsFull => discard(rest),
    }
    end
}

/// Takes the first octets away, if there are any to take.
fn cut_front(octets: &mut Vec<u8>, count: usize)
    requires { count ≤ vec_len octets.old }
    ensures items { octets.new.items ≡ drop count octets.old.items }
    ensures kept { kept_room ≤ vec_capacity octets.old → kept_room ≤ vec_capacity octets.new }
{
    if count > 0 {
        give_back(octets, count);
    }
}

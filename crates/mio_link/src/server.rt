//! The listening socket and the poll of its connections.

use crate::connections::PLACES;
use mio::event::Event;
use mio::net::{TcpListener, TcpStream};
use mio::{Events, Interest, Poll, Token};
use std::io;
use std::io::ErrorKind;
use std::net::{Net, SocketAddr};
use std::time::Duration;

/// What the listening socket is called in reports: no connection has this place.
pub(crate) const LISTENER: usize = PLACES;

/// How many milliseconds a poll waits at most where a connection could not be accepted.
const PAUSE: u64 = 100;

/// How many milliseconds a poll waits at most where the clock is to be read.
const TICK: u64 = 1000;

/// A listening socket, and the poll of it and of all connections.
#[derive(Drop)]
pub(crate) struct Server {
    poll: Poll,
    listener: TcpListener,
    may_accept: bool,
    // the system refused to accept a connection that waits
    is_refused: bool,
}

impl Server {
    /// Listens at the address.
    pub(crate) fn open<R: Net>(rt: &R, address: SocketAddr) -> io::Result<Server> {
        let poll = Poll::new(rt)?;
        let mut listener = TcpListener::bind(rt, address)?;
        let token = Token(LISTENER);
        poll.registry()
            .register(&mut listener, token, Interest::READABLE)?;
        Ok(Server {
            poll,
            listener,
            may_accept: false,
            is_refused: false,
        })
    }

    /// Waits for reports: where a connection could not be accepted, not for long, and where the clock
    /// is to be read, for a second at most.
    pub(crate) fn wait(&mut self, events: &mut Events, has_clock: bool) -> io::Result<()> {
        let limit = if self.is_refused {
            Some(Duration::from_millis(PAUSE))
        } else if has_clock {
            Some(Duration::from_millis(TICK))
        } else {
            None
        };
        self.poll.poll(events, limit)
    }

    /// Takes the reports that are there.
    pub(crate) fn look(&mut self, events: &mut Events) -> io::Result<()> {
        self.poll.poll(events, Some(Duration::ZERO))
    }

    /// Whether connections may wait.
    pub(crate) fn may_accept(&self) -> bool {
        self.may_accept
    }

    /// Notes what the system reports.
    pub(crate) fn note(&mut self, event: &Event) {
        if event.is_readable() {
            self.may_accept = true;
        }
    }

    /// The next connection that waits, whose reports are called by the place.
    pub(crate) fn accept(&mut self, place: usize) -> Option<TcpStream> {
        if !self.may_accept {
            return None;
        }
        match self.listener.accept() {
            Ok((stream, _)) => self.watch(stream, place),
            Err(error) => self.unaccepted(error.kind()),
        }
    }

    /// Has the connection reported. Where the system refuses that, the connection is closed, and others
    /// that wait are tried later.
    fn watch(&mut self, stream: TcpStream, place: usize) -> Option<TcpStream> {
        let mut stream = stream;
        let interest = Interest::READABLE | Interest::WRITABLE;
        let token = Token(place);
        let registry = self.poll.registry();
        self.is_refused = stream.set_nodelay(true).is_err()
            || registry.register(&mut stream, token, interest).is_err();
        if self.is_refused { None } else { Some(stream) }
    }

    /// Nothing was accepted: none waits, or it is tried again later.
    fn unaccepted(&mut self, kind: ErrorKind) -> Option<TcpStream> {
        self.may_accept = kind != ErrorKind::WouldBlock;
        self.is_refused = self.may_accept;
        None
    }
}

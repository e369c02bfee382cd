//! A link of the system's sockets and its peers over loopback, which take the steps of a test.

use crate::steps::{Answer, Row, Step, ask, of_peer};
use mio_link::MioLink;
use std::io::{Read, Write};
use std::net::{Ipv4Addr, Shutdown, SocketAddr, TcpListener, TcpStream};
use std::os::unix::fs::MetadataExt;
use std::process::Abort;
use std::test::Fail;
use std::{fs, io};

/// The runtime, a link, the address at which it opens, its peers in the order in which they connected, and the buffer into which is read.
#[derive(Drop)]
pub struct Talk {
    rt: HostRuntime,
    link: MioLink<HostRuntime>,
    address: SocketAddr,
    name: String,
    peers: Vec<TcpStream>,
    buf: Vec<u8>,
}

/// An address of the loopback at which nobody listens.
fn free_address(rt: &HostRuntime) -> io::Result<SocketAddr> {
    let listener = TcpListener::bind(rt, SocketAddr::from((Ipv4Addr::LOCALHOST, 0)))?;
    listener.local_addr()
}

/// A link that is not open and has no peers, and a buffer with so much room.
pub fn new_talk(rt: &HostRuntime, room: usize) -> Result<Talk, Fail> {
    let address = free_address(rt)?;
    Ok(Talk {
        rt: rt.clone()?,
        link: MioLink::new(rt.clone()?, rt.alloc())?,
        address,
        name: format!(in rt.alloc(); "{address}")?,
        peers: Vec::new(rt.alloc()),
        buf: vec![in rt.alloc(); 0u8; room]?,
    })
}

// Another peer connects.
fn connect(talk: &mut Talk) -> io::Result<()> {
    let peer = TcpStream::connect(&talk.rt, talk.address)?;
    talk.peers.push(peer)?;
    Ok(())
}

// The peer at a place sends octets.
fn send(talk: &mut Talk, place: usize, octets: &[u8]) -> Answer {
    match talk.peers.get_mut(place) {
        Some(peer) => of_peer(peer.write_all(octets)),
        None => Answer::Broken,
    }
}

// It sends no more.
fn shut(talk: &Talk, place: usize) -> Answer {
    match talk.peers.get(place) {
        Some(peer) => of_peer(peer.shutdown(Shutdown::Write)),
        None => Answer::Broken,
    }
}

// It reads into the buffer.
fn read(talk: &mut Talk, place: usize) -> Answer {
    let Some(peer) = talk.peers.get_mut(place) else {
        return Answer::Broken;
    };
    match peer.read(talk.buf.as_mut_slice()) {
        Ok(count) => Answer::Count(count),
        Err(_) => Answer::Broken,
    }
}

// The last of the peers leaves.
fn leave(talk: &mut Talk) -> Answer {
    match talk.peers.pop() {
        Some(_) => Answer::Done,
        None => Answer::Broken,
    }
}

// The permissions of a file.
fn mode(rt: &HostRuntime, name: &str) -> Answer {
    match fs::metadata(rt, name) {
        Ok(found) => Answer::Permissions(found.mode() & 0o777),
        Err(_) => Answer::Broken,
    }
}

// Whether the text of a file is this one.
fn has_text(rt: &HostRuntime, name: &str, text: &str) -> Answer {
    match fs::read_to_string(rt, name) {
        Ok(found) => Answer::Is(found.as_str() == text),
        Err(_) => Answer::Broken,
    }
}

fn exists(rt: &HostRuntime, name: &str) -> Answer {
    match fs::exists(rt, name) {
        Ok(found) => Answer::Is(found),
        Err(_) => Answer::Broken,
    }
}

fn remove(rt: &HostRuntime, name: &str) -> Answer {
    let _ = fs::remove_file(rt, name);
    Answer::Done
}

// What a step of a peer gives, and what is seen of the buffer.
fn peer_step(talk: &mut Talk, step: Step) -> Answer {
    match step {
        Step::Connect => of_peer(connect(talk)),
        Step::Send(place, octets) => send(talk, place, octets),
        Step::Shut(place) => shut(talk, place),
        Step::Read(place) => read(talk, place),
        Step::Leave => leave(talk),
        Step::Buffer(octets) => Answer::Is(talk.buf.as_slice().starts_with(octets)),
        _ => Answer::Broken,
    }
}

// What a step of files gives.
fn file_step(rt: &HostRuntime, step: Step) -> Answer {
    match step {
        Step::Remove(name) => remove(rt, name),
        Step::Exists(name) => exists(rt, name),
        Step::Mode(name) => mode(rt, name),
        Step::Text(name, text) => has_text(rt, name, text),
        _ => Answer::Broken,
    }
}

// What a step of the link gives.
fn link_step(talk: &mut Talk, step: Step) -> Answer {
    let Talk {
        link,
        name,
        buf,
        ..
    } = talk;
    ask(link, name.as_str(), buf.as_mut_slice(), step).unwrap_or(Answer::Broken)
}

// What a step gives.
fn answer(talk: &mut Talk, step: Step) -> Answer {
    match step {
        Step::Connect
        | Step::Send(..)
        | Step::Shut(_)
        | Step::Read(_)
        | Step::Leave
        | Step::Buffer(_) => peer_step(talk, step),
        Step::Remove(_) | Step::Exists(_) | Step::Mode(_) | Step::Text(..) => file_step(
            &talk.rt, step,
        ),
        _ => link_step(talk, step),
    }
}

/// Each step gives what it is to give.
pub fn play(rt: &impl Abort, talk: &mut Talk, rows: &[Row]) {
    for (index, (step, want)) in rows.iter().enumerate() {
        let found = answer(talk, *step);
        assert_eq!(rt; found, *want, "step {index}");
    }
}

//! What a journal says of each connection, kept by number.

ghost use Rattle.std.specs.Prelude.{◌≡◌, ℕ, IsSome, OnOk, OnErr, true, false};
ghost use Rattle.std.specs.Ordering.{nat_cmp};
ghost use Rattle.std.specs.BTreeMap.{get};
ghost use Rattle.wire_io.specs.Peers.{KeepsPeers, ChangesPeer};

use crate::Item;
use std::alloc::{AllocError, Global};
use std::collections::BTreeMap;

/// What was done for one connection.
#[derive(Debug, Drop)]
pub(crate) struct Peer {
    pub(crate) taken: Vec<u8>,
    pub(crate) on_hold: bool,
    pub(crate) hung_up: bool,
}

#[tactic(auto, unfolding(crate::specs::Peers::KeepsPeers, crate::specs::Peers::ChangesPeer))]
/// Makes room for the connection, of which nothing may be kept yet.
pub(crate) fn add_peer(
    alloc: Global,
    peers: &mut BTreeMap<u32, Peer>,
    conn: u32,
) -> Result<(), AllocError>
    ensures ok { OnOk result (IsSome (get nat_cmp peers.new conn)) }
    ensures kept { KeepsPeers peers.old peers.new }
{
    if peers.contains_key(&conn) {
        return Ok(());
    }
    let peer = Peer {
        taken: Vec::new(alloc),
        on_hold: false,
        hung_up: false,
    };
    peers.insert(conn, peer)?;
    Ok(())
}

#[tactic(auto, unfolding(crate::specs::Peers::KeepsPeers, crate::specs::Peers::ChangesPeer))]
/// Adds octets taken for the connection, of which nothing may be kept yet. One that is kept is looked
/// up once.
pub(crate) fn take(
    alloc: Global,
    peers: &mut BTreeMap<u32, Peer>,
    conn: u32,
    octets: &[u8],
) -> Result<(), AllocError>
    ensures ok { OnOk result (ChangesPeer peers.old conn (Item.Taken conn octets.now) peers.new) }
    ensures err { OnErr result (KeepsPeers peers.old peers.new) }
{
    if let Some(peer) = peers.get_mut(&conn) {
        return peer.taken.extend_from_slice(octets);
    }
    let mut taken = Vec::new(alloc);
    taken.extend_from_slice(octets)?;
    let peer = Peer {
        taken,
        on_hold: false,
        hung_up: false,
    };
    peers.insert(conn, peer)?;
    Ok(())
}

#[tactic(auto, unfolding(crate::specs::Peers::KeepsPeers, crate::specs::Peers::ChangesPeer))]
/// Puts the connection, which is kept, on hold, or releases it.
pub(crate) fn set_on_hold(peers: &mut BTreeMap<u32, Peer>, conn: u32, on_hold: bool)
    requires { IsSome (get nat_cmp peers.old conn) }
    ensures held { on_hold ≡ true → ChangesPeer peers.old conn (Item.Held conn) peers.new }
    ensures released { on_hold ≡ false → ChangesPeer peers.old conn (Item.Released conn) peers.new }
{
    if let Some(peer) = peers.get_mut(&conn) {
        peer.on_hold = on_hold;
    }
}

#[tactic(auto, unfolding(crate::specs::Peers::KeepsPeers, crate::specs::Peers::ChangesPeer))]
/// Hangs up the connection, which is kept.
pub(crate) fn set_hung_up(peers: &mut BTreeMap<u32, Peer>, conn: u32)
    requires { IsSome (get nat_cmp peers.old conn) }
    ensures exact { ChangesPeer peers.old conn (Item.HungUp conn) peers.new }
{
    if let Some(peer) = peers.get_mut(&conn) {
        peer.on_hold = false;
        peer.hung_up = true;
    }
}

//! The server of a loop.

use crate::Hub;
use crate::waiting::Waiting;
use op_read::directory::Dir;
use session_model::wire_io::Link;
use std::marker::Model;

/// All sessions over a directory, who of them waits, and the link over which they are served. Contracts see
/// what of each is said in contracts, and by the names of its borrows which directory and which link it has.
#[derive(Drop)]
pub struct Server<'d, 'l, D: Dir, L: Link> {
    pub hub: Hub,
    pub waiting: Waiting,
    pub dir: &'d mut D,
    pub link: &'l mut L,
}

impl<'d, 'l, D: Dir, L: Link> Model for Server<'d, 'l, D, L> {
    ghost use Rattle.dir_tree.specs.tree.Numbered.{entries_of};
    ghost use Rattle.session_hub.specs.serve.Servers.{ServerState, state_of};

    ghost Value = { ServerState };

    ghost view = { λ server. record {
      hub = server.hub;
      entries = entries_of (D.rows server.dir.now);
      due = server.waiting.due.items;
      on_hold = server.waiting.on_hold.items;
      link = state_of L.Link server.link.now;
      borrows = (server.dir.ghost_name, server.link.ghost_name);
    } };
}

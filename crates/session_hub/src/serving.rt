//! Who is due in an event's block, served.

ghost use Rattle.std.specs.Prelude.{◌≡◌, [], OnErr};
ghost use Rattle.session_hub.specs.serve.Servers.{OnlyServes, OnlySettles, HasRefused};
ghost use Rattle.session_hub.specs.Adding.{Adds, IsServing, IsDue, IsOver, IsSent, IsFree, IsRefused, IsLost, SentAs};

use crate::sent::Sent;
use crate::server::Server;
use op_read::directory::Dir;
use session_model::wire_io::{Link, Took};
use std::alloc::AllocError;

impl<D: Dir, L: Link> Server<'_, '_, D, L> {
    /// Sends the connection's queue as far as the link takes it.
    fn send_queue(&mut self, conn: u32) -> Result<Sent, AllocError>
        requires { self.old.hub.unstored ≡ [] }
        ensures adds { Adds (IsDue conn) (SentAs conn result) self.old result self.new }
        ensures settles { OnlySettles self.old self.new }
        ensures cause { OnErr result (HasRefused self.old self.new) }
    {
        'sending: loop {
            let queue = self.hub.queue(conn);
            if queue.is_empty() {
                return Ok(Sent::All);
            }
            match self.link.write(conn, queue) {
                Took::Took(count) => self.hub.took(conn, count),
                Took::Later => return Ok(Sent::Later),
                Took::Gone => return Ok(Sent::Gone),
                Took::NoMemory => return Err(AllocError),
            }
        }
    }

    /// Forgets a connection that was found lost, and hangs it up.
    fn drop_lost(&mut self, conn: u32) -> Result<(), AllocError>
        ensures adds { Adds (IsLost conn) IsServing self.old result self.new }
        ensures settles { OnlySettles self.old self.new }
        ensures cause { OnErr result (HasRefused self.old self.new) }
    {
        self.hub.gone(conn);
        match self.link.hang_up(conn) {
            Ok(()) => {
                self.waiting.release(conn);
                Ok(())
            }
            Err(_) => Err(AllocError),
        }
    }

    /// Puts a connection on hold that takes no more now, unless it is on hold already.
    fn hold_back(&mut self, conn: u32) -> Result<(), AllocError>
        ensures adds { Adds (IsRefused conn) IsServing self.old result self.new }
        ensures settles { OnlySettles self.old self.new }
        ensures cause { OnErr result (HasRefused self.old self.new) }
    {
        if self.waiting.is_on_hold(conn) {
            return Ok(());
        }
        self.waiting.hold(conn);
        self.link.hold(conn)
    }

    /// Releases a connection to which nothing is left to be sent, if it is on hold.
    fn let_go(&mut self, conn: u32) -> Result<(), AllocError>
        ensures adds { Adds (IsSent conn) (IsFree conn) self.old result self.new }
        ensures settles { OnlySettles self.old self.new }
        ensures cause { OnErr result (HasRefused self.old self.new) }
    {
        if !self.waiting.is_on_hold(conn) {
            return Ok(());
        }
        match self.link.release(conn) {
            Ok(()) => {
                self.waiting.release(conn);
                Ok(())
            }
            Err(_) => Err(AllocError),
        }
    }

    /// Hangs up a connection to which nothing is left to be sent, if it is closing.
    fn hang_up_closing(&mut self, conn: u32) -> Result<(), AllocError>
        ensures adds { Adds (IsFree conn) IsServing self.old result self.new }
        ensures settles { OnlySettles self.old self.new }
        ensures cause { OnErr result (HasRefused self.old self.new) }
    {
        if !self.hub.closing(conn) {
            return Ok(());
        }
        match self.link.hang_up(conn) {
            Ok(()) => {
                self.hub.drop_conn(conn);
                Ok(())
            }
            Err(_) => Err(AllocError),
        }
    }

    /// Ends what is to be done for a connection whose queue was sent.
    fn finish(&mut self, conn: u32) -> Result<(), AllocError>
        ensures adds { Adds (IsSent conn) IsServing self.old result self.new }
        ensures settles { OnlySettles self.old self.new }
        ensures cause { OnErr result (HasRefused self.old self.new) }
    {
        match self.let_go(conn) {
            Ok(()) => self.hang_up_closing(conn),
            Err(_) => Err(AllocError),
        }
    }

    /// Does what is due for a connection: its queue is sent, and it is held back where it takes no more
    /// now, dropped where it was found lost, and hung up where it is closing and nothing is left.
    fn settle(&mut self, conn: u32) -> Result<(), AllocError>
        requires { self.old.hub.unstored ≡ [] }
        ensures adds { Adds (IsDue conn) IsServing self.old result self.new }
        ensures settles { OnlySettles self.old self.new }
        ensures cause { OnErr result (HasRefused self.old self.new) }
    {
        match self.send_queue(conn) {
            Ok(Sent::All) => self.finish(conn),
            Ok(Sent::Later) => self.hold_back(conn),
            Ok(Sent::Gone) => self.drop_lost(conn),
            Err(_) => Err(AllocError),
        }
    }

    /// Does what is due for each connection that is.
    pub fn settle_all(&mut self) -> Result<(), AllocError>
        requires { self.old.hub.unstored ≡ [] }
        ensures adds { Adds IsServing IsOver self.old result self.new }
        ensures serves { OnlyServes self.old self.new }
        ensures cause { OnErr result (HasRefused self.old self.new) }
    {
        'settling: while let Some(conn) = self.waiting.next_due() {
            match self.settle(conn) {
                Ok(()) => {}
                Err(_) => return Err(AllocError),
            }
        }
        Ok(())
    }
}

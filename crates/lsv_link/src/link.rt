ghost use Rattle.std.specs.Prelude.{◌≡◌, ◌<◌, length, IsErr};
ghost use Rattle.lsv_port.specs.Port.{TakesWithin, GivesWithin};
ghost use Rattle.lsv_link.specs.Link.{LinkState, LinkCounts, HasConnectCause, HasReadCause, HasWriteCause, Connects, IsConnected, after_read, after_write, after_renew, after_close};

use lsv_port::{Gave, Took};
use thiserror::Error;

/// A connection couldn't be made.
#[derive(Clone, Copy, Debug, PartialEq, Eq, Error)]
#[error("the connection failed")]
pub struct LinkFault;

/// An outgoing link, which has one open connection at most. A connection has 30 s from when it was made, or was renewed
/// last. A write, and a read that may wait, wait no longer than that.
pub trait Link {
    ghost use Rattle.lsv_link.specs.Link.{LinkState, LinkCounts};

    /// Whether this type tells its content: what it says of its connections is promised if it does.
    ghost tells: { Type 0 };

    /// The connections so far: what was read and written on each.
    ghost state: { Self → LinkState };

    /// How often its calls failed, or answered that they would have to wait. Each count rises by such an answer alone.
    ghost counts: { Self → LinkCounts };

    /// Connects to a host, `host:port` or `[address]:port`. A connection that is open is closed first.
    fn connect(&mut self, host: &str) -> Result<(), LinkFault>
        ensures change { tells → Connects result host.now (state self.old) (state self.new) }
        ensures cause { HasConnectCause (IsErr result) (counts self.old) (counts self.new) };

    /// Reads what has come, as much as the buffer takes. With `wait` it waits until something comes. The answer is NotYet
    /// if nothing is there, or with `wait` if the connection's time is over.
    fn read(&mut self, buf: &mut [u8], wait: bool) -> Took
        requires connected { tells → IsConnected (state self.old) }
        requires room { 0 < length buf.old }
        ensures within { TakesWithin result (length buf.old) }
        ensures change { tells → state self.new ≡ after_read result wait buf.new (state self.old) }
        ensures cause { HasReadCause result wait (counts self.old) (counts self.new) };

    /// Writes as many of these bytes as the connection takes. It waits until it takes some. The answer is NotYet if the
    /// connection's time is over.
    fn write(&mut self, bytes: &[u8]) -> Gave
        requires connected { tells → IsConnected (state self.old) }
        requires some { 0 < length bytes.now }
        ensures within { GivesWithin result (length bytes.now) }
        ensures change { tells → state self.new ≡ after_write result bytes.now (state self.old) }
        ensures cause { HasWriteCause result (counts self.old) (counts self.new) };

    /// Gives the open connection 30 s from now on.
    fn renew(&mut self)
        requires connected { tells → IsConnected (state self.old) }
        ensures change { tells → state self.new ≡ after_renew (state self.old) }
        ensures same { counts self.new ≡ counts self.old };

    /// Closes the open connection, if there is one. It stays as it was last.
    fn close(&mut self)
        ensures change { tells → state self.new ≡ after_close (state self.old) }
        ensures same { counts self.new ≡ counts self.old };
}

ghost use Rattle.std.specs.Prelude.{◌≡◌, ℕ, ◌<◌, true, length, IfOk, OnOk, OnErr, IsErr};
ghost use Rattle.std.specs.List.{Contains};
ghost use Rattle.lsv_defs.specs.Causes.{HasRisen};
ghost use Rattle.lsv_port.specs.Ledger.{PortLedger, Continues, HasListenCause, HasTurnCause, HasLinkCause, WasAsked};
ghost use Rattle.lsv_port.specs.Port.{PortState, IsOpen, IsOwed, IsSame, Changes, Told, TellsFault, TakesWithin, MayTake, GivesWithin, after_read, after_write, closed, is_over};

use thiserror::Error;

/// The port failed as a whole: it couldn't listen, or couldn't wait for its links.
#[derive(Clone, Copy, Debug, PartialEq, Eq, Error)]
#[error("the port failed")]
pub struct PortFault;

/// What a turn of a port tells. Links go by their numbers.
#[derive(Clone, Copy, Debug, PartialEq, Eq)]
pub enum Ready {
    /// A link was opened. Its number is new, and it is owed a read.
    Opened(u32),
    /// An open link, whose input hasn't ended, may have bytes: from now on it is owed a read.
    Readable(u32),
    /// An open link may take bytes again: it is no longer full.
    Writable(u32),
    /// Nothing of any link.
    Woken,
    /// The server is to end: it takes no more of what comes.
    Stop,
}

/// What a read of a link gave.
#[derive(Clone, Copy, Debug, PartialEq, Eq)]
pub enum Took {
    /// This many bytes, at least one, stand at the front of the buffer.
    Bytes(usize),
    /// None are there now. A later turn tells when there are some.
    NotYet,
    /// The input has ended.
    End,
    /// The read failed. The link stays open until it is closed.
    Failed,
}

/// What a write to a link did.
#[derive(Clone, Copy, Debug, PartialEq, Eq)]
pub enum Gave {
    /// This many of the bytes, at least one, were put.
    Bytes(usize),
    /// The link takes none now: it is full. A later turn tells when it takes some.
    NotYet,
    /// The write failed, and put none. The link stays open until it is closed.
    Failed,
}

/// Links that come and go. It is edge-triggered, as epoll(7) with EPOLLET: a turn tells once that a link may be
/// read, and from then on the link is owed a read, until a read of it gives no bytes. So whoever lets a link wait
/// that is owed keeps its number, and hands the next turn all of those.
pub trait Port {
    /// Whether this type tells its content: what it says of its links is promised where it does.
    ghost tells: { Type 0 };

    /// The links so far: which were opened, and of each what was read and put, and how it stands. And whether Stop was
    /// told, or the port failed as a whole.
    ghost state: { Self → PortState };

    /// What stays from call to call, whether it tells or not: its script, what it was asked to listen on, whether it made a
    /// turn, and the counts of its faults.
    ghost ledger: { Self → PortLedger };

    /// Begins to take links at this address, a host and a port number as `*:30343`. With a number in `stop_after`
    /// a turn tells Stop once this many links were opened and closed. A port that tells notes what it was asked to listen on,
    /// and whether it had made a turn by then; and it counts the calls that failed.
    fn listen(&mut self, address: &str, stop_after: Option<u32>) -> Result<(), PortFault>
        ensures same { tells → OnOk result (IsSame (state self.old) (state self.new)) }
        ensures failed { tells → OnErr result (TellsFault (state self.old) (state self.new)) }
        ensures asked { tells → WasAsked (record { address = address.now; stop_after = stop_after }) (IsErr result) (ledger self.old) (ledger self.new) }
        ensures deaf { tells → OnErr result (HasRisen (ledger self.old).deaf (ledger self.new).deaf) }
        ensures cause { HasListenCause (IsErr result) (ledger self.old) (ledger self.new) };

    /// Waits until there is something to tell, or a while. Each link that is owed a read stands among those held. Of a held
    /// link a turn needn't tell Readable, as its holder tries it in any case. So a link that is owed no read is held only
    /// where what still comes on it isn't wanted.
    fn turn(&mut self, held: &[u32]) -> Result<Ready, PortFault>
        requires held { tells → (link : ℕ) → IsOwed (state self.old) link → Contains held.now link }
        ensures told { tells → IfOk result (λ ready. Told ready (state self.old) (state self.new)) }
        ensures failed { tells → OnErr result (TellsFault (state self.old) (state self.new)) }
        ensures turned { tells → (ledger self.new).turned ≡ true }
        ensures cause { HasTurnCause (IsErr result) (ledger self.old) (ledger self.new) };

    /// Reads what has come on an open link, as much as the buffer takes. It never waits.
    fn read(&mut self, link: u32, buf: &mut [u8]) -> Took
        requires is_open { tells → IsOpen (state self.old) link }
        requires room { 0 < length buf.old }
        ensures within { TakesWithin result (length buf.old) }
        ensures change { tells → Changes link (after_read result buf.new ((state self.old).link link)) (state self.old) (state self.new) }
        ensures not_after_end { tells → MayTake result ((state self.old).link link) }
        ensures cause { HasLinkCause link (result ≡ Took.Failed) (ledger self.old) (ledger self.new) };

    /// Puts bytes on an open link, as many as it takes. It never waits.
    fn write(&mut self, link: u32, bytes: &[u8]) -> Gave
        requires is_open { tells → IsOpen (state self.old) link }
        requires some { 0 < length bytes.now }
        ensures within { GivesWithin result (length bytes.now) }
        ensures change { tells → Changes link (after_write result bytes.now ((state self.old).link link)) (state self.old) (state self.new) }
        ensures cause { HasLinkCause link (result ≡ Gave.Failed) (ledger self.old) (ledger self.new) };

    /// Closes an open link. What was told of it stays as it was last, with whether Stop or a failure of the port had come.
    fn close(&mut self, link: u32)
        requires is_open { tells → IsOpen (state self.old) link }
        ensures change { tells → Changes link (closed (is_over (state self.old)) ((state self.old).link link)) (state self.old) (state self.new) }
        ensures continues { Continues (ledger self.old) (ledger self.new) };

    /// A link that is open was opened.
    ghost open_was_opened: { tells → (port : Self) (link : ℕ) → IsOpen (state port) link → Contains (state port).opened link };
}

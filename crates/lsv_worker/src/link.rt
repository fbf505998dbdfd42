//! One connection: a link of the port, in both directions.

ghost use Rattle.std.specs.Prelude.{◌≡◌, ◌≢◌, ◌⊎◌, ℕ, ◌+◌, ◌<◌, ◌≤◌, List, [], ◌∷◌, ◌++◌, length, IfSome, IsTrue, None, true, false};
ghost use Rattle.std.specs.List.{All};
ghost use Rattle.lsv_port.specs.Ledger.{Continues};
ghost use Rattle.lsv_port.specs.Port.{Changes, IsOpen, LinkState, PortState, closed, is_over};
ghost use Rattle.lsv_session.specs.declared.job.Job.{Job};
ghost use Rattle.lsv_session.specs.declared.reply.Reply.{Reply};
ghost use Rattle.lsv_session.specs.declared.reply.ReplyBody.TheVariants as said;
ghost use Rattle.lsv_worker.specs.Incoming.{WasFull, has_left};
ghost use Rattle.lsv_worker.specs.Frames.{BothKeep, InboxKeeps, PortKeeps, PutsOwn};
ghost use Rattle.lsv_worker.specs.Links.{Closes, Fails, IsPassed, TouchesNone, IsReadOnce, IsReadWithin, IsSent, LeavesOutput, LetsEnd, LinkStep, MayRead, OwesNoMore, BlockHasReason, ReadsOn, ReasonOf, Remains, SameSides, Takes, is_done, is_out_of_memory, reads_in};

use crate::outgoing::{Outgoing, Sending};
use crate::{Inbox, Incoming, Stage, Why};
use lsv_msg::ServerMessage;
use lsv_port::{Port, Took};
use lsv_session::{ConnId, Reply, ReplyBody};

/// How far a worker is.
#[derive(Clone, Copy, Debug, PartialEq, Eq)]
pub enum Phase {
    /// Links are read and written.
    Going,
    /// Stop came. Each link is read until it is owed no read, and then its connection ends.
    Stopping,
    /// A turn of the port failed. No link is read, and each connection ends.
    Failed,
    /// The worker was stopped. Every link is closed, and no job is put.
    Stopped,
}

/// What keeps a link from being read.
#[derive(Clone, Copy, Debug, PartialEq, Eq)]
pub enum Blocked {
    /// Nothing: no read is owed.
    No,
    /// Its lane is full.
    InboxFull,
    /// 65,536 bytes or more are unsent.
    OutputFull,
    /// It was read 16 times in this call.
    ReadBudget,
    /// Memory ran out for it.
    OutOfMemory,
}

/// Bytes are below 256. It does nothing when it runs.
fn are_bytes(bytes: &[u8])
    ensures { All (λ b. b < 256) bytes.now }
{}

/// A connection: its link of the port, its way in and its way out.
#[derive(Debug, Drop)]
pub struct Link {
    pub(crate) number: u32,
    pub(crate) conn: ConnId,
    pub(crate) incoming: Incoming,
    pub(crate) outgoing: Outgoing,
    /// It is open in the port.
    pub(crate) live: bool,
    /// It is owed a read.
    pub(crate) owed: bool,
    /// Its Shut was taken.
    pub(crate) shut: bool,
    pub(crate) blocked: Blocked,
}

/// How many times a link is read in one call.
const MOST_READS: u32 = 16;

/// A link to which this many bytes are unsent isn't read.
const OUTPUT_FULL: usize = 65_536;

/// The length of the buffer that links are read into.
pub(crate) const PIECE: usize = 65_536;

impl Link {
    /// Puts the jobs of the kept bytes. True if its lane was full.
    fn advance<I: Inbox>(&mut self, inbox: &mut I) -> bool
        requires lanes { I.lanes inbox.old ≡ self.old.incoming.route.lanes }
        ensures step { (phase : Phase) (port : PortState) → LinkStep phase self.old self.new port port (I.jobs inbox.old) (I.jobs inbox.new) }
        ensures sides { SameSides self.old self.new }
        ensures remains { Remains self.old self.new }
        ensures own { PutsOwn self.old.conn.worker (I.jobs inbox.old) (I.jobs inbox.new) }
        ensures inbox { InboxKeeps I.lanes I.refused I.is_same inbox.old inbox.new }
        ensures full { IsTrue result → WasFull self.new.incoming.route (I.refused inbox.old) (I.refused inbox.new) }
    {
        self.incoming.advance(self.conn, inbox)
    }

    /// The link can't be used any more. It is closed, and no more bytes come.
    fn fail<P: Port>(&mut self, port: &mut P)
        requires is_open { P.tells → IsOpen (P.state port.old) self.old.number }
        ensures change { P.tells → Changes self.old.number (closed (is_over (P.state port.old)) ((P.state port.old).link self.old.number)) (P.state port.old) (P.state port.new) }
        ensures is { Fails self.old self.new }
        ensures continues { Continues (P.ledger port.old) (P.ledger port.new) }
    {
        port.close(self.number);
        self.live = false;
        self.outgoing.stop_sending(Sending::Failed);
        self.incoming.end();
    }

    /// Reads once, and puts the jobs of what was read while its lane has room.
    fn read_once<P: Port, I: Inbox>(
        &mut self,
        port: &mut P,
        inbox: &mut I,
        buffer: &mut [u8; PIECE],
    )
        requires lanes { I.lanes inbox.old ≡ self.old.incoming.route.lanes }
        requires is_open { P.tells → IsOpen (P.state port.old) self.old.number }
        requires owed { self.old.owed ≡ true }
        requires live { self.old.live ≡ true }
        ensures step { P.tells → (phase : Phase) → reads_in phase ≡ true → LinkStep phase self.old self.new (P.state port.old) (P.state port.new) (I.jobs inbox.old) (I.jobs inbox.new) }
        ensures is_open { P.tells → self.new.live ≡ true → IsOpen (P.state port.new) self.old.number }
        ensures once { P.tells → IsReadOnce self.new ((P.state port.old).link self.old.number) ((P.state port.new).link self.old.number) }
        ensures output { P.tells → LeavesOutput self.old self.new ((P.state port.old).link self.old.number) ((P.state port.new).link self.old.number) }
        ensures remains { Remains self.old self.new }
        ensures own { PutsOwn self.old.conn.worker (I.jobs inbox.old) (I.jobs inbox.new) }
        ensures keeps { BothKeep P.tells P.state P.ledger port.old port.new I.lanes I.refused I.is_same inbox.old inbox.new }
    {
        match port.read(self.number, buffer) {
            Took::Bytes(count) => {
                if self.incoming.stage.may_receive() {
                    are_bytes(buffer);
                    self.incoming.receive(&buffer[..count], self.conn, inbox);
                }
            }
            Took::NotYet => self.owed = false,
            Took::End => {
                self.owed = false;
                self.incoming.end();
            }
            Took::Failed => {
                self.owed = false;
                self.fail(port);
            }
        }
    }

    /// Puts the jobs of the kept bytes, and then reads on. Returns what stopped it.
    fn read_on<P: Port, I: Inbox>(
        &mut self,
        port: &mut P,
        inbox: &mut I,
        buffer: &mut [u8; PIECE],
        phase: Phase,
    ) -> Blocked
        requires lanes { I.lanes inbox.old ≡ self.old.incoming.route.lanes }
        requires phase { reads_in phase ≡ true }
        requires is_open { P.tells → self.old.live ≡ true → IsOpen (P.state port.old) self.old.number }
        ensures step { P.tells → LinkStep phase self.old self.new (P.state port.old) (P.state port.new) (I.jobs inbox.old) (I.jobs inbox.new) }
        ensures reads { P.tells → ReadsOn phase self.old self.new ((P.state port.old).link self.old.number) ((P.state port.new).link self.old.number) }
        ensures remains { Remains self.old self.new }
        ensures unblocked { result ≡ Blocked.No → self.new.live ≡ true → self.new.owed ≡ false }
        ensures reason { P.tells → ReasonOf result self.new ((P.state port.old).link self.old.number) ((P.state port.new).link self.old.number) (I.refused inbox.old) (I.refused inbox.new) }
        ensures limits { P.tells → IsReadWithin phase self.new ((P.state port.old).link self.old.number) ((P.state port.new).link self.old.number) }
        ensures own { PutsOwn self.old.conn.worker (I.jobs inbox.old) (I.jobs inbox.new) }
        ensures keeps { BothKeep P.tells P.state P.ledger port.old port.new I.lanes I.refused I.is_same inbox.old inbox.new }
    {
        if self.advance(inbox) {
            return Blocked::InboxFull;
        }
        self.read_all(port, inbox, buffer, phase)
    }

    /// Reads, and puts the jobs of each read, until something stops it. Returns what.
    fn read_all<P: Port, I: Inbox>(
        &mut self,
        port: &mut P,
        inbox: &mut I,
        buffer: &mut [u8; PIECE],
        phase: Phase,
    ) -> Blocked
        requires lanes { I.lanes inbox.old ≡ self.old.incoming.route.lanes }
        requires phase { reads_in phase ≡ true }
        requires is_open { P.tells → self.old.live ≡ true → IsOpen (P.state port.old) self.old.number }
        ensures step { P.tells → LinkStep phase self.old self.new (P.state port.old) (P.state port.new) (I.jobs inbox.old) (I.jobs inbox.new) }
        ensures reads { P.tells → ReadsOn phase self.old self.new ((P.state port.old).link self.old.number) ((P.state port.new).link self.old.number) }
        ensures remains { Remains self.old self.new }
        ensures unblocked { result ≡ Blocked.No → self.new.live ≡ true → self.new.owed ≡ false }
        ensures reason { P.tells → ReasonOf result self.new ((P.state port.old).link self.old.number) ((P.state port.new).link self.old.number) (I.refused inbox.old) (I.refused inbox.new) }
        ensures limits { P.tells → IsReadWithin phase self.new ((P.state port.old).link self.old.number) ((P.state port.new).link self.old.number) }
        ensures own { PutsOwn self.old.conn.worker (I.jobs inbox.old) (I.jobs inbox.new) }
        ensures keeps { BothKeep P.tells P.state P.ledger port.old port.new I.lanes I.refused I.is_same inbox.old inbox.new }
    {
        'reads: for k in 0..MOST_READS {
            if let Some(blocked) = self.blocked_now(phase) {
                return blocked;
            }
            self.read_once(port, inbox, buffer);
            if self.advance(inbox) {
                return Blocked::InboxFull;
            }
        }
        if !self.is_owed() {
            return Blocked::No;
        }
        Blocked::ReadBudget
    }

    /// What keeps it from being read now. None if it may be read.
    fn blocked_now(&self, phase: Phase) -> Option<Blocked>
        ensures may { result ≡ None → MayRead phase self.now }
        ensures unblocked { IfSome result (λ blocked. blocked ≡ Blocked.No → self.now.live ≡ true → self.now.owed ≡ false) }
        ensures reason { IfSome result (λ blocked. (before after : LinkState) (refused_before refused_after : ℕ → ℕ) → ReasonOf blocked self.now before after refused_before refused_after) }
    {
        if !self.is_owed() {
            return Some(Blocked::No);
        }
        if self.is_out_of_memory() {
            return Some(Blocked::OutOfMemory);
        }
        if self.is_output_full(phase) {
            return Some(Blocked::OutputFull);
        }
        None
    }

    /// Whether it is open and owed a read.
    fn is_owed(&self) -> bool
        ensures yes { result ≡ true → (self.now.live ≡ true) × (self.now.owed ≡ true) }
        ensures no { result ≡ false → self.now.live ≡ true → self.now.owed ≡ false }
    {
        self.live && self.owed
    }

    /// Whether memory ran out for it.
    fn is_out_of_memory(&self) -> bool
        ensures { result ≡ is_out_of_memory self.now }
    {
        self.incoming.stage.is_out_of_memory() || !self.outgoing.has_kept_up()
    }

    /// Whether too much is unsent for it to be read. After Stop it is read in any case.
    fn is_output_full(&self, phase: Phase) -> bool
        ensures yes { result ≡ true → 65536 ≤ length self.now.outgoing.unsent }
        ensures no { result ≡ false → phase ≡ Phase.Going → length self.now.outgoing.unsent < 65536 }
    {
        phase == Phase::Going && self.outgoing.unsent.as_slice().len() >= OUTPUT_FULL
    }

    /// No more bytes come. Puts the rest of its jobs. True if its lane was full.
    fn finish<I: Inbox>(&mut self, inbox: &mut I) -> bool
        requires lanes { I.lanes inbox.old ≡ self.old.incoming.route.lanes }
        ensures step { (phase : Phase) (port : PortState) → ((s : LinkState) → s.owed ≡ self.old.owed → LetsEnd phase s) → LinkStep phase self.old self.new port port (I.jobs inbox.old) (I.jobs inbox.new) }
        ensures sides { SameSides self.old self.new }
        ensures remains { Remains self.old self.new }
        ensures own { PutsOwn self.old.conn.worker (I.jobs inbox.old) (I.jobs inbox.new) }
        ensures inbox { InboxKeeps I.lanes I.refused I.is_same inbox.old inbox.new }
        ensures full { IsTrue result → WasFull self.new.incoming.route (I.refused inbox.old) (I.refused inbox.new) }
    {
        self.incoming.end();
        self.advance(inbox)
    }

    /// Whether it is to be closed: it was shut, and nothing is unsent or Stop or a port fault came.
    fn is_finished(&self, phase: Phase) -> bool
        ensures shut { result ≡ true → self.now.shut ≡ true }
        ensures sent { result ≡ true → phase ≡ Phase.Going → self.now.outgoing.unsent ≡ [] }
    {
        self.shut && (self.outgoing.unsent.as_slice().is_empty() || phase != Phase::Going)
    }

    /// Writes what is unsent, if the link is open. If it was shut, it is closed once nothing is unsent. After Stop or a port
    /// fault it is closed in any case.
    fn send<P: Port>(&mut self, port: &mut P, phase: Phase)
        requires is_open { P.tells → self.old.live ≡ true → IsOpen (P.state port.old) self.old.number }
        ensures step { P.tells → (jobs : ℕ → List Job) → LinkStep phase self.old self.new (P.state port.old) (P.state port.new) jobs jobs }
        ensures is_open { P.tells → self.new.live ≡ true → IsOpen (P.state port.new) self.old.number }
        ensures reads { P.tells → ((P.state port.new).link self.old.number).reads ≡ ((P.state port.old).link self.old.number).reads }
        ensures written { P.tells → IsSent self.new ((P.state port.new).link self.old.number) }
        ensures remains { Remains self.old self.new }
        ensures mute { P.tells → self.old.outgoing.unsent ≡ [] → ((P.state port.new).link self.old.number).output ≡ ((P.state port.old).link self.old.number).output }
        ensures balance { P.tells → self.new.live ≡ true → self.old.outgoing.sending ≡ Sending.Open → length self.new.outgoing.unsent + length ((P.state port.new).link self.old.number).output ≡ length self.old.outgoing.unsent + length ((P.state port.old).link self.old.number).output }
        ensures port { PortKeeps P.tells P.state P.ledger port.old port.new }
    {
        if !self.live {
            return;
        }
        if self.outgoing.write(self.number, port) {
            self.fail(port);
            return;
        }
        if self.is_finished(phase) {
            port.close(self.number);
            self.live = false;
            return;
        }
    }

    /// Writes, reads and puts jobs, as far as it may. Notes what stopped it.
    pub(crate) fn service<P: Port, I: Inbox>(
        &mut self,
        port: &mut P,
        inbox: &mut I,
        buffer: &mut [u8; PIECE],
        phase: Phase,
    )
        requires lanes { I.lanes inbox.old ≡ self.old.incoming.route.lanes }
        requires is_open { P.tells → self.old.live ≡ true → IsOpen (P.state port.old) self.old.number }
        requires mute { P.tells → self.old.outgoing.sending ≢ Sending.Open → self.old.outgoing.unsent ≡ [] }
        ensures step { P.tells → LinkStep phase self.old self.new (P.state port.old) (P.state port.new) (I.jobs inbox.old) (I.jobs inbox.new) }
        ensures remains { Remains self.old self.new }
        ensures passed { P.tells → IsPassed phase self.old self.new ((P.state port.old).link self.old.number) ((P.state port.new).link self.old.number) (I.refused inbox.old) (I.refused inbox.new) }
        ensures unblocked { reads_in phase ≡ true → self.new.blocked ≡ Blocked.No → self.new.live ≡ true → self.new.owed ≡ false }
        ensures limits { P.tells → IsReadWithin phase self.new ((P.state port.old).link self.old.number) ((P.state port.new).link self.old.number) }
        ensures stopped { phase ≡ Phase.Stopped → (m : ℕ) → I.jobs inbox.new m ≡ I.jobs inbox.old m }
        ensures own { PutsOwn self.old.conn.worker (I.jobs inbox.old) (I.jobs inbox.new) }
        ensures keeps { BothKeep P.tells P.state P.ledger port.old port.new I.lanes I.refused I.is_same inbox.old inbox.new }
    {
        self.send(port, phase);
        self.receive(port, inbox, buffer, phase);
    }

    /// Reads and puts jobs, as far as the phase allows. Notes what stopped it.
    fn receive<P: Port, I: Inbox>(
        &mut self,
        port: &mut P,
        inbox: &mut I,
        buffer: &mut [u8; PIECE],
        phase: Phase,
    )
        requires lanes { I.lanes inbox.old ≡ self.old.incoming.route.lanes }
        requires is_open { P.tells → self.old.live ≡ true → IsOpen (P.state port.old) self.old.number }
        ensures step { P.tells → LinkStep phase self.old self.new (P.state port.old) (P.state port.new) (I.jobs inbox.old) (I.jobs inbox.new) }
        ensures reads { P.tells → ReadsOn phase self.old self.new ((P.state port.old).link self.old.number) ((P.state port.new).link self.old.number) }
        ensures remains { Remains self.old self.new }
        ensures unblocked { reads_in phase ≡ true → self.new.blocked ≡ Blocked.No → self.new.live ≡ true → self.new.owed ≡ false }
        ensures reason { P.tells → BlockHasReason self.new ((P.state port.old).link self.old.number) ((P.state port.new).link self.old.number) (I.refused inbox.old) (I.refused inbox.new) }
        ensures limits { P.tells → IsReadWithin phase self.new ((P.state port.old).link self.old.number) ((P.state port.new).link self.old.number) }
        ensures stopped { phase ≡ Phase.Stopped → (m : ℕ) → I.jobs inbox.new m ≡ I.jobs inbox.old m }
        ensures own { PutsOwn self.old.conn.worker (I.jobs inbox.old) (I.jobs inbox.new) }
        ensures keeps { BothKeep P.tells P.state P.ledger port.old port.new I.lanes I.refused I.is_same inbox.old inbox.new }
    {
        match phase {
            Phase::Going => self.blocked = self.read_on(port, inbox, buffer, phase),
            Phase::Stopping => {
                self.blocked = self.read_on(port, inbox, buffer, phase);
                if !self.owed {
                    self.finish_off(inbox, phase);
                }
            }
            Phase::Failed => self.finish_off(inbox, phase),
            Phase::Stopped => self.blocked = Blocked::No,
        }
    }

    /// No more bytes come. Puts the rest of its jobs, and notes whether its lane was full.
    fn finish_off<I: Inbox>(&mut self, inbox: &mut I, phase: Phase)
        requires lanes { I.lanes inbox.old ≡ self.old.incoming.route.lanes }
        requires lets { (s : LinkState) → s.owed ≡ self.old.owed → LetsEnd phase s }
        ensures step { (port : PortState) → LinkStep phase self.old self.new port port (I.jobs inbox.old) (I.jobs inbox.new) }
        ensures sides { SameSides self.old self.new }
        ensures remains { Remains self.old self.new }
        ensures reason { (before after : LinkState) (counts : ℕ → ℕ) → ((m : ℕ) → counts m ≤ I.refused inbox.old m) → BlockHasReason self.new before after counts (I.refused inbox.new) }
        ensures own { PutsOwn self.old.conn.worker (I.jobs inbox.old) (I.jobs inbox.new) }
        ensures inbox { InboxKeeps I.lanes I.refused I.is_same inbox.old inbox.new }
    {
        if self.finish(inbox) {
            self.blocked = Blocked::InboxFull;
            return;
        }
        self.blocked = Blocked::No;
    }

    /// Takes a message to the peer. If memory runs out, nothing more is sent to it and nothing more is read from it.
    fn say(&mut self, message: &ServerMessage)
        ensures takes { (reply : Reply) (port : PortState) → reply.conn ≡ self.old.conn → reply.body ≡ said.Say message.now → Takes reply self.old self.new port port }
        ensures remains { Remains self.old self.new }
    {
        if self.shut {
            self.outgoing.stop_sending(Sending::Over);
            return;
        }
        if !self.live {
            self.outgoing.stop_sending(Sending::Over);
            return;
        }
        if self.outgoing.say(message) {
            return;
        }
        self.incoming.run_out_of_memory();
    }

    /// Takes a Shut. The link is closed at once if nothing is unsent. A `Shut` marked `last` is ignored until the connection's
    /// end was put.
    fn take_shut<P: Port>(&mut self, last: bool, port: &mut P)
        requires is_open { P.tells → self.old.live ≡ true → IsOpen (P.state port.old) self.old.number }
        ensures takes { P.tells → (reply : Reply) → reply.conn ≡ self.old.conn → reply.body ≡ said.Shut → reply.last ≡ last → Takes reply self.old self.new (P.state port.old) (P.state port.new) }
        ensures remains { Remains self.old self.new }
        ensures quiet { P.tells → TouchesNone (P.state port.old) (P.state port.new) }
        ensures ignored { last ≡ true → has_left self.old.incoming.stage ≡ false → (self.new ≡ self.old) × (port.new ≡ port.old) }
        ensures owes { P.tells → OwesNoMore (P.state port.old) (P.state port.new) }
        ensures port { PortKeeps P.tells P.state P.ledger port.old port.new }
    {
        if last {
            if !self.incoming.stage.has_left() {
                return;
            }
            self.shut = true;
            self.close_sent(port);
            return;
        }
        self.shut = true;
        self.incoming.shut();
        self.close_sent(port);
    }

    /// Closes a link that was shut, if nothing is unsent.
    fn close_sent<P: Port>(&mut self, port: &mut P)
        requires is_open { P.tells → self.old.live ≡ true → IsOpen (P.state port.old) self.old.number }
        requires shut { self.old.shut ≡ true }
        ensures closes { P.tells → Closes self.old self.new (P.state port.old) (P.state port.new) }
        ensures remains { Remains self.old self.new }
        ensures quiet { P.tells → TouchesNone (P.state port.old) (P.state port.new) }
        ensures owes { P.tells → OwesNoMore (P.state port.old) (P.state port.new) }
        ensures port { PortKeeps P.tells P.state P.ledger port.old port.new }
    {
        if !self.live {
            return;
        }
        if self.outgoing.unsent.as_slice().is_empty() {
            port.close(self.number);
            self.live = false;
            return;
        }
    }

    /// Takes a reply.
    pub(crate) fn take<P: Port>(&mut self, reply: &Reply, port: &mut P)
        requires is_open { P.tells → self.old.live ≡ true → IsOpen (P.state port.old) self.old.number }
        ensures takes { P.tells → reply.now.conn ≡ self.old.conn → Takes reply.now self.old self.new (P.state port.old) (P.state port.new) }
        ensures remains { Remains self.old self.new }
        ensures quiet { P.tells → TouchesNone (P.state port.old) (P.state port.new) }
        ensures ignored { reply.now.body ≡ said.Shut → reply.now.last ≡ true → has_left self.old.incoming.stage ≡ false → (self.new ≡ self.old) × (port.new ≡ port.old) }
        ensures owes { P.tells → OwesNoMore (P.state port.old) (P.state port.new) }
        ensures port { PortKeeps P.tells P.state P.ledger port.old port.new }
    {
        match &reply.body {
            ReplyBody::Say(message) => {
                self.say(message);
                return;
            }
            ReplyBody::Shut => {
                self.take_shut(reply.last, port);
                return;
            }
        }
    }

    /// The link is closed, and nothing more is sent to it.
    pub(crate) fn stop<P: Port>(&mut self, port: &mut P)
        requires is_open { P.tells → self.old.live ≡ true → IsOpen (P.state port.old) self.old.number }
        ensures step { P.tells → (jobs : ℕ → List Job) → LinkStep Phase.Stopped self.old self.new (P.state port.old) (P.state port.new) jobs jobs }
        ensures live { self.new.live ≡ false }
        ensures remains { Remains self.old self.new }
        ensures quiet { P.tells → TouchesNone (P.state port.old) (P.state port.new) }
        ensures port { PortKeeps P.tells P.state P.ledger port.old port.new }
    {
        self.outgoing.stop_sending(Sending::Over);
        if !self.live {
            return;
        }
        port.close(self.number);
        self.live = false;
    }

    /// Whether the connection is over and may be forgotten. One that lost a reply because memory ran out is kept.
    pub(crate) fn is_done(&self) -> bool
        ensures { result ≡ is_done self.now }
    {
        !self.live && self.shut && self.incoming.stage.has_left() && self.outgoing.has_kept_up()
    }
}

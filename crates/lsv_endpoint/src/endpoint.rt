//! A worker with its port.

ghost use Rattle.std.specs.Prelude.{◌≡◌, ◌≤◌, [], ℕ, IfErr, IfOk};
ghost use Rattle.lsv_links.specs.Views.{PortView};
ghost use Rattle.std.specs.List.{Contains};
ghost use Rattle.lsv_worker.specs.Worker.{held_by, setting};
ghost use Rattle.lsv_endpoint.specs.Ports.{IsUnopened, view_by};
ghost use Rattle.lsv_endpoint.specs.InnerEndpoint.{HasPast, IsMade, PutsMore};

use crate::mode::Mode;
use lsv_port::Port;
use lsv_reactor::{Endpoint, EndpointEnd};
use lsv_session::{Reply, one_stream_has_one_list_of_jobs};
use lsv_worker::{Inbox, Worker};
use std::alloc::Global;

/// A worker with its port.
#[derive(Drop)]
pub struct WorkerEndpoint<P> {
    worker: Worker,
    port: P,
    mode: Mode,
    /// Replies were taken and not yet written.
    unsent: bool,
    /// A reply was lost: memory ran out for it, or it was to no connection. Or the endpoint was stopped. Later replies are dropped.
    lost: bool,
}

/// No link has this number.
const NO_LINK: &[u32] = &[0];

/// The links that a port is handed as held: those that its worker holds. Where none is and replies are unsent it is handed one
/// that isn't there, so that it doesn't wait.
fn held(worker: &Worker, unsent: bool) -> &[u32]
    ensures { (l : ℕ) → Contains (held_by worker.now) l → Contains result.now l }
{
    let held = worker.held();
    if held.is_empty() && unsent {
        return NO_LINK;
    }
    held
}

impl<P: Port + Drop> WorkerEndpoint<P> {
    /// An endpoint of this number, whose jobs go to 1 to 8 lanes, over a port that has not opened a link, has not told Stop and
    /// has not failed. Out of memory the port is given back.
    pub fn new(alloc: Global, number: u32, lanes: u32, port: P) -> Result<Self, P>
        requires lanes { (1 ≤ lanes) × (lanes ≤ 8) }
        requires idle { P.tells → IsUnopened (P.state port) }
        ensures made { IfOk result (λ endpoint. ⟦<WorkerEndpoint<P> as Endpoint>⟧.made_by (view_by P.state P.ledger port) endpoint (λ lane. []) []) }
        ensures number { IfOk result (λ endpoint. ⟦<WorkerEndpoint<P> as Endpoint>⟧.number endpoint ≡ number) }
        ensures lanes { IfOk result (λ endpoint. ⟦<WorkerEndpoint<P> as Endpoint>⟧.lanes endpoint ≡ lanes) }
        ensures back { IfErr result (λ given. given ≡ port) }
        ensures view { IfOk result (λ endpoint. ⟦<WorkerEndpoint<P> as Endpoint>⟧.view endpoint ≡ view_by P.state P.ledger port) }
    {
        let Ok(worker) = Worker::new(alloc, number, lanes) else {
            return Err(port);
        };
        Ok(WorkerEndpoint {
            worker,
            port,
            mode: Mode::Going,
            unsent: false,
            lost: false,
        })
    }
}

impl<P: Port> WorkerEndpoint<P> {
    /// Gives back its port.
    pub fn into_port(self) -> P
        ensures { view_by P.state P.ledger result ≡ ⟦<WorkerEndpoint<P> as Endpoint>⟧.view self }
    {
        self.port
    }

    /// Lets its port turn, and does what it tells. A turn that fails is for the worker to learn at the next `wait`.
    fn turn<I: Inbox>(&mut self, inbox: &mut I)
        requires lanes { I.lanes inbox.old ≡ (setting self.old.worker).lanes }
        requires past { HasPast P.tells P.state P.ledger self.old (I.jobs inbox.old) }
        requires going { self.old.mode ≡ Mode.Going }
        ensures puts { PutsMore P.tells P.state P.ledger self.old self.new (I.jobs inbox.old) (I.jobs inbox.new) }
        ensures same { I.is_same inbox.old inbox.new }
    {
        match self.port.turn(held(&self.worker, self.unsent)) {
            Ok(ready) => {
                self.unsent = false;
                self.mode = Mode::after(ready);
                self.worker.on(&mut self.port, ready, inbox);
            }
            Err(_) => {
                self.mode = Mode::Failing;
            }
        }
    }

    /// Its worker learns that the port failed: no link is read any more.
    fn fail<I: Inbox>(&mut self, inbox: &mut I)
        requires lanes { I.lanes inbox.old ≡ (setting self.old.worker).lanes }
        requires past { HasPast P.tells P.state P.ledger self.old (I.jobs inbox.old) }
        requires failing { self.old.mode ≡ Mode.Failing }
        ensures puts { PutsMore P.tells P.state P.ledger self.old self.new (I.jobs inbox.old) (I.jobs inbox.new) }
        ensures same { I.is_same inbox.old inbox.new }
    {
        self.mode = Mode::Failed;
        self.worker.turn_failed(&mut self.port, inbox);
    }

    /// Writes what is unsent, and reads where reading had stopped. After Stop or a port fault, a closed connection that is still
    /// in the table has lost a reply because memory ran out.
    fn try_links<I: Inbox>(&mut self, inbox: &mut I)
        requires lanes { I.lanes inbox.old ≡ (setting self.old.worker).lanes }
        requires past { HasPast P.tells P.state P.ledger self.old (I.jobs inbox.old) }
        ensures puts { PutsMore P.tells P.state P.ledger self.old self.new (I.jobs inbox.old) (I.jobs inbox.new) }
        ensures same { I.is_same inbox.old inbox.new }
    {
        let had_ended = self.worker.ended();
        self.worker.push_out(&mut self.port, inbox);
        self.unsent = false;
        if had_ended && !self.worker.is_empty() {
            self.lost = true;
        }
    }

    /// Does what comes next.
    fn go_on<I: Inbox>(&mut self, inbox: &mut I)
        requires lanes { I.lanes inbox.old ≡ (setting self.old.worker).lanes }
        requires past { HasPast P.tells P.state P.ledger self.old (I.jobs inbox.old) }
        ensures puts { PutsMore P.tells P.state P.ledger self.old self.new (I.jobs inbox.old) (I.jobs inbox.new) }
        ensures same { I.is_same inbox.old inbox.new }
    {
        match self.mode {
            Mode::Going => self.turn(inbox),
            Mode::Failing => self.fail(inbox),
            Mode::Stopping | Mode::Failed => self.try_links(inbox),
        }
    }
}

impl<P: Port> Endpoint for WorkerEndpoint<P> {
    ghost tells = { P.tells };

    ghost Start = { PortView };

    ghost begun = { λ start. start };

    ghost view = { λ endpoint. view_by P.state P.ledger endpoint.port };

    ghost number = { λ endpoint. (setting endpoint.worker).number };

    ghost lanes = { λ endpoint. (setting endpoint.worker).lanes };

    ghost made_by = { λ start endpoint gave took. IsMade P.tells P.state P.ledger start endpoint gave took };

    // It says nothing here: that a turn has one call's jobs is proved for any endpoint (lsv_reactor).
    ghost called = { λ endpoint calls. Unit {0} };

    fn open(&mut self, address: &str, stop_after: Option<u32>) -> bool {
        let listens = self.port.listen(address, stop_after).is_ok();
        if !listens {
            self.mode = self.mode.deafened();
        }
        listens
    }

    fn wait<I: Inbox>(&mut self, inbox: &mut I) {
        self.go_on(inbox);
    }

    fn push<I: Inbox>(&mut self, inbox: &mut I) {
        self.try_links(inbox);
    }

    fn waits(&self) -> bool {
        self.mode == Mode::Going
    }

    /// After a reply that was lost each one is dropped: what is put on a link stays a prefix of its answers.
    fn take(&mut self, reply: Reply) {
        if self.lost {
            return;
        }
        if !self.worker.has_made(reply.conn.seq) {
            self.lost = true;
            return;
        }
        self.unsent = true;
        self.worker.take(reply, &mut self.port);
    }

    fn end(&self) -> Option<EndpointEnd> {
        one_stream_has_one_list_of_jobs();
        if self.lost {
            return Some(EndpointEnd::Lost);
        }
        if !self.worker.ended() {
            return None;
        }
        if !self.worker.is_empty() {
            return None;
        }
        self.mode.end()
    }

    fn stop(&mut self) {
        one_stream_has_one_list_of_jobs();
        self.worker.stop(&mut self.port);
        self.lost = true;
    }

    ghost none_called = { λ start endpoint made. tt };
}

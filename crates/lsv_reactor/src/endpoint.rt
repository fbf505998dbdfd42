ghost use Rattle.std.specs.Prelude.{◌≡◌, ◌∷◌, [], ◌++◌, ℕ, List, Some, true, false};
ghost use Rattle.lsv_defs.specs.Causes.{HasRisen};
ghost use Rattle.lsv_port.specs.Ledger.{Continues, HasListenCause, WasAsked};
ghost use Rattle.lsv_session.specs.declared.job.Job.{Job};
ghost use Rattle.lsv_session.specs.declared.reply.Reply.{Reply};
ghost use Rattle.lsv_links.specs.Links.{PutsPrefixes};
ghost use Rattle.lsv_links.specs.Views.{PortFailed};
ghost use Rattle.lsv_worker.specs.Frames.{PutsOwn};
ghost use Rattle.lsv_reactor.specs.Calls.{call_of};
ghost use Rattle.lsv_reactor.specs.Endpoints.{Serves};

use lsv_session::Reply;
use lsv_worker::Inbox;

/// How an endpoint came to its end.
#[derive(Clone, Copy, Debug, PartialEq, Eq)]
pub enum EndpointEnd {
    /// Its port told Stop, and all its connections have gone and were shut.
    Stopped,
    /// The same, but that its port couldn't listen, or a turn of it failed.
    Failed,
    /// It was stopped; or it lost a reply, for which memory ran out or which was to no connection. `stop` says what is said of its
    /// links then.
    Lost,
}

/// What serves the links of one port: it turns what comes on them into jobs, which it puts into the inbox of their lane, and
/// replies into what is put on them. It has no inbox of its own.
pub trait Endpoint {
    ghost use Rattle.std.specs.Prelude.{ℕ, List};
    ghost use Rattle.lsv_session.specs.declared.job.Job.{Job};
    ghost use Rattle.lsv_session.specs.declared.reply.Reply.{Reply};
    ghost use Rattle.lsv_links.specs.Views.{PortView};

    /// Whether its port tells its content.
    ghost tells: { Type 0 };

    /// From what an endpoint may have begun.
    ghost Start: { Type 0 };

    /// The port as it was then, and as it is now.
    ghost begun: { Start → PortView };

    ghost view: { Self → PortView };

    /// The number that its connections have in common.
    ghost number: { Self → ℕ };

    /// To how many lanes its jobs go.
    ghost lanes: { Self → ℕ };

    /// From this start on, these are the jobs that it put to each lane, and the replies that it took.
    ghost made_by: { Start → Self → (ℕ → List Job) → List Reply → Type 0 };

    /// What its calls of `wait` and `push` put to lane 0, a list for each call that put something. It is known only if each call was
    /// given an empty inbox: so it says nothing for threads, where a turn's gap takes its place.
    ghost called: { Self → List (List Job) → Type 0 };

    /// Begins to take links at this address, a host and a port number. With a number in `stop_after` its port tells Stop once
    /// this many links were opened and closed. False where the port can't listen: that is a failure of it, which `wait` acts on.
    /// A port that tells notes what it was asked to listen on, and whether it had made a turn by then; and it counts the calls
    /// that failed.
    fn open(&mut self, address: &str, stop_after: Option<u32>) -> bool
        requires begun { (start : Start) × (gave : ℕ → List Job) × (took : List Reply) × made_by start self.old gave took }
        ensures made { (start : Start) (gave : ℕ → List Job) (took : List Reply) → made_by start self.old gave took → made_by start self.new gave took }
        ensures called { (calls : List (List Job)) → called self.old calls → called self.new calls }
        ensures number { number self.new ≡ number self.old }
        ensures lanes { lanes self.new ≡ lanes self.old }
        ensures asked { tells → WasAsked (record { address = address.now; stop_after = stop_after }) (result ≡ false) (view self.old).ledger (view self.new).ledger }
        ensures deaf { tells → result ≡ false → HasRisen (view self.old).ledger.deaf (view self.new).ledger.deaf }
        ensures cause { HasListenCause (result ≡ false) (view self.old).ledger (view self.new).ledger };

    /// Waits until its port tells something, or a while, and does what that asks for. What comes of it is put to the inbox, after
    /// what stands there, and is of its own connections. A job for which its lane has no room is kept.
    fn wait<I: Inbox>(&mut self, inbox: &mut I)
        requires lanes { I.lanes inbox.old ≡ lanes self.old }
        requires begun { (start : Start) × (gave : ℕ → List Job) × (took : List Reply) × made_by start self.old (λ lane. gave lane ++ I.jobs inbox.old lane) took }
        ensures made { (start : Start) (gave : ℕ → List Job) (took : List Reply) → made_by start self.old (λ lane. gave lane ++ I.jobs inbox.old lane) took → made_by start self.new (λ lane. gave lane ++ I.jobs inbox.new lane) took }
        ensures called { (calls : List (List Job)) → ((lane : ℕ) → I.jobs inbox.old lane ≡ []) → called self.old calls → called self.new (calls ++ call_of (I.jobs inbox.new 0)) }
        ensures own { PutsOwn (number self.old) (I.jobs inbox.old) (I.jobs inbox.new) }
        ensures number { number self.new ≡ number self.old }
        ensures lanes { lanes self.new ≡ lanes self.old }
        ensures continues { Continues (view self.old).ledger (view self.new).ledger }
        ensures same { I.is_same inbox.old inbox.new };

    /// Does what can be done without waiting: it writes what is unsent, and reads where reading had stopped. What comes of it is put
    /// as `wait` puts it.
    fn push<I: Inbox>(&mut self, inbox: &mut I)
        requires lanes { I.lanes inbox.old ≡ lanes self.old }
        requires begun { (start : Start) × (gave : ℕ → List Job) × (took : List Reply) × made_by start self.old (λ lane. gave lane ++ I.jobs inbox.old lane) took }
        ensures made { (start : Start) (gave : ℕ → List Job) (took : List Reply) → made_by start self.old (λ lane. gave lane ++ I.jobs inbox.old lane) took → made_by start self.new (λ lane. gave lane ++ I.jobs inbox.new lane) took }
        ensures called { (calls : List (List Job)) → ((lane : ℕ) → I.jobs inbox.old lane ≡ []) → called self.old calls → called self.new (calls ++ call_of (I.jobs inbox.new 0)) }
        ensures own { PutsOwn (number self.old) (I.jobs inbox.old) (I.jobs inbox.new) }
        ensures number { number self.new ≡ number self.old }
        ensures lanes { lanes self.new ≡ lanes self.old }
        ensures continues { Continues (view self.old).ledger (view self.new).ledger }
        ensures same { I.is_same inbox.old inbox.new };

    /// Whether the next `wait` lets its port turn, and so may take a while. A hint: no clause speaks of it.
    fn waits(&self) -> bool;

    /// Takes a reply to one of its connections. What it says is put by the next `wait` or `push`.
    fn take(&mut self, reply: Reply)
        requires begun { (start : Start) × (gave : ℕ → List Job) × (took : List Reply) × made_by start self.old gave took }
        requires own { reply.conn.worker ≡ number self.old }
        ensures made { (start : Start) (gave : ℕ → List Job) (took : List Reply) → made_by start self.old gave took → made_by start self.new gave (took ++ reply ∷ []) }
        ensures called { (calls : List (List Job)) → called self.old calls → called self.new calls }
        ensures number { number self.new ≡ number self.old }
        ensures lanes { lanes self.new ≡ lanes self.old }
        ensures continues { Continues (view self.old).ledger (view self.new).ledger };

    /// Whether it came to its end, and how: nothing more is to come of it then.
    fn end(&self) -> Option<EndpointEnd>
        ensures stopped { tells → result ≡ Some EndpointEnd.Stopped → (start : Start) (gave : ℕ → List Job) (took : List Reply) → made_by start self.now gave took →
            Serves (lanes self.now) (number self.now) gave took (begun start) (view self.now) × ((view self.now).state.stopped ≡ true) }
        ensures failed { tells → result ≡ Some EndpointEnd.Failed → (start : Start) (gave : ℕ → List Job) (took : List Reply) → made_by start self.now gave took →
            Serves (lanes self.now) (number self.now) gave took (begun start) (view self.now) }
        ensures cause { result ≡ Some EndpointEnd.Failed → (start : Start) (gave : ℕ → List Job) (took : List Reply) → made_by start self.now gave took → PortFailed (begun start) (view self.now) };

    /// Closes all its links. No job comes of it any more. The jobs that it put are the first of what was read of the links.
    /// Those of a connection went to one lane, the one that they decide if they decide one. Nothing was put on the links but
    /// prefixes of the answers by the replies that it took.
    fn stop(&mut self)
        requires begun { (start : Start) × (gave : ℕ → List Job) × (took : List Reply) × made_by start self.old gave took }
        ensures put { tells → (start : Start) (gave : ℕ → List Job) (took : List Reply) → made_by start self.old gave took → PutsPrefixes (lanes self.old) (number self.old) gave (λ lane. took) (begun start) (view self.new) }
        ensures continues { Continues (view self.old).ledger (view self.new).ledger };

    ghost none_called: { (start : Start) (e : Self) → made_by start e (λ lane. []) [] → called e [] };
}

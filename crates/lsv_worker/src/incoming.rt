//! From the bytes of a link to its jobs.

ghost use Rattle.std.specs.Prelude.{◌≡◌, ◌≢◌, ℕ, ◌+◌, ◌%◌, ◌<◌, ◌≤◌, ◌++◌, ◌∷◌, List, [], length, Some, None, IsTrue, true, false};
ghost use Rattle.lsv_wire.specs.Frame.{IsPartial};
ghost use Rattle.lsv_session.specs.Transcript.{AreAllJobs};
ghost use Rattle.lsv_session.specs.declared.job.Body.{Body};
ghost use Rattle.lsv_session.specs.declared.job.Body.TheVariants as bodies;
ghost use Rattle.lsv_cut.specs.Cuts.{unread};
ghost use Rattle.lsv_worker.specs.Incoming.{Receives, IncomingKeeps, Marks, Puts, PutsAny, SameWay, ReportsNoMemory, WasFull, cuts, drops, has_left, may_receive, ended_out_of_memory, kept, stage_out_of_memory, weight, with_piece};
ghost use Rattle.lsv_links.specs.Lanes.{lane_by};
ghost use Rattle.lsv_worker.specs.Frames.{InboxKeeps};
ghost use Rattle.lsv_worker.specs.Lanes.{KeepsHome, Routed};

use crate::Inbox;
use crate::route::{Route, is_hello};
use lsv_cut::{Cut, PieceReader};
use lsv_session::{Body, ConnId, Fault, Job};
use std::alloc::Global;

/// Why a connection ends: no more bytes come; its bytes were no message; a keeper shut it; memory ran out.
#[derive(Clone, Copy, Debug, PartialEq, Eq)]
pub enum Why {
    Ended,
    Refused,
    Shut,
    NoMemory,
}

/// How far a connection is.
#[derive(Clone, Copy, Debug, PartialEq, Eq)]
pub enum Stage {
    /// Bytes may come.
    Open,
    /// No more bytes come. What was read is still cut.
    Draining,
    /// Memory ran out. A job reports it, and then comes its end.
    OutOfMemory,
    /// Its end is the next job.
    Closing(Why),
    /// Its end was put.
    Closed(Why),
}

/// The result of a try to put a job: there may be more, the lane is full, or there is nothing to put now.
#[derive(Clone, Copy, Debug, PartialEq, Eq)]
pub(crate) enum Tried {
    More,
    Full,
    Idle,
}

/// The way from the bytes of a link to its jobs. It holds the bytes that are no job yet, a first hello until the lane
/// is decided, and a job that waits for room.
#[derive(Debug, Drop)]
pub struct Incoming {
    pub(crate) rest: PieceReader,
    pub(crate) first: Option<Body>,
    pub(crate) waiting: Option<Body>,
    pub(crate) route: Route,
    pub(crate) stage: Stage,
}

fn is_dropping(why: Why) -> bool
    ensures { result ≡ drops why }
{
    match why {
        Why::Ended => false,
        Why::Refused => true,
        Why::Shut => true,
        Why::NoMemory => true,
    }
}

fn ended_out_of_memory(why: Why) -> bool
    ensures { result ≡ ended_out_of_memory why }
{
    match why {
        Why::Ended => false,
        Why::Refused => false,
        Why::Shut => false,
        Why::NoMemory => true,
    }
}

impl Stage {
    /// Whether messages are still cut.
    pub(crate) fn is_cutting(self) -> bool
        ensures { result ≡ cuts self }
    {
        match self {
            Stage::Open => true,
            Stage::Draining => true,
            Stage::OutOfMemory => false,
            Stage::Closing(_) => false,
            Stage::Closed(_) => false,
        }
    }

    /// Whether more bytes may come.
    pub(crate) fn may_receive(self) -> bool
        ensures { result ≡ may_receive self }
    {
        match self {
            Stage::Open => true,
            Stage::Draining => false,
            Stage::OutOfMemory => true,
            Stage::Closing(why) => is_dropping(why),
            Stage::Closed(why) => is_dropping(why),
        }
    }

    /// Whether memory ran out for it.
    pub(crate) fn is_out_of_memory(self) -> bool
        ensures { result ≡ stage_out_of_memory self }
    {
        match self {
            Stage::Open => false,
            Stage::Draining => false,
            Stage::OutOfMemory => true,
            Stage::Closing(why) => ended_out_of_memory(why),
            Stage::Closed(why) => ended_out_of_memory(why),
        }
    }

    /// Whether its end was put.
    pub(crate) fn has_left(self) -> bool
        ensures { result ≡ has_left self }
    {
        match self {
            Stage::Open => false,
            Stage::Draining => false,
            Stage::OutOfMemory => false,
            Stage::Closing(_) => false,
            Stage::Closed(_) => true,
        }
    }
}

impl Incoming {
    pub(crate) fn new(alloc: Global, lanes: u32, seq: u64) -> Self
        requires { 0 < lanes }
        ensures receives { Receives result [] (λ lane. []) (record { lanes = lanes; home = seq % lanes; shut = false; over = false }) }
        ensures stage { result.stage ≡ Stage.Open }
        ensures lanes { result.route.lanes ≡ lanes }
    {
        Incoming {
            rest: PieceReader::new(alloc),
            first: None,
            waiting: None,
            route: Route::new(lanes, seq),
            stage: Stage::Open,
        }
    }

    /// Memory ran out while messages are cut. No more are cut.
    fn stop_cutting(&mut self)
        requires { cuts self.old.stage ≡ true }
        ensures goes { (rest : List ℕ) → SameWay (record self.old { rest = rest }) self.new }
        ensures stage { self.new.stage ≡ Stage.OutOfMemory }
        ensures rest { self.new.rest ≡ self.old.rest }
        ensures lanes { self.new.route.lanes ≡ self.old.route.lanes }
    {
        self.route.settle();
        self.stage = Stage::OutOfMemory;
    }

    /// The next job was cut. A first hello is held back. Any other job waits for room, and decides the lane if none is
    /// decided yet.
    fn keep_job(&mut self, body: Body)
        requires empty { self.old.waiting ≡ None }
        ensures rest { self.new.rest ≡ self.old.rest }
        ensures stage { self.new.stage ≡ self.old.stage }
        ensures ready { kept self.new.first ++ kept self.new.waiting ≡ kept self.old.first ++ body ∷ [] }
        ensures quiet { self.new.route.lane ≡ None → self.new.waiting ≡ None }
        ensures routed { (put : ℕ → List Body) (said : List Body) → Routed self.old.route put said (kept self.old.first) → Routed self.new.route put said (kept self.old.first ++ body ∷ []) }
        ensures home { KeepsHome self.old.route self.new.route }
    {
        if self.route.is_decided() {
            self.waiting = Some(body);
            return;
        }
        if let Some(_) = &self.first {
            self.wait_deciding(body);
            return;
        }
        if is_hello(&body) {
            self.first = Some(body);
            return;
        }
        self.wait_deciding(body);
    }

    /// A job waits for room, and decides the lane.
    fn wait_deciding(&mut self, body: Body)
        ensures same { self.new ≡ record self.old { waiting = Some body; route = self.new.route } }
        ensures route { self.new.route ≡ record self.old.route { lane = Some (lane_by self.old.route.lanes self.old.route.home body) } }
    {
        self.route.decide(&body);
        self.waiting = Some(body);
    }

    /// A message was refused. The job that reports it is the last one before the end.
    fn refuse(&mut self, fault: Fault)
        requires empty { self.old.waiting ≡ None }
        requires cutting { cuts self.old.stage ≡ true }
        ensures rest { self.new.rest ≡ self.old.rest }
        ensures stage { self.new.stage ≡ Stage.Closing Why.Refused }
        ensures goes { (rest read : List ℕ) (put : ℕ → List Body) (marks : Marks) (h : Receives (record self.old { rest = rest }) read put marks)
            → AreAllJobs read ((h.said ++ kept self.old.first) ++ bodies.Bad fault ∷ []) → Receives self.new read put marks }
        ensures lanes { self.new.route.lanes ≡ self.old.route.lanes }
    {
        self.keep_job(Body::Bad(fault));
        self.stage = Stage::Closing(Why::Refused);
    }

    /// Memory ran out for this connection elsewhere. A job reports it before the end, unless that job or the end was put.
    pub(crate) fn run_out_of_memory(&mut self)
        ensures goes { SameWay self.old self.new }
        ensures tells { ReportsNoMemory self.new }
        ensures keeps { IncomingKeeps self.old self.new }
    {
        match self.stage {
            Stage::Open | Stage::Draining => self.stop_cutting(),
            Stage::Closing(Why::Ended) => self.stage = Stage::OutOfMemory,
            Stage::Closing(Why::Shut) => self.stage = Stage::OutOfMemory,
            Stage::Closing(Why::Refused) => {
                if self.waiting.is_some() {
                    self.stage = Stage::OutOfMemory;
                }
            }
            Stage::OutOfMemory | Stage::Closing(Why::NoMemory) | Stage::Closed(_) => {}
        }
    }

    /// A Shut was taken that isn't the last. Nothing more is cut, and the end comes after the job that waits.
    pub(crate) fn shut(&mut self)
        ensures goes { (read : List ℕ) (put : ℕ → List Body) (marks : Marks) → Receives self.old read put marks → Receives self.new read put (record marks { shut = true }) }
        ensures keeps { IncomingKeeps self.old self.new }
    {
        if self.stage.is_cutting() {
            self.route.settle();
            self.stage = Stage::Closing(Why::Shut);
        }
    }

    /// No more bytes come. A connection whose end was put doesn't change.
    pub(crate) fn end(&mut self)
        ensures goes { (read : List ℕ) (put : ℕ → List Body) (marks : Marks) → Receives self.old read put marks → Receives self.new read put (record marks { over = true }) }
        ensures left { has_left self.old.stage ≡ true → self.new ≡ self.old }
        ensures keeps { IncomingKeeps self.old self.new }
    {
        if let Stage::Open = self.stage {
            self.stage = Stage::Draining;
        }
    }

    /// Takes bytes that were read: puts their jobs while the lane has room, and keeps the rest. If no message is cut any more,
    /// the bytes are ignored.
    pub(crate) fn receive<I: Inbox>(&mut self, piece: &[u8], conn: ConnId, inbox: &mut I)
        requires lanes { I.lanes inbox.old ≡ self.old.route.lanes }
        ensures puts { Puts conn (with_piece self.old piece.now 0) self.new (I.jobs inbox.old) (I.jobs inbox.new) }
        ensures keeps { IncomingKeeps self.old self.new }
        ensures inbox { InboxKeeps I.lanes I.refused I.is_same inbox.old inbox.new }
    {
        let mut at = 0;
        if self.stage.is_cutting() {
            self.put_all(piece, &mut at, conn, inbox);
            self.keep(&piece[at..]);
        }
    }

    /// Keeps bytes that were read, if messages are still cut.
    fn keep(&mut self, piece: &[u8])
        ensures goes { SameWay (with_piece self.old piece.now 0) self.new }
        ensures keeps { IncomingKeeps self.old self.new }
    {
        if self.stage.is_cutting() {
            match self.rest.keep(piece) {
                Ok(()) => {
                    return;
                }
                Err(_) => {
                    self.stop_cutting();
                    return;
                }
            }
        }
    }

    /// Puts a first hello that was held back, once the lane is decided.
    fn offer_first<I: Inbox>(&mut self, conn: ConnId, inbox: &mut I) -> Tried
        requires lanes { I.lanes inbox.old ≡ self.old.route.lanes }
        ensures puts { PutsAny conn self.old self.new (I.jobs inbox.old) (I.jobs inbox.new) }
        ensures only { self.new ≡ record self.old { first = self.new.first } }
        ensures emptied { result ≢ Tried.Full → (n : ℕ) → self.new.route.lane ≡ Some n → self.new.first ≡ None }
        ensures inbox { InboxKeeps I.lanes I.refused I.is_same inbox.old inbox.new }
        ensures full { result ≡ Tried.Full → WasFull self.new.route (I.refused inbox.old) (I.refused inbox.new) }
    {
        if self.route.is_decided() {
            return self.put_first(conn, inbox);
        }
        Tried::More
    }

    /// Puts the first hello. The lane is decided.
    #[tactic(auto, using(crate::proofs::Putting::puts_none, crate::proofs::Putting::first_back))]
    fn put_first<I: Inbox>(&mut self, conn: ConnId, inbox: &mut I) -> Tried
        requires lanes { I.lanes inbox.old ≡ self.old.route.lanes }
        requires decided { self.old.route.lane ≢ None }
        ensures puts { PutsAny conn self.old self.new (I.jobs inbox.old) (I.jobs inbox.new) }
        ensures only { self.new ≡ record self.old { first = self.new.first } }
        ensures emptied { result ≢ Tried.Full → self.new.first ≡ None }
        ensures inbox { InboxKeeps I.lanes I.refused I.is_same inbox.old inbox.new }
        ensures full { result ≡ Tried.Full → WasFull self.new.route (I.refused inbox.old) (I.refused inbox.new) }
    {
        let Some(body) = self.first.take() else {
            return Tried::More;
        };
        match inbox.put(self.route.lane(), Job { conn, body }) {
            Ok(()) => Tried::More,
            Err((job, _)) => {
                self.first = Some(job.body);
                Tried::Full
            }
        }
    }

    /// Puts the job that waits for room.
    #[tactic(auto, using(crate::proofs::Putting::puts_none, crate::proofs::Putting::waiting_back))]
    fn offer<I: Inbox>(&mut self, conn: ConnId, inbox: &mut I) -> Tried
        requires lanes { I.lanes inbox.old ≡ self.old.route.lanes }
        requires first { (n : ℕ) → self.old.route.lane ≡ Some n → self.old.first ≡ None }
        ensures puts { PutsAny conn self.old self.new (I.jobs inbox.old) (I.jobs inbox.new) }
        ensures only { self.new ≡ record self.old { waiting = self.new.waiting } }
        ensures emptied { result ≢ Tried.Full → self.new.waiting ≡ None }
        ensures empty { self.old.waiting ≡ None → self.new.waiting ≡ None }
        ensures inbox { InboxKeeps I.lanes I.refused I.is_same inbox.old inbox.new }
        ensures full { result ≡ Tried.Full → WasFull self.new.route (I.refused inbox.old) (I.refused inbox.new) }
    {
        let Some(body) = self.waiting.take() else {
            return Tried::More;
        };
        match inbox.put(self.route.lane(), Job { conn, body }) {
            Ok(()) => Tried::More,
            Err((job, _)) => {
                self.waiting = Some(job.body);
                Tried::Full
            }
        }
    }

    /// Cuts the next job from the kept bytes followed by a piece, from `at` on. No job waits.
    fn cut(&mut self, piece: &[u8], at: &mut usize) -> Tried
        requires empty { self.old.waiting ≡ None }
        requires cutting { cuts self.old.stage ≡ true }
        requires within { at.old ≤ length piece.now }
        ensures goes { SameWay (with_piece self.old piece.now at.old) (with_piece self.new piece.now at.new) }
        ensures less { result ≡ Tried.More → length (unread self.new.rest piece.now at.new) + weight self.new.stage < length (unread self.old.rest piece.now at.old) + weight self.old.stage }
        ensures full { result ≢ Tried.Full }
        ensures within { at.new ≤ length piece.now }
        ensures lanes { self.new.route.lanes ≡ self.old.route.lanes }
    {
        match self.rest.next(piece, at) {
            Ok(Cut::Nothing) => self.cut_nothing(),
            Ok(Cut::Message(message, _)) => {
                self.keep_job(Body::Msg(message));
                Tried::More
            }
            Ok(Cut::NoMessage(fault)) => {
                self.refuse(fault);
                Tried::More
            }
            Err(_) => {
                self.stop_cutting();
                Tried::More
            }
        }
    }

    /// Less than a frame is left. If no more bytes come, its end is next.
    fn cut_nothing(&mut self) -> Tried
        requires cutting { cuts self.old.stage ≡ true }
        requires partial { IsPartial self.old.rest }
        ensures goes { SameWay self.old self.new }
        ensures less { result ≡ Tried.More → weight self.new.stage < weight self.old.stage }
        ensures rest { self.new.rest ≡ self.old.rest }
        ensures full { result ≢ Tried.Full }
        ensures lanes { self.new.route.lanes ≡ self.old.route.lanes }
    {
        if let Stage::Draining = self.stage {
            self.route.settle();
            self.stage = Stage::Closing(Why::Ended);
            return Tried::More;
        }
        Tried::Idle
    }

    /// Reports that memory ran out. Nothing waits.
    #[tactic(auto, using(crate::proofs::Putting::puts_none))]
    fn report_out_of_memory<I: Inbox>(&mut self, conn: ConnId, inbox: &mut I) -> Tried
        requires lanes { I.lanes inbox.old ≡ self.old.route.lanes }
        requires first { (n : ℕ) → self.old.route.lane ≡ Some n → self.old.first ≡ None }
        requires empty { self.old.waiting ≡ None }
        requires stage { self.old.stage ≡ Stage.OutOfMemory }
        ensures puts { PutsAny conn self.old self.new (I.jobs inbox.old) (I.jobs inbox.new) }
        ensures rest { self.new.rest ≡ self.old.rest }
        ensures stage { result ≡ Tried.More → self.new.stage ≡ Stage.Closing Why.NoMemory }
        ensures keeps { IncomingKeeps self.old self.new }
        ensures inbox { InboxKeeps I.lanes I.refused I.is_same inbox.old inbox.new }
        ensures full { result ≡ Tried.Full → WasFull self.new.route (I.refused inbox.old) (I.refused inbox.new) }
    {
        let body = Body::Bad(Fault::NoMem);
        match inbox.put(self.route.lane(), Job { conn, body }) {
            Ok(()) => {
                self.stage = Stage::Closing(Why::NoMemory);
                return Tried::More;
            }
            Err(_) => {
                return Tried::Full;
            }
        }
    }

    /// Puts its end. Nothing waits.
    #[tactic(auto, using(crate::proofs::Putting::puts_none))]
    fn leave<I: Inbox>(&mut self, why: Why, conn: ConnId, inbox: &mut I) -> Tried
        requires lanes { I.lanes inbox.old ≡ self.old.route.lanes }
        requires first { (n : ℕ) → self.old.route.lane ≡ Some n → self.old.first ≡ None }
        requires empty { self.old.waiting ≡ None }
        requires stage { self.old.stage ≡ Stage.Closing why }
        ensures puts { PutsAny conn self.old self.new (I.jobs inbox.old) (I.jobs inbox.new) }
        ensures rest { self.new.rest ≡ self.old.rest }
        ensures stage { result ≡ Tried.More → self.new.stage ≡ Stage.Closed why }
        ensures keeps { IncomingKeeps self.old self.new }
        ensures inbox { InboxKeeps I.lanes I.refused I.is_same inbox.old inbox.new }
        ensures full { result ≡ Tried.Full → WasFull self.new.route (I.refused inbox.old) (I.refused inbox.new) }
    {
        let body = Body::Gone;
        match inbox.put(self.route.lane(), Job { conn, body }) {
            Ok(()) => {
                self.stage = Stage::Closed(why);
                return Tried::More;
            }
            Err(_) => {
                return Tried::Full;
            }
        }
    }

    /// Cuts the next job, or puts the end. All that was cut before is put.
    fn cut_or_end<I: Inbox>(
        &mut self,
        piece: &[u8],
        at: &mut usize,
        conn: ConnId,
        inbox: &mut I,
    ) -> Tried
        requires lanes { I.lanes inbox.old ≡ self.old.route.lanes }
        requires first { (n : ℕ) → self.old.route.lane ≡ Some n → self.old.first ≡ None }
        requires empty { self.old.waiting ≡ None }
        requires within { at.old ≤ length piece.now }
        ensures puts { Puts conn (with_piece self.old piece.now at.old) (with_piece self.new piece.now at.new) (I.jobs inbox.old) (I.jobs inbox.new) }
        ensures keeps { IncomingKeeps self.old self.new }
        ensures less { result ≡ Tried.More → length (unread self.new.rest piece.now at.new) + weight self.new.stage < length (unread self.old.rest piece.now at.old) + weight self.old.stage }
        ensures within { at.new ≤ length piece.now }
        ensures inbox { InboxKeeps I.lanes I.refused I.is_same inbox.old inbox.new }
        ensures full { result ≡ Tried.Full → WasFull self.new.route (I.refused inbox.old) (I.refused inbox.new) }
    {
        match self.stage {
            Stage::Open | Stage::Draining => self.cut(piece, at),
            Stage::OutOfMemory => self.report_out_of_memory(conn, inbox),
            Stage::Closing(why) => self.leave(why, conn, inbox),
            Stage::Closed(_) => Tried::Idle,
        }
    }

    /// Tries once to put the next job.
    fn next_job<I: Inbox>(
        &mut self,
        piece: &[u8],
        at: &mut usize,
        conn: ConnId,
        inbox: &mut I,
    ) -> Tried
        requires lanes { I.lanes inbox.old ≡ self.old.route.lanes }
        requires within { at.old ≤ length piece.now }
        ensures puts { Puts conn (with_piece self.old piece.now at.old) (with_piece self.new piece.now at.new) (I.jobs inbox.old) (I.jobs inbox.new) }
        ensures keeps { IncomingKeeps self.old self.new }
        ensures less { result ≡ Tried.More → length (unread self.new.rest piece.now at.new) + weight self.new.stage < length (unread self.old.rest piece.now at.old) + weight self.old.stage }
        ensures within { at.new ≤ length piece.now }
        ensures inbox { InboxKeeps I.lanes I.refused I.is_same inbox.old inbox.new }
        ensures full { result ≡ Tried.Full → WasFull self.new.route (I.refused inbox.old) (I.refused inbox.new) }
    {
        if let Tried::Full = self.offer_first(conn, inbox) {
            return Tried::Full;
        }
        if let Tried::Full = self.offer(conn, inbox) {
            return Tried::Full;
        }
        self.cut_or_end(piece, at, conn, inbox)
    }

    /// Puts the jobs of the kept bytes followed by a piece, from `at` on, while the lane has room. True if it was full.
    fn put_all<I: Inbox>(
        &mut self,
        piece: &[u8],
        at: &mut usize,
        conn: ConnId,
        inbox: &mut I,
    ) -> bool
        requires lanes { I.lanes inbox.old ≡ self.old.route.lanes }
        requires within { at.old ≤ length piece.now }
        ensures puts { Puts conn (with_piece self.old piece.now at.old) (with_piece self.new piece.now at.new) (I.jobs inbox.old) (I.jobs inbox.new) }
        ensures keeps { IncomingKeeps self.old self.new }
        ensures within { at.new ≤ length piece.now }
        ensures inbox { InboxKeeps I.lanes I.refused I.is_same inbox.old inbox.new }
        ensures full { IsTrue result → WasFull self.new.route (I.refused inbox.old) (I.refused inbox.new) }
    {
        'tries: loop {
            match self.next_job(piece, at, conn, inbox) {
                Tried::More => {}
                Tried::Full => {
                    return true;
                }
                Tried::Idle => {
                    return false;
                }
            }
        }
    }

    /// Puts the jobs of the kept bytes while the lane has room. True if it was full.
    pub(crate) fn advance<I: Inbox>(&mut self, conn: ConnId, inbox: &mut I) -> bool
        requires lanes { I.lanes inbox.old ≡ self.old.route.lanes }
        ensures puts { Puts conn self.old self.new (I.jobs inbox.old) (I.jobs inbox.new) }
        ensures keeps { IncomingKeeps self.old self.new }
        ensures inbox { InboxKeeps I.lanes I.refused I.is_same inbox.old inbox.new }
        ensures full { IsTrue result → WasFull self.new.route (I.refused inbox.old) (I.refused inbox.new) }
    {
        let mut at = 0;
        self.put_all(&[], &mut at, conn, inbox)
    }
}

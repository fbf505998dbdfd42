//! A worker, which serves the links of its port.

ghost use Rattle.std.specs.Prelude.{◌+◌, ◌-◌, ◌^◌, ◌≡◌, ◌≢◌, ◌⊎◌, ℕ, ◌<◌, ◌≤◌, ◌==◌, ◌++◌, ◌∷◌, List, [], length, IfOk, Some, None, true, false, slice_index_or, vec_capacity, vec_len, drop, take};
ghost use Rattle.std.specs.List.{Contains};
ghost use Rattle.lsv_port.specs.Ledger.{Continues};
ghost use Rattle.lsv_port.specs.Port.{Changes, IsOpen, Opens, PortState, Told, closed, is_over};
ghost use Rattle.lsv_session.specs.declared.job.Job.{Job};
ghost use Rattle.lsv_session.specs.declared.reply.Reply.{Reply};
ghost use Rattle.lsv_session.specs.declared.reply.ReplyBody.TheVariants as said;
ghost use Rattle.lsv_worker.specs.Incoming.{has_left};
ghost use Rattle.lsv_worker.specs.Frames.{BothKeep, PortKeeps, PutsOwn};
ghost use Rattle.lsv_worker.specs.Links.{OwesNoMore, TouchesNone, reads_in};
ghost use Rattle.lsv_worker.specs.Worker.{Admits, AllRemain, AreReadOut, AreClosed, AreOfLanes, AreOfWorker, ArePassed, AreReadWithin, Goes, HaveLeft, HoldsOwed, IsAt, IsFit, IsFresh, IsMade, IsNoted, IsBlocked, IsSameWorker, IsTable, IsThere, KeepRules, OnlyLinksChange, Represents, ServicesLinks, Setting, Stands, Steps, conn_at, held_by, marked, open_in, phase_after, setting, undone};

use crate::link::{Blocked, Link, PIECE, Phase};
use crate::{Inbox, Incoming, Outgoing};
use lsv_base::NoMem;
use lsv_port::{Port, Ready};
use lsv_session::{ConnId, Reply, server_hello};
use std::alloc::Global;

/// How many links may be open at once.
const MOST_LINKS: usize = 128;

/// The connections of one port. It reads their links, cuts the bytes into jobs and puts these into an inbox. It takes the
/// keepers' replies and writes them. Connections are numbered from 1, in the order in which their links were opened.
#[derive(Debug, Drop)]
pub struct Worker {
    alloc: Global,
    number: u32,
    lanes: u32,
    next: u64,
    /// How many links it turned away though fewer than 128 were open.
    turned_away: u64,
    phase: Phase,
    links: Vec<Link>,
    held: Vec<u32>,
    /// What links are read into.
    buffer: Box<[u8; PIECE]>,
}

/// How many links are open.
fn count_open(links: &[Link]) -> usize
    ensures { result ≡ length (open_in links.now) }
{
    let mut count = 0;
    for link in links {
        if link.live {
            count += 1;
        }
    }
    count
}

/// The place of the connection of this number in the table. None if it isn't there.
fn place_of(links: &[Link], seq: u64) -> Option<usize>
    ensures found { (i : ℕ) → result ≡ Some i → i < length links.now }
    ensures is { (i : ℕ) (d : Link) → result ≡ Some i → (slice_index_or links.now i d).conn.seq ≡ seq }
    ensures none { result ≡ None → (i : ℕ) (d : Link) → i < length links.now → (slice_index_or links.now i d).conn.seq ≢ seq }
{
    for place in 0..links.len() {
        if links[place].conn.seq == seq {
            return Some(place);
        }
    }
    None
}

/// Whether each connection's end was put and each was shut.
fn have_left(links: &[Link]) -> bool
    ensures yes { result ≡ true → HaveLeft links.now }
    ensures no { result ≡ false → HaveLeft links.now → ⊥ }
{
    for link in links {
        if !link.shut {
            return false;
        }
        if !link.incoming.stage.has_left() {
            return false;
        }
    }
    true
}

/// Collects the numbers of the links that something keeps from being read.
fn collect(links: &[Link], held: &mut Vec<u32>)
    requires room { length links.now ≤ vec_capacity held.old }
    ensures held { (i : ℕ) (d : Link) → i < length links.now → (slice_index_or links.now i d).blocked ≢ Blocked.No → Contains held.new.items (slice_index_or links.now i d).number }
    ensures blocked_by { (l : ℕ) → Contains held.new.items l → IsBlocked links.now l }
    ensures room { vec_capacity held.old ≤ vec_capacity held.new }
{
    held.clear();
    for link in links {
        hold(link, held);
    }
}

/// Adds the number of a link that something keeps from being read.
fn hold(link: &Link, held: &mut Vec<u32>)
    requires room { vec_len held.old < vec_capacity held.old }
    ensures unblocked { link.now.blocked ≡ Blocked.No → held.new.items ≡ held.old.items }
    ensures blocked_by { link.now.blocked ≢ Blocked.No → held.new.items ≡ held.old.items ++ link.now.number ∷ [] }
    ensures few { vec_len held.new ≤ vec_len held.old + 1 }
    ensures room { vec_capacity held.old ≤ vec_capacity held.new }
{
    if link.blocked != Blocked::No {
        let _ = held.push(link.number);
    }
}

/// The first link, from this place on, that waits for room in its lane.
fn full_from(links: &[Link], from: usize) -> Option<usize>
    ensures { (i : ℕ) → result ≡ Some i → i < length links.now }
{
    for place in from..links.len() {
        if links[place].blocked == Blocked::InboxFull {
            return Some(place);
        }
    }
    None
}

/// How many links go to the end of the table before the next pass. If two wait for room, the first of them comes first. If it
/// came first in the last pass too, it had all the room, and the second one comes first.
fn count_served(links: &[Link]) -> usize
    ensures { result ≤ length links.now }
{
    let Some(first) = full_from(links, 0) else {
        return 0;
    };
    let Some(second) = full_from(links, first + 1) else {
        return 0;
    };
    if first > 0 {
        return first;
    }
    second
}

/// Moves the first `count` links of a table to its end.
fn rotate(links: &mut Vec<Link>, count: usize)
    requires within { count ≤ length links.old.items }
    ensures items { links.new.items ≡ drop count links.old.items ++ take count links.old.items }
    ensures size { vec_len links.new ≡ vec_len links.old }
{
    links.rotate_left(count);
}

/// Forgets the connections that are over.
fn sweep(links: &mut Vec<Link>)
    ensures items { links.new.items ≡ undone links.old.items }
    ensures fewer { vec_len links.new ≤ vec_len links.old }
{
    links.retain(|link| !link.is_done());
}

/// Services each link, in order.
fn pass_all<P: Port, I: Inbox>(
    links: &mut [Link],
    port: &mut P,
    inbox: &mut I,
    buffer: &mut [u8; PIECE],
    phase: Phase,
)
    requires lanes { AreOfLanes (I.lanes inbox.old) links.old }
    requires at { P.tells → IsTable phase links.old (P.state port.old) }
    ensures steps { P.tells → (set : Setting) → set.phase ≡ phase → Steps set links.old links.new (P.state port.old) (P.state port.new) (I.jobs inbox.old) (I.jobs inbox.new) }
    ensures passed { P.tells → ArePassed phase links.old links.new (P.state port.old) (P.state port.new) (I.refused inbox.old) (I.refused inbox.new) }
    ensures remains { AllRemain links.old links.new }
    ensures unblocked { reads_in phase ≡ true → AreReadOut links.new }
    ensures limits { P.tells → AreReadWithin phase links.new (P.state port.old) (P.state port.new) }
    ensures stopped { phase ≡ Phase.Stopped → (m : ℕ) → I.jobs inbox.new m ≡ I.jobs inbox.old m }
    ensures own { (n : ℕ) → AreOfWorker n links.old → PutsOwn n (I.jobs inbox.old) (I.jobs inbox.new) }
    ensures keeps { BothKeep P.tells P.state P.ledger port.old port.new I.lanes I.refused I.is_same inbox.old inbox.new }
{
    for link in links.iter_mut() {
        link.service(port, inbox, buffer, phase);
    }
}

/// The connection at this place takes a reply.
fn take_at<P: Port>(links: &mut [Link], place: usize, reply: &Reply, port: &mut P)
    requires within { place < length links.old }
    requires seq { (d : Link) → (slice_index_or links.old place d).conn.seq ≡ reply.now.conn.seq }
    requires at { P.tells → (phase : Phase) × IsTable phase links.old (P.state port.old) }
    ensures took { P.tells → (set : Setting) (jobs : ℕ → List Job) (replies : List Reply) → reply.now.conn ≡ conn_at set reply.now.conn.seq → Stands set links.old (P.state port.old) jobs replies → Stands set links.new (P.state port.new) jobs (replies ++ reply.now ∷ []) }
    ensures remains { AllRemain links.old links.new }
    ensures quiet { P.tells → TouchesNone (P.state port.old) (P.state port.new) }
    ensures ignored { reply.now.body ≡ said.Shut → reply.now.last ≡ true → ((d : Link) → has_left (slice_index_or links.old place d).incoming.stage ≡ false) → (links.new ≡ links.old) × (port.new ≡ port.old) }
    ensures owes { P.tells → OwesNoMore (P.state port.old) (P.state port.new) }
    ensures port { PortKeeps P.tells P.state P.ledger port.old port.new }
{
    let link = &mut links[place];
    link.take(reply, port);
}

/// Closes each link. Nothing more is sent.
fn close_all<P: Port>(links: &mut [Link], port: &mut P)
    requires at { P.tells → IsTable Phase.Stopped links.old (P.state port.old) }
    ensures steps { P.tells → (set : Setting) (jobs : ℕ → List Job) → set.phase ≡ Phase.Stopped → Steps set links.old links.new (P.state port.old) (P.state port.new) jobs jobs }
    ensures closed { AreClosed links.new }
    ensures remains { AllRemain links.old links.new }
    ensures quiet { P.tells → TouchesNone (P.state port.old) (P.state port.new) }
    ensures port { PortKeeps P.tells P.state P.ledger port.old port.new }
{
    for link in links.iter_mut() {
        link.stop(port);
    }
}

impl Worker {
    /// A worker with no connections, of this number and number of lanes. `NoMem` if memory runs out.
    pub fn new(alloc: Global, number: u32, lanes: u32) -> Result<Self, NoMem>
        requires lanes { (1 ≤ lanes) × (lanes ≤ 8) }
        ensures fit { IfOk result IsFit }
        ensures set { IfOk result (λ w. setting w ≡ record { number = number; lanes = lanes; next = 1; turned_away = 0; phase = Phase.Going }) }
        ensures links { IfOk result (λ w. w.links.items ≡ []) }
        ensures held { IfOk result (λ w. held_by w ≡ []) }
    {
        let Ok(buffer) = Box::new(alloc, [0; PIECE]) else {
            return Err(NoMem);
        };
        Ok(Worker {
            alloc,
            number,
            lanes,
            next: 1,
            turned_away: 0,
            phase: Phase::Going,
            links: Vec::new(alloc),
            held: Vec::with_capacity(alloc, MOST_LINKS)?,
            buffer,
        })
    }

    /// The links that something kept from being read in the last `on` or `push_out`. Its port's next turn takes these numbers.
    pub fn held(&self) -> &[u32]
        ensures { result.now ≡ held_by self.now }
    {
        &self.held
    }

    /// How many links it turned away though fewer than 128 others were open. Memory ran out for them, or the numbers of
    /// connections were used up. The count stops at its type's maximum.
    pub fn turned_away(&self) -> u64
        ensures { result ≡ (setting self.now).turned_away }
    {
        self.turned_away
    }

    /// Whether it has made a connection of this number.
    pub fn has_made(&self, seq: u64) -> bool
        ensures yes { result ≡ true → IsMade (setting self.now) seq }
        ensures no { result ≡ false → IsMade (setting self.now) seq → ⊥ }
    {
        1 <= seq && seq < self.next
    }

    /// Does what the port reported, and services each link: it writes what is unsent, reads what is owed, and puts the jobs.
    pub fn on<P: Port, I: Inbox>(&mut self, port: &mut P, ready: Ready, inbox: &mut I)
        requires fit { IsFit self.old }
        requires going { self.old.phase ≡ Phase.Going }
        requires well { P.tells → (P.state port.old).failed ≡ false }
        requires lanes { I.lanes inbox.old ≡ self.old.lanes }
        requires at { P.tells → (before : PortState) × Told ready before (P.state port.old) × IsAt self.old before }
        ensures fit { IsFit self.new }
        ensures worker { IsSameWorker self.old self.new }
        ensures phase { self.new.phase ≡ phase_after ready }
        ensures goes { P.tells → (before : PortState) → Told ready before (P.state port.old) → Goes self.old self.new before (P.state port.new) (I.jobs inbox.old) (I.jobs inbox.new) }
        ensures served { P.tells → ServicesLinks self.old self.new (P.state port.old) (P.state port.new) (I.refused inbox.old) (I.refused inbox.new) }
        ensures own { PutsOwn self.old.number (I.jobs inbox.old) (I.jobs inbox.new) }
        ensures keeps { BothKeep P.tells P.state P.ledger port.old port.new I.lanes I.refused I.is_same inbox.old inbox.new }
    {
        self.note(port, ready);
        self.pass(port, inbox);
    }

    /// Services each link, as `on` does.
    pub fn push_out<P: Port, I: Inbox>(&mut self, port: &mut P, inbox: &mut I)
        requires fit { IsFit self.old }
        requires lanes { I.lanes inbox.old ≡ self.old.lanes }
        requires at { P.tells → IsAt self.old (P.state port.old) }
        ensures fit { IsFit self.new }
        ensures worker { IsSameWorker self.old self.new }
        ensures phase { self.new.phase ≡ self.old.phase }
        ensures goes { P.tells → Goes self.old self.new (P.state port.old) (P.state port.new) (I.jobs inbox.old) (I.jobs inbox.new) }
        ensures served { P.tells → ServicesLinks self.old self.new (P.state port.old) (P.state port.new) (I.refused inbox.old) (I.refused inbox.new) }
        ensures stopped { self.old.phase ≡ Phase.Stopped → (m : ℕ) → I.jobs inbox.new m ≡ I.jobs inbox.old m }
        ensures own { PutsOwn self.old.number (I.jobs inbox.old) (I.jobs inbox.new) }
        ensures keeps { BothKeep P.tells P.state P.ledger port.old port.new I.lanes I.refused I.is_same inbox.old inbox.new }
    {
        self.pass(port, inbox);
    }

    /// The port failed as a whole. No link is read any more, and each connection ends after the jobs of what was read.
    pub fn turn_failed<P: Port, I: Inbox>(&mut self, port: &mut P, inbox: &mut I)
        requires fit { IsFit self.old }
        requires going { self.old.phase ≡ Phase.Going }
        requires failed { P.tells → (P.state port.old).failed ≡ true }
        requires lanes { I.lanes inbox.old ≡ self.old.lanes }
        requires at { P.tells → IsAt self.old (P.state port.old) }
        ensures fit { IsFit self.new }
        ensures worker { IsSameWorker self.old self.new }
        ensures phase { self.new.phase ≡ Phase.Failed }
        ensures goes { P.tells → Goes self.old self.new (P.state port.old) (P.state port.new) (I.jobs inbox.old) (I.jobs inbox.new) }
        ensures served { P.tells → ServicesLinks self.old self.new (P.state port.old) (P.state port.new) (I.refused inbox.old) (I.refused inbox.new) }
        ensures own { PutsOwn self.old.number (I.jobs inbox.old) (I.jobs inbox.new) }
        ensures keeps { BothKeep P.tells P.state P.ledger port.old port.new I.lanes I.refused I.is_same inbox.old inbox.new }
    {
        self.phase = Phase::Failed;
        self.pass(port, inbox);
    }

    /// Takes a reply to a connection that it made. The next `on` or `push_out` writes it. If the reply is a Shut, the link is
    /// closed once nothing is unsent.
    pub fn take<P: Port>(&mut self, reply: Reply, port: &mut P)
        requires fit { IsFit self.old }
        requires worker { reply.conn.worker ≡ self.old.number }
        requires made { IsMade (setting self.old) reply.conn.seq }
        requires at { P.tells → IsAt self.old (P.state port.old) }
        ensures fit { IsFit self.new }
        ensures only { OnlyLinksChange self.old self.new }
        ensures takes { P.tells → (jobs : ℕ → List Job) (replies : List Reply) → Represents self.old (P.state port.old) jobs replies → Represents self.new (P.state port.new) jobs (replies ++ reply ∷ []) }
        ensures owed { P.tells → HoldsOwed self.old (P.state port.old) → HoldsOwed self.new (P.state port.new) }
        ensures quiet { P.tells → TouchesNone (P.state port.old) (P.state port.new) }
        ensures rules { P.tells → KeepRules self.new.phase self.old.links.items self.new.links.items (P.state port.old) (P.state port.new) }
        ensures ignored { reply.body ≡ said.Shut → reply.last ≡ true → IsThere reply.conn.seq self.old.links.items → (self.new.links.items ≡ self.old.links.items) × (port.new ≡ port.old) }
        ensures port { PortKeeps P.tells P.state P.ledger port.old port.new }
    {
        let Some(place) = place_of(&self.links, reply.conn.seq) else {
            return;
        };
        take_at(&mut self.links, place, &reply, port);
    }

    /// Whether no connection is kept. Then each one's end was put, each was shut and is closed, and no reply was lost because
    /// memory ran out.
    pub fn is_empty(&self) -> bool
        ensures { result ≡ true → self.now.links.items ≡ [] }
    {
        self.links.is_empty()
    }

    /// Whether nothing more is to come. Either Stop or a port fault came, and each connection's end was put and each was shut;
    /// or the worker was stopped.
    pub fn ended(&self) -> bool
        ensures yes { result ≡ true → (self.now.phase ≡ Phase.Stopped) ⊎ ((self.now.phase ≢ Phase.Going) × HaveLeft self.now.links.items) }
        ensures no { result ≡ false → (self.now.phase ≡ Phase.Stopped) ⊎ ((self.now.phase ≢ Phase.Going) × HaveLeft self.now.links.items) → ⊥ }
    {
        match self.phase {
            Phase::Going => false,
            Phase::Stopping | Phase::Failed => have_left(&self.links),
            Phase::Stopped => true,
        }
    }

    /// Closes every link. No job is put any more, and nothing more is sent.
    pub fn stop<P: Port>(&mut self, port: &mut P)
        requires fit { IsFit self.old }
        requires at { P.tells → IsAt self.old (P.state port.old) }
        ensures fit { IsFit self.new }
        ensures worker { IsSameWorker self.old self.new }
        ensures phase { self.new.phase ≡ Phase.Stopped }
        ensures goes { P.tells → (jobs : ℕ → List Job) → Goes self.old self.new (P.state port.old) (P.state port.new) jobs jobs }
        ensures quiet { P.tells → TouchesNone (P.state port.old) (P.state port.new) }
        ensures rules { P.tells → KeepRules self.new.phase self.old.links.items self.new.links.items (P.state port.old) (P.state port.new) }
        ensures closed { P.tells → (l : ℕ) → IsOpen (P.state port.new) l → ⊥ }
        ensures port { PortKeeps P.tells P.state P.ledger port.old port.new }
    {
        self.phase = Phase::Stopped;
        close_all(&mut self.links, port);
    }

    /// A connection for a link that was just opened, with the server's hello unsent. None if memory runs out.
    fn fresh(&self, number: u32) -> Option<Link>
        requires { IsFit self.now }
        ensures { (link : Link) → result ≡ Some link → IsFresh (setting self.now) number link }
    {
        let mut outgoing = Outgoing::new(self.alloc);
        let Ok(hello) = server_hello(self.alloc) else {
            return None;
        };
        if !outgoing.say(&hello) {
            return None;
        }
        Some(Link {
            number,
            conn: ConnId {
                worker: self.number,
                seq: self.next,
            },
            incoming: Incoming::new(self.alloc, self.lanes, self.next),
            outgoing,
            live: true,
            owed: true,
            shut: false,
            blocked: Blocked::No,
        })
    }

    /// Takes a connection into the table. If memory runs out, nothing changes and the result is false.
    fn admit(&mut self, link: Link) -> bool
        requires fit { IsFit self.old }
        requires room { self.old.next < 2 ^ 64 - 1 }
        requires lanes { link.incoming.route.lanes ≡ self.old.lanes }
        requires worker { link.conn.worker ≡ self.old.number }
        requires few { length (open_in self.old.links.items) < 128 }
        ensures fit { IsFit self.new }
        ensures yes { result ≡ true → Admits link self.old self.new }
        ensures no { result ≡ false → (setting self.new ≡ setting self.old) × (self.new.links.items ≡ self.old.links.items) }
    {
        if self.held.reserve(self.links.len() + 1).is_err() {
            return false;
        }
        match self.links.push(link) {
            Ok(()) => {
                self.next += 1;
                return true;
            }
            Err(_) => {
                return false;
            }
        }
    }

    /// Whether 128 links are open.
    fn is_crowded(&self) -> bool
        ensures many { result ≡ true → 128 ≤ length (open_in self.now.links.items) }
        ensures few { result ≡ false → length (open_in self.now.links.items) < 128 }
    {
        count_open(&self.links) >= MOST_LINKS
    }

    /// Whether the numbers of connections are used up.
    fn is_spent(&self) -> bool
        ensures room { result ≡ false → self.now.next < 2 ^ 64 - 1 }
    {
        self.next == u64::MAX
    }

    /// Makes a connection for a link that was just opened. If the numbers are used up or memory runs out, nothing changes and
    /// the result is false.
    fn accept(&mut self, number: u32) -> bool
        requires fit { IsFit self.old }
        requires few { length (open_in self.old.links.items) < 128 }
        ensures fit { IsFit self.new }
        ensures yes { result ≡ true → (link : Link) × IsFresh (setting self.old) number link × Admits link self.old self.new }
        ensures no { result ≡ false → (setting self.new ≡ setting self.old) × (self.new.links.items ≡ self.old.links.items) }
    {
        if self.is_spent() {
            return false;
        }
        let Some(link) = self.fresh(number) else {
            return false;
        };
        self.admit(link)
    }

    /// Closes a link that was just opened, and counts it as turned away.
    fn turn_away<P: Port>(&mut self, port: &mut P, number: u32)
        requires fit { IsFit self.old }
        requires is_open { P.tells → IsOpen (P.state port.old) number }
        ensures fit { IsFit self.new }
        ensures links { self.new.links.items ≡ self.old.links.items }
        ensures set { setting self.new ≡ record (setting self.old) { turned_away = (setting self.new).turned_away } }
        ensures counted { 1 ≤ (setting self.new).turned_away }
        ensures more { (setting self.old).turned_away ≤ (setting self.new).turned_away }
        ensures change { P.tells → Changes number (closed (is_over (P.state port.old)) ((P.state port.old).link number)) (P.state port.old) (P.state port.new) }
        ensures continues { Continues (P.ledger port.old) (P.ledger port.new) }
    {
        self.turned_away = self.turned_away.saturating_add(1);
        port.close(number);
    }

    /// A link was opened. If 128 others are open, the numbers are used up or memory runs out, it is closed at once and becomes
    /// no connection.
    fn opened<P: Port>(&mut self, port: &mut P, number: u32)
        requires fit { IsFit self.old }
        requires going { self.old.phase ≡ Phase.Going }
        requires well { P.tells → (P.state port.old).failed ≡ false }
        requires is_open { P.tells → IsOpen (P.state port.old) number }
        ensures fit { IsFit self.new }
        ensures worker { IsSameWorker self.old self.new }
        ensures phase { self.new.phase ≡ self.old.phase }
        ensures opens { P.tells → (before : PortState) (jobs : ℕ → List Job) (replies : List Reply) → Opens number before (P.state port.old) → Represents self.old before jobs replies → Represents self.new (P.state port.new) jobs replies }
        ensures noted { (link : Link) → Contains self.old.links.items link → IsNoted link self.new.links.items }
        ensures quiet { P.tells → TouchesNone (P.state port.old) (P.state port.new) }
        ensures port { PortKeeps P.tells P.state P.ledger port.old port.new }
    {
        if self.is_crowded() {
            port.close(number);
            return;
        }
        if self.accept(number) {
            return;
        }
        self.turn_away(port, number);
    }

    /// Notes what the port reported.
    fn note<P: Port>(&mut self, port: &mut P, ready: Ready)
        requires fit { IsFit self.old }
        requires going { self.old.phase ≡ Phase.Going }
        requires well { P.tells → (P.state port.old).failed ≡ false }
        requires told { P.tells → (before : PortState) × Told ready before (P.state port.old) × IsAt self.old before }
        ensures fit { IsFit self.new }
        ensures worker { IsSameWorker self.old self.new }
        ensures phase { self.new.phase ≡ phase_after ready }
        ensures notes { P.tells → (before : PortState) (jobs : ℕ → List Job) (replies : List Reply) → Told ready before (P.state port.old) → Represents self.old before jobs replies → Represents self.new (P.state port.new) jobs replies }
        ensures noted { (link : Link) → Contains self.old.links.items link → IsNoted link self.new.links.items }
        ensures quiet { P.tells → TouchesNone (P.state port.old) (P.state port.new) }
        ensures port { PortKeeps P.tells P.state P.ledger port.old port.new }
    {
        match ready {
            Ready::Opened(number) => {
                self.opened(port, number);
                return;
            }
            Ready::Readable(number) => {
                mark(&mut self.links, number);
                return;
            }
            Ready::Writable(_) => {
                return;
            }
            Ready::Woken => {
                return;
            }
            Ready::Stop => {
                self.phase = Phase::Stopping;
                return;
            }
        }
    }

    /// Services each link, and forgets the connections that are over. A link that fills the inbox in each pass doesn't hold up
    /// the others: those that found no room come before it in the next pass.
    fn pass<P: Port, I: Inbox>(&mut self, port: &mut P, inbox: &mut I)
        requires fit { IsFit self.old }
        requires lanes { I.lanes inbox.old ≡ self.old.lanes }
        requires at { P.tells → IsAt self.old (P.state port.old) }
        ensures fit { IsFit self.new }
        ensures set { setting self.new ≡ setting self.old }
        ensures goes { P.tells → Goes self.old self.new (P.state port.old) (P.state port.new) (I.jobs inbox.old) (I.jobs inbox.new) }
        ensures served { P.tells → ServicesLinks self.old self.new (P.state port.old) (P.state port.new) (I.refused inbox.old) (I.refused inbox.new) }
        ensures stopped { self.old.phase ≡ Phase.Stopped → (m : ℕ) → I.jobs inbox.new m ≡ I.jobs inbox.old m }
        ensures own { PutsOwn self.old.number (I.jobs inbox.old) (I.jobs inbox.new) }
        ensures keeps { BothKeep P.tells P.state P.ledger port.old port.new I.lanes I.refused I.is_same inbox.old inbox.new }
    {
        self.reorder();
        self.pass_in_order(port, inbox);
    }

    /// Moves the links that found no room in the last pass to the front.
    fn reorder(&mut self)
        requires fit { IsFit self.old }
        ensures fit { IsFit self.new }
        ensures set { setting self.new ≡ setting self.old }
        ensures stands { (port : PortState) (jobs : ℕ → List Job) (replies : List Reply) → Represents self.old port jobs replies → Represents self.new port jobs replies }
        ensures has { (link : Link) → Contains self.old.links.items link → Contains self.new.links.items link }
    {
        let count = count_served(&self.links);
        rotate(&mut self.links, count);
    }

    /// Services each link, in the order of the table, and forgets the connections that are over.
    fn pass_in_order<P: Port, I: Inbox>(&mut self, port: &mut P, inbox: &mut I)
        requires fit { IsFit self.old }
        requires lanes { I.lanes inbox.old ≡ self.old.lanes }
        requires at { P.tells → IsAt self.old (P.state port.old) }
        ensures fit { IsFit self.new }
        ensures set { setting self.new ≡ setting self.old }
        ensures goes { P.tells → Goes self.old self.new (P.state port.old) (P.state port.new) (I.jobs inbox.old) (I.jobs inbox.new) }
        ensures served { P.tells → ServicesLinks self.old self.new (P.state port.old) (P.state port.new) (I.refused inbox.old) (I.refused inbox.new) }
        ensures stopped { self.old.phase ≡ Phase.Stopped → (m : ℕ) → I.jobs inbox.new m ≡ I.jobs inbox.old m }
        ensures own { PutsOwn self.old.number (I.jobs inbox.old) (I.jobs inbox.new) }
        ensures keeps { BothKeep P.tells P.state P.ledger port.old port.new I.lanes I.refused I.is_same inbox.old inbox.new }
    {
        pass_all(&mut self.links, port, inbox, &mut self.buffer, self.phase);
        sweep(&mut self.links);
        collect(&self.links, &mut self.held);
    }
}

/// Notes that the link of this number is owed a read.
fn mark(links: &mut [Link], number: u32)
    ensures { links.new ≡ marked number links.old }
{
    for link in links.iter_mut() {
        if link.number == number {
            link.owed = true;
        }
    }
}

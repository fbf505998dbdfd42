//! The loop.

ghost use Rattle.std.specs.Prelude.{◌≡◌, ◌≢◌, ◌<◌, ◌++◌, false, [], ℕ, List, Some, length, slice_get, IfOk, OnOk, OnErr};
ghost use Rattle.lsv_port.specs.Ledger.{PortLedger};
ghost use Rattle.lsv_session.specs.declared.job.Job.{Job};
ghost use Rattle.lsv_session.specs.declared.reply.Reply.{Reply};
ghost use Rattle.lsv_links.specs.Turns.{AreSized};
ghost use Rattle.lsv_reactor.specs.Calls.{calls_in};
ghost use Rattle.lsv_reactor.specs.InnerLoop.{KeepLedgers, AreMade, AreOver, ArePosts, AreStopped, IsLane, AreEmptied, worse};
ghost use Rattle.lsv_reactor.specs.Served.{KeepPorts, PutsAll, ServesAll};
ghost use Rattle.lsv_turn.specs.Turns.{LaneTurn, replies_in};

use crate::visit::{inboxes_of, visit};
use crate::{Endpoint, EndpointEnd};
use lsv_base::NoMem;
use lsv_turn::Lane;
use lsv_worker::MemInbox;
use std::alloc::Global;

/// How the ports of a server ended: nothing more is to come of any.
#[derive(Clone, Copy, Debug, PartialEq, Eq)]
pub enum PortsEnd {
    /// Each told Stop.
    Stopped,
    /// One couldn't listen, or a turn of it failed; each of the others told Stop, or failed too.
    Failed,
}

/// How far the posts are together.
enum Progress {
    /// More is to come of one.
    Going,
    Ended(PortsEnd),
    /// One lost a reply.
    Lost,
}

/// How ports ended, of which one more ended so.
fn worse(end: PortsEnd, its: EndpointEnd) -> PortsEnd
    ensures { result ≡ worse end its }
{
    match its {
        EndpointEnd::Failed => PortsEnd::Failed,
        EndpointEnd::Stopped | EndpointEnd::Lost => end,
    }
}

/// Whether a post lost a reply.
fn is_lost(its: EndpointEnd) -> bool
    ensures { result ≡ false → its ≢ EndpointEnd.Lost }
{
    match its {
        EndpointEnd::Lost => true,
        EndpointEnd::Stopped | EndpointEnd::Failed => false,
    }
}

/// How far these posts are.
fn how_far<T: Endpoint>(posts: &[T]) -> Progress
    ensures { (end : PortsEnd) → result ≡ Progress.Ended end → (starts : ℕ → T.Start) (gave : ℕ → ℕ → List Job) (took : ℕ → List Reply) → AreMade T.made_by starts posts.now gave took →
        AreOver T.tells T.number T.lanes T.begun T.view starts posts.now gave took (length posts.now) end }
{
    let mut end = PortsEnd::Stopped;
    for post in posts {
        let Some(its) = post.end() else {
            return Progress::Going;
        };
        if is_lost(its) {
            return Progress::Lost;
        }
        end = worse(end, its);
    }
    Progress::Ended(end)
}

/// Visits each post.
fn visit_all<T: Endpoint, L: Lane>(
    alloc: Global,
    posts: &mut [T],
    inboxes: &mut [MemInbox],
    lane: &mut L,
) -> Result<(), NoMem>
    requires inboxes { AreEmptied (length posts.old) inboxes.old }
    requires begun { (starts : ℕ → T.Start) × (ledgers : ℕ → PortLedger) × (start : L.Start) × (turns : List LaneTurn) × ArePosts T.number T.lanes T.view T.made_by T.called starts ledgers posts.old (calls_in turns) (replies_in turns) × IsLane L.tells L.made_by start lane.old turns }
    ensures ok { OnOk result ((starts : ℕ → T.Start) (ledgers : ℕ → PortLedger) (start : L.Start) (turns : List LaneTurn) → ArePosts T.number T.lanes T.view T.made_by T.called starts ledgers posts.old (calls_in turns) (replies_in turns) → IsLane L.tells L.made_by start lane.old turns →
        (more : List LaneTurn) × ArePosts T.number T.lanes T.view T.made_by T.called starts ledgers posts.new (calls_in more) (replies_in more) × IsLane L.tells L.made_by start lane.new more) }
    ensures err { OnErr result ((starts : ℕ → T.Start) (ledgers : ℕ → PortLedger) (start : L.Start) (turns : List LaneTurn) → ArePosts T.number T.lanes T.view T.made_by T.called starts ledgers posts.old (calls_in turns) (replies_in turns) → IsLane L.tells L.made_by start lane.old turns →
        (more : List LaneTurn) × (waiting : List (List Job)) × ArePosts T.number T.lanes T.view T.made_by T.called starts ledgers posts.new (calls_in more ++ waiting) (replies_in more) × IsLane L.tells L.made_by start lane.new more) }
    ensures count { length posts.new ≡ length posts.old }
    ensures inboxes { OnOk result (AreEmptied (length posts.old) inboxes.new) }
{
    'visits: for place in 0..posts.len() {
        let Ok(()) = visit(alloc, posts, inboxes, place, lane) else {
            return Err(NoMem);
        };
    }
    Ok(())
}

/// Closes all links of all posts.
fn stop_all<T: Endpoint>(posts: &mut [T])
    requires begun { (starts : ℕ → T.Start) × (ledgers : ℕ → PortLedger) × (calls : List (List Job)) × (took : List Reply) × ArePosts T.number T.lanes T.view T.made_by T.called starts ledgers posts.old calls took }
    ensures { (starts : ℕ → T.Start) (ledgers : ℕ → PortLedger) (calls : List (List Job)) (took : List Reply) → ArePosts T.number T.lanes T.view T.made_by T.called starts ledgers posts.old calls took → AreStopped T.tells T.begun T.view starts ledgers posts.new calls took (length posts.new) }
{
    'stops: for place in 0..posts.len() {
        posts[place].stop();
    }
}

/// Visits the posts until nothing more is to come of any. Out of memory all links are closed.
fn run<T: Endpoint, L: Lane>(
    alloc: Global,
    posts: &mut [T],
    inboxes: &mut [MemInbox],
    lane: &mut L,
) -> Result<PortsEnd, NoMem>
    requires inboxes { AreEmptied (length posts.old) inboxes.old }
    requires begun { (starts : ℕ → T.Start) × (ledgers : ℕ → PortLedger) × (start : L.Start) × (turns : List LaneTurn) × ArePosts T.number T.lanes T.view T.made_by T.called starts ledgers posts.old (calls_in turns) (replies_in turns) × IsLane L.tells L.made_by start lane.old turns }
    ensures ok { IfOk result (λ end. (starts : ℕ → T.Start) (ledgers : ℕ → PortLedger) (start : L.Start) (turns : List LaneTurn) → ArePosts T.number T.lanes T.view T.made_by T.called starts ledgers posts.old (calls_in turns) (replies_in turns) → IsLane L.tells L.made_by start lane.old turns →
        (more : List LaneTurn) × IsLane L.tells L.made_by start lane.new more × ServesAll T.tells L.tells T.made_by T.called T.begun T.view starts posts.new more end × KeepLedgers T.view ledgers posts.new) }
    ensures err { OnErr result ((starts : ℕ → T.Start) (ledgers : ℕ → PortLedger) (start : L.Start) (turns : List LaneTurn) → ArePosts T.number T.lanes T.view T.made_by T.called starts ledgers posts.old (calls_in turns) (replies_in turns) → IsLane L.tells L.made_by start lane.old turns →
        (more : List LaneTurn) × (waiting : List (List Job)) × IsLane L.tells L.made_by start lane.new more × AreStopped T.tells T.begun T.view starts ledgers posts.new (calls_in more ++ waiting) (replies_in more) (length posts.new)) }
{
    'rounds: for _ in 0..u64::MAX {
        match how_far(posts) {
            Progress::Ended(end) => {
                return Ok(end);
            }
            Progress::Lost => {
                stop_all(posts);
                return Err(NoMem);
            }
            Progress::Going => {}
        }
        let Ok(()) = visit_all(alloc, posts, inboxes, lane) else {
            stop_all(posts);
            return Err(NoMem);
        };
    }
    stop_all(posts);
    Err(NoMem)
}

/// Serves what comes at these posts, each numbered by its place, by turns of the one lane, until nothing more is to come of any.
/// Each has an inbox in memory. A turn has all jobs that one call of a post gave, at most 256. Out of memory all links are
/// closed: the jobs of the turns are the first of what was read of them, and nothing was put on them but prefixes of the
/// answers by the turns made. No port is asked to listen on anything more.
pub fn serve<T: Endpoint, L: Lane>(
    alloc: Global,
    posts: &mut [T],
    lane: &mut L,
) -> Result<PortsEnd, NoMem>
    requires numbered { (i : ℕ) (post : T) → slice_get posts.old i ≡ Some post → T.number post ≡ i }
    requires lanes { (i : ℕ) (post : T) → slice_get posts.old i ≡ Some post → T.lanes post ≡ 1 }
    requires posts { (starts : ℕ → T.Start) × ((i : ℕ) (post : T) → slice_get posts.old i ≡ Some post → T.made_by (starts i) post (λ lane. []) []) }
    requires lane { (start : L.Start) × L.made_by start lane.old [] }
    ensures ok { IfOk result (λ end. (starts : ℕ → T.Start) (start : L.Start) → ((i : ℕ) (post : T) → slice_get posts.old i ≡ Some post → T.made_by (starts i) post (λ lane. []) []) → L.made_by start lane.old [] →
        (turns : List LaneTurn) × L.made_by start lane.new turns × AreSized turns × ServesAll T.tells L.tells T.made_by T.called T.begun T.view starts posts.new turns end) }
    ensures err { OnErr result ((starts : ℕ → T.Start) (start : L.Start) → ((i : ℕ) (post : T) → slice_get posts.old i ≡ Some post → T.made_by (starts i) post (λ lane. []) []) → L.made_by start lane.old [] →
        (turns : List LaneTurn) × L.made_by start lane.new turns × AreSized turns × PutsAll T.tells T.begun T.view starts posts.new turns) }
    ensures ports { KeepPorts T.view posts.old posts.new }
{
    let Ok(mut inboxes) = inboxes_of(alloc, posts.len()) else {
        stop_all(posts);
        return Err(NoMem);
    };
    match run(alloc, posts, &mut inboxes, lane) {
        Ok(end) => Ok(end),
        Err(NoMem) => Err(NoMem),
    }
}

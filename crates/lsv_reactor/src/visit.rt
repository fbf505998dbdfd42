//! One post's turn of the loop.

ghost use Rattle.std.specs.Prelude.{◌≡◌, ◌<◌, ◌≤◌, ◌++◌, [], ℕ, List, length, IfOk, OnOk, OnErr};
ghost use Rattle.lsv_port.specs.Ledger.{PortLedger};
ghost use Rattle.lsv_session.specs.declared.job.Job.{Job};
ghost use Rattle.lsv_session.specs.declared.reply.Reply.{Reply};
ghost use Rattle.lsv_links.specs.Lanes.{one_lane};
ghost use Rattle.lsv_links.specs.Turns.{AreOf, most_jobs};
ghost use Rattle.lsv_worker.specs.Memory.{IsOrderly, bytes_behind_first, waiting};
ghost use Rattle.lsv_reactor.specs.Calls.{call_of, calls_in};
ghost use Rattle.lsv_reactor.specs.InnerLoop.{AreEmptied, ArePosts, Gives, IsEmptied, IsLane};
ghost use Rattle.lsv_turn.specs.Turns.{LaneTurn, replies_in};

use crate::Endpoint;
use crate::deliver::deliver;
use lsv_base::NoMem;
use lsv_session::Job;
use lsv_turn::Lane;
use lsv_worker::MemInbox;
use std::alloc::Global;

/// So often a post is tried again without waiting, while jobs come of it.
const PASSES: u32 = 8;

/// The most jobs of a turn.
const MOST_JOBS: usize = 256;

/// Lets the lane do a turn of these jobs, if there are any, and hands out its replies.
fn turn<T: Endpoint, L: Lane>(
    alloc: Global,
    posts: &mut [T],
    lane: &mut L,
    jobs: Vec<Job>,
) -> Result<(), NoMem>
    requires few { length jobs.items ≤ most_jobs }
    requires begun { (starts : ℕ → T.Start) × (ledgers : ℕ → PortLedger) × (start : L.Start) × (turns : List LaneTurn) × ArePosts T.number T.lanes T.view T.made_by T.called starts ledgers posts.old (calls_in turns ++ call_of jobs.items) (replies_in turns) × IsLane L.tells L.made_by start lane.old turns }
    ensures ok { OnOk result ((starts : ℕ → T.Start) (ledgers : ℕ → PortLedger) (start : L.Start) (turns : List LaneTurn) → ArePosts T.number T.lanes T.view T.made_by T.called starts ledgers posts.old (calls_in turns ++ call_of jobs.items) (replies_in turns) → IsLane L.tells L.made_by start lane.old turns →
        (more : List LaneTurn) × ArePosts T.number T.lanes T.view T.made_by T.called starts ledgers posts.new (calls_in more) (replies_in more) × IsLane L.tells L.made_by start lane.new more) }
    ensures err { OnErr result ((start : L.Start) (turns : List LaneTurn) → IsLane L.tells L.made_by start lane.old turns → IsLane L.tells L.made_by start lane.new turns) }
    ensures lost { OnErr result (posts.new ≡ posts.old) }
    ensures count { length posts.new ≡ length posts.old }
{
    if jobs.is_empty() {
        return Ok(());
    }
    let mut replies = Vec::new(alloc);
    let Ok(_) = lane.turn(jobs, None, &mut replies) else {
        return Err(NoMem);
    };
    deliver(posts, replies);
    Ok(())
}

/// An inbox for each of this many posts, numbered as they are.
pub(crate) fn inboxes_of(alloc: Global, count: usize) -> Result<Vec<MemInbox>, NoMem>
    ensures { IfOk result (λ inboxes. AreEmptied count inboxes.items) }
{
    let mut inboxes = Vec::with_capacity(alloc, count)?;
    'numbers: for place in 0..count {
        let Ok(number) = u32::try_from(place) else {
            return Err(NoMem);
        };
        inboxes.push(MemInbox::new(alloc, number)?)?;
    }
    Ok(inboxes)
}

/// An empty list with places for the jobs of a turn, if there is memory for them; else it grows as they come.
fn with_places(alloc: Global) -> Vec<Job>
    ensures { result.items ≡ [] }
{
    match Vec::with_capacity(alloc, MOST_JOBS) {
        Ok(jobs) => jobs,
        Err(_) => Vec::new(alloc),
    }
}

/// Hands out what stands in an inbox.
fn hand_out(alloc: Global, inbox: &mut MemInbox) -> Vec<Job>
    requires orderly { IsOrderly inbox.old }
    ensures taken { result.items ≡ waiting inbox.old }
    ensures few { length result.items ≤ most_jobs }
    ensures light { bytes_behind_first result.items ≤ 67108864 }
    ensures emptied { (n : ℕ) → inbox.old.worker ≡ n → IsEmptied n inbox.new × AreOf n result.items }
{
    if inbox.is_empty() {
        return Vec::new(alloc);
    }
    let mut jobs = with_places(alloc);
    inbox.take(&mut jobs);
    jobs
}

/// Waits at a post. These jobs come of it.
fn wait_for<T: Endpoint>(alloc: Global, post: &mut T, inbox: &mut MemInbox) -> Vec<Job>
    requires lanes { T.lanes post.old ≡ 1 }
    requires inbox { (n : ℕ) × IsEmptied n inbox.old }
    requires begun { (start : T.Start) × (gave : List Job) × (took : List Reply) × T.made_by start post.old (λ lane. one_lane lane gave) took }
    ensures few { length result.items ≤ most_jobs }
    ensures light { bytes_behind_first result.items ≤ 67108864 }
    ensures gives { Gives T.number T.lanes T.view T.made_by T.called post.old post.new result.items }
    ensures emptied { (n : ℕ) → IsEmptied n inbox.old → IsEmptied n inbox.new × AreOf n result.items }
{
    post.wait(inbox);
    hand_out(alloc, inbox)
}

/// Tries a post again. These jobs come of it.
fn push_for<T: Endpoint>(alloc: Global, post: &mut T, inbox: &mut MemInbox) -> Vec<Job>
    requires lanes { T.lanes post.old ≡ 1 }
    requires inbox { (n : ℕ) × IsEmptied n inbox.old }
    requires begun { (start : T.Start) × (gave : List Job) × (took : List Reply) × T.made_by start post.old (λ lane. one_lane lane gave) took }
    ensures few { length result.items ≤ most_jobs }
    ensures light { bytes_behind_first result.items ≤ 67108864 }
    ensures gives { Gives T.number T.lanes T.view T.made_by T.called post.old post.new result.items }
    ensures emptied { (n : ℕ) → IsEmptied n inbox.old → IsEmptied n inbox.new × AreOf n result.items }
{
    post.push(inbox);
    hand_out(alloc, inbox)
}

/// Waits at the post of this place. These jobs come of it.
fn wait_at<T: Endpoint>(
    alloc: Global,
    posts: &mut [T],
    inboxes: &mut [MemInbox],
    place: usize,
) -> Vec<Job>
    requires place { place < length posts.old }
    requires inboxes { AreEmptied (length posts.old) inboxes.old }
    requires begun { (starts : ℕ → T.Start) × (ledgers : ℕ → PortLedger) × (calls : List (List Job)) × (took : List Reply) × ArePosts T.number T.lanes T.view T.made_by T.called starts ledgers posts.old calls took }
    ensures few { length result.items ≤ most_jobs }
    ensures made { (starts : ℕ → T.Start) (ledgers : ℕ → PortLedger) (calls : List (List Job)) (took : List Reply) → ArePosts T.number T.lanes T.view T.made_by T.called starts ledgers posts.old calls took → ArePosts T.number T.lanes T.view T.made_by T.called starts ledgers posts.new (calls ++ call_of result.items) took }
    ensures count { length posts.new ≡ length posts.old }
    ensures inboxes { AreEmptied (length posts.old) inboxes.new }
{
    wait_for(alloc, &mut posts[place], &mut inboxes[place])
}

/// Tries the post of this place again. These jobs come of it.
fn push_at<T: Endpoint>(
    alloc: Global,
    posts: &mut [T],
    inboxes: &mut [MemInbox],
    place: usize,
) -> Vec<Job>
    requires place { place < length posts.old }
    requires inboxes { AreEmptied (length posts.old) inboxes.old }
    requires begun { (starts : ℕ → T.Start) × (ledgers : ℕ → PortLedger) × (calls : List (List Job)) × (took : List Reply) × ArePosts T.number T.lanes T.view T.made_by T.called starts ledgers posts.old calls took }
    ensures few { length result.items ≤ most_jobs }
    ensures made { (starts : ℕ → T.Start) (ledgers : ℕ → PortLedger) (calls : List (List Job)) (took : List Reply) → ArePosts T.number T.lanes T.view T.made_by T.called starts ledgers posts.old calls took → ArePosts T.number T.lanes T.view T.made_by T.called starts ledgers posts.new (calls ++ call_of result.items) took }
    ensures count { length posts.new ≡ length posts.old }
    ensures inboxes { AreEmptied (length posts.old) inboxes.new }
{
    push_for(alloc, &mut posts[place], &mut inboxes[place])
}

/// Lets the lane do a turn of these jobs, and tries the post again, of which further jobs come.
fn pass<T: Endpoint, L: Lane>(
    alloc: Global,
    posts: &mut [T],
    inboxes: &mut [MemInbox],
    place: usize,
    lane: &mut L,
    jobs: Vec<Job>,
) -> Result<Vec<Job>, NoMem>
    requires place { place < length posts.old }
    requires inboxes { AreEmptied (length posts.old) inboxes.old }
    requires few { length jobs.items ≤ most_jobs }
    requires begun { (starts : ℕ → T.Start) × (ledgers : ℕ → PortLedger) × (start : L.Start) × (turns : List LaneTurn) × ArePosts T.number T.lanes T.view T.made_by T.called starts ledgers posts.old (calls_in turns ++ call_of jobs.items) (replies_in turns) × IsLane L.tells L.made_by start lane.old turns }
    ensures few { IfOk result (λ jobs. length jobs.items ≤ most_jobs) }
    ensures ok { IfOk result (λ others. (starts : ℕ → T.Start) (ledgers : ℕ → PortLedger) (start : L.Start) (turns : List LaneTurn) → ArePosts T.number T.lanes T.view T.made_by T.called starts ledgers posts.old (calls_in turns ++ call_of jobs.items) (replies_in turns) → IsLane L.tells L.made_by start lane.old turns →
        (more : List LaneTurn) × ArePosts T.number T.lanes T.view T.made_by T.called starts ledgers posts.new (calls_in more ++ call_of others.items) (replies_in more) × IsLane L.tells L.made_by start lane.new more) }
    ensures err { OnErr result ((start : L.Start) (turns : List LaneTurn) → IsLane L.tells L.made_by start lane.old turns → IsLane L.tells L.made_by start lane.new turns) }
    ensures lost { OnErr result (posts.new ≡ posts.old) }
    ensures count { length posts.new ≡ length posts.old }
    ensures inboxes { AreEmptied (length posts.old) inboxes.new }
{
    let Ok(()) = turn(alloc, posts, lane, jobs) else {
        return Err(NoMem);
    };
    Ok(push_at(alloc, posts, inboxes, place))
}

/// Waits at a post, and lets the lane do the turns of what comes of it, while something comes.
pub(crate) fn visit<T: Endpoint, L: Lane>(
    alloc: Global,
    posts: &mut [T],
    inboxes: &mut [MemInbox],
    place: usize,
    lane: &mut L,
) -> Result<(), NoMem>
    requires place { place < length posts.old }
    requires inboxes { AreEmptied (length posts.old) inboxes.old }
    requires begun { (starts : ℕ → T.Start) × (ledgers : ℕ → PortLedger) × (start : L.Start) × (turns : List LaneTurn) × ArePosts T.number T.lanes T.view T.made_by T.called starts ledgers posts.old (calls_in turns) (replies_in turns) × IsLane L.tells L.made_by start lane.old turns }
    ensures ok { OnOk result ((starts : ℕ → T.Start) (ledgers : ℕ → PortLedger) (start : L.Start) (turns : List LaneTurn) → ArePosts T.number T.lanes T.view T.made_by T.called starts ledgers posts.old (calls_in turns) (replies_in turns) → IsLane L.tells L.made_by start lane.old turns →
        (more : List LaneTurn) × ArePosts T.number T.lanes T.view T.made_by T.called starts ledgers posts.new (calls_in more) (replies_in more) × IsLane L.tells L.made_by start lane.new more) }
    ensures err { OnErr result ((starts : ℕ → T.Start) (ledgers : ℕ → PortLedger) (start : L.Start) (turns : List LaneTurn) → ArePosts T.number T.lanes T.view T.made_by T.called starts ledgers posts.old (calls_in turns) (replies_in turns) → IsLane L.tells L.made_by start lane.old turns →
        (more : List LaneTurn) × (waiting : List (List Job)) × ArePosts T.number T.lanes T.view T.made_by T.called starts ledgers posts.new (calls_in more ++ waiting) (replies_in more) × IsLane L.tells L.made_by start lane.new more) }
    ensures count { length posts.new ≡ length posts.old }
    ensures inboxes { AreEmptied (length posts.old) inboxes.new }
{
    let mut jobs = wait_at(alloc, posts, inboxes, place);
    'passes: for _ in 0..PASSES {
        if jobs.is_empty() {
            return Ok(());
        }
        match pass(alloc, posts, inboxes, place, lane, jobs) {
            Ok(others) => jobs = others,
            Err(_) => return Err(NoMem),
        }
    }
    let Ok(()) = turn(alloc, posts, lane, jobs) else {
        return Err(NoMem);
    };
    Ok(())
}

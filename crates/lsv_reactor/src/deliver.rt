//! Replies go to the posts of their connections.

ghost use Rattle.std.specs.Prelude.{◌≡◌, ◌++◌, ◌∷◌, [], ℕ, List, length};
ghost use Rattle.lsv_port.specs.Ledger.{PortLedger};
ghost use Rattle.lsv_session.specs.declared.job.Job.{Job};
ghost use Rattle.lsv_session.specs.declared.reply.Reply.{Reply};
ghost use Rattle.lsv_reactor.specs.InnerLoop.{ArePosts};

use crate::Endpoint;
use lsv_session::Reply;

/// Hands a reply to the post whose place is the number of its connection's worker. Where there is none it is dropped.
fn deliver_one<T: Endpoint>(posts: &mut [T], reply: Reply)
    requires begun { (starts : ℕ → T.Start) × (ledgers : ℕ → PortLedger) × (calls : List (List Job)) × (took : List Reply) × ArePosts T.number T.lanes T.view T.made_by T.called starts ledgers posts.old calls took }
    ensures took { (starts : ℕ → T.Start) (ledgers : ℕ → PortLedger) (calls : List (List Job)) (took : List Reply) → ArePosts T.number T.lanes T.view T.made_by T.called starts ledgers posts.old calls took → ArePosts T.number T.lanes T.view T.made_by T.called starts ledgers posts.new calls (took ++ reply ∷ []) }
    ensures count { length posts.new ≡ length posts.old }
{
    let place = reply.conn.worker as usize;
    if place < posts.len() {
        posts[place].take(reply);
        return;
    }
}

/// Hands each reply to its post.
pub(crate) fn deliver<T: Endpoint>(posts: &mut [T], replies: Vec<Reply>)
    requires begun { (starts : ℕ → T.Start) × (ledgers : ℕ → PortLedger) × (calls : List (List Job)) × (took : List Reply) × ArePosts T.number T.lanes T.view T.made_by T.called starts ledgers posts.old calls took }
    ensures took { (starts : ℕ → T.Start) (ledgers : ℕ → PortLedger) (calls : List (List Job)) (took : List Reply) → ArePosts T.number T.lanes T.view T.made_by T.called starts ledgers posts.old calls took → ArePosts T.number T.lanes T.view T.made_by T.called starts ledgers posts.new calls (took ++ replies.items) }
    ensures count { length posts.new ≡ length posts.old }
{
    for reply in replies {
        deliver_one(posts, reply);
    }
}

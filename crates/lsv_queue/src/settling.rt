//! The end of several queues with the same senders: after all lists have ended and all end marks were met, each pass is
//! joined, and it is known that everything was taken.

ghost use Rattle.std.specs.Prelude.{◌≡◌, ◌≤◌, ◌<◌, ◌++◌, [], ◌∷◌, map, length, slice_get, Some, vec_len};
ghost use Rattle.lsv_queue.specs.Order.{IsClosed, KnowsAll};
ghost use Rattle.lsv_queue.specs.Settled.{AreJoined, AreKnown, AreSame, AreClosed, AreReady, AreRow, AreRows, AreSettled, AreReceivers, IsJoined};

use crate::queue::{InPass, OutPass, Queue};
use std::sync::Wait;

/// Joins the passes of one sender, each at its queue.
fn join_row<T: Drop>(queues: &[Queue<T>], receivers: &mut Vec<OutPass<T>>, row: Vec<InPass<T>>)
    requires row { AreRow queues.now row.items }
    requires receivers { AreReceivers queues.now receivers.old.items }
    ensures receivers { AreReceivers queues.now receivers.new.items }
    ensures joined { IsJoined receivers.old.items receivers.new.items row.items }
{
    let mut place = 0;
    for pass in row {
        queues[place].join(&mut receivers[place], pass);
        place += 1;
    }
}

/// Joins the passes of all senders.
fn join_rows<T: Drop>(
    queues: &[Queue<T>],
    receivers: &mut Vec<OutPass<T>>,
    rows: Vec<Vec<InPass<T>>>,
)
    requires rows { AreRows queues.now (map (λ v. v.items) rows.items) }
    requires receivers { AreReceivers queues.now receivers.old.items }
    ensures receivers { AreReceivers queues.now receivers.new.items }
    ensures joined { AreJoined receivers.old.items receivers.new.items (map (λ v. v.items) rows.items) }
{
    for row in rows {
        join_row(queues, receivers, row);
    }
}

/// A closed queue holds nothing: one more `get` meets a gap, which says so.
fn prove_taken<T: Drop, R: Wait>(rt: &R, queue: &Queue<T>, receiver: &mut OutPass<T>)
    requires queue { receiver.old.queue ≡ queue.now.name }
    requires closed { IsClosed receiver.old.taken }
    ensures same { receiver.new.taken ≡ receiver.old.taken }
    ensures queue { receiver.new.queue ≡ receiver.old.queue }
    ensures known { KnowsAll receiver.old.taken [] }
{
    match queue.get(rt, receiver) {
        Ok(_) => unreachable!(),
        Err(_) => {}
    }
}

/// The same of each queue.
fn prove_all_taken<T: Drop, R: Wait>(rt: &R, queues: &[Queue<T>], receivers: &mut Vec<OutPass<T>>)
    requires receivers { AreReceivers queues.now receivers.old.items }
    requires closed { AreClosed receivers.old.items }
    ensures same { AreSame receivers.old.items receivers.new.items }
    ensures known { AreKnown receivers.old.items (length receivers.old.items) }
{
    for place in 0..receivers.len() {
        prove_taken(rt, &queues[place], &mut receivers[place]);
    }
}

/// Joins all passes of all senders, each list of which has ended. `rows` has a row for each sender, with a pass for each
/// queue. At each queue the receiver then took all that each sender put, in order, and nothing else. It waits for nobody:
/// each queue is closed, so its one `get` answers at once.
pub fn settle<T: Drop, R: Wait>(
    rt: &R,
    queues: &[Queue<T>],
    receivers: &mut Vec<OutPass<T>>,
    rows: Vec<Vec<InPass<T>>>,
)
    requires rows { AreRows queues.now (map (λ v. v.items) rows.items) }
    requires receivers { AreReceivers queues.now receivers.old.items }
    requires ready { AreReady receivers.old.items (map (λ v. v.items) rows.items) }
    ensures settled { AreSettled receivers.old.items (map (λ v. v.items) rows.items) }
{
    join_rows(queues, receivers, rows);
    prove_all_taken(rt, queues, receivers);
}

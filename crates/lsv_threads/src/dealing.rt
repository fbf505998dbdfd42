//! Queues with the same senders: making them, and dealing their passes out.

ghost use Rattle.std.specs.Prelude.{◌≡◌, ◌≤◌, ◌<◌, ◌+◌, ℕ, length, IfOk};
ghost use Rattle.lsv_threads.specs.Dealt.{AreDealt, AreNew, AreUntaken};

use lsv_queue::{InPass, NoMem, OutPass, Queue, make};
use std::alloc::Global;

/// Some queues, the passes of each sender in a row, and the receivers' passes. Each is in the queues' order.
#[derive(Drop)]
pub struct Dealt<T: Drop> {
    pub queues: Vec<Queue<T>>,
    /// A row for each sender, in the order of their numbers.
    pub rows: Vec<Vec<InPass<T>>>,
    pub receivers: Vec<OutPass<T>>,
}

/// The queues alone, with their first senders' passes.
#[derive(Drop)]
struct Made<T: Drop> {
    queues: Vec<Queue<T>>,
    firsts: Vec<InPass<T>>,
    receivers: Vec<OutPass<T>>,
}

/// Makes this many queues for this many letters each.
fn make_queues<T: Drop>(alloc: Global, capacity: usize, count: usize) -> Result<Made<T>, NoMem>
    requires capacity { (0 < capacity) × (capacity ≤ 1024) }
    ensures count { IfOk result (λ r. length r.queues.items ≡ count) }
    ensures firsts { IfOk result (λ r. AreNew r.queues.items r.firsts.items 0 1) }
    ensures receivers { IfOk result (λ r. AreUntaken r.queues.items r.receivers.items) }
{
    let mut queues = Vec::with_capacity(alloc, count)?;
    let mut firsts = Vec::with_capacity(alloc, count)?;
    let mut receivers = Vec::with_capacity(alloc, count)?;
    for place in 0..count {
        let _ = place;
        let Ok((queue, first, receiver)) = make(alloc, capacity) else {
            return Err(NoMem);
        };
        queues.push_reserved(queue);
        firsts.push_reserved(first);
        receivers.push_reserved(receiver);
    }
    Ok(Made {
        queues,
        firsts,
        receivers,
    })
}

/// Makes the next sender's pass of each queue. `firsts` are the passes of number 0.
fn split_row<T: Drop>(
    alloc: Global,
    queues: &[Queue<T>],
    firsts: &mut Vec<InPass<T>>,
) -> Result<Vec<InPass<T>>, NoMem>
    requires firsts { (made : ℕ) × AreNew queues.now firsts.old.items 0 made }
    ensures { IfOk result (λ row. (made : ℕ) → AreNew queues.now firsts.old.items 0 made → AreNew queues.now firsts.new.items 0 (made + 1) × AreNew queues.now row.items made 0) }
{
    let mut row = Vec::with_capacity(alloc, queues.len())?;
    for place in 0..queues.len() {
        let Ok(pass) = queues[place].split(&mut firsts[place]) else {
            return Err(NoMem);
        };
        row.push_reserved(pass);
    }
    Ok(row)
}

/// Makes the passes of this many senders, of each queue one. `firsts` are the passes of number 0, which are the first row.
fn deal_rows<T: Drop>(
    alloc: Global,
    queues: &[Queue<T>],
    firsts: Vec<InPass<T>>,
    senders: usize,
) -> Result<Vec<Vec<InPass<T>>>, NoMem>
    requires some { 1 ≤ senders }
    requires firsts { AreNew queues.now firsts.items 0 1 }
    ensures { IfOk result (λ rows. AreDealt queues.now rows.items senders) }
{
    let mut firsts = firsts;
    let mut rows = Vec::with_capacity(alloc, senders)?;
    rows.push_reserved(Vec::new(alloc));
    for number in 1..senders {
        let _ = number;
        let Ok(row) = split_row(alloc, queues, &mut firsts) else {
            return Err(NoMem);
        };
        rows.push_reserved(row);
    }
    rows[0] = firsts;
    Ok(rows)
}

/// Makes `count` queues for `capacity` letters each, from 1 to 1,024, and the passes of `senders` senders, at least one.
pub fn deal<T: Drop>(
    alloc: Global,
    capacity: usize,
    count: usize,
    senders: usize,
) -> Result<Dealt<T>, NoMem>
    requires capacity { (0 < capacity) × (capacity ≤ 1024) }
    requires some { 1 ≤ senders }
    ensures count { IfOk result (λ r. length r.queues.items ≡ count) }
    ensures rows { IfOk result (λ r. AreDealt r.queues.items r.rows.items senders) }
    ensures receivers { IfOk result (λ r. AreUntaken r.queues.items r.receivers.items) }
{
    let Made {
        queues,
        firsts,
        receivers,
    } = make_queues(alloc, capacity, count)?;
    let rows = deal_rows(alloc, queues.as_slice(), firsts, senders)?;
    Ok(Dealt {
        queues,
        rows,
        receivers,
    })
}

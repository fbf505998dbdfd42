//! Replies go to the outboxes of their workers.

ghost use Rattle.std.specs.Prelude.{◌≡◌, ◌∷◌, [], List};
ghost use Rattle.lsv_queue.specs.declared.queue.InPass.{InPass};
ghost use Rattle.lsv_session.specs.declared.reply.Reply.{Reply};
ghost use Rattle.lsv_threads.specs.Rows.{ArePasses, Gives};

use crate::{Meanwhile, Parkings};
use lsv_port::Bell;
use lsv_queue::{InPass, Queue};
use lsv_session::Reply;
use std::sync::Wait;

/// Puts a reply to its worker's outbox, and tries again while that is full. A reply to a worker without an outbox is dropped.
fn give_one<R: Wait, B: Bell, M: Meanwhile>(
    rt: &R,
    outs: &[Queue<Reply>],
    parkings: &Parkings<B>,
    given: &mut Vec<InPass<Reply>>,
    reply: Reply,
    meanwhile: &mut M,
)
    requires passes { (first : List (InPass Reply)) × ArePasses outs.now first given.old.items 0 }
    requires ready { M.ready meanwhile.old }
    ensures gives { Gives outs.now given.old.items given.new.items (reply ∷ []) }
    ensures ready { M.ready meanwhile.new }
    ensures goes { M.goes meanwhile.old meanwhile.new }
{
    let place = reply.conn.worker as usize;
    if place >= given.len() {
        return;
    }
    let mut reply = reply;
    for _ in rt.forever() {
        match outs[place].put(rt, &mut given[place], reply) {
            Ok(()) => {
                return;
            }
            Err((back, _)) => {
                reply = back;
                parkings.wake_worker(place);
                meanwhile.go_on(rt, false);
            }
        }
    }
    unreachable!()
}

/// Puts each reply, and then wakes the workers of these replies.
pub(crate) fn give_all<R: Wait, B: Bell, M: Meanwhile>(
    rt: &R,
    outs: &[Queue<Reply>],
    parkings: &Parkings<B>,
    given: &mut Vec<InPass<Reply>>,
    replies: Vec<Reply>,
    meanwhile: &mut M,
)
    requires passes { (first : List (InPass Reply)) × ArePasses outs.now first given.old.items 0 }
    requires ready { M.ready meanwhile.old }
    ensures gives { Gives outs.now given.old.items given.new.items replies.items }
    ensures ready { M.ready meanwhile.new }
    ensures goes { M.goes meanwhile.old meanwhile.new }
{
    let mut woken = Woken { of: [false; 64] };
    for reply in replies {
        woken.note(reply.conn.worker);
        give_one(rt, outs, parkings, given, reply, meanwhile);
    }
    woken.wake(parkings, given.len());
}

/// Which workers got a reply, by their numbers' rests modulo 64.
#[derive(Drop)]
struct Woken {
    of: [bool; 64],
}

impl Woken {
    fn note(&mut self, worker: u32) {
        self.of[(worker % 64) as usize] = true;
    }

    /// Wakes those workers of the first `count` that got a reply, and perhaps others.
    fn wake<B: Bell>(&self, parkings: &Parkings<B>, count: usize) {
        for worker in 0..count {
            if self.of[worker % 64] {
                parkings.wake_worker(worker);
            }
        }
    }
}

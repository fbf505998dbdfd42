// Links that this side has closed, and whose peers may still send.
use super::accepted::Accepted;
use lsv_port::Took;
use std::alloc::Global;
use std::collections::VecDeque;
use std::time::{Duration, Instant};

/// This many of them at most: the one that was closed first is let go for a further one.
const MOST: usize = 16;

/// A peer has this many seconds to end.
const LONGEST: u64 = 2;

/// This many bytes are read at a time, and so often between two waits.
const PIECE: usize = 4096;

const MOST_READS: u32 = 16;

/// A link that was closed, and until when its peer is read.
#[derive(Drop)]
struct Left {
    accepted: Accepted,
    until: Instant,
}

/// Links that this side has closed. What their peers still send is read and dropped until they end: the system answers a link that
/// is let go with unread bytes by a reset, which may take from the peer what was put for it last.
#[derive(Drop)]
pub struct Leaving {
    links: VecDeque<Left>,
}

impl Leaving {
    /// None.
    pub fn new(alloc: Global) -> Self {
        Leaving {
            links: VecDeque::new(alloc),
        }
    }

    /// A link that was closed. Where that can't be, it is let go at once.
    pub fn add(&mut self, rt: &HostRuntime, accepted: Accepted) {
        let Ok(now) = Instant::now(rt) else {
            return;
        };
        let Some(until) = now.checked_add(Duration::from_secs(LONGEST)) else {
            return;
        };
        if accepted.end_output().is_err() {
            return;
        }
        if self.links.len() >= MOST {
            let _ = self.links.pop_front();
        }
        let _ = self.links.push_back(Left { accepted, until });
    }

    /// Reads what has come, and lets go of the links whose peers have ended or had their time.
    pub fn drain(&mut self, rt: &HostRuntime) {
        if self.links.is_empty() {
            return;
        }
        let now = Instant::now(rt);
        self.links.retain_mut(|left| match &now {
            Ok(now) => *now < left.until && stays(&mut left.accepted),
            Err(_) => false,
        });
    }
}

/// Reads and drops what has come. Whether the peer has not ended.
fn stays(accepted: &mut Accepted) -> bool {
    let mut piece = [0; PIECE];
    for _ in 0..MOST_READS {
        match accepted.read(&mut piece) {
            Took::Bytes(_) => {}
            Took::NotYet => return true,
            Took::End | Took::Failed => return false,
        }
    }
    true
}

//! How the places and the bytes of a lane's inbox are shared among the workers.

ghost use Rattle.std.specs.Prelude.{◌≤◌, ◌<◌};

use lsv_base::NoMem;
use std::alloc::Global;
use std::sync::atomic::{AtomicU64, Ordering};

/// How much memory the jobs of one lane may hold before puts to it are refused, 64 MiB: each worker has its part of it.
const MOST_BYTES: u64 = 67_108_864;

/// How many of a worker's own places are spare: those that only a connection takes that was not refused at the last visit.
const SPARE: u64 = 4;

/// How many places of its own a worker has in each inbox, if there are this many workers.
fn own_places(workers: usize) -> usize
    ensures { result ≤ 16 }
{
    if workers <= 48 { 16 } else { 12 }
}

/// How many places of each inbox any worker may take, beside its own.
fn common_places(workers: usize) -> usize
    ensures { result ≤ 256 }
{
    if workers < 8 { 256 - 16 * workers } else { 128 }
}

/// How many places the inbox of a lane has, if there are this many workers: the common ones and each worker's own.
pub(crate) fn inbox_places(workers: usize) -> usize
    ensures some { 0 < result }
    ensures most { result ≤ 1024 }
{
    if workers < 8 {
        256
    } else if workers <= 48 {
        128 + 16 * workers
    } else if workers <= 64 {
        128 + 12 * workers
    } else {
        1024
    }
}

/// What one worker has in one lane's inbox.
#[derive(Drop)]
struct Share {
    /// Places: of its jobs that the lane has yet to take, and those that it claimed ahead. Spare ones aren't counted.
    places: AtomicU64,
    /// Spare places of its jobs that the lane has yet to take.
    spare: AtomicU64,
    /// Bytes: of its jobs whose turn the lane has yet to do, and those that it claimed ahead.
    bytes: AtomicU64,
    /// Which of its connections were refused at the worker's last visit that had jobs for the lane, by the rests of their numbers modulo 64.
    refused: AtomicU64,
}

/// What all workers share of one lane's inbox.
#[derive(Drop)]
struct Common {
    /// How many common places are taken: of each worker's places, those above its own.
    taken: AtomicU64,
    /// Which workers wait for room, by the bits of their numbers. A worker sets its bit, the lane clears all.
    waiting: AtomicU64,
}

/// The places and bytes of all lanes' inboxes. As soon as the lane took a worker's jobs the worker has its own places again, whatever
/// the other workers put: so none waits for another. No contract speaks of it.
#[derive(Drop)]
pub struct Shares {
    workers: usize,
    /// How many places a worker has of its own, without the spare ones.
    own: u64,
    common: u64,
    most_bytes: u64,
    /// One for each lane, in their order.
    commons: Vec<Common>,
    /// One for each worker at each lane, lane by lane.
    shares: Vec<Share>,
    /// For each worker: 1 if there may be room again where it was refused, else 0.
    roomy: Vec<AtomicU64>,
}

impl Shares {
    /// Nothing is in any inbox.
    pub(crate) fn new(alloc: Global, lanes: usize, workers: usize) -> Result<Self, NoMem> {
        let mut commons = Vec::new(alloc);
        let mut shares = Vec::new(alloc);
        for _ in 0..lanes {
            commons.push(Common {
                taken: AtomicU64::new(0),
                waiting: AtomicU64::new(0),
            })?;
            for _ in 0..workers {
                shares.push(Share {
                    places: AtomicU64::new(0),
                    bytes: AtomicU64::new(0),
                    spare: AtomicU64::new(0),
                    refused: AtomicU64::new(0),
                })?;
            }
        }
        let mut roomy = Vec::new(alloc);
        for _ in 0..workers {
            roomy.push(AtomicU64::new(0))?;
        }
        Ok(Shares {
            workers,
            own: (own_places(workers) as u64).saturating_sub(SPARE),
            common: common_places(workers) as u64,
            most_bytes: MOST_BYTES / workers.max(1) as u64,
            commons,
            shares,
            roomy,
        })
    }

    fn share(&self, lane: usize, worker: usize) -> Option<&Share> {
        if worker >= self.workers {
            return None;
        }
        let place = lane.checked_mul(self.workers)?.checked_add(worker)?;
        self.shares.as_slice().get(place)
    }

    /// How many of this many places of a worker are common ones.
    fn above(&self, places: u64) -> u64 {
        places.saturating_sub(self.own)
    }

    /// Claims up to this many places for a worker's jobs, and says how many it got: its own first, and then common ones.
    pub(crate) fn claim(&self, lane: usize, worker: usize, count: u64) -> u64 {
        let (Some(share), Some(common)) = (
            self.share(lane, worker),
            self.commons.as_slice().get(lane),
        ) else {
            return count;
        };
        let had = share.places.fetch_add(count, Ordering::SeqCst);
        let more = self
            .above(had.saturating_add(count))
            .saturating_sub(self.above(had));
        let taken = common.taken.fetch_add(more, Ordering::SeqCst);
        let lacking = more.saturating_sub(self.common.saturating_sub(taken));
        if lacking > 0 {
            self.give_back(lane, worker, lacking);
        }
        count.saturating_sub(lacking)
    }

    /// Claims a spare place. False if none is left.
    pub(crate) fn claim_spare(&self, lane: usize, worker: usize) -> bool {
        let Some(share) = self.share(lane, worker) else {
            return false;
        };
        if share.spare.load(Ordering::SeqCst) >= SPARE {
            return false;
        }
        share.spare.fetch_add(1, Ordering::SeqCst);
        true
    }

    /// Gives a spare place back that isn't used.
    pub(crate) fn give_back_spare(&self, lane: usize, worker: usize) {
        if let Some(share) = self.share(lane, worker) {
            share.spare.fetch_sub(1, Ordering::SeqCst);
        }
    }

    /// The lane took this many jobs of a worker: their places are free, spare ones first. Each of these jobs had a place counted
    /// before it was put, so that neither count falls below what is left.
    pub(crate) fn release(&self, lane: usize, worker: usize, count: u64) {
        let Some(share) = self.share(lane, worker) else {
            return;
        };
        let spare = share.spare.load(Ordering::SeqCst).min(count);
        if spare > 0 {
            share.spare.fetch_sub(spare, Ordering::SeqCst);
        }
        self.give_back(lane, worker, count.saturating_sub(spare));
    }

    /// Gives back places that aren't spare ones.
    pub(crate) fn give_back(&self, lane: usize, worker: usize, count: u64) {
        let (Some(share), Some(common)) = (
            self.share(lane, worker),
            self.commons.as_slice().get(lane),
        ) else {
            return;
        };
        let had = share.places.fetch_sub(count, Ordering::SeqCst);
        let less = self
            .above(had)
            .saturating_sub(self.above(had.saturating_sub(count)));
        if less > 0 {
            common.taken.fetch_sub(less, Ordering::SeqCst);
        }
    }

    /// Counts these bytes as a worker's at a lane. False, and not counted, if that were more than its part. A worker that has none
    /// there may count any.
    pub(crate) fn load(&self, lane: usize, worker: usize, bytes: u64) -> bool {
        let Some(share) = self.share(lane, worker) else {
            return true;
        };
        let held = share.bytes.load(Ordering::SeqCst);
        if held > 0 && held.saturating_add(bytes) > self.most_bytes {
            return false;
        }
        share.bytes.fetch_add(bytes, Ordering::SeqCst);
        true
    }

    /// Counts these bytes as gone.
    pub(crate) fn unload(&self, lane: usize, worker: usize, bytes: u64) {
        if let Some(share) = self.share(lane, worker) {
            share.bytes.fetch_sub(bytes, Ordering::SeqCst);
        }
    }

    /// At a worker's visit that had jobs for the lane these connections were refused.
    pub(crate) fn note_last_refused(&self, lane: usize, worker: usize, refused: u64) {
        if let Some(share) = self.share(lane, worker) {
            share.refused.store(refused, Ordering::SeqCst);
        }
    }

    /// Which connections were refused at a worker's last visit that had jobs for the lane.
    pub(crate) fn last_refused(&self, lane: usize, worker: usize) -> u64 {
        match self.share(lane, worker) {
            Some(share) => share.refused.load(Ordering::SeqCst),
            None => 0,
        }
    }

    /// A worker waits for room at a lane.
    pub(crate) fn note_refused(&self, lane: usize, worker: usize) {
        let Some(common) = self.commons.as_slice().get(lane) else {
            return;
        };
        if worker < 64 {
            let bit = 1u64 << worker as u32;
            if common.waiting.load(Ordering::SeqCst) & bit == 0 {
                common.waiting.fetch_add(bit, Ordering::SeqCst);
            }
        }
    }

    /// The workers that wait for room at a lane, by the bits of their numbers. Then none is noted any more.
    pub(crate) fn take_refused(&self, lane: usize) -> u64 {
        match self.commons.as_slice().get(lane) {
            Some(common) if common.waiting.load(Ordering::SeqCst) != 0 => {
                common.waiting.swap(0, Ordering::SeqCst)
            }
            _ => 0,
        }
    }

    /// There may be room again where a worker was refused.
    pub(crate) fn note_roomy(&self, worker: usize) {
        if let Some(roomy) = self.roomy.as_slice().get(worker) {
            roomy.store(1, Ordering::SeqCst);
        }
    }

    /// Whether there may be room again where a worker was refused. Then it is noted no more.
    pub(crate) fn takes_roomy(&self, worker: usize) -> bool {
        match self.roomy.as_slice().get(worker) {
            Some(roomy) => {
                roomy.load(Ordering::SeqCst) == 1 && roomy.swap(0, Ordering::SeqCst) == 1
            }
            None => false,
        }
    }
}

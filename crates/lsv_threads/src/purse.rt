//! The places and the bytes that a worker claims at its lanes.

use crate::Parkings;
use crate::gates::MOST_LANES;
use crate::shares::Shares;
use lsv_port::Bell;

/// A worker claims this many places ahead.
const PLACES: u64 = 16;

/// A worker counts this many bytes ahead: 64 KiB.
const PIECE: u64 = 65_536;

/// What a worker has at one lane in one visit: one call of its endpoint.
#[derive(Clone, Copy, Drop)]
struct AtLane {
    /// Places that it claimed and did not use yet, and whether it has such a spare one.
    places: u64,
    spare: bool,
    /// Bytes that it counted and did not use yet.
    bytes: u64,
    /// One of its connections had a job for the lane. The number of the last one.
    is_met: bool,
    seq: u64,
    /// Which of them were refused at the last visit, and at this one, by the rests of their numbers modulo 64.
    before: u64,
    refused: u64,
    /// The last job that was put has a spare place.
    spent_spare: bool,
}

/// The bit of a connection.
fn bit_of(seq: u64) -> u64 {
    1u64 << (seq % 64) as u32
}

impl AtLane {
    /// Nothing was claimed or put.
    fn new() -> Self {
        AtLane {
            places: 0,
            spare: false,
            bytes: 0,
            is_met: false,
            seq: 0,
            before: 0,
            refused: 0,
            spent_spare: false,
        }
    }

    /// A connection has a job for this lane.
    fn meet(&mut self, shares: &Shares, lane: usize, worker: usize, seq: u64) {
        if !self.is_met {
            self.before = shares.last_refused(lane, worker);
        }
        self.is_met = true;
        self.seq = seq;
    }

    /// Whether a place, and this many bytes, are claimed.
    fn has(&self, bytes: u64) -> bool {
        (self.places > 0 || self.spare) && bytes <= self.bytes
    }

    /// Claims a place, and some more. The last connection takes a spare one, if there is no other and it wasn't refused at the last
    /// visit: so a client that sends little waits for none that sends much.
    fn claim_place(&mut self, shares: &Shares, lane: usize, worker: usize) -> bool {
        if self.places > 0 || self.spare {
            return true;
        }
        self.places = shares.claim(lane, worker, PLACES);
        if self.places > 0 {
            return true;
        }
        self.spare = self.before & bit_of(self.seq) == 0 && shares.claim_spare(lane, worker);
        self.spare
    }

    /// Claims a place and this many bytes, and some more of both. False if the inbox has no room for them.
    fn claim(&mut self, shares: &Shares, lane: usize, worker: usize, bytes: u64) -> bool {
        if !self.claim_place(shares, lane, worker) {
            return false;
        }
        if bytes > self.bytes {
            if !shares.load(lane, worker, bytes.saturating_add(PIECE)) {
                return false;
            }
            self.bytes = self.bytes.saturating_add(bytes.saturating_add(PIECE));
        }
        true
    }

    /// The same. If there is no room the worker waits for it, and the lane will say when there is: it may have made some just before,
    /// so that this looks once more.
    fn claim_or_wait(&mut self, shares: &Shares, lane: usize, worker: usize, bytes: u64) -> bool {
        if self.claim(shares, lane, worker, bytes) {
            return true;
        }
        shares.note_refused(lane, worker);
        self.claim(shares, lane, worker, bytes)
    }

    /// A job uses a place and its bytes.
    fn spend(&mut self, bytes: u64) {
        self.spent_spare = self.places == 0;
        if self.spent_spare {
            self.spare = false;
        } else {
            self.places = self.places.saturating_sub(1);
        }
        self.bytes = self.bytes.saturating_sub(bytes);
    }

    /// The last job wasn't put: its place and its bytes are there again.
    fn refund(&mut self, bytes: u64) {
        if self.spent_spare {
            self.spare = true;
        } else {
            self.places = self.places.saturating_add(1);
        }
        self.bytes = self.bytes.saturating_add(bytes);
    }

    /// A job of the last connection was refused.
    fn refuse(&mut self) {
        self.refused = self.refused | bit_of(self.seq);
    }

    /// Gives back what isn't used.
    fn settle(&self, shares: &Shares, lane: usize, worker: usize) {
        if self.is_met {
            shares.note_last_refused(lane, worker, self.refused);
        }
        if self.places > 0 {
            shares.give_back(lane, worker, self.places);
        }
        if self.spare {
            shares.give_back_spare(lane, worker);
        }
        if self.bytes > 0 {
            shares.unload(lane, worker, self.bytes);
        }
    }
}

/// The places and bytes that a worker has claimed at each lane, and not used yet, in one visit. It claims several at once, since
/// the counts of a lane are shared by all workers.
#[derive(Drop)]
pub(crate) struct Purse {
    lanes: [AtLane; 8],
}

impl Purse {
    /// Nothing is claimed.
    pub(crate) fn new() -> Self {
        Purse {
            lanes: [AtLane::new(); MOST_LANES],
        }
    }

    /// Uses a place, and these bytes, for a job of a worker's connection to a lane. False if there
    /// is none. If more is claimed, it is noted that the worker is awake.
    pub(crate) fn pay<B: Bell>(
        &mut self,
        parkings: &Parkings<B>,
        worker: u32,
        lane: usize,
        seq: u64,
        bytes: u64,
    ) -> bool {
        let Some(at) = self.lanes.get_mut(lane) else {
            return true;
        };
        let shares = &parkings.shares;
        let worker = worker as usize;
        at.meet(shares, lane, worker, seq);
        if !at.has(bytes) {
            parkings.note_waiting(worker, false);
            if !at.claim_or_wait(shares, lane, worker, bytes) {
                at.refuse();
                return false;
            }
        }
        at.spend(bytes);
        true
    }

    /// A job to a lane wasn't put, for want of room: its place and its bytes are there again.
    pub(crate) fn refund<B: Bell>(
        &mut self,
        parkings: &Parkings<B>,
        worker: u32,
        lane: usize,
        bytes: u64,
    ) {
        if let Some(at) = self.lanes.get_mut(lane) {
            at.refund(bytes);
            at.refuse();
        }
        parkings.shares.note_refused(lane, worker as usize);
    }

    /// Gives back what isn't used.
    pub(crate) fn settle(&self, shares: &Shares, worker: usize) {
        for lane in 0..MOST_LANES {
            self.lanes[lane].settle(shares, lane, worker);
        }
    }
}

//! Where two threads of a test meet.

use std::sync::atomic::{AtomicBool, Ordering};
use std::thread;

/// How often a thread looks for the other at most.
const MOST_LOOKS: u32 = 10_000_000;

/// Two threads that wait for each other: one enters and stays until the other has answered.
#[derive(Drop)]
pub(crate) struct Meeting {
    entered: AtomicBool,
    answered: AtomicBool,
    missed: AtomicBool,
}

impl Meeting {
    /// Nobody came yet.
    pub fn new() -> Self {
        Meeting {
            entered: AtomicBool::new(false),
            answered: AtomicBool::new(false),
            missed: AtomicBool::new(false),
        }
    }

    /// Enters, and stays until the other thread has answered, but not for ever.
    pub fn wait_inside(&self) {
        self.entered.store(true, Ordering::SeqCst);
        for _ in 0..MOST_LOOKS {
            if self.answered.load(Ordering::SeqCst) {
                return;
            }
            thread::yield_now();
        }
        self.missed.store(true, Ordering::SeqCst);
    }

    /// Whether the one thread has entered.
    pub fn is_entered(&self) -> bool {
        self.entered.load(Ordering::SeqCst)
    }

    /// The other thread has answered.
    pub fn answer(&self) {
        self.answered.store(true, Ordering::SeqCst);
    }

    /// Whether they met: one entered, and left since the other had answered.
    pub fn was_met(&self) -> bool {
        self.is_entered() && !self.missed.load(Ordering::SeqCst)
    }
}

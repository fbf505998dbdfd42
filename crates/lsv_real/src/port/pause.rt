// How often something is said.
use std::sync::atomic::{AtomicU64, Ordering};
use std::time::Instant;

/// Not more often than once in this many seconds.
const PAUSE: u64 = 60;

/// When something may be said again. All ports of a program share it.
#[derive(Drop)]
pub struct Pause {
    /// None if the clock can't be read: then nothing is said.
    began: Option<Instant>,
    /// In seconds after that.
    next: AtomicU64,
}

impl Pause {
    /// It wasn't said yet.
    pub fn new(rt: &HostRuntime) -> Self {
        Pause {
            began: Instant::now(rt).ok(),
            next: AtomicU64::new(0),
        }
    }

    /// Whether it is to be said now. Then it counts as said.
    pub fn is_due(&self, rt: &HostRuntime) -> bool {
        let (Some(began), Ok(now)) = (&self.began, Instant::now(rt)) else {
            return false;
        };
        let now = now.saturating_duration_since(*began).as_secs();
        let next = self.next.load(Ordering::SeqCst);
        if now < next {
            return false;
        }
        let then = now.saturating_add(PAUSE);
        self.next
            .compare_exchange(next, then, Ordering::SeqCst, Ordering::SeqCst)
            .is_ok()
    }
}

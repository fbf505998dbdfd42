// What ends the wait of a port's turn from another thread.
use lsv_port::Bell;
use mio::Waker;
use std::alloc::{AllocError, Global};
use std::sync::{Arc, OnceLock};

/// The bell of a port of the system. It does nothing until the port listens. A turn that is rung answers `Woken` at once, if there is
/// nothing else to tell.
#[derive(Drop)]
pub struct MioBell {
    waker: Arc<OnceLock<Waker>, Global>,
}

impl MioBell {
    /// A bell that does nothing yet.
    pub fn new(alloc: Global) -> Result<Self, AllocError> {
        Ok(MioBell {
            waker: Arc::new(alloc, OnceLock::new())?,
        })
    }

    /// Another handle of the same bell.
    pub fn try_clone(&self) -> Result<Self, AllocError> {
        Ok(MioBell {
            waker: Arc::try_clone(&self.waker)?,
        })
    }

    /// From now on it wakes a wait. One that it got before stays.
    pub fn set(&self, waker: Waker) {
        let _ = self.waker.try_set(waker);
    }
}

impl Bell for MioBell {
    fn ring(&self) {
        if let Some(waker) = self.waker.get() {
            // Without it the wait ends after 50 ms.
            let _ = waker.wake();
        }
    }
}

ghost use Rattle.std.specs.Prelude.{◌≡◌, IfOk};

use crate::NoMem;
use std::alloc::Global;

/// The places of a store: the folder of the logs, and the path of the event log.
#[derive(Drop)]
pub(crate) struct StorePlaces {
    logs: Vec<u8>,
    events: Vec<u8>,
}

impl StorePlaces {
    /// Copies of both.
    pub(crate) fn new(alloc: Global, logs: &str, events: &str) -> Result<Self, NoMem>
        ensures logs { IfOk result (λ places. places.logs.items ≡ logs.now) }
        ensures events { IfOk result (λ places. places.events.items ≡ events.now) }
    {
        Ok(StorePlaces {
            logs: logs.as_bytes().to_vec(alloc)?,
            events: events.as_bytes().to_vec(alloc)?,
        })
    }
}

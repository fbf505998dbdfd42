ghost use Rattle.std.specs.Prelude.{◌≡◌, IfOk};
ghost use Rattle.lsv_port.specs.Memory.Value.{noted_of};

use lsv_base::NoMem;
use std::alloc::Global;

/// What a port in memory was asked to listen on, and when.
#[derive(Debug, Drop)]
pub struct Asked {
    pub address: Vec<u8>,
    /// After this many links, opened and closed, it was to tell Stop.
    pub stop_after: Option<u32>,
    /// The port had made a turn by then.
    pub turned: bool,
}

impl Asked {
    /// A copy of the address, with the number.
    pub(crate) fn new(
        alloc: Global,
        address: &str,
        stop_after: Option<u32>,
        turned: bool,
    ) -> Result<Self, NoMem>
        ensures { IfOk result (λ note. noted_of note ≡ record { asked = record { address = address.now; stop_after = stop_after }; turned = turned }) }
    {
        Ok(Asked {
            address: address.as_bytes().to_vec(alloc)?,
            stop_after,
            turned,
        })
    }
}

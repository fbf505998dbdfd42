ghost use Rattle.std.specs.Prelude.{◌≡◌, IfOk};

use crate::Info;
use lsv_base::{Bytes, NoMem, TimeSpec};
use std::alloc::Global;

/// The start of a command: when it was submitted, and its information.
#[derive(Debug, Drop)]
pub struct Head {
    pub submit: TimeSpec,
    pub info: Info,
}

/// The end of a command.
#[derive(Debug, Drop)]
pub struct Exit {
    /// How long it ran.
    pub run: TimeSpec,
    /// Its exit value.
    pub value: i32,
    /// Whether it dumped core.
    pub dumped: bool,
    /// The name of the signal that ended it, without `SIG`; empty where there was none.
    pub signal: Bytes,
    /// Why it couldn't be run; empty where it was.
    pub error: Bytes,
}

impl Head {
    /// A copy of its own.
    pub fn copy(&self, alloc: Global) -> Result<Self, NoMem>
        ensures { IfOk result (λ copy. copy ≡ self.now) }
    {
        Ok(Head {
            submit: self.submit,
            info: self.info.copy(alloc)?,
        })
    }
}

impl Exit {
    /// A copy of its own.
    pub fn copy(&self, alloc: Global) -> Result<Self, NoMem>
        ensures { IfOk result (λ copy. copy ≡ self.now) }
    {
        Ok(Exit {
            run: self.run,
            value: self.value,
            dumped: self.dumped,
            signal: self.signal.copy(alloc)?,
            error: self.error.copy(alloc)?,
        })
    }
}

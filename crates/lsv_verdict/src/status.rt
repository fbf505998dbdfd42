ghost use Rattle.std.specs.Prelude.{◌≡◌, IfOk};
ghost use Rattle.lsv_verdict.specs.Status.{number_of, text_of};

use lsv_base::{Bytes, NoMem};
use std::alloc::Global;

/// How a run of the program ended.
#[derive(Clone, Copy, Debug, PartialEq, Eq)]
pub enum CheckStatus {
    /// All that was asked for was checked, and nothing is damaged. An incomplete log isn't damaged.
    Sound,
    /// The words are no command.
    Usage,
    /// A log or a number file is damaged.
    Damaged,
    /// A read failed. All other logs were checked.
    ReadFault,
    /// A write to the sink failed.
    WriteFault,
    /// Out of memory.
    NoMem,
}

impl CheckStatus {
    /// The exit status of the program.
    pub fn number(&self) -> u8
        ensures { result ≡ number_of self.now }
    {
        match self {
            CheckStatus::Sound => 0,
            CheckStatus::Usage => 2,
            CheckStatus::Damaged => 4,
            CheckStatus::ReadFault => 5,
            CheckStatus::WriteFault => 6,
            CheckStatus::NoMem => 9,
        }
    }

    /// What the program prints on standard error after its name. It is empty for `Sound`.
    pub fn text(&self, alloc: Global) -> Result<Bytes, NoMem>
        ensures { IfOk result (λ text. text ≡ text_of self.now) }
    {
        match self {
            CheckStatus::Sound => Ok(Bytes::new(alloc)),
            CheckStatus::Usage => Bytes::of(alloc, b"usage"),
            CheckStatus::Damaged => Bytes::of(alloc, b"damage found"),
            CheckStatus::ReadFault => Bytes::of(alloc, b"read fault"),
            CheckStatus::WriteFault => Bytes::of(alloc, b"write fault"),
            CheckStatus::NoMem => Bytes::of(alloc, b"out of memory"),
        }
    }
}

ghost use Rattle.std.specs.Prelude.{◌≡◌, ◌++◌, IfOk, length};
ghost use Rattle.lsv_kept.specs.Aim.{line_of};

use lsv_base::{Bytes, NoMem};
use std::alloc::Global;
use std::marker::Model;

/// What a relaying aims at: that a host has all of a log. What is kept of a relaying belongs to one host.
#[derive(Drop)]
pub struct Aim {
    host: String,
    total: u64,
}

impl Model for Aim {
    ghost use Rattle.std.specs.Prelude.{string_bytes};
    ghost use Rattle.lsv_kept.specs.Aim.{AimView};

    ghost Value = { AimView };

    ghost view = { λ a. record { host = string_bytes a.host; total = a.total } };
}

impl Aim {
    /// A host as the settings spell it, and the elapsed time of the log in nanoseconds.
    pub fn new(alloc: Global, host: &str, total: u64) -> Result<Aim, NoMem>
        ensures { IfOk result (λ aim. aim ≡ record { host = host.now; total = total }) }
    {
        Ok(Aim {
            host: String::from_str(alloc, host)?,
            total,
        })
    }

    /// The host.
    pub fn host(&self) -> &str
        ensures { result.now ≡ self.now.host }
    {
        self.host.as_str()
    }

    /// The elapsed time of the log, in nanoseconds.
    pub fn total(&self) -> u64
        ensures { result ≡ self.now.total }
    {
        self.total
    }

    /// The line that names the host before an identifier.
    pub(crate) fn line(&self, alloc: Global) -> Result<Bytes, NoMem>
        ensures { IfOk result (λ line. line ≡ line_of self.now.host) }
    {
        let mut line = Bytes::of(alloc, self.host().as_bytes())?;
        line.add(b"\n")?;
        Ok(line)
    }
}

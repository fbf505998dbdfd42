ghost use Rattle.std.specs.Prelude.{◌≡◌, ◌++◌, codes, IfOk};
ghost use Rattle.std.specs.Fmt.{decimal};
ghost use Rattle.lsv_serve.specs.Status.{number_of, text_of};

use lsv_base::{Bytes, NoMem};
use lsv_keeper::StoreFault;
use std::alloc::Global;

/// How a run of the program ended.
#[derive(Clone, Copy, Debug, PartialEq, Eq)]
pub enum Status {
    /// `once`: the input was read to its end, or the connection was shut before, and all answers are put. `serve`: each port told
    /// Stop. `load`: the summary is put. `relay`: each complete log of the store is marked as relayed.
    Served,
    /// `relay`: the settings name no other server, or logs aren't to be relayed.
    NoUpstream,
    /// The words are no command.
    Usage,
    /// This line of the settings file is the first that is refused, counted from 1; with 0 the file couldn't be read.
    Conf(u32),
    /// The store couldn't be opened; `relay`: its numbers couldn't be read.
    Store(StoreFault),
    /// A read of the input failed.
    ReadFault,
    /// A write of the answers failed.
    WriteFault,
    /// A port couldn't listen, or a turn of it failed.
    PortFault,
    /// `relay`: the number of logs that are complete and not marked, or couldn't be judged.
    Pending(u32),
    /// Out of memory.
    NoMem,
}

impl Status {
    /// The exit status of the program.
    pub fn number(&self) -> u8
        ensures { result ≡ number_of self.now }
    {
        match self {
            Status::Served => 0,
            Status::NoUpstream => 1,
            Status::Usage => 2,
            Status::Conf(_) => 3,
            Status::Store(_) => 4,
            Status::ReadFault => 5,
            Status::WriteFault => 6,
            Status::PortFault => 7,
            Status::Pending(_) => 8,
            Status::NoMem => 9,
        }
    }

    /// What the program prints on standard error after its name. It is empty for `Served`.
    pub fn text(&self, alloc: Global) -> Result<Bytes, NoMem>
        ensures { IfOk result (λ text. text ≡ text_of self.now) }
    {
        let text = match self {
            Status::Served => "",
            Status::NoUpstream => "no upstream",
            Status::Usage => "usage",
            Status::Conf(line) => return conf_text(alloc, *line),
            Status::Store(_) => "store",
            Status::ReadFault => "read fault",
            Status::WriteFault => "write fault",
            Status::PortFault => "port fault",
            Status::Pending(left) => return pending_text(alloc, *left),
            Status::NoMem => "out of memory",
        };
        Bytes::of(alloc, text.as_bytes())
    }
}

/// What is printed of a line of the settings file.
fn conf_text(alloc: Global, line: u32) -> Result<Bytes, NoMem>
    ensures { IfOk result (λ text. text ≡ codes "settings line " ++ decimal line) }
{
    let text = format!(in alloc; "settings line {line}")?;
    Bytes::of(alloc, text.as_bytes())
}

/// What is printed of logs that are not relayed.
fn pending_text(alloc: Global, left: u32) -> Result<Bytes, NoMem>
    ensures { IfOk result (λ text. text ≡ decimal left ++ codes " logs pending") }
{
    let text = format!(in alloc; "{left} logs pending")?;
    Bytes::of(alloc, text.as_bytes())
}

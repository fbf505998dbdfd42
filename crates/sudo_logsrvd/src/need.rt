//! What the command that the words ask for needs.

ghost use Rattle.std.specs.Prelude.{IfOk};
ghost use Rattle.lsv_args.specs.Reading as told;
ghost use Rattle.lsv_args.specs.Reading.{Serve};
ghost use Rattle.lsv_serve.specs.Program.{Asks};
ghost use Rattle.sudo_logsrvd.specs.Needs.{HasFewPorts, Suffices};

use lsv_args::{ArgFault, Command};
use lsv_base::{Bytes, List};
use lsv_serve::{Status, command_of};
use std::alloc::Global;

/// What a command needs.
#[derive(Clone, Copy)]
pub enum Need {
    /// The disk of a relay, of which `check` makes no use.
    Relay,
    /// The disks of this many lanes, and this many ports.
    Server(u32, u32),
    /// One disk.
    Disk,
}

/// What the command that the words ask for needs. Words that ask for nothing need one disk. `NoMem` if memory runs out.
pub fn need_of(alloc: Global, words: &List<Bytes>) -> Result<Need, Status>
    ensures suffices { IfOk result (λ need. (o : told.Options) → Asks words.now (Serve o) → Suffices o need) }
    ensures few { IfOk result HasFewPorts }
{
    match command_of(alloc, words) {
        Ok(Command::Relay(_)) => Ok(Need::Relay),
        Ok(Command::Check(_)) => Ok(Need::Relay),
        Ok(Command::Serve(opts)) => Ok(Need::Server(opts.lanes, opts.workers)),
        Ok(_) | Err(ArgFault::Usage) => Ok(Need::Disk),
        Err(ArgFault::NoMem) => Err(Status::NoMem),
    }
}

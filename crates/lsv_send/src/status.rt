//! How a run of the program ended.
ghost use Rattle.std.specs.Prelude.{◌≡◌, Result};
ghost use Rattle.lsv_send.specs.Status.{number_of, of_fault, of_log, of_talk};
ghost use Rattle.lsv_send.specs.declared.status.SendStatus.TheVariants as statuses;

use crate::fault::SendFault;
use lsv_dialogue::{Cause, End, TalkFault};
use lsv_iolog::LogFault;

/// How a run of the program ended.
#[derive(Debug, Drop)]
pub enum SendStatus {
    /// All was sent that the words ask for. With records or an exit, the server sent the commit point of the last record,
    /// and it was read after the last message was put. With an exit, the connection then ended: the input's end came, or
    /// nothing for 30 s. After `-A`, `-R`, or `-i` with no record left, nothing was waited for.
    Sent,
    /// The words are no command.
    Usage,
    /// The log isn't sent, or not on: it is absent or damaged, no record of it ends at the resume point, or a read failed.
    Log(LogFault),
    /// A line wasn't printed.
    WriteFault,
    /// The server didn't take all: the connection failed or ended, or a message of the server stands against it.
    Refused(Cause),
    /// Out of memory.
    NoMem,
}

impl SendStatus {
    /// The exit status of the program.
    pub fn number(&self) -> u8
        ensures { result ≡ number_of self.now }
    {
        match self {
            SendStatus::Sent => 0,
            SendStatus::Usage => 2,
            SendStatus::Log(_) => 4,
            SendStatus::WriteFault => 6,
            SendStatus::Refused(_) => 8,
            SendStatus::NoMem => 9,
        }
    }

    /// How a run ends whose log is at fault.
    pub(crate) fn of_log(fault: LogFault) -> Self
        ensures { result ≡ of_log fault }
    {
        if fault == LogFault::NoMem {
            SendStatus::NoMem
        } else {
            SendStatus::Log(fault)
        }
    }

    /// How a run ends whose sender stops for this.
    pub(crate) fn of_fault(fault: SendFault) -> Self
        ensures { result ≡ of_fault fault }
    {
        match fault {
            SendFault::Log(fault) => SendStatus::of_log(LogFault::from(fault)),
            SendFault::NoMem => SendStatus::NoMem,
            SendFault::Sink => SendStatus::WriteFault,
        }
    }

    /// How a run ends whose conversation ended so.
    pub(crate) fn of_talk(ended: Result<End, TalkFault<SendFault>>) -> Self
        ensures { result ≡ of_talk ended }
    {
        match ended {
            Ok(End::Over) => SendStatus::Sent,
            Ok(End::Stopped(cause)) => SendStatus::Refused(cause),
            Err(TalkFault::NoMem) => SendStatus::NoMem,
            Err(TalkFault::Speaker(fault)) => SendStatus::of_fault(fault),
        }
    }
}

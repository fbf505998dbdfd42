//! What stands at the front of bytes.

ghost use Rattle.std.specs.Prelude.{◌≡◌, ◌≢◌, IfOk, IfSome, Some};
ghost use Rattle.lsv_msg.specs.declared.fault.MsgFault.TheVariants as message_faults;
ghost use Rattle.lsv_session.specs.declared.job.Fault.TheVariants as faults;
ghost use Rattle.lsv_cut.specs.Cuts.{IsCut};

use lsv_base::NoMem;
use lsv_msg::{ClientMessage, MsgFault, decode_client};
use lsv_session::Fault;
use lsv_wire::first_message;
use std::alloc::Global;

/// What stands at the front of bytes.
#[derive(Debug, Drop)]
pub enum Cut {
    /// Less than a frame.
    Nothing,
    /// A message, and how many bytes its frame has: its length in four bytes, and its own.
    Message(ClientMessage, usize),
    /// What is no message: a frame's bytes, or a length above the limit. Nothing after it is a message.
    NoMessage(Fault),
}

/// What these bytes begin with. A message is read where it stands: it takes one copy of a record's data. Fails only if
/// memory runs out.
#[inline(always)]
pub fn cut_next(alloc: Global, bytes: &[u8]) -> Result<Cut, NoMem>
    ensures { IfOk result (λ cut. IsCut cut bytes.now) }
{
    match first_message(bytes) {
        Ok(None) => Ok(Cut::Nothing),
        Ok(Some(message)) => match decode_client(alloc, message) {
            Ok(decoded) => Ok(Cut::Message(decoded, 4 + message.len())),
            Err(fault) => Ok(Cut::NoMessage(malformed(fault)?)),
        },
        Err(stated) => Ok(Cut::NoMessage(Fault::TooLarge(stated))),
    }
}

/// Why the bytes of a frame are no message, unless memory ran out.
fn malformed(fault: MsgFault) -> Result<Fault, NoMem>
    ensures { IfOk result (λ why. (why ≡ faults.Malformed fault) × (fault ≢ message_faults.NoMem)) }
{
    match fault {
        MsgFault::NoMem => Err(NoMem),
        fault => Ok(Fault::Malformed(fault)),
    }
}

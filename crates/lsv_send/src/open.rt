//! A log is opened to be handed out.
ghost use Rattle.std.specs.Prelude.{◌≡◌, ◌∷◌, [], false, Some, Err, IfOk, IfErr};
ghost use Rattle.lsv_disk.specs.Throughout.{OnlyReads};
ghost use Rattle.lsv_disk.specs.View.{HasOwnCause};
ghost use Rattle.lsv_iolog.specs.Reading.{IsBehind};
ghost use Rattle.lsv_iolog.specs.Recovered.{IsOfLog};
ghost use Rattle.lsv_iolog.specs.declared.fault.LogFault.TheVariants as logs;
ghost use Rattle.lsv_send_args.specs.Asked.{goes_in, what_in};
ghost use Rattle.lsv_send_args.specs.Request.{Records};
ghost use Rattle.lsv_transcript.specs.Transcript.{hello_message};
ghost use Rattle.lsv_send.specs.Opening.{IsNew, IsNotOpened, IsNotResumed, Opens, Resumes};
ghost use Rattle.lsv_send.specs.declared.sender.Place.{Place};

use crate::messages::{lone_accept, reject_of};
use crate::sender::{Place, Sender};
use lsv_base::{List, LogNo, NoMem, Point};
use lsv_disk::Disk;
use lsv_info::Head;
use lsv_iolog::{LogFault, LogView};
use lsv_msg::ClientMessage;
use lsv_request::head_message;
use lsv_send_args::{Resumption, What};
use lsv_transcript::{hello_message, pass_over, restart_message};
use std::alloc::Global;

/// Opens the log of this number, to hand out this of it. With a resume point the records before it are passed over.
pub fn open<D: Disk>(
    alloc: Global,
    disk: &mut D,
    number: LogNo,
    what: &What,
) -> Result<Sender, LogFault>
    ensures opens { D.tells → IfOk result (λ s. Opens (what_in what.now) number (D.view disk.old) (D.view disk.new) s) }
    ensures not { D.tells → IfErr result (IsNotOpened (what_in what.now) number (D.view disk.old).reads) }
    ensures new { IfOk result (IsNew (what_in what.now) number) }
    ensures reads { D.tells → OnlyReads (D.view disk.old) (D.view disk.new) }
    ensures cause { HasOwnCause (IsOfLog number) (result ≡ Err logs.Disk) (D.view disk.old) (D.view disk.new) }
{
    let log = LogView::open(alloc, disk, number)?;
    let head = log.head().copy(alloc)?;
    match what {
        What::Records(goes, stop) => match goes {
            Some(goes) => resume(alloc, disk, log, goes, *stop),
            None => {
                let accept = head_message(alloc, head)?;
                Ok(sender(
                    alloc,
                    log,
                    opening(alloc, accept)?,
                    Place::Waiting,
                    *stop,
                    0,
                ))
            }
        },
        What::Accept => {
            let accept = lone_accept(alloc, head)?;
            Ok(sender(alloc, log, opening(alloc, accept)?, Place::Closing, None, 0))
        }
        What::Reject(reason) => {
            let reject = reject_of(alloc, head, reason)?;
            Ok(sender(alloc, log, opening(alloc, reject)?, Place::Closing, None, 0))
        }
    }
}

/// Passes over the records up to a resume point.
fn resume<D: Disk>(
    alloc: Global,
    disk: &mut D,
    mut log: LogView,
    goes: &Resumption,
    stop: Option<Point>,
) -> Result<Sender, LogFault>
    ensures opens { D.tells → IsBehind log [] (D.view disk.old) → IfOk result (Resumes log goes.now.id goes.now.point stop (D.view disk.new)) }
    ensures not { D.tells → IsBehind log [] (D.view disk.old) → IfErr result (IsNotResumed log goes.now.point (D.view disk.old)) }
    ensures new { IfOk result (IsNew (Records (Some (goes_in goes.now)) stop) log.number) }
    ensures reads { D.tells → OnlyReads (D.view disk.old) (D.view disk.new) }
    ensures cause { HasOwnCause (IsOfLog log.number) (result ≡ Err logs.Disk) (D.view disk.old) (D.view disk.new) }
{
    let point = goes.point.nanos();
    if !pass_over(disk, &mut log, point)? {
        return Err(LogFault::NoPoint(goes.point));
    }
    let restart = restart_message(alloc, goes.id.as_slice(), point)?;
    Ok(sender(
        alloc,
        log,
        opening(alloc, restart)?,
        Place::Records,
        stop,
        point,
    ))
}

/// A hello, and this message.
fn opening(alloc: Global, second: ClientMessage) -> Result<List<ClientMessage>, NoMem>
    ensures { IfOk result (λ ms. ms ≡ hello_message ∷ second ∷ []) }
{
    let mut messages = Vec::with_capacity(alloc, 2)?;
    messages.push(hello_message(alloc)?)?;
    messages.push(second)?;
    Ok(List::from_vec(messages))
}

/// A sender that has handed out nothing.
fn sender(
    alloc: Global,
    log: LogView,
    opening: List<ClientMessage>,
    begins: Place,
    stop: Option<Point>,
    sent: u64,
) -> Sender
    ensures { result ≡ record { alloc = alloc; log = log; opening = opening; begins = begins; stop = stop; place = Place.Opening; sent = sent; known = false; more = false; exited = false; reached = false } }
{
    Sender {
        alloc,
        log,
        opening,
        begins,
        stop,
        place: Place::Opening,
        sent,
        known: false,
        more: false,
        exited: false,
        reached: false,
    }
}

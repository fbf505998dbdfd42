//! Records that are read before they are shown.
ghost use Rattle.std.specs.Prelude.{◌≡◌, List, None, Err, IfOk, IfErr, OnOk};
ghost use Rattle.lsv_disk.specs.Throughout.{OnlyReads};
ghost use Rattle.lsv_disk.specs.View.{HasOwnCause};
ghost use Rattle.lsv_iolog.specs.Reading.{HasCuts};
ghost use Rattle.lsv_iolog.specs.Recovered.{IsOfLog, Replays};
ghost use Rattle.lsv_record.specs.declared.records.Record.{Record};
ghost use Rattle.lsv_play.specs.Ahead.{HasReadFault, IsLookFault, IsPiece, IsReached, WasCut};
ghost use Rattle.lsv_play.specs.declared.fault.PlayFault.TheVariants as faults;

use crate::PlayFault;
use lsv_base::{List, NoMem};
use lsv_disk::Disk;
use lsv_iolog::{LogView, Renewed, ViewFault};
use lsv_record::Record;
use std::alloc::Global;

/// At most this many records are read at once.
const MOST: usize = 256;

/// Once the records have more bytes of data than this, no more are read.
const ENOUGH: usize = 65_536;

/// What comes after records that were read.
#[derive(Clone, Copy, Debug, PartialEq, Eq)]
pub enum Next {
    /// More records may come.
    More,
    /// The log ends.
    End,
    /// The log isn't read on.
    Fault(ViewFault),
}

/// Records of a log that follow each other, and what comes after them.
#[derive(Drop)]
pub struct Piece {
    pub records: List<Record>,
    pub next: Next,
}

/// Reads the next records of a log, and shows nothing: up to 256, and none after their data pass 64 KiB together. A fault
/// of the log comes after the records before it. `NoMem` if there is no room for a record: then it is lost.
pub fn read_ahead<D: Disk>(alloc: Global, disk: &mut D, log: &mut LogView) -> Result<Piece, NoMem>
    ensures piece { D.tells → IfOk result (λ piece. (records : List Record) → IsReached log.old records (D.view disk.old) → IsPiece log.new (D.view disk.new) records piece) }
    ensures same { (log.new.number ≡ log.old.number) × (log.new.body ≡ log.old.body) }
    ensures reads { D.tells → OnlyReads (D.view disk.old) (D.view disk.new) }
    ensures cause { HasOwnCause (IsOfLog log.old.number) (HasReadFault result) (D.view disk.old) (D.view disk.new) }
{
    let mut records = List::new(alloc);
    let mut size: usize = 0;
    'records: for _ in 0..MOST {
        if size > ENOUGH {
            return Ok(Piece {
                records,
                next: Next::More,
            });
        }
        let record = match log.next(disk) {
            Ok(Some(record)) => record,
            Ok(None) => return Ok(Piece {
                records,
                next: Next::End,
            }),
            Err(fault) => return Ok(Piece {
                records,
                next: Next::Fault(fault),
            }),
        };
        size = size.saturating_add(size_of(&record));
        if records.push(record).is_err() {
            return Err(NoMem);
        }
    }
    Ok(Piece {
        records,
        next: Next::More,
    })
}

/// The bytes of data that a record brings.
fn size_of(record: &Record) -> usize {
    match record {
        Record::Io { bytes, .. } => bytes.as_slice().len(),
        Record::Winsize { .. } => 0,
        Record::Suspend { signal, .. } => signal.as_slice().len(),
    }
}

/// Looks at the log again. `Resumed` comes exactly if it was cut since it was opened, `Absent` if it has no entry any
/// more, `Disk` only if a device call on a file of it failed.
pub fn check_uncut<D: Disk>(disk: &mut D, log: &LogView) -> Result<(), PlayFault>
    ensures uncut { D.tells → OnOk result (HasCuts log.now.number log.now.body.extra (D.view disk.old).reads) }
    ensures resumed { D.tells → result ≡ Err faults.Resumed → WasCut log.now (D.view disk.old).reads }
    ensures absent { D.tells → result ≡ Err faults.Absent → Replays (D.view disk.old).reads log.now.number None }
    ensures reads { D.tells → OnlyReads (D.view disk.old) (D.view disk.new) }
    ensures fault { IfErr result IsLookFault }
    ensures cause { HasOwnCause (IsOfLog log.now.number) (result ≡ Err faults.Disk) (D.view disk.old) (D.view disk.new) }
{
    match log.look(disk)? {
        Renewed::Same => Ok(()),
        Renewed::Cut(_) => Err(PlayFault::Resumed),
    }
}

//! The messages of the next records.
ghost use Rattle.std.specs.Prelude.{◌≡◌, ◌≢◌, ◌≤◌, ◌<◌, ◌+◌, ◌-◌, ◌^◌, ◌++◌, ◌∷◌, [], List, IfOk, IfErr, OnOk, IsErrOf, length, min};
ghost use Rattle.lsv_disk.specs.Throughout.{OnlyReads};
ghost use Rattle.lsv_disk.specs.View.{HasOwnCause};
ghost use Rattle.lsv_iolog.specs.Faults.{IsNextFault};
ghost use Rattle.lsv_disk.specs.declared.file.Part.{Part};
ghost use Rattle.lsv_iolog.specs.Reading.{IsBehind, IsFaultBehind, committed_laid};
ghost use Rattle.lsv_iolog.specs.Recovered.{IsOfLog};
ghost use Rattle.lsv_iolog.specs.declared.fault.ViewFault.{ViewFault};
ghost use Rattle.lsv_record.specs.Records.{IsValid, delay_of};
ghost use Rattle.lsv_record.specs.declared.records.Record.{Record};
ghost use Rattle.lsv_request.specs.Stored.{record_message};
ghost use Rattle.lsv_transcript.specs.Reading.{GivesNext, size_of};

use lsv_base::List;
use lsv_disk::Disk;
use lsv_iolog::{LogView, ViewFault};
use lsv_msg::ClientMessage;
use lsv_record::Record;
use lsv_request::record_message;
use std::alloc::Global;

/// At most this many messages are given at once.
const MOST: usize = 16;

/// Once the messages have more bytes of data than this, no more are given.
const ENOUGH: usize = 65_536;

/// The messages of some records that follow each other.
#[derive(Debug, Drop)]
pub struct Batch {
    pub messages: List<ClientMessage>,
    /// The sum of their delays, in nanoseconds.
    pub elapsed: u64,
}

/// The messages of the next records of a log: up to `most`, up to sixteen, and none after their data pass 64 KiB
/// together. There are none only at the log's end, or if `most` is 0. A fault of the log after some messages comes at
/// the next call. The faults are those of `LogView::next`. `NoMem` comes also if there is no room for a message: then a
/// record that was read is lost.
pub fn next_messages<D: Disk>(
    alloc: Global,
    disk: &mut D,
    log: &mut LogView,
    most: usize,
) -> Result<Batch, ViewFault>
    ensures gives { D.tells → IfOk result (λ batch. (records : List Record) → IsBehind log.old records (D.view disk.old) → GivesNext log.new (D.view disk.new) records batch most) }
    ensures few { IfOk result (λ batch. (length batch.messages ≤ 16) × (length batch.messages ≤ most)) }
    ensures damaged { D.tells → (part : Part) → IsErrOf result (ViewFault.Damaged part) → (records : List Record) → IsBehind log.old records (D.view disk.old)
        → IsFaultBehind (committed_laid log.old.number log.old.body (D.view disk.old)) log.old.body records part }
    ensures same { (log.new.number ≡ log.old.number) × (log.new.head ≡ log.old.head) × (log.new.body ≡ log.old.body) }
    ensures reads { D.tells → OnlyReads (D.view disk.old) (D.view disk.new) }
    ensures fault { IfErr result IsNextFault }
    ensures cause { HasOwnCause (IsOfLog log.old.number) (IsErrOf result ViewFault.Disk) (D.view disk.old) (D.view disk.new) }
{
    let mut batch = Batch {
        messages: List::new(alloc),
        elapsed: 0,
    };
    let mut size: usize = 0;
    'records: for _ in 0..most.min(MOST) {
        if size > ENOUGH {
            return Ok(batch);
        }
        let record = match log.next(disk) {
            Ok(Some(record)) => record,
            Ok(None) => return Ok(batch),
            Err(fault) => return batch.unless_empty(fault),
        };
        size += size_of(&record);
        batch.push(record)?;
    }
    Ok(batch)
}

impl Batch {
    /// Adds the message of a record.
    fn push(&mut self, added: Record) -> Result<(), ViewFault>
        requires valid { IsValid added }
        ensures messages { OnOk result (self.new.messages ≡ self.old.messages ++ record_message added ∷ []) }
        ensures elapsed { OnOk result (self.new.elapsed ≡ min (self.old.elapsed + delay_of added) (2 ^ 64 - 1)) }
        ensures fault { IfErr result (λ e. e ≡ ViewFault.NoMem) }
    {
        let elapsed = self.elapsed.saturating_add(added.delay());
        if self.messages.push(record_message(added)).is_err() {
            return Err(ViewFault::NoMem);
        }
        self.elapsed = elapsed;
        Ok(())
    }

    /// The batch, or the fault that came before its first message.
    fn unless_empty(self, fault: ViewFault) -> Result<Batch, ViewFault>
        ensures ok { IfOk result (λ batch. (batch ≡ self) × (batch.messages ≢ [])) }
        ensures err { IfErr result (λ e. (e ≡ fault) × (self.messages ≡ [])) }
    {
        if self.messages.as_slice().is_empty() {
            return Err(fault);
        }
        Ok(self)
    }
}

/// The bytes of data that a record brings.
fn size_of(record: &Record) -> usize
    ensures { result ≡ size_of record.now }
{
    match record {
        Record::Io { bytes, .. } => bytes.as_slice().len(),
        Record::Winsize { .. } => 0,
        Record::Suspend { signal, .. } => signal.as_slice().len(),
    }
}

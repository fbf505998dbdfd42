//! What is sent next: the messages of the next records, and at last that of the exit.
ghost use Rattle.std.specs.Prelude.{◌≡◌, ◌≢◌, ◌≤◌, ◌<◌, ◌↔◌, ℕ, true, [], List, length, IfOk, IfErr, IsErrOf};
ghost use Rattle.lsv_disk.specs.Throughout.{OnlyReads};
ghost use Rattle.lsv_disk.specs.View.{HasOwnCause};
ghost use Rattle.lsv_disk.specs.declared.file.Part.{Part};
ghost use Rattle.lsv_info.specs.Reading.{exit_of};
ghost use Rattle.lsv_info.specs.declared.times.Exit.{Exit};
ghost use Rattle.lsv_iolog.specs.Reading.{IsBehind, IsWhole, ViewState, committed_text};
ghost use Rattle.lsv_iolog.specs.Recovered as logs;
ghost use Rattle.lsv_iolog.specs.declared.fault.ViewFault.{ViewFault};
ghost use Rattle.lsv_record.specs.declared.records.Record.{Record};
ghost use Rattle.lsv_relay.specs.Faults.{IsLogFault, IsReadCause};
ghost use Rattle.lsv_relay.specs.Inner.{Answers, IsRelay, IsSending};
ghost use Rattle.lsv_relay.specs.Talks.{HasLog};
ghost use Rattle.lsv_relay.specs.Value.{IsQuiet, IsStarted};
ghost use Rattle.lsv_relay.specs.declared.answer.Next.{Next};
ghost use Rattle.lsv_relay.specs.declared.fault.RelayFault.{RelayFault};
ghost use Rattle.lsv_relay.specs.declared.relay.Place.TheVariants as places;
ghost use Rattle.lsv_transcript.specs.Reading.{GivesNext};
ghost use Rattle.lsv_transcript.specs.declared.messages.Batch.{Batch};

use crate::RelayFault;
use crate::relay::{Core, Place};
use crate::start::push;
use lsv_base::List;
use lsv_disk::Disk;
use lsv_info::Exit;
use lsv_iolog::LogView;
use lsv_msg::ClientMessage;
use lsv_request::exit_message;
use lsv_transcript::{Batch, next_messages};
use std::alloc::Global;

/// What comes next of a log.
#[derive(Drop)]
pub(crate) enum Next {
    Records(Batch),
    Exit(Exit),
}

impl Core {
    /// What is sent next, once the opening was handed out.
    pub(crate) fn answer<D: Disk>(
        &mut self,
        disk: &mut D,
        most: usize,
    ) -> Result<List<ClientMessage>, RelayFault>
        requires sound { IsRelay self.old }
        requires started { IsStarted self.old.at }
        ensures sound { IsRelay self.new }
        ensures answers { D.tells → IfOk result (Answers self.old self.new (D.view disk.old) (D.view disk.new)) }
        ensures few { IfOk result (λ messages. (length messages ≤ most) × (length messages ≤ 16)) }
        ensures quiet { 0 < most → IfOk result (λ messages. messages ≡ [] → IsQuiet self.new) }
        ensures busy { IfOk result (λ messages. messages ≢ [] → IsSending self.old.at × (self.new.meter.whole ≡ self.old.meter.whole)) }
        ensures started { IsStarted self.new.at }
        ensures same { (self.new.number ≡ self.old.number) × (self.new.keeping ≡ self.old.keeping) }
        ensures reads { D.tells → OnlyReads (D.view disk.old) (D.view disk.new) }
        ensures fault { IfErr result (λ fault. IsLogFault fault × IsSending self.old.at) }
        ensures why { D.tells → IfErr result (λ fault. (view : ViewState) (records : List Record) → self.old.at ≡ places.Sends view → HasLog self.old.number view records (D.view disk.old) → IsReadCause self.old.number view records (D.view disk.old) fault) }
        ensures cause { HasOwnCause (logs.IsOfLog self.old.number) (IsErrOf result (RelayFault.Log ViewFault.Disk)) (D.view disk.old) (D.view disk.new) }
    {
        if self.meter.waits || most == 0 {
            return Ok(List::new(self.alloc));
        }
        let next = match &mut self.at {
            Place::Sends(log) => next_of(self.alloc, disk, log, most)?,
            Place::Idle | Place::Starts(_) | Place::Over => return Ok(List::new(self.alloc)),
        };
        match next {
            Next::Records(batch) => {
                self.meter.sent = self.meter.sent.saturating_add(batch.elapsed);
                Ok(batch.messages)
            }
            Next::Exit(exit) => {
                let message = exit_message(self.alloc, exit)?;
                let mut messages = List::new(self.alloc);
                push(&mut messages, message)?;
                self.at = Place::Over;
                self.meter.ended = true;
                Ok(messages)
            }
        }
    }
}

/// The messages of the next records of a log, or after the last one its exit.
fn next_of<D: Disk>(
    alloc: Global,
    disk: &mut D,
    log: &mut LogView,
    most: usize,
) -> Result<Next, RelayFault>
    requires some { 0 < most }
    ensures records { D.tells → IfOk result (λ next. (batch : Batch) → next ≡ Next.Records batch → (records : List Record) → IsBehind log.old records (D.view disk.old) → GivesNext log.new (D.view disk.new) records batch most) }
    ensures some { IfOk result (λ next. (batch : Batch) → next ≡ Next.Records batch → (batch.messages ≢ []) × (length batch.messages ≤ most) × (length batch.messages ≤ 16)) }
    ensures whole { D.tells → IfOk result (λ next. (exit : Exit) → next ≡ Next.Exit exit → (records : List Record) → IsBehind log.old records (D.view disk.old) → IsWhole log.new records (D.view disk.new) × IsBehind log.new records (D.view disk.new)) }
    ensures exit { D.tells → IfOk result (λ next. (exit : Exit) → next ≡ Next.Exit exit → exit_of (committed_text log.new.number log.new.body (D.view disk.new) Part.Exit) ≡ Ok exit) }
    ensures same { (log.new.number ≡ log.old.number) × (log.new.head ≡ log.old.head) × (log.new.body ≡ log.old.body) }
    ensures reads { D.tells → OnlyReads (D.view disk.old) (D.view disk.new) }
    ensures fault { IfErr result IsLogFault }
    ensures why { D.tells → IfErr result (λ fault. (n : ℕ) (records : List Record) → HasLog n log.old records (D.view disk.old) → IsReadCause n log.old records (D.view disk.old) fault) }
    ensures cause { HasOwnCause (logs.IsOfLog log.old.number) (IsErrOf result (RelayFault.Log ViewFault.Disk)) (D.view disk.old) (D.view disk.new) }
{
    let batch = next_messages(alloc, disk, log, most)?;
    if !is_empty(&batch) {
        return Ok(Next::Records(batch));
    }
    let Some(exit) = log.exit(disk)? else {
        return Err(RelayFault::Incomplete);
    };
    Ok(Next::Exit(exit))
}

/// Whether there is no message.
fn is_empty(batch: &Batch) -> bool
    ensures { (result ≡ true) ↔ (batch.now.messages ≡ []) }
{
    batch.messages.as_slice().is_empty()
}

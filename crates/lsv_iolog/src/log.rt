ghost use Rattle.std.specs.Prelude.{◌≡◌, ◌≢◌, ◌⊎◌, ℕ, List, ◌≤◌, ◌<◌, ◌^◌, false, Ok, Some, None, length, IsSome, FitsSigned, IfOk, IfErr, OnOk, IsErrOf};
ghost use Rattle.lsv_base.specs.Time.{nanos_of};
ghost use Rattle.lsv_disk.specs.View.{HasOwnCause};
ghost use Rattle.lsv_disk.specs.Throughout.{Throughout};
ghost use Rattle.lsv_disk.specs.declared.file.Part.{Part};
ghost use Rattle.lsv_info.specs.Fitting.{FitsEntry, FitsValue};
ghost use Rattle.lsv_info.specs.Layout.{head_text};
ghost use Rattle.lsv_info.specs.Reading.{head_of};
ghost use Rattle.std.specs.List.{AllByRecursion};
ghost use Rattle.std.specs.Int.{w64};
ghost use Rattle.lsv_iolog.specs.declared.fault.LogFault.{LogFault};
ghost use Rattle.lsv_bundle.specs.Value.{committed_length};
ghost use Rattle.lsv_iolog.specs.Recovered.{owner_of, IsOfLog, IsUnmade, IsHeadText, Replays};
ghost use Rattle.lsv_iolog.specs.Inner.Invariant.{IsSettled, HasCommitted};
ghost use Rattle.lsv_iolog.specs.Value.{is_complete, bare, kind_of, made, IsFlushed};
ghost use Rattle.lsv_iolog.specs.Represents.{Represents};
ghost use Rattle.lsv_iolog.specs.Moments.{IsEither, CallsOfLog};

use crate::LogFault;
use lsv_base::{Bytes, LogNo, Point};
use lsv_bundle::{Bundle, Shape};
use lsv_disk::{Disk, Owner, Part};
use lsv_info::{Entry, Head, Value, a_written_text_is_read_back, read_head, write_head};
use std::alloc::Global;
use std::marker::Model;

/// The kind of the entry of a log that was made.
pub(crate) const MADE: u8 = 0;

/// The kind of an entry by which records are committed.
pub(crate) const FLUSHED: u8 = 1;

/// The kind of the last entry of a log that is complete.
pub(crate) const COMPLETE: u8 = 3;

/// An open log: what is committed of it stands in its files, and records are staged after that.
#[derive(Drop)]
pub struct IoLog {
    pub(crate) alloc: Global,
    pub(crate) number: LogNo,
    pub(crate) head: Head,
    pub(crate) count: u64,
    pub(crate) elapsed: u64,
    pub(crate) is_broken: bool,
    pub(crate) bundle: Bundle,
    /// How many bytes of timing are staged.
    pub(crate) staged_timing: usize,
    /// A line of timing, before it is staged.
    pub(crate) line: Bytes,
}

impl Model for IoLog {
    ghost use Rattle.std.specs.Prelude.{◌≡◌, length};
    ghost use Rattle.lsv_disk.specs.declared.file.Part.TheVariants.{Timing};
    ghost use Rattle.lsv_bundle.specs.Value.{staged};
    ghost use Rattle.lsv_iolog.specs.Value.{IoLogView};
    ghost use Rattle.lsv_iolog.specs.Inner.Invariant.{IsIoLog};

    ghost Value = { IoLogView };

    ghost view = { λ l. record { number = l.number; head = l.head; count = l.count; elapsed = l.elapsed; is_broken = l.is_broken; bundle = l.bundle } };

    ghost invariant = { λ l. IsIoLog (record { number = l.number; head = l.head; count = l.count; elapsed = l.elapsed; is_broken = l.is_broken; bundle = l.bundle }) × (length (staged l.bundle Timing) ≡ l.staged_timing) };
}

/// The owner of a log's files.
pub(crate) fn owner_of(number: LogNo) -> Owner
    ensures { result ≡ owner_of number }
{
    Owner::Log(number.get())
}

/// The numbers of a head are of 64 bits, which only their reading shows. A client sends as many as a message holds, so they
/// are read by loops: a call for each would need as much of the stack.
fn numbers_fit(head: &Head)
    ensures { AllByRecursion FitsEntry head.now.info.entries }
{
    entries_fit(head.info.entries.as_slice());
}

fn entries_fit(entries: &[Entry])
    ensures { AllByRecursion FitsEntry entries.now }
{
    for entry in entries {
        value_fits(&entry.value);
    }
}

fn value_fits(value: &Value)
    ensures { FitsValue value.now }
{
    match value {
        Value::Num(number) => {
            let _number = *number;
        }
        Value::Nums(numbers) => list_fits(numbers.as_slice()),
        _ => {}
    }
}

fn list_fits(numbers: &[i64])
    ensures { AllByRecursion (FitsSigned w64) numbers.now }
{
    for number in numbers {
        let _number = *number;
    }
}

/// The head that a written text reads as.
fn written_head(alloc: Global, head: &Head, text: &Bytes) -> Result<Head, LogFault>
    requires timed { IsSome (nanos_of head.now.submit) }
    requires text { text.now ≡ head_text head.now }
    ensures read { IfOk result (λ read. head_of text.now ≡ Ok read) }
    ensures fault { IfErr result (λ e. e ≡ LogFault.NoMem) }
{
    numbers_fit(head);
    a_written_text_is_read_back();
    match read_head(alloc, text.as_slice()) {
        Ok(head) => Ok(head),
        Err(_) => Err(LogFault::NoMem),
    }
}

/// The files of a log with this text of a head alone.
fn make_files<D: Disk>(
    alloc: Global,
    disk: &mut D,
    number: LogNo,
    text: &Bytes,
) -> Result<Bundle, LogFault>
    requires unmade { D.tells → IsUnmade number (D.view disk.old) }
    requires head { IsHeadText text.now }
    ensures settled { IfOk result (λ b. (lens : List ℕ) × IsSettled number (record { kind = 0; count = 0; elapsed = 0; lens = lens; extra = 0 }) b) }
    ensures empty { IfOk result (λ b. committed_length b Part.Timing ≡ 0) }
    ensures holds { D.tells → IfOk result (λ b. HasCommitted b (made text.now) (D.view disk.new)) }
    ensures any_moment { D.tells → Throughout (IsOfLog number) (IsEither number None (Some (made text.now))) (D.view disk.old) (D.view disk.new) }
    ensures nothing { D.tells → 2 ^ 40 < length text.now → Throughout (IsOfLog number) (λ image. Replays image number None) (D.view disk.old) (D.view disk.new) }
    ensures undone { D.tells → IfErr result (λ e. e ≢ LogFault.Disk → Throughout (IsOfLog number) (λ image. Replays image number None) (D.view disk.old) (D.view disk.new)) }
    ensures calls { D.tells → CallsOfLog number 3 4 (D.view disk.old) (D.view disk.new) }
    ensures fault { IfErr result (λ e. (e ≡ LogFault.Disk) ⊎ (e ≡ LogFault.Full Part.Head) ⊎ (e ≡ LogFault.NoMem)) }
    ensures full { IsErrOf result (LogFault.Full Part.Head) → 2 ^ 40 < length text.now }
    ensures fits { OnOk result (length text.now ≤ 2 ^ 40) }
    ensures cause { HasOwnCause (IsOfLog number) (IsErrOf result LogFault.Disk) (D.view disk.old) (D.view disk.new) }
{
    let mut bundle = Bundle::create(alloc, disk, owner_of(number), Shape::Log)?;
    bundle.stage(Part::Head, text.as_slice())?;
    bundle.flush(disk, MADE, 0, 0, 0)?;
    Ok(bundle)
}

impl IoLog {
    /// Makes a log of this head, with no record, by an entry of kind 0. None of its files exists, and its head's time is
    /// valid. At every moment a crash leaves nothing of it or the whole log, and after Ok the log. `Disk` comes only if a
    /// device call on a file of this log failed, `Full(Head)` if the head's text has more than 2^40 bytes. At
    /// `Full(Head)` and at `NoMem` nothing of it is left, at no moment: memory is taken before the log exists.
    pub fn create<D: Disk>(
        alloc: Global,
        disk: &mut D,
        number: LogNo,
        head: &Head,
    ) -> Result<IoLog, LogFault>
        requires unmade { D.tells → IsUnmade number (D.view disk.old) }
        requires timed { IsSome (nanos_of head.now.submit) }
        ensures number { IfOk result (λ log. log.number ≡ number) }
        ensures whole { IfOk result (λ log. log.is_broken ≡ false) }
        ensures going { IfOk result (λ log. is_complete log ≡ false) }
        ensures flushed { IfOk result IsFlushed }
        ensures counts { IfOk result (λ log. (log.count ≡ 0) × (log.elapsed ≡ 0)) }
        ensures kind { IfOk result (λ log. kind_of log ≡ Some 0) }
        ensures represents { D.tells → IfOk result (λ log. Represents log (bare (made (head_text head.now))) (D.view disk.new)) }
        ensures any_moment { D.tells → Throughout (IsOfLog number) (IsEither number None (Some (made (head_text head.now)))) (D.view disk.old) (D.view disk.new) }
        ensures nothing { D.tells → 2 ^ 40 < length (head_text head.now) → Throughout (IsOfLog number) (λ image. Replays image number None) (D.view disk.old) (D.view disk.new) }
        ensures undone { D.tells → IfErr result (λ e. e ≢ LogFault.Disk → Throughout (IsOfLog number) (λ image. Replays image number None) (D.view disk.old) (D.view disk.new)) }
        ensures calls { D.tells → CallsOfLog number 3 4 (D.view disk.old) (D.view disk.new) }
        ensures fault { IfErr result (λ e. (e ≡ LogFault.Disk) ⊎ (e ≡ LogFault.Full Part.Head) ⊎ (e ≡ LogFault.NoMem)) }
        ensures full { IsErrOf result (LogFault.Full Part.Head) → 2 ^ 40 < length (head_text head.now) }
        ensures fits { OnOk result (length (head_text head.now) ≤ 2 ^ 40) }
        ensures cause { HasOwnCause (IsOfLog number) (IsErrOf result LogFault.Disk) (D.view disk.old) (D.view disk.new) }
    {
        let text = write_head(alloc, head)?;
        let head = written_head(alloc, head, &text)?;
        let bundle = make_files(alloc, disk, number, &text)?;
        Ok(IoLog {
            alloc,
            number,
            head,
            count: 0,
            elapsed: 0,
            is_broken: false,
            bundle,
            staged_timing: 0,
            line: Bytes::new(alloc),
        })
    }

    /// Whether the log has its exit, and so ends.
    pub fn is_complete(&self) -> bool
        ensures { result ≡ is_complete self.now }
    {
        self.bundle.last().kind == COMPLETE
    }

    /// The nanoseconds from the start of the log to its last record, staged ones among them.
    pub fn elapsed(&self) -> Point
        ensures { result ≡ self.now.elapsed }
    {
        Point::new(self.elapsed).unwrap()
    }

    /// How many records there are, staged ones among them.
    pub fn count(&self) -> u64
        ensures { result ≡ self.now.count }
    {
        self.count
    }

    /// What the client said of the command at its start, as the head's text reads.
    pub fn head(&self) -> &Head
        ensures { result.now ≡ self.now.head }
    {
        &self.head
    }
}

ghost use Rattle.std.specs.Prelude.{◌≡◌, ◌⊎◌, ℕ, ◌+◌, ◌<◌, ◌≤◌, ◌^◌, [], length, true, false, IfOk, IfErr, OnOk, OnErr, IsErrOf};
ghost use Rattle.lsv_disk.specs.declared.file.Part.{Part};
ghost use Rattle.lsv_bundle.specs.declared.shape.Shape.TheVariants as shapes;
ghost use Rattle.lsv_bundle.specs.Value.{staged};
ghost use Rattle.lsv_record.specs.Records.{IsValid, delay_of, line_of};
ghost use Rattle.lsv_iolog.specs.declared.fault.LogFault.{LogFault};
ghost use Rattle.lsv_iolog.specs.Recovered.{part_of};
ghost use Rattle.lsv_iolog.specs.Value.{is_complete};
ghost use Rattle.lsv_iolog.specs.Room.{IsRoomFor, IsFullOf, IsDataFull};
ghost use Rattle.lsv_iolog.specs.Inner.Staging.{StagesIn};
ghost use Rattle.lsv_iolog.specs.Represents.{Stages};

use crate::{IoLog, LogFault};
use lsv_base::{Bytes, Point};
use lsv_bundle::Bundle;
use lsv_disk::Part;
use lsv_record::{Record, Stream, put_line};

/// The file of a stream.
pub(crate) fn part_of(stream: Stream) -> Part
    ensures { result ≡ part_of stream }
{
    match stream {
        Stream::Stdin => Part::Stdin,
        Stream::Stdout => Part::Stdout,
        Stream::Stderr => Part::Stderr,
        Stream::Ttyin => Part::Ttyin,
        Stream::Ttyout => Part::Ttyout,
    }
}

impl IoLog {
    /// Stages a valid record after the others of a log that isn't complete, and answers the nanoseconds from the start
    /// of the log to it. `TooLong`, with the elapsed time so far, comes exactly if that time would reach 2^63. Else
    /// `Broken` comes exactly if the log is broken. Else `Full(part)` comes exactly if the timing, or else the stream,
    /// would pass 2^40 bytes. A fault leaves the log unchanged. Nothing is committed.
    pub fn append(&mut self, r: &Record) -> Result<Point, LogFault>
        requires valid { IsValid r.now }
        requires going { is_complete self.old ≡ false }
        ensures staged { OnOk result (Stages self.old r.now self.new) }
        ensures refused { OnErr result (self.new ≡ self.old) }
        ensures elapsed { IfOk result (λ point. point ≡ self.old.elapsed + delay_of r.now) }
        ensures room { OnOk result ((self.old.is_broken ≡ false) × IsRoomFor self.old.bundle r.now) }
        ensures too_long { (point : ℕ) → IsErrOf result (LogFault.TooLong point) → (point ≡ self.old.elapsed) × (2 ^ 63 ≤ self.old.elapsed + delay_of r.now) }
        ensures in_time { IfErr result (λ e. (e ≡ LogFault.TooLong self.old.elapsed) ⊎ (self.old.elapsed + delay_of r.now < 2 ^ 63)) }
        ensures broken { IsErrOf result LogFault.Broken → self.old.is_broken ≡ true }
        ensures memory { IsErrOf result LogFault.NoMem → self.old.is_broken ≡ false }
        ensures whole { (part : Part) → IsErrOf result (LogFault.Full part) → (self.old.is_broken ≡ false) × IsFullOf self.old.bundle r.now part }
        ensures fault { IfErr result (λ e. (e ≡ LogFault.TooLong self.old.elapsed) ⊎ (e ≡ LogFault.Broken) ⊎ ((part : Part) × (e ≡ LogFault.Full part)) ⊎ (e ≡ LogFault.NoMem)) }
    {
        let so_far = self.elapsed();
        let Some(elapsed) = so_far.plus(r.delay()) else {
            return Err(LogFault::TooLong(so_far));
        };
        if self.is_broken {
            return Err(LogFault::Broken);
        }
        self.line.truncate(0);
        put_line(&mut self.line, r)?;
        stage_record(&mut self.bundle, &self.line, self.staged_timing, r)?;
        self.staged_timing += self.line.as_slice().len();
        self.count += 1;
        self.elapsed = elapsed.nanos();
        Ok(elapsed)
    }
}

/// Stages the line of a record after `keep` bytes of timing, and its data. If either is refused, nothing is staged.
fn stage_record(bundle: &mut Bundle, line: &Bytes, keep: usize, r: &Record) -> Result<(), LogFault>
    requires shape { bundle.old.shape ≡ shapes.Log }
    requires whole { bundle.old.is_broken ≡ false }
    requires line { line.now ≡ line_of r.now }
    requires keep { length (staged bundle.old Part.Timing) ≡ keep }
    ensures staged { OnOk result (StagesIn line.now r.now bundle.old bundle.new) }
    ensures refused { OnErr result (bundle.new ≡ bundle.old) }
    ensures room { OnOk result (IsRoomFor bundle.old r.now) }
    ensures full { (part : Part) → IsErrOf result (LogFault.Full part) → IsFullOf bundle.old r.now part }
    ensures fault { IfErr result (λ e. ((part : Part) × (e ≡ LogFault.Full part)) ⊎ (e ≡ LogFault.NoMem)) }
{
    bundle.stage(Part::Timing, line.as_slice())?;
    match stage_data(bundle, r) {
        Ok(()) => Ok(()),
        Err(fault) => {
            bundle.unstage(Part::Timing, keep);
            Err(fault)
        }
    }
}

/// Stages the data of a record, if it has any.
fn stage_data(bundle: &mut Bundle, r: &Record) -> Result<(), LogFault>
    requires shape { bundle.old.shape ≡ shapes.Log }
    requires whole { bundle.old.is_broken ≡ false }
    ensures staged { OnOk result (StagesIn [] r.now bundle.old bundle.new) }
    ensures refused { OnErr result (bundle.new ≡ bundle.old) }
    ensures room { OnOk result ((part : Part) → IsDataFull bundle.old r.now part → ⊥) }
    ensures full { (part : Part) → IsErrOf result (LogFault.Full part) → IsDataFull bundle.old r.now part }
    ensures fault { IfErr result (λ e. ((part : Part) × (e ≡ LogFault.Full part)) ⊎ (e ≡ LogFault.NoMem)) }
{
    let Record::Io { stream, bytes, .. } = r else {
        return Ok(());
    };
    bundle.stage(part_of(*stream), bytes.as_slice())?;
    Ok(())
}

ghost use Rattle.std.specs.Prelude.{◌≡◌, ◌≢◌, ◌⊎◌, ◌↔◌, ◌+◌, ◌-◌, ◌<◌, ◌≤◌, ◌^◌, ℕ, true, false, Option, Some, None, [], length, List, All, nat_lt, if◌then◌else◌, IfOk, IfErr, IfSome, OnOk, OnErr, IsErrOf};
ghost use Rattle.lsv_disk.specs.View.{HasCause, HasOwnCause};
ghost use Rattle.lsv_disk.specs.Files.{file_of};
ghost use Rattle.lsv_disk.specs.Throughout.{Throughout, OnlyReads, CallsAtMost};
ghost use Rattle.lsv_disk.specs.declared.file.Part.{Part};
ghost use Rattle.lsv_bundle.specs.Shape.{journal_of};
ghost use Rattle.lsv_bundle.specs.declared.shape.Shape.TheVariants as shapes;
ghost use Rattle.lsv_bundle.specs.Body.{length_of};
ghost use Rattle.lsv_bundle.specs.Committed.{IsBeforeOrAfter, committed};
ghost use Rattle.lsv_bundle.specs.Represents as bundles;
ghost use Rattle.lsv_bundle.specs.Shape.{eight};
ghost use Rattle.lsv_bundle.specs.Value.{committed_length};
ghost use Rattle.lsv_journal.specs.Last.{IsOwn};
ghost use Rattle.lsv_record.specs.declared.records.Record.{Record};
ghost use Rattle.lsv_record.specs.declared.records.Shaped.{Shaped};
ghost use Rattle.lsv_record.specs.Points.{first};
ghost use Rattle.lsv_record.specs.Records.{IsGood, IsValid, timing_of};
ghost use Rattle.lsv_record.specs.Tally.{lines_of, told_elapsed};
ghost use Rattle.lsv_iolog.specs.Inner.Cutting.{IsFound, IsCutTo, entry_behind, length_behind};
ghost use Rattle.lsv_iolog.specs.Inner.Next.{cuts_in};
ghost use Rattle.lsv_iolog.specs.Inner.Scanning.{text_of};
ghost use Rattle.lsv_iolog.specs.declared.fault.LogFault.{LogFault};
ghost use Rattle.lsv_iolog.specs.declared.fault.ViewFault.{ViewFault};
ghost use Rattle.lsv_iolog.specs.Recovered.{IsOfLog, owner_of};
ghost use Rattle.lsv_iolog.specs.Later.{cut_log, drops};
ghost use Rattle.lsv_iolog.specs.Value.{LogValue, is_complete, bare, kind_of, SameCounts, IsFlushed};
ghost use Rattle.lsv_iolog.specs.Represents.{Represents};
ghost use Rattle.lsv_iolog.specs.Moments.{IsEither, IsThereLater, IsCutFault};

use crate::lines::Lines;
use crate::open::view_of;
use crate::{IoLog, LogFault, ViewFault};
use lsv_base::Point;
use lsv_bundle::{Body, View};
use lsv_disk::{Disk, Part};
use lsv_record::{Stream, Tally};
use std::alloc::Global;

/// More cuts than these aren't counted.
const MOST_CUTS: u64 = (1 << 63) - 1;

impl IoLog {
    /// Keeps the records through the first that ends at this point, by an entry of kind 2, and counts a cut if it drops
    /// one. Nothing is staged. `Broken` comes exactly if the log is broken, else `Complete` exactly if it is complete,
    /// else `NoPoint` exactly if no record ends there. `Full(Slots)` comes exactly if the cuts would pass 2^63 - 1. At
    /// every moment a crash leaves the log as it was before or as it is cut, and after Ok the latter alone. `Disk` comes
    /// only if a device call failed: on the journal, after the point was found; or on the timing, and then the disk is as
    /// it was. The timing is read in pieces of at most 65,536 bytes. Every other fault leaves the log and the disk as
    /// they were.
    pub fn cut_at<D: Disk>(&mut self, disk: &mut D, point: Point) -> Result<(), LogFault>
        requires represents { D.tells → self.old.is_broken ≡ false → (value : LogValue) × Represents self.old value (D.view disk.old) }
        requires flushed { IsFlushed self.old }
        ensures same { (self.new.number ≡ self.old.number) × (self.new.head ≡ self.old.head) }
        ensures whole { OnOk result ((self.old.is_broken ≡ false) × (self.new.is_broken ≡ false)) }
        ensures going { OnOk result ((is_complete self.old ≡ false) × (is_complete self.new ≡ false)) }
        ensures flushed { OnOk result (IsFlushed self.new) }
        ensures kind { OnOk result (kind_of self.new ≡ Some 2) }
        ensures elapsed { OnOk result (self.new.elapsed ≡ point) }
        ensures counts { OnErr result (SameCounts self.old self.new) }
        ensures kept { OnErr result (is_complete self.new ≡ is_complete self.old) }
        ensures found { D.tells → OnOk result ((value : LogValue) → Represents self.old value (D.view disk.old) → first value.stored.records point ≢ None) }
        ensures represents { D.tells → OnOk result ((value : LogValue) → Represents self.old value (D.view disk.old) → Represents self.new (bare (cut_log value.stored point)) (D.view disk.new)) }
        ensures any_moment { D.tells → (value : LogValue) → Represents self.old value (D.view disk.old)
            → Throughout (IsOfLog self.old.number) (IsEither self.old.number (Some value.stored) (Some (cut_log value.stored point))) (D.view disk.old) (D.view disk.new) }
        ensures later { D.tells → (value : LogValue) → Represents self.old value (D.view disk.old)
            → Throughout (IsOfLog self.old.number) (IsThereLater self.old.number value.stored) (D.view disk.old) (D.view disk.new) }
        ensures counted { D.tells → OnOk result ((value : LogValue) → Represents self.old value (D.view disk.old) → drops value.stored point ≡ true → value.stored.cuts < 2 ^ 63 - 1) }
        ensures calls { D.tells → CallsAtMost 2 2 (λ file. file ≡ journal_of (owner_of self.old.number)) (D.view disk.old) (D.view disk.new) }
        ensures complete { IsErrOf result LogFault.Complete → (is_complete self.old ≡ true) × (disk.new ≡ disk.old) }
        ensures no_point { (p : ℕ) → IsErrOf result (LogFault.NoPoint p) → (p ≡ point) × (is_complete self.old ≡ false) }
        ensures none { D.tells → IsErrOf result (LogFault.NoPoint point) → (value : LogValue) → Represents self.old value (D.view disk.old) → first value.stored.records point ≡ None }
        ensures full { D.tells → IsErrOf result (LogFault.Full Part.Slots) → (value : LogValue) → Represents self.old value (D.view disk.old)
            → (first value.stored.records point ≢ None) × (drops value.stored point ≡ true) × (2 ^ 63 - 1 ≤ value.stored.cuts) }
        ensures broken { IsErrOf result LogFault.Broken ↔ (self.old.is_broken ≡ true) }
        ensures unchanged { IfErr result (λ e. e ≢ LogFault.Disk → self.new ≡ self.old) }
        ensures reads { D.tells → IfErr result (λ e. e ≢ LogFault.Disk → OnlyReads (D.view disk.old) (D.view disk.new)) }
        ensures disk { IsErrOf result LogFault.Disk → (self.new.is_broken ≡ true) × (is_complete self.old ≡ false) }
        ensures fault { IfErr result (λ e. (e ≡ LogFault.Broken) ⊎ (e ≡ LogFault.Complete) ⊎ (e ≡ LogFault.NoPoint point) ⊎ (e ≡ LogFault.Full Part.Slots) ⊎ (e ≡ LogFault.Disk) ⊎ (e ≡ LogFault.NoMem)) }
        ensures cause { HasOwnCause (IsOfLog self.old.number) (IsErrOf result LogFault.Disk) (D.view disk.old) (D.view disk.new) }
        ensures blame { D.tells → IsErrOf result LogFault.Disk → (value : LogValue) → Represents self.old value (D.view disk.old) → IsCutFault self.old.number point value.stored (D.view disk.old) (D.view disk.new) }
    {
        if self.is_broken {
            return Err(LogFault::Broken);
        }
        if self.is_complete() {
            return Err(LogFault::Complete);
        }
        let Some(kept) = self.find(disk, point)? else {
            return Err(LogFault::NoPoint(point));
        };
        let cuts = self.cuts_behind(&kept)?;
        self.cut_behind(disk, &kept, cuts)
    }
}

impl IoLog {
    /// What the timing comes to through the first line that ends at this point. None if no line does.
    fn find<D: Disk>(&mut self, disk: &mut D, point: Point) -> Result<Option<Tally>, LogFault>
        requires represents { D.tells → self.old.is_broken ≡ false → (value : LogValue) × Represents self.old value (D.view disk.old) }
        requires whole { self.old.is_broken ≡ false }
        ensures found { D.tells → IfOk result (λ found. (value : LogValue) → Represents self.old value (D.view disk.old) → IsFound value.stored.records point found) }
        ensures at { IfOk result (λ found. IfSome found (λ kept. (kept.elapsed ≡ point) × (kept.timing ≤ committed_length self.old.bundle Part.Timing))) }
        ensures none { D.tells → IsErrOf result (LogFault.NoPoint point) → (value : LogValue) → Represents self.old value (D.view disk.old) → ⊥ }
        ensures reads { D.tells → OnlyReads (D.view disk.old) (D.view disk.new) }
        ensures same { OnOk result (self.new ≡ self.old) }
        ensures unchanged { IfErr result (λ e. e ≢ LogFault.Disk → self.new ≡ self.old) }
        ensures broken { IsErrOf result LogFault.Disk → self.new.is_broken ≡ true }
        ensures counts { SameCounts self.old self.new }
        ensures last { self.new.bundle.last ≡ self.old.bundle.last }
        ensures fault { IfErr result (λ e. (e ≡ LogFault.NoPoint point) ⊎ (e ≡ LogFault.Disk) ⊎ (e ≡ LogFault.NoMem)) }
        ensures cause { HasOwnCause (IsOfLog self.old.number) (IsErrOf result LogFault.Disk) (D.view disk.old) (D.view disk.new) }
    {
        let view = view_of(self.number, self.bundle.last());
        match first_end(self.alloc, disk, view, point) {
            Ok(found) => Ok(found),
            Err(ViewFault::Disk) => {
                self.is_broken = true;
                Err(LogFault::Disk)
            }
            Err(ViewFault::Damaged(_)) => Err(LogFault::NoPoint(point)),
            Err(ViewFault::NoMem) => Err(LogFault::NoMem),
            Err(ViewFault::Absent) => unreachable!(),
        }
    }

    /// How many cuts there are once the log ends after these lines: one that drops no record isn't counted.
    fn cuts_behind(&self, kept: &Tally) -> Result<u64, LogFault>
        ensures cuts { IfOk result (λ cuts. cuts ≡ (if nat_lt kept.now.count self.now.count then cuts_in self.now.bundle.last + 1 else cuts_in self.now.bundle.last)) }
        ensures room { OnOk result (nat_lt kept.now.count self.now.count ≡ true → cuts_in self.now.bundle.last < 2 ^ 63 - 1) }
        ensures fault { IfErr result (λ e. (e ≡ LogFault.Full Part.Slots) × (nat_lt kept.now.count self.now.count ≡ true) × (2 ^ 63 - 1 ≤ cuts_in self.now.bundle.last)) }
    {
        let cuts = self.bundle.last().extra;
        if kept.count() >= self.count {
            return Ok(cuts);
        }
        if cuts >= MOST_CUTS {
            return Err(LogFault::Full(Part::Slots));
        }
        Ok(cuts + 1)
    }

    /// Cuts the files after the lines that come to this, and counts this many cuts.
    fn cut_behind<D: Disk>(&mut self, disk: &mut D, kept: &Tally, cuts: u64) -> Result<(), LogFault>
        requires whole { self.old.is_broken ≡ false }
        requires flushed { IsFlushed self.old }
        requires represents { D.tells → bundles.Represents self.old.bundle (D.view disk.old) }
        requires within { kept.now.timing ≤ committed_length self.old.bundle Part.Timing }
        ensures same { (self.new.number ≡ self.old.number) × (self.new.head ≡ self.old.head) }
        ensures counts { OnOk result ((self.new.count ≡ kept.now.count) × (self.new.elapsed ≡ kept.now.elapsed)) }
        ensures kept { OnErr result (SameCounts self.old self.new) }
        ensures last { OnErr result (self.new.bundle.last ≡ self.old.bundle.last) }
        ensures whole { OnOk result (self.new.is_broken ≡ false) }
        ensures broken { OnErr result (self.new.is_broken ≡ true) }
        ensures value { OnOk result (IsCutTo kept.now cuts self.old.bundle self.new.bundle) }
        ensures committed { D.tells → OnOk result (committed self.new.bundle (D.view disk.new) ≡ Some (entry_behind self.old.bundle (D.view disk.old) kept.now cuts)) }
        ensures represents { D.tells → OnOk result (bundles.Represents self.new.bundle (D.view disk.new)) }
        ensures any_moment { D.tells → Throughout (λ g. g ≡ journal_of self.old.bundle.owner)
            (IsBeforeOrAfter self.old.bundle.owner self.old.bundle.shape (committed self.old.bundle (D.view disk.old)) (Some (entry_behind self.old.bundle (D.view disk.old) kept.now cuts)))
            (D.view disk.old) (D.view disk.new) }
        ensures calls { D.tells → CallsAtMost 2 2 (λ g. g ≡ journal_of self.old.bundle.owner) (D.view disk.old) (D.view disk.new) }
        ensures fault { IfErr result (λ e. e ≡ LogFault.Disk) }
        ensures cause { HasOwnCause (IsOwn (journal_of self.old.bundle.owner)) (IsErrOf result LogFault.Disk) (D.view disk.old) (D.view disk.new) }
        ensures blame { HasCause (journal_of self.old.bundle.owner) (IsErrOf result LogFault.Disk) (D.view disk.old) (D.view disk.new) }
    {
        let lens = lengths_behind(&self.bundle.last(), kept);
        match self
            .bundle
            .cut(disk, lens, kept.count(), kept.elapsed(), cuts)
        {
            Ok(()) => {
                self.count = kept.count();
                self.elapsed = kept.elapsed();
                Ok(())
            }
            Err(fault) => {
                self.is_broken = true;
                Err(LogFault::from(fault))
            }
        }
    }
}

/// The lengths of the files of a log that ends after these lines: the head's and the exit's are as they were.
fn lengths_behind(body: &Body, kept: &Tally) -> [u64; 8]
    ensures { result ≡ eight shapes.Log (length_behind body.now kept.now) }
{
    let [head, exit, timing, stdin, stdout, stderr, ttyin, ttyout] = body.lens;
    [
        head,
        exit,
        kept.timing().min(timing),
        kept.data_bytes(Stream::Stdin).min(stdin),
        kept.data_bytes(Stream::Stdout).min(stdout),
        kept.data_bytes(Stream::Stderr).min(stderr),
        kept.data_bytes(Stream::Ttyin).min(ttyin),
        kept.data_bytes(Stream::Ttyout).min(ttyout),
    ]
}

/// What the timing of a view comes to through the first line that ends at this point. None if no line does.
fn first_end<D: Disk>(
    alloc: Global,
    disk: &mut D,
    view: View,
    point: Point,
) -> Result<Option<Tally>, ViewFault>
    requires shape { view.shape ≡ shapes.Log }
    ensures found { D.tells → IfOk result (λ found. (records : List Record) → All IsValid records → text_of view (D.view disk.old) Part.Timing ≡ timing_of records → IsFound records point found) }
    ensures at { IfOk result (λ found. IfSome found (λ kept. (kept.elapsed ≡ point) × (kept.timing ≤ length_of view.body Part.Timing))) }
    ensures damaged { D.tells → IsErrOf result (ViewFault.Damaged Part.Timing) → length (text_of view (D.view disk.old) Part.Timing) ≡ length_of view.body Part.Timing
        → (told : List Shaped) → All IsGood told → text_of view (D.view disk.old) Part.Timing ≡ lines_of told → told_elapsed told < 2 ^ 63 → length (text_of view (D.view disk.old) Part.Timing) ≤ 2 ^ 40 → ⊥ }
    ensures reads { D.tells → OnlyReads (D.view disk.old) (D.view disk.new) }
    ensures fault { IfErr result (λ e. (e ≡ ViewFault.Disk) ⊎ (e ≡ ViewFault.Damaged Part.Timing) ⊎ (e ≡ ViewFault.NoMem)) }
    ensures cause { HasCause (file_of view.owner Part.Timing) (IsErrOf result ViewFault.Disk) (D.view disk.old) (D.view disk.new) }
{
    let mut lines = Lines::new(alloc, view);
    while let Some(_) = lines.next(alloc, disk)? {
        let elapsed = lines.tally().elapsed();
        if elapsed == point.nanos() {
            return Ok(Some(lines.tally()));
        }
        if elapsed > point.nanos() {
            return Ok(None);
        }
    }
    Ok(None)
}

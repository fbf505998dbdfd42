//! A log that is read record by record.
ghost use Rattle.std.specs.Prelude.{◌≡◌, ◌≢◌, ◌⊎◌, ◌+◌, ◌<◌, ◌≤◌, ◌^◌, ◌++◌, ◌∷◌, ℕ, List, Option, Some, None, [], Ok, Err, length, map, get_or, IfOk, IfErr, IfSome, IfNone, OnOk, OnErr, IsErrOf};
ghost use Rattle.lsv_disk.specs.View.{HasOwnCause};
ghost use Rattle.lsv_disk.specs.Throughout.{OnlyReads};
ghost use Rattle.lsv_disk.specs.declared.file.Part.{Part};
ghost use Rattle.lsv_defs.specs.Pieces.{piece};
ghost use Rattle.lsv_bundle.specs.Calls as bundles;
ghost use Rattle.lsv_bundle.specs.Committed.{HasEntry};
ghost use Rattle.lsv_bundle.specs.declared.shape.Shape.TheVariants as shapes;
ghost use Rattle.lsv_bundle.specs.Body.{length_of};
ghost use Rattle.lsv_info.specs.Reading.{head_of, exit_of};
ghost use Rattle.lsv_info.specs.declared.times.Exit.{Exit};
ghost use Rattle.lsv_record.specs.declared.records.Record.{Record};
ghost use Rattle.lsv_record.specs.Points.{Stored};
ghost use Rattle.lsv_record.specs.Records.{IsValid, shape_of, data_in, event_of};
ghost use Rattle.lsv_record.specs.Tally.{totals_of, told_count};
ghost use Rattle.lsv_iolog.specs.declared.fault.ViewFault.{ViewFault};
ghost use Rattle.lsv_iolog.specs.Recovered.{owner_of, part_of, laid_in, IsOfLog, Replays};
ghost use Rattle.lsv_iolog.specs.Later.{IsLater};
ghost use Rattle.lsv_iolog.specs.Damage.{IsViewDamage};
ghost use Rattle.lsv_iolog.specs.Faults.{IsNextFault, IsOfFiles};
ghost use Rattle.lsv_iolog.specs.Inner.Scanning.{text_of, IsReading, IsViewOf, AllCounted};
ghost use Rattle.lsv_iolog.specs.Inner.Judging.{IsBehindLines, AreWhole, HasData, LacksIn, IsWithin, IsEndFault, back_to};
ghost use Rattle.lsv_iolog.specs.Reading.{committed_text, committed_laid, is_over, AreThere, HasCuts, HasShrunk, HoldsLittle, IsBehind, IsPlaced, IsWhole, IsFaultBehind, IsSoundBehind};

use crate::ViewFault;
use crate::append::part_of;
use crate::lines::Lines;
use crate::log::{COMPLETE, owner_of};
use crate::open::{check_counts, check_streams, read_log_head};
use crate::pieces::{committed, read_part, read_piece};
use lsv_base::{Bytes, LogNo};
use lsv_bundle::{Body, Bundle, BundleFault, Shape, View};
use lsv_disk::{Disk, FileId, Part};
use lsv_info::{Exit, Head, InfoFault, read_exit};
use lsv_journal::Journal;
use lsv_record::{Record, Shaped, Stream, Tally};
use std::alloc::Global;
use std::marker::Model;

/// What a look at a log again found.
#[derive(Clone, Copy, Debug, PartialEq, Eq)]
pub enum Renewed {
    /// It has the same count of cuts.
    Same,
    /// It was cut since. This is the count of cuts now.
    Cut(u64),
}

/// A log that is read record by record, as its files read: nothing is synced or written. It holds at most 65,536 bytes
/// of timing, and no record that it gave.
#[derive(Drop)]
pub struct LogView {
    alloc: Global,
    number: LogNo,
    head: Head,
    lines: Lines,
}

impl Model for LogView {
    ghost use Rattle.std.specs.Prelude.{◌≤◌, length};
    ghost use Rattle.lsv_iolog.specs.Reading.{ViewState};
    ghost use Rattle.lsv_iolog.specs.Inner.Scanning.{IsViewOf};

    ghost Value = { ViewState };

    ghost view = { λ v. record { number = v.number; head = v.head; body = v.lines.view.body; given = v.lines.tally; start = v.lines.start; window = v.lines.window } };

    ghost invariant = { λ v. IsViewOf v.number v.lines.view × (length v.lines.window ≤ 65536) };
}

impl LogView {
    /// What the log's files read as, with no record given yet. `Absent` comes exactly if it has no entry,
    /// `Damaged(part)` exactly if a file is absent or shorter than the last entry says, or else the head is no head.
    /// `Disk` comes only if a device call on a file of this log failed.
    pub fn open<D: Disk>(alloc: Global, disk: &mut D, number: LogNo) -> Result<LogView, ViewFault>
        ensures number { IfOk result (λ v. v.number ≡ number) }
        ensures entry { D.tells → IfOk result (λ v. HasEntry (owner_of number) v.body (D.view disk.old).reads) }
        ensures head { D.tells → IfOk result (λ v. head_of (committed_text number v.body (D.view disk.new) Part.Head) ≡ Ok v.head) }
        ensures behind { D.tells → IfOk result (λ v. IsBehind v [] (D.view disk.new)) }
        ensures little { IfOk result HoldsLittle }
        ensures absent { D.tells → IsErrOf result ViewFault.Absent → Replays (D.view disk.old).reads number None }
        ensures damaged { D.tells → (part : Part) → IsErrOf result (ViewFault.Damaged part) → IsViewDamage number part (D.view disk.old).reads }
        ensures reads { D.tells → OnlyReads (D.view disk.old) (D.view disk.new) }
        ensures cause { HasOwnCause (IsOfLog number) (IsErrOf result ViewFault.Disk) (D.view disk.old) (D.view disk.new) }
    {
        let (view, head) = view_log(alloc, disk, number)?;
        let lines = Lines::new(alloc, view);
        Ok(LogView {
            alloc,
            number,
            head,
            lines,
        })
    }

    /// What the client said of the command at its start.
    pub fn head(&self) -> &Head
        ensures { result.now ≡ self.now.head }
    {
        &self.head
    }

    /// The same, when the log is no longer read.
    pub fn into_head(self) -> Head
        ensures { result ≡ self.head }
    {
        self.head
    }

    /// What the last entry says.
    pub fn body(&self) -> Body
        ensures { result ≡ self.now.body }
    {
        self.lines.view().body
    }

    /// Whether the last entry is that of a complete log, which grows no more.
    pub fn is_over(&self) -> bool
        ensures { result ≡ is_over self.now }
    {
        self.lines.view().body.kind == COMPLETE
    }

    /// How the command ended. None exactly if the log is incomplete. `Damaged(Exit)` comes exactly if what is committed
    /// is no exit, `Disk` only if a device call on its file failed.
    pub fn exit<D: Disk>(&mut self, disk: &mut D) -> Result<Option<Exit>, ViewFault>
        ensures none { IfOk result (λ o. IfNone o (self.old.body.kind ≢ 3)) }
        ensures some { IfOk result (λ o. IfSome o (λ _. self.old.body.kind ≡ 3)) }
        ensures exit { D.tells → IfOk result (λ o. IfSome o (λ e. exit_of (committed_text self.old.number self.old.body (D.view disk.old) Part.Exit) ≡ Ok e)) }
        ensures damaged { D.tells → IsErrOf result (ViewFault.Damaged Part.Exit) → (self.old.body.kind ≡ 3)
            × ((e : Exit) → exit_of (committed_text self.old.number self.old.body (D.view disk.old) Part.Exit) ≡ Ok e → ⊥) }
        ensures same { self.new ≡ self.old }
        ensures reads { D.tells → OnlyReads (D.view disk.old) (D.view disk.new) }
        ensures fault { IfErr result (λ e. (e ≡ ViewFault.Disk) ⊎ (e ≡ ViewFault.Damaged Part.Exit) ⊎ (e ≡ ViewFault.NoMem)) }
        ensures cause { HasOwnCause (IsOfLog self.old.number) (IsErrOf result ViewFault.Disk) (D.view disk.old) (D.view disk.new) }
    {
        if self.lines.view().body.kind != COMPLETE {
            return Ok(None);
        }
        let text = read_part(self.alloc, disk, &self.lines.view(), Part::Exit)?;
        match read_exit(self.alloc, text.as_slice()) {
            Ok(exit) => Ok(Some(exit)),
            Err(InfoFault::NoMem) => Err(ViewFault::NoMem),
            Err(_) => Err(ViewFault::Damaged(Part::Exit)),
        }
    }

    /// Gives the next record. None exactly at the end. `Damaged(Timing)` comes exactly if the next line is bad, or the
    /// elapsed time through it reaches 2^63 nanoseconds, or the lines end or go on otherwise than the last entry says.
    /// `Damaged` of a stream comes exactly if too few of its bytes are committed for the line, or some are left over at
    /// the end. So no record is given, and no end, after which a part is at fault. `Disk` comes only if a device call on
    /// a file of this log failed. A fault leaves its place as it was.
    pub fn next<D: Disk>(&mut self, disk: &mut D) -> Result<Option<Record>, ViewFault>
        ensures given { D.tells → IfOk result (λ o. IfSome o (λ r. (records : List Record) → IsBehind self.old records (D.view disk.old) → IsBehind self.new (records ++ r ∷ []) (D.view disk.new))) }
        ensures valid { IfOk result (λ o. IfSome o IsValid) }
        ensures end { D.tells → IfOk result (λ o. IfNone o ((records : List Record) → IsBehind self.old records (D.view disk.old) → IsWhole self.old records (D.view disk.old) × IsBehind self.new records (D.view disk.new))) }
        ensures stays { D.tells → OnErr result ((records : List Record) → IsBehind self.old records (D.view disk.old) → IsBehind self.new records (D.view disk.new)) }
        ensures same { (self.new.number ≡ self.old.number) × (self.new.head ≡ self.old.head) × (self.new.body ≡ self.old.body) }
        ensures little { HoldsLittle self.new }
        ensures damaged { D.tells → (part : Part) → IsErrOf result (ViewFault.Damaged part) → (records : List Record) → IsBehind self.old records (D.view disk.old)
            → IsFaultBehind (committed_laid self.old.number self.old.body (D.view disk.old)) self.old.body records part }
        ensures sound { D.tells → OnOk result ((records : List Record) → IsBehind self.old records (D.view disk.old) → IsSoundBehind (committed_laid self.old.number self.old.body (D.view disk.old)) self.old.body records) }
        ensures reads { D.tells → OnlyReads (D.view disk.old) (D.view disk.new) }
        ensures fault { IfErr result IsNextFault }
        ensures cause { HasOwnCause (IsOfLog self.old.number) (IsErrOf result ViewFault.Disk) (D.view disk.old) (D.view disk.new) }
    {
        let before = self.lines.tally();
        let next = next_record(self.alloc, disk, &mut self.lines);
        if next.is_err() {
            self.lines.back_to(before);
        }
        next
    }

    /// Looks at the log again. `Cut` comes exactly if it was cut since, and then the view is as it was. Else the view has
    /// the last entry, whose files exist and are as long as it says, and its place is after the records that it gave.
    /// The faults are those of `open`, and `Damaged(Timing)` if it wasn't cut and yet has fewer bytes of timing than were
    /// given.
    pub fn renew<D: Disk>(&mut self, disk: &mut D) -> Result<Renewed, ViewFault>
        ensures cut { IfOk result (λ renewed. (cuts : ℕ) → renewed ≡ Renewed.Cut cuts → (cuts ≢ self.old.body.extra) × (self.new ≡ self.old)) }
        ensures cuts { D.tells → IfOk result (λ renewed. (cuts : ℕ) → renewed ≡ Renewed.Cut cuts → (body : Body) × HasEntry (owner_of self.old.number) body (D.view disk.old).reads × (cuts ≡ body.extra)) }
        ensures same { IfOk result (λ renewed. renewed ≡ Renewed.Same → (self.new.number ≡ self.old.number) × (self.new.body.extra ≡ self.old.body.extra) × (self.new.given ≡ self.old.given)) }
        ensures entry { D.tells → IfOk result (λ renewed. renewed ≡ Renewed.Same → HasEntry (owner_of self.old.number) self.new.body (D.view disk.old).reads) }
        ensures head { D.tells → IfOk result (λ renewed. renewed ≡ Renewed.Same → head_of (committed_text self.old.number self.new.body (D.view disk.new) Part.Head) ≡ Ok self.new.head) }
        ensures placed { D.tells → IfOk result (λ renewed. renewed ≡ Renewed.Same → IsPlaced self.new (D.view disk.new)) }
        ensures later { D.tells → IfOk result (λ renewed. renewed ≡ Renewed.Same → (before now : Stored) (records more : List Record) → before.records ≡ records ++ more → before.cuts ≡ self.old.body.extra
            → Replays (D.view disk.old).reads self.old.number (Some now) → IsLater before now → self.old.given ≡ totals_of (map shape_of records) → IsBehind self.new records (D.view disk.new)) }
        ensures unchanged { OnErr result (self.new ≡ self.old) }
        ensures little { HoldsLittle self.new }
        ensures absent { D.tells → IsErrOf result ViewFault.Absent → Replays (D.view disk.old).reads self.old.number None }
        ensures damaged { D.tells → (part : Part) → IsErrOf result (ViewFault.Damaged part) → IsViewDamage self.old.number part (D.view disk.old).reads ⊎ ((part ≡ Part.Timing) × HasShrunk self.old (D.view disk.old).reads) }
        ensures reads { D.tells → OnlyReads (D.view disk.old) (D.view disk.new) }
        ensures cause { HasOwnCause (IsOfLog self.old.number) (IsErrOf result ViewFault.Disk) (D.view disk.old) (D.view disk.new) }
    {
        let (view, head) = view_log(self.alloc, disk, self.number)?;
        if view.body.extra != self.lines.view().body.extra {
            return Ok(Renewed::Cut(view.body.extra));
        }
        if committed(&view.body, Part::Timing) < self.lines.tally().timing() {
            return Err(ViewFault::Damaged(Part::Timing));
        }
        self.head = head;
        self.lines.renew(view);
        Ok(Renewed::Same)
    }

    /// Looks whether the log was cut since: reads its last entry again, and no other file. `Cut` comes exactly if the
    /// count of cuts is now another, `Absent` exactly if the log has no entry any more. `Disk` comes only if a device
    /// call on a file of this log failed.
    pub fn look<D: Disk>(&self, disk: &mut D) -> Result<Renewed, ViewFault>
        ensures cut { D.tells → IfOk result (λ renewed. (cuts : ℕ) → renewed ≡ Renewed.Cut cuts → HasCuts self.now.number cuts (D.view disk.old).reads × (cuts ≢ self.now.body.extra)) }
        ensures same { D.tells → IfOk result (λ renewed. renewed ≡ Renewed.Same → HasCuts self.now.number self.now.body.extra (D.view disk.old).reads) }
        ensures absent { D.tells → IsErrOf result ViewFault.Absent → Replays (D.view disk.old).reads self.now.number None }
        ensures reads { D.tells → OnlyReads (D.view disk.old) (D.view disk.new) }
        ensures fault { IfErr result (λ e. (e ≡ ViewFault.Absent) ⊎ (e ≡ ViewFault.Disk)) }
        ensures cause { HasOwnCause (IsOfLog self.now.number) (IsErrOf result ViewFault.Disk) (D.view disk.old) (D.view disk.new) }
    {
        let cuts = last_cuts(disk, self.number)?;
        if cuts != self.lines.view().body.extra {
            return Ok(Renewed::Cut(cuts));
        }
        Ok(Renewed::Same)
    }
}

/// How often a log was cut, by its last entry. `Absent` comes exactly if it has none, `Disk` only if a device call on a
/// file of it failed.
fn last_cuts<D: Disk>(disk: &mut D, number: LogNo) -> Result<u64, ViewFault>
    ensures cuts { D.tells → IfOk result (λ cuts. HasCuts number cuts (D.view disk.old).reads) }
    ensures absent { D.tells → IsErrOf result ViewFault.Absent → Replays (D.view disk.old).reads number None }
    ensures reads { D.tells → OnlyReads (D.view disk.old) (D.view disk.new) }
    ensures fault { IfErr result (λ e. (e ≡ ViewFault.Absent) ⊎ (e ≡ ViewFault.Disk)) }
    ensures cause { HasOwnCause (IsOfLog number) (IsErrOf result ViewFault.Disk) (D.view disk.old) (D.view disk.new) }
{
    let slots = FileId::new(owner_of(number), Part::Slots);
    match Journal::<89>::view(disk, slots) {
        Ok(Some(bytes)) => Ok(Body::decode(bytes).extra),
        Ok(None) => Err(ViewFault::Absent),
        Err(_) => Err(ViewFault::Disk),
    }
}

/// Gives the next record, or fails and may stand after its line.
fn next_record<D: Disk>(
    alloc: Global,
    disk: &mut D,
    lines: &mut Lines,
) -> Result<Option<Record>, ViewFault>
    requires shape { lines.old.view.shape ≡ shapes.Log }
    ensures given { D.tells → IfOk result (λ o. IfSome o (λ r. (records : List Record) → IsBehindLines lines.old records (D.view disk.old) → IsBehindLines lines.new (records ++ r ∷ []) (D.view disk.new))) }
    ensures valid { IfOk result (λ o. IfSome o IsValid) }
    ensures end { D.tells → IfOk result (λ o. IfNone o ((records : List Record) → IsBehindLines lines.old records (D.view disk.old) → AreWhole lines.old.view records (D.view disk.old) × IsBehindLines lines.new records (D.view disk.new))) }
    ensures stays { D.tells → OnErr result (IsReading lines.old (D.view disk.old) → IsReading (back_to lines.new lines.old.tally) (D.view disk.new)) }
    ensures window { (lines.new.start ≤ lines.old.tally.timing) × (lines.old.tally.timing ≤ lines.new.start + length lines.new.window) }
    ensures little { length lines.new.window ≤ 65536 }
    ensures view { lines.new.view ≡ lines.old.view }
    ensures damaged { D.tells → (part : Part) → IsErrOf result (ViewFault.Damaged part) → (records : List Record) → IsBehindLines lines.old records (D.view disk.old)
        → IsFaultBehind (laid_in (text_of lines.old.view (D.view disk.old))) lines.old.view.body records part }
    ensures sound { D.tells → OnOk result ((records : List Record) → IsBehindLines lines.old records (D.view disk.old) → IsSoundBehind (laid_in (text_of lines.old.view (D.view disk.old))) lines.old.view.body records) }
    ensures reads { D.tells → OnlyReads (D.view disk.old) (D.view disk.new) }
    ensures fault { IfErr result IsNextFault }
    ensures cause { HasOwnCause (λ file. file.owner ≡ lines.old.view.owner) (IsErrOf result ViewFault.Disk) (D.view disk.old) (D.view disk.new) }
{
    let view = lines.view();
    let before = lines.tally();
    let Some(told) = lines.next(alloc, disk)? else {
        check_end(&view.body, &before)?;
        return Ok(None);
    };
    let after = lines.tally();
    check_within(&view.body, &after)?;
    let record = told_record(alloc, disk, &view, &before, &after, told)?;
    Ok(Some(record))
}

/// The record of a line, with its data. The lines came to `before` without it, and come to `after` with it.
fn told_record<D: Disk>(
    alloc: Global,
    disk: &mut D,
    view: &View,
    before: &Tally,
    after: &Tally,
    told: Shaped,
) -> Result<Record, ViewFault>
    requires shape { view.now.shape ≡ shapes.Log }
    ensures shape { IfOk result (λ r. shape_of r ≡ told) }
    ensures data_bytes { D.tells → IfOk result (λ r. (s : Stream) → data_in s r ≡ piece (text_of view.now (D.view disk.old) (part_of s)) (get_or before.now.data_bytes (event_of s) 0) (told_count s told)) }
    ensures enough { OnOk result (HasData view.now.body after.now told) }
    ensures lacks { D.tells → (part : Part) → IsErrOf result (ViewFault.Damaged part) → LacksIn view.now before.now after.now told (D.view disk.old) part }
    ensures reads { D.tells → OnlyReads (D.view disk.old) (D.view disk.new) }
    ensures fault { IfErr result IsNextFault }
    ensures cause { HasOwnCause (λ file. file.owner ≡ view.now.owner) (IsErrOf result ViewFault.Disk) (D.view disk.old) (D.view disk.new) }
{
    match told {
        Shaped::Io(delay, stream, count) => {
            let bytes = told_data(alloc, disk, view, before, after, stream, count)?;
            Ok(Record::Io {
                delay,
                stream,
                bytes,
            })
        }
        Shaped::Winsize(delay, rows, cols) => Ok(Record::Winsize { delay, rows, cols }),
        Shaped::Suspend(delay, signal) => Ok(Record::Suspend { delay, signal }),
    }
}

/// The next `count` bytes of a stream, after those of the lines before.
fn told_data<D: Disk>(
    alloc: Global,
    disk: &mut D,
    view: &View,
    before: &Tally,
    after: &Tally,
    stream: Stream,
    count: u32,
) -> Result<Bytes, ViewFault>
    requires shape { view.now.shape ≡ shapes.Log }
    ensures count { IfOk result (λ bytes. length bytes ≡ count) }
    ensures data_bytes { D.tells → IfOk result (λ bytes. bytes ≡ piece (text_of view.now (D.view disk.old) (part_of stream)) (get_or before.now.data_bytes (event_of stream) 0) count) }
    ensures enough { OnOk result (get_or after.now.data_bytes (event_of stream) 0 ≤ length_of view.now.body (part_of stream)) }
    ensures lacks { D.tells → (part : Part) → IsErrOf result (ViewFault.Damaged part) → (part ≡ part_of stream)
        × ((length_of view.now.body (part_of stream) < get_or after.now.data_bytes (event_of stream) 0)
        ⊎ (length (piece (text_of view.now (D.view disk.old) (part_of stream)) (get_or before.now.data_bytes (event_of stream) 0) count) < count)) }
    ensures reads { D.tells → OnlyReads (D.view disk.old) (D.view disk.new) }
    ensures fault { IfErr result IsNextFault }
    ensures cause { HasOwnCause (λ file. file.owner ≡ view.now.owner) (IsErrOf result ViewFault.Disk) (D.view disk.old) (D.view disk.new) }
{
    let part = part_of(stream);
    if after.data_bytes(stream) > committed(&view.body, part) {
        return Err(ViewFault::Damaged(part));
    }
    let count = u64::from(count);
    let bytes = read_piece(alloc, disk, view, part, before.data_bytes(stream), count)?;
    if (bytes.as_slice().len() as u64) < count {
        return Err(ViewFault::Damaged(part));
    }
    Ok(bytes)
}

/// The view of a log, and its head.
fn view_log<D: Disk>(alloc: Global, disk: &mut D, number: LogNo) -> Result<(View, Head), ViewFault>
    ensures named { IfOk result (λ seen. IsViewOf number seen.0) }
    ensures entry { D.tells → IfOk result (λ seen. HasEntry (owner_of number) seen.0.body (D.view disk.old).reads) }
    ensures head { D.tells → IfOk result (λ seen. head_of (committed_text number seen.0.body (D.view disk.new) Part.Head) ≡ Ok seen.1) }
    ensures there { D.tells → IfOk result (λ seen. AreThere (owner_of number) seen.0.body (D.view disk.new).reads) }
    ensures absent { D.tells → IsErrOf result ViewFault.Absent → Replays (D.view disk.old).reads number None }
    ensures damaged { D.tells → (part : Part) → IsErrOf result (ViewFault.Damaged part) → IsViewDamage number part (D.view disk.old).reads }
    ensures reads { D.tells → OnlyReads (D.view disk.old) (D.view disk.new) }
    ensures cause { HasOwnCause (IsOfLog number) (IsErrOf result ViewFault.Disk) (D.view disk.old) (D.view disk.new) }
{
    let view = match Bundle::view(disk, owner_of(number), Shape::Log) {
        Ok(Some(view)) => view,
        Ok(None) => return Err(ViewFault::Absent),
        Err(fault) => return Err(fault_of_files(fault)),
    };
    let head = read_log_head(alloc, disk, &view)?;
    Ok((view, head))
}

/// The fault of files that are viewed, as one of the view.
fn fault_of_files(fault: BundleFault) -> ViewFault
    requires { bundles.IsViewFault fault }
    ensures { IsOfFiles fault result }
{
    match fault {
        BundleFault::Disk => ViewFault::Disk,
        BundleFault::Damaged(part) => ViewFault::Damaged(part),
        BundleFault::Broken | BundleFault::Full(_) | BundleFault::NoMem => unreachable!(),
    }
}

/// The lines so far pass neither the count nor the time of the entry.
fn check_within(body: &Body, tally: &Tally) -> Result<(), ViewFault>
    ensures ok { OnOk result (IsWithin body.now tally.now) }
    ensures fault { IfErr result (λ e. (e ≡ ViewFault.Damaged Part.Timing) × (IsWithin body.now tally.now → ⊥)) }
{
    if body.count < tally.count() || body.elapsed < tally.elapsed() {
        return Err(ViewFault::Damaged(Part::Timing));
    }
    Ok(())
}

/// The lines come to what the entry says, for the records and for the bytes of each stream.
fn check_end(body: &Body, tally: &Tally) -> Result<(), ViewFault>
    ensures counts { OnOk result ((body.now.count ≡ tally.now.count) × (body.now.elapsed ≡ tally.now.elapsed)) }
    ensures streams { OnOk result (AllCounted body.now tally.now) }
    ensures fault { IfErr result (IsEndFault body.now tally.now) }
{
    check_counts(body, tally)?;
    check_streams(body, tally)
}

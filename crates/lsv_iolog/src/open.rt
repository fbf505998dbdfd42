ghost use Rattle.std.specs.Prelude.{◌≡◌, ◌≢◌, ◌⊎◌, ◌+◌, ◌<◌, ◌≤◌, ◌^◌, ℕ, List, All, Ok, false, Some, None, [], length, IfOk, IfErr, OnOk, IsErrOf};
ghost use Rattle.lsv_disk.specs.View.{HasCause, HasOwnCause};
ghost use Rattle.lsv_disk.specs.Files.{file_of};
ghost use Rattle.lsv_disk.specs.declared.file.FileId.{FileId};
ghost use Rattle.lsv_bundle.specs.declared.shape.Shape.TheVariants as shapes;
ghost use Rattle.lsv_info.specs.Reading.{head_of};
ghost use Rattle.lsv_record.specs.declared.records.Shaped.{Shaped};
ghost use Rattle.lsv_record.specs.declared.records.Stream.{Stream};
ghost use Rattle.lsv_record.specs.Records.{IsGood};
ghost use Rattle.lsv_record.specs.Tally.{lines_of, told_elapsed};
ghost use Rattle.lsv_disk.specs.Throughout.{Throughout, OnlyReads, WritesOneOf};
ghost use Rattle.lsv_disk.specs.declared.file.Part.{Part};
ghost use Rattle.lsv_bundle.specs.Body.{length_of};
ghost use Rattle.lsv_record.specs.Points.{Stored};
ghost use Rattle.lsv_iolog.specs.declared.fault.LogFault.{LogFault};
ghost use Rattle.lsv_iolog.specs.declared.fault.ViewFault.{ViewFault};
ghost use Rattle.lsv_journal.specs.Last.{LastAt, SameJournal, IsSomeCrashOf, HasSlotsEntry};
ghost use Rattle.lsv_bundle.specs.declared.body.Body.{Body};
ghost use Rattle.lsv_bundle.specs.Represents as bundles;
ghost use Rattle.lsv_bundle.specs.Value.{committed_length};
ghost use Rattle.lsv_bundle.specs.Committed.{HasEntry, IsShort, IsDamaged};
ghost use Rattle.lsv_bundle.specs.Shape.{IsPart, journal_of};
ghost use Rattle.lsv_iolog.specs.Inner.Invariant.{IsSettled};
ghost use Rattle.lsv_iolog.specs.Recovered.{owner_of, part_of, IsOfLog, IsHeadText, IsUnmade, Replays, SameLog};
ghost use Rattle.lsv_iolog.specs.Inner.Scanning.{text_of, entry_of, IsWholeView, IsScanned, ExitIsWhole, IsCounted, AllCounted, IsFirstUncounted};
ghost use Rattle.lsv_iolog.specs.Damage.{IsDamagedAt, IsFault};
ghost use Rattle.lsv_iolog.specs.Value.{bare, IsFlushed};
ghost use Rattle.lsv_iolog.specs.Represents.{Represents};
ghost use Rattle.lsv_iolog.specs.Moments.{IsAsBefore};
ghost use Rattle.lsv_iolog.specs.Faults.{IsOpenFault, IsNextFault};

use crate::append::part_of;
use crate::lines::Lines;
use crate::log::{COMPLETE, owner_of};
use crate::pieces::{committed, read_part};
use crate::{IoLog, LogFault, ViewFault};
use lsv_base::{Bytes, LogNo};
use lsv_bundle::{Body, Bundle, Shape, View};
use lsv_disk::{Disk, FileId, Part};
use lsv_info::{Head, InfoFault, read_head};
use lsv_journal::Journal;
use lsv_record::{Stream, Tally};
use std::alloc::Global;

impl IoLog {
    /// Opens a log: its files are synced, and its head and its timing are read, the timing in pieces of at most 65,536
    /// bytes. No byte of a stream is read. A complete log opens. `Absent` comes exactly if it has no entry; then nothing
    /// was synced or written. `Damaged(part)` comes exactly if its files hold no log. It is the first part at fault: a
    /// file that is absent or shorter than the last entry says, then the head, the exit, the timing, and the streams.
    /// At any answer the log reads as it read before, and at every moment a crash leaves of it what it could leave
    /// before. If none of its files exists, nothing is synced or written. `Disk` comes only if a device call on a file of
    /// this log failed.
    pub fn open<D: Disk>(alloc: Global, disk: &mut D, number: LogNo) -> Result<IoLog, LogFault>
        ensures number { IfOk result (λ log. log.number ≡ number) }
        ensures whole { IfOk result (λ log. log.is_broken ≡ false) }
        ensures flushed { IfOk result IsFlushed }
        ensures found { D.tells → IfOk result (λ log. (stored : Stored) × Replays (D.view disk.old).reads number (Some stored) × Represents log (bare stored) (D.view disk.new)) }
        ensures absent { D.tells → IsErrOf result LogFault.Absent → Replays (D.view disk.old).reads number None × OnlyReads (D.view disk.old) (D.view disk.new) }
        ensures damaged { D.tells → (part : Part) → IsErrOf result (LogFault.Damaged part) → IsDamagedAt number part (D.view disk.old).reads }
        ensures reads { D.tells → SameLog number (D.view disk.old).reads (D.view disk.new).reads }
        ensures any_moment { D.tells → Throughout (IsOfLog number) (IsAsBefore number (D.view disk.old)) (D.view disk.old) (D.view disk.new) }
        ensures unmade { D.tells → IsUnmade number (D.view disk.old) → OnlyReads (D.view disk.old) (D.view disk.new) }
        ensures calls { D.tells → WritesOneOf (journal_of (owner_of number)) 3 5 (IsOfLog number) (D.view disk.old) (D.view disk.new) }
        ensures unwritten { D.tells → HasSlotsEntry 89 (journal_of (owner_of number)) (D.view disk.old).reads → (f : FileId) → (D.view disk.new).writes f ≡ (D.view disk.old).writes f }
        ensures fault { IfErr result IsOpenFault }
        ensures cause { HasOwnCause (IsOfLog number) (IsErrOf result LogFault.Disk) (D.view disk.old) (D.view disk.new) }
    {
        check_entry(disk, number)?;
        let bundle = open_files(alloc, disk, number)?;
        let view = view_of(number, bundle.last());
        let (head, tally) = read_stored(alloc, disk, view)?;
        Ok(IoLog {
            alloc,
            number,
            head,
            count: tally.count(),
            elapsed: tally.elapsed(),
            is_broken: false,
            bundle,
            staged_timing: 0,
            line: Bytes::new(alloc),
        })
    }
}

/// The log has an entry, or it is absent; then nothing was synced or written.
fn check_entry<D: Disk>(disk: &mut D, number: LogNo) -> Result<(), LogFault>
    ensures there { D.tells → OnOk result (LastAt 89 (journal_of (owner_of number)) (D.view disk.old).reads ≢ None) }
    ensures absent { D.tells → IsErrOf result LogFault.Absent → LastAt 89 (journal_of (owner_of number)) (D.view disk.old).reads ≡ None }
    ensures reads { D.tells → OnlyReads (D.view disk.old) (D.view disk.new) }
    ensures fault { IfErr result (λ e. (e ≡ LogFault.Disk) ⊎ (e ≡ LogFault.Absent)) }
    ensures cause { HasOwnCause (IsOfLog number) (IsErrOf result LogFault.Disk) (D.view disk.old) (D.view disk.new) }
{
    let owner = owner_of(number);
    match Journal::<89>::view(disk, FileId::new(owner, Part::Slots)) {
        Ok(Some(_)) => Ok(()),
        Ok(None) => Err(LogFault::Absent),
        Err(_) => Err(LogFault::Disk),
    }
}

/// Opens the files of a log.
fn open_files<D: Disk>(alloc: Global, disk: &mut D, number: LogNo) -> Result<Bundle, LogFault>
    ensures settled { IfOk result (λ b. (body : Body) × IsSettled number body b) }
    ensures last { D.tells → IfOk result (λ b. (body : Body) → b.last ≡ Some body → HasEntry (owner_of number) body (D.view disk.old).reads) }
    ensures enough { D.tells → IfOk result (λ b. (part : Part) → IsPart shapes.Log part → IsShort ((D.view disk.old).reads (file_of (owner_of number) part)) (committed_length b part) → ⊥) }
    ensures represents { D.tells → IfOk result (λ b. bundles.Represents b (D.view disk.new)) }
    ensures absent { D.tells → IsErrOf result LogFault.Absent → LastAt 89 (journal_of (owner_of number)) (D.view disk.old).reads ≡ None }
    ensures damaged { D.tells → (part : Part) → IsErrOf result (LogFault.Damaged part) → IsDamaged (owner_of number) shapes.Log (D.view disk.old).reads part }
    ensures reads { D.tells → SameJournal 89 (journal_of (owner_of number)) (D.view disk.old).reads (D.view disk.new).reads }
    ensures any_moment { D.tells → Throughout (λ g. g ≡ journal_of (owner_of number)) (IsSomeCrashOf 89 (journal_of (owner_of number)) (D.view disk.old)) (D.view disk.old) (D.view disk.new) }
    ensures calls { D.tells → WritesOneOf (journal_of (owner_of number)) 3 5 (IsOfLog number) (D.view disk.old) (D.view disk.new) }
    ensures unwritten { D.tells → HasSlotsEntry 89 (journal_of (owner_of number)) (D.view disk.old).reads → (f : FileId) → (D.view disk.new).writes f ≡ (D.view disk.old).writes f }
    ensures fault { IfErr result IsOpenFault }
    ensures cause { HasOwnCause (IsOfLog number) (IsErrOf result LogFault.Disk) (D.view disk.old) (D.view disk.new) }
{
    let owner = owner_of(number);
    let Some(bundle) = Bundle::open(alloc, disk, owner, Shape::Log)? else {
        return Err(LogFault::Absent);
    };
    Ok(bundle)
}

/// What the files of a log read as, by this entry.
pub(crate) fn view_of(number: LogNo, body: Body) -> View
    ensures { result ≡ record { owner = owner_of number; shape = shapes.Log; body = body } }
{
    View {
        owner: owner_of(number),
        shape: Shape::Log,
        body,
    }
}

/// Reads the head of a log, and what its timing comes to, and judges both and its exit and its streams.
fn read_stored<D: Disk>(alloc: Global, disk: &mut D, view: View) -> Result<(Head, Tally), ViewFault>
    requires shape { view.shape ≡ shapes.Log }
    ensures head { D.tells → IfOk result (λ read. head_of (text_of view (D.view disk.old) Part.Head) ≡ Ok read.0) }
    ensures exit { OnOk result (ExitIsWhole view.body) }
    ensures told { D.tells → IfOk result (λ read. IsWholeView view (D.view disk.old) → (told : List Shaped) × IsScanned view (D.view disk.old) told read.1) }
    ensures counts { IfOk result (λ read. (view.body.count ≡ read.1.count) × (view.body.elapsed ≡ read.1.elapsed)) }
    ensures streams { IfOk result (λ read. AllCounted view.body read.1) }
    ensures timing { IfOk result (λ read. read.1.timing ≡ length_of view.body Part.Timing) }
    ensures small { OnOk result (length_of view.body Part.Timing ≤ 2 ^ 40) }
    ensures damaged { D.tells → (part : Part) → IsErrOf result (ViewFault.Damaged part) → IsWholeView view (D.view disk.old) → IsFault (entry_of view (D.view disk.old)) part }
    ensures reads { D.tells → OnlyReads (D.view disk.old) (D.view disk.new) }
    ensures fault { IfErr result IsNextFault }
    ensures cause { HasOwnCause (λ f. f.owner ≡ view.owner) (IsErrOf result ViewFault.Disk) (D.view disk.old) (D.view disk.new) }
{
    let head = read_log_head(alloc, disk, &view)?;
    check_exit(&view.body)?;
    let tally = read_timing(alloc, disk, view)?;
    check_counts(&view.body, &tally)?;
    check_streams(&view.body, &tally)?;
    Ok((head, tally))
}

/// The head of a log, by its committed text.
pub(crate) fn read_log_head<D: Disk>(
    alloc: Global,
    disk: &mut D,
    view: &View,
) -> Result<Head, ViewFault>
    requires shape { view.now.shape ≡ shapes.Log }
    ensures head { D.tells → IfOk result (λ head. head_of (text_of view.now (D.view disk.old) Part.Head) ≡ Ok head) }
    ensures damaged { D.tells → IsErrOf result (ViewFault.Damaged Part.Head) → IsHeadText (text_of view.now (D.view disk.old) Part.Head) → ⊥ }
    ensures reads { D.tells → OnlyReads (D.view disk.old) (D.view disk.new) }
    ensures fault { IfErr result (λ e. (e ≡ ViewFault.Disk) ⊎ (e ≡ ViewFault.Damaged Part.Head) ⊎ (e ≡ ViewFault.NoMem)) }
    ensures cause { HasCause (file_of view.now.owner Part.Head) (IsErrOf result ViewFault.Disk) (D.view disk.old) (D.view disk.new) }
{
    let text = read_part(alloc, disk, view, Part::Head)?;
    match read_head(alloc, text.as_slice()) {
        Ok(head) => Ok(head),
        Err(InfoFault::NoMem) => Err(ViewFault::NoMem),
        Err(_) => Err(ViewFault::Damaged(Part::Head)),
    }
}

/// There is a text of an exit exactly if the entry is of a complete log.
fn check_exit(body: &Body) -> Result<(), ViewFault>
    ensures whole { OnOk result (ExitIsWhole body.now) }
    ensures fault { IfErr result (λ e. (e ≡ ViewFault.Damaged Part.Exit) × (ExitIsWhole body.now → ⊥)) }
{
    let is_empty = committed(body, Part::Exit) == 0;
    if body.kind == COMPLETE {
        if is_empty {
            return Err(ViewFault::Damaged(Part::Exit));
        }
        return Ok(());
    }
    if is_empty {
        return Ok(());
    }
    Err(ViewFault::Damaged(Part::Exit))
}

/// What all lines of the timing come to.
fn read_timing<D: Disk>(alloc: Global, disk: &mut D, view: View) -> Result<Tally, ViewFault>
    requires shape { view.shape ≡ shapes.Log }
    ensures told { D.tells → IfOk result (λ tally. length (text_of view (D.view disk.old) Part.Timing) ≡ length_of view.body Part.Timing → (told : List Shaped) × IsScanned view (D.view disk.old) told tally) }
    ensures timing { IfOk result (λ tally. tally.timing ≡ length_of view.body Part.Timing) }
    ensures small { OnOk result (length_of view.body Part.Timing ≤ 2 ^ 40) }
    ensures damaged { D.tells → IsErrOf result (ViewFault.Damaged Part.Timing) → length (text_of view (D.view disk.old) Part.Timing) ≡ length_of view.body Part.Timing
        → (told : List Shaped) → All IsGood told → text_of view (D.view disk.old) Part.Timing ≡ lines_of told → told_elapsed told < 2 ^ 63 → length (text_of view (D.view disk.old) Part.Timing) ≤ 2 ^ 40 → ⊥ }
    ensures reads { D.tells → OnlyReads (D.view disk.old) (D.view disk.new) }
    ensures fault { IfErr result (λ e. (e ≡ ViewFault.Disk) ⊎ (e ≡ ViewFault.Damaged Part.Timing) ⊎ (e ≡ ViewFault.NoMem)) }
    ensures cause { HasCause (file_of view.owner Part.Timing) (IsErrOf result ViewFault.Disk) (D.view disk.old) (D.view disk.new) }
{
    let mut lines = Lines::new(alloc, view);
    while let Some(_) = lines.next(alloc, disk)? {}
    Ok(lines.tally())
}

/// The count and the time of the lines are those of the entry.
pub(crate) fn check_counts(body: &Body, tally: &Tally) -> Result<(), ViewFault>
    ensures ok { OnOk result ((body.now.count ≡ tally.now.count) × (body.now.elapsed ≡ tally.now.elapsed)) }
    ensures fault { IfErr result (λ e. (e ≡ ViewFault.Damaged Part.Timing) × ((body.now.count ≡ tally.now.count) → (body.now.elapsed ≡ tally.now.elapsed) → ⊥)) }
{
    if body.count != tally.count() {
        return Err(ViewFault::Damaged(Part::Timing));
    }
    if body.elapsed != tally.elapsed() {
        return Err(ViewFault::Damaged(Part::Timing));
    }
    Ok(())
}

/// Each stream has as many committed bytes as the lines say; else the first that has not is damaged.
pub(crate) fn check_streams(body: &Body, tally: &Tally) -> Result<(), ViewFault>
    ensures ok { OnOk result (AllCounted body.now tally.now) }
    ensures fault { IfErr result (λ e. (s : Stream) × (e ≡ ViewFault.Damaged (part_of s)) × IsFirstUncounted body.now tally.now s) }
{
    check_stream(body, tally, Stream::Stdin)?;
    check_stream(body, tally, Stream::Stdout)?;
    check_stream(body, tally, Stream::Stderr)?;
    check_stream(body, tally, Stream::Ttyin)?;
    check_stream(body, tally, Stream::Ttyout)
}

fn check_stream(body: &Body, tally: &Tally, stream: Stream) -> Result<(), ViewFault>
    ensures ok { OnOk result (IsCounted body.now tally.now stream) }
    ensures fault { IfErr result (λ e. (e ≡ ViewFault.Damaged (part_of stream)) × (IsCounted body.now tally.now stream → ⊥)) }
{
    let part = part_of(stream);
    if committed(body, part) != tally.data_bytes(stream) {
        return Err(ViewFault::Damaged(part));
    }
    Ok(())
}

//! The event log of a lane is read, also while a server writes it.
ghost use Rattle.std.specs.Prelude.{◌≡◌, ◌≤◌, Err, None, IfErr, IfOk, IsErr};
ghost use Rattle.lsv_bundle.specs.Body.{length_of};
ghost use Rattle.lsv_bundle.specs.Committed.{HasEntry, IsShort};
ghost use Rattle.lsv_bundle.specs.Shape.{journal_of};
ghost use Rattle.lsv_bundle.specs.declared.shape.Shape.TheVariants as shapes;
ghost use Rattle.lsv_disk.specs.Files.{file_of};
ghost use Rattle.lsv_disk.specs.Throughout.{OnlyReads};
ghost use Rattle.lsv_disk.specs.View.{HasOwnCause};
ghost use Rattle.lsv_disk.specs.declared.file.Owner.TheVariants.{Events};
ghost use Rattle.lsv_disk.specs.declared.file.Part.{Part};
ghost use Rattle.lsv_eventlog.specs.Recovered.{IsOfEventLog};
ghost use Rattle.lsv_journal.specs.Last.{LastAt};
ghost use Rattle.lsv_tally.specs.Tallies.{IsTally, RunsTo, lines_at};
ghost use Rattle.lsv_tally.specs.declared.tally.TallyFault.TheVariants as faults;

use crate::reading::{Ending, Reading};
use crate::tally::{Tally, TallyFault};
use lsv_bundle::{Bundle, BundleFault, Shape, View};
use lsv_disk::{Disk, FileId, Owner, Part};
use lsv_journal::Journal;
use std::alloc::Global;

/// How often an event log that changes is looked at anew.
const LOOKS: u32 = 20;

/// How many bytes are read at once.
const BLOCK: usize = 16_384;

/// What is found of the event log of a lane, as its files read. It holds one line at a time. A server may write it meanwhile:
/// one that isn't sound is looked at again, until its entry is the same before and after a look, at most 20 times. `Disk`
/// comes only if a device call on a file of it failed.
pub(crate) fn tally<D: Disk>(alloc: Global, disk: &mut D, lane: u32) -> Result<Tally, TallyFault>
    ensures found { D.tells → IfOk result (IsTally (D.view disk.old).reads lane) }
    ensures reads { D.tells → OnlyReads (D.view disk.old) (D.view disk.new) }
    ensures cause { HasOwnCause (IsOfEventLog lane) (result ≡ Err faults.Disk) (D.view disk.old) (D.view disk.new) }
{
    let found = look(alloc, disk, lane)?;
    if is_sound(found) {
        return Ok(found);
    }
    look_again(alloc, disk, lane)
}

/// Whether an event log is sound.
fn is_sound(found: Tally) -> bool {
    matches!(found, Tally::Sound { .. })
}

/// Looks at an event log that isn't sound.
fn look_again<D: Disk>(alloc: Global, disk: &mut D, lane: u32) -> Result<Tally, TallyFault>
    ensures found { D.tells → IfOk result (IsTally (D.view disk.old).reads lane) }
    ensures reads { D.tells → OnlyReads (D.view disk.old) (D.view disk.new) }
    ensures cause { HasOwnCause (IsOfEventLog lane) (result ≡ Err faults.Disk) (D.view disk.old) (D.view disk.new) }
{
    'looks: for _ in 0..LOOKS {
        let before = last_entry(disk, lane)?;
        let found = look(alloc, disk, lane)?;
        let after = last_entry(disk, lane)?;
        if is_sound(found) || after == before {
            return Ok(found);
        }
    }
    look(alloc, disk, lane)
}

/// The bytes of the last entry of an event log's journal, if it has one.
fn last_entry<D: Disk>(disk: &mut D, lane: u32) -> Result<Option<[u8; 89]>, TallyFault>
    ensures reads { D.tells → OnlyReads (D.view disk.old) (D.view disk.new) }
    ensures fault { IfErr result (λ e. e ≡ faults.Disk) }
    ensures cause { HasOwnCause (IsOfEventLog lane) (IsErr result) (D.view disk.old) (D.view disk.new) }
{
    match Journal::<89>::view(disk, FileId::new(Owner::Events(lane), Part::Slots)) {
        Ok(entry) => Ok(entry),
        Err(_) => Err(TallyFault::Disk),
    }
}

/// Reads an event log from its entry to its end.
fn look<D: Disk>(alloc: Global, disk: &mut D, lane: u32) -> Result<Tally, TallyFault>
    ensures found { D.tells → IfOk result (IsTally (D.view disk.old).reads lane) }
    ensures reads { D.tells → OnlyReads (D.view disk.old) (D.view disk.new) }
    ensures cause { HasOwnCause (IsOfEventLog lane) (result ≡ Err faults.Disk) (D.view disk.old) (D.view disk.new) }
{
    match Bundle::view(disk, Owner::Events(lane), Shape::Lines) {
        Ok(Some(view)) => look_within(alloc, disk, lane, &view),
        Ok(None) => look_for_bytes(disk, lane),
        Err(BundleFault::Disk) => Err(TallyFault::Disk),
        Err(BundleFault::Damaged(_)) => Ok(Tally::Short),
        Err(BundleFault::Broken | BundleFault::Full(_) | BundleFault::NoMem) => unreachable!(),
    }
}

/// Looks at the file of an event log without an entry.
fn look_for_bytes<D: Disk>(disk: &mut D, lane: u32) -> Result<Tally, TallyFault>
    ensures found { D.tells → LastAt 89 (journal_of (Events lane)) (D.view disk.old).reads ≡ None → IfOk result (IsTally (D.view disk.old).reads lane) }
    ensures reads { D.tells → OnlyReads (D.view disk.old) (D.view disk.new) }
    ensures cause { HasOwnCause (IsOfEventLog lane) (result ≡ Err faults.Disk) (D.view disk.old) (D.view disk.new) }
{
    match disk.length(FileId::new(Owner::Events(lane), Part::Lines)) {
        Ok(Some(length)) if length > 0 => Ok(Tally::Unlisted),
        Ok(_) => Ok(Tally::Nowhere),
        Err(_) => Err(TallyFault::Disk),
    }
}

/// What the committed bytes of an event log come to.
#[derive(Clone, Copy, Debug, PartialEq, Eq)]
pub(crate) struct Run {
    /// How many lines stand at their start, each an event.
    pub lines: u64,
    /// What comes after them. None if the file ended early, as if somebody removes it.
    pub ending: Option<Ending>,
}

/// Reads the lines of an event log whose files are there.
fn look_within<D: Disk>(
    alloc: Global,
    disk: &mut D,
    lane: u32,
    view: &View,
) -> Result<Tally, TallyFault>
    requires owner { (view.now.owner ≡ Events lane) × (view.now.shape ≡ shapes.Lines) }
    ensures found { D.tells → HasEntry (Events lane) view.now.body (D.view disk.old).reads → (IsShort ((D.view disk.old).reads (file_of (Events lane) Part.Lines)) (length_of view.now.body Part.Lines) → ⊥)
        → IfOk result (IsTally (D.view disk.old).reads lane) }
    ensures reads { D.tells → OnlyReads (D.view disk.old) (D.view disk.new) }
    ensures cause { HasOwnCause (IsOfEventLog lane) (result ≡ Err faults.Disk) (D.view disk.old) (D.view disk.new) }
{
    let body = view.body();
    let [bytes, ..] = body.lens;
    let run = read_lines(alloc, disk, view, bytes)?;
    let lines = run.lines;
    Ok(match run.ending {
        Some(Ending::Whole) if lines == body.count => Tally::Sound { lines, bytes },
        Some(Ending::Whole) => Tally::Miscounted {
            lines,
            counted: body.count,
        },
        Some(Ending::Torn) => Tally::Torn { lines },
        Some(Ending::Bad) => Tally::Bad { lines },
        None => Tally::Short,
    })
}

/// Reads the committed bytes of an event log, to their end or to a line that is no event.
fn read_lines<D: Disk>(
    alloc: Global,
    disk: &mut D,
    view: &View,
    length: u64,
) -> Result<Run, TallyFault>
    requires shape { view.now.shape ≡ shapes.Lines }
    requires length { length ≡ length_of view.now.body Part.Lines }
    ensures runs { D.tells → (IsShort ((D.view disk.old).reads (file_of view.now.owner Part.Lines)) (length_of view.now.body Part.Lines) → ⊥)
        → IfOk result (RunsTo (lines_at view.now.owner view.now.body (D.view disk.old).reads)) }
    ensures reads { D.tells → OnlyReads (D.view disk.old) (D.view disk.new) }
    ensures cause { HasOwnCause (λ g. g ≡ file_of view.now.owner Part.Lines) (result ≡ Err faults.Disk) (D.view disk.old) (D.view disk.new) }
{
    let mut reading = Reading::new(alloc);
    let mut at = 0u64;
    'blocks: while at < length {
        let mut block = [0; BLOCK];
        let room = (length - at).min(BLOCK as u64) as usize;
        let count = match view.read(disk, Part::Lines, at, &mut block[..room]) {
            Ok(count) => count,
            Err(_) => return Err(TallyFault::Disk),
        };
        if count == 0 {
            return Ok(Run {
                lines: reading.lines,
                ending: None,
            });
        }
        if !reading.take(alloc, &block[..count])? {
            return Ok(Run {
                lines: reading.lines,
                ending: Some(Ending::Bad),
            });
        }
        at += count as u64;
    }
    Ok(Run {
        lines: reading.lines,
        ending: Some(reading.ending()),
    })
}

//! One look at a log.
ghost use Rattle.std.specs.Prelude.{◌≡◌, ◌↔◌, ℕ, true, [], Option, None, Err, IfOk, IsErr, List};
ghost use Rattle.lsv_disk.specs.Throughout.{OnlyReads};
ghost use Rattle.lsv_disk.specs.View.{HasOwnCause};
ghost use Rattle.lsv_disk.specs.declared.file.Part.{Part};
ghost use Rattle.lsv_iolog.specs.Recovered.{HasExit, IsOfLog, Replays};
ghost use Rattle.lsv_iolog.specs.Reading.{IsBehind, IsSoundBehind};
ghost use Rattle.lsv_play.specs.Playing.{AreAll, IsOpened, laid_at, text_at};
ghost use Rattle.lsv_record.specs.declared.records.Record.{Record};
ghost use Rattle.lsv_finding.specs.Checked.{IsFoundAs};
ghost use Rattle.lsv_finding.specs.Findings.{HasExitLength, ReadsExit, first_with_bytes, has_bytes};
ghost use Rattle.lsv_finding.specs.declared.checked.CheckFault.TheVariants as faults;

use crate::records::read_records;
use crate::{CheckFault, Checked};
use lsv_base::LogNo;
use lsv_bundle::Body;
use lsv_disk::{Disk, DiskFault, FileId, Owner, Part};
use lsv_info::Exit;
use lsv_iolog::{LogView, ViewFault};
use std::alloc::Global;

/// The files of a log's content: all but the head and the journal.
const CONTENT: [Part; 7] = [
    Part::Exit,
    Part::Timing,
    Part::Stdin,
    Part::Stdout,
    Part::Stderr,
    Part::Ttyin,
    Part::Ttyout,
];

/// The kind of the last entry of a complete log.
pub(crate) const COMPLETE: u8 = 3;

/// Reads a log from its entry to its exit.
pub(crate) fn look<D: Disk>(
    alloc: Global,
    disk: &mut D,
    number: LogNo,
) -> Result<Checked, CheckFault>
    ensures found { D.tells → IfOk result (IsFoundAs (D.view disk.old).reads number) }
    ensures reads { D.tells → OnlyReads (D.view disk.old) (D.view disk.new) }
    ensures cause { HasOwnCause (IsOfLog number) (result ≡ Err faults.Disk) (D.view disk.old) (D.view disk.new) }
{
    match LogView::open(alloc, disk, number) {
        Ok(log) => look_within(disk, log),
        Err(ViewFault::Absent) => look_for_bytes(disk, number),
        Err(ViewFault::Damaged(part)) => Ok(Checked::Closed(part)),
        Err(ViewFault::Disk) => Err(CheckFault::Disk),
        Err(ViewFault::NoMem) => Err(CheckFault::NoMem),
    }
}

/// Looks at the files of the content of a log without an entry.
fn look_for_bytes<D: Disk>(disk: &mut D, number: LogNo) -> Result<Checked, CheckFault>
    ensures found { D.tells → Replays (D.view disk.old).reads number None → IfOk result (IsFoundAs (D.view disk.old).reads number) }
    ensures reads { D.tells → OnlyReads (D.view disk.old) (D.view disk.new) }
    ensures cause { HasOwnCause (IsOfLog number) (result ≡ Err faults.Disk) (D.view disk.old) (D.view disk.new) }
{
    match first_with_bytes(disk, number, &CONTENT)? {
        None => Ok(Checked::Nowhere),
        Some(part) => Ok(Checked::Unlisted(part)),
    }
}

/// The first of these files of a log that has bytes.
fn first_with_bytes<D: Disk>(
    disk: &mut D,
    number: LogNo,
    parts: &[Part],
) -> Result<Option<Part>, DiskFault>
    ensures found { D.tells → IfOk result (λ o. o ≡ first_with_bytes (D.view disk.old).reads number parts.now) }
    ensures reads { D.tells → OnlyReads (D.view disk.old) (D.view disk.new) }
    ensures cause { HasOwnCause (IsOfLog number) (IsErr result) (D.view disk.old) (D.view disk.new) }
{
    let [first, rest @ ..] = parts else {
        return Ok(None);
    };
    if has_bytes(disk, number, *first)? {
        return Ok(Some(*first));
    }
    first_with_bytes(disk, number, rest)
}

/// Whether this file of a log has bytes.
fn has_bytes<D: Disk>(disk: &mut D, number: LogNo, part: Part) -> Result<bool, DiskFault>
    ensures found { D.tells → IfOk result (λ b. b ≡ has_bytes (D.view disk.old).reads number part) }
    ensures reads { D.tells → OnlyReads (D.view disk.old) (D.view disk.new) }
    ensures cause { HasOwnCause (IsOfLog number) (IsErr result) (D.view disk.old) (D.view disk.new) }
{
    match disk.length(FileId::new(Owner::Log(number.get()), part))? {
        Some(length) => Ok(0 < length),
        None => Ok(false),
    }
}

/// Reads the records and the exit of a log that was just opened.
fn look_within<D: Disk>(disk: &mut D, mut log: LogView) -> Result<Checked, CheckFault>
    ensures found { D.tells → IsBehind log [] (D.view disk.old) → IsOpened log.number log.body log.head (D.view disk.old).reads → IfOk result (IsFoundAs (D.view disk.old).reads log.number) }
    ensures reads { D.tells → OnlyReads (D.view disk.old) (D.view disk.new) }
    ensures cause { HasOwnCause (IsOfLog log.number) (result ≡ Err faults.Disk) (D.view disk.old) (D.view disk.new) }
{
    let body = log.body();
    if !is_exit_fit(&body) {
        return Ok(Checked::Broken {
            head: log.into_head(),
            body,
            count: 0,
            elapsed: 0,
            part: Part::Exit,
        });
    }
    let run = read_records(disk, &mut log)?;
    match run.part {
        None => look_at_end(disk, log),
        Some(part) => Ok(Checked::Broken {
            head: log.into_head(),
            body,
            count: run.count,
            elapsed: run.elapsed,
            part,
        }),
    }
}

/// Whether a text of an exit is committed exactly if the last entry is that of a complete log.
fn is_exit_fit(body: &Body) -> bool
    ensures { (result ≡ true) ↔ HasExitLength body.now }
{
    let [_, exit, ..] = body.lens;
    (body.kind == COMPLETE) == (exit != 0)
}

/// Reads the exit of a log whose records were all read.
fn look_at_end<D: Disk>(disk: &mut D, mut log: LogView) -> Result<Checked, CheckFault>
    ensures found { D.tells → IsOpened log.number log.body log.head (D.view disk.old).reads → HasExitLength log.body → (records : List Record) → AreAll (laid_at log.number log.body (D.view disk.old).reads) log.body records
        → IsSoundBehind (laid_at log.number log.body (D.view disk.old).reads) log.body records → IfOk result (IsFoundAs (D.view disk.old).reads log.number) }
    ensures reads { D.tells → OnlyReads (D.view disk.old) (D.view disk.new) }
    ensures cause { HasOwnCause (IsOfLog log.number) (result ≡ Err faults.Disk) (D.view disk.old) (D.view disk.new) }
{
    let exit = read_exit(disk, &mut log)?;
    let body = log.body();
    Ok(Checked::Sound {
        head: log.into_head(),
        body,
        exit,
    })
}

/// How the command ended, if the log is complete and its exit reads.
fn read_exit<D: Disk>(disk: &mut D, log: &mut LogView) -> Result<Option<Exit>, CheckFault>
    ensures exit { D.tells → IfOk result (λ o. (text : Option (List ℕ)) → HasExit log.old.body.kind (text_at log.old.number log.old.body (D.view disk.old).reads Part.Exit) text → ReadsExit text o) }
    ensures same { log.new ≡ log.old }
    ensures reads { D.tells → OnlyReads (D.view disk.old) (D.view disk.new) }
    ensures cause { HasOwnCause (IsOfLog log.old.number) (result ≡ Err faults.Disk) (D.view disk.old) (D.view disk.new) }
{
    match log.exit(disk) {
        Ok(exit) => Ok(exit),
        Err(ViewFault::Damaged(_)) => Ok(None),
        Err(ViewFault::NoMem) => Err(CheckFault::NoMem),
        Err(ViewFault::Disk) => Err(CheckFault::Disk),
        Err(ViewFault::Absent) => unreachable!(),
    }
}

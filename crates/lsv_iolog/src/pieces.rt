//! Committed bytes of a log's files.
ghost use Rattle.std.specs.Prelude.{◌≡◌, ◌⊎◌, ◌≤◌, length, IfOk, IfErr, IsErrOf};
ghost use Rattle.lsv_defs.specs.Pieces.{piece};
ghost use Rattle.lsv_disk.specs.Files.{file_of};
ghost use Rattle.lsv_disk.specs.View.{HasCause};
ghost use Rattle.lsv_disk.specs.Throughout.{OnlyReads};
ghost use Rattle.lsv_bundle.specs.Body.{length_of};
ghost use Rattle.lsv_bundle.specs.Shape.{IsPart};
ghost use Rattle.lsv_iolog.specs.declared.fault.ViewFault.{ViewFault};
ghost use Rattle.lsv_iolog.specs.Inner.Scanning.{text_of};

use crate::ViewFault;
use lsv_base::Bytes;
use lsv_bundle::{Body, View};
use lsv_disk::{Disk, Part};
use std::alloc::Global;

/// The committed bytes of a part from an offset on, at most `most`.
pub(crate) fn read_piece<D: Disk>(
    alloc: Global,
    disk: &mut D,
    view: &View,
    part: Part,
    at: u64,
    most: u64,
) -> Result<Bytes, ViewFault>
    requires part { IsPart view.now.shape part }
    ensures bytes { D.tells → IfOk result (λ bytes. bytes ≡ piece (text_of view.now (D.view disk.old) part) at most) }
    ensures within { IfOk result (λ bytes. length bytes ≤ most) }
    ensures reads { D.tells → OnlyReads (D.view disk.old) (D.view disk.new) }
    ensures fault { IfErr result (λ e. (e ≡ ViewFault.Disk) ⊎ (e ≡ ViewFault.NoMem)) }
    ensures cause { HasCause (file_of view.now.owner part) (IsErrOf result ViewFault.Disk) (D.view disk.old) (D.view disk.new) }
{
    let mut bytes = vec![in alloc; 0; most as usize]?;
    let Ok(count) = view.read(disk, part, at, &mut bytes) else {
        return Err(ViewFault::Disk);
    };
    bytes.truncate(count);
    Ok(Bytes::from_vec(bytes))
}

/// All committed bytes of a part.
pub(crate) fn read_part<D: Disk>(
    alloc: Global,
    disk: &mut D,
    view: &View,
    part: Part,
) -> Result<Bytes, ViewFault>
    requires part { IsPart view.now.shape part }
    ensures bytes { D.tells → IfOk result (λ bytes. bytes ≡ text_of view.now (D.view disk.old) part) }
    ensures reads { D.tells → OnlyReads (D.view disk.old) (D.view disk.new) }
    ensures fault { IfErr result (λ e. (e ≡ ViewFault.Disk) ⊎ (e ≡ ViewFault.NoMem)) }
    ensures cause { HasCause (file_of view.now.owner part) (IsErrOf result ViewFault.Disk) (D.view disk.old) (D.view disk.new) }
{
    read_piece(alloc, disk, view, part, 0, committed(&view.body, part))
}

/// The count of committed bytes of a part.
pub(crate) fn committed(body: &Body, part: Part) -> u64
    ensures { result ≡ length_of body.now part }
{
    let [head, exit, timing, stdin, stdout, stderr, ttyin, ttyout] = body.lens;
    match part {
        Part::Exit => exit,
        Part::Timing => timing,
        Part::Stdin => stdin,
        Part::Stdout => stdout,
        Part::Stderr => stderr,
        Part::Ttyin => ttyin,
        Part::Ttyout => ttyout,
        Part::Head | Part::Lines | Part::Id | Part::Commit | Part::Slots => head,
    }
}

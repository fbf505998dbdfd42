//! Whether a log that is sent was cut.
ghost use Rattle.std.specs.Prelude.{◌≡◌, IfErr, OnOk, Err};
ghost use Rattle.lsv_disk.specs.Throughout.{OnlyReads};
ghost use Rattle.lsv_disk.specs.View.{HasOwnCause};
ghost use Rattle.lsv_iolog.specs.Faults.{IsNextFault};
ghost use Rattle.lsv_iolog.specs.Reading.{HasCuts};
ghost use Rattle.lsv_iolog.specs.Recovered.{IsOfLog};
ghost use Rattle.lsv_iolog.specs.declared.fault.ViewFault.{ViewFault};
ghost use Rattle.lsv_iolog.specs.declared.fault.ViewFault.TheVariants as views;

use lsv_disk::{Disk, Part};
use lsv_iolog::{LogView, Renewed, ViewFault};

/// Looks at the log again. If it was cut since it was opened, or has no entry any more, its part `Slots` is at fault: no
/// other fault of a log that is read names this part. `Disk` comes only if a device call on a file of it failed.
pub fn check_uncut<D: Disk>(disk: &mut D, log: &LogView) -> Result<(), ViewFault>
    ensures uncut { D.tells → HasCuts log.now.number log.now.body.extra (D.view disk.old).reads → IfErr result (λ e. e ≡ ViewFault.Disk) }
    ensures same { D.tells → OnOk result (HasCuts log.now.number log.now.body.extra (D.view disk.old).reads) }
    ensures reads { D.tells → OnlyReads (D.view disk.old) (D.view disk.new) }
    ensures fault { IfErr result IsNextFault }
    ensures cause { HasOwnCause (IsOfLog log.now.number) (result ≡ Err views.Disk) (D.view disk.old) (D.view disk.new) }
{
    match log.look(disk) {
        Ok(Renewed::Same) => Ok(()),
        Ok(Renewed::Cut(_)) => Err(ViewFault::Damaged(Part::Slots)),
        Err(ViewFault::Disk) => Err(ViewFault::Disk),
        Err(_) => Err(ViewFault::Damaged(Part::Slots)),
    }
}

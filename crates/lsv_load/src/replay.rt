//! The logs of a load are read and summed up.

ghost use Rattle.std.specs.Prelude.{◌≡◌, List, IfOk, IfErr};
ghost use Rattle.lsv_disk.specs.Throughout.{OnlyReads};
ghost use Rattle.lsv_gen.specs.Summary.{totals_of};
ghost use Rattle.lsv_record.specs.Points.{Stored};
ghost use Rattle.lsv_load.specs.Faults.{HasReplayCause, fault_of};
ghost use Rattle.lsv_load.specs.Replayed.{AreReplayed};

use crate::logs::add_log;
use lsv_base::LogNo;
use lsv_disk::{Disk, FileId, Owner, Part};
use lsv_gen::Totals;
use lsv_iolog::ViewFault;
use lsv_keeper::StoreFault;
use std::alloc::Global;

/// The fault of the log of this number, which isn't replayed, as one of its store.
fn fault_of(number: LogNo, fault: ViewFault) -> StoreFault
    ensures { result ≡ fault_of number fault }
{
    let owner = Owner::Log(number.get());
    match fault {
        ViewFault::Absent => StoreFault::Damaged(FileId::new(owner, Part::Slots)),
        ViewFault::Damaged(part) => StoreFault::Damaged(FileId::new(owner, part)),
        ViewFault::Disk => StoreFault::Device(owner),
        ViewFault::NoMem => StoreFault::NoMem,
    }
}

/// Sums up the logs of these numbers, as their files read. Each is read record by record, and nothing is written.
pub(crate) fn sum_up<D: Disk>(
    alloc: Global,
    disk: &mut D,
    numbers: &[LogNo],
) -> Result<Totals, StoreFault>
    ensures sums { D.tells → IfOk result (λ totals. (logs : List Stored) × AreReplayed (D.view disk.new).reads numbers.now logs × (totals ≡ totals_of logs)) }
    ensures cause { IfErr result (HasReplayCause D.tells numbers.now (D.view disk.old) (D.view disk.new)) }
    ensures reads { D.tells → OnlyReads (D.view disk.old) (D.view disk.new) }
{
    let mut totals = Totals::new();
    for number in numbers {
        if let Err(fault) = add_log(alloc, disk, *number, &mut totals) {
            return Err(fault_of(*number, fault));
        }
    }
    Ok(totals)
}

//! The relaying of a log is opened: the log first, and then what is kept.
ghost use Rattle.std.specs.Prelude.{◌≡◌, ◌≢◌, ◌⊎◌, true, false, [], None, Err, IfOk, IfErr, IsErrOf};
ghost use Rattle.lsv_bundle.specs.Calls as bundles;
ghost use Rattle.lsv_bundle.specs.declared.fault.BundleFault.{BundleFault};
ghost use Rattle.lsv_disk.specs.Throughout.{OnlyReads, Throughout};
ghost use Rattle.lsv_disk.specs.View.{HasOwnCause};
ghost use Rattle.lsv_disk.specs.declared.file.Part.{Part};
ghost use Rattle.lsv_iolog.specs.Damage.{IsViewDamage};
ghost use Rattle.lsv_iolog.specs.Recovered as logs;
ghost use Rattle.lsv_iolog.specs.declared.fault.ViewFault.{ViewFault};
ghost use Rattle.lsv_kept.specs.Aim.{AimView};
ghost use Rattle.lsv_kept.specs.Kept.{IsAsBefore, IsOfRelay, IsStateDamage, Keeps};
ghost use Rattle.lsv_kept.specs.Value as kept;
ghost use Rattle.lsv_kept.specs.declared.state.State.{State};
ghost use Rattle.lsv_kept.specs.declared.state.State.TheVariants as states;
ghost use Rattle.lsv_relay.specs.Complete.{IsComplete, IsIncomplete, IsReadable, IsRelayed, IsTimed};
ghost use Rattle.lsv_relay.specs.Faults.{IsLogFault, IsOpenCause, IsOpenFault, IsUndoneCause};
ghost use Rattle.lsv_relay.specs.Inner.{IsOpenedAs, first_place};
ghost use Rattle.lsv_relay.specs.Talks.{HasLog, Stands};
ghost use Rattle.lsv_relay.specs.Value.{aim_of, state_of};
ghost use Rattle.lsv_relay.specs.declared.fault.RelayFault.{RelayFault};

use crate::relay::{Core, Meter, Place};
use crate::{Relay, RelayFault};
use lsv_base::LogNo;
use lsv_bundle::{Body, BundleFault};
use lsv_disk::{Disk, FileId, Owner, Part};
use lsv_iolog::{LogView, ViewFault};
use lsv_journal::Journal;
use lsv_kept::{Aim, Keeping, is_marked_at};
use std::alloc::Global;

/// The kind of the last entry of a complete log.
const COMPLETE: u8 = 3;

/// Whether a complete log is marked as relayed, whatever the host. Nothing is synced or written. The faults are those of
/// `Relay::open`.
pub fn is_relayed<D: Disk>(disk: &mut D, number: LogNo) -> Result<bool, RelayFault>
    ensures relayed { D.tells → IfOk result (λ b. b ≡ true → IsRelayed number (D.view disk.old).reads) }
    ensures unmarked { D.tells → IfOk result (λ b. b ≡ false → IsComplete number (D.view disk.old).reads × (IsRelayed number (D.view disk.old).reads → ⊥)) }
    ensures why { D.tells → IfErr result (IsOpenCause number (D.view disk.old).reads) }
    ensures reads { D.tells → OnlyReads (D.view disk.old) (D.view disk.new) }
    ensures fault { IfErr result IsOpenFault }
    ensures log { HasOwnCause (logs.IsOfLog number) (IsErrOf result (RelayFault.Log ViewFault.Disk)) (D.view disk.old) (D.view disk.new) }
    ensures state { HasOwnCause (IsOfRelay number) (IsErrOf result (RelayFault.State BundleFault.Disk)) (D.view disk.old) (D.view disk.new) }
{
    let total = check_complete(disk, number)?;
    Ok(is_marked_at(disk, number, total)?)
}

/// Opens the relaying of a complete log that isn't marked as relayed.
pub(crate) fn open_undone<D: Disk>(
    alloc: Global,
    disk: &mut D,
    number: LogNo,
    host: &str,
) -> Result<Relay, RelayFault>
    ensures opened { IfOk result (IsOpenedAs number host.now) }
    ensures stands { D.tells → IfOk result (λ r. Stands r (D.view disk.new)) }
    ensures kept { D.tells → IfOk result (λ r. Keeps number (aim_of r) (D.view disk.old).reads (state_of r) × Keeps number (aim_of r) (D.view disk.new).reads (state_of r)) }
    ensures timed { D.tells → IfOk result (λ r. IsTimed number (aim_of r).total (D.view disk.old).reads) }
    ensures sound { D.tells → IfOk result (λ r. (part : Part) → IsViewDamage number part (D.view disk.old).reads → ⊥) }
    ensures why { D.tells → IfErr result (IsUndoneCause number (D.view disk.old).reads) }
    ensures reads { D.tells → IfErr result (λ fault. IsLogFault fault → fault ≢ RelayFault.NoMem → OnlyReads (D.view disk.old) (D.view disk.new)) }
    ensures same { D.tells → (aim : AimView) (state : State) → Keeps number aim (D.view disk.old).reads state → Keeps number aim (D.view disk.new).reads state }
    ensures any_moment { D.tells → Throughout (IsOfRelay number) (IsAsBefore number (D.view disk.old)) (D.view disk.old) (D.view disk.new) }
    ensures fault { IfErr result IsOpenFault }
    ensures log { HasOwnCause (logs.IsOfLog number) (IsErrOf result (RelayFault.Log ViewFault.Disk)) (D.view disk.old) (D.view disk.new) }
    ensures state { HasOwnCause (IsOfRelay number) (IsErrOf result (RelayFault.State BundleFault.Disk)) (D.view disk.old) (D.view disk.new) }
{
    let log = open_complete(alloc, disk, number)?;
    let aim = Aim::new(alloc, host, log.body().elapsed)?;
    let keeping = open_ready(alloc, disk, number, aim)?;
    Ok(Relay::over(alloc, number, keeping, log))
}

impl Relay {
    /// Of a log that was opened, unless it is relayed.
    fn over(alloc: Global, number: LogNo, keeping: Keeping, log: LogView) -> Relay
        requires number { (keeping.number ≡ number) × (log.number ≡ number) }
        requires time { log.body.elapsed ≡ keeping.aim.total }
        ensures parts { (result.number ≡ number) × (result.keeping ≡ keeping) × (result.at ≡ first_place keeping.state log) }
    {
        let at = if keeping.is_done() {
            Place::Idle
        } else {
            Place::Starts(log)
        };
        Relay {
            core: Core {
                alloc,
                number,
                keeping,
                meter: Meter::anew(),
                at,
            },
        }
    }
}

/// Opens what is kept, and makes the files with room for an identifier, unless the log is relayed.
fn open_ready<D: Disk>(
    alloc: Global,
    disk: &mut D,
    number: LogNo,
    aim: Aim,
) -> Result<Keeping, BundleFault>
    ensures opened { IfOk result (λ k. (k.number ≡ number) × (k.aim ≡ aim) × (k.broken ≡ false)) }
    ensures stands { D.tells → IfOk result (λ k. kept.Stands k (D.view disk.new)) }
    ensures kept { D.tells → IfOk result (λ k. Keeps number aim (D.view disk.old).reads k.state) }
    ensures same { D.tells → (aim : AimView) (state : State) → Keeps number aim (D.view disk.old).reads state → Keeps number aim (D.view disk.new).reads state }
    ensures any_moment { D.tells → Throughout (IsOfRelay number) (IsAsBefore number (D.view disk.old)) (D.view disk.old) (D.view disk.new) }
    ensures damaged { D.tells → (part : Part) → IsErrOf result (BundleFault.Damaged part) → IsStateDamage number part (D.view disk.old).reads }
    ensures fault { IfErr result bundles.IsOpenFault }
    ensures cause { HasOwnCause (IsOfRelay number) (IsErrOf result BundleFault.Disk) (D.view disk.old) (D.view disk.new) }
{
    let mut keeping = Keeping::open(alloc, disk, number, aim)?;
    if keeping.is_done() {
        return Ok(keeping);
    }
    keeping.ready(disk)?;
    Ok(keeping)
}

/// The elapsed time of a complete log, as its last entry says. Nothing else of it is read.
pub(crate) fn check_complete<D: Disk>(disk: &mut D, number: LogNo) -> Result<u64, RelayFault>
    ensures timed { D.tells → IfOk result (λ total. IsTimed number total (D.view disk.old).reads) }
    ensures incomplete { D.tells → result ≡ Err RelayFault.Incomplete → IsIncomplete number (D.view disk.old).reads }
    ensures absent { D.tells → result ≡ Err (RelayFault.Log ViewFault.Absent) → logs.Replays (D.view disk.old).reads number None }
    ensures reads { D.tells → OnlyReads (D.view disk.old) (D.view disk.new) }
    ensures fault { IfErr result (λ e. (e ≡ RelayFault.Incomplete) ⊎ (e ≡ RelayFault.Log ViewFault.Absent) ⊎ (e ≡ RelayFault.Log ViewFault.Disk)) }
    ensures cause { HasOwnCause (logs.IsOfLog number) (IsErrOf result (RelayFault.Log ViewFault.Disk)) (D.view disk.old) (D.view disk.new) }
{
    let slots = FileId::new(Owner::Log(number.get()), Part::Slots);
    let Ok(last) = Journal::<89>::view(disk, slots) else {
        return Err(RelayFault::Log(ViewFault::Disk));
    };
    let Some(bytes) = last else {
        return Err(RelayFault::Log(ViewFault::Absent));
    };
    let body = Body::decode(bytes);
    if body.kind != COMPLETE {
        return Err(RelayFault::Incomplete);
    }
    Ok(body.elapsed)
}

/// Opens a complete log. A fault is as `LogView::open` says, and `Incomplete` if the log isn't complete.
pub(crate) fn open_complete<D: Disk>(
    alloc: Global,
    disk: &mut D,
    number: LogNo,
) -> Result<LogView, RelayFault>
    ensures log { D.tells → IfOk result (λ log. HasLog number log [] (D.view disk.new)) }
    ensures number { IfOk result (λ log. (log.number ≡ number) × (log.body.kind ≡ 3)) }
    ensures damaged { D.tells → (part : Part) → result ≡ Err (RelayFault.Log (ViewFault.Damaged part)) → IsViewDamage number part (D.view disk.old).reads }
    ensures incomplete { D.tells → result ≡ Err RelayFault.Incomplete → IsIncomplete number (D.view disk.old).reads }
    ensures complete { D.tells → IfOk result (λ log. IsComplete number (D.view disk.old).reads) }
    ensures readable { D.tells → IfOk result (λ log. (part : Part) → IsViewDamage number part (D.view disk.old).reads → ⊥) }
    ensures absent { D.tells → result ≡ Err (RelayFault.Log ViewFault.Absent) → logs.Replays (D.view disk.old).reads number None }
    ensures reads { D.tells → OnlyReads (D.view disk.old) (D.view disk.new) }
    ensures fault { IfErr result IsLogFault }
    ensures cause { HasOwnCause (logs.IsOfLog number) (IsErrOf result (RelayFault.Log ViewFault.Disk)) (D.view disk.old) (D.view disk.new) }
{
    let log = LogView::open(alloc, disk, number)?;
    if log.body().kind != COMPLETE {
        return Err(RelayFault::Incomplete);
    }
    Ok(log)
}

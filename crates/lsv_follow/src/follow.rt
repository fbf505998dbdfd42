ghost use Rattle.std.specs.Prelude.{◌≡◌, ◌≢◌, ◌⊎◌, ℕ, List, Some, None, [], IfOk, IfErr, OnOk, OnErr, IsErrOf};
ghost use Rattle.lsv_disk.specs.View.{HasOwnCause};
ghost use Rattle.lsv_disk.specs.Throughout.{OnlyReads};
ghost use Rattle.lsv_disk.specs.declared.file.Part.{Part};
ghost use Rattle.lsv_iolog.specs.declared.fault.ViewFault.{ViewFault};
ghost use Rattle.lsv_iolog.specs.Damage.{IsViewDamage};
ghost use Rattle.lsv_iolog.specs.Reading.{HasCuts, HoldsLittle};
ghost use Rattle.lsv_iolog.specs.Recovered.{IsOfLog, Replays};
ghost use Rattle.lsv_record.specs.declared.records.Record.{Record};
ghost use Rattle.lsv_record.specs.Points.{Stored};
ghost use Rattle.lsv_follow.specs.Faults.{IsCheckFault, IsLookFault};
ghost use Rattle.lsv_follow.specs.Following.{HasCounted, HasFound, HasShown, IsLookDamage, IsRenewed, WasCut, cuts_seen};

use crate::FollowFault;
use lsv_base::LogNo;
use lsv_disk::Disk;
use lsv_iolog::{LogView, Renewed, ViewFault};
use lsv_record::Record;
use std::alloc::Global;

/// The kind of the last entry of a log that is complete.
const COMPLETE: u8 = 3;

/// What a look at a log found.
#[derive(Debug, Drop)]
pub enum Seen {
    /// The next record.
    Record(Record),
    /// All records were shown, and the log isn't complete.
    Nothing,
    /// All records were shown, and the log is complete.
    End,
}

/// A log that may still be written: each look gives its next record. It holds at most 65,536 bytes of timing, and no
/// record that it gave.
#[derive(Drop)]
pub struct Follow {
    pub(crate) view: LogView,
}

impl Follow {
    /// Opens the log of this number, with no record shown yet. `Absent` if it has no entry, `Damaged(part)` if a file is
    /// absent or shorter than the last entry says, or else the head is no head. `Disk` only if a device call on a file
    /// of this log failed, `NoMem` if memory ran out.
    pub fn open<D: Disk>(alloc: Global, disk: &mut D, number: LogNo) -> Result<Follow, ViewFault>
        ensures number { IfOk result (λ f. f.view.number ≡ number) }
        ensures shows { D.tells → IfOk result (λ f. HasShown f.view [] (D.view disk.old).reads) }
        ensures little { IfOk result (λ f. HoldsLittle f.view) }
        ensures absent { D.tells → IsErrOf result ViewFault.Absent → Replays (D.view disk.old).reads number None }
        ensures damaged { D.tells → (part : Part) → IsErrOf result (ViewFault.Damaged part) → IsViewDamage number part (D.view disk.old).reads }
        ensures undamaged { D.tells → (log : Stored) → Replays (D.view disk.old).reads number (Some log) → IfErr result (λ e. (e ≡ ViewFault.Disk) ⊎ (e ≡ ViewFault.NoMem)) }
        ensures reads { D.tells → OnlyReads (D.view disk.old) (D.view disk.new) }
        ensures cause { HasOwnCause (IsOfLog number) (IsErrOf result ViewFault.Disk) (D.view disk.old) (D.view disk.new) }
    {
        let view = LogView::open(alloc, disk, number)?;
        Ok(Follow { view })
    }

    /// Looks at the log, which others may have written since the last look, and gives its next record. `Nothing` if all
    /// were shown and the log isn't complete, `End` if all were shown and it is. `Resumed` if it was cut since it was
    /// opened. `Log` if it is absent or damaged, or if a device call on a file of it failed. `NoMem` if memory ran out.
    /// After a fault the same records count as shown. What a look says of a stored log: the laws of this crate.
    pub fn next<D: Disk>(&mut self, disk: &mut D) -> Result<Seen, FollowFault>
        ensures finds { D.tells → (shown : List Record) → HasShown self.old.view shown (D.view disk.old).reads → IfOk result (HasFound self.old.view self.new.view (D.view disk.old).reads shown) }
        ensures stays { D.tells → (shown : List Record) → HasShown self.old.view shown (D.view disk.old).reads → OnErr result (HasCounted self.new.view shown) }
        ensures uncut { D.tells → OnOk result (HasCuts self.old.view.number (cuts_seen self.old.view) (D.view disk.old).reads) }
        ensures resumed { D.tells → (seen now : ℕ) → IsErrOf result (FollowFault.Resumed seen now) → WasCut self.old.view seen now (D.view disk.old).reads }
        ensures absent { D.tells → IsErrOf result (FollowFault.Log ViewFault.Absent) → Replays (D.view disk.old).reads self.old.view.number None }
        ensures damaged { D.tells → (part : Part) → IsErrOf result (FollowFault.Log (ViewFault.Damaged part)) → IsLookDamage self.old.view part (D.view disk.old) }
        ensures same { (self.new.view.number ≡ self.old.view.number) × (cuts_seen self.new.view ≡ cuts_seen self.old.view) }
        ensures little { HoldsLittle self.new.view }
        ensures reads { D.tells → OnlyReads (D.view disk.old) (D.view disk.new) }
        ensures fault { IfErr result IsLookFault }
        ensures cause { HasOwnCause (IsOfLog self.old.view.number) (IsErrOf result (FollowFault.Log ViewFault.Disk)) (D.view disk.old) (D.view disk.new) }
    {
        self.renew(disk)?;
        match self.view.next(disk)? {
            Some(record) => Ok(Seen::Record(record)),
            None => Ok(self.at_end()),
        }
    }

    /// Takes the last entry of the log, if it wasn't cut.
    fn renew<D: Disk>(&mut self, disk: &mut D) -> Result<(), FollowFault>
        ensures renewed { D.tells → OnOk result (IsRenewed self.old.view self.new.view (D.view disk.old)) }
        ensures unchanged { OnErr result (self.new ≡ self.old) }
        ensures resumed { D.tells → (seen now : ℕ) → IsErrOf result (FollowFault.Resumed seen now) → WasCut self.old.view seen now (D.view disk.old).reads }
        ensures absent { D.tells → IsErrOf result (FollowFault.Log ViewFault.Absent) → Replays (D.view disk.old).reads self.old.view.number None }
        ensures damaged { D.tells → (part : Part) → IsErrOf result (FollowFault.Log (ViewFault.Damaged part)) → IsLookDamage self.old.view part (D.view disk.old) }
        ensures same { (self.new.view.number ≡ self.old.view.number) × (cuts_seen self.new.view ≡ cuts_seen self.old.view) × (self.new.view.given ≡ self.old.view.given) }
        ensures little { HoldsLittle self.new.view }
        ensures reads { D.tells → OnlyReads (D.view disk.old) (D.view disk.new) }
        ensures fault { IfErr result IsLookFault }
        ensures cause { HasOwnCause (IsOfLog self.old.view.number) (IsErrOf result (FollowFault.Log ViewFault.Disk)) (D.view disk.old) (D.view disk.new) }
    {
        match self.view.renew(disk)? {
            Renewed::Same => Ok(()),
            Renewed::Cut(now) => Err(FollowFault::Resumed {
                seen: self.view.body().extra,
                now,
            }),
        }
    }

    /// Looks whether the log was cut since it was opened, and reads nothing else of it. `Resumed` if it was, `Log` if it
    /// is absent or a device call on a file of it failed. What a look found may be shown after this one.
    pub fn check<D: Disk>(&self, disk: &mut D) -> Result<(), FollowFault>
        ensures uncut { D.tells → OnOk result (HasCuts self.now.view.number (cuts_seen self.now.view) (D.view disk.old).reads) }
        ensures resumed { D.tells → (seen now : ℕ) → IsErrOf result (FollowFault.Resumed seen now) → WasCut self.now.view seen now (D.view disk.old).reads }
        ensures absent { D.tells → IsErrOf result (FollowFault.Log ViewFault.Absent) → Replays (D.view disk.old).reads self.now.view.number None }
        ensures reads { D.tells → OnlyReads (D.view disk.old) (D.view disk.new) }
        ensures fault { IfErr result IsCheckFault }
        ensures cause { HasOwnCause (IsOfLog self.now.view.number) (IsErrOf result (FollowFault.Log ViewFault.Disk)) (D.view disk.old) (D.view disk.new) }
    {
        let Renewed::Cut(now) = self.view.look(disk)? else {
            return Ok(());
        };
        let seen = self.view.body().extra;
        Err(FollowFault::Resumed { seen, now })
    }

    /// The answer if all records were shown.
    fn at_end(&self) -> Seen
        ensures end { self.now.view.body.kind ≡ 3 → result ≡ Seen.End }
        ensures going { self.now.view.body.kind ≢ 3 → result ≡ Seen.Nothing }
    {
        if self.view.body().kind == COMPLETE {
            return Seen::End;
        }
        Seen::Nothing
    }
}

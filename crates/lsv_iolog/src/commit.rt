ghost use Rattle.std.specs.Prelude.{◌≡◌, ◌≢◌, ◌⊎◌, ◌↔◌, ◌+◌, ◌<◌, ◌≤◌, ◌^◌, ℕ, true, false, Some, [], length, IsSome, IfOk, IfErr, OnOk, OnErr, IsErrOf};
ghost use Rattle.lsv_base.specs.Time.{nanos_of};
ghost use Rattle.lsv_disk.specs.View.{HasOwnCause};
ghost use Rattle.lsv_disk.specs.Throughout.{Throughout};
ghost use Rattle.lsv_disk.specs.declared.file.Part.{Part};
ghost use Rattle.lsv_bundle.specs.Calls.{IsFull};
ghost use Rattle.lsv_bundle.specs.Committed.{IsBeforeOrAfter, committed, committed_as};
ghost use Rattle.lsv_bundle.specs.Represents as bundles;
ghost use Rattle.lsv_bundle.specs.Shape.{IsWritable};
ghost use Rattle.lsv_bundle.specs.Value.{next_length, IsCommitted};
ghost use Rattle.lsv_info.specs.Layout.{exit_text};
ghost use Rattle.lsv_iolog.specs.declared.fault.LogFault.{LogFault};
ghost use Rattle.lsv_iolog.specs.Recovered.{IsOfLog};
ghost use Rattle.lsv_iolog.specs.Value.{LogValue, is_complete, bare, flushed, finished, kind_of, SameCounts, IsFlushed, IsFlushOf};
ghost use Rattle.lsv_iolog.specs.Represents.{Represents};
ghost use Rattle.lsv_iolog.specs.Inner.Next.{next_entry};
ghost use Rattle.lsv_iolog.specs.Moments.{IsEither, IsThereLater, CallsOfLog};

use crate::log::{COMPLETE, FLUSHED};
use crate::{IoLog, LogFault};
use lsv_base::Point;
use lsv_disk::{Disk, Part};
use lsv_info::{Exit, write_exit};

impl IoLog {
    /// Commits all staged records, by one entry of kind 1 if there are any, and answers the nanoseconds from the start
    /// of the log to its last record. At every moment a crash leaves the log as it was before or as it is now, and after
    /// Ok the latter alone. `Disk` comes only if a device call on a file of this log failed. From then on the log
    /// answers `Broken`, until it is opened again. It takes no memory.
    pub fn flush<D: Disk>(&mut self, disk: &mut D) -> Result<Point, LogFault>
        requires represents { D.tells → self.old.is_broken ≡ false → (value : LogValue) × Represents self.old value (D.view disk.old) }
        ensures elapsed { IfOk result (λ point. point ≡ self.old.elapsed) }
        ensures counts { SameCounts self.old self.new }
        ensures whole { OnOk result ((self.old.is_broken ≡ false) × (self.new.is_broken ≡ false)) }
        ensures going { is_complete self.old ≡ false → is_complete self.new ≡ false }
        ensures kind { OnOk result (IsFlushOf self.old self.new) }
        ensures represents { D.tells → OnOk result ((value : LogValue) → Represents self.old value (D.view disk.old) → Represents self.new (bare (flushed value)) (D.view disk.new)) }
        ensures any_moment { D.tells → (value : LogValue) → Represents self.old value (D.view disk.old)
            → Throughout (IsOfLog self.old.number) (IsEither self.old.number (Some value.stored) (Some (flushed value))) (D.view disk.old) (D.view disk.new) }
        ensures later { D.tells → (value : LogValue) → Represents self.old value (D.view disk.old)
            → Throughout (IsOfLog self.old.number) (IsThereLater self.old.number value.stored) (D.view disk.old) (D.view disk.new) }
        ensures idle { D.tells → (value : LogValue) → Represents self.old value (D.view disk.old) → value.staged ≡ [] → disk.new ≡ disk.old }
        ensures calls { D.tells → CallsOfLog self.old.number 1 2 (D.view disk.old) (D.view disk.new) }
        ensures disk { IsErrOf result LogFault.Disk → self.new.is_broken ≡ true }
        ensures fault { IfErr result (λ e. (e ≡ LogFault.Disk) ⊎ (e ≡ LogFault.Broken)) }
        ensures broken { IsErrOf result LogFault.Broken ↔ (self.old.is_broken ≡ true) }
        ensures unchanged { IsErrOf result LogFault.Broken → (self.new ≡ self.old) × (disk.new ≡ disk.old) }
        ensures cause { HasOwnCause (IsOfLog self.old.number) (IsErrOf result LogFault.Disk) (D.view disk.old) (D.view disk.new) }
    {
        if self.is_broken {
            return Err(LogFault::Broken);
        }
        if self.staged_timing == 0 {
            return Ok(self.elapsed());
        }
        self.commit(disk, FLUSHED)
    }

    /// Commits all staged records with the text of this exit, by one entry of kind 3. The log wasn't complete, and is
    /// then. The exit's run time is valid. A crash leaves what it leaves of a flush, and `Disk` and `Broken` come as
    /// there. `Full(Exit)` comes exactly if the exit's text is too long for its file, which is then unchanged. So the
    /// text fits if the disk failed.
    pub fn finish<D: Disk>(&mut self, disk: &mut D, exit: &Exit) -> Result<Point, LogFault>
        requires represents { D.tells → self.old.is_broken ≡ false → (value : LogValue) × Represents self.old value (D.view disk.old) }
        requires going { is_complete self.old ≡ false }
        requires timed { IsSome (nanos_of exit.now.run) }
        ensures elapsed { IfOk result (λ point. point ≡ self.old.elapsed) }
        ensures counts { SameCounts self.old self.new }
        ensures whole { OnOk result ((self.old.is_broken ≡ false) × (self.new.is_broken ≡ false)) }
        ensures flushed { OnOk result (IsFlushed self.new) }
        ensures complete { OnOk result (is_complete self.new ≡ true) }
        ensures kind { OnOk result (kind_of self.new ≡ Some 3) }
        ensures incomplete { OnErr result (is_complete self.new ≡ false) }
        ensures represents { D.tells → OnOk result ((value : LogValue) → Represents self.old value (D.view disk.old) → Represents self.new (bare (finished value (exit_text exit.now))) (D.view disk.new)) }
        ensures any_moment { D.tells → (value : LogValue) → Represents self.old value (D.view disk.old)
            → Throughout (IsOfLog self.old.number) (IsEither self.old.number (Some value.stored) (Some (finished value (exit_text exit.now)))) (D.view disk.old) (D.view disk.new) }
        ensures later { D.tells → (value : LogValue) → Represents self.old value (D.view disk.old)
            → Throughout (IsOfLog self.old.number) (IsThereLater self.old.number value.stored) (D.view disk.old) (D.view disk.new) }
        ensures calls { D.tells → CallsOfLog self.old.number 1 2 (D.view disk.old) (D.view disk.new) }
        ensures disk { IsErrOf result LogFault.Disk → self.new.is_broken ≡ true }
        ensures fault { IfErr result (λ e. (e ≡ LogFault.Disk) ⊎ (e ≡ LogFault.Broken) ⊎ (e ≡ LogFault.Full Part.Exit) ⊎ (e ≡ LogFault.NoMem)) }
        ensures broken { IsErrOf result LogFault.Broken ↔ (self.old.is_broken ≡ true) }
        ensures full { IsErrOf result (LogFault.Full Part.Exit) → IsFull self.old.bundle Part.Exit (length (exit_text exit.now)) }
        ensures fits { OnOk result (IsFull self.old.bundle Part.Exit (length (exit_text exit.now)) → ⊥) }
        ensures room { IsErrOf result LogFault.Disk → IsFull self.old.bundle Part.Exit (length (exit_text exit.now)) → ⊥ }
        ensures unchanged { IfErr result (λ e. e ≢ LogFault.Disk → (self.new ≡ self.old) × (disk.new ≡ disk.old)) }
        ensures cause { HasOwnCause (IsOfLog self.old.number) (IsErrOf result LogFault.Disk) (D.view disk.old) (D.view disk.new) }
    {
        if self.is_broken {
            return Err(LogFault::Broken);
        }
        let text = write_exit(self.alloc, exit)?;
        self.bundle.stage(Part::Exit, text.as_slice())?;
        self.commit(disk, COMPLETE)
    }

    /// Commits all that is staged, by an entry of this kind.
    fn commit<D: Disk>(&mut self, disk: &mut D, kind: u8) -> Result<Point, LogFault>
        requires whole { self.old.is_broken ≡ false }
        requires represents { D.tells → bundles.Represents self.old.bundle (D.view disk.old) }
        ensures elapsed { IfOk result (λ point. point ≡ self.old.elapsed) }
        ensures counts { SameCounts self.old self.new }
        ensures whole { OnOk result (self.new.is_broken ≡ false) }
        ensures broken { OnErr result (self.new.is_broken ≡ true) }
        ensures value { OnOk result (IsCommitted (next_entry self.old kind) (next_length self.old.bundle) self.old.bundle self.new.bundle) }
        ensures kept { OnErr result (self.new.bundle.last ≡ self.old.bundle.last) }
        ensures committed { D.tells → OnOk result (committed self.new.bundle (D.view disk.new) ≡ Some (committed_as self.old.bundle (D.view disk.old) (next_entry self.old kind))) }
        ensures represents { D.tells → OnOk result (bundles.Represents self.new.bundle (D.view disk.new)) }
        ensures any_moment { D.tells → Throughout (IsWritable self.old.bundle.owner self.old.bundle.shape)
            (IsBeforeOrAfter self.old.bundle.owner self.old.bundle.shape (committed self.old.bundle (D.view disk.old)) (Some (committed_as self.old.bundle (D.view disk.old) (next_entry self.old kind))))
            (D.view disk.old) (D.view disk.new) }
        ensures calls { D.tells → CallsOfLog self.old.number 1 2 (D.view disk.old) (D.view disk.new) }
        ensures fault { IfErr result (λ e. e ≡ LogFault.Disk) }
        ensures cause { HasOwnCause (IsOfLog self.old.number) (IsErrOf result LogFault.Disk) (D.view disk.old) (D.view disk.new) }
    {
        let cuts = self.bundle.last().extra;
        match self
            .bundle
            .flush(disk, kind, self.count, self.elapsed, cuts)
        {
            Ok(()) => {
                self.staged_timing = 0;
                Ok(self.elapsed())
            }
            Err(fault) => {
                self.is_broken = true;
                Err(LogFault::from(fault))
            }
        }
    }
}

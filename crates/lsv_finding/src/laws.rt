//! Laws of the definitions that the contracts of this crate cite. They do nothing when they run.
ghost use Rattle.std.specs.Prelude.{◌≡◌, ℕ, List, Some, None};
ghost use Rattle.lsv_bundle.specs.declared.body.Body.{Body};
ghost use Rattle.lsv_disk.specs.View.{Image};
ghost use Rattle.lsv_info.specs.declared.times.Head.{Head};
ghost use Rattle.lsv_iolog.specs.Reading.{IsSoundBehind};
ghost use Rattle.lsv_iolog.specs.Recovered.{Replays, ReplaysNothing};
ghost use Rattle.lsv_play.specs.Playing.{AreAll, IsOpened, laid_at};
ghost use Rattle.lsv_record.specs.declared.records.Record.{Record};
ghost use Rattle.lsv_record.specs.Points.{Stored};
ghost use Rattle.lsv_finding.specs.Findings.{Finding, HasExitLength, IsAbsent, IsDamage, IsFinding, IsStored, Means};

/// A finding is what recovery says of the log: a stored log is found exactly if the disk holds that log, none exactly if
/// it holds none, and damage exactly if it holds neither.
pub fn a_finding_is_what_recovery_says()
    ensures means { (image : Image) (n : ℕ) (f : Finding) → IsFinding image n f → Means image n f }
    ensures stored { (image : Image) (n : ℕ) (f : Finding) (log : Stored) → IsFinding image n f → Replays image n (Some log) → IsStored log f }
    ensures absent { (image : Image) (n : ℕ) (f : Finding) → IsFinding image n f → Replays image n None → IsAbsent f }
    ensures damaged { (image : Image) (n : ℕ) (f : Finding) → IsFinding image n f → ReplaysNothing image n → IsDamage f }
{}

/// A log that is read to its end, with nothing at fault, and whose exit is as long as its last entry asks for, is stored
/// with the records that were read.
pub fn what_reads_whole_is_stored()
    ensures { (image : Image) (n : ℕ) (body : Body) (head : Head) (records : List Record) → IsOpened n body head image → AreAll (laid_at n body image) body records
        → IsSoundBehind (laid_at n body image) body records → HasExitLength body → (log : Stored) × (log.records ≡ records) × Replays image n (Some log) }
{}

//! Laws of the definitions that the contracts of this crate cite. They do nothing when they run.

ghost use Rattle.std.specs.Prelude.{◌≡◌, ℕ, Option, Some, None};
ghost use Rattle.lsv_disk.specs.declared.file.FileId.{FileId};
ghost use Rattle.lsv_disk.specs.declared.file.Part.{Part};
ghost use Rattle.lsv_disk.specs.View.{Image, IsCrashImage, Elsewhere};
ghost use Rattle.lsv_record.specs.declared.records.Record.{Record};
ghost use Rattle.lsv_record.specs.Points.{Stored};
ghost use Rattle.lsv_record.specs.Records.{IsValid};
ghost use Rattle.lsv_iolog.specs.Recovered.{IsOfLog, Replays, ReplaysNothing, SameFiles, Decided};
ghost use Rattle.lsv_iolog.specs.Damage.{IsDamagedAt};
ghost use Rattle.lsv_iolog.specs.Later.{IsLater};
ghost use Rattle.lsv_iolog.specs.Value.{LogValue, with_record};
ghost use Rattle.lsv_iolog.specs.Represents.{Represents, Stages};

use crate::IoLog;
use lsv_disk::{Claim, Disk};
use std::marker::PhantomData;

/// What an image holds of a log depends on the log's files alone, and is one thing. If none of its files exists, the log
/// is absent. It is decided whether the log is absent, stored or damaged. If a part is at fault, no log is stored.
pub fn a_log_is_recovered_in_one_way()
    ensures once { (image : Image) (n : ℕ) (found other : Option Stored) → Replays image n found → Replays image n other → found ≡ other }
    ensures own_files { (image other : Image) (n : ℕ) (found : Option Stored) → SameFiles n image other → Replays image n found → Replays other n found }
    ensures absent { (image : Image) (n : ℕ) → ((file : FileId) → IsOfLog n file → image file ≡ None) → Replays image n None }
    ensures decided { (image : Image) (n : ℕ) → Decided image n }
    ensures damaged { (image : Image) (n : ℕ) (part : Part) → IsDamagedAt n part image → ReplaysNothing image n }
{}

/// The states of a log are in order: each is later than or equal to itself, and a state later than a later one is later.
pub fn later_states_are_ordered()
    ensures same { (log : Stored) → IsLater log log }
    ensures further { (a b c : Stored) → IsLater a b → IsLater b c → IsLater a c }
{}

/// Each crash image replays what an open log has committed. It stays represented, with what is staged, if calls on the
/// disk touched none of its files.
pub fn logs_stay<D: Disk, C: Claim>(
    log: &IoLog,
    next: &IoLog,
    old: &D,
    new: &D,
    claim: PhantomData<C>,
)
    ensures every_image { (value : LogValue) (image : Image) → Represents log.now value (D.view old.now) → IsCrashImage (D.view old.now) image → Replays image log.now.number (Some value.stored) }
    ensures untouched { (value : LogValue) → Elsewhere C.touched (D.view old.now) (D.view new.now) → ((file : FileId) → IsOfLog log.now.number file → C.touched file → ⊥)
        → Represents log.now value (D.view old.now) → Represents log.now value (D.view new.now) }
    ensures staged { (value : LogValue) (r : Record) → Stages log.now r next.now → IsValid r → value.stored.exit ≡ None → Represents log.now value (D.view old.now) → Represents next.now (with_record value r) (D.view old.now) }
{}

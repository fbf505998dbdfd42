//! Laws of the definitions that the contracts of this crate cite. They do nothing when they run.

ghost use Rattle.std.specs.Prelude.{◌≡◌, ℕ, ◌+◌, List, [], length};
ghost use Rattle.lsv_disk.specs.declared.file.FileId.{FileId};
ghost use Rattle.lsv_disk.specs.declared.file.Owner.TheVariants.{Events};
ghost use Rattle.lsv_disk.specs.View.{Image, IsCrashImage, Elsewhere};
ghost use Rattle.lsv_journal.specs.Last.{IsAbsent};
ghost use Rattle.lsv_bundle.specs.Shape.{journal_of};
ghost use Rattle.lsv_eventlog.specs.Recovered.{HoldsLines, IsOfEventLog, SameFiles};
ghost use Rattle.lsv_eventlog.specs.Value.{IsAdded, Represents, committed_text, text_length, added_text};

use crate::EventLog;
use lsv_disk::{Claim, Disk};
use std::marker::PhantomData;

/// What an image holds of an event log depends on the log's files alone, and is one text; none where its journal is
/// absent. Event logs of different lanes have no file in common.
pub fn lines_are_recovered_in_one_way()
    ensures once { (image : Image) (lane : ℕ) (text other : List ℕ) → HoldsLines image lane text → HoldsLines image lane other → text ≡ other }
    ensures own_files { (image other : Image) (lane : ℕ) (text : List ℕ) → SameFiles lane image other → HoldsLines image lane text → HoldsLines other lane text }
    ensures absent { (image : Image) (lane : ℕ) → IsAbsent (journal_of (Events lane)) image → HoldsLines image lane [] }
    ensures owner { (lane : ℕ) (file : FileId) → IsOfEventLog lane file → file.owner ≡ Events lane }
{}

/// Each crash image of a disk at which an event log stands holds its committed lines. It stays represented where calls
/// on the disk touched none of its files, and with a line that is added.
pub fn event_logs_stay<D: Disk, C: Claim>(
    log: &EventLog,
    next: &EventLog,
    old: &D,
    new: &D,
    claim: PhantomData<C>,
)
    ensures every_image { Represents log.now (D.view old.now) → (image : Image) → IsCrashImage (D.view old.now) image → HoldsLines image log.now.lane (committed_text log.now (D.view old.now)) }
    ensures untouched { Elsewhere C.touched (D.view old.now) (D.view new.now) → ((file : FileId) → file.owner ≡ Events log.now.lane → C.touched file → ⊥)
        → Represents log.now (D.view old.now) → Represents log.now (D.view new.now) × (committed_text log.now (D.view new.now) ≡ committed_text log.now (D.view old.now)) }
    ensures added { (line : List ℕ) → IsAdded line log.now next.now → Represents log.now (D.view old.now) → Represents next.now (D.view old.now) × (committed_text next.now (D.view old.now) ≡ committed_text log.now (D.view old.now)) }
    ensures length { Represents log.now (D.view old.now) → text_length log.now ≡ length (committed_text log.now (D.view old.now)) + length (added_text log.now) }
{
    let _lane = log.lane;
}

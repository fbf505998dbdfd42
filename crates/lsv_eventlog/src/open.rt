ghost use Rattle.std.specs.Prelude.{◌≡◌, ◌≢◌, ◌⊎◌, ℕ, List, [], Some, None, IfOk, IfErr, IfSome, IsErrOf};
ghost use Rattle.lsv_disk.specs.declared.file.Owner.TheVariants.{Events};
ghost use Rattle.lsv_disk.specs.declared.file.Part.{Part};
ghost use Rattle.lsv_disk.specs.View.{Image, HasOwnCause, IsCrashImage};
ghost use Rattle.lsv_disk.specs.Throughout.{Throughout, WritesOneOf};
ghost use Rattle.lsv_journal.specs.Last.{LastAt, MayBeMade, OpeningCalls};
ghost use Rattle.lsv_bundle.specs.declared.fault.BundleFault.{BundleFault};
ghost use Rattle.lsv_bundle.specs.declared.shape.Shape.TheVariants as shapes;
ghost use Rattle.lsv_bundle.specs.Shape.{journal_of};
ghost use Rattle.lsv_bundle.specs.Committed.{IsDamaged};
ghost use Rattle.lsv_bundle.specs.Calls.{IsOpenFault};
ghost use Rattle.lsv_eventlog.specs.Inner.{IsEventLog};
ghost use Rattle.lsv_eventlog.specs.Recovered.{HoldsLines, IsOfEventLog};
ghost use Rattle.lsv_eventlog.specs.Value.{CountsAsIn, IsOpened, Represents, committed_text, kind_of, line_count};
ghost use Rattle.lsv_eventlog.specs.Moments.{IsAsBefore};

use crate::EventLog;
use lsv_bundle::{Bundle, BundleFault, Shape};
use lsv_disk::{Disk, Owner};
use std::alloc::Global;

/// The kind of the entry of an event log that was made.
const MADE: u8 = 0;

/// The event log of a lane, where it has an entry.
fn find<D: Disk>(alloc: Global, disk: &mut D, lane: u32) -> Result<Option<EventLog>, BundleFault>
    ensures sound { IfOk result (λ o. IfSome o IsEventLog) }
    ensures value { IfOk result (λ o. IfSome o (IsOpened lane)) }
    ensures held { D.tells → IfOk result (λ o. IfSome o (λ log. HoldsLines (D.view disk.old).reads lane (committed_text log (D.view disk.new)))) }
    ensures counted { D.tells → IfOk result (λ o. IfSome o (CountsAsIn lane (D.view disk.old).reads)) }
    ensures represents { D.tells → IfOk result (λ o. IfSome o (λ log. Represents log (D.view disk.new))) }
    ensures none { D.tells → IfOk result (λ o. o ≡ None → HoldsLines (D.view disk.old).reads lane []) }
    ensures none_read { D.tells → IfOk result (λ o. o ≡ None → LastAt 89 (journal_of (Events lane)) (D.view disk.old).reads ≡ None) }
    ensures no_entry { D.tells → IfOk result (λ o. o ≡ None → (image : Image) → IsCrashImage (D.view disk.new) image → LastAt 89 (journal_of (Events lane)) image ≡ None) }
    ensures may_be_made { D.tells → IfOk result (λ o. o ≡ None → MayBeMade 89 (journal_of (Events lane)) (D.view disk.new)) }
    ensures any_moment { D.tells → Throughout (IsOfEventLog lane) (IsAsBefore lane (D.view disk.old)) (D.view disk.old) (D.view disk.new) }
    ensures reads { D.tells → (text : List ℕ) → HoldsLines (D.view disk.old).reads lane text → HoldsLines (D.view disk.new).reads lane text }
    ensures reads_back { D.tells → (text : List ℕ) → HoldsLines (D.view disk.new).reads lane text → HoldsLines (D.view disk.old).reads lane text }
    ensures calls { D.tells → WritesOneOf (journal_of (Events lane)) 3 5 (IsOfEventLog lane) (D.view disk.old) (D.view disk.new) }
    ensures opened { D.tells → OpeningCalls 89 (journal_of (Events lane)) (IsOfEventLog lane) (D.view disk.old) (D.view disk.new) }
    ensures damaged { D.tells → (part : Part) → IsErrOf result (BundleFault.Damaged part) → IsDamaged (Events lane) shapes.Lines (D.view disk.old).reads part }
    ensures fault { IfErr result IsOpenFault }
    ensures cause { HasOwnCause (IsOfEventLog lane) (IsErrOf result BundleFault.Disk) (D.view disk.old) (D.view disk.new) }
{
    let Some(bundle) = Bundle::open(alloc, disk, Owner::Events(lane), Shape::Lines)? else {
        return Ok(None);
    };
    Ok(Some(EventLog {
        lane,
        added: 0,
        bundle,
    }))
}

/// Makes the event log of a lane, with an entry that commits no line.
fn make<D: Disk>(alloc: Global, disk: &mut D, lane: u32) -> Result<EventLog, BundleFault>
    requires may_be_made { D.tells → MayBeMade 89 (journal_of (Events lane)) (D.view disk.old) }
    requires no_entry { D.tells → (image : Image) → IsCrashImage (D.view disk.old) image → LastAt 89 (journal_of (Events lane)) image ≡ None }
    ensures sound { IfOk result IsEventLog }
    ensures value { IfOk result (IsOpened lane) }
    ensures count { IfOk result (λ log. (line_count log ≡ 0) × (kind_of log ≡ Some 0)) }
    ensures empty { D.tells → IfOk result (λ log. committed_text log (D.view disk.new) ≡ []) }
    ensures represents { D.tells → IfOk result (λ log. Represents log (D.view disk.new)) }
    ensures any_moment { D.tells → Throughout (IsOfEventLog lane) (λ image. HoldsLines image lane []) (D.view disk.old) (D.view disk.new) }
    ensures calls { D.tells → WritesOneOf (journal_of (Events lane)) 3 4 (IsOfEventLog lane) (D.view disk.old) (D.view disk.new) }
    ensures fault { IfErr result (λ e. (e ≡ BundleFault.Disk) ⊎ (e ≡ BundleFault.NoMem)) }
    ensures cause { HasOwnCause (IsOfEventLog lane) (IsErrOf result BundleFault.Disk) (D.view disk.old) (D.view disk.new) }
{
    let mut bundle = Bundle::create(alloc, disk, Owner::Events(lane), Shape::Lines)?;
    bundle.flush(disk, MADE, 0, 0, 0)?;
    Ok(EventLog {
        lane,
        added: 0,
        bundle,
    })
}

impl EventLog {
    /// Opens the event log of a lane. Where it has no entry it makes it, by an entry of kind 0, also of what a making that
    /// a crash or a fault ended has left. Where there is an entry it is taken over at most, and where the slots have it
    /// nothing is written. `Damaged(Lines)` where its lines are absent or fewer than the last entry says; `Disk` only where
    /// a device call on a file of this log failed. Also where it fails it reads as before.
    pub fn open<D: Disk>(alloc: Global, disk: &mut D, lane: u32) -> Result<EventLog, BundleFault>
        ensures sound { IfOk result IsEventLog }
        ensures value { IfOk result (IsOpened lane) }
        ensures held { D.tells → IfOk result (λ log. HoldsLines (D.view disk.old).reads lane (committed_text log (D.view disk.new))) }
        ensures counted { D.tells → IfOk result (CountsAsIn lane (D.view disk.old).reads) }
        ensures represents { D.tells → IfOk result (λ log. Represents log (D.view disk.new)) }
        ensures any_moment { D.tells → Throughout (IsOfEventLog lane) (IsAsBefore lane (D.view disk.old)) (D.view disk.old) (D.view disk.new) }
        ensures reads { D.tells → (text : List ℕ) → HoldsLines (D.view disk.old).reads lane text → HoldsLines (D.view disk.new).reads lane text }
        ensures reads_back { D.tells → (text : List ℕ) → HoldsLines (D.view disk.new).reads lane text → HoldsLines (D.view disk.old).reads lane text }
        ensures calls { D.tells → WritesOneOf (journal_of (Events lane)) 6 9 (IsOfEventLog lane) (D.view disk.old) (D.view disk.new) }
        ensures opened { D.tells → LastAt 89 (journal_of (Events lane)) (D.view disk.old).reads ≢ None → OpeningCalls 89 (journal_of (Events lane)) (IsOfEventLog lane) (D.view disk.old) (D.view disk.new) }
        ensures damaged { D.tells → (part : Part) → IsErrOf result (BundleFault.Damaged part) → IsDamaged (Events lane) shapes.Lines (D.view disk.old).reads part }
        ensures fault { IfErr result IsOpenFault }
        ensures cause { HasOwnCause (IsOfEventLog lane) (IsErrOf result BundleFault.Disk) (D.view disk.old) (D.view disk.new) }
    {
        match find(alloc, disk, lane)? {
            Some(log) => Ok(log),
            None => make(alloc, disk, lane),
        }
    }
}

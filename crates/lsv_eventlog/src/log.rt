ghost use Rattle.std.specs.Prelude.{◌≡◌, ◌≢◌, ◌⊎◌, ℕ, ◌+◌, ◌<◌, ◌≤◌, ◌^◌, true, false, [], ◌++◌, length, IsOk, IfErr, OnOk, OnErr, IsErrOf, ◌↔◌, Some};
ghost use Rattle.lsv_disk.specs.declared.file.Part.{Part};
ghost use Rattle.lsv_disk.specs.View.{Image, IsCrashImage, HasOwnCause};
ghost use Rattle.lsv_disk.specs.Throughout.{Throughout};
ghost use Rattle.lsv_bundle.specs.declared.fault.BundleFault.{BundleFault};
ghost use Rattle.lsv_bundle.specs.Calls.{CallsOfFlush};
ghost use Rattle.lsv_bundle.specs.Value.{next_body};
ghost use Rattle.lsv_eventlog.specs.Inner.{IsEventLog};
ghost use Rattle.lsv_eventlog.specs.Recovered.{HoldsLines, IsOfEventLog};
ghost use Rattle.lsv_eventlog.specs.Value.{IsAdded, IsFlushed, IsKept, Represents, added_text, committed_text, counted, is_broken, line_count, text_length};
ghost use Rattle.lsv_eventlog.specs.Moments.{IsEither};

use lsv_bundle::{Bundle, BundleFault};
use lsv_disk::{Disk, Part};
use std::marker::Model;

/// The kind of an entry by which lines are committed.
const FLUSHED: u8 = 1;

/// The event log of a lane: what is committed stands in its files, and lines are added after that.
#[derive(Drop)]
pub struct EventLog {
    pub(crate) lane: u32,
    /// How many lines were added and aren't committed.
    pub(crate) added: u64,
    pub(crate) bundle: Bundle,
}

impl Model for EventLog {
    ghost use Rattle.lsv_eventlog.specs.Value.{EventLogView};
    ghost use Rattle.lsv_eventlog.specs.Inner.{IsEventLog};

    ghost Value = { EventLogView };

    ghost view = { λ l. record { lane = l.lane; added = l.added; bundle = l.bundle } };

    ghost invariant = { λ l. IsEventLog (record { lane = l.lane; added = l.added; bundle = l.bundle }) };
}

impl EventLog {
    /// Adds a line after those that are there, with its line feed. `Full(Lines)` exactly where the text would pass
    /// 2^40 bytes with it, `Broken` exactly where the log is: where it fails, it is unchanged.
    pub fn add(&mut self, line: &[u8]) -> Result<(), BundleFault>
        ensures sound { IsEventLog self.new }
        ensures value { OnOk result (IsAdded line.now self.old self.new) }
        ensures refused { OnErr result (self.new ≡ self.old) }
        ensures room { OnOk result ((is_broken self.old ≡ false) × (text_length self.old + length line.now ≤ 2 ^ 40)) }
        ensures broken { IsErrOf result BundleFault.Broken ↔ (is_broken self.old ≡ true) }
        ensures full { IsErrOf result (BundleFault.Full Part.Lines) → (is_broken self.old ≡ false) × (2 ^ 40 < text_length self.old + length line.now) }
        ensures fault { IfErr result (λ e. (e ≡ BundleFault.Broken) ⊎ (e ≡ BundleFault.Full Part.Lines) ⊎ (e ≡ BundleFault.NoMem)) }
    {
        self.bundle.stage(Part::Lines, line)?;
        self.added = self.added.saturating_add(1);
        Ok(())
    }

    /// Commits the lines that were added, by one entry; where there are none it does nothing. At every moment a crash
    /// leaves the lines before or the lines after, and after Ok the latter alone. `Disk` only where a device call on a
    /// file of this log failed; from then on `Broken`, until it is opened again. It takes no memory.
    pub fn flush<D: Disk>(&mut self, disk: &mut D) -> Result<(), BundleFault>
        requires represents { D.tells → is_broken self.old ≡ false → Represents self.old (D.view disk.old) }
        ensures sound { IsEventLog self.new }
        ensures nothing { self.old.added ≡ 0 → IsOk result × (self.new ≡ self.old) × (disk.new ≡ disk.old) }
        ensures value { OnOk result (IsFlushed self.old self.new) }
        ensures entry { OnOk result (self.old.added ≢ 0 → self.new.bundle.last ≡ Some (next_body self.old.bundle 1 (counted (line_count self.old) self.old.added) 0 0)) }
        ensures none_left { OnOk result (added_text self.new ≡ []) }
        ensures committed { D.tells → OnOk result (committed_text self.new (D.view disk.new) ≡ committed_text self.old (D.view disk.old) ++ added_text self.old) }
        ensures acknowledged { D.tells → OnOk result ((image : Image) → IsCrashImage (D.view disk.new) image → HoldsLines image self.old.lane (committed_text self.old (D.view disk.old) ++ added_text self.old)) }
        ensures any_moment { D.tells → is_broken self.old ≡ false → Throughout (IsOfEventLog self.old.lane)
            (IsEither self.old.lane (committed_text self.old (D.view disk.old)) (committed_text self.old (D.view disk.old) ++ added_text self.old)) (D.view disk.old) (D.view disk.new) }
        ensures represents { D.tells → is_broken self.new ≡ false → Represents self.new (D.view disk.new) }
        ensures calls { D.tells → CallsOfFlush self.old.bundle (D.view disk.old) (D.view disk.new) }
        ensures disk { IsErrOf result BundleFault.Disk → is_broken self.new ≡ true }
        ensures whole { OnOk result (is_broken self.new ≡ false) }
        ensures broken { IsErrOf result BundleFault.Broken ↔ (is_broken self.old ≡ true) }
        ensures fault { IfErr result (λ e. (e ≡ BundleFault.Disk) ⊎ (e ≡ BundleFault.Broken)) }
        ensures cause { HasOwnCause (IsOfEventLog self.old.lane) (IsErrOf result BundleFault.Disk) (D.view disk.old) (D.view disk.new) }
        ensures kept { OnErr result (IsKept self.old self.new) }
        ensures untouched { IsErrOf result BundleFault.Broken → (self.new ≡ self.old) × (disk.new ≡ disk.old) }
    {
        if self.added == 0 {
            return Ok(());
        }
        let lines = self.bundle.last().count.saturating_add(self.added);
        self.bundle.flush(disk, FLUSHED, lines, 0, 0)?;
        self.added = 0;
        Ok(())
    }
}

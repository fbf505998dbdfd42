ghost use Rattle.std.specs.Prelude.{◌≡◌, ◌≢◌, ◌⊎◌, ℕ, ◌+◌, ◌≤◌, ◌<◌, false, Option, Some, None, Ok, Err, IsErr, IsOk, IfOk, IfErr, IfSome, OnOk, OnErr, IsErrOf};
ghost use Rattle.lsv_disk.specs.View.{Image, IsCrashImage, HasOwnCause};
ghost use Rattle.lsv_disk.specs.Throughout.{Throughout, CallsAtMost, WritesOneOf};
ghost use Rattle.lsv_journal.specs.Last.{MayBeMade, OpeningCalls};
ghost use Rattle.lsv_journal.specs.Value as journals;
ghost use Rattle.lsv_journal.specs.Represents as represented;
ghost use Rattle.lsv_seq.specs.declared.entry.Entry.{Entry};
ghost use Rattle.lsv_seq.specs.declared.fault.DrawFault.TheVariants as draw_faults;
ghost use Rattle.lsv_seq.specs.declared.fault.SeqFault.TheVariants as faults;
ghost use Rattle.lsv_seq.specs.Entry.{body_of, entry_in, is_of_lane, most, next};
ghost use Rattle.lsv_seq.specs.Drawn.{IsAsSomeCrash, IsNumbersFile, LastDrawn, entry_at, judged, judged_entry, numbers_file};
ghost use Rattle.lsv_seq.specs.Sound.{IsSound};

use crate::entry::Entry;
use crate::{DrawFault, SeqFault};
use lsv_base::LogNo;
use lsv_disk::{Disk, FileId, Owner, Part};
use lsv_journal::{Journal, JournalFault};

/// The log numbers of a lane: lane l of L draws `l + 1`, `l + 1 + L` and so on. No call takes memory. Each call is handed
/// the disk that they were opened over, and nothing else changes their files.
#[derive(Drop)]
pub struct Numbers {
    journal: Journal<12>,
    /// What the last entry says, as far as it is known.
    kept: Entry,
    /// The number that a draw was writing that failed. The file is opened again before the next one.
    pending: Option<u32>,
    ghost sound: { IsSound journal kept pending },
}

/// The file of a lane's numbers.
pub(crate) fn numbers_file(lane: u32) -> FileId
    ensures { result ≡ numbers_file lane }
{
    FileId::new(Owner::Numbers(lane), Part::Slots)
}

impl Numbers {
    ghost use Rattle.lsv_seq.specs.Inner.{IsAnother, IsOpened, journal_of, kept_of, last_in};
    ghost use Rattle.lsv_seq.specs.Value.{lane_of, lanes_of, last_of, pending_of, next_of, IsSameLane, HasDrawn, IsPassedOver, IsNextOf, IsChanged};
    ghost use Rattle.lsv_seq.specs.Represents.{Represents};

    /// Opens the numbers of a lane of this many lanes, at most eight; files that are absent or have no entry are made, with the
    /// last number 0. Where there is an entry it stays the last one, whatever fails: it is taken over at most, and where
    /// the slots have it nothing is written.
    /// `LanesDiffer` exactly where the last entry is of another number of lanes, else `Damaged` exactly where its lane or its
    /// last number is none of this lane's; `Disk` only where a device call on a file of the numbers failed.
    pub fn open<D: Disk>(disk: &mut D, lane: u32, lanes: u32) -> Result<Self, SeqFault>
        requires lane { lane < lanes }
        requires lanes { lanes ≤ 8 }
        ensures lane { IfOk result (λ n. (lane_of n ≡ lane) × (lanes_of n ≡ lanes)) }
        ensures whole { IfOk result (λ n. pending_of n ≡ None) }
        ensures read { D.tells → IfOk result (λ n. judged lane lanes (entry_at lane (D.view disk.old).reads) ≡ Ok (last_of n)) }
        ensures refused { D.tells → IfErr result (λ e. e ≢ faults.Disk → judged lane lanes (entry_at lane (D.view disk.old).reads) ≡ Err e) }
        ensures represents { D.tells → IfOk result (λ n. Represents n (D.view disk.new)) }
        ensures any_moment { D.tells → Throughout (λ g. g ≡ numbers_file lane) (λ image. IsAsSomeCrash lane (D.view disk.old) image ⊎ LastDrawn lane lanes 0 image) (D.view disk.old) (D.view disk.new) }
        ensures kept { D.tells → entry_at lane (D.view disk.old).reads ≢ None → Throughout (λ g. g ≡ numbers_file lane) (IsAsSomeCrash lane (D.view disk.old)) (D.view disk.old) (D.view disk.new) }
        ensures same { D.tells → entry_at lane (D.view disk.old).reads ≢ None → entry_at lane (D.view disk.new).reads ≡ entry_at lane (D.view disk.old).reads }
        ensures durable { D.tells → IfOk result (λ n. (image : Image) → IsCrashImage (D.view disk.new) image → LastDrawn lane lanes (last_of n) image) }
        ensures calls { D.tells → WritesOneOf (numbers_file lane) 6 9 (IsNumbersFile lane) (D.view disk.old) (D.view disk.new) }
        ensures opened { D.tells → entry_at lane (D.view disk.old).reads ≢ None → OpeningCalls 12 (numbers_file lane) (IsNumbersFile lane) (D.view disk.old) (D.view disk.new) }
        ensures cause { HasOwnCause (IsNumbersFile lane) (IsErrOf result SeqFault.Disk) (D.view disk.old) (D.view disk.new) }
    {
        let Some(journal) = Journal::<12>::open(disk, numbers_file(lane))? else {
            return Self::fresh(disk, lane, lanes);
        };
        let Some(body) = journal.last() else {
            return Self::fresh(disk, lane, lanes);
        };
        Self::resumed(journal, body, lane, lanes)
    }

    /// Makes the files, with the last number 0.
    fn fresh<D: Disk>(disk: &mut D, lane: u32, lanes: u32) -> Result<Self, SeqFault>
        requires lane { lane < lanes }
        requires lanes { lanes ≤ 8 }
        requires may_be_made { D.tells → MayBeMade 12 (numbers_file lane) (D.view disk.old) }
        ensures opened { IfOk result (IsOpened lane lanes 0) }
        ensures fault { IfErr result (λ e. e ≡ faults.Disk) }
        ensures represents { D.tells → IfOk result (λ n. Represents n (D.view disk.new)) }
        ensures any_moment { D.tells → Throughout (λ g. g ≡ numbers_file lane)
            (λ image. IsAsSomeCrash lane (D.view disk.old) image ⊎ (entry_at lane image ≡ None) ⊎ LastDrawn lane lanes 0 image) (D.view disk.old) (D.view disk.new) }
        ensures calls { D.tells → CallsAtMost 3 4 (λ g. g ≡ numbers_file lane) (D.view disk.old) (D.view disk.new) }
        ensures cause { HasOwnCause (IsNumbersFile lane) (IsErr result) (D.view disk.old) (D.view disk.new) }
    {
        let mut journal = Journal::<12>::create(disk, numbers_file(lane))?;
        let kept = Entry {
            last: 0,
            lane,
            lanes,
        };
        journal.append(disk, kept.encode())?;
        Ok(Numbers {
            journal,
            kept,
            pending: None,
        })
    }

    /// The numbers of a journal with this last body, where it is one of the lane's.
    fn resumed(
        journal: Journal<12>,
        body: [u8; 12],
        lane: u32,
        lanes: u32,
    ) -> Result<Self, SeqFault>
        requires lane { lane < lanes }
        requires lanes { lanes ≤ 8 }
        requires last { journals.last journal ≡ Some body }
        requires file { journals.file journal ≡ numbers_file lane }
        requires whole { journals.is_broken journal ≡ false }
        ensures read { IfOk result (λ n. judged_entry lane lanes (entry_in body) ≡ Ok (last_of n)) }
        ensures refused { IfErr result (λ e. judged_entry lane lanes (entry_in body) ≡ Err e) }
        ensures opened { IfOk result (λ n. IsOpened lane lanes (last_of n) n × (journal_of n ≡ journal)) }
    {
        let kept = Entry::decode(body);
        if kept.lanes != lanes {
            return Err(SeqFault::LanesDiffer {
                kept: kept.lanes,
                asked: lanes,
            });
        }
        if kept.lane != lane || !kept.is_of_lane() {
            return Err(SeqFault::Damaged);
        }
        Ok(Numbers {
            journal,
            kept,
            pending: None,
        })
    }

    /// The last number that was drawn, 0 where none was. One that a failed draw was writing isn't counted.
    pub fn last(&self) -> u32
        ensures { result ≡ last_of self.now }
    {
        self.kept.last
    }

    /// The number after the last one, synced before the answer: no crash leaves it undrawn, and none is drawn twice.
    /// `Spent`, with the last number, exactly where the next one would have more than six digits. `Disk` only where a
    /// device call on a file of the numbers failed; the next draw opens them again, and may pass a number over. `Changed`
    /// where their last entry then is neither the one kept nor the one that the failed draw was writing: never over a disk
    /// that tells its files.
    pub fn draw<D: Disk>(&mut self, disk: &mut D) -> Result<LogNo, DrawFault>
        requires represents { D.tells → Represents self.old (D.view disk.old) }
        ensures lane { IsSameLane self.old self.new }
        ensures drawn { IfOk result (λ n. (last_of self.new ≡ n) × (pending_of self.new ≡ None)) }
        ensures after { IfOk result (IsNextOf self.old) }
        ensures above { IfOk result (λ n. last_of self.old < n) }
        ensures within { IfOk result (λ n. n ≤ most) }
        ensures kept { OnErr result (IsPassedOver self.old self.new) }
        ensures spent { (m : ℕ) → IsErrOf result (DrawFault.Spent m) → (last_of self.new ≡ m) × (pending_of self.new ≡ None) × (most < next_of self.new) }
        ensures enough { pending_of self.old ≡ None → most < next_of self.old → result ≡ Err (DrawFault.Spent (last_of self.old)) }
        ensures idle { pending_of self.old ≡ None → (m : ℕ) → IsErrOf result (DrawFault.Spent m) → (self.new ≡ self.old) × (disk.new ≡ disk.old) }
        ensures fault { IsErrOf result DrawFault.Disk → pending_of self.new ≡ Some (next_of self.new) }
        ensures changed { (kept : _) (now : _) → IsErrOf result (DrawFault.Changed kept now) → (self.new ≡ self.old) × IsChanged self.old kept now }
        ensures unchanged { D.tells → (kept : _) (now : _) → result ≢ Err (DrawFault.Changed kept now) }
        ensures represents { D.tells → Represents self.new (D.view disk.new) }
        ensures any_moment { D.tells → Throughout (λ g. g ≡ numbers_file (lane_of self.old)) (λ image. HasDrawn self.old image ⊎ HasDrawn self.new image) (D.view disk.old) (D.view disk.new) }
        ensures durable { D.tells → IfOk result (λ n. (image : Image) → IsCrashImage (D.view disk.new) image → LastDrawn (lane_of self.old) (lanes_of self.old) n image) }
        ensures calls { D.tells → WritesOneOf (numbers_file (lane_of self.old)) 5 7 (IsNumbersFile (lane_of self.old)) (D.view disk.old) (D.view disk.new) }
        ensures few { D.tells → pending_of self.old ≡ None → CallsAtMost 2 2 (λ g. g ≡ numbers_file (lane_of self.old)) (D.view disk.old) (D.view disk.new) }
        ensures cause { HasOwnCause (IsNumbersFile (lane_of self.old)) (IsErrOf result DrawFault.Disk) (D.view disk.old) (D.view disk.new) }
    {
        self.settle(disk)?;
        let Some(number) = self.kept.next() else {
            return Err(DrawFault::Spent(self.kept.last));
        };
        self.write(disk, number)?;
        Ok(number)
    }

    /// After a draw that failed, opens the files again: the last number is the one before or the one that the draw was
    /// writing.
    fn settle<D: Disk>(&mut self, disk: &mut D) -> Result<(), DrawFault>
        requires represents { D.tells → Represents self.old (D.view disk.old) }
        ensures lane { IsSameLane self.old self.new }
        ensures settled { OnOk result (pending_of self.new ≡ None) }
        ensures last { IsPassedOver self.old self.new }
        ensures same { pending_of self.old ≡ None → OnOk result (self.new ≡ self.old) }
        ensures untouched { pending_of self.old ≡ None → disk.new ≡ disk.old }
        ensures at_once { pending_of self.old ≡ None → IsOk result }
        ensures err { OnErr result (self.new ≡ self.old) }
        ensures fault { (m : ℕ) → result ≢ Err (DrawFault.Spent m) }
        ensures changed { (kept : _) (now : _) → IsErrOf result (DrawFault.Changed kept now) → IsChanged self.old kept now }
        ensures unchanged { D.tells → (kept : _) (now : _) → result ≢ Err (DrawFault.Changed kept now) }
        ensures represents { D.tells → Represents self.new (D.view disk.new) }
        ensures any_moment { D.tells → Throughout (λ g. g ≡ numbers_file (lane_of self.old)) (HasDrawn self.old) (D.view disk.old) (D.view disk.new) }
        ensures calls { D.tells → WritesOneOf (numbers_file (lane_of self.old)) 3 5 (IsNumbersFile (lane_of self.old)) (D.view disk.old) (D.view disk.new) }
        ensures cause { HasOwnCause (IsNumbersFile (lane_of self.old)) (IsErrOf result DrawFault.Disk) (D.view disk.old) (D.view disk.new) }
    {
        let Some(pending) = self.pending else {
            return Ok(());
        };
        let now = Journal::<12>::open(disk, numbers_file(self.kept.lane))?;
        self.take(now, pending)
    }

    /// Takes on a journal that was opened again, where its last entry is the one that is kept or the one that the failed
    /// draw was writing.
    fn take(&mut self, now: Option<Journal<12>>, pending: u32) -> Result<(), DrawFault>
        requires pending { pending_of self.old ≡ Some pending }
        requires file { IfSome now (λ j. journals.file j ≡ numbers_file (lane_of self.old)) }
        requires whole { IfSome now (λ j. journals.is_broken j ≡ false) }
        ensures lane { IsSameLane self.old self.new }
        ensures settled { OnOk result (pending_of self.new ≡ None) }
        ensures last { IsPassedOver self.old self.new }
        ensures journal { OnOk result (now ≡ Some (journal_of self.new)) }
        ensures err { OnErr result (self.new ≡ self.old) }
        ensures changed { IfErr result (λ e. (e ≡ draw_faults.Changed (body_of (kept_of self.old)) (last_in now)) × IsAnother self.old (last_in now)) }
    {
        let Some(journal) = now else {
            return Err(self.changed(None));
        };
        let Some(body) = journal.last() else {
            return Err(self.changed(None));
        };
        let entry = Entry::decode(body);
        if !entry.is_either(self.kept, pending) {
            return Err(self.changed(Some(body)));
        }
        self.journal = journal;
        self.kept = entry;
        self.pending = None;
        Ok(())
    }

    fn changed(&self, now: Option<[u8; 12]>) -> DrawFault
        ensures { result ≡ draw_faults.Changed (body_of (kept_of self.now)) now }
    {
        DrawFault::Changed {
            kept: self.kept.encode(),
            now,
        }
    }

    /// Writes a number as the last one.
    fn write<D: Disk>(&mut self, disk: &mut D, number: LogNo) -> Result<(), DrawFault>
        requires represents { D.tells → Represents self.old (D.view disk.old) }
        requires settled { pending_of self.old ≡ None }
        requires after { number ≡ next_of self.old }
        ensures lane { IsSameLane self.old self.new }
        ensures drawn { OnOk result ((last_of self.new ≡ number) × (pending_of self.new ≡ None)) }
        ensures err { OnErr result ((last_of self.new ≡ last_of self.old) × (pending_of self.new ≡ Some number)) }
        ensures fault { IfErr result (λ e. e ≡ draw_faults.Disk) }
        ensures represents { D.tells → Represents self.new (D.view disk.new) }
        ensures any_moment { D.tells → Throughout (λ g. g ≡ numbers_file (lane_of self.old)) (λ image. HasDrawn self.old image ⊎ HasDrawn self.new image) (D.view disk.old) (D.view disk.new) }
        ensures calls { D.tells → CallsAtMost 2 2 (λ g. g ≡ numbers_file (lane_of self.old)) (D.view disk.old) (D.view disk.new) }
        ensures cause { HasOwnCause (IsNumbersFile (lane_of self.old)) (IsErr result) (D.view disk.old) (D.view disk.new) }
    {
        let number = number.get();
        let after = Entry {
            last: number,
            ..self.kept
        };
        match self.journal.append(disk, after.encode()) {
            Ok(()) => {
                self.kept = after;
                Ok(())
            }
            Err(_) => {
                self.pending = Some(number);
                Err(DrawFault::Disk)
            }
        }
    }
}

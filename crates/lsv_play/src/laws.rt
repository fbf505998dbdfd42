//! Laws of the definitions that the contracts of this crate cite. They do nothing when they run.
ghost use Rattle.std.specs.Prelude.{◌≡◌, ◌++◌, ◌≤◌, ℕ, List, Some, Result, Ok, Err};
ghost use Rattle.lsv_bundle.specs.Shape.{IsPart as IsPartOf};
ghost use Rattle.lsv_bundle.specs.declared.body.Body.{Body};
ghost use Rattle.lsv_bundle.specs.declared.shape.Shape.TheVariants as shapes;
ghost use Rattle.lsv_disk.specs.View.{Image};
ghost use Rattle.lsv_disk.specs.declared.file.Part.{Part};
ghost use Rattle.lsv_iolog.specs.Reading.{AreThere};
ghost use Rattle.lsv_iolog.specs.Recovered.{Replays, owner_of};
ghost use Rattle.lsv_play.specs.declared.options.Options.{Options};
ghost use Rattle.lsv_play.specs.declared.screen.Item.{Item};
ghost use Rattle.lsv_play.specs.Items.{IsPart};
ghost use Rattle.lsv_play.specs.Schedule.{play};
ghost use Rattle.lsv_record.specs.Points.{Stored};
ghost use Rattle.lsv_record.specs.declared.records.Record.{Record};
ghost use Rattle.lsv_play.specs.Beside.{IsLookedAt, IsWritten};
ghost use Rattle.lsv_play.specs.Playing.{Plays, text_at};
ghost use Rattle.lsv_play.specs.declared.fault.PlayFault.{PlayFault};
ghost use Rattle.lsv_play.specs.declared.fault.PlayFault.TheVariants as faults;

/// If the disk holds a log, a first part of the schedule of its records is shown, and at Ok all of it. Such a log is
/// never reported absent or damaged, and no log is reported cut that nobody writes.
pub fn a_stored_log_is_played()
    ensures part { (o : Options) (n : ℕ) (image : Image) (r : Result (Unit {0}) PlayFault) (put : List Item) (log : Stored) → Replays image n (Some log) → Plays o n image r put → IsPart put (play o log.records) }
    ensures whole { (o : Options) (n : ℕ) (image : Image) (end : Unit {0}) (put : List Item) (log : Stored) → Replays image n (Some log) → Plays o n image (Ok end) put → put ≡ play o log.records }
    ensures there { (o : Options) (n : ℕ) (image : Image) (put : List Item) (log : Stored) → Replays image n (Some log) → Plays {T = Unit {0}} o n image (Err faults.Absent) put → ⊥ }
    ensures undamaged { (o : Options) (n : ℕ) (image : Image) (put : List Item) (log : Stored) (part : Part) → Replays image n (Some log) → Plays {T = Unit {0}} o n image (Err (faults.Damaged part)) put → ⊥ }
    ensures uncut { (o : Options) (n : ℕ) (image : Image) (put : List Item) → Plays {T = Unit {0}} o n image (Err faults.Resumed) put → ⊥ }
{}

/// Others may append to a log, finish it or cut it between any two calls of its reader. The reader takes its last entry
/// at one moment, and at a later one finds that the last entry counts as many cuts. Then the disk answered each read of
/// committed bytes between the two as it would have at the first moment, and no file was short. So what a reader shows
/// of them is what it shows of a log that nobody writes, and that is a first part of what the log holds at the look.
pub fn a_log_that_was_not_cut_reads_the_same()
    ensures bytes { (n : ℕ) (images : ℕ → Image) (logs : ℕ → Stored) (body : Body) (opened looked : ℕ) → IsWritten n images logs → IsLookedAt n images body opened looked
        → (moment : ℕ) → opened ≤ moment → moment ≤ looked → (part : Part) → IsPartOf shapes.Log part → text_at n body (images moment) part ≡ text_at n body (images opened) part }
    ensures there { (n : ℕ) (images : ℕ → Image) (logs : ℕ → Stored) (body : Body) (opened looked : ℕ) → IsWritten n images logs → IsLookedAt n images body opened looked
        → (moment : ℕ) → opened ≤ moment → moment ≤ looked → AreThere (owner_of n) body (images moment) }
    ensures first { (n : ℕ) (images : ℕ → Image) (logs : ℕ → Stored) (body : Body) (opened looked : ℕ) → IsWritten n images logs → IsLookedAt n images body opened looked
        → (more : List Record) × ((logs looked).records ≡ (logs opened).records ++ more) }
    ensures shown { (n : ℕ) (images : ℕ → Image) (logs : ℕ → Stored) (body : Body) (opened looked : ℕ) → IsWritten n images logs → IsLookedAt n images body opened looked
        → (o : Options) (r : Result (Unit {0}) PlayFault) (put : List Item) → Plays o n (images opened) r put → IsPart put (play o (logs looked).records) }
{}

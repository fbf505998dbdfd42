//! Crash recovery of the stores that keepers open and turn, and what room changes. These functions do nothing when they run.

ghost use Rattle.std.specs.Prelude.{◌≡◌, ◌≤◌, ℕ, List, [], Some};
ghost use Rattle.lsv_base.specs.declared.time.TimeSpec.{TimeSpec};
ghost use Rattle.lsv_disk.specs.View.{Image, IsCrashImage};
ghost use Rattle.lsv_session.specs.declared.job.Job.{Job};
ghost use Rattle.lsv_session.specs.declared.reply.Reply.{Reply};
ghost use Rattle.lsv_machine.specs.Disks.{AllWithin, NumbersFit, Past};
ghost use Rattle.lsv_machine.specs.Durable.{Good};
ghost use Rattle.lsv_machine.specs.History.{promised};
ghost use Rattle.lsv_machine.specs.InnerSoFar.{SoFar, with_turn};
ghost use Rattle.lsv_machine.specs.Keeping.{KeepsLines, Opened, OpensStore, Turned};
ghost use Rattle.lsv_machine.specs.Lives.{AllRuns, Chained, Life, Lived, left_by};
ghost use Rattle.lsv_machine.specs.Machine.{IsOfLane, Machine, Settings};
ghost use Rattle.lsv_machine.specs.Recovery.{Recovers, Story};
ghost use Rattle.lsv_machine.specs.Turns.{Happened, turn_of};
ghost use Rattle.lsv_keeper.specs.Reading.{IsDrawn, reading_of};
ghost use Rattle.lsv_keeper.specs.Represents.{Represents};
ghost use Rattle.lsv_keeper.specs.Room.{IsRoomier};
ghost use Rattle.lsv_keeper.specs.Value.{IsResting, KeeperView};

use lsv_disk::Disk;

/// A run recovers, turn by turn: where its store was opened or couldn't be, where it was opened as the machine, and with
/// each turn more.
pub fn a_run_recovers_turn_by_turn<D: Disk>()
    ensures opened_only { (lane lanes : ℕ) (texts : List (List ℕ)) (found new : D) → OpensStore (reading_of lane lanes) lane lanes (D.view found) (D.view new) →
        Recovers (reading_of lane lanes) lane lanes texts (record { found = D.view found; left = D.view new }) (record { opened = (D.view new).moment; turns = [] }) }
    ensures opened { (set : Settings) (texts : List (List ℕ)) (m : Machine) (found new : D) → NumbersFit (reading_of set.lane set.lanes) set.lane set.lanes (IsCrashImage (D.view found)) →
        Opened (reading_of set.lane set.lanes) set texts m (D.view found) (D.view new) →
        SoFar (reading_of set.lane set.lanes) set texts (record { found = D.view found; left = D.view new }) m (record { opened = (D.view new).moment; turns = [] }) }
    ensures turn { (set : Settings) (texts : List (List ℕ)) (s : Story) (now : TimeSpec) (jobs : List Job) (replies : List Reply) (m after : Machine) (found old new : D) →
        SoFar (reading_of set.lane set.lanes) set texts (record { found = D.view found; left = D.view old }) m s →
        (t : Turned (reading_of set.lane set.lanes) set now jobs replies m after (D.view old) (D.view new)) →
        SoFar (reading_of set.lane set.lanes) set texts (record { found = D.view found; left = D.view new }) after (with_turn s now t.acts t.tail (D.view new).moment after.lines) }
{}

/// A turn keeps the event log: if each image held a text that the history allows, it does at each moment of the turn and at its
/// end. The lines of the turn are there wholly or not at all.
pub fn a_turn_keeps_event_lines<D: Disk>()
    ensures { D.tells → (set : Settings) (now : TimeSpec) (jobs : List Job) (replies : List Reply) (m after : Machine) (old new : D) →
        (t : Turned (reading_of set.lane set.lanes) set now jobs replies m after (D.view old) (D.view new)) →
        KeepsLines (reading_of set.lane set.lanes) set t.acts (turn_of t.acts t.tail) m (D.view old) (D.view new) }
{}

/// Over every list of runs and stops from an empty store, each image that the last stop may have left is, log by log, within
/// what happened.
pub fn runs_recover<D: Disk>()
    ensures { D.tells → (lane lanes : ℕ) (first : D) (lives : List (Life D)) (n : ℕ) → Chained (reading_of lane lanes) lane lanes (λ d. D.view d) first lives →
        (p : Past) × Lived (reading_of lane lanes) (λ d. D.view d) n lives p × AllWithin (reading_of lane lanes) p n (left_by (λ d. D.view d) first lives) }
{}

/// The same in other words: of each log and each such image there is one history of all these runs for which it is good: the
/// start of each, its turns that had ended, and some first jobs of the one that was cut, if one was.
pub fn all_runs_recover<D: Disk>()
    ensures { D.tells → (lane lanes : ℕ) (first : D) (lives : List (Life D)) (n : ℕ) → Chained (reading_of lane lanes) lane lanes (λ d. D.view d) first lives →
        (image : Image) → left_by (λ d. D.view d) first lives image → (h : List Happened) × AllRuns lives h × Good (reading_of lane lanes) h image n }
{}

/// Where no image holds a file of a log above the last number drawn in any image, the last number is at least each that was
/// told.
pub fn a_number_that_was_told_is_drawn<D: Disk>()
    ensures { (lane lanes : ℕ) (d : D) (k : ℕ) (h : List Happened) (n p last : ℕ) (image a : Image) → NumbersFit (reading_of lane lanes) lane lanes ((D.view d).crash_images_at k) → IsOfLane lane lanes n →
        (D.view d).crash_images_at k image → (D.view d).crash_images_at k a → IsDrawn lane lanes a last → Good (reading_of lane lanes) h image n → promised h n ≡ Some p → n ≤ last }
{}

/// A keeper that only has room for more connections stands for the machine that it stood for, and rests where it rested.
pub fn more_room_changes_nothing<D: Disk>()
    ensures stands { (old new : KeeperView) (m : Machine) (disk : D) → IsRoomier old new → Represents old (D.view disk) m → Represents new (D.view disk) m }
    ensures rests { (old new : KeeperView) → IsRoomier old new → IsResting old → IsResting new }
{}

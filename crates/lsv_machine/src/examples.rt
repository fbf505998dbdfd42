//! Small cases that show why the definitions are as they are. These functions do nothing when they run.

ghost use Rattle.std.specs.Prelude.{◌≡◌, ℕ, List, [], ◌∷◌, ◌++◌, Some, true, false};
ghost use Rattle.lsv_machine.specs.Durable.{GoodLog};
ghost use Rattle.lsv_machine.specs.Examples.{FoundWithin, above, all_lost, both_write, conn, cut_goes_on, cut_stopped, dropped_restart, fails_restart, one_byte, one_lane, promising, restarts, resumed_longer, resumed_then, starting, two_committed, uncut, unpromised, was_cut};
ghost use Rattle.lsv_machine.specs.History.{ledger, promised, reads_log, request_in, settled, writers};
ghost use Rattle.lsv_machine.specs.Machine.{LogState.Absent, Machine};
ghost use Rattle.lsv_machine.specs.Recovery.{GoesOn};
ghost use Rattle.lsv_machine.specs.Starts.{StartsAs};
ghost use Rattle.lsv_machine.specs.Tails.{no_answer};
ghost use Rattle.lsv_machine.specs.Turns.{Happened, Happened.Begins, Happened.Did, Run, all_acted, turn_of};

/// Why a run's end has its exception for a log that it didn't settle: a crash in a cut leaves a disk that may read as cut,
/// and a later crash may leave the log uncut, as long as nobody asked for it. The uncut log is within what happened before,
/// and not good for what goes on from the cut, though the next run did nothing but drop a job. That job's restart has no
/// answer, as an accepted one: only who was shut tells them apart.
pub fn an_uncut_log_may_come_back()
    ensures within { FoundWithin cut_stopped.history cut_stopped.acts uncut }
    ensures also { FoundWithin cut_stopped.history cut_stopped.acts was_cut }
    ensures goes_on { GoesOn [] cut_stopped cut_goes_on }
    ensures reads { GoodLog (ledger cut_goes_on 1) was_cut }
    ensures lost { GoodLog (ledger (cut_goes_on ++ turn_of dropped_restart no_answer) 1) uncut → ⊥ }
    ensures unsettled { settled 1 cut_goes_on (turn_of dropped_restart no_answer) ≡ false }
    ensures no_answer { reads_log 1 false (request_in (restarts 3).body) [] ≡ true }
    ensures settled { settled 1 cut_goes_on (turn_of resumed_then no_answer) ≡ true }
{}

/// Why the exception is chosen for all images of a moment together: of an uncut log and of one that was gone on with, the one is
/// within what happened before, the other within what happened since, and neither is within the other's.
pub fn images_of_a_moment_go_together()
    ensures uncut { FoundWithin cut_goes_on resumed_then uncut → ⊥ }
    ensures longer { FoundWithin cut_stopped.history cut_stopped.acts resumed_longer → ⊥ }
    ensures since { FoundWithin cut_goes_on resumed_then resumed_longer }
{}

/// Why no one history need serve all starts: a cut is stopped, the next run reads the log as cut and leaves it alone, and the one
/// after it may find it uncut. Whichever history the first of them goes on from, the uncut log is not good for it with that run.
pub fn no_history_serves_both_starts()
    ensures { (g : List Happened) → GoesOn [] cut_stopped g → GoodLog (ledger g 1) was_cut → GoodLog (ledger (g ++ turn_of dropped_restart no_answer) 1) uncut → ⊥ }
{}

/// Why all records that a run reads of a log are promised at its start: were they not, a restart that fails inside its cut
/// could lose records that a commit point of an earlier run has promised.
pub fn a_promise_can_be_lost()
    ensures start { StartsAs one_lane [] (starting (promising (one_byte 5 ∷ one_byte 5 ∷ []) 2) 1) }
    ensures run { Run one_lane unpromised (Did fails_restart ∷ []) all_lost }
    ensures promised { promised ((two_committed ++ Begins [] ∷ []) ++ Did fails_restart ∷ []) 1 ≡ Some 1 }
    ensures lost { all_lost.logs 1 ≡ promising [] 0 }
{}

/// Why no log of the lane may be above the last number drawn at a run's start: that log can be gone on with, and then an
/// accept draws its number, so that two connections write it.
pub fn a_log_above_the_last_number_has_two_writers()
    ensures start { StartsAs one_lane [] (starting Absent 0) }
    ensures run { (end : Machine) × Run one_lane above (all_acted both_write) end }
    ensures two { writers (Begins [] ∷ all_acted both_write) 1 ≡ conn 2 ∷ conn 1 ∷ [] }
{}

//! Small cases that show what the definitions say, and why a premise is there. These functions do nothing when they run.

ghost use Rattle.std.specs.Prelude.{◌≡◌, ◌<◌, ◌%◌, ℕ, [], ◌∷◌, Some, length};
ghost use Rattle.lsv_links.specs.Lanes.{lane_of};
ghost use Rattle.lsv_machine.specs.Disks.{AsksToResume};
ghost use Rattle.lsv_machine.specs.Examples.{conn, restarts};
ghost use Rattle.lsv_machine.specs.History.{writers};
ghost use Rattle.lsv_lanes.specs.Examples.{both_go_on, greets_then_asks, one_goes_on, opens_then_asks};
ghost use Rattle.lsv_lanes.specs.Histories.{IsOfRun, writers_in_all};
ghost use Rattle.lsv_lanes.specs.Jobs.{AsksFirst};

/// Why a lane keeps to its own logs: two lanes that go on with one log have a writer of it each, though each history has one.
pub fn lanes_that_share_a_log_have_two_writers()
    ensures each { (lane : ℕ) → writers (both_go_on lane) 1 ≡ conn lane ∷ [] }
    ensures two { length (writers_in_all 2 both_go_on 1) ≡ 2 }
{}

/// Why the first restart alone counts: a connection that opens a log is of its home lane, here lane 1 of 2, and may name log
/// 1 afterwards, which is of lane 0. A hello decides nothing: after it a restart goes to its log's lane.
pub fn a_later_restart_may_name_any_log()
    ensures lane { lane_of 2 1 opens_then_asks ≡ Some 1 }
    ensures asks { AsksToResume (restarts 1).body 1 }
    ensures later { AsksFirst opens_then_asks 1 → ⊥ }
    ensures first { AsksFirst greets_then_asks 1 }
    ensures after_hello { lane_of 2 1 greets_then_asks ≡ Some 0 }
{}

/// Two lanes can keep to their logs: connection 1, whose home is lane 1, goes on with log 1 in lane 0, and is its one writer.
pub fn two_lanes_can_keep_to_their_logs()
    ensures home { (conn 1).seq % 2 ≡ 1 }
    ensures runs { (lane : ℕ) → lane < 2 → IsOfRun lane 2 (one_goes_on lane) }
    ensures writers { writers_in_all 2 one_goes_on 1 ≡ conn 1 ∷ [] }
{}

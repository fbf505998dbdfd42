//! What each of several lanes does with the logs of all. These functions do nothing when they run.

ghost use Rattle.std.specs.Prelude.{◌≡◌, ◌<◌, ℕ, List, [], ◌∷◌, ◌++◌, None};
ghost use Rattle.lsv_disk.specs.declared.file.FileId.{FileId};
ghost use Rattle.lsv_session.specs.Transcript.{AreFirst, bodies_of};
ghost use Rattle.lsv_session.specs.declared.connection.ConnId.{ConnId};
ghost use Rattle.lsv_session.specs.declared.job.Job.{Job};
ghost use Rattle.lsv_turn.specs.Turns.{LaneTurn, jobs_in};
ghost use Rattle.lsv_links.specs.Links.{ServesPorts};
ghost use Rattle.lsv_links.specs.Views.{PortView};
ghost use Rattle.lsv_machine.specs.Disks.{AsksInRun, IsOfLaneStore, TouchesStore};
ghost use Rattle.lsv_machine.specs.History.{ledger, writers};
ghost use Rattle.lsv_machine.specs.Machine.{IsOfLane, Machine, Settings};
ghost use Rattle.lsv_machine.specs.Recovery.{AnyTurnAsks, Turn};
ghost use Rattle.lsv_machine.specs.Starts.{StartsAs};
ghost use Rattle.lsv_machine.specs.Turns.{Happened, Happened.Begins, Run};
ghost use Rattle.lsv_lanes.specs.Histories.{HasOneWriterInAll, IsOfRun, KeepsToLane, MakesTurns, SaysNoMore, jobs_of};
ghost use Rattle.lsv_lanes.specs.Jobs.{ArePut, AsksFirst, CameTo, IsShared};

use lsv_disk::Disk;

/// Each lane gets the jobs of the connections whose lane it is, and each connection's end is its last job. `served`: if the
/// links of all ports are served. `put`: if they are served up to some point, as at each end of a run. `shared`: if what each
/// connection has said so far went to its lane, as at each moment. `some`: and so it is of what a lane has taken, if that is of
/// each connection a first part.
pub fn each_lane_gets_its_jobs()
    ensures served { (lanes : ℕ) (turns : ℕ → List LaneTurn) (old new : List PortView) → ServesPorts (λ lane. ⊥) lanes turns old new →
        (lane : ℕ) → CameTo lane lanes (jobs_in (turns lane)) }
    ensures put { (lanes ports : ℕ) (turns : ℕ → List LaneTurn) → ArePut lanes ports turns → (lane : ℕ) → CameTo lane lanes (jobs_in (turns lane)) }
    ensures shared { (lanes : ℕ) (jobs : ℕ → List Job) → ((k : ConnId) → IsShared lanes k jobs) → (lane : ℕ) → CameTo lane lanes (jobs lane) }
    ensures some { (lane lanes : ℕ) (some jobs : List Job) → CameTo lane lanes jobs → ((k : ConnId) → AreFirst (bodies_of k some) (bodies_of k jobs)) → CameTo lane lanes some }
{}

/// A restart that comes first on its connection, or right after its first hello, goes to the lane of the log that it names.
/// So a run with these jobs keeps to its lane, and has done so at each moment before.
pub fn a_restart_goes_to_its_logs_lane()
    ensures first { (lane lanes : ℕ) (jobs : List Job) (k : ConnId) (n : ℕ) → CameTo lane lanes jobs → AsksFirst (bodies_of k jobs) n → IsOfLane lane lanes n }
    ensures keeps { (set : Settings) (history : List Happened) → CameTo set.lane set.lanes (jobs_of history) → KeepsToLane set history }
    ensures so_far { (set : Settings) (history more : List Happened) → KeepsToLane set (history ++ more) → KeepsToLane set history }
{}

/// If a run keeps to its lane, each restart that is let through in it names a log of the lane. Of any other log nobody is a
/// writer at any moment; the machine's log is the one of the start, and the history says no more of it than before.
/// `history` of the second clause and `run` of the third are what of the run has happened.
pub fn a_lane_writes_its_own_logs()
    ensures first { (set : Settings) (texts : List (List ℕ)) (start : Machine) (history : List Happened) (n : ℕ) → StartsAs set texts start → KeepsToLane set history →
        AsksInRun set start history n → IsOfLane set.lane set.lanes n }
    ensures machine { (set : Settings) (texts : List (List ℕ)) (start end : Machine) (history : List Happened) (n : ℕ) → StartsAs set texts start → Run set start history end → KeepsToLane set history →
        (IsOfLane set.lane set.lanes n → ⊥) → (end.owner n ≡ None) × (end.logs n ≡ start.logs n) }
    ensures history { (set : Settings) (texts : List (List ℕ)) (start end : Machine) (before run : List Happened) (n : ℕ) → StartsAs set texts start → Run set start run end → KeepsToLane set run →
        (IsOfLane set.lane set.lanes n → ⊥) → SaysNoMore (ledger before n) (ledger (before ++ Begins texts ∷ run) n) }
{}

/// No log has two writers, over the histories of all lanes together, each up to any moment of its own. `kept`: if each lane
/// keeps to its logs. `came`: if the jobs of the turns that each lane makes came to it. `served`: if the links of all ports are
/// served by these turns. `put`: if they are served by them up to some point, as at each end of a run.
pub fn a_log_has_one_writer_in_all()
    ensures kept { (lanes : ℕ) (histories : ℕ → List Happened) → ((lane : ℕ) → lane < lanes → IsOfRun lane lanes (histories lane)) → HasOneWriterInAll lanes histories }
    ensures came { (lanes : ℕ) (turns : ℕ → List LaneTurn) (histories : ℕ → List Happened) → ((lane : ℕ) → CameTo lane lanes (jobs_in (turns lane))) →
        ((lane : ℕ) → lane < lanes → MakesTurns lane lanes (turns lane) (histories lane)) → HasOneWriterInAll lanes histories }
    ensures served { (lanes : ℕ) (turns : ℕ → List LaneTurn) (old new : List PortView) (histories : ℕ → List Happened) → ServesPorts (λ lane. ⊥) lanes turns old new →
        ((lane : ℕ) → lane < lanes → MakesTurns lane lanes (turns lane) (histories lane)) → HasOneWriterInAll lanes histories }
    ensures put { (lanes ports : ℕ) (turns : ℕ → List LaneTurn) (histories : ℕ → List Happened) → ArePut lanes ports turns →
        ((lane : ℕ) → lane < lanes → MakesTurns lane lanes (turns lane) (histories lane)) → HasOneWriterInAll lanes histories }
{}

/// A run that keeps to its lane touches no file but those of the lane's store. `own`: if it touched the files of other logs
/// only where a restart was let through. `named`: a run that recovers does so, if each restart in it, also one that is
/// refused, names a log of the lane. `apart`: the stores of two lanes have no file in common.
pub fn lanes_touch_their_own_files<D: Disk>()
    ensures own { (set : Settings) (texts : List (List ℕ)) (start : Machine) (history : List Happened) (old new : D) → StartsAs set texts start → KeepsToLane set history →
        TouchesStore set.lane set.lanes (AsksInRun set start history) (D.view old) (D.view new) → TouchesStore set.lane set.lanes (λ n. ⊥) (D.view old) (D.view new) }
    ensures named { (lane lanes : ℕ) (turns : List Turn) (old new : D) → TouchesStore lane lanes (AnyTurnAsks turns) (D.view old) (D.view new) → ((n : ℕ) → AnyTurnAsks turns n → IsOfLane lane lanes n) →
        TouchesStore lane lanes (λ n. ⊥) (D.view old) (D.view new) }
    ensures apart { (a b lanes : ℕ) (file : FileId) → a < lanes → b < lanes → IsOfLaneStore a lanes (λ n. ⊥) file → IsOfLaneStore b lanes (λ n. ⊥) file → a ≡ b }
{}

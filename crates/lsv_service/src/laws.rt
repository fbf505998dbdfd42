//! What comes of a legal conversation over a link of a server, and how lanes keep apart. These functions do nothing when they run.

ghost use Rattle.std.specs.Prelude.{ℕ, List, Bool};
ghost use Rattle.lsv_event.specs.declared.event.Kind.{Kind};
ghost use Rattle.lsv_lane.specs.Store.{lane_settings};
ghost use Rattle.lsv_lane.specs.declared.bay.Bay.{Bay};
ghost use Rattle.lsv_machine.specs.Machine.{Settings};
ghost use Rattle.lsv_links.specs.Lanes.{one_lane};
ghost use Rattle.lsv_links.specs.Links.{ServesPort};
ghost use Rattle.lsv_links.specs.Views.{PortView};
ghost use Rattle.lsv_port.specs.Ledger.{Listening};
ghost use Rattle.lsv_reactor.specs.declared.rounds.PortsEnd.{PortsEnd};
ghost use Rattle.lsv_service.specs.Apart.{KeepApart};
ghost use Rattle.lsv_service.specs.Complete.{Completes, CompletesLanes};
ghost use Rattle.lsv_service.specs.Lanes.{RunsLanes, RunsServer, bay_by};
ghost use Rattle.lsv_service.specs.Runs.{RunsStore};
ghost use Rattle.lsv_service.specs.declared.run.End.{End};
ghost use Rattle.lsv_service.specs.declared.run.End.TheVariants.{Over};
ghost use Rattle.lsv_turn.specs.Turns.{LaneTurn, TapeTurn, jobs_in, replies_in};

use lsv_base::Clock;
use lsv_disk::Disk;
use lsv_reactor::Endpoint;
use lsv_turn::Tape;

/// In a run that came to its end over a store of one lane, each connection is served over which a legal conversation came that
/// opens a log, whatever came of others, if no call of the disk failed, memory was ample for it, and no limit was passed: all of
/// it came; it was told its log's number, which is one of the lane and above the last one drawn, and its commit points, and
/// nothing else; and the disk replays the log as all that was sent, as it is masked, with its exit.
pub fn a_legal_conversation_over_a_link_is_served<D: Disk, G: Tape>()
    ensures { (set : Settings) (texts : List (List ℕ)) (found left : D) (tape new_tape : List TapeTurn) (end : PortsEnd) (turns : List LaneTurn) →
        (runs : RunsStore D.tells G.tells set texts (D.view found) (D.view left) tape new_tape (Over end) turns) → (told : D.tells) →
        (worker : ℕ) (before after : PortView) → (served : ServesPort (λ lane. D.tells) 1 worker (λ lane. jobs_in (one_lane lane turns)) (λ lane. replies_in (one_lane lane turns)) before after) →
        Completes set texts (D.view found) (D.view left) turns (runs.keeps told) worker before after served }
{}

/// The same of a run of several lanes: each such connection is served so by its home lane, and its log is of that lane's store.
/// What others send to any lane, and what fails in the store of another lane, changes nothing of it.
pub fn a_legal_conversation_is_served_by_its_home_lane<D: Disk, C: Clock, G: Tape>()
    ensures { (set : ℕ → Settings) (texts : List (List ℕ)) (lanes : ℕ) (olds news : List (Bay D C G)) (end : PortsEnd) (turns : ℕ → List LaneTurn) →
        (runs : RunsLanes (bay_by ⟦<D as Disk>⟧ ⟦<G as Tape>⟧) D.tells G.tells set texts lanes olds news (Over end) turns) → (told : D.tells) →
        (worker : ℕ) (before after : PortView) → (served : ServesPort (λ m. D.tells) lanes worker (λ m. jobs_in (turns m)) (λ m. replies_in (turns m)) before after) →
        CompletesLanes (bay_by ⟦<D as Disk>⟧ ⟦<G as Tape>⟧) set texts lanes runs.opened olds news turns (λ m found left less was is. (runs.kept m found left less was is).keeps told) worker before after served }
{}

/// In a run whose endpoints and disks tell their content the lanes keep apart, however it ended: also out of memory, and if a
/// store couldn't be opened. Each lane got jobs only of its connections and touched only files of its own store, and no log
/// has two writers in all lanes together.
pub fn lanes_keep_apart<T: Endpoint, D: Disk, C: Clock, G: Tape>()
    ensures { (kind : Kind) (log_exit : Bool) (texts : List (List ℕ)) (lanes : ℕ) (starts : ℕ → T.Start) (asked : Listening) (olds news : List T) (bays left : List (Bay D C G)) (end : End) →
        (run : RunsServer ⟦<T as Endpoint>⟧ (bay_by ⟦<D as Disk>⟧ ⟦<G as Tape>⟧) D.tells G.tells (λ l. lane_settings l lanes kind log_exit) texts lanes starts asked olds news bays left end) →
        D.tells → T.tells → KeepApart (bay_by ⟦<D as Disk>⟧ ⟦<G as Tape>⟧) lanes bays left run.turns }
{}

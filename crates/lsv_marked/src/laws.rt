//! A log that was relayed is held by the other server. This function does nothing when it runs.

ghost use Rattle.std.specs.Prelude.{◌≡◌, ℕ, List, Some, Ok};
ghost use Rattle.lsv_dialogue.specs.Events.{heard};
ghost use Rattle.lsv_forward.specs.Carried.{Carries, IsEnded};
ghost use Rattle.lsv_forward.specs.declared.outcome.Outcome.TheVariants as outcomes;
ghost use Rattle.lsv_info.specs.Reading.{exit_of, head_of};
ghost use Rattle.lsv_info.specs.declared.times.Exit.{Exit};
ghost use Rattle.lsv_info.specs.declared.times.Head.{Head};
ghost use Rattle.lsv_iolog.specs.Recovered.{Replays};
ghost use Rattle.lsv_link.specs.Link.{LinkCounts};
ghost use Rattle.lsv_link.specs.declared.connection.Connection.{Connection};
ghost use Rattle.lsv_machine.specs.History.{ledger};
ghost use Rattle.lsv_marked.specs.Brought.{IsBroughtOn, WasTalked};
ghost use Rattle.lsv_record.specs.Points.{Stored};
ghost use Rattle.lsv_record.specs.Records.{elapsed};
ghost use Rattle.lsv_relay.specs.Value.{state_of};
ghost use Rattle.lsv_upstream.specs.Held.{HoldsThrough};
ghost use Rattle.lsv_upstream.specs.Relayed.{IsAcknowledged, Visit, acknowledged_at};
ghost use Rattle.lsv_upstream.specs.Runs.{ServerRun};

use lsv_disk::Disk;
use lsv_link::Link;

/// A log that a run relayed, and so marked, is held by the other server, if that is one of this project. The run's
/// connection is a conversation that is over. Suppose that a connection of the server is its other end, and brings the log
/// there, perhaps with those of earlier runs. Then an event of the server's runs brought the commit point at the log's whole
/// time. What was sent of the server's log is a prefix of the records, and they are promised through the first that ends
/// there.
pub fn marked_means_held<D: Disk, L: Link>(old: &D, new: &D)
    ensures { (from to : LinkCounts) (n : ℕ) (conn : Connection)
        → Carries D.tells L.tells D.view from to (D.view old.now) (D.view new.now) n (λ answer. IsEnded answer outcomes.Relayed) conn → D.tells → L.tells
        → (w : WasTalked D.tells L.tells D.view (D.view old.now) n conn) × ((log : Stored) (head : Head) (text : List ℕ) (exit : Exit)
        → Replays (D.view old.now).reads n (Some log) → head_of log.head ≡ Ok head → log.exit ≡ Some text → exit_of text ≡ Ok exit
        → (lane lanes m : ℕ) (runs : List ServerRun) (visits : List Visit) → IsBroughtOn conn (state_of w.from) (heard w.ended.events) lane lanes m head log.records (Some exit) runs visits
        → (a : IsAcknowledged m log.records runs visits) × HoldsThrough log.records (elapsed log.records) (ledger (acknowledged_at a) m)) }
{
    lsv_base::nanoseconds_are_one_time();
    lsv_relay::what_is_relayed();
    lsv_upstream::a_conversation_is_a_visit();
    lsv_upstream::a_relayed_log_is_held();
    lsv_upstream::what_is_replayed_is_storable();
    lsv_upstream::what_was_read_was_answered();
}

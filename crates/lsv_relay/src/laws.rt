//! Laws of the definitions that the contracts of this crate cite. They do nothing when they run.

ghost use Rattle.std.specs.Prelude.{◌≡◌, ◌≤◌, ◌<◌, ◌++◌, ◌∷◌, ◌⊎◌, ℕ, true, false, [], length, List, Option, Some, Ok};
ghost use Rattle.std.specs.List.{list_any};
ghost use Rattle.lsv_base.specs.Time.{nanos_of};
ghost use Rattle.lsv_base.specs.declared.time.TimeSpec.{TimeSpec};
ghost use Rattle.lsv_dialogue.specs.Events.{Event, Event.Heard, heard, said};
ghost use Rattle.lsv_kept.specs.Value.{is_done, keeps_id};
ghost use Rattle.lsv_kept.specs.declared.state.State.TheVariants as states;
ghost use Rattle.lsv_msg.specs.declared.messages.ServerMessage.{ServerMessage};
ghost use Rattle.lsv_msg.specs.declared.messages.ServerMessage.TheVariants as server;
ghost use Rattle.lsv_info.specs.Reading.{exit_of, head_of};
ghost use Rattle.lsv_info.specs.declared.times.Exit.{Exit};
ghost use Rattle.lsv_info.specs.declared.times.Head.{Head};
ghost use Rattle.lsv_iolog.specs.Recovered.{Replays};
ghost use Rattle.lsv_kept.specs.declared.state.State.{State};
ghost use Rattle.lsv_record.specs.Points.{Stored};
ghost use Rattle.lsv_transcript.specs.Transcript.{may_say};
ghost use Rattle.lsv_relay.specs.Talks.{IsDurable, Stands, Talks};
ghost use Rattle.lsv_relay.specs.Transcripts.{IsStartOf, begins_at};
ghost use Rattle.lsv_relay.specs.Value.{IsQuiet, IsUnbegun, aim_of, is_broken, state_of};
ghost use Rattle.lsv_relay.specs.Talk.{Hears, Talk, goes_on, hears_error, hears_id, hears_late, hears_point, is_exit, is_strange};

use crate::Relay;
use lsv_disk::Disk;
use lsv_kept::a_crash_leaves_what_stands;

/// What becomes of a relaying by what is heard and said, in order.
///
/// - The other server has the whole log only by a commit point at its elapsed time, heard in time after its exit was said.
///   No message says that the log is relayed.
/// - An identifier that is kept is the one of before, or was heard.
/// - A commit point that is kept is the one of before, or was heard while its identifier was kept. It is above 0 and not
///   above what was sent.
/// - A strange commit point and a long identifier change nothing. An error after a restart, with no commit point between
///   them, drops what is kept.
/// - The exit counts as said only if it is among what was said. By a message that comes too late the other server doesn't
///   have the whole log.
pub fn what_is_relayed()
    ensures whole { (total : ℕ) (talk : Talk) (events : List Event) → talk.whole ≡ false → (goes_on total events talk).whole ≡ true →
        (before after : List Event) × (time : TimeSpec) × (events ≡ before ++ Heard (server.CommitPoint time) ∷ after) × (nanos_of time ≡ Some total) × ((goes_on total before talk).ended ≡ true) × ((goes_on total before talk).known ≡ true) }
    ensures undone { (total : ℕ) (talk : Talk) (events : List Event) → is_done talk.state ≡ false → is_done (goes_on total events talk).state ≡ false }
    ensures identifier { (total : ℕ) (talk : Talk) (events : List Event) (id : List ℕ) (point : Option ℕ) → (goes_on total events talk).state ≡ states.Kept (record { id = id; point = point }) →
        ((before : Option ℕ) × (talk.state ≡ states.Kept (record { id = id; point = before })))
        ⊎ ((before after : List Event) × (e : Event) × (events ≡ before ++ e ∷ after) × Hears (server.LogId id) e × (length id ≤ 4096)) }
    ensures point { (total : ℕ) (talk : Talk) (events : List Event) (id : List ℕ) (c : ℕ) → (goes_on total events talk).state ≡ states.Kept (record { id = id; point = Some c }) →
        (talk.state ≡ states.Kept (record { id = id; point = Some c }))
        ⊎ ((before after : List Event) × (e : Event) × (time : TimeSpec) × (point : Option ℕ) × (events ≡ before ++ e ∷ after) × Hears (server.CommitPoint time) e × (nanos_of time ≡ Some c)
        × ((goes_on total before talk).state ≡ states.Kept (record { id = id; point = point })) × (c ≤ (goes_on total before talk).sent) × (0 < c)) }
    ensures strange { (total : ℕ) (talk : Talk) (point : Option ℕ) → is_strange talk.sent point ≡ true → hears_point total point talk ≡ talk }
    ensures long { (talk : Talk) (id : List ℕ) → 4096 < length id → hears_id id talk ≡ talk }
    ensures exit { (total : ℕ) (talk : Talk) (events : List Event) → talk.ended ≡ false → (goes_on total events talk).ended ≡ true → list_any is_exit (said events) ≡ true }
    ensures late { (total : ℕ) (m : ServerMessage) (talk : Talk) → (hears_late total m talk).whole ≡ false }
    ensures drops { (talk : Talk) → talk.asked ≡ true → keeps_id talk.state ≡ true → (hears_error talk).state ≡ states.Nothing }
{}

/// On each connection a prefix of the transcript of a stored log is said, by what was kept when the connection began and by
/// what was heard since. If nothing more may be said before a further message, that is all that may be. So it is once the
/// other server has the whole log: then all of it was said, and its exit last.
pub fn a_stored_log_is_relayed<D: Disk>(began: &D, relay: &Relay, disk: &D)
    ensures part { (state : State) (events : List Event) → Talks (D.view began.now) state relay.now (D.view disk.now) events
        → (log : Stored) (head : Head) (text : List ℕ) (exit : Exit) → Replays (D.view disk.now).reads relay.now.number (Some log) → head_of log.head ≡ Ok head → log.exit ≡ Some text → exit_of text ≡ Ok exit
        → IsStartOf (said events) (may_say (begins_at log.records head (Some exit) state) (heard events)) }
    ensures whole { (state : State) (events : List Event) → Talks (D.view began.now) state relay.now (D.view disk.now) events → IsQuiet relay.now
        → (log : Stored) (head : Head) (text : List ℕ) (exit : Exit) → Replays (D.view disk.now).reads relay.now.number (Some log) → head_of log.head ≡ Ok head → log.exit ≡ Some text → exit_of text ≡ Ok exit
        → said events ≡ may_say (begins_at log.records head (Some exit) state) (heard events) }
    ensures relayed { (state : State) (events : List Event) → Talks (D.view began.now) state relay.now (D.view disk.now) events → relay.now.meter.whole ≡ true → IsQuiet relay.now × (list_any is_exit (said events) ≡ true) }
{
    let _whole = relay.core.meter.whole;
}

/// Each crash image of a disk keeps what a relay keeps that stands there, unless the log is relayed. Before its connection
/// begins nothing was heard and said.
pub fn a_crash_leaves_what_is_kept<D: Disk>(relay: &Relay, disk: &D)
    ensures leaves { is_broken relay.now ≡ false → is_done (state_of relay.now) ≡ false → Stands relay.now (D.view disk.now) → IsDurable relay.now.number (aim_of relay.now) (state_of relay.now) (D.view disk.now) }
    ensures begins { D.tells → is_broken relay.now ≡ false → is_done (state_of relay.now) ≡ false → IsUnbegun relay.now.at → Stands relay.now (D.view disk.now) → Talks (D.view disk.now) (state_of relay.now) relay.now (D.view disk.now) [] }
{
    a_crash_leaves_what_stands(&relay.core.keeping, disk);
}

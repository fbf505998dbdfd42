//! Laws of the definitions that the contract of the top call cites. They do nothing when they run.
ghost use Rattle.std.specs.Prelude.{◌≡◌, ℕ, [], ◌∷◌, ◌++◌, List, Option, Some, None, true};
ghost use Rattle.lsv_dialogue.specs.Events.{Event, HasPaused, heard, said};
ghost use Rattle.lsv_dialogue.specs.declared.ends.End.TheVariants as ends;
ghost use Rattle.lsv_dialogue.specs.declared.ends.Wants.TheVariants as wants;
ghost use Rattle.lsv_disk.specs.View.{Image};
ghost use Rattle.lsv_info.specs.declared.times.Exit.{Exit};
ghost use Rattle.lsv_iolog.specs.Recovered.{Replays};
ghost use Rattle.lsv_link.specs.declared.connection.Connection.{Connection};
ghost use Rattle.lsv_machine.specs.History.{ledger};
ghost use Rattle.lsv_machine.specs.Turns.{Happened};
ghost use Rattle.lsv_play.specs.Playing.{IsOpened};
ghost use Rattle.lsv_record.specs.Points.{Stored};
ghost use Rattle.lsv_send_args.specs.Request.{Goes, Records};
ghost use Rattle.lsv_session.specs.declared.connection.ConnId.{ConnId};
ghost use Rattle.lsv_transcript.specs.Plan.{Plan};
ghost use Rattle.lsv_transcript.specs.Transcript.{may_say};
ghost use Rattle.lsv_send.specs.Handing.{Far, HandsOut, IsExitBy, IsQuiet, Source, is_there, wants_at};
ghost use Rattle.lsv_upstream.specs.Held.{GetsPoint, HoldsThrough, up_to};
ghost use Rattle.lsv_upstream.specs.Runs.{ServerRun};
ghost use Rattle.lsv_send.specs.Held.{IsAtOtherEnd, IsServedBy};
ghost use Rattle.lsv_send.specs.Lines.{id_line};
ghost use Rattle.lsv_send.specs.Opening.{Skips};
ghost use Rattle.lsv_send.specs.Plan.{IsCommitted, IsFirstOf, is_some_message, plan_of};
ghost use Rattle.lsv_send.specs.Sending.{Outcome, Went};
ghost use Rattle.lsv_send.specs.Visible.{is_visible};

use lsv_link::Link;

/// Of a log that the disk holds, what is said on a connection is a first part of the send transcript, as far as it may be
/// said after what was heard; and it is all of that if nothing more could be said. When all that is waited for came, all of
/// it was said, and its aim was committed. If the sender wanted to go on where nothing more could be said, or when sixteen
/// messages were said after the last one that was heard, that wasn't so: and so it is when the connection's input ended, or
/// nothing came, and the run isn't Sent.
pub fn a_stored_log_is_sent()
    ensures part { (source : Source) (image : Image) (far : Far) (events : List Event) (log : Stored) (exit : Option Exit) → IsOpened source.number source.body source.head image → Skips source.what source.skipped
        → Replays image source.number (Some log) → IsExitBy None source.number source.body image exit → HandsOut source image far events
        → (plan : Plan) × (plan_of source.what log.records source.head exit ≡ Some plan) × IsFirstOf (said events) (may_say plan.transcript (heard events)) }
    ensures whole { (source : Source) (image : Image) (far : Far) (events : List Event) (log : Stored) (exit : Option Exit) → IsOpened source.number source.body source.head image → Skips source.what source.skipped
        → Replays image source.number (Some log) → IsExitBy None source.number source.body image exit → HandsOut source image far events → IsQuiet far
        → (plan : Plan) × (plan_of source.what log.records source.head exit ≡ Some plan) × (said events ≡ may_say plan.transcript (heard events)) }
    ensures sent { (source : Source) (image : Image) (far : Far) (events : List Event) (log : Stored) (exit : Option Exit) → IsOpened source.number source.body source.head image → Skips source.what source.skipped
        → Replays image source.number (Some log) → IsExitBy None source.number source.body image exit → HandsOut source image far events → is_there far ≡ true
        → (plan : Plan) × (plan_of source.what log.records source.head exit ≡ Some plan) × IsCommitted plan events }
    ensures unsent { (source : Source) (image : Image) (far : Far) (events : List Event) (log : Stored) (exit : Option Exit) → IsOpened source.number source.body source.head image → Skips source.what source.skipped
        → Replays image source.number (Some log) → IsExitBy None source.number source.body image exit → HandsOut source image far events → HasPaused (IsQuiet far) events → wants_at far ≡ wants.More
        → (plan : Plan) × (plan_of source.what log.records source.head exit ≡ Some plan) × (IsCommitted plan events → ⊥) }
{}

/// What is printed of an identifier is one line, and no control character stands in it: a terminal obeys none of the
/// server's.
pub fn an_identifier_is_one_line()
    ensures { (id : List ℕ) → (text : List ℕ) × (id_line id ≡ text ++ 10 ∷ []) × (is_visible 0 text ≡ true) }
{}

/// A log that was sent is held by the server, if that is one of this project. When the run ended as Sent, and a record or an
/// exit was sent, an event of the server's run brought the commit point that is waited for to the connection. What was then
/// sent of the server's log is a prefix of the records, and they are promised through the first that ends at that point.
pub fn sent_means_held<L: Link>()
    ensures { (source : Source) (image : Image) (out : Outcome) (conn : Connection) (log : Stored) (exit : Option Exit) (goes : Option Goes) (stop : Option ℕ) → source.what ≡ Records goes stop
        → IsOpened source.number source.body source.head image → Skips source.what source.skipped → Replays image source.number (Some log) → IsExitBy None source.number source.body image exit
        → (w : Went source image L.tells out ends.Over conn) → (plan : Plan) × (plan_of source.what log.records source.head exit ≡ Some plan)
        × (is_some_message plan.transcript.rest ≡ true → (n : ℕ) (before : List Happened) (r : ServerRun) (k : ConnId) → IsServedBy plan log.records (heard w.ended.events) n before r k
        → (at : GetsPoint n before r k plan.aim) × HoldsThrough log.records plan.aim (ledger (up_to before r at) n)) }
{
    lsv_base::nanoseconds_are_one_time();
    lsv_upstream::what_was_read_was_answered();
    lsv_upstream::a_sent_log_is_held();
}

/// Suppose that a run ended as Sent over a link that tells its content, and that a connection of a server of this project is
/// its other end: each side read a first part of the bytes that the other wrote. Then that connection brings a first part of
/// the messages of the run, and what the run heard is a first part of what the server said to it. So the law
/// `sent_means_held` speaks of it.
pub fn an_other_end_serves<L: Link>()
    ensures { (source : Source) (image : Image) (out : Outcome) (conn : Connection) (log : Stored) (exit : Option Exit)
        → IsOpened source.number source.body source.head image → Skips source.what source.skipped → Replays image source.number (Some log) → IsExitBy None source.number source.body image exit
        → (w : Went source image L.tells out ends.Over conn) → L.tells → (plan : Plan) → plan_of source.what log.records source.head exit ≡ Some plan
        → (n : ℕ) (before : List Happened) (r : ServerRun) (k : ConnId) → IsAtOtherEnd plan log.records conn n before r k → IsServedBy plan log.records (heard w.ended.events) n before r k }
{
    lsv_upstream::a_conversation_is_a_visit();
}

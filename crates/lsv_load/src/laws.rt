//! Laws of a load: of its script, of its conversations, and of what it sums up. They do nothing when they run.

ghost use Rattle.std.specs.Prelude.{◌≡◌, ◌⊎◌, ◌<◌, ◌≤◌, ℕ, List, true};
ghost use Rattle.lsv_gen.specs.Load.{conversation};
ghost use Rattle.lsv_machine.specs.Legal.{IsLegal, whole_log};
ghost use Rattle.lsv_machine.specs.Machine.{Settings};
ghost use Rattle.lsv_port.specs.Memory.Script.{sent_by, unsent};
ghost use Rattle.lsv_port.specs.Memory.Value.{TellsScript, TellsSteps};
ghost use Rattle.lsv_port.specs.Port.{PortState};
ghost use Rattle.lsv_session.specs.Transcript.{AreJobs};
ghost use Rattle.lsv_session.specs.declared.connection.ConnState.TheVariants.{Fresh};
ghost use Rattle.lsv_turn.specs.Turns.{TapeTurn};
ghost use Rattle.lsv_load.specs.Load.{load_script, whole_sent};
ghost use Rattle.lsv_load.specs.Logs.{bodies_of, log_at};
ghost use Rattle.lsv_load.specs.Whole.{SumsUpAll};

use lsv_disk::Disk;
use lsv_turn::Tape;

/// The script of a load sends conversation i on link i, for each i from 1 to the count, and nothing on any other link. Where
/// a port that follows it told Stop, it took all of the script.
pub fn a_load_sends_its_conversations()
    ensures sent { (count l : ℕ) → count ≤ 10000 → 1 ≤ l → l ≤ count → sent_by l (load_script count) ≡ whole_sent l }
    ensures others { (count l : ℕ) → (l ≡ 0) ⊎ (count < l) → sent_by l (load_script count) ≡ unsent }
    ensures whole { (count : ℕ) (port : PortState) → TellsScript (load_script count) port → port.stopped ≡ true → TellsSteps (load_script count) port }
{}

/// Each generated conversation, from the first to the 10,000th, is a legal one that opens a log: its bytes are the frames of
/// its messages, each is let through and has its place, and its log is all that it sends, of which no mask covers anything.
pub fn a_generated_conversation_is_legal()
    ensures jobs { (i : ℕ) → i ≤ 10000 → AreJobs (conversation i) (bodies_of i) }
    ensures legal { (i number : ℕ) → i ≤ 10000 → IsLegal number Fresh (bodies_of i) }
    ensures log { (i : ℕ) (texts : List (List ℕ)) → i ≤ 10000 → whole_log texts (bodies_of i) ≡ log_at i }
{
    lsv_msg::a_written_message_is_read_back();
}

/// A load that was served sums up the logs of all its conversations, each as it was sent and once, if all of them was read,
/// no call of the disk failed, memory was ample for them, and no limit was passed.
pub fn a_load_sums_up_all_its_conversations<D: Disk, G: Tape>()
    ensures { (set : Settings) (texts : List (List ℕ)) (count : ℕ) (found left : D) (tape new_tape : List TapeTurn) → count ≤ 10000 →
        SumsUpAll D.tells G.tells D.view set texts count found left tape new_tape }
{
    a_load_sends_its_conversations();
    a_generated_conversation_is_legal();
    lsv_service::a_legal_conversation_over_a_link_is_served::<D, G>();
}

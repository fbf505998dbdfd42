//! What comes of a legal conversation among any others. These functions do nothing when they run.

ghost use Rattle.std.specs.Prelude.{◌≡◌, ◌≢◌, ◌⊎◌, ◌++◌, ℕ, List, [], false};
ghost use Rattle.std.specs.List.{list_any};
ghost use Rattle.lsv_progress.specs.Among.{FitsAmong, IsHeld, IsServedAmong, IsUndisturbed, NeverGone, answers_to, bodies_of, why_not};
ghost use Rattle.lsv_machine.specs.Answers.{refusal};
ghost use Rattle.lsv_machine.specs.Failures.{Act, AsksFor, Step, WantsMemory};
ghost use Rattle.lsv_machine.specs.Legal.{IsLegal, all_answers, is_shut};
ghost use Rattle.lsv_machine.specs.Machine.{Machine, Settings, is_dead};
ghost use Rattle.lsv_machine.specs.Recovery.{AtTheirMoments, Turn, all_turns};
ghost use Rattle.lsv_machine.specs.Silence.{EndsWithGone};
ghost use Rattle.lsv_machine.specs.Starts.{StartsAs};
ghost use Rattle.lsv_machine.specs.Turns.{Run};
ghost use Rattle.lsv_request.specs.declared.request.Request.TheVariants as request;
ghost use Rattle.lsv_request.specs.declared.request.Restart.{Restart};
ghost use Rattle.lsv_session.specs.declared.connection.ConnId.{ConnId};
ghost use Rattle.lsv_session.specs.declared.connection.ConnState.TheVariants.{Fresh};
ghost use Rattle.lsv_session.specs.declared.job.Body.{Body};

/// A legal conversation that opens a log is served, whatever other connections send in the same run and however memory
/// wants for them, if no owner fails, memory is ample for its own jobs, no limit is passed and nothing comes after its
/// Gone: it is told its log's number and its commit points and nothing else, and its log is all that was sent, as it is
/// masked. At each moment that log is no other's, and no job of another changes it. Before its exit comes it isn't shut.
/// `number` stands for that of the log in the states of the conversation; it is legal with any, if with one.
pub fn a_legal_conversation_is_served_among_others()
    ensures whole { (set : Settings) (texts : List (List ℕ)) (k : ConnId) (start end : Machine) (turns : List Turn) (number : ℕ) → StartsAs set texts start → (run : Run set start (all_turns turns) end) → AtTheirMoments turns →
        IsUndisturbed k (all_turns turns) → EndsWithGone k (all_turns turns) → IsLegal number Fresh (bodies_of k turns) → FitsAmong set k start turns (bodies_of k turns) →
        (n : ℕ) × IsServedAmong set k n texts turns start end run }
    ensures part { (set : Settings) (texts : List (List ℕ)) (k : ConnId) (start end : Machine) (turns : List Turn) (later : List Body) (number : ℕ) → StartsAs set texts start → Run set start (all_turns turns) end → AtTheirMoments turns →
        IsUndisturbed k (all_turns turns) → NeverGone k (all_turns turns) → IsLegal number Fresh (bodies_of k turns ++ later) → later ≢ [] → FitsAmong set k start turns (bodies_of k turns ++ later) →
        list_any (λ a. is_shut a.says) (answers_to k (all_answers turns)) ≡ false }
{}

/// A restart of a log that is no other's is refused, where no owner failed: there is no such log, or it is in use, or
/// complete; or memory ran out for that.
pub fn a_log_that_is_held_is_not_restarted()
    ensures refused { (set : Settings) (old new : Machine) (act : Act) (restart : Restart) (k : ConnId) → Step set old act new → act.failed ≡ [] → is_dead (old.states act.job.conn) ≡ false →
        AsksFor (old.states act.job.conn) act.job.body (request.Restart restart) → (held : IsHeld k restart.log old) → (act.answers ≡ refusal act.job.conn (why_not held)) ⊎ WantsMemory act.job.conn act.answers }
{}

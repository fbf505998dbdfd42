//! What one job and one end of a turn may tell and change. These functions do nothing when they run.

ghost use Rattle.std.specs.Prelude.{◌≡◌, ◌≢◌, ◌⊎◌, ◌++◌, ℕ, List, [], false};
ghost use Rattle.std.specs.List.{flat_map, list_any};
ghost use Rattle.lsv_request.specs.declared.request.Request.TheVariants as request;
ghost use Rattle.lsv_request.specs.declared.request.Restart.{Restart};
ghost use Rattle.lsv_session.specs.declared.connection.ConnId.{ConnId};
ghost use Rattle.lsv_session.specs.declared.connection.ConnState.TheVariants.{Dead, Fresh};
ghost use Rattle.lsv_session.specs.declared.job.Body.{Body};
ghost use Rattle.lsv_machine.specs.Failures.{Act, AsksFor, Plainly, Step, WantsMemory};
ghost use Rattle.lsv_machine.specs.Legal.{AreSent, Came, Fits, IsLegal, IsServed, all_answers, is_shut};
ghost use Rattle.lsv_machine.specs.Machine.{Machine, Settings, is_dead, same};
ghost use Rattle.lsv_machine.specs.Recovery.{AtTheirMoments, Turn, all_turns};
ghost use Rattle.lsv_machine.specs.Resuming.{CanResume, HasResumed};
ghost use Rattle.lsv_machine.specs.Silence.{AllTo, EndsWithGone, NoFault, NoJobs, NothingTo, ShutsAreDead};
ghost use Rattle.lsv_machine.specs.Stands.{Sound};
ghost use Rattle.lsv_machine.specs.Starts.{StartsAs};
ghost use Rattle.lsv_machine.specs.Turns.{EndOfTurn, Happened, Run, Tail};
ghost use Rattle.lsv_machine.specs.Work.{next_number};

/// Where no owner failed, no device fault is told.
pub fn no_fault_without_failure()
    ensures job { (set : Settings) (old : Machine) (act : Act) (new : Machine) → Step set old act new → act.failed ≡ [] → NoFault act.answers }
    ensures tail { (set : Settings) (old : Machine) (tail : Tail) (new : Machine) → EndOfTurn set old tail new → tail.failed ≡ [] → NoFault tail.answers }
{}

/// A job is answered to its own connection alone. Who is shut by any answer is dead, but for the Shut that a Gone itself gets.
pub fn who_is_shut_is_dead()
    ensures to { (set : Settings) (old : Machine) (act : Act) (new : Machine) → Step set old act new → AllTo act.job.conn act.answers }
    ensures job { (set : Settings) (old : Machine) (act : Act) (new : Machine) → Step set old act new → ShutsAreDead new act.answers }
    ensures tail { (set : Settings) (old : Machine) (tail : Tail) (new : Machine) → Sound set old → EndOfTurn set old tail new → ShutsAreDead new tail.answers }
{}

/// Nothing is said to a dead connection in the rest of a run, up to its Gone and after it, and nothing to one that went, if
/// no job of it comes any more. What is sound stays so.
pub fn nothing_is_said_after_a_shut()
    ensures dead { (set : Settings) (k : ConnId) (h : List Happened) (m end : Machine) → Sound set m → m.states k ≡ Dead → EndsWithGone k h → Run set m h end → NothingTo k h }
    ensures gone { (set : Settings) (k : ConnId) (h : List Happened) (m end : Machine) → Sound set m → m.states k ≡ Fresh → list_any (same k) m.noting ≡ false → NoJobs k h →
        Run set m h end → NothingTo k h }
    ensures job { (set : Settings) (m : Machine) (act : Act) (new : Machine) → Sound set m → Step set m act new → Sound set new }
    ensures tail { (set : Settings) (m : Machine) (tail : Tail) (new : Machine) → Sound set m → EndOfTurn set m tail new → Sound set new }
{}

/// A restart without an answer, of a connection that isn't dead, keeps the log's records through the first that ends at its
/// point. It has no answer exactly where the log is there, unwritten and incomplete, has such a record and can count the
/// cut, if no device failed and memory was ample.
pub fn an_accepted_restart_keeps_its_point()
    ensures accepted { (set : Settings) (old new : Machine) (act : Act) (restart : Restart) → Step set old act new → is_dead (old.states act.job.conn) ≡ false →
        AsksFor (old.states act.job.conn) act.job.body (request.Restart restart) → act.answers ≡ [] → HasResumed old new restart act.job.conn }
    ensures taken { (set : Settings) (old new : Machine) (act : Act) (restart : Restart) → Plainly set old act new → is_dead (old.states act.job.conn) ≡ false →
        AsksFor (old.states act.job.conn) act.job.body (request.Restart restart) → CanResume old restart → act.answers ≡ [] }
{}

/// Where no owner failed, a job does what the table says, or memory ran out. The table has one outcome for a job, if no
/// draw has failed since the last good one, and so has the end of a turn.
pub fn one_job_has_one_outcome()
    ensures plainly { (set : Settings) (old new : Machine) (act : Act) → Step set old act new → act.failed ≡ [] → Plainly set old act new ⊎ WantsMemory act.job.conn act.answers }
    ensures job { (set : Settings) (old x y : Machine) (a b : Act) → a.job ≡ b.job → a.now ≡ b.now → old.failed_draws ≡ 0 → Plainly set old a x → Plainly set old b y →
        (a.answers ≡ b.answers) × (a.line ≡ b.line) × (x ≡ y) }
    ensures tail { (set : Settings) (old x y : Machine) (s t : Tail) → s.failed ≡ [] → t.failed ≡ [] → EndOfTurn set old s x → EndOfTurn set old t y → (s.answers ≡ t.answers) × (x ≡ y) }
{}

/// A legal conversation that opens a log is served, if it comes alone, nothing fails, memory is ample and no limit is
/// passed: it is told the log's number and its commit points, and its log is all that was sent, as it is masked. Before
/// its exit comes nobody is shut.
pub fn a_legal_conversation_is_served()
    ensures whole { (set : Settings) (texts : List (List ℕ)) (k : ConnId) (start end : Machine) (came : List Came) (turns : List Turn) → StartsAs set texts start → Run set start (all_turns turns) end →
        AtTheirMoments turns → AreSent k came turns → IsLegal (next_number set start) Fresh (flat_map (λ c. c.bodies) came) →
        Fits set k (next_number set start) Fresh start.lines came (flat_map (λ c. c.bodies) came) → IsServed k (next_number set start) texts came turns end }
    ensures part { (set : Settings) (texts : List (List ℕ)) (k : ConnId) (start end : Machine) (came : List Came) (turns : List Turn) (later : List Body) → StartsAs set texts start → Run set start (all_turns turns) end →
        AtTheirMoments turns → AreSent k came turns → IsLegal (next_number set start) Fresh (flat_map (λ c. c.bodies) came ++ later) → later ≢ [] →
        Fits set k (next_number set start) Fresh start.lines came (flat_map (λ c. c.bodies) came ++ later) → list_any (λ a. is_shut a.says) (all_answers turns) ≡ false }
{}

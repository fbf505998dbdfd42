//! A log that connections play job by job, and what holds of it at each event. These functions do nothing when they run.

ghost use Rattle.std.specs.Prelude.{◌≡◌, ℕ, Bool, true, List, Option, None};
ghost use Rattle.lsv_info.specs.declared.times.Exit.{Exit};
ghost use Rattle.lsv_machine.specs.Durable.{IsPrefix};
ghost use Rattle.lsv_machine.specs.Failures.{Act, Step};
ghost use Rattle.lsv_machine.specs.History.{Ledger, ledger, noted, sent, tells_log, writes};
ghost use Rattle.lsv_machine.specs.Machine.{Machine, Settings};
ghost use Rattle.lsv_machine.specs.Stands.{StandsFor};
ghost use Rattle.lsv_machine.specs.Turns.{EndOfTurn, Happened, Happened.Did, Happened.Tailed, Tail};
ghost use Rattle.lsv_record.specs.Records.{elapsed};
ghost use Rattle.lsv_record.specs.declared.records.Record.{Record};
ghost use Rattle.lsv_request.specs.declared.request.Request.{Request};
ghost use Rattle.lsv_session.specs.Transcript.{bodies_of};
ghost use Rattle.lsv_session.specs.declared.connection.ConnId.{ConnId};
ghost use Rattle.lsv_upstream.specs.Held.{HoldsThrough, HasPoint};
ghost use Rattle.lsv_upstream.specs.Jobs.{jobs_of};
ghost use Rattle.lsv_upstream.specs.Playing.{AllExpected, BringsAsked, IsExpected, IsNext, OthersAreAside, OwnRun, PlayedRun, PlayedRuns, with_run};

/// In runs in which these connections alone play the records into the log:
/// - what was sent of it is a prefix of the records, at each moment;
/// - a commit point at their elapsed time, at the end of a turn, promises the records through the first that ends there;
/// - so does a commit point that answers an exit.
///
/// Jobs that are lists for each connection are such jobs one by one. Nothing was promised of a log whose number is answered.
/// `own_tail` and `own_exit` say the same of connections among others that may go on with the log too, after any history.
pub fn a_played_log_is_held()
    ensures prefix { (lane lanes n : ℕ) (rs : List Record) (e : Option Exit) (h : List Happened) → PlayedRuns lane lanes n rs e h → IsPrefix (sent h n) rs }
    ensures tail { (lane lanes n : ℕ) (rs : List Record) (e : Option Exit) (before run : List Happened) (set : Settings) (m after : Machine) (ours : ConnId → Bool) (now : ConnId → List Request) (tail : Tail) (k : ConnId) →
        PlayedRuns lane lanes n rs e before → (part : PlayedRun lane lanes n rs e before run set m ours now) → EndOfTurn set m tail after → writes (ledger (with_run before part.texts run) n) k ≡ true → HasPoint k (elapsed rs) tail.answers →
        HoldsThrough rs (elapsed rs) (noted n (ledger (with_run before part.texts run) n) (Tailed tail)) }
    ensures exit { (lane lanes n : ℕ) (rs : List Record) (e : Option Exit) (before run : List Happened) (set : Settings) (m after : Machine) (ours : ConnId → Bool) (now : ConnId → List Request) (act : Act) (c : ℕ) →
        PlayedRuns lane lanes n rs e before → (part : PlayedRun lane lanes n rs e before run set m ours now) → IsExpected n ours now act → Step set m act after → writes (ledger (with_run before part.texts run) n) act.job.conn ≡ true → HasPoint act.job.conn c act.answers →
        HoldsThrough rs (elapsed rs) (noted n (ledger (with_run before part.texts run) n) (Did act)) }
    ensures lists { (n : ℕ) (ours : ConnId → Bool) (run : List Happened) (coming : ConnId → List Request) → ((k : ConnId) → ours k ≡ true → BringsAsked (coming k) (bodies_of k (jobs_of run))) → OthersAreAside n ours run → (now : ConnId → List Request) × AllExpected n ours coming run now }
    ensures number_once { (set : Settings) (n : ℕ) (l : Ledger) (m after : Machine) (act : Act) → StandsFor set n m l → Step set m act after → tells_log n act.answers ≡ true → l.promised ≡ None }
    ensures own_tail { (n : ℕ) (rs : List Record) (e : Option Exit) (before run : List Happened) (set : Settings) (m after : Machine) (ours : ConnId → Bool) (now : ConnId → List Request) (tail : Tail) (k : ConnId) →
        (part : OwnRun n rs e before run set m ours now) → EndOfTurn set m tail after → ours k ≡ true → writes (ledger (with_run before part.texts run) n) k ≡ true → HasPoint k (elapsed rs) tail.answers →
        HoldsThrough rs (elapsed rs) (noted n (ledger (with_run before part.texts run) n) (Tailed tail)) }
    ensures own_exit { (n : ℕ) (rs : List Record) (e : Option Exit) (before run : List Happened) (set : Settings) (m after : Machine) (ours : ConnId → Bool) (now : ConnId → List Request) (act : Act) (c : ℕ) →
        ours act.job.conn ≡ true → IsNext act.job.body (now act.job.conn) → (part : OwnRun n rs e before run set m ours now) → Step set m act after → writes (ledger (with_run before part.texts run) n) act.job.conn ≡ true → HasPoint act.job.conn c act.answers →
        HoldsThrough rs (elapsed rs) (noted n (ledger (with_run before part.texts run) n) (Did act)) }
{
    lsv_record::a_cut_ends_at_the_first_record_of_its_point();
}

//! A log that was acknowledged is held by the server. These functions do nothing when they run.

ghost use Rattle.std.specs.List.{AllByRecursion, flat_map};
ghost use Rattle.std.specs.Prelude.{◌≡◌, ℕ, true, List, [], ◌∷◌, ◌++◌, map, Option, Some, Ok, Contains};
ghost use Rattle.lsv_base.specs.Time.{time_of};
ghost use Rattle.lsv_disk.specs.View.{Image};
ghost use Rattle.lsv_info.specs.Reading.{head_of};
ghost use Rattle.lsv_info.specs.declared.times.Exit.{Exit};
ghost use Rattle.lsv_info.specs.declared.times.Head.{Head};
ghost use Rattle.lsv_iolog.specs.Recovered.{Replays};
ghost use Rattle.lsv_machine.specs.Durable.{GoodLog, Recovered};
ghost use Rattle.lsv_machine.specs.Failures.{Act};
ghost use Rattle.lsv_machine.specs.History.{ledger, request_in, sent, shown, tells_log, writes};
ghost use Rattle.lsv_machine.specs.Machine.{IsOfLane};
ghost use Rattle.lsv_machine.specs.Turns.{AllBegin, Happened, Happened.Did};
ghost use Rattle.lsv_msg.specs.Fitting.{FitsClient, FitsServer};
ghost use Rattle.lsv_msg.specs.Messages.{client_bytes, server_bytes, server_in};
ghost use Rattle.lsv_msg.specs.declared.messages.ClientMessage.{ClientMessage};
ghost use Rattle.lsv_msg.specs.declared.messages.ServerMessage.{ServerMessage};
ghost use Rattle.lsv_msg.specs.declared.messages.ServerMessage.TheVariants as server;
ghost use Rattle.lsv_record.specs.Points.{Stored};
ghost use Rattle.lsv_record.specs.Records.{elapsed};
ghost use Rattle.lsv_record.specs.declared.records.Record.{Record};
ghost use Rattle.lsv_request.specs.declared.request.Request.TheVariants as request;
ghost use Rattle.lsv_request.specs.declared.request.Restart.{Restart};
ghost use Rattle.lsv_session.specs.Transcript.{AreFirst, AreJobs, bodies_of};
ghost use Rattle.lsv_session.specs.declared.connection.ConnId.{ConnId};
ghost use Rattle.lsv_session.specs.declared.job.Body.{Body};
ghost use Rattle.lsv_transcript.specs.Plan.{Plan, ResumeAt, plan_from};
ghost use Rattle.lsv_transcript.specs.Transcript.{all_of};
ghost use Rattle.lsv_upstream.specs.Held.{GetsPoint, HoldsFirst, HoldsThrough, NoRestart, PromisesAtLeast, HasPoint, answers_at, up_to};
ghost use Rattle.lsv_upstream.specs.Jobs.{BringsFirst, IsReadExit, IsStorable, NoMessages, ReadsFirst, jobs_of};
ghost use Rattle.lsv_upstream.specs.Passed.{HasSent.Opened, HasSent.Resumed, HasSentAll, HoldsAfter, records_of, sent_in};
ghost use Rattle.lsv_upstream.specs.Relayed.{IsAcknowledged, IsRelayed, Visit, acknowledged_at, happens_after};
ghost use Rattle.lsv_upstream.specs.Runs.{RunsOn, ServerRun, history_at, history_of};
ghost use Rattle.lsv_upstream.specs.Sent.{BeginsAlike};
ghost use Rattle.lsv_upstream.specs.Talked.{IsTalked, IsTold, ReadPoint, WritesAtPoint};
ghost use Rattle.lsv_wire.specs.Frame.{IsMessage, frame_of};
ghost use Rattle.lsv_defs.specs.Pieces.{IsPrefix};

/// A relayed log is held, if a commit point at the elapsed time of its records comes to a connection of the relay that
/// writes it: what the upstream was sent of it is a prefix of the records, and they are promised through the first that
/// ends there. This stays so until somebody asks to go on with the log.
pub fn a_relayed_log_is_held()
    ensures held { (lane lanes n : ℕ) (head : Head) (rs : List Record) (exit : Option Exit) (runs : List ServerRun) (visits : List Visit) →
        IsStorable head rs exit → IsRelayed lane lanes n head rs exit runs visits → (a : IsAcknowledged n rs runs visits) → HoldsThrough rs (elapsed rs) (ledger (acknowledged_at a) n) }
    ensures stays { (lane lanes n : ℕ) (head : Head) (rs : List Record) (exit : Option Exit) (runs : List ServerRun) (visits : List Visit) →
        IsStorable head rs exit → IsRelayed lane lanes n head rs exit runs visits → (a : IsAcknowledged n rs runs visits) → (more rest : List Happened) → happens_after a ≡ more ++ rest → NoRestart n more →
        HoldsThrough rs (elapsed rs) (ledger (acknowledged_at a ++ more) n) }
{
    lsv_base::digits_are_read_back();
    lsv_base::nanoseconds_are_one_time();
    lsv_record::a_cut_ends_at_the_first_record_of_its_point();
    lsv_request::what_is_stored_is_requested_again();
}

/// A log that one connection sends by a plan is held, if the commit point that the plan awaits comes to it while it writes
/// the log: whatever happened before, and whatever others send. If it goes on with a log, what was sent of that begins
/// with the records that are passed over.
pub fn a_sent_log_is_held()
    ensures held { (n : ℕ) (head : Head) (rs : List Record) (exit : Option Exit) (from : Option ResumeAt) (stop : Option ℕ) (plan : Plan) (before : List Happened) (r : ServerRun) (k : ConnId) →
        IsStorable head rs exit → IsOfLane r.set.lane r.set.lanes n → RunsOn r.set.lane r.set.lanes n before r → plan_from rs head exit from stop ≡ Some plan →
        BringsFirst (all_of plan.transcript) (bodies_of k (jobs_of r.events)) → BeginsAlike n rs plan.transcript.skipped before r k → (at : GetsPoint n before r k plan.aim) →
        HoldsThrough rs plan.aim (ledger (up_to before r at) n) }
{
    lsv_base::digits_are_read_back();
    lsv_base::nanoseconds_are_one_time();
    lsv_record::a_cut_ends_at_the_first_record_of_its_point();
    lsv_request::what_is_stored_is_requested_again();
}

/// What one connection sends of a log while it writes it is held at each of its commit points, through the first record
/// that reaches the point: whatever the connection sends, whatever happened before, and whatever others send. After a
/// restart this is so of points above the restart's. If its jobs are messages, and then none is, all records that they
/// brought so far are what it has sent.
pub fn a_passed_on_log_is_held()
    ensures opened { (n : ℕ) (before : List Happened) (r : ServerRun) (k : ConnId) (point : ℕ) (rs : List Record) → IsOfLane r.set.lane r.set.lanes n → RunsOn r.set.lane r.set.lanes n before r →
        (at : GetsPoint n before r k point) → sent_in n k at.past ≡ Opened rs → (sent (up_to before r at) n ≡ rs) × (point ≡ elapsed rs) × HoldsThrough rs point (ledger (up_to before r at) n) }
    ensures resumed { (n : ℕ) (before : List Happened) (r : ServerRun) (k : ConnId) (point start : ℕ) (rs : List Record) → IsOfLane r.set.lane r.set.lanes n → RunsOn r.set.lane r.set.lanes n before r →
        (at : GetsPoint n before r k point) → sent_in n k at.past ≡ Resumed start rs → HoldsAfter start rs point (ledger (up_to before r at) n) }
    ensures all { (n : ℕ) (before : List Happened) (r : ServerRun) (k : ConnId) (point : ℕ) (messages : List ClientMessage) → RunsOn r.set.lane r.set.lanes n before r → BringsFirst messages (bodies_of k (jobs_of r.events)) →
        (at : GetsPoint n before r k point) → HasSentAll (records_of (bodies_of k (jobs_of at.past))) (sent_in n k at.past) }
{
    lsv_record::a_cut_ends_at_the_first_record_of_its_point();
}

/// What is promised of a log is in whatever is recovered of it that is good for the history: the first of its records, as
/// they are shown. They are shown as sent, if no run masks.
pub fn what_is_promised_is_in_the_images()
    ensures images { (h : List Happened) (n f : ℕ) (found : Recovered) → GoodLog (ledger h n) found → PromisesAtLeast (ledger h n) f → HoldsFirst f (shown h n) found }
    ensures plain { (h : List Happened) (n : ℕ) → AllBegin [] h → shown h n ≡ sent h n }
{
    lsv_machine::what_is_shown_is_masked();
}

/// A connection that wrote the log and gets a commit point writes it still, if its jobs are messages, and then none is.
pub fn a_connection_that_gets_a_point_still_writes()
    ensures { (n : ℕ) (before : List Happened) (r : ServerRun) (k : ConnId) (point : ℕ) (messages : List ClientMessage) (past more later : List Happened) (event : Happened) → RunsOn r.set.lane r.set.lanes n before r →
        BringsFirst messages (bodies_of k (jobs_of r.events)) → r.events ≡ past ++ (more ++ event ∷ later) → HasPoint k point (answers_at event) → writes (ledger (history_at before r past) n) k ≡ true →
        writes (ledger (history_at before r (past ++ more)) n) k ≡ true }
{}

/// Who is answered a log's number, or asks to go on with the log, writes it where it gets a commit point after that, if its
/// jobs are messages, and then none is.
pub fn who_begins_a_log_and_gets_a_point_writes_it()
    ensures opened { (n : ℕ) (before : List Happened) (r : ServerRun) (point : ℕ) (messages : List ClientMessage) (past more later : List Happened) (act : Act) (event : Happened) → RunsOn r.set.lane r.set.lanes n before r →
        BringsFirst messages (bodies_of act.job.conn (jobs_of r.events)) → r.events ≡ (past ++ Did act ∷ []) ++ (more ++ event ∷ later) → HasPoint act.job.conn point (answers_at event) → tells_log n act.answers ≡ true →
        writes (ledger (history_at before r ((past ++ Did act ∷ []) ++ more)) n) act.job.conn ≡ true }
    ensures resumed { (n : ℕ) (before : List Happened) (r : ServerRun) (point : ℕ) (messages : List ClientMessage) (past more later : List Happened) (act : Act) (event : Happened) (restart : Restart) → RunsOn r.set.lane r.set.lanes n before r →
        BringsFirst messages (bodies_of act.job.conn (jobs_of r.events)) → r.events ≡ (past ++ Did act ∷ []) ++ (more ++ event ∷ later) → HasPoint act.job.conn point (answers_at event) → request_in act.job.body ≡ Ok (request.Restart restart) → restart.log ≡ n →
        writes (ledger (history_at before r ((past ++ Did act ∷ []) ++ more)) n) act.job.conn ≡ true }
{}

/// A commit point that a connection read was brought to it by an event of the run.
pub fn what_was_read_was_answered()
    ensures { (k : ConnId) (read : List ServerMessage) (events : List Happened) (point : ℕ) → ReadsFirst read k events → Contains read (server.CommitPoint (time_of point)) →
        (past later : List Happened) × (event : Happened) × (events ≡ past ++ event ∷ later) × HasPoint k point (answers_at event) }
{}

/// The jobs that a server cuts from a first part of the frames of messages are the first of these messages, if each can be
/// read back. So what a conversation put is what its connection brings: the unsent messages, and what is cut of no
/// message, change nothing.
pub fn what_was_sent_is_brought()
    ensures { (front unsent : List ClientMessage) (input : List ℕ) (jobs heard ends : List Body) → AllByRecursion FitsClient front → AllByRecursion (λ m. IsMessage (client_bytes m)) front →
        IsPrefix input (flat_map (λ m. frame_of (client_bytes m)) front) → AreJobs input jobs → AreFirst heard jobs → NoMessages ends → BringsFirst (front ++ unsent) (heard ++ ends) }
{
    lsv_msg::a_written_message_is_read_back();
}

/// What a disk replays of a log may be stored, with the head that its text is read as, and the exit if there is one: its
/// records are valid and end before 2^63 ns, and its times are valid.
pub fn what_is_replayed_is_storable()
    ensures { (image : Image) (n : ℕ) (log : Stored) (head : Head) (exit : Option Exit) → Replays image n (Some log) → head_of log.head ≡ Ok head → IsReadExit exit → IsStorable head log.records exit }
{}

/// What a client reads is the first of a server's answers, if each can be read back, and the bytes that it read are a first
/// part of their frames: the messages that it cut from them, and a rest.
pub fn what_was_answered_is_read()
    ensures { (answers read : List ServerMessage) (input rest : List ℕ) (frames : List (List ℕ)) → AllByRecursion FitsServer answers → AllByRecursion (λ m. IsMessage (server_bytes m)) answers → IsPrefix input (flat_map (λ m. frame_of (server_bytes m)) answers) →
        input ≡ flat_map frame_of frames ++ rest → AllByRecursion IsMessage frames → map server_in frames ≡ map (λ m. Ok m) read → (later : List ServerMessage) × (read ++ later ≡ answers) }
{
    lsv_msg::a_written_message_is_read_back();
}

/// What a conversation said and read is what its connection brings and reads at the server that is its other end.
pub fn a_conversation_is_a_visit()
    ensures brings { (messages : List ClientMessage) (read : List ServerMessage) (r : ServerRun) (k : ConnId) → IsTalked messages read r k → BringsFirst messages (bodies_of k (jobs_of r.events)) }
    ensures reads { (messages : List ClientMessage) (read : List ServerMessage) (r : ServerRun) (k : ConnId) → IsTalked messages read r k → ReadsFirst read k r.events }
{
    lsv_msg::a_written_message_is_read_back();
}

/// A log that a disk replays, and that a relay brought by conversations, is held by the upstream once one of these read the
/// commit point at the elapsed time of its records, while it wrote the log there.
pub fn a_marked_log_is_held()
    ensures { (image : Image) (m : ℕ) (log : Stored) (lane lanes n : ℕ) (head : Head) (exit : Option Exit) (runs : List ServerRun) (visits : List Visit) (v : Visit) →
        Replays image m (Some log) → head_of log.head ≡ Ok head → IsReadExit exit → (told : IsTold lane lanes n head log.records exit runs visits) → (among : Contains visits v) → ReadPoint v.read (elapsed log.records) →
        WritesAtPoint n (history_of (told.each v among).at.before) (told.each v among).at.its v.conn (elapsed log.records) →
        (a : IsAcknowledged n log.records runs visits) × HoldsThrough log.records (elapsed log.records) (ledger (acknowledged_at a) n) }
{
    a_conversation_is_a_visit();
    a_relayed_log_is_held();
    what_is_replayed_is_storable();
    what_was_read_was_answered();
}

/// A log that a disk replays, and that a sender sent by a plan, is held by the server once the sender's conversation read
/// the commit point that the plan awaits, while it wrote the log there.
pub fn a_log_that_was_sent_is_held()
    ensures { (image : Image) (m : ℕ) (log : Stored) (n : ℕ) (head : Head) (exit : Option Exit) (from : Option ResumeAt) (stop : Option ℕ) (plan : Plan) (before : List Happened) (r : ServerRun) (k : ConnId) (read : List ServerMessage) →
        Replays image m (Some log) → head_of log.head ≡ Ok head → IsReadExit exit → IsOfLane r.set.lane r.set.lanes n → RunsOn r.set.lane r.set.lanes n before r → plan_from log.records head exit from stop ≡ Some plan →
        IsTalked (all_of plan.transcript) read r k → BeginsAlike n log.records plan.transcript.skipped before r k → ReadPoint read plan.aim → WritesAtPoint n before r k plan.aim →
        (at : GetsPoint n before r k plan.aim) × HoldsThrough log.records plan.aim (ledger (up_to before r at) n) }
{
    a_conversation_is_a_visit();
    a_sent_log_is_held();
    what_is_replayed_is_storable();
    what_was_read_was_answered();
}

//! Laws of the definitions that the contracts of this crate and of those above cite. They do nothing when they run.

ghost use Rattle.std.specs.Prelude.{◌≡◌, ◌<◌, ◌≤◌, ℕ, List, [], ◌∷◌, ◌++◌, length, map, All, Ok, Err};
ghost use Rattle.lsv_wire.specs.Frame.{IsPartial, IsTooLong, Cut, Over};
ghost use Rattle.lsv_msg.specs.Messages.{client_in, server_bytes};
ghost use Rattle.lsv_msg.specs.declared.fault.MsgFault.{MsgFault};
ghost use Rattle.lsv_msg.specs.declared.messages.ClientMessage.{ClientMessage};
ghost use Rattle.lsv_request.specs.declared.refusal.Refusal.{Refusal};
ghost use Rattle.lsv_session.specs.Connections.{refusal_message, server_hello};
ghost use Rattle.lsv_session.specs.Transcript.{AreAllJobs, AreFirst, AreJobs, HasCut, InFront, answers, bodies_of, frames_of, said_to};
ghost use Rattle.lsv_session.specs.declared.connection.ConnId.{ConnId};
ghost use Rattle.lsv_session.specs.declared.job.Body.{Body};
ghost use Rattle.lsv_session.specs.declared.job.Body.TheVariants as bodies;
ghost use Rattle.lsv_session.specs.declared.job.Fault.TheVariants as faults;
ghost use Rattle.lsv_session.specs.declared.job.Job.{Job};
ghost use Rattle.lsv_session.specs.declared.reply.Reply.{Reply};

use lsv_wire::one_text_has_one_cutting;

/// Bytes have one list of jobs, and each text of bytes has one, so it doesn't matter in which pieces it came.
pub fn one_stream_has_one_list_of_jobs()
    ensures one { (bytes : List ℕ) (jobs others : List Body) → AreJobs bytes jobs → AreJobs bytes others → jobs ≡ others }
    ensures always { (bytes : List ℕ) → All (λ b. b < 256) bytes → (jobs : List Body) × AreJobs bytes jobs }
{
    one_text_has_one_cutting();
}

/// The jobs of a longer stream begin with those of a shorter one.
pub fn a_longer_stream_begins_with_the_same_jobs()
    ensures { (bytes more : List ℕ) (jobs others : List Body) → AreJobs bytes jobs → AreJobs (bytes ++ more) others → AreFirst jobs others }
{}

/// Where each frame of a stream is a message, the jobs are these messages, and a length above the limit is the last one.
pub fn the_jobs_are_the_messages_of_the_frames()
    ensures cut { (bytes rest : List ℕ) (frames : List (List ℕ)) (messages : List ClientMessage) →
        Cut bytes frames rest → map client_in frames ≡ map (λ m. Ok m) messages → AreJobs bytes (map (λ m. bodies.Msg m) messages) }
    ensures over { (bytes : List ℕ) (stated : ℕ) (frames : List (List ℕ)) (messages : List ClientMessage) →
        Over bytes frames stated → map client_in frames ≡ map (λ m. Ok m) messages → AreJobs bytes (map (λ m. bodies.Msg m) messages ++ bodies.Bad (faults.TooLarge stated) ∷ []) }
{}

/// Jobs are cut from the front of what was read: nothing at first; a piece that comes lengthens the rest; a message is one
/// job more; what is no message, or a length above the limit, is the last job, whatever follows. Where less than a frame
/// is left, the jobs that were cut are those of the bytes read so far, and in any case they are the first of them.
pub fn jobs_are_cut_from_the_front()
    ensures nothing { (bytes : List ℕ) → HasCut bytes [] bytes }
    ensures piece { (read rest piece : List ℕ) (said : List Body) → HasCut read said rest → HasCut (read ++ piece) said (rest ++ piece) }
    ensures message { (read rest message behind : List ℕ) (said : List Body) (m : ClientMessage) →
        HasCut read said rest → InFront message behind rest → client_in message ≡ Ok m → HasCut read (said ++ bodies.Msg m ∷ []) behind }
    ensures no_message { (read rest message behind : List ℕ) (said : List Body) (fault : MsgFault) →
        HasCut read said rest → InFront message behind rest → client_in message ≡ Err fault → AreAllJobs read (said ++ bodies.Bad (faults.Malformed fault) ∷ []) }
    ensures too_long { (read rest : List ℕ) (said : List Body) (stated : ℕ) →
        HasCut read said rest → IsTooLong rest stated → AreAllJobs read (said ++ bodies.Bad (faults.TooLarge stated) ∷ []) }
    ensures rest { (read rest : List ℕ) (said : List Body) → HasCut read said rest → IsPartial rest → AreJobs read said }
    ensures first { (read rest more : List ℕ) (said jobs : List Body) → HasCut read said rest → AreJobs (read ++ more) jobs → AreFirst said jobs }
{}

/// What is said in two parts is said in one, and so are the bytes of it.
pub fn two_parts_are_one()
    ensures bodies { (c : ConnId) (jobs others : List Job) → bodies_of c (jobs ++ others) ≡ bodies_of c jobs ++ bodies_of c others }
    ensures said { (c : ConnId) (replies others : List Reply) → said_to c (replies ++ others) ≡ said_to c replies ++ said_to c others }
    ensures answers { (c : ConnId) (replies others : List Reply) → answers c (replies ++ others) ≡ answers c replies ++ frames_of (said_to c others) }
{}

/// The server's hello and the messages of refusals are no longer than 64 bytes.
pub fn what_the_server_says_is_short()
    ensures hello { length (server_bytes server_hello) ≤ 64 }
    ensures refusals { (refusal : Refusal) → length (server_bytes (refusal_message refusal)) ≤ 64 }
{}

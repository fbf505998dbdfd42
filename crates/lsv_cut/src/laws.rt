//! Laws of the definitions that the contracts of this crate cite. They do nothing when they run.

ghost use Rattle.std.specs.Prelude.{◌≡◌, ℕ, List, [], ◌∷◌, ◌++◌, drop};
ghost use Rattle.lsv_msg.specs.declared.messages.ClientMessage.{ClientMessage};
ghost use Rattle.lsv_session.specs.Transcript.{AreAllJobs, AreJobs, HasCut};
ghost use Rattle.lsv_session.specs.declared.job.Body.{Body};
ghost use Rattle.lsv_session.specs.declared.job.Body.TheVariants as bodies;
ghost use Rattle.lsv_session.specs.declared.job.Fault.{Fault};
ghost use Rattle.lsv_cut.specs.Cuts.{BeginsWith, IsCut};
ghost use Rattle.lsv_cut.specs.declared.cut.Cut.{Cut};
ghost use Rattle.lsv_cut.specs.declared.cut.Cut.TheVariants as cuts;

/// Bytes begin with one thing, and it is what their jobs begin with.
pub fn bytes_have_one_cut()
    ensures one { (bytes : List ℕ) (cut other : Cut) → IsCut cut bytes → IsCut other bytes → cut ≡ other }
    ensures begins { (bytes : List ℕ) (jobs : List Body) → AreJobs bytes jobs → (cut : Cut) × IsCut cut bytes × BeginsWith cut bytes jobs }
{}

/// What is cut from the rest is the next job of what was read; of less than a frame no job is left.
pub fn what_is_cut_is_the_next_job()
    ensures nothing { (read rest : List ℕ) (said : List Body) → HasCut read said rest → IsCut cuts.Nothing rest → AreJobs read said }
    ensures message { (read rest : List ℕ) (said : List Body) (m : ClientMessage) (taken : ℕ) →
        HasCut read said rest → IsCut (cuts.Message m taken) rest → HasCut read (said ++ bodies.Msg m ∷ []) (drop taken rest) }
    ensures no_message { (read rest : List ℕ) (said : List Body) (fault : Fault) →
        HasCut read said rest → IsCut (cuts.NoMessage fault) rest → AreAllJobs read (said ++ bodies.Bad fault ∷ []) }
{}

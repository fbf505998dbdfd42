//! Laws of the definitions that the contracts cite. They do nothing when they run.

ghost use Rattle.std.specs.Prelude.{◌≡◌, ℕ, false, List, []};
ghost use Rattle.lsv_port.specs.Port.{IsOpen, PortState};
ghost use Rattle.lsv_session.specs.declared.job.Job.{Job};
ghost use Rattle.lsv_session.specs.declared.reply.Reply.{Reply};
ghost use Rattle.lsv_worker.specs.Tells.{EachEnds};
ghost use Rattle.lsv_worker.specs.Worker.{HaveLeft, Represents, setting};
ghost use Rattle.lsv_worker.specs.declared.link.Phase.TheVariants as phases;
ghost use Rattle.lsv_worker.specs.declared.worker.Worker.{Worker};

/// If each connection's end was put and each was shut, all jobs of each were put to its one lane, and then one Gone. If a
/// keeper shut it or memory ran out, only its first jobs were. What was written to its link is a prefix of its answers.
pub fn connections_end()
    ensures { (worker : Worker) (port : PortState) (jobs : ℕ → List Job) (replies : List Reply) → Represents worker port jobs replies → HaveLeft worker.links.items → EachEnds worker port jobs replies }
{}

/// A worker that has made no connections matches a port that has opened no link and not announced Stop, with no jobs and no
/// replies.
pub fn a_new_worker_stands()
    ensures { (worker : Worker) (port : PortState) → (setting worker).next ≡ 1 → worker.links.items ≡ [] → (setting worker).phase ≡ phases.Going → port.stopped ≡ false → port.opened ≡ [] → ((l : ℕ) → IsOpen port l → ⊥) → Represents worker port (λ lane. []) [] }
{}

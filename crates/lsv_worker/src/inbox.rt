//! Where a worker puts jobs.

ghost use Rattle.std.specs.Prelude.{◌≡◌, ◌≢◌, ℕ, ◌<◌, List, ◌++◌, ◌∷◌, [], OnOk, OnErr, IfErr};
ghost use Rattle.lsv_defs.specs.Causes.{HasRisen};
ghost use Rattle.lsv_session.specs.declared.job.Job.{Job};
ghost use Rattle.lsv_worker.specs.Frames.{InboxKeeps};

use lsv_session::{Full, Job};

/// Where jobs go: one queue for each lane.
pub trait Inbox {
    /// How many lanes it has.
    ghost lanes: { Self → ℕ };

    /// The jobs that were put to a lane, in order: a put adds one at the end.
    ghost jobs: { Self → ℕ → List Job };

    /// How many puts to a lane were refused. The count may stop at its type's maximum.
    ghost refused: { Self → ℕ → ℕ };

    /// Two inboxes that are the same one, before and after puts: what a put leaves unchanged.
    ghost is_same: { Self → Self → Type 0 };

    /// Puts a job to a lane, or returns it if the lane is full.
    fn put(&mut self, lane: u32, job: Job) -> Result<(), (Job, Full)>
        requires lane { lane < lanes self.old }
        ensures ok { OnOk result (jobs self.new lane ≡ jobs self.old lane ++ job ∷ []) }
        ensures others { (m : ℕ) → m ≢ lane → jobs self.new m ≡ jobs self.old m }
        ensures back { IfErr result (λ e. e.0 ≡ job) }
        ensures unchanged { OnErr result (jobs self.new lane ≡ jobs self.old lane) }
        ensures cause { OnErr result (HasRisen (refused self.old lane) (refused self.new lane)) }
        ensures keeps { InboxKeeps lanes refused is_same self.old self.new };

    ghost same_here: { (i : Self) → is_same i i };

    ghost same_through: { (i j k : Self) → is_same i j → is_same j k → is_same i k };

    ghost same_lanes: { (i j : Self) → is_same i j → lanes j ≡ lanes i };
}

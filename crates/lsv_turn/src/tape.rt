ghost use Rattle.std.specs.Prelude.{◌≡◌, [], ◌∷◌, ◌++◌, OnOk};

use lsv_base::{NoMem, TimeSpec};
use lsv_queue::Gap;
use lsv_session::Job;

/// What the turns of a lane are kept on.
pub trait Tape {
    ghost use Rattle.std.specs.Prelude.{List};
    ghost use Rattle.lsv_session.specs.declared.job.Job.{Job};
    ghost use Rattle.lsv_turn.specs.Turns.{TapeTurn};

    /// Whether this type tells the turns that it was given.
    ghost tells: { Type 0 };

    /// The turns that were kept, in order.
    ghost turns: { Self → List TapeTurn };

    /// Whether there is room for a turn of these jobs.
    ghost has_room: { Self → List Job → Type 0 };

    /// Makes room for a turn of these jobs.
    fn room(&mut self, jobs: &[Job]) -> Result<(), NoMem>
        ensures same { tells → turns self.new ≡ turns self.old }
        ensures ok { OnOk result (has_room self.new jobs.now) };

    /// Keeps a turn of these jobs, for which there is room, at this moment. `gap` is the empty pop at which the lane stopped taking
    /// jobs, if there was one. It can't fail.
    fn keep(&mut self, jobs: &[Job], now: TimeSpec, gap: Option<Gap<Job>>)
        requires room { has_room self.old jobs.now }
        ensures kept { tells → turns self.new ≡ turns self.old ++ record { now = now; jobs = jobs.now; gap = gap } ∷ [] };
}

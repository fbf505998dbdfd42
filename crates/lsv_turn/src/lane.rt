ghost use Rattle.std.specs.Prelude.{List, [], ◌∷◌, ◌++◌, IsSome, IfOk, OnErr};
ghost use Rattle.lsv_base.specs.Time.{nanos_of};
ghost use Rattle.lsv_turn.specs.Turns.{AreAskedIn, IsToThese, LaneTurn};

use lsv_base::{NoMem, TimeSpec};
use lsv_queue::Gap;
use lsv_session::{Job, Reply};

/// What does the turns of a lane. A turn has jobs of many connections, and gives replies.
pub trait Lane {
    ghost use Rattle.std.specs.Prelude.{List};
    ghost use Rattle.lsv_turn.specs.Turns.{LaneTurn};

    /// Whether it is known to whom it replies.
    ghost tells: { Type 0 };

    /// From what a lane may have begun.
    ghost Start: { Type 0 };

    /// These turns, from this start on, made the lane what it is.
    ghost made_by: { Start → Self → List LaneTurn → Type 0 };

    /// Does a turn of these jobs, and gives its moment. `gap` is the empty pop at which the lane stopped taking jobs, if there was
    /// one. The replies are this turn's alone, and each is to the connection of one of these jobs. If it is known to whom the lane
    /// replies, none comes after the Shut of a connection that brings nothing after its end.
    fn turn(
        &mut self,
        jobs: Vec<Job>,
        gap: Option<Gap<Job>>,
        replies: &mut Vec<Reply>,
    ) -> Result<TimeSpec, NoMem>
        requires begun { (start : Start) × (turns : List LaneTurn) × made_by start self.old turns }
        ensures valid { IfOk result (λ now. IsSome (nanos_of now)) }
        ensures made { IfOk result (λ now. (start : Start) (turns : List LaneTurn) → made_by start self.old turns →
            made_by start self.new (turns ++ record { now = now; jobs = jobs.items; gap = gap; replies = replies.new.items } ∷ [])) }
        ensures to_these { IfOk result (λ now. IsToThese jobs.items replies.new.items) }
        ensures asked { tells → IfOk result (λ now. (start : Start) (turns : List LaneTurn) → made_by start self.old turns →
            AreAskedIn (turns ++ record { now = now; jobs = jobs.items; gap = gap; replies = replies.new.items } ∷ [])) }
        ensures lost { OnErr result ((start : Start) (turns : List LaneTurn) → made_by start self.old turns → made_by start self.new turns) };
}

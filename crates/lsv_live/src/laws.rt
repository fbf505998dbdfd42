//! Laws of the definitions that the contracts of this crate cite. They do nothing when they run.

ghost use Rattle.std.specs.Prelude.{◌≡◌, ◌≤◌, ℕ, List, ◌∷◌, ◌++◌, Ok, Some};
ghost use Rattle.lsv_base.specs.Time.{nanos_of};
ghost use Rattle.lsv_base.specs.declared.time.TimeSpec.{TimeSpec};
ghost use Rattle.lsv_live.specs.Meter.{start};
ghost use Rattle.lsv_live.specs.Story.{Exchange, Heard, IsLawful, after};
ghost use Rattle.lsv_msg.specs.Messages.{server_in};
ghost use Rattle.lsv_msg.specs.declared.messages.ServerMessage.TheVariants as server;

/// Each commit point that a client gets was said by the other server, and is a valid time within the elapsed time of the
/// client's messages that were passed on before.
pub fn commit_points_are_bounded()
    ensures { (past later : List Exchange) (body : List ℕ) (time : TimeSpec) → IsLawful start (past ++ Heard body ∷ later) → server_in body ≡ Ok (server.CommitPoint time) →
        (point : ℕ) × (nanos_of time ≡ Some point) × (point ≤ (after start past).elapsed) }
{}

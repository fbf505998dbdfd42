ghost use Rattle.std.specs.Prelude.{[]};

use crate::Tape;
use lsv_base::{NoMem, TimeSpec};
use lsv_queue::Gap;
use lsv_session::Job;

/// No tape: it keeps nothing, and tells nothing.
#[derive(Clone, Copy, Debug)]
pub struct NoTape;

impl Tape for NoTape {
    ghost tells = { ⊥ };

    ghost turns = { λ _. [] };

    ghost has_room = { λ _ _. Unit {0} };

    fn room(&mut self, _jobs: &[Job]) -> Result<(), NoMem> {
        Ok(())
    }

    fn keep(&mut self, _jobs: &[Job], _now: TimeSpec, _gap: Option<Gap<Job>>) {}
}

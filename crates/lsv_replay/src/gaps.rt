//! Which numbers of a store have no log.
ghost use Rattle.std.specs.Prelude.{◌≡◌, ◌≤◌, ◌<◌, ℕ, None};
ghost use Rattle.lsv_iolog.specs.Recovered.{Replays};

use lsv_base::LogNo;
use lsv_disk::{Disk, Part};

/// Who knows the names of a store's folders, and so where it has no log. A listing passes over those numbers.
pub trait Gaps<D: Disk> {
    /// The first number from this one on whose log may exist. Between the two there is no log.
    fn next(&mut self, disk: &D, from: u32) -> u32
        ensures on { from ≤ result }
        ensures absent { D.tells → (n : ℕ) → from ≤ n → n < result → Replays (D.view disk.now).reads n None };

    /// A log was looked for and isn't listed, since it is absent or this part of it is at fault.
    fn note(&mut self, number: LogNo, damage: Option<Part>);
}

/// Nothing is known: each number may have a log.
#[derive(Clone, Copy, Debug, PartialEq, Eq)]
pub struct NoGaps;

impl<D: Disk> Gaps<D> for NoGaps {
    fn next(&mut self, _disk: &D, from: u32) -> u32 {
        from
    }

    fn note(&mut self, _number: LogNo, _damage: Option<Part>) {}
}

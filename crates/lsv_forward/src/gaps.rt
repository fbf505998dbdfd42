//! Which numbers of a store have no complete log.
ghost use Rattle.std.specs.Prelude.{◌≤◌, ◌<◌, ℕ};
ghost use Rattle.lsv_relay.specs.Complete.{IsComplete};

use lsv_disk::Disk;

/// Who knows the names of a store's folders, and so where it has no log. A run passes over those numbers.
pub trait Gaps<D: Disk> {
    /// The first number from this one on whose log may be complete. Between the two no log is.
    fn next(&mut self, disk: &D, from: u32) -> u32
        ensures on { from ≤ result }
        ensures none { D.tells → (n : ℕ) → from ≤ n → n < result → IsComplete n (D.view disk.now).reads → ⊥ };
}

//! Each law of a keeper once, over the disk in memory. That disk tells its files, so the laws speak of it.

ghost use Rattle.std.specs.Prelude.{ℕ, List};
ghost use Rattle.lsv_machine.specs.Disks.{AllWithin, Past};
ghost use Rattle.lsv_machine.specs.Lives.{Chained, Life, Lived, left_by};
ghost use Rattle.lsv_keeper.specs.Reading.{reading_of};

use lsv_disk::{Disk, MemDisk};
use lsv_keeper::{
    a_number_that_was_told_is_drawn, a_run_recovers_turn_by_turn, a_turn_keeps_event_lines,
    all_runs_recover, more_room_changes_nothing, runs_recover,
};

/// Over every list of runs and stops from an empty store in memory, each image that the last stop may have left is, log by
/// log, within what happened. Nothing is asked of the disk.
pub fn runs_in_memory_recover()
    ensures { (lane lanes : ℕ) (first : MemDisk) (lives : List (Life MemDisk)) (n : ℕ) → Chained (reading_of lane lanes) lane lanes (λ d. ⟦<MemDisk as Disk>⟧.view d) first lives →
        (p : Past) × Lived (reading_of lane lanes) (λ d. ⟦<MemDisk as Disk>⟧.view d) n lives p × AllWithin (reading_of lane lanes) p n (left_by (λ d. ⟦<MemDisk as Disk>⟧.view d) first lives) }
{
    runs_recover::<MemDisk>()
}

#[test]
fn the_laws_of_a_keeper_are_called() {
    runs_in_memory_recover();
    a_run_recovers_turn_by_turn::<MemDisk>();
    a_turn_keeps_event_lines::<MemDisk>();
    all_runs_recover::<MemDisk>();
    a_number_that_was_told_is_drawn::<MemDisk>();
    more_room_changes_nothing::<MemDisk>();
}

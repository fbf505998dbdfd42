//! A law of the definitions that the contracts of this crate cite. It does nothing when it runs.

ghost use Rattle.std.specs.Prelude.{◌<◌, ◌-◌, ◌^◌, List};
ghost use Rattle.lsv_disk.specs.View.{Image};
ghost use Rattle.lsv_link.specs.Link.{LinkState, after_close};
ghost use Rattle.lsv_forward.specs.Logs.{AreJoined, Handled, WereAs};
ghost use Rattle.lsv_forward.specs.Run.{AreUnsent};

use lsv_disk::Disk;

/// A run that leaves a link as it was connected to nobody: none of its logs is said to be relayed, pending or failed. So
/// each one that is left couldn't be opened. The link counted fewer missed connections than it can count.
pub fn a_log_that_is_sent_is_connected_to<D: Disk>()
    ensures { (logs : List Handled) (image : Image) (link : LinkState) → link.missed < 2 ^ 64 - 1 → WereAs D.tells logs image → AreJoined logs (after_close link) (after_close link) → AreUnsent logs }
{}

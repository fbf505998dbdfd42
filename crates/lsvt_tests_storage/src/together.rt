ghost use Rattle.std.specs.Prelude.{◌≡◌, ◌≢◌, ◌⊎◌, false, Some, None, OnOk};
ghost use Rattle.lsv_disk.specs.View.{Image, IsCrashImage};
ghost use Rattle.lsv_disk.specs.Throughout.{Throughout};
ghost use Rattle.lsv_bundle.specs.Shape.{IsWritable};
ghost use Rattle.lsv_bundle.specs.Committed.{HoldsEntry, IsBeforeOrAfter, committed, committed_next};
ghost use Rattle.lsv_bundle.specs.Represents.{Represents};

use lsv_bundle::{Bundle, BundleFault};
use lsv_disk::Disk;

/// Flushes two bundles of different owners, one after the other: at every moment each of them holds what was committed
/// before or what is next, and after Ok both hold what is next.
pub fn flush_both<D: Disk>(
    first: &mut Bundle,
    second: &mut Bundle,
    disk: &mut D,
) -> Result<(), BundleFault>
    requires apart { first.old.owner ≢ second.old.owner }
    requires first_whole { first.old.is_broken ≡ false }
    requires second_whole { second.old.is_broken ≡ false }
    requires first_represents { D.tells → Represents first.old (D.view disk.old) }
    requires second_represents { D.tells → Represents second.old (D.view disk.old) }
    ensures any_moment { D.tells → Throughout (λ f. IsWritable first.old.owner first.old.shape f ⊎ IsWritable second.old.owner second.old.shape f)
        (λ image. IsBeforeOrAfter first.old.owner first.old.shape (committed first.old (D.view disk.old)) (Some (committed_next first.old (D.view disk.old) 1 1 0 0)) image
        × IsBeforeOrAfter second.old.owner second.old.shape (committed second.old (D.view disk.old)) (Some (committed_next second.old (D.view disk.old) 1 1 0 0)) image)
        (D.view disk.old) (D.view disk.new) }
    ensures acknowledged { D.tells → OnOk result ((image : Image) → IsCrashImage (D.view disk.new) image
        → HoldsEntry first.old.owner first.old.shape (committed_next first.old (D.view disk.old) 1 1 0 0) image
        × HoldsEntry second.old.owner second.old.shape (committed_next second.old (D.view disk.old) 1 1 0 0) image) }
    ensures entries { OnOk result ((first.new.last ≢ None) × (second.new.last ≢ None)) }
{
    first.flush(disk, 1, 1, 0, 0)?;
    second.flush(disk, 1, 1, 0, 0)
}

ghost use Rattle.std.specs.Prelude.{◌≡◌, ℕ, ◌+◌, ◌<◌, ◌^◌, length, IsErr, OnOk};
ghost use Rattle.lsv_disk.specs.declared.file.FileId.{FileId};
ghost use Rattle.lsv_disk.specs.Bytes.{written, Reaches, Torn};
ghost use Rattle.lsv_disk.specs.View.{IsSynced, HasCause};
ghost use Rattle.lsv_disk.specs.Throughout.{Throughout, CallsAtMost};

use crate::{Disk, DiskFault, FileId};

/// Writes, and waits until a crash leaves what was written. The file was synced before, so a crash inside the call
/// leaves it as it was but for this range.
pub fn write_synced<D: Disk>(
    disk: &mut D,
    f: FileId,
    at: u64,
    bytes: &[u8],
) -> Result<(), DiskFault>
    requires reaches { D.tells → Reaches ((D.view disk.old).reads f) at }
    requires fits { at + length bytes.now < 2 ^ 64 }
    requires synced_before { D.tells → IsSynced (D.view disk.old) f }
    ensures written { D.tells → OnOk result ((D.view disk.new).reads f ≡ written at bytes.now ((D.view disk.old).reads f)) }
    ensures durable { D.tells → OnOk result (IsSynced (D.view disk.new) f) }
    ensures any_moment { D.tells → Throughout (λ g. g ≡ f) (λ image. Torn at (length bytes.now) ((D.view disk.old).reads f) (image f)) (D.view disk.old) (D.view disk.new) }
    ensures calls { D.tells → CallsAtMost 1 1 (λ g. g ≡ f) (D.view disk.old) (D.view disk.new) }
    ensures synced { D.tells → OnOk result ((D.view disk.new).syncs f ≡ (D.view disk.old).syncs f + 1) }
    ensures cause { HasCause f (IsErr result) (D.view disk.old) (D.view disk.new) }
{
    disk.write_at(f, at, bytes)?;
    disk.sync(f)
}

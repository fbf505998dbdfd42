//! Room for what will be kept is made before anything is sent.
ghost use Rattle.std.specs.Prelude.{◌≡◌, ◌⊎◌, ℕ, Some, None, IfOk, IfErr, IsErr, OnOk, IsErrOf};
ghost use Rattle.lsv_bundle.specs.Committed.{BundleHolds, HasPrefix, committed, prefix_at};
ghost use Rattle.lsv_bundle.specs.Represents.{IsDurable, Represents};
ghost use Rattle.lsv_bundle.specs.Value.{BundleView};
ghost use Rattle.lsv_bundle.specs.declared.fault.BundleFault.{BundleFault};
ghost use Rattle.lsv_bundle.specs.declared.shape.Shape.TheVariants as shapes;
ghost use Rattle.lsv_disk.specs.Throughout.{Throughout};
ghost use Rattle.lsv_disk.specs.View.{HasCause, HasOwnCause};
ghost use Rattle.lsv_kept.specs.Inner.{IsBundleOf, commits};
ghost use Rattle.lsv_kept.specs.Kept.{IsOfRelay, owner_of};
ghost use Rattle.lsv_kept.specs.Value.{IsUnmade};

use crate::commit::make;
use lsv_base::LogNo;
use lsv_bundle::{Bundle, BundleFault};
use lsv_disk::{Disk, DiskFault, FileId, Owner, Part};
use std::alloc::Global;

/// The data file is made this long: a block of most file systems, which a host and its identifier fit in.
const ROOM: usize = 4096;

/// The files of a relaying, made if there are none, with room for an identifier.
pub(crate) fn with_room<D: Disk>(
    alloc: Global,
    disk: &mut D,
    number: LogNo,
    files: Option<Bundle>,
) -> Result<Bundle, BundleFault>
    requires files { (b : BundleView) → files ≡ Some b → IsBundleOf number b }
    requires unmade { D.tells → files ≡ None → IsUnmade number (D.view disk.old) }
    requires represents { D.tells → (b : BundleView) → files ≡ Some b → Represents b (D.view disk.old) }
    ensures bundle { IfOk result (IsBundleOf number) }
    ensures same { D.tells → IfOk result (λ b. committed b (D.view disk.new) ≡ commits files (D.view disk.old)) }
    ensures represents { D.tells → IfOk result (λ b. Represents b (D.view disk.new)) }
    ensures any_moment { D.tells → Throughout (IsOfRelay number) (BundleHolds (owner_of number) shapes.Relay (commits files (D.view disk.old))) (D.view disk.old) (D.view disk.new) }
    ensures fault { IfErr result (λ e. (e ≡ BundleFault.Disk) ⊎ (e ≡ BundleFault.NoMem)) }
    ensures cause { HasOwnCause (IsOfRelay number) (IsErrOf result BundleFault.Disk) (D.view disk.old) (D.view disk.new) }
{
    match files {
        Some(bundle) => roomy(disk, number, bundle),
        None => first_files(alloc, disk, number),
    }
}

/// The files, made with room for an identifier. They have no entry.
fn first_files<D: Disk>(alloc: Global, disk: &mut D, number: LogNo) -> Result<Bundle, BundleFault>
    requires unmade { D.tells → IsUnmade number (D.view disk.old) }
    ensures bundle { IfOk result (IsBundleOf number) }
    ensures same { D.tells → IfOk result (λ b. committed b (D.view disk.new) ≡ None) }
    ensures represents { D.tells → IfOk result (λ b. Represents b (D.view disk.new)) }
    ensures any_moment { D.tells → Throughout (IsOfRelay number) (BundleHolds (owner_of number) shapes.Relay None) (D.view disk.old) (D.view disk.new) }
    ensures fault { IfErr result (λ e. (e ≡ BundleFault.Disk) ⊎ (e ≡ BundleFault.NoMem)) }
    ensures cause { HasOwnCause (IsOfRelay number) (IsErrOf result BundleFault.Disk) (D.view disk.old) (D.view disk.new) }
{
    let bundle = make(alloc, disk, number)?;
    roomy(disk, number, bundle)
}

/// Files with room for an identifier after what they commit.
fn roomy<D: Disk>(disk: &mut D, number: LogNo, bundle: Bundle) -> Result<Bundle, BundleFault>
    requires bundle { IsBundleOf number bundle }
    requires represents { D.tells → Represents bundle (D.view disk.old) }
    ensures bundle { IfOk result (IsBundleOf number) }
    ensures same { D.tells → IfOk result (λ b. committed b (D.view disk.new) ≡ committed bundle (D.view disk.old)) }
    ensures represents { D.tells → IfOk result (λ b. Represents b (D.view disk.new)) }
    ensures any_moment { D.tells → Throughout (IsOfRelay number) (BundleHolds (owner_of number) shapes.Relay (committed bundle (D.view disk.old))) (D.view disk.old) (D.view disk.new) }
    ensures fault { IfErr result (λ e. e ≡ BundleFault.Disk) }
    ensures cause { HasOwnCause (IsOfRelay number) (IsErrOf result BundleFault.Disk) (D.view disk.old) (D.view disk.new) }
{
    let [committed, ..] = bundle.next_body(0, 0, 0, 0).lens;
    lengthen(
        disk,
        FileId::new(Owner::Relay(number.get()), Part::Id),
        committed,
    )?;
    Ok(bundle)
}

/// Fills a file of at least this many bytes with zeros after them, up to the room, and syncs it.
fn lengthen<D: Disk>(disk: &mut D, file: FileId, from: u64) -> Result<(), DiskFault>
    requires there { D.tells → IsDurable (D.view disk.old) file from }
    ensures durable { D.tells → OnOk result ((n : ℕ) → IsDurable (D.view disk.old) file n → IsDurable (D.view disk.new) file n) }
    ensures same { D.tells → OnOk result (prefix_at (D.view disk.new) file from ≡ prefix_at (D.view disk.old) file from) }
    ensures any_moment { D.tells → Throughout (λ g. g ≡ file) (λ image. HasPrefix (prefix_at (D.view disk.old) file from) (image file)) (D.view disk.old) (D.view disk.new) }
    ensures cause { HasCause file (IsErr result) (D.view disk.old) (D.view disk.new) }
{
    if from >= ROOM as u64 {
        return Ok(());
    }
    let zeros = [0; ROOM];
    disk.write_at(file, from, &zeros[from as usize..])?;
    disk.sync(file)
}

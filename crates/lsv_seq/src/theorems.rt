//! Laws of the numbers of a lane. They do nothing when they run.

ghost use Rattle.std.specs.Prelude.{◌≡◌, ◌≤◌, ◌<◌, ℕ, None, Some, Ok};
ghost use Rattle.lsv_disk.specs.declared.file.FileId.{FileId};
ghost use Rattle.lsv_disk.specs.declared.file.Owner.TheVariants as owners;
ghost use Rattle.lsv_disk.specs.View.{Image, IsCrashImage, Elsewhere};
ghost use Rattle.lsv_seq.specs.Drawn.{IsNumbersFile, LastDrawn, entry_at, judged};
ghost use Rattle.lsv_seq.specs.Value.{lane_of, lanes_of, last_of, next_of, pending_of, HasDrawn};
ghost use Rattle.lsv_seq.specs.Represents.{Represents};

use crate::Numbers;
use lsv_disk::{Claim, Disk};
use std::marker::PhantomData;

/// An image has one last number of a lane, of one number of lanes, and which it is depends on the files of the lane's
/// numbers alone. These are its owner's.
pub fn an_image_has_one_last_number()
    ensures one { (lane lanes others last other : ℕ) (image : Image) → LastDrawn lane lanes last image → LastDrawn lane others other image → (last ≡ other) × (lanes ≡ others) }
    ensures local { (lane lanes last : ℕ) (image other : Image) → ((g : FileId) → IsNumbersFile lane g → other g ≡ image g) → LastDrawn lane lanes last image → LastDrawn lane lanes last other }
    ensures owner { (lane : ℕ) (g : FileId) → IsNumbersFile lane g → g.owner ≡ owners.Numbers lane }
{}

/// Where a value matches a disk, each crash image has its last number, or the one that a failed draw was writing, and
/// where no draw failed its last number alone.
pub fn each_image_has_the_last_number<D: Disk>(numbers: &Numbers, disk: &D)
    ensures drawn { Represents numbers.now (D.view disk.now) → (image : Image) → IsCrashImage (D.view disk.now) image → HasDrawn numbers.now image }
    ensures last { Represents numbers.now (D.view disk.now) → pending_of numbers.now ≡ None → (image : Image) → IsCrashImage (D.view disk.now) image →
        LastDrawn (lane_of numbers.now) (lanes_of numbers.now) (last_of numbers.now) image }
{}

/// A value goes on matching a disk where calls touched none of its files.
pub fn numbers_stay<D: Disk, C: Claim>(numbers: &Numbers, old: &D, new: &D, claim: PhantomData<C>)
    ensures { Represents numbers.now (D.view old.now) → Elsewhere C.touched (D.view old.now) (D.view new.now) →
        ((g : FileId) → IsNumbersFile (lane_of numbers.now) g → C.touched g → ⊥) → Represents numbers.now (D.view new.now) }
{}

/// No number is drawn twice, whatever fails or crashes: the next number is above the last one, and what an opening finds
/// on an image that has what the value has drawn is the last number or one above it.
pub fn no_number_is_drawn_twice(numbers: &Numbers)
    ensures next { last_of numbers.now < next_of numbers.now }
    ensures pending { (p : ℕ) → pending_of numbers.now ≡ Some p → p ≡ next_of numbers.now }
    ensures opened { (image : Image) (last : ℕ) → HasDrawn numbers.now image → judged (lane_of numbers.now) (lanes_of numbers.now) (entry_at (lane_of numbers.now) image) ≡ Ok last →
        last_of numbers.now ≤ last }
{}

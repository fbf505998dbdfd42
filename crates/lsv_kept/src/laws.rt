//! Laws of the definitions that the contracts of this crate cite. They do nothing when they run.

ghost use Rattle.std.specs.Prelude.{◌≡◌, ◌≢◌, ◌↔◌, ℕ, false};
ghost use Rattle.lsv_disk.specs.View.{Elsewhere, Image, IsCrashImage};
ghost use Rattle.lsv_disk.specs.declared.file.FileId.{FileId};
ghost use Rattle.lsv_disk.specs.declared.file.Part.{Part};
ghost use Rattle.lsv_journal.specs.Last.{IsAbsent};
ghost use Rattle.lsv_bundle.specs.Shape.{journal_of};
ghost use Rattle.lsv_kept.specs.Aim.{AimView};
ghost use Rattle.lsv_kept.specs.Kept.{IsMarked, IsMarkedAt, IsOfRelay, IsStateDamage, Keeps, SameFiles, owner_of};
ghost use Rattle.lsv_kept.specs.Value.{Stands};
ghost use Rattle.lsv_kept.specs.declared.state.Kept.{Kept};
ghost use Rattle.lsv_kept.specs.declared.state.State.{State};
ghost use Rattle.lsv_kept.specs.declared.state.State.TheVariants as states;

use crate::Keeping;
use lsv_disk::{Claim, Disk};
use std::marker::PhantomData;

/// An image keeps one thing of the relaying of a log with an aim, by the relaying's own files, and nothing if its journal
/// is absent. An identifier that is kept for one host is nothing to another. A log is marked in it exactly if it keeps
/// that all is done, whatever the host, and then what is kept isn't damaged.
pub fn what_is_kept_is_one()
    ensures once { (n : ℕ) (aim : AimView) (image : Image) (one two : State) → Keeps n aim image one → Keeps n aim image two → one ≡ two }
    ensures own_files { (n : ℕ) (aim : AimView) (image other : Image) (state : State) → SameFiles n image other → Keeps n aim image state → Keeps n aim other state }
    ensures absent { (n : ℕ) (aim : AimView) (image : Image) → IsAbsent (journal_of (owner_of n)) image → Keeps n aim image states.Nothing }
    ensures hosts { (n : ℕ) (image : Image) (one two : AimView) (kept : Kept) → one.host ≢ two.host → Keeps n one image (states.Kept kept) → Keeps n two image states.Nothing }
    ensures marked { (n : ℕ) (aim : AimView) (image : Image) → IsMarkedAt n aim.total image ↔ Keeps n aim image states.Done }
    ensures undamaged { (n : ℕ) (image : Image) (part : Part) → IsStateDamage n part image → IsMarked n image → ⊥ }
{}

/// Each crash image of a disk keeps what stands there, unless the log was marked when it was opened.
pub fn a_crash_leaves_what_stands<D: Disk>(keeping: &Keeping, disk: &D)
    ensures { keeping.now.broken ≡ false → keeping.now.state ≢ states.Done → Stands keeping.now (D.view disk.now) → (image : Image) → IsCrashImage (D.view disk.now) image → Keeps keeping.now.number keeping.now.aim image keeping.now.state }
{
    let _broken = keeping.broken;
}

/// What is kept still stands on a disk after calls that touched none of the relaying's files.
pub fn keepings_stay<D: Disk, C: Claim>(keeping: &Keeping, old: &D, new: &D, claim: PhantomData<C>)
    ensures { Elsewhere C.touched (D.view old.now) (D.view new.now) → ((f : FileId) → IsOfRelay keeping.now.number f → C.touched f → ⊥) → keeping.now.broken ≡ false → Stands keeping.now (D.view old.now) → Stands keeping.now (D.view new.now) }
{
    let _broken = keeping.broken;
}

ghost use Rattle.std.specs.Prelude.{◌≡◌, ℕ, ◌≤◌};
ghost use Rattle.lsv_disk.specs.declared.file.FileId.{FileId};
ghost use Rattle.lsv_disk.specs.View.{Image, IsCrashImage, Elsewhere, OneRead, OneMaking, OneWrite, OneSync};
ghost use Rattle.lsv_disk.specs.Throughout.{Throughout, Unchanged, OnlyReads, Jointly};

use crate::Disk;
use std::marker::PhantomData;

/// What is said of some calls: which files they may touch, and what each crash image holds.
pub trait Claim {
    /// The files that calls may touch.
    ghost touched: { FileId → Type 0 };

    /// What each crash image of each moment has.
    ghost holds: { Image → Type 0 };
}

/// What holds throughout some calls composes: of no call, of one call, and of some calls and then others. What is
/// said of each crash image of a moment is said of the moment's images together, and the other way round.
pub fn throughout_composes<D: Disk, C: Claim>(old: &D, mid: &D, new: &D, claim: PhantomData<C>)
    ensures started { D.tells → ((image : Image) → IsCrashImage (D.view old.now) image → C.holds image) → Throughout C.touched C.holds (D.view old.now) (D.view old.now) }
    ensures one_making { (f : FileId) → D.tells → OneMaking f (D.view old.now) (D.view new.now)
        → ((image : Image) → IsCrashImage (D.view old.now) image → C.holds image) → ((image : Image) → IsCrashImage (D.view new.now) image → C.holds image)
        → Throughout (λ g. g ≡ f) C.holds (D.view old.now) (D.view new.now) }
    ensures one_write { (f : FileId) → D.tells → OneWrite f (D.view old.now) (D.view new.now)
        → ((image : Image) → IsCrashImage (D.view old.now) image → C.holds image) → ((image : Image) → IsCrashImage (D.view new.now) image → C.holds image)
        → Throughout (λ g. g ≡ f) C.holds (D.view old.now) (D.view new.now) }
    ensures followed { Throughout C.touched C.holds (D.view old.now) (D.view mid.now) → Throughout C.touched C.holds (D.view mid.now) (D.view new.now) → Throughout C.touched C.holds (D.view old.now) (D.view new.now) }
    ensures jointly { Throughout C.touched C.holds (D.view old.now) (D.view new.now) → Jointly (λ images. (image : Image) → images image → C.holds image) (D.view old.now) (D.view new.now) }
    ensures each { Jointly (λ images. (image : Image) → images image → C.holds image) (D.view old.now) (D.view new.now) → Elsewhere C.touched (D.view old.now) (D.view new.now)
        → ((k : ℕ) (image : Image) → (D.view old.now).moment ≤ k → k ≤ (D.view new.now).moment → (D.view new.now).crash_images_at k image → (g : FileId) → (C.touched g → ⊥) → (D.view old.now).crash_states g (image g))
        → (D.view new.now).places ≡ (D.view old.now).places → Throughout C.touched C.holds (D.view old.now) (D.view new.now) }
{}

/// What is said of some calls may be widened: more files, and what follows from what was said and from the other
/// files being as a crash could leave them before.
pub fn throughout_widens<D: Disk, C: Claim, W: Claim>(
    old: &D,
    new: &D,
    claim: PhantomData<C>,
    wider: PhantomData<W>,
)
    ensures widened { ((g : FileId) → C.touched g → W.touched g)
        → ((image : Image) → C.holds image → ((g : FileId) → (C.touched g → ⊥) → (D.view old.now).crash_states g (image g)) → W.holds image)
        → Throughout C.touched C.holds (D.view old.now) (D.view new.now) → Throughout W.touched W.holds (D.view old.now) (D.view new.now) }
{}

/// Calls that change no file compose, and each moment of them has what could be left before.
pub fn reads_compose<D: Disk, C: Claim>(old: &D, mid: &D, new: &D, claim: PhantomData<C>)
    ensures one_read { D.tells → OneRead (D.view old.now) (D.view new.now) → OnlyReads (D.view old.now) (D.view new.now) }
    ensures one_sync { (f : FileId) → D.tells → OneSync f (D.view old.now) (D.view new.now) → Unchanged (D.view old.now) (D.view new.now) }
    ensures unchanged_trans { Unchanged (D.view old.now) (D.view mid.now) → Unchanged (D.view mid.now) (D.view new.now) → Unchanged (D.view old.now) (D.view new.now) }
    ensures unchanged_throughout { ((image : Image) → IsCrashImage (D.view old.now) image → C.holds image) → Unchanged (D.view old.now) (D.view new.now) → Throughout C.touched C.holds (D.view old.now) (D.view new.now) }
{}

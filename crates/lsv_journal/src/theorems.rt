ghost use Rattle.std.specs.Prelude.{◌≡◌, ℕ, None};
ghost use Rattle.lsv_disk.specs.declared.file.FileId.{FileId};
ghost use Rattle.lsv_disk.specs.View.{Image, IsCrashImage, Elsewhere};
ghost use Rattle.lsv_journal.specs.Last.{IsOwn, IsAbsent, LastAt, JournalHolds, MayBeMade, old_file};
ghost use Rattle.lsv_journal.specs.Represents.{Represents};
ghost use Rattle.lsv_journal.specs.Value.{file, last};

use crate::Journal;
use lsv_disk::{Claim, Disk};
use std::marker::PhantomData;

/// A journal's own files are the one that it is named by and the old one of the same owner.
pub fn own_files()
    ensures itself { (f : FileId) → IsOwn f f }
    ensures old { (f : FileId) → IsOwn f (old_file f) }
    ensures no_other { (f g : FileId) → IsOwn f g → (g ≡ f → ⊥) → g ≡ old_file f }
    ensures owner { (f g : FileId) → IsOwn f g → g.owner ≡ f.owner }
{}

/// What a crash may leave of its own files has a journal's last entry; what an image holds of a journal depends on
/// the journal's own files alone.
pub fn images_hold_the_last_entry<D: Disk, const N: usize>(journal: &Journal<N>, disk: &D)
    ensures crash { Represents journal.now (D.view disk.now) → (image : Image) → ((g : FileId) → IsOwn (file journal.now) g → (D.view disk.now).crash_states g (image g)) → JournalHolds N (file journal.now) (last journal.now) image }
    ensures reads { D.tells → Represents journal.now (D.view disk.now) → JournalHolds N (file journal.now) (last journal.now) (D.view disk.now).reads }
    ensures own_alone { (f : FileId) (image other : Image) → ((g : FileId) → IsOwn f g → other g ≡ image g) → LastAt N f other ≡ LastAt N f image }
    ensures absent { (f : FileId) (image : Image) → IsAbsent f image → LastAt N f image ≡ None }
{}

/// A journal of which no file is there may be made, also where no crash leaves one, and so may one that has no entry.
pub fn absent_journals<D: Disk, const N: usize>(journal: &Journal<N>, disk: &D)
    ensures absent { D.tells → (f : FileId) → ((image : Image) → IsCrashImage (D.view disk.now) image → IsAbsent f image) → MayBeMade N f (D.view disk.now) }
    ensures reads { D.tells → (f : FileId) → IsAbsent f (D.view disk.now).reads → MayBeMade N f (D.view disk.now) }
    ensures no_entry { Represents journal.now (D.view disk.now) → last journal.now ≡ None → MayBeMade N (file journal.now) (D.view disk.now) }
{}

/// A journal stays represented, and what may be made stays so, where calls on the disk touched none of its own files.
pub fn journals_stay<D: Disk, C: Claim, const N: usize>(
    journal: &Journal<N>,
    old: &D,
    new: &D,
    claim: PhantomData<C>,
)
    ensures represents { Represents journal.now (D.view old.now) → Elsewhere C.touched (D.view old.now) (D.view new.now) → ((g : FileId) → IsOwn (file journal.now) g → C.touched g → ⊥) → Represents journal.now (D.view new.now) }
    ensures may_be_made { (f : FileId) → MayBeMade N f (D.view old.now) → Elsewhere C.touched (D.view old.now) (D.view new.now) → ((g : FileId) → IsOwn f g → C.touched g → ⊥) → MayBeMade N f (D.view new.now) }
{}

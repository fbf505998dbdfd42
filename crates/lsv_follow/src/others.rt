//! What others do to a disk while a log on it is followed.
ghost use Rattle.std.specs.Prelude.{◌≡◌, ◌≤◌, ◌++◌, ◌∷◌, [], ℕ, suc, List};
ghost use Rattle.std.proofs.Common.{inl, refl};
ghost use Rattle.lsv_disk.specs.declared.file.FileId.{FileId};
ghost use Rattle.lsv_disk.specs.View.{Image, Uncounted};
ghost use Rattle.lsv_play.specs.declared.screen.Item.{Item};
ghost use Rattle.lsv_follow.specs.Others.{MayBecome};

use lsv_disk::Disk;
use lsv_play::Screen;

/// Who else writes a disk while a log on it is followed: a server that appends to the log, finishes it, or cuts it by a
/// restart, or who removes it. They act twice for each look: after it read, and after what it found was shown, which
/// takes time. They see what the screen shows by then.
pub trait Others<D: Disk> {
    /// This type notes what it sees.
    ghost notes: { Type 0 };

    /// What the screen showed at each act so far, in order.
    ghost noted: { Self → List (List Item) };

    /// How the disk reads after this many further acts, if it reads so now.
    ghost later: { Self → Image → ℕ → Image };

    /// They act once. What they write isn't counted as written or synced by the disk's user.
    fn act<S: Screen>(&mut self, disk: &mut D, screen: &S)
        ensures acts { D.tells → (k : ℕ) → later self.new (D.view disk.new).reads k ≡ later self.old (D.view disk.old).reads (suc k) }
        ensures sees { notes → S.tells → noted self.new ≡ noted self.old ++ S.shown screen.now ∷ [] }
        ensures counts { D.tells → Uncounted (D.view disk.old) (D.view disk.new) }
        ensures places { D.tells → (D.view disk.new).places ≡ (D.view disk.old).places }
        ensures faults { (f : FileId) → (D.view disk.old).faults f ≤ (D.view disk.new).faults f };

    /// After no act the disk reads as now.
    ghost none: { (others : Self) (image : Image) → later others image 0 ≡ image };

    /// What each act may make of a log.
    ghost each: { (others : Self) (image : Image) (n k : ℕ) → MayBecome n (later others image k) (later others image (suc k)) };
}

/// Nobody has to act for others: nobody else writes the disk, or they do so by themselves, as with the disk of an
/// operating system, which tells nothing of its content.
#[derive(Clone, Copy, Debug, PartialEq, Eq)]
pub struct Nobody;

impl<D: Disk> Others<D> for Nobody {
    ghost notes = { ⊥ };

    ghost noted = { λ others. [] };

    ghost later = { λ others image k. image };

    ghost none = { λ others image. refl };

    ghost each = { λ others image n k. inl (λ file own. refl) };

    fn act<S: Screen>(&mut self, _disk: &mut D, _screen: &S) {}
}

ghost use Rattle.std.specs.Prelude.{◌≡◌, ◌≢◌, ℕ, Option, Some, None};
ghost use Rattle.lsv_disk.specs.declared.file.FileId.{FileId};
ghost use Rattle.lsv_disk.specs.declared.file.Owner.{Owner};
ghost use Rattle.lsv_disk.specs.declared.file.Part.{Part};
ghost use Rattle.lsv_disk.specs.View.{Image, Elsewhere};
ghost use Rattle.lsv_journal.specs.Last.{IsAbsent};
ghost use Rattle.lsv_bundle.specs.declared.shape.Shape.{Shape};
ghost use Rattle.lsv_bundle.specs.declared.body.Body.{Body};
ghost use Rattle.lsv_bundle.specs.Shape.{journal_of, IsOwnFile};
ghost use Rattle.lsv_bundle.specs.Body.{encoded, IsBody};
ghost use Rattle.lsv_bundle.specs.Value.{committed_length, unstaged};
ghost use Rattle.lsv_bundle.specs.Committed.{Committed, IsOwnImage, BundleHolds, committed, committed_as};
ghost use Rattle.lsv_bundle.specs.Represents.{Represents, DataIsWritten};

use crate::Bundle;
use lsv_disk::{Claim, Disk};
use std::marker::PhantomData;

/// The files of a bundle are its owner's, so bundles of different owners have no file in common; an entry's bytes are
/// those of one body; and what an image holds of a bundle depends on its own files alone, none where its journal is
/// absent.
pub fn bundles_are_apart()
    ensures owner { (owner : Owner) (shape : Shape) (f : FileId) → IsOwnFile owner shape f → f.owner ≡ owner }
    ensures apart { (a b : Owner) (s t : Shape) (f : FileId) → a ≢ b → IsOwnFile a s f → IsOwnFile b t f → ⊥ }
    ensures one_body { (a b : Body) → IsBody a → IsBody b → encoded a ≡ encoded b → a ≡ b }
    ensures own_alone { (owner : Owner) (shape : Shape) (entry : Option Committed) (image other : Image) → ((f : FileId) → IsOwnFile owner shape f → other f ≡ image f)
        → BundleHolds owner shape entry image → BundleHolds owner shape entry other }
    ensures absent { (owner : Owner) (shape : Shape) (image : Image) → IsAbsent (journal_of owner) image → BundleHolds owner shape None image }
{}

/// What a crash may leave of a bundle's own files holds what is committed.
pub fn images_hold_what_is_committed<D: Disk>(bundle: &Bundle, disk: &D)
    ensures holds { Represents bundle.now (D.view disk.now) → (image : Image) → IsOwnImage bundle.now.owner bundle.now.shape (D.view disk.now) image → BundleHolds bundle.now.owner bundle.now.shape (committed bundle.now (D.view disk.now)) image }
    ensures is_body { (body : Body) → bundle.now.last ≡ Some body → IsBody body }
{
    let _last = bundle.last;
}

/// A bundle stays represented, and has the same committed, where calls on the disk touched no file of its owner.
pub fn bundles_stay<D: Disk, C: Claim>(bundle: &Bundle, old: &D, new: &D, claim: PhantomData<C>)
    ensures represents { Represents bundle.now (D.view old.now) → Elsewhere C.touched (D.view old.now) (D.view new.now) → ((f : FileId) → f.owner ≡ bundle.now.owner → C.touched f → ⊥) → Represents bundle.now (D.view new.now) }
    ensures written { DataIsWritten bundle.now (D.view old.now) → Elsewhere C.touched (D.view old.now) (D.view new.now) → ((f : FileId) → f.owner ≡ bundle.now.owner → C.touched f → ⊥) → DataIsWritten bundle.now (D.view new.now) }
    ensures committed { Elsewhere C.touched (D.view old.now) (D.view new.now) → ((f : FileId) → f.owner ≡ bundle.now.owner → C.touched f → ⊥) → committed bundle.now (D.view new.now) ≡ committed bundle.now (D.view old.now) }
    ensures next { Elsewhere C.touched (D.view old.now) (D.view new.now) → ((f : FileId) → f.owner ≡ bundle.now.owner → C.touched f → ⊥) → (body : Body) → committed_as bundle.now (D.view new.now) body ≡ committed_as bundle.now (D.view old.now) body }
{}

/// Staging commits nothing: the bundle stays represented, and has the same committed.
pub fn staging_commits_nothing<D: Disk>(old: &Bundle, new: &Bundle, disk: &D)
    ensures represents { unstaged new.now ≡ unstaged old.now → Represents old.now (D.view disk.now) → Represents new.now (D.view disk.now) }
    ensures lengths { unstaged new.now ≡ unstaged old.now → (part : Part) → committed_length new.now part ≡ committed_length old.now part }
    ensures committed { unstaged new.now ≡ unstaged old.now → committed new.now (D.view disk.now) ≡ committed old.now (D.view disk.now) }
{}

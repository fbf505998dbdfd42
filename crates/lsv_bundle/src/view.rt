ghost use Rattle.std.specs.Prelude.{◌≡◌, ◌++◌, ◌≤◌, None, length, drop, IsErr, IfOk, IfErr, IfSome, IsErrOf};
ghost use Rattle.lsv_defs.specs.Pieces.{piece};
ghost use Rattle.lsv_disk.specs.declared.file.Part.{Part};
ghost use Rattle.lsv_disk.specs.Files.{file_of};
ghost use Rattle.lsv_disk.specs.View.{HasCause, HasOwnCause};
ghost use Rattle.lsv_disk.specs.Throughout.{OnlyReads};
ghost use Rattle.lsv_journal.specs.Last.{LastAt};
ghost use Rattle.lsv_bundle.specs.declared.fault.BundleFault.{BundleFault};
ghost use Rattle.lsv_bundle.specs.Shape.{IsPart, journal_of, IsOwnFile};
ghost use Rattle.lsv_bundle.specs.Body.{length_of};
ghost use Rattle.lsv_bundle.specs.Committed.{HasEntry, IsShort, IsDamaged, prefix_at};
ghost use Rattle.lsv_bundle.specs.Calls.{IsViewFault};

use crate::open::check_lengths;
use crate::shape::index_of;
use crate::{Body, Bundle, BundleFault, Shape};
use lsv_disk::{Disk, FileId, Owner, Part};
use lsv_journal::Journal;

/// What a bundle's files read as: what its last entry says, and by its lengths the committed bytes. It stands on no
/// sync, so a crash may leave something else.
#[derive(Clone, Copy, Debug, PartialEq, Eq)]
pub struct View {
    pub owner: Owner,
    pub shape: Shape,
    pub body: Body,
}

impl Bundle {
    /// What the bundle's files read as, without a sync or a write. None exactly where the journal is absent or has no
    /// entry, `Damaged(part)` exactly as `open` says it of what is read. `Disk` only where a device call on a file of
    /// this bundle failed. It takes no memory.
    pub fn view<D: Disk>(
        disk: &mut D,
        owner: Owner,
        shape: Shape,
    ) -> Result<Option<View>, BundleFault>
        ensures none { D.tells → IfOk result (λ o. o ≡ None → LastAt 89 (journal_of owner) (D.view disk.old).reads ≡ None) }
        ensures named { IfOk result (λ o. IfSome o (λ v. (v.owner ≡ owner) × (v.shape ≡ shape))) }
        ensures entry { D.tells → IfOk result (λ o. IfSome o (λ v. HasEntry owner v.body (D.view disk.old).reads)) }
        ensures enough { D.tells → IfOk result (λ o. IfSome o (λ v. (part : Part) → IsPart shape part → IsShort ((D.view disk.old).reads (file_of owner part)) (length_of v.body part) → ⊥)) }
        ensures reads { D.tells → OnlyReads (D.view disk.old) (D.view disk.new) }
        ensures damaged { D.tells → (part : Part) → IsErrOf result (BundleFault.Damaged part) → IsDamaged owner shape (D.view disk.old).reads part }
        ensures fault { IfErr result IsViewFault }
        ensures cause { HasOwnCause (IsOwnFile owner shape) (IsErrOf result BundleFault.Disk) (D.view disk.old) (D.view disk.new) }
    {
        let Ok(last) = Journal::<89>::view(disk, FileId::new(owner, Part::Slots)) else {
            return Err(BundleFault::Disk);
        };
        let Some(bytes) = last else {
            return Ok(None);
        };
        let body = Body::decode(bytes);
        check_lengths(disk, owner, shape.parts(), &body.lens)?;
        Ok(Some(View { owner, shape, body }))
    }
}

impl View {
    /// What the last entry says.
    pub fn body(&self) -> Body
        ensures { result ≡ self.now.body }
    {
        self.body
    }

    /// Reads committed bytes of a part from an offset on, as many as there are and as the buffer takes. `Disk` only
    /// where a device call on its file failed. It takes no memory.
    pub fn read<D: Disk>(
        &self,
        disk: &mut D,
        part: Part,
        at: u64,
        buf: &mut [u8],
    ) -> Result<usize, BundleFault>
        requires part { IsPart self.now.shape part }
        ensures within { IfOk result (λ n. n ≤ length buf.old) }
        ensures count { D.tells → IfOk result (λ n. n ≡ length (piece (prefix_at (D.view disk.old) (file_of self.now.owner part) (length_of self.now.body part)) at (length buf.old))) }
        ensures bytes { D.tells → IfOk result (λ n. buf.new ≡ piece (prefix_at (D.view disk.old) (file_of self.now.owner part) (length_of self.now.body part)) at (length buf.old) ++ drop n buf.old) }
        ensures reads { D.tells → OnlyReads (D.view disk.old) (D.view disk.new) }
        ensures fault { IfErr result (λ e. e ≡ BundleFault.Disk) }
        ensures cause { HasCause (file_of self.now.owner part) (IsErr result) (D.view disk.old) (D.view disk.new) }
    {
        let left = self.body.lens[index_of(part)].saturating_sub(at);
        let room = left.min(buf.len() as u64) as usize;
        let Ok(count) = disk.read_at(FileId::new(self.owner, part), at, &mut buf[..room]) else {
            return Err(BundleFault::Disk);
        };
        Ok(count)
    }
}

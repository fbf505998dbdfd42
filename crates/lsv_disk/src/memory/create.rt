ghost use Rattle.std.specs.Prelude.{◌≡◌, ◌⊎◌, ℕ, [], Some, None, List, Option, IsErr, OnOk, OnErr};
ghost use Rattle.lsv_disk.specs.declared.file.FileId.{FileId};
ghost use Rattle.lsv_disk.specs.Files.{AreDistinct, IsOneOf};
ghost use Rattle.lsv_disk.specs.View.{IsSynced, OneMaking, Uncounted, HasCause, HasOwnCause};
ghost use Rattle.lsv_disk.specs.Throughout.{Throughout};
ghost use Rattle.lsv_disk.specs.Memory.Value.{view_of_disk};

use crate::memory::MemDisk;
use crate::{DiskFault, FileId, Owner, Part};

impl MemDisk {
    /// Makes an empty file.
    pub(crate) fn make_file(&mut self, f: FileId) -> Result<(), DiskFault>
        requires absent { (view_of_disk self.old).reads f ≡ None }
        ensures made { OnOk result ((view_of_disk self.new).reads f ≡ Some []) }
        ensures durable { OnOk result (IsSynced (view_of_disk self.new) f) }
        ensures failed { OnErr result (((view_of_disk self.new).reads f ≡ None) ⊎ ((view_of_disk self.new).reads f ≡ Some [])) }
        ensures crash { (c : Option (List ℕ)) → (view_of_disk self.new).crash_states f c → (view_of_disk self.old).crash_states f c ⊎ (c ≡ Some []) }
        ensures frame { OneMaking f (view_of_disk self.old) (view_of_disk self.new) }
        ensures cause { HasCause f (IsErr result) (view_of_disk self.old) (view_of_disk self.new) }
    {
        self.try_create(f)
    }

    /// Makes several empty files of one owner, one after the other.
    pub(crate) fn make_each(&mut self, owner: Owner, parts: &[Part]) -> Result<(), DiskFault>
        requires distinct { AreDistinct owner parts.now }
        requires absent { (f : FileId) → IsOneOf owner parts.now f → (view_of_disk self.old).reads f ≡ None }
        ensures made { OnOk result ((f : FileId) → IsOneOf owner parts.now f → (view_of_disk self.new).reads f ≡ Some []) }
        ensures durable { OnOk result ((f : FileId) → IsOneOf owner parts.now f → IsSynced (view_of_disk self.new) f) }
        ensures made_or_not { (f : FileId) → IsOneOf owner parts.now f → ((view_of_disk self.new).reads f ≡ None) ⊎ ((view_of_disk self.new).reads f ≡ Some []) }
        ensures any_moment { Throughout (IsOneOf owner parts.now)
            (λ image. (f : FileId) → IsOneOf owner parts.now f → (view_of_disk self.old).crash_states f (image f) ⊎ (image f ≡ Some []))
            (view_of_disk self.old) (view_of_disk self.new) }
        ensures counts { Uncounted (view_of_disk self.old) (view_of_disk self.new) }
        ensures cause { HasOwnCause (IsOneOf owner parts.now) (IsErr result) (view_of_disk self.old) (view_of_disk self.new) }
    {
        let [first, rest @ ..] = parts else {
            return Ok(());
        };
        self.make_file(FileId::new(owner, *first))?;
        self.make_each(owner, rest)
    }
}

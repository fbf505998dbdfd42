ghost use Rattle.std.specs.Prelude.{◌≡◌, ◌⊎◌, ℕ, ◌+◌, ◌<◌, ◌^◌, ◌≤◌, List, [], ◌++◌, Option, Some, None, length, drop, IsErr, IfOk, OnOk, OnErr};
ghost use Rattle.lsv_defs.specs.Pieces.{piece};
ghost use Rattle.lsv_disk.specs.declared.file.FileId.{FileId};
ghost use Rattle.lsv_disk.specs.Files.{AreDistinct, IsOneOf, IsNew};
ghost use Rattle.lsv_disk.specs.Bytes.{written, bytes_of, size_of, Reaches, Torn};
ghost use Rattle.lsv_disk.specs.View.{Image, DiskView, IsCrashImage, IsSynced, Follows, OneRead, OneMaking, OneWrite, OneSync, Uncounted, IsLeftAlone, HasCause, HasOwnCause};
ghost use Rattle.lsv_disk.specs.Throughout.{Throughout};

use crate::{FileId, Owner, Part};

/// A device call failed.
#[derive(Clone, Copy, Debug, PartialEq, Eq)]
pub struct DiskFault;

/// A disk of many files. Between two syncs of a file each range that was written, and the part past the old
/// end, may hold any bytes after a crash; bytes outside stay. After a sync that succeeds a crash leaves what a
/// read gives. A write that failed may leave any bytes in its range, also for a read.
pub trait Disk {
    /// Whether this type tells its content: what its files hold is promised where it does.
    ghost tells: { Type 0 };

    /// What is known of it now.
    ghost view: { Self → DiskView };

    /// Notes the places of the store: the folder of the logs, and the path of the event log. It changes no file.
    /// Out of memory there are no places.
    fn root(&mut self, dir: &str, events: &str)
        ensures places { tells → ((view self.new).places ≡ Some (record { logs = dir.now; events = events.now })) ⊎ ((view self.new).places ≡ None) }
        ensures frame { IsLeftAlone tells (view self.old) (view self.new) };

    /// Makes an empty file. At Ok a crash leaves it there.
    fn create(&mut self, f: FileId) -> Result<(), DiskFault>
        requires absent { tells → (view self.old).reads f ≡ None }
        ensures made { tells → OnOk result ((view self.new).reads f ≡ Some []) }
        ensures durable { tells → OnOk result (IsSynced (view self.new) f) }
        ensures failed { tells → OnErr result (((view self.new).reads f ≡ None) ⊎ ((view self.new).reads f ≡ Some [])) }
        ensures crash { tells → (c : Option (List ℕ)) → (view self.new).crash_states f c → (view self.old).crash_states f c ⊎ (c ≡ Some []) }
        ensures frame { tells → OneMaking f (view self.old) (view self.new) }
        ensures cause { HasCause f (IsErr result) (view self.old) (view self.new) };

    /// Makes several files of one owner, together, with no bytes in them; but a file of slots may have its gate byte
    /// at once, so that one sync serves both. At Ok a crash leaves all of them there; else each is there and new, or it
    /// is absent.
    fn create_all(&mut self, owner: Owner, parts: &[Part]) -> Result<(), DiskFault>
        requires distinct { AreDistinct owner parts.now }
        requires absent { tells → (f : FileId) → IsOneOf owner parts.now f → (view self.old).reads f ≡ None }
        ensures made { tells → OnOk result ((f : FileId) → IsOneOf owner parts.now f → IsNew f ((view self.new).reads f)) }
        ensures durable { tells → OnOk result ((f : FileId) → IsOneOf owner parts.now f → IsSynced (view self.new) f) }
        ensures made_or_not { tells → (f : FileId) → IsOneOf owner parts.now f → ((view self.new).reads f ≡ None) ⊎ IsNew f ((view self.new).reads f) }
        ensures any_moment { tells → Throughout (IsOneOf owner parts.now)
            (λ image. (f : FileId) → IsOneOf owner parts.now f → (view self.old).crash_states f (image f) ⊎ IsNew f (image f))
            (view self.old) (view self.new) }
        ensures counts { tells → Uncounted (view self.old) (view self.new) }
        ensures cause { HasOwnCause (IsOneOf owner parts.now) (IsErr result) (view self.old) (view self.new) };

    /// How many bytes the file has, None where it is absent.
    fn length(&mut self, f: FileId) -> Result<Option<u64>, DiskFault>
        ensures size { tells → IfOk result (λ n. n ≡ size_of ((view self.old).reads f)) }
        ensures frame { tells → OneRead (view self.old) (view self.new) }
        ensures cause { HasCause f (IsErr result) (view self.old) (view self.new) };

    /// Reads from an offset on, as many bytes as there are and as the buffer takes. An absent file has none.
    fn read_at(&mut self, f: FileId, at: u64, buf: &mut [u8]) -> Result<usize, DiskFault>
        ensures within { IfOk result (λ n. n ≤ length buf.old) }
        ensures count { tells → IfOk result (λ n. n ≡ length (piece (bytes_of ((view self.old).reads f)) at (length buf.old))) }
        ensures bytes { tells → IfOk result (λ n. buf.new ≡ piece (bytes_of ((view self.old).reads f)) at (length buf.old) ++ drop n buf.old) }
        ensures frame { tells → OneRead (view self.old) (view self.new) }
        ensures cause { HasCause f (IsErr result) (view self.old) (view self.new) };

    /// Writes over what is there, and past the end. Until a sync succeeds a crash may leave any bytes in the range.
    fn write_at(&mut self, f: FileId, at: u64, bytes: &[u8]) -> Result<(), DiskFault>
        requires reaches { tells → Reaches ((view self.old).reads f) at }
        requires fits { at + length bytes.now < 2 ^ 64 }
        ensures written { tells → OnOk result ((view self.new).reads f ≡ written at bytes.now ((view self.old).reads f)) }
        ensures torn { tells → Torn at (length bytes.now) ((view self.old).reads f) ((view self.new).reads f) }
        ensures crash { tells → Follows (Torn at (length bytes.now)) ((view self.old).crash_states f) ((view self.new).crash_states f) }
        ensures counted { tells → OnOk result ((view self.new).writes f ≡ (view self.old).writes f + 1) }
        ensures frame { tells → OneWrite f (view self.old) (view self.new) }
        ensures cause { HasCause f (IsErr result) (view self.old) (view self.new) };

    /// At Ok a crash leaves of this file what a read gives.
    fn sync(&mut self, f: FileId) -> Result<(), DiskFault>
        ensures durable { tells → OnOk result (IsSynced (view self.new) f) }
        ensures synced { tells → OnOk result ((view self.new).syncs f ≡ (view self.old).syncs f + 1) }
        ensures frame { tells → OneSync f (view self.old) (view self.new) }
        ensures cause { HasCause f (IsErr result) (view self.old) (view self.new) };

    /// The disk as it reads is one that a crash may leave.
    ghost reads_itself: { tells → (disk : Self) → IsCrashImage (view disk) (view disk).reads };

    /// Of a file that reads as absent a crash leaves nothing, or an empty file, which a making that failed may have made.
    ghost absent_or_empty: { tells → (disk : Self) (f : FileId) (c : Option (List ℕ)) → (view disk).reads f ≡ None → (view disk).crash_states f c → (c ≡ None) ⊎ (c ≡ Some []) };

    /// What a crash may leave now, it may leave at the moment that is now.
    ghost is_now: { tells → (disk : Self) (image : Image) → IsCrashImage (view disk) image → (view disk).crash_images_at (view disk).moment image };

    /// A crash at the moment that is now leaves what it may leave now, and nothing else.
    ghost only_now: { tells → (disk : Self) (image : Image) → (view disk).crash_images_at (view disk).moment image → IsCrashImage (view disk) image };
}

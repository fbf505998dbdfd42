ghost use Rattle.std.specs.Prelude.{◌≡◌, ◌&&◌};

use crate::FileId;

/// What a call on a file did.
#[derive(Drop)]
pub(crate) enum Effect {
    /// It held these bytes from before the first call on, and a crash left them.
    Held(Vec<u8>),
    Made,
    NotMade,
    NotRead,
    /// These bytes at that place.
    Written(u64, Vec<u8>),
    /// This many bytes at that place, of which any may have come through.
    NotWritten(u64, usize),
    Synced,
    NotSynced,
}

impl Effect {
    ghost use Rattle.lsv_disk.specs.Memory.Calls.{is_fault};
    ghost use Rattle.lsv_disk.specs.Memory.Images.{makes_durable, may_make};

    /// Whether a crash leaves one content of the file after it.
    pub(crate) fn makes_durable(&self) -> bool
        ensures { result ≡ makes_durable self.now }
    {
        matches!(self, Effect::Held(_) | Effect::Made | Effect::Synced)
    }

    /// Whether the file may be there by it.
    pub(crate) fn may_make(&self) -> bool
        ensures { result ≡ may_make self.now }
    {
        matches!(self, Effect::Held(_) | Effect::Made | Effect::NotMade)
    }

    /// Whether the call failed.
    pub(crate) fn is_fault(&self) -> bool
        ensures { result ≡ is_fault self.now }
    {
        matches!(
            self,
            Effect::NotMade | Effect::NotRead | Effect::NotWritten(_, _) | Effect::NotSynced
        )
    }
}

/// A call that the disk in memory keeps. Reads that succeed change nothing, and aren't kept.
#[derive(Drop)]
pub(crate) struct Call {
    pub(crate) file: FileId,
    pub(crate) effect: Effect,
}

impl Call {
    ghost use Rattle.lsv_disk.specs.Files.{same_file};
    ghost use Rattle.lsv_disk.specs.Memory.Calls.{is_fault};

    /// Whether it is a call on that file, which failed.
    pub(crate) fn failed_on(&self, file: FileId) -> bool
        ensures { result ≡ (same_file self.now.file file && is_fault self.now.effect) }
    {
        self.file == file && self.effect.is_fault()
    }
}

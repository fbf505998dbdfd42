ghost use Rattle.std.specs.Prelude.{◌≡◌};
ghost use Rattle.lsv_disk.specs.Files.{file_of};

/// Whose file it is.
#[derive(Clone, Copy, Debug, PartialEq, Eq, Hash)]
pub enum Owner {
    /// The log of this number.
    Log(u32),
    /// The event log of this lane.
    Events(u32),
    /// The log numbers of this lane.
    Numbers(u32),
    /// The state of relaying the log of this number.
    Relay(u32),
}

/// Which of its owner's files it is.
#[derive(Clone, Copy, Debug, PartialEq, Eq, Hash)]
pub enum Part {
    /// log.json
    Head,
    /// exit.json
    Exit,
    /// The lines of the file `timing`.
    Timing,
    Stdin,
    Stdout,
    Stderr,
    Ttyin,
    Ttyout,
    /// The event lines.
    Lines,
    /// The identifier that an upstream gave.
    Id,
    /// The journal of an older store, which is only read.
    Commit,
    /// The journal.
    Slots,
}

/// A file of the store, by whose it is and which.
#[derive(Clone, Copy, Debug, PartialEq, Eq, Hash)]
pub struct FileId {
    pub owner: Owner,
    pub part: Part,
}

impl FileId {
    /// The file of this owner and part.
    pub fn new(owner: Owner, part: Part) -> Self
        ensures { result ≡ file_of owner part }
    {
        FileId { owner, part }
    }
}

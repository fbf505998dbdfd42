ghost use Rattle.std.specs.Prelude.{◌≡◌, IfOk};
ghost use Rattle.lsv_replay.specs.Status.{number_of, of_following, of_listing, of_playing, text_of};

use crate::ListFault;
use itoa::Buffer;
use lsv_base::Bytes;
use lsv_disk::Part;
use lsv_follow::FollowEnd;
use lsv_play::PlayFault;
use std::alloc::Global;

/// How a run of the program ended.
#[derive(Clone, Copy, Debug, PartialEq, Eq)]
pub enum ReplayStatus {
    /// All that is asked for was shown.
    Shown,
    /// The words are no command.
    Usage,
    /// The words after `-l` are no search. This is the place of the first that can't be read, counted from 0, or their
    /// count if one is missing.
    BadExpression(u32),
    /// This part of a log is at fault, or a number file.
    Damaged(Part),
    /// A read failed.
    ReadFault,
    /// A write to the screen failed.
    WriteFault,
    /// The log was cut by a restart while it was played or followed.
    Resumed,
    /// The log was removed while it was followed.
    Removed,
    /// There is no such log.
    Absent,
    /// Out of memory.
    NoMem,
    /// The log that is followed had no further record for an hour.
    Quiet,
}

impl ReplayStatus {
    /// The exit status of the program.
    pub fn number(&self) -> u8
        ensures { result ≡ number_of self.now }
    {
        match self {
            ReplayStatus::Shown => 0,
            ReplayStatus::Usage => 2,
            ReplayStatus::BadExpression(_) => 3,
            ReplayStatus::Damaged(_) => 4,
            ReplayStatus::ReadFault => 5,
            ReplayStatus::WriteFault => 6,
            ReplayStatus::Resumed => 7,
            ReplayStatus::Removed => 8,
            ReplayStatus::Absent => 8,
            ReplayStatus::NoMem => 9,
            ReplayStatus::Quiet => 10,
        }
    }

    /// What the program prints on standard error after its name. It is empty for `Shown`.
    pub fn text(&self, alloc: Global) -> Result<Bytes, lsv_base::NoMem>
        ensures { IfOk result (λ text. text ≡ text_of self.now) }
    {
        match self {
            ReplayStatus::Shown => Ok(Bytes::new(alloc)),
            ReplayStatus::Usage => Bytes::of(alloc, b"usage"),
            ReplayStatus::BadExpression(at) => bad_expression(alloc, *at),
            ReplayStatus::Damaged(_) => Bytes::of(alloc, b"log damaged"),
            ReplayStatus::ReadFault => Bytes::of(alloc, b"read fault"),
            ReplayStatus::WriteFault => Bytes::of(alloc, b"write fault"),
            ReplayStatus::Resumed => Bytes::of(alloc, b"log resumed"),
            ReplayStatus::Removed => Bytes::of(alloc, b"log removed"),
            ReplayStatus::Absent => Bytes::of(alloc, b"no such log"),
            ReplayStatus::NoMem => Bytes::of(alloc, b"out of memory"),
            ReplayStatus::Quiet => Bytes::of(alloc, b"log quiet"),
        }
    }

    /// How a run ends in which a log was played.
    pub(crate) fn of_playing(answer: Result<(), PlayFault>) -> Self
        ensures { result ≡ of_playing answer }
    {
        match answer {
            Ok(()) => ReplayStatus::Shown,
            Err(PlayFault::Absent) => ReplayStatus::Absent,
            Err(PlayFault::Damaged(part)) => ReplayStatus::Damaged(part),
            Err(PlayFault::Resumed) => ReplayStatus::Resumed,
            Err(PlayFault::Disk) => ReplayStatus::ReadFault,
            Err(PlayFault::Screen) => ReplayStatus::WriteFault,
            Err(PlayFault::NoMem) => ReplayStatus::NoMem,
        }
    }

    /// How a run ends in which a log was followed.
    pub(crate) fn of_following(answer: Result<(), FollowEnd>) -> Self
        ensures { result ≡ of_following answer }
    {
        match answer {
            Ok(()) => ReplayStatus::Shown,
            Err(FollowEnd::Resumed { .. }) => ReplayStatus::Resumed,
            Err(FollowEnd::Removed) => ReplayStatus::Removed,
            Err(FollowEnd::Quiet) => ReplayStatus::Quiet,
            Err(FollowEnd::Fault(fault)) => ReplayStatus::of_playing(Err(fault)),
        }
    }

    /// How a run ends in which the logs were listed.
    pub(crate) fn of_listing(answer: Result<(), ListFault>) -> Self
        ensures { result ≡ of_listing answer }
    {
        match answer {
            Ok(()) => ReplayStatus::Shown,
            Err(ListFault::Damaged(part)) => ReplayStatus::Damaged(part),
            Err(ListFault::Disk) => ReplayStatus::ReadFault,
            Err(ListFault::Screen) => ReplayStatus::WriteFault,
            Err(ListFault::NoMem) => ReplayStatus::NoMem,
        }
    }
}

/// The text of a search that is none.
fn bad_expression(alloc: Global, at: u32) -> Result<Bytes, lsv_base::NoMem>
    ensures { IfOk result (λ text. text ≡ text_of (ReplayStatus.BadExpression at)) }
{
    let mut text = Bytes::of(alloc, b"bad expression at word ")?;
    text.add(Buffer::new().format(at).as_bytes())?;
    Ok(text)
}

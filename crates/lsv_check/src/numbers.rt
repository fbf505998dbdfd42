//! What is known of the number files of a store.
ghost use Rattle.std.specs.Prelude.{◌≡◌, IfOk, IsErr};
ghost use Rattle.lsv_disk.specs.Throughout.{OnlyReads};
ghost use Rattle.lsv_disk.specs.View.{HasOwnCause};
ghost use Rattle.lsv_check.specs.Checks.{AreNumbers, IsSeen, at_least_damaged, lanes_asked, line_of_numbers, numbers_at, with_numbers};
ghost use Rattle.lsv_check.specs.declared.numbers.Numbers.TheVariants as found;
ghost use Rattle.lsv_verdict.specs.Verdicts.{IsOfNumbers, counts_of};

use lsv_check_args::Form;
use lsv_disk::{Disk, DiskFault};
use lsv_replay::{ListFault, last_number};
use lsv_verdict::{CheckStatus, lanes_of};

/// What was found of the number files of all lanes.
#[derive(Clone, Copy, Debug, PartialEq, Eq)]
pub(crate) enum Numbers {
    /// Each reads, or there is none.
    Sound,
    /// One is damaged.
    Damaged,
    /// A read of one failed.
    Unread,
}

/// What is known of a store beside its logs.
#[derive(Clone, Copy, Debug, PartialEq, Eq)]
pub(crate) struct Seen {
    pub numbers: Numbers,
    /// Of how many lanes the event log is read.
    pub lanes: u32,
}

/// Reads the number files, and of how many lanes the event log is asked for.
pub(crate) fn see<D: Disk>(disk: &mut D, events: &str) -> Seen
    ensures seen { D.tells → IsSeen events.now (D.view disk.old).reads (counts_of (D.view disk.old) (D.view disk.new)) result }
    ensures reads { D.tells → OnlyReads (D.view disk.old) (D.view disk.new) }
    ensures cause { HasOwnCause IsOfNumbers (result.numbers ≡ found.Unread) (D.view disk.old) (D.view disk.new) }
{
    let numbers = see_numbers(disk);
    match lanes_asked(disk, events) {
        Ok(lanes) => Seen { numbers, lanes },
        Err(_) => Seen {
            numbers: Numbers::Unread,
            lanes: 0,
        },
    }
}

/// Reads the number files of all lanes.
fn see_numbers<D: Disk>(disk: &mut D) -> Numbers
    ensures are { D.tells → AreNumbers (D.view disk.old).reads (counts_of (D.view disk.old) (D.view disk.new)) result }
    ensures reads { D.tells → OnlyReads (D.view disk.old) (D.view disk.new) }
    ensures cause { HasOwnCause IsOfNumbers (result ≡ found.Unread) (D.view disk.old) (D.view disk.new) }
{
    match last_number(disk) {
        Ok(_) => Numbers::Sound,
        Err(ListFault::Disk) => Numbers::Unread,
        Err(ListFault::Damaged(_)) => Numbers::Damaged,
        Err(ListFault::Screen | ListFault::NoMem) => Numbers::Damaged,
    }
}

/// Of how many lanes the event log is asked for: of all if its path is given, else of none.
fn lanes_asked<D: Disk>(disk: &mut D, events: &str) -> Result<u32, DiskFault>
    ensures lanes { D.tells → IfOk result (λ n. n ≡ lanes_asked events.now (D.view disk.old).reads) }
    ensures reads { D.tells → OnlyReads (D.view disk.old) (D.view disk.new) }
    ensures cause { HasOwnCause IsOfNumbers (IsErr result) (D.view disk.old) (D.view disk.new) }
{
    if events.is_empty() {
        return Ok(0);
    }
    lanes_of(disk)
}

/// What a fault of the number files says of them. None if it is none of theirs.
pub(crate) fn numbers_at(fault: ListFault) -> Option<Numbers>
    ensures { result ≡ numbers_at fault }
{
    match fault {
        ListFault::Damaged(_) => Some(Numbers::Damaged),
        ListFault::Disk => Some(Numbers::Unread),
        ListFault::Screen | ListFault::NoMem => None,
    }
}

/// The line of the number files; none if they are sound.
pub(crate) fn line_of_numbers(form: Form, numbers: Numbers) -> &'static [u8]
    ensures { result.now ≡ line_of_numbers form numbers }
{
    match numbers {
        Numbers::Sound => b"",
        Numbers::Damaged => {
            if form.json {
                b"{\"numbers\":\"damaged\"}\n"
            } else {
                b"damaged     number files\n"
            }
        }
        Numbers::Unread => {
            if form.json {
                b"{\"numbers\":\"unread\"}\n"
            } else {
                b"unread      number files\n"
            }
        }
    }
}

/// How a run ends that would end so without the number files: a read that failed counts before damage.
pub(crate) fn with_numbers(numbers: Numbers, status: CheckStatus) -> CheckStatus
    ensures { result ≡ with_numbers numbers status }
{
    match numbers {
        Numbers::Sound => status,
        Numbers::Damaged => at_least_damaged(status),
        Numbers::Unread => CheckStatus::ReadFault,
    }
}

/// Damage in the place of a sound end.
pub(crate) fn at_least_damaged(status: CheckStatus) -> CheckStatus
    ensures { result ≡ at_least_damaged status }
{
    match status {
        CheckStatus::Sound => CheckStatus::Damaged,
        status => status,
    }
}

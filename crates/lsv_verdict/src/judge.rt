//! The verdict of one number.
ghost use Rattle.std.specs.Prelude.{◌≡◌, ◌↔◌, true, false, Some, None, IfOk, IsErr, IsOkAnd};
ghost use Rattle.lsv_bundle.specs.declared.fault.BundleFault.TheVariants as bundles;
ghost use Rattle.lsv_disk.specs.Throughout.{OnlyReads};
ghost use Rattle.lsv_disk.specs.View.{HasOwnCause};
ghost use Rattle.lsv_finding.specs.Checked.{IsFoundAs};
ghost use Rattle.lsv_finding.specs.declared.checked.Checked.TheVariants as kept;
ghost use Rattle.lsv_kept.specs.Kept.{IsMarked, IsOfRelay};
ghost use Rattle.lsv_iolog.specs.Recovered.{IsOfLog};
ghost use Rattle.lsv_verdict.specs.Verdicts.{HasDigest, HasFacts, IsJudged, IsLook, IsOwn, IsRead, IsUnread, IsUnreadLook, class_found, counts_of, unread};
ghost use Rattle.lsv_verdict.specs.declared.judge.Judged.TheVariants as looks;
ghost use Rattle.lsv_verdict.specs.declared.verdict.Class.TheVariants as classes;

use crate::digest::digest_of;
use crate::drawn::is_drawn;
use crate::verdict::{Class, Verdict, class_of};
use lsv_base::{LogNo, NoMem};
use lsv_bundle::BundleFault;
use lsv_check_args::Form;
use lsv_disk::{Disk, DiskFault};
use lsv_finding::{CheckFault, Checked, check_log};
use lsv_kept::is_marked;
use std::alloc::Global;

/// What a look at a number came to.
#[derive(Drop)]
pub(crate) enum Judged {
    /// This is said of it.
    Said(Verdict),
    /// There is no log, its lane didn't draw the number, and the whole store is checked.
    Passed,
    /// A file of the log ended early while its digest was made, as if somebody removes it.
    Again,
}

/// The verdict of a number. None if there is no log, its lane didn't draw the number, and the whole store is checked. A log
/// that is removed while its digest is made is looked at once more, without a digest.
pub(crate) fn judge<D: Disk>(
    alloc: Global,
    form: Form,
    whole: bool,
    disk: &mut D,
    number: LogNo,
) -> Result<Option<Verdict>, NoMem>
    ensures judged { D.tells → IfOk result (IsJudged form whole (D.view disk.old).reads (counts_of (D.view disk.old) (D.view disk.new)) number) }
    ensures reads { D.tells → OnlyReads (D.view disk.old) (D.view disk.new) }
    ensures cause { HasOwnCause (IsRead number) (IsOkAnd result IsUnread) (D.view disk.old) (D.view disk.new) }
{
    match look(alloc, form, whole, disk, number)? {
        Judged::Said(verdict) => Ok(Some(verdict)),
        Judged::Passed => Ok(None),
        Judged::Again => judge_plainly(alloc, form, whole, disk, number),
    }
}

/// The verdict of a number without a digest.
fn judge_plainly<D: Disk>(
    alloc: Global,
    form: Form,
    whole: bool,
    disk: &mut D,
    number: LogNo,
) -> Result<Option<Verdict>, NoMem>
    ensures reads { D.tells → OnlyReads (D.view disk.old) (D.view disk.new) }
    ensures cause { HasOwnCause (IsRead number) (IsOkAnd result IsUnread) (D.view disk.old) (D.view disk.new) }
{
    let form = Form {
        digest: false,
        ..form
    };
    match look(alloc, form, whole, disk, number)? {
        Judged::Said(verdict) => Ok(Some(verdict)),
        Judged::Passed => Ok(None),
        Judged::Again => unreachable!(),
    }
}

/// What a look at a number comes to.
fn look<D: Disk>(
    alloc: Global,
    form: Form,
    whole: bool,
    disk: &mut D,
    number: LogNo,
) -> Result<Judged, NoMem>
    ensures judged { D.tells → IfOk result (IsLook form whole (D.view disk.old).reads (counts_of (D.view disk.old) (D.view disk.new)) number) }
    ensures digest { IfOk result (λ j. j ≡ looks.Again → form.digest ≡ true) }
    ensures reads { D.tells → OnlyReads (D.view disk.old) (D.view disk.new) }
    ensures cause { HasOwnCause (IsRead number) (IsOkAnd result IsUnreadLook) (D.view disk.old) (D.view disk.new) }
{
    match check_log(alloc, disk, number) {
        Ok(found) => Ok(judge_found(form, whole, disk, number, found)),
        Err(CheckFault::Disk) => Ok(Judged::Said(unread(number))),
        Err(CheckFault::NoMem) => Err(NoMem),
    }
}

/// A read of the log's files failed.
fn unread(number: LogNo) -> Verdict
    ensures { result ≡ unread number }
{
    Verdict {
        number,
        found: None,
        relayed: false,
        digest: None,
    }
}

/// What is said of a number without a log.
fn judge_absent<D: Disk>(whole: bool, disk: &mut D, number: LogNo) -> Judged
    ensures judged { D.tells → IsFoundAs (D.view disk.old).reads number kept.Nowhere → (form : _) → IsLook form whole (D.view disk.old).reads (counts_of (D.view disk.old) (D.view disk.new)) number result }
    ensures digest { result ≡ looks.Again → ⊥ }
    ensures reads { D.tells → OnlyReads (D.view disk.old) (D.view disk.new) }
    ensures cause { HasOwnCause (IsRead number) (IsUnreadLook result) (D.view disk.old) (D.view disk.new) }
{
    if whole {
        match is_drawn(disk, number) {
            Ok(true) => {}
            Ok(false) => return Judged::Passed,
            Err(_) => return Judged::Said(unread(number)),
        }
    }
    Judged::Said(Verdict {
        number,
        found: Some(Checked::Nowhere),
        relayed: false,
        digest: None,
    })
}

/// What is said of a number of which this was found. Of a complete log it says whether it is relayed, and has the digest if
/// that is asked for.
fn judge_found<D: Disk>(
    form: Form,
    whole: bool,
    disk: &mut D,
    number: LogNo,
    found: Checked,
) -> Judged
    ensures judged { D.tells → IsFoundAs (D.view disk.old).reads number found → IsLook form whole (D.view disk.old).reads (counts_of (D.view disk.old) (D.view disk.new)) number result }
    ensures digest { result ≡ looks.Again → form.digest ≡ true }
    ensures reads { D.tells → OnlyReads (D.view disk.old) (D.view disk.new) }
    ensures cause { HasOwnCause (IsRead number) (IsUnreadLook result) (D.view disk.old) (D.view disk.new) }
{
    match class_of(&found) {
        Class::Absent => judge_absent(whole, disk, number),
        Class::Complete => judge_complete(form, disk, number, found),
        Class::Incomplete | Class::Damaged | Class::Unread => Judged::Said(Verdict {
            number,
            found: Some(found),
            relayed: false,
            digest: None,
        }),
    }
}

/// What is said of the number of a complete log.
fn judge_complete<D: Disk>(form: Form, disk: &mut D, number: LogNo, found: Checked) -> Judged
    requires class { class_found found ≡ classes.Complete }
    ensures judged { D.tells → IsFoundAs (D.view disk.old).reads number found → (whole : _) → IsLook form whole (D.view disk.old).reads (counts_of (D.view disk.old) (D.view disk.new)) number result }
    ensures digest { result ≡ looks.Again → form.digest ≡ true }
    ensures reads { D.tells → OnlyReads (D.view disk.old) (D.view disk.new) }
    ensures cause { HasOwnCause (IsRead number) (IsUnreadLook result) (D.view disk.old) (D.view disk.new) }
{
    match facts_of(form, disk, number, &found) {
        Ok(Some(facts)) => Judged::Said(Verdict {
            number,
            found: Some(found),
            relayed: facts.relayed,
            digest: facts.digest,
        }),
        Ok(None) => Judged::Again,
        Err(_) => Judged::Said(unread(number)),
    }
}

/// What is said of a complete log beside what was found of it.
#[derive(Clone, Copy)]
pub(crate) struct Facts {
    /// Whether it is marked as relayed.
    pub relayed: bool,
    /// Its digest, if that is asked for.
    pub digest: Option<[u8; 32]>,
}

/// Whether a complete log is marked as relayed, and its digest if that is asked for. None if a file of it ended early.
fn facts_of<D: Disk>(
    form: Form,
    disk: &mut D,
    number: LogNo,
    found: &Checked,
) -> Result<Option<Facts>, DiskFault>
    requires class { class_found found.now ≡ classes.Complete }
    ensures facts { D.tells → IsFoundAs (D.view disk.old).reads number found.now → IfOk result (HasFacts form (D.view disk.old).reads number) }
    ensures digest { IfOk result (λ o. o ≡ None → form.digest ≡ true) }
    ensures reads { D.tells → OnlyReads (D.view disk.old) (D.view disk.new) }
    ensures cause { HasOwnCause (IsOwn number) (IsErr result) (D.view disk.old) (D.view disk.new) }
{
    let relayed = is_relayed(disk, number)?;
    if !form.digest {
        return Ok(Some(Facts {
            relayed,
            digest: None,
        }));
    }
    match digest_found(disk, number, found)? {
        Some(digest) => Ok(Some(Facts {
            relayed,
            digest: Some(digest),
        })),
        None => Ok(None),
    }
}

/// Whether a log is marked as relayed. Damage of what is kept of its relaying isn't a mark.
fn is_relayed<D: Disk>(disk: &mut D, number: LogNo) -> Result<bool, DiskFault>
    ensures marked { D.tells → IfOk result (λ b. (b ≡ true) ↔ IsMarked number (D.view disk.old).reads) }
    ensures reads { D.tells → OnlyReads (D.view disk.old) (D.view disk.new) }
    ensures cause { HasOwnCause (IsOfRelay number) (IsErr result) (D.view disk.old) (D.view disk.new) }
{
    match is_marked(disk, number) {
        Ok(marked) => Ok(marked),
        Err(fault) => mark_at(fault),
    }
}

/// What a fault of what is kept of a log's relaying says of the mark: there is none, unless the device failed.
fn mark_at(fault: BundleFault) -> Result<bool, DiskFault>
    ensures none { IfOk result (λ b. (b ≡ false) × (fault ≡ bundles.Disk → ⊥)) }
    ensures failed { IsErr result → fault ≡ bundles.Disk }
{
    match fault {
        BundleFault::Disk => Err(DiskFault),
        BundleFault::Broken | BundleFault::Damaged(_) | BundleFault::Full(_) | BundleFault::NoMem =>
            Ok(false),
    }
}

/// The digest of a stored log. None if a file of it ended early.
fn digest_found<D: Disk>(
    disk: &mut D,
    number: LogNo,
    found: &Checked,
) -> Result<Option<[u8; 32]>, DiskFault>
    requires class { class_found found.now ≡ classes.Complete }
    ensures digest { D.tells → IsFoundAs (D.view disk.old).reads number found.now → IfOk result (HasDigest true (D.view disk.old).reads number classes.Complete) }
    ensures reads { D.tells → OnlyReads (D.view disk.old) (D.view disk.new) }
    ensures cause { HasOwnCause (IsOfLog number) (IsErr result) (D.view disk.old) (D.view disk.new) }
{
    match found {
        Checked::Sound { body, .. } => digest_of(disk, number, body),
        Checked::Nowhere | Checked::Unlisted(_) | Checked::Closed(_) | Checked::Broken { .. } => {
            unreachable!()
        }
    }
}

//! The walk over numbers, each judged and shown.
ghost use Rattle.std.specs.Prelude.{◌≡◌, ◌++◌, ◌∷◌, ◌<◌, ◌+◌, ℕ, List, [], Err, IfOk, IsOkAnd, OnErr, OnOk};
ghost use Rattle.lsv_base.specs.Outside.{HasCause};
ghost use Rattle.lsv_defs.specs.Pieces.{IsPrefix};
ghost use Rattle.lsv_disk.specs.Throughout.{OnlyReads};
ghost use Rattle.lsv_disk.specs.View.{HasOwnCause};
ghost use Rattle.lsv_verdict.specs.Verdicts.{IsChecked, IsRead, counts_of};
ghost use Rattle.lsv_verdict.specs.Walks.{HasUnread, IsFew, PutsOne, Walks, first_numbers, is_plain, is_shown, line_of, line_of_sums, shown_line, status_at};
ghost use Rattle.lsv_verdict.specs.declared.walk.Stop.TheVariants as stops;

use crate::judge::judge;
use crate::object::{json_of, json_of_sums};
use crate::sums::Sums;
use crate::text::{text_of, text_of_sums};
use crate::verdict::{COMPLETE, Verdict};
use crate::{CheckNotices, CheckStatus};
use lsv_base::{Bytes, LogNo, NoMem, Sink, SinkFault};
use lsv_check_args::Form;
use lsv_disk::Disk;
use lsv_finding::Checked;
use std::alloc::Global;

/// Why a walk ended before its last number.
#[derive(Clone, Copy, Debug, PartialEq, Eq)]
pub enum Stop {
    /// A write to the sink failed.
    Sink,
    /// Out of memory.
    NoMem,
}

impl From<SinkFault> for Stop {
    ghost use Rattle.std.specs.Prelude.{◌≡◌};
    ghost use Rattle.lsv_verdict.specs.declared.walk.Stop.TheVariants as stops;

    ghost from_gives = { λ _ given. given ≡ stops.Sink };

    fn from(_: SinkFault) -> Self {
        Stop::Sink
    }
}

impl From<NoMem> for Stop {
    ghost use Rattle.std.specs.Prelude.{◌≡◌};
    ghost use Rattle.lsv_verdict.specs.declared.walk.Stop.TheVariants as stops;

    ghost from_gives = { λ _ given. given ≡ stops.NoMem };

    fn from(_: NoMem) -> Self {
        Stop::NoMem
    }
}

impl Stop {
    /// How a run ends that stopped so.
    pub fn status(self) -> CheckStatus
        ensures { result ≡ status_at self }
    {
        match self {
            Stop::Sink => CheckStatus::WriteFault,
            Stop::NoMem => CheckStatus::NoMem,
        }
    }
}

/// Judges the first `count` numbers that are asked for, and shows each verdict at once. It holds one verdict at a time.
pub fn check_logs<D: Disk, K: Sink, N: CheckNotices>(
    alloc: Global,
    form: Form,
    ids: &[LogNo],
    count: u32,
    disk: &mut D,
    sink: &mut K,
    notices: &mut N,
) -> Result<Sums, Stop>
    requires few { IsFew ids.now count }
    ensures walks { D.tells → K.tells → (put : List ℕ) × (K.put sink.new ≡ K.put sink.old ++ put) × Walks form ids.now (D.view disk.old).reads (counts_of (D.view disk.old) (D.view disk.new)) count result put }
    ensures reads { D.tells → OnlyReads (D.view disk.old) (D.view disk.new) }
    ensures cause { HasOwnCause IsChecked (IsOkAnd result HasUnread) (D.view disk.old) (D.view disk.new) }
    ensures sink { HasCause (result ≡ Err stops.Sink) (K.faults sink.old) (K.faults sink.new) }
{
    let mut sums = Sums::new();
    for at in 0..count {
        let number = number_at(ids, at);
        notices.checking(number, count);
        let next = check_one(alloc, form, ids.is_empty(), disk, sink, number, sums)?;
        sums = next;
    }
    Ok(sums)
}

/// The number at this place of those that are asked for.
fn number_at(ids: &[LogNo], at: u32) -> LogNo
    requires few { IsFew ids.now (at + 1) }
    ensures { first_numbers ids.now (at + 1) ≡ first_numbers ids.now at ++ result ∷ [] }
{
    if !ids.is_empty() {
        return ids[at as usize];
    }
    match LogNo::new(at + 1) {
        Some(number) => number,
        None => unreachable!(),
    }
}

/// Judges a number, and shows the verdict.
fn check_one<D: Disk, K: Sink>(
    alloc: Global,
    form: Form,
    whole: bool,
    disk: &mut D,
    sink: &mut K,
    number: LogNo,
    sums: Sums,
) -> Result<Sums, Stop>
    ensures puts { D.tells → K.tells → (put : List ℕ) × (K.put sink.new ≡ K.put sink.old ++ put) × PutsOne form whole (D.view disk.old).reads (counts_of (D.view disk.old) (D.view disk.new)) number sums result put }
    ensures reads { D.tells → OnlyReads (D.view disk.old) (D.view disk.new) }
    ensures cause { HasOwnCause (IsRead number) (IsOkAnd result (λ after. sums.unread < after.unread)) (D.view disk.old) (D.view disk.new) }
    ensures sink { HasCause (result ≡ Err stops.Sink) (K.faults sink.old) (K.faults sink.new) }
{
    let Some(verdict) = judge(alloc, form, whole, disk, number)? else {
        return Ok(sums);
    };
    let class = verdict.class();
    show(alloc, form, sink, verdict)?;
    Ok(sums.with(class))
}

/// Shows a verdict, if those of its kind are shown.
fn show<K: Sink>(alloc: Global, form: Form, sink: &mut K, verdict: Verdict) -> Result<(), Stop>
    ensures put { K.tells → OnOk result (K.put sink.new ≡ K.put sink.old ++ shown_line form verdict) }
    ensures some { K.tells → OnErr result ((front : List ℕ) × IsPrefix front (shown_line form verdict) × (K.put sink.new ≡ K.put sink.old ++ front)) }
    ensures sink { HasCause (result ≡ Err stops.Sink) (K.faults sink.old) (K.faults sink.new) }
{
    if !is_shown(form, &verdict) {
        return Ok(());
    }
    let line = line_of(alloc, form, verdict)?;
    Ok(sink.write(line.as_slice())?)
}

/// Whether a verdict is shown: each, or those alone that need a look.
fn is_shown(form: Form, verdict: &Verdict) -> bool
    ensures { result ≡ is_shown form verdict.now }
{
    !(form.quiet && is_plain(verdict))
}

/// Whether a verdict needs no look: a number without a log, and a complete log whose exit reads.
fn is_plain(verdict: &Verdict) -> bool
    ensures { result ≡ is_plain verdict.now.found }
{
    match &verdict.found {
        Some(Checked::Nowhere) => true,
        Some(Checked::Sound { body, exit, .. }) => body.kind == COMPLETE && exit.is_some(),
        Some(Checked::Unlisted(_) | Checked::Closed(_) | Checked::Broken { .. }) => false,
        None => false,
    }
}

/// The line of a verdict.
fn line_of(alloc: Global, form: Form, verdict: Verdict) -> Result<Bytes, NoMem>
    ensures { IfOk result (λ line. line ≡ line_of form verdict) }
{
    if form.json {
        json_of(alloc, &verdict)
    } else {
        text_of(alloc, verdict)
    }
}

/// The line of the sums.
pub fn line_of_sums(alloc: Global, form: Form, sums: Sums) -> Result<Bytes, NoMem>
    ensures { IfOk result (λ line. line ≡ line_of_sums form sums) }
{
    if form.json {
        json_of_sums(alloc, sums)
    } else {
        text_of_sums(alloc, sums)
    }
}

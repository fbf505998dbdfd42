ghost use Rattle.std.specs.Prelude.{◌≡◌, ◌<◌, ◌^◌, ◌+◌, ℕ, ◌==◌, if◌then◌else◌, Some, None, OnOk, IfSome, MatchOption, length};
ghost use Rattle.lsv_machine.specs.Machine.{LogState.Absent, LogState.There};
ghost use Rattle.lsv_machine.specs.Turns.{raised};
ghost use Rattle.lsv_machine.specs.Work.{cut_to, with_exit, with_record};
ghost use Rattle.lsvt_model.specs.Inner.{log_place};
ghost use Rattle.lsvt_model.specs.Views.{logs_in, owner_in, there};
ghost use Rattle.lsv_record.specs.Points.{Stored, first};
ghost use Rattle.lsv_record.specs.Records.{delay_of, elapsed};

use crate::Records;
use crate::points::raised;
use lsv_base::{Bytes, LogNo, NoMem};
use lsv_record::Record;
use lsv_session::ConnId;

/// A log: the texts of its head and exit, its records, how many cuts dropped a record, how many records are promised, and
/// which connection writes it.
#[derive(Debug, Drop)]
pub struct Log {
    pub number: LogNo,
    pub head: Bytes,
    pub records: Records,
    pub exit: Option<Bytes>,
    pub cuts: u64,
    pub promised: usize,
    pub owner: Option<ConnId>,
}

/// The place of the log with this number.
pub fn place_of(logs: &[Log], number: LogNo) -> Option<usize>
    ensures place { result ≡ log_place logs.now number }
    ensures within { IfSome result (λ place. place < length logs.now) }
{
    for (place, log) in logs.iter().enumerate() {
        if number == log.number {
            return Some(place);
        }
    }
    None
}

/// The log with this number.
pub fn find_log(logs: &[Log], number: LogNo) -> Option<&Log>
    ensures log { MatchOption result (logs_in logs.now number ≡ Absent) (λ log. logs_in logs.now number ≡ there log.now) }
    ensures owner { MatchOption result (owner_in logs.now number ≡ None) (λ log. owner_in logs.now number ≡ log.now.owner) }
{
    for log in logs {
        if number == log.number {
            return Some(log);
        }
    }
    None
}

/// The connection that writes a log.
pub fn owner_of(logs: &[Log], number: LogNo) -> Option<ConnId>
    ensures { result ≡ owner_in logs.now number }
{
    for log in logs {
        if number == log.number {
            return log.owner;
        }
    }
    None
}

/// Puts a log in the place of that with its number, or at the end.
pub fn put_log(logs: &mut Vec<Log>, log: Log) -> Result<(), NoMem>
    ensures logs { OnOk result (logs_in logs.new.items ≡ (λ i. if i == log.number then there log else logs_in logs.old.items i)) }
    ensures owners { OnOk result (owner_in logs.new.items ≡ (λ i. if i == log.number then log.owner else owner_in logs.old.items i)) }
{
    match place_of(logs, log.number) {
        Some(place) => logs[place] = log,
        None => logs.push(log)?,
    }
    Ok(())
}

/// Nobody writes the log with this number.
pub fn free(logs: &mut Vec<Log>, number: LogNo)
    ensures logs { logs_in logs.new.items ≡ logs_in logs.old.items }
    ensures owners { owner_in logs.new.items ≡ (λ i. if i == number then None else owner_in logs.old.items i) }
{
    if let Some(place) = place_of(logs, number) {
        logs[place].owner = None;
    }
}

/// The log with this number is cut to its first records, which are those through the first that ends at a point; these are
/// promised, and a connection writes it. cuts: how many cuts dropped a record, with this one.
pub fn resume_log(
    logs: &mut Vec<Log>,
    number: LogNo,
    kept: usize,
    point: u64,
    cuts: u64,
    conn: ConnId,
)
    requires first { (stored : Stored) (promised : ℕ) → logs_in logs.old.items number ≡ There stored promised → first stored.records point ≡ Some kept }
    requires cuts { (stored : Stored) (promised : ℕ) → logs_in logs.old.items number ≡ There stored promised → cuts ≡ (cut_to kept stored).cuts }
    ensures logs { (stored : Stored) (promised : ℕ) → logs_in logs.old.items number ≡ There stored promised →
        logs_in logs.new.items ≡ (λ i. if i == number then There (cut_to kept stored) kept else logs_in logs.old.items i) }
    ensures owners { (stored : Stored) (promised : ℕ) → logs_in logs.old.items number ≡ There stored promised →
        owner_in logs.new.items ≡ (λ i. if i == number then Some conn else owner_in logs.old.items i) }
{
    if let Some(place) = place_of(logs, number) {
        let log = &mut logs[place];
        log.records.cut(kept, point);
        log.cuts = cuts;
        log.promised = kept;
        log.owner = Some(conn);
    }
}

/// The log with this number has one more record, which ends at a point.
pub fn add_record(logs: &mut Vec<Log>, number: LogNo, r: Record, end: u64) -> Result<(), NoMem>
    requires end { (stored : Stored) (promised : ℕ) → logs_in logs.old.items number ≡ There stored promised → end ≡ elapsed stored.records + delay_of r }
    requires small { end < 2 ^ 63 }
    ensures logs { (stored : Stored) (promised : ℕ) → logs_in logs.old.items number ≡ There stored promised →
        OnOk result (logs_in logs.new.items ≡ (λ i. if i == number then There (with_record r stored) promised else logs_in logs.old.items i)) }
    ensures owners { OnOk result (owner_in logs.new.items ≡ owner_in logs.old.items) }
{
    let Some(place) = place_of(logs, number) else {
        return Ok(());
    };
    let log = &mut logs[place];
    log.records.add(r, end)?;
    Ok(())
}

/// The exit of the log with this number is set. Where it is told, all records are promised.
pub fn finish_log(logs: &mut Vec<Log>, number: LogNo, exit: Bytes, is_told: bool)
    ensures logs { (stored : Stored) (promised : ℕ) → logs_in logs.old.items number ≡ There stored promised →
        logs_in logs.new.items ≡ (λ i. if i == number then There (with_exit exit stored) (if is_told then length stored.records else promised) else logs_in logs.old.items i) }
    ensures owners { owner_in logs.new.items ≡ owner_in logs.old.items }
{
    if let Some(place) = place_of(logs, number) {
        let log = &mut logs[place];
        log.exit = Some(exit);
        log.promised = promised_then(log, is_told);
    }
}

/// How many records of a log are promised: all, where its exit is told.
fn promised_then(log: &Log, is_told: bool) -> usize
    ensures { result ≡ (if is_told then length log.now.records else log.now.promised) }
{
    if is_told {
        log.records.as_slice().len()
    } else {
        log.promised
    }
}

/// The log with this number is promised up to its commit point.
pub fn promise_log(logs: &mut Vec<Log>, number: LogNo)
    ensures logs { (stored : Stored) (promised : ℕ) → logs_in logs.old.items number ≡ There stored promised →
        logs_in logs.new.items ≡ (λ i. if i == number then There stored (raised promised stored.records (elapsed stored.records)) else logs_in logs.old.items i) }
    ensures owners { owner_in logs.new.items ≡ owner_in logs.old.items }
{
    if let Some(place) = place_of(logs, number) {
        let log = &mut logs[place];
        let end = log.records.elapsed();
        log.promised = raised(log.promised, log.records.as_slice(), end);
    }
}

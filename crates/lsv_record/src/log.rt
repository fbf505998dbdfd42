ghost use Rattle.std.specs.Prelude.{◌≡◌, ◌≢◌, ◌+◌, ◌<◌, ◌≤◌, length, take, drop, IfOk, IfErr, MatchOption};
ghost use Rattle.std.specs.Bool.{OnTrue, OnFalse};
ghost use Rattle.lsv_record.specs.Inner.Reader.{IsBehind, IsTaken};
ghost use Rattle.lsv_record.specs.Layout.{IsRead, IsRefused, Fails};
ghost use Rattle.lsv_record.specs.Records.{IsGood};
ghost use Rattle.lsv_record.specs.declared.log.LayFault.TheVariants as faults;

use crate::read::TIME_LIMIT;
use crate::{Laid, LineFault, Record, Shaped, Stream, read_line};
use lsv_base::{Bytes, List, NoMem};
use std::alloc::Global;
use thiserror::Error;

/// Why a layout couldn't be read.
#[derive(Clone, Copy, Debug, PartialEq, Eq, Error)]
pub enum LayFault {
    /// No line of timing stands at this offset.
    #[error("no line of timing stands at offset {0}")]
    BadLine(usize),
    /// The stream has fewer bytes than the lines of timing tell.
    #[error("{0:?} has fewer bytes than the timing tells")]
    Short(Stream),
    /// The elapsed time reaches 2^63 nanoseconds.
    #[error("the elapsed time reaches 2^63 nanoseconds")]
    TooLong,
    /// Out of memory.
    #[error("out of memory")]
    NoMem,
}

impl From<NoMem> for LayFault {
    ghost use Rattle.lsv_record.specs.declared.log.LayFault.{LayFault};

    ghost from_gives = { λ _ fault. fault ≡ LayFault.NoMem };

    fn from(_: NoMem) -> Self {
        LayFault::NoMem
    }
}

/// A layout that is being read.
#[derive(Debug, Drop)]
struct Reader {
    records: List<Record>,
    /// The offset of the next line of timing.
    at: usize,
    /// Nanoseconds from the start of the log.
    elapsed: u64,
    /// How many bytes of each stream were taken, by the stream's event.
    taken: [usize; 5],
}

impl Reader {
    /// Reads the next record, or returns false at the end of the timing.
    fn next(&mut self, alloc: Global, l: &Laid) -> Result<bool, LayFault>
        requires { IsBehind l.now self.old }
        ensures more { IfOk result (λ more. OnTrue more (IsBehind l.now self.new)) }
        ensures forward { IfOk result (λ more. OnTrue more (self.old.at < self.new.at)) }
        ensures end { IfOk result (λ more. OnFalse more (IsRead l.now self.new.records)) }
        ensures fault { IfErr result (λ fault. fault ≢ faults.NoMem → Fails l.now fault) }
    {
        let (told, next) = match read_line(alloc, l.timing.as_slice(), self.at) {
            Ok(Some(line)) => line,
            Ok(None) => return Ok(false),
            Err(LineFault::BadLine(offset)) => return Err(LayFault::BadLine(offset)),
            Err(LineFault::NoMem) => return Err(LayFault::NoMem),
        };
        let record = self.take(alloc, l, told)?;
        self.at = next;
        let Ok(()) = self.records.push(record) else {
            return Err(LayFault::NoMem);
        };
        Ok(true)
    }

    /// Takes the record that the next line tells, with its data.
    fn take(&mut self, alloc: Global, l: &Laid, told: Shaped) -> Result<Record, LayFault>
        requires behind { IsBehind l.now self.old }
        requires good { IsGood told }
        ensures ok { IfOk result (λ r. IsTaken l.now told self.old self.new r) }
        ensures fault { IfErr result (λ fault. fault ≢ faults.NoMem → IsRefused l.now self.old.records told fault) }
    {
        let elapsed = self.elapsed + told.delay();
        if elapsed >= TIME_LIMIT {
            return Err(LayFault::TooLong);
        }
        self.elapsed = elapsed;
        match told {
            Shaped::Io(delay, stream, count) => {
                let event = stream.event() as usize;
                let from = self.taken[event];
                let count = count as usize;
                let Some(bytes) = data_at(alloc, l.stream(stream).as_slice(), from, count)? else {
                    return Err(LayFault::Short(stream));
                };
                self.taken[event] = from + count;
                Ok(Record::Io {
                    delay,
                    stream,
                    bytes,
                })
            }
            Shaped::Winsize(delay, rows, cols) => Ok(Record::Winsize { delay, rows, cols }),
            Shaped::Suspend(delay, signal) => Ok(Record::Suspend { delay, signal }),
        }
    }
}

/// A copy of this many bytes from an offset on. None where there are fewer.
fn data_at(alloc: Global, stream: &[u8], from: usize, count: usize) -> Result<Option<Bytes>, NoMem>
    requires { from ≤ length stream.now }
    ensures { IfOk result (λ found. MatchOption found (length stream.now < from + count)
        (λ bytes. (length bytes ≡ count) × (bytes ≡ take count (drop from stream.now)))) }
{
    let (_, rest) = stream.split_at(from);
    if rest.len() < count {
        return Ok(None);
    }
    let (bytes, _) = rest.split_at(count);
    Ok(Some(Bytes::of(alloc, bytes)?))
}

/// The records of a layout. At each line, from front to back, the line is bad, or else the elapsed time reaches 2^63
/// nanoseconds with it, or else the stream lacks its data: the first such fault is answered. Data left over at the
/// end of a stream are no fault. Each record's data are copied once.
pub fn read_log(alloc: Global, l: &Laid) -> Result<List<Record>, LayFault>
    ensures read { IfOk result (λ records. IsRead l.now records) }
    ensures fault { IfErr result (λ fault. fault ≢ faults.NoMem → Fails l.now fault) }
{
    let mut reader = Reader {
        records: List::new(alloc),
        at: 0,
        elapsed: 0,
        taken: [0; 5],
    };
    while reader.next(alloc, l)? {}
    Ok(reader.records)
}

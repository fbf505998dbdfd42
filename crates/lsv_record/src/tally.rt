ghost use Rattle.std.specs.Prelude.{◌≡◌, ◌≢◌, ◌+◌, ◌*◌, ◌^◌, ◌<◌, ◌≤◌, ℕ, List, [], length, get_or, IfOk, IfErr, IfSome, IfNone, OnOk, OnErr, IsTrue, IsErrOf};
ghost use Rattle.lsv_record.specs.Lines.{IsLineAt, IsBadAt, IsWindow, told_delay};
ghost use Rattle.lsv_record.specs.Records.{IsGood, event_of, shaped_line};
ghost use Rattle.lsv_record.specs.Tally.{PassesTime, totals_of, with_line};
ghost use Rattle.lsv_record.specs.declared.records.Shaped.{Shaped};
ghost use Rattle.lsv_record.specs.declared.tally.TimingFault.TheVariants as faults;

use crate::read::TIME_LIMIT;
use crate::write::LONGEST_LINE;
use crate::{LineFault, Shaped, Stream, read_line};
use lsv_base::NoMem;
use std::alloc::Global;
use std::marker::Model;
use thiserror::Error;

/// Why the next line of timing couldn't be read.
#[derive(Clone, Copy, Debug, PartialEq, Eq, Error)]
pub enum TimingFault {
    /// No line of timing stands there.
    #[error("no line of timing stands there")]
    BadLine,
    /// The elapsed time reaches 2^63 nanoseconds with it.
    #[error("the elapsed time reaches 2^63 nanoseconds")]
    TooLong,
    /// Out of memory.
    #[error("out of memory")]
    NoMem,
}

/// A text of timing that is read line by line, without the data that its lines tell of. It keeps what the lines
/// so far come to, and none of them. Contracts see these totals.
#[derive(Clone, Copy, Debug)]
pub struct Tally {
    timing: u64,
    count: u64,
    elapsed: u64,
    data_bytes: [u64; 5],
}

impl Model for Tally {
    ghost use Rattle.lsv_record.specs.Tally.{Totals, IsBounded};

    ghost Value = { Totals };

    ghost view = { λ t. record { timing = t.timing; count = t.count; elapsed = t.elapsed; data_bytes = t.data_bytes } };

    ghost invariant = { λ t. IsBounded (record { timing = t.timing; count = t.count; elapsed = t.elapsed; data_bytes = t.data_bytes }) };

    ghost inverse = { λ t. record { timing = t.timing; count = t.count; elapsed = t.elapsed; data_bytes = t.data_bytes } };
}

impl Tally {
    /// No line is read.
    pub fn new() -> Self
        ensures { result ≡ totals_of [] }
    {
        Tally {
            timing: 0,
            count: 0,
            elapsed: 0,
            data_bytes: [0; 5],
        }
    }

    /// The offset of the next line, in bytes.
    pub fn timing(&self) -> u64
        ensures { result ≡ self.now.timing }
    {
        self.timing
    }

    /// How many lines were read.
    pub fn count(&self) -> u64
        ensures value { result ≡ self.now.count }
        ensures few { result ≤ self.now.timing }
    {
        self.count
    }

    /// The nanoseconds from the start of the log to the last line that was read.
    pub fn elapsed(&self) -> u64
        ensures value { result ≡ self.now.elapsed }
        ensures small { result < 2 ^ 63 }
    {
        self.elapsed
    }

    /// How many bytes of a stream the lines so far tell.
    pub fn data_bytes(&self, stream: Stream) -> u64
        ensures { result ≡ get_or self.now.data_bytes (event_of stream) 0 }
    {
        self.data_bytes[stream.event() as usize]
    }

    /// Reads the next line, which begins where this window of the text does. None where no line stands there yet:
    /// at the end of the text, in its last window, or in one of fewer than 56 bytes that isn't the last, and which has
    /// to be longer. Where there is none, and at an error, nothing is read. No text is longer than 2^40 bytes.
    pub fn step(
        &mut self,
        alloc: Global,
        window: &[u8],
        is_last: bool,
    ) -> Result<Option<Shaped>, TimingFault>
        requires { self.old.timing ≤ 2 ^ 40 }
        ensures line { IfOk result (λ line. IfSome line (λ told. (text : List ℕ) → IsWindow text self.old.timing window.now is_last → IsLineAt text self.old.timing told self.new.timing)) }
        ensures taken { IfOk result (λ line. IfSome line (λ told. IsGood told × (self.new ≡ with_line self.old told))) }
        ensures within { IfOk result (λ _. self.new.timing ≤ self.old.timing + length window.now) }
        ensures end { IfOk result (λ line. IfNone line (IsTrue is_last → window.now ≡ [])) }
        ensures short { IfOk result (λ line. IfNone line (length window.now < 56)) }
        ensures none { IfOk result (λ line. IfNone line ((told : Shaped) (next : ℕ) → IsLineAt window.now 0 told next → ⊥)) }
        ensures stays { IfOk result (λ line. IfNone line (self.new ≡ self.old)) }
        ensures bad { IsErrOf result faults.BadLine → (text : List ℕ) → IsWindow text self.old.timing window.now is_last → IsBadAt text self.old.timing }
        ensures too_long { IsErrOf result faults.TooLong → (text : List ℕ) → IsWindow text self.old.timing window.now is_last → PassesTime text self.old }
        ensures err { OnErr result (self.new ≡ self.old) }
    {
        let is_cut = !is_last && window.len() < LONGEST_LINE;
        let (told, len) = match read_line(alloc, window, 0) {
            Ok(Some(line)) => line,
            Ok(None) => return Ok(None),
            Err(LineFault::BadLine(_)) if is_cut => return Ok(None),
            Err(LineFault::BadLine(_)) => return Err(TimingFault::BadLine),
            Err(LineFault::NoMem) => return Err(TimingFault::NoMem),
        };
        self.take(&told, len as u64)?;
        Ok(Some(told))
    }

    /// Takes a line of this many bytes into the totals.
    fn take(&mut self, told: &Shaped, len: u64) -> Result<(), TimingFault>
        requires good { IsGood told.now }
        requires len { len ≡ length (shaped_line told.now) }
        requires room { self.old.timing ≤ 2 ^ 40 }
        ensures ok { OnOk result (self.new ≡ with_line self.old told.now) }
        ensures cause { IfErr result (λ fault. (fault ≡ faults.TooLong) × (2 ^ 63 ≤ self.old.elapsed + told_delay told.now)) }
        ensures err { OnErr result (self.new ≡ self.old) }
    {
        let elapsed = self.elapsed + told.delay();
        if elapsed >= TIME_LIMIT {
            return Err(TimingFault::TooLong);
        }
        self.elapsed = elapsed;
        self.timing += len;
        self.count += 1;
        if let Shaped::Io(_, stream, count) = told {
            self.data_bytes[stream.event() as usize] += u64::from(*count);
        }
        Ok(())
    }
}

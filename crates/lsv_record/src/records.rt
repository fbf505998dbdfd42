ghost use Rattle.std.specs.Prelude.{◌≡◌, ◌↔◌, IsTrue};
ghost use Rattle.lsv_record.specs.Lines.{told_delay};
ghost use Rattle.lsv_record.specs.Records.{IsSignal, delay_of, event_of};

use lsv_base::Bytes;

/// The streams of a session.
#[derive(Clone, Copy, Debug, PartialEq, Eq)]
pub enum Stream {
    Stdin,
    Stdout,
    Stderr,
    Ttyin,
    Ttyout,
}

impl Stream {
    /// The number of its event in a line of timing (sudoers I/O log format).
    pub fn event(self) -> u8
        ensures { result ≡ event_of self }
    {
        match self {
            Stream::Stdin => 0,
            Stream::Stdout => 1,
            Stream::Stderr => 2,
            Stream::Ttyin => 3,
            Stream::Ttyout => 4,
        }
    }
}

/// A record of a session. Its delay is the nanoseconds since the record before. It is valid where the delay is
/// below 2^63, its data are at most 2,097,152 bytes, its rows and columns are below 2^31, and its signal is a
/// signal's name, as `is_signal` says.
#[derive(Debug, Drop)]
pub enum Record {
    /// Data of a stream.
    Io {
        delay: u64,
        stream: Stream,
        bytes: Bytes,
    },
    /// The terminal's window has a new size.
    Winsize {
        delay: u64,
        rows: u32,
        cols: u32,
    },
    /// The command was suspended or resumed by a signal, which is named without `SIG`.
    Suspend {
        delay: u64,
        signal: Bytes,
    },
}

impl Record {
    /// The nanoseconds since the record before.
    pub fn delay(&self) -> u64
        ensures { result ≡ delay_of self.now }
    {
        match self {
            Record::Io { delay, .. }
            | Record::Winsize { delay, .. }
            | Record::Suspend { delay, .. } => *delay,
        }
    }
}

/// What a line of timing tells of a record: all but the data of a stream, of which it has the number of bytes.
#[derive(Debug, Drop)]
pub enum Shaped {
    /// The delay in nanoseconds, the stream, and the number of bytes.
    Io(u64, Stream, u32),
    /// The delay in nanoseconds, the rows and the columns.
    Winsize(u64, u32, u32),
    /// The delay in nanoseconds, and the signal's name.
    Suspend(u64, Bytes),
}

impl Shaped {
    /// The nanoseconds since the line before.
    pub fn delay(&self) -> u64
        ensures { result ≡ told_delay self.now }
    {
        match self {
            Shaped::Io(delay, ..) | Shaped::Winsize(delay, ..) | Shaped::Suspend(delay, ..) => {
                *delay
            }
        }
    }
}

/// Whether a text is a signal's name: 1 to 32 visible bytes of ASCII.
pub fn is_signal(text: &[u8]) -> bool
    ensures { IsTrue result ↔ IsSignal text.now }
{
    1 <= text.len() && text.len() <= 32 && text.iter().all(|byte| 0x21 <= *byte && *byte <= 0x7e)
}

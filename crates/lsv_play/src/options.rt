ghost use Rattle.std.specs.Prelude.{◌≤◌};

use lsv_record::Stream;

/// How a log is played.
#[derive(Clone, Copy, Debug, PartialEq, Eq)]
pub struct Options {
    /// Whether the bytes of each stream are shown, in the order of their events: standard input, output and error, and
    /// the terminal's input and output.
    pub streams: [bool; 5],
    /// The longest wait in nanoseconds, if there is one.
    pub longest: Option<u64>,
    /// The speed in billionths: 1,000,000,000 is as it was.
    pub speed: u64,
    /// Whether the time is waited during which the command was suspended.
    pub suspended: bool,
    pub ghost runs: { 1 ≤ speed },
}

impl Options {
    ghost use Rattle.std.specs.Prelude.{◌≡◌};
    ghost use Rattle.lsv_play.specs.Schedule.{is_selected};

    /// Whether the bytes of this stream are shown.
    pub fn is_selected(&self, stream: Stream) -> bool
        ensures { result ≡ is_selected self.now stream }
    {
        let [stdin, stdout, stderr, ttyin, ttyout] = self.streams;
        match stream {
            Stream::Stdin => stdin,
            Stream::Stdout => stdout,
            Stream::Stderr => stderr,
            Stream::Ttyin => ttyin,
            Stream::Ttyout => ttyout,
        }
    }
}

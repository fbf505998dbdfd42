//! A link and a sink that say how far a log was sent.
ghost use Rattle.std.specs.Prelude.{length};

use crate::progress::Progress;
use lsv_base::{Sink, SinkFault};
use lsv_link::{Link, LinkFault};
use lsv_port::{Gave, Took};
use std::str;

/// The bytes before a frame's message, which are its length.
const HEADER: u32 = 4;

/// The messages that open a connection: a hello, and an accept, a reject or a restart.
const OPENING: u64 = 2;

/// Counts the frames in bytes that come piece by piece.
#[derive(Drop)]
struct Frames {
    /// How many frames have begun and ended.
    whole: u64,
    /// How many bytes of the length are known, and what they say.
    known: u32,
    length: u32,
    /// How many bytes of the message were seen.
    seen: u32,
}

impl Frames {
    fn new() -> Self {
        Frames {
            whole: 0,
            known: 0,
            length: 0,
            seen: 0,
        }
    }

    /// Takes further bytes.
    fn take(&mut self, bytes: &[u8]) {
        for byte in bytes {
            if self.known < HEADER {
                self.length = (self.length << 8) | u32::from(*byte);
                self.known += 1;
            } else {
                self.seen = self.seen.saturating_add(1);
            }
            if self.known == HEADER && self.seen == self.length {
                self.whole = self.whole.saturating_add(1);
                self.known = 0;
                self.length = 0;
                self.seen = 0;
            }
        }
    }
}

/// A link that counts the messages that are written.
#[derive(Drop)]
pub struct WatchedLink<'p, L> {
    link: L,
    frames: Frames,
    progress: &'p Progress,
}

impl<'p, L: Link> WatchedLink<'p, L> {
    pub fn new(link: L, progress: &'p Progress) -> Self {
        WatchedLink {
            link,
            frames: Frames::new(),
            progress,
        }
    }
}

impl<'p, L: Link> Link for WatchedLink<'p, L> {
    ghost tells = { L.tells };

    ghost state = { λ w. L.state w.link };

    ghost counts = { λ w. L.counts w.link };

    fn connect(&mut self, host: &str) -> Result<(), LinkFault> {
        self.frames = Frames::new();
        self.link.connect(host)
    }

    fn read(&mut self, buf: &mut [u8], wait: bool) -> Took {
        self.link.read(buf, wait)
    }

    fn write(&mut self, bytes: &[u8]) -> Gave {
        let gave = self.link.write(bytes);
        if self.progress.is_shown()
            && let Gave::Bytes(count) = gave
        {
            self.frames.take(&bytes[..count]);
            self.progress
                .sent(self.frames.whole.saturating_sub(OPENING));
        }
        gave
    }

    fn renew(&mut self) {
        self.link.renew();
    }

    fn close(&mut self) {
        self.link.close();
    }
}

/// A sink that sees which commit points are printed.
#[derive(Drop)]
pub struct WatchedSink<'p, K> {
    sink: K,
    progress: &'p Progress,
}

impl<'p, K: Sink> WatchedSink<'p, K> {
    pub fn new(sink: K, progress: &'p Progress) -> Self {
        WatchedSink { sink, progress }
    }
}

/// The milliseconds in the line of a commit point, which has nine digits after its point.
fn millis_in(line: &[u8]) -> Option<u64> {
    let line = str::from_utf8(line).ok()?;
    let (seconds, rest) = line.strip_prefix("commit ")?.split_once('.')?;
    let seconds = seconds.parse::<u64>().ok()?;
    let millis = rest.get(..3)?.parse::<u64>().ok()?;
    Some(seconds.saturating_mul(1000).saturating_add(millis))
}

impl<'p, K: Sink> Sink for WatchedSink<'p, K> {
    ghost tells = { K.tells };

    ghost put = { λ w. K.put w.sink };

    ghost faults = { λ w. K.faults w.sink };

    fn write(&mut self, bytes: &[u8]) -> Result<(), SinkFault> {
        self.progress.clear();
        let wrote = self.sink.write(bytes);
        if let Some(millis) = millis_in(bytes) {
            self.progress.committed(millis);
        }
        self.progress.draw();
        wrote
    }
}

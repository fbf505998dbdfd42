//! A sink that stands aside of the line of the progress, and the notices that draw it.

use crate::progress::Progress;
use lsv_base::{LogNo, Sink, SinkFault};
use lsv_check::CheckNotices;

/// A sink before which the line is taken away.
#[derive(Drop)]
pub struct WatchedSink<'p, K> {
    sink: K,
    progress: &'p Progress,
}

impl<'p, K: Sink> WatchedSink<'p, K> {
    pub fn new(sink: K, progress: &'p Progress) -> Self {
        WatchedSink { sink, progress }
    }
}

impl<'p, K: Sink> Sink for WatchedSink<'p, K> {
    ghost tells = { K.tells };

    ghost put = { λ w. K.put w.sink };

    ghost faults = { λ w. K.faults w.sink };

    fn write(&mut self, bytes: &[u8]) -> Result<(), SinkFault> {
        self.progress.clear();
        self.sink.write(bytes)
    }
}

/// Draws the line as logs are checked.
#[derive(Drop)]
pub struct WatchedLogs<'p> {
    progress: &'p Progress,
}

impl<'p> WatchedLogs<'p> {
    pub fn new(progress: &'p Progress) -> Self {
        WatchedLogs { progress }
    }
}

impl<'p> CheckNotices for WatchedLogs<'p> {
    fn checking(&mut self, number: LogNo, last: u32) {
        self.progress.begin(number, last);
    }
}

use crate::Outcome;
use lsv_base::LogNo;

/// What is shown to whoever runs a relay. Nothing is promised of it.
pub trait RelayNotices {
    /// A connection is made for this log. The greatest number of the store's logs.
    fn relaying(&mut self, number: LogNo, last: u32);

    /// This became of the log of a number.
    fn relayed(&mut self, number: LogNo, outcome: &Outcome);
}

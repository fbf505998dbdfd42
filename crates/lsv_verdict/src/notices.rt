use lsv_base::LogNo;

/// What is shown to whoever runs a check. Nothing is promised of it.
pub trait CheckNotices {
    /// This log is checked next. The greatest number that is checked.
    fn checking(&mut self, number: LogNo, last: u32);
}

use crate::pattern::Pattern;
use lsv_base::Bytes;

/// A test of a log's head, with its argument.
#[derive(Drop)]
pub enum Test {
    /// The command and its arguments have a match of this pattern.
    Command(Pattern),
    Cwd(Bytes),
    /// In seconds from the start of 1970.
    FromDate(u64),
    Group(Bytes),
    Host(Bytes),
    Runas(Bytes),
    /// In seconds from the start of 1970.
    ToDate(u64),
    Tty(Bytes),
    User(Bytes),
}

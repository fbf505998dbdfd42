/// Where a server takes connections, and where its store lies.
#[derive(Clone, Copy, Debug)]
pub struct Site<'a> {
    /// A host and a port number, as `*:30343`.
    pub address: &'a str,
    /// After this many connections the server ends.
    pub stop_after: Option<u32>,
    /// The folder of the logs.
    pub logs: &'a str,
    /// The path of the event log.
    pub events: &'a str,
}

/// What whoever runs a server is told at its start. Nothing is promised of it.
pub trait Notices {
    /// The store is open, and each port listens. The last log number that was drawn, 0 where none was.
    fn serving(&mut self, site: &Site<'_>, last: u32);
}

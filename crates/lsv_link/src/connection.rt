use lsv_base::{Bytes, List};

/// One read of a connection that didn't fail.
#[derive(Clone, Copy, Debug, PartialEq, Eq)]
pub struct Look {
    /// How many bytes had been written on the connection before it.
    pub put: usize,
    /// How many bytes it gave. None if nothing was there, or at the input's end.
    pub came: usize,
    /// Whether it might wait.
    pub waited: bool,
    /// How often the connection was renewed since the read before it that didn't fail.
    pub renewed: u64,
}

/// One connection of a link, as it is now, or as it was when it was closed.
#[derive(Debug, Drop)]
pub struct Connection {
    /// The host that was asked for.
    pub host: Bytes,
    /// Whether the host answered. If not, nothing was read or written.
    pub connected: bool,
    /// The bytes that were read.
    pub input: Bytes,
    /// The bytes that were written.
    pub output: Bytes,
    /// Whether a read gave the end of the input.
    pub ended: bool,
    /// Whether the last call on it was a read that gave nothing: nothing was there, or the input had ended, or it failed.
    pub dry: bool,
    /// The reads that didn't fail, in order: together they gave the input.
    pub looks: List<Look>,
    /// How often it was renewed since the last of them.
    pub renewed: u64,
}

/// What a crash makes of the bytes that it may leave in any way.
#[derive(Clone, Copy, Debug, PartialEq, Eq)]
pub enum Fill {
    /// Nothing came through since the last good sync: those bytes, and that length.
    Old,
    /// All came through that a read gives.
    Read,
    /// Each range that was written since came through as this byte: the greatest length.
    Byte(u8),
}

/// Ends the wait of a port's turn from another thread. Nothing is promised of it.
pub trait Bell {
    /// The port's turn that waits now, or else its next one, answers without waiting longer.
    fn ring(&self);
}

/// The bell of a port whose turns never wait.
#[derive(Clone, Copy, Debug)]
pub struct NoBell;

impl Bell for NoBell {
    fn ring(&self) {}
}

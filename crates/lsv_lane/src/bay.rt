/// What a lane works with: the disk of its store, what tells the time, and what its turns are kept on.
#[derive(Drop)]
pub struct Bay<D, C, G> {
    pub disk: D,
    pub clock: C,
    pub tape: G,
}

//! What lies in the queue, and what a pass knows.

use std::collections::LinkedList;

/// What lies in the queue: a sender's number with an item, or with `None` at the end of that sender's list.
#[derive(Drop)]
pub struct Letter<T> {
    pub from: u32,
    pub body: Option<T>,
}

/// What a sender has put. The first sender also knows how many numbers were given out. It stands in proofs alone: no
/// value of it is made.
pub struct Sent<T> {
    pub number: u32,
    pub made: u32,
    pub put: LinkedList<T>,
    pub ended: bool,
}

/// What the receiver has taken, and the lists of the senders that were joined. It stands in proofs alone.
pub struct Taken<T> {
    pub got: LinkedList<Letter<T>>,
    pub joined: LinkedList<Sent<T>>,
}

/// What a pass knows: a sender its list, the receiver what it took. It stands in proofs alone.
pub struct View<T> {
    pub list: Option<Sent<T>>,
    pub taken: Option<Taken<T>>,
}

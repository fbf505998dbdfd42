//! Tests of sessions, of a lane, its tape and the loop, of a queue, and of what cuts messages, by their public calls alone, and the laws of a keeper.
#![tactic(auto)]

#[cfg(test)]
mod cut;
#[cfg(test)]
mod laws;
#[cfg(test)]
mod loops;
#[cfg(test)]
mod queue;
#[cfg(test)]
mod scripted;
#[cfg(test)]
mod session;

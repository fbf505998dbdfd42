//! Tests of the storage crates, of log numbers, event logs and logs, by their public calls alone.
#![tactic(auto)]

mod together;

pub use together::flush_both;

#[cfg(test)]
mod both;
#[cfg(test)]
mod bundle;
#[cfg(test)]
mod disk;
#[cfg(test)]
mod events;
#[cfg(test)]
mod journal;
#[cfg(test)]
mod logs;
#[cfg(test)]
mod numbers;

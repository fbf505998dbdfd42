//! Tests of the foundation and of the crates of the protocol and of log content, by their public calls alone.
#![tactic(auto)]

#[cfg(test)]
mod base;
#[cfg(test)]
mod info;
#[cfg(test)]
mod msg;
#[cfg(test)]
mod request;

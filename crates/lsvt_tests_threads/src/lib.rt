//! Tests of workers and lanes that run beside each other, by the top call.
#![tactic(auto)]

#[cfg(test)]
mod disks;
#[cfg(test)]
mod lanes;
#[cfg(test)]
mod meeting;
#[cfg(test)]
mod outside;
#[cfg(test)]
mod ports;
#[cfg(test)]
mod queues;
#[cfg(test)]
mod workers;

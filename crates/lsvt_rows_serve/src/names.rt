//! Bytes by their names.

use anyhow::{Result, anyhow};
use lsv_base::{Bytes, NoMem};
use std::alloc::Global;

/// Bytes with a name.
#[derive(Drop)]
struct Named {
    name: Bytes,
    bytes: Bytes,
}

/// The bytes that have a name. Of those of one name the last count.
#[derive(Drop)]
pub struct Names {
    all: Vec<Named>,
}

impl Names {
    /// No bytes have a name.
    pub fn new(alloc: Global) -> Self {
        Names {
            all: Vec::new(alloc),
        }
    }

    /// The bytes of this name.
    pub fn bytes(&self, name: &str) -> Result<&[u8]> {
        let found = self
            .all
            .iter()
            .rev()
            .find(|named| named.name.as_slice() == name.as_bytes());
        match found {
            Some(named) => Ok(named.bytes.as_slice()),
            None => Err(anyhow!("no bytes of this name")),
        }
    }

    fn push(&mut self, alloc: Global, name: &str, bytes: Bytes) -> Result<()> {
        let name = Bytes::of(alloc, name.as_bytes())?;
        Ok(self.all.push(Named { name, bytes })?)
    }

    /// Names bytes: a name, and their digits.
    pub fn add(&mut self, alloc: Global, words: &str) -> Result<()> {
        let (name, digits) = words.split_once(' ').ok_or(anyhow!("a name"))?;
        let bytes = Bytes::from_vec(hex::decode(alloc, digits)?);
        self.push(alloc, name, bytes)
    }

    /// Names bytes: a name, how often, and the name of those that they are so often.
    pub fn multiply(&mut self, alloc: Global, words: &str) -> Result<()> {
        let (name, rest) = words.split_once(' ').ok_or(anyhow!("a name"))?;
        let (times, other) = rest.split_once(' ').ok_or(anyhow!("a name"))?;
        let bytes = repeated(alloc, self.bytes(other)?, times.parse::<u32>()?)?;
        self.push(alloc, name, bytes)
    }
}

/// These bytes this many times.
fn repeated(alloc: Global, bytes: &[u8], times: u32) -> Result<Bytes, NoMem> {
    let mut all = Bytes::new(alloc);
    for _ in 0..times {
        all.add(bytes)?;
    }
    Ok(all)
}

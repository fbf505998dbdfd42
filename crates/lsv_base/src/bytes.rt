ghost use Rattle.std.specs.Prelude.{◌≡◌, List, ℕ, [], ◌++◌, ◌≤◌, length, take, drop, replicate, IfOk, OnOk, OnErr};

use crate::NoMem;
use crate::short::Short;
use std::alloc::Global;
use std::fmt;
use std::fmt::{Debug, Formatter};
use std::marker::Model;

/// A block of more bytes is let go once it holds none.
const LARGE: usize = 1 << 16;

/// Owned bytes. Contracts see the list of them. A few are kept in place, more take a block of memory.
pub struct Bytes {
    alloc: Global,
    kept: Kept,
}

#[derive(Drop)]
enum Kept {
    Short(Short),
    Long(Vec<u8>),
}

impl Model for Bytes {
    ghost use Rattle.std.specs.Prelude.{ℕ, List};
    ghost use Rattle.lsv_base.specs.declared.bytes.Kept.TheVariants.{Short, Long};

    ghost Value = { List ℕ };

    ghost view = { λ b. elim b.kept [ Short few ↦ few | Long many ↦ many.items ] };
}

/// However they are kept.
impl Debug for Bytes {
    fn fmt<W: fmt::Write>(&self, f: &mut Formatter<W>) -> fmt::Result {
        f.debug_struct("Bytes")
            .field("bytes", &self.as_slice())
            .finish()
    }
}

/// By a call, so that who drops bytes needn't tell the two kinds apart.
impl Drop for Bytes {
    fn drop(self) {
        let Bytes { alloc: _, kept } = self;
        drop(kept);
    }
}

impl Bytes {
    /// No bytes. It takes no memory until it grows.
    pub fn new(alloc: Global) -> Self
        ensures { result ≡ [] }
    {
        Bytes {
            alloc,
            kept: Kept::Short(Short::new()),
        }
    }

    /// A copy of these bytes. A few of them take no memory.
    pub fn of(alloc: Global, bytes: &[u8]) -> Result<Self, NoMem>
        ensures { IfOk result (λ copy. copy ≡ bytes.now) }
    {
        let mut short = Short::new();
        let kept = if short.add(bytes) {
            Kept::Short(short)
        } else {
            Kept::Long(bytes.to_vec(alloc)?)
        };
        Ok(Bytes { alloc, kept })
    }

    /// Puts these bytes at the end.
    pub fn add(&mut self, bytes: &[u8]) -> Result<(), NoMem>
        ensures ok { OnOk result (self.new ≡ self.old ++ bytes.now) }
        ensures err { OnErr result (self.new ≡ self.old) }
    {
        match &mut self.kept {
            Kept::Short(short) => {
                if !short.add(bytes) {
                    let mut long = short.as_slice().to_vec(self.alloc)?;
                    long.extend_from_slice(bytes)?;
                    self.kept = Kept::Long(long);
                }
            }
            Kept::Long(long) => long.extend_from_slice(bytes)?,
        }
        Ok(())
    }

    /// Keeps the first bytes, at most this many.
    pub fn truncate(&mut self, len: usize)
        ensures { self.new ≡ take len self.old }
    {
        match &mut self.kept {
            Kept::Short(short) => short.truncate(len),
            Kept::Long(long) => long.truncate(len),
        }
    }

    /// Forgets the first bytes, this many. A large block that holds none then is let go.
    pub fn drop_front(&mut self, count: usize)
        requires { count ≤ length self.old }
        ensures { self.new ≡ drop count self.old }
    {
        match &mut self.kept {
            Kept::Short(short) => short.drop_front(count),
            Kept::Long(long) => {
                long.drain(..count);
                if long.is_empty() && long.capacity() > LARGE {
                    long.shrink_to(0);
                }
            }
        }
    }

    /// Each of the first bytes, this many, becomes this one.
    pub fn fill_front(&mut self, count: usize, byte: u8)
        requires { count ≤ length self.old }
        ensures { self.new ≡ replicate count byte ++ drop count self.old }
    {
        match &mut self.kept {
            Kept::Short(short) => short.fill_front(count, byte),
            Kept::Long(long) => fill_front(long, count, byte),
        }
    }

    pub fn as_slice(&self) -> &[u8]
        ensures { result.now ≡ self.now }
    {
        match &self.kept {
            Kept::Short(short) => short.as_slice(),
            Kept::Long(long) => long,
        }
    }

    /// A copy of its own.
    pub fn copy(&self, alloc: Global) -> Result<Self, NoMem>
        ensures { IfOk result (λ copy. copy ≡ self.now) }
    {
        Bytes::of(alloc, self.as_slice())
    }

    /// The bytes of a vector, which is taken as it is.
    pub fn from_vec(bytes: Vec<u8>) -> Self
        ensures { result ≡ bytes.items }
    {
        let alloc = *bytes.allocator();
        Bytes {
            alloc,
            kept: Kept::Long(bytes),
        }
    }
}

/// Each of the first bytes, this many, becomes this one.
fn fill_front(bytes: &mut [u8], count: usize, byte: u8)
    requires { count ≤ length bytes.old }
    ensures { bytes.new ≡ replicate count byte ++ drop count bytes.old }
{
    bytes[..count].fill(byte);
}

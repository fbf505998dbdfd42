//! A few bytes, kept in place.

ghost use Rattle.std.specs.Prelude.{◌≡◌, List, ℕ, [], ◌++◌, ◌+◌, ◌≤◌, true, length, take, drop, replicate};
ghost use Rattle.std.specs.Bool.{OnFalse, OnTrue};

use std::marker::Model;

/// This many bytes are a few: with them, `Bytes` takes 32 bytes, and so it does with a vector.
const SIZE: usize = 30;

/// At most 30 bytes.
#[derive(Drop)]
pub struct Short {
    len: u8,
    bytes: [u8; SIZE],
}

impl Model for Short {
    ghost use Rattle.std.specs.Prelude.{ℕ, List, take, ◌≤◌};

    ghost Value = { List ℕ };

    ghost view = { λ s. take s.len s.bytes };

    ghost invariant = { λ s. s.len ≤ 30 };
}

impl Short {
    /// No bytes.
    pub fn new() -> Self
        ensures { result ≡ [] }
    {
        Short {
            len: 0,
            bytes: [0; SIZE],
        }
    }

    /// Puts bytes at the end, or says that they are too many.
    pub fn add(&mut self, bytes: &[u8]) -> bool
        ensures added { OnTrue result (self.new ≡ self.old ++ bytes.now) }
        ensures same { OnFalse result (self.new ≡ self.old) }
        ensures fits { length self.old + length bytes.now ≤ 30 → result ≡ true }
    {
        let len = self.len as usize;
        if bytes.len() > SIZE - len {
            return false;
        }
        self.bytes[len..len + bytes.len()].copy_from_slice(bytes);
        self.len = (len + bytes.len()) as u8;
        true
    }

    /// Keeps the first bytes, at most this many.
    pub fn truncate(&mut self, len: usize)
        ensures { self.new ≡ take len self.old }
    {
        if len < self.len as usize {
            self.len = len as u8;
        }
    }

    /// Forgets the first bytes, this many.
    pub fn drop_front(&mut self, count: usize)
        requires { count ≤ length self.old }
        ensures { self.new ≡ drop count self.old }
    {
        let mut rest = Short::new();
        rest.add(&self.bytes[count..self.len as usize]);
        *self = rest;
    }

    /// Each of the first bytes, this many, becomes this one.
    pub fn fill_front(&mut self, count: usize, byte: u8)
        requires { count ≤ length self.old }
        ensures { self.new ≡ replicate count byte ++ drop count self.old }
    {
        self.bytes[..count].fill(byte);
    }

    pub fn as_slice(&self) -> &[u8]
        ensures { result.now ≡ self.now }
    {
        &self.bytes[..self.len as usize]
    }
}

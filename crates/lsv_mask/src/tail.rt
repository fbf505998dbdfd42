ghost use Rattle.std.specs.Prelude.{◌≡◌, ◌≤◌, [], ◌++◌, length};
ghost use Rattle.lsv_mask.specs.Inner.{tail_with};
ghost use Rattle.lsv_mask.specs.Masking.{last_bytes};

use memchr::memrchr;
use std::marker::Model;

/// This many bytes of output are kept.
const SIZE: usize = 256;

/// The end of the last line of output, in at most 256 bytes. Contracts see these bytes.
#[derive(Debug, Drop)]
pub struct Tail {
    bytes: [u8; SIZE],
    len: usize,
}

impl Model for Tail {
    ghost use Rattle.std.specs.Prelude.{ℕ, List, take, ◌≤◌};

    ghost Value = { List ℕ };

    ghost view = { λ t. take t.len t.bytes };

    ghost invariant = { λ t. t.len ≤ 256 };
}

impl Tail {
    /// No output.
    pub fn new() -> Self
        ensures { result ≡ [] }
    {
        Tail {
            bytes: [0; SIZE],
            len: 0,
        }
    }

    pub fn as_slice(&self) -> &[u8]
        ensures { result.now ≡ self.now }
    {
        &self.bytes[..self.len]
    }

    /// Takes more output. It looks at the last 256 bytes of it alone.
    pub fn push(&mut self, output: &[u8])
        ensures { self.new ≡ tail_with self.old output.now }
    {
        let (_, recent) = output.split_at(output.len().saturating_sub(SIZE));
        match memrchr(b'\n', recent) {
            Some(at) => {
                self.len = 0;
                self.append(&recent[at + 1..]);
            }
            None => self.append(recent),
        }
    }

    /// Puts bytes at the end, and keeps the last 256 of all.
    fn append(&mut self, recent: &[u8])
        requires { length recent.now ≤ 256 }
        ensures { self.new ≡ last_bytes 256 (self.old ++ recent.now) }
    {
        let kept = self.len.min(SIZE - recent.len());
        self.bytes.copy_within(self.len - kept..self.len, 0);
        self.bytes[kept..kept + recent.len()].copy_from_slice(recent);
        self.len = kept + recent.len();
    }
}

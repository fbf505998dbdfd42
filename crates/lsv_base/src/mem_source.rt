ghost use Rattle.std.specs.Prelude.{◌≡◌, ◌+◌, ◌-◌, ◌^◌, ◌<◌, List, [], ◌∷◌, ◌++◌, length, take, min, IfOk, OnOk, OnErr, IsErr};
ghost use Rattle.std.specs.List.{concat};
ghost use Rattle.lsv_base.specs.Outside.{HasCause};
ghost use Rattle.lsv_base.specs.Script.{IsListed, script_of, answered, failed, unserved};
ghost use Rattle.lsv_base.specs.MemSource.{first_piece, from_filled, without_front};

use crate::pieces::Pieces;
use crate::{Bytes, List, NoMem, Script, Source, SourceFault};
use std::alloc::Global;
use std::marker::Model;

/// How many bytes a source gives at most.
const MOST: usize = (1 << 63) - 1;

/// A source in memory, which gives its pieces one by one. Contracts see the pieces that it gave, those that are
/// left, and how its calls went.
#[derive(Debug, Drop)]
pub struct MemSource {
    alloc: Global,
    pieces: Pieces,
    given: List<Bytes>,
    count: usize,
    script: Script,
}

impl Model for MemSource {
    ghost use Rattle.std.specs.Prelude.{◌<◌, ◌^◌};
    ghost use Rattle.lsv_base.specs.MemSource.{SourceState};

    ghost Value = { SourceState };

    ghost view = { λ s. record { given = s.given; pieces = s.pieces; count = s.count; script = s.script } };

    ghost invariant = { λ s. s.count < 2 ^ 63 };
}

impl MemSource {
    /// A source of these pieces, of which the empty ones are passed over. The reads with the numbers in `fail`,
    /// counted from 1, fail. What is given is recorded in memory of `alloc`.
    pub fn new(alloc: Global, pieces: List<Bytes>, fail: Vec<u64>) -> Self
        ensures given { result.given ≡ [] }
        ensures pieces { result.pieces ≡ from_filled pieces }
        ensures rest { concat result.pieces ≡ concat pieces }
        ensures count { result.count ≡ 0 }
        ensures script { result.script ≡ script_of fail.items }
    {
        MemSource {
            alloc,
            pieces: Pieces::new(pieces),
            given: List::new(alloc),
            count: 0,
            script: Script::new(fail),
        }
    }

    /// How many reads failed because memory was refused.
    pub fn refused(&self) -> u64
        ensures { result ≡ self.now.script.refused }
    {
        self.script.refused
    }

    /// Gives what fits of the first piece and records it.
    fn give(&mut self, buf: &mut [u8]) -> Result<usize, NoMem>
        ensures amount { IfOk result (λ n. n ≡ min (min (length (first_piece self.old.pieces)) (length buf.old)) (2 ^ 63 - 1 - self.old.count)) }
        ensures bytes { IfOk result (λ n. take n buf.new ≡ take n (first_piece self.old.pieces)) }
        ensures left { IfOk result (λ n. self.new.pieces ≡ from_filled (without_front n self.old.pieces)) }
        ensures piece { IfOk result (λ n. 0 < n → self.new.given ≡ self.old.given ++ take n buf.new ∷ []) }
        ensures no_piece { IfOk result (λ n. n ≡ 0 → self.new.given ≡ self.old.given) }
        ensures rest { IfOk result (λ n. concat self.old.pieces ≡ take n buf.new ++ concat self.new.pieces) }
        ensures end { IfOk result (λ n. n ≡ 0 → 0 < length buf.old → self.old.count < 2 ^ 63 - 1 → concat self.old.pieces ≡ []) }
        ensures counted { IfOk result (λ n. self.new.count ≡ self.old.count + n) }
        ensures limit { self.new.count < 2 ^ 63 }
        ensures script { self.new.script ≡ self.old.script }
        ensures err { OnErr result ((self.new ≡ self.old) × (buf.new ≡ buf.old)) }
    {
        let piece = self.pieces.first();
        let n = piece.len().min(buf.len()).min(MOST - self.count);
        if n == 0 {
            return Ok(0);
        }
        let front = &piece[..n];
        let record = Bytes::of(self.alloc, front)?;
        if let Err((_, refused)) = self.given.push(record) {
            return Err(refused);
        }
        buf[..n].copy_from_slice(front);
        self.pieces.advance(n);
        self.count += n;
        Ok(n)
    }
}

impl Source for MemSource {
    ghost tells = { Unit {0} };

    ghost given = { λ s. s.given };

    ghost rest = { λ s. concat s.pieces };

    ghost count = { λ s. s.count };

    ghost faults = { λ s. s.script.faults };

    /// Gives what fits of the next piece.
    fn read(&mut self, buf: &mut [u8]) -> Result<usize, SourceFault>
        ensures amount { IfOk result (λ n. n ≡ min (min (length (first_piece self.old.pieces)) (length buf.old)) (2 ^ 63 - 1 - self.old.count)) }
        ensures bytes { IfOk result (λ n. take n buf.new ≡ take n (first_piece self.old.pieces)) }
        ensures left { IfOk result (λ n. self.new.pieces ≡ from_filled (without_front n self.old.pieces)) }
        ensures piece { IfOk result (λ n. 0 < n → self.new.given ≡ self.old.given ++ take n buf.new ∷ []) }
        ensures no_piece { IfOk result (λ n. n ≡ 0 → self.new.given ≡ self.old.given) }
        ensures rest { IfOk result (λ n. concat self.old.pieces ≡ take n buf.new ++ concat self.new.pieces) }
        ensures end { IfOk result (λ n. n ≡ 0 → 0 < length buf.old → self.old.count < 2 ^ 63 - 1 → concat self.old.pieces ≡ []) }
        ensures counted { IfOk result (λ n. self.new.count ≡ self.old.count + n) }
        ensures limit { self.new.count < 2 ^ 63 }
        ensures nothing { OnErr result ((self.new ≡ record self.old { script = self.new.script }) × (buf.new ≡ buf.old)) }
        ensures listed { IsListed self.old.script → IsErr result × (self.new.script ≡ failed self.old.script) }
        ensures answered { OnOk result (self.new.script ≡ answered self.old.script) }
        ensures unserved { ¬ IsListed self.old.script → OnErr result (self.new.script ≡ unserved self.old.script) }
        ensures cause { HasCause (IsErr result) self.old.script.faults self.new.script.faults }
    {
        if self.script.fails() {
            return Err(SourceFault);
        }
        match self.give(buf) {
            Ok(n) => Ok(n),
            Err(NoMem) => {
                self.script.refuse();
                Err(SourceFault)
            }
        }
    }
}

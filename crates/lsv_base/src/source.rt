ghost use Rattle.std.specs.Prelude.{◌≡◌, ℕ, ◌+◌, ◌-◌, ◌<◌, ◌≤◌, ◌^◌, List, [], ◌∷◌, ◌++◌, length, take, IsErr, IfOk, OnErr};
ghost use Rattle.lsv_base.specs.Outside.{HasCause};

use thiserror::Error;

/// A read failed.
#[derive(Clone, Copy, Debug, PartialEq, Eq, Error)]
#[error("a read failed")]
pub struct SourceFault;

/// Where bytes come from, as standard input.
pub trait Source {
    /// Whether this type tells its content: what it gives is promised where it does.
    ghost tells: { Type 0 };

    /// The pieces that it gave, in order. None of them is empty.
    ghost given: { Self → List (List ℕ) };

    /// The bytes that are still to come.
    ghost rest: { Self → List ℕ };

    /// How many bytes it gave. At the last value it gives no more, so that a loop over it ends.
    ghost count: { Self → ℕ };

    /// How often a read has failed.
    ghost faults: { Self → ℕ };

    /// Reads a piece to the front of the buffer. 0 for a buffer that isn't empty is the end.
    fn read(&mut self, buf: &mut [u8]) -> Result<usize, SourceFault>
        ensures within { IfOk result (λ n. n ≤ length buf.old) }
        ensures piece { tells → IfOk result (λ n. 0 < n → given self.new ≡ given self.old ++ take n buf.new ∷ []) }
        ensures no_piece { tells → IfOk result (λ n. n ≡ 0 → given self.new ≡ given self.old) }
        ensures rest { tells → IfOk result (λ n. rest self.old ≡ take n buf.new ++ rest self.new) }
        ensures end { tells → IfOk result (λ n. n ≡ 0 → 0 < length buf.old → count self.old < 2 ^ 63 - 1 → rest self.old ≡ []) }
        ensures failed { tells → OnErr result ((given self.new ≡ given self.old) × (rest self.new ≡ rest self.old)) }
        ensures counted { IfOk result (λ n. count self.new ≡ count self.old + n) }
        ensures not_counted { OnErr result (count self.new ≡ count self.old) }
        ensures limit { count self.new < 2 ^ 63 }
        ensures cause { HasCause (IsErr result) (faults self.old) (faults self.new) };
}

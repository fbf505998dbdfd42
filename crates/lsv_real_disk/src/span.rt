ghost use Rattle.std.specs.Prelude.{◌≡◌, ◌≤◌, ◌-◌, min, max};

/// The bytes of a file, from one offset to another, that may not be on the disk: what was written since its last sync that
/// succeeded, or all of it.
#[derive(Clone, Copy)]
pub struct Span {
    pub from: u64,
    pub to: u64,
    /// A sync failed since: the system may have let these bytes go, and a later sync of it may say Ok all the same.
    pub failed: bool,
}

impl Span {
    /// The bytes of one write.
    pub fn of(at: u64, count: usize) -> Self
        ensures from { result.from ≡ at }
        ensures ordered { result.from ≤ result.to }
    {
        Span {
            from: at,
            to: at.saturating_add(count as u64),
            failed: false,
        }
    }

    /// All bytes of a file.
    pub fn whole() -> Self
        ensures ordered { result.from ≤ result.to }
    {
        Span {
            from: 0,
            to: u64::MAX,
            failed: false,
        }
    }

    /// Those of its bytes that a file of this length has, and at least the last one of the file: with that one the new end can be
    /// brought to the disk.
    pub fn within(self, length: u64) -> Self
        ensures from { result.from ≡ min self.from (min self.to length - 1) }
        ensures to { result.to ≡ min self.to length }
    {
        let to = self.to.min(length);
        Span {
            from: self.from.min(to.saturating_sub(1)),
            to,
            failed: self.failed,
        }
    }

    /// Both, and what lies between.
    pub fn with(self, other: Span) -> Self
        ensures from { result.from ≡ min self.from other.from }
        ensures to { result.to ≡ max self.to other.to }
    {
        Span {
            from: self.from.min(other.from),
            to: self.to.max(other.to),
            failed: self.failed || other.failed,
        }
    }
}

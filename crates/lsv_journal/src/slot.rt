ghost use Rattle.std.specs.Prelude.{◌≡◌, ℕ, ◌+◌, ◌≤◌, ◌==◌, if◌then◌else◌};
ghost use Rattle.lsv_journal.specs.Represents.{begin, free_slot};

/// The gate of a file with an entry.
pub(crate) const OPEN: u8 = 1;

/// The gate of a file without one.
pub(crate) const CLOSED: u8 = 0;

/// The selector that chooses the first slot.
pub(crate) const FIRST: u8 = 0;

/// The selector that chooses the second slot.
pub(crate) const SECOND: u8 = 1;

/// One of the two slots.
#[derive(Clone, Copy, Debug, PartialEq, Eq)]
pub enum Slot {
    First,
    Second,
}

impl Slot {
    /// The slot that a selector chooses.
    pub(crate) fn of(selector: u8) -> Slot
        ensures { (n : ℕ) → begin n result ≡ (if selector == 1 then n + 2 else 2) }
    {
        if selector == SECOND {
            Slot::Second
        } else {
            Slot::First
        }
    }

    /// The selector that chooses it.
    pub(crate) fn selector(self) -> u8
        ensures { (n : ℕ) → (if result == 1 then n + 2 else 2) ≡ begin n self }
    {
        match self {
            Slot::First => FIRST,
            Slot::Second => SECOND,
        }
    }

    /// The byte at which it begins, of slots of that size.
    pub(crate) fn begin(self, size: usize) -> u64
        requires { size ≤ 120 }
        ensures { result ≡ begin size self }
    {
        match self {
            Slot::First => 2,
            Slot::Second => size as u64 + 2,
        }
    }

    /// The slot that isn't selected, the first where none is.
    pub(crate) fn free(selected: Option<Slot>) -> Slot
        ensures { result ≡ free_slot selected }
    {
        match selected {
            Some(Slot::First) => Slot::Second,
            Some(Slot::Second) | None => Slot::First,
        }
    }
}

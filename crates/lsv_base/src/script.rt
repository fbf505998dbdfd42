ghost use Rattle.std.specs.Prelude.{◌≡◌, ◌≤◌, ◌↔◌, IsTrue, if◌then◌else◌};

use crate::List;

/// How the fallible calls of an object in memory go: those with the listed numbers, counted from 1, fail, and the
/// others fail only where memory is refused. Each count stands still at its type's end.
#[derive(Debug, Drop)]
pub struct Script {
    /// The numbers of the calls that fail.
    pub fail: List<u64>,
    /// How many calls were made.
    pub calls: u64,
    /// How many of them failed.
    pub faults: u64,
    /// How many of them failed because memory was refused.
    pub refused: u64,
}

impl Script {
    ghost use Rattle.lsv_base.specs.Script.{IsListed, script_of, answered, failed, one_more};

    pub fn new(fail: Vec<u64>) -> Self
        ensures { result ≡ script_of fail.items }
    {
        Script {
            fail: List::from_vec(fail),
            calls: 0,
            faults: 0,
            refused: 0,
        }
    }

    /// Counts a call, and says whether it is one that fails.
    pub fn fails(&mut self) -> bool
        ensures listed { IsTrue result ↔ IsListed self.old }
        ensures counted { self.new ≡ (if result then failed self.old else answered self.old) }
        ensures faults { self.old.faults ≤ self.new.faults }
    {
        self.calls = self.calls.saturating_add(1);
        let is_listed = self.fail.as_slice().contains(&self.calls);
        if is_listed {
            self.faults = self.faults.saturating_add(1);
        }
        is_listed
    }

    /// Counts a fault for lack of memory.
    pub fn refuse(&mut self)
        ensures counted { self.new ≡ record self.old { faults = one_more self.old.faults; refused = one_more self.old.refused } }
        ensures faults { self.old.faults ≤ self.new.faults }
    {
        self.faults = self.faults.saturating_add(1);
        self.refused = self.refused.saturating_add(1);
    }
}

//! Words that the contracts of several crates cite, and their laws. It has no code that does anything.
#![tactic(auto)]

ghost use Rattle.std.specs.Prelude.{ℕ, ◌≤◌};
ghost use Rattle.lsv_defs.specs.Causes.{HasRisen};

/// A count that rose in one of two calls in a row rose in both together, since no call lets a count fall.
pub fn a_rise_lasts()
    ensures first { (before mid now : ℕ) → HasRisen before mid → mid ≤ now → HasRisen before now }
    ensures second { (before mid now : ℕ) → before ≤ mid → HasRisen mid now → HasRisen before now }
{}

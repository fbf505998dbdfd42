//! Laws of the definitions that the lines of a check and a seal rest on. They do nothing when they run.
ghost use Rattle.std.specs.Prelude.{◌≡◌, ◌⊎◌, ℕ, List, All};
ghost use Rattle.lsv_check.specs.Alone.{IsBeside};
ghost use Rattle.lsv_check.specs.Seals.{IsSameIn, IsSealedOf};
ghost use Rattle.lsv_disk.specs.View.{Image};
ghost use Rattle.lsv_finding.specs.Findings.{Finding, IsFinding};
ghost use Rattle.lsv_seal.specs.Chain.{Collides, Sealed, chain};

use lsv_finding::a_finding_is_what_recovery_says;
use lsv_seal::a_value_fixes_what_it_seals;
use lsv_verdict::a_digest_fixes_the_bytes;

/// Two stores whose seals have one value have the same sealed logs with the same committed bytes, or two different texts have
/// one SHA-256: of the seals' values, or of a log.
pub fn a_value_fixes_the_bytes()
    ensures { (image other : Image) (a b : List Sealed) → All (IsSealedOf image) a → All (IsSealedOf other) b → chain a ≡ chain b → ((a ≡ b) × All (IsSameIn image other) a) ⊎ Collides a b }
{
    a_value_fixes_what_it_seals();
    a_digest_fixes_the_bytes();
}

/// What is found of a log is found of it alone: no log, the first file that has bytes without an entry, or a stored log with its
/// head, entry and exit. Of a damaged log nothing but damage is found.
pub fn a_log_is_found_in_one_way()
    ensures { (image : Image) (n : ℕ) (one other : Finding) → IsFinding image n one → IsFinding image n other → IsBeside one other }
{
    a_finding_is_what_recovery_says();
}

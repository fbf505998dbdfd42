//! The values of a chain, as 64 hexadecimal digits each.
ghost use Rattle.std.specs.Prelude.{◌≡◌, ◌⊎◌, List, All};
ghost use Rattle.hex.specs.Hex.{encode_lower};
ghost use Rattle.lsv_seal.specs.Chain.{Collides, IsSealed, Sealed, chain, first, next};

use hex::encode_to_slice;
use lsv_base::LogNo;
use sha2::{Digest, Sha256};

/// The value of a chain that has no log yet.
pub fn first() -> [u8; 64]
    ensures { result ≡ first }
{
    shown(&Sha256::new().finalize())
}

/// The value after one log more: its number, and the digest of its committed bytes as 64 hexadecimal digits.
pub fn next(before: &[u8], number: LogNo, digest: &[u8]) -> [u8; 64]
    ensures { result ≡ next before.now (record { number = number; digest = digest.now }) }
{
    let mut hasher = Sha256::new();
    hasher.update(before);
    hasher.update(number.digits().as_slice());
    hasher.update(digest);
    shown(&hasher.finalize())
}

/// A digest as hexadecimal digits.
fn shown(digest: &[u8; 32]) -> [u8; 64]
    ensures { result ≡ encode_lower digest.now }
{
    let mut text = [0; 64];
    let Ok(()) = encode_to_slice(digest.as_slice(), &mut text) else {
        unreachable!();
    };
    text
}

/// Two seals with one value are one seal, or two different texts have one SHA-256: one that the first seal's values were made
/// of, and one of the second's.
pub fn a_value_fixes_what_it_seals()
    ensures { (a b : List Sealed) → All IsSealed a → All IsSealed b → chain a ≡ chain b → (a ≡ b) ⊎ Collides a b }
{}

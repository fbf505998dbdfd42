//! Numbers of the command line: digits, and optionally a point with one to nine digits.
ghost use Rattle.std.specs.Prelude.{◌≡◌, ◌≤◌, ◌-◌, ◌^◌};
ghost use Rattle.lsv_replay_args.specs.Decimal.{billionths, digits_in, fraction_in};

use crate::words::cut;
use std::str;

/// A whole one, in billionths.
const ONE: u64 = 1_000_000_000;

/// A number in billionths. None if it isn't one, or is 2^63 billionths or more.
pub fn billionths(text: &[u8]) -> Option<u64>
    ensures { result ≡ billionths text.now }
{
    let (whole, fraction) = cut(b'.', text);
    let whole = digits_in(whole)?;
    let fraction = match fraction {
        Some(digits) => fraction_in(digits)?,
        None => 0,
    };
    let value = u128::from(whole) * u128::from(ONE) + u128::from(fraction);
    if value < 1 << 63 {
        Some(value as u64)
    } else {
        None
    }
}

/// The billionths that one to nine digits after a point are.
fn fraction_in(digits: &[u8]) -> Option<u64>
    ensures { result ≡ fraction_in digits.now }
{
    if digits.len() > 9 {
        return None;
    }
    let value = digits_in(digits)?;
    Some(value * scale(digits.len()))
}

/// What the last of this many digits after a point counts for, in billionths.
fn scale(digits: usize) -> u64
    requires { digits ≤ 9 }
    ensures { result ≡ 10 ^ (9 - digits) }
{
    match digits {
        0 => 1_000_000_000,
        1 => 100_000_000,
        2 => 10_000_000,
        3 => 1_000_000,
        4 => 100_000,
        5 => 10_000,
        6 => 1_000,
        7 => 100,
        8 => 10,
        _ => 1,
    }
}

/// The number below 2^64 that digits alone are.
pub fn digits_in(digits: &[u8]) -> Option<u64>
    ensures { result ≡ digits_in digits.now }
{
    let Ok(text) = str::from_utf8(digits) else {
        return None;
    };
    let [b'0'..=b'9', ..] = digits else {
        return None;
    };
    text.parse::<u64>().ok()
}

ghost use Rattle.std.specs.Prelude.{◌≡◌, ℕ, ◌+◌, ◌<◌, ◌≤◌, ◌%◌, List, Some, SomeIff};
ghost use Rattle.lsv_base.specs.LogNo.{digit_byte, digit_value, IsDigit, digits_of, number_of, IsLogText, log_no_in};

use std::marker::Model;

const LAST: u32 = 2_176_782_335;

const BASE: u32 = 36;

/// The number of a log, from 1 to 36^6 - 1. Contracts see the number.
#[derive(Clone, Copy, Debug, PartialEq, Eq, PartialOrd, Ord)]
pub struct LogNo {
    number: u32,
}

impl Model for LogNo {
    ghost use Rattle.std.specs.Prelude.{ℕ, ◌≤◌};

    ghost Value = { ℕ };

    ghost view = { λ n. n.number };

    ghost invariant = { λ n. (1 ≤ n.number) × (n.number ≤ 2176782335) };

    ghost inverse = { λ n. record { number = n } };
}

impl LogNo {
    pub fn new(number: u32) -> Option<Self>
        ensures { SomeIff result ((1 ≤ number) × (number ≤ 2176782335)) number }
    {
        if 1 <= number && number <= LAST {
            Some(LogNo { number })
        } else {
            None
        }
    }

    pub fn get(self) -> u32
        ensures value { result ≡ self }
        ensures first { 1 ≤ result }
        ensures last { result ≤ 2176782335 }
    {
        self.number
    }

    /// Its six digits in base 36, as the I/O log's folders have them: `0` to `9` and `A` to `Z`, the most
    /// significant first.
    pub fn digits(self) -> [u8; 6]
        ensures { result ≡ digits_of self }
    {
        let n = self.number;
        [
            last_digit(n / 60_466_176),
            last_digit(n / 1_679_616),
            last_digit(n / 46_656),
            last_digit(n / 1_296),
            last_digit(n / 36),
            last_digit(n),
        ]
    }

    /// The log number with these six digits. None where the text isn't six of them: small letters aren't digits, and
    /// 000000 is no log number.
    pub fn read(text: &[u8]) -> Option<Self>
        ensures digits { SomeIff result (IsLogText text.now) (number_of text.now) }
        ensures computed { result ≡ log_no_in text.now }
    {
        number_in(text)
    }
}

/// The log number with these six digits.
fn number_in(text: &[u8]) -> Option<LogNo>
    ensures { SomeIff result (IsLogText text.now) (number_of text.now) }
{
    if text.len() != 6 {
        return None;
    }
    let mut number = 0;
    for byte in text {
        number = BASE * number + value_of_digit(*byte)?;
    }
    LogNo::new(number)
}

/// The last digit of a number in base 36.
fn last_digit(n: u32) -> u8
    ensures { result ≡ digit_byte (n % 36) }
{
    let digit = (n % BASE) as u8;
    if digit < 10 {
        b'0' + digit
    } else {
        b'A' + (digit - 10)
    }
}

/// What a digit in base 36 stands for.
fn value_of_digit(byte: u8) -> Option<u32>
    ensures { SomeIff result (IsDigit byte) (digit_value byte) }
{
    match byte {
        b'0'..=b'9' => Some(u32::from(byte - b'0')),
        b'A'..=b'Z' => Some(u32::from(byte - b'A') + 10),
        _ => None,
    }
}

/// Digits and log numbers are each other's inverse: the digits of a log number are read as that number, and a
/// text that is read as a number has just this number's digits.
pub fn digits_are_read_back()
    ensures read { (n : ℕ) → 1 ≤ n → n ≤ 2176782335 → IsLogText (digits_of n) }
    ensures number { (n : ℕ) → n ≤ 2176782335 → number_of (digits_of n) ≡ n }
    ensures digits { (text : List ℕ) → IsLogText text → digits_of (number_of text) ≡ text }
    ensures last { (text : List ℕ) → IsLogText text → number_of text ≤ 2176782335 }
    ensures computed { (n : ℕ) → 1 ≤ n → n ≤ 2176782335 → log_no_in (digits_of n) ≡ Some n }
    ensures only { (text : List ℕ) (n : ℕ) → log_no_in text ≡ Some n → IsLogText text × (n ≡ number_of text) }
{}

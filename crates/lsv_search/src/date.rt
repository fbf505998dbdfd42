ghost use Rattle.std.specs.Prelude.{◌≡◌, ◌-◌, ◌<◌, ◌&&◌, IfOk, Some, None, if◌then◌else◌, slice_index_or};
ghost use Rattle.lsv_search.specs.Dates.{blurred, date_in, days_to, has_clock, has_day, is_day, is_form, seconds_of, two_at};

use jiff_core::civil::Date;
use lsv_base::NoMem;
use std::alloc::Global;

/// The form of a date, with a 0 in the place of each digit.
const FORM: &[u8] = b"0000-00-00T00:00:00Z";

/// The seconds from the start of 1970 to the moment that a date names. None if the text is no date.
#[tactic(auto, unfolding(crate::specs::Dates::date_in))]
pub fn date_in(alloc: Global, text: &[u8]) -> Result<Option<u64>, NoMem>
    ensures { IfOk result (λ o. o ≡ date_in text.now) }
{
    if !is_form(alloc, text)? {
        return Ok(None);
    }
    Ok(seconds_in(text))
}

/// Whether a text is in the form of a date.
fn is_form(alloc: Global, text: &[u8]) -> Result<bool, NoMem>
    ensures { IfOk result (λ is. is ≡ is_form text.now) }
{
    let blurred: Vec<u8> = text.iter().map(|byte| blurred(*byte)).collect(alloc)?;
    Ok(blurred.as_slice() == FORM)
}

/// A byte, with 0 for each digit.
fn blurred(byte: u8) -> u8
    ensures { result ≡ blurred byte }
{
    if byte.is_ascii_digit() { b'0' } else { byte }
}

/// The moment of a text in the form of a date.
fn seconds_in(text: &[u8]) -> Option<u64>
    ensures { result ≡ (if has_day text.now && has_clock text.now then Some (seconds_of text.now) else None) }
{
    let days = days_in(
        two_at(text, 0) * 100 + two_at(text, 2),
        two_at(text, 5),
        two_at(text, 8),
    )?;
    let (hour, minute, second) = (two_at(text, 11), two_at(text, 14), two_at(text, 17));
    if hour > 23 || minute > 59 || second > 59 {
        return None;
    }
    Some(u64::from(days) * 86400 + u64::from(hour * 3600 + minute * 60 + second))
}

/// The days from the start of 1970 to a day. None if the calendar has no such day from 1970 to 2261.
fn days_in(year: u32, month: u32, day: u32) -> Option<u32>
    ensures { result ≡ (if is_day year month day then Some (days_to year month day) else None) }
{
    if year < 1970 || year > 2261 || month > 12 || day > 31 {
        return None;
    }
    let Ok(date) = Date::new(year as i16, month as i8, day as i8) else {
        return None;
    };
    Some(date.to_unix_epoch_day().unsigned_abs())
}

/// The number of the two digits from that place on.
fn two_at(text: &[u8], at: usize) -> u32
    requires { at < 20 }
    ensures value { result ≡ two_at text.now at }
    ensures small { result < 3000 }
{
    digit_at(text, at) * 10 + digit_at(text, at + 1)
}

fn digit_at(text: &[u8], at: usize) -> u32
    ensures value { result ≡ slice_index_or text.now at 48 - 48 }
    ensures small { result < 256 }
{
    u32::from(text.get(at).copied().unwrap_or(b'0').saturating_sub(b'0'))
}

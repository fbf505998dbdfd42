//! Whether a line is an event: in sudo's style, or as JSON.
ghost use Rattle.std.specs.Prelude.{◌≡◌, IfOk, codes};
ghost use Rattle.std.specs.List.{list_all};
ghost use Rattle.serde_json.specs.View.{view};
ghost use Rattle.lsv_tally.specs.Events.{begins_as, fits_byte, has_object, is_event, is_visible, reads, reads_as_json, reads_as_sudo};

use lsv_base::NoMem;
use serde_json::Value as Json;
use std::alloc::Global;

/// No line has more bytes.
pub(crate) const LONGEST: usize = 16_777_216;

/// How a line in sudo's style begins: 0 stands for any decimal digit.
const START: &[u8] = b"0000-00-00T00:00:00Z : ";

#[tactic(auto, using(crate::proofs::Starts::long_none, crate::proofs::Starts::sudo_reads, crate::proofs::Starts::json_reads))]
/// Whether a line, without its line feed, is an event.
pub(crate) fn reads(alloc: Global, line: &[u8]) -> Result<bool, NoMem>
    ensures { IfOk result (λ b. b ≡ reads line.now) }
{
    if line.len() > LONGEST {
        return Ok(false);
    }
    if reads_as_sudo(line) {
        return Ok(true);
    }
    reads_as_json(alloc, line)
}

/// Whether it is one in sudo's style: a date, and visible bytes.
fn reads_as_sudo(line: &[u8]) -> bool
    ensures { result ≡ reads_as_sudo line.now }
{
    begins_as(START, line) && is_visible_text(line)
}

/// Whether each byte is a space or a visible one.
fn is_visible_text(line: &[u8]) -> bool
    ensures { result ≡ list_all is_visible line.now }
{
    line.iter().all(|byte| is_visible(*byte))
}

/// Whether a line begins as a form, of which 0 stands for any decimal digit.
fn begins_as(form: &[u8], line: &[u8]) -> bool
    ensures { result ≡ begins_as form.now line.now }
{
    let [f, form @ ..] = form else {
        return true;
    };
    let [byte, line @ ..] = line else {
        return false;
    };
    if !fits_byte(*f, *byte) {
        return false;
    }
    begins_as(form, line)
}

/// Whether a byte is that of the form, or any decimal digit if that is a 0.
fn fits_byte(f: u8, byte: u8) -> bool
    ensures { result ≡ fits_byte f byte }
{
    if f == b'0' {
        b'0' <= byte && byte <= b'9'
    } else {
        byte == f
    }
}

/// Whether a byte is a space or a visible one of ASCII.
fn is_visible(byte: u8) -> bool
    ensures { result ≡ is_visible byte }
{
    b' ' <= byte && byte <= b'~'
}

/// Whether it is one as JSON.
fn reads_as_json(alloc: Global, line: &[u8]) -> Result<bool, NoMem>
    ensures { IfOk result (λ b. b ≡ reads_as_json line.now) }
{
    match Json::from_slice(alloc, line) {
        Ok(json) => Ok(is_event(&json)),
        Err(e) if e.is_memory() => Err(NoMem),
        Err(_) => Ok(false),
    }
}

/// Whether a value has a member that is an event.
fn is_event(json: &Json) -> bool
    ensures { result ≡ is_event (view json.now) }
{
    has_object(json, "accept")
        || has_object(json, "reject")
        || has_object(json, "alert")
        || has_object(json, "exit")
}

/// Whether a value has a member with this key that is an object.
fn has_object(json: &Json, key: &str) -> bool
    ensures { result ≡ has_object key.now (view json.now) }
{
    json.get(key).and_then(Json::as_object).is_some()
}

ghost use Rattle.std.specs.Prelude.{◌≡◌, true, IfOk};
ghost use Rattle.lsv_conf.specs.Values.{has_port, is_address, is_any_host, is_bracketed, is_bracketed_address, is_host, is_mark, is_plain_address, is_port, is_port_part, with_port};

use crate::text::cut;
use lsv_base::{Bytes, NoMem};
use std::alloc::Global;
use std::str;

/// The port of an address that states none.
const DEFAULT_PORT: &[u8] = b":30343";

/// Whether a byte is a space, a square bracket or a parenthesis.
fn is_mark(byte: u8) -> bool
    ensures { result ≡ is_mark byte }
{
    matches!(byte, b' ' | b'[' | b']' | b'(' | b')')
}

/// Whether these are the bytes of a host: one or more, and no mark.
fn is_host(bytes: &[u8]) -> bool
    ensures { result ≡ is_host bytes.now }
{
    !bytes.is_empty() && bytes.iter().all(|byte| !is_mark(*byte))
}

/// Whether these are the digits of a port from 1 to 65535, without a leading zero.
fn is_port(digits: &[u8]) -> bool
    ensures { result ≡ is_port digits.now }
{
    let Ok(text) = str::from_utf8(digits) else {
        return false;
    };
    let [b'1'..=b'9', ..] = digits else {
        return false;
    };
    text.parse::<u16>().is_ok()
}

/// Whether this may stand after a host in brackets: nothing, or a colon and a port.
fn is_port_part(bytes: &[u8]) -> bool
    ensures { result ≡ is_port_part bytes.now }
{
    match bytes.split_first() {
        None => true,
        Some((first, digits)) => *first == b':' && is_port(digits),
    }
}

/// Whether a value begins with a square bracket.
fn is_bracketed(value: &[u8]) -> bool
    ensures { result ≡ is_bracketed value.now }
{
    value.first() == Some(&b'[')
}

/// Whether a value that begins with a bracket is `[host]` or `[host]:port`.
fn is_bracketed_address(value: &[u8]) -> bool
    requires { is_bracketed value.now ≡ true }
    ensures { result ≡ is_bracketed_address value.now }
{
    let (host, rest) = cut(b']', &value[1..]);
    is_host(host) && rest.is_some_and(|rest| is_port_part(rest))
}

/// Whether a value is `host` or `host:port`.
fn is_plain_address(value: &[u8]) -> bool
    ensures { result ≡ is_plain_address value.now }
{
    let (host, port) = cut(b':', value);
    is_host(host) && port.is_none_or(|port| is_port(port))
}

/// Whether a value is an address, with its port or without one.
pub fn is_address(value: &[u8]) -> bool
    ensures { result ≡ is_address value.now }
{
    if is_bracketed(value) {
        is_bracketed_address(value)
    } else {
        is_plain_address(value)
    }
}

/// Whether a value's host is `*`.
pub fn is_any_host(value: &[u8]) -> bool
    ensures { result ≡ is_any_host value.now }
{
    cut(b':', value).0 == b"*".as_slice()
}

/// Whether an address states a port.
fn has_port(value: &[u8]) -> bool
    ensures { result ≡ has_port value.now }
{
    if is_bracketed(value) {
        cut(b']', &value[1..])
            .1
            .is_some_and(|rest| !rest.is_empty())
    } else {
        cut(b':', value).1.is_some()
    }
}

/// An address with its port, which is 30343 where it states none.
pub fn with_port(alloc: Global, value: &[u8]) -> Result<Bytes, NoMem>
    ensures { IfOk result (λ address. address ≡ with_port value.now) }
{
    let mut address = Bytes::of(alloc, value)?;
    if !has_port(value) {
        address.add(DEFAULT_PORT)?;
    }
    Ok(address)
}

//! The lines of a settings file that are refused, each with the reason.

ghost use Rattle.std.specs.Prelude.{◌≡◌, ◌++◌, [], OnOk};
ghost use Rattle.lsv_conf.specs.Refusals.{found_in, onto};

use crate::row::Values;
use lsv_base::{Bytes, List, NoMem};
use std::alloc::Global;

/// A value that a key doesn't take.
#[derive(Debug, Drop)]
pub struct WrongValue {
    /// The key as it is written.
    pub key: Bytes,
    /// The value as it is written, without the blanks at its ends.
    pub value: Bytes,
    /// What the key takes.
    pub takes: Values,
}

/// Why a line is refused.
#[derive(Debug, Drop)]
pub enum Refused {
    /// It isn't UTF-8.
    NotUtf8,
    /// It is neither `[section]` nor `key = value`, nor empty, nor comment.
    NoForm,
    /// It is a key before the first section.
    NoSection,
    /// Its key is known and doesn't take its value.
    Value(WrongValue),
}

/// A line that is refused.
#[derive(Debug, Drop)]
pub struct RefusedLine {
    /// Its number, counted from 1; 2^32 - 1 if it is greater.
    pub line: u32,
    pub why: Refused,
}

/// All lines of a settings file that are refused, in order. There is at least one.
#[derive(Debug, Drop)]
pub struct Refusals {
    pub first: RefusedLine,
    pub more: List<RefusedLine>,
}

/// Adds a line, if it is refused.
pub(crate) fn add(
    found: &mut Option<Refusals>,
    alloc: Global,
    number: u32,
    why: Option<Refused>,
) -> Result<(), NoMem>
    ensures { OnOk result (found_in found.new ≡ found_in found.old ++ onto number why []) }
{
    let Some(why) = why else {
        return Ok(());
    };
    let refused = RefusedLine { line: number, why };
    match found {
        None => {
            *found = Some(Refusals {
                first: refused,
                more: List::new(alloc),
            });
            Ok(())
        }
        Some(lines) => match lines.more.push(refused) {
            Ok(()) => Ok(()),
            Err(_) => Err(NoMem),
        },
    }
}

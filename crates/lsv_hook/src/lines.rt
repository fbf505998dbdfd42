ghost use Rattle.std.specs.Prelude.{◌≡◌};
ghost use Rattle.lsv_event.specs.JsonLine.{json_line};
ghost use Rattle.lsv_event.specs.SudoLine.{sudo_line};
ghost use Rattle.lsv_event.specs.declared.event.Kind.TheVariants.{Json, Sudo};

use crate::{Formatter, LineWriter};
use lsv_base::{Bytes, NoMem};
use lsv_event::{Event, Kind, json_line, sudo_line};
use std::alloc::Global;

/// Writes lines in sudo's style.
#[derive(Clone, Copy, Debug)]
pub struct SudoLines;

/// Writes lines of JSON.
#[derive(Clone, Copy, Debug)]
pub struct JsonLines;

impl LineWriter for SudoLines {
    ghost line = { λ _ event. sudo_line event };

    fn write_line(&self, alloc: Global, event: &Event) -> Result<Bytes, NoMem> {
        sudo_line(alloc, event)
    }
}

impl LineWriter for JsonLines {
    ghost line = { λ _ event. json_line event };

    fn write_line(&self, alloc: Global, event: &Event) -> Result<Bytes, NoMem> {
        json_line(alloc, event)
    }
}

impl Formatter<SudoLines> {
    /// The formatter of lines in sudo's style.
    pub fn sudo() -> Self
        ensures { result.kind ≡ Sudo }
    {
        Formatter::new(SudoLines, Kind::Sudo)
    }
}

impl Formatter<JsonLines> {
    /// The formatter of lines of JSON.
    pub fn json() -> Self
        ensures { result.kind ≡ Json }
    {
        Formatter::new(JsonLines, Kind::Json)
    }
}

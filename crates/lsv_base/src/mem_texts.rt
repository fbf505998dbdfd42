ghost use Rattle.std.specs.Prelude.{◌≡◌, List, Option, IfOk, IsErrOf, find};
ghost use Rattle.lsv_base.specs.Outside.{HasCause};
ghost use Rattle.lsv_base.specs.Script.{IsListed, script_of, answered, failed};
ghost use Rattle.lsv_base.specs.MemTexts.{text_at};
ghost use Rattle.std.specs.Option.{option_copied};
ghost use Rattle.std.specs.Str.{bytes_eq};

use crate::{Bytes, List, Script, TextFault, Texts};
use std::alloc::Global;
use std::marker::Model;

/// A text and its path.
#[derive(Debug, Drop)]
pub struct Text {
    pub path: Bytes,
    pub bytes: Bytes,
}

/// Texts in memory. Contracts see the texts and how the calls went.
#[derive(Debug, Drop)]
pub struct MemTexts {
    texts: List<Text>,
    script: Script,
}

impl Model for MemTexts {
    ghost use Rattle.lsv_base.specs.MemTexts.{TextsState};

    ghost Value = { TextsState };

    ghost view = { λ t. record { texts = t.texts; script = t.script } };
}

impl MemTexts {
    /// These texts, of which the first of a path counts. The readings with the numbers in `fail`, counted from 1,
    /// fail.
    pub fn new(_alloc: Global, texts: List<Text>, fail: Vec<u64>) -> Self
        ensures texts { result.texts ≡ texts }
        ensures script { result.script ≡ script_of fail.items }
    {
        MemTexts {
            texts,
            script: Script::new(fail),
        }
    }

    /// How many readings failed because memory of its own was refused. It needs none, so this stays 0: where the
    /// memory of the answer is refused, the answer says so.
    pub fn refused(&self) -> u64
        ensures { result ≡ self.now.script.refused }
    {
        self.script.refused
    }
}

impl Texts for MemTexts {
    ghost tells = { Unit {0} };

    ghost texts = { λ t. text_at t.texts };

    ghost faults = { λ t. t.script.faults };

    fn text(&mut self, alloc: Global, path: &str) -> Result<Option<Bytes>, TextFault>
        ensures text { IfOk result (λ t. t ≡ text_at self.old.texts path.now) }
        ensures same { self.new.texts ≡ self.old.texts }
        ensures listed { IsListed self.old.script → (result ≡ Err TextFault.Failed) × (self.new.script ≡ failed self.old.script) }
        ensures answered { ¬ IsListed self.old.script → self.new.script ≡ answered self.old.script }
        ensures unlisted { IsErrOf result TextFault.Failed → IsListed self.old.script }
        ensures cause { HasCause (IsErrOf result TextFault.Failed) self.old.script.faults self.new.script.faults }
    {
        if self.script.fails() {
            return Err(TextFault::Failed);
        }
        let Some(text) = text_of(self.texts.as_slice(), path) else {
            return Ok(None);
        };
        Ok(Some(text.bytes.copy(alloc)?))
    }
}

/// The first text of this path.
fn text_of<'a>(texts: &'a [Text], path: &str) -> Option<&'a Text>
    ensures { option_copied result ≡ find (λ text. bytes_eq text.path path.now) texts.now }
{
    texts
        .iter()
        .find(|text| text.path.as_slice() == path.as_bytes())
}

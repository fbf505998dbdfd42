ghost use Rattle.std.specs.Prelude.{◌≡◌, ◌⊎◌, ℕ, List, [], ◌∷◌, ◌++◌, IsErr, OnOk, OnErr};
ghost use Rattle.lsv_base.specs.Outside.{HasCause};
ghost use Rattle.lsv_base.specs.Script.{IsListed, script_of, answered, failed, unserved, one_more};
ghost use Rattle.lsv_play.specs.declared.screen.Item.{Item};

use crate::{Item, Screen};
use lsv_base::{Bytes, List, Script, SinkFault};
use std::alloc::Global;
use std::marker::Model;

/// A screen in memory, which keeps what is shown. Contracts see what was shown and how its calls went.
#[derive(Debug, Drop)]
pub struct MemScreen {
    alloc: Global,
    items: List<Item>,
    script: Script,
}

impl Model for MemScreen {
    ghost use Rattle.lsv_play.specs.MemScreen.{ScreenState};

    ghost Value = { ScreenState };

    ghost view = { λ s. record { shown = s.items; script = s.script } };
}

impl MemScreen {
    /// A screen with nothing on it, whose calls with the numbers in `fail`, counted from 1, fail.
    pub fn new(alloc: Global, fail: Vec<u64>) -> Self
        ensures shown { result.shown ≡ [] }
        ensures script { result.script ≡ script_of fail.items }
    {
        MemScreen {
            alloc,
            items: List::new(alloc),
            script: Script::new(fail),
        }
    }

    /// All that was shown, in order.
    pub fn items(&self) -> &[Item]
        ensures { result.now ≡ self.now.shown }
    {
        self.items.as_slice()
    }

    /// How many calls failed because memory was refused.
    pub fn refused(&self) -> u64
        ensures { result ≡ self.now.script.refused }
    {
        self.script.refused
    }

    /// Adds an item. If memory is refused, that is counted.
    fn keep(&mut self, item: Item) -> Result<(), SinkFault>
        ensures ok { OnOk result ((self.new.shown ≡ self.old.shown ++ item ∷ []) × (self.new.script ≡ self.old.script)) }
        ensures err { OnErr result ((self.new.shown ≡ self.old.shown)
            × (self.new.script ≡ record self.old.script { faults = one_more self.old.script.faults; refused = one_more self.old.script.refused })) }
        ensures cause { HasCause (IsErr result) self.old.script.faults self.new.script.faults }
    {
        match self.items.push(item) {
            Ok(()) => Ok(()),
            Err(_) => {
                self.script.refuse();
                Err(SinkFault)
            }
        }
    }
}

impl Screen for MemScreen {
    ghost tells = { Unit {0} };

    ghost shown = { λ s. s.shown };

    ghost faults = { λ s. s.script.faults };

    /// A failed wait shows nothing.
    fn wait(&mut self, nanos: u64) -> Result<(), SinkFault>
        ensures shown { OnOk result (self.new.shown ≡ self.old.shown ++ Item.Wait nanos ∷ []) }
        ensures failed { OnErr result (self.new.shown ≡ self.old.shown) }
        ensures listed { IsListed self.old.script → IsErr result × (self.new.script ≡ failed self.old.script) }
        ensures answered { OnOk result (self.new.script ≡ answered self.old.script) }
        ensures unserved { ¬ IsListed self.old.script → OnErr result (self.new.script ≡ unserved self.old.script) }
        ensures cause { HasCause (IsErr result) self.old.script.faults self.new.script.faults }
    {
        if self.script.fails() {
            return Err(SinkFault);
        }
        self.keep(Item::Wait(nanos))
    }

    /// A failed put shows nothing.
    fn put(&mut self, bytes: &[u8]) -> Result<(), SinkFault>
        ensures shown { OnOk result (self.new.shown ≡ self.old.shown ++ Item.Put bytes.now ∷ []) }
        ensures nothing { OnErr result (self.new.shown ≡ self.old.shown) }
        ensures listed { IsListed self.old.script → IsErr result × (self.new.script ≡ failed self.old.script) }
        ensures answered { OnOk result (self.new.script ≡ answered self.old.script) }
        ensures unserved { ¬ IsListed self.old.script → OnErr result (self.new.script ≡ unserved self.old.script) }
        ensures cause { HasCause (IsErr result) self.old.script.faults self.new.script.faults }
    {
        if self.script.fails() {
            return Err(SinkFault);
        }
        match Bytes::of(self.alloc, bytes) {
            Ok(copy) => self.keep(Item::Put(copy)),
            Err(_) => {
                self.script.refuse();
                Err(SinkFault)
            }
        }
    }
}

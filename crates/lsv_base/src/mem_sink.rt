ghost use Rattle.std.specs.Prelude.{◌≡◌, [], ◌++◌, IsErr, OnOk, OnErr};
ghost use Rattle.lsv_base.specs.Outside.{HasCause};
ghost use Rattle.lsv_base.specs.Script.{IsListed, script_of, answered, failed, unserved};

use crate::{Bytes, Script, Sink, SinkFault};
use std::alloc::Global;
use std::marker::Model;

/// A sink in memory, which keeps what is put. Contracts see what was put and how its calls went.
#[derive(Debug, Drop)]
pub struct MemSink {
    bytes: Bytes,
    script: Script,
}

impl Model for MemSink {
    ghost use Rattle.lsv_base.specs.MemSink.{SinkState};

    ghost Value = { SinkState };

    ghost view = { λ s. record { put = s.bytes; script = s.script } };
}

impl MemSink {
    /// A sink with nothing in it, whose writes with the numbers in `fail`, counted from 1, fail.
    pub fn new(alloc: Global, fail: Vec<u64>) -> Self
        ensures put { result.put ≡ [] }
        ensures script { result.script ≡ script_of fail.items }
    {
        MemSink {
            bytes: Bytes::new(alloc),
            script: Script::new(fail),
        }
    }

    /// All that was put.
    pub fn bytes(&self) -> &[u8]
        ensures { result.now ≡ self.now.put }
    {
        self.bytes.as_slice()
    }

    /// How many writes failed because memory was refused.
    pub fn refused(&self) -> u64
        ensures { result ≡ self.now.script.refused }
    {
        self.script.refused
    }
}

impl Sink for MemSink {
    ghost tells = { Unit {0} };

    ghost put = { λ s. s.put };

    ghost faults = { λ s. s.script.faults };

    /// A failed write puts nothing.
    fn write(&mut self, bytes: &[u8]) -> Result<(), SinkFault>
        ensures put { OnOk result (self.new.put ≡ self.old.put ++ bytes.now) }
        ensures nothing { OnErr result (self.new.put ≡ self.old.put) }
        ensures listed { IsListed self.old.script → IsErr result × (self.new.script ≡ failed self.old.script) }
        ensures answered { OnOk result (self.new.script ≡ answered self.old.script) }
        ensures unserved { ¬ IsListed self.old.script → OnErr result (self.new.script ≡ unserved self.old.script) }
        ensures cause { HasCause (IsErr result) self.old.script.faults self.new.script.faults }
    {
        if self.script.fails() {
            return Err(SinkFault);
        }
        match self.bytes.add(bytes) {
            Ok(()) => Ok(()),
            Err(NoMem) => {
                self.script.refuse();
                Err(SinkFault)
            }
        }
    }
}

// Who says what failed, on standard error, and how often something did.
ghost use Rattle.std.specs.Prelude.{◌≤◌, ◌≡◌, IfOk, OnErr};
ghost use Rattle.lsv_defs.specs.Causes.{HasRisen};

use crate::notices::Notices;

/// Whose faults are said on standard error, a line each, and how many there were.
#[derive(Drop)]
pub struct Reports {
    pub rt: HostRuntime,
    /// The name before each line.
    pub program: &'static str,
    /// Where its lines go that nobody is to wait for.
    pub notices: Notices,
    /// At most 2^64 - 1.
    pub faults: u64,
}

impl Reports {
    /// No fault yet.
    pub fn new(rt: HostRuntime, program: &'static str) -> Self
        ensures { result.faults ≡ 0 }
    {
        Reports {
            rt,
            program,
            notices: Notices::new(rt, program),
            faults: 0,
        }
    }

    /// Says this text in a line, if standard error takes it at once.
    pub fn say(&self, text: &str) {
        let _ = eprintln!(self.notices; "{text}");
    }

    /// What a call answered, after the caller said why if it failed. A failure is counted, and becomes this fault.
    pub fn checked<T: Drop, E: Drop, F: Drop>(
        &mut self,
        answer: Result<T, E>,
        fault: F,
    ) -> Result<T, F>
        ensures ok { IfOk result (λ t. answer ≡ Ok t) }
        ensures counts { self.old.faults ≤ self.new.faults }
        ensures cause { OnErr result (HasRisen self.old.faults self.new.faults) }
    {
        match answer {
            Ok(t) => Ok(t),
            Err(_) => {
                self.faults = self.faults.saturating_add(1);
                Err(fault)
            }
        }
    }
}

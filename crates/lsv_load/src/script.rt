ghost use Rattle.std.specs.Prelude.{◌≡◌, ◌≤◌, IfOk};
ghost use Rattle.lsv_load.specs.Load.{load_script};

use lsv_base::NoMem;
use lsv_gen::conversation;
use lsv_port::Step;
use std::alloc::Global;

/// What happens at the port of a load of this many conversations: each has a link of its own, which is opened, gives its
/// bytes and ends, one after another. Stop comes last.
pub(crate) fn load_script(alloc: Global, count: u32) -> Result<Vec<Step>, NoMem>
    requires { count ≤ 10000 }
    ensures { IfOk result (λ steps. steps.items ≡ load_script count) }
{
    let mut steps = Vec::new(alloc);
    for before in 0..count {
        let i = before + 1;
        steps.push(Step::Open(i))?;
        steps.push(Step::Give(i, conversation(alloc, i)?))?;
        steps.push(Step::Last(i))?;
    }
    steps.push(Step::Stop)?;
    Ok(steps)
}

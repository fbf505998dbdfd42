ghost use Rattle.std.specs.Prelude.{◌≡◌};
ghost use Rattle.lsv_msg.specs.Format.{Gives, read};
ghost use Rattle.lsv_msg.specs.Messages.{time_spec};

use crate::MsgFault;
use crate::fields::{Fields, take_all};
use crate::rows::{set_int32, set_int64};
use lsv_base::TimeSpec;
use lsv_wire::Field;
use std::alloc::Global;

#[derive(Drop)]
struct TimeFields {
    sec: Option<i64>,
    nsec: Option<i32>,
}

impl Fields for TimeFields {
    ghost use Rattle.std.specs.Prelude.{Option, ℤ};
    ghost use Rattle.lsv_base.specs.declared.time.TimeSpec.{TimeSpec};
    ghost use Rattle.lsv_msg.specs.Messages.{time_spec};

    ghost State = { Option ℤ × Option ℤ };

    ghost Whole = { TimeSpec };

    ghost format = { time_spec };

    ghost state = { λ f. (f.sec, f.nsec) };

    fn take(
        &mut self,
        _alloc: Global,
        _bytes: &[u8],
        _key: usize,
        field: Field,
    ) -> Result<(), MsgFault> {
        match field.number {
            1 => set_int64(&mut self.sec, field),
            2 => set_int32(&mut self.nsec, field),
            _ => Ok(()),
        }
    }
}

/// The time that these bytes are.
#[tactic(auto, unfolding(crate::specs::Format::read))]
pub fn read_time(alloc: Global, bytes: &[u8]) -> Result<TimeSpec, MsgFault>
    ensures { Gives (λ t. t) result (read time_spec bytes.now) }
{
    let mut fields = TimeFields {
        sec: None,
        nsec: None,
    };
    take_all(alloc, bytes, &mut fields)?;
    Ok(TimeSpec {
        sec: fields.sec.unwrap_or(0),
        nsec: fields.nsec.unwrap_or(0),
    })
}

ghost use Rattle.std.specs.Prelude.{◌≡◌, length};
ghost use Rattle.lsv_wire.specs.Fields.{IsWithin, fields_of};
ghost use Rattle.lsv_msg.specs.Format.{Format, Gives, judged};

use crate::MsgFault;
use lsv_wire::{Field, read_field};
use std::alloc::Global;

/// What is known of the fields of a message while they are read. The ghost members are the table of its fields, and
/// what is known in that table's terms.
pub trait Fields {
    ghost State: { Type 0 };

    ghost Whole: { Type 0 };

    ghost format: { Format State Whole };

    ghost state: { Self → State };

    /// Takes one more field of these bytes, whose key is at this place.
    fn take(
        &mut self,
        alloc: Global,
        bytes: &[u8],
        key: usize,
        field: Field,
    ) -> Result<(), MsgFault>
        requires { IsWithin (length bytes.now) field.value }
        ensures { Gives (λ _. state self.new) result (format.take bytes.now key (state self.old) field) };
}

/// Takes all fields of these bytes, from front to back.
pub fn take_all<F: Fields>(alloc: Global, bytes: &[u8], fields: &mut F) -> Result<(), MsgFault>
    ensures { Gives (λ _. F.state fields.new) result (judged (F.format.take bytes.now) bytes.now 0 (F.state fields.old) (fields_of bytes.now).fields (fields_of bytes.now).fault) }
{
    let mut at = 0;
    while let Some((field, next)) = read_field(bytes, at)? {
        fields.take(alloc, bytes, at, field)?;
        at = next;
    }
    Ok(())
}

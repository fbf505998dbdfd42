ghost use Rattle.std.specs.Prelude.{◌≡◌, ◌++◌, ◌∷◌, [], OnOk, IfErr};
ghost use Rattle.std.specs.Int.{w64, cast_signed};
ghost use Rattle.lsv_msg.specs.declared.fault.MsgFault.TheVariants as faults;
ghost use Rattle.lsv_msg.specs.Format.{Gives, extended, packed_from};

use crate::MsgFault;
use lsv_base::List;
use lsv_wire::varint_at;

/// Takes one more number, whose 64 bits are those of a varint.
pub fn push_number(numbers: &mut List<i64>, bits: u64) -> Result<(), MsgFault>
    ensures ok { OnOk result (numbers.new ≡ numbers.old ++ cast_signed w64 bits ∷ []) }
    ensures err { IfErr result (λ e. e ≡ faults.NoMem) }
{
    match numbers.push(bits.cast_signed()) {
        Ok(()) => Ok(()),
        Err(_) => Err(MsgFault::NoMem),
    }
}

/// Takes the numbers of a packed list. A fault has the place of the field's key.
pub fn push_packed(numbers: &mut List<i64>, text: &[u8], key: usize) -> Result<(), MsgFault>
    ensures { Gives (λ _. numbers.new) result (extended numbers.old (packed_from text.now key 0)) }
{
    let mut at = 0;
    while at < text.len() {
        let (bits, next) = varint_at(text, key, at)?;
        push_number(numbers, bits)?;
        at = next;
    }
    Ok(())
}

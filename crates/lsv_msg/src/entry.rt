//! The entries of a command's information.

ghost use Rattle.std.specs.Prelude.{◌≡◌, length, None};
ghost use Rattle.lsv_wire.specs.Fields.{IsWithin};
ghost use Rattle.lsv_msg.specs.Format.{Gives, read, pushed_said, message};
ghost use Rattle.lsv_msg.specs.Messages.{string_list, number_list, entry_value, info_message};

use crate::MsgFault;
use crate::fields::{Fields, take_all};
use crate::rows::{
    bytes_of, no_second, number_of, push_numbers, push_text, set_text, text_or_empty,
};
use lsv_base::{Bytes, List};
use lsv_info::{Entry, Value};
use lsv_wire::Field;
use std::alloc::Global;

#[derive(Drop)]
struct StringListFields {
    strings: List<Bytes>,
}

impl Fields for StringListFields {
    ghost use Rattle.std.specs.Prelude.{List, ℕ};
    ghost use Rattle.lsv_msg.specs.Messages.{string_list};

    ghost State = { List (List ℕ) };

    ghost Whole = { List (List ℕ) };

    ghost format = { string_list };

    ghost state = { λ f. f.strings };

    fn take(
        &mut self,
        alloc: Global,
        bytes: &[u8],
        _key: usize,
        field: Field,
    ) -> Result<(), MsgFault> {
        match field.number {
            1 => push_text(alloc, &mut self.strings, bytes, field),
            _ => Ok(()),
        }
    }
}

/// The strings that these bytes are.
#[tactic(auto, unfolding(crate::specs::Format::read))]
fn read_strings(alloc: Global, bytes: &[u8]) -> Result<List<Bytes>, MsgFault>
    ensures { Gives (λ strings. strings) result (read string_list bytes.now) }
{
    let mut fields = StringListFields {
        strings: List::new(alloc),
    };
    take_all(alloc, bytes, &mut fields)?;
    Ok(fields.strings)
}

#[derive(Drop)]
struct NumberListFields {
    numbers: List<i64>,
}

impl Fields for NumberListFields {
    ghost use Rattle.std.specs.Prelude.{List, ℤ};
    ghost use Rattle.lsv_msg.specs.Messages.{number_list};

    ghost State = { List ℤ };

    ghost Whole = { List ℤ };

    ghost format = { number_list };

    ghost state = { λ f. f.numbers };

    fn take(
        &mut self,
        _alloc: Global,
        bytes: &[u8],
        key: usize,
        field: Field,
    ) -> Result<(), MsgFault> {
        match field.number {
            1 => push_numbers(&mut self.numbers, bytes, key, field),
            _ => Ok(()),
        }
    }
}

/// The numbers that these bytes are.
#[tactic(auto, unfolding(crate::specs::Format::read))]
fn read_numbers(alloc: Global, bytes: &[u8]) -> Result<List<i64>, MsgFault>
    ensures { Gives (λ numbers. numbers) result (read number_list bytes.now) }
{
    let mut fields = NumberListFields {
        numbers: List::new(alloc),
    };
    take_all(alloc, bytes, &mut fields)?;
    Ok(fields.numbers)
}

/// The value of a field, where its number is that of one.
fn value_of(alloc: Global, bytes: &[u8], field: Field) -> Result<Option<Value>, MsgFault>
    requires { IsWithin (length bytes.now) field.value }
    ensures { Gives (λ v. v) result (entry_value.take bytes.now 0 None field) }
{
    match field.number {
        2 => Ok(Some(Value::Num(number_of(field)?.cast_signed()))),
        3 => Ok(Some(Value::Text(Bytes::of(alloc, bytes_of(bytes, field)?)?))),
        4 => Ok(Some(Value::Texts(read_strings(alloc, bytes_of(bytes, field)?)?))),
        5 => Ok(Some(Value::Nums(read_numbers(alloc, bytes_of(bytes, field)?)?))),
        _ => Ok(None),
    }
}

/// Takes the one value of an entry.
fn set_value(
    alloc: Global,
    slot: &mut Option<Value>,
    bytes: &[u8],
    field: Field,
) -> Result<(), MsgFault>
    requires { IsWithin (length bytes.now) field.value }
    ensures { Gives (λ _. slot.new) result (entry_value.take bytes.now 0 slot.old field) }
{
    if slot.is_some() {
        return no_second(field, 2, 5);
    }
    *slot = value_of(alloc, bytes, field)?;
    Ok(())
}

#[derive(Drop)]
struct EntryFields {
    key: Option<Bytes>,
    value: Option<Value>,
}

impl Fields for EntryFields {
    ghost use Rattle.std.specs.Prelude.{Option, List, ℕ};
    ghost use Rattle.lsv_info.specs.declared.info.Entry.{Entry};
    ghost use Rattle.lsv_info.specs.declared.info.Value.{Value};
    ghost use Rattle.lsv_msg.specs.Messages.{info_message};

    ghost State = { Option (List ℕ) × Option Value };

    ghost Whole = { Option Entry };

    ghost format = { info_message };

    ghost state = { λ f. (f.key, f.value) };

    fn take(
        &mut self,
        alloc: Global,
        bytes: &[u8],
        _key: usize,
        field: Field,
    ) -> Result<(), MsgFault> {
        match field.number {
            1 => set_text(alloc, &mut self.key, bytes, field),
            _ => set_value(alloc, &mut self.value, bytes, field),
        }
    }
}

/// The entry that these bytes are. None where they have no value.
#[tactic(auto, unfolding(crate::specs::Format::read))]
fn read_entry(alloc: Global, bytes: &[u8]) -> Result<Option<Entry>, MsgFault>
    ensures { Gives (λ e. e) result (read info_message bytes.now) }
{
    let mut fields = EntryFields {
        key: None,
        value: None,
    };
    take_all(alloc, bytes, &mut fields)?;
    let key = text_or_empty(alloc, fields.key);
    match fields.value {
        Some(value) => Ok(Some(Entry { key, value })),
        None => Ok(None),
    }
}

/// Takes one more entry, where there is a value.
pub fn push_entry(
    alloc: Global,
    entries: &mut List<Entry>,
    bytes: &[u8],
    field: Field,
) -> Result<(), MsgFault>
    requires { IsWithin (length bytes.now) field.value }
    ensures { Gives (λ _. entries.new) result (pushed_said entries.old ((message info_message).read bytes.now field)) }
{
    let Some(entry) = read_entry(alloc, bytes_of(bytes, field)?)? else {
        return Ok(());
    };
    match entries.push(entry) {
        Ok(()) => Ok(()),
        Err(_) => Err(MsgFault::NoMem),
    }
}

ghost use Rattle.std.specs.Prelude.{◌≡◌, IfOk, option_map, find};
ghost use Rattle.std.specs.Option.{option_copied};
ghost use Rattle.lsv_info.specs.Info.{counting, text_in, text_of, value_of};

use lsv_base::{Bytes, List, NoMem, copy_numbers, copy_texts};
use std::alloc::Global;

/// The value of an entry (InfoMessage of sudo_logsrv.proto(5)). Texts are bytes, which needn't be UTF-8.
#[derive(Debug, Drop)]
pub enum Value {
    Num(i64),
    Text(Bytes),
    Texts(List<Bytes>),
    Nums(List<i64>),
}

/// A key and its value.
#[derive(Debug, Drop)]
pub struct Entry {
    pub key: Bytes,
    pub value: Value,
}

/// What is told of a command. Of several entries with one key the last counts.
#[derive(Debug, Drop)]
pub struct Info {
    pub entries: List<Entry>,
}

impl Info {
    /// The text of this key. None where there is no entry of the key, or the one that counts is no text.
    pub fn text_of(&self, key: &[u8]) -> Option<&[u8]>
        ensures { option_map (λ text. text.now) result ≡ text_of self.now key.now }
    {
        let entry = last_of(self.entries.as_slice(), key)?;
        text_in(&entry.value)
    }

    /// The value of this key: that of the entry that counts. None where there is no entry of the key.
    pub fn value_of(&self, key: &[u8]) -> Option<&Value>
        ensures { option_copied result ≡ value_of self.now key.now }
    {
        let entry = last_of(self.entries.as_slice(), key)?;
        Some(&entry.value)
    }

    /// A copy of its own.
    pub fn copy(&self, alloc: Global) -> Result<Self, NoMem>
        ensures { IfOk result (λ copy. copy ≡ self.now) }
    {
        Ok(Info {
            entries: copy_entries(alloc, self.entries.as_slice())?,
        })
    }
}

impl Entry {
    /// A copy of its own.
    pub fn copy(&self, alloc: Global) -> Result<Self, NoMem>
        ensures { IfOk result (λ copy. copy ≡ self.now) }
    {
        Ok(Entry {
            key: self.key.copy(alloc)?,
            value: self.value.copy(alloc)?,
        })
    }
}

impl Value {
    /// A copy of its own.
    pub fn copy(&self, alloc: Global) -> Result<Self, NoMem>
        ensures { IfOk result (λ copy. copy ≡ self.now) }
    {
        match self {
            Value::Num(number) => Ok(Value::Num(*number)),
            Value::Text(text) => Ok(Value::Text(text.copy(alloc)?)),
            Value::Texts(texts) => Ok(Value::Texts(copy_texts(alloc, texts.as_slice())?)),
            Value::Nums(numbers) => Ok(Value::Nums(copy_numbers(alloc, numbers.as_slice())?)),
        }
    }
}

fn copy_entries(alloc: Global, entries: &[Entry]) -> Result<List<Entry>, NoMem>
    ensures { IfOk result (λ copy. copy ≡ entries.now) }
{
    let mut copy = Vec::with_capacity(alloc, entries.len())?;
    for entry in entries {
        copy.push(entry.copy(alloc)?)?;
    }
    Ok(List::from_vec(copy))
}

/// The last entry of this key.
fn last_of<'a>(entries: &'a [Entry], key: &[u8]) -> Option<&'a Entry>
    ensures { option_copied result ≡ counting entries.now key.now }
{
    entries
        .iter()
        .rev()
        .find(|entry| entry.key.as_slice() == key)
}

fn text_in(value: &Value) -> Option<&[u8]>
    ensures { option_map (λ text. text.now) result ≡ text_in value.now }
{
    match value {
        Value::Text(text) => Some(text.as_slice()),
        _ => None,
    }
}

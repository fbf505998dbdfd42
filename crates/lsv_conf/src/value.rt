ghost use Rattle.std.specs.Prelude.{◌≡◌, IfOk};
ghost use Rattle.lsv_conf.specs.Inner.{are_prompts};
ghost use Rattle.lsv_conf.specs.Values.{is_prompt, kind_of, prompts_of, truth_of};

use crate::Kind;
use crate::text::{cut, trimmed};
use lsv_base::{Bytes, List, NoMem};
use std::alloc::Global;

/// What a truth value says, where it is one.
pub fn truth_of(value: &[u8]) -> Option<bool>
    ensures { result ≡ truth_of value.now }
{
    match value {
        b"true" | b"yes" | b"on" | b"1" => Some(true),
        b"false" | b"no" | b"off" | b"0" => Some(false),
        _ => None,
    }
}

/// The form of event lines that a value names, where it names one.
pub fn kind_of(value: &[u8]) -> Option<Kind>
    ensures { result ≡ kind_of value.now }
{
    match value {
        b"sudo" => Some(Kind::Sudo),
        b"json" => Some(Kind::Json),
        _ => None,
    }
}

/// Whether a text may be a prompt: 1 to 64 bytes.
fn is_prompt(text: &[u8]) -> bool
    ensures { result ≡ is_prompt text.now }
{
    !text.is_empty() && text.len() <= 64
}

/// The texts between commas, without the blanks at their ends.
pub fn prompts_of(alloc: Global, value: &[u8]) -> Result<List<Bytes>, NoMem>
    ensures { IfOk result (λ prompts. prompts ≡ prompts_of value.now) }
{
    let mut prompts = Vec::new(alloc);
    let mut rest = Some(value);
    while let Some(bytes) = rest {
        let (text, more) = cut(b',', bytes);
        prompts.push(Bytes::of(alloc, trimmed(text))?)?;
        rest = more;
    }
    Ok(List::from_vec(prompts))
}

/// Whether these are one to sixteen prompts.
pub fn are_prompts(prompts: &[Bytes]) -> bool
    ensures { result ≡ are_prompts prompts.now }
{
    prompts.len() <= 16 && prompts.iter().all(|text| is_prompt(text.as_slice()))
}

//! Words that are text, and words that are identifiers of logs.
ghost use Rattle.std.specs.Prelude.{◌≡◌, None, Some, Err, IfOk, map};
ghost use Rattle.std.specs.List.{list_all};
ghost use Rattle.std.specs.Str.{is_utf8};
ghost use Rattle.lsv_args.specs.declared.command.ArgFault.TheVariants as faults;
ghost use Rattle.lsv_check_args.specs.Request.{numbers_in};

use lsv_args::ArgFault;
use lsv_base::{Bytes, List, LogNo};
use std::alloc::Global;
use std::str;

/// Whether each word is UTF-8.
pub(crate) fn are_text(words: &[Bytes]) -> bool
    ensures { result ≡ list_all is_utf8 words.now }
{
    words.iter().all(|word| is_text(word.as_slice()))
}

/// Whether bytes are UTF-8.
fn is_text(word: &[u8]) -> bool
    ensures { result ≡ is_utf8 word.now }
{
    let Ok(_) = str::from_utf8(word) else {
        return false;
    };
    true
}

/// The numbers of the logs with these identifiers. `Usage` if one is no identifier.
pub(crate) fn numbers_in(alloc: Global, ids: &[&str]) -> Result<List<LogNo>, ArgFault>
    ensures ok { IfOk result (λ numbers. numbers_in (map (λ id. id.now) ids.entry.now) ≡ Some numbers) }
    ensures usage { result ≡ Err faults.Usage → numbers_in (map (λ id. id.now) ids.entry.now) ≡ None }
{
    let mut numbers = Vec::new(alloc);
    for id in ids {
        let Some(number) = LogNo::read(id.as_bytes()) else {
            return Err(ArgFault::Usage);
        };
        let Ok(()) = numbers.push(number) else {
            return Err(ArgFault::NoMem);
        };
    }
    Ok(List::from_vec(numbers))
}

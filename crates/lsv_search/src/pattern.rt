ghost use Rattle.std.specs.Prelude.{◌≡◌, ◌≢◌, IfOk, IsErrOf};
ghost use Rattle.lsv_search.specs.Patterns.{IsPattern, IsRefusedPattern, is_found};
ghost use Rattle.lsv_search.specs.declared.pattern.PatternFault.TheVariants as faults;

use lsv_base::NoMem;
use regex::{Error, Regex};
use std::alloc::Global;
use std::marker::Model;

/// A pattern of regex. Contracts see its text.
#[derive(Drop)]
pub struct Pattern {
    regex: Regex,
}

impl Model for Pattern {
    ghost use Rattle.std.specs.Prelude.{◌≡◌, ℕ, List};
    ghost use Rattle.regex.specs.Strings.{IsReadFromSource, regex_config, regex_source};
    ghost use Rattle.regex_syntax.specs.Verdict.{default_config};

    ghost Value = { List ℕ };

    ghost view = { λ p. regex_source p.regex };

    ghost invariant = { λ p. IsReadFromSource p.regex × (regex_config p.regex ≡ default_config) };
}

/// Why a text isn't compiled.
#[derive(Clone, Copy, Debug, PartialEq, Eq)]
pub enum PatternFault {
    /// regex refuses it.
    Refused,
    NoMem,
}

impl Pattern {
    /// Compiles a text, or fails if regex refuses it.
    pub fn new(alloc: Global, text: &str) -> Result<Pattern, PatternFault>
        ensures text { IfOk result (λ p. p ≡ text.now) }
        ensures pattern { IfOk result (λ _. IsPattern text.now) }
        ensures refused { IsErrOf result faults.Refused → IsRefusedPattern text.now }
    {
        match Regex::new(alloc, text) {
            Ok(regex) => Ok(Pattern { regex }),
            Err(Error::OutOfMemory) => Err(PatternFault::NoMem),
            Err(_) => Err(PatternFault::Refused),
        }
    }

    /// Whether it is found in a text.
    pub fn is_found(&self, alloc: Global, text: &str) -> Result<bool, NoMem>
        ensures { IfOk result (λ found. found ≡ is_found self.now text.now) }
    {
        let mut matcher = self.regex.matcher(alloc)?;
        Ok(matcher.is_match(text))
    }
}

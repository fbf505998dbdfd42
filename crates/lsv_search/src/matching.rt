ghost use Rattle.std.specs.Prelude.{◌≡◌, ◌∷◌, ◌++◌, IfOk, OnOk, Option, codes, drop, reverse};
ghost use Rattle.std.specs.List.{flat_map};
ghost use Rattle.std.specs.Str.{bytes_eq};
ghost use Rattle.std.specs.Str.Lossy.{utf8_lossy};
ghost use Rattle.lsv_event.specs.SudoLine.{command_text, terminal};
ghost use Rattle.lsv_info.specs.Info.{text_of};
ghost use Rattle.lsv_search.specs.Evaluation.{applied, first_of, rest_of};
ghost use Rattle.lsv_search.specs.Grammar.{Expression};
ghost use Rattle.lsv_search.specs.Meaning.{has, matches, moment, says, value_of};
ghost use Rattle.lsv_search.specs.Patterns.{is_found};
ghost use Rattle.lsv_search.specs.Steps.{AreStepsOf};

use crate::Expr;
use crate::pattern::Pattern;
use crate::step::Step;
use crate::test::Test;
use lsv_base::{Bytes, NoMem, TimeSpec};
use lsv_info::{Head, Info, Value};
use std::alloc::Global;

/// Whether an expression is true of the head of a log. It takes memory in proportion to the expression, the command's
/// text and what regex keeps for a search.
pub fn matches(alloc: Global, e: &Expr, head: &Head) -> Result<bool, NoMem>
    ensures { (searched : Option Expression) → AreStepsOf searched e.now → IfOk result (λ found. found ≡ matches searched head.now) }
{
    let mut said = Vec::new(alloc);
    for step in &e.steps {
        apply(alloc, step, head, &mut said)?;
    }
    Ok(last(&mut said))
}

/// Does a step: `said` is what the parts before it say that aren't taken yet.
fn apply(alloc: Global, step: &Step, head: &Head, said: &mut Vec<bool>) -> Result<(), NoMem>
    ensures { OnOk result (reverse said.new.items ≡ applied head.now (reverse said.old.items) step.now) }
{
    let value = match step {
        Step::Test(test) => says(alloc, test, head)?,
        Step::Not => !last(said),
        Step::And => {
            let second = last(said);
            last(said) && second
        }
        Step::Or => {
            let second = last(said);
            last(said) || second
        }
    };
    said.push(value)?;
    Ok(())
}

/// Takes what was said last.
fn last(said: &mut Vec<bool>) -> bool
    ensures value { result ≡ first_of (reverse said.old.items) }
    ensures rest { reverse said.new.items ≡ rest_of (reverse said.old.items) }
{
    said.pop().unwrap_or(true)
}

/// What a test says of a head.
fn says(alloc: Global, test: &Test, head: &Head) -> Result<bool, NoMem>
    ensures { IfOk result (λ b. b ≡ says test.now head.now) }
{
    let info = &head.info;
    match test {
        Test::Command(pattern) => has_command(alloc, info, pattern),
        Test::Cwd(word) => Ok(is_text(info, b"submitcwd", word)),
        Test::Group(word) => Ok(is_text(info, b"rungroup", word)),
        Test::Host(word) => Ok(is_text(info, b"submithost", word)),
        Test::Runas(word) => Ok(is_text(info, b"runuser", word)),
        Test::Tty(word) => Ok(is_terminal(info, word)),
        Test::User(word) => Ok(is_text(info, b"submituser", word)),
        Test::FromDate(seconds) => Ok(moment(*seconds) <= value_of(head.submit)),
        Test::ToDate(seconds) => Ok(value_of(head.submit) <= moment(*seconds)),
    }
}

/// Whether the text of this key is this word.
fn is_text(info: &Info, key: &[u8], word: &Bytes) -> bool
    ensures { result ≡ has (λ text. bytes_eq text word.now) (text_of info.now key.now) }
{
    match info.text_of(key) {
        Some(text) => text == word.as_slice(),
        None => false,
    }
}

/// Whether the terminal is this one, with or without `/dev/`.
fn is_terminal(info: &Info, word: &Bytes) -> bool
    ensures { result ≡ has (λ text. bytes_eq (terminal text) (terminal word.now)) (text_of info.now (codes "ttyname")) }
{
    match info.text_of(b"ttyname") {
        Some(text) => terminal(text) == terminal(word.as_slice()),
        None => false,
    }
}

/// The name of a terminal without `/dev/`.
fn terminal(name: &[u8]) -> &[u8]
    ensures { result.now ≡ terminal name.now }
{
    if name.starts_with(b"/dev/") {
        &name[5..]
    } else {
        name
    }
}

/// Whether the command with its arguments, as text, has a match.
fn has_command(alloc: Global, info: &Info, pattern: &Pattern) -> Result<bool, NoMem>
    ensures { IfOk result (λ b. b ≡ has (λ text. is_found pattern.now (utf8_lossy text)) (command_text info.now)) }
{
    let Some(command) = info.text_of(b"command") else {
        return Ok(false);
    };
    let mut text = Bytes::of(alloc, command)?;
    if let Some(Value::Texts(texts)) = info.value_of(b"runargv") {
        put_arguments(&mut text, texts.as_slice())?;
    }
    let shown = String::from_utf8_lossy(alloc, text.as_slice())?;
    pattern.is_found(alloc, shown.as_str())
}

/// Puts the arguments of a command at the end, each after a space. The first text is the command itself.
fn put_arguments(text: &mut Bytes, texts: &[Bytes]) -> Result<(), NoMem>
    ensures { OnOk result (text.new ≡ text.old ++ flat_map (λ argument. 32 ∷ argument) (drop 1 texts.now)) }
{
    for argument in arguments(texts) {
        text.add(b" ")?;
        text.add(argument.as_slice())?;
    }
    Ok(())
}

/// The texts after the first.
fn arguments(texts: &[Bytes]) -> &[Bytes]
    ensures { result.now ≡ drop 1 texts.now }
{
    if texts.is_empty() { texts } else { &texts[1..] }
}

/// A time in nanoseconds.
fn value_of(time: TimeSpec) -> i128
    ensures { result ≡ value_of time }
{
    i128::from(time.sec) * 1_000_000_000 + i128::from(time.nsec)
}

/// A moment's seconds in nanoseconds.
fn moment(seconds: u64) -> i128
    ensures { result ≡ moment seconds }
{
    i128::from(seconds) * 1_000_000_000
}
